// What of a table a cache may hold.

/// What of a table is to be warmed. SlateDB's type of this name, with one choice.
#[derive(Clone, Copy, Debug, PartialEq, Eq)]
pub enum CacheTarget {
    /// All of it.
    All,
}
