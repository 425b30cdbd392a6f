// What a snapshot of a handle is.

/// A consistent read of a handle: it sees the handle's batches up to a number, whatever is written, flushed or compacted
/// later. SlateDB's `DbSnapshot`, as a plain value.
#[derive(Clone, Copy, Debug, PartialEq, Eq)]
pub struct HandleSnapshot {
    /// The number of the handle among the objects of a run.
    pub handle: u64,
    /// The number of the last batch that it sees.
    pub number: u64,
}
