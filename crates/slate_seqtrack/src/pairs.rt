/// A sequence number, and when it was written.
#[derive(Clone, Copy, Debug, PartialEq, Eq)]
pub struct TrackedSeq {
    /// The sequence number.
    pub seq: u64,
    /// The time of the write, in whole seconds.
    pub ts: i64,
}

/// Which entry answers a look-up where none is equal to what is sought.
#[derive(Clone, Copy, Debug, PartialEq, Eq)]
pub enum FindOption {
    /// The next one up.
    RoundUp,
    /// The next one down.
    RoundDown,
}
