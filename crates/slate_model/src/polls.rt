// What a poll by single calls of the store keeps of all its steps.

/// What the latest manifest said at the first step of a poll by single calls.
#[derive(Clone, Copy, Debug, PartialEq, Eq)]
pub struct FirstRead {
    /// The log files up to this id were in tables.
    pub replay_after_wal_id: u64,
    /// The number of the last batch in tables.
    pub last_l0_seq: u64,
}

/// What a poll by single calls keeps of all its steps, also over a put that found another manifest and so began it anew.
#[derive(Clone, Copy, Debug, PartialEq, Eq)]
pub struct PollHistory {
    /// How many steps it has made; 2^64 - 1 stands for more, too.
    pub steps: u64,
    /// What its first step read.
    pub first: Option<FirstRead>,
    /// The greatest id of a log file that it found to be the last one.
    pub last_log: u64,
}
