/// How a reader follows a database. SlateDB's struct of this name.
#[derive(Clone, Copy, Debug, PartialEq, Eq)]
pub struct DbReaderOptions {
    /// How far apart polls are to be, in milliseconds. Nothing polls by itself; a reader that keeps a checkpoint of its own
    /// has a lifetime of at least twice that.
    pub manifest_poll_interval_ms: u64,
    /// For how long a checkpoint of the reader's own is kept unless it is renewed, in milliseconds: at least 1000.
    pub checkpoint_lifetime_ms: u64,
    /// Whether the reader sees the tables alone, and reads no log file.
    pub skip_wal_replay: bool,
    /// What a poll finds is a table in memory, with which it joins the newest ones before it that have fewer bytes of keys and
    /// values than this, and at most twice those of what comes after them. So there are few tables with fewer bytes, a table may have
    /// as many more as one poll finds, and what an opening finds is one table. At 0 each poll that finds a batch begins a table.
    pub max_memtable_bytes: u64,
    /// By how many numbers a poll may leave the reader behind what is stored. At 0, the default, a poll reads all log files
    /// that are new. Else it looks at the newest batch that log files have first, and reads them only where that would leave the
    /// reader further behind; so a confirmed write is seen by the next poll only up to as many numbers. Openings read all log files,
    /// and a reader at a checkpoint and one that skips log files don't look at it.
    pub max_lag: u64,
}

impl Default for DbReaderOptions {
    ghost use Rattle.std.specs.Prelude.{◌≡◌, false};

    ghost is_default = { λ o. o ≡ record { manifest_poll_interval_ms = 10000; checkpoint_lifetime_ms = 600000; skip_wal_replay = false; max_memtable_bytes = 67108864; max_lag = 0 } };

    fn default() -> DbReaderOptions {
        DbReaderOptions {
            manifest_poll_interval_ms: 10_000,
            checkpoint_lifetime_ms: 600_000,
            skip_wal_replay: false,
            max_memtable_bytes: 67_108_864,
            max_lag: 0,
        }
    }
}
