// The options of reads, writes, flushes and closes.
ghost use Rattle.std.specs.Prelude.{◌≡◌, None, Some, false};

/// From where a read takes its rows.
#[derive(Clone, Copy, Debug, PartialEq, Eq)]
pub enum DurabilityLevel {
    /// All that was accepted, also what is held in memory alone.
    Memory,
    /// What is durable in the object store.
    Remote,
}

impl Default for DurabilityLevel {
    ghost use Rattle.slate_types.specs.declared.options.DurabilityLevel.TheVariants.{Memory};

    ghost is_default = { λ level. level ≡ Memory };

    fn default() -> DurabilityLevel {
        DurabilityLevel::Memory
    }
}

/// How to read a key.
#[derive(Clone, Copy, Debug, PartialEq, Eq)]
pub struct ReadOptions {
    /// From where the row is taken.
    pub durability_filter: DurabilityLevel,
    /// Whether writes that aren't committed are read. Every accepted write is, so that the answer is the same.
    pub dirty: bool,
}

/// Memory, and not dirty.
impl Default for ReadOptions {
    ghost use Rattle.slate_types.specs.declared.options.DurabilityLevel.TheVariants.{Memory};

    ghost is_default = { λ o. o ≡ record { durability_filter = Memory; dirty = false } };

    fn default() -> ReadOptions {
        ReadOptions {
            durability_filter: DurabilityLevel::Memory,
            dirty: false,
        }
    }
}

/// What a flush writes.
#[derive(Clone, Copy, Debug, PartialEq, Eq)]
pub enum FlushType {
    /// The batches that aren't in log files yet, to a log file.
    Wal,
    /// The same where the handle keeps a log, and then the batches that aren't in tables yet, to a table.
    MemTable,
}

/// How to flush.
#[derive(Clone, Copy, Debug, PartialEq, Eq)]
pub struct FlushOptions {
    pub flush_type: FlushType,
}

/// How to close.
#[derive(Clone, Copy, Debug, PartialEq, Eq)]
pub struct CloseOptions {
    /// The flush that is made once the close is recorded, where there is one.
    pub flush_type: Option<FlushType>,
}

/// With a flush of memory to a table.
impl Default for CloseOptions {
    ghost use Rattle.slate_types.specs.declared.options.FlushType.TheVariants.{MemTable};

    ghost is_default = { λ o. o ≡ record { flush_type = Some MemTable } };

    fn default() -> CloseOptions {
        CloseOptions {
            flush_type: Some(FlushType::MemTable),
        }
    }
}

/// How to put a value.
#[derive(Clone, Copy, Debug, PartialEq, Eq)]
pub struct PutOptions {
    /// The time at which the value expires, in milliseconds, where it does. No read compares it.
    pub expire_ts: Option<i64>,
}

/// Without a time of expiry.
impl Default for PutOptions {
    ghost is_default = { λ o. o ≡ record { expire_ts = None } };

    fn default() -> PutOptions {
        PutOptions { expire_ts: None }
    }
}

/// How to merge an operand.
#[derive(Clone, Copy, Debug, PartialEq, Eq)]
pub struct MergeOptions {
    /// The time at which the merged value expires, in milliseconds, where it does. No read compares it.
    pub expire_ts: Option<i64>,
}

/// Without a time of expiry.
impl Default for MergeOptions {
    ghost is_default = { λ o. o ≡ record { expire_ts = None } };

    fn default() -> MergeOptions {
        MergeOptions { expire_ts: None }
    }
}

/// How to write. There is nothing to choose yet.
#[derive(Clone, Copy, Debug, PartialEq, Eq)]
pub struct WriteOptions {
    /// 0 by default, and never looked at.
    pub reserved: u8,
}

/// With 0 in the place that is kept for later.
impl Default for WriteOptions {
    ghost is_default = { λ o. o ≡ record { reserved = 0 } };

    fn default() -> WriteOptions {
        WriteOptions { reserved: 0 }
    }
}
