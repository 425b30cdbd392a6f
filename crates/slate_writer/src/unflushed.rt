// The unflushed bytes of a handle, and the refusal of a write by them.
ghost use Rattle.std.specs.Prelude.{◌≡◌, min};
ghost use Rattle.slate_model.specs.Handle.{to_log, unstored, untabled};
ghost use Rattle.slate_model.specs.Unflushed.{limit_refusal, most_bytes, unflushed};
ghost use Rattle.slate_reads.specs.Size.{size_of};

use crate::WriterState;
use crate::sizes::size_of;
use slate_errors::SlateError;

impl WriterState {
    /// How many unflushed bytes of keys and values the handle has: those of the batches that aren't in the tables of
    /// the manifest that it goes by, and, where it keeps a log, once more those of the batches above the durable
    /// number, which aren't in the log yet. A delete counts its key. A sum above the greatest `u64` counts as that.
    /// Where it reaches the handle's `max_unflushed_bytes`, `write` answers `Backpressure`.
    ///
    /// It is answered of a closed handle, too. It takes no memory, and constant time over a store that only handles wrote;
    /// else time linear in the operations in memory. What SlateDB holds its writers back by.
    pub fn unflushed(&self) -> u64
        ensures { result ≡ unflushed self.now }
    {
        self.untabled_size().saturating_add(self.to_log_size())
    }

    /// The refusal of a write where the unflushed bytes reach the limit.
    pub(crate) fn limit_refusal(&self) -> Option<SlateError>
        ensures { result ≡ limit_refusal (unflushed self.now) self.now.limit }
    {
        let unflushed = self.unflushed();
        if unflushed < self.limit {
            return None;
        }
        Some(SlateError::Backpressure {
            unflushed,
            limit: self.limit,
        })
    }

    /// The bytes of the batches that aren't in the tables of the manifest that it goes by. Over a store that only handles
    /// wrote these are all in memory.
    fn untabled_size(&self) -> u64
        ensures { result ≡ min (size_of (untabled self.now.view.manifest self.now)) most_bytes }
    {
        let tabled = self.view().manifest.last_l0_seq;
        if tabled <= self.floor {
            return self.memory.size();
        }
        size_of(self.batches_above(tabled))
    }

    /// The bytes of the batches that a flush puts into the log.
    fn to_log_size(&self) -> u64
        ensures { result ≡ min (size_of (to_log self.now)) most_bytes }
    {
        if !self.keeps_log {
            return 0;
        }
        self.unstored_size()
    }

    /// The bytes of the batches that aren't stored. They are kept as of the last write; where the durable number rose since
    /// then, it rose to the accepted one, and no batch is above it.
    pub(crate) fn unstored_size(&self) -> u64
        ensures { result ≡ min (size_of (unstored self.now)) most_bytes }
    {
        let durable = self.durable();
        if self.counted == durable {
            return self.unlogged;
        }
        size_of(self.batches_above(durable))
    }
}
