// What reading from a source does.
ghost use Rattle.std.specs.Prelude.{◌≡◌, ℕ, ◌≤◌, List, length, Option};
ghost use Rattle.slate_types.specs.Counts.{HasRisen};
ghost use Rattle.slate_types.specs.Modelled.{WhereModelled};
ghost use Rattle.slate_streams.specs.Streams.{Fits, ReadsInto};

/// What a read of a source answered.
#[derive(Clone, Copy, Debug, PartialEq, Eq)]
pub enum ReadAnswer {
    /// So many bytes now stand at the front of the buffer.
    Got(usize),
    /// No byte is left.
    End,
    /// The source failed, and handed over nothing. Another read may succeed.
    Failed,
}

/// Where bytes come from, in pieces.
pub trait Source {
    /// The bytes that are left, where it is modelled.
    ghost left: { Self → Option (List ℕ) };

    /// How often it has failed. The count never falls.
    ghost faults: { Self → ℕ };

    /// Hands over the first bytes that are left, at the front of the buffer: at least one where the buffer isn't empty
    /// and a byte is left. What stands behind them in the buffer is not said. It answers `Failed` only where its count
    /// of faults has risen.
    fn read(&mut self, buf: &mut [u8]) -> ReadAnswer
        ensures faults { faults self.old ≤ faults self.new }
        ensures failed { result ≡ ReadAnswer.Failed → HasRisen (faults self.old) (faults self.new) }
        ensures fits { Fits (length buf.old) result }
        ensures where_modelled { WhereModelled (ReadsInto result buf.new) (left self.old) (left self.new) };
}
