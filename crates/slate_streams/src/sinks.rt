// What writing to a sink does.
ghost use Rattle.std.specs.Prelude.{◌≡◌, ℕ, ◌≤◌, List, length, Option};
ghost use Rattle.slate_types.specs.Counts.{HasRisen};
ghost use Rattle.slate_types.specs.Modelled.{WhereModelled};
ghost use Rattle.slate_streams.specs.Streams.{TakesPart, Writes};

/// What a write to a sink answered.
#[derive(Clone, Copy, Debug, PartialEq, Eq)]
pub enum WriteAnswer {
    /// So many bytes from the front of the piece were written.
    Took(usize),
    /// The sink failed, and wrote nothing. Another write may succeed.
    Failed,
}

/// Where bytes go, in pieces.
pub trait Sink {
    /// The bytes that are written, where it is modelled.
    ghost written: { Self → Option (List ℕ) };

    /// How often it has failed. The count never falls.
    ghost faults: { Self → ℕ };

    /// Writes the first bytes of a piece: at least one where the piece isn't empty. It answers `Failed` only where its
    /// count of faults has risen.
    fn write(&mut self, piece: &[u8]) -> WriteAnswer
        ensures faults { faults self.old ≤ faults self.new }
        ensures failed { result ≡ WriteAnswer.Failed → HasRisen (faults self.old) (faults self.new) }
        ensures takes { TakesPart (length piece.now) result }
        ensures where_modelled { WhereModelled (Writes result piece.now) (written self.old) (written self.new) };
}
