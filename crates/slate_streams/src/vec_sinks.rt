// Writing to bytes in memory, a piece per call.
ghost use Rattle.std.specs.Prelude.{◌≡◌, ◌≤◌, []};

use crate::failing::FailingCalls;
use crate::{Sink, WriteAnswer};
use slate_types::Seq;
use std::alloc::Global;
use std::marker::Model;

/// A sink in memory. It takes at most so many bytes per call, and those of its calls fail that it was made with. Where
/// it finds no memory for a piece it fails too.
#[derive(Debug, Drop)]
pub struct VecSink {
    bytes: Vec<u8>,
    piece: usize,
    calls: FailingCalls,
}

impl Model for VecSink {
    ghost use Rattle.std.specs.Prelude.{◌<◌};
    ghost use Rattle.slate_streams.specs.InMemory.{SinkInMemory};

    ghost Value = { SinkInMemory };

    ghost view = { λ s. record { written = s.bytes.items; piece = s.piece; calls = s.calls } };

    ghost invariant = { λ s. 0 < s.piece };
}

impl VecSink {
    /// A sink to which nothing is written, and which takes at most `piece` bytes per call. `failing` names the calls
    /// that fail, counted from 1. It takes no memory.
    pub fn new(alloc: Global, piece: usize, failing: Seq<u64>) -> VecSink
        requires { 1 ≤ piece }
        ensures { result ≡ record { written = []; piece = piece; calls = record { failing = failing; made = 0; faults = 0 } } }
    {
        VecSink {
            bytes: Vec::new(alloc),
            piece,
            calls: FailingCalls::new(failing),
        }
    }

    /// The bytes that were written, in order.
    pub fn written(&self) -> &[u8]
        ensures { result.now ≡ self.now.written }
    {
        self.bytes.as_slice()
    }
}

impl Sink for VecSink {
    ghost use Rattle.std.specs.Prelude.{◌≡◌, ◌≤◌, length, Some};
    ghost use Rattle.slate_types.specs.Counts.{HasRisen};
    ghost use Rattle.slate_types.specs.Modelled.{WhereModelled};
    ghost use Rattle.slate_streams.specs.Streams.{TakesPart, Writes};
    ghost use Rattle.slate_streams.specs.InMemory.{AnswersWrite};

    ghost written = { λ s. Some s.written };

    ghost faults = { λ s. s.calls.faults };

    fn write(&mut self, piece: &[u8]) -> WriteAnswer
        ensures faults { self.old.calls.faults ≤ self.new.calls.faults }
        ensures failed { result ≡ WriteAnswer.Failed → HasRisen self.old.calls.faults self.new.calls.faults }
        ensures takes { TakesPart (length piece.now) result }
        ensures where_modelled { WhereModelled (Writes result piece.now) (Some self.old.written) (Some self.new.written) }
        ensures answers { AnswersWrite self.old (length piece.now) result self.new.calls }
        ensures piece { self.new.piece ≡ self.old.piece }
    {
        if self.calls.next_fails() {
            return WriteAnswer::Failed;
        }
        let count = self.piece.min(piece.len());
        if self.bytes.extend_from_slice(&piece[..count]).is_err() {
            self.calls.count_fault();
            return WriteAnswer::Failed;
        }
        WriteAnswer::Took(count)
    }
}
