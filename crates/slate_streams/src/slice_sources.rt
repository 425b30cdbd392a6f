// Reading from bytes in memory, a piece per call.
ghost use Rattle.std.specs.Prelude.{◌≡◌, ◌≤◌};

use crate::failing::FailingCalls;
use crate::{ReadAnswer, Source};
use slate_types::Seq;
use std::marker::Model;

/// A source in memory. It hands over at most so many bytes per call, and those of its calls fail that it was made with.
#[derive(Debug, Drop)]
pub struct SliceSource {
    bytes: Vec<u8>,
    /// How many bytes were handed over.
    start: usize,
    piece: usize,
    calls: FailingCalls,
}

impl Model for SliceSource {
    ghost use Rattle.std.specs.Prelude.{◌<◌, ◌≤◌, drop, vec_len};
    ghost use Rattle.slate_streams.specs.InMemory.{SourceInMemory};

    ghost Value = { SourceInMemory };

    ghost view = { λ s. record { left = drop s.start s.bytes.items; piece = s.piece; calls = s.calls } };

    ghost invariant = { λ s. (s.start ≤ vec_len s.bytes) × (0 < s.piece) };
}

impl SliceSource {
    /// A source of these bytes, which hands over at most `piece` of them per call. `failing` names the calls that
    /// fail, counted from 1. It takes no memory.
    pub fn new(bytes: Vec<u8>, piece: usize, failing: Seq<u64>) -> SliceSource
        requires { 1 ≤ piece }
        ensures { result ≡ record { left = bytes.items; piece = piece; calls = record { failing = failing; made = 0; faults = 0 } } }
    {
        SliceSource {
            bytes,
            start: 0,
            piece,
            calls: FailingCalls::new(failing),
        }
    }
}

impl Source for SliceSource {
    ghost use Rattle.std.specs.Prelude.{◌≡◌, ◌≤◌, length, Some};
    ghost use Rattle.slate_types.specs.Counts.{HasRisen};
    ghost use Rattle.slate_types.specs.Modelled.{WhereModelled};
    ghost use Rattle.slate_streams.specs.Streams.{Fits, ReadsInto};
    ghost use Rattle.slate_streams.specs.InMemory.{AnswersRead};

    ghost left = { λ s. Some s.left };

    ghost faults = { λ s. s.calls.faults };

    fn read(&mut self, buf: &mut [u8]) -> ReadAnswer
        ensures faults { self.old.calls.faults ≤ self.new.calls.faults }
        ensures failed { result ≡ ReadAnswer.Failed → HasRisen self.old.calls.faults self.new.calls.faults }
        ensures fits { Fits (length buf.old) result }
        ensures where_modelled { WhereModelled (ReadsInto result buf.new) (Some self.old.left) (Some self.new.left) }
        ensures answers { AnswersRead self.old (length buf.old) result self.new.calls }
        ensures piece { self.new.piece ≡ self.old.piece }
    {
        if self.calls.next_fails() {
            return ReadAnswer::Failed;
        }
        let rest = &self.bytes[self.start..];
        if rest.is_empty() {
            return ReadAnswer::End;
        }
        let count = self.piece.min(buf.len()).min(rest.len());
        buf[..count].copy_from_slice(&rest[..count]);
        self.start += count;
        ReadAnswer::Got(count)
    }
}
