// Readers as sources and writers as sinks, which count their failures.
ghost use Rattle.std.specs.Prelude.{◌≡◌, ◌≤◌, None, length};
ghost use Rattle.slate_types.specs.Counts.{HasRisen};
ghost use Rattle.slate_types.specs.Modelled.{WhereModelled};
ghost use Rattle.slate_streams.specs.Streams.{Fits, ReadsInto, TakesPart, Writes};

use slate_live::{ReadAnswer, Sink, Source, WriteAnswer};
use std::io;

/// A reader as a source, or a writer as a sink. It counts its failures, and its bytes aren't modelled.
#[derive(Debug, Drop)]
pub struct Counted<T> {
    inner: T,
    faults: u64,
}

impl<T> Counted<T> {
    /// A stream that hasn't failed.
    pub fn new(inner: T) -> Counted<T> {
        Counted { inner, faults: 0 }
    }

    /// Counts a failure.
    fn count_fault(&mut self)
        ensures risen { HasRisen self.old.faults self.new.faults }
        ensures never_falls { self.old.faults ≤ self.new.faults }
    {
        self.faults = self.faults.saturating_add(1);
    }
}

impl<T: io::Read> Source for Counted<T> {
    ghost left = { λ _. None };

    ghost faults = { λ s. s.faults };

    fn read(&mut self, buf: &mut [u8]) -> ReadAnswer
        ensures faults { self.old.faults ≤ self.new.faults }
        ensures failed { result ≡ ReadAnswer.Failed → HasRisen self.old.faults self.new.faults }
        ensures fits { Fits (length buf.old) result }
        ensures where_modelled { WhereModelled (ReadsInto result buf.new) None None }
    {
        match self.inner.read(buf) {
            Ok(0) => ReadAnswer::End,
            Ok(count) => ReadAnswer::Got(count),
            Err(_) => {
                self.count_fault();
                ReadAnswer::Failed
            }
        }
    }
}

impl<T: io::Write> Sink for Counted<T> {
    ghost written = { λ _. None };

    ghost faults = { λ s. s.faults };

    fn write(&mut self, piece: &[u8]) -> WriteAnswer
        ensures faults { self.old.faults ≤ self.new.faults }
        ensures failed { result ≡ WriteAnswer.Failed → HasRisen self.old.faults self.new.faults }
        ensures takes { TakesPart (length piece.now) result }
        ensures where_modelled { WhereModelled (Writes result piece.now) None None }
    {
        match self.inner.write(piece) {
            Ok(count) if count > 0 || piece.is_empty() => WriteAnswer::Took(count),
            _ => {
                self.count_fault();
                WriteAnswer::Failed
            }
        }
    }
}
