// The subject `streams`: sources and sinks in memory that fail as told, and sessions over them.
ghost use Rattle.std.specs.Prelude.{◌≤◌};

use crate::sessions::run_session;
use slate_calls::answers::Answer;
use slate_calls::call_line::CallLine;
use slate_calls::store_calls::print_stored;
use slate_calls::subjects::Subject;
use slate_live::{ReadAnswer, SliceSource, Source, VecSink, read_whole, write_whole};
use slate_store::MemoryStore;
use slate_types::Seq;
use std::alloc::Global;

#[derive(Clone, Copy)]
enum Call {
    Source,
    Sink,
    Read,
    Flow,
    Write,
    Written,
    Session,
    Stored,
}

const CALLS: &[(&[u8], Call)] = &[
    (b"source", Call::Source),
    (b"sink", Call::Sink),
    (b"read", Call::Read),
    (b"flow", Call::Flow),
    (b"write", Call::Write),
    (b"written", Call::Written),
    (b"session", Call::Session),
    (b"stored", Call::Stored),
];

/// A source, a sink, and the store of the sessions that read the one and write to the other.
pub struct Streams {
    source: SliceSource,
    sink: VecSink,
    store: MemoryStore,
}

impl Drop for Streams {
    fn drop(self) {
        let Streams {
            source: _,
            sink: _,
            store: _,
        } = self;
    }
}

impl Streams {
    /// An empty source, and a sink to which nothing is written.
    pub fn new(alloc: Global) -> Streams {
        let none = Seq::of(Vec::new(alloc));
        Streams {
            source: SliceSource::new(Vec::new(alloc), 1, none),
            sink: VecSink::new(alloc, 1, Seq::of(Vec::new(alloc))),
            store: MemoryStore::new(alloc),
        }
    }

    /// Makes the source anew.
    fn set_source(&mut self, line: &mut CallLine<'_>) {
        let text = line.byte_list();
        let piece = piece_of(line);
        let failing = Seq::of(line.numbers());
        self.source = SliceSource::new(text, piece, failing);
    }

    /// Makes the sink anew.
    fn set_sink(&mut self, line: &mut CallLine<'_>) {
        let piece = piece_of(line);
        let failing = Seq::of(line.numbers());
        self.sink = VecSink::new(line.alloc(), piece, failing);
    }

    /// Writes to the sink, and prints whether all was taken.
    fn write(&mut self, line: &mut CallLine<'_>) {
        let text = line.bytes();
        let is_whole = write_whole(&mut self.sink, text.as_slice());
        line.print_text(if is_whole { "whole" } else { "failed" });
    }

    /// Runs the source as a script, of the session that words ask for, and prints the exit status.
    fn run(&mut self, line: &mut CallLine<'_>) {
        let words = line.strings();
        let (source, sink) = (&mut self.source, &mut self.sink);
        let finished = run_session(
            line.alloc(),
            words.as_slice(),
            source,
            sink,
            &mut self.store,
        );
        line.print_number(u64::from(finished.status));
    }
}

impl Subject for Streams {
    fn anew(&self, alloc: Global) -> Streams {
        Streams::new(alloc)
    }

    fn call(&mut self, line: &mut CallLine<'_>) {
        match line.name(CALLS) {
            Some(Call::Source) => self.set_source(line),
            Some(Call::Sink) => self.set_sink(line),
            Some(Call::Read) => {
                read_whole(line.alloc(), &mut self.source, line.size()).print(line);
            }
            Some(Call::Flow) => flow(line),
            Some(Call::Write) => self.write(line),
            Some(Call::Written) => line.print_bytes(self.sink.written()),
            Some(Call::Session) => self.run(line),
            Some(Call::Stored) => print_stored(&mut self.store, line),
            None => {}
        }
    }
}

/// Bytes that nothing holds, which come as many at a time as there is room for.
struct Unheld {
    left: usize,
}

impl Drop for Unheld {
    fn drop(self) {
        let Unheld { left: _ } = self;
    }
}

impl Source for Unheld {
    ghost use Rattle.std.specs.Prelude.{None};

    ghost left = { λ _. None };

    ghost faults = { λ _. 0 };

    fn read(&mut self, buf: &mut [u8]) -> ReadAnswer {
        let count = self.left.min(buf.len());
        if count == 0 {
            return ReadAnswer::End;
        }
        self.left -= count;
        ReadAnswer::Got(count)
    }
}

/// Reads a source of so many bytes, and prints how many came.
fn flow(line: &mut CallLine<'_>) {
    let left = line.size();
    let limit = line.size();
    let read = read_whole(line.alloc(), &mut Unheld { left }, limit);
    if let Some(bytes) = line.made(read) {
        line.print_number(bytes.len() as u64);
    }
}

/// How many bytes come or go at a time, which is at least one.
fn piece_of(line: &mut CallLine<'_>) -> usize
    ensures { 1 ≤ result }
{
    line.size().max(1)
}
