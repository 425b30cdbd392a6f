// Tests of live sessions: that readers run beside each other, and what they see.
use crate::{Gate, Live, live_session};
use slate_store::MemoryStore;
use slate_streams::{SliceSource, VecSink};
use slate_types::Seq;
use std::alloc::{AllocError, Global};
use std::sync::Wait;
use std::sync::atomic::{AtomicBool, AtomicU64, Ordering};
use std::test::Fail;
use std::thread::{self, Threads};

/// How many bytes are read and written at a time.
const PIECE: usize = 64;

/// A reader follows, its handle flushes, and it polls.
const SCRIPT: &[u8] =
    b"0 open\n1 put 0 a x\n2 follow latest\n3 get 1 a\n4 flush 0\n5 get 1 a\n6 poll 1\n7 get 1 a\n";

/// What comes of it: the replies, and then the lines of two readers.
const TEXT: &[u8] =
    b"handle 0\nwrite 0 number 1\nfollower 1 whole at 0\nnone\nflushed\nnone\nwhole at 1\nvalue x number 1 created 1\nreader 0 at 1\nreader 1 at 1\n";

/// Runs a script over a fresh store beside two readers. It answers the status, how many states were published, and how many the
/// readers have seen in all.
fn run_live<R: Threads + Wait + Sync, G: Gate + Sync>(
    rt: &R,
    alloc: Global,
    script: &[u8],
    sink: &mut VecSink,
    gate: &G,
) -> Result<(u8, u64, u64), AllocError> {
    let mut words = Vec::new(alloc);
    for word in ["live", "--readers", "2"] {
        words.push(String::from_str(alloc, word)?)?;
    }
    let script = Vec::from_slice(alloc, script)?;
    let mut source = SliceSource::new(script, PIECE, Seq::of(Vec::new(alloc)));
    let mut store = MemoryStore::new(alloc);
    let live = live_session(
        rt,
        alloc,
        words.as_slice(),
        &mut source,
        sink,
        &mut store,
        gate,
    );
    Ok(end(rt, live))
}

/// Ends a live session: its status, how many states were published, and how many the readers have seen in all.
fn end<R: Wait>(rt: &R, live: Live) -> (u8, u64, u64) {
    let Live {
        finished,
        publisher,
        readers,
    } = live;
    let mut published = 0;
    if let Some(publisher) = publisher {
        published = publisher.count();
        publisher.end(rt);
    }
    let mut seen = 0u64;
    for reader in readers.as_slice() {
        seen = seen.saturating_add(reader.count());
    }
    (finished.status, published, seen)
}

/// A sink in memory.
fn sink(alloc: Global) -> VecSink {
    VecSink::new(alloc, PIECE, Seq::of(Vec::new(alloc)))
}

/// How often a reader looks whether the other one has come.
const MOST_TURNS: u64 = 1_000_000;

/// A gate that holds each of two readers at its first pass until the other one has come to its own.
#[derive(Drop)]
struct Meeting {
    came: [AtomicBool; 2],
    met: [AtomicBool; 2],
}

impl Meeting {
    fn new() -> Meeting {
        Meeting {
            came: [AtomicBool::new(false), AtomicBool::new(false)],
            met: [AtomicBool::new(false), AtomicBool::new(false)],
        }
    }

    /// Whether a reader found that the other one had come.
    fn has_met(&self, place: usize) -> bool {
        match self.met.get(place) {
            Some(met) => met.load(Ordering::SeqCst),
            None => false,
        }
    }

    /// Whether a reader has come.
    fn has_come(&self, place: usize) -> bool {
        match self.came.get(place) {
            Some(came) => came.load(Ordering::SeqCst),
            None => false,
        }
    }

    /// Waits for the other reader, for at most so many turns.
    fn wait_for(&self, other: usize) -> bool {
        for _ in 0..MOST_TURNS {
            if self.has_come(other) {
                return true;
            }
            thread::yield_now();
        }
        false
    }
}

impl Gate for Meeting {
    fn pass(&self, reader: u32, turn: u64) {
        let place = reader as usize;
        if turn != 0 || place > 1 {
            return;
        }
        if let Some(came) = self.came.get(place) {
            came.store(true, Ordering::SeqCst);
        }
        let met = self.wait_for(1 - place);
        if let Some(found) = self.met.get(place) {
            found.store(met, Ordering::SeqCst);
        }
    }

    fn seen(&self, _reader: u32, _turn: u64, _number: u64) {}
}

#[test]
fn readers_meet(rt: HostRuntime) -> Result<(), Fail> {
    let alloc = rt.alloc();
    let gate = Meeting::new();
    let mut sink = sink(alloc);
    let ended = run_live(&rt, alloc, SCRIPT, &mut sink, &gate)?;
    assert!(rt; ended == (0, 2, 4));
    assert!(rt; (gate.has_met(0), gate.has_met(1)) == (true, true));
    Ok(())
}

/// A gate that keeps the last number that each of two readers saw, and how many views they took.
#[derive(Drop)]
struct LastSeen {
    numbers: [AtomicU64; 2],
    views: AtomicU64,
}

impl Gate for LastSeen {
    fn pass(&self, _reader: u32, _turn: u64) {}

    fn seen(&self, reader: u32, _turn: u64, number: u64) {
        if let Some(last) = self.numbers.get(reader as usize) {
            last.store(number, Ordering::SeqCst);
        }
        self.views.fetch_add(1, Ordering::SeqCst);
    }
}

#[test]
fn readers_see(rt: HostRuntime) -> Result<(), Fail> {
    let alloc = rt.alloc();
    let gate = LastSeen {
        numbers: [AtomicU64::new(9), AtomicU64::new(9)],
        views: AtomicU64::new(0),
    };
    let mut sink = sink(alloc);
    let ended = run_live(&rt, alloc, SCRIPT, &mut sink, &gate)?;
    assert!(rt; ended == (0, 2, 4));
    assert!(rt; sink.written() == TEXT);
    let [first, second] = &gate.numbers;
    assert!(rt; (first.load(Ordering::SeqCst), second.load(Ordering::SeqCst)) == (1, 1));
    assert!(rt; gate.views.load(Ordering::SeqCst) >= 4);
    Ok(())
}

/// A reader follows.
const FOLLOWS: &[u8] = b"0 open\n0 follow latest\n";

/// Its handle flushes, and it polls.
const ROUND: &[u8] = b"1 put 0 a x\n1 flush 0\n1 poll 1\n";

/// A gate that counts the views of a state that has a batch, and isn't the last one.
#[derive(Drop)]
struct Between {
    last: u64,
    views: AtomicU64,
}

impl Gate for Between {
    fn pass(&self, _reader: u32, _turn: u64) {}

    fn seen(&self, _reader: u32, _turn: u64, number: u64) {
        if 0 < number && number < self.last {
            self.views.fetch_add(1, Ordering::SeqCst);
        }
    }
}

/// How many views two readers take of states after the first and before the last one, while a script of so many rounds runs.
fn views_between<R: Threads + Wait + Sync>(
    rt: &R,
    alloc: Global,
    rounds: u64,
) -> Result<u64, AllocError> {
    let mut script = Vec::from_slice(alloc, FOLLOWS)?;
    for _ in 0..rounds {
        script.extend_from_slice(ROUND)?;
    }
    let gate = Between {
        last: rounds,
        views: AtomicU64::new(0),
    };
    run_live(rt, alloc, script.as_slice(), &mut sink(alloc), &gate)?;
    Ok(gate.views.load(Ordering::SeqCst))
}

/// Scripts run, ten times as long as the one before, until a reader saw what a later command changed.
#[test]
fn readers_see_while_the_script_runs(rt: HostRuntime) -> Result<(), Fail> {
    let alloc = rt.alloc();
    let mut views = 0;
    for rounds in [100, 1_000, 10_000, 50_000] {
        if views == 0 {
            views = views_between(&rt, alloc, rounds)?;
        }
    }
    assert!(rt; views > 0);
    Ok(())
}
