// Running a case over a fresh store, and comparing what came of it.
use crate::cases::Case;
use crate::failures::Failure;
use crate::sessions::run_on_threads;
use slate_live::{SliceSource, VecSink};
use slate_store::{FailingCall, FaultyStore, MemoryStore};
use slate_types::Seq;
use std::alloc::{AllocError, Global};
use std::sync::Wait;
use std::thread::Threads;

/// How many bytes are read and written at a time.
const PIECE: usize = 64;

/// Runs a case over a fresh store, and compares what came of it with what is wanted.
pub fn run_case<R: Threads + Wait + Sync>(
    rt: &R,
    alloc: Global,
    case: Case,
) -> Result<(), Failure> {
    let Case {
        words,
        failing,
        status,
        script,
        replies,
    } = case;
    let mut sink = VecSink::new(alloc, PIECE, Seq::of(Vec::new(alloc)));
    let failing = Seq::of(failing);
    let found = run_script(rt, alloc, words.as_slice(), failing, script, &mut sink);
    compare(alloc, (found, sink.written()), (status, replies.as_slice()))
}

/// Runs a script over a fresh store, some of whose calls fail. It answers the exit status.
fn run_script<R: Threads + Wait + Sync>(
    rt: &R,
    alloc: Global,
    words: &[String],
    failing: Seq<FailingCall>,
    script: Vec<u8>,
    sink: &mut VecSink,
) -> u8 {
    let mut source = SliceSource::new(script, PIECE, Seq::of(Vec::new(alloc)));
    let mut store = FaultyStore::new(MemoryStore::new(alloc), failing);
    run_on_threads(rt, alloc, words, &mut source, sink, &mut store).status
}

/// Compares the replies and the status that were found with those that are wanted.
fn compare(
    alloc: Global,
    (found, replies): (u8, &[u8]),
    (wanted, wanted_replies): (u8, &[u8]),
) -> Result<(), Failure> {
    compare_replies(alloc, replies, wanted_replies)?;
    if found != wanted {
        return Err(Failure::Status { found, wanted });
    }
    Ok(())
}

/// Compares two texts, and answers the first line that differs.
fn compare_replies(alloc: Global, found: &[u8], wanted: &[u8]) -> Result<(), Failure> {
    let mut found = found.split_inclusive(|byte| *byte == b'\n');
    let mut wanted = wanted.split_inclusive(|byte| *byte == b'\n');
    for number in 1..u64::MAX {
        match (found.next(), wanted.next()) {
            (None, None) => break,
            (found, wanted) if found == wanted => {}
            (found, wanted) => {
                return Err(Failure::Reply {
                    number,
                    found: shown(alloc, found)?,
                    wanted: shown(alloc, wanted)?,
                });
            }
        }
    }
    Ok(())
}

/// A line as text, which is empty where there is none.
fn shown(alloc: Global, line: Option<&[u8]>) -> Result<String, AllocError> {
    String::from_utf8_lossy(alloc, line.unwrap_or_default())
}
