// The sessions that words of a command line ask for.
use slate_feed::feed_session;
use slate_jobs::jobs_session;
use slate_live::{Finished, Sink, Source, session};
use slate_readers::{Live, OpenGate, live_session};
use slate_route::route_session;
use slate_store::Store;
use std::alloc::Global;
use std::sync::Wait;
use std::thread::Threads;

/// Runs the session that these words ask for, with threads where it is one beside readers.
pub fn run_on_threads<R: Threads + Wait + Sync, I: Source, O: Sink, S: Store + Send>(
    rt: &R,
    alloc: Global,
    words: &[String],
    source: &mut I,
    sink: &mut O,
    store: &mut S,
) -> Finished {
    match words {
        [word, ..] if word.as_str() == "live" => run_live(rt, alloc, words, source, sink, store),
        _ => run_session(alloc, words, source, sink, store),
    }
}

/// Runs the session that these words ask for, on this thread alone.
pub fn run_session<I: Source, O: Sink, S: Store>(
    alloc: Global,
    words: &[String],
    source: &mut I,
    sink: &mut O,
    store: &mut S,
) -> Finished {
    match words {
        [word] if word.as_str() == "jobs" => jobs_session(alloc, source, sink, store),
        [word] if word.as_str() == "feed" => feed_session(alloc, source, sink, store),
        [word] if word.as_str() == "route" => route_session(alloc, source, sink, store),
        _ => session(alloc, words, source, sink, store),
    }
}

/// Runs a live session, and ends its publisher.
fn run_live<R: Threads + Wait + Sync, I: Source, O: Sink, S: Store + Send>(
    rt: &R,
    alloc: Global,
    words: &[String],
    source: &mut I,
    sink: &mut O,
    store: &mut S,
) -> Finished {
    let Live {
        finished,
        publisher,
        readers: _,
    } = live_session(rt, alloc, words, source, sink, store, &OpenGate);
    if let Some(publisher) = publisher {
        publisher.end(rt);
    }
    finished
}
