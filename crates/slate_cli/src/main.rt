//! The program `slate`: runs a script from standard input over a fresh store in memory, or over a directory, and prints
//! its replies. The script is one of commands, beside readers on threads or not, one with feeds, one of a job store, or one of a
//! router.
#![tactic(auto)]

mod looks;
mod streams;

use looks::{check_directory, show_directory};
use slate_directory::open_directory;
use slate_feed::feed_session;
use slate_jobs::jobs_session;
use slate_live::{Finished, Outcome, Sink, Source, session};
use slate_readers::{Live, OpenGate, live_session, read_live_words};
use slate_route::route_session;
use slate_script::read_words;
use slate_store::{MemoryStore, Store};
use slate_text::read_time;
use std::alloc::Global;
use std::process::ExitCode;
use std::sync::Wait;
use std::thread::Threads;
use std::{env, io};
use streams::Counted;

const HELP: &str = "\
slate reads a script of timed commands from standard input, runs it over a fresh
store in memory or over a directory, and prints a reply per command.

usage: slate [--store DIR] [--merge concat] [--segments N] [--limit N] [--bare]
             < SCRIPT
       slate [--store DIR] gen SEED COUNT
       slate [--store DIR] jobs < SCRIPT
       slate [--store DIR] feed < SCRIPT
       slate [--store DIR] live --readers N [the options above] < SCRIPT
       slate [--store DIR] route < SCRIPT
       slate check --store DIR
       slate show --store DIR [--sweep MOMENT]
       slate --help | --version

With --store DIR the database is kept in the directory DIR, which is made where
it isn't there: what a flush answered is there for later runs, also after a
crash. While one run writes, any number of others may read the directory; while
one sweeps, no other may write.
With --merge concat the operands of a key are appended; without it a merge is
refused. With --segments N, from 1 to 255, the first N bytes of a key name its
segment: a shorter key is refused, and so is a database that was made with
another N, or without. With --limit N a write is refused where its handle has N
unflushed bytes or more: those of keys and values that aren't in a table, and
once more those that aren't in the log it keeps; without it N is 1,073,741,824.
With --bare a handle registers no compactor, no compaction worker and no garbage
collector; the tasks of the rest are ended by its close.

With gen no script is read: COUNT puts, at most 20,000, under 101 keys by SEED
are run, with flushes, polls, compactions and sweeps between, and a summary of
the replies is printed in four lines.

With jobs the database holds a job store, and a line of the script is a moment
and a request, as in
  0 enqueue 1 a
  0 claim 2 100
  50 complete 3 0 2
which adds a job with the payload a, claims the first one for 100 milliseconds,
and completes job 0 by the number of the request that claimed it. The number
behind the name is the request's: one that comes again is answered as before.
reopen opens the job store anew.

With feed the script may also have lines of feeds, as in
  0 feed 0
  0 next 0 100
which opens a feed of the stored batches after number 0, and asks it for the
next ones, at most 100; feeds are numbered from 0.

With live the script is run beside N readers, from 1 to 16, which view on threads
of their own, without a lock, what the first reader of the script sees. Behind the
replies a line is printed for each, as reader 0 at 5, with the number of the last
batch that it saw.

With route a handle of the database is open, a router has readers, and a line of
the script is a moment and one of these, as in
  0 put a x
  0 flush
  0 add 1000 500
  0 read 1 a
which writes a row, stores it, adds a reader whose checkpoint lasts 1000
milliseconds and is to be polled each 500, and reads the key a of a reader that
sees at least the batches up to number 1.

With check no script is read either, and no file is changed: whether the database
in DIR is sound is printed, as sound at K, where K is the number of the last
stored batch, or as the first thing that is wrong, with the status 1. With show
the manifests, the checkpoints of the latest one, the log files and the tables
are printed, a line each, and with --sweep what a sweep at a moment in
milliseconds would remove.

A line of the script is a moment in milliseconds and a command, as in
  0 open
  1 put 0 a x
  2 flush 0
  3 get 0 a
Lines that are empty or begin with # hold no command.

exit status: 0 each command was answered, by its result or its error, or the
database is sound or shown; 1 it isn't sound, or a file is damaged; 2 a line was
refused; 3 read fault; 4 write fault; 5 no memory; 6 script too long; 64 words
refused; 74 the directory can't be used
";

const VERSION: &str = "slate 0.1.0\n";

/// The exit status where the directory can't be used.
pub(crate) const NO_DIRECTORY: u8 = 74;

fn main(rt: HostRuntime) -> ExitCode {
    let status = match read_arguments(&rt) {
        Ok(words) => answer(&rt, &rt, words.as_slice()),
        Err(error) => report(&rt, outcome_of(error.kind())),
    };
    ExitCode::from(status)
}

/// The words of the command line, without the program's name.
fn read_arguments(rt: &HostRuntime) -> io::Result<Vec<String>> {
    let words = env::args(rt)?.skip(1).collect(rt.alloc())?;
    Ok(words)
}

/// Does what these words ask for, with threads by `threads`. It answers the exit status.
fn answer<R: Threads + Wait + Sync>(rt: &HostRuntime, threads: &R, words: &[String]) -> u8 {
    match words {
        [word] if word.as_str() == "--help" => print(rt, HELP),
        [word] if word.as_str() == "--version" => print(rt, VERSION),
        [word, option, path] if word.as_str() == "check" && option.as_str() == "--store" => {
            check_directory(rt, path.as_str())
        }
        [word, option, path] if word.as_str() == "show" && option.as_str() == "--store" => {
            show_directory(rt, path.as_str(), None)
        }
        [word, option, path, sweep, moment]
            if word.as_str() == "show"
                && option.as_str() == "--store"
                && sweep.as_str() == "--sweep" => {
            match read_time(moment.as_bytes()) {
                Some(moment) => show_directory(rt, path.as_str(), Some(moment)),
                None => report(rt, Outcome::WordsRefused),
            }
        }
        [word, path, others @ ..] if word.as_str() == "--store" => {
            run_over_directory(rt, threads, path.as_str(), others)
        }
        _ => run_words(rt, threads, words, &mut MemoryStore::new(rt.alloc())),
    }
}

/// Runs what these words ask for over a directory, which isn't touched where they ask for nothing. It answers the exit
/// status.
fn run_over_directory<R: Threads + Wait + Sync>(
    rt: &HostRuntime,
    threads: &R,
    path: &str,
    words: &[String],
) -> u8 {
    if !is_script(words) {
        return report(rt, Outcome::WordsRefused);
    }
    match open_directory(*rt, rt.alloc(), path) {
        Ok(mut store) => run_words(rt, threads, words, &mut store),
        Err(error) if error.kind() == io::ErrorKind::OutOfMemory => report(rt, Outcome::NoMemory),
        Err(error) => {
            let _ = eprintln!(rt; "slate: the directory {path:?} can't be used: {error}");
            NO_DIRECTORY
        }
    }
}

/// Whether these words ask for a script of any kind, or for the generator.
fn is_script(words: &[String]) -> bool {
    is_word(words, "jobs")
        || is_word(words, "feed")
        || is_word(words, "route")
        || read_live_words(words).is_some()
        || read_words(words).is_some()
}

/// Whether these words are this one.
fn is_word(words: &[String], wanted: &str) -> bool {
    matches!(words, [word] if word.as_str() == wanted)
}

/// Runs the script from standard input, of commands, beside readers, with feeds, of a job store or of a router, or the generator,
/// over a store. It answers the exit status.
fn run_words<R: Threads + Wait + Sync, S: Store + Send>(
    rt: &HostRuntime,
    threads: &R,
    words: &[String],
    store: &mut S,
) -> u8 {
    let mut source = Counted::new(rt.stdin());
    let mut sink = Counted::new(rt.stdout());
    let finished = if is_word(words, "jobs") {
        jobs_session(rt.alloc(), &mut source, &mut sink, store)
    } else if is_word(words, "feed") {
        feed_session(rt.alloc(), &mut source, &mut sink, store)
    } else if is_live(words) {
        run_live(threads, rt.alloc(), words, &mut source, &mut sink, store)
    } else if is_word(words, "route") {
        route_session(rt.alloc(), &mut source, &mut sink, store)
    } else {
        session(rt.alloc(), words, &mut source, &mut sink, store)
    };
    report(rt, finished.outcome())
}

/// Whether the first of these words is `live`.
fn is_live(words: &[String]) -> bool {
    words.first().is_some_and(|word| word.as_str() == "live")
}

/// Runs the script beside readers, and ends what published to them.
fn run_live<R: Threads + Wait + Sync, I: Source, O: Sink, S: Store + Send>(
    threads: &R,
    alloc: Global,
    words: &[String],
    source: &mut I,
    sink: &mut O,
    store: &mut S,
) -> Finished {
    let Live {
        finished,
        publisher,
        readers: _,
    } = live_session(threads, alloc, words, source, sink, store, &OpenGate);
    if let Some(publisher) = publisher {
        publisher.end(threads);
    }
    finished
}

/// Prints a text. It answers the exit status.
fn print(rt: &HostRuntime, text: &str) -> u8 {
    if rt.print(text).is_ok() {
        report(rt, Outcome::Done)
    } else {
        report(rt, Outcome::WriteFault)
    }
}

/// Says on standard error how the program ended, unless all is done. Nothing more can be done where that fails. It
/// answers the exit status.
pub(crate) fn report(rt: &HostRuntime, outcome: Outcome) -> u8 {
    if outcome != Outcome::Done {
        let _ = eprintln!(rt; "slate: {outcome}");
    }
    outcome.status()
}

/// How the program ends whose words can't be read: for want of memory, or since one isn't UTF-8.
fn outcome_of(kind: io::ErrorKind) -> Outcome {
    if kind == io::ErrorKind::OutOfMemory {
        Outcome::NoMemory
    } else {
        Outcome::WordsRefused
    }
}
