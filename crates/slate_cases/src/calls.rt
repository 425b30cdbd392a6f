// Running a file of calls: each line is a call of one subject, with the answer that is wanted.
use crate::cases::is_newline;
use crate::databases::Database;
use crate::failures::Failure;
use crate::fronts::Front;
use crate::streams::Streams;
use slate_calls::batches::Batches;
use slate_calls::bits::Bits;
use slate_calls::blob_stores::BlobStores;
use slate_calls::call_line::{CallLine, look_up};
use slate_calls::directories::Directory;
use slate_calls::dispatchers::Dispatchers;
use slate_calls::errors::Errors;
use slate_calls::executors::Executors;
use slate_calls::keys::Keys;
use slate_calls::lines::Lines;
use slate_calls::objects::Objects;
use slate_calls::replies::Replies;
use slate_calls::rows::Rows;
use slate_calls::statuses::Statuses;
use slate_calls::subjects::{CallFailure, Subject};
use slate_calls::tasks::TaskCalls;
use slate_calls::texts::Texts;
use slate_calls::trackers::Trackers;
use slate_text::read_number;
use std::alloc::Global;
use std::cell::Cell;
use std::fs::Files;
use std::rt::Clock;
use std::sync::Wait;

const ARROW: &[u8; 4] = b" -> ";

/// The name of a subject.
#[derive(Clone, Copy)]
enum Name {
    Batch,
    Bits,
    Blobs,
    Database,
    Directory,
    Dispatcher,
    Errors,
    Executor,
    Front,
    Keys,
    Lines,
    Objects,
    Replies,
    Rows,
    Status,
    Streams,
    Tasks,
    Text,
    Tracker,
}

const NAMES: &[(&[u8], Name)] = &[
    (b"batch", Name::Batch),
    (b"bits", Name::Bits),
    (b"blobs", Name::Blobs),
    (b"database", Name::Database),
    (b"directory", Name::Directory),
    (b"dispatcher", Name::Dispatcher),
    (b"errors", Name::Errors),
    (b"executor", Name::Executor),
    (b"front", Name::Front),
    (b"keys", Name::Keys),
    (b"lines", Name::Lines),
    (b"objects", Name::Objects),
    (b"replies", Name::Replies),
    (b"rows", Name::Rows),
    (b"status", Name::Status),
    (b"streams", Name::Streams),
    (b"tasks", Name::Tasks),
    (b"text", Name::Text),
    (b"tracker", Name::Tracker),
];

/// What runs a file: its lines, and how many calls of the system on files are made before each fails.
#[derive(Clone, Copy)]
struct Run<'a> {
    alloc: Global,
    text: &'a [u8],
    left: &'a Cell<u64>,
}

/// Makes the calls of a file one after the other, and answers the first that isn't answered as the file says. `left` is how
/// many calls of the system on these files are made before each fails.
pub fn run_calls<R: Wait + Clock + Copy, F: Files + Copy>(
    rt: R,
    alloc: Global,
    files: F,
    left: &Cell<u64>,
    text: &[u8],
) -> Result<(), Failure> {
    let name = match text.split(is_newline).next() {
        Some(line) => line.strip_prefix(b"calls ").unwrap_or_default(),
        None => b"",
    };
    left.set(u64::MAX);
    let run = Run { alloc, text, left };
    match look_up(NAMES, name) {
        Some(Name::Batch) => run.over(Batches::new(alloc)),
        Some(Name::Bits) => run.over(Bits),
        Some(Name::Blobs) => run.over(BlobStores::new(alloc)),
        Some(Name::Database) => run.over(Database::new(alloc)),
        Some(Name::Directory) => run.over(Directory::new(alloc, files)),
        Some(Name::Dispatcher) => run.over(Dispatchers::new()),
        Some(Name::Errors) => run.over(Errors),
        Some(Name::Executor) => run.over(Executors::new(alloc)),
        Some(Name::Front) => run.over(Front::new(alloc, rt)),
        Some(Name::Keys) => run.over(Keys),
        Some(Name::Lines) => run.over(Lines),
        Some(Name::Objects) => run.over(Objects::new(alloc)),
        Some(Name::Replies) => run.over(Replies),
        Some(Name::Rows) => run.over(Rows::new(alloc)),
        Some(Name::Status) => run.over(Statuses::new()),
        Some(Name::Streams) => run.over(Streams::new(alloc)),
        Some(Name::Tasks) => run.over(TaskCalls::new()),
        Some(Name::Text) => run.over(Texts),
        Some(Name::Tracker) => run.over(Trackers::new(alloc)),
        None => Err(Failure::SubjectMissing),
    }
}

impl Run<'_> {
    /// Makes the calls over a fresh subject.
    fn over<S: Subject>(self, mut subject: S) -> Result<(), Failure> {
        let mut number = 0u64;
        for line in self.text.split(is_newline) {
            number = number.saturating_add(1);
            if line == b"anew".as_slice() {
                self.left.set(u64::MAX);
                subject = subject.anew(self.alloc);
            } else if let Some(count) = line.strip_prefix(b"end_after ") {
                self.left
                    .set(read_number(count).ok_or(Failure::Call(number))?);
            } else if number > 1 && !line.is_empty() && !line.starts_with(b"#") {
                take_line(self.alloc, number, line, &mut subject)?;
            }
        }
        Ok(())
    }
}

/// Makes the call of a line, and compares its answer.
fn take_line<S: Subject>(
    alloc: Global,
    number: u64,
    line: &[u8],
    subject: &mut S,
) -> Result<(), Failure> {
    let (call, wanted) = split_at_arrow(line);
    let mut line = CallLine::new(alloc, call)?;
    subject.call(&mut line);
    match line.failure() {
        Some(CallFailure::Unread) => Err(Failure::Call(number)),
        Some(CallFailure::Memory) => Err(Failure::NoMemory),
        None => compare(alloc, number, line.answer(), wanted),
    }
}

fn compare(alloc: Global, number: u64, found: &[u8], wanted: &[u8]) -> Result<(), Failure> {
    if found == wanted {
        return Ok(());
    }
    Err(Failure::Answer {
        number,
        found: String::from_utf8_lossy(alloc, found)?,
        wanted: String::from_utf8_lossy(alloc, wanted)?,
    })
}

/// What stands before the first arrow, and what stands after it. Without an arrow all is the call.
fn split_at_arrow(line: &[u8]) -> (&[u8], &[u8]) {
    for (start, window) in line.windows(ARROW.len()).enumerate() {
        if window == ARROW.as_slice() {
            let end = start.saturating_add(ARROW.len());
            let call = line.get(..start).unwrap_or_default();
            return (call, line.get(end..).unwrap_or_default());
        }
    }
    (line, b"")
}
