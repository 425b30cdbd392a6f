// The subject `replies`: the text of replies.
use crate::answers::Answer;
use crate::call_line::CallLine;
use crate::errors::error_of;
use crate::manifests::{manifest_of, prefixes_of};
use crate::subjects::Subject;
use slate_errors::{CloseReason, Ending, TaskName};
use slate_script::{Boxed, Reply, print_replies};
use slate_status::DbStatus;
use slate_types::{KeyValue, Seq};
use std::alloc::Global;

/// The name of a reply that holds nothing.
#[derive(Clone, Copy)]
enum Plain {
    Absent,
    Flushed,
    Refreshed,
    Compacted,
    Swept,
    Durable,
    Pending,
    Begun,
    Stepped,
    Unknown,
    Memory,
}

const PLAIN: &[(&[u8], Plain)] = &[
    (b"absent", Plain::Absent),
    (b"flushed", Plain::Flushed),
    (b"refreshed", Plain::Refreshed),
    (b"compacted", Plain::Compacted),
    (b"swept", Plain::Swept),
    (b"durable", Plain::Durable),
    (b"pending", Plain::Pending),
    (b"begun", Plain::Begun),
    (b"stepped", Plain::Stepped),
    (b"unknown", Plain::Unknown),
    (b"memory", Plain::Memory),
];

/// The name of a reply that holds numbers.
#[derive(Clone, Copy)]
enum Numbered {
    Handle,
    Checkpointed,
    Polled,
    Snapshot,
    Written,
    Backpressure,
    Follower,
}

const NUMBERED: &[(&[u8], Numbered)] = &[
    (b"handle", Numbered::Handle),
    (b"checkpointed", Numbered::Checkpointed),
    (b"polled", Numbered::Polled),
    (b"snapshot", Numbered::Snapshot),
    (b"written", Numbered::Written),
    (b"backpressure", Numbered::Backpressure),
    (b"follower", Numbered::Follower),
];

/// The name of a reply that holds other things.
#[derive(Clone, Copy)]
enum Fielded {
    Time,
    Number,
    Ended,
    Found,
    Rows,
    Refused,
    Status,
}

const FIELDED: &[(&[u8], Fielded)] = &[
    (b"time", Fielded::Time),
    (b"number", Fielded::Number),
    (b"ended", Fielded::Ended),
    (b"found", Fielded::Found),
    (b"rows", Fielded::Rows),
    (b"refused", Fielded::Refused),
    (b"status", Fielded::Status),
];

/// Replies are printed, and none is kept.
#[derive(Clone, Copy)]
pub struct Replies;

impl Subject for Replies {
    fn anew(&self, _alloc: Global) -> Replies {
        Replies
    }

    /// Prints the reply that words spell, with ` | ` between each two of its lines.
    fn call(&mut self, line: &mut CallLine<'_>) {
        let replies = [reply_of(line)];
        let mut text = Vec::new(line.alloc());
        print_replies(&mut text, &replies).print(line);
        line.print_lines(text.as_slice(), " | ");
    }
}

fn reply_of(line: &mut CallLine<'_>) -> Reply {
    if let Some(name) = line.find(PLAIN) {
        return plain_reply(name);
    }
    if let Some(name) = line.find(NUMBERED) {
        return numbered_reply(name, line);
    }
    match line.name(FIELDED) {
        Some(Fielded::Rows) => Reply::Rows(rows_of(line)),
        Some(Fielded::Found) => Reply::Found(row_of(line)),
        Some(Fielded::Refused) => Reply::Refused(error_of(line)),
        Some(Fielded::Ended) => ended_of(line),
        Some(Fielded::Status) => status_reply(line),
        Some(Fielded::Time) if line.is_read() => Reply::Time(None),
        Some(Fielded::Time) => Reply::Time(Some(line.time())),
        Some(Fielded::Number) if line.is_read() => Reply::Number(None),
        Some(Fielded::Number) => Reply::Number(Some(line.number())),
        None => Reply::Unknown,
    }
}

/// The reply with this name that holds nothing.
fn plain_reply(name: Plain) -> Reply {
    match name {
        Plain::Absent => Reply::Absent,
        Plain::Flushed => Reply::Flushed,
        Plain::Refreshed => Reply::Refreshed,
        Plain::Compacted => Reply::Compacted,
        Plain::Swept => Reply::Swept,
        Plain::Durable => Reply::Durable,
        Plain::Pending => Reply::Pending,
        Plain::Begun => Reply::Begun,
        Plain::Stepped => Reply::Stepped,
        Plain::Unknown => Reply::Unknown,
        Plain::Memory => Reply::NoMemory,
    }
}

/// What comes of a close: all tasks end, or there is an error.
fn ended_of(line: &mut CallLine<'_>) -> Reply {
    if line.is_read() {
        return Reply::Ended {
            fault: None,
            tasks: all_tasks(),
        };
    }
    Reply::Ended {
        fault: Some(error_of(line)),
        tasks: Ending::new(),
    }
}

/// The names of the tasks of a handle.
fn all_tasks() -> Ending {
    let mut tasks = Ending::new();
    tasks.push(TaskName::MemtableFlusher);
    tasks.push(TaskName::Compactor);
    tasks.push(TaskName::CompactionWorker);
    tasks.push(TaskName::GarbageCollector);
    tasks.push(TaskName::BatchWriter);
    tasks
}

/// The reply with this name and with the numbers that the next words spell.
fn numbered_reply(name: Numbered, line: &mut CallLine<'_>) -> Reply {
    let first = line.number();
    match name {
        Numbered::Handle => Reply::Handle { object: first },
        Numbered::Checkpointed => Reply::Checkpointed { id: first },
        Numbered::Polled => Reply::Polled {
            whole: false,
            at: first,
        },
        Numbered::Snapshot => Reply::Snapshot {
            object: first,
            at: line.number(),
        },
        Numbered::Written => Reply::Written {
            write: first,
            number: line.number(),
        },
        Numbered::Backpressure => Reply::Backpressure {
            unflushed: first,
            limit: line.number(),
        },
        Numbered::Follower => Reply::Follower {
            object: first,
            whole: true,
            at: line.number(),
        },
    }
}

/// The rows that words spell, with `;` after each.
fn rows_of(line: &mut CallLine<'_>) -> Seq<KeyValue> {
    let mut rows = Vec::new(line.alloc());
    for _ in 0..line.left() {
        if line.has_more() {
            rows.push(row_of(line)).print(line);
        }
    }
    Seq::of(rows)
}

/// The row with a key, a value, a number and a time, and with the time at which it expires, where it does.
fn row_of(line: &mut CallLine<'_>) -> KeyValue {
    let key = line.bytes();
    let value = line.bytes();
    let seq = line.number();
    let create_ts = line.time();
    let expire_ts = if line.is_read() || line.is_next(b";") {
        None
    } else {
        Some(line.time())
    };
    KeyValue {
        key,
        value,
        seq,
        create_ts,
        expire_ts,
    }
}

const REASONS: &[(&[u8], Option<CloseReason>)] = &[
    (b"none", None),
    (b"clean", Some(CloseReason::Clean)),
    (b"fenced", Some(CloseReason::Fenced)),
    (b"panic", Some(CloseReason::Panic)),
];

/// The reply that holds a status, or another one where memory ran out for its box, which is noted.
fn status_reply(line: &mut CallLine<'_>) -> Reply {
    let status = status_of(line);
    if let Ok(boxed) = Boxed::new(line.alloc(), status) {
        return Reply::Status(boxed);
    }
    line.no_memory();
    Reply::Unknown
}

/// A status of a durable number and a manifest, with the segments of its tables and those outside of them.
fn status_of(line: &mut CallLine<'_>) -> DbStatus {
    let durable_seq = line.number();
    let id = line.number();
    let close_reason = line.name(REASONS).unwrap_or(None);
    let current_manifest = manifest_of(id, line);
    DbStatus {
        durable_seq,
        current_manifest,
        memtable_segments: Seq::of(prefixes_of(line)),
        close_reason,
    }
}
