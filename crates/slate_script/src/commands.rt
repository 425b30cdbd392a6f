// The commands of a script, what a line of one is, and why a script isn't read.
ghost use Rattle.std.specs.Prelude.{◌≡◌};
ghost use Rattle.slate_script.specs.declared.commands.ScriptFault.TheVariants.{NoMemory as OutOfMemory};

use crate::Boxed;
use bytes::Bytes;
use slate_seqtrack::FindOption;
use slate_store::DbReaderMode;
use slate_types::{ByteRange, CloseOptions, FlushType, IterationOrder, NoMemory, WriteBatch};
use std::alloc::{AllocError, AllocFailed};

/// What a command does. Handles, snapshots and followers are the objects of a run.
#[derive(Debug, Drop)]
pub enum Action {
    /// Opens a handle, which keeps a log or not.
    Open {
        wal: bool,
    },
    /// Writes one put. The time of expiry is in milliseconds.
    Put {
        handle: u64,
        key: Bytes,
        value: Bytes,
        expire: Option<i64>,
    },
    /// Writes one operand to merge. The time of expiry is in milliseconds.
    Merge {
        handle: u64,
        key: Bytes,
        value: Bytes,
        expire: Option<i64>,
    },
    /// Writes one delete.
    Delete {
        handle: u64,
        key: Bytes,
    },
    /// Writes a batch.
    Batch {
        handle: u64,
        batch: WriteBatch,
    },
    /// Makes what a handle wrote durable. Without a type it stores it in a log file, where the handle keeps a log, and
    /// else in a table.
    Flush {
        handle: u64,
        flush_type: Option<FlushType>,
    },
    /// Lets a handle go by the latest manifest.
    Refresh {
        handle: u64,
    },
    /// Joins the tables of the latest manifest into one.
    Compact {
        handle: u64,
    },
    /// Opens a snapshot of a handle, which reads what the handle has written so far.
    Snapshot {
        handle: u64,
    },
    /// Commits a checkpoint of what is stored, without an end or with a lifetime in milliseconds.
    Checkpoint {
        lifetime: Option<u64>,
    },
    /// Removes what is stored and no longer needed.
    Sweep,
    /// Reads a key of an object, from durable batches alone where `remote` is true.
    Get {
        object: u64,
        key: Bytes,
        remote: bool,
    },
    /// Reads the rows of a range of an object in an order, from durable batches alone where `remote` is true.
    Scan {
        object: u64,
        range: Boxed<ByteRange>,
        order: IterationOrder,
        remote: bool,
    },
    /// Begins the same scan, reads up to `take` of its rows, seeks the key, and reads the rows from there on.
    Seek {
        object: u64,
        range: Boxed<ByteRange>,
        take: u64,
        key: Bytes,
        order: IterationOrder,
        remote: bool,
    },
    /// Closes an object, and then flushes what a handle wrote as the options ask; without them to a table.
    Close {
        object: u64,
        options: Option<CloseOptions>,
    },
    /// Opens a reader that follows the database; one that skips reads no log file. A managed one has the lifetime of
    /// its checkpoint and the interval of its polls, in milliseconds. By so many numbers its polls may leave it behind what is
    /// stored: none, where that isn't said.
    Follow {
        mode: DbReaderMode,
        managed: Option<(u64, u64)>,
        skip: bool,
        lag: Option<u64>,
    },
    /// Lets a reader take all that is stored.
    Poll {
        follower: u64,
    },
    /// Begins a poll of a reader that goes on by single calls of the store.
    Begin {
        follower: u64,
    },
    /// Makes the next call of the store of the poll that was begun.
    Step {
        follower: u64,
    },
    /// Asks whether a write is durable.
    Await {
        write: u64,
    },
    /// Asks an object, open or closed, what it reports of itself.
    Status {
        object: u64,
    },
    /// Asks a handle, open or closed, when the batch with a number was written, or else the next one up or down of which
    /// it keeps the time.
    Ts {
        handle: u64,
        number: u64,
        find: FindOption,
    },
    /// Asks a handle, open or closed, which number was written at a time in whole seconds, or else at the next one up or
    /// down that it keeps.
    Seq {
        handle: u64,
        seconds: i64,
        find: FindOption,
    },
}

/// One command of a script, with its moment and its second moment in milliseconds.
#[derive(Debug, Drop)]
pub struct Command {
    pub moment: i64,
    pub second: Option<i64>,
    pub action: Action,
}

/// What a line of a script is, whose lines spell commands of this type.
#[derive(Debug, Drop)]
pub enum LineAnswer<C = Command> {
    /// A line without bytes, or a comment.
    Blank,
    /// A command.
    Command(C),
    /// No script line.
    Refused,
}

/// Why a script was not read.
#[derive(Clone, Copy, Debug, PartialEq, Eq)]
pub enum ScriptFault {
    /// The line with this number, counted from 1, is the first that isn't a script line.
    Line(u64),
    /// Memory ran out.
    NoMemory,
}

impl From<NoMemory> for ScriptFault {
    ghost from_gives = { λ _ fault. fault ≡ OutOfMemory };

    fn from(_error: NoMemory) -> ScriptFault {
        ScriptFault::NoMemory
    }
}

impl From<AllocError> for ScriptFault {
    ghost from_gives = { λ _ fault. fault ≡ OutOfMemory };

    fn from(_error: AllocError) -> ScriptFault {
        ScriptFault::NoMemory
    }
}

impl<T: Drop> From<AllocFailed<T>> for ScriptFault {
    ghost from_gives = { λ _ fault. fault ≡ OutOfMemory };

    fn from(_error: AllocFailed<T>) -> ScriptFault {
        ScriptFault::NoMemory
    }
}
