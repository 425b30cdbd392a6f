// The replies to commands.
use crate::Boxed;
use slate_errors::{Ending, SlateError};
use slate_status::DbStatus;
use slate_types::{KeyValue, Seq};

/// The reply to a command.
#[derive(Debug, Drop)]
pub enum Reply {
    /// A handle was opened.
    Handle {
        object: u64,
    },
    /// A snapshot of a handle was opened, and sees batches up to this number.
    Snapshot {
        object: u64,
        at: u64,
    },
    /// A reader was opened, and sees batches up to this number; whether it took all that is stored.
    Follower {
        object: u64,
        whole: bool,
        at: u64,
    },
    /// A write was accepted, under this number of its batch.
    Written {
        write: u64,
        number: u64,
    },
    /// What a read found.
    Found(KeyValue),
    /// A read found nothing.
    Absent,
    /// The rows that a scan found, in its order.
    Rows(Seq<KeyValue>),
    /// What was written is durable.
    Flushed,
    /// A handle goes by the latest manifest.
    Refreshed,
    /// The tables are joined, where there were two or more.
    Compacted,
    /// A checkpoint was committed, under this number.
    Checkpointed {
        id: u64,
    },
    /// What was no longer needed is removed.
    Swept,
    /// The write is durable.
    Durable,
    /// The write isn't durable yet.
    Pending,
    /// A reader sees batches up to this number; whether it took all that is stored.
    Polled {
        whole: bool,
        at: u64,
    },
    /// A poll was begun.
    Begun,
    /// A call of the store was made of a poll that was begun, and it wasn't the last one.
    Stepped,
    /// An object was closed, and these tasks were ended. The fault is that of its closing flush, or why it could not
    /// be closed.
    Ended {
        fault: Option<SlateError>,
        tasks: Ending,
    },
    /// What an object reports of itself.
    Status(Boxed<DbStatus>),
    /// When a batch was written, in whole seconds; None where the handle knows no time for its number.
    Time(Option<i64>),
    /// Which number was written at a time; None where the handle knows none.
    Number(Option<u64>),
    /// A write was refused: of the handle's batches this many bytes of keys and values are unflushed, and that isn't
    /// below the limit.
    Backpressure {
        unflushed: u64,
        limit: u64,
    },
    /// The command was refused, or failed.
    Refused(SlateError),
    /// No object or write of the kind that the command names is there.
    Unknown,
    /// Memory ran out.
    NoMemory,
}
