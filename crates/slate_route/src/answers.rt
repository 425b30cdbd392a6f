// What a router answers, and why it doesn't.
ghost use Rattle.std.specs.Prelude.{◌≡◌};
ghost use Rattle.slate_route.specs.Reading.{opening_refusal, poll_refusal, read_refusal};

use slate_errors::SlateError;
use slate_types::{KeyValue, NoMemory};

/// A reader that was added to a router.
#[derive(Clone, Copy, Debug, PartialEq, Eq)]
pub struct Added {
    /// Its number: readers are numbered from 0.
    pub follower: u32,
    /// The number of the last batch that it sees.
    pub at: u64,
}

/// What a router reads of a key.
#[derive(Debug, Drop)]
pub struct Routed {
    /// The reader that was read.
    pub follower: u32,
    /// The number of the last batch that it sees.
    pub number: u64,
    /// How many readers were polled for it.
    pub polls: u32,
    /// The row of the key, where it has one.
    pub row: Option<KeyValue>,
}

/// Why a router adds no reader, or reads nothing.
#[derive(Debug, Drop)]
pub enum RouteRefusal {
    /// No reader is open.
    NoFollower,
    /// No open reader is as new as asked, and a poll failed: the first error of one.
    Poll(SlateError),
    /// No open reader is as new as asked, though each was polled.
    Behind {
        /// The number that was asked for.
        at_least: u64,
        /// The greatest number of an open reader.
        best: u64,
    },
    /// The read of the reader failed that is as new as asked.
    Read(SlateError),
    /// The reader wasn't opened.
    Open(SlateError),
    /// As many readers were added as have numbers: 4,294,967,295.
    Full,
    /// Memory ran out.
    NoMemory,
}

impl From<NoMemory> for RouteRefusal {
    ghost use Rattle.slate_route.specs.declared.answers.RouteRefusal.TheVariants.{NoMemory as OutOfMemory};

    ghost from_gives = { λ _ refusal. refusal ≡ OutOfMemory };

    fn from(_error: NoMemory) -> RouteRefusal {
        RouteRefusal::NoMemory
    }
}

impl RouteRefusal {
    /// The refusal by an error of a poll.
    pub(crate) fn of_poll(error: SlateError) -> RouteRefusal
        ensures { result ≡ poll_refusal error }
    {
        match error {
            SlateError::NoMemory => RouteRefusal::NoMemory,
            error => RouteRefusal::Poll(error),
        }
    }

    /// The refusal by an error of a read.
    pub(crate) fn of_read(error: SlateError) -> RouteRefusal
        ensures { result ≡ read_refusal error }
    {
        match error {
            SlateError::NoMemory => RouteRefusal::NoMemory,
            error => RouteRefusal::Read(error),
        }
    }

    /// The refusal by an error of an opening.
    pub(crate) fn of_opening(error: SlateError) -> RouteRefusal
        ensures { result ≡ opening_refusal error }
    {
        match error {
            SlateError::NoMemory => RouteRefusal::NoMemory,
            error => RouteRefusal::Open(error),
        }
    }
}
