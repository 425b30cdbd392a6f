// The commands of a script with feeds, and what answers them.
use crate::FeedRefusal;
use slate_script::{Command, Reply};
use slate_types::{Batch, Seq};

/// What a line asks.
#[derive(Drop)]
pub enum FeedCommand {
    /// What a command of a script without feeds asks.
    Run(Command),
    /// To open a feed of the batches after a number. Feeds are numbered from 0, in the order in which they are opened.
    Open { after: u64 },
    /// To deliver the next batches of a feed, at most so many.
    Next { feed: u64, limit: u32 },
}

/// What answers a command.
#[derive(Drop)]
pub enum FeedAnswer {
    /// The reply to a command of a script without feeds.
    Replied(Reply),
    /// A feed with this number was opened.
    Opened { feed: u64, after: u64 },
    /// A feed delivered these batches, and its cursor is this.
    Delivered { at: u64, batches: Seq<Batch> },
    /// A feed wasn't opened, or delivered nothing.
    Refused(FeedRefusal),
    /// No feed has the number.
    Unknown,
}
