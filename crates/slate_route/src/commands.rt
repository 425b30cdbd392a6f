// The commands of a router's script, and what answers them.
use crate::answers::{Added, RouteRefusal, Routed};
use bytes::Bytes;
use slate_script::Reply;

/// What a command asks.
#[derive(Drop)]
pub enum RouteAction {
    /// To write one put to the session's handle.
    Put { key: Bytes, value: Bytes },
    /// To store in a log file what the handle wrote.
    Flush,
    /// To add a reader. The lifetime of its checkpoint and the interval of its polls are in milliseconds.
    Add { lifetime_ms: u64, interval_ms: u64 },
    /// To read a key of a reader that sees at least the batches up to a number.
    Read { at_least: u64, key: Bytes },
}

/// A command of a script, with its moment in milliseconds and, where it has one, a second one: a put is accepted at that
/// where the first is before the handle's last write.
#[derive(Drop)]
pub struct RouteCommand {
    pub moment: i64,
    pub second: Option<i64>,
    pub action: RouteAction,
}

/// What answers a command.
#[derive(Drop)]
pub enum RouteAnswer {
    /// The reply to a command of the handle.
    Replied(Reply),
    /// A reader was added.
    Added(Added),
    /// A key was read.
    Routed(Routed),
    /// No reader was added, or nothing was read.
    Refused(RouteRefusal),
}
