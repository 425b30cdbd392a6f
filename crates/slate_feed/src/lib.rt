//! A change feed: it hands out the stored batches of a database in their order, after a cursor that its owner keeps; and
//! sessions with feeds.
#![tactic(auto)]

mod commands;
mod feeds;
mod laws;
mod lines;
mod machines;
mod pieces;
mod refusals;
mod sessions;
mod texts;

pub use commands::{FeedAnswer, FeedCommand};
pub use feeds::Feed;
pub use laws::{begun_calls_follow_the_line, feeds_deliver_the_line};
pub use machines::{FeedMachine, FeedStep};
pub use refusals::FeedRefusal;
pub use sessions::feed_session;
