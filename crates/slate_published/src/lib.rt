//! The states of a reader that follows a database, which one thread publishes and others read without a lock.
#![tactic(auto)]

mod editions;
mod fronts;
mod lists;
mod opening;
mod publishers;
mod readers;
mod reads;
mod states;
#[cfg(test)]
mod tests;
mod views;

pub use opening::follower_readers;
pub use publishers::FollowerPublisher;
pub use readers::{FollowerNews, FollowerReader};
pub use states::PublishedState;
pub use views::ReaderView;
