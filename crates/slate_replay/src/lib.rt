//! Replays log files, and reads tables: what log files have after a mark is appended to the batches in memory, and the
//! tables that a manifest names are read in order.
#![tactic(auto)]

mod newest;
mod recoveries;
mod replays;
mod tables;

pub use newest::{Newest, newest_above, newest_of};
pub use recoveries::recover;
pub use replays::{Replayed, replay, replay_next};
pub use tables::read_tables;
