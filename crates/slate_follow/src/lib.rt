//! A reader that follows a database: it goes by the latest manifest, whose tables it reads and whose log files it has in
//! memory. A poll takes the manifest anew, and of the log files those that it hasn't replayed yet. A reader of a checkpoint
//! goes by the manifest that it keeps, and stays at that. One may keep a checkpoint of its own under a lease, so that what
//! it goes by isn't removed while it polls.
#![tactic(auto)]

mod closes;
mod laws;
mod leased_polls;
mod leases;
mod machines;
mod memory_segments;
mod new_log_files;
mod options;
mod polls;
mod published;
mod reads;
mod rebuilds;
mod scans;
mod states;
mod step_answers;
mod step_calls;
mod tables;
mod takings;
mod tasks;

pub use laws::begun_polls_follow_the_line;
pub use machines::PollMachine;
pub use options::DbReaderOptions;
pub use slate_model::PollAnswer;
pub use slate_published::{
    FollowerNews, FollowerPublisher, FollowerReader, PublishedState, ReaderView, follower_readers,
};
pub use slate_store::DbReaderMode;
pub use states::FollowerState;
