//! The parts of a transaction: its own operations with what its reads see of them, the keys that it read, and the last
//! writes that a handle keeps for conflicts.
#![tactic(auto)]

mod bounds;
mod conflicts;
mod key_sets;
mod levels;
mod own_reads;
mod own_scans;
mod own_writes;
mod tracked_writes;

pub use conflicts::has_conflict;
pub use key_sets::KeySet;
pub use levels::IsolationLevel;
pub use own_writes::OwnWrites;
pub use tracked_writes::TrackedWrites;
