//! A status that threads share and wait for, the handles of writes, and clocks.
#![tactic(auto)]

mod clocks;
mod managers;
mod receivers;
mod shared;
mod waiters;
mod write_handles;

pub use clocks::{Clock, HandClock, SystemClock};
pub use managers::StatusManager;
pub use receivers::StatusReceiver;
pub use waiters::DurabilityWaiter;
pub use write_handles::WriteHandle;
