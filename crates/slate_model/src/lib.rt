//! What a database is, and what each operation may do to it: definitions that contracts cite, and the answers that they
//! speak of.
#![tactic(auto)]

mod answers;
mod leases;
mod polls;
mod refusals;
mod snapshots;

pub use answers::{PollAnswer, Written};
pub use leases::Lease;
pub use polls::{FirstRead, PollHistory};
pub use refusals::{error_of_refusal, recorded};
pub use snapshots::HandleSnapshot;
