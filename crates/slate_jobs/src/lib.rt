//! A job store on one writer: jobs are enqueued, claimed for a time and completed, and each request has one reply for good.
#![tactic(auto)]

mod commands;
mod effects;
mod failures;
mod job_lists;
mod jobs;
mod laws;
mod lines;
mod reading;
mod rows;
mod sessions;
mod stores;
mod texts;
mod turns;

pub use commands::{JobAction, JobAnswer, JobCommand};
pub use jobs::{Job, JobOp, JobRefusal, JobReply, JobState};
pub use laws::{each_request_has_one_reply, rows_and_machine_give_each_other};
pub use sessions::jobs_session;
pub use stores::JobStore;
