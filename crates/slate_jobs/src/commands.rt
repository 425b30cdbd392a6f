// The commands of a job store's script, and what answers them.
use crate::jobs::{JobOp, JobRefusal, JobReply};

/// What a command asks.
#[derive(Drop)]
pub enum JobAction {
    /// A request of the job store, with its number.
    Ask { request: u64, op: JobOp },
    /// To open the job store anew.
    Reopen,
}

/// A command of a script, with its moment in milliseconds.
#[derive(Drop)]
pub struct JobCommand {
    pub moment: i64,
    pub action: JobAction,
}

/// What answers a command.
#[derive(Drop)]
pub enum JobAnswer {
    /// The reply to a request.
    Replied(JobReply),
    /// The job store was opened anew.
    Reopened,
    /// The request wasn't answered, or the job store wasn't opened.
    Refused(JobRefusal),
}
