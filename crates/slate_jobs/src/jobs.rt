// Jobs, what is asked of a job store, and what it answers.
ghost use Rattle.std.specs.Prelude.{◌≡◌};

use bytes::Bytes;
use slate_errors::SlateError;
use slate_types::NoMemory;
use std::alloc::AllocError;

/// What has come of a job.
#[derive(Clone, Copy)]
pub enum JobState {
    /// It waits to be claimed.
    Waiting,
    /// It is claimed.
    Claimed {
        /// The number of the request that claimed it, with which it is completed.
        token: u64,
        /// The last moment of its lease, in milliseconds: later it may be claimed again.
        until: i64,
    },
    /// It is completed.
    Done,
}

/// A job. Its number is its place in the list of all jobs.
#[derive(Drop)]
pub struct Job {
    pub state: JobState,
    pub payload: Bytes,
}

/// What a request asks.
#[derive(Drop)]
pub enum JobOp {
    /// To add a job with this payload.
    Enqueue(Bytes),
    /// To claim a job for so many milliseconds.
    Claim { lease_ms: u64 },
    /// To complete a job by the token with which it was claimed.
    Complete { job: u64, token: u64 },
}

/// The reply to a request. It is kept for good.
#[derive(Drop)]
pub enum JobReply {
    /// The job was added, with this number.
    Enqueued {
        job: u64,
    },
    /// The job was claimed. The token is the request's number.
    Claimed {
        job: u64,
        token: u64,
        payload: Bytes,
    },
    /// There is no job to claim.
    Empty,
    /// The job was completed.
    Completed,
    /// The job isn't claimed with that token.
    Stale {
        /// The token with which it is claimed, where it is.
        held: Option<u64>,
    },
}

impl Clone for JobReply {
    ghost is_clone = { λ reply copy. copy ≡ reply };

    fn clone(&self) -> Result<JobReply, AllocError> {
        Ok(match self {
            JobReply::Enqueued { job } => JobReply::Enqueued { job: *job },
            JobReply::Claimed {
                job,
                token,
                payload,
            } => JobReply::Claimed {
                job: *job,
                token: *token,
                payload: payload.clone()?,
            },
            JobReply::Empty => JobReply::Empty,
            JobReply::Completed => JobReply::Completed,
            JobReply::Stale { held } => JobReply::Stale { held: *held },
        })
    }
}

/// Why a job store isn't opened, or a request isn't answered.
#[derive(Drop)]
pub enum JobRefusal {
    /// The store has a row that isn't one of a job store, or its jobs have a gap.
    Foreign,
    /// The next job's number would be the greatest one.
    Full,
    /// The writer refused.
    Writer(SlateError),
    /// Memory ran out.
    NoMemory,
}

impl From<NoMemory> for JobRefusal {
    ghost use Rattle.slate_jobs.specs.declared.jobs.JobRefusal.TheVariants.{NoMemory as OutOfMemory};

    ghost from_gives = { λ _ refusal. refusal ≡ OutOfMemory };

    fn from(_error: NoMemory) -> JobRefusal {
        JobRefusal::NoMemory
    }
}
