// What a request does to the jobs, and its reply.
ghost use Rattle.std.specs.Prelude.{◌≡◌, ◌<◌, IfOk, IfSome, Option, length, slice_get};
ghost use Rattle.std.specs.Option.{option_copied};
ghost use Rattle.std.specs.Vec.{vec_capacity};
ghost use Rattle.slate_store.specs.Checkpoints.{lease_end};
ghost use Rattle.slate_jobs.specs.Machine.{claim_at, completion_by, completion_of, effect_of, first_claimable, is_claimable, is_full, jobs_after};

use crate::job_lists::JobList;
use crate::jobs::{Job, JobOp, JobReply, JobState};
use bytes::Bytes;
use slate_types::NoMemory;

/// A change of the jobs.
#[derive(Drop)]
pub(crate) enum Change {
    /// A job is added after the others.
    Adds(Job),
    /// The job with this number becomes this one.
    Moves(u64, Job),
    /// They stay.
    Keeps,
}

/// What a request does to the jobs, and its reply.
#[derive(Drop)]
pub(crate) struct Effect {
    pub(crate) change: Change,
    pub(crate) reply: JobReply,
}

impl Effect {
    /// One that leaves the jobs.
    fn keeps(reply: JobReply) -> Effect
        ensures { result ≡ record { change = Change.Keeps; reply = reply } }
    {
        Effect {
            change: Change::Keeps,
            reply,
        }
    }

    /// What a request does that has no reply yet.
    pub(crate) fn of(
        list: &JobList,
        request: u64,
        op: JobOp,
        moment: i64,
    ) -> Result<Effect, NoMemory>
        ensures { IfOk result (λ effect. effect ≡ effect_of list.now.items request op moment) }
    {
        let jobs = list.as_slice();
        match op {
            JobOp::Enqueue(payload) => Ok(Effect {
                change: Change::Adds(Job {
                    state: JobState::Waiting,
                    payload,
                }),
                reply: JobReply::Enqueued {
                    job: jobs.len() as u64,
                },
            }),
            JobOp::Claim { lease_ms } => {
                let place = list.first_claimable(moment);
                claim(jobs, request, lease_end(moment, lease_ms), place)
            }
            JobOp::Complete { job, token } => complete(job, token, job_at(jobs, job)),
        }
    }
}

/// Whether a job in a state may be claimed at a moment.
fn is_claimable(state: JobState, moment: i64) -> bool
    ensures { result ≡ is_claimable moment state }
{
    match state {
        JobState::Waiting => true,
        JobState::Claimed { token: _, until } => until < moment,
        JobState::Done => false,
    }
}

/// The place of the least job that may be claimed at a moment, by a pass over them.
#[tactic(auto, unfolding(crate::specs::Machine::first_claimable))]
pub(crate) fn first_claimable(jobs: &[Job], moment: i64) -> Option<usize>
    ensures place { result ≡ first_claimable jobs.now moment }
    ensures within { IfSome result (λ place. place < length jobs.now) }
{
    jobs.iter().position(|job| is_claimable(job.state, moment))
}

/// The job with a number, where there is one.
fn job_at(jobs: &[Job], number: u64) -> Option<&Job>
    ensures { option_copied result ≡ slice_get jobs.now number }
{
    jobs.get(number as usize)
}

/// The last moment of a lease of so many milliseconds, at most the greatest moment.
fn lease_end(moment: i64, lease_ms: u64) -> i64
    ensures { result ≡ lease_end moment lease_ms }
{
    moment.checked_add_unsigned(lease_ms).unwrap_or(i64::MAX)
}

/// The claim of the job at a place, where there is one.
fn claim(jobs: &[Job], request: u64, until: i64, place: Option<usize>) -> Result<Effect, NoMemory>
    requires { IfSome place (λ number. number < length jobs.now) }
    ensures { IfOk result (λ effect. effect ≡ claim_at jobs.now request until place) }
{
    let Some(number) = place else {
        return Ok(Effect::keeps(JobReply::Empty));
    };
    let payload = &jobs[number].payload;
    let number = number as u64;
    Ok(Effect {
        change: Change::Moves(
            number,
            Job {
                state: JobState::Claimed {
                    token: request,
                    until,
                },
                payload: payload.clone()?,
            },
        ),
        reply: JobReply::Claimed {
            job: number,
            token: request,
            payload: payload.clone()?,
        },
    })
}

/// The completion of a job, where there is one.
fn complete(number: u64, token: u64, job: Option<&Job>) -> Result<Effect, NoMemory>
    ensures { IfOk result (λ effect. effect ≡ completion_of number token (option_copied job.entry)) }
{
    let Some(job) = job else {
        return Ok(Effect::keeps(JobReply::Stale { held: None }));
    };
    let JobState::Claimed { token: held, .. } = job.state else {
        return Ok(Effect::keeps(JobReply::Stale { held: None }));
    };
    if held != token {
        return Ok(Effect::keeps(JobReply::Stale { held: Some(held) }));
    }
    Ok(Effect {
        change: Change::Moves(
            number,
            Job {
                state: JobState::Done,
                payload: job.payload.clone()?,
            },
        ),
        reply: JobReply::Completed,
    })
}

/// Whether a request would add a job whose number is the greatest one.
pub(crate) fn is_full(jobs: &[Job], op: &JobOp) -> bool
    ensures { result ≡ is_full jobs.now op.now }
{
    match op {
        JobOp::Enqueue(_) => jobs.len() as u64 == u64::MAX,
        _ => false,
    }
}

/// Makes a change of the jobs. There is room for one more.
pub(crate) fn make(jobs: &mut Vec<Job>, change: Change)
    requires { length jobs.old.items < vec_capacity jobs.old }
    ensures { jobs.new.items ≡ jobs_after jobs.old.items change }
{
    match change {
        Change::Adds(job) => {
            let _ = jobs.push(job);
        }
        Change::Moves(number, job) => {
            if let Some(place) = jobs.get_mut(number as usize) {
                *place = job;
            }
        }
        Change::Keeps => {}
    }
}
