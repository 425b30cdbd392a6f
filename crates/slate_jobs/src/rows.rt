// The rows of jobs and of kept replies, as bytes and back.
ghost use Rattle.std.specs.Prelude.{◌≡◌, ◌≤◌, ◌<◌, ◌^◌, ◌+◌, ◌∷◌, [], length, IfOk};
ghost use Rattle.slate_jobs.specs.Machine.{effect_of};
ghost use Rattle.slate_jobs.specs.Decoding.{cells_at, is_bare, job_in, name_at, number_at, plain_reply_in, reply_in, state_in};
ghost use Rattle.slate_jobs.specs.Rows.{eight, job_cells, job_key, job_value, put, puts_of, reply_cells, reply_key, reply_value, spelled};

use crate::effects::{Change, Effect};
use crate::job_lists::JobList;
use crate::jobs::{Job, JobOp, JobReply, JobState};
use bytes::Bytes;
use slate_types::{KeyOp, NoMemory, Op, Seq, WriteBatch};
use std::alloc::Global;

/// The first byte of a job's key.
const JOB: u8 = b'j';

/// The first byte of the key of a kept reply.
const REPLY: u8 = b'r';

/// What a key names.
#[derive(Clone, Copy)]
pub(crate) enum RowName {
    /// The job with this number.
    OfJob(u64),
    /// The reply to the request with this number.
    OfReply(u64),
}

/// The parts of a value.
#[derive(Drop)]
pub(crate) struct Cells {
    pub(crate) tag: u8,
    pub(crate) first: u64,
    pub(crate) second: u64,
    pub(crate) payload: Bytes,
}

impl Cells {
    /// Cells with this tag, and else nothing.
    fn bare(tag: u8) -> Cells
        ensures { result ≡ record { tag = tag; first = 0; second = 0; payload = [] } }
    {
        Cells {
            tag,
            first: 0,
            second: 0,
            payload: Bytes::new(),
        }
    }

    /// The cells of a job.
    fn of_job(job: &Job) -> Result<Cells, NoMemory>
        ensures { IfOk result (λ cells. cells ≡ job_cells job.now) }
    {
        let (tag, first, second) = match job.state {
            JobState::Waiting => (0, 0, 0),
            JobState::Claimed { token, until } => (1, token, until.cast_unsigned()),
            JobState::Done => (2, 0, 0),
        };
        let payload = job.payload.clone()?;
        Ok(Cells {
            tag,
            first,
            second,
            payload,
        })
    }

    /// The cells of a kept reply.
    fn of_reply(reply: &JobReply) -> Result<Cells, NoMemory>
        ensures { IfOk result (λ cells. cells ≡ reply_cells reply.now) }
    {
        Ok(match reply {
            JobReply::Enqueued { job } => Cells {
                first: *job,
                ..Cells::bare(0)
            },
            JobReply::Claimed {
                job,
                token,
                payload,
            } => Cells {
                tag: 1,
                first: *job,
                second: *token,
                payload: payload.clone()?,
            },
            JobReply::Empty => Cells::bare(2),
            JobReply::Completed => Cells::bare(3),
            JobReply::Stale { held: None } => Cells::bare(4),
            JobReply::Stale { held: Some(token) } => Cells {
                second: *token,
                ..Cells::bare(5)
            },
        })
    }

    /// The value with these cells.
    fn spell(&self, alloc: Global) -> Result<Bytes, NoMemory>
        ensures { IfOk result (λ value. value ≡ spelled self.now) }
    {
        let mut value = Vec::new(alloc);
        value.push(self.tag)?;
        value.extend_from_slice(&self.first.to_be_bytes())?;
        value.extend_from_slice(&self.second.to_be_bytes())?;
        value.extend_from_slice(self.payload.as_slice())?;
        Ok(Bytes::from_vec(value)?)
    }

    /// The cells of a value, where it is long enough to have them. They share its payload.
    pub(crate) fn read(value: &Bytes) -> Result<Option<Cells>, NoMemory>
        ensures { IfOk result (λ cells. cells ≡ cells_at value.now) }
    {
        let bytes = value.as_slice();
        if bytes.len() < 17 {
            return Ok(None);
        }
        Ok(Some(Cells {
            tag: bytes[0],
            first: number_at(bytes, 1),
            second: number_at(bytes, 9),
            payload: value.slice(17..)?,
        }))
    }

    /// Whether they have no number.
    fn is_bare(&self) -> bool
        ensures { result ≡ is_bare self.now }
    {
        self.first == 0 && self.second == 0
    }

    /// The state of the job that has these cells.
    fn state(&self) -> Option<JobState>
        ensures { result ≡ state_in self.now }
    {
        if self.tag == 1 {
            return Some(JobState::Claimed {
                token: self.first,
                until: self.second.cast_signed(),
            });
        }
        if self.is_bare() && self.tag == 0 {
            return Some(JobState::Waiting);
        }
        if self.is_bare() && self.tag == 2 {
            return Some(JobState::Done);
        }
        None
    }

    /// The job that has these cells.
    pub(crate) fn into_job(self) -> Option<Job>
        ensures { result ≡ job_in self }
    {
        let state = self.state()?;
        Some(Job {
            state,
            payload: self.payload,
        })
    }

    /// The reply without a payload that has these cells.
    fn plain_reply(&self) -> Option<JobReply>
        ensures { result ≡ plain_reply_in self.now }
    {
        if self.second == 0 && self.tag == 0 {
            return Some(JobReply::Enqueued { job: self.first });
        }
        if self.is_bare() && self.tag == 2 {
            return Some(JobReply::Empty);
        }
        if self.is_bare() && self.tag == 3 {
            return Some(JobReply::Completed);
        }
        if self.is_bare() && self.tag == 4 {
            return Some(JobReply::Stale { held: None });
        }
        if self.first == 0 && self.tag == 5 {
            return Some(JobReply::Stale {
                held: Some(self.second),
            });
        }
        None
    }

    /// The reply that has these cells.
    pub(crate) fn into_reply(self) -> Option<JobReply>
        ensures { result ≡ reply_in self }
    {
        if self.tag == 1 {
            return Some(JobReply::Claimed {
                job: self.first,
                token: self.second,
                payload: self.payload,
            });
        }
        if self.payload.is_empty() {
            return self.plain_reply();
        }
        None
    }
}

/// The number in the eight bytes from a place on.
fn number_at(bytes: &[u8], place: usize) -> u64
    requires { place + 8 ≤ length bytes.now }
    ensures { result ≡ number_at bytes.now place }
{
    match bytes[place..].first_chunk::<8>() {
        Some(word) => u64::from_be_bytes(*word),
        None => 0,
    }
}

impl RowName {
    /// What a key names, where it is one of a job store.
    pub(crate) fn read(key: &[u8]) -> Option<RowName>
        ensures { result ≡ name_at key.now }
    {
        if key.len() != 9 {
            return None;
        }
        match key[0] {
            JOB => Some(RowName::OfJob(number_at(key, 1))),
            REPLY => Some(RowName::OfReply(number_at(key, 1))),
            _ => None,
        }
    }
}

/// A key: a tag, and a number in eight bytes.
fn key_of(alloc: Global, tag: u8, number: u64) -> Result<Bytes, NoMemory>
    ensures { IfOk result (λ key. key ≡ tag ∷ eight number) }
{
    let mut key = Vec::new(alloc);
    key.push(tag)?;
    key.extend_from_slice(&number.to_be_bytes())?;
    Ok(Bytes::from_vec(key)?)
}

/// The put of the row of a job.
fn put_job(alloc: Global, number: u64, job: &Job) -> Result<KeyOp, NoMemory>
    ensures { IfOk result (λ op. op ≡ put (job_key number) (job_value job.now)) }
{
    let key = key_of(alloc, JOB, number)?;
    let value = Cells::of_job(job)?.spell(alloc)?;
    Ok(KeyOp {
        key,
        op: Op::Put(value, None),
    })
}

/// The put of the row of a kept reply.
fn put_reply(alloc: Global, request: u64, reply: &JobReply) -> Result<KeyOp, NoMemory>
    ensures { IfOk result (λ op. op ≡ put (reply_key request) (reply_value reply.now)) }
{
    let key = key_of(alloc, REPLY, request)?;
    let value = Cells::of_reply(reply)?.spell(alloc)?;
    Ok(KeyOp {
        key,
        op: Op::Put(value, None),
    })
}

/// The batch of an effect, where there are so many jobs before: the row of its job, and that of its reply.
fn batch_of(
    alloc: Global,
    count: u64,
    request: u64,
    effect: &Effect,
) -> Result<WriteBatch, NoMemory>
    ensures { IfOk result (λ batch. batch.ops ≡ puts_of count request effect.now) }
{
    let mut ops = Vec::new(alloc);
    match &effect.change {
        Change::Adds(job) => ops.push(put_job(alloc, count, job)?)?,
        Change::Moves(number, job) => ops.push(put_job(alloc, *number, job)?)?,
        Change::Keeps => {}
    }
    ops.push(put_reply(alloc, request, &effect.reply)?)?;
    Ok(WriteBatch { ops: Seq::of(ops) })
}

/// What a request does, and its batch.
#[derive(Drop)]
pub(crate) struct Plan {
    pub(crate) effect: Effect,
    pub(crate) batch: WriteBatch,
}

impl Plan {
    /// That of a request that has no reply yet.
    pub(crate) fn of(
        alloc: Global,
        jobs: &JobList,
        request: u64,
        op: JobOp,
        moment: i64,
    ) -> Result<Plan, NoMemory>
        ensures effect { IfOk result (λ plan. plan.effect ≡ effect_of jobs.now.items request op moment) }
        ensures batch { IfOk result (λ plan. plan.batch.ops ≡ puts_of (length jobs.now.items) request plan.effect) }
        // What the types say.
        ensures room { IfOk result (λ plan. length jobs.now.items < 2 ^ 64) }
        ensures fits { request < 2 ^ 64 }
    {
        let effect = Effect::of(jobs, request, op, moment)?;
        let batch = batch_of(alloc, jobs.as_slice().len() as u64, request, &effect)?;
        Ok(Plan { effect, batch })
    }
}
