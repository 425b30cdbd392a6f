// Reading the rows of a store as a machine.
ghost use Rattle.std.specs.Prelude.{◌≡◌, ℕ, List, IfOk, option_map};
ghost use Rattle.std.specs.Option.{option_and_then};
ghost use Rattle.slate_jobs.specs.Decoding.{AreOfBytes, IsBytes, IsOfBytes, machine_at, taken, with_job, with_reply, with_row};
ghost use Rattle.slate_jobs.specs.declared.jobs.Job.{Job as AJob};
ghost use Rattle.slate_jobs.specs.declared.jobs.JobReply.{JobReply as AReply};

use crate::jobs::{Job, JobReply};
use crate::rows::{Cells, RowName};
use slate_types::{KeyValue, NoMemory};
use std::alloc::Global;
use std::collections::BTreeMap;

/// The jobs and the kept replies of a machine.
#[derive(Drop)]
pub(crate) struct Kept {
    pub(crate) jobs: Vec<Job>,
    pub(crate) replies: BTreeMap<u64, JobReply>,
}

/// The machine that rows in the order of their keys are, where they are one's.
pub(crate) fn read_machine(alloc: Global, rows: &[KeyValue]) -> Result<Option<Kept>, NoMemory>
    ensures read { IfOk result (λ kept. option_map (λ k. record { jobs = k.jobs.items; replies = k.replies.entries }) kept ≡ machine_at rows.now) }
{
    let mut jobs = Vec::new(alloc);
    let mut replies = BTreeMap::new(alloc);
    for row in rows {
        if !take_row(&mut jobs, &mut replies, row)? {
            return Ok(None);
        }
    }
    Ok(Some(Kept { jobs, replies }))
}

/// Takes the job or the reply of a row, and answers whether it is one that may come next.
fn take_row(
    jobs: &mut Vec<Job>,
    replies: &mut BTreeMap<u64, JobReply>,
    row: &KeyValue,
) -> Result<bool, NoMemory>
    ensures row { IfOk result (λ took. with_row (record { jobs = jobs.old.items; replies = replies.old.entries }) row.now
        ≡ taken took (record { jobs = jobs.new.items; replies = replies.new.entries })) }
{
    let Some(name) = RowName::read(row.key.as_slice()) else {
        return Ok(false);
    };
    let Some(cells) = Cells::read(&row.value)? else {
        return Ok(false);
    };
    match name {
        RowName::OfJob(number) => take_job(jobs, number, cells.into_job()),
        RowName::OfReply(request) => take_reply(replies, request, cells.into_reply()),
    }
}

/// Takes a job as the next one, where it is, and answers that.
fn take_job(jobs: &mut Vec<Job>, number: u64, job: Option<Job>) -> Result<bool, NoMemory>
    ensures { (replies : List (ℕ × AReply)) → IfOk result (λ took. option_and_then (with_job (record { jobs = jobs.old.items; replies = replies }) number) job
        ≡ taken took (record { jobs = jobs.new.items; replies = replies })) }
{
    let Some(job) = job else {
        return Ok(false);
    };
    if number != jobs.len() as u64 {
        return Ok(false);
    }
    jobs.push(job)?;
    Ok(true)
}

/// Takes a reply, where there is none to the request, and answers that.
fn take_reply(
    replies: &mut BTreeMap<u64, JobReply>,
    request: u64,
    reply: Option<JobReply>,
) -> Result<bool, NoMemory>
    ensures { (jobs : List AJob) → IfOk result (λ took. option_and_then (with_reply (record { jobs = jobs; replies = replies.old.entries }) request) reply
        ≡ taken took (record { jobs = jobs; replies = replies.new.entries })) }
{
    let Some(reply) = reply else {
        return Ok(false);
    };
    if replies.contains_key(&request) {
        return Ok(false);
    }
    replies.insert(request, reply).map_err(NoMemory::from)?;
    Ok(true)
}

/// Does nothing: its contract says what the type of a byte says.
fn note_bytes(bytes: &[u8])
    ensures { IsBytes bytes.now }
{}

/// Does nothing: its contract says what the types of a key and a value say.
fn note_row(row: &KeyValue)
    ensures { IsOfBytes row.now }
{
    note_bytes(row.key.as_slice());
    note_bytes(row.value.as_slice());
}

/// Does nothing: its contract says what the types of keys and values say.
pub(crate) fn note_rows(rows: &[KeyValue])
    ensures { AreOfBytes rows.now }
{
    for row in rows {
        note_row(row);
    }
}
