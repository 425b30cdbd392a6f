// Reading a line of a job store's script as the command that its fields spell.
ghost use Rattle.std.specs.Prelude.{◌≡◌, IfOk};
ghost use Rattle.slate_jobs.specs.Lines.{action_of, ask_of, claim_form, command_of, complete_form, enqueue_form, reopen_form};

use crate::commands::{JobAction, JobCommand};
use crate::jobs::JobOp;
use bytes::Bytes;
use slate_script::{FromFields, read_word};
use slate_text::{read_number, read_time};
use slate_types::NoMemory;
use std::alloc::Global;

fn read_enqueue(alloc: Global, fields: &[Bytes]) -> Result<Option<JobAction>, NoMemory>
    ensures form { IfOk result (λ action. action ≡ enqueue_form fields.now) }
{
    let [request, payload] = fields else {
        return Ok(None);
    };
    let Some(request) = read_number(request.as_slice()) else {
        return Ok(None);
    };
    let Some(payload) = read_word(alloc, payload)? else {
        return Ok(None);
    };
    let op = JobOp::Enqueue(payload);
    Ok(Some(JobAction::Ask { request, op }))
}

fn read_claim(fields: &[Bytes]) -> Option<JobAction>
    ensures form { result ≡ claim_form fields.now }
{
    let [request, lease] = fields else {
        return None;
    };
    let request = read_number(request.as_slice())?;
    let lease_ms = read_number(lease.as_slice())?;
    let op = JobOp::Claim { lease_ms };
    Some(JobAction::Ask { request, op })
}

fn read_complete(fields: &[Bytes]) -> Option<JobAction>
    ensures form { result ≡ complete_form fields.now }
{
    let [request, job, token] = fields else {
        return None;
    };
    let request = read_number(request.as_slice())?;
    let job = read_number(job.as_slice())?;
    let token = read_number(token.as_slice())?;
    let op = JobOp::Complete { job, token };
    Some(JobAction::Ask { request, op })
}

fn read_reopen(fields: &[Bytes]) -> Option<JobAction>
    ensures form { result ≡ reopen_form fields.now }
{
    if fields.is_empty() {
        Some(JobAction::Reopen)
    } else {
        None
    }
}

// The action of a name and the fields behind it, where that takes no memory.
fn read_ask(name: &[u8], fields: &[Bytes]) -> Option<JobAction>
    ensures form { result ≡ ask_of name.now fields.now }
{
    if name == b"claim".as_slice() {
        read_claim(fields)
    } else if name == b"complete".as_slice() {
        read_complete(fields)
    } else if name == b"reopen".as_slice() {
        read_reopen(fields)
    } else {
        None
    }
}

// The action that a name and the fields behind it spell.
fn read_action(alloc: Global, name: &[u8], fields: &[Bytes]) -> Result<Option<JobAction>, NoMemory>
    ensures form { IfOk result (λ action. action ≡ action_of name.now fields.now) }
{
    if name == b"enqueue".as_slice() {
        return read_enqueue(alloc, fields);
    }
    Ok(read_ask(name, fields))
}

fn read_command(alloc: Global, fields: &[Bytes]) -> Result<Option<JobCommand>, NoMemory>
    ensures form { IfOk result (λ command. command ≡ command_of fields.now) }
{
    let [moment, name, fields @ ..] = fields else {
        return Ok(None);
    };
    let Some(moment) = read_time(moment.as_slice()) else {
        return Ok(None);
    };
    let Some(action) = read_action(alloc, name.as_slice(), fields)? else {
        return Ok(None);
    };
    Ok(Some(JobCommand { moment, action }))
}

impl FromFields for JobCommand {
    ghost use Rattle.slate_jobs.specs.Lines.{command_of as spelled_command};

    ghost spelled = { spelled_command };

    fn from_fields(alloc: Global, fields: &[Bytes]) -> Result<Option<JobCommand>, NoMemory> {
        read_command(alloc, fields)
    }
}
