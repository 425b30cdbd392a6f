// Writing the answers to a script's commands as text.
ghost use Rattle.std.specs.Prelude.{◌≡◌, ◌++◌, length, take, OnOk, OnErr};
ghost use Rattle.slate_jobs.specs.Texts.{answer_text, answer_words, answers_text, refusal_words, reply_words};

use crate::commands::JobAnswer;
use crate::jobs::{JobRefusal, JobReply};
use slate_errors::write_error;
use slate_script::{write_labelled, write_shown};
use slate_text::{cut_back, write_text};
use slate_types::NoMemory;

fn write_claimed(out: &mut Vec<u8>, job: u64, token: u64, payload: &[u8]) -> Result<(), NoMemory>
    ensures ok { OnOk result (out.new.items ≡ out.old.items ++ reply_words (JobReply.Claimed job token payload.now)) }
    ensures err { OnErr result (take (length out.old.items) out.new.items ≡ out.old.items) }
{
    write_labelled(out, "job ", job)?;
    write_labelled(out, " token ", token)?;
    write_shown(out, " payload ", payload)
}

fn write_reply(out: &mut Vec<u8>, reply: &JobReply) -> Result<(), NoMemory>
    ensures ok { OnOk result (out.new.items ≡ out.old.items ++ reply_words reply.now) }
    ensures err { OnErr result (take (length out.old.items) out.new.items ≡ out.old.items) }
{
    match reply {
        JobReply::Enqueued { job } => write_labelled(out, "job ", *job),
        JobReply::Claimed {
            job,
            token,
            payload,
        } => write_claimed(out, *job, *token, payload.as_slice()),
        JobReply::Empty => write_text(out, "empty"),
        JobReply::Completed => write_text(out, "completed"),
        JobReply::Stale { held: Some(token) } => write_labelled(out, "stale token ", *token),
        JobReply::Stale { held: None } => write_text(out, "stale"),
    }
}

fn write_refusal(out: &mut Vec<u8>, refusal: &JobRefusal) -> Result<(), NoMemory>
    ensures ok { OnOk result (out.new.items ≡ out.old.items ++ refusal_words refusal.now) }
    ensures err { OnErr result (take (length out.old.items) out.new.items ≡ out.old.items) }
{
    match refusal {
        JobRefusal::Foreign => write_text(out, "error foreign"),
        JobRefusal::Full => write_text(out, "error full"),
        JobRefusal::Writer(error) => {
            write_text(out, "error ")?;
            write_error(out, error)
        }
        JobRefusal::NoMemory => write_text(out, "error no memory"),
    }
}

fn write_words(out: &mut Vec<u8>, answer: &JobAnswer) -> Result<(), NoMemory>
    ensures ok { OnOk result (out.new.items ≡ out.old.items ++ answer_words answer.now) }
    ensures err { OnErr result (take (length out.old.items) out.new.items ≡ out.old.items) }
{
    match answer {
        JobAnswer::Replied(reply) => write_reply(out, reply),
        JobAnswer::Reopened => write_text(out, "reopened"),
        JobAnswer::Refused(refusal) => write_refusal(out, refusal),
    }
}

fn write_answer(out: &mut Vec<u8>, answer: &JobAnswer) -> Result<(), NoMemory>
    ensures ok { OnOk result (out.new.items ≡ out.old.items ++ answer_text answer.now) }
    ensures err { OnErr result (take (length out.old.items) out.new.items ≡ out.old.items) }
{
    write_words(out, answer)?;
    write_text(out, "\n")?;
    Ok(())
}

fn write_answers(out: &mut Vec<u8>, answers: &[JobAnswer]) -> Result<(), NoMemory>
    ensures ok { OnOk result (out.new.items ≡ out.old.items ++ answers_text answers.now) }
    ensures err { OnErr result (take (length out.old.items) out.new.items ≡ out.old.items) }
{
    for answer in answers {
        write_answer(out, answer)?;
    }
    Ok(())
}

/// Writes the text of answers at the end, in order, each with its newline. Where memory runs out, nothing was written.
pub(crate) fn print_answers(out: &mut Vec<u8>, answers: &[JobAnswer]) -> Result<(), NoMemory>
    ensures ok { OnOk result (out.new.items ≡ out.old.items ++ answers_text answers.now) }
    ensures err { OnErr result (out.new.items ≡ out.old.items) }
{
    let length = out.len();
    let written = write_answers(out, answers);
    cut_back(out, length, written)
}
