// Writing the answers to a script's commands as text.
ghost use Rattle.std.specs.Prelude.{◌≡◌, ◌++◌, length, take, OnOk, OnErr};
ghost use Rattle.slate_route.specs.Texts.{answer_text, answer_words, answers_text, pair_text, refusal_words, replied_words, routed_words};

use crate::answers::{RouteRefusal, Routed};
use crate::commands::RouteAnswer;
use slate_errors::{SlateError, write_error};
use slate_script::{Reply, write_labelled, write_reply_words, write_shown};
use slate_text::{cut_back, write_text};
use slate_types::NoMemory;

fn write_pair(
    out: &mut Vec<u8>,
    label: &str,
    first: u64,
    between: &str,
    second: u64,
) -> Result<(), NoMemory>
    ensures ok { OnOk result (out.new.items ≡ out.old.items ++ pair_text label.now first between.now second) }
    ensures err { OnErr result (take (length out.old.items) out.new.items ≡ out.old.items) }
{
    write_labelled(out, label, first)?;
    write_labelled(out, between, second)
}

fn write_fault(out: &mut Vec<u8>, error: &SlateError) -> Result<(), NoMemory>
    ensures ok { OnOk result (out.new.items ≡ out.old.items ++ refusal_words (RouteRefusal.Poll error.now)) }
    ensures err { OnErr result (take (length out.old.items) out.new.items ≡ out.old.items) }
{
    write_text(out, "error ")?;
    write_error(out, error)
}

fn write_refusal(out: &mut Vec<u8>, refusal: &RouteRefusal) -> Result<(), NoMemory>
    ensures ok { OnOk result (out.new.items ≡ out.old.items ++ refusal_words refusal.now) }
    ensures err { OnErr result (take (length out.old.items) out.new.items ≡ out.old.items) }
{
    match refusal {
        RouteRefusal::NoFollower => write_text(out, "error no follower"),
        RouteRefusal::Poll(error) | RouteRefusal::Read(error) | RouteRefusal::Open(error) => {
            write_fault(out, error)
        }
        RouteRefusal::Behind { at_least, best } => {
            write_pair(out, "error behind ", *best, " of ", *at_least)
        }
        RouteRefusal::Full => write_text(out, "error full"),
        RouteRefusal::NoMemory => write_text(out, "error no memory"),
    }
}

fn write_replied(out: &mut Vec<u8>, reply: &Reply) -> Result<(), NoMemory>
    ensures ok { OnOk result (out.new.items ≡ out.old.items ++ replied_words reply.now) }
    ensures err { OnErr result (take (length out.old.items) out.new.items ≡ out.old.items) }
{
    match reply {
        Reply::Written { number, .. } => write_labelled(out, "write number ", *number),
        reply => write_reply_words(out, reply),
    }
}

fn write_routed(out: &mut Vec<u8>, routed: &Routed) -> Result<(), NoMemory>
    ensures ok { OnOk result (out.new.items ≡ out.old.items ++ routed_words routed.now) }
    ensures err { OnErr result (take (length out.old.items) out.new.items ≡ out.old.items) }
{
    let follower = u64::from(routed.follower);
    write_pair(out, "follower ", follower, " at ", routed.number)?;
    match &routed.row {
        Some(row) => write_shown(out, " value ", row.value.as_slice()),
        None => write_text(out, " none"),
    }
}

fn write_words(out: &mut Vec<u8>, answer: &RouteAnswer) -> Result<(), NoMemory>
    ensures ok { OnOk result (out.new.items ≡ out.old.items ++ answer_words answer.now) }
    ensures err { OnErr result (take (length out.old.items) out.new.items ≡ out.old.items) }
{
    match answer {
        RouteAnswer::Replied(reply) => write_replied(out, reply),
        RouteAnswer::Added(added) => {
            write_pair(
                out,
                "follower ",
                u64::from(added.follower),
                " at ",
                added.at,
            )
        }
        RouteAnswer::Routed(routed) => write_routed(out, routed),
        RouteAnswer::Refused(refusal) => write_refusal(out, refusal),
    }
}

fn write_answer(out: &mut Vec<u8>, answer: &RouteAnswer) -> Result<(), NoMemory>
    ensures ok { OnOk result (out.new.items ≡ out.old.items ++ answer_text answer.now) }
    ensures err { OnErr result (take (length out.old.items) out.new.items ≡ out.old.items) }
{
    write_words(out, answer)?;
    write_text(out, "\n")?;
    Ok(())
}

fn write_answers(out: &mut Vec<u8>, answers: &[RouteAnswer]) -> Result<(), NoMemory>
    ensures ok { OnOk result (out.new.items ≡ out.old.items ++ answers_text answers.now) }
    ensures err { OnErr result (take (length out.old.items) out.new.items ≡ out.old.items) }
{
    for answer in answers {
        write_answer(out, answer)?;
    }
    Ok(())
}

/// Writes the text of answers at the end, in order, each with its newline. Where memory runs out, nothing was written.
pub(crate) fn print_answers(out: &mut Vec<u8>, answers: &[RouteAnswer]) -> Result<(), NoMemory>
    ensures ok { OnOk result (out.new.items ≡ out.old.items ++ answers_text answers.now) }
    ensures err { OnErr result (out.new.items ≡ out.old.items) }
{
    let length = out.len();
    let written = write_answers(out, answers);
    cut_back(out, length, written)
}
