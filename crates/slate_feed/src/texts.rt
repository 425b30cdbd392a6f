// Writing the answers to a script's commands as text.
ghost use Rattle.std.specs.Prelude.{◌≡◌, ◌++◌, length, take, OnOk, OnErr};
ghost use Rattle.std.specs.List.{flat_map};
ghost use Rattle.slate_feed.specs.Texts.{answer_text, answer_words, answers_text, batch_text, pair_text, refusal_words};

use crate::FeedRefusal;
use crate::commands::FeedAnswer;
use slate_script::{write_labelled, write_reply_words};
use slate_text::{cut_back, write_signed, write_text};
use slate_types::{Batch, NoMemory};

fn write_pair(
    out: &mut Vec<u8>,
    label: &str,
    first: u64,
    between: &str,
    second: u64,
) -> Result<(), NoMemory>
    ensures ok { OnOk result (out.new.items ≡ out.old.items ++ pair_text label.now first between.now second) }
    ensures err { OnErr result (take (length out.old.items) out.new.items ≡ out.old.items) }
{
    write_labelled(out, label, first)?;
    write_labelled(out, between, second)
}

fn write_batch(out: &mut Vec<u8>, batch: &Batch) -> Result<(), NoMemory>
    ensures ok { OnOk result (out.new.items ≡ out.old.items ++ batch_text batch.now) }
    ensures err { OnErr result (take (length out.old.items) out.new.items ≡ out.old.items) }
{
    write_labelled(out, "\nbatch ", batch.number)?;
    write_text(out, " created ")?;
    write_signed(out, batch.create_ts)?;
    write_labelled(out, " ops ", batch.ops.as_slice().len() as u64)
}

fn write_batches(out: &mut Vec<u8>, batches: &[Batch]) -> Result<(), NoMemory>
    ensures ok { OnOk result (out.new.items ≡ out.old.items ++ flat_map batch_text batches.now) }
    ensures err { OnErr result (take (length out.old.items) out.new.items ≡ out.old.items) }
{
    for batch in batches {
        write_batch(out, batch)?;
    }
    Ok(())
}

fn write_delivered(out: &mut Vec<u8>, at: u64, batches: &[Batch]) -> Result<(), NoMemory>
    ensures ok { OnOk result (out.new.items ≡ out.old.items ++ answer_words (FeedAnswer.Delivered at batches.now)) }
    ensures err { OnErr result (take (length out.old.items) out.new.items ≡ out.old.items) }
{
    write_pair(out, "batches ", batches.len() as u64, " at ", at)?;
    write_batches(out, batches)
}

fn write_refusal(out: &mut Vec<u8>, refusal: &FeedRefusal) -> Result<(), NoMemory>
    ensures ok { OnOk result (out.new.items ≡ out.old.items ++ refusal_words refusal.now) }
    ensures err { OnErr result (take (length out.old.items) out.new.items ≡ out.old.items) }
{
    match refusal {
        FeedRefusal::LatestTransactionalObjectVersionMissing => {
            write_text(out, "error feed missing")
        }
        FeedRefusal::BeforeFloor { cursor, floor } => {
            write_pair(out, "error feed floor ", *floor, " of ", *cursor)
        }
        FeedRefusal::Ahead { cursor, end } => {
            write_pair(out, "error feed ahead ", *cursor, " of ", *end)
        }
        FeedRefusal::ObjectStoreError => write_text(out, "error feed store"),
        FeedRefusal::NoMemory => write_text(out, "error no memory"),
        FeedRefusal::Moved => write_text(out, "error feed moved"),
    }
}

fn write_words(out: &mut Vec<u8>, answer: &FeedAnswer) -> Result<(), NoMemory>
    ensures ok { OnOk result (out.new.items ≡ out.old.items ++ answer_words answer.now) }
    ensures err { OnErr result (take (length out.old.items) out.new.items ≡ out.old.items) }
{
    match answer {
        FeedAnswer::Replied(reply) => write_reply_words(out, reply),
        FeedAnswer::Opened { feed, after } => write_pair(out, "feed ", *feed, " after ", *after),
        FeedAnswer::Delivered { at, batches } => write_delivered(out, *at, batches.as_slice()),
        FeedAnswer::Refused(refusal) => write_refusal(out, refusal),
        FeedAnswer::Unknown => write_text(out, "error unknown object"),
    }
}

fn write_answer(out: &mut Vec<u8>, answer: &FeedAnswer) -> Result<(), NoMemory>
    ensures ok { OnOk result (out.new.items ≡ out.old.items ++ answer_text answer.now) }
    ensures err { OnErr result (take (length out.old.items) out.new.items ≡ out.old.items) }
{
    write_words(out, answer)?;
    write_text(out, "\n")?;
    Ok(())
}

fn write_answers(out: &mut Vec<u8>, answers: &[FeedAnswer]) -> Result<(), NoMemory>
    ensures ok { OnOk result (out.new.items ≡ out.old.items ++ answers_text answers.now) }
    ensures err { OnErr result (take (length out.old.items) out.new.items ≡ out.old.items) }
{
    for answer in answers {
        write_answer(out, answer)?;
    }
    Ok(())
}

/// Writes the text of answers at the end, in order, each with its newline. Where memory runs out, nothing was written.
pub(crate) fn print_answers(out: &mut Vec<u8>, answers: &[FeedAnswer]) -> Result<(), NoMemory>
    ensures ok { OnOk result (out.new.items ≡ out.old.items ++ answers_text answers.now) }
    ensures err { OnErr result (out.new.items ≡ out.old.items) }
{
    let length = out.len();
    let written = write_answers(out, answers);
    cut_back(out, length, written)
}
