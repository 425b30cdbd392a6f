// Writing replies as text.
ghost use Rattle.std.specs.Prelude.{◌≡◌, ◌++◌, ◌∷◌, length, map, take, decimal, OnOk, OnErr};
ghost use Rattle.std.specs.List.{flat_map};
ghost use Rattle.slate_text.specs.Words.{word_text};
ghost use Rattle.slate_errors.specs.Tasks.{task_text};
ghost use Rattle.slate_script.specs.Replies.{because_text, number_text, prefixes_text, reason_text, standing_text, time_text};
ghost use Rattle.slate_script.specs.Replies.{expiry_text, fault_text, poll_text, row_text, rows_text, stamp_text, tasks_text, reply_words, reply_text, replies_text};

use crate::Reply;
use slate_errors::{CloseReason, Ending, SlateError, TaskName, write_error};
use slate_status::{DbStatus, SegmentPrefix};
use slate_text::{cut_back, write_byte_word, write_number, write_signed, write_text};
use slate_types::{KeyValue, NoMemory};

fn write_expiry(out: &mut Vec<u8>, time: Option<i64>) -> Result<(), NoMemory>
    ensures ok { OnOk result (out.new.items ≡ out.old.items ++ expiry_text time) }
    ensures err { OnErr result (take (length out.old.items) out.new.items ≡ out.old.items) }
{
    if let Some(time) = time {
        write_text(out, " expires ")?;
        write_signed(out, time)?;
    }
    Ok(())
}

/// Writes a text and a number in decimal digits at the end. Where memory runs out, a part of them may be written.
pub fn write_labelled(out: &mut Vec<u8>, label: &str, number: u64) -> Result<(), NoMemory>
    ensures ok { OnOk result (out.new.items ≡ out.old.items ++ (label.now ++ decimal number)) }
    ensures err { OnErr result (take (length out.old.items) out.new.items ≡ out.old.items) }
{
    write_text(out, label)?;
    write_number(out, number)
}

/// Writes a text and bytes as a byte word at the end. Where memory runs out, a part of them may be written.
pub fn write_shown(out: &mut Vec<u8>, label: &str, bytes: &[u8]) -> Result<(), NoMemory>
    ensures ok { OnOk result (out.new.items ≡ out.old.items ++ (label.now ++ word_text bytes.now)) }
    ensures err { OnErr result (take (length out.old.items) out.new.items ≡ out.old.items) }
{
    write_text(out, label)?;
    write_byte_word(out, bytes)
}

fn write_stamp(out: &mut Vec<u8>, row: &KeyValue) -> Result<(), NoMemory>
    ensures ok { OnOk result (out.new.items ≡ out.old.items ++ stamp_text row.now) }
    ensures err { OnErr result (take (length out.old.items) out.new.items ≡ out.old.items) }
{
    write_labelled(out, " number ", row.seq)?;
    write_text(out, " created ")?;
    write_signed(out, row.create_ts)?;
    write_expiry(out, row.expire_ts)
}

fn write_found(out: &mut Vec<u8>, row: &KeyValue) -> Result<(), NoMemory>
    ensures ok { OnOk result (out.new.items ≡ out.old.items ++ reply_words (Reply.Found row.now)) }
    ensures err { OnErr result (take (length out.old.items) out.new.items ≡ out.old.items) }
{
    write_shown(out, "value ", row.value.as_slice())?;
    write_stamp(out, row)
}

fn write_row(out: &mut Vec<u8>, row: &KeyValue) -> Result<(), NoMemory>
    ensures ok { OnOk result (out.new.items ≡ out.old.items ++ row_text row.now) }
    ensures err { OnErr result (take (length out.old.items) out.new.items ≡ out.old.items) }
{
    write_shown(out, "\nrow ", row.key.as_slice())?;
    write_shown(out, " ", row.value.as_slice())?;
    write_stamp(out, row)
}

fn write_each_row(out: &mut Vec<u8>, rows: &[KeyValue]) -> Result<(), NoMemory>
    ensures ok { OnOk result (out.new.items ≡ out.old.items ++ flat_map row_text rows.now) }
    ensures err { OnErr result (take (length out.old.items) out.new.items ≡ out.old.items) }
{
    for row in rows {
        write_row(out, row)?;
    }
    Ok(())
}

fn write_rows(out: &mut Vec<u8>, rows: &[KeyValue]) -> Result<(), NoMemory>
    ensures ok { OnOk result (out.new.items ≡ out.old.items ++ rows_text rows.now) }
    ensures err { OnErr result (take (length out.old.items) out.new.items ≡ out.old.items) }
{
    write_labelled(out, "rows ", rows.len() as u64)?;
    write_each_row(out, rows)
}

fn write_written(out: &mut Vec<u8>, write: u64, number: u64) -> Result<(), NoMemory>
    ensures ok { OnOk result (out.new.items ≡ out.old.items ++ reply_words (Reply.Written write number)) }
    ensures err { OnErr result (take (length out.old.items) out.new.items ≡ out.old.items) }
{
    write_labelled(out, "write ", write)?;
    write_labelled(out, " number ", number)
}

fn write_handle(out: &mut Vec<u8>, object: u64) -> Result<(), NoMemory>
    ensures ok { OnOk result (out.new.items ≡ out.old.items ++ reply_words (Reply.Handle object)) }
    ensures err { OnErr result (take (length out.old.items) out.new.items ≡ out.old.items) }
{
    write_labelled(out, "handle ", object)
}

fn write_snapshot(out: &mut Vec<u8>, object: u64, at: u64) -> Result<(), NoMemory>
    ensures ok { OnOk result (out.new.items ≡ out.old.items ++ reply_words (Reply.Snapshot object at)) }
    ensures err { OnErr result (take (length out.old.items) out.new.items ≡ out.old.items) }
{
    write_labelled(out, "snapshot ", object)?;
    write_labelled(out, " at ", at)
}

fn write_checkpointed(out: &mut Vec<u8>, id: u64) -> Result<(), NoMemory>
    ensures ok { OnOk result (out.new.items ≡ out.old.items ++ reply_words (Reply.Checkpointed id)) }
    ensures err { OnErr result (take (length out.old.items) out.new.items ≡ out.old.items) }
{
    write_labelled(out, "checkpoint ", id)
}

fn write_task(out: &mut Vec<u8>, name: TaskName) -> Result<(), NoMemory>
    ensures ok { OnOk result (out.new.items ≡ out.old.items ++ 32 ∷ task_text name) }
    ensures err { OnErr result (take (length out.old.items) out.new.items ≡ out.old.items) }
{
    write_text(out, " ")?;
    write_text(out, name.as_str())
}

fn write_tasks(out: &mut Vec<u8>, names: &[TaskName]) -> Result<(), NoMemory>
    ensures ok { OnOk result (out.new.items ≡ out.old.items ++ tasks_text names.now) }
    ensures err { OnErr result (take (length out.old.items) out.new.items ≡ out.old.items) }
{
    for name in names {
        write_task(out, *name)?;
    }
    Ok(())
}

fn write_refused(out: &mut Vec<u8>, error: &SlateError) -> Result<(), NoMemory>
    ensures ok { OnOk result (out.new.items ≡ out.old.items ++ reply_words (Reply.Refused error.now)) }
    ensures err { OnErr result (take (length out.old.items) out.new.items ≡ out.old.items) }
{
    write_text(out, "error ")?;
    write_error(out, error)
}

fn write_fault(out: &mut Vec<u8>, fault: &Option<SlateError>) -> Result<(), NoMemory>
    ensures ok { OnOk result (out.new.items ≡ out.old.items ++ fault_text fault.now) }
    ensures err { OnErr result (take (length out.old.items) out.new.items ≡ out.old.items) }
{
    if let Some(error) = fault {
        write_refused(out, error)?;
        write_text(out, "; ")?;
    }
    Ok(())
}

fn write_ended(
    out: &mut Vec<u8>,
    fault: &Option<SlateError>,
    tasks: &Ending,
) -> Result<(), NoMemory>
    ensures ok { OnOk result (out.new.items ≡ out.old.items ++ reply_words (Reply.Ended fault.now tasks.now)) }
    ensures err { OnErr result (take (length out.old.items) out.new.items ≡ out.old.items) }
{
    write_fault(out, fault)?;
    write_text(out, "ended")?;
    write_tasks(out, tasks.names())?;
    Ok(())
}

fn write_poll(out: &mut Vec<u8>, whole: bool, at: u64) -> Result<(), NoMemory>
    ensures ok { OnOk result (out.new.items ≡ out.old.items ++ poll_text whole at) }
    ensures err { OnErr result (take (length out.old.items) out.new.items ≡ out.old.items) }
{
    write_labelled(out, if whole { "whole at " } else { "truncated at " }, at)
}

fn write_follower(out: &mut Vec<u8>, object: u64, whole: bool, at: u64) -> Result<(), NoMemory>
    ensures ok { OnOk result (out.new.items ≡ out.old.items ++ reply_words (Reply.Follower object whole at)) }
    ensures err { OnErr result (take (length out.old.items) out.new.items ≡ out.old.items) }
{
    write_labelled(out, "follower ", object)?;
    write_text(out, " ")?;
    write_poll(out, whole, at)
}

fn reason_name(reason: Option<CloseReason>) -> &'static str
    ensures { result.now ≡ reason_text reason }
{
    match reason {
        None => "none",
        Some(CloseReason::Clean) => "clean",
        Some(CloseReason::Fenced) => "fenced",
        Some(CloseReason::Panic) => "panic",
    }
}

fn write_because(out: &mut Vec<u8>, reason: Option<CloseReason>) -> Result<(), NoMemory>
    ensures ok { OnOk result (out.new.items ≡ out.old.items ++ because_text reason) }
    ensures err { OnErr result (take (length out.old.items) out.new.items ≡ out.old.items) }
{
    write_text(out, " reason ")?;
    write_text(out, reason_name(reason))?;
    write_text(out, " segments")
}

fn write_standing(out: &mut Vec<u8>, status: &DbStatus) -> Result<(), NoMemory>
    ensures ok { OnOk result (out.new.items ≡ out.old.items ++ standing_text status.now) }
    ensures err { OnErr result (take (length out.old.items) out.new.items ≡ out.old.items) }
{
    write_labelled(out, "status durable ", status.durable_seq)?;
    write_labelled(out, " manifest ", status.current_manifest.id)?;
    write_because(out, status.close_reason)
}

fn write_segments(out: &mut Vec<u8>, segments: &[SegmentPrefix]) -> Result<(), NoMemory>
    ensures ok { OnOk result (out.new.items ≡ out.old.items ++ prefixes_text (map (λ segment. segment.prefix) segments.now)) }
    ensures err { OnErr result (take (length out.old.items) out.new.items ≡ out.old.items) }
{
    for segment in segments {
        write_shown(out, " ", segment.prefix.as_slice())?;
    }
    Ok(())
}

fn write_status(out: &mut Vec<u8>, status: &DbStatus) -> Result<(), NoMemory>
    ensures ok { OnOk result (out.new.items ≡ out.old.items ++ reply_words (Reply.Status status.now)) }
    ensures err { OnErr result (take (length out.old.items) out.new.items ≡ out.old.items) }
{
    let segments = status.list_segments(*out.allocator())?;
    write_standing(out, status)?;
    write_segments(out, segments.as_slice())
}

fn write_time(out: &mut Vec<u8>, time: Option<i64>) -> Result<(), NoMemory>
    ensures ok { OnOk result (out.new.items ≡ out.old.items ++ time_text time) }
    ensures err { OnErr result (take (length out.old.items) out.new.items ≡ out.old.items) }
{
    match time {
        None => write_text(out, "time none"),
        Some(seconds) => {
            write_text(out, "time ")?;
            write_signed(out, seconds)
        }
    }
}

fn write_found_number(out: &mut Vec<u8>, number: Option<u64>) -> Result<(), NoMemory>
    ensures ok { OnOk result (out.new.items ≡ out.old.items ++ number_text number) }
    ensures err { OnErr result (take (length out.old.items) out.new.items ≡ out.old.items) }
{
    match number {
        None => write_text(out, "number none"),
        Some(number) => write_labelled(out, "number ", number),
    }
}

fn write_backpressure(out: &mut Vec<u8>, unflushed: u64, limit: u64) -> Result<(), NoMemory>
    ensures ok { OnOk result (out.new.items ≡ out.old.items ++ reply_words (Reply.Backpressure unflushed limit)) }
    ensures err { OnErr result (take (length out.old.items) out.new.items ≡ out.old.items) }
{
    write_labelled(out, "error backpressure ", unflushed)?;
    write_labelled(out, " of ", limit)?;
    Ok(())
}

/// Writes the text of a reply at the end, without its newline. Where memory runs out, a part of it may be written.
pub fn write_reply_words(out: &mut Vec<u8>, reply: &Reply) -> Result<(), NoMemory>
    ensures ok { OnOk result (out.new.items ≡ out.old.items ++ reply_words reply.now) }
    ensures err { OnErr result (take (length out.old.items) out.new.items ≡ out.old.items) }
{
    match reply {
        Reply::Handle { object } => write_handle(out, *object),
        Reply::Snapshot { object, at } => write_snapshot(out, *object, *at),
        Reply::Written { write, number } => write_written(out, *write, *number),
        Reply::Found(row) => write_found(out, row),
        Reply::Absent => write_text(out, "none"),
        Reply::Rows(rows) => write_rows(out, rows.as_slice()),
        Reply::Flushed => write_text(out, "flushed"),
        Reply::Refreshed => write_text(out, "refreshed"),
        Reply::Compacted => write_text(out, "compacted"),
        Reply::Checkpointed { id } => write_checkpointed(out, *id),
        Reply::Swept => write_text(out, "swept"),
        Reply::Follower { object, whole, at } => write_follower(out, *object, *whole, *at),
        Reply::Durable => write_text(out, "durable"),
        Reply::Pending => write_text(out, "pending"),
        Reply::Polled { whole, at } => write_poll(out, *whole, *at),
        Reply::Begun => write_text(out, "begun"),
        Reply::Stepped => write_text(out, "stepped"),
        Reply::Ended { fault, tasks } => write_ended(out, fault, tasks),
        Reply::Status(status) => write_status(out, status.as_ref()),
        Reply::Time(time) => write_time(out, *time),
        Reply::Number(number) => write_found_number(out, *number),
        Reply::Backpressure { unflushed, limit } => write_backpressure(out, *unflushed, *limit),
        Reply::Refused(error) => write_refused(out, error),
        Reply::Unknown => write_text(out, "error unknown object"),
        Reply::NoMemory => write_text(out, "error no memory"),
    }
}

fn write_reply(out: &mut Vec<u8>, reply: &Reply) -> Result<(), NoMemory>
    ensures ok { OnOk result (out.new.items ≡ out.old.items ++ reply_text reply.now) }
    ensures err { OnErr result (take (length out.old.items) out.new.items ≡ out.old.items) }
{
    write_reply_words(out, reply)?;
    write_text(out, "\n")?;
    Ok(())
}

fn write_replies(out: &mut Vec<u8>, replies: &[Reply]) -> Result<(), NoMemory>
    ensures ok { OnOk result (out.new.items ≡ out.old.items ++ replies_text replies.now) }
    ensures err { OnErr result (take (length out.old.items) out.new.items ≡ out.old.items) }
{
    for reply in replies {
        write_reply(out, reply)?;
    }
    Ok(())
}

/// Writes the text of replies at the end, in order, each with its newline. Where memory runs out, nothing was written.
/// It takes time in proportion to the text, and that of `list_segments` for each status.
pub fn print_replies(out: &mut Vec<u8>, replies: &[Reply]) -> Result<(), NoMemory>
    ensures ok { OnOk result (out.new.items ≡ out.old.items ++ replies_text replies.now) }
    ensures err { OnErr result (out.new.items ≡ out.old.items) }
{
    let length = out.len();
    let written = write_replies(out, replies);
    cut_back(out, length, written)
}
