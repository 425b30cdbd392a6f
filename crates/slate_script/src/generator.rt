// The commands that the generator makes, and the summary of the replies to them.
ghost use Rattle.std.specs.Prelude.{◌≡◌, ◌++◌, ◌∷◌, [], ◌<◌, ◌≤◌, ◌^◌, count_by, length, decimal, reverse, IfOk, OnOk, None, Some};
ghost use Rattle.slate_script.specs.Generator.{timed, generated_key, generated_value, each, log_flush, table_flush, compaction, turn, turns, openings, ending, generated};
ghost use Rattle.slate_script.specs.Generator.{is_error, polled_at, row_count, end_of, summary_text};
ghost use Rattle.slate_script.specs.declared.commands.Action.TheVariants as actions;

use crate::printing::write_labelled;
use crate::{Action, Boxed, Command, Reply};
use bytes::Bytes;
use slate_store::DbReaderMode;
use slate_text::write_text;
use slate_types::{ByteRange, FlushType, IterationOrder, NoMemory};
use std::alloc::Global;

/// The most puts that the generator makes.
pub const MAX_GENERATED: u16 = 20_000;

/// The commands of the generator with a seed and so many puts: a handle and a reader of the latest
/// state are opened; then come the puts, under 101 keys in turn, each at the moment of its number, with a flush to the log
/// after each 16, a flush to a table and a poll after each 64, and a compaction and a sweep after each 256; at the end a flush
/// to the log, a poll and a scan of all keys. It takes linear time and memory.
pub fn generate(alloc: Global, seed: u64, count: u16) -> Result<Vec<Command>, NoMemory>
    ensures { IfOk result (λ commands. commands.items ≡ generated seed count) }
{
    let mut commands = Vec::new(alloc);
    add_openings(&mut commands)?;
    for number in 0..count {
        add_turn(alloc, &mut commands, seed, u64::from(number) + 1)?;
    }
    add_ending(alloc, &mut commands, u64::from(count))?;
    Ok(commands)
}

/// A command at a moment.
fn timed(moment: u64, action: Action) -> Command
    requires { moment < 2 ^ 63 }
    ensures { result ≡ timed moment action }
{
    Command {
        moment: moment as i64,
        second: None,
        action,
    }
}

fn add_openings(commands: &mut Vec<Command>) -> Result<(), NoMemory>
    ensures { OnOk result (commands.new.items ≡ commands.old.items ++ openings) }
{
    commands.reserve(2)?;
    commands.push_reserved(timed(0, Action::Open { wal: true }));
    commands.push_reserved(timed(
        0,
        Action::Follow {
            mode: DbReaderMode::FollowLatest,
            managed: None,
            skip: false,
            lag: None,
        },
    ));
    Ok(())
}

/// Adds the put of this number, and what follows it.
fn add_turn(
    alloc: Global,
    commands: &mut Vec<Command>,
    seed: u64,
    number: u64,
) -> Result<(), NoMemory>
    requires { number < 2 ^ 32 }
    ensures { OnOk result (commands.new.items ≡ commands.old.items ++ turn seed number) }
{
    add_put(alloc, commands, seed, number)?;
    add_log_flush(commands, number)?;
    add_table_flush(commands, number)?;
    add_compaction(commands, number)
}

fn add_put(
    alloc: Global,
    commands: &mut Vec<Command>,
    seed: u64,
    number: u64,
) -> Result<(), NoMemory>
    requires { number < 2 ^ 32 }
    ensures { OnOk result (commands.new.items ≡ commands.old.items ++ timed number (actions.Put 0 (generated_key seed number) (generated_value number) None) ∷ []) }
{
    commands.reserve(1)?;
    let key = generated_key(alloc, seed, number)?;
    let value = generated_value(alloc, number)?;
    commands.push_reserved(timed(
        number,
        Action::Put {
            handle: 0,
            key,
            value,
            expire: None,
        },
    ));
    Ok(())
}

fn generated_key(alloc: Global, seed: u64, number: u64) -> Result<Bytes, NoMemory>
    requires { number < 2 ^ 32 }
    ensures { IfOk result (λ key. key ≡ generated_key seed number) }
{
    numbered(alloc, "k", (seed % 101 + 37 * number) % 101)
}

fn generated_value(alloc: Global, number: u64) -> Result<Bytes, NoMemory>
    ensures { IfOk result (λ value. value ≡ generated_value number) }
{
    numbered(alloc, "v", number)
}

/// A number behind a letter, as bytes.
fn numbered(alloc: Global, letter: &str, number: u64) -> Result<Bytes, NoMemory>
    ensures { IfOk result (λ bytes. bytes ≡ letter.now ++ decimal number) }
{
    let mut text = Vec::new(alloc);
    write_labelled(&mut text, letter, number)?;
    Ok(Bytes::from_vec(text)?)
}

fn add_log_flush(commands: &mut Vec<Command>, number: u64) -> Result<(), NoMemory>
    requires { number < 2 ^ 32 }
    ensures { OnOk result (commands.new.items ≡ commands.old.items ++ each 16 number (log_flush number)) }
{
    if number % 16 != 0 {
        return Ok(());
    }
    commands.reserve(1)?;
    commands.push_reserved(timed(number, flush(FlushType::Wal)));
    Ok(())
}

fn add_table_flush(commands: &mut Vec<Command>, number: u64) -> Result<(), NoMemory>
    requires { number < 2 ^ 32 }
    ensures { OnOk result (commands.new.items ≡ commands.old.items ++ each 64 number (table_flush number)) }
{
    if number % 64 != 0 {
        return Ok(());
    }
    commands.reserve(2)?;
    commands.push_reserved(timed(number, flush(FlushType::MemTable)));
    commands.push_reserved(timed(number, Action::Poll { follower: 1 }));
    Ok(())
}

fn add_compaction(commands: &mut Vec<Command>, number: u64) -> Result<(), NoMemory>
    requires { number < 2 ^ 32 }
    ensures { OnOk result (commands.new.items ≡ commands.old.items ++ each 256 number (compaction number)) }
{
    if number % 256 != 0 {
        return Ok(());
    }
    commands.reserve(2)?;
    commands.push_reserved(timed(number, Action::Compact { handle: 0 }));
    commands.push_reserved(timed(number, Action::Sweep));
    Ok(())
}

fn flush(flush_type: FlushType) -> Action
    ensures { result ≡ actions.Flush 0 (Some flush_type) }
{
    Action::Flush {
        handle: 0,
        flush_type: Some(flush_type),
    }
}

fn add_ending(alloc: Global, commands: &mut Vec<Command>, count: u64) -> Result<(), NoMemory>
    requires { count < 2 ^ 32 }
    ensures { OnOk result (commands.new.items ≡ commands.old.items ++ ending count) }
{
    let range = Boxed::new(alloc, ByteRange::full())?;
    commands.reserve(3)?;
    commands.push_reserved(timed(count, flush(FlushType::Wal)));
    commands.push_reserved(timed(count, Action::Poll { follower: 1 }));
    commands.push_reserved(timed(
        count,
        Action::Scan {
            object: 0,
            range,
            order: IterationOrder::Ascending,
            remote: false,
        },
    ));
    Ok(())
}

/// Prints the summary of the replies to so many commands of the generator at the end of a text, in four lines: how many
/// commands there were, how many replies are errors, the number of the last poll and the count of rows of the scan, each 0
/// where it was refused. Where memory runs out a part may be written. It takes linear time.
pub fn print_summary(out: &mut Vec<u8>, commands: u64, replies: &[Reply]) -> Result<(), NoMemory>
    ensures { OnOk result (out.new.items ≡ out.old.items ++ summary_text commands replies.now) }
{
    let errors = replies.iter().filter(|reply| is_error(reply)).count();
    let (at, rows) = end_of(replies);
    write_labelled(out, "commands ", commands)?;
    write_labelled(out, "\nerrors ", errors as u64)?;
    write_labelled(out, "\nend ", at)?;
    write_labelled(out, "\nrows ", rows)?;
    write_text(out, "\n")
}

/// Whether the text of a reply begins with `error`.
fn is_error(reply: &Reply) -> bool
    ensures { result ≡ is_error reply.now }
{
    matches!(
        reply,
        Reply::Ended { fault: Some(_), .. }
            | Reply::Backpressure { .. }
            | Reply::Refused(_)
            | Reply::Unknown
            | Reply::NoMemory
    )
}

/// The number of the last poll, and the count of rows of the scan behind it.
fn end_of(replies: &[Reply]) -> (u64, u64)
    ensures { result ≡ end_of (reverse replies.now) }
{
    let Some((scan, earlier)) = replies.split_last() else {
        return (0, 0);
    };
    let Some((poll, _)) = earlier.split_last() else {
        return (0, 0);
    };
    (polled_at(poll), row_count(scan))
}

fn polled_at(reply: &Reply) -> u64
    ensures { result ≡ polled_at reply.now }
{
    match reply {
        Reply::Polled { at, .. } => *at,
        _ => 0,
    }
}

fn row_count(reply: &Reply) -> u64
    ensures { result ≡ row_count reply.now }
{
    match reply {
        Reply::Rows(rows) => rows.as_slice().len() as u64,
        _ => 0,
    }
}
