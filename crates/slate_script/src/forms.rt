// Reading a script line as the command that its fields spell.
ghost use Rattle.std.specs.Prelude.{◌≡◌, IfOk, IfSome};
ghost use Rattle.slate_script.specs.declared.commands.Command.{Command};
ghost use Rattle.slate_script.specs.Forms.{wal_of, open_form, flush_type_of, flush_form, one_number, checkpoint_form, sweep_form, close_options_of, close_form};
ghost use Rattle.slate_script.specs.Forms.{lag_of, reading_of, pinned_form, managed_form, follow_form, reader_of, other_of, action_of, command_of, line_of};

use crate::lines::read_line_of;
use crate::lookups::read_lookup;
use crate::queries::read_query;
use crate::writes::read_write;
use crate::{Action, Command, FromFields, LineAnswer};
use bytes::Bytes;
use slate_store::DbReaderMode;
use slate_text::{read_moment, read_number};
use slate_types::{CloseOptions, FlushType, NoMemory};
use std::alloc::Global;
use uuid::Uuid;

/// Whether a handle keeps a log.
fn read_wal(word: &[u8]) -> Option<bool>
    ensures { result ≡ wal_of word.now }
{
    if word == b"log".as_slice() {
        Some(true)
    } else if word == b"nolog".as_slice() {
        Some(false)
    } else {
        None
    }
}

fn read_open(fields: &[Bytes]) -> Option<Action>
    ensures form { result ≡ open_form fields.now }
{
    match fields {
        [] => Some(Action::Open { wal: true }),
        [wal] => {
            let wal = read_wal(wal.as_slice())?;
            Some(Action::Open { wal })
        }
        _ => None,
    }
}

/// The type of a flush.
fn read_flush_type(word: &[u8]) -> Option<FlushType>
    ensures { result ≡ flush_type_of word.now }
{
    if word == b"wal".as_slice() {
        Some(FlushType::Wal)
    } else if word == b"memtable".as_slice() {
        Some(FlushType::MemTable)
    } else {
        None
    }
}

fn read_flush(fields: &[Bytes]) -> Option<Action>
    ensures form { result ≡ flush_form fields.now }
{
    match fields {
        [handle] => {
            let handle = read_number(handle.as_slice())?;
            Some(Action::Flush {
                handle,
                flush_type: None,
            })
        }
        [handle, flush_type] => {
            let handle = read_number(handle.as_slice())?;
            let flush_type = read_flush_type(flush_type.as_slice())?;
            Some(Action::Flush {
                handle,
                flush_type: Some(flush_type),
            })
        }
        _ => None,
    }
}

/// One number and no other field.
fn read_one_number(fields: &[Bytes]) -> Option<u64>
    ensures { result ≡ one_number fields.now }
{
    let [number] = fields else {
        return None;
    };
    read_number(number.as_slice())
}

fn read_checkpoint(fields: &[Bytes]) -> Option<Action>
    ensures form { result ≡ checkpoint_form fields.now }
{
    match fields {
        [] => Some(Action::Checkpoint { lifetime: None }),
        [lifetime] => {
            let lifetime = read_number(lifetime.as_slice())?;
            Some(Action::Checkpoint {
                lifetime: Some(lifetime),
            })
        }
        _ => None,
    }
}

fn read_sweep(fields: &[Bytes]) -> Option<Action>
    ensures form { result ≡ sweep_form fields.now }
{
    if fields.is_empty() {
        Some(Action::Sweep)
    } else {
        None
    }
}

/// What a close flushes.
fn read_close_options(word: &[u8]) -> Option<CloseOptions>
    ensures { result ≡ close_options_of word.now }
{
    if word == b"none".as_slice() {
        return Some(CloseOptions { flush_type: None });
    }
    let flush_type = read_flush_type(word)?;
    Some(CloseOptions {
        flush_type: Some(flush_type),
    })
}

fn read_close(fields: &[Bytes]) -> Option<Action>
    ensures form { result ≡ close_form fields.now }
{
    match fields {
        [object] => {
            let object = read_number(object.as_slice())?;
            Some(Action::Close {
                object,
                options: None,
            })
        }
        [object, options] => {
            let object = read_number(object.as_slice())?;
            let options = read_close_options(options.as_slice())?;
            Some(Action::Close {
                object,
                options: Some(options),
            })
        }
        _ => None,
    }
}

/// By how many numbers a reader may lag: `lag N` as the last fields, or nothing.
fn read_lag(fields: &[Bytes]) -> Option<Option<u64>>
    ensures { result ≡ lag_of fields.now }
{
    match fields {
        [] => Some(None),
        [word, number] if word.as_slice() == b"lag".as_slice() => {
            let number = read_number(number.as_slice())?;
            Some(Some(number))
        }
        _ => None,
    }
}

/// Whether a reader skips log files, and by how many numbers it may lag: `skip` and then `lag N`, either or neither.
fn read_reading(fields: &[Bytes]) -> Option<(bool, Option<u64>)>
    ensures { result ≡ reading_of fields.now }
{
    match fields {
        [word, behind @ ..] if word.as_slice() == b"skip".as_slice() => {
            let lag = read_lag(behind)?;
            Some((true, lag))
        }
        _ => {
            let lag = read_lag(fields)?;
            Some((false, lag))
        }
    }
}

/// A reader of the checkpoint that the manifest with this id committed: the checkpoint's id is, as a number, the
/// manifest's.
fn read_pinned(fields: &[Bytes]) -> Option<Action>
    ensures form { result ≡ pinned_form fields.now }
{
    let [id, behind @ ..] = fields else {
        return None;
    };
    let id = read_number(id.as_slice())?;
    let (skip, lag) = read_reading(behind)?;
    Some(Action::Follow {
        mode: DbReaderMode::Checkpoint(Uuid::from_u128(u128::from(id))),
        managed: None,
        skip,
        lag,
    })
}

/// A reader that keeps a checkpoint of its own: its lifetime and the interval of its polls, in milliseconds.
fn read_managed(fields: &[Bytes]) -> Option<Action>
    ensures { result ≡ managed_form fields.now }
{
    let [lifetime, interval, behind @ ..] = fields else {
        return None;
    };
    let lifetime = read_number(lifetime.as_slice())?;
    let interval = read_number(interval.as_slice())?;
    let (skip, lag) = read_reading(behind)?;
    Some(Action::Follow {
        mode: DbReaderMode::ManagedCheckpoint,
        managed: Some((lifetime, interval)),
        skip,
        lag,
    })
}

fn read_follow(fields: &[Bytes]) -> Option<Action>
    ensures form { result ≡ follow_form fields.now }
{
    let [mode, behind @ ..] = fields else {
        return None;
    };
    if mode.as_slice() == b"latest".as_slice() {
        let (skip, lag) = read_reading(behind)?;
        Some(Action::Follow {
            mode: DbReaderMode::FollowLatest,
            managed: None,
            skip,
            lag,
        })
    } else if mode.as_slice() == b"pinned".as_slice() {
        read_pinned(behind)
    } else if mode.as_slice() == b"managed".as_slice() {
        read_managed(behind)
    } else {
        None
    }
}

// The command of a name and the fields behind it, where that follows, polls, or asks for a write, a status, a time or a
// number.
fn read_reader(name: &[u8], fields: &[Bytes]) -> Option<Action>
    ensures form { result ≡ reader_of name.now fields.now }
{
    if name == b"follow".as_slice() {
        read_follow(fields)
    } else if name == b"poll".as_slice() {
        let follower = read_one_number(fields)?;
        Some(Action::Poll { follower })
    } else if name == b"begin".as_slice() {
        let follower = read_one_number(fields)?;
        Some(Action::Begin { follower })
    } else if name == b"step".as_slice() {
        let follower = read_one_number(fields)?;
        Some(Action::Step { follower })
    } else if name == b"await".as_slice() {
        let write = read_one_number(fields)?;
        Some(Action::Await { write })
    } else if name == b"status".as_slice() {
        let object = read_one_number(fields)?;
        Some(Action::Status { object })
    } else {
        read_lookup(name, fields)
    }
}

// The command of a name and the fields behind it, where that neither writes nor reads keys.
fn read_other(name: &[u8], fields: &[Bytes]) -> Option<Action>
    ensures form { result ≡ other_of name.now fields.now }
{
    if name == b"open".as_slice() {
        read_open(fields)
    } else if name == b"flush".as_slice() {
        read_flush(fields)
    } else if name == b"refresh".as_slice() {
        let handle = read_one_number(fields)?;
        Some(Action::Refresh { handle })
    } else if name == b"compact".as_slice() {
        let handle = read_one_number(fields)?;
        Some(Action::Compact { handle })
    } else if name == b"snapshot".as_slice() {
        let handle = read_one_number(fields)?;
        Some(Action::Snapshot { handle })
    } else if name == b"checkpoint".as_slice() {
        read_checkpoint(fields)
    } else if name == b"sweep".as_slice() {
        read_sweep(fields)
    } else if name == b"close".as_slice() {
        read_close(fields)
    } else {
        read_reader(name, fields)
    }
}

// The action that a name and the fields after it spell.
fn read_action(alloc: Global, name: &[u8], fields: &[Bytes]) -> Result<Option<Action>, NoMemory>
    ensures form { IfOk result (λ action. action ≡ action_of name.now fields.now) }
{
    if let Some(write) = read_write(alloc, name, fields)? {
        return Ok(Some(write));
    }
    if let Some(query) = read_query(alloc, name, fields)? {
        return Ok(Some(query));
    }
    Ok(read_other(name, fields))
}

fn read_command(alloc: Global, fields: &[Bytes]) -> Result<Option<Command>, NoMemory>
    ensures form { IfOk result (λ command. command ≡ command_of fields.now) }
{
    let [moment, name, fields @ ..] = fields else {
        return Ok(None);
    };
    let Some((moment, second)) = read_moment(moment.as_slice()) else {
        return Ok(None);
    };
    let Some(action) = read_action(alloc, name.as_slice(), fields)? else {
        return Ok(None);
    };
    Ok(Some(Command {
        moment,
        second,
        action,
    }))
}

impl FromFields for Command {
    ghost use Rattle.slate_script.specs.Forms.{command_of as spelled_command};

    ghost spelled = { spelled_command };

    fn from_fields(alloc: Global, fields: &[Bytes]) -> Result<Option<Command>, NoMemory> {
        read_command(alloc, fields)
    }
}

/// What a line of a script is, given without the newline at its end and without a carriage return before that: blank
/// where it has no bytes or begins with `#`, the command that its fields spell, or refused exactly where they spell
/// none. It copies the line once, and takes time in proportion to it: a batch, too, takes one pass over its operations,
/// and a look-up by hash for each.
pub fn read_line(alloc: Global, line: &[u8]) -> Result<LineAnswer, NoMemory>
    ensures { IfOk result (λ answer. answer ≡ line_of line.now) }
{
    read_line_of(alloc, Bytes::copy_from_slice(alloc, line)?)
}
