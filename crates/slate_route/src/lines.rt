// Reading a line of a router's script as the command that its fields spell.
ghost use Rattle.std.specs.Prelude.{◌≡◌, IfOk};
ghost use Rattle.slate_route.specs.Lines.{action_of, add_form, flush_form, put_form, read_form, route_command_of};

use crate::commands::{RouteAction, RouteCommand};
use bytes::Bytes;
use slate_script::{FromFields, read_word};
use slate_text::{read_moment, read_number};
use slate_types::NoMemory;
use std::alloc::Global;

fn read_put(alloc: Global, fields: &[Bytes]) -> Result<Option<RouteAction>, NoMemory>
    ensures form { IfOk result (λ action. action ≡ put_form fields.now) }
{
    let [key, value] = fields else {
        return Ok(None);
    };
    let Some(key) = read_word(alloc, key)? else {
        return Ok(None);
    };
    let Some(value) = read_word(alloc, value)? else {
        return Ok(None);
    };
    Ok(Some(RouteAction::Put { key, value }))
}

fn read_flush(fields: &[Bytes]) -> Option<RouteAction>
    ensures form { result ≡ flush_form fields.now }
{
    if fields.is_empty() {
        Some(RouteAction::Flush)
    } else {
        None
    }
}

fn read_add(fields: &[Bytes]) -> Option<RouteAction>
    ensures form { result ≡ add_form fields.now }
{
    let [lifetime, interval] = fields else {
        return None;
    };
    let lifetime_ms = read_number(lifetime.as_slice())?;
    let interval_ms = read_number(interval.as_slice())?;
    Some(RouteAction::Add {
        lifetime_ms,
        interval_ms,
    })
}

fn read_read(alloc: Global, fields: &[Bytes]) -> Result<Option<RouteAction>, NoMemory>
    ensures form { IfOk result (λ action. action ≡ read_form fields.now) }
{
    let [number, key] = fields else {
        return Ok(None);
    };
    let Some(at_least) = read_number(number.as_slice()) else {
        return Ok(None);
    };
    let Some(key) = read_word(alloc, key)? else {
        return Ok(None);
    };
    Ok(Some(RouteAction::Read { at_least, key }))
}

fn read_action(
    alloc: Global,
    name: &[u8],
    fields: &[Bytes],
) -> Result<Option<RouteAction>, NoMemory>
    ensures form { IfOk result (λ action. action ≡ action_of name.now fields.now) }
{
    if name == b"put".as_slice() {
        read_put(alloc, fields)
    } else if name == b"flush".as_slice() {
        Ok(read_flush(fields))
    } else if name == b"add".as_slice() {
        Ok(read_add(fields))
    } else if name == b"read".as_slice() {
        read_read(alloc, fields)
    } else {
        Ok(None)
    }
}

fn read_command(alloc: Global, fields: &[Bytes]) -> Result<Option<RouteCommand>, NoMemory>
    ensures form { IfOk result (λ command. command ≡ route_command_of fields.now) }
{
    let [moment, name, fields @ ..] = fields else {
        return Ok(None);
    };
    let Some((moment, second)) = read_moment(moment.as_slice()) else {
        return Ok(None);
    };
    let Some(action) = read_action(alloc, name.as_slice(), fields)? else {
        return Ok(None);
    };
    Ok(Some(RouteCommand {
        moment,
        second,
        action,
    }))
}

impl FromFields for RouteCommand {
    ghost use Rattle.slate_route.specs.Lines.{route_command_of as spelled_command};

    ghost spelled = { spelled_command };

    fn from_fields(alloc: Global, fields: &[Bytes]) -> Result<Option<RouteCommand>, NoMemory> {
        read_command(alloc, fields)
    }
}
