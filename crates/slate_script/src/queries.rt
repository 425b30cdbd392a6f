// Reading the lines of commands that read rows.
ghost use Rattle.std.specs.Prelude.{◌≡◌, IfOk, IfSome};
ghost use Rattle.slate_script.specs.Queries.{get_form, scan_form, seek_form, query_of};

use crate::values::{read_order, read_range, read_remote, read_word};
use crate::{Action, Boxed};
use bytes::Bytes;
use slate_text::read_number;
use slate_types::NoMemory;
use std::alloc::Global;

fn read_get(alloc: Global, fields: &[Bytes]) -> Result<Option<Action>, NoMemory>
    ensures form { IfOk result (λ action. action ≡ get_form fields.now) }
{
    let [object, key, behind @ ..] = fields else {
        return Ok(None);
    };
    let Some(object) = read_number(object.as_slice()) else {
        return Ok(None);
    };
    let Some(remote) = read_remote(behind) else {
        return Ok(None);
    };
    let Some(key) = read_word(alloc, key)? else {
        return Ok(None);
    };
    Ok(Some(Action::Get {
        object,
        key,
        remote,
    }))
}

fn read_scan(alloc: Global, fields: &[Bytes]) -> Result<Option<Action>, NoMemory>
    ensures form { IfOk result (λ action. action ≡ scan_form fields.now) }
{
    let [object, low, high, behind @ ..] = fields else {
        return Ok(None);
    };
    let Some(object) = read_number(object.as_slice()) else {
        return Ok(None);
    };
    let (order, behind) = read_order(behind);
    let Some(remote) = read_remote(behind) else {
        return Ok(None);
    };
    let Some(range) = read_range(alloc, low, high)? else {
        return Ok(None);
    };
    Ok(Some(Action::Scan {
        object,
        range: Boxed::new(alloc, range)?,
        order,
        remote,
    }))
}

fn read_seek(alloc: Global, fields: &[Bytes]) -> Result<Option<Action>, NoMemory>
    ensures form { IfOk result (λ action. action ≡ seek_form fields.now) }
{
    let [object, low, high, take, key, behind @ ..] = fields else {
        return Ok(None);
    };
    let Some(object) = read_number(object.as_slice()) else {
        return Ok(None);
    };
    let Some(take) = read_number(take.as_slice()) else {
        return Ok(None);
    };
    let (order, behind) = read_order(behind);
    let Some(remote) = read_remote(behind) else {
        return Ok(None);
    };
    let Some(key) = read_word(alloc, key)? else {
        return Ok(None);
    };
    let Some(range) = read_range(alloc, low, high)? else {
        return Ok(None);
    };
    Ok(Some(Action::Seek {
        object,
        range: Boxed::new(alloc, range)?,
        take,
        key,
        order,
        remote,
    }))
}

/// The command of a name and the fields behind it, where that reads rows.
pub(crate) fn read_query(
    alloc: Global,
    name: &[u8],
    fields: &[Bytes],
) -> Result<Option<Action>, NoMemory>
    ensures form { IfOk result (λ action. action ≡ query_of name.now fields.now) }
{
    if name == b"get".as_slice() {
        read_get(alloc, fields)
    } else if name == b"scan".as_slice() {
        read_scan(alloc, fields)
    } else if name == b"seek".as_slice() {
        read_seek(alloc, fields)
    } else {
        Ok(None)
    }
}
