// Reading the lines of commands that ask when a batch was written, and which one was written at a time.
ghost use Rattle.std.specs.Prelude.{◌≡◌, IfSome};
ghost use Rattle.slate_script.specs.Lookups.{find_of, ts_form, seq_form, lookup_of};

use crate::Action;
use bytes::Bytes;
use slate_seqtrack::FindOption;
use slate_text::{read_number, read_time};

/// Which entry answers where none is equal to what is sought.
fn read_find(word: &[u8]) -> Option<FindOption>
    ensures { result ≡ find_of word.now }
{
    if word == b"up".as_slice() {
        Some(FindOption::RoundUp)
    } else if word == b"down".as_slice() {
        Some(FindOption::RoundDown)
    } else {
        None
    }
}

fn read_ts(fields: &[Bytes]) -> Option<Action>
    ensures form { result ≡ ts_form fields.now }
{
    let [handle, number, find] = fields else {
        return None;
    };
    let handle = read_number(handle.as_slice())?;
    let number = read_number(number.as_slice())?;
    let find = read_find(find.as_slice())?;
    Some(Action::Ts {
        handle,
        number,
        find,
    })
}

fn read_seq(fields: &[Bytes]) -> Option<Action>
    ensures form { result ≡ seq_form fields.now }
{
    let [handle, seconds, find] = fields else {
        return None;
    };
    let handle = read_number(handle.as_slice())?;
    let seconds = read_time(seconds.as_slice())?;
    let find = read_find(find.as_slice())?;
    Some(Action::Seq {
        handle,
        seconds,
        find,
    })
}

/// The command of a name and the fields behind it, where that asks for the time of a number or the number at a time.
pub(crate) fn read_lookup(name: &[u8], fields: &[Bytes]) -> Option<Action>
    ensures form { result ≡ lookup_of name.now fields.now }
{
    if name == b"ts".as_slice() {
        read_ts(fields)
    } else if name == b"seq".as_slice() {
        read_seq(fields)
    } else {
        None
    }
}
