// Reading a script by its lines, each of which spells a command.
ghost use Rattle.std.specs.Prelude.{◌≡◌, ℕ, List, Option, IfOk};
ghost use Rattle.slate_script.specs.Lines.{ReadsCommands, line_by, script_by};

use crate::fields::{cut_fields, take_line};
use crate::{LineAnswer, ScriptFault};
use bytes::Bytes;
use slate_types::NoMemory;
use std::alloc::Global;

/// The most bytes that a script of a session may have.
pub const MAX_SCRIPT: usize = 67_108_864;

/// A command of a script, as the fields of a line spell it.
pub trait FromFields: Drop {
    /// The command that fields spell, where they spell one.
    ghost spelled: { List (List ℕ) → Option Self };

    /// Reads the command that the fields of a line spell, where they spell one.
    fn from_fields(alloc: Global, fields: &[Bytes]) -> Result<Option<Self>, NoMemory>
        ensures { IfOk result (λ command. command ≡ spelled fields.now) };
}

/// What a line is. The fields of a command share the line's storage.
pub(crate) fn read_line_of<C: FromFields>(
    alloc: Global,
    line: Bytes,
) -> Result<LineAnswer<C>, NoMemory>
    ensures line { IfOk result (λ answer. answer ≡ line_by C.spelled line) }
{
    match line.as_slice() {
        [] | [b'#', ..] => return Ok(LineAnswer::Blank),
        _ => {}
    }
    let fields = cut_fields(alloc, line)?;
    match C::from_fields(alloc, fields.as_slice())? {
        Some(command) => Ok(LineAnswer::Command(command)),
        None => Ok(LineAnswer::Refused),
    }
}

/// The commands of a script whose lines spell commands of a type, in order, or the number, from 1, of the first line that
/// spells none. Lines without bytes and those that begin with `#` hold no command. It copies the script once, and takes
/// time in proportion to it and to what `from_fields` takes of each line.
pub fn read_lines<C: FromFields>(alloc: Global, bytes: &[u8]) -> Result<Vec<C>, ScriptFault>
    ensures reads { ReadsCommands result (script_by C.spelled bytes.now) }
{
    let mut rest = Bytes::copy_from_slice(alloc, bytes)?;
    let mut commands = Vec::new(alloc);
    let mut number: u64 = 0;
    while !rest.is_empty() {
        let line = take_line(&mut rest)?;
        number += 1;
        match read_line_of(alloc, line)? {
            LineAnswer::Blank => {}
            LineAnswer::Command(command) => commands.push(command)?,
            LineAnswer::Refused => return Err(ScriptFault::Line(number)),
        }
    }
    Ok(commands)
}
