// Reading the commands of a whole script.
ghost use Rattle.std.specs.Prelude.{◌≡◌};
ghost use Rattle.slate_script.specs.Lines.{ReadsCommands};
ghost use Rattle.slate_script.specs.Scripts.{script_of};

use crate::lines::read_lines;
use crate::{Command, ScriptFault};
use std::alloc::Global;

/// The commands of a script, in order, or the number of the first line that isn't a script line. It copies the script
/// once; keys and values share that copy, except those that are spelled with `%`. It takes time in proportion to the
/// script.
pub fn read_script(alloc: Global, bytes: &[u8]) -> Result<Vec<Command>, ScriptFault>
    ensures reads { ReadsCommands result (script_of bytes.now) }
{
    read_lines(alloc, bytes)
}
