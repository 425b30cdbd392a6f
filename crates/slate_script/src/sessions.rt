// What sessions share: a script is read from a source, and the text that its run comes to is written to a sink.
ghost use Rattle.std.specs.Prelude.{◌≡◌, ◌≤◌};
ghost use Rattle.slate_script.specs.Lines.{script_by};
ghost use Rattle.slate_script.specs.Sessions.{EndsWriting, ReadsScript, input_ending, refused_line, script_ending, status_of};

use crate::lines::{FromFields, MAX_SCRIPT, read_lines};
use crate::{Reply, ScriptFault};
use slate_streams::{InputFault, Sink, Source, read_whole, write_whole};
use slate_types::Seq;
use std::alloc::Global;
use thiserror::Error;

/// How a session ended. Its text says so in a few words.
#[derive(Clone, Copy, Debug, PartialEq, Eq, Error)]
pub enum Outcome {
    /// The text of all replies was written.
    #[error("done")]
    Done,
    /// The line with this number is the first that isn't a script line.
    #[error("line {0} refused")]
    LineRefused(u64),
    /// The source failed.
    #[error("read fault")]
    ReadFault,
    /// The sink failed.
    #[error("write fault")]
    WriteFault,
    /// Memory ran out.
    #[error("no memory")]
    NoMemory,
    /// The script is longer than the limit.
    #[error("script too long")]
    TooLong,
    /// The words spell no options.
    #[error("words refused")]
    WordsRefused,
}

/// What a session did.
#[derive(Debug, Drop)]
pub struct Finished {
    /// The exit status of the program.
    pub status: u8,
    /// With status 2 the number, from 1, of the first line that isn't a script line; else 0.
    pub line: u64,
    /// The replies of the run; none where nothing was run.
    pub replies: Seq<Reply>,
}

impl From<InputFault> for Outcome {
    ghost from_gives = { λ fault ending. ending ≡ input_ending fault };

    fn from(fault: InputFault) -> Outcome {
        match fault {
            InputFault::Failed => Outcome::ReadFault,
            InputFault::TooLong => Outcome::TooLong,
            InputFault::NoMemory => Outcome::NoMemory,
        }
    }
}

impl From<ScriptFault> for Outcome {
    ghost from_gives = { λ fault ending. ending ≡ script_ending fault };

    fn from(fault: ScriptFault) -> Outcome {
        match fault {
            ScriptFault::Line(number) => Outcome::LineRefused(number),
            ScriptFault::NoMemory => Outcome::NoMemory,
        }
    }
}

impl Outcome {
    /// The exit status of a program whose session ended so.
    pub fn status(self) -> u8
        ensures { result ≡ status_of self }
    {
        match self {
            Outcome::Done => 0,
            Outcome::LineRefused(_) => 2,
            Outcome::ReadFault => 3,
            Outcome::WriteFault => 4,
            Outcome::NoMemory => 5,
            Outcome::TooLong => 6,
            Outcome::WordsRefused => 64,
        }
    }

    /// The number of the line that was refused, or 0.
    pub fn line(self) -> u64
        ensures { result ≡ refused_line self }
    {
        match self {
            Outcome::LineRefused(number) => number,
            _ => 0,
        }
    }

    /// A session that ended so, with these replies.
    pub fn finished(self, replies: Vec<Reply>) -> Finished
        ensures status { result.status ≡ status_of self }
        ensures line { result.line ≡ refused_line self }
        ensures replies { result.replies ≡ replies.items }
    {
        Finished {
            status: self.status(),
            line: self.line(),
            replies: Seq::of(replies),
        }
    }
}

impl Finished {
    /// How the session ended.
    pub fn outcome(&self) -> Outcome
        ensures { (ending : Outcome) → self.now.status ≡ status_of ending → self.now.line ≡ refused_line ending → result ≡ ending }
    {
        match self.status {
            0 => Outcome::Done,
            2 => Outcome::LineRefused(self.line),
            3 => Outcome::ReadFault,
            4 => Outcome::WriteFault,
            5 => Outcome::NoMemory,
            6 => Outcome::TooLong,
            _ => Outcome::WordsRefused,
        }
    }
}

/// Reads the commands of a script from a source, to its end. It takes time and memory linear in the script, beside what
/// `from_fields` takes of each line.
///
/// A source that fails (`ReadFault`), a script of more than `MAX_SCRIPT` bytes (`TooLong`) and the first line that spells no
/// command (`LineRefused`) end it, and so does want of memory.
pub fn read_commands<C: FromFields, I: Source>(
    alloc: Global,
    source: &mut I,
) -> Result<Vec<C>, Outcome>
    ensures faults { I.faults source.old ≤ I.faults source.new }
    ensures reads { ReadsScript (script_by C.spelled) result (I.left source.old) (I.left source.new) (I.faults source.old) (I.faults source.new) }
{
    let bytes = read_whole(alloc, source, MAX_SCRIPT)?;
    let commands = read_lines(alloc, bytes.as_slice())?;
    Ok(commands)
}

/// Writes a text to a sink: `Done` where all of it is written, else `WriteFault`. It takes no memory.
pub fn write_text<O: Sink>(sink: &mut O, text: &[u8]) -> Outcome
    ensures faults { O.faults sink.old ≤ O.faults sink.new }
    ensures writes { EndsWriting result text.now (O.written sink.old) (O.written sink.new) (O.faults sink.old) (O.faults sink.new) }
{
    if write_whole(sink, text) {
        Outcome::Done
    } else {
        Outcome::WriteFault
    }
}
