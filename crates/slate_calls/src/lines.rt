// The subject `lines`: script lines, whole scripts, and the words of the command line.
use crate::answers::Answer;
use crate::call_line::CallLine;
use crate::subjects::Subject;
use slate_script::{
    Command, LineAnswer, ScriptFault, read_line, read_script, read_words, script_fields,
};
use std::alloc::Global;

#[derive(Clone, Copy)]
enum Call {
    Line,
    Script,
    Fields,
    Words,
}

const CALLS: &[(&[u8], Call)] = &[
    (b"line", Call::Line),
    (b"script", Call::Script),
    (b"fields", Call::Fields),
    (b"words", Call::Words),
];

/// Calls that keep nothing.
#[derive(Clone, Copy)]
pub struct Lines;

impl Subject for Lines {
    fn anew(&self, _alloc: Global) -> Lines {
        Lines
    }

    fn call(&mut self, line: &mut CallLine<'_>) {
        match line.name(CALLS) {
            Some(Call::Line) => read_line(line.alloc(), line.joined().as_slice()).print(line),
            Some(Call::Script) => print_script(line.bytes().as_slice(), line),
            Some(Call::Fields) => print_fields(line.bytes().as_slice(), line),
            Some(Call::Words) => print_options(line),
            None => {}
        }
    }
}

impl Answer for LineAnswer {
    /// Prints what the command of a line does, or that it is none.
    fn print(self, line: &mut CallLine<'_>) {
        match &self {
            LineAnswer::Command(command) => line.print_debug(&command.action),
            LineAnswer::Blank => line.print_text("blank"),
            LineAnswer::Refused => line.print_text("refused"),
        }
    }
}

/// Prints the commands of a script, or which line is none.
fn print_script(script: &[u8], line: &mut CallLine<'_>) {
    match read_script(line.alloc(), script) {
        Ok(commands) => print_commands(commands.as_slice(), line),
        Err(ScriptFault::NoMemory) => line.no_memory(),
        Err(fault) => line.print_debug(&fault),
    }
}

fn print_commands(commands: &[Command], line: &mut CallLine<'_>) {
    for command in commands {
        line.print_blank();
        line.print_debug(command);
    }
}

fn print_fields(text: &[u8], line: &mut CallLine<'_>) {
    let fields = script_fields(line.alloc(), text);
    if let Some(fields) = line.made(fields) {
        for field in fields.as_slice() {
            line.print_blank();
            line.print_bytes(field);
        }
    }
}

/// Prints what the words of a command line say, or that they are refused.
fn print_options(line: &mut CallLine<'_>) {
    let words = line.strings();
    match read_words(words.as_slice()) {
        Some(options) => line.print_debug(&options),
        None => line.print_text("refused"),
    }
}
