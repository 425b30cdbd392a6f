// The subject `text`: byte words, numbers and moments, read and printed.
use crate::answers::Answer;
use crate::call_line::CallLine;
use crate::subjects::Subject;
use slate_text::{read_byte_word, read_moment, read_number, read_shared_word};
use std::alloc::Global;

#[derive(Clone, Copy)]
enum Call {
    Print,
    Read,
    Number,
    Moment,
    Unsigned,
    Signed,
}

const CALLS: &[(&[u8], Call)] = &[
    (b"print", Call::Print),
    (b"read", Call::Read),
    (b"number", Call::Number),
    (b"moment", Call::Moment),
    (b"unsigned", Call::Unsigned),
    (b"signed", Call::Signed),
];

/// Calls that keep nothing.
#[derive(Clone, Copy)]
pub struct Texts;

impl Subject for Texts {
    fn anew(&self, _alloc: Global) -> Texts {
        Texts
    }

    /// The word of each call stands for the bytes that it spells.
    fn call(&mut self, line: &mut CallLine<'_>) {
        match line.name(CALLS) {
            Some(Call::Print) => {
                let field = line.bytes();
                line.print_bytes(field.as_slice());
            }
            Some(Call::Read) => print_read(line),
            Some(Call::Number) => {
                let number = read_number(line.bytes().as_slice());
                line.print_debug(&number);
            }
            Some(Call::Moment) => {
                let moment = read_moment(line.bytes().as_slice());
                line.print_debug(&moment);
            }
            Some(Call::Unsigned) => line.number().print(line),
            Some(Call::Signed) => line.time().print(line),
            None => {}
        }
    }
}

/// Prints the bytes that a field spells, as both readers of a word have it.
fn print_read(line: &mut CallLine<'_>) {
    let field = line.bytes();
    read_byte_word(line.alloc(), field.as_slice()).print(line);
    let plain = line.take_answer();
    read_shared_word(line.alloc(), field).print(line);
    let shared = line.take_answer();
    line.print_plain(plain.as_slice());
    if shared != plain {
        line.print_text(" and shared ");
        line.print_plain(shared.as_slice());
    }
}
