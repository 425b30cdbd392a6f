// The subject `bits`: bits and signs, and blocks of numbers as bytes.
ghost use Rattle.std.specs.Prelude.{◌≤◌};

use crate::answers::Answer;
use crate::call_line::CallLine;
use crate::subjects::Subject;
use slate_seqtrack::{
    BitReader, BitWriter, decode_gorilla_i64_with_length, encode_gorilla_i64, sign_extend,
};
use std::alloc::Global;

#[derive(Clone, Copy)]
enum Call {
    Write,
    Read,
    Sign,
    Encode,
    Decode,
    Again,
}

const CALLS: &[(&[u8], Call)] = &[
    (b"write", Call::Write),
    (b"read", Call::Read),
    (b"sign", Call::Sign),
    (b"encode", Call::Encode),
    (b"decode", Call::Decode),
    (b"again", Call::Again),
];

/// Calls that keep nothing.
#[derive(Clone, Copy)]
pub struct Bits;

impl Subject for Bits {
    fn anew(&self, _alloc: Global) -> Bits {
        Bits
    }

    fn call(&mut self, line: &mut CallLine<'_>) {
        match line.name(CALLS) {
            Some(Call::Write) => write(line),
            Some(Call::Read) => read(line),
            Some(Call::Sign) => print_sign(line),
            Some(Call::Encode) => encode(false, line),
            Some(Call::Decode) => decode(line.bytes().as_slice(), line),
            Some(Call::Again) => encode(true, line),
            None => {}
        }
    }
}

/// Prints the number whose last bits these are, with their sign.
fn print_sign(line: &mut CallLine<'_>) {
    let value = line.short();
    let bits = width_of(32, line);
    if bits == 0 {
        line.unread();
    } else {
        line.print_debug(&sign_extend(value, bits));
    }
}

/// How many bits the next word says, at most so many.
fn width_of(most: u8, line: &mut CallLine<'_>) -> u8
    ensures { result ≤ most }
{
    match u8::try_from(line.number()) {
        Ok(bits) if bits <= most => bits,
        _ => {
            line.unread();
            0
        }
    }
}

/// What is done with bits.
#[derive(Clone, Copy)]
enum Step {
    Bit,
    Push32,
    Push64,
    Read32,
    Read64,
}

const STEPS: &[(&[u8], Step)] = &[
    (b"bit", Step::Bit),
    (b"push32", Step::Push32),
    (b"push64", Step::Push64),
    (b"read32", Step::Read32),
    (b"read64", Step::Read64),
];

/// Writes bits by steps, with `;` between each two, and prints the bytes.
fn write(line: &mut CallLine<'_>) {
    let mut writer = BitWriter::new(line.alloc());
    for _ in 0..line.left() {
        if line.has_more() {
            write_step(&mut writer, line);
        }
    }
    let written = writer.finish();
    if let Some(bytes) = line.made(written) {
        line.print_bytes(bytes.as_slice());
    }
}

fn write_step(writer: &mut BitWriter, line: &mut CallLine<'_>) {
    match line.name(STEPS) {
        Some(Step::Bit) => writer.push(line.number() == 1).print(line),
        Some(Step::Push32) => {
            let value = line.short();
            writer.push32(value, width_of(32, line)).print(line);
        }
        Some(Step::Push64) => {
            let value = line.number();
            writer.push64(value, width_of(64, line)).print(line);
        }
        _ => line.unread(),
    }
}

/// Reads bits of bytes by steps, with `;` between each two, and prints what each gives.
fn read(line: &mut CallLine<'_>) {
    let bytes = line.bytes();
    let mut reader = BitReader::new(bytes.as_slice());
    for _ in 0..line.left() {
        if line.has_more() {
            line.print_blank();
            read_step(&mut reader, line);
        }
    }
}

fn read_step(reader: &mut BitReader<'_>, line: &mut CallLine<'_>) {
    match line.name(STEPS) {
        Some(Step::Bit) => line.print_debug(&reader.read_bit()),
        Some(Step::Read32) => {
            let bits = width_of(32, line);
            line.print_debug(&reader.read32(bits));
        }
        Some(Step::Read64) => {
            let bits = width_of(64, line);
            line.print_debug(&reader.read64(bits));
        }
        _ => line.unread(),
    }
}

/// Writes numbers as a block, and prints it, or what is read of it again.
fn encode(again: bool, line: &mut CallLine<'_>) {
    let values = values_of(line);
    if values.len() > 1000 {
        line.unread();
        return;
    }
    let encoded = encode_gorilla_i64(line.alloc(), values.as_slice());
    match line.made(encoded) {
        Some(bytes) if again => decode_whole(bytes.as_slice(), line),
        Some(bytes) => line.print_bytes(bytes.as_slice()),
        None => {}
    }
}

fn values_of(line: &mut CallLine<'_>) -> Vec<i64> {
    let mut values = Vec::new(line.alloc());
    for _ in 0..line.left() {
        values.push(line.time()).print(line);
    }
    values
}

/// Reads a block, and prints its numbers.
fn decode(bytes: &[u8], line: &mut CallLine<'_>) {
    let decoded = decode_gorilla_i64_with_length(line.alloc(), bytes);
    if let Some((_used, values)) = line.made(decoded) {
        line.print_debug(&values);
    }
}

/// Reads a block, and prints its numbers, and whether they took all of these bytes.
fn decode_whole(bytes: &[u8], line: &mut CallLine<'_>) {
    let decoded = decode_gorilla_i64_with_length(line.alloc(), bytes);
    if let Some((used, values)) = line.made(decoded) {
        line.print_debug(&values);
        let is_whole = used == bytes.len();
        line.print_text(if is_whole { " whole" } else { " in part" });
    }
}
