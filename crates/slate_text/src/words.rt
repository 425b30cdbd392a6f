// Reading and writing byte words.
ghost use Rattle.std.specs.Prelude.{◌≡◌, ◌<◌, ◌++◌, length, take, OnOk, OnErr, IfOk};
ghost use Rattle.std.specs.Option.{option_map};
ghost use Rattle.std.specs.List.{list_all, flat_map};
ghost use Rattle.slate_text.specs.Words.{hex_digit, hex_value, hex_pair, byte_text, word_text, word_of, spelled, is_plain, is_literal};

use crate::appends::cut_back;
use bytes::Bytes;
use slate_types::NoMemory;
use std::alloc::Global;

// The value of a hexadecimal digit.
fn digit_value(digit: u8) -> Option<u8>
    ensures { result ≡ hex_value digit }
{
    match digit {
        b'0'..=b'9' => Some(digit - b'0'),
        b'a'..=b'f' => Some(digit - b'a' + 10),
        b'A'..=b'F' => Some(digit - b'A' + 10),
        _ => None,
    }
}

// The byte that two hexadecimal digits spell.
fn byte_of(high: u8, low: u8) -> Option<u8>
    ensures { result ≡ hex_pair high low }
{
    let high = digit_value(high)?;
    Some(16 * high + digit_value(low)?)
}

// Whether a byte of a word stands for itself.
fn stands_alone(byte: u8) -> bool
    ensures { result ≡ is_literal byte }
{
    !matches!(byte, b' ' | b'\n' | b'\r' | b'%')
}

// The bytes that a word spells in which `%` and two digits stand for a byte.
fn unescape(alloc: Global, field: &[u8]) -> Result<Option<Vec<u8>>, NoMemory>
    ensures { IfOk result (λ word. option_map (λ v. v.items) word ≡ spelled field.now) }
{
    let mut bytes = Vec::new(alloc);
    let mut rest = field;
    while let [first, ..] = rest {
        if let [b'%', high, low, ..] = rest {
            let Some(byte) = byte_of(*high, *low) else {
                return Ok(None);
            };
            bytes.push(byte)?;
            rest = &rest[3..];
        } else if stands_alone(*first) {
            bytes.push(*first)?;
            rest = &rest[1..];
        } else {
            return Ok(None);
        }
    }
    Ok(Some(bytes))
}

/// The bytes that a field spells as a byte word: bytes that are no space, newline or carriage return, where `%` and
/// two hexadecimal digits of either case stand for a byte. `%` alone is the empty text. It copies the bytes.
pub fn read_byte_word(alloc: Global, field: &[u8]) -> Result<Option<Bytes>, NoMemory>
    ensures { IfOk result (λ word. word ≡ word_of field.now) }
{
    match field {
        [] => Ok(None),
        [b'%'] => Ok(Some(Bytes::new())),
        _ => match unescape(alloc, field)? {
            None => Ok(None),
            Some(bytes) => Ok(Some(Bytes::from_vec(bytes)?)),
        },
    }
}

// Whether each byte of a field stands for itself.
fn all_stand_alone(field: &[u8]) -> bool
    ensures { result ≡ list_all is_literal field.now }
{
    field.iter().all(|byte| stands_alone(*byte))
}

/// What `read_byte_word` answers of the same bytes. A word without `%` is answered as it is and shares its storage;
/// only one with `%` is copied.
#[tactic(auto, using(crate::proofs::WordLemmas::spells_itself))]
pub fn read_shared_word(alloc: Global, field: Bytes) -> Result<Option<Bytes>, NoMemory>
    ensures { IfOk result (λ word. word ≡ word_of field) }
{
    if !field.is_empty() && all_stand_alone(field.as_slice()) {
        return Ok(Some(field));
    }
    read_byte_word(alloc, field.as_slice())
}

// The lower-case digit of a value below 16.
fn digit_of(value: u8) -> u8
    requires { value < 16 }
    ensures { result ≡ hex_digit value }
{
    if value < 10 {
        b'0' + value
    } else {
        b'a' + (value - 10)
    }
}

// Whether a byte prints as it is.
fn prints_plainly(byte: u8) -> bool
    ensures { result ≡ is_plain byte }
{
    matches!(byte, 0x21..=0x7e) && byte != b'%'
}

fn write_byte(out: &mut Vec<u8>, byte: u8) -> Result<(), NoMemory>
    ensures ok { OnOk result (out.new.items ≡ out.old.items ++ byte_text byte) }
    ensures err { OnErr result (out.new.items ≡ out.old.items) }
{
    if prints_plainly(byte) {
        out.push(byte)?;
    } else {
        out.extend_from_slice(&[b'%', digit_of(byte / 16), digit_of(byte % 16)])?;
    }
    Ok(())
}

fn write_bytes(out: &mut Vec<u8>, bytes: &[u8]) -> Result<(), NoMemory>
    ensures ok { OnOk result (out.new.items ≡ out.old.items ++ flat_map byte_text bytes.now) }
    ensures err { OnErr result (take (length out.old.items) out.new.items ≡ out.old.items) }
{
    for byte in bytes {
        write_byte(out, *byte)?;
    }
    Ok(())
}

/// Writes bytes as a byte word at the end: 21 to 7e except `%` as they are, all others as `%` and two lower-case
/// hexadecimal digits, the empty text as `%`. Where memory runs out, nothing was written.
pub fn write_byte_word(out: &mut Vec<u8>, bytes: &[u8]) -> Result<(), NoMemory>
    ensures ok { OnOk result (out.new.items ≡ out.old.items ++ word_text bytes.now) }
    ensures err { OnErr result (out.new.items ≡ out.old.items) }
{
    if bytes.is_empty() {
        out.push(b'%')?;
        return Ok(());
    }
    let length = out.len();
    let written = write_bytes(out, bytes);
    cut_back(out, length, written)
}
