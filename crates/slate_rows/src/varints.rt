// Numbers of 32 bits in LEB128: written, measured and read.
ghost use Rattle.std.specs.Prelude.{◌≡◌, ℕ, ◌^◌, ◌*◌, ◌<◌, ◌≤◌, List, ◌++◌, length, Ok, Err, OnOk, OnErr, IfOk, MatchResult};
ghost use Rattle.slate_rows.specs.Varint.{IsLeb128, number_at_front, varint};

use slate_types::NoMemory;
use std::alloc::Global;
use thiserror::Error;

/// Why bytes don't begin with a number.
#[derive(Clone, Copy, Debug, PartialEq, Eq, Error)]
pub enum VarintFault {
    /// The bytes end first.
    #[error("the bytes end within the number")]
    Short,
    /// The number passes 32 bits, or a fifth byte says that a sixth one follows.
    #[error("the number passes 32 bits")]
    TooLong,
}

/// Appends a number in LEB128: seven bits a byte, the lowest first, at most five bytes. Where memory ran out `buf` is
/// as before. SlateDB's `encode_varint`.
pub fn encode_varint(_alloc: Global, buf: &mut Vec<u8>, value: u32) -> Result<(), NoMemory>
    // What is appended is the number in LEB128, and reading it gives the number and moves just past it.
    ensures ok { OnOk result ((bytes : List ℕ) × (buf.new.items ≡ buf.old.items ++ bytes) × IsLeb128 value bytes
        × ((rest : List ℕ) → varint (bytes ++ rest) ≡ Ok (value, rest))) }
    ensures err { OnErr result (buf.new.items ≡ buf.old.items) }
{
    buf.reserve(varint_len(value))?;
    let mut rest = value;
    while rest >= 128 {
        buf.push_reserved((rest % 128) as u8 + 128);
        rest /= 128;
    }
    buf.push_reserved(rest as u8);
    Ok(())
}

/// How many bytes a number takes in LEB128: 1 to 5. It takes no memory. SlateDB's `varint_len`.
pub fn varint_len(value: u32) -> usize
    ensures { (bytes : List ℕ) × IsLeb128 value bytes × (result ≡ length bytes) }
{
    match value {
        0..128 => 1,
        128..16_384 => 2,
        16_384..2_097_152 => 3,
        2_097_152..268_435_456 => 4,
        268_435_456.. => 5,
    }
}

/// Reads a number in LEB128 at the front of `buf`, and moves just past it. A refusal moves nothing. It takes no memory.
/// SlateDB's `decode_varint`.
pub fn decode_varint(buf: &mut &[u8]) -> Result<u32, VarintFault>
    ensures { MatchResult result (λ value. varint buf.old.now ≡ Ok (value, buf.new.now))
        (λ fault. (varint buf.old.now ≡ Err fault) × (buf.new ≡ buf.old)) }
{
    let (number, rest) = number_at_front(buf, 5)?;
    let Ok(value) = u32::try_from(number) else {
        return Err(VarintFault::TooLong);
    };
    *buf = rest;
    Ok(value)
}

/// A number of at most `left` bytes at the front of `bytes`, and what comes after it.
fn number_at_front(bytes: &[u8], left: usize) -> Result<(u64, &[u8]), VarintFault>
    requires { left ≤ 5 }
    ensures value { MatchResult result (λ read. number_at_front left bytes.now ≡ Ok (read.0, read.1.now))
        (λ fault. number_at_front left bytes.now ≡ Err fault) }
    ensures below { IfOk result (λ read. read.0 < 128 ^ left) }
{
    if left == 0 {
        return Err(VarintFault::TooLong);
    }
    let Some((byte, rest)) = bytes.split_first() else {
        return Err(VarintFault::Short);
    };
    if *byte < 128 {
        return Ok((u64::from(*byte), rest));
    }
    let (number, after) = number_at_front(rest, left - 1)?;
    Ok((u64::from(*byte - 128) + 128 * number, after))
}
