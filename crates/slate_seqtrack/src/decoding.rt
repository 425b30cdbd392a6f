// Reading a block of numbers.
ghost use Rattle.std.specs.Prelude.{◌≡◌, ◌<◌, ◌≤◌, ◌^◌, ◌++◌, ◌+ℤ◌, ◌-ℤ◌, Bool, List, ℕ, ℤ, pos, true, false, length, Ok, None, Some, IfOk, IfSome, MatchOption, MatchResult};
ghost use Rattle.std.specs.List.{AllByRecursion};
ghost use Rattle.slate_seqtrack.specs.declared.faults.TrackerFault.TheVariants.{NoMemory};
ghost use Rattle.slate_seqtrack.specs.Block.{fits_i64, IsBlock, BeginsWithBlock};
ghost use Rattle.slate_seqtrack.specs.Reading.{width_at, code_at, behind, later_at, counted_at, block_at, IsReadFault};

use crate::{BitReader, TrackerFault, sign_extend};
use std::alloc::Global;

/// Reads the block at the front of these bytes: how many bytes it takes, and its values. ShortData where the bits run
/// out and Overflows where a value leaves 64 signed bits, whichever is met first. A difference of differences is read
/// in any form, and the bits that fill the last byte aren't looked at. It takes linear time, and memory for the values
/// alone. SlateDB's `decode_gorilla_i64_with_length`.
pub fn decode_gorilla_i64_with_length(
    alloc: Global,
    buf: &[u8],
) -> Result<(usize, Vec<i64>), TrackerFault>
    // Which values, or which fault.
    ensures exact { MatchResult result (λ read. block_at buf.now ≡ Ok (read.1.items, read.0)) (IsReadFault (block_at buf.now)) }
    // What is read is a block of the values.
    ensures found { IfOk result (λ read. BeginsWithBlock buf.now read.1.items read.0) }
    // A block is read, whatever follows, unless memory runs out.
    ensures only { (values : List ℤ) (bytes rest : List ℕ) → IsBlock values bytes → AllByRecursion (λ v. fits_i64 v ≡ true) values → buf.now ≡ bytes ++ rest
        → MatchResult result (λ read. (read.1.items ≡ values) × (read.0 ≡ length bytes)) (λ fault. fault ≡ NoMemory) }
{
    read_block(alloc, buf)
}

/// The block at the front of these bytes: how many bytes it takes, and its values.
fn read_block(alloc: Global, buf: &[u8]) -> Result<(usize, Vec<i64>), TrackerFault>
    ensures { MatchResult result (λ read. block_at buf.now ≡ Ok (read.1.items, read.0)) (IsReadFault (block_at buf.now)) }
{
    let mut reader = BitReader::new(buf);
    let values = read_values(alloc, &mut reader)?;
    Ok((buf.len() - reader.whole_bytes(), values))
}

/// Reads the count, and then the values.
fn read_values(alloc: Global, reader: &mut BitReader) -> Result<Vec<i64>, TrackerFault>
    ensures { MatchResult result (λ values. counted_at reader.old ≡ Ok (values.items, reader.new)) (IsReadFault (counted_at reader.old)) }
{
    let mut values = Vec::new(alloc);
    let Some(count) = reader.read32(32) else {
        return Err(TrackerFault::ShortData);
    };
    if count == 0 {
        return Ok(values);
    }
    let Some(first) = reader.read64(64) else {
        return Err(TrackerFault::ShortData);
    };
    let first = first.cast_signed();
    values.push(first)?;
    read_later(reader, values, first, count - 1)
}

/// Reads so many values after the first one, and adds them at the end of the values.
fn read_later(
    reader: &mut BitReader,
    values: Vec<i64>,
    first: i64,
    count: u32,
) -> Result<Vec<i64>, TrackerFault>
    ensures { let read = later_at count first (pos 0) reader.old in
        MatchResult result (λ all. behind values.items read ≡ Ok (all.items, reader.new)) (IsReadFault read) }
{
    let mut values = values;
    let mut before = first;
    let mut previous = first;
    for _ in 0..count {
        let Some(code) = read_code(reader) else {
            return Err(TrackerFault::ShortData);
        };
        let Some(value) = next_value(before, previous, code) else {
            return Err(TrackerFault::Overflows);
        };
        values.push(value)?;
        before = previous;
        previous = value;
    }
    Ok(values)
}

/// The value whose difference to the one before it is so much more than the difference before that one, where 64
/// signed bits hold it.
fn next_value(before: i64, previous: i64, code: i32) -> Option<i64>
    ensures { let exact = previous +ℤ ((previous -ℤ before) +ℤ code) in
        MatchOption result (fits_i64 exact ≡ false) (λ value. (value ≡ exact) × (fits_i64 exact ≡ true)) }
{
    let delta = i128::from(previous) - i128::from(before) + i128::from(code);
    i64::try_from(i128::from(previous) + delta).ok()
}

/// Reads a difference of differences in any form; None where the bits run out.
fn read_code(reader: &mut BitReader) -> Option<i32>
    ensures { MatchOption result (code_at reader.old ≡ None) (λ code. code_at reader.old ≡ Some (code, reader.new)) }
{
    let width = read_width(reader)?;
    if width == 0 {
        return Some(0);
    }
    let bits = reader.read32(width)?;
    Some(sign_extend(bits, width))
}

/// Reads a prefix, and answers how many bits of the value come after it; None where the bits run out.
fn read_width(reader: &mut BitReader) -> Option<u8>
    ensures width { MatchOption result (width_at reader.old ≡ None) (λ width. width_at reader.old ≡ Some (width, reader.new)) }
    ensures few { IfSome result (λ width. width ≤ 32) }
{
    if !reader.read_bit()? {
        return Some(0);
    }
    if !reader.read_bit()? {
        return Some(7);
    }
    if !reader.read_bit()? {
        return Some(9);
    }
    if reader.read_bit()? {
        Some(32)
    } else {
        Some(12)
    }
}
