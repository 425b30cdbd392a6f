// The lists of a tracker as bytes, and back.
ghost use Rattle.std.specs.Prelude.{◌≡◌, ◌<◌, ◌^◌, ◌&&◌, ℕ, Bool, true, false, map, length, slice_index, Ok, IfOk, MatchResult};
ghost use Rattle.std.specs.Ordering.{nat_cmp, int_cmp};
ghost use Rattle.std.specs.List.{AllByRecursion};
ghost use Rattle.slate_seqtrack.specs.Block.{fits_i64, is_encodable};
ghost use Rattle.slate_seqtrack.specs.Spelling.{lists_bytes};
ghost use Rattle.slate_seqtrack.specs.Writing.{IsWrittenBlock, IsWriteFault};
ghost use Rattle.slate_seqtrack.specs.Reading.{IsReadFault};
ghost use Rattle.slate_seqtrack.specs.Bytes.{as_signed, as_unsigned, AreTrackerBytes, rises, counted_block, in_order, blocks_at, lists_behind, lists_at};

use crate::{TrackerFault, decode_gorilla_i64_with_length, encode_gorilla_i64};
use slate_types::NoMemory;
use std::alloc::Global;

/// The version of the format, its first byte.
const VERSION: u8 = 1;

/// Writes the lists of a tracker.
pub(crate) fn write_lists(
    alloc: Global,
    numbers: &[u64],
    times: &[i64],
) -> Result<Vec<u8>, TrackerFault>
    requires few_numbers { length numbers.now < 2 ^ 32 }
    requires few_times { length times.now < 2 ^ 32 }
    ensures written { let encodable = is_encodable (as_signed numbers.now) && is_encodable times.now in
        MatchResult result (λ bytes. AreTrackerBytes IsWrittenBlock numbers.now times.now bytes.items × (encodable ≡ true)) (IsWriteFault encodable) }
    ensures spelled { IfOk result (λ bytes. bytes.items ≡ lists_bytes numbers.now times.now) }
    // What the types say.
    ensures numbers { AllByRecursion (λ n. n < 2 ^ 64) numbers.now }
    ensures times { IfOk result (λ bytes. AllByRecursion (λ t. fits_i64 t ≡ true) times.now) }
{
    let signed = as_signed(alloc, numbers)?;
    let first = encode_gorilla_i64(alloc, &signed)?;
    let second = encode_gorilla_i64(alloc, times)?;
    let mut bytes = Vec::new(alloc);
    bytes.push(VERSION)?;
    bytes.extend_from_slice(&(numbers.len() as u32).to_le_bytes())?;
    bytes.extend_from_slice(&first)?;
    bytes.extend_from_slice(&second)?;
    note_bytes(&bytes);
    Ok(bytes)
}

/// Does nothing: its contract says what the type of a byte says.
fn note_bytes(bytes: &[u8])
    ensures { (i : ℕ) → slice_index bytes.now i < 256 }
{}

/// Numbers as signed ones of the same bits.
fn as_signed(alloc: Global, numbers: &[u64]) -> Result<Vec<i64>, NoMemory>
    ensures { IfOk result (λ signed. signed.items ≡ as_signed numbers.now) }
{
    Ok(
        numbers
            .iter()
            .map(|number| number.cast_signed())
            .collect(alloc)?,
    )
}

/// Numbers as unsigned ones of the same bits.
fn as_unsigned(alloc: Global, numbers: &[i64]) -> Result<Vec<u64>, NoMemory>
    ensures { IfOk result (λ unsigned. unsigned.items ≡ as_unsigned numbers.now) }
{
    Ok(
        numbers
            .iter()
            .map(|number| number.cast_unsigned())
            .collect(alloc)?,
    )
}

/// Reads the lists of a tracker at the front of these bytes.
pub(crate) fn read_lists(alloc: Global, buf: &[u8]) -> Result<(Vec<u64>, Vec<i64>), TrackerFault>
    ensures { MatchResult result (λ lists. lists_at buf.now ≡ Ok (lists.0.items, lists.1.items)) (IsReadFault (lists_at buf.now)) }
{
    let Some((version, rest)) = buf.split_first() else {
        return Err(TrackerFault::Empty);
    };
    if *version != VERSION {
        return Err(TrackerFault::Version { found: *version });
    }
    let Some((count, rest)) = rest.split_first_chunk::<4>() else {
        return Err(TrackerFault::ShortLength);
    };
    read_blocks(alloc, u32::from_le_bytes(*count), rest)
}

/// Reads the two blocks, each of so many values.
fn read_blocks(
    alloc: Global,
    count: u32,
    bytes: &[u8],
) -> Result<(Vec<u64>, Vec<i64>), TrackerFault>
    ensures { MatchResult result (λ lists. blocks_at count bytes.now ≡ Ok (lists.0.items, lists.1.items)) (IsReadFault (blocks_at count bytes.now)) }
{
    let (numbers, rest) = read_block(alloc, count, bytes)?;
    let (times, _) = read_block(alloc, count, rest)?;
    let numbers = as_unsigned(alloc, &numbers)?;
    if never_falls(&numbers) && never_falls(&times) {
        Ok((numbers, times))
    } else {
        Err(TrackerFault::Falls)
    }
}

/// Reads a block of so many values, and answers the bytes after it.
fn read_block(alloc: Global, count: u32, bytes: &[u8]) -> Result<(Vec<i64>, &[u8]), TrackerFault>
    ensures { MatchResult result (λ read. counted_block count bytes.now ≡ Ok (read.0.items, read.1.now)) (IsReadFault (counted_block count bytes.now)) }
{
    let (size, values) = decode_gorilla_i64_with_length(alloc, bytes)?;
    let found = values.len() as u32;
    if found != count {
        return Err(TrackerFault::CountMismatch {
            expected: count,
            found,
        });
    }
    Ok((values, &bytes[size..]))
}

/// Whether no key is below the one before it.
fn never_falls<K: Ord>(keys: &[K]) -> bool
    ensures { result ≡ rises K.cmp keys.now }
{
    keys.is_sorted()
}
