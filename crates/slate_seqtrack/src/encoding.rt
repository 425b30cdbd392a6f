// Writing a block of numbers.
ghost use Rattle.std.specs.Prelude.{◌≡◌, ◌<◌, ◌≤◌, ◌^◌, ◌++◌, Bool, List, ℤ, pos, ◌-ℤ◌, true, false, map, length, IfOk, OnOk, OnErr, MatchOption, MatchResult};
ghost use Rattle.std.specs.List.{AllByRecursion};
ghost use Rattle.std.specs.Int.{w32, w64, cast_signed, cast_unsigned};
ghost use Rattle.slate_seqtrack.specs.Bits.{low_bits};
ghost use Rattle.slate_seqtrack.specs.Block.{IsFirstCode, AreLater, AreValues, fits_i32, fits_i64, later_fit, is_encodable};
ghost use Rattle.slate_seqtrack.specs.Writing.{IsWrittenBlock, IsWriteFault};

use crate::{BitWriter, TrackerFault};
use slate_types::NoMemory;
use std::alloc::Global;

/// Writes a block of fewer than 2^32 values: their count, the first one, and the differences of differences of the
/// others, each in the first form that fits. NotEncodable exactly where one of these leaves 32 signed bits. It takes
/// linear time. SlateDB's `encode_gorilla_i64`.
pub fn encode_gorilla_i64(alloc: Global, values: &[i64]) -> Result<Vec<u8>, TrackerFault>
    requires { length values.now < 2 ^ 32 }
    ensures written { MatchResult result (λ bytes. IsWrittenBlock values.now bytes.items × (is_encodable values.now ≡ true))
        (IsWriteFault (is_encodable values.now)) }
    ensures fit { IfOk result (λ bytes. AllByRecursion (λ value. fits_i64 value ≡ true) values.now) }
{
    let mut writer = BitWriter::new(alloc);
    writer.push32(values.len() as u32, 32)?;
    push_values(&mut writer, values)?;
    Ok(writer.finish()?)
}

/// Writes the first value, and then the others.
fn push_values(writer: &mut BitWriter, values: &[i64]) -> Result<(), TrackerFault>
    ensures written { MatchResult result (λ _. (bits : List Bool) × AreValues IsFirstCode values.now bits
        × (writer.new ≡ writer.old ++ bits) × (is_encodable values.now ≡ true)) (IsWriteFault (is_encodable values.now)) }
    ensures fit { IfOk result (λ done. AllByRecursion (λ value. fits_i64 value ≡ true) values.now) }
{
    let Some((first, later)) = values.split_first() else {
        return Ok(());
    };
    writer.push64(first.cast_unsigned(), 64)?;
    push_later(writer, *first, later)
}

/// Writes the values after the first one.
fn push_later(writer: &mut BitWriter, first: i64, later: &[i64]) -> Result<(), TrackerFault>
    ensures written { MatchResult result (λ _. (bits : List Bool) × AreLater IsFirstCode first (pos 0) later.now bits
        × (writer.new ≡ writer.old ++ bits) × (later_fit first (pos 0) later.now ≡ true)) (IsWriteFault (later_fit first (pos 0) later.now)) }
    ensures fit { IfOk result (λ done. AllByRecursion (λ value. fits_i64 value ≡ true) later.now) }
{
    let mut before = first;
    let mut previous = first;
    for value in later {
        let Some(code) = delta_of_deltas(before, previous, *value) else {
            return Err(TrackerFault::NotEncodable);
        };
        push_code(writer, code)?;
        before = previous;
        previous = *value;
    }
    Ok(())
}

/// A number that a block has as a signed one of the same 64 bits.
pub(crate) trait Word: Copy {
    /// The signed number.
    ghost signed: { Self → ℤ };

    fn signed(self) -> i64
        ensures { result ≡ signed self };
}

impl Word for i64 {
    ghost signed = { λ value. value };

    fn signed(self) -> i64 {
        self
    }
}

impl Word for u64 {
    ghost signed = { cast_signed w64 };

    fn signed(self) -> i64 {
        self.cast_signed()
    }
}

/// Whether a block of these values can be written: no difference of differences leaves 32 signed bits. It takes no
/// memory, and linear time.
pub(crate) fn is_encodable<T: Word>(values: &[T]) -> bool
    ensures { result ≡ is_encodable (map T.signed values.now) }
{
    let Some((first, later)) = values.split_first() else {
        return true;
    };
    let mut before = first.signed();
    let mut previous = before;
    for value in later {
        let value = value.signed();
        if delta_of_deltas(before, previous, value).is_none() {
            return false;
        }
        before = previous;
        previous = value;
    }
    true
}

/// How the difference of a value to the one before it differs from the difference before that one, where 32 signed
/// bits hold it.
fn delta_of_deltas(before: i64, previous: i64, value: i64) -> Option<i32>
    ensures { let exact = (value -ℤ previous) -ℤ (previous -ℤ before) in
        MatchOption result (fits_i32 exact ≡ false) (λ delta. (delta ≡ exact) × (fits_i32 exact ≡ true)) }
{
    let delta = i128::from(value) - i128::from(previous);
    let delta_before = i128::from(previous) - i128::from(before);
    i32::try_from(delta - delta_before).ok()
}

/// Writes a difference of differences in the first form that fits.
fn push_code(writer: &mut BitWriter, value: i32) -> Result<(), NoMemory>
    ensures { OnOk result ((code : List Bool) × IsFirstCode value code × (writer.new ≡ writer.old ++ code)) }
{
    match value.unsigned_abs() {
        0 => push_form(writer, 0b0, 1, value, 0),
        1..64 => push_form(writer, 0b10, 2, value, 7),
        64..256 => push_form(writer, 0b110, 3, value, 9),
        256..2048 => push_form(writer, 0b1110, 4, value, 12),
        2048.. => push_form(writer, 0b1111, 4, value, 32),
    }
}

/// Writes a prefix of so many bits, and so many low bits of a value.
fn push_form(
    writer: &mut BitWriter,
    prefix: u32,
    length: u8,
    value: i32,
    width: u8,
) -> Result<(), NoMemory>
    requires short { length ≤ 4 }
    requires narrow { width ≤ 32 }
    ensures { OnOk result (writer.new ≡ writer.old ++ (low_bits length prefix ++ low_bits width (cast_unsigned w32 value))) }
{
    writer.push32(prefix, length)?;
    writer.push32(value.cast_unsigned(), width)
}
