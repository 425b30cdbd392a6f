// Values as bytes: how one is read at the front of bytes, and how it is spelled.
ghost use Rattle.std.specs.Prelude.{◌≡◌, ◌≤◌, ◌<◌, ◌^◌, ◌++◌, List, ℕ, suc, length, OnOk, Result};
ghost use Rattle.slate_objects.specs.declared.faults.DecodeFault.{DecodeFault};
ghost use Rattle.slate_objects.specs.Reading.{GivesDecoded, ReadsFront, bytes_at, joined, list_at, many_at, number_at, number_in, option_at, tag_at, time_at};
ghost use Rattle.slate_objects.specs.Spelling.{digits, ByteFits, BytesFit, ListFits, NumberFits, OptionFits, TimeFits, byte_of, bytes_of, list_of, number, option_of, time};

use crate::faults::{DecodeError, DecodeFault};
use bytes::{Buf, Bytes};
use slate_types::{NoMemory, Seq};
use std::alloc::Global;

/// A value that has one spelling as bytes.
pub(crate) trait Format: Sized {
    ghost read_at: { List ℕ → Result (Self × List ℕ) DecodeFault };

    ghost spelled: { Self → List ℕ };

    ghost Fits: { Self → Type 0 };

    /// Takes a value from the front of bytes. It shares the bytes, and reserves no memory by a count that it reads.
    fn read(alloc: Global, bytes: &mut Bytes) -> Result<Self, DecodeError>
        ensures { ReadsFront result bytes.new (read_at bytes.old) };

    /// Appends the bytes of a value.
    fn write(&self, out: &mut Vec<u8>) -> Result<(), NoMemory>
        ensures { OnOk result ((out.new.items ≡ out.old.items ++ spelled self.now) × Fits self.now) };
}

/// Takes a tag from the front.
#[tactic(auto, unfolding(crate::specs::Reading::tag_at))]
pub(crate) fn read_tag(bytes: &mut Bytes) -> Result<u8, DecodeError>
    ensures { ReadsFront result bytes.new (tag_at bytes.old) }
{
    match bytes.try_get_u8() {
        Ok(tag) => Ok(tag),
        Err(_) => Err(DecodeError::Fault(DecodeFault::TooShort)),
    }
}

/// How many bytes a number has at most.
const MOST: u8 = 10;

/// Takes a number of at most so many bytes from the front.
fn read_digits(bytes: &mut Bytes, left: u8) -> Result<u64, DecodeError>
    ensures { ReadsFront result bytes.new (number_in left bytes.old) }
{
    if left == 0 {
        return Err(DecodeError::Fault(DecodeFault::NotANumber));
    }
    let byte = read_tag(bytes)?;
    if byte < 128 {
        return Ok(u64::from(byte));
    }
    let high = read_digits(bytes, left - 1)?;
    let number = join(byte, high)?;
    Ok(number)
}

/// The number with these lowest seven bits, and the others above.
fn join(byte: u8, high: u64) -> Result<u64, DecodeError>
    requires { 128 ≤ byte }
    ensures { GivesDecoded result (joined byte high) }
{
    if high == 0 || high >= 1 << 57 {
        return Err(DecodeError::Fault(DecodeFault::NotANumber));
    }
    Ok(u64::from(byte - 128) + 128 * high)
}

/// Takes a number from the front.
#[tactic(auto, unfolding(crate::specs::Reading::number_at))]
pub(crate) fn read_u64(bytes: &mut Bytes) -> Result<u64, DecodeError>
    ensures { ReadsFront result bytes.new (number_at bytes.old) }
{
    read_digits(bytes, MOST)
}

/// Appends a number in as few bytes as it has.
fn write_digits(number: u64, out: &mut Vec<u8>) -> Result<(), NoMemory>
    ensures fits { number < 2 ^ 64 }
    ensures digits { (left : ℕ) → number < 128 ^ suc left → OnOk result (out.new.items ≡ out.old.items ++ digits (suc left) number) }
{
    if number < 128 {
        return Ok(out.push(number as u8)?);
    }
    out.push((number % 128) as u8 + 128)?;
    write_digits(number / 128, out)
}

impl Format for u8 {
    ghost read_at = { tag_at };

    ghost spelled = { byte_of };

    ghost Fits = { ByteFits };

    fn read(alloc: Global, bytes: &mut Bytes) -> Result<u8, DecodeError> {
        read_tag(bytes)
    }

    fn write(&self, out: &mut Vec<u8>) -> Result<(), NoMemory> {
        Ok(out.push(*self)?)
    }
}

impl Format for u64 {
    ghost read_at = { number_at };

    ghost spelled = { number };

    ghost Fits = { NumberFits };

    fn read(alloc: Global, bytes: &mut Bytes) -> Result<u64, DecodeError> {
        read_u64(bytes)
    }

    #[tactic(auto, unfolding(crate::specs::Spelling::number))]
    fn write(&self, out: &mut Vec<u8>) -> Result<(), NoMemory> {
        write_digits(*self, out)
    }
}

impl Format for i64 {
    ghost read_at = { time_at };

    ghost spelled = { time };

    ghost Fits = { TimeFits };

    #[tactic(auto, unfolding(crate::specs::Reading::time_at))]
    fn read(alloc: Global, bytes: &mut Bytes) -> Result<i64, DecodeError> {
        let number = read_u64(bytes)?;
        Ok(number.cast_signed())
    }

    fn write(&self, out: &mut Vec<u8>) -> Result<(), NoMemory> {
        self.cast_unsigned().write(out)
    }
}

impl Format for Bytes {
    ghost read_at = { bytes_at };

    ghost spelled = { bytes_of };

    ghost Fits = { BytesFit };

    #[tactic(auto, unfolding(crate::specs::Reading::bytes_at))]
    fn read(alloc: Global, bytes: &mut Bytes) -> Result<Bytes, DecodeError> {
        let len = read_u64(bytes)?;
        let len = len as usize;
        if bytes.len() < len {
            return Err(DecodeError::Fault(DecodeFault::TooShort));
        }
        Ok(bytes.split_to(len)?)
    }

    fn write(&self, out: &mut Vec<u8>) -> Result<(), NoMemory> {
        let bytes = self.as_slice();
        (bytes.len() as u64).write(out)?;
        Ok(out.extend_from_slice(bytes)?)
    }
}

impl<T: Format> Format for Option<T> {
    ghost read_at = { option_at T.read_at };

    ghost spelled = { option_of T.spelled };

    ghost Fits = { OptionFits T.Fits };

    #[tactic(auto, unfolding(crate::specs::Reading::option_at))]
    fn read(alloc: Global, bytes: &mut Bytes) -> Result<Option<T>, DecodeError> {
        match read_tag(bytes)? {
            0 => Ok(None),
            1 => {
                let value = T::read(alloc, bytes)?;
                Ok(Some(value))
            }
            tag => Err(DecodeError::Fault(DecodeFault::UnknownTag { tag })),
        }
    }

    fn write(&self, out: &mut Vec<u8>) -> Result<(), NoMemory> {
        match self {
            None => Ok(out.push(0)?),
            Some(value) => {
                out.push(1)?;
                value.write(out)
            }
        }
    }
}

/// Takes so many values from the front, one after another.
fn read_many<T: Format + Drop>(
    alloc: Global,
    count: u64,
    bytes: &mut Bytes,
) -> Result<Seq<T>, DecodeError>
    ensures { ReadsFront result bytes.new (many_at T.read_at count bytes.old) }
{
    let mut values = Vec::new(alloc);
    for _ in 0..count {
        let value = T::read(alloc, bytes)?;
        values.push(value)?;
    }
    Ok(Seq::of(values))
}

/// Appends a count, and as many values.
pub(crate) fn write_list<T: Format>(values: &[T], out: &mut Vec<u8>) -> Result<(), NoMemory>
    ensures { OnOk result ((out.new.items ≡ out.old.items ++ list_of T.spelled values.now) × ListFits T.Fits values.now) }
{
    (values.len() as u64).write(out)?;
    for value in values {
        value.write(out)?;
    }
    Ok(())
}

impl<T: Format + Drop> Format for Seq<T> {
    ghost read_at = { list_at T.read_at };

    ghost spelled = { list_of T.spelled };

    ghost Fits = { ListFits T.Fits };

    #[tactic(auto, unfolding(crate::specs::Reading::list_at))]
    fn read(alloc: Global, bytes: &mut Bytes) -> Result<Seq<T>, DecodeError> {
        let count = read_u64(bytes)?;
        read_many(alloc, count, bytes)
    }

    fn write(&self, out: &mut Vec<u8>) -> Result<(), NoMemory> {
        write_list(self.as_slice(), out)
    }
}
