// Reading and writing numbers and moments.
ghost use Rattle.std.specs.Prelude.{◌≡◌, ◌++◌, OnOk, OnErr, decimal};
ghost use Rattle.std.specs.Fmt.{signed_decimal};
ghost use Rattle.slate_text.specs.Numbers.{number_of, time_of, two_times, moment_of};

use crate::search::find_byte;
use itoa::Buffer;
use slate_types::NoMemory;

/// The number that a field spells: one or more decimal digits, below 2^64. It takes no memory.
pub fn read_number(field: &[u8]) -> Option<u64>
    ensures { result ≡ number_of field.now }
{
    if field.is_empty() {
        return None;
    }
    let mut number: u64 = 0;
    for digit in field {
        if !digit.is_ascii_digit() {
            return None;
        }
        number = number
            .checked_mul(10)?
            .checked_add(u64::from(*digit - b'0'))?;
    }
    Some(number)
}

/// The time in milliseconds that a field spells: a number from 0 to 9223372036854775807. It takes no memory.
pub fn read_time(field: &[u8]) -> Option<i64>
    ensures { result ≡ time_of field.now }
{
    i64::try_from(read_number(field)?).ok()
}

// A time in milliseconds, and a second one.
fn read_two_times(first: &[u8], second: &[u8]) -> Option<(i64, Option<i64>)>
    ensures { result ≡ two_times (time_of first.now) (time_of second.now) }
{
    let first = read_time(first)?;
    let second = read_time(second)?;
    Some((first, Some(second)))
}

/// The moment that a field spells, in milliseconds, and the second moment where the field has one: a number from 0
/// to 9223372036854775807, or two with `/` between. It takes no memory.
pub fn read_moment(field: &[u8]) -> Option<(i64, Option<i64>)>
    ensures { result ≡ moment_of field.now }
{
    match find_byte(field, b'/') {
        None => Some((read_time(field)?, None)),
        Some(slash) => read_two_times(&field[..slash], &field[slash + 1..]),
    }
}

/// Writes a number in decimal digits at the end. Where memory runs out, nothing was written.
pub fn write_number(out: &mut Vec<u8>, number: u64) -> Result<(), NoMemory>
    ensures ok { OnOk result (out.new.items ≡ out.old.items ++ decimal number) }
    ensures err { OnErr result (out.new.items ≡ out.old.items) }
{
    let mut buffer = Buffer::new();
    out.extend_from_slice(buffer.format(number).as_bytes())?;
    Ok(())
}

/// Writes a signed number in decimal digits at the end, behind a `-` where it is below 0. Where memory runs out,
/// nothing was written.
pub fn write_signed(out: &mut Vec<u8>, number: i64) -> Result<(), NoMemory>
    ensures ok { OnOk result (out.new.items ≡ out.old.items ++ signed_decimal number) }
    ensures err { OnErr result (out.new.items ≡ out.old.items) }
{
    let mut buffer = Buffer::new();
    out.extend_from_slice(buffer.format(number).as_bytes())?;
    Ok(())
}
