// Writing the values that the messages of errors show.
ghost use Rattle.std.specs.Prelude.{◌≡◌, ℕ, List, ◌++◌, length, take, codes, decimal, OnOk, OnErr};
ghost use Rattle.std.specs.Fmt.{signed_decimal};
ghost use Rattle.uuid.specs.Text.{hyphenated_text, lower};
ghost use Rattle.slate_text.specs.Words.{word_text};
ghost use Rattle.slate_errors.specs.Texts.{optional_text, name_text, bound_text, range_text};

use bytes::Bytes;
use slate_text::{write_byte_word, write_number, write_signed, write_text};
use slate_types::{ByteRange, KeyBound, Name, NoMemory};
use uuid::Uuid;

/// A value that the message of an error shows.
pub(crate) trait Shown {
    /// What it shows.
    ghost shown: { Self → List ℕ };

    /// Writes it at the end. Where memory runs out, a first part may have been written.
    fn show(&self, out: &mut Vec<u8>) -> Result<(), NoMemory>
        ensures ok { OnOk result (out.new.items ≡ out.old.items ++ shown self.now) }
        ensures err { OnErr result (take (length out.old.items) out.new.items ≡ out.old.items) };
}

impl Shown for u64 {
    ghost shown = { decimal };

    fn show(&self, out: &mut Vec<u8>) -> Result<(), NoMemory> {
        write_number(out, *self)
    }
}

impl Shown for u32 {
    ghost shown = { decimal };

    fn show(&self, out: &mut Vec<u8>) -> Result<(), NoMemory> {
        write_number(out, u64::from(*self))
    }
}

impl Shown for i64 {
    ghost shown = { signed_decimal };

    fn show(&self, out: &mut Vec<u8>) -> Result<(), NoMemory> {
        write_signed(out, *self)
    }
}

impl Shown for Option<i64> {
    ghost shown = { optional_text };

    fn show(&self, out: &mut Vec<u8>) -> Result<(), NoMemory> {
        match self {
            None => write_text(out, "None"),
            Some(number) => write_around(out, "Some(", number, ")"),
        }
    }
}

impl Shown for Bytes {
    ghost shown = { word_text };

    fn show(&self, out: &mut Vec<u8>) -> Result<(), NoMemory> {
        write_byte_word(out, self.as_slice())
    }
}

impl Shown for Name {
    ghost shown = { λ name. name };

    fn show(&self, out: &mut Vec<u8>) -> Result<(), NoMemory> {
        write_text(out, self.as_str())
    }
}

impl Shown for Option<Name> {
    ghost shown = { name_text };

    fn show(&self, out: &mut Vec<u8>) -> Result<(), NoMemory> {
        match self {
            None => write_text(out, "None"),
            Some(name) => name.show(out),
        }
    }
}

impl Shown for Uuid {
    ghost shown = { hyphenated_text lower };

    fn show(&self, out: &mut Vec<u8>) -> Result<(), NoMemory> {
        let mut buffer = Uuid::encode_buffer();
        write_text(out, self.hyphenated().encode_lower(&mut buffer))
    }
}

impl Shown for KeyBound {
    ghost shown = { bound_text };

    fn show(&self, out: &mut Vec<u8>) -> Result<(), NoMemory> {
        match self {
            KeyBound::Unbounded => write_text(out, "*"),
            KeyBound::Included(key) => write_before(out, "[", key),
            KeyBound::Excluded(key) => write_before(out, "(", key),
        }
    }
}

impl Shown for ByteRange {
    ghost shown = { range_text };

    fn show(&self, out: &mut Vec<u8>) -> Result<(), NoMemory> {
        self.low.show(out)?;
        write_before(out, " ", &self.high)
    }
}

/// Writes a text and a value behind it.
pub(crate) fn write_before<V: Shown>(
    out: &mut Vec<u8>,
    before: &str,
    value: &V,
) -> Result<(), NoMemory>
    ensures ok { OnOk result (out.new.items ≡ out.old.items ++ (before.now ++ V.shown value.now)) }
    ensures err { OnErr result (take (length out.old.items) out.new.items ≡ out.old.items) }
{
    write_text(out, before)?;
    value.show(out)
}

/// Writes a text, a value behind it, and another text.
pub(crate) fn write_around<V: Shown>(
    out: &mut Vec<u8>,
    before: &str,
    value: &V,
    after: &str,
) -> Result<(), NoMemory>
    ensures ok { OnOk result (out.new.items ≡ out.old.items ++ (before.now ++ V.shown value.now ++ after.now)) }
    ensures err { OnErr result (take (length out.old.items) out.new.items ≡ out.old.items) }
{
    write_before(out, before, value)?;
    write_text(out, after)
}

/// Writes a text, a value behind it, another text and another value.
pub(crate) fn write_both<V: Shown, W: Shown>(
    out: &mut Vec<u8>,
    before: &str,
    first: &V,
    between: &str,
    second: &W,
) -> Result<(), NoMemory>
    ensures ok { OnOk result (out.new.items ≡ out.old.items ++ (before.now ++ V.shown first.now ++ between.now ++ W.shown second.now)) }
    ensures err { OnErr result (take (length out.old.items) out.new.items ≡ out.old.items) }
{
    write_around(out, before, first, between)?;
    second.show(out)
}

/// Writes two values with a text before, between and behind them.
pub(crate) fn write_around_both<V: Shown, W: Shown>(
    out: &mut Vec<u8>,
    before: &str,
    first: &V,
    between: &str,
    second: &W,
    after: &str,
) -> Result<(), NoMemory>
    ensures ok { OnOk result (out.new.items ≡ out.old.items ++ (before.now ++ V.shown first.now ++ between.now ++ W.shown second.now ++ after.now)) }
    ensures err { OnErr result (take (length out.old.items) out.new.items ≡ out.old.items) }
{
    write_both(out, before, first, between, second)?;
    write_text(out, after)
}
