// What the fields of a command spell: words, times of expiry, bounds of keys, and how rows are read.
ghost use Rattle.std.specs.Prelude.{◌≡◌, ◌<◌, length, drop, IfOk};
ghost use Rattle.slate_text.specs.Words.{word_of};
ghost use Rattle.slate_script.specs.Values.{expiry_of, bound_of, range_of, order_of, after_order, remote_of};

use bytes::Bytes;
use slate_text::{read_shared_word, read_time};
use slate_types::{ByteRange, IterationOrder, KeyBound, NoMemory};
use std::alloc::Global;

/// The bytes that a field spells as a byte word, as those of keys and values. They share the field's storage, unless they are
/// spelled with `%`.
pub fn read_word(alloc: Global, field: &Bytes) -> Result<Option<Bytes>, NoMemory>
    ensures { IfOk result (λ word. word ≡ word_of field.now) }
{
    read_shared_word(alloc, field.clone()?)
}

/// The time of expiry that the last fields of a write spell.
pub(crate) fn read_expiry(fields: &[Bytes]) -> Option<Option<i64>>
    ensures { result ≡ expiry_of fields.now }
{
    match fields {
        [] => Some(None),
        [time] => Some(Some(read_time(time.as_slice())?)),
        _ => None,
    }
}

// The key of a bound, behind its mark. It shares the field's storage.
fn read_marked(alloc: Global, field: &Bytes) -> Result<Option<Bytes>, NoMemory>
    requires { 0 < length field.now }
    ensures { IfOk result (λ key. key ≡ word_of (drop 1 field.now)) }
{
    let mut word = field.clone()?;
    word.advance(1);
    read_shared_word(alloc, word)
}

fn read_bound(alloc: Global, field: &Bytes) -> Result<Option<KeyBound>, NoMemory>
    ensures { IfOk result (λ bound. bound ≡ bound_of field.now) }
{
    match field.as_slice() {
        [b'*'] => Ok(Some(KeyBound::Unbounded)),
        [b'[', ..] => Ok(read_marked(alloc, field)?.map(KeyBound::Included)),
        [b'(', ..] => Ok(read_marked(alloc, field)?.map(KeyBound::Excluded)),
        _ => Ok(None),
    }
}

/// A range of keys, by its two bounds.
pub(crate) fn read_range(
    alloc: Global,
    low: &Bytes,
    high: &Bytes,
) -> Result<Option<ByteRange>, NoMemory>
    ensures { IfOk result (λ range. range ≡ range_of low.now high.now) }
{
    let Some(low) = read_bound(alloc, low)? else {
        return Ok(None);
    };
    let Some(high) = read_bound(alloc, high)? else {
        return Ok(None);
    };
    Ok(Some(ByteRange { low, high }))
}

/// The order of a scan's keys, and the fields behind it.
pub(crate) fn read_order(fields: &[Bytes]) -> (IterationOrder, &[Bytes])
    ensures order { result.0 ≡ order_of fields.now }
    ensures behind { result.1.now ≡ after_order fields.now }
{
    match fields {
        [word, behind @ ..] if word.as_slice() == b"desc".as_slice() => {
            (IterationOrder::Descending, behind)
        }
        _ => (IterationOrder::Ascending, fields),
    }
}

/// Whether the last fields of a read ask for what is durable alone.
pub(crate) fn read_remote(fields: &[Bytes]) -> Option<bool>
    ensures { result ≡ remote_of fields.now }
{
    match fields {
        [] => Some(false),
        [word] if word.as_slice() == b"remote".as_slice() => Some(true),
        _ => None,
    }
}
