// Ranges of keys: their bounds, and ranges behind a prefix.
ghost use Rattle.std.specs.Prelude.{◌≡◌, ℕ, ◌↔◌, List, ◌++◌, IsTrue, IfOk, true};
ghost use Rattle.slate_types.specs.Range.{contains, is_above, is_below, end_of_prefix, below, low_with_prefix, high_with_prefix, with_prefix, AreBytes};

use crate::NoMemory;
use bytes::Bytes;
use std::alloc::{AllocError, Global};

/// One end of a range of keys.
#[derive(Debug, PartialEq, Eq, Drop)]
pub enum KeyBound {
    /// No bound.
    Unbounded,
    /// The key is in the range.
    Included(Bytes),
    /// The key isn't in the range, and all on its side of it are.
    Excluded(Bytes),
}

impl Clone for KeyBound {
    ghost is_clone = { λ bound copy. copy ≡ bound };

    fn clone(&self) -> Result<KeyBound, AllocError> {
        Ok(match self {
            KeyBound::Unbounded => KeyBound::Unbounded,
            KeyBound::Included(key) => KeyBound::Included(key.clone()?),
            KeyBound::Excluded(key) => KeyBound::Excluded(key.clone()?),
        })
    }
}

/// A range of keys, by its two bounds. Bounds that cross hold no key.
#[derive(Debug, PartialEq, Eq, Drop)]
pub struct ByteRange {
    pub low: KeyBound,
    pub high: KeyBound,
}

impl Clone for ByteRange {
    ghost is_clone = { λ range copy. copy ≡ range };

    fn clone(&self) -> Result<ByteRange, AllocError> {
        Ok(ByteRange {
            low: self.low.clone()?,
            high: self.high.clone()?,
        })
    }
}

impl ByteRange {
    /// The range of all keys. It takes no memory.
    pub fn full() -> ByteRange
        ensures bounds { result ≡ record { low = KeyBound.Unbounded; high = KeyBound.Unbounded } }
        ensures keys { (key : List ℕ) → contains result key ≡ true }
    {
        ByteRange {
            low: KeyBound::Unbounded,
            high: KeyBound::Unbounded,
        }
    }

    /// The range of all keys with a prefix.
    pub fn prefix(alloc: Global, prefix: &[u8]) -> Result<ByteRange, NoMemory>
        ensures bounds { IfOk result (λ range. range ≡ with_prefix prefix.now (record { low = KeyBound.Unbounded; high = KeyBound.Unbounded })) }
        ensures keys { IfOk result (λ range. (key : List ℕ) → AreBytes key →
            (IsTrue (contains range key) ↔ ((suffix : List ℕ) × (key ≡ prefix.now ++ suffix)))) }
    {
        ByteRange::prefix_and_subrange(alloc, prefix, &ByteRange::full())
    }

    /// The range of the keys that are the prefix and then a suffix in `subrange`. Without a low bound of the suffixes
    /// it begins at the prefix itself, and without a high one it goes to the end of the prefix.
    pub fn prefix_and_subrange(
        alloc: Global,
        prefix: &[u8],
        subrange: &ByteRange,
    ) -> Result<ByteRange, NoMemory>
        ensures bounds { IfOk result (λ range. range ≡ with_prefix prefix.now subrange.now) }
        ensures keys { IfOk result (λ range. (key : List ℕ) → AreBytes key →
            (IsTrue (contains range key) ↔ ((suffix : List ℕ) × (key ≡ prefix.now ++ suffix) × IsTrue (contains subrange.now suffix)))) }
    {
        Ok(ByteRange {
            low: low_with_prefix(alloc, prefix, &subrange.low)?,
            high: high_with_prefix(alloc, prefix, &subrange.high)?,
        })
    }

    /// Whether a key is within both bounds. It takes no memory.
    pub fn contains(&self, key: &[u8]) -> bool
        ensures { result ≡ contains self.now key.now }
    {
        is_above(&self.low, key) && is_below(&self.high, key)
    }
}

/// Whether a key is within a low bound.
fn is_above(low: &KeyBound, key: &[u8]) -> bool
    ensures { result ≡ is_above low.now key.now }
{
    match low {
        KeyBound::Unbounded => true,
        KeyBound::Included(bound) => bound.as_slice().cmp(key).is_le(),
        KeyBound::Excluded(bound) => bound.as_slice().cmp(key).is_lt(),
    }
}

/// Whether a key is within a high bound.
fn is_below(high: &KeyBound, key: &[u8]) -> bool
    ensures { result ≡ is_below high.now key.now }
{
    match high {
        KeyBound::Unbounded => true,
        KeyBound::Included(bound) => key.cmp(bound.as_slice()).is_le(),
        KeyBound::Excluded(bound) => key.cmp(bound.as_slice()).is_lt(),
    }
}

/// A low bound of suffixes, behind a prefix.
fn low_with_prefix(alloc: Global, prefix: &[u8], bound: &KeyBound) -> Result<KeyBound, NoMemory>
    ensures { IfOk result (λ low. low ≡ low_with_prefix prefix.now bound.now) }
{
    Ok(match bound {
        KeyBound::Unbounded => KeyBound::Included(Bytes::copy_from_slice(alloc, prefix)?),
        KeyBound::Included(suffix) => KeyBound::Included(joined(alloc, prefix, suffix)?),
        KeyBound::Excluded(suffix) => KeyBound::Excluded(joined(alloc, prefix, suffix)?),
    })
}

/// A high bound of suffixes, behind a prefix.
fn high_with_prefix(alloc: Global, prefix: &[u8], bound: &KeyBound) -> Result<KeyBound, NoMemory>
    ensures { IfOk result (λ high. high ≡ high_with_prefix prefix.now bound.now) }
{
    match bound {
        KeyBound::Unbounded => end_of_prefix(alloc, prefix),
        KeyBound::Included(suffix) => Ok(KeyBound::Included(joined(alloc, prefix, suffix)?)),
        KeyBound::Excluded(suffix) => Ok(KeyBound::Excluded(joined(alloc, prefix, suffix)?)),
    }
}

/// The bytes of both, one after the other.
pub(crate) fn joined(alloc: Global, front: &[u8], back: &Bytes) -> Result<Bytes, NoMemory>
    ensures { IfOk result (λ bytes. bytes ≡ front.now ++ back.now) }
{
    let mut bytes = Vec::with_capacity(alloc, front.len() + back.len())?;
    bytes.extend_from_slice(front)?;
    bytes.extend_from_slice(back.as_slice())?;
    Ok(Bytes::from_vec(bytes)?)
}

/// The high bound of the keys with a prefix.
#[tactic(auto, using(crate::proofs::Prefixes::end_of_prefix_push))]
fn end_of_prefix(alloc: Global, prefix: &[u8]) -> Result<KeyBound, NoMemory>
    ensures { IfOk result (λ bound. bound ≡ below (end_of_prefix prefix.now)) }
{
    let mut end = Vec::from_slice(alloc, prefix)?;
    while let Some(last) = end.pop() {
        if last < u8::MAX {
            end.push(last + 1)?;
            return Ok(KeyBound::Excluded(Bytes::from_vec(end)?));
        }
    }
    Ok(KeyBound::Unbounded)
}
