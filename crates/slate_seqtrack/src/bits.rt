// Writing bits to bytes, reading them back, and extending signs.
ghost use Rattle.std.specs.Prelude.{◌≡◌, ℕ, ◌+◌, ◌*◌, ◌/◌, ◌%◌, ◌^◌, ◌<◌, ◌≤◌, ◌∷◌, [], ◌++◌, length, OnOk, OnErr, IfOk, MatchOption};
ghost use Rattle.std.specs.Vec.{vec_len, vec_capacity};
ghost use Rattle.slate_seqtrack.specs.Bits.{low_bits, signed, bits_of, IsPadded};

use slate_types::NoMemory;
use std::alloc::Global;
use std::marker::Model;

/// Collects bits to bytes, the most significant bit of a byte first. A contract sees the bits that were pushed.
/// SlateDB's `BitWriter`.
#[derive(Debug, Drop)]
pub struct BitWriter {
    bytes: Vec<u8>,
    /// The bits that don't fill a byte yet are the low `count` ones.
    pending: u8,
    count: u8,
}

impl Model for BitWriter {
    ghost use Rattle.std.specs.Prelude.{List, Bool, ◌++◌, ◌<◌};

    ghost Value = { List Bool };

    ghost use Rattle.slate_seqtrack.specs.Bits.{low_bits, bits_of};

    ghost view = { λ w. bits_of w.bytes.items ++ low_bits w.count w.pending };

    ghost invariant = { λ w. w.count < 8 };
}

impl BitWriter {
    /// A writer without bits. It takes no memory.
    pub fn new(alloc: Global) -> BitWriter
        ensures { result ≡ [] }
    {
        BitWriter {
            bytes: Vec::new(alloc),
            pending: 0,
            count: 0,
        }
    }

    /// Adds a bit. Where memory ran out the bits are as before.
    pub fn push(&mut self, bit: bool) -> Result<(), NoMemory>
        ensures ok { OnOk result (self.new ≡ self.old ++ bit ∷ []) }
        ensures err { OnErr result (self.new ≡ self.old) }
    {
        self.push64(u64::from(bit), 1)
    }

    /// Adds so many low bits of a number, the most significant one first. Where memory ran out the bits are as before.
    pub fn push32(&mut self, value: u32, bits: u8) -> Result<(), NoMemory>
        requires { bits ≤ 32 }
        ensures ok { OnOk result (self.new ≡ self.old ++ low_bits bits value) }
        ensures err { OnErr result (self.new ≡ self.old) }
    {
        self.push64(u64::from(value), bits)
    }

    /// Adds so many low bits of a number, the most significant one first. Where memory ran out the bits are as before.
    pub fn push64(&mut self, value: u64, bits: u8) -> Result<(), NoMemory>
        requires { bits ≤ 64 }
        ensures ok { OnOk result (self.new ≡ self.old ++ low_bits bits value) }
        ensures err { OnErr result (self.new ≡ self.old) }
    {
        self.bytes.reserve(9)?;
        let low = u128::from(value) & ((1 << bits) - 1);
        let word = (u128::from(self.pending) << bits) | low;
        let count = self.count + bits;
        self.pending = push_word(&mut self.bytes, word, count);
        self.count = count % 8;
        Ok(())
    }

    /// The bytes of the bits; the last byte is filled with zero bits.
    pub fn finish(self) -> Result<Vec<u8>, NoMemory>
        ensures { IfOk result (λ bytes. IsPadded self bytes.items) }
    {
        let mut bytes = self.bytes;
        if self.count > 0 {
            bytes.push(self.pending << (8 - self.count))?;
        }
        Ok(bytes)
    }
}

/// Adds the whole bytes among so many low bits of a word, and answers the word of the bits that are left.
fn push_word(bytes: &mut Vec<u8>, word: u128, count: u8) -> u8
    requires few { count ≤ 71 }
    requires room { vec_len bytes.old + count / 8 ≤ vec_capacity bytes.old }
    ensures { bits_of bytes.new.items ++ low_bits (count % 8) result ≡ bits_of bytes.old.items ++ low_bits count word }
{
    let mut left = count;
    while left >= 8 {
        left -= 8;
        bytes.push_reserved(((word >> left) % 256) as u8);
    }
    (word % 256) as u8
}

/// Reads the bits of bytes, the most significant bit of a byte first. A contract sees the bits that are left. SlateDB's
/// `BitReader`.
#[derive(Debug, Drop)]
pub struct BitReader<'a> {
    bytes: &'a [u8],
    /// The bits that are left of the byte before `bytes` are the low `count` ones.
    pending: u8,
    count: u8,
}

impl<'a> Model for BitReader<'a> {
    ghost use Rattle.std.specs.Prelude.{List, Bool, ◌++◌, ◌<◌};

    ghost Value = { List Bool };

    ghost use Rattle.slate_seqtrack.specs.Bits.{low_bits, bits_of};

    ghost view = { λ r. low_bits r.count r.pending ++ bits_of r.bytes.now };

    ghost invariant = { λ r. r.count < 8 };
}

impl<'a> BitReader<'a> {
    /// A reader of all bits of these bytes.
    pub fn new(buf: &'a [u8]) -> BitReader<'a>
        ensures { result ≡ bits_of buf.now }
    {
        BitReader {
            bytes: buf,
            pending: 0,
            count: 0,
        }
    }

    /// The next bit; None exactly where there is none. It takes no memory.
    pub fn read_bit(&mut self) -> Option<bool>
        ensures { MatchOption result ((self.old ≡ []) × (self.new ≡ [])) (λ bit. self.old ≡ bit ∷ self.new) }
    {
        if self.count == 0 {
            let Some((first, rest)) = self.bytes.split_first() else {
                return None;
            };
            self.bytes = rest;
            self.pending = *first;
            self.count = 7;
            return Some(*first >= 128);
        }
        self.count -= 1;
        Some((self.pending >> self.count) % 2 == 1)
    }

    /// The number of the next so many bits, the most significant one first; None exactly where fewer are left, and then
    /// all are used. It takes no memory.
    pub fn read32(&mut self, bits: u8) -> Option<u32>
        requires { bits ≤ 32 }
        ensures { MatchOption result ((length self.old < bits) × (self.new ≡ []))
            (λ value. (self.old ≡ low_bits bits value ++ self.new) × (value < 2 ^ bits)) }
    {
        let value = self.read64(bits)?;
        Some(value as u32)
    }

    /// The number of the next so many bits, the most significant one first; None exactly where fewer are left, and then
    /// all are used. It takes no memory.
    pub fn read64(&mut self, bits: u8) -> Option<u64>
        requires { bits ≤ 64 }
        ensures { MatchOption result ((length self.old < bits) × (self.new ≡ []))
            (λ value. (self.old ≡ low_bits bits value ++ self.new) × (value < 2 ^ bits)) }
    {
        let Some((word, count, rest)) = take_word(self.bytes, self.pending, self.count, bits) else {
            self.bytes = &[];
            self.count = 0;
            return None;
        };
        self.bytes = rest;
        self.pending = (word % 256) as u8;
        self.count = count;
        Some(((word >> count) & ((1 << bits) - 1)) as u64)
    }

    /// How many whole bytes are left.
    pub(crate) fn whole_bytes(&self) -> usize
        ensures { result ≡ length self.now / 8 }
    {
        self.bytes.len()
    }
}

/// A word whose low bits are those that are pending and those of as many bytes as so many bits ask for; how many more
/// than those it has; and the bytes after them. None where the bytes end first.
fn take_word(bytes: &[u8], pending: u8, count: u8, bits: u8) -> Option<(u128, u8, &[u8])>
    requires few { bits ≤ 64 }
    requires partial { count < 8 }
    ensures { MatchOption result (count + 8 * length bytes.now < bits) (λ taken. (taken.1 < 8)
        × (low_bits (bits + taken.1) taken.0 ++ bits_of taken.2.now ≡ low_bits count pending ++ bits_of bytes.now)) }
{
    let mut word = u128::from(pending);
    let mut have = count;
    let mut rest = bytes;
    while have < bits {
        let (byte, after) = rest.split_first()?;
        word = (word << 8) | u128::from(*byte);
        have += 8;
        rest = after;
    }
    Some((word, have - bits, rest))
}

/// The number that so many low bits are in two's complement. SlateDB's `sign_extend`.
pub fn sign_extend(val: u32, bits: u8) -> i32
    requires some { 0 < bits }
    requires few { bits ≤ 32 }
    ensures { result ≡ signed bits (val % 2 ^ bits) }
{
    let half = 1u64 << (bits - 1);
    let low = u64::from(val) & (2 * half - 1);
    if low < half {
        low as i32
    } else {
        (low as i64 - (2 * half) as i64) as i32
    }
}
