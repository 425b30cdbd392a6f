// The head of an object, and whole objects.
ghost use Rattle.std.specs.Prelude.{◌≡◌, IfOk, length, ◌<◌, ◌^◌, ◌++◌, OnOk};
ghost use Rattle.slate_objects.specs.Checksum.{crc32};
ghost use Rattle.slate_objects.specs.Reading.{GivesDecoded, IsBytes, ReadsFront, word_at};
ghost use Rattle.slate_objects.specs.Sealing.{body_in, checked, head_at, kind_at, object_in, sealed, version_at, whole};
ghost use Rattle.slate_objects.specs.Spelling.{word};

use crate::checksums::crc32;
use crate::faults::{DecodeError, DecodeFault};
use crate::formats::{Format, read_u64};
use bytes::{Buf, Bytes};
use slate_types::NoMemory;
use std::alloc::Global;

/// How many bytes the head of an object has at most.
const HEAD: usize = 22;

/// What the head of an object says of its body.
#[derive(Clone, Copy, Debug, PartialEq, Eq)]
pub(crate) struct Head {
    pub(crate) length: u64,
    pub(crate) sum: u32,
}

/// Takes a number of four bytes from the front.
#[tactic(auto, unfolding(crate::specs::Reading::word_at))]
fn read_u32(bytes: &mut Bytes) -> Result<u32, DecodeError>
    ensures { ReadsFront result bytes.new (word_at bytes.old) }
{
    match bytes.try_get_u32() {
        Ok(number) => Ok(number),
        Err(_) => Err(DecodeError::Fault(DecodeFault::TooShort)),
    }
}

/// Takes the kind of an object from the front.
#[tactic(auto, unfolding(crate::specs::Sealing::kind_at))]
fn read_kind(kind: u32, bytes: &mut Bytes) -> Result<u32, DecodeError>
    ensures { ReadsFront result bytes.new (kind_at kind bytes.old) }
{
    let found = read_u32(bytes)?;
    if found == kind {
        Ok(found)
    } else {
        Err(DecodeError::Fault(DecodeFault::AnotherKind))
    }
}

/// Takes the version of an object from the front.
#[tactic(auto, unfolding(crate::specs::Sealing::version_at))]
fn read_version(version: u32, bytes: &mut Bytes) -> Result<u32, DecodeError>
    ensures { ReadsFront result bytes.new (version_at version bytes.old) }
{
    let found = read_u32(bytes)?;
    if found == version {
        Ok(found)
    } else {
        Err(DecodeError::Fault(DecodeFault::AnotherVersion { found }))
    }
}

impl Head {
    /// Takes the head of an object of this kind and version from the front.
    #[tactic(auto, unfolding(crate::specs::Sealing::head_at))]
    fn read(kind: u32, version: u32, bytes: &mut Bytes) -> Result<Head, DecodeError>
        ensures { ReadsFront result bytes.new (head_at kind version bytes.old) }
    {
        read_kind(kind, bytes)?;
        read_version(version, bytes)?;
        let length = read_u64(bytes)?;
        let sum = read_u32(bytes)?;
        Ok(Head { length, sum })
    }

    /// Whether a body is the one that the head speaks of.
    #[tactic(auto, unfolding(crate::specs::Sealing::checked))]
    fn check(&self, body: &[u8]) -> Result<(), DecodeError>
        ensures { GivesDecoded result (checked self.now body.now) }
    {
        let length = body.len() as u64;
        if length < self.length {
            return Err(DecodeError::Fault(DecodeFault::TooShort));
        }
        if self.length < length {
            return Err(DecodeError::Fault(DecodeFault::Trailing));
        }
        if self.sum == crc32(body) {
            Ok(())
        } else {
            Err(DecodeError::Fault(DecodeFault::Checksum))
        }
    }
}

/// Does nothing: its contract says what the type of a byte says.
fn note_bytes(bytes: &[u8])
    ensures { IsBytes bytes.now }
{}

/// The body of an object of this kind and version.
#[tactic(auto, unfolding(crate::specs::Sealing::body_in))]
pub(crate) fn open_body(kind: u32, version: u32, bytes: Bytes) -> Result<Bytes, DecodeError>
    ensures read { GivesDecoded result (body_in kind version bytes) }
    ensures are_bytes { IsBytes bytes }
{
    note_bytes(bytes.as_slice());
    let mut rest = bytes;
    let head = Head::read(kind, version, &mut rest)?;
    head.check(rest.as_slice())?;
    Ok(rest)
}

/// What was read, where these bytes are left after it, which is to be none.
#[tactic(auto, unfolding(crate::specs::Sealing::whole))]
pub(crate) fn whole<T: Drop>(value: T, rest: &Bytes) -> Result<T, DecodeError>
    ensures { GivesDecoded result (whole (value, rest.now)) }
{
    if rest.is_empty() {
        Ok(value)
    } else {
        Err(DecodeError::Fault(DecodeFault::Trailing))
    }
}

/// The object of this kind and version that the bytes are.
#[tactic(auto, unfolding(crate::specs::Sealing::object_in))]
pub(crate) fn open<T: Format + Drop>(
    alloc: Global,
    kind: u32,
    version: u32,
    bytes: Bytes,
) -> Result<T, DecodeError>
    ensures read { GivesDecoded result (object_in T.read_at kind version bytes) }
    ensures are_bytes { IsBytes bytes }
{
    let mut rest = open_body(kind, version, bytes)?;
    let value = T::read(alloc, &mut rest)?;
    whole(value, &rest)
}

/// Appends a number in four bytes.
#[tactic(auto, unfolding(crate::specs::Spelling::word))]
fn write_u32(number: u32, out: &mut Vec<u8>) -> Result<(), NoMemory>
    ensures { OnOk result (out.new.items ≡ out.old.items ++ word number) }
{
    Ok(out.extend_from_slice(&number.to_be_bytes())?)
}

/// The bytes of an object with this body.
pub(crate) fn seal(alloc: Global, kind: u32, version: u32, body: &[u8]) -> Result<Vec<u8>, NoMemory>
    ensures sealed { IfOk result (λ bytes. bytes.items ≡ sealed kind version body.now) }
    ensures sum { IfOk result (λ bytes. crc32 body.now < 2 ^ 32) }
    ensures fits { length body.now < 2 ^ 64 }
{
    let sum = crc32(body);
    let mut out = Vec::with_capacity(alloc, HEAD.saturating_add(body.len()))?;
    write_u32(kind, &mut out)?;
    write_u32(version, &mut out)?;
    (body.len() as u64).write(&mut out)?;
    write_u32(sum, &mut out)?;
    out.extend_from_slice(body)?;
    Ok(out)
}
