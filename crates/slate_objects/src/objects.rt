// Manifests, log files and tables as bytes, and back.
ghost use Rattle.std.specs.Prelude.{◌≡◌, Ok, IfOk};
ghost use Rattle.slate_objects.specs.Batches.{batch_at, batch_of};
ghost use Rattle.slate_objects.specs.Manifests.{untracked_at};
ghost use Rattle.slate_objects.specs.Objects.{IsSpelling, log_bytes, log_in, manifest_bytes, manifest_in, manifest_kind, table_bytes, table_in, untracked_version, version};
ghost use Rattle.slate_objects.specs.Reading.{GivesDecoded, list_at};
ghost use Rattle.slate_objects.specs.Sealing.{has_version, object_in, sealed};
ghost use Rattle.slate_objects.specs.Spelling.{list_of};

use crate::faults::DecodeError;
use crate::formats::{Format, write_list};
use crate::manifests::read_untracked;
use crate::seals::{open, open_body, seal, whole};
use bytes::Bytes;
use slate_store::Manifest;
use slate_types::{Batch, NoMemory, Seq};
use std::alloc::Global;

/// The first four bytes of a manifest, `HTNM`.
const MANIFEST: u32 = 0x4854_4e4d;

/// The first four bytes of a log file, `HTNW`.
const LOG: u32 = 0x4854_4e57;

/// The first four bytes of a table, `HTNT`.
const TABLE: u32 = 0x4854_4e54;

/// The version of the format of manifests that is written.
const MANIFEST_VERSION: u32 = 2;

/// The one before, in which a manifest has no tracker.
const UNTRACKED_VERSION: u32 = 1;

/// The version of the format of log files and tables.
const VERSION: u32 = 1;

/// The bytes of a manifest, which `decode_manifest` reads as the same manifest. It takes time linear in them.
#[tactic(auto, unfolding(crate::specs::Objects::manifest_bytes))]
pub fn encode_manifest(alloc: Global, manifest: &Manifest) -> Result<Vec<u8>, NoMemory>
    ensures bytes { IfOk result (λ bytes. bytes.items ≡ manifest_bytes manifest.now) }
    ensures again { IfOk result (λ bytes. manifest_in bytes.items ≡ Ok manifest.now) }
{
    let mut body = Vec::new(alloc);
    manifest.write(&mut body)?;
    seal(alloc, MANIFEST, MANIFEST_VERSION, body.as_slice())
}

/// The manifest that the bytes are. Those of a manifest that was written before manifests had a tracker are read as one
/// without a tracker. Any other bytes but those of `encode_manifest` are refused with the first fault from the left. It
/// takes time linear in the bytes, and memory by what they have, whatever a length or a count in them says. The prefixes
/// share the bytes.
#[tactic(auto, unfolding(crate::specs::Objects::manifest_in))]
pub fn decode_manifest(alloc: Global, bytes: Bytes) -> Result<Manifest, DecodeError>
    ensures read { GivesDecoded result (manifest_in bytes) }
    ensures only { IfOk result (λ manifest. IsSpelling manifest bytes) }
{
    if has_version(UNTRACKED_VERSION, &bytes) {
        decode_untracked(alloc, bytes)
    } else {
        open(alloc, MANIFEST, MANIFEST_VERSION, bytes)
    }
}

/// Whether an object says of itself that it is in this version of its format.
fn has_version(version: u32, bytes: &Bytes) -> bool
    ensures { result ≡ has_version version bytes.now }
{
    match bytes
        .as_slice()
        .get(4..8)
        .and_then(|word| word.first_chunk::<4>())
    {
        Some(word) => u32::from_be_bytes(*word) == version,
        None => false,
    }
}

/// The manifest of the earlier version that the bytes are.
#[tactic(auto, unfolding(crate::specs::Sealing::object_in))]
fn decode_untracked(alloc: Global, bytes: Bytes) -> Result<Manifest, DecodeError>
    ensures read { GivesDecoded result (object_in untracked_at manifest_kind untracked_version bytes) }
    ensures only { IfOk result (λ manifest. IsSpelling manifest bytes) }
{
    let mut rest = open_body(MANIFEST, UNTRACKED_VERSION, bytes)?;
    let manifest = read_untracked(alloc, &mut rest)?;
    whole(manifest, &rest)
}

/// The bytes of a log file with these batches, which `decode_log` reads as the same batches. It takes time linear in
/// them.
#[tactic(auto, unfolding(crate::specs::Objects::log_bytes, crate::specs::Objects::log_in))]
pub fn encode_log(alloc: Global, batches: &[Batch]) -> Result<Vec<u8>, NoMemory>
    ensures bytes { IfOk result (λ bytes. bytes.items ≡ log_bytes batches.now) }
    ensures again { IfOk result (λ bytes. log_in bytes.items ≡ Ok batches.now) }
{
    encode_batches(alloc, LOG, batches)
}

/// The batches of the log file that the bytes are. Any bytes but those of `encode_log` are refused with the first fault
/// from the left. It takes time linear in the bytes, and memory by what they have, whatever a length or a count in them
/// says. Keys and values share the bytes.
#[tactic(auto, unfolding(crate::specs::Objects::log_bytes, crate::specs::Objects::log_in))]
pub fn decode_log(alloc: Global, bytes: Bytes) -> Result<Seq<Batch>, DecodeError>
    ensures read { GivesDecoded result (log_in bytes) }
    ensures only { IfOk result (λ batches. bytes ≡ log_bytes batches) }
{
    decode_batches(alloc, LOG, bytes)
}

/// The bytes of a table with these batches, which `decode_table` reads as the same batches. It takes time linear in
/// them.
#[tactic(auto, unfolding(crate::specs::Objects::table_bytes, crate::specs::Objects::table_in))]
pub fn encode_table(alloc: Global, batches: &[Batch]) -> Result<Vec<u8>, NoMemory>
    ensures bytes { IfOk result (λ bytes. bytes.items ≡ table_bytes batches.now) }
    ensures again { IfOk result (λ bytes. table_in bytes.items ≡ Ok batches.now) }
{
    encode_batches(alloc, TABLE, batches)
}

/// The batches of the table that the bytes are. Any bytes but those of `encode_table` are refused with the first fault
/// from the left. It takes time linear in the bytes, and memory by what they have, whatever a length or a count in them
/// says. Keys and values share the bytes.
#[tactic(auto, unfolding(crate::specs::Objects::table_bytes, crate::specs::Objects::table_in))]
pub fn decode_table(alloc: Global, bytes: Bytes) -> Result<Seq<Batch>, DecodeError>
    ensures read { GivesDecoded result (table_in bytes) }
    ensures only { IfOk result (λ batches. bytes ≡ table_bytes batches) }
{
    decode_batches(alloc, TABLE, bytes)
}

/// The bytes of an object of this kind with these batches.
fn encode_batches(alloc: Global, kind: u32, batches: &[Batch]) -> Result<Vec<u8>, NoMemory>
    ensures bytes { IfOk result (λ bytes. bytes.items ≡ sealed kind version (list_of batch_of batches.now)) }
    ensures again { IfOk result (λ bytes. object_in (list_at batch_at) kind version bytes.items ≡ Ok batches.now) }
{
    let mut body = Vec::new(alloc);
    write_list(batches, &mut body)?;
    seal(alloc, kind, VERSION, body.as_slice())
}

/// The batches of the object of this kind that the bytes are.
fn decode_batches(alloc: Global, kind: u32, bytes: Bytes) -> Result<Seq<Batch>, DecodeError>
    ensures read { GivesDecoded result (object_in (list_at batch_at) kind version bytes) }
    ensures only { IfOk result (λ batches. bytes ≡ sealed kind version (list_of batch_of batches)) }
{
    open(alloc, kind, VERSION, bytes)
}
