// Manifests as bytes.
ghost use Rattle.std.specs.Prelude.{◌≡◌, ◌++◌, List, ℕ, OnOk, Result};
ghost use Rattle.slate_objects.specs.Manifests.{CheckpointFits, FieldsFit, FlagFits, ManifestFits, NameFits, TableIdFits, UuidFits, field_parts, untracked_at, untracked_of};
ghost use Rattle.slate_objects.specs.Manifests.{checkpoint_at, checkpoint_of, flag_at, flag_of, manifest_at, manifest_of, name_at, name_in, table_id_at, table_id_of, uuid_at, uuid_of};
ghost use Rattle.slate_objects.specs.Reading.{GivesDecoded, ReadsFront};
ghost use Rattle.slate_objects.specs.Spelling.{bytes_of};

use crate::faults::{DecodeError, DecodeFault};
use crate::formats::{Format, read_tag};
use bytes::Bytes;
use slate_store::{Checkpoint, Manifest, TableId};
use slate_types::{Name, NoMemory, Seq};
use std::alloc::Global;
use uuid::Uuid;

impl Format for bool {
    ghost read_at = { flag_at };

    ghost spelled = { flag_of };

    ghost Fits = { FlagFits };

    #[tactic(auto, unfolding(crate::specs::Manifests::flag_at))]
    fn read(alloc: Global, bytes: &mut Bytes) -> Result<bool, DecodeError> {
        match read_tag(bytes)? {
            0 => Ok(false),
            1 => Ok(true),
            tag => Err(DecodeError::Fault(DecodeFault::UnknownTag { tag })),
        }
    }

    fn write(&self, out: &mut Vec<u8>) -> Result<(), NoMemory> {
        Ok(out.push(u8::from(*self))?)
    }
}

impl Format for Uuid {
    ghost read_at = { uuid_at };

    ghost spelled = { uuid_of };

    ghost Fits = { UuidFits };

    #[tactic(auto, unfolding(crate::specs::Manifests::uuid_at))]
    fn read(alloc: Global, bytes: &mut Bytes) -> Result<Uuid, DecodeError> {
        if bytes.len() < 16 {
            return Err(DecodeError::Fault(DecodeFault::TooShort));
        }
        let front = bytes.split_to(16)?;
        match Uuid::from_slice(front.as_slice()) {
            Ok(id) => Ok(id),
            Err(_) => Err(DecodeError::Fault(DecodeFault::TooShort)),
        }
    }

    fn write(&self, out: &mut Vec<u8>) -> Result<(), NoMemory> {
        Ok(out.extend_from_slice(self.as_bytes())?)
    }
}

/// The name that these bytes are.
#[tactic(auto, unfolding(crate::specs::Manifests::name_in))]
fn name_in(alloc: Global, bytes: &[u8]) -> Result<Name, DecodeError>
    ensures { GivesDecoded result (name_in bytes.now) }
{
    match std::str::from_utf8(bytes) {
        Ok(text) => Ok(Name::of(String::from_str(alloc, text)?)),
        Err(_) => Err(DecodeError::Fault(DecodeFault::NotText)),
    }
}

impl Format for Name {
    ghost read_at = { name_at };

    ghost spelled = { bytes_of };

    ghost Fits = { NameFits };

    #[tactic(auto, unfolding(crate::specs::Manifests::name_at))]
    fn read(alloc: Global, bytes: &mut Bytes) -> Result<Name, DecodeError> {
        let found = Bytes::read(alloc, bytes)?;
        let name = name_in(alloc, found.as_slice())?;
        Ok(name)
    }

    fn write(&self, out: &mut Vec<u8>) -> Result<(), NoMemory> {
        let text = self.as_str();
        (text.len() as u64).write(out)?;
        Ok(out.extend_from_slice(text.as_bytes())?)
    }
}

impl Format for TableId {
    ghost read_at = { table_id_at };

    ghost spelled = { table_id_of };

    ghost Fits = { TableIdFits };

    #[tactic(auto, unfolding(crate::specs::Manifests::table_id_at))]
    fn read(alloc: Global, bytes: &mut Bytes) -> Result<TableId, DecodeError> {
        let epoch = u64::read(alloc, bytes)?;
        let index = u64::read(alloc, bytes)?;
        Ok(TableId { epoch, index })
    }

    fn write(&self, out: &mut Vec<u8>) -> Result<(), NoMemory> {
        self.epoch.write(out)?;
        self.index.write(out)
    }
}

impl Format for Checkpoint {
    ghost read_at = { checkpoint_at };

    ghost spelled = { checkpoint_of };

    ghost Fits = { CheckpointFits };

    #[tactic(auto, unfolding(crate::specs::Manifests::checkpoint_at))]
    fn read(alloc: Global, bytes: &mut Bytes) -> Result<Checkpoint, DecodeError> {
        let id = Uuid::read(alloc, bytes)?;
        let manifest_id = u64::read(alloc, bytes)?;
        let create_ms = i64::read(alloc, bytes)?;
        let expire_ms = Option::<i64>::read(alloc, bytes)?;
        Ok(Checkpoint {
            id,
            manifest_id,
            create_ms,
            expire_ms,
        })
    }

    fn write(&self, out: &mut Vec<u8>) -> Result<(), NoMemory> {
        self.id.write(out)?;
        self.manifest_id.write(out)?;
        self.create_ms.write(out)?;
        self.expire_ms.write(out)
    }
}

/// Takes the fields of a manifest but for its tracker from the front.
#[tactic(auto, unfolding(crate::specs::Manifests::untracked_at))]
pub(crate) fn read_untracked(alloc: Global, bytes: &mut Bytes) -> Result<Manifest, DecodeError>
    ensures { ReadsFront result bytes.new (untracked_at bytes.old) }
{
    let writer_epoch = u64::read(alloc, bytes)?;
    let initialized = bool::read(alloc, bytes)?;
    let tables = Seq::<TableId>::read(alloc, bytes)?;
    let last_l0_seq = u64::read(alloc, bytes)?;
    let last_tick = i64::read(alloc, bytes)?;
    let replay_after_wal_id = u64::read(alloc, bytes)?;
    let next_wal_id = u64::read(alloc, bytes)?;
    let checkpoints = Seq::<Checkpoint>::read(alloc, bytes)?;
    let segments = Seq::<Bytes>::read(alloc, bytes)?;
    let extractor_name = Option::<Name>::read(alloc, bytes)?;
    Ok(Manifest {
        writer_epoch,
        initialized,
        tables,
        last_l0_seq,
        last_tick,
        replay_after_wal_id,
        next_wal_id,
        checkpoints,
        segments,
        extractor_name,
        sequence_tracker: None,
    })
}

/// Appends the bytes of the fields of a manifest but for its tracker.
fn write_untracked(manifest: &Manifest, out: &mut Vec<u8>) -> Result<(), NoMemory>
    ensures { OnOk result ((out.new.items ≡ out.old.items ++ untracked_of manifest.now) × FieldsFit (field_parts manifest.now)) }
{
    manifest.writer_epoch.write(out)?;
    manifest.initialized.write(out)?;
    manifest.tables.write(out)?;
    manifest.last_l0_seq.write(out)?;
    manifest.last_tick.write(out)?;
    manifest.replay_after_wal_id.write(out)?;
    manifest.next_wal_id.write(out)?;
    manifest.checkpoints.write(out)?;
    manifest.segments.write(out)?;
    manifest.extractor_name.write(out)
}

impl Format for Manifest {
    ghost read_at = { manifest_at };

    ghost spelled = { manifest_of };

    ghost Fits = { ManifestFits };

    #[tactic(auto, unfolding(crate::specs::Manifests::manifest_at))]
    fn read(alloc: Global, bytes: &mut Bytes) -> Result<Manifest, DecodeError> {
        let manifest = read_untracked(alloc, bytes)?;
        let sequence_tracker = Option::<Seq<u8>>::read(alloc, bytes)?;
        Ok(Manifest {
            sequence_tracker,
            ..manifest
        })
    }

    fn write(&self, out: &mut Vec<u8>) -> Result<(), NoMemory> {
        write_untracked(self, out)?;
        self.sequence_tracker.write(out)
    }
}
