// Checkpoints: manifests that are kept, with what they protect, until their leases end.
ghost use Rattle.std.specs.Prelude.{◌≡◌, ◌+◌, ◌<◌, ◌^◌, IfOk, IfErr, IsSome, filter, map, not, ok_or, if◌then◌else◌, nat_lt, Ok, Err, Some};
ghost use Rattle.slate_store.specs.Checkpoints.{checkpoint_id, found, has_id, lease_end, refreshed, to_delete, to_refresh, to_write, with_checkpoints, without_id};
ghost use Rattle.slate_store.specs.Refusals.{GivesManifest, GivesNext};

use crate::{Checkpoint, Manifest, StoreRefusal, VersionedManifest};
use slate_types::Seq;
use std::alloc::{AllocError, Global};
use uuid::Uuid;

/// The manifest that `write_checkpoint` puts after this latest one, and `replace_checkpoint` where the id of a
/// checkpoint to be replaced is given, with the new checkpoint. The checkpoint's id is, as a number, the manifest's.
///
/// The lease begins at `moment` and lasts `lifetime` milliseconds, to the greatest moment at most; without a lifetime it
/// has no end. It answers `InvalidDBState` where the latest id is the greatest `u64`, and `NoMemory`. It takes time
/// linear in the manifest.
pub fn next_with_checkpoint(
    alloc: Global,
    latest: &VersionedManifest,
    replaced: Option<Uuid>,
    lifetime: Option<u64>,
    moment: i64,
) -> Result<(VersionedManifest, Checkpoint), StoreRefusal>
    ensures { GivesNext (to_write replaced lifetime moment latest.now) result }
{
    let id = next_id(latest)?;
    let checkpoint = Checkpoint {
        id: Uuid::from_u128(u128::from(id)),
        manifest_id: id,
        create_ms: moment,
        expire_ms: lifetime.map(|lifetime| lease_end(moment, lifetime)),
    };
    let mut checkpoints = checkpoints_of(latest)?;
    if let Some(replaced) = replaced {
        take_out(&mut checkpoints, replaced);
    }
    checkpoints
        .push(checkpoint)
        .map_err(|_full| StoreRefusal::NoMemory)?;
    Ok((with_checkpoints(latest, id, checkpoints)?, checkpoint))
}

/// The manifest that `refresh_checkpoint` puts after this latest one, with the checkpoint as it is then: its lease ends
/// `lifetime` milliseconds after `moment`, at the greatest moment at most, and nothing else of it is changed.
///
/// It answers `CheckpointMissing` where the latest manifest has no checkpoint with this id, then `InvalidDBState` where
/// the latest id is the greatest `u64`, and `NoMemory`. It takes time linear in the manifest.
pub fn next_with_end(
    alloc: Global,
    latest: &VersionedManifest,
    id: Uuid,
    lifetime: u64,
    moment: i64,
) -> Result<(VersionedManifest, Checkpoint), StoreRefusal>
    ensures { GivesNext (to_refresh id lifetime moment latest.now) result }
{
    let Some(checkpoint) = find_checkpoint(latest, id) else {
        return Err(StoreRefusal::CheckpointMissing(id));
    };
    let next = next_id(latest)?;
    let end = lease_end(moment, lifetime);
    let checkpoints = latest.manifest.checkpoints.as_slice();
    let Ok(checkpoints) = with_ends(alloc, checkpoints, id, end) else {
        return Err(StoreRefusal::NoMemory);
    };
    let refreshed = Checkpoint {
        expire_ms: Some(end),
        ..checkpoint
    };
    Ok((with_checkpoints(latest, next, checkpoints)?, refreshed))
}

/// The manifest that `delete_checkpoint` puts after this latest one, which has a checkpoint with this id: it has it no
/// longer. It answers `InvalidDBState` where the latest id is the greatest `u64`, and `NoMemory`. It takes time linear
/// in the manifest.
pub fn next_without_checkpoint(
    alloc: Global,
    latest: &VersionedManifest,
    id: Uuid,
) -> Result<VersionedManifest, StoreRefusal>
    requires { IsSome (found id latest.now) }
    ensures { GivesManifest (to_delete id latest.now) result }
{
    let next = next_id(latest)?;
    let mut checkpoints = checkpoints_of(latest)?;
    take_out(&mut checkpoints, id);
    with_checkpoints(latest, next, checkpoints)
}

/// The first checkpoint of a manifest with this id, or None where none has it. It takes time linear in the checkpoints.
pub fn find_checkpoint(latest: &VersionedManifest, id: Uuid) -> Option<Checkpoint>
    ensures { result ≡ found id latest.now }
{
    latest
        .manifest
        .checkpoints
        .as_slice()
        .iter()
        .copied()
        .find(|checkpoint| has_id(checkpoint, id))
}

// Whether it is the checkpoint with this id.
fn has_id(checkpoint: &Checkpoint, id: Uuid) -> bool
    ensures { result ≡ has_id id checkpoint.now }
{
    checkpoint.id == id
}

// The id of the manifest after this one.
pub(crate) fn next_id(latest: &VersionedManifest) -> Result<u64, StoreRefusal>
    ensures { result ≡ (if nat_lt latest.now.id u64.MAX then Ok (latest.now.id + 1) else Err StoreRefusal.InvalidDBState) }
{
    latest.id.checked_add(1).ok_or(StoreRefusal::InvalidDBState)
}

// The end of a lease of so many milliseconds, at most the greatest moment.
fn lease_end(moment: i64, lifetime: u64) -> i64
    ensures { result ≡ lease_end moment lifetime }
{
    moment.checked_add_unsigned(lifetime).unwrap_or(i64::MAX)
}

// A copy of the checkpoints of a manifest.
fn checkpoints_of(latest: &VersionedManifest) -> Result<Vec<Checkpoint>, StoreRefusal>
    ensures ok { IfOk result (λ list. list.items ≡ latest.now.manifest.checkpoints) }
    ensures err { IfErr result (λ refusal. refusal ≡ StoreRefusal.NoMemory) }
{
    match latest.manifest.checkpoints.clone() {
        Ok(checkpoints) => Ok(checkpoints.into_vec()),
        Err(_full) => Err(StoreRefusal::NoMemory),
    }
}

// Takes out the checkpoints with this id.
fn take_out(checkpoints: &mut Vec<Checkpoint>, id: Uuid)
    ensures { checkpoints.new.items ≡ without_id id checkpoints.old.items }
{
    checkpoints.retain(|checkpoint| !has_id(checkpoint, id));
}

// The checkpoints, where the lease of one with this id ends at this moment.
fn with_ends(
    alloc: Global,
    checkpoints: &[Checkpoint],
    id: Uuid,
    end: i64,
) -> Result<Vec<Checkpoint>, AllocError>
    ensures { IfOk result (λ list. list.items ≡ map (refreshed id end) checkpoints.now) }
{
    checkpoints
        .iter()
        .map(|checkpoint| with_end(checkpoint, id, end))
        .collect(alloc)
}

// A checkpoint whose lease ends at this moment, where it has this id.
fn with_end(checkpoint: &Checkpoint, id: Uuid, end: i64) -> Checkpoint
    ensures { result ≡ refreshed id end checkpoint.now }
{
    if !has_id(checkpoint, id) {
        return *checkpoint;
    }
    Checkpoint {
        expire_ms: Some(end),
        ..*checkpoint
    }
}

// The manifest under this id with all of the latest one but its checkpoints, which are these.
pub(crate) fn with_checkpoints(
    latest: &VersionedManifest,
    id: u64,
    checkpoints: Vec<Checkpoint>,
) -> Result<VersionedManifest, StoreRefusal>
    ensures ok { IfOk result (λ next. next ≡ record { id = id; manifest = record latest.now.manifest { checkpoints = checkpoints.items } }) }
    ensures err { IfErr result (λ refusal. refusal ≡ StoreRefusal.NoMemory) }
{
    let Ok(manifest) = latest.manifest.clone() else {
        return Err(StoreRefusal::NoMemory);
    };
    Ok(VersionedManifest {
        id,
        manifest: Manifest {
            checkpoints: Seq::of(checkpoints),
            ..manifest
        },
    })
}
