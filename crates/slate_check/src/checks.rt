// Looking at all of a store.
ghost use Rattle.std.specs.Prelude.{◌≡◌, ◌-◌, ◌≤◌, IfErr, IfOk, IfSome, All, MatchOption, MatchResult, None, Some, Err};
ghost use Rattle.slate_types.specs.Counts.{HasRisen};
ghost use Rattle.slate_types.specs.Line.{IsLine};
ghost use Rattle.slate_store.specs.Calls.{IsOfList};
ghost use Rattle.slate_store.specs.Content.{IdsRise, IsPinned, content};
ghost use Rattle.slate_store.specs.Objects.{Objects, latest_manifest, listing_of};
ghost use Rattle.slate_check.specs.Faults.{IsFirstUnpinned, IsJudged, UnpinnedBy};
ghost use Rattle.slate_check.specs.Named.{line_of};
ghost use Rattle.slate_check.specs.Reads.{AreOf};
ghost use Rattle.slate_check.specs.Steps.{AreLoaded, FitsIds, HasContent, IsLoaded, IsOrdered, KeepsAll, KeepsNot, last_id};

use crate::ids::{are_rising, are_tables_rising, find_above, find_kept_twice, last_gapless};
use crate::named::Named;
use crate::reads::{Cache, Loaded};
use crate::{CheckpointFault, ManifestFault, Soundness, SoundnessFault};
use slate_store::{Checkpoint, Listing, Manifest, Store, StoreError, VersionedManifest};
use slate_types::NoMemory;
use std::alloc::Global;
use uuid::Uuid;

/// Whether the objects of a store are sound, as handles leave them; where they aren't, what is the first that is wrong,
/// in the order of `SoundnessFault`, and inside a manifest in that of `ManifestFault`. No object is put or removed.
///
/// It answers `Failed` where the store failed in one of the calls, and `NoMemory`, and nothing else. It lists the store,
/// reads the latest manifest, and then each manifest that a checkpoint keeps, and each table and log file that one of
/// these names, once, up to the first fault. A damaged object is a failure of the store.
///
/// It takes memory for the tables that these manifests name and for the log files above their replay marks, which it
/// shares with the store, and for a reference to each batch that one of them names; and time linear in the
/// operations that each of these manifests names, and in the ids.
pub fn check_soundness<S: Store>(alloc: Global, store: &mut S) -> Result<Soundness, StoreError>
    ensures judged { IfSome (S.objects store.old) (λ objects. IfOk result (IsJudged objects)) }
    ensures kept { S.objects store.new ≡ S.objects store.old }
    ensures count { S.faults store.old ≤ S.faults store.new }
    ensures failed { result ≡ Err StoreError.Failed → HasRisen (S.faults store.old) (S.faults store.new) }
    ensures refused { IfErr result IsOfList }
{
    check(alloc, store)
}

/// Looks at all of a store.
fn check<S: Store>(alloc: Global, store: &mut S) -> Result<Soundness, StoreError>
    ensures judged { (objects : Objects) → S.objects store.old ≡ Some objects → IfOk result (IsJudged objects) }
    ensures kept { S.objects store.new ≡ S.objects store.old }
    ensures count { S.faults store.old ≤ S.faults store.new }
    ensures failed { result ≡ Err StoreError.Failed → HasRisen (S.faults store.old) (S.faults store.new) }
    ensures refused { IfErr result IsOfList }
{
    let listing = store.list(alloc)?;
    let latest = store.latest_manifest(alloc)?;
    if let Some(fault) = find_disorder(&listing) {
        return Ok(Soundness::Unsound(fault));
    }
    let Some(latest) = latest else {
        return Ok(judge_without_manifest(&listing));
    };
    match check_ids(&listing, &latest) {
        Ok(last) => check_latest(alloc, store, &latest, last),
        Err(fault) => Ok(Soundness::Unsound(fault)),
    }
}

/// The first kind of objects whose ids don't rise.
fn find_disorder(listing: &Listing) -> Option<SoundnessFault>
    ensures { (objects : Objects) → listing.now ≡ listing_of objects → MatchOption result (IsOrdered objects) (λ fault. IsJudged objects (Soundness.Unsound fault)) }
{
    if !are_rising(listing.manifests.as_slice()) {
        return Some(SoundnessFault::ManifestIds);
    }
    if !are_rising(listing.logs.as_slice()) {
        return Some(SoundnessFault::LogIds);
    }
    if !are_tables_rising(listing.tables.as_slice()) {
        return Some(SoundnessFault::TableIds);
    }
    None
}

/// What is to be said of objects without a manifest.
fn judge_without_manifest(listing: &Listing) -> Soundness
    ensures { (objects : Objects) → listing.now ≡ listing_of objects → IsOrdered objects → latest_manifest objects ≡ None → IsJudged objects result }
{
    if listing.logs.as_slice().is_empty() && listing.tables.as_slice().is_empty() {
        Soundness::Sound(0)
    } else {
        Soundness::Unsound(SoundnessFault::NoManifest)
    }
}

/// The last log file, where no table has an epoch above that of the latest manifest, and the log files above its replay
/// mark have no gap.
fn check_ids(listing: &Listing, latest: &VersionedManifest) -> Result<u64, SoundnessFault>
    ensures { (objects : Objects) → listing.now ≡ listing_of objects → IsOrdered objects → latest_manifest objects ≡ Some latest.now →
        MatchResult result (λ last. FitsIds objects latest.now × (last ≡ last_id objects latest.now)) (λ fault. IsJudged objects (Soundness.Unsound fault)) }
{
    let manifest = &latest.manifest;
    if let Some(id) = find_above(listing.tables.as_slice(), manifest.writer_epoch) {
        return Err(SoundnessFault::TableEpoch(id));
    }
    match last_gapless(listing.logs.as_slice(), manifest.replay_after_wal_id) {
        Ok(last) => Ok(last),
        Err(after) => Err(SoundnessFault::LogGap(after)),
    }
}

/// Looks at what the latest manifest and its checkpoints name, where this is the last log file.
fn check_latest<S: Store>(
    alloc: Global,
    store: &mut S,
    latest: &VersionedManifest,
    last: u64,
) -> Result<Soundness, StoreError>
    ensures judged { (objects : Objects) → S.objects store.old ≡ Some objects → FitsIds objects latest.now → last ≡ last_id objects latest.now → IfOk result (IsJudged objects) }
    ensures kept { S.objects store.new ≡ S.objects store.old }
    ensures count { S.faults store.old ≤ S.faults store.new }
    ensures failed { result ≡ Err StoreError.Failed → HasRisen (S.faults store.old) (S.faults store.new) }
    ensures refused { IfErr result IsOfList }
{
    let mut cache = Cache::new(alloc);
    let manifest = &latest.manifest;
    let reach = last.max(manifest.next_wal_id.saturating_sub(1));
    match cache.load(alloc, store, manifest, reach)? {
        Ok(loaded) => check_loaded(alloc, store, &mut cache, latest, &loaded),
        Err(fault) => Ok(Soundness::Unsound(SoundnessFault::Manifest(latest.id, fault))),
    }
}

/// Looks at the content, and at what the checkpoints name.
fn check_loaded<S: Store>(
    alloc: Global,
    store: &mut S,
    cache: &mut Cache,
    latest: &VersionedManifest,
    loaded: &Loaded,
) -> Result<Soundness, StoreError>
    ensures judged { (objects : Objects) → S.objects store.old ≡ Some objects → AreOf objects cache.old.tables.entries cache.old.logs.entries →
        IsLoaded objects latest.now loaded.now.tables loaded.now.logs → IfOk result (IsJudged objects) }
    ensures kept { S.objects store.new ≡ S.objects store.old }
    ensures count { S.faults store.old ≤ S.faults store.new }
    ensures failed { result ≡ Err StoreError.Failed → HasRisen (S.faults store.old) (S.faults store.new) }
    ensures refused { IfErr result IsOfList }
{
    let manifest = &latest.manifest;
    let Some(line) = Named::new(
        alloc,
        manifest.last_l0_seq,
        loaded.tables.as_slice(),
        loaded.logs.as_slice(),
    )?
    else {
        return Ok(Soundness::Unsound(SoundnessFault::Manifest(
            latest.id,
            ManifestFault::TablesEnd,
        )));
    };
    if let Some(number) = line.find_unnumbered() {
        return Ok(Soundness::Unsound(SoundnessFault::Numbers(number)));
    }
    if let Some(id) = find_kept_twice(alloc, manifest.checkpoints.as_slice())? {
        return Ok(Soundness::Unsound(SoundnessFault::CheckpointTwice(id)));
    }
    if let Some((id, fault)) = find_unpinned(alloc, store, cache, latest, &line)? {
        return Ok(Soundness::Unsound(SoundnessFault::Checkpoint(id, fault)));
    }
    Ok(Soundness::Sound(line.end()))
}

/// The first checkpoint that isn't pinned, where there is one, by the manifest that it keeps, and why.
fn find_unpinned<S: Store>(
    alloc: Global,
    store: &mut S,
    cache: &mut Cache,
    latest: &VersionedManifest,
    line: &Named,
) -> Result<Option<(u64, CheckpointFault)>, StoreError>
    ensures found { (objects : Objects) → S.objects store.old ≡ Some objects → AreOf objects cache.old.tables.entries cache.old.logs.entries →
        HasContent objects latest.now (line_of line.now.floor line.now.batches.items) →
        IfOk result (λ found. MatchOption found (All (IsPinned objects latest.now) latest.now.manifest.checkpoints) (λ fault. IsFirstUnpinned objects latest.now fault.0 fault.1)) }
    ensures kept { S.objects store.new ≡ S.objects store.old }
    ensures count { S.faults store.old ≤ S.faults store.new }
    ensures failed { result ≡ Err StoreError.Failed → HasRisen (S.faults store.old) (S.faults store.new) }
    ensures refused { IfErr result IsOfList }
{
    for checkpoint in latest.manifest.checkpoints.as_slice() {
        if let Some(fault) = checkpoint_fault(alloc, store, cache, latest, line, checkpoint)? {
            return Ok(Some((checkpoint.manifest_id, fault)));
        }
    }
    Ok(None)
}

/// Why a checkpoint isn't pinned, where it isn't.
fn checkpoint_fault<S: Store>(
    alloc: Global,
    store: &mut S,
    cache: &mut Cache,
    latest: &VersionedManifest,
    line: &Named,
    checkpoint: &Checkpoint,
) -> Result<Option<CheckpointFault>, StoreError>
    ensures of { (objects : Objects) → S.objects store.old ≡ Some objects → AreOf objects cache.old.tables.entries cache.old.logs.entries → AreOf objects cache.new.tables.entries cache.new.logs.entries }
    ensures found { (objects : Objects) → S.objects store.old ≡ Some objects → AreOf objects cache.old.tables.entries cache.old.logs.entries →
        HasContent objects latest.now (line_of line.now.floor line.now.batches.items) →
        IfOk result (λ found. MatchOption found (IsPinned objects latest.now checkpoint.now) (UnpinnedBy objects latest.now checkpoint.now)) }
    ensures kept { S.objects store.new ≡ S.objects store.old }
    ensures count { S.faults store.old ≤ S.faults store.new }
    ensures failed { result ≡ Err StoreError.Failed → HasRisen (S.faults store.old) (S.faults store.new) }
    ensures refused { IfErr result IsOfList }
{
    let id = checkpoint.manifest_id;
    if checkpoint.id != Uuid::from_u128(u128::from(id)) {
        return Ok(Some(CheckpointFault::Id));
    }
    if id > latest.id {
        return Ok(Some(CheckpointFault::Above));
    }
    if id == latest.id {
        return kept_fault(alloc, store, cache, &latest.manifest, line);
    }
    match store.read_manifest(alloc, id) {
        Ok(manifest) => kept_fault(alloc, store, cache, &manifest, line),
        Err(StoreError::NotFound) => Ok(Some(CheckpointFault::Missing)),
        Err(error) => Err(error),
    }
}

/// What a manifest lacks that a checkpoint keeps, or that it doesn't begin the content.
fn kept_fault<S: Store>(
    alloc: Global,
    store: &mut S,
    cache: &mut Cache,
    manifest: &Manifest,
    line: &Named,
) -> Result<Option<CheckpointFault>, StoreError>
    ensures of { (objects : Objects) → S.objects store.old ≡ Some objects → AreOf objects cache.old.tables.entries cache.old.logs.entries → AreOf objects cache.new.tables.entries cache.new.logs.entries }
    ensures found { (objects : Objects) → S.objects store.old ≡ Some objects → AreOf objects cache.old.tables.entries cache.old.logs.entries →
        line_of line.now.floor line.now.batches.items ≡ content objects →
        IfOk result (λ found. MatchOption found (KeepsAll objects manifest.now) (KeepsNot objects manifest.now)) }
    ensures kept { S.objects store.new ≡ S.objects store.old }
    ensures count { S.faults store.old ≤ S.faults store.new }
    ensures failed { result ≡ Err StoreError.Failed → HasRisen (S.faults store.old) (S.faults store.new) }
    ensures refused { IfErr result IsOfList }
{
    let last = manifest.next_wal_id.saturating_sub(1);
    let loaded = match cache.load(alloc, store, manifest, last)? {
        Ok(loaded) => loaded,
        Err(fault) => return Ok(Some(CheckpointFault::Manifest(fault))),
    };
    Ok(compare(alloc, manifest, &loaded, line)?)
}

/// What a manifest lacks that a checkpoint keeps, where its tables and log files were read, or that it doesn't begin
/// the content.
fn compare(
    alloc: Global,
    manifest: &Manifest,
    loaded: &Loaded,
    line: &Named,
) -> Result<Option<CheckpointFault>, NoMemory>
    ensures { (objects : Objects) → AreLoaded objects manifest.now (manifest.now.next_wal_id - 1) loaded.now.tables loaded.now.logs →
        line_of line.now.floor line.now.batches.items ≡ content objects →
        IfOk result (λ found. MatchOption found (KeepsAll objects manifest.now) (KeepsNot objects manifest.now)) }
{
    let tables = loaded.tables.as_slice();
    let logs = loaded.logs.as_slice();
    let Some(named) = Named::new(alloc, manifest.last_l0_seq, tables, logs)? else {
        return Ok(Some(CheckpointFault::Manifest(ManifestFault::TablesEnd)));
    };
    if named.begins(line) {
        Ok(None)
    } else {
        Ok(Some(CheckpointFault::Content))
    }
}
