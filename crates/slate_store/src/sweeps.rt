// Removing what neither the latest manifest nor a checkpoint needs.
ghost use Rattle.std.specs.Prelude.{◌≡◌, ◌+◌, ◌≤◌, List, ◌==◌, ℕ, IfErr, IfOk, IfSome, map, filter, length, nat_lt, not, ◌∷◌};
ghost use Rattle.std.specs.List.{list_any};
ghost use Rattle.std.specs.Ordering.{eq_by_cmp};
ghost use Rattle.slate_types.specs.declared.batches.Batch.{Batch};
ghost use Rattle.slate_store.specs.Calls.{WhereModelled};
ghost use Rattle.slate_store.specs.Checkpoints.{is_expired};
ghost use Rattle.slate_store.specs.Objects.{Objects, RemoveLog, RemoveManifest, RemoveTable, listing_of, table_cmp};
ghost use Rattle.slate_store.specs.Refusals.{CountsFaults, IsOfStore, IsOfSweep, IsOfToSweep, KeepsContent};
ghost use Rattle.slate_store.specs.Steps.{FindsUnprotected, GivesUnexpired, Makes, ReadsKept, RemovesUnprotected, TakesOut, ToSweep, removals_of};
ghost use Rattle.slate_store.specs.Sweeps.{Sweeps, expiries, keeps_log, keeps_manifest, keeps_table, protecting, removals, sweep_calls};

use crate::checkpoints::{next_id, with_checkpoints};
use crate::{
    Checkpoint, Listing, Manifest, Store, StoreRefusal, TableId, VersionedManifest, read_latest,
};
use slate_types::{NoMemory, Seq};
use std::alloc::{AllocError, Global};

/// Removes what isn't protected at a moment, in milliseconds, and answers how many objects it removed. Protected are the
/// latest manifest, the manifests that its checkpoints keep, the tables of all these, and the log files above the replay
/// mark of any. Where the latest manifest has expired checkpoints, it first commits a manifest without them.
///
/// It answers `LatestTransactionalObjectVersionMissing` where no manifest is stored; `InvalidDBState` where a checkpoint
/// is expired and the latest id is the greatest `u64`; `TransactionalObjectVersionExists` where another manifest was put
/// first; and `ObjectStoreError` with `NotFound` where the manifest of a checkpoint isn't stored. After the first three
/// nothing was changed. After any other refusal some first ones of its changes may be made, in this order: the manifest,
/// then the removals of tables, of log files and of manifests, each in the order of the store's list. Over any store it
/// refuses by one of these, by a fault or by `NoMemory`.
///
/// It calls the store at most twice, once where a checkpoint is expired, once for each checkpoint that isn't, and once for
/// each object that it removes; and once where no manifest is stored. It takes time linear in the objects, times the checkpoints and their tables.
pub fn sweep<S: Store>(alloc: Global, store: &mut S, moment: i64) -> Result<u64, StoreRefusal>
    ensures sweeps { WhereModelled (λ o o'. (made : ℕ) × Sweeps moment o result made o') (S.objects store.old) (S.objects store.new) }
    ensures sound { WhereModelled KeepsContent (S.objects store.old) (S.objects store.new) }
    ensures faults { CountsFaults (S.faults store.old) (S.faults store.new) result }
    ensures calls { IfSome (S.objects store.old) (λ o. S.calls store.new ≤ S.calls store.old + sweep_calls moment o) }
    ensures kind { IfErr result IsOfSweep }
{
    let latest = read_latest(alloc, store)?;
    let latest = take_out_expired(alloc, store, &latest, moment)?.unwrap_or(latest);
    remove_unprotected(alloc, store, &latest)
}

/// The objects that a sweep at a moment, in milliseconds, would remove: those that aren't protected once the expired
/// checkpoints are taken out, each kind in the order of the store's list. It changes nothing.
///
/// It answers `LatestTransactionalObjectVersionMissing` where no manifest is stored; `InvalidDBState` where a checkpoint is
/// expired and the latest id is the greatest `u64`; and `ObjectStoreError`, with `NotFound` where the manifest of a checkpoint
/// isn't stored. Over any store it refuses by one of these, or by `NoMemory`. It calls the store at most twice, and once for
/// each checkpoint that isn't expired, and takes time linear in the objects, times the checkpoints and their tables.
pub fn to_sweep<S: Store>(
    alloc: Global,
    store: &mut S,
    moment: i64,
) -> Result<Listing, StoreRefusal>
    ensures kept { S.objects store.new ≡ S.objects store.old }
    ensures finds { IfSome (S.objects store.old) (λ o. ToSweep moment o result) }
    ensures faults { CountsFaults (S.faults store.old) (S.faults store.new) result }
    ensures calls { IfSome (S.objects store.old) (λ o. S.calls store.new ≤ S.calls store.old + sweep_calls moment o) }
    ensures kind { IfErr result IsOfToSweep }
{
    let latest = read_latest(alloc, store)?;
    let latest = without_expired(alloc, &latest, moment)?.unwrap_or(latest);
    find_unprotected(alloc, store, &latest)
}

/// Commits a manifest without the expired checkpoints, where there are any, and answers it.
fn take_out_expired<S: Store>(
    alloc: Global,
    store: &mut S,
    latest: &VersionedManifest,
    moment: i64,
) -> Result<Option<VersionedManifest>, StoreRefusal>
    ensures takes_out { WhereModelled (λ o o'. (made : ℕ) × TakesOut moment latest.now o result made o') (S.objects store.old) (S.objects store.new) }
    ensures faults { CountsFaults (S.faults store.old) (S.faults store.new) result }
    ensures calls { S.calls store.new ≤ S.calls store.old + length (expiries {L = List Batch} moment latest.now) }
    ensures kind { IfErr result IsOfSweep }
{
    let Some(next) = without_expired(alloc, latest, moment)? else {
        return Ok(None);
    };
    store.put_manifest(alloc, next.id, &next.manifest)?;
    Ok(Some(next))
}

/// The manifest after the latest one that has no expired checkpoints, where that one has any.
fn without_expired(
    alloc: Global,
    latest: &VersionedManifest,
    moment: i64,
) -> Result<Option<VersionedManifest>, StoreRefusal>
    ensures { GivesUnexpired moment latest.now result }
{
    let checkpoints = latest.manifest.checkpoints.as_slice();
    if !has_expired(checkpoints, moment) {
        return Ok(None);
    }
    let id = next_id(latest)?;
    let kept = unexpired(alloc, checkpoints, moment)?;
    Ok(Some(with_checkpoints(latest, id, kept)?))
}

/// Whether one of the checkpoints is expired.
fn has_expired(checkpoints: &[Checkpoint], moment: i64) -> bool
    ensures { result ≡ list_any (is_expired moment) checkpoints.now }
{
    checkpoints
        .iter()
        .any(|checkpoint| is_expired(checkpoint, moment))
}

/// Whether the lease of a checkpoint is over at a moment.
fn is_expired(checkpoint: &Checkpoint, moment: i64) -> bool
    ensures { result ≡ is_expired moment checkpoint.now }
{
    checkpoint.expire_ms.is_some_and(|end| end < moment)
}

/// The checkpoints that aren't expired.
fn unexpired(
    alloc: Global,
    checkpoints: &[Checkpoint],
    moment: i64,
) -> Result<Vec<Checkpoint>, NoMemory>
    ensures { IfOk result (λ kept. kept.items ≡ filter (λ checkpoint. not (is_expired moment checkpoint)) checkpoints.now) }
{
    let kept = checkpoints.iter().copied();
    Ok(
        kept.filter(|checkpoint| !is_expired(checkpoint, moment))
            .collect(alloc)?,
    )
}

/// Removes the objects that aren't protected, where this is the latest manifest, and answers how many.
fn remove_unprotected<S: Store>(
    alloc: Global,
    store: &mut S,
    latest: &VersionedManifest,
) -> Result<u64, StoreRefusal>
    ensures removes { WhereModelled (RemovesUnprotected latest.now result) (S.objects store.old) (S.objects store.new) }
    ensures faults { CountsFaults (S.faults store.old) (S.faults store.new) result }
    ensures calls { IfSome (S.objects store.old) (λ o. S.calls store.new ≤ S.calls store.old + 1 + length latest.now.manifest.checkpoints + length (removals latest.now o)) }
    ensures kind { IfErr result IsOfToSweep }
{
    let unprotected = find_unprotected(alloc, store, latest)?;
    remove_all(alloc, store, &unprotected)?;
    Ok(count_of(&unprotected))
}

/// The objects that aren't protected, where this is the latest manifest.
fn find_unprotected<S: Store>(
    alloc: Global,
    store: &mut S,
    latest: &VersionedManifest,
) -> Result<Listing, StoreRefusal>
    ensures kept { S.objects store.new ≡ S.objects store.old }
    ensures finds { IfSome (S.objects store.old) (λ o. FindsUnprotected latest.now o result) }
    ensures faults { CountsFaults (S.faults store.old) (S.faults store.new) result }
    ensures calls { S.calls store.new ≤ S.calls store.old + 1 + length latest.now.manifest.checkpoints }
    ensures kind { IfErr result IsOfToSweep }
{
    let kept = read_kept(alloc, store, latest.manifest.checkpoints.as_slice())?;
    let listing = store.list(alloc)?;
    let protection = Protection {
        latest,
        kept: kept.as_slice(),
    };
    Ok(protection.unprotected(alloc, &listing)?)
}

/// Reads the manifests of the checkpoints.
fn read_kept<S: Store>(
    alloc: Global,
    store: &mut S,
    checkpoints: &[Checkpoint],
) -> Result<Seq<Manifest>, StoreRefusal>
    ensures kept { S.objects store.new ≡ S.objects store.old }
    ensures reads { IfSome (S.objects store.old) (λ o. ReadsKept checkpoints.now o result) }
    ensures faults { CountsFaults (S.faults store.old) (S.faults store.new) result }
    ensures calls { S.calls store.new ≤ S.calls store.old + length checkpoints.now }
    ensures kind { IfErr result IsOfToSweep }
{
    let mut kept = Vec::new(alloc);
    for checkpoint in checkpoints {
        let manifest = store.read_manifest(alloc, checkpoint.manifest_id)?;
        kept.push(manifest).map_err(NoMemory::from)?;
    }
    Ok(Seq::of(kept))
}

/// The manifests that protect what they name: the latest one, and those that its checkpoints keep.
#[derive(Clone, Copy)]
struct Protection<'a> {
    latest: &'a VersionedManifest,
    kept: &'a [Manifest],
}

impl<'a> Protection<'a> {
    fn keeps_manifest(&self, id: u64) -> bool
        ensures { result ≡ keeps_manifest self.now.latest.now id }
    {
        id == self.latest.id || is_kept(self.latest.manifest.checkpoints.as_slice(), id)
    }

    fn keeps_log(&self, id: u64) -> bool
        ensures { result ≡ keeps_log (self.now.latest.now.manifest ∷ self.now.kept.now) id }
    {
        self.latest.manifest.replay_after_wal_id < id || is_above_any(self.kept, id)
    }

    fn keeps_table(&self, id: TableId) -> bool
        ensures { result ≡ keeps_table (self.now.latest.now.manifest ∷ self.now.kept.now) id }
    {
        is_named(&self.latest.manifest, id) || is_named_by_any(self.kept, id)
    }

    /// The listed objects that aren't protected.
    fn unprotected(&self, alloc: Global, listing: &Listing) -> Result<Listing, NoMemory>
        ensures { IfOk result (λ unprotected. (o : Objects) → listing.now ≡ listing_of o
            → self.now.latest.now.manifest ∷ self.now.kept.now ≡ protecting self.now.latest.now o
            → removals_of unprotected ≡ removals self.now.latest.now o) }
    {
        Ok(Listing {
            manifests: Seq::of(self.unkept_manifests(alloc, listing.manifests.as_slice())?),
            logs: Seq::of(self.unkept_logs(alloc, listing.logs.as_slice())?),
            tables: Seq::of(self.unkept_tables(alloc, listing.tables.as_slice())?),
        })
    }

    fn unkept_manifests(&self, alloc: Global, ids: &[u64]) -> Result<Vec<u64>, AllocError>
        ensures { IfOk result (λ unkept. unkept.items ≡ filter (λ id. not (keeps_manifest self.now.latest.now id)) ids.now) }
    {
        ids.iter()
            .copied()
            .filter(|id| !self.keeps_manifest(*id))
            .collect(alloc)
    }

    fn unkept_logs(&self, alloc: Global, ids: &[u64]) -> Result<Vec<u64>, AllocError>
        ensures { IfOk result (λ unkept. unkept.items ≡ filter (λ id. not (keeps_log (self.now.latest.now.manifest ∷ self.now.kept.now) id)) ids.now) }
    {
        ids.iter()
            .copied()
            .filter(|id| !self.keeps_log(*id))
            .collect(alloc)
    }

    fn unkept_tables(&self, alloc: Global, ids: &[TableId]) -> Result<Vec<TableId>, AllocError>
        ensures { IfOk result (λ unkept. unkept.items ≡ filter (λ id. not (keeps_table (self.now.latest.now.manifest ∷ self.now.kept.now) id)) ids.now) }
    {
        ids.iter()
            .copied()
            .filter(|id| !self.keeps_table(*id))
            .collect(alloc)
    }
}

/// Whether one of the checkpoints keeps the manifest with this id.
fn is_kept(checkpoints: &[Checkpoint], id: u64) -> bool
    ensures { result ≡ list_any (λ checkpoint. checkpoint.manifest_id == id) checkpoints.now }
{
    checkpoints
        .iter()
        .any(|checkpoint| checkpoint.manifest_id == id)
}

/// Whether a log file with this id is above the replay mark of one of the manifests.
fn is_above_any(manifests: &[Manifest], id: u64) -> bool
    ensures { result ≡ list_any (λ manifest. nat_lt manifest.replay_after_wal_id id) manifests.now }
{
    manifests
        .iter()
        .any(|manifest| manifest.replay_after_wal_id < id)
}

/// Whether one of the manifests names the table.
fn is_named_by_any(manifests: &[Manifest], id: TableId) -> bool
    ensures { result ≡ list_any (λ manifest. list_any (eq_by_cmp table_cmp id) manifest.tables) manifests.now }
{
    manifests.iter().any(|manifest| is_named(manifest, id))
}

/// Whether the manifest names the table.
fn is_named(manifest: &Manifest, id: TableId) -> bool
    ensures { result ≡ list_any (eq_by_cmp table_cmp id) manifest.now.tables }
{
    manifest
        .tables
        .as_slice()
        .iter()
        .any(|table| id.cmp(table).is_eq())
}

/// Removes the listed objects: tables, then log files, then manifests.
fn remove_all<S: Store>(alloc: Global, store: &mut S, listing: &Listing) -> Result<(), StoreRefusal>
    ensures made { WhereModelled (Makes (removals_of listing.now) result) (S.objects store.old) (S.objects store.new) }
    ensures faults { CountsFaults (S.faults store.old) (S.faults store.new) result }
    ensures calls { S.calls store.new ≤ S.calls store.old + length (removals_of listing.now) }
    ensures kind { IfErr result IsOfStore }
{
    remove_tables(alloc, store, listing.tables.as_slice())?;
    remove_logs(alloc, store, listing.logs.as_slice())?;
    remove_manifests(alloc, store, listing.manifests.as_slice())
}

fn remove_tables<S: Store>(
    alloc: Global,
    store: &mut S,
    ids: &[TableId],
) -> Result<(), StoreRefusal>
    ensures made { WhereModelled (Makes (map (λ id. RemoveTable id) ids.now) result) (S.objects store.old) (S.objects store.new) }
    ensures faults { CountsFaults (S.faults store.old) (S.faults store.new) result }
    ensures calls { S.calls store.new ≤ S.calls store.old + length ids.now }
    ensures kind { IfErr result IsOfStore }
{
    for id in ids {
        store.remove_table(alloc, *id)?;
    }
    Ok(())
}

fn remove_logs<S: Store>(alloc: Global, store: &mut S, ids: &[u64]) -> Result<(), StoreRefusal>
    ensures made { WhereModelled (Makes (map (λ id. RemoveLog id) ids.now) result) (S.objects store.old) (S.objects store.new) }
    ensures faults { CountsFaults (S.faults store.old) (S.faults store.new) result }
    ensures calls { S.calls store.new ≤ S.calls store.old + length ids.now }
    ensures kind { IfErr result IsOfStore }
{
    for id in ids {
        store.remove_log(alloc, *id)?;
    }
    Ok(())
}

fn remove_manifests<S: Store>(alloc: Global, store: &mut S, ids: &[u64]) -> Result<(), StoreRefusal>
    ensures made { WhereModelled (Makes (map (λ id. RemoveManifest id) ids.now) result) (S.objects store.old) (S.objects store.new) }
    ensures faults { CountsFaults (S.faults store.old) (S.faults store.new) result }
    ensures calls { S.calls store.new ≤ S.calls store.old + length ids.now }
    ensures kind { IfErr result IsOfStore }
{
    for id in ids {
        store.remove_manifest(alloc, *id)?;
    }
    Ok(())
}

/// How many objects are listed.
fn count_of(listing: &Listing) -> u64
    ensures { result ≡ length (removals_of listing.now) }
{
    let tables = listing.tables.as_slice().len() as u64;
    let logs = listing.logs.as_slice().len() as u64;
    tables + logs + listing.manifests.as_slice().len() as u64
}
