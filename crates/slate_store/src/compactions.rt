// Joining the tables of a database into one.
ghost use Rattle.std.specs.Prelude.{◌≡◌, ◌+◌, ◌<◌, ◌≤◌, ℕ, IfErr, IfOk, IfSome, IsSome, length};
ghost use Rattle.slate_store.specs.Calls.{WhereModelled};
ghost use Rattle.slate_store.specs.Compaction.{Compacts, HasTablesToJoin, compact_calls, with_table};
ghost use Rattle.slate_store.specs.Content.{AreStored};
ghost use Rattle.slate_store.specs.Objects.{PutManifest, PutTable};
ghost use Rattle.slate_store.specs.Refusals.{CountsFaults, IsOfCompaction, IsOfPuts, KeepsContent};
ghost use Rattle.slate_store.specs.Steps.{AddsBatches, Joins, PlansJoin, PutsBoth, WasOpened};

use crate::{Manifest, Store, StoreRefusal, TableId, VersionedManifest, read_latest};
use slate_reads::{IndexedTable, Table};
use slate_types::{Batch, NoMemory, Seq};
use std::alloc::Global;

/// Joins the tables of the latest manifest into one, by a writer of this epoch, and commits a manifest that names that
/// one alone; it answers that manifest. Where there are fewer than two tables, nothing is put, and it answers the latest
/// manifest. No batch is dropped, and the tables that were joined stay stored.
///
/// The new table has the id of this epoch and `next_index`. That one is raised by one where two tables or more were
/// joined, before the new one is put, and else stays. It answers `LatestTransactionalObjectVersionMissing` where no manifest is stored; `Fenced` where the latest one
/// has a greater epoch; `InvalidDBState` where there are tables to join, and the manifest's id or the index is the
/// greatest `u64`, or the batches of the tables don't come one after another; `ObjectStoreError` with `NotFound` where a
/// table isn't stored; and `TransactionalObjectVersionExists` where a table or a manifest is stored under the new id.
/// After a refusal nothing was put, but after the last one, a fault or want of memory, when the table may be stored, or
/// it and the manifest. Over any store it refuses by one of these.
///
/// It calls the store at most three times and once for each table, and once where there is nothing to join or no manifest
/// is stored. It takes time linear in the operations of the tables, with a logarithm of the keys for each key, and copies
/// no keys and no values.
pub fn compact_tables<S: Store>(
    alloc: Global,
    store: &mut S,
    epoch: u64,
    next_index: &mut u64,
) -> Result<VersionedManifest, StoreRefusal>
    ensures compacts { WhereModelled (λ o o'. (made : ℕ) × Compacts epoch next_index.old next_index.new o result made o') (S.objects store.old) (S.objects store.new) }
    ensures read { IfOk result (λ _. IfSome (S.objects store.old) HasTablesToJoin) }
    ensures index { (next_index.old ≤ next_index.new) × (next_index.new ≤ next_index.old + 1) }
    ensures sound { WhereModelled (λ o o'. WasOpened epoch o → KeepsContent o o') (S.objects store.old) (S.objects store.new) }
    ensures faults { CountsFaults (S.faults store.old) (S.faults store.new) result }
    ensures calls { IfSome (S.objects store.old) (λ o. S.calls store.new ≤ S.calls store.old + compact_calls o) }
    ensures kind { IfErr result IsOfCompaction }
{
    compact(alloc, store, epoch, next_index)
}

/// Joins the tables, and says of it what is put.
fn compact<S: Store>(
    alloc: Global,
    store: &mut S,
    epoch: u64,
    next_index: &mut u64,
) -> Result<VersionedManifest, StoreRefusal>
    ensures compacts { WhereModelled (λ o o'. (made : ℕ) × Compacts epoch next_index.old next_index.new o result made o') (S.objects store.old) (S.objects store.new) }
    ensures read { IfOk result (λ _. IfSome (S.objects store.old) HasTablesToJoin) }
    ensures index { (next_index.old ≤ next_index.new) × (next_index.new ≤ next_index.old + 1) }
    ensures faults { CountsFaults (S.faults store.old) (S.faults store.new) result }
    ensures calls { IfSome (S.objects store.old) (λ o. S.calls store.new ≤ S.calls store.old + compact_calls o) }
    ensures kind { IfErr result IsOfCompaction }
{
    let id = TableId {
        epoch,
        index: *next_index,
    };
    let (manifest, table) = join(alloc, store, id)?;
    let Some(table) = table else {
        return Ok(manifest);
    };
    *next_index += 1;
    put_both(alloc, store, id, &table, &manifest)?;
    Ok(manifest)
}

/// The manifest that is the latest after a compaction into a table with this id, and that table, where there are two to
/// join or more. Nothing is put.
fn join<S: Store>(
    alloc: Global,
    store: &mut S,
    id: TableId,
) -> Result<(VersionedManifest, Option<Table>), StoreRefusal>
    ensures kept { S.objects store.new ≡ S.objects store.old }
    ensures plans { IfSome (S.objects store.old) (λ o. PlansJoin id o result) }
    ensures read { IfOk result (λ _. IfSome (S.objects store.old) HasTablesToJoin) }
    ensures index { IfOk result (λ plan. IsSome plan.1 → id.index < u64.MAX) }
    ensures faults { CountsFaults (S.faults store.old) (S.faults store.new) result }
    ensures calls { IfSome (S.objects store.old) (λ o. S.calls store.new ≤ S.calls store.old + compact_calls o) }
    ensures puts { IfOk result (λ plan. IsSome plan.1 → IfSome (S.objects store.old) (λ o. S.calls store.new + 2 ≤ S.calls store.old + compact_calls o)) }
    ensures kind { IfErr result IsOfCompaction }
{
    let latest = read_latest(alloc, store)?;
    if latest.manifest.writer_epoch > id.epoch {
        return Err(StoreRefusal::Fenced);
    }
    if latest.manifest.tables.as_slice().len() < 2 {
        return Ok((latest, None));
    }
    if id.index == u64::MAX || latest.id == u64::MAX {
        return Err(StoreRefusal::InvalidDBState);
    }
    let table = join_tables(alloc, store, latest.manifest.tables.as_slice())?;
    Ok((naming(alloc, latest, id)?, Some(table)))
}

/// Reads tables, and joins their batches in this order.
fn join_tables<S: Store>(
    alloc: Global,
    store: &mut S,
    ids: &[TableId],
) -> Result<Table, StoreRefusal>
    ensures kept { S.objects store.new ≡ S.objects store.old }
    ensures joins { IfSome (S.objects store.old) (λ o. Joins ids.now o result) }
    ensures read { IfOk result (λ _. IfSome (S.objects store.old) (λ o. AreStored o ids.now)) }
    ensures faults { CountsFaults (S.faults store.old) (S.faults store.new) result }
    ensures calls { S.calls store.new ≤ S.calls store.old + length ids.now }
    ensures kind { IfErr result IsOfCompaction }
{
    let mut joined = IndexedTable::new(alloc);
    for id in ids {
        let table = store.read_table(alloc, *id)?;
        add_copies(&mut joined, table.batches())?;
    }
    match Table::new(alloc, joined) {
        Ok(table) => Ok(table),
        Err(_joined) => Err(StoreRefusal::NoMemory),
    }
}

/// Adds copies of batches. It refuses those whose numbers don't go on rising.
fn add_copies(table: &mut IndexedTable, batches: &[Batch]) -> Result<(), StoreRefusal>
    ensures { AddsBatches table.old batches.now result table.new }
{
    for batch in batches {
        if !table.is_above_last(batch.number) {
            return Err(StoreRefusal::InvalidDBState);
        }
        if table.push(batch.clone().map_err(NoMemory::from)?).is_err() {
            return Err(StoreRefusal::NoMemory);
        }
    }
    Ok(())
}

/// The manifest after the latest one that names this table alone.
fn naming(
    alloc: Global,
    latest: VersionedManifest,
    id: TableId,
) -> Result<VersionedManifest, StoreRefusal>
    requires { latest.id < u64.MAX }
    ensures ok { IfOk result (λ next. next ≡ with_table id latest) }
    ensures err { IfErr result (λ refusal. refusal ≡ StoreRefusal.NoMemory) }
{
    let Ok(tables) = vec![in alloc; id] else {
        return Err(StoreRefusal::NoMemory);
    };
    Ok(VersionedManifest {
        id: latest.id + 1,
        manifest: Manifest {
            tables: Seq::of(tables),
            ..latest.manifest
        },
    })
}

/// Puts a table, and then a manifest.
fn put_both<S: Store>(
    alloc: Global,
    store: &mut S,
    id: TableId,
    table: &Table,
    next: &VersionedManifest,
) -> Result<(), StoreRefusal>
    ensures puts { WhereModelled (λ o o'. (made : ℕ) × PutsBoth (PutTable id table.now) (PutManifest next.now.id next.now.manifest) result made o o') (S.objects store.old) (S.objects store.new) }
    ensures faults { CountsFaults (S.faults store.old) (S.faults store.new) result }
    ensures calls { S.calls store.new ≤ S.calls store.old + 2 }
    ensures kind { IfErr result IsOfPuts }
{
    store.put_table(alloc, id, table)?;
    store.put_manifest(alloc, next.id, &next.manifest)?;
    Ok(())
}
