// Reading the tables that a manifest names.
ghost use Rattle.std.specs.Prelude.{◌≡◌, ◌+◌, ◌≤◌, [], IfErr, IfOk, IfSome, Err, length};
ghost use Rattle.std.specs.List.{flat_map};
ghost use Rattle.slate_types.specs.declared.store_errors.StoreFault.TheVariants.{NotFound};
ghost use Rattle.slate_model.specs.Known.{FaultsRise};
ghost use Rattle.slate_model.specs.Recency.{AreEach};
ghost use Rattle.slate_model.specs.Tables.{AreJoined, AreStored};
ghost use Rattle.slate_replay.specs.Tables.{IsOfTables};

use slate_errors::SlateError;
use slate_reads::Table;
use slate_store::{Store, TableId};
use slate_types::NoMemory;
use std::alloc::Global;

/// The tables with these ids, in this order: joined, they have the batches that a read goes over before those in
/// memory. Without an id it answers none, and doesn't touch the store.
///
/// It calls the store once for each id, up to the first call that fails, and takes memory linear in the ids: a table is
/// shared with the store, and none of its operations, keys and values is copied. It answers `ObjectStoreError` of
/// `NotFound` at the first id under which no table is stored, and of `Unavailable` where a read of the store failed;
/// and `NoMemory`.
pub fn read_tables<S: Store>(
    alloc: Global,
    store: &mut S,
    ids: &[TableId],
) -> Result<Vec<Table>, SlateError>
    ensures faults { FaultsRise (S.faults store.old) (S.faults store.new) result }
    ensures calls { S.calls store.new ≤ S.calls store.old + length ids.now }
    ensures kept { S.objects store.new ≡ S.objects store.old }
    ensures joined { IfOk result (λ tables. AreJoined (S.objects store.old) ids.now (flat_map (λ table. table) tables.items)) }
    ensures each { IfOk result (λ tables. AreEach (S.objects store.old) ids.now tables.items) }
    ensures missing { result ≡ Err (SlateError.ObjectStoreError NotFound) → IfSome (S.objects store.old) (λ o. AreStored o ids.now → ⊥) }
    ensures refused { IfErr result IsOfTables }
    ensures untouched { ids.now ≡ [] → store.new ≡ store.old }
    ensures some { ids.now ≡ [] → result ≡ Err (SlateError.ObjectStoreError NotFound) → ⊥ }
{
    let mut tables = Vec::with_capacity(alloc, ids.len()).map_err(NoMemory::from)?;
    for id in ids {
        let table = store.read_table(alloc, *id)?;
        tables.push(table).map_err(NoMemory::from)?;
    }
    Ok(tables)
}
