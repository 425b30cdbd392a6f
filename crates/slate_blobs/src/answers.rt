// What a store answers of the blobs that it was given.
ghost use Rattle.std.specs.Prelude.{◌≡◌, ◌≤◌, IfOk, IfSome, IsErrOf};
ghost use Rattle.slate_types.specs.Counts.{HasRisen};
ghost use Rattle.slate_types.specs.declared.store_errors.StoreError.TheVariants.{Failed};
ghost use Rattle.slate_store.specs.Calls.{KeepsFaults};
ghost use Rattle.slate_store.specs.Objects.{greatest};
ghost use Rattle.slate_blobs.specs.Decoded.{answer_of};

use slate_objects::DecodeError;
use slate_reads::{IndexedTable, Table};
use slate_types::{Batch, CallCount, NoMemory, Seq, StoreError};
use std::alloc::Global;

/// What a call answers of a decoding. Bytes that aren't the object count as a failure.
pub(crate) fn answer_with<A: Drop>(
    count: &mut CallCount,
    decoded: Result<A, DecodeError>,
) -> Result<A, StoreError>
    ensures made { count.new.made ≡ count.old.made }
    ensures never_falls { count.old.faults ≤ count.new.faults }
    ensures failed { IsErrOf result Failed → HasRisen count.old.faults count.new.faults }
    ensures stays { KeepsFaults Failed count.old.faults count.new.faults result }
    ensures answer { result ≡ answer_of decoded }
{
    match decoded {
        Ok(object) => Ok(object),
        Err(DecodeError::NoMemory) => Err(StoreError::NoMemory),
        Err(DecodeError::Fault(_fault)) => {
            count.count_fault();
            Err(StoreError::Failed)
        }
    }
}

/// The greatest of a number and these.
pub(crate) fn greatest_of(number: u64, ids: &[u64]) -> u64
    ensures { result ≡ greatest number ids.now }
{
    let mut last = number;
    for id in ids {
        last = last.max(*id);
    }
    last
}

/// The table with these batches, or None where their numbers don't rise. It takes the time of as many pushes to an
/// `IndexedTable`.
pub(crate) fn rising_table(alloc: Global, batches: &[Batch]) -> Result<Option<Table>, NoMemory>
    ensures table { IfOk result (λ found. IfSome found (λ table. table ≡ batches.now)) }
{
    let mut table = IndexedTable::new(alloc);
    for batch in batches {
        if !table.is_above_last(batch.number) {
            return Ok(None);
        }
        if table.push(batch.clone()?).is_err() {
            return Err(NoMemory);
        }
    }
    match Table::new(alloc, table) {
        Ok(table) => Ok(Some(table)),
        Err(_table) => Err(NoMemory),
    }
}
