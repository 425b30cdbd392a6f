// Scanning a range in stored tables and those in memory by their indexes.
ghost use Rattle.std.specs.Prelude.{◌≡◌, ◌↔◌, ◌++◌, ℕ, List, Contains, All, IsTrue, IfOk, OnOk, true, Option};
ghost use Rattle.std.specs.List.{AllByRecursion, flat_map};
ghost use Rattle.std.specs.Option.{option_copied};
ghost use Rattle.slate_types.specs.Operator.{Merge};
ghost use Rattle.slate_types.specs.declared.batches.Batch.{Batch as AnyBatch};
ghost use Rattle.slate_types.specs.Range.{contains};
ghost use Rattle.slate_types.specs.declared.ranges.ByteRange.{ByteRange as AnyRange};
ghost use Rattle.slate_reads.specs.Read.{IsOperator, read_at};
ghost use Rattle.slate_types.specs.declared.scan_options.IterationOrder.{IterationOrder as AnyOrder};
ghost use Rattle.slate_rows.specs.Iteration.{begun};
ghost use Rattle.slate_types.specs.Order.{AreInOrder, row_keys};
ghost use Rattle.slate_rows.specs.Scan.{IsScan, rows_of as rows_of_keys};
ghost use Rattle.slate_rows.specs.Walked.{key_list, AreWalked};

use crate::scans::add_found;
use crate::{DbIterator, IterationOrder};
use bytes::Bytes;
use slate_reads::{Indexed, IndexedTable, Table, read_key};
use slate_types::{ByteRange, KeyValue, MergeOperator, NoMemory, ReadFault, Seq};
use std::alloc::Global;

/// Reads the keys of a range as `scan` does, in the batches of the stored tables and then of those in memory, up to a
/// bound, which is a number; without one, in all of them. It walks over the keys of the range in each table, and reads
/// each key once, by its index. It takes time logarithmic in the keys of the tables, and for each key of the range in
/// them that of a `read_key`; the walks of several tables are merged, which takes a logarithm of the number of tables
/// for each key. It copies no bytes.
pub fn scan_indexed<M: MergeOperator>(
    alloc: Global,
    stored: &[Table],
    memory: &[IndexedTable],
    bound: Option<u64>,
    range: &ByteRange,
    order: IterationOrder,
    operator: Option<&M>,
) -> Result<DbIterator, NoMemory>
    // The rows are the plain scan, whatever lawful function the operator is.
    ensures plain { (merge : Option Merge) → IsOperator M.may_answer (option_copied operator.entry) merge →
        IfOk result (λ it. IsScan merge (flat_map (λ table. table) stored.now ++ flat_map (λ table. table) memory.now) bound range.now order it.rows it.fault) }
    ensures begun { IfOk result (λ it. it ≡ begun range.now order it.rows it.fault) }
{
    let mut keys = Vec::new(alloc);
    add_range_keys(&mut keys, stored, range)?;
    add_range_keys(&mut keys, memory, range)?;
    order_keys(&mut keys, order)?;
    let (rows, fault) = read_keys(alloc, stored, memory, bound, keys.as_slice(), operator)?;
    DbIterator::of_rows(alloc, range.clone()?, order, Seq::of(rows), fault)
}

/// Adds the keys of a range that have an operation in tables, table by table, each table's in order. It takes time
/// logarithmic in the keys of each table, and constant for each key. It copies no bytes.
pub fn add_range_keys<'a, T: Indexed>(
    keys: &mut Vec<&'a Bytes>,
    tables: &'a [T],
    range: &ByteRange,
) -> Result<(), NoMemory>
    ensures { OnOk result ((batches : List AnyBatch) → AreWalked batches range.now (key_list keys.old.items) →
        AreWalked (batches ++ flat_map T.batches tables.now) range.now (key_list keys.new.items)) }
{
    for table in tables {
        add_table_keys(keys, table.as_indexed(), range)?;
    }
    Ok(())
}

/// Adds the keys of a range in a table, in order.
pub(crate) fn add_table_keys<'a>(
    keys: &mut Vec<&'a Bytes>,
    table: &'a IndexedTable,
    range: &ByteRange,
) -> Result<(), NoMemory>
    ensures { OnOk result ((batches : List AnyBatch) → AreWalked batches range.now (key_list keys.old.items) →
        AreWalked (batches ++ table.now) range.now (key_list keys.new.items)) }
{
    Ok(keys.extend(table.keys(range))?)
}

/// Puts keys in order, each once. What stands in order already, as the keys of each table do, is merged.
pub fn order_keys(keys: &mut Vec<&Bytes>, order: IterationOrder) -> Result<(), NoMemory>
    ensures in_order { OnOk result (AreInOrder order (key_list keys.new.items)) }
    ensures same { OnOk result ((key : List ℕ) → (Contains (key_list keys.new.items) key ↔ Contains (key_list keys.old.items) key)) }
{
    keys.sort_by(|left, right| order.compare(left.as_slice(), right.as_slice()))?;
    keys.dedup();
    Ok(())
}

/// The rows of keys, up to the first key whose read is refused, and that fault.
fn read_keys<M: MergeOperator>(
    alloc: Global,
    stored: &[Table],
    memory: &[IndexedTable],
    bound: Option<u64>,
    keys: &[&Bytes],
    operator: Option<&M>,
) -> Result<(Vec<KeyValue>, Option<ReadFault>), NoMemory>
    ensures plain { (merge : Option Merge) → IsOperator M.may_answer (option_copied operator.entry) merge →
        IfOk result (λ taken. rows_of_keys (read_at merge (flat_map (λ table. table) stored.now ++ flat_map (λ table. table) memory.now) bound) (key_list keys.now)
        ≡ record { rows = taken.0.items; fault = taken.1 }) }
    ensures in_order { (order : AnyOrder) → AreInOrder order (key_list keys.now) → IfOk result (λ taken. AreInOrder order (row_keys taken.0.items)) }
    ensures within { (range : AnyRange) → AllByRecursion (λ key. contains range key ≡ true) (key_list keys.now) →
        IfOk result (λ taken. All (λ row. IsTrue (contains range row.key)) taken.0.items) }
{
    let mut rows = Vec::new(alloc);
    for key in keys {
        let found = read_key(alloc, &[], stored, memory, bound, key, operator);
        if let Some(fault) = add_found(&mut rows, found)? {
            return Ok((rows, Some(fault)));
        }
    }
    Ok((rows, None))
}
