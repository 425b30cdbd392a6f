// The first rows of a range in stored tables and those in memory.
ghost use Rattle.std.specs.Prelude.{◌≡◌, ◌++◌, ℕ, List, All, IsTrue, IfOk, true, Option};
ghost use Rattle.std.specs.List.{AllByRecursion, flat_map};
ghost use Rattle.std.specs.Option.{option_copied};
ghost use Rattle.slate_types.specs.Operator.{Merge};
ghost use Rattle.slate_types.specs.Order.{AreInOrder, row_keys};
ghost use Rattle.slate_types.specs.Range.{contains};
ghost use Rattle.slate_types.specs.declared.ranges.ByteRange.{ByteRange as AnyRange};
ghost use Rattle.slate_reads.specs.Read.{IsOperator, read_at};
ghost use Rattle.slate_rows.specs.Ahead.{all_ahead, AreEach, AreAhead};
ghost use Rattle.slate_rows.specs.Iteration.{begun};
ghost use Rattle.slate_rows.specs.Front.{IsScanFront, first_rows};
ghost use Rattle.slate_rows.specs.Scan.{rows_of};

use crate::scans::add_found;
use crate::table_walks::{Walk, add_walks, next_key};
use crate::{DbIterator, IterationOrder};
use slate_reads::{IndexedTable, Table, read_key};
use slate_types::{ByteRange, KeyValue, MergeOperator, NoMemory, ReadFault, Seq};
use std::alloc::Global;

/// The first rows that `scan_indexed` gives, up to `limit`, and the fault that ends them where fewer come before it. A key
/// whose operations leave no row doesn't count. After `limit` rows no further key is read, so a fault of one isn't
/// answered, and a seek passes among these rows alone.
///
/// It takes time logarithmic in the keys of the tables, and for each key up to the one that reaches the limit that of a
/// `read_key` and a look at the next key of each table. It takes memory for each table and each row, and copies no bytes.
pub fn scan_first<M: MergeOperator>(
    alloc: Global,
    stored: &[Table],
    memory: &[IndexedTable],
    bound: Option<u64>,
    range: &ByteRange,
    order: IterationOrder,
    limit: u64,
    operator: Option<&M>,
) -> Result<DbIterator, NoMemory>
    // The rows are the front of the plain scan, whatever lawful function the operator is.
    ensures plain { (merge : Option Merge) → IsOperator M.may_answer (option_copied operator.entry) merge →
        IfOk result (λ it. IsScanFront limit merge (flat_map (λ table. table) stored.now ++ flat_map (λ table. table) memory.now) bound range.now order it.rows it.fault) }
    ensures begun { IfOk result (λ it. it ≡ begun range.now order it.rows it.fault) }
{
    let mut walks = Vec::new(alloc);
    add_walks(&mut walks, stored, range, order)?;
    add_walks(&mut walks, memory, range, order)?;
    let walks = walks.as_mut_slice();
    let (rows, fault) = read_first(alloc, stored, memory, bound, walks, order, limit, operator)?;
    DbIterator::of_rows(alloc, range.clone()?, order, Seq::of(rows), fault)
}

/// The rows of the keys ahead of walks, up to so many, or up to the first key whose read is refused, and that fault.
fn read_first<M: MergeOperator>(
    alloc: Global,
    stored: &[Table],
    memory: &[IndexedTable],
    bound: Option<u64>,
    walks: &mut [Walk<'_>],
    order: IterationOrder,
    limit: u64,
    operator: Option<&M>,
) -> Result<(Vec<KeyValue>, Option<ReadFault>), NoMemory>
    ensures plain { AreEach order walks.old → (merge : Option Merge) → IsOperator M.may_answer (option_copied operator.entry) merge →
        IfOk result (λ taken. (keys : List (List ℕ)) × AreAhead order walks.old keys
        × (first_rows limit (rows_of (read_at merge (flat_map (λ table. table) stored.now ++ flat_map (λ table. table) memory.now) bound) keys)
        ≡ record { rows = taken.0.items; fault = taken.1 })) }
    ensures in_order { AreEach order walks.old → IfOk result (λ taken. AreInOrder order (row_keys taken.0.items)) }
    ensures within { AreEach order walks.old → (range : AnyRange) → AllByRecursion (λ key. contains range key ≡ true) (all_ahead order walks.old) →
        IfOk result (λ taken. All (λ row. IsTrue (contains range row.key)) taken.0.items) }
{
    let mut rows = Vec::new(alloc);
    'rows: while (rows.len() as u64) < limit {
        let Some(key) = next_key(walks, order) else {
            return Ok((rows, None));
        };
        let found = read_key(alloc, &[], stored, memory, bound, key, operator);
        if let Some(fault) = add_found(&mut rows, found)? {
            return Ok((rows, Some(fault)));
        }
    }
    Ok((rows, None))
}
