// Scanning a range in tables and in a transaction's own operations.
ghost use Rattle.std.specs.Prelude.{◌≡◌, ◌++◌, ◌∷◌, [], List, Option, None, All, IsTrue, IfOk, OnOk, true};
ghost use Rattle.std.specs.List.{AllByRecursion, flat_map};
ghost use Rattle.std.specs.Option.{option_copied};
ghost use Rattle.slate_types.specs.Operator.{Merge};
ghost use Rattle.slate_types.specs.Order.{AreInOrder, row_keys};
ghost use Rattle.slate_types.specs.Range.{contains};
ghost use Rattle.slate_types.specs.declared.batches.Batch.{Batch as AnyBatch};
ghost use Rattle.slate_types.specs.declared.ranges.ByteRange.{ByteRange as AnyRange};
ghost use Rattle.slate_types.specs.declared.scan_options.IterationOrder.{IterationOrder as AnyOrder};
ghost use Rattle.slate_reads.specs.Read.{IsOperator, read_at};
ghost use Rattle.slate_rows.specs.Iteration.{begun};
ghost use Rattle.slate_rows.specs.Scan.{IsScan, rows_of as rows_of_keys};
ghost use Rattle.slate_rows.specs.Walked.{AreWalked, key_list};
ghost use Rattle.slate_transactions.specs.Own.{seen_with};

use crate::OwnWrites;
use crate::bounds::entries_in;
use bytes::Bytes;
use slate_reads::{IndexedTable, Table};
use slate_rows::{DbIterator, add_found, add_range_keys, order_keys};
use slate_types::{ByteRange, IterationOrder, KeyValue, MergeOperator, NoMemory, ReadFault, Seq};
use std::alloc::Global;

impl OwnWrites {
    /// Reads the keys of a range, each as `read` does, in the order asked for, up to the first key whose read is refused,
    /// whose fault ends the rows. It takes the time of a `scan_indexed`, a logarithm of the own keys, and the time for the own
    /// operations in the range. It copies no bytes.
    pub fn scan<M: MergeOperator>(
        &self,
        alloc: Global,
        stored: &[Table],
        memory: &[IndexedTable],
        bound: Option<u64>,
        range: &ByteRange,
        order: IterationOrder,
        operator: Option<&M>,
    ) -> Result<DbIterator, NoMemory>
        // The rows are the plain scan, whatever lawful function the operator is.
        ensures plain { (merge : Option Merge) → IsOperator M.may_answer (option_copied operator.entry) merge →
            IfOk result (λ it. IsScan merge (seen_with bound (flat_map (λ table. table) stored.now ++ flat_map (λ table. table) memory.now) self.now) None range.now order it.rows it.fault) }
        ensures begun { IfOk result (λ it. it ≡ begun range.now order it.rows it.fault) }
    {
        let mut keys = Vec::new(alloc);
        add_range_keys(&mut keys, stored, range)?;
        add_range_keys(&mut keys, memory, range)?;
        self.add_own_keys(&mut keys, range)?;
        order_keys(&mut keys, order)?;
        let keys = keys.as_slice();
        let (rows, fault) = self.read_keys(alloc, stored, memory, bound, keys, operator)?;
        DbIterator::of_rows(alloc, range.clone()?, order, Seq::of(rows), fault)
    }

    /// Adds the own keys of a range.
    fn add_own_keys<'a>(
        &'a self,
        keys: &mut Vec<&'a Bytes>,
        range: &ByteRange,
    ) -> Result<(), NoMemory>
        ensures { OnOk result ((batches : List AnyBatch) → AreWalked batches range.now (key_list keys.old.items) →
            AreWalked (batches ++ self.now ∷ []) range.now (key_list keys.new.items)) }
    {
        for (key, _) in entries_in(&self.by_key, range) {
            keys.push(key)?;
        }
        Ok(())
    }

    /// The rows of keys, up to the first key whose read is refused, and that fault.
    fn read_keys<M: MergeOperator>(
        &self,
        alloc: Global,
        stored: &[Table],
        memory: &[IndexedTable],
        bound: Option<u64>,
        keys: &[&Bytes],
        operator: Option<&M>,
    ) -> Result<(Vec<KeyValue>, Option<ReadFault>), NoMemory>
        ensures plain { (merge : Option Merge) → IsOperator M.may_answer (option_copied operator.entry) merge →
            IfOk result (λ taken. rows_of_keys (read_at merge (seen_with bound (flat_map (λ table. table) stored.now ++ flat_map (λ table. table) memory.now) self.now) None) (key_list keys.now)
            ≡ record { rows = taken.0.items; fault = taken.1 }) }
        ensures in_order { (order : AnyOrder) → AreInOrder order (key_list keys.now) → IfOk result (λ taken. AreInOrder order (row_keys taken.0.items)) }
        ensures within { (range : AnyRange) → AllByRecursion (λ key. contains range key ≡ true) (key_list keys.now) →
            IfOk result (λ taken. All (λ row. IsTrue (contains range row.key)) taken.0.items) }
    {
        let mut rows = Vec::new(alloc);
        for key in keys {
            let found = self.read(alloc, stored, memory, bound, key, operator);
            if let Some(fault) = add_found(&mut rows, found)? {
                return Ok((rows, Some(fault)));
            }
        }
        Ok((rows, None))
    }
}
