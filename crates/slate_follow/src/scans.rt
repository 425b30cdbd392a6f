// Scanning a range in the tables of a reader's view and in its batches in memory.
ghost use Rattle.std.specs.Prelude.{◌≡◌, ◌+◌, ◌≤◌, [], None, Option, length};
ghost use Rattle.std.specs.Option.{option_copied};
ghost use Rattle.slate_types.specs.Operator.{Merge};
ghost use Rattle.slate_reads.specs.Read.{IsOperator};
ghost use Rattle.slate_model.specs.Known.{known};
ghost use Rattle.slate_model.specs.Object.{Follower};
ghost use Rattle.slate_model.specs.Read.{Gives, ReadsUnlessClosed, ReadsByAny};
ghost use Rattle.slate_model.specs.Stores.{kept_rows};
ghost use Rattle.slate_follow.specs.Scanned.{BeginsFrontOf, BeginsScanOf};

use crate::FollowerState;
use slate_errors::SlateError;
use slate_rows::{DbIterator, scan_first, scan_indexed};
use slate_store::Store;
use slate_types::{ByteRange, IterationOrder, MergeOperator};
use std::alloc::Global;

impl FollowerState {
    /// The rows of the keys of a range that have one, in the order asked for: what the tables of the manifest that the
    /// reader goes by and then its batches in memory say of each, as the last poll took them. Bounds that cross have
    /// none. The iterator keeps its rows through later polls, and when a table is removed.
    ///
    /// On a closed reader it answers `Closed` or the error that closed it, and doesn't touch the store. Its other errors
    /// are `NoMemory`, and `ObjectStoreError` where the store fails, or a table isn't stored (a sweep may have removed
    /// it: a poll mends that, but not at a checkpoint). Where operands of a key are to be merged and there is no operator, or it refuses
    /// one, the rows end before this key, and the iterator answers that fault after them. A scan changes nothing.
    ///
    /// It calls the store once for each table, and shares what it reads. It takes time logarithmic in the keys of each
    /// table, stored or in memory, and then for each key of the range, also one without a row, that of a `get`, and of a few
    /// comparisons, with a logarithm of the number of tables. It takes memory for each key and row, and copies no key and
    /// no value. SlateDB's `scan`.
    pub fn scan<S: Store, M: MergeOperator>(
        &self,
        alloc: Global,
        store: &mut S,
        range: &ByteRange,
        order: IterationOrder,
        operator: Option<&M>,
    ) -> Result<DbIterator, SlateError>
        ensures scan { (merge : Option Merge) → IsOperator M.may_answer (option_copied operator.entry) merge →
            ReadsUnlessClosed self.now.result self.now.view.manifest.tables (kept_rows (S.objects store.old) (Follower self.now))
            (Gives (BeginsScanOf self.now merge range.now order))
            (known S.objects S.faults store.old) result (known S.objects S.faults store.new) }
        ensures by_any { ReadsByAny self.now.result self.now.view.manifest.tables (known S.objects S.faults store.old) result (known S.objects S.faults store.new) }
        ensures count { S.faults store.old ≤ S.faults store.new }
        ensures calls { S.calls store.new ≤ S.calls store.old + length self.now.view.manifest.tables }
        ensures closed { (self.now.result ≡ None → ⊥) → store.new ≡ store.old }
        ensures untouched { self.now.view.manifest.tables ≡ [] → store.new ≡ store.old }
    {
        if let Some(result) = self.closed() {
            return Err(SlateError::of_closed(result));
        }
        let tables = self.all_tables(alloc, store)?;
        let bound = Some(self.number());
        let tables = tables.as_slice();
        Ok(scan_indexed(alloc, tables, &[], bound, range, order, operator)?)
    }

    /// The first rows that `scan` gives, up to `limit`, and the fault that ends them where it comes before so many. A key that
    /// was deleted doesn't count. No key after the last row is read, so a fault of one isn't answered, and a seek of the
    /// iterator passes among these rows alone.
    ///
    /// On a closed reader it answers `Closed` or the error that closed it, and doesn't touch the store. Its other errors
    /// are `NoMemory`, and `ObjectStoreError` where the store fails, or a table isn't stored, as of a scan.
    ///
    /// It calls the store once for each stored table, and shares what it reads, also with a limit of 0. It takes time
    /// logarithmic in the keys of each table, stored or in memory, and then for each key up to the row that reaches the limit,
    /// also one without a row, that of a `get` and a look at the next key of each table. It takes memory for each table and each row, and copies
    /// no key and no value. It is our own: SlateDB has `scan` alone.
    pub fn scan_first<S: Store, M: MergeOperator>(
        &self,
        alloc: Global,
        store: &mut S,
        range: &ByteRange,
        order: IterationOrder,
        limit: u64,
        operator: Option<&M>,
    ) -> Result<DbIterator, SlateError>
        ensures scan { (merge : Option Merge) → IsOperator M.may_answer (option_copied operator.entry) merge →
            ReadsUnlessClosed self.now.result self.now.view.manifest.tables (kept_rows (S.objects store.old) (Follower self.now))
            (Gives (BeginsFrontOf self.now merge range.now order limit))
            (known S.objects S.faults store.old) result (known S.objects S.faults store.new) }
        ensures by_any { ReadsByAny self.now.result self.now.view.manifest.tables (known S.objects S.faults store.old) result (known S.objects S.faults store.new) }
        ensures count { S.faults store.old ≤ S.faults store.new }
        ensures calls { S.calls store.new ≤ S.calls store.old + length self.now.view.manifest.tables }
        ensures closed { (self.now.result ≡ None → ⊥) → store.new ≡ store.old }
        ensures untouched { self.now.view.manifest.tables ≡ [] → store.new ≡ store.old }
    {
        if let Some(result) = self.closed() {
            return Err(SlateError::of_closed(result));
        }
        let tables = self.all_tables(alloc, store)?;
        let bound = Some(self.number());
        let tables = tables.as_slice();
        Ok(scan_first(alloc, tables, &[], bound, range, order, limit, operator)?)
    }
}
