// Scanning a range in the tables of a handle's view and in its batches.
ghost use Rattle.std.specs.Prelude.{◌≡◌, ◌+◌, ◌≤◌, [], None, Option, length};
ghost use Rattle.std.specs.Option.{option_copied};
ghost use Rattle.slate_types.specs.Operator.{Merge};
ghost use Rattle.slate_reads.specs.Read.{IsOperator};
ghost use Rattle.slate_model.specs.Known.{known};
ghost use Rattle.slate_model.specs.Object.{Handle};
ghost use Rattle.slate_model.specs.Read.{Gives, ReadsUnlessClosed, ReadsByAny};
ghost use Rattle.slate_model.specs.Stores.{kept_rows};
ghost use Rattle.slate_writer.specs.Scanned.{BeginsFrontOf, BeginsScanOf};

use crate::WriterState;
use slate_errors::SlateError;
use slate_reads::{Indexed, prepare_max_seq};
use slate_rows::{DbIterator, scan_first, scan_indexed};
use slate_store::Store;
use slate_types::{ByteRange, MergeOperator, ScanOptions};
use std::alloc::Global;

impl WriterState {
    /// The rows of the keys of a range that have one, in the order asked for: what the tables of the manifest that the
    /// handle goes by and then its batches in memory say of each, up to the accepted number, or up to the durable one at
    /// the level `Remote`, and up to the number of a snapshot, where one is given, as `get` reads them. Bounds that cross
    /// have none.
    ///
    /// On a closed handle it answers `Closed` or the error that closed it. Its other errors are `NoMemory`, and
    /// `ObjectStoreError` where the store fails, or a table isn't stored. Where
    /// operands of a key are to be merged and there is no operator, or it refuses one, the rows end before this key, and
    /// the iterator answers that fault after them. A scan changes nothing; the iterator keeps its rows,
    /// whatever is written later.
    ///
    /// It calls the store once for each table, and shares what it reads. It takes time logarithmic in the keys of memory and
    /// of each table, and then for each key of the range, also one without a row, that of a `get`, and of a few comparisons,
    /// with a logarithm of the number of tables. It takes memory for each key and row, and copies no key and no value.
    /// SlateDB's `scan`.
    pub fn scan<S: Store, M: MergeOperator>(
        &self,
        alloc: Global,
        store: &mut S,
        range: &ByteRange,
        options: &ScanOptions,
        snapshot: Option<u64>,
        operator: Option<&M>,
    ) -> Result<DbIterator, SlateError>
        ensures scan { (merge : Option Merge) → IsOperator M.may_answer (option_copied operator.entry) merge →
            ReadsUnlessClosed self.now.result self.now.view.manifest.tables (kept_rows (S.objects store.old) (Handle self.now))
            (Gives (BeginsScanOf self.now merge snapshot options.now range.now))
            (known S.objects S.faults store.old) result (known S.objects S.faults store.new) }
        ensures by_any { ReadsByAny self.now.result self.now.view.manifest.tables (known S.objects S.faults store.old) result (known S.objects S.faults store.new) }
        ensures count { S.faults store.old ≤ S.faults store.new }
        ensures calls { S.calls store.new ≤ S.calls store.old + length self.now.view.manifest.tables }
        ensures closed { (self.now.result ≡ None → ⊥) → store.new ≡ store.old }
        ensures untouched { self.now.view.manifest.tables ≡ [] → store.new ≡ store.old }
    {
        if let Some(result) = self.closed() {
            return Err(SlateError::of_closed(result));
        }
        let stored = self.read_tables(alloc, store)?;
        let bound = prepare_max_seq(
            snapshot,
            self.durable(),
            self.accepted(),
            options.durability_filter,
            options.dirty,
        );
        let memory = self.memory.to_read(alloc)?;
        let memory = std::slice::from_ref(memory.as_indexed());
        let stored = stored.as_slice();
        Ok(scan_indexed(alloc, stored, memory, bound, range, options.order, operator)?)
    }

    /// The first rows that `scan` gives for the same arguments, up to `limit`, and the fault that ends them where fewer come
    /// before it. A key without a row doesn't count. After `limit` rows no further key is read, so that a fault of one isn't
    /// answered, and a seek passes among these rows alone. With a limit of 0 there are none.
    ///
    /// It answers the errors that `scan` answers, when it answers them, changes nothing, and calls the store as often. It takes
    /// time logarithmic in the keys of memory and of each table, and then for each key up to the row that reaches the limit,
    /// also one without a row, that of a `get` and a look at the next key of each table. It takes memory for each table and each row, and copies
    /// no key and no value. SlateDB has no such call; there a scan reads as its rows are asked for.
    pub fn scan_first<S: Store, M: MergeOperator>(
        &self,
        alloc: Global,
        store: &mut S,
        range: &ByteRange,
        options: &ScanOptions,
        limit: u64,
        snapshot: Option<u64>,
        operator: Option<&M>,
    ) -> Result<DbIterator, SlateError>
        ensures scan { (merge : Option Merge) → IsOperator M.may_answer (option_copied operator.entry) merge →
            ReadsUnlessClosed self.now.result self.now.view.manifest.tables (kept_rows (S.objects store.old) (Handle self.now))
            (Gives (BeginsFrontOf limit self.now merge snapshot options.now range.now))
            (known S.objects S.faults store.old) result (known S.objects S.faults store.new) }
        ensures by_any { ReadsByAny self.now.result self.now.view.manifest.tables (known S.objects S.faults store.old) result (known S.objects S.faults store.new) }
        ensures count { S.faults store.old ≤ S.faults store.new }
        ensures calls { S.calls store.new ≤ S.calls store.old + length self.now.view.manifest.tables }
        ensures closed { (self.now.result ≡ None → ⊥) → store.new ≡ store.old }
        ensures untouched { self.now.view.manifest.tables ≡ [] → store.new ≡ store.old }
    {
        if let Some(result) = self.closed() {
            return Err(SlateError::of_closed(result));
        }
        let stored = self.read_tables(alloc, store)?;
        let bound = prepare_max_seq(
            snapshot,
            self.durable(),
            self.accepted(),
            options.durability_filter,
            options.dirty,
        );
        let memory = self.memory.to_read(alloc)?;
        let memory = std::slice::from_ref(memory.as_indexed());
        let (stored, order) = (stored.as_slice(), options.order);
        Ok(scan_first(alloc, stored, memory, bound, range, order, limit, operator)?)
    }
}
