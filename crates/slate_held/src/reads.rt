// Reads of a handle over its own store.
ghost use Rattle.std.specs.Prelude.{◌≡◌, ◌+◌, ◌≤◌, None, Option, length};
ghost use Rattle.std.specs.Option.{option_copied};
ghost use Rattle.slate_types.specs.Operator.{Merge};
ghost use Rattle.slate_reads.specs.Bound.{read_bound};
ghost use Rattle.slate_reads.specs.Read.{IsOperator, read_at};
ghost use Rattle.slate_model.specs.Handle.{accepted};
ghost use Rattle.slate_model.specs.Known.{known};
ghost use Rattle.slate_model.specs.Object.{Handle};
ghost use Rattle.slate_model.specs.Read.{Gives, ReadsUnlessClosed, ReadsByAny};
ghost use Rattle.slate_model.specs.Recency.{ScansByRecency};
ghost use Rattle.slate_model.specs.Snapshot.{snapshot_number};
ghost use Rattle.slate_model.specs.Stores.{kept_rows};
ghost use Rattle.slate_writer.specs.Scanned.{BeginsFrontOf, BeginsScanOf};

use crate::Held;
use slate_errors::SlateError;
use slate_rows::{DbIterator, DbRecencyIterator};
use slate_store::Store;
use slate_types::{ByteRange, KeyValue, MergeOperator, ReadOptions, ScanOptions};
use std::alloc::Global;

impl<S: Store> Held<S> {
    /// The number of a snapshot that is taken now, as `WriterState::snapshot_number` answers it.
    pub fn snapshot_number(&self) -> Result<u64, SlateError>
        ensures { result ≡ snapshot_number self.now.handle }
    {
        self.writer.snapshot_number()
    }

    /// Reads a key, up to the number of a snapshot where one is given, as `WriterState::get` does.
    pub fn get<M: MergeOperator>(
        &mut self,
        alloc: Global,
        key: &[u8],
        options: &ReadOptions,
        snapshot: Option<u64>,
        operator: Option<&M>,
    ) -> Result<Option<KeyValue>, SlateError>
        ensures read { (merge : Option Merge) → IsOperator M.may_answer (option_copied operator.entry) merge →
            ReadsUnlessClosed self.old.handle.result self.old.handle.view.manifest.tables (kept_rows (S.objects self.old.store) (Handle self.old.handle))
            (λ rows answer. answer ≡ read_at merge rows (read_bound snapshot self.old.handle.durable (accepted self.old.handle) options.now.durability_filter options.now.dirty) key.now)
            (known S.objects S.faults self.old.store) result (known S.objects S.faults self.new.store) }
        ensures by_any { ReadsByAny self.old.handle.result self.old.handle.view.manifest.tables (known S.objects S.faults self.old.store) result (known S.objects S.faults self.new.store) }
        ensures kept { self.new.handle ≡ self.old.handle }
        ensures count { S.faults self.old.store ≤ S.faults self.new.store }
        ensures calls { S.calls self.new.store ≤ S.calls self.old.store + length self.old.handle.view.manifest.tables }
        ensures closed { (self.old.handle.result ≡ None → ⊥) → self.new.store ≡ self.old.store }
    {
        self.writer
            .get(alloc, &mut self.store, key, options, snapshot, operator)
    }

    /// Scans a range, up to the number of a snapshot where one is given, as `WriterState::scan` does.
    pub fn scan<M: MergeOperator>(
        &mut self,
        alloc: Global,
        range: &ByteRange,
        options: &ScanOptions,
        snapshot: Option<u64>,
        operator: Option<&M>,
    ) -> Result<DbIterator, SlateError>
        ensures scan { (merge : Option Merge) → IsOperator M.may_answer (option_copied operator.entry) merge →
            ReadsUnlessClosed self.old.handle.result self.old.handle.view.manifest.tables (kept_rows (S.objects self.old.store) (Handle self.old.handle))
            (Gives (BeginsScanOf self.old.handle merge snapshot options.now range.now))
            (known S.objects S.faults self.old.store) result (known S.objects S.faults self.new.store) }
        ensures by_any { ReadsByAny self.old.handle.result self.old.handle.view.manifest.tables (known S.objects S.faults self.old.store) result (known S.objects S.faults self.new.store) }
        ensures kept { self.new.handle ≡ self.old.handle }
        ensures count { S.faults self.old.store ≤ S.faults self.new.store }
        ensures calls { S.calls self.new.store ≤ S.calls self.old.store + length self.old.handle.view.manifest.tables }
        ensures closed { (self.old.handle.result ≡ None → ⊥) → self.new.store ≡ self.old.store }
    {
        self.writer
            .scan(alloc, &mut self.store, range, options, snapshot, operator)
    }

    /// The first rows of a range, up to `limit`, as `WriterState::scan_first` finds them.
    pub fn scan_first<M: MergeOperator>(
        &mut self,
        alloc: Global,
        range: &ByteRange,
        options: &ScanOptions,
        limit: u64,
        operator: Option<&M>,
    ) -> Result<DbIterator, SlateError>
        ensures scan { (merge : Option Merge) → IsOperator M.may_answer (option_copied operator.entry) merge →
            ReadsUnlessClosed self.old.handle.result self.old.handle.view.manifest.tables (kept_rows (S.objects self.old.store) (Handle self.old.handle))
            (Gives (BeginsFrontOf limit self.old.handle merge None options.now range.now))
            (known S.objects S.faults self.old.store) result (known S.objects S.faults self.new.store) }
        ensures by_any { ReadsByAny self.old.handle.result self.old.handle.view.manifest.tables (known S.objects S.faults self.old.store) result (known S.objects S.faults self.new.store) }
        ensures kept { self.new.handle ≡ self.old.handle }
        ensures count { S.faults self.old.store ≤ S.faults self.new.store }
        ensures calls { S.calls self.new.store ≤ S.calls self.old.store + length self.old.handle.view.manifest.tables }
        ensures closed { (self.old.handle.result ≡ None → ⊥) → self.new.store ≡ self.old.store }
    {
        self.writer.scan_first(
            alloc,
            &mut self.store,
            range,
            options,
            limit,
            None,
            operator,
        )
    }

    /// Lists the operations on the keys with a prefix, source by source, as `WriterState::scan_by_recency` does.
    pub fn scan_by_recency(
        &mut self,
        alloc: Global,
        prefix: &[u8],
        options: &ScanOptions,
    ) -> Result<DbRecencyIterator, SlateError>
        ensures scan { ScansByRecency self.old.handle options.now prefix.now (known S.objects S.faults self.old.store) result (known S.objects S.faults self.new.store) }
        ensures kept { self.new.handle ≡ self.old.handle }
        ensures count { S.faults self.old.store ≤ S.faults self.new.store }
        ensures calls { S.calls self.new.store ≤ S.calls self.old.store + length self.old.handle.view.manifest.tables }
        ensures closed { (self.old.handle.result ≡ None → ⊥) → self.new.store ≡ self.old.store }
    {
        self.writer
            .scan_by_recency(alloc, &mut self.store, prefix, options)
    }
}
