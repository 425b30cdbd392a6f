// Reads of a transaction: the batches of a handle up to its start, and its own operations after them.
ghost use Rattle.std.specs.Prelude.{◌≡◌, ◌+◌, ◌≤◌, [], None, Option, OnOk, OnErr, length};
ghost use Rattle.std.specs.Option.{option_copied};
ghost use Rattle.slate_types.specs.Operator.{Merge};
ghost use Rattle.slate_reads.specs.Read.{IsOperator, read_at};
ghost use Rattle.slate_rows.specs.Scan.{BeginsScan};
ghost use Rattle.slate_model.specs.Known.{known};
ghost use Rattle.slate_model.specs.Object.{Handle};
ghost use Rattle.slate_model.specs.Read.{Gives, ReadsUnlessClosed, ReadsByAny};
ghost use Rattle.slate_model.specs.Stores.{kept_rows};
ghost use Rattle.slate_model.specs.Transaction.{having_got, having_scanned, seen_by, start_bound};

use crate::{Transaction, WriterState};
use bytes::Bytes;
use slate_errors::SlateError;
use slate_reads::{Indexed, prepare_max_seq};
use slate_rows::DbIterator;
use slate_store::Store;
use slate_transactions::IsolationLevel;
use slate_types::{
    ByteRange, DurabilityLevel, KeyValue, MergeOperator, NoMemory, ReadOptions, ScanOptions,
};
use std::alloc::Global;

impl Transaction {
    /// What the handle's batches up to its start say of a key, and at the level `Remote` those of them that are durable, with
    /// its own operations after them. A row whose newest operation is its own has the start as its number, and the creation
    /// time 0. At `SerializableSnapshot` its commit conflicts from then on with a later write of the key.
    ///
    /// It answers what `WriterState::get` answers, and where it answers an error the transaction is as before. It takes the
    /// time of such a get, a logarithm of its own keys, and a pass over its own operations on the key. SlateDB's `get`.
    pub fn get<S: Store, M: MergeOperator>(
        &mut self,
        alloc: Global,
        writer: &WriterState,
        store: &mut S,
        key: &[u8],
        options: &ReadOptions,
        operator: Option<&M>,
    ) -> Result<Option<KeyValue>, SlateError>
        ensures read { (merge : Option Merge) → IsOperator M.may_answer (option_copied operator.entry) merge →
            ReadsUnlessClosed writer.now.result writer.now.view.manifest.tables (kept_rows (S.objects store.old) (Handle writer.now))
            (λ rows answer. answer ≡ read_at merge (seen_by self.old (start_bound self.old writer.now options.now.durability_filter options.now.dirty) rows) None key.now)
            (known S.objects S.faults store.old) result (known S.objects S.faults store.new) }
        ensures by_any { ReadsByAny writer.now.result writer.now.view.manifest.tables (known S.objects S.faults store.old) result (known S.objects S.faults store.new) }
        ensures got { OnOk result (self.new ≡ having_got self.old.level key.now self.old) }
        ensures refused { OnErr result (self.new ≡ self.old) }
        ensures count { S.faults store.old ≤ S.faults store.new }
        ensures calls { S.calls store.new ≤ S.calls store.old + length writer.now.view.manifest.tables }
        ensures closed { (writer.now.result ≡ None → ⊥) → store.new ≡ store.old }
        ensures untouched { writer.now.view.manifest.tables ≡ [] → store.new ≡ store.old }
    {
        if let Some(result) = writer.closed() {
            return Err(SlateError::of_closed(result));
        }
        let stored = writer.read_tables(alloc, store)?;
        let asked = Bytes::copy_from_slice(alloc, key).map_err(NoMemory::from)?;
        let bound = self.bound(writer, options.durability_filter, options.dirty);
        let memory = writer.memory.to_read(alloc)?;
        let memory = std::slice::from_ref(memory.as_indexed());
        let stored = stored.as_slice();
        let own = &self.own;
        let found = own.read(alloc, stored, memory, bound, &asked, operator)?;
        self.track_got(alloc, key)?;
        Ok(found)
    }

    /// Tracks a key that it got, at `SerializableSnapshot`.
    fn track_got(&mut self, alloc: Global, key: &[u8]) -> Result<(), NoMemory>
        ensures ok { OnOk result (self.new ≡ having_got self.old.level key.now self.old) }
        ensures err { OnErr result (self.new ≡ self.old) }
    {
        match self.level {
            IsolationLevel::Snapshot => Ok(()),
            IsolationLevel::SerializableSnapshot => self.read.insert(alloc, key),
        }
    }

    /// Up to which number it reads the batches of a handle.
    fn bound(&self, writer: &WriterState, level: DurabilityLevel, dirty: bool) -> Option<u64>
        ensures { result ≡ start_bound self.now writer.now level dirty }
    {
        prepare_max_seq(
            Some(self.own.start()),
            writer.durable(),
            writer.accepted(),
            level,
            dirty,
        )
    }

    /// The rows of the keys of a range, each read as by `get`, in the order asked for. At `SerializableSnapshot` its commit
    /// conflicts from then on with a later write of any key in the range, also of one without a row.
    ///
    /// It answers what `WriterState::scan` answers, and where it answers an error the transaction is as before. It takes the
    /// time of such a scan, a logarithm of its own keys, and a pass over its own operations in the range. SlateDB's `scan`.
    pub fn scan<S: Store, M: MergeOperator>(
        &mut self,
        alloc: Global,
        writer: &WriterState,
        store: &mut S,
        range: &ByteRange,
        options: &ScanOptions,
        operator: Option<&M>,
    ) -> Result<DbIterator, SlateError>
        ensures scan { (merge : Option Merge) → IsOperator M.may_answer (option_copied operator.entry) merge →
            ReadsUnlessClosed writer.now.result writer.now.view.manifest.tables (kept_rows (S.objects store.old) (Handle writer.now))
            (Gives (λ rows it. BeginsScan merge (seen_by self.old (start_bound self.old writer.now options.now.durability_filter options.now.dirty) rows) None range.now options.now.order it))
            (known S.objects S.faults store.old) result (known S.objects S.faults store.new) }
        ensures by_any { ReadsByAny writer.now.result writer.now.view.manifest.tables (known S.objects S.faults store.old) result (known S.objects S.faults store.new) }
        ensures scanned { OnOk result (self.new ≡ having_scanned self.old.level range.now self.old) }
        ensures refused { OnErr result (self.new ≡ self.old) }
        ensures count { S.faults store.old ≤ S.faults store.new }
        ensures calls { S.calls store.new ≤ S.calls store.old + length writer.now.view.manifest.tables }
        ensures closed { (writer.now.result ≡ None → ⊥) → store.new ≡ store.old }
        ensures untouched { writer.now.view.manifest.tables ≡ [] → store.new ≡ store.old }
    {
        if let Some(result) = writer.closed() {
            return Err(SlateError::of_closed(result));
        }
        let stored = writer.read_tables(alloc, store)?;
        let bound = self.bound(writer, options.durability_filter, options.dirty);
        let memory = writer.memory.to_read(alloc)?;
        let memory = std::slice::from_ref(memory.as_indexed());
        let (stored, order) = (stored.as_slice(), options.order);
        let own = &self.own;
        let found = own.scan(alloc, stored, memory, bound, range, order, operator)?;
        self.track_scanned(range)?;
        Ok(found)
    }

    /// Tracks a range that it scanned, at `SerializableSnapshot`.
    fn track_scanned(&mut self, range: &ByteRange) -> Result<(), NoMemory>
        ensures ok { OnOk result (self.new ≡ having_scanned self.old.level range.now self.old) }
        ensures err { OnErr result (self.new ≡ self.old) }
    {
        match self.level {
            IsolationLevel::Snapshot => {}
            IsolationLevel::SerializableSnapshot => self.scanned.push(range.clone()?)?,
        }
        Ok(())
    }
}
