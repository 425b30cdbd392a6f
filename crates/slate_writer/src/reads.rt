// Reading a key from the tables of a handle's view and from its batches.
ghost use Rattle.std.specs.Prelude.{◌≡◌, ◌+◌, ◌≤◌, [], None, Option, IfErr, IfOk, IfSome, Err, length};
ghost use Rattle.std.specs.List.{flat_map};
ghost use Rattle.std.specs.Option.{option_copied};
ghost use Rattle.slate_types.specs.Operator.{Merge};
ghost use Rattle.slate_reads.specs.Bound.{read_bound};
ghost use Rattle.slate_reads.specs.Read.{IsOperator, read_at};
ghost use Rattle.slate_types.specs.declared.store_errors.StoreFault.TheVariants.{NotFound};
ghost use Rattle.slate_model.specs.Handle.{accepted};
ghost use Rattle.slate_model.specs.Known.{FaultsRise, known};
ghost use Rattle.slate_model.specs.Object.{Handle};
ghost use Rattle.slate_model.specs.Read.{ReadsUnlessClosed, ReadsByAny};
ghost use Rattle.slate_model.specs.Snapshot.{snapshot_number};
ghost use Rattle.slate_model.specs.Stores.{kept_rows};
ghost use Rattle.slate_model.specs.Tables.{AreJoined, AreStored};
ghost use Rattle.slate_replay.specs.Tables.{IsOfTables};

use crate::WriterState;
use slate_errors::SlateError;
use slate_reads::{Indexed, Table, prepare_max_seq, read_indexed};
use slate_replay::read_tables;
use slate_store::Store;
use slate_types::{KeyValue, MergeOperator, ReadOptions};
use std::alloc::Global;

impl WriterState {
    /// The number of a snapshot that is taken now: that of the last batch that the handle accepted. A `get` or a `scan` of
    /// the handle that is passed it as its `snapshot` reads what the handle has now, whatever is written, flushed or
    /// compacted later. Nothing is kept for a snapshot, and none is to be given back. On a closed handle it answers
    /// `Closed` or the error that closed it. It takes no memory, and constant time. SlateDB's `snapshot`.
    pub fn snapshot_number(&self) -> Result<u64, SlateError>
        ensures { result ≡ snapshot_number self.now }
    {
        if let Some(result) = self.closed() {
            return Err(SlateError::of_closed(result));
        }
        Ok(self.accepted())
    }

    /// What the tables of the manifest that the handle goes by and then its batches in memory say of a key, up to the
    /// accepted number, or up to the durable one at the level `Remote`, and up to the number of a snapshot, where one is
    /// given; `None` where there is no value. So a snapshot's reads are of the batches up to its number, whatever is
    /// written, flushed or compacted after it was taken, and at the level `Remote` of those among them that are durable.
    /// SlateDB's `DbSnapshot`.
    ///
    /// On a closed handle it answers `Closed` or the error that closed it. It answers `MergeOperatorMissing` where
    /// operands are to be merged and there is no operator, `MergeOperatorError` where the operator refuses one, and
    /// `NoMemory`; and `ObjectStoreError` where the store fails, or a table isn't stored. A read changes nothing. It calls
    /// the store once for each table, and shares what it reads. It takes a look-up in memory and in each table, from the
    /// last back to the first with a put or a delete up to the number, and goes over the key's operations since then, with
    /// those above the number. SlateDB's `get`.
    pub fn get<S: Store, M: MergeOperator>(
        &self,
        alloc: Global,
        store: &mut S,
        key: &[u8],
        options: &ReadOptions,
        snapshot: Option<u64>,
        operator: Option<&M>,
    ) -> Result<Option<KeyValue>, SlateError>
        ensures read { (merge : Option Merge) → IsOperator M.may_answer (option_copied operator.entry) merge →
            ReadsUnlessClosed self.now.result self.now.view.manifest.tables (kept_rows (S.objects store.old) (Handle self.now))
            (λ rows answer. answer ≡ read_at merge rows (read_bound snapshot self.now.durable (accepted self.now) options.now.durability_filter options.now.dirty) key.now)
            (known S.objects S.faults store.old) result (known S.objects S.faults store.new) }
        ensures by_any { ReadsByAny self.now.result self.now.view.manifest.tables (known S.objects S.faults store.old) result (known S.objects S.faults store.new) }
        ensures count { S.faults store.old ≤ S.faults store.new }
        ensures calls { S.calls store.new ≤ S.calls store.old + length self.now.view.manifest.tables }
        ensures closed { (self.now.result ≡ None → ⊥) → store.new ≡ store.old }
        ensures untouched { self.now.view.manifest.tables ≡ [] → store.new ≡ store.old }
    {
        if let Some(result) = self.closed() {
            return Err(SlateError::of_closed(result));
        }
        let stored = self.read_tables(alloc, store)?;
        let bound = prepare_max_seq(
            snapshot,
            self.durable(),
            self.accepted(),
            options.durability_filter,
            options.dirty,
        );
        let memory = self.memory.to_read(alloc)?;
        let memory = std::slice::from_ref(memory.as_indexed());
        Ok(read_indexed(alloc, &[], stored.as_slice(), memory, bound, key, operator)?)
    }

    /// The tables of the manifest that it goes by, in order.
    pub(crate) fn read_tables<S: Store>(
        &self,
        alloc: Global,
        store: &mut S,
    ) -> Result<Vec<Table>, SlateError>
        ensures faults { FaultsRise (S.faults store.old) (S.faults store.new) result }
        ensures calls { S.calls store.new ≤ S.calls store.old + length self.now.view.manifest.tables }
        ensures kept { S.objects store.new ≡ S.objects store.old }
        ensures joined { IfOk result (λ tables. AreJoined (S.objects store.old) self.now.view.manifest.tables (flat_map (λ table. table) tables.items)) }
        ensures missing { result ≡ Err (SlateError.ObjectStoreError NotFound) → IfSome (S.objects store.old) (λ o. AreStored o self.now.view.manifest.tables → ⊥) }
        ensures refused { IfErr result IsOfTables }
        ensures untouched { self.now.view.manifest.tables ≡ [] → store.new ≡ store.old }
        ensures some { self.now.view.manifest.tables ≡ [] → result ≡ Err (SlateError.ObjectStoreError NotFound) → ⊥ }
    {
        let ids = self.view().manifest.tables.as_slice();
        read_tables(alloc, store, ids)
    }
}
