// Flushing a handle's batches, to the log and to tables.
ghost use Rattle.std.specs.Prelude.{◌≡◌, ◌+◌, ◌≤◌, ℕ, None, IfErr, IfSome};
ghost use Rattle.slate_store.specs.Calls.{WhereModelled};
ghost use Rattle.slate_store.specs.Objects.{last_log};
ghost use Rattle.slate_model.specs.Flush.{CanFlush, FindsCurrent, Flushes, has_log_for, has_log_id, log_changes, recorded};
ghost use Rattle.slate_model.specs.Handle.{kept_handle};
ghost use Rattle.slate_model.specs.Known.{CountsFaults, known};
ghost use Rattle.slate_model.specs.Stores.{by_objects};
ghost use Rattle.slate_writer.specs.Kinds.{IsOfFlush, IsOfLooking};
ghost use Rattle.slate_writer.specs.Puts.{IsDecided, MakesPart, StoresBy, calls_of, flush_calls, log_calls};

use crate::WriterState;
use slate_errors::SlateError;
use slate_model::recorded;
use slate_store::{Store, VersionedManifest};
use slate_types::{Batch, FlushType};
use std::alloc::Global;

impl WriterState {
    /// Stores the accepted batches. After Ok all of them are durable. SlateDB's `flush`.
    ///
    /// type | what it puts, where there are such batches
    /// ---|---
    /// `Wal` | those that aren't stored yet, as one log file
    /// `MemTable` | the same, where the handle keeps a log; then a table of all that aren't in tables yet, and a manifest
    ///
    /// The manifest names the table; a replay begins after the log files that were there; its segments are those of the latest
    /// manifest and the prefixes of the batches, each once, in their order; and it has the times of the batches for the handles
    /// that are opened later; where these have no bytes, the last one alone is left, also for this handle. Then the handle drops
    /// the batches from memory that are in the tables of the manifest that it goes by, and their prefixes, where all are.
    ///
    /// # Errors
    ///
    /// error | when
    /// ---|---
    /// `Closed`, or the error that closed it | of a closed handle
    /// `WalDisabled` | `Wal` of a handle that keeps no log
    /// `Fenced` | another handle opened since
    /// `ObjectStoreError`, `TransactionalObjectVersionExists`, `LatestTransactionalObjectVersionMissing` | a fault of the store
    /// `InvalidDBState` | the next log file, table or manifest would pass the greatest id
    /// `NoMemory` | want of memory
    ///
    /// # Cost
    ///
    /// Three calls of the store at most with `Wal`, and five with `MemTable`; once where it is fenced, or its first look finds all
    /// batches in tables, none on a closed handle, and none after a call that failed. Time linear in the batches that it puts,
    /// however many operations they have, and in the manifest; a flush to a table also n log n comparisons, for n prefixes in the
    /// manifest and in memory. The table shares what the handle has in memory, with its indexes. Only where the tables of the latest
    /// manifest have some of these batches, which no store has that handles alone wrote, the others are indexed anew.
    ///
    /// # What stands after
    ///
    /// `Fenced` and every fault of the store close the handle with that error; `InvalidDBState` and `NoMemory` close nothing.
    /// After `ObjectStoreError` and `TransactionalObjectVersionExists` the log file may be stored, or it and the table, and after
    /// `ObjectStoreError` all three; after `NoMemory` all but the last of them; after any other error nothing is. The index of a
    /// table that was to be put is not used again. Where `NoMemory` comes after the table was put, memory is shared with it, and
    /// the next write indexes it once more.
    pub fn flush<S: Store>(
        &mut self,
        alloc: Global,
        store: &mut S,
        flush_type: FlushType,
    ) -> Result<(), SlateError>
        ensures does { (made : ℕ) × Flushes (by_objects (S.objects store.old)) made flush_type self.old (known S.objects S.faults store.old) result self.new (known S.objects S.faults store.new) }
        ensures kind { CanFlush flush_type self.old → IfErr result IsOfFlush }
        ensures count { S.faults store.old ≤ S.faults store.new }
        ensures calls { S.calls store.new ≤ S.calls store.old + flush_calls flush_type }
        ensures counted { S.calls store.new ≤ S.calls store.old + calls_of flush_type self.old }
        ensures first { IfSome (S.objects store.old) (λ o. IsDecided flush_type self.old o → S.calls store.new ≤ S.calls store.old + 1) }
        ensures untouched { (CanFlush flush_type self.old → ⊥) → store.new ≡ store.old }
    {
        if let Some(result) = self.closed() {
            return Err(SlateError::of_closed(result));
        }
        if !self.has_log_for(flush_type) {
            return Err(SlateError::WalDisabled);
        }
        match self.store_batches(alloc, store, flush_type) {
            Ok(()) => Ok(()),
            Err(error) => {
                self.record_fault(&error);
                Err(error)
            }
        }
    }

    /// Closes the handle with an error of a flush, where it is one that closes it.
    fn record_fault(&mut self, error: &SlateError)
        requires { self.old.result ≡ None }
        ensures { self.new ≡ record self.old { result = recorded error.now } }
    {
        if let Some(outcome) = recorded(error) {
            self.record_close(outcome);
        }
    }

    /// Whether it has what a flush of this type goes to.
    pub(crate) fn has_log_for(&self, flush_type: FlushType) -> bool
        ensures { result ≡ has_log_for flush_type self.now }
    {
        match flush_type {
            FlushType::Wal => self.keeps_log,
            FlushType::MemTable => true,
        }
    }

    /// Stores the accepted batches that aren't stored yet, and those that aren't in tables, as a flush of this type does,
    /// and reports the manifest that it goes by from then on. It reports no close.
    pub(crate) fn store_batches<S: Store>(
        &mut self,
        alloc: Global,
        store: &mut S,
        flush_type: FlushType,
    ) -> Result<(), SlateError>
        ensures kind { IfErr result IsOfFlush }
        ensures stored { (made : ℕ) × StoresBy kept_handle (by_objects (S.objects store.old)) flush_type self.old
            (known S.objects S.faults store.old) result self.new (known S.objects S.faults store.new) made }
        ensures calls { S.calls store.new ≤ S.calls store.old + flush_calls flush_type }
        ensures counted { S.calls store.new ≤ S.calls store.old + calls_of flush_type self.old }
        ensures first { IfSome (S.objects store.old) (λ o. IsDecided flush_type self.old o → S.calls store.new ≤ S.calls store.old + 1) }
    {
        let result = self.store_as(alloc, store, flush_type);
        self.drop_flushed(alloc);
        result
    }

    /// Stores what a flush of this type does, and drops no batch.
    fn store_as<S: Store>(
        &mut self,
        alloc: Global,
        store: &mut S,
        flush_type: FlushType,
    ) -> Result<(), SlateError>
        ensures kind { IfErr result IsOfFlush }
        ensures stored { (made : ℕ) × StoresBy (λ handle. handle) (by_objects (S.objects store.old)) flush_type self.old
            (known S.objects S.faults store.old) result self.new (known S.objects S.faults store.new) made }
        ensures calls { S.calls store.new ≤ S.calls store.old + flush_calls flush_type }
        ensures counted { S.calls store.new ≤ S.calls store.old + calls_of flush_type self.old }
        ensures first { IfSome (S.objects store.old) (λ o. IsDecided flush_type self.old o → S.calls store.new ≤ S.calls store.old + 1) }
    {
        match flush_type {
            FlushType::Wal => self.store_in_log(alloc, store),
            FlushType::MemTable => self.store_in_table(alloc, store),
        }
    }

    /// Puts the batches that aren't stored yet as one log file, where there are any.
    fn store_in_log<S: Store>(&mut self, alloc: Global, store: &mut S) -> Result<(), SlateError>
        ensures kind { IfErr result IsOfFlush }
        ensures stored { (made : ℕ) × StoresBy (λ handle. handle) (by_objects (S.objects store.old)) FlushType.Wal self.old
            (known S.objects S.faults store.old) result self.new (known S.objects S.faults store.new) made }
        ensures calls { S.calls store.new ≤ S.calls store.old + 3 }
        ensures counted { S.calls store.new ≤ S.calls store.old + calls_of FlushType.Wal self.old }
        ensures first { IfSome (S.objects store.old) (λ o. IsDecided FlushType.Wal self.old o → S.calls store.new ≤ S.calls store.old + 1) }
    {
        let latest = current_manifest(alloc, store, self.epoch)?;
        let mark = latest.manifest.replay_after_wal_id;
        match append_log(alloc, store, mark, self.to_log()) {
            Ok(()) => {
                self.adopt_stored(latest);
                Ok(())
            }
            Err(error) => {
                self.adopt(latest);
                Err(error)
            }
        }
    }
}

/// The latest manifest, where a handle of this epoch may still write by it.
pub(crate) fn current_manifest<S: Store>(
    alloc: Global,
    store: &mut S,
    epoch: u64,
) -> Result<VersionedManifest, SlateError>
    ensures faults { CountsFaults (S.faults store.old) (S.faults store.new) result }
    ensures calls { S.calls store.new ≤ S.calls store.old + 1 }
    ensures kept { S.objects store.new ≡ S.objects store.old }
    ensures where_modelled { IfSome (S.objects store.old) (λ o. FindsCurrent epoch o result) }
    ensures kind { IfErr result IsOfLooking }
{
    let Some(latest) = store.latest_manifest(alloc)? else {
        return Err(SlateError::LatestTransactionalObjectVersionMissing);
    };
    if latest.manifest.writer_epoch > epoch {
        return Err(SlateError::Fenced);
    }
    Ok(latest)
}

/// Stores batches as the log file after the last one; where there are none, it puts nothing.
fn append_log<S: Store>(
    alloc: Global,
    store: &mut S,
    mark: u64,
    batches: &[Batch],
) -> Result<(), SlateError>
    ensures faults { CountsFaults (S.faults store.old) (S.faults store.new) result }
    ensures kind { IfErr result IsOfFlush }
    ensures calls { S.calls store.new ≤ S.calls store.old + log_calls batches.now }
    ensures appended { (counter : ℕ) → WhereModelled (λ o o'. (made : ℕ) × MakesPart (has_log_id batches.now (last_log mark o))
        (log_changes (λ batches. batches) batches.now (last_log mark o)) result counter counter made o o')
        (S.objects store.old) (S.objects store.new) }
{
    if batches.is_empty() {
        return Ok(());
    }
    let last = store.last_log(alloc, mark)?;
    let Some(id) = last.checked_add(1) else {
        return Err(SlateError::InvalidDBState);
    };
    Ok(store.put_log(alloc, id, batches)?)
}
