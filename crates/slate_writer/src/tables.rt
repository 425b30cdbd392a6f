// Flushing a handle's batches to a table.
ghost use Rattle.std.specs.Prelude.{◌≡◌, ◌+◌, ◌<◌, ◌≤◌, ◌⊎◌, ℕ, false, true, nat_lt, IfErr, IfOk, IfSome};
ghost use Rattle.slate_types.specs.declared.options.FlushType.TheVariants.{MemTable};
ghost use Rattle.slate_types.specs.Line.{batches_above};
ghost use Rattle.slate_store.specs.Calls.{WhereModelled};
ghost use Rattle.slate_store.specs.Objects.{last_log};
ghost use Rattle.slate_seqtrack.specs.Bytes.{has_bytes, packed};
ghost use Rattle.slate_seqtrack.specs.Spelling.{tracker_bytes};
ghost use Rattle.slate_model.specs.Flush.{IsReadAgain, flushed_manifest, log_after, next_flushed};
ghost use Rattle.slate_model.specs.Handle.{next_table, to_log};
ghost use Rattle.slate_model.specs.Known.{CountsFaults, known};
ghost use Rattle.slate_model.specs.Stores.{by_objects};
ghost use Rattle.slate_model.specs.Write.{last_number};
ghost use Rattle.slate_writer.specs.Kinds.{IsOfFlush};
ghost use Rattle.slate_writer.specs.Puts.{DurableThen, IsDecided, MakesPart, PutsLog, StoresBy, all_changes, calls_of, durable_by, has_all_ids, logged_durable, plain, put_calls, table_puts};

use crate::WriterState;
use crate::flushes::current_manifest;
use crate::opens::latest_tick;
use slate_errors::SlateError;
use slate_reads::Table;
use slate_status::union;
use slate_store::{Manifest, Store, TableId, VersionedManifest};
use slate_types::{NoMemory, Seq};
use std::alloc::Global;

impl WriterState {
    /// Puts the batches that aren't stored yet as a log file, where the handle keeps a log, then all that aren't in tables
    /// as one table, and commits a manifest that names it. Where the tables of the latest manifest have all batches, it
    /// puts nothing.
    pub(crate) fn store_in_table<S: Store>(
        &mut self,
        alloc: Global,
        store: &mut S,
    ) -> Result<(), SlateError>
        ensures kind { IfErr result IsOfFlush }
        ensures stored { (made : ℕ) × StoresBy (λ handle. handle) (by_objects (S.objects store.old)) MemTable self.old
            (known S.objects S.faults store.old) result self.new (known S.objects S.faults store.new) made }
        ensures calls { S.calls store.new ≤ S.calls store.old + 5 }
        ensures counted { S.calls store.new ≤ S.calls store.old + calls_of MemTable self.old }
        ensures first { IfSome (S.objects store.old) (λ o. IsDecided MemTable self.old o → S.calls store.new ≤ S.calls store.old + 1) }
    {
        let latest = current_manifest(alloc, store, self.epoch)?;
        if self.accepted() <= latest.manifest.last_l0_seq {
            self.adopt_stored(latest);
            return Ok(());
        }
        self.pack_tracker();
        match self.commit_table(alloc, store, &latest) {
            Ok(next) => {
                self.adopt_stored(next);
                Ok(())
            }
            Err(error) => {
                self.adopt(latest);
                Err(error)
            }
        }
    }

    /// Packs the tracker, so that it has bytes.
    fn pack_tracker(&mut self)
        ensures packed { self.new ≡ record self.old { tracker = packed self.old.tracker } }
        ensures encodable { has_bytes self.new.tracker ≡ true }
    {
        self.tracker.pack();
    }

    /// Puts what a flush to a table under the latest manifest puts, and answers the manifest that it commits, which has the
    /// bytes of the tracker. What takes memory of its own, and the ids, is seen to before anything is put.
    fn commit_table<S: Store>(
        &mut self,
        alloc: Global,
        store: &mut S,
        latest: &VersionedManifest,
    ) -> Result<VersionedManifest, SlateError>
        requires { has_bytes self.old.tracker ≡ true }
        ensures moved { self.new ≡ record self.old { durable = self.new.durable; counter = self.new.counter } }
        ensures again { IfOk result (λ next. IsReadAgain self.old.tracker) }
        ensures counter { (self.old.counter ≤ self.new.counter) × (self.new.counter ≤ self.old.counter + 1) }
        ensures faults { CountsFaults (S.faults store.old) (S.faults store.new) result }
        ensures calls { S.calls store.new ≤ S.calls store.old + 3 + put_calls (to_log self.old) }
        ensures kind { IfErr result IsOfFlush }
        ensures commits { IfOk result (λ next. IfSome (S.objects store.old) (λ o. next ≡ next_flushed self.old latest.now (last_log latest.now.manifest.replay_after_wal_id o))) }
        ensures put { (made : ℕ) × DurableThen made self.old (plain result) self.new
            × WhereModelled (λ o o'. let last = last_log latest.now.manifest.replay_after_wal_id o in
            MakesPart (has_all_ids self.old latest.now last) (all_changes self.old latest.now last)
            (plain result) self.old.counter self.new.counter made o o') (S.objects store.old) (S.objects store.new) }
    {
        let last = store.last_log(alloc, latest.manifest.replay_after_wal_id)?;
        let next = self.next_flushed(alloc, latest, last)?;
        let table = self.freeze_above(alloc, latest.manifest.last_l0_seq)?;
        self.put_flush(alloc, store, &table, &next)?;
        Ok(next)
    }

    /// The table of the batches in memory above a number. Where all are above it, it shares their indexes, and takes constant
    /// time.
    fn freeze_above(&mut self, alloc: Global, number: u64) -> Result<Table, NoMemory>
        ensures same { self.new ≡ self.old }
        ensures table { IfOk result (λ table. table ≡ batches_above number self.old.line.batches) }
    {
        self.memory.freeze(alloc)?;
        self.memory.share(alloc)?.above(alloc, number)
    }

    /// The manifest that a flush to a table commits after the latest one, where `last` is the last log file.
    fn next_flushed(
        &self,
        alloc: Global,
        latest: &VersionedManifest,
        last: u64,
    ) -> Result<VersionedManifest, SlateError>
        requires { has_bytes self.now.tracker ≡ true }
        ensures next { IfOk result (λ next. next ≡ next_flushed self.now latest.now last) }
        ensures again { IfOk result (λ next. IsReadAgain self.now.tracker) }
        ensures room { IfOk result (λ next. self.now.counter < u64.MAX) }
        ensures refused { IfErr result (λ error. (error ≡ SlateError.NoMemory) ⊎ ((error ≡ SlateError.InvalidDBState) × (has_all_ids self.now latest.now last ≡ false))) }
    {
        let Some(mark) = self.next_mark(last) else {
            return Err(SlateError::InvalidDBState);
        };
        if self.counter == u64::MAX || latest.id == u64::MAX {
            return Err(SlateError::InvalidDBState);
        }
        Ok(self.flushed_manifest(alloc, latest, mark)?)
    }

    /// The last log file after a flush, where `last` is the last one before it. There is one more id after it, or it
    /// answers None.
    fn next_mark(&self, last: u64) -> Option<u64>
        ensures some { IfSome result (λ mark. (mark ≡ log_after (to_log self.now) last) × (mark < last_number)) }
        ensures none { result ≡ None → nat_lt (log_after (to_log self.now) last) last_number ≡ false }
    {
        if last == u64::MAX {
            return None;
        }
        if self.to_log().is_empty() {
            return Some(last);
        }
        let mark = last + 1;
        (mark < u64::MAX).then_some(mark)
    }

    /// The manifest after the latest one that names the handle's next table, and a replay of which begins after `mark`. Its
    /// segments are those of the latest one and those of the handle's batches, and it has the bytes of the tracker.
    fn flushed_manifest(
        &self,
        alloc: Global,
        latest: &VersionedManifest,
        mark: u64,
    ) -> Result<VersionedManifest, NoMemory>
        requires id { latest.now.id < u64.MAX }
        requires mark { mark < u64.MAX }
        requires tracker { has_bytes self.now.tracker ≡ true }
        ensures next { IfOk result (λ next. next ≡ record { id = latest.now.id + 1; manifest = flushed_manifest self.now latest.now.manifest mark }) }
        ensures again { IfOk result (λ next. IsReadAgain self.now.tracker) }
    {
        let sequence_tracker = self.tracker_bytes(alloc)?;
        let manifest = latest.manifest.clone()?;
        let untabled = self.batches_above(manifest.last_l0_seq);
        let last_tick = latest_tick(manifest.last_tick, untabled);
        let mut tables = manifest.tables.into_vec();
        tables.push(self.next_table())?;
        let segments = union(
            alloc,
            manifest.segments.as_slice(),
            self.untabled_segments(),
        )?;
        Ok(VersionedManifest {
            id: latest.id + 1,
            manifest: Manifest {
                tables: Seq::of(tables),
                last_l0_seq: self.accepted(),
                last_tick,
                replay_after_wal_id: mark,
                next_wal_id: mark + 1,
                segments: Seq::of(segments),
                sequence_tracker: Some(Seq::of(sequence_tracker)),
                ..manifest
            },
        })
    }

    /// The bytes of the tracker.
    fn tracker_bytes(&self, alloc: Global) -> Result<Vec<u8>, NoMemory>
        requires { has_bytes self.now.tracker ≡ true }
        ensures bytes { IfOk result (λ bytes. bytes.items ≡ tracker_bytes (packed self.now.tracker)) }
        ensures again { IfOk result (λ bytes. IsReadAgain self.now.tracker) }
    {
        match self.tracker.to_bytes(alloc) {
            Ok(bytes) => Ok(bytes),
            Err(_full) => Err(NoMemory),
        }
    }

    /// The id of its next table.
    fn next_table(&self) -> TableId
        ensures { result ≡ next_table self.now }
    {
        TableId {
            epoch: self.epoch,
            index: self.counter,
        }
    }

    /// Puts the log file, where there is one to put, the table, and then the manifest. The count of tables is raised
    /// before the table is put, and what is in the log is reported durable at once.
    fn put_flush<S: Store>(
        &mut self,
        alloc: Global,
        store: &mut S,
        table: &Table,
        next: &VersionedManifest,
    ) -> Result<(), SlateError>
        requires { self.old.counter < u64.MAX }
        ensures moved { self.new ≡ record self.old { durable = self.new.durable; counter = self.new.counter } }
        ensures counter { (self.old.counter ≤ self.new.counter) × (self.new.counter ≤ self.old.counter + 1) }
        ensures faults { CountsFaults (S.faults store.old) (S.faults store.new) result }
        ensures kind { IfErr result IsOfFlush }
        ensures calls { S.calls store.new ≤ S.calls store.old + 2 + put_calls (to_log self.old) }
        ensures put { (made : ℕ) × DurableThen made self.old result self.new
            × WhereModelled (MakesPart true (table_puts next.now.manifest.replay_after_wal_id (to_log self.old) (next_table self.old) table.now next.now)
            result self.old.counter self.new.counter made) (S.objects store.old) (S.objects store.new) }
    {
        let id = self.next_table();
        self.put_unstored(alloc, store, next.manifest.replay_after_wal_id)?;
        self.counter += 1;
        store.put_table(alloc, id, table)?;
        self.report_logged();
        Ok(store.put_manifest(alloc, next.id, &next.manifest)?)
    }

    /// Puts the batches that aren't stored yet as a log file, where the handle keeps a log and there are any.
    fn put_unstored<S: Store>(
        &mut self,
        alloc: Global,
        store: &mut S,
        id: u64,
    ) -> Result<(), SlateError>
        ensures moved { self.new ≡ record self.old { durable = durable_by (to_log self.old) self.old result } }
        ensures faults { CountsFaults (S.faults store.old) (S.faults store.new) result }
        ensures kind { IfErr result IsOfFlush }
        ensures calls { S.calls store.new ≤ S.calls store.old + put_calls (to_log self.old) }
        ensures put { WhereModelled (PutsLog id (to_log self.old) result) (S.objects store.old) (S.objects store.new) }
    {
        let batches = self.to_log();
        if batches.is_empty() {
            return Ok(());
        }
        store.put_log(alloc, id, batches)?;
        self.report_logged();
        Ok(())
    }

    /// Reports all batches durable, where the handle keeps a log, which has them by now.
    fn report_logged(&mut self)
        ensures { self.new ≡ record self.old { durable = logged_durable self.old } }
    {
        if self.keeps_log {
            self.report_stored();
        }
    }
}
