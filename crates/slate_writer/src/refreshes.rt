// Refreshing a handle's view, and compacting the tables of its database.
ghost use Rattle.std.specs.Prelude.{◌≡◌, ◌+◌, ◌≤◌, ℕ, None, IfErr, IfOk, IfSome};
ghost use Rattle.slate_model.specs.Handle.{kept_handle};
ghost use Rattle.slate_model.specs.Known.{CountsFaults, FaultsRise, known};
ghost use Rattle.slate_model.specs.Refresh.{Compacts, RefreshAnswer, Refreshes, fenced_result};
ghost use Rattle.slate_model.specs.Stores.{by_objects};
ghost use Rattle.slate_store.specs.Calls.{WhereModelled};
ghost use Rattle.slate_store.specs.Compaction.{HasTablesToJoin, compact_calls};
ghost use Rattle.slate_writer.specs.Joined.{Joins};
ghost use Rattle.slate_writer.specs.Kinds.{IsOfCompacting, IsOfLooking};

use crate::WriterState;
use crate::flushes::current_manifest;
use slate_errors::{CloseFault, SlateError};
use slate_model::error_of_refusal;
use slate_store::{Store, compact_tables};
use std::alloc::Global;

impl WriterState {
    /// Takes the latest manifest as the one that the handle goes by, and drops the batches from memory that are in its
    /// tables. It puts nothing, calls the store once, and takes time linear in the manifest and in the operations of the
    /// batches that it drops.
    ///
    /// On a closed handle it answers `Closed` or the error that closed it, and touches no store. `Fenced`, where another
    /// handle opened since, closes the handle. `LatestTransactionalObjectVersionMissing`, `ObjectStoreError` and `NoMemory`
    /// close nothing. After an error the handle goes by the manifest that it had. SlateDB's `refresh_manifest`.
    pub fn refresh_manifest<S: Store>(
        &mut self,
        alloc: Global,
        store: &mut S,
    ) -> Result<(), SlateError>
        ensures does { Refreshes (by_objects (S.objects store.old)) self.old (known S.objects S.faults store.old) result self.new (known S.objects S.faults store.new) }
        ensures kind { self.old.result ≡ None → IfErr result IsOfLooking }
        ensures count { S.faults store.old ≤ S.faults store.new }
        ensures calls { S.calls store.new ≤ S.calls store.old + 1 }
        ensures untouched { (self.old.result ≡ None → ⊥) → store.new ≡ store.old }
    {
        if let Some(result) = self.closed() {
            return Err(SlateError::of_closed(result));
        }
        let result = self.take_latest(alloc, store);
        self.finish(alloc, &result);
        result
    }

    /// Joins the tables of the latest manifest into one, commits a manifest that names that one alone, and takes it as the
    /// one that the handle goes by; where there are fewer than two tables, it puts nothing and takes the latest one. It drops
    /// the batches from memory that are in its tables. The tables that were joined stay stored, and all rows are read as
    /// before.
    ///
    /// It calls the store three times and once for each table, and once where there are fewer than two. It takes time linear in the operations of the tables, with a
    /// logarithm of the keys for each key, and copies no keys and no values.
    ///
    /// On a closed handle it answers `Closed` or the error that closed it, and touches no store. `Fenced`, where another
    /// handle opened since, closes the handle. Every other error closes nothing: `LatestTransactionalObjectVersionMissing`;
    /// `InvalidDBState`, where there are tables to join and the next table or manifest would pass the greatest id;
    /// `ObjectStoreError`, `TransactionalObjectVersionExists` and `NoMemory`, after which the table may be stored, and after
    /// the first of them the manifest, too. Over a store that isn't sound `InvalidDBState` also says that the batches of the
    /// tables don't come one after another, and `ObjectStoreError` that a table isn't stored. After an error the handle goes
    /// by the manifest that it had. SlateDB runs it in a compactor.
    pub fn compact<S: Store>(&mut self, alloc: Global, store: &mut S) -> Result<(), SlateError>
        ensures does { (made : ℕ) × Compacts (by_objects (S.objects store.old)) made self.old (known S.objects S.faults store.old) result self.new (known S.objects S.faults store.new) }
        ensures kind { self.old.result ≡ None → IfErr result IsOfCompacting }
        ensures count { S.faults store.old ≤ S.faults store.new }
        ensures read { IfOk result (λ _. IfSome (S.objects store.old) HasTablesToJoin) }
        ensures calls { IfSome (S.objects store.old) (λ o. S.calls store.new ≤ S.calls store.old + compact_calls o) }
        ensures untouched { (self.old.result ≡ None → ⊥) → store.new ≡ store.old }
    {
        if let Some(result) = self.closed() {
            return Err(SlateError::of_closed(result));
        }
        let result = self.join_tables(alloc, store);
        self.finish(alloc, &result);
        result
    }

    /// Takes the latest manifest as the one that it goes by, where its epoch is current.
    fn take_latest<S: Store>(&mut self, alloc: Global, store: &mut S) -> Result<(), SlateError>
        ensures moved { self.new ≡ record self.old { view = self.new.view } }
        ensures faults { CountsFaults (S.faults store.old) (S.faults store.new) result }
        ensures calls { S.calls store.new ≤ S.calls store.old + 1 }
        ensures kind { IfErr result IsOfLooking }
        ensures kept { S.objects store.new ≡ S.objects store.old }
        ensures answer { IfSome (S.objects store.old) (λ o. RefreshAnswer self.old o result self.new.view) }
    {
        let latest = current_manifest(alloc, store, self.epoch)?;
        self.adopt(latest);
        Ok(())
    }

    /// Joins the tables of the latest manifest, where there are two or more, and takes the manifest that is the latest then
    /// as the one that it goes by.
    fn join_tables<S: Store>(&mut self, alloc: Global, store: &mut S) -> Result<(), SlateError>
        ensures moved { self.new ≡ record self.old { counter = self.new.counter; view = self.new.view } }
        ensures faults { FaultsRise (S.faults store.old) (S.faults store.new) result }
        ensures kind { IfErr result IsOfCompacting }
        ensures read { IfOk result (λ _. IfSome (S.objects store.old) HasTablesToJoin) }
        ensures calls { IfSome (S.objects store.old) (λ o. S.calls store.new ≤ S.calls store.old + compact_calls o) }
        ensures joins { WhereModelled (λ o o'. (made : ℕ) × Joins self.old result self.new made o o') (S.objects store.old) (S.objects store.new) }
        ensures counter { (self.old.counter ≤ self.new.counter) × (self.new.counter ≤ self.old.counter + 1) }
    {
        let mut index = self.counter;
        let joined = compact_tables(alloc, store, self.epoch, &mut index);
        self.counter = index;
        match joined {
            Ok(manifest) => {
                self.adopt(manifest);
                Ok(())
            }
            Err(refusal) => Err(error_of_refusal(refusal)),
        }
    }

    /// Drops the batches that are in tables, after a call that may have moved the view, and closes the handle where it was
    /// found fenced.
    fn finish(&mut self, alloc: Global, answer: &Result<(), SlateError>)
        requires { self.old.result ≡ None }
        ensures { self.new ≡ record (kept_handle self.old) { result = fenced_result answer.now } }
    {
        self.drop_flushed(alloc);
        if let Err(SlateError::Fenced) = answer {
            self.record_close(Err(CloseFault::Fenced));
        }
    }
}
