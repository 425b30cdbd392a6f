// What a handle does to keep its store small, and what it knows of its batches.
ghost use Rattle.std.specs.Prelude.{◌≡◌, ◌+◌, ◌≤◌, ℕ, None, IfErr, IfOk, IfSome};
ghost use Rattle.std.specs.Ordering.{int_cmp, nat_cmp};
ghost use Rattle.slate_seqtrack.specs.Lookup.{IsPartner};
ghost use Rattle.slate_seqtrack.specs.Tracker.{numbers_of, times_of};
ghost use Rattle.slate_store.specs.Calls.{WhereModelled};
ghost use Rattle.slate_store.specs.Checkpoints.{to_write};
ghost use Rattle.slate_store.specs.Compaction.{HasTablesToJoin, compact_calls};
ghost use Rattle.slate_store.specs.Refusals.{CountsFaults, CountsTries, FollowsPlan, IsOfCommit, IsOfSweep, KeepsContent};
ghost use Rattle.slate_store.specs.Sweeps.{Sweeps, sweep_calls};
ghost use Rattle.slate_model.specs.Known.{known};
ghost use Rattle.slate_model.specs.Refresh.{Compacts};
ghost use Rattle.slate_model.specs.Stores.{by_objects};
ghost use Rattle.slate_model.specs.Unflushed.{unflushed};
ghost use Rattle.slate_writer.specs.Kinds.{IsOfCompacting};

use crate::Held;
use slate_errors::SlateError;
use slate_seqtrack::FindOption;
use slate_store::{Checkpoint, Store, StoreRefusal, sweep, write_checkpoint};
use std::alloc::Global;

impl<S: Store> Held<S> {
    /// Joins the tables of the latest manifest into one, as `WriterState::compact` does.
    pub fn compact(&mut self, alloc: Global) -> Result<(), SlateError>
        ensures does { (made : ℕ) × Compacts (by_objects (S.objects self.old.store)) made self.old.handle (known S.objects S.faults self.old.store) result self.new.handle (known S.objects S.faults self.new.store) }
        ensures kind { self.old.handle.result ≡ None → IfErr result IsOfCompacting }
        ensures read { IfOk result (λ _. IfSome (S.objects self.old.store) HasTablesToJoin) }
        ensures count { S.faults self.old.store ≤ S.faults self.new.store }
        ensures calls { IfSome (S.objects self.old.store) (λ o. S.calls self.new.store ≤ S.calls self.old.store + compact_calls o) }
        ensures untouched { (self.old.handle.result ≡ None → ⊥) → self.new.store ≡ self.old.store }
    {
        self.writer.compact(alloc, &mut self.store)
    }

    /// Commits a checkpoint of what is stored, from this moment on for so many milliseconds, or without an end, as
    /// `write_checkpoint` does.
    pub fn checkpoint(
        &mut self,
        alloc: Global,
        lifetime: Option<u64>,
        moment: i64,
    ) -> Result<Checkpoint, StoreRefusal>
        ensures follows { WhereModelled (λ o o'. (made : ℕ) × FollowsPlan (to_write None lifetime moment) o result made o') (S.objects self.old.store) (S.objects self.new.store) }
        ensures sound { WhereModelled KeepsContent (S.objects self.old.store) (S.objects self.new.store) }
        ensures faults { CountsFaults (S.faults self.old.store) (S.faults self.new.store) result }
        ensures tries { CountsTries (S.calls self.old.store) (S.calls self.new.store) result }
        ensures kind { IfErr result (IsOfCommit None) }
        ensures kept { self.new.handle ≡ self.old.handle }
    {
        write_checkpoint(alloc, &mut self.store, lifetime, moment)
    }

    /// Removes what nothing needs at this moment, in milliseconds, and answers how many objects that was, as `sweep` does.
    pub fn sweep(&mut self, alloc: Global, moment: i64) -> Result<u64, StoreRefusal>
        ensures sweeps { WhereModelled (λ o o'. (made : ℕ) × Sweeps moment o result made o') (S.objects self.old.store) (S.objects self.new.store) }
        ensures sound { WhereModelled KeepsContent (S.objects self.old.store) (S.objects self.new.store) }
        ensures faults { CountsFaults (S.faults self.old.store) (S.faults self.new.store) result }
        ensures calls { IfSome (S.objects self.old.store) (λ o. S.calls self.new.store ≤ S.calls self.old.store + sweep_calls moment o) }
        ensures kind { IfErr result IsOfSweep }
        ensures kept { self.new.handle ≡ self.old.handle }
    {
        sweep(alloc, &mut self.store, moment)
    }

    /// When the batch with a number was written, in whole seconds, as `WriterState::find_ts` answers it.
    pub fn find_ts(&self, seq: u64, find: FindOption) -> Option<i64>
        ensures { IsPartner nat_cmp find seq (numbers_of self.now.handle.tracker) (times_of self.now.handle.tracker) result }
    {
        self.writer.find_ts(seq, find)
    }

    /// The number of the batch that was written at a time, in whole seconds, as `WriterState::find_seq` answers it.
    pub fn find_seq(&self, ts: i64, find: FindOption) -> Option<u64>
        ensures { IsPartner int_cmp find ts (times_of self.now.handle.tracker) (numbers_of self.now.handle.tracker) result }
    {
        self.writer.find_seq(ts, find)
    }

    /// How many bytes of keys and values aren't flushed, as `WriterState::unflushed` counts them.
    pub fn unflushed(&self) -> u64
        ensures { result ≡ unflushed self.now.handle }
    {
        self.writer.unflushed()
    }
}
