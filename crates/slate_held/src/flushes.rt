// What a handle does to its own store.
ghost use Rattle.std.specs.Prelude.{◌≡◌, ◌⊎◌, ◌+◌, ◌≤◌, ℕ, [], None, if◌then◌else◌, IfErr, IfOk, IfSome};
ghost use Rattle.slate_errors.specs.declared.errors.SlateError.TheVariants.{WalDisabled};
ghost use Rattle.slate_model.specs.Close.{Closes};
ghost use Rattle.slate_model.specs.Flush.{CanFlush, Flushes};
ghost use Rattle.slate_model.specs.Known.{known};
ghost use Rattle.slate_model.specs.Refresh.{Refreshes};
ghost use Rattle.slate_model.specs.Stores.{by_objects};
ghost use Rattle.slate_writer.specs.Board.{words_of};
ghost use Rattle.slate_writer.specs.Kinds.{IsOfFlush, IsOfLooking};
ghost use Rattle.slate_writer.specs.Puts.{IsDecided, calls_of, flush_calls};

use crate::Held;
use slate_errors::{Ended, SlateError};
use slate_store::Store;
use slate_types::{CloseOptions, FlushType, NoMemory};
use slate_writer::BoardWatch;
use std::alloc::Global;

impl<S: Store> Held<S> {
    /// Stores the accepted batches, as `WriterState::flush` does.
    pub fn flush(&mut self, alloc: Global, flush_type: FlushType) -> Result<(), SlateError>
        ensures does { (made : ℕ) × Flushes (by_objects (S.objects self.old.store)) made flush_type self.old.handle (known S.objects S.faults self.old.store) result self.new.handle (known S.objects S.faults self.new.store) }
        ensures kind { CanFlush flush_type self.old.handle → IfErr result IsOfFlush }
        ensures count { S.faults self.old.store ≤ S.faults self.new.store }
        ensures calls { S.calls self.new.store ≤ S.calls self.old.store + flush_calls flush_type }
        ensures counted { S.calls self.new.store ≤ S.calls self.old.store + calls_of flush_type self.old.handle }
        ensures first { IfSome (S.objects self.old.store) (λ o. IsDecided flush_type self.old.handle o → S.calls self.new.store ≤ S.calls self.old.store + 1) }
        ensures untouched { (CanFlush flush_type self.old.handle → ⊥) → self.new.store ≡ self.old.store }
    {
        self.writer.flush(alloc, &mut self.store, flush_type)
    }

    /// Takes the latest manifest as the one that the handle goes by, as `WriterState::refresh_manifest` does.
    pub fn refresh_manifest(&mut self, alloc: Global) -> Result<(), SlateError>
        ensures does { Refreshes (by_objects (S.objects self.old.store)) self.old.handle (known S.objects S.faults self.old.store) result self.new.handle (known S.objects S.faults self.new.store) }
        ensures kind { self.old.handle.result ≡ None → IfErr result IsOfLooking }
        ensures count { S.faults self.old.store ≤ S.faults self.new.store }
        ensures calls { S.calls self.new.store ≤ S.calls self.old.store + 1 }
        ensures untouched { (self.old.handle.result ≡ None → ⊥) → self.new.store ≡ self.old.store }
    {
        self.writer.refresh_manifest(alloc, &mut self.store)
    }

    /// Closes the handle, as `WriterState::close` does.
    pub fn close(&mut self, alloc: Global, options: &CloseOptions) -> Ended
        ensures does { (made : ℕ) × Closes (by_objects (S.objects self.old.store)) made options.now.flush_type self.old.handle (known S.objects S.faults self.old.store) result self.new.handle (known S.objects S.faults self.new.store) }
        ensures kind { self.old.handle.result ≡ None → IfSome result.fault (λ error. (error ≡ WalDisabled) ⊎ IsOfFlush error) }
        ensures tasks { result.tasks ≡ self.old.handle.tasks }
        ensures ended { self.new.handle.tasks ≡ [] }
        ensures count { S.faults self.old.store ≤ S.faults self.new.store }
        ensures calls { IfSome options.now.flush_type (λ t. S.calls self.new.store ≤ S.calls self.old.store + flush_calls t) }
        ensures untouched { IfSome options.now.flush_type (λ t. (CanFlush t self.old.handle → ⊥) → self.new.store ≡ self.old.store) }
        ensures unflushed { options.now.flush_type ≡ None → self.new.store ≡ self.old.store }
    {
        self.writer.close(alloc, &mut self.store, options)
    }

    /// The type of a flush for which none is given: to the log where the handle keeps one, and else to a table.
    pub fn flush_type(&self) -> FlushType
        ensures { result ≡ (if self.now.handle.keeps_log then FlushType.Wal else FlushType.MemTable) }
    {
        if self.writer.keeps_log() {
            FlushType::Wal
        } else {
            FlushType::MemTable
        }
    }

    /// A view of the handle's tick, durable number and close code for another thread, as `WriterState::watch` gives it.
    pub fn watch(&mut self) -> Result<BoardWatch, NoMemory>
        ensures same { self.new ≡ self.old }
        ensures seen { IfOk result (λ watch. watch ≡ words_of self.old.handle) }
    {
        self.writer.watch()
    }
}
