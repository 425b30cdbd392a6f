// Closing a handle, with the flush that is asked for.
ghost use Rattle.std.specs.Prelude.{◌≡◌, ◌+◌, ◌≤◌, ◌⊎◌, ℕ, [], None, Some, IfSome};
ghost use Rattle.slate_model.specs.Close.{Closes, closed, ended, without_tasks};
ghost use Rattle.slate_model.specs.Flush.{CanFlush};
ghost use Rattle.slate_model.specs.Known.{known};
ghost use Rattle.slate_model.specs.Stores.{by_objects};
ghost use Rattle.slate_errors.specs.declared.errors.SlateError.TheVariants.{WalDisabled};
ghost use Rattle.slate_writer.specs.Kinds.{IsOfFlush};
ghost use Rattle.slate_writer.specs.Puts.{flush_calls};

use crate::WriterState;
use slate_errors::{CloseFault, Ended, SlateError};
use slate_store::Store;
use slate_types::CloseOptions;
use std::alloc::Global;

impl WriterState {
    /// Closes the handle: flushes what the options ask for, records that it closed cleanly, however the flush ends, and ends
    /// the tasks that run, which it lists: those of the options with which it was opened, in the order `memtable_flusher`,
    /// `compactor`, `compaction_worker`, `garbage_collector`, `batch_writer`. From then on its writes, reads and flushes
    /// answer `Closed`.
    ///
    /// The error of the flush is answered beside the tasks, and is what `flush` would answer, `NoMemory` among them; the
    /// handle stays cleanly closed, and a batch that wasn't stored is lost. A handle that closed cleanly before answers
    /// `Closed`, and one that an error closed answers none; neither touches the store, and the result that was recorded first
    /// stays. The tasks of a handle that an error closed run until its first close, which ends and lists them; every later
    /// close lists none. It takes the time and the calls of the flush, and a constant of time and no call where there is
    /// none. SlateDB's `close`.
    pub fn close<S: Store>(&mut self, alloc: Global, store: &mut S, options: &CloseOptions) -> Ended
        ensures does { (made : ℕ) × Closes (by_objects (S.objects store.old)) made options.now.flush_type self.old
            (known S.objects S.faults store.old) result self.new (known S.objects S.faults store.new) }
        ensures kind { self.old.result ≡ None → IfSome result.fault (λ error. (error ≡ WalDisabled) ⊎ IsOfFlush error) }
        ensures tasks { result.tasks ≡ self.old.tasks }
        ensures ended { self.new.tasks ≡ [] }
        ensures count { S.faults store.old ≤ S.faults store.new }
        ensures calls { IfSome options.now.flush_type (λ t. S.calls store.new ≤ S.calls store.old + flush_calls t) }
        ensures untouched { IfSome options.now.flush_type (λ t. (CanFlush t self.old → ⊥) → store.new ≡ store.old) }
        ensures unflushed { options.now.flush_type ≡ None → store.new ≡ store.old }
    {
        match self.closed() {
            Some(Ok(())) => self.end_tasks(Ok(()), Some(SlateError::Closed)),
            Some(Err(fault)) => self.end_tasks(Err(fault), None),
            None => match options.flush_type {
                None => self.end(None),
                Some(flush_type) if !self.has_log_for(flush_type) => {
                    self.end(Some(SlateError::WalDisabled))
                }
                Some(flush_type) => {
                    let flushed = self.store_batches(alloc, store, flush_type);
                    self.end(flushed.err())
                }
            },
        }
    }

    /// Records that the handle closed cleanly, ends its tasks, and answers how its flush ended.
    fn end(&mut self, fault: Option<SlateError>) -> Ended
        requires { self.old.result ≡ None }
        ensures answer { result ≡ ended self.old.tasks fault }
        ensures closed { self.new ≡ closed self.old }
    {
        self.record_close(Ok(()));
        self.end_tasks(Ok(()), fault)
    }

    /// Ends the tasks that run, and answers them beside a fault. They are told how the handle closed.
    fn end_tasks(&mut self, outcome: Result<(), CloseFault>, fault: Option<SlateError>) -> Ended
        requires { self.old.result ≡ Some outcome }
        ensures answer { result ≡ ended self.old.tasks fault }
        ensures ended { self.new ≡ without_tasks self.old }
    {
        Ended {
            fault,
            tasks: self.tasks.end(outcome),
        }
    }
}
