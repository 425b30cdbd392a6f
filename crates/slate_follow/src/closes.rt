// Closing a reader that follows a database.
ghost use Rattle.std.specs.Prelude.{◌≡◌, ◌≢◌, ◌+◌, ◌≤◌, ℕ, None, IfSome, true, false};
ghost use Rattle.slate_model.specs.Close.{closed_follower, ended, recorded_fault};
ghost use Rattle.slate_model.specs.Follower.{follower_tasks, is_managed};
ghost use Rattle.slate_model.specs.Known.{known};
ghost use Rattle.slate_model.specs.Managed.{ClosesManaged, EndsLease};
ghost use Rattle.slate_model.specs.Stores.{by_objects};
ghost use Rattle.slate_follow.specs.Answering.{IsOfPoll};

use crate::FollowerState;
use slate_errors::{Ended, SlateError};
use slate_model::error_of_refusal;
use slate_store::{Store, delete_checkpoint};
use std::alloc::Global;

impl FollowerState {
    /// Closes the reader, and ends its task, `manifest_poller`, which it lists. One that stays at a checkpoint has no task,
    /// and a second close lists none. From then on its gets and polls answer `Closed`.
    ///
    /// One that keeps a checkpoint of its own first takes it out of the latest manifest, where it is there, so that a
    /// sweep may remove what only it kept. It is closed then, whether or not that failed; where it did, the answer has
    /// the fault, and the checkpoint lapses when its lease ends. The fault is `ObjectStoreError` for a fault of the
    /// store, `LatestTransactionalObjectVersionMissing` where there is no manifest, `InvalidDBState` where no id is
    /// left for another, `TransactionalObjectTimeout` where eight times another manifest was put first, and `NoMemory`.
    /// A reader in another mode doesn't touch the store.
    ///
    /// A reader that was closed before answers the error that was recorded, and none where it closed cleanly, and doesn't
    /// touch the store; what was recorded first stays. It calls the store at most twice for each of eight tries, and takes
    /// time linear in the manifest; without a checkpoint it takes constant time. SlateDB's `DbReader::close`.
    pub fn close<S: Store>(&mut self, alloc: Global, store: &mut S) -> Ended
        ensures closed { self.new ≡ closed_follower self.old }
        ensures tasks { result.tasks ≡ self.old.tasks }
        ensures running { self.old.result ≡ None → result.tasks ≡ follower_tasks self.old.mode }
        ensures answer { is_managed self.old.mode ≡ false → result ≡ ended self.old.tasks (recorded_fault self.old.result) }
        ensures store { is_managed self.old.mode ≡ false → store.new ≡ store.old }
        ensures managed { is_managed self.old.mode ≡ true → (made : ℕ) × ClosesManaged (by_objects (S.objects store.old)) made self.old (known S.objects S.faults store.old) result self.new (known S.objects S.faults store.new) }
        ensures untouched { self.old.result ≢ None → store.new ≡ store.old }
        ensures kind { self.old.result ≡ None → IfSome result.fault (IsOfPoll self.old.mode) }
        ensures faults { S.faults store.old ≤ S.faults store.new }
        ensures calls { S.calls store.new ≤ S.calls store.old + 16 }
    {
        let fault = match self.closed() {
            Some(Err(fault)) => Some(SlateError::from(fault)),
            Some(Ok(())) => None,
            None => self.end_lease(alloc, store),
        };
        self.status.report_closed(Ok(()));
        let outcome = self.status.result().unwrap_or(Ok(()));
        Ended {
            fault,
            tasks: self.tasks.end(outcome),
        }
    }

    /// Takes its checkpoint out, where it keeps one of its own, and answers why that failed.
    fn end_lease<S: Store>(&self, alloc: Global, store: &mut S) -> Option<SlateError>
        ensures unleased { self.now.lease ≡ None → (result ≡ None) × (store.new ≡ store.old) }
        ensures ends { IfSome self.now.lease (λ lease. (made : ℕ) × EndsLease (by_objects (S.objects store.old)) made lease (known S.objects S.faults store.old) (ended self.now.tasks result) (known S.objects S.faults store.new)) }
        ensures kind { IfSome result (IsOfPoll self.now.mode) }
        ensures faults { S.faults store.old ≤ S.faults store.new }
        ensures calls { S.calls store.new ≤ S.calls store.old + 16 }
    {
        let lease = self.lease?;
        match delete_checkpoint(alloc, store, lease.id) {
            Ok(()) => None,
            Err(refusal) => Some(error_of_refusal(refusal)),
        }
    }
}
