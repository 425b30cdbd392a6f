// The receiver of a status, which waits for it.
ghost use Rattle.std.specs.Prelude.{◌≡◌, ◌↔◌, ◌≤◌, true, max, IsTrue, IfOk, OnErr};
ghost use Rattle.std.specs.Fn.{FnReturnsAt};
ghost use Rattle.slate_types.specs.Counts.{HasRisen};
ghost use Rattle.slate_receivers.specs.Looks.{ShowsRecord};
ghost use Rattle.slate_receivers.specs.Reported.{IsReported, IsSeen};
ghost use Rattle.slate_status.specs.Records.{Record};

use crate::shared::{SharedRecord, VersionedStatus, is_past, look};
use slate_status::DbStatus;
use slate_types::NoMemory;
use std::alloc::Global;
use std::marker::Model;
use std::sync::{Arc, Wait};

/// Receives the status that a `StatusManager` is reported. It stands for SlateDB's `watch::Receiver<DbStatus>`, and may
/// go to another thread. Each call waits for the lock. A contract sees the version that it has seen, which never falls.
pub struct StatusReceiver {
    shared: Arc<SharedRecord>,
    seen: u64,
}

impl Drop for StatusReceiver {
    fn drop(self) {
        let StatusReceiver { shared: _, seen: _ } = self;
    }
}

impl Model for StatusReceiver {
    ghost use Rattle.std.specs.Prelude.{ℕ};

    ghost Value = { ℕ };

    ghost view = { λ receiver. receiver.seen };
}

impl StatusReceiver {
    pub(crate) fn new(shared: Arc<SharedRecord>, seen: u64) -> StatusReceiver
        ensures { result ≡ seen }
    {
        StatusReceiver { shared, seen }
    }

    /// A copy of the present status. The version seen stays.
    pub fn borrow<R: Wait>(&self, rt: &R, alloc: Global) -> Result<DbStatus, NoMemory>
        ensures { IfOk result IsReported }
    {
        self.shared.lock(rt).status(alloc)
    }

    /// A copy of the present status, whose version is then the one seen. Where memory runs out, that stays.
    pub fn borrow_and_update<R: Wait>(
        &mut self,
        rt: &R,
        alloc: Global,
    ) -> Result<DbStatus, NoMemory>
        ensures seen { IfOk result (IsSeen self.old self.new) }
        ensures rises { self.old ≤ self.new }
        ensures err { OnErr result (self.new ≡ self.old) }
    {
        let shown = self.look(rt, alloc)?;
        Ok(self.see(shown))
    }

    /// Whether the version is past the one that was seen. At the greatest `u64`, where it stays, that is always so. It
    /// takes no memory.
    pub fn has_changed<R: Wait>(&self, rt: &R) -> bool
        ensures { (r : Record) × (IsTrue result ↔ HasRisen self.now r.version) }
    {
        let record = self.shared.lock(rt);
        is_past(&record, self.seen)
    }

    /// Waits for a status of which `test` is true, and answers it; its version is then the one seen. The present status
    /// is looked at first, and then each time that the version rose. `test` is called on copies, without the lock.
    /// Where memory runs out, the version seen stays.
    pub fn wait_for<R: Wait, F: Fn(&DbStatus) -> bool>(
        &mut self,
        rt: &R,
        alloc: Global,
        test: F,
    ) -> Result<DbStatus, NoMemory>
        requires { F.IsAlwaysCallable test }
        ensures tested { IfOk result (λ status. FnReturnsAt F.Fn test status true) }
        ensures seen { IfOk result (IsSeen self.old self.new) }
        ensures rises { self.old ≤ self.new }
        ensures err { OnErr result (self.new ≡ self.old) }
    {
        for _ in rt.forever() {
            let shown = self.look(rt, alloc)?;
            if test(&shown.status) {
                return Ok(self.see(shown));
            }
            self.shared.wait_past(rt, shown.version);
        }
        unreachable!()
    }

    fn look<R: Wait>(&self, rt: &R, alloc: Global) -> Result<VersionedStatus, NoMemory>
        ensures { IfOk result (λ shown. (r : Record) × ShowsRecord r shown) }
    {
        let record = self.shared.lock(rt);
        look(&record, alloc)
    }

    // Notes that a status was seen.
    fn see(&mut self, shown: VersionedStatus) -> DbStatus
        ensures version { self.new ≡ max self.old shown.version }
        ensures status { result ≡ shown.status }
    {
        self.seen = self.seen.max(shown.version);
        shown.status
    }
}
