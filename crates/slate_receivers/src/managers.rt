// The manager of a status, to which threads report.
ghost use Rattle.std.specs.Prelude.{◌≡◌, true, IfOk};
ghost use Rattle.slate_errors.specs.declared.closing.CloseFault.{CloseFault};
ghost use Rattle.slate_status.specs.Records.{with_durable, with_manifest, with_result, with_segments};
ghost use Rattle.slate_status.specs.Segments.{PrefixesRise};
ghost use Rattle.slate_receivers.specs.Outcomes.{EndsBy, IsRecorded};
ghost use Rattle.slate_receivers.specs.Reported.{AnswersAdded, AnswersReport, IsReported};

use crate::StatusReceiver;
use crate::shared::SharedRecord;
use bytes::Bytes;
use slate_errors::{CloseFault, Error};
use slate_status::{DbStatus, DurableAnswer, StatusRecord};
use slate_store::VersionedManifest;
use slate_types::{NoMemory, Seq};
use std::alloc::Global;
use std::sync::{Arc, Wait};

/// The status of a database, which threads report and wait for. SlateDB's `DbStatusManager`. It has a `StatusRecord`
/// under a lock, for which each call but `new` and `share` waits. A report is that of the record under the same name; it
/// answers whether the version rose, and where it did, it wakes all that wait.
pub struct StatusManager {
    shared: Arc<SharedRecord>,
}

impl Drop for StatusManager {
    fn drop(self) {
        let StatusManager { shared: _ } = self;
    }
}

impl StatusManager {
    /// The manager of this record.
    pub fn new(alloc: Global, first: StatusRecord) -> Result<StatusManager, NoMemory> {
        Ok(StatusManager {
            shared: Arc::new(alloc, SharedRecord::new(first))?,
        })
    }

    /// Another manager of the same record. It takes no memory, and answers `NoMemory` where too many share it.
    pub fn share(&self) -> Result<StatusManager, NoMemory> {
        Ok(StatusManager {
            shared: Arc::try_clone(&self.shared)?,
        })
    }

    /// Reports what an opening found: this durable number and manifest, whatever was there before. The version always
    /// rises. It takes no memory.
    pub fn report_fence_manifest<R: Wait>(
        &self,
        rt: &R,
        durable: u64,
        manifest: VersionedManifest,
    ) -> bool
        ensures { result ≡ true }
    {
        let rose = self
            .shared
            .lock(rt)
            .report_fence_manifest(durable, manifest);
        self.shared.wake(rose)
    }

    /// Reports that the batches up to this number are durable. It takes no memory.
    pub fn report_durable_seq<R: Wait>(&self, rt: &R, number: u64) -> bool
        ensures { AnswersReport (with_durable number) result }
    {
        let rose = self.shared.lock(rt).report_durable_seq(number);
        self.shared.wake(rose)
    }

    /// Reports a manifest. One with a lower id than the present one changes nothing. It takes no memory.
    pub fn report_manifest<R: Wait>(&self, rt: &R, manifest: VersionedManifest) -> bool
        ensures { AnswersReport (with_manifest manifest) result }
    {
        let rose = self.shared.lock(rt).report_manifest(manifest);
        self.shared.wake(rose)
    }

    /// Reports the prefixes of the segments that batches outside of tables are in, rising, each once. It takes no
    /// memory.
    pub fn report_memtable_segments<R: Wait>(&self, rt: &R, prefixes: Seq<Bytes>) -> bool
        requires { PrefixesRise prefixes }
        ensures { AnswersReport (with_segments prefixes) result }
    {
        let rose = self.shared.lock(rt).report_memtable_segments(prefixes);
        self.shared.wake(rose)
    }

    /// Reports a manifest and prefixes together, each as its own report takes it, as one change. It takes no memory.
    pub fn report_manifest_and_memtable_segments<R: Wait>(
        &self,
        rt: &R,
        manifest: VersionedManifest,
        prefixes: Seq<Bytes>,
    ) -> bool
        requires { PrefixesRise prefixes }
        ensures { AnswersReport (λ old. with_segments prefixes (with_manifest manifest old)) result }
    {
        let rose = self
            .shared
            .lock(rt)
            .report_manifest_and_memtable_segments(manifest, prefixes);
        self.shared.wake(rose)
    }

    /// Adds prefixes of segments, in any order, to the present ones. Where memory runs out, nothing was changed.
    pub fn add_memtable_segments<R: Wait>(
        &self,
        rt: &R,
        alloc: Global,
        prefixes: &[Bytes],
    ) -> Result<bool, NoMemory>
        ensures { IfOk result (AnswersAdded prefixes.now) }
    {
        let rose = self.shared.lock(rt).add_memtable_segments(alloc, prefixes)?;
        Ok(self.shared.wake(rose))
    }

    /// Reports the result with which it closed. The first one stays. It takes no memory.
    pub fn report_closed<R: Wait>(&self, rt: &R, outcome: Result<(), CloseFault>) -> bool
        ensures { AnswersReport (with_result outcome) result }
    {
        let rose = self.shared.lock(rt).report_closed(outcome);
        self.shared.wake(rose)
    }

    /// Is `report_closed`.
    pub fn write_result<R: Wait>(&self, rt: &R, outcome: Result<(), CloseFault>) -> bool
        ensures { AnswersReport (with_result outcome) result }
    {
        self.report_closed(rt, outcome)
    }

    /// The result with which it closed, where it did. It takes no memory.
    pub fn result<R: Wait>(&self, rt: &R) -> Option<Result<(), CloseFault>> {
        self.shared.lock(rt).result()
    }

    /// A copy of the status.
    pub fn status<R: Wait>(&self, rt: &R, alloc: Global) -> Result<DbStatus, NoMemory>
        ensures { IfOk result IsReported }
    {
        self.shared.lock(rt).status(alloc)
    }

    /// A receiver that has seen the present version. It takes no memory, and answers `NoMemory` where too many share
    /// the record.
    pub fn subscribe<R: Wait>(&self, rt: &R) -> Result<StatusReceiver, NoMemory> {
        let shared = Arc::try_clone(&self.shared)?;
        let seen = shared.lock(rt).version();
        Ok(StatusReceiver::new(shared, seen))
    }

    /// Whether the write of this number is durable, as `poll_durable` of its handle answers. Our own.
    pub fn poll_durable<R: Wait>(&self, rt: &R, seq: u64) -> DurableAnswer
        ensures { IsRecorded seq result }
    {
        self.shared.answer(rt, seq)
    }

    /// Waits until `poll_durable` doesn't answer `Pending`, as `await_durable` of the write's handle does. Our own.
    pub fn await_durable<R: Wait>(&self, rt: &R, seq: u64) -> Result<(), Error>
        ensures { EndsBy (IsRecorded seq) result }
    {
        self.shared.wait_durable(rt, seq)
    }

    pub(crate) fn into_shared(self) -> Arc<SharedRecord> {
        let StatusManager { shared } = self;
        shared
    }
}
