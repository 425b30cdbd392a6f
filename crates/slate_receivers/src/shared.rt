// The record of a status under a lock, how threads look at it, and how they wait for a change of it.
ghost use Rattle.std.specs.Prelude.{◌≡◌, ◌↔◌, IsTrue, IfOk};
ghost use Rattle.slate_types.specs.Counts.{HasRisen};
ghost use Rattle.slate_status.specs.Records.{durable_answer};
ghost use Rattle.slate_receivers.specs.Outcomes.{EndsBy, IsRecorded, outcome_of};
ghost use Rattle.slate_receivers.specs.Looks.{ShowsRecord};

use slate_errors::Error;
use slate_status::{DbStatus, DurableAnswer, StatusRecord};
use slate_types::NoMemory;
use std::alloc::Global;
use std::sync::{Condvar, Mutex, MutexGuard, Wait};

/// A copy of a status, with the version that it had.
#[derive(Drop)]
pub(crate) struct VersionedStatus {
    pub(crate) version: u64,
    pub(crate) status: DbStatus,
}

/// The record that a manager shares with its receivers and with the handles of writes.
#[derive(Drop)]
pub(crate) struct SharedRecord {
    record: Mutex<StatusRecord>,
    changed: Condvar,
}

impl SharedRecord {
    pub(crate) fn new(first: StatusRecord) -> SharedRecord {
        SharedRecord {
            record: Mutex::new(first),
            changed: Condvar::new(),
        }
    }

    pub(crate) fn lock<R: Wait>(&self, rt: &R) -> MutexGuard<'_, StatusRecord> {
        self.record.lock(rt)
    }

    /// Wakes all that wait, where the version rose, and answers whether it did.
    pub(crate) fn wake(&self, rose: bool) -> bool
        ensures { result ≡ rose }
    {
        if rose {
            self.changed.notify_all();
        }
        rose
    }

    /// Waits until the version is past this one.
    pub(crate) fn wait_past<R: Wait>(&self, rt: &R, version: u64) {
        let mut record = self.record.lock(rt);
        for _ in rt.forever() {
            if is_past(&record, version) {
                return;
            }
            record = self.changed.wait(rt, record);
        }
    }

    /// Whether the number is durable.
    pub(crate) fn answer<R: Wait>(&self, rt: &R, seq: u64) -> DurableAnswer
        ensures { IsRecorded seq result }
    {
        self.record.lock(rt).durable_answer(seq)
    }

    /// Waits until a record answers whether the number is durable.
    pub(crate) fn wait_durable<R: Wait>(&self, rt: &R, seq: u64) -> Result<(), Error>
        ensures { EndsBy (IsRecorded seq) result }
    {
        let mut record = self.record.lock(rt);
        for _ in rt.forever() {
            if let Some(outcome) = recorded_outcome(&record, seq) {
                return outcome;
            }
            record = self.changed.wait(rt, record);
        }
        unreachable!()
    }
}

/// The status of a record, with its version.
pub(crate) fn look(known: &StatusRecord, alloc: Global) -> Result<VersionedStatus, NoMemory>
    ensures { IfOk result (ShowsRecord known.now) }
{
    Ok(VersionedStatus {
        version: known.version(),
        status: known.status(alloc)?,
    })
}

/// Whether the version of a record is past this one. At the greatest `u64`, where it stays, it is past each.
pub(crate) fn is_past(known: &StatusRecord, version: u64) -> bool
    ensures { IsTrue result ↔ HasRisen version known.now.version }
{
    let present = known.version();
    version < present || present == u64::MAX
}

/// What the wait for a number ends with by this record, unless it goes on.
fn recorded_outcome(known: &StatusRecord, seq: u64) -> Option<Result<(), Error>>
    ensures { result ≡ outcome_of (durable_answer seq known.now) }
{
    outcome(known.durable_answer(seq))
}

/// What a wait ends with by this answer, unless it goes on.
pub(crate) fn outcome(answer: DurableAnswer) -> Option<Result<(), Error>>
    ensures { result ≡ outcome_of answer }
{
    match answer {
        DurableAnswer::Durable => Some(Ok(())),
        DurableAnswer::Pending => None,
        DurableAnswer::Failed(error) => Some(Err(Error::from(error))),
    }
}
