// The handle of a write, which tells whether the write is durable.
ghost use Rattle.std.specs.Prelude.{◌≡◌, Some};
ghost use Rattle.slate_receivers.specs.Asked.{MatchAsked};
ghost use Rattle.slate_receivers.specs.Outcomes.{EndsBy, IsRecorded};

use crate::shared::{SharedRecord, outcome};
use crate::{DurabilityWaiter, StatusManager};
use slate_errors::Error;
use slate_status::DurableAnswer;
use std::fmt::{Debug, Formatter};
use std::sync::{Arc, Wait};
use std::{fmt, thread};

/// What a handle asks.
#[derive(Drop)]
enum Asked {
    Record(Arc<SharedRecord>),
    Waiter(Box<dyn DurabilityWaiter + Send>),
}

/// The handle of a write: its number, when it was accepted, and whether it is durable. SlateDB's type of this name. It
/// may go to another thread.
pub struct WriteHandle {
    seq: u64,
    create_ts: i64,
    asked: Asked,
}

impl Drop for WriteHandle {
    fn drop(self) {
        let WriteHandle {
            seq: _,
            create_ts: _,
            asked: _,
        } = self;
    }
}

impl WriteHandle {
    /// The handle of the write of this number, which was accepted at this moment, in milliseconds. It asks `waiter`,
    /// and says nothing of a store by itself. It takes no memory.
    pub fn new(seq: u64, create_ts: i64, waiter: Box<dyn DurabilityWaiter + Send>) -> WriteHandle
        ensures number { result.seq ≡ seq }
        ensures moment { result.create_ts ≡ create_ts }
    {
        WriteHandle {
            seq,
            create_ts,
            asked: Asked::Waiter(waiter),
        }
    }

    /// The handle of the write of this number, which was accepted at this moment, in milliseconds. It asks the status
    /// of this manager. It takes no memory.
    pub fn of_manager(seq: u64, create_ts: i64, manager: StatusManager) -> WriteHandle
        ensures number { result.seq ≡ seq }
        ensures moment { result.create_ts ≡ create_ts }
    {
        WriteHandle {
            seq,
            create_ts,
            asked: Asked::Record(manager.into_shared()),
        }
    }

    /// The number of the write. It takes no memory.
    pub fn seqnum(&self) -> u64
        ensures { result ≡ self.now.seq }
    {
        self.seq
    }

    /// When the write was accepted, in milliseconds. It takes no memory.
    pub fn create_ts(&self) -> i64
        ensures { result ≡ self.now.create_ts }
    {
        self.create_ts
    }

    /// Whether the write is durable: `Durable` where the durable number reaches its number, also after a close; else
    /// `Pending` while the database is open; else `Closed` or the recorded error. It waits for the lock alone, and
    /// takes no memory. A handle that `new` made answers what its waiter does.
    pub fn poll_durable<R: Wait>(&mut self, rt: &R) -> DurableAnswer
        ensures answered { MatchAsked self.new.asked (λ waiter. last_answer waiter ≡ Some result) (IsRecorded self.new.seq result) }
        ensures number { self.new.seq ≡ self.old.seq }
        ensures moment { self.new.create_ts ≡ self.old.create_ts }
    {
        match &mut self.asked {
            Asked::Record(shared) => shared.answer(rt, self.seq),
            Asked::Waiter(waiter) => ask(waiter, self.seq),
        }
    }

    /// Waits until `poll_durable` doesn't answer `Pending`: Ok where it answers `Durable`, and else the error of its
    /// `Failed`. Where it asks a status, it sleeps until a report raises the version; a waiter is polled again and again.
    pub fn await_durable<R: Wait>(&mut self, rt: &R) -> Result<(), Error>
        ensures answered { MatchAsked self.new.asked (λ waiter. EndsBy (λ answer. last_answer waiter ≡ Some answer) result) (EndsBy (IsRecorded self.new.seq) result) }
        ensures number { self.new.seq ≡ self.old.seq }
        ensures moment { self.new.create_ts ≡ self.old.create_ts }
    {
        match &mut self.asked {
            Asked::Record(shared) => shared.wait_durable(rt, self.seq),
            Asked::Waiter(waiter) => wait_durable(rt, waiter, self.seq),
        }
    }
}

fn ask(waiter: &mut Box<dyn DurabilityWaiter + Send>, seq: u64) -> DurableAnswer
    ensures { last_answer waiter.new ≡ Some result }
{
    waiter.poll(seq)
}

// Polls a waiter until it doesn't answer `Pending`.
fn wait_durable<R: Wait>(
    rt: &R,
    waiter: &mut Box<dyn DurabilityWaiter + Send>,
    seq: u64,
) -> Result<(), Error>
    ensures { EndsBy (λ answer. last_answer waiter.new ≡ Some answer) result }
{
    for _ in rt.forever() {
        if let Some(outcome) = outcome(ask(waiter, seq)) {
            return outcome;
        }
        thread::yield_now();
    }
    unreachable!()
}

impl Debug for WriteHandle {
    fn fmt<W: fmt::Write>(&self, f: &mut Formatter<W>) -> fmt::Result {
        f.debug_struct("WriteHandle")
            .field("seq", &self.seq)
            .field("create_ts", &self.create_ts)
            .finish_non_exhaustive()
    }
}
