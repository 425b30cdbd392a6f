// The handle of a write to a database.
ghost use Rattle.std.specs.Prelude.{◌≡◌};
ghost use Rattle.slate_receivers.specs.Outcomes.{EndsBy, IsRecorded};

use slate_errors::Error;
use slate_receivers::StatusManager;
use slate_status::DurableAnswer;
use slate_writer::Written;
use std::fmt;
use std::fmt::{Debug, Formatter};
use std::sync::Wait;

/// The handle of a write to a `Db`: its number, when it was accepted, and whether it is durable. SlateDB's type of this name.
/// It shares the database's status, may go to another thread, and outlives the database. A write with a waiter of the
/// caller's own has the handle of `slate_receivers`.
pub struct WriteHandle {
    seq: u64,
    create_ts: i64,
    status: StatusManager,
}

impl Drop for WriteHandle {
    fn drop(self) {
        let WriteHandle {
            seq: _,
            create_ts: _,
            status: _,
        } = self;
    }
}

impl WriteHandle {
    /// The handle of a write, which asks this status.
    pub(crate) fn new(written: Written, status: StatusManager) -> WriteHandle
        ensures number { result.seq ≡ written.number }
        ensures moment { result.create_ts ≡ written.create_ts }
    {
        WriteHandle {
            seq: written.number,
            create_ts: written.create_ts,
            status,
        }
    }

    /// The number of the write. It takes no lock.
    pub fn seqnum(&self) -> u64
        ensures { result ≡ self.now.seq }
    {
        self.seq
    }

    /// When the write was accepted, in milliseconds. It takes no lock.
    pub fn create_ts(&self) -> i64
        ensures { result ≡ self.now.create_ts }
    {
        self.create_ts
    }

    /// Whether the write is durable: `Durable` where the database's durable number reaches its number, also after a close;
    /// else `Pending` while the database is open; else `Closed` or the error that closed it. It waits for the lock of the
    /// status alone, and takes no memory. Our own.
    pub fn poll_durable<R: Wait>(&self, rt: &R) -> DurableAnswer
        // The lock is given up before it returns, so it answers by some record that the status was.
        ensures { IsRecorded self.now.seq result }
    {
        self.status.poll_durable(rt, self.seq)
    }

    /// Waits until `poll_durable` doesn't answer `Pending`: Ok where it answers `Durable`, and else that error. It sleeps until a
    /// flush or a close. Nothing is flushed by itself: another thread calls `flush`, `close` or `Db::run_flusher`.
    pub fn await_durable<R: Wait>(&self, rt: &R) -> Result<(), Error>
        ensures { EndsBy (IsRecorded self.now.seq) result }
    {
        self.status.await_durable(rt, self.seq)
    }
}

impl Debug for WriteHandle {
    fn fmt<W: fmt::Write>(&self, f: &mut Formatter<W>) -> fmt::Result {
        f.debug_struct("WriteHandle")
            .field("seq", &self.seq)
            .field("create_ts", &self.create_ts)
            .finish_non_exhaustive()
    }
}
