// The calls of a database that SlateDB has otherwise.
use crate::{Db, DbWriteOps, Stop};
use slate_errors::{Error, ErrorKind};
use slate_model::error_of_refusal;
use slate_receivers::Clock;
use slate_rows::DbIterator;
use slate_seqtrack::FindOption;
use slate_store::{Checkpoint, Store, StoreRefusal};
use slate_types::{ByteRange, MergeOperator, PrefixExtractor, ScanOptions};
use std::alloc::Global;
use std::rt;
use std::sync::Wait;

impl<S: Store + Drop, M: Drop, E: Drop, C: Drop> Db<S, M, E, C> {
    /// Our own, where SlateDB runs a compactor: joins the tables of the latest manifest into one, and goes by the manifest that
    /// names it. The old tables stay stored until a sweep. It calls the store three times and once for each table, and once
    /// where there are fewer than two tables.
    ///
    /// On a closed database it answers `Closed` or the error that closed it. `Fenced`, where the database was opened again
    /// since, closes it. `LatestTransactionalObjectVersionMissing`, `InvalidDBState` after the greatest id,
    /// `TransactionalObjectVersionExists`, `ObjectStoreError` and `NoMemory` close nothing.
    pub fn compact<R: Wait>(&self, rt: &R, alloc: Global) -> Result<(), Error> {
        self.shared.compact(rt, alloc)
    }

    /// Our own, where SlateDB runs a garbage collector: removes what neither the latest manifest nor a checkpoint that isn't
    /// expired at this moment, in milliseconds, needs, and answers how many objects that was. It wants that no other process
    /// writes to the store meanwhile, and is answered by a closed database too.
    ///
    /// It answers `LatestTransactionalObjectVersionMissing` where no manifest is stored, `InvalidDBState` after the greatest id,
    /// `TransactionalObjectVersionExists` where another manifest was put first, `ObjectStoreError`, also where the manifest of
    /// a checkpoint isn't stored, and `NoMemory`. Part of it may be removed then; none of these closes the database.
    pub fn sweep<R: Wait>(&self, rt: &R, alloc: Global, moment: i64) -> Result<u64, Error> {
        let swept = self.shared.lock(rt).held.sweep(alloc, moment);
        swept.map_err(public_error)
    }

    /// Our own, where SlateDB's tracker is asked: when the batch with a number was written, in whole seconds; that of the next
    /// tracked batch up or down where it isn't tracked, and None where there is none. At most one batch in 60 seconds is
    /// tracked. It takes no memory.
    pub fn find_ts<R: Wait>(&self, rt: &R, seq: u64, find: FindOption) -> Option<i64> {
        self.shared.lock(rt).held.find_ts(seq, find)
    }

    /// Our own, where SlateDB's tracker is asked: the number of the batch that was written at a time, in whole seconds; that of
    /// the next tracked batch up or down where none is tracked at this time, and None where there is none. It takes no memory.
    pub fn find_seq<R: Wait>(&self, rt: &R, ts: i64, find: FindOption) -> Option<u64> {
        self.shared.lock(rt).held.find_seq(ts, find)
    }

    /// Our own, since a write is refused where SlateDB lets it wait: how many bytes of keys and values aren't flushed. They
    /// count until they are in a table, and, where the database keeps a log, once more until they are in that. Where they reach
    /// the settings' `max_unflushed_bytes`, a write answers `Backpressure`. It takes no memory.
    pub fn unflushed<R: Wait>(&self, rt: &R) -> u64 {
        self.shared.lock(rt).held.unflushed()
    }
}

impl<S: Store + Drop, M: MergeOperator + Drop, E: Drop, C: Drop> Db<S, M, E, C> {
    /// Our own, where a scan of SlateDB reads as its rows are asked for: the first rows of a range, up to `limit`, in the order
    /// asked for, as of the first job of a queue. A key without a row doesn't count. No key is read after the row that reaches
    /// the limit, so that it takes the time of a read for each key up to that alone. With a limit of 0 there are no rows.
    ///
    /// It calls the store once for each table, and answers the errors of `scan_with_options`, the fault of a key only where it
    /// comes before so many rows.
    pub fn scan_first<R: Wait>(
        &self,
        rt: &R,
        alloc: Global,
        range: &ByteRange,
        options: &ScanOptions,
        limit: u64,
    ) -> Result<DbIterator, Error> {
        let mut guarded = self.shared.lock(rt);
        let operator = self.shared.operator();
        let found = guarded
            .held
            .scan_first(alloc, range, options, limit, operator);
        self.shared.tell_late(rt, alloc, &mut guarded);
        Ok(found?)
    }
}

impl<S: Store + Drop, M: Drop, E: Drop, C: Clock + Drop> Db<S, M, E, C> {
    /// Our own, where SlateDB's `create_checkpoint` also flushes: commits a checkpoint of what is stored, which keeps its
    /// manifest with its tables and log files from a sweep, from the clock's moment on for so many milliseconds, or without an
    /// end. It is answered by a closed database too, and calls the store twice where no other manifest is put meanwhile.
    ///
    /// It answers `LatestTransactionalObjectVersionMissing` where no manifest is stored, `InvalidDBState` after the greatest id,
    /// `TransactionalObjectTimeout` where another manifest was put first eight times, `ObjectStoreError`, after which it may be
    /// committed, and `NoMemory`. None of these closes the database.
    pub fn checkpoint<R: Wait>(
        &self,
        rt: &R,
        alloc: Global,
        lifetime: Option<u64>,
    ) -> Result<Checkpoint, Error> {
        let committed = self.shared.lock(rt).checkpoint(alloc, lifetime);
        committed.map_err(public_error)
    }
}

impl<S, M, E, C> Db<S, M, E, C>
where
    S: Store + Drop,
    M: MergeOperator + Drop,
    E: PrefixExtractor + Drop,
    C: Clock + Drop,
{
    /// Our own, for a thread of the caller's, where SlateDB flushes by a task: flushes each time that so many milliseconds have
    /// passed, so that writes become durable and those that wait for them go on, until it is stopped. It answers Ok then, also
    /// where a flush found no memory, and else the error of the first flush that failed otherwise. What is written after the
    /// last flush isn't flushed by it.
    pub fn run_flusher<R: Wait + rt::Clock>(
        &self,
        rt: &R,
        alloc: Global,
        interval_ms: u64,
        stop: &Stop,
    ) -> Result<(), Error> {
        for _ in rt.forever() {
            if stop.sleep(rt, interval_ms) {
                return Ok(());
            }
            if let Err(error) = self.flush(rt, alloc) {
                if error.kind() != ErrorKind::Memory {
                    return Err(error);
                }
            }
        }
        unreachable!()
    }
}

/// The error that a refusal of a call on the store is answered with.
fn public_error(refusal: StoreRefusal) -> Error {
    Error::from(error_of_refusal(refusal))
}
