// A database under its lock, as its handles, snapshots and transactions share it.
use crate::WriteHandle;
use crate::telling::{first_record, prefixes_of, tell_status};
use bytes::Bytes;
use slate_errors::{Error, SlateError};
use slate_held::{Held, require_operator};
use slate_receivers::{Clock, StatusManager};
use slate_rows::DbIterator;
use slate_store::{Checkpoint, Store, StoreRefusal};
use slate_types::{
    ByteRange, CloseOptions, FlushType, KeyValue, MergeOperator, NoMemory, PrefixExtractor,
    ReadOptions, ScanOptions, WriteBatch,
};
use slate_writer::{Transaction, WriteRefusal, Written};
use std::alloc::Global;
use std::sync::{Mutex, MutexGuard, Wait};

/// What the lock of a database guards.
pub(crate) struct Guarded<S: Store, C> {
    pub(crate) held: Held<S>,
    clock: C,
    /// Whether the status was told the manifest and the prefixes since they changed last.
    is_told: bool,
}

impl<S: Store + Drop, C: Drop> Drop for Guarded<S, C> {
    fn drop(self) {
        let Guarded {
            held: _,
            clock: _,
            is_told: _,
        } = self;
    }
}

/// A database that its handles, snapshots and transactions share.
///
/// A call that takes several locks takes them in this order: that of a transaction, that of the database, and that of its
/// status.
pub(crate) struct Shared<S: Store, M, E, C> {
    guarded: Mutex<Guarded<S, C>>,
    operator: Option<M>,
    extractor: Option<E>,
    status: StatusManager,
}

impl<S: Store + Drop, M: Drop, E: Drop, C: Drop> Drop for Shared<S, M, E, C> {
    fn drop(self) {
        let Shared {
            guarded: _,
            operator: _,
            extractor: _,
            status: _,
        } = self;
    }
}

impl<S: Store, C> Guarded<S, C> {
    /// Tells the status all that a call may have changed.
    fn tell<R: Wait>(&mut self, rt: &R, alloc: Global, status: &StatusManager) {
        status.report_durable_seq(rt, self.held.durable());
        if let Some(outcome) = self.held.closed() {
            status.report_closed(rt, outcome);
        }
        self.is_told = tell_view(rt, alloc, &self.held, status).is_ok();
    }
}

impl<S: Store, C: Clock> Guarded<S, C> {
    /// Writes a batch at the clock's moment, and at a second one where the first is refused.
    fn write<E: PrefixExtractor>(
        &mut self,
        alloc: Global,
        batch: WriteBatch,
        extractor: Option<&E>,
    ) -> Result<Written, WriteRefusal> {
        let Guarded { held, clock, .. } = self;
        let moment = clock.now_ms();
        held.write(alloc, batch, moment, || clock.now_ms(), extractor)
    }

    /// Commits a transaction at the clock's moment, or at a second one where the first lies below the tick.
    fn commit<E: PrefixExtractor>(
        &mut self,
        alloc: Global,
        transaction: Transaction,
        extractor: Option<&E>,
    ) -> Result<Option<Written>, SlateError> {
        let Guarded { held, clock, .. } = self;
        let moment = clock.now_ms();
        held.commit(transaction, alloc, moment, || clock.now_ms(), extractor)
    }

    /// Commits a checkpoint at the clock's moment.
    pub(crate) fn checkpoint(
        &mut self,
        alloc: Global,
        lifetime: Option<u64>,
    ) -> Result<Checkpoint, StoreRefusal> {
        let moment = self.clock.now_ms();
        self.held.checkpoint(alloc, lifetime, moment)
    }
}

impl<S: Store, M, E, C> Shared<S, M, E, C> {
    /// A database that was opened.
    pub(crate) fn new(
        alloc: Global,
        held: Held<S>,
        operator: Option<M>,
        extractor: Option<E>,
        clock: C,
    ) -> Result<Shared<S, M, E, C>, NoMemory>
    where
        S: Drop,
        M: Drop,
        E: Drop,
        C: Drop,
    {
        let status = StatusManager::new(alloc, first_record(alloc, held.status(alloc)?)?)?;
        let guarded = Mutex::new(Guarded {
            held,
            clock,
            is_told: true,
        });
        Ok(Shared {
            guarded,
            operator,
            extractor,
            status,
        })
    }

    /// The status that is told of each change.
    pub(crate) fn status(&self) -> &StatusManager {
        &self.status
    }

    /// The merge operator, where there is one.
    pub(crate) fn operator(&self) -> Option<&M> {
        self.operator.as_ref()
    }

    /// Takes the lock, for a call that changes nothing of which the status is told.
    pub(crate) fn lock<R: Wait>(&self, rt: &R) -> MutexGuard<'_, Guarded<S, C>> {
        self.guarded.lock(rt)
    }

    /// Flushes, without a type to where the database stores its batches first, and tells the status.
    pub(crate) fn flush<R: Wait>(
        &self,
        rt: &R,
        alloc: Global,
        flush_type: Option<FlushType>,
    ) -> Result<(), Error> {
        let mut guarded = self.guarded.lock(rt);
        let flush_type = flush_type.unwrap_or(guarded.held.flush_type());
        let answer = guarded.held.flush(alloc, flush_type);
        guarded.tell(rt, alloc, &self.status);
        Ok(answer?)
    }

    /// Takes the latest manifest, and tells the status.
    pub(crate) fn refresh_manifest<R: Wait>(&self, rt: &R, alloc: Global) -> Result<(), Error> {
        let mut guarded = self.guarded.lock(rt);
        let answer = guarded.held.refresh_manifest(alloc);
        guarded.tell(rt, alloc, &self.status);
        Ok(answer?)
    }

    /// Joins the tables, and tells the status.
    pub(crate) fn compact<R: Wait>(&self, rt: &R, alloc: Global) -> Result<(), Error> {
        let mut guarded = self.guarded.lock(rt);
        let answer = guarded.held.compact(alloc);
        guarded.tell(rt, alloc, &self.status);
        Ok(answer?)
    }

    /// Closes the database, and tells the status. It answers the error of the flush.
    pub(crate) fn close<R: Wait>(
        &self,
        rt: &R,
        alloc: Global,
        options: &CloseOptions,
    ) -> Result<(), Error> {
        let mut guarded = self.guarded.lock(rt);
        let ended = guarded.held.close(alloc, options);
        guarded.tell(rt, alloc, &self.status);
        match ended.fault {
            None => Ok(()),
            Some(error) => Err(Error::from(error)),
        }
    }

    /// Tells the status what it wasn't told for want of memory.
    pub(crate) fn tell_late<R: Wait>(&self, rt: &R, alloc: Global, guarded: &mut Guarded<S, C>) {
        if !guarded.is_told {
            guarded.tell(rt, alloc, &self.status);
        }
    }
}

impl<S: Store, M: MergeOperator, E, C> Shared<S, M, E, C> {
    /// Reads a key, up to the number of a snapshot where one is given.
    pub(crate) fn get<R: Wait>(
        &self,
        rt: &R,
        alloc: Global,
        key: &[u8],
        options: &ReadOptions,
        snapshot: Option<u64>,
    ) -> Result<Option<KeyValue>, Error> {
        let mut guarded = self.guarded.lock(rt);
        let operator = self.operator();
        let found = guarded.held.get(alloc, key, options, snapshot, operator);
        self.tell_late(rt, alloc, &mut guarded);
        Ok(found?)
    }

    /// Scans a range, up to the number of a snapshot where one is given.
    pub(crate) fn scan<R: Wait>(
        &self,
        rt: &R,
        alloc: Global,
        range: &ByteRange,
        options: &ScanOptions,
        snapshot: Option<u64>,
    ) -> Result<DbIterator, Error> {
        let mut guarded = self.guarded.lock(rt);
        let operator = self.operator();
        let found = guarded.held.scan(alloc, range, options, snapshot, operator);
        self.tell_late(rt, alloc, &mut guarded);
        Ok(found?)
    }

    /// Reads a key in a transaction.
    pub(crate) fn get_in<R: Wait>(
        &self,
        rt: &R,
        alloc: Global,
        transaction: &mut Transaction,
        key: &[u8],
        options: &ReadOptions,
    ) -> Result<Option<KeyValue>, Error> {
        let mut guarded = self.guarded.lock(rt);
        let operator = self.operator();
        let found = guarded
            .held
            .get_in(transaction, alloc, key, options, operator);
        self.tell_late(rt, alloc, &mut guarded);
        Ok(found?)
    }

    /// Scans a range in a transaction.
    pub(crate) fn scan_in<R: Wait>(
        &self,
        rt: &R,
        alloc: Global,
        transaction: &mut Transaction,
        range: &ByteRange,
        options: &ScanOptions,
    ) -> Result<DbIterator, Error> {
        let mut guarded = self.guarded.lock(rt);
        let operator = self.operator();
        let found = guarded
            .held
            .scan_in(transaction, alloc, range, options, operator);
        self.tell_late(rt, alloc, &mut guarded);
        Ok(found?)
    }

    /// Refuses a merge where there is no operator.
    pub(crate) fn require_operator(&self) -> Result<(), SlateError> {
        require_operator(self.operator())
    }
}

impl<S: Store, M, E: PrefixExtractor, C: Clock> Shared<S, M, E, C> {
    /// Writes a batch, and answers its handle.
    pub(crate) fn write<R: Wait>(
        &self,
        rt: &R,
        alloc: Global,
        batch: WriteBatch,
    ) -> Result<WriteHandle, Error> {
        let extractor = self.extractor.as_ref();
        let prefixes = prefixes_of(alloc, extractor, batch.ops.as_slice())?;
        let status = self.status.share()?;
        let mut guarded = self.guarded.lock(rt);
        match guarded.write(alloc, batch, extractor) {
            Ok(written) => {
                self.tell_written(rt, alloc, &mut guarded, prefixes.as_slice());
                Ok(WriteHandle::new(written, status))
            }
            Err(refusal) => Err(Error::from(refusal.error)),
        }
    }

    /// Commits a transaction, and answers the handle of its write.
    pub(crate) fn commit<R: Wait>(
        &self,
        rt: &R,
        alloc: Global,
        transaction: Transaction,
    ) -> Result<Option<WriteHandle>, Error> {
        let status = self.status.share()?;
        let mut guarded = self.guarded.lock(rt);
        let extractor = self.extractor.as_ref();
        let Some(written) = guarded.commit(alloc, transaction, extractor)? else {
            return Ok(None);
        };
        if extractor.is_some() {
            guarded.tell(rt, alloc, &self.status);
        }
        Ok(Some(WriteHandle::new(written, status)))
    }

    /// Tells the status of a write whose keys have these prefixes.
    fn tell_written<R: Wait>(
        &self,
        rt: &R,
        alloc: Global,
        guarded: &mut Guarded<S, C>,
        prefixes: &[Bytes],
    ) {
        if !prefixes.is_empty() {
            let told = self.status.add_memtable_segments(rt, alloc, prefixes);
            guarded.is_told = guarded.is_told && told.is_ok();
        }
        self.tell_late(rt, alloc, guarded);
    }
}

/// Tells a status the manifest and the prefixes of a database.
fn tell_view<R: Wait, S: Store>(
    rt: &R,
    alloc: Global,
    held: &Held<S>,
    status: &StatusManager,
) -> Result<(), NoMemory> {
    tell_status(rt, alloc, status, held.status(alloc)?)
}
