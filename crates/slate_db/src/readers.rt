// The reader that threads share.
use crate::telling::{first_record, tell_status};
use crate::{
    CacheTarget, DbCacheManagerOps, DbMetadataOps, DbReadOps, DbReaderBuilder, HeldReader,
    NoExtractor, NoMerge, Stop,
};
use slate_errors::{Error, SlateError};
use slate_follow::{DbReaderMode, DbReaderOptions, PollAnswer};
use slate_receivers::{Clock, StatusManager, StatusReceiver, SystemClock};
use slate_rows::DbIterator;
use slate_status::DbStatus;
use slate_store::{Store, TableId, VersionedManifest};
use slate_types::{
    ByteRange, KeyValue, MergeOperator, NoMemory, PrefixExtractor, ReadOptions, ScanOptions,
};
use std::alloc::Global;
use std::rt;
use std::sync::{Mutex, MutexGuard, Wait};

/// What the lock of a reader guards.
struct Guarded<S: Store, C> {
    held: HeldReader<S>,
    clock: C,
    /// Whether the status was told all that changed last.
    is_told: bool,
}

impl<S: Store + Drop, C: Drop> Drop for Guarded<S, C> {
    fn drop(self) {
        let Guarded {
            held: _,
            clock: _,
            is_told: _,
        } = self;
    }
}

impl<S: Store, C> Guarded<S, C> {
    /// Tells a status what it wasn't told yet.
    fn tell<R: Wait>(&mut self, rt: &R, alloc: Global, status: &StatusManager) {
        if self.is_told {
            return;
        }
        status.report_durable_seq(rt, self.held.number());
        if let Some(outcome) = self.held.closed() {
            status.report_closed(rt, outcome);
        }
        self.is_told = tell_reader(rt, alloc, &self.held, status).is_ok();
    }
}

/// A reader of a database that another process, or another part of this one, writes: it sees what was stored when it was
/// opened or last polled. SlateDB's `DbReader`. Threads share it by reference. Its reads are in the calls of `DbReadOps`, on
/// which the durability level and `dirty` have no effect, and what it tells of itself is in those of `DbMetadataOps`; each
/// call that is passed a runtime waits for its lock, and no call takes another reader's or a database's.
///
/// It isn't polled by itself: `poll` takes what is new. After each poll and after its close its status is told of them; where
/// memory runs out for that, after the next call that allocates.
pub struct DbReader<S: Store, M, E, C> {
    guarded: Mutex<Guarded<S, C>>,
    operator: Option<M>,
    extractor: Option<E>,
    status: StatusManager,
    /// How far apart `run_poller` polls, in milliseconds.
    interval_ms: u64,
}

impl<S: Store + Drop, M: Drop, E: Drop, C: Drop> Drop for DbReader<S, M, E, C> {
    fn drop(self) {
        let DbReader {
            guarded: _,
            operator: _,
            extractor: _,
            status: _,
            interval_ms: _,
        } = self;
    }
}

impl<S: Store + Drop, R: rt::Clock + Drop> DbReader<S, NoMerge, NoExtractor, SystemClock<R>> {
    /// Opens a reader of the database in a store, in this mode and with these options, the clock of this runtime, and no merge
    /// operator and no extractor. `DbReaderBuilder::build` says what it does and which errors it answers. SlateDB's
    /// `DbReader::open`.
    pub fn open(
        alloc: Global,
        rt: R,
        store: S,
        mode: DbReaderMode,
        options: &DbReaderOptions,
    ) -> Result<DbReader<S, NoMerge, NoExtractor, SystemClock<R>>, Error> {
        DbReader::builder(rt, store)
            .with_reader_mode(mode)
            .with_options(*options)
            .build(alloc)
    }

    /// A builder of a reader of the database in a store, with the default mode and options, the clock of this runtime, and no
    /// merge operator and no extractor. SlateDB's `DbReader::builder`.
    pub fn builder(rt: R, store: S) -> DbReaderBuilder<S, NoMerge, NoExtractor, SystemClock<R>> {
        DbReaderBuilder::new(store, SystemClock::new(rt))
    }
}

impl<S: Store, M, E, C> DbReader<S, M, E, C> {
    /// A reader that was opened.
    pub(crate) fn of(
        alloc: Global,
        held: HeldReader<S>,
        operator: Option<M>,
        extractor: Option<E>,
        clock: C,
        interval_ms: u64,
    ) -> Result<DbReader<S, M, E, C>, NoMemory>
    where
        S: Drop,
        M: Drop,
        E: Drop,
        C: Drop,
    {
        let status = StatusManager::new(alloc, first_record(alloc, held.status(alloc)?)?)?;
        let guarded = Mutex::new(Guarded {
            held,
            clock,
            is_told: true,
        });
        Ok(DbReader {
            guarded,
            operator,
            extractor,
            status,
            interval_ms,
        })
    }

    fn lock<R: Wait>(&self, rt: &R) -> MutexGuard<'_, Guarded<S, C>> {
        self.guarded.lock(rt)
    }

    /// The number of the last batch that it sees. Our own.
    pub fn seq<R: Wait>(&self, rt: &R) -> u64 {
        self.lock(rt).held.number()
    }

    /// Closes the reader. One that keeps a checkpoint of its own first takes it out of the latest manifest. From then on its
    /// reads and polls answer `Closed`.
    ///
    /// It is closed whether or not that fails; the error is answered, and the checkpoint lapses then. A later close answers Ok,
    /// and that of a reader that an error closed answers this error; neither calls a store. SlateDB's `close`.
    pub fn close<R: Wait>(&self, rt: &R, alloc: Global) -> Result<(), Error> {
        let mut guarded = self.lock(rt);
        let ended = guarded.held.close(alloc);
        guarded.is_told = false;
        guarded.tell(rt, alloc, &self.status);
        match ended.fault {
            None => Ok(()),
            Some(error) => Err(Error::from(error)),
        }
    }

    fn is_open<R: Wait>(&self, rt: &R) -> bool {
        self.lock(rt).held.closed().is_none()
    }

    /// Ok while it is open, and else `Closed` or the error that closed it.
    fn check_open<R: Wait>(&self, rt: &R) -> Result<(), Error> {
        match self.lock(rt).held.closed() {
            None => Ok(()),
            Some(result) => Err(Error::from(SlateError::of_closed(result))),
        }
    }
}

impl<S: Store, M, E: PrefixExtractor, C: Clock> DbReader<S, M, E, C> {
    /// Our own, since nothing polls by itself: takes what was stored since the last poll, and answers the number of the last
    /// batch that it sees. `Truncated` says that a log file is missing, and that it sees what comes before. One that stays at a
    /// checkpoint stays as it is. The clock is read once, for the lease of a reader that keeps a checkpoint of its own.
    ///
    /// On a closed reader it answers `Closed` or the error that closed it. Else it answers
    /// `LatestTransactionalObjectVersionMissing` where there is no manifest, `InvalidDBState` where no id is left or a key has
    /// no segment, `TransactionalObjectTimeout` where others put their manifests first eight times, `ObjectStoreError` for a
    /// fault of the store, and `NoMemory`. A poll that fails leaves what the reader sees, or, where only the renewal of
    /// a lease failed that it took, shows what is new; it closes a reader that keeps a checkpoint of its own, `NoMemory` excepted,
    /// and no other.
    pub fn poll<R: Wait>(&self, rt: &R, alloc: Global) -> Result<PollAnswer, Error> {
        let mut guarded = self.lock(rt);
        let moment = guarded.clock.now_ms();
        let answer = guarded.held.poll(alloc, self.extractor.as_ref(), moment);
        guarded.is_told = false;
        guarded.tell(rt, alloc, &self.status);
        Ok(answer?)
    }

    /// Our own, for a thread of the caller's, where SlateDB polls by a task: polls each time that the options' interval has
    /// passed, until it is stopped, and answers Ok then. A poll that fails and leaves the reader open is made again after the
    /// next interval; the error of one that finds it closed, or closes it, is answered.
    pub fn run_poller<R: Wait + rt::Clock>(
        &self,
        rt: &R,
        alloc: Global,
        stop: &Stop,
    ) -> Result<(), Error> {
        for _ in rt.forever() {
            if stop.sleep(rt, self.interval_ms) {
                return Ok(());
            }
            if let Err(error) = self.poll(rt, alloc) {
                if !self.is_open(rt) {
                    return Err(error);
                }
            }
        }
        unreachable!()
    }
}

impl<S: Store, M: MergeOperator, E, C> DbReader<S, M, E, C> {
    /// Our own, where a scan of SlateDB reads as its rows are asked for: the first rows of a range, up to `limit`, as
    /// `Db::scan_first` reads them of a database. The level of the options has no effect.
    pub fn scan_first<R: Wait>(
        &self,
        rt: &R,
        alloc: Global,
        range: &ByteRange,
        options: &ScanOptions,
        limit: u64,
    ) -> Result<DbIterator, Error> {
        let mut guarded = self.lock(rt);
        let (order, operator) = (options.order, self.operator.as_ref());
        let found = guarded
            .held
            .scan_first(alloc, range, order, limit, operator);
        guarded.tell(rt, alloc, &self.status);
        Ok(found?)
    }
}

impl<S: Store, M: MergeOperator, E, C> DbReadOps for DbReader<S, M, E, C> {
    fn get_key_value_with_options<R: Wait>(
        &self,
        rt: &R,
        alloc: Global,
        key: &[u8],
        _options: &ReadOptions,
    ) -> Result<Option<KeyValue>, Error> {
        let mut guarded = self.lock(rt);
        let found = guarded.held.get(alloc, key, self.operator.as_ref());
        guarded.tell(rt, alloc, &self.status);
        Ok(found?)
    }

    fn scan_with_options<R: Wait>(
        &self,
        rt: &R,
        alloc: Global,
        range: &ByteRange,
        options: &ScanOptions,
    ) -> Result<DbIterator, Error> {
        let mut guarded = self.lock(rt);
        let operator = self.operator.as_ref();
        let found = guarded.held.scan(alloc, range, options.order, operator);
        guarded.tell(rt, alloc, &self.status);
        Ok(found?)
    }
}

impl<S: Store, M, E, C> DbMetadataOps for DbReader<S, M, E, C> {
    fn manifest<R: Wait>(&self, rt: &R, alloc: Global) -> Result<VersionedManifest, Error> {
        Ok(self.status(rt, alloc)?.current_manifest)
    }

    fn subscribe<R: Wait>(&self, rt: &R) -> Result<StatusReceiver, Error> {
        Ok(self.status.subscribe(rt)?)
    }

    fn status<R: Wait>(&self, rt: &R, alloc: Global) -> Result<DbStatus, Error> {
        Ok(self.lock(rt).held.status(alloc)?)
    }
}

impl<S: Store, M, E, C> DbCacheManagerOps for DbReader<S, M, E, C> {
    fn warm_sst<R: Wait>(
        &self,
        rt: &R,
        _table: TableId,
        _targets: &[CacheTarget],
    ) -> Result<(), Error> {
        self.check_open(rt)
    }

    fn evict_cached_sst<R: Wait>(&self, rt: &R, _table: TableId) -> Result<(), Error> {
        self.check_open(rt)
    }
}

/// Tells a status the manifest and the prefixes of a reader.
fn tell_reader<R: Wait, S: Store>(
    rt: &R,
    alloc: Global,
    held: &HeldReader<S>,
    status: &StatusManager,
) -> Result<(), NoMemory> {
    tell_status(rt, alloc, status, held.status(alloc)?)
}
