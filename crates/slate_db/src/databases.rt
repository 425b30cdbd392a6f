// The database that threads share.
use crate::shared::Shared;
use crate::{
    CacheTarget, DbBuilder, DbCacheManagerOps, DbMetadataOps, DbReadOps, DbSnapshot, DbTransaction,
    DbWriteOps, NoExtractor, NoMerge, WriteHandle,
};
use bytes::Bytes;
use slate_errors::{Error, SlateError};
use slate_receivers::{Clock, StatusReceiver, SystemClock};
use slate_rows::{DbIterator, DbRecencyIterator};
use slate_status::DbStatus;
use slate_store::{Store, TableId, VersionedManifest};
use slate_types::{
    ByteRange, CloseOptions, FlushOptions, KeyValue, MergeOperator, MergeOptions, NoMemory,
    PrefixExtractor, PutOptions, ReadOptions, ScanOptions, WriteBatch, WriteOptions,
};
use slate_writer::{BoardWatch, IsolationLevel, WriterOptions};
use std::alloc::{AllocError, Global};
use std::rt;
use std::sync::{Arc, Wait};
use uuid::Uuid;

/// A database that is open for writing: its handle and its store under a lock, with its merge operator, its prefix extractor
/// and its clock. SlateDB's `Db`. It is shared by `clone`, among threads too. What it reads and writes is in the calls of
/// `DbReadOps` and `DbWriteOps`, and what it tells of itself in those of `DbMetadataOps`; each call that is passed a runtime
/// waits for the lock.
///
/// A write reads the clock: once, and once more exactly where it is refused for that moment alone. A transaction's commit
/// compares the moment with the last write's first, since it can be tried once. After each call its status, for which others
/// wait, is told what the call changed: the durable number and the close result at once, and the manifest and the prefixes of
/// what isn't in tables by a copy; where memory runs out for that, after the next call. A put takes none of the manifest.
///
/// Nothing is stored but by `flush`, `close` and the calls that say so. A database that is dropped without a close loses what
/// wasn't flushed, and nothing else.
pub struct Db<S: Store, M, E, C> {
    pub(crate) shared: Arc<Shared<S, M, E, C>>,
}

impl<S: Store + Drop, M: Drop, E: Drop, C: Drop> Drop for Db<S, M, E, C> {
    fn drop(self) {
        let Db { shared: _ } = self;
    }
}

/// Shares the database. It takes no memory, and answers an error where too many share it.
impl<S: Store + Drop, M: Drop, E: Drop, C: Drop> Clone for Db<S, M, E, C> {
    ghost use Rattle.std.specs.Prelude.{◌≡◌};
    ghost use Rattle.std.specs.Arc.{arc_value};

    ghost is_clone = { λ db copy. arc_value copy.shared ≡ arc_value db.shared };

    fn clone(&self) -> Result<Db<S, M, E, C>, AllocError> {
        Ok(Db {
            shared: self.shared.clone()?,
        })
    }
}

impl<S: Store + Drop, R: rt::Clock + Drop> Db<S, NoMerge, NoExtractor, SystemClock<R>> {
    /// Opens the database in a store, a new one where that has no manifest, with these settings, the clock of this runtime,
    /// and no merge operator and no extractor. `DbBuilder::build` says what it does and which errors it answers. SlateDB's
    /// `Db::open`.
    pub fn open(
        alloc: Global,
        rt: R,
        store: S,
        options: &WriterOptions,
    ) -> Result<Db<S, NoMerge, NoExtractor, SystemClock<R>>, Error> {
        Db::builder(rt, store).with_settings(*options).build(alloc)
    }

    /// A builder of the database in a store, with the default settings, the clock of this runtime, and no merge operator and no
    /// extractor. SlateDB's `Db::builder`.
    pub fn builder(rt: R, store: S) -> DbBuilder<S, NoMerge, NoExtractor, SystemClock<R>> {
        DbBuilder::new(store, SystemClock::new(rt))
    }
}

impl<S: Store + Drop, M: Drop, E: Drop, C: Drop> Db<S, M, E, C> {
    /// A database of what is shared.
    pub(crate) fn of(shared: Arc<Shared<S, M, E, C>>) -> Db<S, M, E, C> {
        Db { shared }
    }

    /// Closes the database, as `close_with_options` does with the default options: with a flush to a table. SlateDB's `close`.
    pub fn close<R: Wait>(&self, rt: &R, alloc: Global) -> Result<(), Error> {
        self.close_with_options(rt, alloc, &CloseOptions::default())
    }

    /// Flushes as the options ask, records that the database closed cleanly, however the flush ends, and ends its tasks. From
    /// then on its reads, writes and flushes answer `Closed`, through each handle, snapshot and transaction.
    ///
    /// It answers the error of the flush, after which what wasn't stored is lost. Of a database that closed cleanly before it
    /// answers `Closed`, and of one that an error closed Ok; neither flushes. SlateDB's `close_with_options`.
    pub fn close_with_options<R: Wait>(
        &self,
        rt: &R,
        alloc: Global,
        options: &CloseOptions,
    ) -> Result<(), Error> {
        self.shared.close(rt, alloc, options)
    }

    /// What was accepted until now, whatever is written, flushed or compacted later: reads of the snapshot are those of the
    /// database up to this number. Nothing is kept for it. On a closed database it answers `Closed` or the error that closed
    /// it, and `NoMemory` where too many share the database. SlateDB's `snapshot`.
    pub fn snapshot<R: Wait>(&self, rt: &R) -> Result<DbSnapshot<S, M, E, C>, Error> {
        let shared = self.shared.clone().map_err(NoMemory::from)?;
        let number = shared.lock(rt).held.snapshot_number()?;
        Ok(DbSnapshot::of(shared, number))
    }

    /// The operations on the keys with a prefix, each on its own, as `scan_prefix_by_recency_with_options` lists them with the
    /// default options. SlateDB's `scan_prefix_by_recency`.
    pub fn scan_prefix_by_recency<R: Wait>(
        &self,
        rt: &R,
        alloc: Global,
        prefix: &[u8],
    ) -> Result<DbRecencyIterator, Error> {
        self.scan_prefix_by_recency_with_options(rt, alloc, prefix, &ScanOptions::default())
    }

    /// The operations on the keys with a prefix, each on its own, source by source: those in memory, and then those of each
    /// table, the newest first. Within a source the keys come in the order asked for, of one key the newest first.
    ///
    /// On a closed database it answers `Closed` or the error that closed it. It answers
    /// `RecencyScanPrefixSpansMultipleSegments` where two segments of the manifest may have keys with the prefix,
    /// `ObjectStoreError` where the store fails or a table isn't stored, and `NoMemory`. It calls the store once for each
    /// table. SlateDB's `scan_prefix_by_recency_with_options`.
    pub fn scan_prefix_by_recency_with_options<R: Wait>(
        &self,
        rt: &R,
        alloc: Global,
        prefix: &[u8],
        options: &ScanOptions,
    ) -> Result<DbRecencyIterator, Error> {
        let mut guarded = self.shared.lock(rt);
        let found = guarded.held.scan_by_recency(alloc, prefix, options);
        self.shared.tell_late(rt, alloc, &mut guarded);
        Ok(found?)
    }

    /// Takes the latest manifest as the one that the database goes by, and lets go of what is in its tables. It calls the store
    /// once.
    ///
    /// On a closed database it answers `Closed` or the error that closed it. `Fenced`, where the database was opened again
    /// since, closes it; `LatestTransactionalObjectVersionMissing`, `ObjectStoreError` and `NoMemory` close nothing. SlateDB's
    /// `refresh_manifest`.
    pub fn refresh_manifest<R: Wait>(&self, rt: &R, alloc: Global) -> Result<(), Error> {
        self.shared.refresh_manifest(rt, alloc)
    }

    /// Our own: a view of the database's tick, durable number and close code for another thread, which loads them without a
    /// lock. It takes no memory, and answers `NoMemory` where there are as many views as there may be. Of SlateDB's status
    /// the durable number is read so.
    pub fn watch<R: Wait>(&self, rt: &R) -> Result<BoardWatch, Error> {
        Ok(self.shared.lock(rt).held.watch()?)
    }
}

impl<S: Store + Drop, M: Drop, E: PrefixExtractor + Drop, C: Clock + Drop> Db<S, M, E, C> {
    /// Puts a value under a key, as `put_bytes_with_options` does with the default options. SlateDB's `put_bytes`.
    pub fn put_bytes<R: Wait>(
        &self,
        rt: &R,
        alloc: Global,
        key: Bytes,
        value: Bytes,
    ) -> Result<WriteHandle, Error> {
        let (put_opts, write_opts) = (PutOptions::default(), WriteOptions::default());
        self.put_bytes_with_options(rt, alloc, key, value, &put_opts, &write_opts)
    }

    /// Puts a value under a key, as a batch of its own: `DbWriteOps::write_with_options` says which errors it answers. It copies
    /// neither. SlateDB's `put_bytes_with_options`.
    pub fn put_bytes_with_options<R: Wait>(
        &self,
        rt: &R,
        alloc: Global,
        key: Bytes,
        value: Bytes,
        put_opts: &PutOptions,
        _write_opts: &WriteOptions,
    ) -> Result<WriteHandle, Error> {
        let mut batch = WriteBatch::new(alloc);
        batch.put_bytes_with_options(alloc, key, value, put_opts)?;
        self.shared.write(rt, alloc, batch)
    }
}

impl<S: Store + Drop, M: MergeOperator + Drop, E: Drop, C: Drop> DbReadOps for Db<S, M, E, C> {
    fn get_key_value_with_options<R: Wait>(
        &self,
        rt: &R,
        alloc: Global,
        key: &[u8],
        options: &ReadOptions,
    ) -> Result<Option<KeyValue>, Error> {
        self.shared.get(rt, alloc, key, options, None)
    }

    fn scan_with_options<R: Wait>(
        &self,
        rt: &R,
        alloc: Global,
        range: &ByteRange,
        options: &ScanOptions,
    ) -> Result<DbIterator, Error> {
        self.shared.scan(rt, alloc, range, options, None)
    }
}

impl<S, M, E, C> DbWriteOps for Db<S, M, E, C>
where
    S: Store + Drop,
    M: MergeOperator + Drop,
    E: PrefixExtractor + Drop,
    C: Clock + Drop,
{
    type Transaction = DbTransaction<S, M, E, C>;

    fn merge_with_options<R: Wait>(
        &self,
        rt: &R,
        alloc: Global,
        key: &[u8],
        value: &[u8],
        merge_opts: &MergeOptions,
        write_opts: &WriteOptions,
    ) -> Result<WriteHandle, Error> {
        self.shared.require_operator()?;
        let mut batch = WriteBatch::new(alloc);
        batch.merge_with_options(alloc, key, value, merge_opts)?;
        self.write_with_options(rt, alloc, batch, write_opts)
    }

    fn write_with_options<R: Wait>(
        &self,
        rt: &R,
        alloc: Global,
        batch: WriteBatch,
        _options: &WriteOptions,
    ) -> Result<WriteHandle, Error> {
        self.shared.write(rt, alloc, batch)
    }

    fn flush<R: Wait>(&self, rt: &R, alloc: Global) -> Result<(), Error> {
        self.shared.flush(rt, alloc, None)
    }

    fn flush_with_options<R: Wait>(
        &self,
        rt: &R,
        alloc: Global,
        options: FlushOptions,
    ) -> Result<(), Error> {
        self.shared.flush(rt, alloc, Some(options.flush_type))
    }

    fn begin<R: Wait>(
        &self,
        rt: &R,
        alloc: Global,
        level: IsolationLevel,
        id: Uuid,
    ) -> Result<DbTransaction<S, M, E, C>, Error> {
        let shared = self.shared.clone().map_err(NoMemory::from)?;
        let transaction = shared.lock(rt).held.begin(alloc, level, id)?;
        Ok(DbTransaction::of(shared, transaction))
    }
}

impl<S: Store + Drop, M: Drop, E: Drop, C: Drop> DbMetadataOps for Db<S, M, E, C> {
    fn manifest<R: Wait>(&self, rt: &R, alloc: Global) -> Result<VersionedManifest, Error> {
        Ok(self.status(rt, alloc)?.current_manifest)
    }

    fn subscribe<R: Wait>(&self, rt: &R) -> Result<StatusReceiver, Error> {
        Ok(self.shared.status().subscribe(rt)?)
    }

    fn status<R: Wait>(&self, rt: &R, alloc: Global) -> Result<DbStatus, Error> {
        Ok(self.shared.lock(rt).held.status(alloc)?)
    }
}

impl<S: Store + Drop, M: Drop, E: Drop, C: Drop> DbCacheManagerOps for Db<S, M, E, C> {
    fn warm_sst<R: Wait>(
        &self,
        rt: &R,
        _table: TableId,
        _targets: &[CacheTarget],
    ) -> Result<(), Error> {
        self.check_open(rt)
    }

    fn evict_cached_sst<R: Wait>(&self, rt: &R, _table: TableId) -> Result<(), Error> {
        self.check_open(rt)
    }
}

impl<S: Store + Drop, M: Drop, E: Drop, C: Drop> Db<S, M, E, C> {
    /// Ok while it is open, and else `Closed` or the error that closed it.
    fn check_open<R: Wait>(&self, rt: &R) -> Result<(), Error> {
        match self.shared.lock(rt).held.closed() {
            None => Ok(()),
            Some(result) => Err(Error::from(SlateError::of_closed(result))),
        }
    }
}
