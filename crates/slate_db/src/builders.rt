// How a database is opened.
use crate::shared::Shared;
use crate::{Db, Held, NoExtractor, NoMerge};
use slate_errors::Error;
use slate_receivers::Clock;
use slate_store::Store;
use slate_types::{MergeOperator, NoMemory, PrefixExtractor};
use slate_writer::WriterOptions;
use std::alloc::Global;
use std::sync::Arc;

/// What a database is to be opened with. SlateDB's type of this name.
#[derive(Drop)]
pub struct DbBuilder<S: Store, M, E, C> {
    store: S,
    settings: WriterOptions,
    operator: Option<M>,
    extractor: Option<E>,
    clock: C,
}

impl<S: Store, C> DbBuilder<S, NoMerge, NoExtractor, C> {
    /// A builder with the default settings, and no merge operator and no extractor.
    pub(crate) fn new(store: S, clock: C) -> DbBuilder<S, NoMerge, NoExtractor, C> {
        DbBuilder {
            store,
            settings: WriterOptions::default(),
            operator: None,
            extractor: None,
            clock,
        }
    }
}

impl<S: Store, M, E, C> DbBuilder<S, M, E, C> {
    /// With these settings in place of the ones before.
    pub fn with_settings(self, settings: WriterOptions) -> DbBuilder<S, M, E, C> {
        DbBuilder {
            store: self.store,
            settings,
            operator: self.operator,
            extractor: self.extractor,
            clock: self.clock,
        }
    }

    /// With this merge operator, which each merge and each read of the database uses. SlateDB's call of this name.
    pub fn with_merge_operator<N: MergeOperator>(self, operator: N) -> DbBuilder<S, N, E, C>
    where
        M: Drop,
    {
        DbBuilder {
            store: self.store,
            settings: self.settings,
            operator: Some(operator),
            extractor: self.extractor,
            clock: self.clock,
        }
    }

    /// With this prefix extractor, which the opening and each write of the database uses. SlateDB's call of this name.
    pub fn with_segment_extractor<F: PrefixExtractor>(self, extractor: F) -> DbBuilder<S, M, F, C>
    where
        E: Drop,
    {
        DbBuilder {
            store: self.store,
            settings: self.settings,
            operator: self.operator,
            extractor: Some(extractor),
            clock: self.clock,
        }
    }

    /// With this clock, which each write of the database reads. SlateDB's call of this name.
    pub fn with_system_clock<D: Clock>(self, clock: D) -> DbBuilder<S, M, E, D>
    where
        C: Drop,
    {
        DbBuilder {
            store: self.store,
            settings: self.settings,
            operator: self.operator,
            extractor: self.extractor,
            clock,
        }
    }
}

impl<S, M, E, C> DbBuilder<S, M, E, C>
where
    S: Store + Drop,
    M: MergeOperator + Drop,
    E: PrefixExtractor + Drop,
    C: Clock + Drop,
{
    /// Opens the database, a new one where the store has no manifest. It commits a manifest and puts an empty log file, by which
    /// it fences whoever opened the database before, and replays what the log files have that isn't in tables: it sees all
    /// that is stored, and all of that is durable.
    ///
    /// It answers `InvalidDBState` where the latest manifest isn't initialised or doesn't fit, and where an id would pass the
    /// greatest number; `SegmentExtractorMismatch`, `SegmentPrefixNotRecognized` and `EmptySegmentPrefix` where the extractor
    /// isn't the database's; `WalTruncated` where a log file is missing, and `Fenced` where another opening came meanwhile;
    /// and `ObjectStoreError`, `TransactionalObjectVersionExists` and `NoMemory`, after which the manifest may be there, or it
    /// and the log file. With an error the store is gone. SlateDB's `build`.
    pub fn build(self, alloc: Global) -> Result<Db<S, M, E, C>, Error> {
        let DbBuilder {
            store,
            settings,
            operator,
            extractor,
            clock,
        } = self;
        let held = Held::open(alloc, store, &settings, extractor.as_ref())?;
        let shared = Shared::new(alloc, held, operator, extractor, clock)?;
        Ok(Db::of(Arc::new(alloc, shared).map_err(NoMemory::from)?))
    }
}
