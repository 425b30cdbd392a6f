// How a reader is opened.
use crate::{DbReader, HeldReader, NoExtractor, NoMerge};
use slate_errors::Error;
use slate_follow::{DbReaderMode, DbReaderOptions};
use slate_receivers::Clock;
use slate_store::Store;
use slate_types::{MergeOperator, PrefixExtractor};
use std::alloc::Global;

/// What a reader is to be opened with. SlateDB's type of this name.
#[derive(Drop)]
pub struct DbReaderBuilder<S: Store, M, E, C> {
    store: S,
    mode: DbReaderMode,
    options: DbReaderOptions,
    operator: Option<M>,
    extractor: Option<E>,
    clock: C,
}

impl<S: Store, C> DbReaderBuilder<S, NoMerge, NoExtractor, C> {
    /// A builder with the default mode and options, and no merge operator and no extractor.
    pub(crate) fn new(store: S, clock: C) -> DbReaderBuilder<S, NoMerge, NoExtractor, C> {
        DbReaderBuilder {
            store,
            mode: DbReaderMode::default(),
            options: DbReaderOptions::default(),
            operator: None,
            extractor: None,
            clock,
        }
    }
}

impl<S: Store, M, E, C> DbReaderBuilder<S, M, E, C> {
    /// With these options in place of the ones before.
    pub fn with_options(self, options: DbReaderOptions) -> DbReaderBuilder<S, M, E, C> {
        DbReaderBuilder {
            store: self.store,
            mode: self.mode,
            options,
            operator: self.operator,
            extractor: self.extractor,
            clock: self.clock,
        }
    }

    /// In this mode in place of the one before. The default one keeps a checkpoint of its own.
    pub fn with_reader_mode(self, mode: DbReaderMode) -> DbReaderBuilder<S, M, E, C> {
        DbReaderBuilder {
            store: self.store,
            mode,
            options: self.options,
            operator: self.operator,
            extractor: self.extractor,
            clock: self.clock,
        }
    }

    /// With this merge operator, which each read uses. SlateDB's call of this name.
    pub fn with_merge_operator<N: MergeOperator>(self, operator: N) -> DbReaderBuilder<S, N, E, C>
    where
        M: Drop,
    {
        DbReaderBuilder {
            store: self.store,
            mode: self.mode,
            options: self.options,
            operator: Some(operator),
            extractor: self.extractor,
            clock: self.clock,
        }
    }

    /// With this prefix extractor, which the opening and each poll uses. SlateDB's call of this name.
    pub fn with_segment_extractor<F: PrefixExtractor>(
        self,
        extractor: F,
    ) -> DbReaderBuilder<S, M, F, C>
    where
        E: Drop,
    {
        DbReaderBuilder {
            store: self.store,
            mode: self.mode,
            options: self.options,
            operator: self.operator,
            extractor: Some(extractor),
            clock: self.clock,
        }
    }

    /// With this clock, which the opening and each poll reads. SlateDB's call of this name.
    pub fn with_system_clock<D: Clock>(self, clock: D) -> DbReaderBuilder<S, M, E, D>
    where
        C: Drop,
    {
        DbReaderBuilder {
            store: self.store,
            mode: self.mode,
            options: self.options,
            operator: self.operator,
            extractor: self.extractor,
            clock,
        }
    }
}

impl<S, M, E, C> DbReaderBuilder<S, M, E, C>
where
    S: Store + Drop,
    M: MergeOperator + Drop,
    E: PrefixExtractor + Drop,
    C: Clock + Drop,
{
    /// Opens the reader, which sees what is stored then: in the mode `FollowLatest` by the latest manifest, in the mode
    /// `Checkpoint` by that of the checkpoint, and in the mode `ManagedCheckpoint` by a manifest that it puts, with a checkpoint
    /// of its own, whose lease begins at the clock's moment. Where a log file is missing, it sees what comes before.
    ///
    /// It answers `LatestTransactionalObjectVersionMissing` where there is no database in the store. `InvalidDBState`,
    /// `CheckpointMissing`, the refusals of a checkpoint's options, of an extractor that isn't the database's, and of the store
    /// come where `FollowerState::open` says. With an error the store is gone. SlateDB's `build`.
    pub fn build(self, alloc: Global) -> Result<DbReader<S, M, E, C>, Error> {
        let DbReaderBuilder {
            store,
            mode,
            options,
            operator,
            extractor,
            mut clock,
        } = self;
        let moment = clock.now_ms();
        let opened = HeldReader::open(alloc, store, mode, &options, extractor.as_ref(), moment)?;
        let (held, _found) = opened;
        let interval_ms = options.manifest_poll_interval_ms;
        Ok(DbReader::of(alloc, held, operator, extractor, clock, interval_ms)?)
    }
}
