// A database as it was.
ghost use Rattle.std.specs.Prelude.{◌≡◌};

use crate::DbReadOps;
use crate::shared::Shared;
use slate_errors::Error;
use slate_rows::DbIterator;
use slate_store::Store;
use slate_types::{ByteRange, KeyValue, MergeOperator, ReadOptions, ScanOptions};
use std::alloc::Global;
use std::sync::{Arc, Wait};

/// A database as it was when the snapshot was taken. SlateDB's type of this name. It shares the database, so that a read of it
/// answers what closed that. Each read waits for the database's lock.
pub struct DbSnapshot<S: Store, M, E, C> {
    shared: Arc<Shared<S, M, E, C>>,
    number: u64,
}

impl<S: Store + Drop, M: Drop, E: Drop, C: Drop> Drop for DbSnapshot<S, M, E, C> {
    fn drop(self) {
        let DbSnapshot {
            shared: _,
            number: _,
        } = self;
    }
}

impl<S: Store, M, E, C> DbSnapshot<S, M, E, C> {
    /// The snapshot of what is shared, up to a number.
    pub(crate) fn of(shared: Arc<Shared<S, M, E, C>>, number: u64) -> DbSnapshot<S, M, E, C> {
        DbSnapshot { shared, number }
    }

    /// The number of the last batch that it sees. It takes no lock. SlateDB's `seq`.
    pub fn seq(&self) -> u64
        ensures { result ≡ self.now.number }
    {
        self.number
    }
}

impl<S: Store + Drop, M: MergeOperator + Drop, E: Drop, C: Drop> DbReadOps
    for DbSnapshot<S, M, E, C> {
    fn get_key_value_with_options<R: Wait>(
        &self,
        rt: &R,
        alloc: Global,
        key: &[u8],
        options: &ReadOptions,
    ) -> Result<Option<KeyValue>, Error> {
        self.shared.get(rt, alloc, key, options, Some(self.number))
    }

    fn scan_with_options<R: Wait>(
        &self,
        rt: &R,
        alloc: Global,
        range: &ByteRange,
        options: &ScanOptions,
    ) -> Result<DbIterator, Error> {
        self.shared
            .scan(rt, alloc, range, options, Some(self.number))
    }
}
