// A transaction that belongs to its database.
use crate::shared::Shared;
use crate::{DbReadOps, DbTransactionOps, WriteHandle};
use slate_errors::Error;
use slate_held::merge_in;
use slate_receivers::Clock;
use slate_rows::DbIterator;
use slate_store::Store;
use slate_types::{
    ByteRange, KeyValue, MergeOperator, MergeOptions, PrefixExtractor, PutOptions, ReadOptions,
    ScanOptions, WriteOptions,
};
use slate_writer::Transaction;
use std::alloc::Global;
use std::sync::{Arc, Mutex, Wait};
use uuid::Uuid;

/// A transaction of a database, which it shares. SlateDB's type of this name. Its own operations are read as the newest batch,
/// with the number at which it began and the creation time 0. One that is dropped is rolled back. A read waits for its own
/// lock and then for the database's, a commit for the latter alone, and any other call for its own.
pub struct DbTransaction<S: Store, M, E, C> {
    shared: Arc<Shared<S, M, E, C>>,
    seqnum: u64,
    id: Uuid,
    transaction: Mutex<Transaction>,
}

impl<S: Store + Drop, M: Drop, E: Drop, C: Drop> Drop for DbTransaction<S, M, E, C> {
    fn drop(self) {
        let DbTransaction {
            shared: _,
            seqnum: _,
            id: _,
            transaction: _,
        } = self;
    }
}

impl<S: Store, M, E, C> DbTransaction<S, M, E, C> {
    /// A transaction that began on what is shared.
    pub(crate) fn of(
        shared: Arc<Shared<S, M, E, C>>,
        transaction: Transaction,
    ) -> DbTransaction<S, M, E, C> {
        DbTransaction {
            shared,
            seqnum: transaction.seqnum(),
            id: transaction.id(),
            transaction: Mutex::new(transaction),
        }
    }
}

impl<S: Store + Drop, M: MergeOperator + Drop, E: Drop, C: Drop> DbReadOps
    for DbTransaction<S, M, E, C> {
    fn get_key_value_with_options<R: Wait>(
        &self,
        rt: &R,
        alloc: Global,
        key: &[u8],
        options: &ReadOptions,
    ) -> Result<Option<KeyValue>, Error> {
        let mut transaction = self.transaction.lock(rt);
        self.shared
            .get_in(rt, alloc, &mut transaction, key, options)
    }

    fn scan_with_options<R: Wait>(
        &self,
        rt: &R,
        alloc: Global,
        range: &ByteRange,
        options: &ScanOptions,
    ) -> Result<DbIterator, Error> {
        let mut transaction = self.transaction.lock(rt);
        self.shared
            .scan_in(rt, alloc, &mut transaction, range, options)
    }
}

impl<S, M, E, C> DbTransactionOps for DbTransaction<S, M, E, C>
where
    S: Store + Drop,
    M: MergeOperator + Drop,
    E: PrefixExtractor + Drop,
    C: Clock + Drop,
{
    fn put_with_options<R: Wait>(
        &self,
        rt: &R,
        alloc: Global,
        key: &[u8],
        value: &[u8],
        options: &PutOptions,
    ) -> Result<(), Error> {
        let mut transaction = self.transaction.lock(rt);
        Ok(transaction.put_with_options(alloc, key, value, options)?)
    }

    fn delete<R: Wait>(&self, rt: &R, alloc: Global, key: &[u8]) -> Result<(), Error> {
        Ok(self.transaction.lock(rt).delete(alloc, key)?)
    }

    fn merge_with_options<R: Wait>(
        &self,
        rt: &R,
        alloc: Global,
        key: &[u8],
        value: &[u8],
        options: &MergeOptions,
    ) -> Result<(), Error> {
        let mut transaction = self.transaction.lock(rt);
        let operator = self.shared.operator();
        Ok(merge_in(&mut transaction, alloc, key, value, options, operator)?)
    }

    fn mark_read<R: Wait>(&self, rt: &R, alloc: Global, key: &[u8]) -> Result<(), Error> {
        Ok(self.transaction.lock(rt).mark_read(alloc, key)?)
    }

    fn unmark_write<R: Wait>(&self, rt: &R, alloc: Global, key: &[u8]) -> Result<(), Error> {
        Ok(self.transaction.lock(rt).unmark_write(alloc, key)?)
    }

    fn seqnum(&self) -> u64 {
        self.seqnum
    }

    fn id(&self) -> Uuid {
        self.id
    }

    fn commit_with_options<R: Wait>(
        self,
        rt: &R,
        alloc: Global,
        _options: &WriteOptions,
    ) -> Result<Option<WriteHandle>, Error> {
        let DbTransaction {
            shared,
            seqnum: _,
            id: _,
            transaction,
        } = self;
        shared.commit(rt, alloc, transaction.into_inner())
    }

    fn rollback(self) {
        let _ = self;
    }
}
