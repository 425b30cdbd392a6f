// The trait of transactions.
use crate::{DbReadOps, WriteHandle};
use slate_errors::Error;
use slate_types::{MergeOptions, PutOptions, WriteOptions};
use std::alloc::Global;
use std::sync::Wait;
use uuid::Uuid;

/// A transaction: its operations are read by itself alone until its commit writes them as one batch. SlateDB's trait of this
/// name. Each call that is passed a runtime waits for the locks that it takes; one that adds something answers `NoMemory`
/// alone, but for a merge, and has added nothing then.
pub trait DbTransactionOps: DbReadOps + Sized {
    /// Adds a put, as `put_with_options` does with the default options.
    fn put<R: Wait>(&self, rt: &R, alloc: Global, key: &[u8], value: &[u8]) -> Result<(), Error> {
        self.put_with_options(rt, alloc, key, value, &PutOptions::default())
    }

    /// Adds a put of a value under a key. It copies both.
    fn put_with_options<R: Wait>(
        &self,
        rt: &R,
        alloc: Global,
        key: &[u8],
        value: &[u8],
        options: &PutOptions,
    ) -> Result<(), Error>;

    /// Adds a delete of a key, which it copies.
    fn delete<R: Wait>(&self, rt: &R, alloc: Global, key: &[u8]) -> Result<(), Error>;

    /// Adds an operand to merge, as `merge_with_options` does with the default options.
    fn merge<R: Wait>(&self, rt: &R, alloc: Global, key: &[u8], value: &[u8]) -> Result<(), Error> {
        self.merge_with_options(rt, alloc, key, value, &MergeOptions::default())
    }

    /// Adds an operand to merge into the value of a key. It copies both. Where the database has no merge operator it answers
    /// `MergeOperatorMissing`, and adds nothing.
    fn merge_with_options<R: Wait>(
        &self,
        rt: &R,
        alloc: Global,
        key: &[u8],
        value: &[u8],
        options: &MergeOptions,
    ) -> Result<(), Error>;

    /// Marks a key as read, so that the commit conflicts with a later write of it, at both levels.
    fn mark_read<R: Wait>(&self, rt: &R, alloc: Global, key: &[u8]) -> Result<(), Error>;

    /// Lets the transaction's writes of a key, those before and after, conflict with no one's.
    fn unmark_write<R: Wait>(&self, rt: &R, alloc: Global, key: &[u8]) -> Result<(), Error>;

    /// The number of the last batch when it began. It takes no lock.
    fn seqnum(&self) -> u64;

    /// The id under which it began. It takes no lock.
    fn id(&self) -> Uuid;

    /// Commits it, as `commit_with_options` does with the default options.
    fn commit<R: Wait>(self, rt: &R, alloc: Global) -> Result<Option<WriteHandle>, Error> {
        self.commit_with_options(rt, alloc, &WriteOptions::default())
    }

    /// Writes its operations as one batch, and ends it. Without an operation it writes nothing and answers None.
    ///
    /// On a closed database it answers `Closed` or the error that closed it. It answers `TransactionConflict` where a batch
    /// since its begin wrote a key that it writes and didn't unmark, or that it marked as read; at `SerializableSnapshot` also
    /// one that it got, or one in a range that it scanned. Else it answers what a write of its operations does. After an
    /// error nothing is written, and the transaction is gone.
    fn commit_with_options<R: Wait>(
        self,
        rt: &R,
        alloc: Global,
        options: &WriteOptions,
    ) -> Result<Option<WriteHandle>, Error>;

    /// Ends it without a write. It takes no lock.
    fn rollback(self);
}
