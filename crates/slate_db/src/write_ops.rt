// The trait of writes.
use crate::{DbTransactionOps, WriteHandle};
use slate_errors::Error;
use slate_types::{FlushOptions, MergeOptions, PutOptions, WriteBatch, WriteOptions};
use slate_writer::IsolationLevel;
use std::alloc::Global;
use std::sync::Wait;
use uuid::Uuid;

/// Writes to a database. SlateDB's trait of this name. A write returns once it is accepted: it is readable then, and durable
/// after the next flush, for which its handle waits. Each call waits for the lock of the database.
pub trait DbWriteOps {
    /// What `begin` answers.
    type Transaction: DbTransactionOps;

    /// Puts a value under a key, as `put_with_options` does with the default options.
    fn put<R: Wait>(
        &self,
        rt: &R,
        alloc: Global,
        key: &[u8],
        value: &[u8],
    ) -> Result<WriteHandle, Error> {
        let (put_opts, write_opts) = (PutOptions::default(), WriteOptions::default());
        self.put_with_options(rt, alloc, key, value, &put_opts, &write_opts)
    }

    /// Puts a value under a key, as a batch of its own: `write_with_options` says which errors it answers. It copies both.
    fn put_with_options<R: Wait>(
        &self,
        rt: &R,
        alloc: Global,
        key: &[u8],
        value: &[u8],
        put_opts: &PutOptions,
        write_opts: &WriteOptions,
    ) -> Result<WriteHandle, Error> {
        let mut batch = WriteBatch::new(alloc);
        batch.put_with_options(alloc, key, value, put_opts)?;
        self.write_with_options(rt, alloc, batch, write_opts)
    }

    /// Merges an operand into the value of a key, as `merge_with_options` does with the default options.
    fn merge<R: Wait>(
        &self,
        rt: &R,
        alloc: Global,
        key: &[u8],
        value: &[u8],
    ) -> Result<WriteHandle, Error> {
        let (merge_opts, write_opts) = (MergeOptions::default(), WriteOptions::default());
        self.merge_with_options(rt, alloc, key, value, &merge_opts, &write_opts)
    }

    /// Merges an operand into the value of a key, as a batch of its own. Without a merge operator it answers
    /// `MergeOperatorMissing`, also on a closed database; else `write_with_options` says which errors it answers. It copies key
    /// and operand.
    fn merge_with_options<R: Wait>(
        &self,
        rt: &R,
        alloc: Global,
        key: &[u8],
        value: &[u8],
        merge_opts: &MergeOptions,
        write_opts: &WriteOptions,
    ) -> Result<WriteHandle, Error>;

    /// Deletes a key, as `delete_with_options` does with the default options.
    fn delete<R: Wait>(&self, rt: &R, alloc: Global, key: &[u8]) -> Result<WriteHandle, Error> {
        self.delete_with_options(rt, alloc, key, &WriteOptions::default())
    }

    /// Deletes a key, as a batch of its own: `write_with_options` says which errors it answers. It copies the key.
    fn delete_with_options<R: Wait>(
        &self,
        rt: &R,
        alloc: Global,
        key: &[u8],
        options: &WriteOptions,
    ) -> Result<WriteHandle, Error> {
        let mut batch = WriteBatch::new(alloc);
        batch.delete(alloc, key)?;
        self.write_with_options(rt, alloc, batch, options)
    }

    /// Writes a batch, as `write_with_options` does with the default options.
    fn write<R: Wait>(
        &self,
        rt: &R,
        alloc: Global,
        batch: WriteBatch,
    ) -> Result<WriteHandle, Error> {
        self.write_with_options(rt, alloc, batch, &WriteOptions::default())
    }

    /// Writes the operations of a batch as one: readers see all of them or none. The batch gets the next number, and the
    /// clock's moment as its creation time, both of which the handle tells.
    ///
    /// It answers, in this order, `Closed` or the error that closed the database, `EmptyBatch`, `EmptyKey`,
    /// `IncompatibleMergeTtls` where a key is merged under two times of expiry, `Backpressure` where as many bytes aren't
    /// flushed as the settings allow, `EmptySegmentPrefix` and `InvalidSegmentPrefix` where a key has no segment,
    /// `InvalidDBState` after the greatest number, and `InvalidClockTick` where the clock, read twice, is behind the batch
    /// before. After an error, `NoMemory` among them, nothing is written.
    fn write_with_options<R: Wait>(
        &self,
        rt: &R,
        alloc: Global,
        batch: WriteBatch,
        options: &WriteOptions,
    ) -> Result<WriteHandle, Error>;

    /// Stores what was accepted: in the log where the database keeps one, and else in a table. After Ok all of it is
    /// durable. `flush_with_options` says which errors it answers.
    fn flush<R: Wait>(&self, rt: &R, alloc: Global) -> Result<(), Error>;

    /// Stores what was accepted, in the log or in a table, as the options say. After Ok all of it is durable.
    ///
    /// It answers `Closed` or the error that closed the database, and `WalDisabled` to a flush of the log where it keeps
    /// none. `Fenced`, where the database was opened again since, and each fault of the store close it with that error;
    /// `InvalidDBState`, after the greatest id, and `NoMemory` close nothing.
    fn flush_with_options<R: Wait>(
        &self,
        rt: &R,
        alloc: Global,
        options: FlushOptions,
    ) -> Result<(), Error>;

    /// Begins a transaction under this id, whose reads see what was accepted until now. On a closed database it answers
    /// `Closed` or the error that closed it, and `NoMemory` where too many share the database.
    fn begin<R: Wait>(
        &self,
        rt: &R,
        alloc: Global,
        level: IsolationLevel,
        id: Uuid,
    ) -> Result<Self::Transaction, Error>;
}
