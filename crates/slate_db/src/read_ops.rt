// The trait of reads.
ghost use Rattle.std.specs.Prelude.{◌≡◌, option_map};

use bytes::Bytes;
use slate_errors::Error;
use slate_held::keys_with;
use slate_rows::DbIterator;
use slate_types::{ByteRange, KeyValue, ReadOptions, ScanOptions};
use std::alloc::Global;
use std::sync::Wait;

/// Reads of a database: of a `Db`, of a snapshot and a transaction of it, and of a `DbReader`. SlateDB's trait of this name.
/// Each call waits for the locks that it takes.
pub trait DbReadOps {
    /// The value of a key, or None where it has none, as `get_with_options` reads it with the default options.
    fn get<R: Wait>(&self, rt: &R, alloc: Global, key: &[u8]) -> Result<Option<Bytes>, Error> {
        self.get_with_options(rt, alloc, key, &ReadOptions::default())
    }

    /// The value of a key, or None where it has none: that of the row that `get_key_value_with_options` answers.
    fn get_with_options<R: Wait>(
        &self,
        rt: &R,
        alloc: Global,
        key: &[u8],
        options: &ReadOptions,
    ) -> Result<Option<Bytes>, Error> {
        let row = self.get_key_value_with_options(rt, alloc, key, options)?;
        Ok(value_of(row))
    }

    /// The row of a key, or None where it has none, as `get_key_value_with_options` reads it with the default options.
    fn get_key_value<R: Wait>(
        &self,
        rt: &R,
        alloc: Global,
        key: &[u8],
    ) -> Result<Option<KeyValue>, Error> {
        self.get_key_value_with_options(rt, alloc, key, &ReadOptions::default())
    }

    /// The row of a key: its value, the number and the creation time of the batch that wrote it last, and when it expires.
    /// None where it has no value. It calls the store once for each table.
    ///
    /// On something closed it answers `Closed` or the error that closed it. It answers `MergeOperatorMissing` where operands
    /// are to be merged without an operator, `MergeOperatorError` where the operator refuses one, `ObjectStoreError` where
    /// the store fails or a table isn't stored, and `NoMemory`. An error changes nothing.
    fn get_key_value_with_options<R: Wait>(
        &self,
        rt: &R,
        alloc: Global,
        key: &[u8],
        options: &ReadOptions,
    ) -> Result<Option<KeyValue>, Error>;

    /// The rows of the keys in a range, as `scan_with_options` reads them with the default options.
    fn scan<R: Wait>(&self, rt: &R, alloc: Global, range: &ByteRange) -> Result<DbIterator, Error> {
        self.scan_with_options(rt, alloc, range, &ScanOptions::default())
    }

    /// The rows of the keys in a range that have one, in the order asked for. All are read before it returns, so that the
    /// iterator calls no store and keeps its rows, whatever is written later; it takes time and memory for each key of the
    /// range. It calls the store once for each table.
    ///
    /// On something closed it answers `Closed` or the error that closed it, `ObjectStoreError` where the store fails or a
    /// table isn't stored, and `NoMemory`. Where a key's operands can't be merged, the rows end before it, and the iterator
    /// answers that error after them.
    fn scan_with_options<R: Wait>(
        &self,
        rt: &R,
        alloc: Global,
        range: &ByteRange,
        options: &ScanOptions,
    ) -> Result<DbIterator, Error>;

    /// The rows of the keys with a prefix, as `scan_prefix_with_options` reads them with the default options.
    fn scan_prefix<R: Wait>(
        &self,
        rt: &R,
        alloc: Global,
        prefix: &[u8],
        subrange: &ByteRange,
    ) -> Result<DbIterator, Error> {
        self.scan_prefix_with_options(rt, alloc, prefix, subrange, &ScanOptions::default())
    }

    /// The rows of the keys that are the prefix and then a suffix in `subrange`, as `scan_with_options` reads them. With
    /// `ByteRange::full()` these are all keys with the prefix.
    fn scan_prefix_with_options<R: Wait>(
        &self,
        rt: &R,
        alloc: Global,
        prefix: &[u8],
        subrange: &ByteRange,
        options: &ScanOptions,
    ) -> Result<DbIterator, Error> {
        let range = keys_with(alloc, prefix, subrange)?;
        self.scan_with_options(rt, alloc, &range, options)
    }
}

/// The value of a row.
fn value_of(row: Option<KeyValue>) -> Option<Bytes>
    ensures { result ≡ option_map (λ row. row.value) row }
{
    row.map(|row| row.value)
}
