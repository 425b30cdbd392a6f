// The first example: a database is opened, written, read and flushed, and a reader sees what was flushed.
use bytes::Bytes;
use slate_db::{
    Db, DbReadOps, DbReader, DbReaderMode, DbReaderOptions, DbWriteOps, Error, MemoryStore,
    SharedStore, WriterOptions,
};
use std::alloc::Global;
use std::rt::Clock;
use std::sync::Wait;

/// Puts a few keys, deletes one, and answers what the database and then a reader find under two of them.
pub fn put_and_get<R>(rt: R, alloc: Global) -> Result<[Option<Bytes>; 3], Error>
where
    R: Wait + Clock + Copy,
{
    // Setup: a store in memory, which the database and the reader share.
    let object_store = SharedStore::new(alloc, rt, MemoryStore::new(alloc))?;
    let kv_store = Db::open(alloc, rt, object_store.share()?, &WriterOptions::default())?;

    // Put
    kv_store.put(&rt, alloc, b"test_key", b"test_value")?;

    // Get
    let value = kv_store.get(&rt, alloc, b"test_key")?;

    // Delete
    kv_store.delete(&rt, alloc, b"test_key")?;
    kv_store.put(&rt, alloc, b"test_key1", b"test_value1")?;

    // Flush: from then on it is durable, and a reader that is opened or polled sees it.
    kv_store.flush(&rt, alloc)?;
    let (mode, options) = (DbReaderMode::FollowLatest, DbReaderOptions::default());
    let reader = DbReader::open(alloc, rt, object_store, mode, &options)?;
    let deleted = reader.get(&rt, alloc, b"test_key")?;
    let stored = reader.get(&rt, alloc, b"test_key1")?;

    // Close
    reader.close(&rt, alloc)?;
    kv_store.close(&rt, alloc)?;
    Ok([value, deleted, stored])
}
