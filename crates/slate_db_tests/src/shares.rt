// Tests of a database that threads share.
use slate_db::{Db, DbMetadataOps, DbReadOps, DbWriteOps, NoExtractor, NoMerge, Stop};
use slate_errors::Error;
use slate_receivers::SystemClock;
use slate_store::MemoryStore;
use slate_writer::WriterOptions;
use std::alloc::Global;
use std::sync::Wait;
use std::test::Fail;
use std::thread::{Threads, join};

/// Puts, waits until a flusher has stored that, and stops the flusher.
fn put_and_await<R, D>(rt: &R, alloc: Global, db: &D, stop: &Stop) -> Result<(), Error>
where
    R: Wait,
    D: DbWriteOps,
{
    let handle = db.put(rt, alloc, b"a", b"x")?;
    let outcome = handle.await_durable(rt);
    stop.stop(rt);
    outcome
}

fn durable_of<R: Wait, D: DbMetadataOps>(rt: &R, alloc: Global, db: &D) -> Result<u64, Error> {
    Ok(db.status(rt, alloc)?.durable_seq)
}

#[test]
fn flusher_makes_writes_durable(rt: HostRuntime) -> Result<(), Fail> {
    let (alloc, options) = (rt.alloc(), WriterOptions::default());
    let db = Db::open(alloc, rt, MemoryStore::new(alloc), &options)?;
    let stop = Stop::new();
    let (waiting, writer, stopped) = (&rt, &db, &stop);
    let answers = join(
        &rt,
        move || writer.run_flusher(waiting, alloc, 1, stopped).is_ok(),
        move || put_and_await(waiting, alloc, writer, stopped).is_ok(),
    );
    let durable = durable_of(&rt, alloc, &db);
    drop(db);
    assert!(rt; (answers, durable?) == ((true, true), 1));
    Ok(())
}

/// How often each thread of the four calls.
const TURNS: u8 = 50;

/// Puts the values from 0 on under a key, one after another.
fn put_on<R: Wait, D: DbWriteOps>(rt: &R, alloc: Global, db: &D, key: &[u8]) -> Result<(), Error> {
    for value in 0..TURNS {
        db.put(rt, alloc, key, &[value])?;
    }
    Ok(())
}

/// The number and the value that are found under a key, or 0 and none.
fn found<R, D>(rt: &R, alloc: Global, db: &D, key: &[u8]) -> Result<(u64, Option<u8>), Error>
where
    R: Wait,
    D: DbReadOps,
{
    Ok(match db.get_key_value(rt, alloc, key)? {
        Some(row) => (row.seq, row.value.as_slice().first().copied()),
        None => (0, None),
    })
}

/// Gets a key again and again. Whether no value and no number was behind one that was got before.
fn get_on<R: Wait, D: DbReadOps>(rt: &R, alloc: Global, db: &D, key: &[u8]) -> Result<bool, Error> {
    let mut last = (0, None);
    let mut rises = true;
    for _ in 0..TURNS {
        let found = found(rt, alloc, db, key)?;
        rises = rises && last <= found;
        last = found;
    }
    Ok(rises)
}

/// A database in memory with the clock of the system.
type SystemDb = Db<MemoryStore, NoMerge, NoExtractor, SystemClock<HostRuntime>>;

/// Two threads that write a key each.
fn write_both<R: Threads + Wait + Sync>(rt: &R, alloc: Global, db: &SystemDb) -> (bool, bool) {
    join(
        rt,
        move || put_on(rt, alloc, db, b"a").is_ok(),
        move || put_on(rt, alloc, db, b"b").is_ok(),
    )
}

/// Two threads that read these. Whether what they found rose.
fn read_both<R, D>(rt: &R, alloc: Global, db: &D) -> (bool, bool)
where
    R: Threads + Wait + Sync,
    D: DbReadOps + Sync,
{
    join(
        rt,
        move || matches!(get_on(rt, alloc, db, b"a"), Ok(true)),
        move || matches!(get_on(rt, alloc, db, b"b"), Ok(true)),
    )
}

// Two threads write, and two read.
#[test]
fn writers_and_readers_on_four_threads(rt: HostRuntime) -> Result<(), Fail> {
    let alloc = rt.alloc();
    let options = WriterOptions::default();
    let db = Db::open(alloc, rt, MemoryStore::new(alloc), &options)?;
    let (handle, shared) = (&rt, &db);
    let done = join(
        &rt,
        move || write_both(handle, alloc, shared),
        move || read_both(handle, alloc, shared),
    );
    let (a, b) = (found(&rt, alloc, &db, b"a"), found(&rt, alloc, &db, b"b"));
    drop(db);
    let (a, b) = (a?, b?);
    assert!(rt; done == ((true, true), (true, true)));
    assert!(rt; (a.0.max(b.0), a.1, b.1) == (100, Some(49), Some(49)));
    Ok(())
}
