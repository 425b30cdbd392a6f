// A test of what the status of a database is told.
use slate_db::{Db, DbMetadataOps, DbReadOps, DbWriteOps};
use slate_errors::{CloseReason, Error};
use slate_receivers::StatusReceiver;
use slate_store::MemoryStore;
use slate_types::{ConcatOperator, FixedPrefix, FlushOptions, FlushType, NoMemory};
use std::alloc::Global;
use std::sync::Wait;
use std::test::Fail;

/// What a receiver is shown: the durable number, the last number in tables, how many segments have batches outside of them,
/// and why it closed.
type Shown = (u64, u64, usize, Option<CloseReason>);

/// What a receiver is shown now.
fn shown<R: Wait>(rt: &R, alloc: Global, receiver: &mut StatusReceiver) -> Result<Shown, NoMemory> {
    let status = receiver.borrow_and_update(rt, alloc)?;
    let tabled = status.current_manifest.manifest.last_l0_seq;
    let segments = status.memtable_segments.as_slice().len();
    Ok((status.durable_seq, tabled, segments, status.close_reason))
}

/// Puts a key, and merges an operand into it and into one of another segment.
fn write_three<R: Wait, D: DbWriteOps>(rt: &R, alloc: Global, db: &D) -> Result<(), Error> {
    db.put(rt, alloc, b"aab", b"x")?;
    db.merge(rt, alloc, b"aab", b"y")?;
    db.merge(rt, alloc, b"bba", b"z")?;
    Ok(())
}

/// What a receiver is shown after these writes, and after a flush of them to a table.
fn shown_of_writes<R: Wait, D: DbWriteOps>(
    rt: &R,
    alloc: Global,
    db: &D,
    receiver: &mut StatusReceiver,
) -> Result<[Shown; 2], Error> {
    write_three(rt, alloc, db)?;
    let written = shown(rt, alloc, receiver)?;
    let flush_type = FlushType::MemTable;
    db.flush_with_options(rt, alloc, FlushOptions { flush_type })?;
    Ok([written, shown(rt, alloc, receiver)?])
}

/// Whether a key has this value.
fn has<R: Wait, D: DbReadOps>(
    rt: &R,
    alloc: Global,
    db: &D,
    key: &[u8],
    value: &[u8],
) -> Result<bool, Error> {
    let found = db.get(rt, alloc, key)?;
    Ok(found.is_some_and(|found| found.as_slice() == value))
}

// With an operator and an extractor, which the database keeps.
#[test]
fn status_is_told_of_segments_flushes_and_the_close(rt: HostRuntime) -> Result<(), Fail> {
    let alloc = rt.alloc();
    let extractor = FixedPrefix::new(alloc, 2)?;
    let db = Db::builder(rt, MemoryStore::new(alloc))
        .with_merge_operator(ConcatOperator)
        .with_segment_extractor(extractor)
        .build(alloc)?;
    let mut receiver = db.subscribe(&rt)?;
    let of_writes = shown_of_writes(&rt, alloc, &db, &mut receiver);
    let is_merged = has(&rt, alloc, &db, b"aab", b"xy");
    let closed = db.close(&rt, alloc).is_ok();
    drop(db);
    let last = shown(&rt, alloc, &mut receiver)?;
    assert!(rt; of_writes? == [(0, 0, 2, None), (3, 3, 0, None)]);
    assert!(rt; (is_merged?, closed) == (true, true));
    assert!(rt; last == (3, 3, 0, Some(CloseReason::Clean)));
    Ok(())
}
