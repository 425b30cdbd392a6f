// A test of a handle's board: what another thread loads of it while the handle flushes and closes.
use crate::threads::await_count;
use slate_errors::SlateError;
use slate_store::MemoryStore;
use slate_types::{CloseOptions, FixedPrefix, FlushType, WriteBatch};
use slate_writer::{BoardView, BoardWatch, WriterOptions, WriterState};
use std::alloc::Global;
use std::sync::Wait;
use std::sync::atomic::{AtomicU64, Ordering};
use std::test::Fail;
use std::thread::join;

const NO_EXTRACTOR: Option<&FixedPrefix> = None;

/// A handle over this store with one write at the moment 1000.
fn written(alloc: Global, store: &mut MemoryStore) -> Result<WriterState, SlateError> {
    let options = WriterOptions::default();
    let mut batch = WriteBatch::new(alloc);
    batch.put(alloc, b"a", b"x")?;
    let mut handle = WriterState::open(alloc, store, &options, NO_EXTRACTOR)?;
    match handle.write(alloc, batch, 1000, None, NO_EXTRACTOR) {
        Ok(_) => Ok(handle),
        Err(refusal) => Err(refusal.error),
    }
}

/// Loads before the flush, after it and after the close, which come in turn.
fn load_in_turn<R: Wait>(rt: &R, mut watch: BoardWatch, turn: &AtomicU64) -> [BoardView; 3] {
    let unflushed = watch.load();
    turn.fetch_add(1, Ordering::SeqCst);
    await_count(rt, turn, 2);
    let flushed = watch.load();
    turn.fetch_add(1, Ordering::SeqCst);
    await_count(rt, turn, 4);
    [unflushed, flushed, watch.load()]
}

/// Flushes and closes, and lets the handle go, each in its turn.
fn end_in_turn<R: Wait>(
    rt: &R,
    alloc: Global,
    mut handle: WriterState,
    store: &mut MemoryStore,
    turn: &AtomicU64,
) {
    await_count(rt, turn, 1);
    let _ = handle.flush(alloc, store, FlushType::Wal);
    turn.fetch_add(1, Ordering::SeqCst);
    await_count(rt, turn, 3);
    let _ = handle.close(alloc, store, &CloseOptions::default());
    drop(handle);
    turn.fetch_add(1, Ordering::SeqCst);
}

fn view(durable: u64, close: u64) -> BoardView {
    BoardView {
        tick: 1000,
        durable,
        close,
    }
}

// The view outlives the handle.
#[test]
fn board_in_another_thread(rt: HostRuntime) -> Result<(), Fail> {
    let alloc = rt.alloc();
    let mut store = MemoryStore::new(alloc);
    let mut handle = written(alloc, &mut store)?;
    let watch = handle.watch()?;
    let turn = AtomicU64::new(0);
    let (waiting, count, stored) = (&rt, &turn, &mut store);
    let (views, ()) = join(
        &rt,
        move || load_in_turn(waiting, watch, count),
        move || end_in_turn(waiting, alloc, handle, stored, count),
    );
    assert!(rt; views == [view(0, 0), view(1, 0), view(1, 1)]);
    Ok(())
}
