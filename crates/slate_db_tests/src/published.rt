// A test of what a reader that follows a database publishes: another views it, whatever is polled afterwards.
use slate_errors::SlateError;
use slate_follow::{
    DbReaderMode, DbReaderOptions, FollowerReader, FollowerState, PublishedState, follower_readers,
};
use slate_store::{MemoryStore, TableId};
use slate_types::{ConcatOperator, FixedPrefix, FlushType, WriteBatch};
use slate_writer::{WriterOptions, WriterState};
use std::alloc::Global;
use std::sync::{Arc, Wait};
use std::test::Fail;

const NO_EXTRACTOR: Option<&FixedPrefix> = None;

/// Writes a key and flushes.
fn put(
    alloc: Global,
    store: &mut MemoryStore,
    handle: &mut WriterState,
    key: &[u8],
    flush: FlushType,
) -> Result<(), SlateError> {
    let mut batch = WriteBatch::new(alloc);
    batch.put(alloc, key, b"x")?;
    if let Err(refusal) = handle.write(alloc, batch, 1000, None, NO_EXTRACTOR) {
        return Err(refusal.error);
    }
    handle.flush(alloc, store, flush)?;
    Ok(())
}

/// The state of a reader that sees a in a table and b in a log file; c is written and polled afterwards.
fn state_before_the_last_poll(
    alloc: Global,
    store: &mut MemoryStore,
) -> Result<Arc<PublishedState, Global>, SlateError> {
    let mut handle = WriterState::open(alloc, store, &WriterOptions::default(), NO_EXTRACTOR)?;
    put(alloc, store, &mut handle, b"a", FlushType::MemTable)?;
    put(alloc, store, &mut handle, b"b", FlushType::Wal)?;
    let (mode, options) = (DbReaderMode::FollowLatest, DbReaderOptions::default());
    let (mut follower, _) = FollowerState::open(alloc, store, mode, &options, NO_EXTRACTOR, 1000)?;
    let state = follower.published(alloc);
    put_and_poll(alloc, store, &mut handle, &mut follower)?;
    Ok(state?)
}

/// Writes c, and polls.
fn put_and_poll(
    alloc: Global,
    store: &mut MemoryStore,
    handle: &mut WriterState,
    follower: &mut FollowerState,
) -> Result<(), SlateError> {
    put(alloc, store, handle, b"c", FlushType::Wal)?;
    follower.poll(alloc, store, NO_EXTRACTOR, 2000)?;
    Ok(())
}

/// The number that is viewed, and whether a, b and c have a value.
fn viewed(
    alloc: Global,
    store: &mut MemoryStore,
    reader: &mut FollowerReader,
) -> Result<(u64, [bool; 3]), SlateError> {
    let view = reader.view();
    let mut has = [false; 3];
    for (place, key) in [b"a", b"b", b"c"].iter().enumerate() {
        let row = view.get(alloc, store, *key, None::<&ConcatOperator>)?;
        has[place] = row.is_some();
    }
    Ok((view.number(), has))
}

/// What a reader views of a state that is published.
fn viewed_of<R: Wait>(
    rt: &R,
    alloc: Global,
    store: &mut MemoryStore,
    state: Arc<PublishedState, Global>,
) -> Result<(u64, [bool; 3]), SlateError> {
    let (mut publisher, mut readers) = follower_readers(rt, alloc, 1)?;
    let published = publisher.publish(rt, state);
    let answer = match readers.as_mut_slice().first_mut() {
        Some(reader) => viewed(alloc, store, reader),
        None => Err(SlateError::NoMemory),
    };
    publisher.end(rt);
    published?;
    answer
}

#[test]
fn published_state_stays_as_it_was_polled(rt: HostRuntime) -> Result<(), Fail> {
    let alloc = rt.alloc();
    let mut store = MemoryStore::new(alloc);
    let state = state_before_the_last_poll(alloc, &mut store)?;
    let first = TableId { epoch: 1, index: 0 };
    assert!(rt; state.tables() == [first].as_slice());
    assert!(rt; (state.number(), state.last_l0_seq(), state.memory().len()) == (2, 1, 1));
    assert!(rt; viewed_of(&rt, alloc, &mut store, state)? == (2, [true, true, false]));
    Ok(())
}
