// Tests of a publisher and its readers: what is viewed by turns, beside each other and at the end, and what is read.
ghost use Rattle.std.specs.Prelude.{◌≡◌, ◌≤◌, [], IfOk, length};
ghost use Rattle.slate_published.specs.States.{last_of};
ghost use Rattle.std.specs.Arc.{arc_value};
ghost use Rattle.slate_published.specs.Published.{Published};

use crate::{FollowerPublisher, FollowerReader, PublishedState, follower_readers};
use bytes::Bytes;
use slate_errors::SlateError;
use slate_reads::Table;
use slate_store::{MemoryStore, Store, TableId};
use slate_types::{Batch, ByteRange, ConcatOperator, IterationOrder, KeyOp, NoMemory, Op, Seq};
use std::alloc::Global;
use std::sync::{Arc, Barrier, Wait};
use std::test::Fail;
use std::thread::{Threads, join};

/// A state with this number, and nothing else.
fn state(alloc: Global, number: u64) -> Result<Arc<PublishedState, Global>, NoMemory>
    ensures { IfOk result (λ state. (arc_value state).number ≡ number) }
{
    let state = PublishedState::of(number, 0, Seq::of(Vec::new(alloc)), 0, Vec::new(alloc));
    Ok(Arc::new(alloc, state)?)
}

/// The numbers that two readers view: before anything is published, once they have learned of 3, and then of 5 untold; and
/// how many states the second one has seen.
fn views_by_turns<R: Wait>(
    rt: &R,
    alloc: Global,
    publisher: &mut FollowerPublisher,
    first: &mut FollowerReader,
    second: &mut FollowerReader,
) -> Result<[u64; 6], NoMemory>
    requires new { publisher.old.states ≡ [] }
    requires one { (first.old.origin ≡ publisher.old.origin) × (second.old.origin ≡ publisher.old.origin) }
{
    let before = first.view().number();
    let news = publisher.publish(rt, state(alloc, 3)?)?;
    let again = news.again()?;
    first.learn(news);
    second.learn(again);
    let (one, two) = (first.view().number(), second.view().number());
    publisher.publish(rt, state(alloc, 5)?)?;
    let (three, four) = (first.view().number(), second.view().number());
    Ok([before, one, two, three, four, second.count()])
}

/// The same of two new readers.
fn views_of_two<R: Wait>(rt: &R, alloc: Global) -> Result<[u64; 6], NoMemory> {
    let (mut publisher, mut readers) = follower_readers(rt, alloc, 2)?;
    let seen = match (readers.pop(), readers.pop()) {
        (Some(mut first), Some(mut second)) => {
            views_by_turns(rt, alloc, &mut publisher, &mut first, &mut second)
        }
        _ => Err(NoMemory),
    };
    publisher.end(rt);
    seen
}

#[test]
fn readers_view_what_they_learn_and_what_is_shown(rt: HostRuntime) -> Result<(), Fail> {
    let seen = views_of_two(&rt, rt.alloc())?;
    assert!(rt; seen == [0, 3, 3, 5, 5, 2]);
    Ok(())
}

/// The number that is published last beside readers.
const LAST: u64 = 500;

/// Publishes the numbers up to the last one, once all have passed the gate.
fn publish_all<R: Wait>(
    rt: &R,
    alloc: Global,
    gate: &Barrier,
    publisher: &mut FollowerPublisher,
) -> Result<(), NoMemory>
    requires { publisher.old.states ≡ [] }
{
    let _ = gate.wait(rt);
    for number in 1..LAST + 1 {
        publisher.publish(rt, state(alloc, number)?)?;
    }
    Ok(())
}

/// Views again and again, the first time before it passes the gate, until it views the last number: how often the number
/// fell, and the last one. It ends after a thousand million views.
fn follow<R: Wait>(rt: &R, gate: &Barrier, mut reader: FollowerReader) -> (u64, u64) {
    let mut last = reader.view().number();
    let mut falls: u64 = 0;
    let _ = gate.wait(rt);
    for _ in 0..1_000_000_000 {
        let number = reader.view().number();
        if number < last {
            falls = falls.saturating_add(1);
        }
        last = number;
        if last == LAST {
            break;
        }
    }
    (falls, last)
}

/// Publishes all beside two readers that follow: whether all was published, and what each reader answers. The gate holds each of
/// the three threads until the others have begun, and both readers until each has viewed once.
fn meet<R: Threads + Wait + Sync>(
    rt: &R,
    alloc: Global,
    publisher: &mut FollowerPublisher,
    first: FollowerReader,
    second: FollowerReader,
) -> (bool, (u64, u64), (u64, u64))
    requires { publisher.old.states ≡ [] }
{
    let all = Barrier::new(3);
    let gate = &all;
    let (published, (one, two)) = join(
        rt,
        move ||
            requires { publisher.now.states ≡ [] }
        { publish_all(rt, alloc, gate, publisher) },
        move || {
            join(
                rt,
                move || follow(rt, gate, first),
                move || follow(rt, gate, second),
            )
        },
    );
    (published.is_ok(), one, two)
}

/// The same of two new readers.
fn meeting<R: Threads + Wait + Sync>(
    rt: &R,
    alloc: Global,
) -> Result<(bool, (u64, u64), (u64, u64)), NoMemory> {
    let (mut publisher, mut readers) = follower_readers(rt, alloc, 2)?;
    let met = match (readers.pop(), readers.pop()) {
        (Some(first), Some(second)) => Ok(meet(rt, alloc, &mut publisher, first, second)),
        _ => Err(NoMemory),
    };
    publisher.end(rt);
    met
}

#[test]
fn readers_meet_beside_the_publisher(rt: HostRuntime) -> Result<(), Fail> {
    let met = meeting(&rt, rt.alloc())?;
    assert!(rt; met == (true, (0, LAST), (0, LAST)));
    Ok(())
}

/// What a reader views before its publisher ends, and afterwards.
fn views_around_the_end<R: Wait>(
    rt: &R,
    alloc: Global,
    state: Arc<PublishedState, Global>,
) -> Result<[u64; 2], NoMemory> {
    let (mut publisher, mut readers) = follower_readers(rt, alloc, 1)?;
    let published = publisher.publish(rt, state);
    let mut numbers = [0, 0];
    let Some(mut reader) = readers.pop() else {
        publisher.end(rt);
        return Err(NoMemory);
    };
    numbers[0] = reader.view().number();
    publisher.end(rt);
    numbers[1] = reader.view().number();
    published?;
    Ok(numbers)
}

#[test]
fn reader_keeps_what_it_saw_when_its_publisher_has_ended(rt: HostRuntime) -> Result<(), Fail> {
    let alloc = rt.alloc();
    let numbers = views_around_the_end(&rt, alloc, state(alloc, 7)?)?;
    assert!(rt; numbers == [7, 7]);
    Ok(())
}

/// A batch that puts one key.
fn batch(alloc: Global, number: u64, key: &[u8], value: &[u8]) -> Result<Batch, NoMemory> {
    let key = Bytes::copy_from_slice(alloc, key)?;
    let value = Bytes::copy_from_slice(alloc, value)?;
    let mut ops = Vec::new(alloc);
    ops.push(KeyOp {
        key,
        op: Op::Put(value, None),
    })?;
    Ok(Batch {
        number,
        create_ts: 0,
        ops: Seq::of(ops),
    })
}

/// A table of one batch that puts one key.
fn table(alloc: Global, number: u64, key: &[u8], value: &[u8]) -> Result<Table, NoMemory> {
    Table::of_batches(alloc, &[batch(alloc, number, key, value)?])
}

/// A stored table has a = 1 with number 1; memory has b = 2 with number 2, and a = 3 with number 3, which is above the state's.
fn mixed_state(
    alloc: Global,
    store: &mut MemoryStore,
) -> Result<Arc<PublishedState, Global>, SlateError>
    ensures { IfOk result (λ state. (arc_value state).number ≡ 2) }
{
    let id = TableId { epoch: 1, index: 0 };
    store.put_table(alloc, id, &table(alloc, 1, b"a", b"1")?)?;
    let mut tables = Vec::new(alloc);
    tables.push(id).map_err(NoMemory::from)?;
    let mut memory = Vec::new(alloc);
    for (number, key, value) in [(2, b"b", b"2"), (3, b"a", b"3")] {
        memory
            .push(table(alloc, number, key, value)?)
            .map_err(NoMemory::from)?;
    }
    let state = PublishedState::of(2, 9, Seq::of(tables), 1, memory);
    Ok(Arc::new(alloc, state).map_err(NoMemory::from)?)
}

/// What a view says of the keys a, b and c, and how many rows it has.
fn found(
    alloc: Global,
    store: &mut MemoryStore,
    reader: &mut FollowerReader,
) -> Result<([Option<u8>; 3], usize), SlateError> {
    let view = reader.view();
    let mut values = [None, None, None];
    for (place, key) in [b"a", b"b", b"c"].iter().enumerate() {
        let row = view.get(alloc, store, *key, None::<&ConcatOperator>)?;
        values[place] = match row {
            Some(row) => row.value.as_slice().first().copied(),
            None => None,
        };
    }
    let order = IterationOrder::Ascending;
    let rows = view.scan(
        alloc,
        store,
        &ByteRange::full(),
        order,
        None::<&ConcatOperator>,
    )?;
    Ok((values, rows.into_rows(alloc)?.as_slice().len()))
}

#[test]
fn view_reads_its_tables_and_memory_up_to_its_number(rt: HostRuntime) -> Result<(), Fail> {
    let alloc = rt.alloc();
    let mut store = MemoryStore::new(alloc);
    let state = mixed_state(alloc, &mut store)?;
    let (mut publisher, mut readers) = follower_readers(&rt, alloc, 1)?;
    let published = publisher.publish(&rt, state);
    let answer = match readers.as_mut_slice().first_mut() {
        Some(reader) => found(alloc, &mut store, reader),
        None => Err(SlateError::NoMemory),
    };
    publisher.end(&rt);
    assert!(rt; published.is_ok());
    assert!(rt; answer? == ([Some(b'1'), Some(b'2'), None], 2));
    Ok(())
}
