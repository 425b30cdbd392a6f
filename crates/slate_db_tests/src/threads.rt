// Tests of receivers and handles that wait in another thread.
use crate::handles::{awaited, two_writes};
use crate::steps::Step::{Close, Durable, Stored};
use crate::steps::{Step, manager, report};
use slate_errors::CloseFault;
use slate_receivers::{StatusManager, StatusReceiver, WriteHandle};
use slate_types::NoMemory;
use std::alloc::Global;
use std::sync::Wait;
use std::sync::atomic::{AtomicU64, Ordering};
use std::test::Fail;
use std::thread;
use std::thread::join;

/// Waits until another thread has counted so many.
pub(crate) fn await_count<R: Wait>(rt: &R, count: &AtomicU64, wanted: u64) {
    for _ in rt.forever() {
        if count.load(Ordering::SeqCst) >= wanted {
            return;
        }
        thread::yield_now();
    }
}

/// Makes reports in turn, each once another thread has counted so many.
fn report_in_turn<R: Wait>(
    rt: &R,
    alloc: Global,
    manager: &StatusManager,
    count: &AtomicU64,
    turns: &[(u64, Step)],
) -> Result<(), NoMemory> {
    for (wanted, step) in turns {
        await_count(rt, count, *wanted);
        report(manager, rt, alloc, step)?;
    }
    Ok(())
}

/// Waits until the durable number is at least 5, and answers it. It counts the statuses that it was shown.
fn wait_for_five<R: Wait>(
    rt: &R,
    alloc: Global,
    mut receiver: StatusReceiver,
    shown: &AtomicU64,
) -> Result<u64, NoMemory> {
    let status = receiver.wait_for(rt, alloc, |status| {
        shown.fetch_add(1, Ordering::SeqCst);
        status.durable_seq >= 5
    })?;
    Ok(status.durable_seq)
}

const NEWS: [(u64, Step); 6] = [
    (1, Durable(0)),
    (1, Stored(1, b"")),
    (1, Stored(2, b"")),
    (2, Stored(1, b"a")),
    (2, Stored(2, b"")),
    (2, Durable(6)),
];

// The thread waits, since it was shown a status of which its test is false. Reports without a change show it nothing,
// one with a change shows it one status, and one of which its test is true ends its wait.
#[test]
fn receiver_in_another_thread(rt: HostRuntime) -> Result<(), Fail> {
    let alloc = rt.alloc();
    let manager = manager(alloc, 0, 1)?;
    let receiver = manager.subscribe(&rt)?;
    let count = AtomicU64::new(0);
    let (waiting, shared, shown) = (&rt, &manager, &count);
    let answers = join(
        &rt,
        move || wait_for_five(waiting, alloc, receiver, shown),
        move || report_in_turn(waiting, alloc, shared, shown, NEWS.as_slice()),
    );
    assert!(rt; answers == (Ok(6), Ok(())));
    assert!(rt; count.load(Ordering::SeqCst) == 3);
    Ok(())
}

/// Counts itself, and answers how its wait ended.
fn await_write<R: Wait>(rt: &R, handle: WriteHandle, begun: &AtomicU64) -> char {
    begun.fetch_add(1, Ordering::SeqCst);
    awaited(rt, handle)
}

const FENCED: [(u64, Step); 2] = [(1, Durable(1)), (2, Close(Err(CloseFault::Fenced)))];

// Of two writes the one is stored while it is waited for, and then the database is closed while the other one is.
#[test]
fn handles_in_another_thread(rt: HostRuntime) -> Result<(), Fail> {
    let alloc = rt.alloc();
    let (manager, stored, lost) = two_writes(alloc)?;
    let count = AtomicU64::new(0);
    let (waiting, shared, begun) = (&rt, &manager, &count);
    let (letters, reported) = join(
        &rt,
        move || (
            await_write(waiting, stored, begun),
            await_write(waiting, lost, begun),
        ),
        move || report_in_turn(waiting, alloc, shared, begun, FENCED.as_slice()),
    );
    assert!(rt; letters == ('1', 'F') && reported.is_ok());
    Ok(())
}
