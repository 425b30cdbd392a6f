// Tests of the handles of writes, in one thread.
ghost use Rattle.std.specs.Prelude.{◌≡◌};

use crate::steps::manager;
use slate_errors::{CloseFault, Error, SlateError};
use slate_receivers::{DurabilityWaiter, StatusManager, WriteHandle};
use slate_status::DurableAnswer;
use slate_types::NoMemory;
use std::alloc::Global;
use std::snapshot::Snapshot;
use std::sync::Wait;
use std::test::Fail;

/// A waiter that fails at its third poll.
#[derive(Drop)]
struct FailsAtThird {
    polls: u32,
    answered: Snapshot<DurableAnswer>,
}

impl DurabilityWaiter for FailsAtThird {
    ghost use Rattle.std.specs.Prelude.{Some};

    ghost last_answer = { λ w. Some w.answered.value };

    fn poll(&mut self, _seq: u64) -> DurableAnswer {
        self.polls = self.polls.saturating_add(1);
        let answer = if self.polls < 3 {
            DurableAnswer::Pending
        } else {
            DurableAnswer::Failed(SlateError::Fenced)
        };
        self.answered = Snapshot::of(&answer);
        answer
    }
}

/// How a wait ended: a 1 where the write is durable, an F where the handle was fenced.
fn letter(outcome: Result<(), Error>) -> char {
    match outcome {
        Ok(()) => '1',
        Err(error) if is_fenced(&error) => 'F',
        Err(_) => '?',
    }
}

fn is_fenced(error: &Error) -> bool {
    matches!(error.cause(), Some(SlateError::Fenced))
}

/// A 1 where the write is durable, a P while that is pending, an F where the handle was fenced.
fn letter_of(answer: &DurableAnswer) -> char {
    match answer {
        DurableAnswer::Durable => '1',
        DurableAnswer::Pending => 'P',
        DurableAnswer::Failed(SlateError::Fenced) => 'F',
        DurableAnswer::Failed(_) => '?',
    }
}

/// What a handle answers at once.
fn polled<R: Wait>(rt: &R, handle: &mut WriteHandle) -> char {
    letter_of(&handle.poll_durable(rt))
}

/// How the wait of a handle ends.
pub(crate) fn awaited<R: Wait>(rt: &R, mut handle: WriteHandle) -> char {
    letter(handle.await_durable(rt))
}

#[test]
fn waiter_of_the_callers_own(rt: HostRuntime) -> Result<(), Fail> {
    let waiter = FailsAtThird {
        polls: 0,
        answered: Snapshot::of(&DurableAnswer::Pending),
    };
    let mut handle = WriteHandle::new(7, -70, Box::new(rt.alloc(), waiter)?);
    let numbers = (handle.seqnum(), handle.create_ts());
    let letters = (polled(&rt, &mut handle), awaited(&rt, handle));
    assert!(rt; (numbers, letters) == ((7, -70), ('P', 'F')));
    Ok(())
}

/// A manager, and the handles of the writes 1 and 2.
pub(crate) fn two_writes(
    alloc: Global,
) -> Result<(StatusManager, WriteHandle, WriteHandle), NoMemory> {
    let manager = manager(alloc, 0, 1)?;
    let first = WriteHandle::of_manager(1, 10, manager.share()?);
    let second = WriteHandle::of_manager(2, 20, manager.share()?);
    Ok((manager, first, second))
}

#[test]
fn number_that_is_reached_stays_durable(rt: HostRuntime) -> Result<(), Fail> {
    let (manager, mut reached, mut missed) = two_writes(rt.alloc())?;
    let before = polled(&rt, &mut reached);
    manager.report_durable_seq(&rt, 1);
    manager.report_closed(&rt, Err(CloseFault::Fenced));
    let first = (polled(&rt, &mut reached), awaited(&rt, reached));
    let second = (polled(&rt, &mut missed), awaited(&rt, missed));
    assert!(rt; (before, first, second) == ('P', ('1', '1'), ('F', 'F')));
    Ok(())
}

#[test]
fn handle_is_shown_by_its_numbers(rt: HostRuntime) -> Result<(), Fail> {
    let handle = WriteHandle::of_manager(2, 20, manager(rt.alloc(), 0, 1)?);
    let shown = format!(in rt.alloc(); "{handle:?}");
    drop(handle);
    assert!(rt; shown?.as_str() == "WriteHandle { seq: 2, create_ts: 20, .. }");
    Ok(())
}
