// Tests of a board: its numbers one by one, and loads beside a lead that changes them.
ghost use Rattle.std.specs.Prelude.{◌≡◌, IsTrue};

use crate::{Board, BoardSeat, BoardView, ClockFault};
use std::sync::Barrier;
use std::test::Fail;
use std::thread::join;

#[test]
fn ticks_at_and_above_the_last_one(rt: HostRuntime) -> Result<(), Fail> {
    let (board, mut lead) = Board::new(rt.alloc(), 0, 0)?;
    let fault = ClockFault {
        last_tick: 10,
        next_tick: 5,
    };
    assert_eq!(rt; board.tick(&mut lead, 10), Ok(10));
    assert_eq!(rt; board.tick(&mut lead, 5), Err(fault));
    assert_eq!(rt; board.tick(&mut lead, 10), Ok(10));
    let words = fault.to_string(rt.alloc())?;
    let expected = "invalid clock tick, must be monotonic. last_tick=`10`, next_tick=`5`";
    assert_eq!(rt; words.as_str(), expected);
    Ok(())
}

#[test]
fn ticks_at_both_ends(rt: HostRuntime) -> Result<(), Fail> {
    let (board, mut lead) = Board::new(rt.alloc(), i64::MIN, 0)?;
    assert_eq!(rt; board.load(&mut lead).tick, i64::MIN);
    assert_eq!(rt; board.tick(&mut lead, i64::MIN), Ok(i64::MIN));
    assert_eq!(rt; board.tick(&mut lead, -1), Ok(-1));
    assert_eq!(rt; board.tick(&mut lead, 0), Ok(0));
    assert_eq!(rt; board.tick(&mut lead, i64::MAX), Ok(i64::MAX));
    assert_eq!(rt; board.load(&mut lead).tick, i64::MAX);
    assert!(rt; board.tick(&mut lead, i64::MIN).is_err());
    Ok(())
}

#[test]
fn durable_number_rises(rt: HostRuntime) -> Result<(), Fail> {
    let (board, mut lead) = Board::new(rt.alloc(), -7, 3)?;
    let start = BoardView {
        tick: -7,
        durable: 3,
        close: 0,
    };
    assert_eq!(rt; board.load(&mut lead), start);
    assert_eq!(rt; board.advance_durable(&mut lead, 8), 8);
    assert_eq!(rt; board.advance_durable(&mut lead, 5), 8);
    assert_eq!(rt; board.advance_durable(&mut lead, u64::MAX), u64::MAX);
    Ok(())
}

#[test]
fn closes_once(rt: HostRuntime) -> Result<(), Fail> {
    let (board, mut lead) = Board::new(rt.alloc(), 0, 0)?;
    assert!(rt; board.close_once(&mut lead, 2));
    assert!(rt; !board.close_once(&mut lead, 1));
    assert_eq!(rt; board.load(&mut lead).close, 2);
    Ok(())
}

#[test]
fn second_seat_loads_the_same(rt: HostRuntime) -> Result<(), Fail> {
    let (board, mut lead) = Board::new(rt.alloc(), 1, 2)?;
    let mut second = board.split(&mut lead);
    let start = BoardView {
        tick: 1,
        durable: 2,
        close: 0,
    };
    assert_eq!(rt; board.load(&mut second), start);
    board.advance_durable(&mut lead, 7);
    assert_eq!(rt; board.load(&mut second).durable, 7);
    board.join(&mut lead, second);
    assert_eq!(rt; board.load(&mut lead).durable, 7);
    Ok(())
}

/// How often each thread steps.
const TURNS: u64 = 2000;

/// Raises both numbers and closes.
fn advance(board: &Board, mut lead: BoardSeat)
    requires board { lead.board ≡ board.now }
    requires lead { IsTrue lead.lead }
{
    for number in 1..TURNS {
        let _ = board.tick(&mut lead, number as i64);
        board.advance_durable(&mut lead, number);
    }
    board.close_once(&mut lead, 1);
}

/// Whether nothing went back from one load to the next.
fn is_forward(before: BoardView, after: BoardView) -> bool {
    let same_close = before.close == 0 || before.close == after.close;
    before.tick <= after.tick && before.durable <= after.durable && same_close
}

/// Loads again and again, and answers whether nothing went back.
fn only_rises(board: &Board, mut seat: BoardSeat) -> bool
    requires { seat.board ≡ board.now }
{
    let mut before = board.load(&mut seat);
    for _ in 0..TURNS {
        let after = board.load(&mut seat);
        if !is_forward(before, after) {
            return false;
        }
        before = after;
    }
    true
}

// Each of the two threads passes the gate only when the other has begun.
#[test]
fn nothing_goes_back_beside_the_lead(rt: HostRuntime) -> Result<(), Fail> {
    let (board, mut lead) = Board::new(rt.alloc(), 0, 0)?;
    let second = board.split(&mut lead);
    let shared = &board;
    let both = Barrier::new(2);
    let gate = &both;
    let waiting = &rt;
    let (_, rises) = join(
        &rt,
        move ||
            requires { (lead.board ≡ shared.now) × IsTrue lead.lead }
        {
            let _ = gate.wait(waiting);
            advance(shared, lead)
        },
        move ||
            requires { second.board ≡ shared.now }
        {
            let _ = gate.wait(waiting);
            only_rises(shared, second)
        },
    );
    assert!(rt; rises);
    Ok(())
}
