// A board, whose three words any thread reads without a lock and its lead alone changes, and its seats.
ghost use Rattle.std.specs.Prelude.{◌≡◌, ◌≤◌, ◌≤ℤ◌, ◌<ℤ◌, ◌↔◌, max, true, false, IsTrue, IsFalse, IfOk, IfErr};
ghost use Rattle.std.specs.Int.{int_max};
ghost use Rattle.slate_board.specs.Views.{IsAtMost, first_code, greater_of};

use crate::rules::{Exchange, Follow, Gather, Look, NoWordGoesBack, Raise, SeatView};
use crate::ticks::{tick_in, word_of};
use crate::{BoardView, ClockFault};
use atomic_table::{Seat, Table};
use slate_types::NoMemory;
use std::alloc::Global;
use std::marker::Model;

/// The places of the words.
const TICK: usize = 0;

const DURABLE: usize = 1;

const CLOSE: usize = 2;

/// The close code of a handle that is open.
const OPEN: u64 = 0;

/// Three words that never go back: the tick, the durable number and the close code of a handle. Threads share it by
/// reference. Each call takes a seat of this board, and a constant number of steps; but for `new`, none takes memory or
/// a lock, or waits.
///
/// A contract sees of a board which one it is.
#[derive(Drop)]
pub struct Board {
    table: Table<(), SeatView, BoardView, NoWordGoesBack, Global>,
}

impl Model for Board {
    ghost use Rattle.std.specs.Prelude.{◌≡◌};
    ghost use Rattle.atomic_table.specs.Seated.{TableId, table_id_coded};

    ghost Value = { TableId };

    ghost coded = { table_id_coded };

    ghost view = { λ board. board.table.shared.table_id };

    ghost invariant = { λ board. board.table.shared.table_id.words ≡ 3 };
}

/// What one caller has seen of a board: a token without bytes, which goes to another thread or stays with its owner. At
/// most one seat of a board is the lead, which alone changes the words, so the numbers that it has seen are the words.
#[derive(Drop)]
pub struct BoardSeat {
    seat: Seat<(), SeatView>,
}

impl Model for BoardSeat {
    ghost use Rattle.std.specs.Prelude.{◌≡◌, []};
    ghost use Rattle.slate_board.specs.Seat.{SeatState};

    ghost Value = { SeatState };

    ghost view = { λ seat. record { board = seat.seat.table_id; lead = seat.seat.me.0.lead; seen = seat.seat.me.0.seen } };

    ghost invariant = { λ seat. seat.seat.me.1 ≡ [] };
}

impl Board {
    /// A board whose handle is open, and its lead.
    pub fn new(alloc: Global, tick: i64, durable: u64) -> Result<(Board, BoardSeat), NoMemory>
        ensures { IfOk result (λ made. made.1 ≡ record { board = made.0; lead = true; seen = record { tick = tick; durable = durable; close = 0 } }) }
    {
        let start = BoardView {
            tick,
            durable,
            close: OPEN,
        };
        let (table, seat) = Table::of_words(alloc, &[word_of(tick), durable, OPEN], &start)?;
        Ok((Board { table }, BoardSeat { seat }))
    }

    /// Accepts a moment, in milliseconds, as the last tick, unless the tick is above it: then it is refused and changes
    /// nothing. It is one step, and `seat` is the lead. SlateDB's `MonotonicClock` does this as `enforce_monotonic`.
    pub fn tick(&self, seat: &mut BoardSeat, moment: i64) -> Result<i64, ClockFault>
        requires board { seat.old.board ≡ self.now }
        requires lead { IsTrue seat.old.lead }
        ensures ok { IfOk result (λ tick. (tick ≡ moment) × (seat.old.seen.tick ≤ℤ moment)) }
        ensures err { IfErr result (λ fault. (fault ≡ record { last_tick = seat.old.seen.tick; next_tick = moment }) × (moment <ℤ seat.old.seen.tick)) }
        ensures seat { seat.new ≡ record seat.old { seen = record seat.old.seen { tick = int_max seat.old.seen.tick moment } } }
    {
        let shared = &self.table.shared;
        let last_tick = tick_in(shared.fetch_max::<Raise>(&mut seat.seat, TICK, word_of(moment)));
        if last_tick > moment {
            return Err(ClockFault {
                last_tick,
                next_tick: moment,
            });
        }
        Ok(moment)
    }

    /// Raises the durable number to at least `number`, and answers what it is then. It is one step, and `seat` is the
    /// lead.
    pub fn advance_durable(&self, seat: &mut BoardSeat, number: u64) -> u64
        requires board { seat.old.board ≡ self.now }
        requires lead { IsTrue seat.old.lead }
        ensures number { result ≡ max seat.old.seen.durable number }
        ensures seat { seat.new ≡ record seat.old { seen = record seat.old.seen { durable = result } } }
    {
        let shared = &self.table.shared;
        let before = shared.fetch_max::<Raise>(&mut seat.seat, DURABLE, number);
        before.max(number)
    }

    /// Records how the handle closed, by a code from 1 to 3, and answers whether it was open. The first code stays. It
    /// is one step, and `seat` is the lead.
    pub fn close_once(&self, seat: &mut BoardSeat, code: u64) -> bool
        requires board { seat.old.board ≡ self.now }
        requires lead { IsTrue seat.old.lead }
        requires code { (1 ≤ code) × (code ≤ 3) }
        ensures first { IsTrue result ↔ (seat.old.seen.close ≡ 0) }
        ensures seat { seat.new ≡ record seat.old { seen = record seat.old.seen { close = first_code seat.old.seen.close code } } }
    {
        let shared = &self.table.shared;
        shared.compare_exchange::<Exchange>(&mut seat.seat, CLOSE, OPEN, code) == OPEN
    }

    /// The three numbers, each read by a step of its own. None is behind what the seat had seen; the lead reads just
    /// what it has seen.
    pub fn load(&self, seat: &mut BoardSeat) -> BoardView
        requires { seat.old.board ≡ self.now }
        ensures forward { IsAtMost seat.old.seen result }
        ensures code { result.close ≤ 3 }
        ensures lead { IsTrue seat.old.lead → result ≡ seat.old.seen }
        ensures seat { seat.new ≡ record seat.old { seen = result } }
    {
        let shared = &self.table.shared;
        let tick = tick_in(shared.load::<Look>(&mut seat.seat, TICK));
        let durable = shared.load::<Look>(&mut seat.seat, DURABLE);
        let close = shared.load::<Look>(&mut seat.seat, CLOSE);
        BoardView {
            tick,
            durable,
            close,
        }
    }

    /// A second seat, which has seen as much and isn't the lead.
    pub fn split(&self, seat: &mut BoardSeat) -> BoardSeat
        requires { seat.old.board ≡ self.now }
        ensures same { seat.new ≡ seat.old }
        ensures second { result ≡ record seat.old { lead = false } }
    {
        let second = self.table.shared.split_seat::<Follow>(&mut seat.seat);
        BoardSeat { seat: second }
    }

    /// Ends the other seat, which isn't the lead. What it has seen goes to `seat`, which has seen the greater of each
    /// number then.
    pub fn join(&self, seat: &mut BoardSeat, other: BoardSeat)
        requires board { (seat.old.board ≡ self.now) × (other.board ≡ self.now) }
        requires other { IsFalse other.lead }
        ensures { seat.new ≡ record seat.old { seen = greater_of seat.old.seen other.seen } }
    {
        let BoardSeat { seat: other } = other;
        self.table.shared.join_seat::<Gather>(&mut seat.seat, other);
    }
}
