// The numbers that are loaded from a board, and the fault of a clock that went back.
use thiserror::Error;

/// The three numbers of a board.
#[derive(Clone, Copy, Debug, PartialEq, Eq)]
pub struct BoardView {
    /// The last tick, a moment in milliseconds.
    pub tick: i64,
    /// The number of the last batch that is durable.
    pub durable: u64,
    /// How the handle closed: 0 while it is open, then 1 for clean, 2 for fenced, 3 for failed.
    pub close: u64,
}

/// A clock went back: a moment is below the last tick. These are the two moments of SlateDB's `InvalidClockTick`.
#[derive(Clone, Copy, Debug, PartialEq, Eq, Error)]
#[error("invalid clock tick, must be monotonic. last_tick=`{last_tick}`, next_tick=`{next_tick}`")]
pub struct ClockFault {
    /// The last tick, in milliseconds.
    pub last_tick: i64,
    /// The moment that was refused, in milliseconds.
    pub next_tick: i64,
}
