// The rule that each step on a board's words keeps, and what the steps show.
ghost use Rattle.slate_board.specs.Rule.{IsRuledState, lead_with};
ghost use Rattle.slate_board.specs.Steps.{follower_of, union_of, spent_view};
ghost use Rattle.slate_board.specs.Shows.{Looks, Raises, Exchanges};

use crate::BoardView;
use atomic_table::{Join, Play, Split, TableRule};

/// What a seat knows: whether it is the lead, and the numbers that it has seen. No value of it is made.
pub struct SeatView {
    pub lead: bool,
    pub seen: BoardView,
}

/// The rule of the table: at most one lead, whose numbers are the words, and no seat ahead of the words.
pub struct NoWordGoesBack;

impl TableRule<(), SeatView, BoardView> for NoWordGoesBack {
    ghost holds = { λ _. IsRuledState };

    ghost first = { lead_with };
}

/// A load.
pub struct Look;

impl Play<(), SeatView> for Look {
    ghost then = { Looks };
}

/// A raise of a word to at least a number.
pub struct Raise;

impl Play<(), SeatView> for Raise {
    ghost then = { Raises };
}

/// A change of a word where it is as expected.
pub struct Exchange;

impl Play<(), SeatView> for Exchange {
    ghost then = { Exchanges };
}

/// A second seat that follows.
pub struct Follow;

impl Split<SeatView> for Follow {
    ghost left = { λ v. v };

    ghost right = { follower_of };
}

/// Two seats made one.
pub struct Gather;

impl Join<SeatView> for Gather {
    ghost both = { union_of };

    ghost spent = { spent_view };
}
