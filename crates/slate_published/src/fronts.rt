// The list of the states that are published, which exists in proofs alone, and tokens that know a beginning of it.
ghost use Rattle.std.specs.Prelude.{◌≡◌, length, MatchBool};
ghost use mathlib.Core.List.{IsPrefix};
ghost use Rattle.slate_published.specs.States.{NeverFall};

use crate::PublishedState;
use logbook::{Gain, Plain, Play, Rule, Seen};
use std::marker::Model;

/// The rule of the list: numbers never fall along it, and who has the right to the next state's cell adds that state.
pub(crate) struct NumbersNeverFall;

impl Rule<PublishedState, u64> for NumbersNeverFall {
    ghost use Rattle.std.specs.Prelude.{[]};
    ghost use base.Fml.{ftrue};
    ghost use Rattle.slate_published.specs.Adding.{IsKeptBook};

    ghost holds = { λ cells list. IsKeptBook cells list };

    ghost first = { [] };

    ghost hinted = { λ n list. Unit {0} };

    ghost shows = { λ list. [] };

    ghost keeps = { λ names list. ftrue };

    ghost moves = { λ ask before after answer. Unit {0} };
}

/// A step trades nothing.
pub(crate) struct Nothing;

impl Gain<PublishedState, u64> for Nothing {
    ghost use base.Fml.{ftrue};

    ghost after = { λ names about answer. ftrue };
}

/// A step that adds a cell. It asks for no state.
pub(crate) struct AddCell;

impl Play<PublishedState, u64> for AddCell {
    ghost use Rattle.slate_published.specs.Adding.{AddsCell};

    ghost then = { AddsCell };
}

impl Plain<(), PublishedState, u64> for AddCell {
    ghost use Rattle.std.specs.Prelude.{None};
    ghost use Rattle.slate_published.specs.States.{nothing_published};

    ghost ask = { λ _. nothing_published };

    ghost state = { λ _. None };
}

/// A step that adds a state.
pub(crate) struct Add;

impl Play<PublishedState, u64> for Add {
    ghost use Rattle.slate_published.specs.Adding.{AddsState};

    ghost then = { AddsState };
}

impl Plain<PublishedState, PublishedState, u64> for Add {
    ghost use Rattle.std.specs.Prelude.{None};

    ghost ask = { λ state. state };

    ghost state = { λ _. None };
}

/// A step that sees the whole list.
pub(crate) struct SeeAll;

impl Play<PublishedState, u64> for SeeAll {
    ghost use Rattle.slate_published.specs.Adding.{SeesAll};

    ghost then = { SeesAll };
}

/// A token of the list, without bytes.
pub(crate) type Token = Seen<PublishedState, u64, NumbersNeverFall>;

/// A beginning of the list that is known: how many states it has, and a token of it without bytes.
#[derive(Drop)]
pub(crate) struct Front {
    count: u64,
    seen: Token,
}

impl Model for Front {
    ghost use Rattle.std.specs.Prelude.{◌≡◌, length};
    ghost use Rattle.slate_published.specs.States.{NeverFall};
    ghost use Rattle.slate_published.specs.Beginnings.{Beginning};

    ghost Value = { Beginning };

    ghost view = { λ f. record { origin = f.seen.book; states = f.seen.log } };

    ghost invariant = { λ f. (f.count ≡ length f.seen.log) × NeverFall f.seen.log };
}

impl Front {
    /// So many states, which a token knows.
    pub(crate) fn of(count: u64, seen: Token) -> Front
        requires count { count ≡ length seen.log }
        requires rising { NeverFall seen.log }
        ensures { result ≡ record { origin = seen.book; states = seen.log } }
    {
        Front { count, seen }
    }

    /// How many states are known.
    pub(crate) fn count(&self) -> u64
        ensures count { result ≡ length self.now.states }
        ensures rising { NeverFall self.now.states }
    {
        self.count
    }

    /// A copy. It takes no memory.
    pub(crate) fn again(&self) -> Front
        ensures { result ≡ self.now }
    {
        Front {
            count: self.count,
            seen: self.seen.again(),
        }
    }

    /// A token of what is known. It takes no memory.
    pub(crate) fn token(&self) -> Token
        ensures { (result.book ≡ self.now.origin) × (result.log ≡ self.now.states) }
    {
        self.seen.again()
    }

    /// A token of what two of one origin know together. It takes no memory.
    pub(crate) fn joined(&self, other: &Front) -> Token
        requires { other.now.origin ≡ self.now.origin }
        ensures book { result.book ≡ self.now.origin }
        ensures begins { IsPrefix self.now.states result.log × IsPrefix other.now.states result.log }
    {
        let mut both = self.seen.again();
        both.learn(&other.seen);
        both
    }

    /// Whether the other one knows more states. Of two of one origin, the one with fewer begins the other.
    pub(crate) fn is_behind(&self, other: &Front) -> bool
        requires { other.now.origin ≡ self.now.origin }
        ensures { MatchBool result (IsPrefix self.now.states other.now.states) (IsPrefix other.now.states self.now.states) }
    {
        let mut both = self.seen.again();
        both.learn(&other.seen);
        self.count < other.count
    }
}
