// When jobs may be claimed, so that the first one that may be is found without a pass over all.
ghost use Rattle.std.specs.Prelude.{◌≡◌, ◌<◌, ◌+◌, ◌∷◌, ◌++◌, [], length, position, ◌*◌, slice_set, slice_get, IfOk, IfSome, OnOk, OnErr, ◌≤◌};
ghost use Rattle.slate_jobs.specs.Turns.{earlier, has_come, in_pair, pairs, put_at, turn_of};

use crate::jobs::JobState;
use slate_types::NoMemory;
use std::alloc::Global;
use std::marker::Model;

/// From so many turns on they have others above.
const FEW: usize = 64;

/// When a job may be claimed.
#[derive(Clone, Copy)]
pub(crate) enum Turn {
    /// It waits.
    Now,
    /// Once this moment is over.
    After(i64),
    /// It is completed.
    Never,
}

impl Turn {
    /// When a job in a state may be claimed.
    pub(crate) fn of(state: JobState) -> Turn
        ensures { result ≡ turn_of state }
    {
        match state {
            JobState::Waiting => Turn::Now,
            JobState::Claimed { token: _, until } => Turn::After(until),
            JobState::Done => Turn::Never,
        }
    }

    /// Whether it has come at a moment.
    fn has_come(self, moment: i64) -> bool
        ensures { result ≡ has_come moment self }
    {
        match self {
            Turn::Now => true,
            Turn::After(until) => until < moment,
            Turn::Never => false,
        }
    }

    /// The one of two that comes first.
    fn earlier(self, other: Turn) -> Turn
        ensures { result ≡ earlier self other }
    {
        match (self, other) {
            (Turn::Now, _) | (_, Turn::Now) => Turn::Now,
            (Turn::Never, turn) | (turn, Turn::Never) => turn,
            (Turn::After(one), Turn::After(two)) => Turn::After(one.min(two)),
        }
    }
}

/// Turns, each at the place of its job, and, once they are many, above them of each two the earlier, and so on. A contract sees
/// the turns.
#[derive(Drop)]
pub(crate) struct Turns {
    turns: Vec<Turn>,
    above: Option<Box<Turns>>,
}

impl Model for Turns {
    ghost use Rattle.std.specs.Prelude.{List, length};
    ghost use Rattle.slate_jobs.specs.declared.turns.Turn.{Turn as ATurn};

    ghost Value = { List ATurn };

    ghost use Rattle.slate_jobs.specs.Turns.{ArePairs};

    ghost view = { λ t. t.turns.items };

    ghost invariant = { λ t. ArePairs t.turns.items t.above };

    ghost size = { length };

    ghost use Rattle.slate_jobs.specs.TurnsFall.{above_smaller};

    ghost size_decreases = { above_smaller };
}

impl Turns {
    /// No turn.
    pub(crate) fn new(alloc: Global) -> Turns
        ensures { result ≡ [] }
    {
        Turns {
            turns: Vec::new(alloc),
            above: None,
        }
    }

    /// The place of the first turn that has come at a moment. It takes a logarithm of the turns.
    pub(crate) fn first(&self, moment: i64) -> Option<usize>
        ensures place { result ≡ position (has_come moment) self.now }
        ensures within { IfSome result (λ place. place < length self.now) }
    {
        let turns = self.turns.as_slice();
        match &self.above {
            Some(above) => Some(in_pair(turns, moment, above.first(moment)?)),
            None => first_of(turns, moment),
        }
    }

    /// Puts a turn at a place, or after the last one. It takes a logarithm of the turns. After want of memory the turn is put or
    /// not.
    pub(crate) fn put(&mut self, alloc: Global, place: usize, turn: Turn) -> Result<(), NoMemory>
        requires { place ≤ length self.old }
        ensures { OnOk result (self.new ≡ put_at self.old place turn) }
    {
        put_turn(&mut self.turns, place, turn)?;
        let turns = self.turns.as_slice();
        match self.above.take() {
            Some(mut above) => {
                above.put(alloc, place / 2, pair_at(turns, place / 2))?;
                self.above = Some(above);
            }
            None => {
                if turns.len() >= FEW {
                    self.above = Some(Box::new(alloc, Turns::of_pairs(alloc, turns)?)?);
                }
            }
        }
        Ok(())
    }

    /// Of each two turns the earlier.
    fn of_pairs(alloc: Global, turns: &[Turn]) -> Result<Turns, NoMemory>
        ensures { IfOk result (λ above. above ≡ pairs turns.now) }
    {
        let mut above = Vec::new(alloc);
        let count = turns.len() / 2 + turns.len() % 2;
        for place in 0..count {
            above.push(pair_at(turns, place))?;
        }
        Ok(Turns {
            turns: above,
            above: None,
        })
    }
}

/// Puts a turn at a place, or after the last one.
fn put_turn(turns: &mut Vec<Turn>, place: usize, turn: Turn) -> Result<(), NoMemory>
    requires { place ≤ length turns.old.items }
    ensures ok { OnOk result (turns.new.items ≡ put_at turns.old.items place turn) }
    ensures err { OnErr result (turns.new.items ≡ turns.old.items) }
{
    if place < turns.len() {
        turns[place] = turn;
    } else {
        turns.push(turn)?;
    }
    Ok(())
}

/// The place of the first turn that has come at a moment, by a pass over them.
fn first_of(turns: &[Turn], moment: i64) -> Option<usize>
    ensures { result ≡ position (has_come moment) turns.now }
{
    turns.iter().position(|turn| turn.has_come(moment))
}

/// The place of the first turn of a pair that has come at a moment, where the pair has one.
fn in_pair(turns: &[Turn], moment: i64, pair: usize) -> usize
    requires { 2 * pair < length turns.now }
    ensures { Some result ≡ in_pair (has_come moment) pair (slice_get turns.now (2 * pair)) }
{
    let first = 2 * pair;
    if turns[first].has_come(moment) {
        first
    } else {
        first + 1
    }
}

/// The earlier of the two turns of a pair.
fn pair_at(turns: &[Turn], pair: usize) -> Turn
    requires { 2 * pair < length turns.now }
    ensures { slice_get (pairs turns.now) pair ≡ Some result }
{
    let first = 2 * pair;
    if first + 1 < turns.len() {
        turns[first].earlier(turns[first + 1])
    } else {
        turns[first]
    }
}
