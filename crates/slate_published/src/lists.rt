// The list of the states that are published, as its publisher holds it.
ghost use Rattle.std.specs.Prelude.{◌≡◌, ◌+◌, ◌-◌, ◌^◌, ◌<◌, ◌≤◌, ◌++◌, ◌∷◌, [], length, IfSome, MatchBool};
ghost use mathlib.Core.List.{IsPrefix};
ghost use Rattle.logbook.specs.Pages.{nib, may_write};
ghost use Rattle.slate_published.specs.States.{NeverFall, last_of};
ghost use Rattle.slate_published.specs.Adding.{head_of, right_after};

use crate::PublishedState;
use crate::fronts::{Add, AddCell, Front, Nothing, NumbersNeverFall, SeeAll, Token};
use logbook::{Offer, Pen, Seen, Start, Word};
use std::marker::Model;

/// The word that counts the list's cells that aren't at home.
type Head = Word<PublishedState, u64, NumbersNeverFall>;

/// A step's update, which does nothing beside the step.
type Plain = Offer<PublishedState, u64, NumbersNeverFall, Nothing>;

/// The list, to which its owner alone adds: it has the right to the next state's cell. So what it knows is the whole list.
#[derive(Drop)]
pub(crate) struct StateList {
    head: Head,
    front: Front,
    right: Pen,
}

impl Model for StateList {
    ghost use Rattle.std.specs.Prelude.{◌≡◌, length};
    ghost use Rattle.slate_published.specs.Beginnings.{Beginning};
    ghost use Rattle.slate_published.specs.Adding.{head_of, right_after};

    ghost Value = { Beginning };

    ghost view = { λ l. l.front };

    ghost invariant = { λ l. (l.head ≡ head_of l.front.origin) × (l.right.book ≡ l.front.origin) × (l.right.nib ≡ right_after (length l.front.states)) };
}

impl StateList {
    /// A new list, without a state. It takes no memory. None doesn't come: nobody else has the head.
    pub(crate) fn open() -> Option<StateList>
        ensures { IfSome result (λ list. list.states ≡ []) }
    {
        let (mut seen, mut first, _second) = Seen::open(Start::alone(), 0, 0);
        let head = Word::tracked(0, &mut first);
        let right = add_cell(&head, &mut seen, 0)?;
        let front = Front::of(0, seen);
        Some(StateList { head, front, right })
    }

    /// What is known of it, which is all of it.
    pub(crate) fn front(&self) -> &Front
        ensures { result.now ≡ self.now }
    {
        &self.front
    }

    /// Adds a state. It takes no memory. False, after which nothing is added, doesn't come: nobody else has the head.
    pub(crate) fn add(&mut self, state: &PublishedState) -> bool
        requires room { length self.old.states < 2 ^ 64 - 1 }
        requires rises { (last_of self.old.states).number ≤ state.now.number }
        ensures { MatchBool result (self.new ≡ record self.old { states = self.old.states ++ state.now ∷ [] }) (self.new ≡ self.old) }
    {
        let mut seen = self.front.token();
        let Some(next) = add_cell(&self.head, &mut seen, 1) else {
            return false;
        };
        if !add_state(&self.head, &self.front, &mut seen, &mut self.right, state) {
            return false;
        }
        self.front = Front::of(self.front.count() + 1, seen);
        self.right = next;
        true
    }

    /// Whatever is known of the list begins it. It changes nothing.
    pub(crate) fn covers(&mut self, front: &Front)
        requires { front.now.origin ≡ self.old.origin }
        ensures same { self.new ≡ self.old }
        ensures begins { IsPrefix front.now.states self.old.states }
    {
        let mut seen = self.front.joined(front);
        see_all(&self.head, &self.front, &mut seen, &mut self.right);
    }
}

/// Adds a cell where there are as many that aren't at home, none or one, and answers the right to it.
fn add_cell(head: &Head, seen: &mut Token, cells: u64) -> Option<Pen>
    requires head { head.now ≡ head_of seen.old.book }
    requires low { cells ≤ 1 }
    ensures seen { (seen.new.book ≡ seen.old.book) × IsPrefix seen.old.log seen.new.log }
    ensures right { IfSome result (λ right. (right.book ≡ seen.old.book) × (right.nib ≡ nib may_write ((length seen.new.log + cells) + 2) 0)) }
    ensures first { IfSome result (λ right. cells ≡ 0 → seen.new.log ≡ []) }
{
    let mut offer: Plain = seen.plain::<Nothing, (), AddCell>(&());
    let mut right = seen.no_pen();
    let found = head.compare_exchange::<AddCell, Nothing>(
        cells,
        cells + 1,
        seen,
        &mut offer,
        &mut right,
    );
    if found != cells {
        return None;
    }
    let _word: Head = Word::tracked(0, &mut right);
    Some(right)
}

/// Adds a state by the right to it, where a further cell is there, and says whether it did.
fn add_state(
    head: &Head,
    front: &Front,
    seen: &mut Token,
    right: &mut Pen,
    state: &PublishedState,
) -> bool
    requires head { head.now ≡ head_of front.now.origin }
    requires seen { (seen.old.book ≡ front.now.origin) × IsPrefix front.now.states seen.old.log }
    requires right { (right.old.book ≡ front.now.origin) × (right.old.nib ≡ right_after (length front.now.states)) }
    requires rises { (last_of front.now.states).number ≤ state.now.number }
    ensures books { (seen.new.book ≡ seen.old.book) × (right.new.book ≡ right.old.book) }
    ensures added { MatchBool result ((length seen.old.log ≡ length front.now.states) × (seen.new.log ≡ front.now.states ++ state.now ∷ []) × NeverFall seen.new.log) (right.new.nib ≡ right.old.nib) }
{
    let mut offer: Plain = seen.plain::<Nothing, PublishedState, Add>(state);
    head.compare_exchange::<Add, Nothing>(2, 1, seen, &mut offer, right) == 2
}

/// Sees all of the list by the right to add to it.
fn see_all(head: &Head, front: &Front, seen: &mut Token, right: &mut Pen)
    requires head { head.now ≡ head_of front.now.origin }
    requires seen { seen.old.book ≡ front.now.origin }
    requires right { (right.old.book ≡ front.now.origin) × (right.old.nib ≡ right_after (length front.now.states)) }
    ensures seen { IsPrefix seen.old.log seen.new.log }
    ensures all { length seen.new.log ≤ length front.now.states }
    ensures right { (right.new.book ≡ right.old.book) × (right.new.nib ≡ right.old.nib) }
{
    let mut offer: Plain = seen.plain::<Nothing, (), AddCell>(&());
    head.compare_exchange::<SeeAll, Nothing>(0, 0, seen, &mut offer, right);
}
