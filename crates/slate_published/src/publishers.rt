// The publisher of states.
ghost use Rattle.std.specs.Prelude.{◌≡◌, ◌-◌, ◌^◌, ◌<◌, ◌≤◌, ◌++◌, ◌∷◌, [], drop, length, IfOk, OnOk, OnErr, Some};
ghost use Rattle.std.specs.Arc.{arc_value};
ghost use mathlib.Core.List.{IsPrefix};
ghost use Rattle.left_right.specs.Sides.{view as known_at};
ghost use Rattle.slate_published.specs.States.{NeverFall, last_of};
ghost use Rattle.slate_published.specs.Copies.{AreOfOrigin};

use crate::editions::{Edition, Origin, SameOrigin, Show};
use crate::lists::StateList;
use crate::{FollowerNews, FollowerReader, PublishedState};
use left_right::writer::Writer;
use slate_types::NoMemory;
use std::alloc::Global;
use std::marker::Model;
use std::mem;
use std::sync::{Arc, Wait};

/// The two copies of an edition: readers enter the one that is shown, and the other is brought up to date.
pub(crate) type Copies = Writer<Edition, Edition, Option<Origin>, SameOrigin>;

/// The one that publishes states to the readers that were made with it. It isn't `Drop`: `end` ends it.
///
/// A contract sees which call made it and its readers, and the states that it published, in order.
pub struct FollowerPublisher {
    list: StateList,
    /// Some but for a moment within `publish`.
    copies: Option<Copies>,
}

impl Model for FollowerPublisher {
    ghost use Rattle.std.specs.Prelude.{◌≡◌, IfSome, Some, drop};
    ghost use Rattle.left_right.specs.Sides.{view as known_at};
    ghost use Rattle.slate_published.specs.Beginnings.{Beginning};
    ghost use Rattle.slate_published.specs.Copies.{AreOfOrigin};

    ghost Value = { Beginning };

    ghost view = { λ p. p.list };

    ghost invariant = { λ p. IfSome p.copies (λ c. (known_at c.desk.place ≡ Some p.list.origin) × AreOfOrigin p.list.origin c.desk.shown.value (drop c.behind c.log.items)) };
}

impl FollowerPublisher {
    /// The publisher of a list that shows its states in these copies.
    pub(crate) fn of(list: StateList, copies: Copies) -> FollowerPublisher
        requires knows { known_at copies.desk.place ≡ Some list.origin }
        requires one { AreOfOrigin list.origin copies.desk.shown.value (drop copies.behind copies.log.items) }
        ensures { result ≡ list }
    {
        FollowerPublisher {
            list,
            copies: Some(copies),
        }
    }

    /// How many states it published. It takes constant time and no memory.
    pub fn count(&self) -> u64
        ensures count { result ≡ length self.now.states }
        // Numbers never fall along what was published.
        ensures rising { NeverFall self.now.states }
    {
        self.list.front().count()
    }

    /// Publishes a state, whose number isn't below that of the last one, and answers news of it: a reader that learns them
    /// doesn't view an older state from then on. Others view it, too, at their next view.
    ///
    /// It waits until no reader copies the state before the last one out, and takes time for each reader that there may be.
    /// The state is shared, and none of it copied. For want of memory nothing is published.
    pub fn publish<R: Wait>(
        &mut self,
        rt: &R,
        state: Arc<PublishedState, Global>,
    ) -> Result<FollowerNews, NoMemory>
        requires rises { (last_of self.old.states).number ≤ (arc_value state).number }
        requires room { length self.old.states < 2 ^ 64 - 1 }
        ensures ok { OnOk result (self.new ≡ record self.old { states = self.old.states ++ arc_value state ∷ [] }) }
        ensures news { IfOk result (λ news. news ≡ self.new) }
        ensures err { OnErr result (self.new ≡ self.old) }
    {
        let shown = state.clone()?;
        if !self.list.add(&state) {
            return Err(NoMemory);
        }
        let front = self.list.front();
        let news = Edition::of(state, front.again());
        let edition = Edition::of(shown, front.again());
        let copies = match mem::replace(&mut self.copies, None) {
            Some(copies) => Some(show(rt, copies, edition)),
            None => None,
        };
        if let Some(copies) = mem::replace(&mut self.copies, copies) {
            copies.take(rt);
        }
        Ok(FollowerNews::of(news))
    }

    /// Shows that what a reader that was made with it has seen begins what it published. It changes nothing, takes constant
    /// time and no memory, and doesn't wait.
    pub fn has_published(&mut self, reader: &FollowerReader)
        requires { reader.now.origin ≡ self.old.origin }
        ensures same { self.new ≡ self.old }
        ensures begins { IsPrefix reader.now.states self.old.states }
    {
        self.list.covers(reader.front());
    }

    /// Ends it. Its readers keep the last state that they saw or were told of. It waits until no reader copies a state out.
    pub fn end<R: Wait>(self, rt: &R) {
        let FollowerPublisher { list: _, copies } = self;
        if let Some(copies) = copies {
            copies.take(rt);
        }
    }
}

/// Shows readers an edition. Where there is no room for it, or no further copy of its state may be made, they are shown what
/// they were: but for as many copies as there may be, there is room, since it was made at the start and one edition waits at
/// most.
fn show<R: Wait>(rt: &R, mut copies: Copies, edition: Edition) -> Copies
    requires knows { known_at copies.desk.place ≡ Some edition.origin }
    requires one { AreOfOrigin edition.origin copies.desk.shown.value (drop copies.behind copies.log.items) }
    ensures knows { known_at result.desk.place ≡ Some edition.origin }
    ensures one { AreOfOrigin edition.origin result.desk.shown.value (drop result.behind result.log.items) }
{
    let _ = hold(&mut copies, edition);
    copies.publish_as::<Show, R>(rt).0
}

/// Lets an edition wait until copies are shown.
pub(crate) fn hold(copies: &mut Copies, edition: Edition) -> Result<(), NoMemory>
    requires { AreOfOrigin edition.origin copies.old.desk.shown.value (drop copies.old.behind copies.old.log.items) }
    ensures desk { copies.new.desk ≡ copies.old.desk }
    ensures one { AreOfOrigin edition.origin copies.new.desk.shown.value (drop copies.new.behind copies.new.log.items) }
{
    match copies.append(edition) {
        Ok(()) => Ok(()),
        Err(_) => Err(NoMemory),
    }
}
