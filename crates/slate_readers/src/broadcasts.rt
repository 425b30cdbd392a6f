// What a run publishes of its first reader.
ghost use Rattle.std.specs.Prelude.{◌≡◌, ◌≤◌, ◌++◌, ◌∷◌, [], List, true, Decides, OnOk, OnErr, length};
ghost use Rattle.std.specs.Option.{option_copied, option_map};
ghost use Rattle.slate_types.specs.declared.batches.Batch.{Batch};
ghost use Rattle.slate_published.specs.States.{last_of};
ghost use Rattle.slate_follow.specs.Publishing.{published_state};
ghost use Rattle.slate_model.specs.Follower.{number};
ghost use Rattle.slate_model.specs.Known.{Known};
ghost use Rattle.slate_live.specs.Represents.{Represents};
ghost use Rattle.slate_live.specs.World.{World};
ghost use Rattle.slate_readers.specs.Changes.{IsShown, NoneBelow, ShowsFirst, first_reader, first_state};
ghost use Rattle.slate_readers.specs.Watching.{IsTold};

use crate::states::{Sight, is_seen, sight_of};
use slate_follow::FollowerState;
use slate_live::LiveState;
use slate_published::{FollowerNews, FollowerPublisher, PublishedState};
use slate_types::NoMemory;
use std::alloc::Global;
use std::marker::Model;
use std::sync::{Arc, Wait};

/// A publisher, and what is known of the first reader of a run. It isn't `Drop`, as the publisher isn't.
pub(crate) struct Broadcast {
    publisher: FollowerPublisher,
    /// News of the last state that was published.
    news: Option<FollowerNews>,
    /// That state.
    last: Option<Arc<PublishedState, Global>>,
    /// No object below this number is a reader.
    place: u64,
    /// What the reader saw when a publication last found no memory.
    lacked: Option<Sight>,
}

impl Model for Broadcast {
    ghost use Rattle.std.specs.Prelude.{◌≡◌, is_none};
    ghost use Rattle.slate_readers.specs.Aired.{Aired};
    ghost use Rattle.std.specs.Prelude.{option_map};
    ghost use Rattle.std.specs.Arc.{arc_value};
    ghost use Rattle.slate_readers.specs.Changes.{IsLast};
    ghost use Rattle.slate_readers.specs.Watching.{IsTold};

    ghost Value = { Aired };

    ghost view = { λ b. record { list = b.publisher; place = b.place; whole = is_none b.lacked } };

    ghost invariant = { λ b. IsTold b.publisher b.news × IsLast b.publisher.states (option_map (λ s. arc_value s) b.last) };
}

impl Broadcast {
    /// What a run publishes by a publisher that has published nothing.
    pub(crate) fn new(publisher: FollowerPublisher) -> Broadcast
        requires { publisher.states ≡ [] }
        ensures { result ≡ record { list = publisher; place = 0; whole = true } }
    {
        Broadcast {
            publisher,
            news: None,
            last: None,
            place: 0,
            lacked: None,
        }
    }

    /// Whether no publication found too little memory.
    pub(crate) fn is_whole(&self) -> bool
        ensures { result ≡ self.now.whole }
    {
        self.lacked.is_none()
    }

    /// The publisher, and news of the last state that was published, where there is one.
    pub(crate) fn into_parts(self) -> (FollowerPublisher, Option<FollowerNews>)
        ensures publisher { result.0 ≡ self.list }
        ensures news { IsTold self.list result.1 }
    {
        let Broadcast {
            publisher,
            news,
            last: _,
            place: _,
            lacked: _,
        } = self;
        (publisher, news)
    }

    /// Publishes what the first reader sees, where that isn't what was published last. What found no memory isn't published
    /// while the reader stays as it was then. A lower number than the last one comes only over a store that isn't honest, and
    /// isn't published. It takes constant time where the reader sees what it saw, but for the ids of its tables.
    pub(crate) fn show<R: Wait>(&mut self, rt: &R, alloc: Global, live: &LiveState)
        ensures origin { self.new.list.origin ≡ self.old.list.origin }
        ensures place { NoneBelow self.old.place live.now.objects → NoneBelow self.new.place live.now.objects }
        ensures whole { self.new.whole ≡ true → self.old.whole ≡ true }
        ensures shows { (store : Known (List Batch)) (w : World) → Represents live.now store w → NoneBelow self.old.place live.now.objects → self.new.whole ≡ true → ShowsFirst (first_state w) self.old.list.states self.new.list.states }
    {
        let Some(reader) = first_reader(live, &mut self.place) else {
            return;
        };
        if self.is_shown(reader) {
            return;
        }
        if reader.number() < self.last_number() {
            return;
        }
        self.try_to_publish(rt, alloc, reader);
    }

    /// Publishes what a reader sees, unless that found no memory when it was last tried.
    fn try_to_publish<R: Wait>(&mut self, rt: &R, alloc: Global, reader: &FollowerState)
        requires { (last_of self.old.list.states).number ≤ number reader.now }
        ensures origin { self.new.list.origin ≡ self.old.list.origin }
        ensures place { self.new.place ≡ self.old.place }
        ensures whole { self.new.whole ≡ true → self.old.whole ≡ true }
        ensures published { self.new.whole ≡ true → self.new.list.states ≡ self.old.list.states ++ published_state reader.now ∷ [] }
    {
        let sight = sight_of(reader);
        if self.lacked == Some(sight) {
            return;
        }
        if self.publish(rt, alloc, reader).is_err() {
            self.lacked = Some(sight);
        }
    }

    /// Whether a reader sees what was published last.
    fn is_shown(&self, reader: &FollowerState) -> bool
        ensures { Decides result (IsShown (published_state reader.now) self.now.list.states) }
    {
        match &self.last {
            Some(state) => is_seen(reader, state),
            None => false,
        }
    }

    /// The number of the state that was published last; 0 before any.
    pub(crate) fn last_number(&self) -> u64
        ensures { result ≡ (last_of self.now.list.states).number }
    {
        match &self.last {
            Some(state) => state.number(),
            None => 0,
        }
    }

    /// Publishes what a reader sees.
    fn publish<R: Wait>(
        &mut self,
        rt: &R,
        alloc: Global,
        reader: &FollowerState,
    ) -> Result<(), NoMemory>
        requires { (last_of self.old.list.states).number ≤ number reader.now }
        ensures ok { OnOk result (self.new ≡ record self.old { list = record self.old.list { states = self.old.list.states ++ published_state reader.now ∷ [] } }) }
        ensures err { OnErr result (self.new ≡ self.old) }
    {
        if self.publisher.count() == u64::MAX {
            return Err(NoMemory);
        }
        let state = reader.published(alloc)?;
        let last = state.clone()?;
        let news = self.publisher.publish(rt, state)?;
        self.news = Some(news);
        self.last = Some(last);
        Ok(())
    }
}

/// The first reader of a live state, which has none below a number. The number is raised to that of the reader, or, where there is
/// none, of the next object. It takes constant time for each number by which it is raised.
fn first_reader<'l>(live: &'l LiveState, place: &mut u64) -> Option<&'l FollowerState>
    ensures place { NoneBelow place.old live.now.objects → NoneBelow place.new live.now.objects }
    ensures sees { (store : Known (List Batch)) (w : World) → Represents live.now store w → NoneBelow place.old live.now.objects → option_map published_state (option_copied result) ≡ first_state w }
{
    while *place < live.object_count() {
        if let Some(reader) = live.reader(*place) {
            return Some(reader);
        }
        *place += 1;
    }
    None
}
