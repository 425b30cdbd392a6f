// A router: its readers, adding one, and reading one that is as new as asked.
ghost use Rattle.std.specs.Prelude.{◌≡◌, ◌<◌, ◌≤◌, ℕ, true, false, List, [], length, slice_get, None, Some, Option, IfSome, option_map, unwrap_or};
ghost use Rattle.std.specs.List.{list_any};
ghost use Rattle.std.specs.Option.{option_copied, option_or};
ghost use Rattle.slate_types.specs.declared.batches.Batch.{Batch};
ghost use Rattle.slate_types.specs.Operator.{Merge};
ghost use Rattle.slate_reads.specs.Read.{IsOperator};
ghost use Rattle.slate_model.specs.Follower.{Follower, number};
ghost use Rattle.slate_model.specs.Known.{Known, known};
ghost use Rattle.slate_live.specs.State.{Live};
ghost use Rattle.slate_live.specs.World.{World};
ghost use Rattle.slate_route.specs.Reading.{AddsReader, Answers, IsBest, covers, first_covering, is_memory, is_open};
ghost use Rattle.slate_route.specs.Standing.{AddLeads, ReadLeads, RoutesOver, routing};
ghost use Rattle.slate_route.specs.Turns.{CoverLeads, Covers, OpensReader, PollsAt, PollsFor};

use crate::answers::{Added, RouteRefusal, Routed};
use slate_errors::SlateError;
use slate_follow::{DbReaderMode, DbReaderOptions, FollowerState, PollAnswer};
use slate_store::Store;
use slate_types::{FixedPrefix, MergeOperator, NoMemory};
use std::alloc::Global;
use std::marker::Model;

/// A router's readers go by no extractor.
const NO_EXTRACTOR: Option<&FixedPrefix> = None;

/// Readers of a database, without the store that they follow, and reads that are at least as new as asked.
///
/// Each reader keeps a checkpoint of its own and reads log files (`DbReaderMode::ManagedCheckpoint`). Readers are numbered from 0, in
/// the order in which they are added. One that a failed poll closed keeps its number, and is read and polled no more; its checkpoint
/// lapses. A contract sees the readers in that order.
pub struct Router {
    followers: Vec<FollowerState>,
}

impl Drop for Router {
    fn drop(self) {
        let Router { followers: _ } = self;
    }
}

impl Model for Router {
    ghost use Rattle.std.specs.Prelude.{List, ◌≤◌, length};
    ghost use Rattle.slate_model.specs.Follower.{Follower};
    ghost use Rattle.slate_route.specs.Reading.{most_readers};

    ghost Value = { List Follower };

    ghost view = { λ r. r.followers.items };

    ghost invariant = { λ r. length r.followers.items ≤ most_readers };
}

impl Router {
    /// A router without a reader. It takes no memory.
    pub fn new(alloc: Global) -> Router
        ensures { result ≡ [] }
    {
        Router {
            followers: Vec::new(alloc),
        }
    }

    /// How many readers were added. It takes constant time.
    pub fn count(&self) -> u32
        ensures { result ≡ length self.now }
    {
        self.followers.len() as u32
    }

    /// The number of the last batch that a reader sees; None where there is no such reader. It takes constant time.
    pub fn number(&self, follower: u32) -> Option<u64>
        ensures { result ≡ option_map number (slice_get self.now follower) }
    {
        let follower = self.followers.as_slice().get(follower as usize)?;
        Some(follower.number())
    }

    /// Whether there is such a reader and it is open. It takes constant time.
    pub fn is_open(&self, follower: u32) -> bool
        ensures { result ≡ unwrap_or (option_map is_open (slice_get self.now follower)) false }
    {
        match self.followers.as_slice().get(follower as usize) {
            Some(follower) => is_open(follower),
            None => false,
        }
    }

    /// Adds a reader with a checkpoint of its own: `lifetime_ms` is how long that is kept unless a poll renews it, and `interval_ms` how
    /// far apart polls are to be, both in milliseconds; the lifetime is at least 1000, and at least twice the interval. The reader goes
    /// by the store as it is at `moment`, in milliseconds, and its lease begins then.
    ///
    /// # Errors
    ///
    /// In this order come
    ///
    /// error | when
    /// ---|---
    /// `Full` | 4,294,967,295 readers were added
    /// `Open` | `FollowerState::open` refused: with its error
    /// `NoMemory` | want of memory; it may come before `Open`
    ///
    /// # Cost
    ///
    /// As `FollowerState::open` in the mode `ManagedCheckpoint`.
    ///
    /// # What stands after
    ///
    /// After a refusal the router has the readers that it had. The store may have a manifest more, with a checkpoint that lapses; at
    /// `Full` it has not.
    pub fn add<S: Store>(
        &mut self,
        alloc: Global,
        store: &mut S,
        lifetime_ms: u64,
        interval_ms: u64,
        moment: i64,
    ) -> Result<Added, RouteRefusal>
        ensures adds { AddsReader self.old self.new (S.faults store.old) (S.faults store.new) result }
        // Over an honest store the reader is another object of the world to which the router's readers belong.
        ensures leads { (live : Live) (places : List ℕ) (w : World) (merge : Option Merge) → RoutesOver live (known S.objects S.faults store.old) places self.old w →
            AddLeads (routing merge live) moment lifetime_ms interval_ms live places w self.new result (known S.objects S.faults store.new) }
        ensures faults { S.faults store.old ≤ S.faults store.new }
    {
        let follower = self.count();
        if follower == u32::MAX {
            return Err(RouteRefusal::Full);
        }
        self.followers.reserve(1).map_err(NoMemory::from)?;
        match open_reader(alloc, store, lifetime_ms, interval_ms, moment) {
            Ok(reader) => {
                let at = reader.number();
                self.followers.push_reserved(reader);
                Ok(Added { follower, at })
            }
            Err(refusal) => Err(refusal),
        }
    }

    /// Reads a key of a reader that sees at least the batches up to the number `at_least`: of the first open one that does, and then
    /// none is polled. Where none does, the open ones are polled at `moment`, in milliseconds, in their order, each once, up to the
    /// first that does then.
    ///
    /// The row is what the stored batches up to that reader's number say of the key. A writer that knows the number of a batch that it
    /// flushed finds it so, whichever reader answers; with 0 the first open reader answers, as it is.
    ///
    /// # Errors
    ///
    /// In this order come
    ///
    /// error | when
    /// ---|---
    /// `NoFollower` | no reader is open
    /// `Poll` | no reader sees so much after the polls, and a poll was answered this error, the first one
    /// `Behind` | no reader does, and each open one was polled without an error: what is stored ends below `at_least`
    /// `Read` | the read of the reader: `FollowerState::get` says when
    /// `NoMemory` | want of memory, of any of these calls
    ///
    /// # Cost
    ///
    /// That of one `FollowerState::get` where a reader sees so much, and else that of the polls besides, mostly one; and a look at each
    /// reader.
    ///
    /// # What stands after
    ///
    /// Over an honest store no reader's number falls. A reader that was answered an error by its poll, except want of memory, is closed
    /// by that: it is read and polled no more. A read changes no reader that it didn't poll.
    pub fn read_at_least<S: Store, M: MergeOperator>(
        &mut self,
        alloc: Global,
        store: &mut S,
        key: &[u8],
        at_least: u64,
        moment: i64,
        operator: Option<&M>,
    ) -> Result<Routed, RouteRefusal>
        ensures answers { Answers at_least self.old self.new (S.faults store.old) (S.faults store.new) result }
        // Which readers it polls, in which order, and what each poll does.
        ensures polls { (between : Known (List Batch)) × PollsFor at_least moment self.old (known S.objects S.faults store.old) result self.new between }
        // Over an honest store its polls and its read are steps of the world to which the router's readers belong.
        ensures leads { (live : Live) (places : List ℕ) (w : World) (merge : Option Merge) → IsOperator M.may_answer (option_copied operator.entry) merge → RoutesOver live (known S.objects S.faults store.old) places self.old w →
            ReadLeads (routing merge live) moment key.now at_least live places w self.old self.new result (known S.objects S.faults store.new) }
        ensures faults { S.faults store.old ≤ S.faults store.new }
    {
        let Covering { place, polls } = match self.cover(alloc, store, at_least, moment) {
            Ok(covering) => covering,
            Err(refusal) => return Err(refusal),
        };
        let follower = &self.followers[place as usize];
        let number = follower.number();
        match follower.get(alloc, store, key, operator) {
            Ok(row) => Ok(Routed {
                follower: place,
                number,
                polls,
                row,
            }),
            Err(error) => Err(RouteRefusal::of_read(error)),
        }
    }

    /// Finds the first reader that sees the batches up to a number, and polls the open ones for it where none does.
    fn cover<S: Store>(
        &mut self,
        alloc: Global,
        store: &mut S,
        at_least: u64,
        moment: i64,
    ) -> Result<Covering, RouteRefusal>
        ensures covers { Covers at_least self.old self.new (S.faults store.old) (S.faults store.new) result }
        ensures polls { PollsFor at_least moment self.old (known S.objects S.faults store.old) result self.new (known S.objects S.faults store.new) }
        ensures leads { (live : Live) (places : List ℕ) (w : World) (merge : Option Merge) → RoutesOver live (known S.objects S.faults store.old) places self.old w →
            CoverLeads (routing merge live) moment at_least live places w self.old self.new result (known S.objects S.faults store.new) }
        ensures faults { S.faults store.old ≤ S.faults store.new }
    {
        if !has_open(self.followers.as_slice()) {
            return Err(RouteRefusal::NoFollower);
        }
        match first_covering(self.followers.as_slice(), at_least) {
            Some(place) => Ok(Covering {
                place: place as u32,
                polls: 0,
            }),
            None => self.poll_until(alloc, store, at_least, moment),
        }
    }

    /// Polls the open readers in their order, up to the first that sees the batches up to a number then.
    fn poll_until<S: Store>(
        &mut self,
        alloc: Global,
        store: &mut S,
        at_least: u64,
        moment: i64,
    ) -> Result<Covering, RouteRefusal>
        requires none { first_covering at_least self.old ≡ None }
        requires some { list_any is_open self.old ≡ true }
        ensures covers { Covers at_least self.old self.new (S.faults store.old) (S.faults store.new) result }
        ensures polls { PollsFor at_least moment self.old (known S.objects S.faults store.old) result self.new (known S.objects S.faults store.new) }
        ensures leads { (live : Live) (places : List ℕ) (w : World) (merge : Option Merge) → RoutesOver live (known S.objects S.faults store.old) places self.old w →
            CoverLeads (routing merge live) moment at_least live places w self.old self.new result (known S.objects S.faults store.new) }
        ensures faults { S.faults store.old ≤ S.faults store.new }
    {
        let mut polls = 0;
        let mut first = FirstError::none();
        for place in 0..self.count() {
            if !self.is_open(place) {
                continue;
            }
            polls += 1;
            match self.poll_at(alloc, store, place, moment) {
                Ok(_answer) => {
                    if self.covers_at(place, at_least) {
                        return Ok(Covering { place, polls });
                    }
                }
                Err(error) => {
                    if is_memory(&error) {
                        return Err(RouteRefusal::of_poll(error));
                    }
                    first.note(error);
                }
            }
        }
        match first.into_error() {
            Some(error) => Err(RouteRefusal::Poll(error)),
            None => Err(RouteRefusal::Behind {
                at_least,
                best: best(self.followers.as_slice()),
            }),
        }
    }

    /// Polls the reader at a place.
    fn poll_at<S: Store>(
        &mut self,
        alloc: Global,
        store: &mut S,
        place: u32,
        moment: i64,
    ) -> Result<PollAnswer, SlateError>
        requires { (reader : Follower) × (slice_get self.old place ≡ Some reader) × (is_open reader ≡ true) }
        ensures polls { PollsAt place moment self.old (known S.objects S.faults store.old) result self.new (known S.objects S.faults store.new) }
    {
        let follower = &mut self.followers[place as usize];
        follower.poll(alloc, store, NO_EXTRACTOR, moment)
    }

    /// Whether the reader at a place is open and sees the batches up to a number.
    fn covers_at(&self, place: u32, at_least: u64) -> bool
        requires { place < length self.now }
        ensures { IfSome (slice_get self.now place) (λ reader. result ≡ covers at_least reader) }
    {
        covers(&self.followers[place as usize], at_least)
    }
}

/// The reader that a read goes by, and how many were polled for it.
#[derive(Clone, Copy)]
struct Covering {
    place: u32,
    polls: u32,
}

/// The first error of a read's polls, where one failed.
struct FirstError {
    error: Option<SlateError>,
}

impl Drop for FirstError {
    fn drop(self) {
        let FirstError { error: _ } = self;
    }
}

impl FirstError {
    /// No error yet.
    fn none() -> FirstError
        ensures { result.error ≡ None }
    {
        FirstError { error: None }
    }

    /// Keeps an error, where none came before.
    fn note(&mut self, error: SlateError)
        ensures { self.new.error ≡ option_or self.old.error (Some error) }
    {
        if self.error.is_none() {
            self.error = Some(error);
        }
    }

    fn into_error(self) -> Option<SlateError>
        ensures { result ≡ self.error }
    {
        let FirstError { error } = self;
        error
    }
}

/// Whether an error is want of memory.
fn is_memory(error: &SlateError) -> bool
    ensures { result ≡ is_memory error.now }
{
    matches!(error, SlateError::NoMemory)
}

/// Whether a reader is open.
fn is_open(follower: &FollowerState) -> bool
    ensures { result ≡ is_open follower.now }
{
    follower.closed().is_none()
}

/// Whether a reader is open and sees the batches up to a number.
fn covers(follower: &FollowerState, at_least: u64) -> bool
    ensures { result ≡ covers at_least follower.now }
{
    is_open(follower) && at_least <= follower.number()
}

/// Whether a reader is open.
fn has_open(followers: &[FollowerState]) -> bool
    ensures { result ≡ list_any is_open followers.now }
{
    followers.iter().any(is_open)
}

/// The place of the first reader that is open and sees the batches up to a number.
fn first_covering(followers: &[FollowerState], at_least: u64) -> Option<usize>
    ensures { result ≡ first_covering at_least followers.now }
{
    followers
        .iter()
        .position(|follower| covers(follower, at_least))
}

/// The greatest number of an open reader, or 0.
fn best(followers: &[FollowerState]) -> u64
    ensures { IsBest followers.now result }
{
    let mut best = 0;
    for follower in followers {
        if is_open(follower) {
            best = follower.number().max(best);
        }
    }
    best
}

/// Opens a reader with a checkpoint of its own.
fn open_reader<S: Store>(
    alloc: Global,
    store: &mut S,
    lifetime_ms: u64,
    interval_ms: u64,
    moment: i64,
) -> Result<FollowerState, RouteRefusal>
    ensures opens { OpensReader moment lifetime_ms interval_ms (known S.objects S.faults store.old) result (known S.objects S.faults store.new) }
    ensures faults { S.faults store.old ≤ S.faults store.new }
{
    let options = DbReaderOptions {
        manifest_poll_interval_ms: interval_ms,
        checkpoint_lifetime_ms: lifetime_ms,
        ..DbReaderOptions::default()
    };
    let mode = DbReaderMode::ManagedCheckpoint;
    match FollowerState::open(alloc, store, mode, &options, NO_EXTRACTOR, moment) {
        Ok((reader, _answer)) => Ok(reader),
        Err(error) => Err(RouteRefusal::of_opening(error)),
    }
}
