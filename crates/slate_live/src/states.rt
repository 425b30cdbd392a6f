// The live objects of a run and its writes, and what one command does to them.
ghost use Rattle.std.specs.Prelude.{◌≡◌, ◌≤◌, ◌+◌, ℕ, [], true, None, List, Option, length, slice_get, IfSome, Some, is_some};
ghost use Rattle.slate_types.specs.declared.batches.Batch.{Batch as AnyBatch};
ghost use Rattle.std.specs.Option.{option_copied, option_map};
ghost use Rattle.slate_follow.specs.Publishing.{published_state};
ghost use Rattle.slate_reads.specs.Read.{IsOperator};
ghost use Rattle.slate_model.specs.Known.{Known, known};
ghost use Rattle.slate_model.specs.Open.{replayed_logs};
ghost use Rattle.slate_model.specs.Stores.{by_objects};
ghost use Rattle.slate_live.specs.Shut.{IsShutAt};
ghost use Rattle.slate_live.specs.Calls.{ArePolls, HaveSamePolls, Whole, asks_operator, call_of, follow_calls, kind_of, most_asked, most_calls, named, read_by, target_of};
ghost use Rattle.slate_live.specs.declared.targets.Target.TheVariants.{OfObject};
ghost use Rattle.slate_live.specs.Commands.{ActsOn, Does, interval_of, lag_of, lifetime_of, OpensFollowerIn, OpensHandleIn, OpensSnapshot, ReadsSnapshot, write_reply};
ghost use Rattle.slate_live.specs.Sampling.{Pushes};
ghost use Rattle.slate_live.specs.Replies.{followed_reply};
ghost use Rattle.slate_live.specs.Publishing.{reader_of, seen_at};
ghost use Rattle.slate_live.specs.Represents.{Links, Represents};
ghost use Rattle.slate_live.specs.State.{running};
ghost use Rattle.slate_model.specs.Follower.{Follower, is_managed};
ghost use Rattle.slate_model.specs.Object.{Follower as AFollower};
ghost use Rattle.slate_model.specs.Segments.{Extractor, IsExtractor};
ghost use Rattle.slate_script.specs.declared.replies.Reply.TheVariants as replies;
ghost use Rattle.slate_live.specs.Lawful.{AreLawful, asks_among, asks_of};
ghost use Rattle.slate_live.specs.Settings.{Settings, option_tasks};
ghost use Rattle.slate_live.specs.Stepping.{BeginsPoll, IsDone, StepsPoll};
ghost use Rattle.slate_live.specs.Valid.{Link};
ghost use Rattle.slate_live.specs.World.{World};
ghost use Rattle.slate_writer.specs.Tasks.{tasks_of};

use crate::extensions::Extensions;
use crate::handles::refusal;
use crate::maintenance::{checkpoint, sweep};
use crate::objects::Object;
use crate::readers::Reader;
use crate::targets::{Target, target_of};
use slate_follow::{DbReaderMode, DbReaderOptions, FollowerState, PollAnswer};
use slate_model::HandleSnapshot;
use slate_script::{Action, Command, Options, Reply};
use slate_store::Store;
use slate_types::{MergeOperator, PrefixExtractor};
use slate_writer::{WriterOptions, WriterState};
use std::alloc::Global;
use std::marker::Model;

/// An accepted write: the number of its handle, and that of its batch.
#[derive(Clone, Copy, Debug, PartialEq, Eq)]
pub struct Write {
    pub handle: u64,
    pub number: u64,
}

/// The live objects of a run, by their numbers, and the writes that they accepted.
pub struct LiveState {
    options: Options,
    objects: Vec<Object>,
    writes: Vec<Write>,
}

impl Drop for LiveState {
    fn drop(self) {
        let LiveState {
            options: _,
            objects: _,
            writes: _,
        } = self;
    }
}

impl Model for LiveState {
    ghost use Rattle.std.specs.Prelude.{map};
    ghost use Rattle.slate_live.specs.State.{Live};

    ghost Value = { Live };

    ghost use Rattle.slate_live.specs.Objects.{object_of, poll_of};

    ghost view = { λ s. record { options = s.options; objects = map object_of s.objects.items; polls = map poll_of s.objects.items; writes = s.writes.items } };
}

impl LiveState {
    /// A state without an object and without a write. It takes no memory.
    pub fn new(alloc: Global, options: &Options) -> LiveState
        ensures { result ≡ record { options = options.now; objects = []; polls = []; writes = [] } }
    {
        LiveState {
            options: *options,
            objects: Vec::new(alloc),
            writes: Vec::new(alloc),
        }
    }

    /// Does one command on the store. It takes the time of the call that the command makes, beside a look at the place
    /// of its object, and calls the store as often as that call does; a command that makes none doesn't call it.
    ///
    /// Over any store the command does what is said of it: the object that it names answers and changes by its own
    /// call, and all others are as before. Over an honest store the reply is one that the command may have, and the
    /// state and the store represent afterwards the world that the command then leads to. A valid command that meets no
    /// fault of the store is refused nothing. That is said of a state whose commands were all done with one lawful
    /// extractor, or without one.
    pub fn apply<S: Store, M: MergeOperator, E: PrefixExtractor>(
        &mut self,
        alloc: Global,
        store: &mut S,
        operator: Option<&M>,
        extractor: Option<&E>,
        command: &Command,
    ) -> Reply
        ensures options { self.new.options ≡ self.old.options }
        ensures faults { S.faults store.old ≤ S.faults store.new }
        ensures calls { IfSome (S.objects store.old) (λ o. S.calls store.new ≤ S.calls store.old + most_calls o self.old.objects command.now) }
        // On a closed handle or reader, and on a snapshot of a closed handle, a command leaves the store as it is, and so calls it not once.
        ensures untouched { IsShutAt (read_by self.old.objects (named self.old.objects (target_of command.now.action))) → store.new ≡ store.old }
        ensures does { (settings : Settings) → AreLawful M.may_answer (option_copied operator.entry) E.may_name E.may_extract (option_copied extractor.entry) settings (asks_among self.old.objects command.now.action) → settings.options ≡ self.old.options →
            IsDone settings self.old (known S.objects S.faults store.old) command.now result self.new (known S.objects S.faults store.new) }
        ensures link { (settings : Settings) → AreLawful M.may_answer (option_copied operator.entry) E.may_name E.may_extract (option_copied extractor.entry) settings (asks_among self.old.objects command.now.action) → settings.options ≡ self.old.options →
            Links settings.extractor (λ w reply w'. Link settings w command.now reply w')
            self.old (known S.objects S.faults store.old) result self.new (known S.objects S.faults store.new) }
    {
        match &command.action {
            Action::Begin { follower } => self.begin(alloc, *follower, command.moment),
            Action::Step { follower } => self.step(alloc, store, *follower, extractor),
            _ => {
                let extensions = Extensions {
                    operator,
                    extractor,
                };
                self.make_call(alloc, store, &extensions, command)
            }
        }
    }

    /// How many objects it has. The next one gets this number.
    pub fn object_count(&self) -> u64
        ensures { result ≡ length self.now.objects }
    {
        self.objects.len() as u64
    }

    /// The reader with a number; None where there is no object with it, or one of another kind. It takes constant time.
    ///
    /// Over an honest store it sees what is said of it in the world that state and store represent: what may be published of it
    /// has the number, the manifest's id, its tables and the last number in them that the reader has there, and the batches of
    /// the stored line above that up to its number.
    pub fn reader(&self, number: u64) -> Option<&FollowerState>
        ensures reader { option_copied result ≡ reader_of (slice_get self.now.objects number) }
        ensures sees { (store : Known (List AnyBatch)) (w : World) → Represents self.now store w → option_map published_state (option_copied result) ≡ seen_at w number }
    {
        let place = number as usize;
        if place >= self.objects.len() {
            return None;
        }
        self.objects[place].reader()
    }

    /// Does a command that makes a call whole.
    fn make_call<S: Store, M: MergeOperator, E: PrefixExtractor>(
        &mut self,
        alloc: Global,
        store: &mut S,
        extensions: &Extensions<'_, M, E>,
        command: &Command,
    ) -> Reply
        requires whole { kind_of command.now.action ≡ Whole }
        ensures options { self.new.options ≡ self.old.options }
        ensures faults { S.faults store.old ≤ S.faults store.new }
        ensures calls { IfSome (S.objects store.old) (λ o. S.calls store.new ≤ S.calls store.old + most_calls o self.old.objects command.now) }
        ensures untouched { IsShutAt (read_by self.old.objects (named self.old.objects (target_of command.now.action))) → store.new ≡ store.old }
        ensures polls { ArePolls command.now.action self.old.polls self.new.polls }
        ensures does { (settings : Settings) → AreLawful M.may_answer (option_copied extensions.now.operator) E.may_name E.may_extract (option_copied extensions.now.extractor) settings (asks_among self.old.objects command.now.action) → settings.options ≡ self.old.options →
            (made : ℕ) × Does (by_objects (S.objects store.old)) settings made
            (running self.old (known S.objects S.faults store.old)) command.now result (running self.new (known S.objects S.faults store.new)) }
    {
        match target_of(&command.action) {
            Target::NewHandle { keeps_log } => self.open(
                alloc,
                store,
                keeps_log,
                extensions.extractor,
            ),
            Target::NewSnapshot { handle } => self.snapshot(handle),
            Target::NewFollower {
                mode,
                managed,
                skips,
                lag,
            } => {
                let options = reader_options(managed, skips, lag);
                self.follow(
                    alloc,
                    store,
                    mode,
                    &options,
                    command.moment,
                    extensions.extractor,
                )
            }
            Target::NewCheckpoint { lifetime } => {
                checkpoint(alloc, store, lifetime, command.moment)
            }
            Target::WholeStore => sweep(alloc, store, command.moment),
            Target::OfWrite { write } => self.write_reply(write),
            Target::OfObject { object } => { self.act(alloc, store, object, extensions, command) }
        }
    }

    /// Begins a poll of the reader with a number, at a moment.
    fn begin(&mut self, alloc: Global, number: u64, moment: i64) -> Reply
        ensures options { self.new.options ≡ self.old.options }
        ensures begins { BeginsPoll number moment self.old result self.new }
        ensures keeps { (reader : Follower) → slice_get self.old.objects number ≡ Some (AFollower reader) → result ≡ replies.Begun → (reader.line.floor ≡ reader.view.manifest.last_l0_seq) × (is_some reader.lease ≡ is_managed reader.mode) }
    {
        let place = number as usize;
        if place >= self.objects.len() {
            return Reply::Unknown;
        }
        self.objects[place].begin(alloc, moment)
    }

    /// Makes the next call of the begun poll of the reader with a number.
    fn step<S: Store, E: PrefixExtractor>(
        &mut self,
        alloc: Global,
        store: &mut S,
        number: u64,
        extractor: Option<&E>,
    ) -> Reply
        ensures options { self.new.options ≡ self.old.options }
        ensures faults { S.faults store.old ≤ S.faults store.new }
        ensures calls { S.calls store.new ≤ S.calls store.old + 1 }
        ensures untouched { IsShutAt (read_by self.old.objects (slice_get self.old.objects number)) → store.new ≡ store.old }
        ensures steps { (x : Option Extractor) → IsExtractor E.may_name E.may_extract (option_copied extractor.entry) x →
            StepsPoll x number self.old (known S.objects S.faults store.old) result self.new (known S.objects S.faults store.new) }
    {
        let place = number as usize;
        if place >= self.objects.len() {
            return Reply::Unknown;
        }
        self.objects[place].step(alloc, store, extractor)
    }

    /// Opens a handle, which keeps a log or not.
    fn open<S: Store, E: PrefixExtractor>(
        &mut self,
        alloc: Global,
        store: &mut S,
        wal: bool,
        extractor: Option<&E>,
    ) -> Reply
        ensures options { self.new.options ≡ self.old.options }
        ensures faults { S.faults store.old ≤ S.faults store.new }
        ensures calls { IfSome (S.objects store.old) (λ o. S.calls store.new ≤ S.calls store.old + (replayed_logs o + 5)) }
        ensures polls { HaveSamePolls self.old.polls self.new.polls }
        ensures does { (settings : Settings) → IsExtractor E.may_name E.may_extract (option_copied extractor.entry) settings.extractor → settings.options ≡ self.old.options →
            (made : ℕ) × OpensHandleIn (by_objects (S.objects store.old)) settings wal made
            (running self.old (known S.objects S.faults store.old)) result (running self.new (known S.objects S.faults store.new)) }
    {
        if self.objects.reserve(1).is_err() {
            return Reply::NoMemory;
        }
        let object = self.objects.len() as u64;
        match WriterState::open(alloc, store, &self.writer_options(wal), extractor) {
            Ok(handle) => {
                self.objects.push_reserved(Object::Handle(handle));
                Reply::Handle { object }
            }
            Err(error) => refusal(error),
        }
    }

    /// How a handle of the run writes, which keeps a log or not.
    fn writer_options(&self, wal: bool) -> WriterOptions
        ensures log { result.wal_enabled ≡ wal }
        ensures limit { result.max_unflushed_bytes ≡ self.now.options.max_unflushed_bytes }
        ensures tasks { tasks_of result ≡ option_tasks self.now.options }
    {
        WriterOptions {
            wal_enabled: wal,
            max_unflushed_bytes: self.options.max_unflushed_bytes,
            compactor: self.options.compactor,
            compaction_worker: self.options.compaction_worker,
            collector: self.options.collector,
        }
    }

    /// Takes a snapshot of the handle with a number.
    fn snapshot(&mut self, handle: u64) -> Reply
        ensures options { self.new.options ≡ self.old.options }
        ensures polls { HaveSamePolls self.old.polls self.new.polls }
        ensures does { (store : Known (List AnyBatch)) → OpensSnapshot handle 0 (slice_get self.old.objects handle) (running self.old store) result (running self.new store) }
    {
        let place = handle as usize;
        if place >= self.objects.len() {
            return Reply::Unknown;
        }
        let Some(taken) = self.objects[place].snapshot_number() else {
            return Reply::Unknown;
        };
        match taken {
            Ok(number) => self.add_snapshot(HandleSnapshot { handle, number }),
            Err(error) => refusal(error),
        }
    }

    /// Adds a snapshot to the objects.
    fn add_snapshot(&mut self, snapshot: HandleSnapshot) -> Reply
        ensures options { self.new.options ≡ self.old.options }
        ensures writes { self.new.writes ≡ self.old.writes }
        ensures polls { HaveSamePolls self.old.polls self.new.polls }
        ensures added { Pushes self.old.objects snapshot result self.new.objects }
    {
        if self.objects.reserve(1).is_err() {
            return Reply::NoMemory;
        }
        let object = self.objects.len() as u64;
        self.objects.push_reserved(Object::Snapshot(snapshot));
        Reply::Snapshot {
            object,
            at: snapshot.number,
        }
    }

    /// Opens a reader in a mode, with these options.
    fn follow<S: Store, E: PrefixExtractor>(
        &mut self,
        alloc: Global,
        store: &mut S,
        mode: DbReaderMode,
        options: &DbReaderOptions,
        moment: i64,
        extractor: Option<&E>,
    ) -> Reply
        ensures options { self.new.options ≡ self.old.options }
        ensures faults { S.faults store.old ≤ S.faults store.new }
        ensures calls { IfSome (S.objects store.old) (λ o. S.calls store.new ≤ S.calls store.old + follow_calls mode options.now.skip_wal_replay o) }
        ensures polls { HaveSamePolls self.old.polls self.new.polls }
        ensures does { (settings : Settings) (managed : Option (ℕ × ℕ)) → IsExtractor E.may_name E.may_extract (option_copied extractor.entry) settings.extractor → options.now.checkpoint_lifetime_ms ≡ lifetime_of managed → options.now.manifest_poll_interval_ms ≡ interval_of managed →
            (made : ℕ) × OpensFollowerIn (by_objects (S.objects store.old)) settings mode managed options.now.skip_wal_replay options.now.max_lag moment made
            (running self.old (known S.objects S.faults store.old)) result (running self.new (known S.objects S.faults store.new)) }
    {
        let object = self.objects.len() as u64;
        match FollowerState::open(alloc, store, mode, options, extractor, moment) {
            Ok((follower, answer)) => {
                if self.objects.reserve(1).is_err() {
                    return Reply::NoMemory;
                }
                self.objects
                    .push_reserved(Object::Follower(Reader::new(follower)));
                followed_reply(object, answer)
            }
            Err(error) => refusal(error),
        }
    }

    /// Does a command that names the object with this number.
    fn act<S: Store, M: MergeOperator, E: PrefixExtractor>(
        &mut self,
        alloc: Global,
        store: &mut S,
        number: u64,
        extensions: &Extensions<'_, M, E>,
        command: &Command,
    ) -> Reply
        ensures options { self.new.options ≡ self.old.options }
        ensures faults { S.faults store.old ≤ S.faults store.new }
        ensures calls { IfSome (S.objects store.old) (λ o.
            S.calls store.new ≤ S.calls store.old + most_asked o (read_by self.old.objects (slice_get self.old.objects number)) (call_of command.now.action)) }
        ensures untouched { IsShutAt (read_by self.old.objects (slice_get self.old.objects number)) → store.new ≡ store.old }
        ensures polls { target_of command.now.action ≡ OfObject number → ArePolls command.now.action self.old.polls self.new.polls }
        ensures does { (settings : Settings) → AreLawful M.may_answer (option_copied extensions.now.operator) E.may_name E.may_extract (option_copied extensions.now.extractor) settings (asks_of (read_by self.old.objects (slice_get self.old.objects number)) command.now.action) →
            (made : ℕ) × ActsOn (by_objects (S.objects store.old)) settings number command.now (call_of command.now.action) made (slice_get self.old.objects number)
            (running self.old (known S.objects S.faults store.old)) result (running self.new (known S.objects S.faults store.new)) }
    {
        let place = number as usize;
        if place >= self.objects.len() {
            return Reply::Unknown;
        }
        if let Some(snapshot) = self.objects[place].snapshot() {
            return self.act_at(alloc, store, snapshot, extensions.operator, command);
        }
        let object = &mut self.objects[place];
        object.act(alloc, store, &mut self.writes, number, extensions, command)
    }

    /// Does a command that names a snapshot: its handle is read, up to the snapshot's number.
    fn act_at<S: Store, M: MergeOperator>(
        &self,
        alloc: Global,
        store: &mut S,
        snapshot: HandleSnapshot,
        operator: Option<&M>,
        command: &Command,
    ) -> Reply
        ensures faults { S.faults store.old ≤ S.faults store.new }
        ensures calls { IfSome (S.objects store.old) (λ o.
            S.calls store.new ≤ S.calls store.old + most_asked o (slice_get self.now.objects snapshot.handle) (call_of command.now.action)) }
        ensures untouched { IsShutAt (slice_get self.now.objects snapshot.handle) → store.new ≡ store.old }
        ensures does { (settings : Settings) → (asks_operator (slice_get self.now.objects snapshot.handle) command.now.action ≡ true → IsOperator M.may_answer (option_copied operator.entry) settings.merge) →
            ReadsSnapshot (by_objects (S.objects store.old)) settings snapshot command.now (call_of command.now.action) 0 (slice_get self.now.objects snapshot.handle)
            (running self.now (known S.objects S.faults store.old)) result (running self.now (known S.objects S.faults store.new)) }
    {
        let place = snapshot.handle as usize;
        if place >= self.objects.len() {
            return Reply::Unknown;
        }
        self.objects[place].act_at(alloc, store, snapshot.number, operator, command)
    }

    /// Whether the write with a number is durable.
    fn write_reply(&self, write: u64) -> Reply
        ensures { result ≡ write_reply self.now.objects (slice_get self.now.writes write) }
    {
        let place = write as usize;
        if place >= self.writes.len() {
            return Reply::Unknown;
        }
        let write = self.writes[place];
        let place = write.handle as usize;
        if place >= self.objects.len() {
            return Reply::Unknown;
        }
        self.objects[place].asked_reply(write.number)
    }
}

/// The options of a reader: the lifetime of its checkpoint and the interval of its polls, where they are given, whether it skips log
/// files, and by how many numbers it may lag, where that is given.
fn reader_options(managed: Option<(u64, u64)>, skip: bool, lag: Option<u64>) -> DbReaderOptions
    ensures lifetime { result.checkpoint_lifetime_ms ≡ lifetime_of managed }
    ensures interval { result.manifest_poll_interval_ms ≡ interval_of managed }
    ensures skips { result.skip_wal_replay ≡ skip }
    ensures lag { result.max_lag ≡ lag_of lag }
{
    let options = DbReaderOptions::default();
    let given = (
        options.checkpoint_lifetime_ms,
        options.manifest_poll_interval_ms,
    );
    let (lifetime, interval) = managed.unwrap_or(given);
    DbReaderOptions {
        checkpoint_lifetime_ms: lifetime,
        manifest_poll_interval_ms: interval,
        skip_wal_replay: skip,
        max_lag: lag.unwrap_or(options.max_lag),
        ..options
    }
}

/// The reply to an opening of a reader that was answered.
fn followed_reply(object: u64, answer: PollAnswer) -> Reply
    ensures { result ≡ followed_reply object answer }
{
    match answer {
        PollAnswer::Whole { at } => Reply::Follower {
            object,
            whole: true,
            at,
        },
        PollAnswer::Truncated { at } => Reply::Follower {
            object,
            whole: false,
            at,
        },
    }
}
