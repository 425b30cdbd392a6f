// A poll of a reader that makes its calls of the store one by one, so that others may act between two of them.
ghost use Rattle.std.specs.Prelude.{◌≡◌, ◌≢◌, ◌+◌, ◌<◌, ◌≤◌, ◌^◌, ℕ, List, true, false, Option, None, Some, Ok, Err, is_some, length, IfOk, IfErr, IfSome, IsSome, IsTrue, ◌↔◌};
ghost use Rattle.std.specs.Option.{option_copied};
ghost use Rattle.slate_errors.specs.Errors.{closed_error};
ghost use Rattle.slate_types.specs.Counts.{one_more};
ghost use Rattle.slate_types.specs.Line.{AreNumberedFrom, Line};
ghost use Rattle.slate_store.specs.Calls.{WhereModelled};
ghost use Rattle.slate_store.specs.Objects.{Objects};
ghost use Rattle.slate_model.specs.Begun.{Begun, Ended, Goes, begun_at, no_step};
ghost use Rattle.slate_model.specs.Follower.{HasSegments, is_managed, is_pinned, number};
ghost use Rattle.slate_model.specs.Known.{CountsFaults, IsContent};
ghost use Rattle.slate_model.specs.Segments.{Extractor, IsExtractor};
ghost use Rattle.slate_follow.specs.Answering.{IsOfPoll};
ghost use Rattle.slate_follow.specs.Following.{FollowsLine, FollowsOn};
ghost use Rattle.slate_follow.specs.Lasting.{IsFew, Lasts, LastsOn, TriesEight};
ghost use Rattle.slate_follow.specs.Stepping.{FitsReader, IsGoing, StepLacks, Steps, failed_by};

use crate::polls::poll_error;
use crate::{FollowerState, PollAnswer};
use slate_errors::SlateError;
use slate_model::{Lease, PollHistory};
use slate_reads::IndexedTable;
use slate_replay::Replayed;
use slate_store::{Store, VersionedManifest};
use slate_types::PrefixExtractor;
use std::alloc::Global;
use std::marker::Model;

/// A manifest that a poll is to put, and the lease of its checkpoint: that is another one in place of the reader's, or the
/// reader's with another end.
pub(crate) struct Commit {
    pub(crate) next: VersionedManifest,
    pub(crate) lease: Lease,
    pub(crate) replaces: bool,
}

impl Drop for Commit {
    fn drop(self) {
        let Commit {
            next: _,
            lease: _,
            replaces: _,
        } = self;
    }
}

impl Commit {
    /// Its manifest and its lease, and whether its checkpoint is another one.
    pub(crate) fn into_parts(self) -> (VersionedManifest, Lease, bool)
        ensures { result ≡ (self.next, self.lease, self.replaces) }
    {
        let Commit {
            next,
            lease,
            replaces,
        } = self;
        (next, lease, replaces)
    }
}

/// The call that a poll makes next.
#[derive(Clone, Copy, Debug, PartialEq, Eq)]
pub(crate) enum Stage {
    ReadLatest,
    Put,
    AskLast,
    LookAt { id: u64, last: u64 },
    ReadLog { last: u64 },
    ReadAgain,
    Ended,
}

/// What the call of a step leads to.
#[derive(Clone, Copy, Debug, PartialEq, Eq)]
pub(crate) enum Turn {
    /// There is another call to make.
    Goes,
    /// All log files are read.
    Ends,
    /// A log file or a batch is missing.
    Breaks,
}

/// A poll of a reader by single calls of the store: each step makes one, and others may use the store between two of them,
/// whatever they do there. The reader stays as it is until the step that answers.
pub struct PollMachine {
    pub(crate) moment: i64,
    /// How many of its puts found another manifest under their id.
    pub(crate) overtaken: u32,
    /// What it keeps of all its steps.
    pub(crate) history: PollHistory,
    pub(crate) stage: Stage,
    /// What it puts next, where it does.
    pub(crate) commit: Option<Commit>,
    /// The manifest that the reader goes by then, where that is another one.
    pub(crate) view: Option<VersionedManifest>,
    /// The manifest that was read or put last, where it isn't that one.
    pub(crate) read: Option<VersionedManifest>,
    /// Of the checkpoint that the reader keeps then.
    pub(crate) lease: Option<Lease>,
    /// Whether the lease was asked for after a replay.
    pub(crate) asked: bool,
    /// Whether the reader keeps its batches, and has the fresh ones after them.
    pub(crate) keeps: bool,
    /// The number before the first fresh batch.
    pub(crate) floor: u64,
    pub(crate) fresh: IndexedTable,
    /// The log files up to this id are replayed.
    pub(crate) mark: u64,
}

impl Drop for PollMachine {
    fn drop(self) {
        let PollMachine {
            moment: _,
            overtaken: _,
            history: _,
            stage: _,
            commit: _,
            view: _,
            read: _,
            lease: _,
            asked: _,
            keeps: _,
            floor: _,
            fresh: _,
            mark: _,
        } = self;
    }
}

impl Model for PollMachine {
    ghost use Rattle.slate_model.specs.Begun.{Begun};

    ghost Value = { Begun };

    ghost use Rattle.slate_follow.specs.Begun.{begun_of, IsBegun};

    ghost view = { begun_of };

    ghost invariant = { IsBegun };
}

impl PollMachine {
    /// Begins a poll of a reader, which is done by `step`. It makes no call of the store. `moment` is that of the poll, in
    /// milliseconds: its steps take the lease by it, whenever they come. On a closed reader it answers `Closed` or the error
    /// that closed it. It takes constant time, and the reader isn't changed: what a poll that is dropped has put stays, a
    /// checkpoint lapses then.
    pub fn begin(
        alloc: Global,
        state: &FollowerState,
        moment: i64,
    ) -> Result<PollMachine, SlateError>
        ensures closed { IfSome state.now.result (λ r. result ≡ Err (closed_error r)) }
        ensures begun { state.now.result ≡ None → result ≡ Ok (begun_at moment 0 no_step state.now) }
        ensures fits { IfOk result (λ machine. FitsReader state.now machine) }
        // What the reader keeps are its batches from the last number in the tables of its view on.
        ensures keeps { IfOk result (λ _. state.now.line.floor ≡ state.now.view.manifest.last_l0_seq) }
    {
        if let Some(result) = state.closed() {
            return Err(SlateError::of_closed(result));
        }
        let history = PollHistory {
            steps: 0,
            first: None,
            last_log: 0,
        };
        Ok(PollMachine::new(alloc, state, moment, 0, history))
    }

    /// A poll that has come nowhere yet, or begins anew after these steps.
    pub(crate) fn new(
        alloc: Global,
        state: &FollowerState,
        moment: i64,
        overtaken: u32,
        history: PollHistory,
    ) -> PollMachine
        requires few { overtaken < 8 }
        ensures begun { result ≡ begun_at moment overtaken history state.now }
        ensures fits { FitsReader state.now result }
        ensures keeps { state.now.line.floor ≡ state.now.view.manifest.last_l0_seq }
    {
        PollMachine {
            moment,
            overtaken,
            history,
            stage: Stage::ReadLatest,
            commit: None,
            view: None,
            read: None,
            lease: state.lease,
            asked: false,
            keeps: true,
            floor: state.number(),
            fresh: IndexedTable::new(alloc),
            mark: state.mark(),
        }
    }

    /// Makes the next call of the poll. It answers None while there is another to make, and the poll's answer once there is
    /// none: the reader is then, as one whole, what a whole poll would have made of it. SlateDB has no such call.
    ///
    /// What the calls are, in this order: the latest manifest; where a reader that keeps a checkpoint finds another one there
    /// than its view, in its tables, the last number in them or its segments, the put of one with a new checkpoint; the last
    /// log file; where the reader may lag, log files from that one downwards up to one with a batch that it hasn't, which aren't read where
    /// that leaves it no further behind than it may be; each log file above the mark, or the latest manifest once more where there is none; and where the lease is
    /// due then, the put of a manifest that renews it, or, where the checkpoint isn't there, that replaces it, and
    /// what log files have once more. One that skips log files leaves out those calls. A put that finds another manifest
    /// under its id begins the poll anew with the next step.
    ///
    /// # Errors
    ///
    /// answer | when
    /// ---|---
    /// `Truncated` | a log file isn't there any more or a batch is missing: others put a table since the first step
    /// `TransactionalObjectTimeout` | at the eighth put that finds another manifest
    /// others | as of `poll`
    ///
    /// # Cost
    ///
    /// One call of the store; of a reader at a checkpoint none. Over an honest store fewer than `(k + 1) * (2 * G + 8)` steps, where it may lag `(k + 1) * (4 * G + 8)`,
    /// of a poll answer None, k being its puts that found another manifest, and G the last log file's greatest id less the
    /// replay mark at the first step. A step that reads a log file takes time linear in its
    /// operations, for each new key a logarithm of the keys; one that reads or puts a manifest, in that; and the one that
    /// answers, in the operations of what is new.
    ///
    /// # What stands after
    ///
    /// An answer and an error end the poll. After `Truncated` the reader has what came before the log file that is missing;
    /// after an error it sees what it saw, and one that keeps a checkpoint is closed, unless that is `NoMemory`.
    pub fn step<S: Store, E: PrefixExtractor>(
        &mut self,
        alloc: Global,
        state: &mut FollowerState,
        store: &mut S,
        extractor: Option<&E>,
    ) -> Result<Option<PollAnswer>, SlateError>
        requires begun { IsGoing self.old.stage }
        requires open_ { state.old.result ≡ None }
        requires fits { FitsReader state.old self.old }
        ensures pinned { is_pinned state.old.mode ≡ true → (result ≡ Ok (Some (PollAnswer.Whole (number state.old)))) × (state.new ≡ state.old) × (store.new ≡ store.old) }
        ensures calls { is_pinned state.old.mode ≡ false → S.calls store.new ≡ one_more (S.calls store.old) }
        ensures steps { is_pinned state.old.mode ≡ false → WhereModelled (λ o o'. Steps state.old self.old result o state.new self.new o') (S.objects store.old) (S.objects store.new) }
        ensures lacks { (x : Option Extractor) → IsExtractor E.may_name E.may_extract (option_copied extractor.entry) x → is_pinned state.old.mode ≡ false → result ≡ Err SlateError.InvalidDBState →
            IfSome (S.objects store.old) (λ o. StepLacks x state.old self.old o) }
        ensures goes { result ≡ Ok None → (state.new ≡ state.old) × FitsReader state.new self.new × IsGoing self.new.stage }
        ensures answers { IfOk result (λ answer. IfSome answer (λ _. (state.new.result ≡ None) × (self.new.stage ≡ Ended))) }
        ensures failed { IfErr result (λ error. (state.new ≡ failed_by error state.old) × (self.new.stage ≡ Ended)) }
        ensures segments { (x : Option Extractor) → IsExtractor E.may_name E.may_extract (option_copied extractor.entry) x → HasSegments x state.old → HasSegments x state.new }
        ensures faults { CountsFaults (S.faults store.old) (S.faults store.new) result }
        ensures errors { IfErr result (IsOfPoll state.old.mode) }
        // Over an honest store, whatever others did since the call before.
        ensures follows { (line : Line) → IsContent (S.objects store.old) line → ((o : Objects) → S.objects store.old ≡ Some o → FollowsLine o line state.old self.old) →
            FollowsOn line (S.objects store.new) result state.new self.new }
        // Few steps came before, and Truncated only where others put a table since the first one.
        ensures lasts { (line : Line) → IsContent (S.objects store.old) line → ((o : Objects) → S.objects store.old ≡ Some o → FollowsLine o line state.old self.old × Lasts o state.old self.old) →
            IfSome (S.objects store.old) (λ o. IsFew state.old.lag self.old × LastsOn o (S.objects store.new) self.old result state.new self.new) }
        ensures tries { is_pinned state.old.mode ≡ false → IfSome (S.objects store.old) (λ o. TriesEight o self.old result) }
    {
        if state.is_pinned() {
            self.stage = Stage::Ended;
            return Ok(Some(PollAnswer::Whole { at: state.number() }));
        }
        match self.take_step(alloc, state, store, extractor) {
            Ok(answer) => Ok(answer),
            Err(error) => {
                state.fail_by(&error);
                Err(error)
            }
        }
    }

    /// Makes the next call, and gives the reader what it comes to where there is none after it. A reader that it fails isn't
    /// closed yet.
    fn take_step<S: Store, E: PrefixExtractor>(
        &mut self,
        alloc: Global,
        state: &mut FollowerState,
        store: &mut S,
        extractor: Option<&E>,
    ) -> Result<Option<PollAnswer>, SlateError>
        requires begun { IsGoing self.old.stage }
        requires open_ { state.old.result ≡ None }
        requires fits { FitsReader state.old self.old }
        ensures calls { S.calls store.new ≡ one_more (S.calls store.old) }
        ensures steps { WhereModelled (λ o o'. Steps state.old self.old result o state.new self.new o') (S.objects store.old) (S.objects store.new) }
        ensures lacks { (x : Option Extractor) → IsExtractor E.may_name E.may_extract (option_copied extractor.entry) x → result ≡ Err SlateError.InvalidDBState →
            IfSome (S.objects store.old) (λ o. StepLacks x state.old self.old o) }
        ensures goes { result ≡ Ok None → (state.new ≡ state.old) × FitsReader state.new self.new × IsGoing self.new.stage }
        ensures answers { IfOk result (λ answer. IfSome answer (λ _. (state.new.result ≡ None) × (self.new.stage ≡ Ended))) }
        ensures failed { IfErr result (λ error. (state.new ≡ state.old) × (self.new.stage ≡ Ended)) }
        ensures segments { (x : Option Extractor) → IsExtractor E.may_name E.may_extract (option_copied extractor.entry) x → HasSegments x state.old → HasSegments x state.new }
        ensures faults { CountsFaults (S.faults store.old) (S.faults store.new) result }
        ensures errors { IfErr result (IsOfPoll state.old.mode) }
        ensures numbered { AreNumberedFrom self.old.floor self.old.fresh }
    {
        let turn = self.call(alloc, state, store)?;
        if turn == Turn::Goes {
            return Ok(None);
        }
        let replayed = match turn {
            Turn::Breaks => Replayed::Truncated(self.mark.saturating_add(1)),
            _ => Replayed::Whole,
        };
        if let Err(error) = state.arrive(alloc, self, replayed, extractor) {
            return Err(poll_error(error));
        }
        let at = state.number();
        Ok(Some(match turn {
            Turn::Breaks => PollAnswer::Truncated { at },
            _ => PollAnswer::Whole { at },
        }))
    }
}
