// The calls of a poll by single calls, and what each leads to.
ghost use Rattle.std.specs.Prelude.{◌≡◌, ◌≢◌, ◌+◌, ◌<◌, ◌≤◌, ℕ, true, false, Option, None, Some, Ok, Err, IfOk, IfErr, IfSome, IsSome, IsTrue, ◌↔◌};
ghost use Rattle.slate_types.specs.Counts.{one_more};
ghost use Rattle.slate_types.specs.Line.{AreNumberedFrom};
ghost use Rattle.slate_store.specs.declared.objects.VersionedManifest.{VersionedManifest as AnyManifest};
ghost use Rattle.slate_store.specs.Checkpoints.{found, to_write};
ghost use Rattle.slate_model.specs.Begun.{AsksLast, Begun, Ended, LooksAt, Puts, ReadsAgain, ReadsLatest, ReadsLog, committed, decided, emptied, kept_lease, leads_on, noted, overtaken_by, put_by, reached_number, replayed, replaying, taken, view_of};
ghost use Rattle.slate_model.specs.Lease.{leased};
ghost use Rattle.slate_model.specs.Follower.{Follower};
ghost use Rattle.slate_model.specs.Known.{CountsFaults};
ghost use Rattle.slate_follow.specs.Stepping.{CallsNext, FitsNext, FitsReader, GivesPut, IsGoing, IsOfCommit, TurnsTo};

use crate::FollowerState;
use crate::leased_polls::differs;
use crate::leases::{latest_of, put_next, with_new_lease, with_renewed_lease};
use crate::machines::{Commit, PollMachine, Stage, Turn};
use slate_errors::SlateError;
use slate_model::{FirstRead, Lease};
use slate_reads::IndexedTable;
use slate_replay::{Replayed, newest_of, replay_next};
use slate_store::{COMMIT_TRIES, Store, VersionedManifest, find_checkpoint};
use std::alloc::Global;

impl PollMachine {
    /// Makes the next call of the poll. It answers the error of that call, or what it leads to; but for `Goes` the poll has
    /// ended then. The reader isn't changed.
    pub(crate) fn call<S: Store>(
        &mut self,
        alloc: Global,
        state: &FollowerState,
        store: &mut S,
    ) -> Result<Turn, SlateError>
        requires begun { IsGoing self.old.stage }
        requires fits { FitsReader state.now self.old }
        ensures next { CallsNext self.old.stage state.now (taken self.old) result self.new (S.objects store.old) (S.objects store.new) }
        ensures numbered { AreNumberedFrom self.old.floor self.old.fresh }
        ensures faults { CountsFaults (S.faults store.old) (S.faults store.new) result }
        ensures calls { S.calls store.new ≡ one_more (S.calls store.old) }
    {
        let stage = self.stage;
        self.stage = Stage::Ended;
        self.history.steps = self.history.steps.saturating_add(1);
        match stage {
            Stage::ReadLatest => self.call_latest(alloc, state, store),
            Stage::Put => match self.commit.take() {
                Some(commit) => self.call_put(alloc, state, store, commit),
                None => unreachable!(),
            },
            Stage::AskLast => self.call_last(alloc, state, store),
            Stage::LookAt { id, last } => self.call_look(alloc, state, store, id, last),
            Stage::ReadLog { last } => self.call_log(alloc, store, last),
            Stage::ReadAgain => self.call_again(alloc, store),
            Stage::Ended => unreachable!(),
        }
    }

    /// Reads the latest manifest, and decides by it.
    fn call_latest<S: Store>(
        &mut self,
        alloc: Global,
        state: &FollowerState,
        store: &mut S,
    ) -> Result<Turn, SlateError>
        requires ended { self.old.stage ≡ Ended }
        requires fits { FitsReader state.now self.old }
        ensures next { CallsNext ReadsLatest state.now self.old result self.new (S.objects store.old) (S.objects store.new) }
        ensures faults { CountsFaults (S.faults store.old) (S.faults store.new) result }
        ensures calls { S.calls store.new ≡ one_more (S.calls store.old) }
    {
        let latest = latest_of(alloc, store)?;
        self.note(&latest);
        self.decide(alloc, state, latest)
    }

    /// Puts a manifest.
    fn call_put<S: Store>(
        &mut self,
        alloc: Global,
        state: &FollowerState,
        store: &mut S,
        commit: Commit,
    ) -> Result<Turn, SlateError>
        requires ended { self.old.stage ≡ Ended }
        requires fits { FitsReader state.now self.old }
        requires leased { IsSome self.old.lease }
        ensures next { CallsNext (Puts commit.next commit.lease commit.replaces) state.now self.old result self.new (S.objects store.old) (S.objects store.new) }
        ensures faults { CountsFaults (S.faults store.old) (S.faults store.new) result }
        ensures calls { S.calls store.new ≡ one_more (S.calls store.old) }
    {
        let is_put = put_next(alloc, store, &commit.next)?;
        if is_put {
            self.commit(alloc, state, commit)
        } else {
            self.begin_again(alloc, state)
        }
    }

    /// Asks for the last log file.
    fn call_last<S: Store>(
        &mut self,
        alloc: Global,
        state: &FollowerState,
        store: &mut S,
    ) -> Result<Turn, SlateError>
        requires ended { self.old.stage ≡ Ended }
        requires read { IsSome self.old.latest }
        requires fits { FitsReader state.now self.old }
        ensures next { CallsNext AsksLast state.now self.old result self.new (S.objects store.old) (S.objects store.new) }
        ensures faults { CountsFaults (S.faults store.old) (S.faults store.new) result }
        ensures calls { S.calls store.new ≡ one_more (S.calls store.old) }
    {
        let last = store.last_log(alloc, self.mark)?;
        if self.mark < last {
            self.stage = if state.following.lag == 0 {
                Stage::ReadLog { last }
            } else {
                Stage::LookAt { id: last, last }
            };
            self.history.last_log = self.history.last_log.max(last);
        } else {
            self.stage = Stage::ReadAgain;
        }
        Ok(Turn::Goes)
    }

    /// Looks at a log file, whether the reader may wait with those up to the last one.
    fn call_look<S: Store>(
        &mut self,
        alloc: Global,
        state: &FollowerState,
        store: &mut S,
        id: u64,
        last: u64,
    ) -> Result<Turn, SlateError>
        requires ended { self.old.stage ≡ Ended }
        requires read { IsSome self.old.latest }
        requires above { self.old.mark < id }
        requires within { id ≤ last }
        requires fits { FitsReader state.now self.old }
        ensures next { CallsNext (LooksAt id last) state.now self.old result self.new (S.objects store.old) (S.objects store.new) }
        ensures faults { CountsFaults (S.faults store.old) (S.faults store.new) result }
        ensures calls { S.calls store.new ≡ one_more (S.calls store.old) }
    {
        let Some(newest) = newest_of(alloc, store, id)? else {
            return Ok(Turn::Breaks);
        };
        let reached = self.reached();
        if newest > reached.saturating_add(state.following.lag) {
            self.stage = Stage::ReadLog { last };
            return Ok(Turn::Goes);
        }
        if newest > reached || id == self.mark + 1 {
            return self.keep_lease(alloc);
        }
        self.stage = Stage::LookAt { id: id - 1, last };
        Ok(Turn::Goes)
    }

    /// Reads the log file after the mark, of which there are some up to this last one.
    fn call_log<S: Store>(
        &mut self,
        alloc: Global,
        store: &mut S,
        last: u64,
    ) -> Result<Turn, SlateError>
        requires ended { self.old.stage ≡ Ended }
        requires read { IsSome self.old.latest }
        requires below { self.old.mark < last }
        ensures next { (reader : Follower) → FitsReader reader self.old → CallsNext (ReadsLog last) reader self.old result self.new (S.objects store.old) (S.objects store.new) }
        ensures faults { CountsFaults (S.faults store.old) (S.faults store.new) result }
        ensures calls { S.calls store.new ≡ one_more (S.calls store.old) }
    {
        let id = self.mark + 1;
        let replayed = replay_next(alloc, store, &mut self.fresh, self.floor, id)?;
        if let Replayed::Truncated(_) = replayed {
            return Ok(Turn::Breaks);
        }
        self.mark = id;
        if id == last {
            return self.keep_lease(alloc);
        }
        self.stage = Stage::ReadLog { last };
        Ok(Turn::Goes)
    }

    /// Reads the latest manifest once more.
    fn call_again<S: Store>(&mut self, alloc: Global, store: &mut S) -> Result<Turn, SlateError>
        requires ended { self.old.stage ≡ Ended }
        ensures next { (reader : Follower) → FitsReader reader self.old → CallsNext ReadsAgain reader self.old result self.new (S.objects store.old) (S.objects store.new) }
        ensures faults { CountsFaults (S.faults store.old) (S.faults store.new) result }
        ensures calls { S.calls store.new ≡ one_more (S.calls store.old) }
    {
        let latest = latest_of(alloc, store)?;
        if latest.manifest.replay_after_wal_id > self.mark {
            return Ok(Turn::Breaks);
        }
        self.read = Some(latest);
        self.keep_lease(alloc)
    }

    /// Keeps what the latest manifest says, where it is the first one that the poll reads.
    fn note(&mut self, latest: &VersionedManifest)
        ensures { self.new ≡ noted latest.now self.old }
    {
        let first = self.history.first.unwrap_or(FirstRead {
            replay_after_wal_id: latest.manifest.replay_after_wal_id,
            last_l0_seq: latest.manifest.last_l0_seq,
        });
        self.history.first = Some(first);
    }

    /// Decides by the latest manifest what the poll does.
    fn decide(
        &mut self,
        alloc: Global,
        state: &FollowerState,
        latest: VersionedManifest,
    ) -> Result<Turn, SlateError>
        requires ended { self.old.stage ≡ Ended }
        requires fits { FitsReader state.now self.old }
        ensures { TurnsTo state.now (decided state.now latest self.old.lease self.old) result self.new }
    {
        let Some(lease) = self.lease else {
            self.view = Some(latest);
            self.read = None;
            return self.replay(alloc, state);
        };
        if !differs(state.status.manifest(), &latest) {
            self.read = Some(latest);
            return self.replay(alloc, state);
        }
        let commit = replacement(alloc, &latest, &lease, self.moment)?;
        self.read = Some(latest);
        Ok(self.put(commit))
    }

    /// Goes on from a manifest that was put.
    fn commit(
        &mut self,
        alloc: Global,
        state: &FollowerState,
        commit: Commit,
    ) -> Result<Turn, SlateError>
        requires ended { self.old.stage ≡ Ended }
        requires fits { FitsReader state.now self.old }
        requires leased { IsSome self.old.lease }
        ensures { TurnsTo state.now (committed state.now commit.next commit.lease commit.replaces self.old) result self.new }
    {
        let (next, lease, replaces) = commit.into_parts();
        self.lease = Some(lease);
        if !replaces {
            self.read = Some(next);
            return Ok(Turn::Ends);
        }
        self.view = Some(next);
        self.read = None;
        self.replay(alloc, state)
    }

    /// Begins anew, since another manifest was put first, unless that was the last try.
    fn begin_again(&mut self, alloc: Global, state: &FollowerState) -> Result<Turn, SlateError>
        requires ended { self.old.stage ≡ Ended }
        requires fits { FitsReader state.now self.old }
        requires leased { IsSome self.old.lease }
        ensures { TurnsTo state.now (overtaken_by state.now self.old) result self.new }
    {
        let tried = self.overtaken + 1;
        if tried == COMMIT_TRIES {
            return Err(SlateError::TransactionalObjectTimeout {
                tries: COMMIT_TRIES,
            });
        }
        *self = PollMachine::new(alloc, state, self.moment, tried, self.history);
        Ok(Turn::Goes)
    }

    /// Replays what log files have that it hasn't, under the manifest that it goes by.
    fn replay(&mut self, alloc: Global, state: &FollowerState) -> Result<Turn, SlateError>
        requires ended { self.old.stage ≡ Ended }
        requires fits { FitsNext state.now self.old }
        requires read { IsSome self.old.latest }
        ensures { (latest : AnyManifest) → self.old.latest ≡ Some latest → TurnsTo state.now (replaying state.now latest self.old) result self.new }
    {
        let mark = self.latest().manifest.replay_after_wal_id;
        let tabled = self.tabled(state);
        if state.following.skips {
            self.empty(alloc, tabled, mark);
            return self.keep_lease(alloc);
        }
        if self.leads_on(state, tabled) {
            self.mark = self.mark.max(mark);
        } else {
            self.empty(alloc, tabled, mark);
        }
        self.stage = Stage::AskLast;
        Ok(Turn::Goes)
    }

    /// Has the tables that end with this number, and no batch beside them.
    fn empty(&mut self, alloc: Global, tabled: u64, mark: u64)
        requires ended { self.old.stage ≡ Ended }
        ensures { (state : Follower) → tabled ≡ (view_of state self.old).manifest.last_l0_seq → self.new ≡ emptied state mark self.old }
    {
        self.keeps = false;
        self.floor = tabled;
        self.fresh = IndexedTable::new(alloc);
        self.mark = mark;
    }

    /// Whether its batches lead up to the tables that end with this number.
    fn leads_on(&self, state: &FollowerState, tabled: u64) -> bool
        requires tabled { tabled ≡ (view_of state.now self.now).manifest.last_l0_seq }
        ensures { result ≡ leads_on state.now self.now }
    {
        let base = if self.keeps {
            state.status.manifest().manifest.last_l0_seq
        } else {
            self.floor
        };
        base <= tabled && tabled <= self.reached()
    }

    /// Keeps the lease where it is due, once: all log files are read.
    fn keep_lease(&mut self, alloc: Global) -> Result<Turn, SlateError>
        requires ended { self.old.stage ≡ Ended }
        requires read { IsSome self.old.latest }
        ensures turns { (reader : Follower) (latest : AnyManifest) → FitsReader reader self.old → self.old.latest ≡ Some latest → TurnsTo reader (replayed latest self.old) result self.new }
        ensures kind { IfErr result IsOfCommit }
    {
        let Some(lease) = self.lease else {
            return Ok(Turn::Ends);
        };
        if self.asked || !lease.is_due(self.moment) {
            return Ok(Turn::Ends);
        }
        let commit = commit_of(alloc, self.latest(), &lease, self.moment)?;
        self.asked = true;
        Ok(self.put(commit))
    }

    /// Puts a manifest next.
    fn put(&mut self, commit: Commit) -> Turn
        requires { IsSome self.old.lease }
        ensures { (result ≡ Turn.Goes) × (self.new ≡ record self.old { stage = Puts commit.next commit.lease commit.replaces }) }
    {
        self.stage = Stage::Put;
        self.commit = Some(commit);
        Turn::Goes
    }

    /// The number of the last batch that it has.
    fn reached(&self) -> u64
        ensures { result ≡ reached_number self.now }
    {
        self.floor + self.fresh.batches().len() as u64
    }

    /// The last number in the tables of the manifest that the reader goes by then.
    pub(crate) fn tabled(&self, state: &FollowerState) -> u64
        ensures { result ≡ (view_of state.now self.now).manifest.last_l0_seq }
    {
        match &self.view {
            Some(view) => view.manifest.last_l0_seq,
            None => state.status.manifest().manifest.last_l0_seq,
        }
    }

    /// The manifest that was read or put last.
    fn latest(&self) -> &VersionedManifest
        requires { IsSome self.now.latest }
        ensures { self.now.latest ≡ Some result.now }
    {
        if let Some(read) = &self.read {
            return read;
        }
        match &self.view {
            Some(view) => view,
            None => unreachable!(),
        }
    }
}

/// What keeps a lease that is due after the latest manifest: its checkpoint with another end, or another one where it isn't there.
fn commit_of(
    alloc: Global,
    latest: &VersionedManifest,
    lease: &Lease,
    moment: i64,
) -> Result<Commit, SlateError>
    ensures gives { (begun : Begun) → GivesPut (kept_lease moment lease.now latest.now (found lease.now.id latest.now) begun) begun result }
    ensures kind { IfErr result IsOfCommit }
{
    if find_checkpoint(latest, lease.id).is_none() {
        return replacement(alloc, latest, lease, moment);
    }
    let (next, taken) = with_renewed_lease(alloc, latest, lease, moment)?;
    Ok(Commit {
        next,
        lease: taken,
        replaces: false,
    })
}

/// What puts a new checkpoint in place of a lease's own after the latest manifest.
fn replacement(
    alloc: Global,
    latest: &VersionedManifest,
    lease: &Lease,
    moment: i64,
) -> Result<Commit, SlateError>
    ensures gives { (begun : Begun) → GivesPut (put_by (leased lease.now.lifetime (to_write (Some lease.now.id) (Some lease.now.lifetime) moment latest.now)) true begun) begun result }
    ensures kind { IfErr result IsOfCommit }
{
    let replaced = Some(lease.id);
    let (next, taken) = with_new_lease(alloc, latest, replaced, lease.lifetime, moment)?;
    Ok(Commit {
        next,
        lease: taken,
        replaces: true,
    })
}
