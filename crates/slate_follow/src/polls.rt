// Opening a reader that follows a database, and polling it.
ghost use Rattle.std.specs.Prelude.{◌≡◌, ◌≢◌, ◌+◌, ◌*◌, ◌≤◌, ◌⊎◌, ℕ, List, true, false, Option, None, Some, Err, IfErr, IfOk, IfSome, IsSome, OnErr};
ghost use Rattle.std.specs.Option.{option_copied};
ghost use Rattle.slate_errors.specs.Errors.{closed_error};
ghost use Rattle.slate_store.specs.declared.reader_modes.DbReaderMode.TheVariants.{ManagedCheckpoint};
ghost use Rattle.slate_model.specs.Follow.{Polls, Rebuilds, SeesOwed, SeesPolled, built, unseen};
ghost use Rattle.slate_model.specs.Followed.{RefusesLatest, followed_logs};
ghost use Rattle.slate_model.specs.Follower.{HasSegments, is_managed, is_pinned};
ghost use Rattle.slate_model.specs.Known.{FaultsRise, IsContent, known};
ghost use Rattle.slate_model.specs.Lease.{lease_refusal};
ghost use Rattle.slate_types.specs.Line.{Line};
ghost use Rattle.slate_store.specs.Objects.{Objects};
ghost use Rattle.slate_model.specs.Managed.{OpensManaged, PollsManaged, TakesLease};
ghost use Rattle.slate_model.specs.Segments.{Extractor, IsExtractor};
ghost use Rattle.slate_model.specs.Open.{replayed_logs};
ghost use Rattle.slate_model.specs.Stores.{by_objects, kept_seen};
ghost use Rattle.slate_follow.specs.Answering.{IsOfLatest, IsOfOpening, IsOfPoll, IsOfTaking};
ghost use Rattle.slate_follow.specs.Lagging.{readings};
ghost use Rattle.slate_follow.specs.Keeping.{CallsKeeping, CallsRefused, LeftBy};
ghost use Rattle.slate_follow.specs.Rebuilding.{CallsContinuing, CallsOpening, CallsRebuilding, Continues, ReplaysView, Truncates, poll_error, polled};

use crate::leases::{latest_of, lease_refusal, take_lease};
use crate::rebuilds::{find_view, last_read, rebuild};
use crate::states::Following;
use crate::{DbReaderMode, DbReaderOptions, FollowerState, PollAnswer};
use slate_errors::SlateError;
use slate_store::Store;
use slate_types::PrefixExtractor;
use std::alloc::Global;

impl FollowerState {
    /// Opens a reader of a database. It reads no table: each read of the reader does. A database that was written with an
    /// extractor is opened with one of that name. SlateDB's `DbReader::open`.
    ///
    /// mode | goes by | sees
    /// ---|---|---
    /// `FollowLatest` | the latest manifest | the batches in its tables, and what log files above its replay mark have above them
    /// `Checkpoint` | the manifest that this checkpoint keeps | what that named when it was put: tables, and log files below its next id
    /// `ManagedCheckpoint` | a manifest that it puts after the latest one | as `FollowLatest`
    ///
    /// The manifest that it puts has a checkpoint of its own, whose lease begins at `moment` and lasts
    /// `checkpoint_lifetime_ms`, to the greatest moment at most: no sweep before its end removes a table of it. In the other
    /// modes nothing is put, and `moment` isn't looked at. With `skip_wal_replay` a reader reads no log file, and sees the
    /// batches in the tables alone.
    ///
    /// # Errors
    ///
    /// It answers `Truncated`, and no error, where a log file or a batch is missing: the reader has the batches before it. That
    /// never comes over a store that only handles wrote. In this order come
    ///
    /// error | when
    /// ---|---
    /// `InvalidCheckpointLifetime`, `InvalidManifestPollInterval`, `CheckpointLifetimeTooShort` | managed alone: a lifetime under 1000 ms; twice the interval passes a `u64`; a lifetime under twice the interval
    /// `LatestTransactionalObjectVersionMissing` | there is no manifest
    /// `InvalidDBState` | the latest one isn't initialised, or, after the next two, no id is left for one that is put
    /// `SegmentExtractorMismatch` | the extractor's name isn't the one in the latest manifest, or one of them is absent
    /// `SegmentPrefixNotRecognized` | of the first stored prefix that the extractor doesn't answer of itself
    /// `CheckpointMissing` | the latest manifest has no such checkpoint
    /// `TransactionalObjectTimeout` | eight times another manifest was put first
    /// `EmptySegmentPrefix` | after the replay, of the first key that has no prefix, or an empty one
    ///
    /// and at any call `ObjectStoreError`, for a fault of the store or where the manifest isn't stored that the checkpoint keeps,
    /// which no sweep removes, and `NoMemory`.
    ///
    /// # Cost
    ///
    /// Two calls of the store at most, or three where it puts a manifest, two more for each time that another was put first, and
    /// one for each log file that it replays. Time linear in the operations of the log files, for each key a logarithm of the
    /// keys; with an extractor also a call of it for each segment of the manifest and each operation, and a logarithm of the
    /// prefixes.
    ///
    /// # What stands after
    ///
    /// After an error there is no reader. After `EmptySegmentPrefix`, a fault or want of memory the manifest with the new
    /// checkpoint may have been put, which lapses then.
    pub fn open<S: Store, E: PrefixExtractor>(
        alloc: Global,
        store: &mut S,
        mode: DbReaderMode,
        options: &DbReaderOptions,
        extractor: Option<&E>,
        moment: i64,
    ) -> Result<(FollowerState, PollAnswer), SlateError>
        ensures rebuilds { (x : Option Extractor) → IsExtractor E.may_name E.may_extract (option_copied extractor.entry) x → is_managed mode ≡ false →
            Rebuilds (by_objects (S.objects store.old)) x mode options.now.skip_wal_replay true options.now.max_lag (SeesOwed (by_objects (S.objects store.old)) mode options.now.skip_wal_replay options.now.max_lag) unseen (known S.objects S.faults store.old) result (known S.objects S.faults store.new) }
        ensures replays { is_managed mode ≡ false → IfOk result (λ p. IfSome (S.objects store.old) (λ o. ReplaysView true o p.0 p.1)) }
        ensures calls { is_managed mode ≡ false → IfSome (S.objects store.old) (λ o. CallsOpening mode options.now.skip_wal_replay o (S.calls store.old) (S.calls store.new)) }
        ensures managed { (x : Option Extractor) → IsExtractor E.may_name E.may_extract (option_copied extractor.entry) x → is_managed mode ≡ true →
            (made : ℕ) × OpensManaged (by_objects (S.objects store.old)) x made options.now.checkpoint_lifetime_ms options.now.manifest_poll_interval_ms
            options.now.skip_wal_replay options.now.max_lag moment (known S.objects S.faults store.old) result (known S.objects S.faults store.new) }
        ensures refused { is_managed mode ≡ true → IfSome (lease_refusal options.now.checkpoint_lifetime_ms options.now.manifest_poll_interval_ms) (λ error. (result ≡ Err error) × (store.new ≡ store.old)) }
        ensures managed_calls { is_managed mode ≡ true → IfSome (S.objects store.old) (λ o. S.calls store.new ≤ S.calls store.old + (followed_logs mode options.now.skip_wal_replay o + 17)) }
        ensures faults { FaultsRise (S.faults store.old) (S.faults store.new) result }
        ensures handed { (x : Option Extractor) → IsExtractor E.may_name E.may_extract (option_copied extractor.entry) x → is_managed mode ≡ false → is_pinned mode ≡ false →
            IfOk result (λ p. (o : Objects) (line : Line) → S.objects store.old ≡ Some o → IsContent (S.objects store.old) line → kept_seen p.0 o line) }
        ensures first { is_managed mode ≡ false → IfErr result (λ error. IsOfLatest error → S.calls store.new ≤ S.calls store.old + 1) }
        ensures first_managed { (x : Option Extractor) (o : Objects) → IsExtractor E.may_name E.may_extract (option_copied extractor.entry) x → is_managed mode ≡ true → S.objects store.old ≡ Some o →
            IfErr result (λ error. IsOfLatest error → S.calls store.new ≤ S.calls store.old + 1) }
        ensures tries_managed { is_managed mode ≡ true → IfErr result (λ error. IsOfLatest error → CallsRefused options.now.checkpoint_lifetime_ms moment (S.objects store.old) (S.calls store.old) (S.calls store.new)) }
        ensures errors { IfErr result (IsOfOpening mode) }
        // The latest manifest is looked at in this order, as by handles: it is initialised, it fits the extractor, and another may be put after it.
        ensures decided { (x : Option Extractor) → IsExtractor E.may_name E.may_extract (option_copied extractor.entry) x → is_managed mode ≡ true → result ≡ Err SlateError.InvalidDBState →
            IfSome (S.objects store.old) (λ o. RefusesLatest x true o (Some SlateError.InvalidDBState) ⊎ RefusesLatest x true o None) }
        ensures truncates { IfOk result (λ p. IfSome (S.objects store.new) (λ o. Truncates o p.0 p.1)) }
    {
        if mode == DbReaderMode::ManagedCheckpoint {
            return FollowerState::open_managed(alloc, store, options, extractor, moment);
        }
        let following = Following {
            mode,
            skips: options.skip_wal_replay,
            lag: options.max_lag,
        };
        let (view, last) = find_view(alloc, store, following, extractor)?;
        let (rebuilt, answer) = rebuild(alloc, store, following, view, last, extractor)?;
        let limit = options.max_memtable_bytes;
        Ok((FollowerState::new(alloc, rebuilt, None, limit)?, answer))
    }

    /// Opens a reader that keeps a checkpoint of its own.
    fn open_managed<S: Store, E: PrefixExtractor>(
        alloc: Global,
        store: &mut S,
        options: &DbReaderOptions,
        extractor: Option<&E>,
        moment: i64,
    ) -> Result<(FollowerState, PollAnswer), SlateError>
        ensures opens { (x : Option Extractor) → IsExtractor E.may_name E.may_extract (option_copied extractor.entry) x →
            (made : ℕ) × OpensManaged (by_objects (S.objects store.old)) x made options.now.checkpoint_lifetime_ms options.now.manifest_poll_interval_ms
            options.now.skip_wal_replay options.now.max_lag moment (known S.objects S.faults store.old) result (known S.objects S.faults store.new) }
        ensures refused { IfSome (lease_refusal options.now.checkpoint_lifetime_ms options.now.manifest_poll_interval_ms) (λ error. (result ≡ Err error) × (store.new ≡ store.old)) }
        ensures calls { IfSome (S.objects store.old) (λ o. S.calls store.new ≤ S.calls store.old + (followed_logs ManagedCheckpoint options.now.skip_wal_replay o + 17)) }
        ensures first { (x : Option Extractor) (o : Objects) → IsExtractor E.may_name E.may_extract (option_copied extractor.entry) x → S.objects store.old ≡ Some o → IfErr result (λ error. IsOfLatest error → S.calls store.new ≤ S.calls store.old + 1) }
        ensures tries { IfErr result (λ error. IsOfLatest error → CallsRefused options.now.checkpoint_lifetime_ms moment (S.objects store.old) (S.calls store.old) (S.calls store.new)) }
        ensures faults { FaultsRise (S.faults store.old) (S.faults store.new) result }
        ensures kind { IfErr result (IsOfOpening ManagedCheckpoint) }
        ensures decided { (x : Option Extractor) → IsExtractor E.may_name E.may_extract (option_copied extractor.entry) x → result ≡ Err SlateError.InvalidDBState →
            IfSome (S.objects store.old) (λ o. RefusesLatest x true o (Some SlateError.InvalidDBState) ⊎ RefusesLatest x true o None) }
        ensures truncates { IfOk result (λ p. IfSome (S.objects store.new) (λ o. Truncates o p.0 p.1)) }
    {
        if let Some(refusal) = lease_refusal(options) {
            return Err(refusal);
        }
        FollowerState::open_leased(alloc, store, options, extractor, moment)
    }

    /// Opens one whose options pass.
    fn open_leased<S: Store, E: PrefixExtractor>(
        alloc: Global,
        store: &mut S,
        options: &DbReaderOptions,
        extractor: Option<&E>,
        moment: i64,
    ) -> Result<(FollowerState, PollAnswer), SlateError>
        ensures takes { (x : Option Extractor) → IsExtractor E.may_name E.may_extract (option_copied extractor.entry) x →
            (made : ℕ) × TakesLease (by_objects (S.objects store.old)) x made options.now.checkpoint_lifetime_ms
            options.now.skip_wal_replay options.now.max_lag moment (known S.objects S.faults store.old) result (known S.objects S.faults store.new) }
        ensures calls { IfSome (S.objects store.old) (λ o. S.calls store.new ≤ S.calls store.old + (followed_logs ManagedCheckpoint options.now.skip_wal_replay o + 17)) }
        ensures first { (x : Option Extractor) (o : Objects) → IsExtractor E.may_name E.may_extract (option_copied extractor.entry) x → S.objects store.old ≡ Some o → IfErr result (λ error. IsOfLatest error → S.calls store.new ≤ S.calls store.old + 1) }
        ensures tries { IfErr result (λ error. IsOfLatest error → CallsRefused options.now.checkpoint_lifetime_ms moment (S.objects store.old) (S.calls store.old) (S.calls store.new)) }
        ensures faults { FaultsRise (S.faults store.old) (S.faults store.new) result }
        ensures kind { IfErr result (IsOfOpening ManagedCheckpoint) }
        ensures decided { (x : Option Extractor) → IsExtractor E.may_name E.may_extract (option_copied extractor.entry) x → result ≡ Err SlateError.InvalidDBState →
            IfSome (S.objects store.old) (λ o. RefusesLatest x true o (Some SlateError.InvalidDBState) ⊎ RefusesLatest x true o None) }
        ensures truncates { IfOk result (λ p. IfSome (S.objects store.new) (λ o. Truncates o p.0 p.1)) }
    {
        let following = Following {
            mode: DbReaderMode::ManagedCheckpoint,
            skips: options.skip_wal_replay,
            lag: options.max_lag,
        };
        let lifetime = options.checkpoint_lifetime_ms;
        let (view, lease) = take_lease(alloc, store, lifetime, extractor, moment)?;
        let last = last_read(alloc, store, following, &view)?;
        let (rebuilt, answer) = rebuild(alloc, store, following, view, last, extractor)?;
        let limit = options.max_memtable_bytes;
        Ok((
            FollowerState::new(alloc, rebuilt, Some(lease), limit)?,
            answer,
        ))
    }

    /// Takes what is new since the last poll: from then on the reader sees, until the next poll, the batches in the tables
    /// of the latest manifest and those that the log files above its replay mark have above the last number in tables.
    /// One that was opened with `skip_wal_replay` sees those in the tables. It reads no table. A reader of a checkpoint
    /// stays as it is, and answers `Whole`. SlateDB's reader polls by itself.
    ///
    /// A reader that follows the latest goes by the latest manifest then, and `moment` isn't looked at. One that keeps a
    /// checkpoint of its own puts a manifest after the latest one in these cases, and else goes by the same one as before:
    ///
    /// case | what it puts
    /// ---|---
    /// the latest manifest has other tables, another last number in them or other segments | a new checkpoint in place of the old one, whose lease begins at `moment`; it goes by that manifest
    /// `moment` is after the lease's end less half the lifetime, rounded down | the lease renewed, to end a lifetime after `moment`
    /// the same, and a sweep took its checkpoint out | a new one; it goes by that manifest
    ///
    /// Where it puts a new checkpoint in the first case and half the lifetime after `moment` is past the greatest moment, at which
    /// the new lease ends then, that is due at once: it is renewed in the same poll, by a second manifest.
    ///
    /// So it keeps its checkpoint, and no sweep removes a table that it reads, while the moments of its polls and of sweeps are
    /// less than half the lifetime after its last poll that answered, or its opening.
    ///
    /// # Errors
    ///
    /// answer | when
    /// ---|---
    /// `Truncated`, no error | a log file or a batch is missing, which never comes over a store that only handles wrote
    /// `Closed`, or the error that closed it | of a closed reader
    /// `LatestTransactionalObjectVersionMissing` | there is no manifest
    /// `InvalidDBState` | no id is left for a manifest that is put, or a key that it takes has no prefix, or an empty one
    /// `TransactionalObjectTimeout` | eight times another manifest was put first
    /// `ObjectStoreError`, `NoMemory` | a fault of the store; want of memory
    ///
    /// # Cost
    ///
    /// Where it answers Ok it reads the latest manifest, asks for the last log file, and reads the log files above both the
    /// replay mark and its own mark, or all above the replay mark where its batches don't reach the manifest's tables. A managed
    /// one besides puts a manifest in the cases above, and two where it renews a lease at once.
    /// Whatever it answers, it calls the store at most nine times for each log file above the replay mark, and 27 times besides;
    /// a closed reader and one of a checkpoint not at all.
    ///
    /// Time linear in the operations that it reads, for each new key a logarithm of the keys, in the batches that it drops, and in
    /// the tables in memory and the prefixes of their batches. What it reads is a table in memory, with which it joins small ones
    /// before it, so that an operation is indexed again only as its table grows by half; so are those of a table of which it drops a
    /// part.
    ///
    /// # What stands after
    ///
    /// After `Truncated` the reader has the batches before what is missing. After an error it sees what it saw; where only the
    /// renewal of a lease failed that the poll had taken, it sees what it would see after `Whole`. Of one that keeps a checkpoint
    /// each error but `NoMemory` is recorded, and closes it; its checkpoint is left to lapse. In the other modes it closes
    /// nothing: the next one may go on.
    pub fn poll<S: Store, E: PrefixExtractor>(
        &mut self,
        alloc: Global,
        store: &mut S,
        extractor: Option<&E>,
        moment: i64,
    ) -> Result<PollAnswer, SlateError>
        ensures polls { (x : Option Extractor) → IsExtractor E.may_name E.may_extract (option_copied extractor.entry) x → is_managed self.old.mode ≡ false →
            Polls (by_objects (S.objects store.old)) x self.old (known S.objects S.faults store.old) result self.new (known S.objects S.faults store.new) }
        ensures replays { is_managed self.old.mode ≡ false → IfOk result (λ a. is_pinned self.old.mode ≡ false → IfSome (S.objects store.old) (λ o. ReplaysView false o self.new a ⊎ Continues o self.old self.new a)) }
        ensures calls { is_managed self.old.mode ≡ false → IfSome (S.objects store.old) (λ o. CallsRebuilding o self.old.lag (S.calls store.old) (S.calls store.new)) }
        ensures costs { is_managed self.old.mode ≡ false → IfOk result (λ _. IfSome (S.objects store.old) (λ o. CallsContinuing o self.old (S.calls store.old) (S.calls store.new))) }
        ensures managed { (x : Option Extractor) → IsExtractor E.may_name E.may_extract (option_copied extractor.entry) x → is_managed self.old.mode ≡ true →
            (made : ℕ) × PollsManaged (by_objects (S.objects store.old)) x made moment self.old (known S.objects S.faults store.old) result self.new (known S.objects S.faults store.new) }
        ensures costs_managed { is_managed self.old.mode ≡ true → IfOk result (λ _. IfSome self.old.lease (λ lease. IfSome (S.objects store.old) (λ o. CallsKeeping o self.old lease moment (S.calls store.old) (S.calls store.new)))) }
        ensures managed_calls { is_managed self.old.mode ≡ true → IfSome (S.objects store.old) (λ o. S.calls store.new ≤ S.calls store.old + 9 * (readings self.old.lag (replayed_logs o) + 3)) }
        ensures count { S.faults store.old ≤ S.faults store.new }
        ensures faults { self.old.result ≡ None → FaultsRise (S.faults store.old) (S.faults store.new) result }
        ensures truncates { IfOk result (λ a. IfSome (S.objects store.old) (λ o. Truncates o self.new a)) }
        ensures closed { IfSome self.old.result (λ r. result ≡ Err (closed_error r)) }
        ensures left { is_managed self.old.mode ≡ false → IfErr result (λ _. self.new ≡ self.old) }
        ensures left_managed { is_managed self.old.mode ≡ true → self.old.result ≡ None → IfErr result (λ error. LeftBy moment self.old (S.objects store.old) error self.new (S.objects store.new)) }
        ensures untouched { self.old.result ≢ None → (self.new ≡ self.old) × (store.new ≡ store.old) }
        ensures stays { is_pinned self.old.mode ≡ true → (self.new ≡ self.old) × (store.new ≡ store.old) }
        ensures handed { (x : Option Extractor) → IsExtractor E.may_name E.may_extract (option_copied extractor.entry) x → is_managed self.old.mode ≡ false → is_pinned self.old.mode ≡ false → (o : Objects) (line : Line) →
            S.objects store.old ≡ Some o → IsContent (S.objects store.old) line → kept_seen self.old o line → kept_seen self.new o line }
        ensures handed_managed { (x : Option Extractor) → IsExtractor E.may_name E.may_extract (option_copied extractor.entry) x → is_managed self.old.mode ≡ true → (o o' : Objects) (line : Line) →
            S.objects store.old ≡ Some o → S.objects store.new ≡ Some o' → IsContent (S.objects store.old) line → kept_seen self.old o line → kept_seen self.new o' line }
        ensures errors { self.old.result ≡ None → IfErr result (IsOfPoll self.old.mode) }
        ensures segmented { (x : Option Extractor) → IsExtractor E.may_name E.may_extract (option_copied extractor.entry) x → self.old.result ≡ None → is_managed self.old.mode ≡ false →
            result ≡ Err SlateError.InvalidDBState → IsSome x }
    {
        if let Some(result) = self.closed() {
            return Err(SlateError::of_closed(result));
        }
        if let Some(lease) = self.lease {
            return self.poll_leased(alloc, store, &lease, extractor, moment);
        }
        if self.is_pinned() {
            return Ok(PollAnswer::Whole { at: self.number() });
        }
        match self.take_new(alloc, store, extractor) {
            Ok(answer) => Ok(answer),
            Err(error) => Err(poll_error(error)),
        }
    }

    /// Goes by the latest manifest, and takes what is new. A key without a segment is refused as an opening does.
    fn take_new<S: Store, E: PrefixExtractor>(
        &mut self,
        alloc: Global,
        store: &mut S,
        extractor: Option<&E>,
    ) -> Result<PollAnswer, SlateError>
        requires open_ { self.old.result ≡ None }
        requires unleased { self.old.lease ≡ None }
        requires free { is_pinned self.old.mode ≡ false }
        ensures faults { FaultsRise (S.faults store.old) (S.faults store.new) result }
        ensures rebuilds { (x : Option Extractor) → IsExtractor E.may_name E.may_extract (option_copied extractor.entry) x →
            Rebuilds (by_objects (S.objects store.old)) x self.old.mode self.old.skips false self.old.lag (SeesPolled (by_objects (S.objects store.old)) self.old) (kept_seen self.old)
            (known S.objects S.faults store.old) (polled (built self.new result)) (known S.objects S.faults store.new) }
        ensures segments { (x : Option Extractor) → IsExtractor E.may_name E.may_extract (option_copied extractor.entry) x → HasSegments x self.old → HasSegments x self.new }
        ensures failed { OnErr result (self.new ≡ self.old) }
        ensures replays { IfOk result (λ a. IfSome (S.objects store.old) (λ o. ReplaysView false o self.new a ⊎ Continues o self.old self.new a)) }
        ensures calls { IfSome (S.objects store.old) (λ o. CallsRebuilding o self.old.lag (S.calls store.old) (S.calls store.new)) }
        ensures costs { IfOk result (λ _. IfSome (S.objects store.old) (λ o. CallsContinuing o self.old (S.calls store.old) (S.calls store.new))) }
        ensures truncates { IfOk result (λ a. IfSome (S.objects store.old) (λ o. Truncates o self.new a)) }
        ensures kind { IfErr result IsOfTaking }
        ensures named { (x : Option Extractor) (key : List ℕ) → IsExtractor E.may_name E.may_extract (option_copied extractor.entry) x → result ≡ Err (SlateError.EmptySegmentPrefix key) → IsSome x }
    {
        let latest = latest_of(alloc, store)?;
        let answer = self.follow(alloc, store, latest, extractor)?;
        Ok(answer)
    }
}

/// What a poll answers for an error: a key without a segment is an invalid state, since what a poll records has no key.
pub(crate) fn poll_error(error: SlateError) -> SlateError
    ensures { result ≡ poll_error error }
{
    match error {
        SlateError::EmptySegmentPrefix { .. } => SlateError::InvalidDBState,
        error => error,
    }
}
