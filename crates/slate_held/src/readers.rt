// A reader and its store, as one value.
ghost use Rattle.std.specs.Prelude.{◌≡◌, ◌≢◌, ◌+◌, ◌*◌, ◌≤◌, ◌⊎◌, ℕ, true, false, None, Some, Ok, Err, Option, IfErr, IfOk, IfSome, IsSome, MatchResult, length};
ghost use Rattle.std.specs.Option.{option_copied};
ghost use Rattle.slate_errors.specs.Errors.{closed_error};
ghost use Rattle.slate_types.specs.Line.{Line};
ghost use Rattle.slate_types.specs.Operator.{Merge};
ghost use Rattle.slate_store.specs.Objects.{Objects};
ghost use Rattle.slate_reads.specs.Read.{IsOperator, read_at};
ghost use Rattle.slate_model.specs.Close.{closed_follower, ended, recorded_fault};
ghost use Rattle.slate_model.specs.Follow.{Polls, Rebuilds, SeesOwed, unseen};
ghost use Rattle.slate_model.specs.Followed.{RefusesLatest, followed_logs};
ghost use Rattle.slate_model.specs.Follower.{is_managed, is_pinned, number};
ghost use Rattle.slate_model.specs.Known.{FaultsRise, IsContent, known};
ghost use Rattle.slate_model.specs.Managed.{ClosesManaged, OpensManaged, PollsManaged};
ghost use Rattle.slate_model.specs.Object.{Follower};
ghost use Rattle.slate_model.specs.Open.{replayed_logs};
ghost use Rattle.slate_model.specs.Read.{Gives, ReadsUnlessClosed, ReadsByAny};
ghost use Rattle.slate_model.specs.Segments.{Extractor, IsExtractor};
ghost use Rattle.slate_model.specs.Status.{follower_status};
ghost use Rattle.slate_model.specs.Stores.{by_objects, kept_rows, kept_seen};
ghost use Rattle.slate_follow.specs.Answering.{IsOfOpening, IsOfPoll};
ghost use Rattle.slate_follow.specs.Keeping.{CallsKeeping, LeftBy};
ghost use Rattle.slate_follow.specs.Lagging.{readings};
ghost use Rattle.slate_follow.specs.Rebuilding.{CallsContinuing, CallsOpening, CallsRebuilding, Truncates};
ghost use Rattle.slate_follow.specs.Scanned.{BeginsFrontOf, BeginsScanOf};

use slate_errors::{CloseFault, Ended, SlateError};
use slate_follow::{DbReaderMode, DbReaderOptions, FollowerState, PollAnswer};
use slate_rows::DbIterator;
use slate_status::DbStatus;
use slate_store::Store;
use slate_types::{ByteRange, IterationOrder, KeyValue, MergeOperator, NoMemory, PrefixExtractor};
use std::alloc::Global;
use std::marker::Model;

/// A reader that follows a database, with its store, as one value: what a `DbReader` holds under its lock. A program of one
/// thread may use it by itself. Each call is that of `FollowerState` of its name, over the store that it was opened with.
///
/// A contract sees the reader and the store.
pub struct HeldReader<S: Store> {
    reader: FollowerState,
    store: S,
}

impl<S: Store + Drop> Drop for HeldReader<S> {
    fn drop(self) {
        let HeldReader {
            reader: _,
            store: _,
        } = self;
    }
}

impl<S: Store> Model for HeldReader<S> {
    ghost use Rattle.slate_held.specs.Holding.{Following};

    ghost Value = { Following S };

    ghost view = { λ held. record { follower = held.reader; store = held.store } };
}

impl<S: Store> HeldReader<S> {
    /// Opens a reader over this store at this moment, in milliseconds, as `FollowerState::open` does. Where it answers an error,
    /// the store is gone.
    pub fn open<E: PrefixExtractor>(
        alloc: Global,
        mut store: S,
        mode: DbReaderMode,
        options: &DbReaderOptions,
        extractor: Option<&E>,
        moment: i64,
    ) -> Result<(HeldReader<S>, PollAnswer), SlateError>
    where
        S: Drop,
        ensures errors { IfErr result (IsOfOpening mode) }
        ensures rebuilds { (x : Option Extractor) → IsExtractor E.may_name E.may_extract (option_copied extractor.entry) x → is_managed mode ≡ false →
            IfOk result (λ p. Rebuilds (by_objects (S.objects store)) x mode options.now.skip_wal_replay true options.now.max_lag (SeesOwed (by_objects (S.objects store)) mode options.now.skip_wal_replay options.now.max_lag) unseen (known S.objects S.faults store) (Ok (p.0.follower, p.1)) (known S.objects S.faults p.0.store)) }
        ensures managed { (x : Option Extractor) → IsExtractor E.may_name E.may_extract (option_copied extractor.entry) x → is_managed mode ≡ true →
            IfOk result (λ p. (made : ℕ) × OpensManaged (by_objects (S.objects store)) x made options.now.checkpoint_lifetime_ms options.now.manifest_poll_interval_ms
            options.now.skip_wal_replay options.now.max_lag moment (known S.objects S.faults store) (Ok (p.0.follower, p.1)) (known S.objects S.faults p.0.store)) }
        ensures calls { is_managed mode ≡ false → IfOk result (λ p. IfSome (S.objects store) (λ o. CallsOpening mode options.now.skip_wal_replay o (S.calls store) (S.calls p.0.store))) }
        ensures managed_calls { is_managed mode ≡ true → IfOk result (λ p. IfSome (S.objects store) (λ o. S.calls p.0.store ≤ S.calls store + (followed_logs mode options.now.skip_wal_replay o + 17))) }
        ensures faults { IfOk result (λ p. S.faults store ≤ S.faults p.0.store) }
        ensures handed { (x : Option Extractor) → IsExtractor E.may_name E.may_extract (option_copied extractor.entry) x → is_managed mode ≡ false → is_pinned mode ≡ false →
            IfOk result (λ p. (o : Objects) (line : Line) → S.objects store ≡ Some o → IsContent (S.objects store) line → kept_seen p.0.follower o line) }
        ensures truncates { IfOk result (λ p. IfSome (S.objects p.0.store) (λ o. Truncates o p.0.follower p.1)) }
        ensures decided { (x : Option Extractor) → IsExtractor E.may_name E.may_extract (option_copied extractor.entry) x → is_managed mode ≡ true → result ≡ Err SlateError.InvalidDBState →
            IfSome (S.objects store) (λ o. RefusesLatest x true o (Some SlateError.InvalidDBState) ⊎ RefusesLatest x true o None) }
    {
        let (reader, answer) = FollowerState::open(
            alloc, &mut store, mode, options, extractor, moment,
        )?;
        Ok((HeldReader { reader, store }, answer))
    }

    /// The number of the last batch that it sees.
    pub fn number(&self) -> u64
        ensures { result ≡ number self.now.follower }
    {
        self.reader.number()
    }

    /// The result with which it closed, or None while it is open.
    pub fn closed(&self) -> Option<Result<(), CloseFault>>
        ensures { result ≡ self.now.follower.result }
    {
        self.reader.closed()
    }

    /// A copy of what it reports of itself, also where it is closed. It takes time and memory linear in the manifest and in
    /// the prefixes of the batches that aren't in its tables.
    pub fn status(&self, alloc: Global) -> Result<DbStatus, NoMemory>
        ensures { IfOk result (λ status. status ≡ follower_status self.now.follower) }
    {
        self.reader.status(alloc)
    }

    /// Reads a key, as `FollowerState::get` does.
    pub fn get<M: MergeOperator>(
        &mut self,
        alloc: Global,
        key: &[u8],
        operator: Option<&M>,
    ) -> Result<Option<KeyValue>, SlateError>
        ensures read { (merge : Option Merge) → IsOperator M.may_answer (option_copied operator.entry) merge →
            ReadsUnlessClosed self.old.follower.result self.old.follower.view.manifest.tables (kept_rows (S.objects self.old.store) (Follower self.old.follower))
            (λ rows answer. answer ≡ read_at merge rows (Some (number self.old.follower)) key.now)
            (known S.objects S.faults self.old.store) result (known S.objects S.faults self.new.store) }
        ensures by_any { ReadsByAny self.old.follower.result self.old.follower.view.manifest.tables (known S.objects S.faults self.old.store) result (known S.objects S.faults self.new.store) }
        ensures kept { self.new.follower ≡ self.old.follower }
        ensures count { S.faults self.old.store ≤ S.faults self.new.store }
        ensures calls { S.calls self.new.store ≤ S.calls self.old.store + length self.old.follower.view.manifest.tables }
        ensures closed { (self.old.follower.result ≡ None → ⊥) → self.new.store ≡ self.old.store }
    {
        self.reader.get(alloc, &mut self.store, key, operator)
    }

    /// Scans a range, as `FollowerState::scan` does.
    pub fn scan<M: MergeOperator>(
        &mut self,
        alloc: Global,
        range: &ByteRange,
        order: IterationOrder,
        operator: Option<&M>,
    ) -> Result<DbIterator, SlateError>
        ensures scan { (merge : Option Merge) → IsOperator M.may_answer (option_copied operator.entry) merge →
            ReadsUnlessClosed self.old.follower.result self.old.follower.view.manifest.tables (kept_rows (S.objects self.old.store) (Follower self.old.follower))
            (Gives (BeginsScanOf self.old.follower merge range.now order))
            (known S.objects S.faults self.old.store) result (known S.objects S.faults self.new.store) }
        ensures by_any { ReadsByAny self.old.follower.result self.old.follower.view.manifest.tables (known S.objects S.faults self.old.store) result (known S.objects S.faults self.new.store) }
        ensures kept { self.new.follower ≡ self.old.follower }
        ensures count { S.faults self.old.store ≤ S.faults self.new.store }
        ensures calls { S.calls self.new.store ≤ S.calls self.old.store + length self.old.follower.view.manifest.tables }
        ensures closed { (self.old.follower.result ≡ None → ⊥) → self.new.store ≡ self.old.store }
    {
        self.reader
            .scan(alloc, &mut self.store, range, order, operator)
    }

    /// The first rows of a range, up to `limit`, as `FollowerState::scan_first` finds them.
    pub fn scan_first<M: MergeOperator>(
        &mut self,
        alloc: Global,
        range: &ByteRange,
        order: IterationOrder,
        limit: u64,
        operator: Option<&M>,
    ) -> Result<DbIterator, SlateError>
        ensures scan { (merge : Option Merge) → IsOperator M.may_answer (option_copied operator.entry) merge →
            ReadsUnlessClosed self.old.follower.result self.old.follower.view.manifest.tables (kept_rows (S.objects self.old.store) (Follower self.old.follower))
            (Gives (BeginsFrontOf self.old.follower merge range.now order limit))
            (known S.objects S.faults self.old.store) result (known S.objects S.faults self.new.store) }
        ensures by_any { ReadsByAny self.old.follower.result self.old.follower.view.manifest.tables (known S.objects S.faults self.old.store) result (known S.objects S.faults self.new.store) }
        ensures kept { self.new.follower ≡ self.old.follower }
        ensures count { S.faults self.old.store ≤ S.faults self.new.store }
        ensures calls { S.calls self.new.store ≤ S.calls self.old.store + length self.old.follower.view.manifest.tables }
        ensures closed { (self.old.follower.result ≡ None → ⊥) → self.new.store ≡ self.old.store }
    {
        self.reader
            .scan_first(alloc, &mut self.store, range, order, limit, operator)
    }

    /// Polls at this moment, in milliseconds, as `FollowerState::poll` does.
    pub fn poll<E: PrefixExtractor>(
        &mut self,
        alloc: Global,
        extractor: Option<&E>,
        moment: i64,
    ) -> Result<PollAnswer, SlateError>
        ensures errors { self.old.follower.result ≡ None → IfErr result (IsOfPoll self.old.follower.mode) }
        ensures polls { (x : Option Extractor) → IsExtractor E.may_name E.may_extract (option_copied extractor.entry) x → is_managed self.old.follower.mode ≡ false →
            Polls (by_objects (S.objects self.old.store)) x self.old.follower (known S.objects S.faults self.old.store) result self.new.follower (known S.objects S.faults self.new.store) }
        ensures managed { (x : Option Extractor) → IsExtractor E.may_name E.may_extract (option_copied extractor.entry) x → is_managed self.old.follower.mode ≡ true →
            (made : ℕ) × PollsManaged (by_objects (S.objects self.old.store)) x made moment self.old.follower (known S.objects S.faults self.old.store) result self.new.follower (known S.objects S.faults self.new.store) }
        ensures calls { is_managed self.old.follower.mode ≡ false → IfSome (S.objects self.old.store) (λ o. CallsRebuilding o self.old.follower.lag (S.calls self.old.store) (S.calls self.new.store)) }
        ensures costs { is_managed self.old.follower.mode ≡ false → IfOk result (λ _. IfSome (S.objects self.old.store) (λ o. CallsContinuing o self.old.follower (S.calls self.old.store) (S.calls self.new.store))) }
        ensures managed_calls { is_managed self.old.follower.mode ≡ true → IfSome (S.objects self.old.store) (λ o. S.calls self.new.store ≤ S.calls self.old.store + 9 * (readings self.old.follower.lag (replayed_logs o) + 3)) }
        ensures costs_managed { is_managed self.old.follower.mode ≡ true → IfOk result (λ _. IfSome self.old.follower.lease (λ lease. IfSome (S.objects self.old.store) (λ o. CallsKeeping o self.old.follower lease moment (S.calls self.old.store) (S.calls self.new.store)))) }
        ensures count { S.faults self.old.store ≤ S.faults self.new.store }
        ensures closed { IfSome self.old.follower.result (λ r. result ≡ Err (closed_error r)) }
        ensures left { is_managed self.old.follower.mode ≡ false → IfErr result (λ _. self.new.follower ≡ self.old.follower) }
        ensures untouched { self.old.follower.result ≢ None → self.new ≡ self.old }
        ensures stays { is_pinned self.old.follower.mode ≡ true → self.new ≡ self.old }
        ensures faults { self.old.follower.result ≡ None → FaultsRise (S.faults self.old.store) (S.faults self.new.store) result }
        ensures truncates { IfOk result (λ a. IfSome (S.objects self.old.store) (λ o. Truncates o self.new.follower a)) }
        ensures left_managed { is_managed self.old.follower.mode ≡ true → self.old.follower.result ≡ None →
            IfErr result (λ error. LeftBy moment self.old.follower (S.objects self.old.store) error self.new.follower (S.objects self.new.store)) }
        ensures handed { (x : Option Extractor) → IsExtractor E.may_name E.may_extract (option_copied extractor.entry) x → is_managed self.old.follower.mode ≡ false → is_pinned self.old.follower.mode ≡ false → (o : Objects) (line : Line) →
            S.objects self.old.store ≡ Some o → IsContent (S.objects self.old.store) line → kept_seen self.old.follower o line → kept_seen self.new.follower o line }
        ensures handed_managed { (x : Option Extractor) → IsExtractor E.may_name E.may_extract (option_copied extractor.entry) x → is_managed self.old.follower.mode ≡ true → (o o' : Objects) (line : Line) →
            S.objects self.old.store ≡ Some o → S.objects self.new.store ≡ Some o' → IsContent (S.objects self.old.store) line → kept_seen self.old.follower o line → kept_seen self.new.follower o' line }
        ensures segmented { (x : Option Extractor) → IsExtractor E.may_name E.may_extract (option_copied extractor.entry) x → self.old.follower.result ≡ None → is_managed self.old.follower.mode ≡ false →
            result ≡ Err SlateError.InvalidDBState → IsSome x }
    {
        self.reader.poll(alloc, &mut self.store, extractor, moment)
    }

    /// Closes the reader, as `FollowerState::close` does.
    pub fn close(&mut self, alloc: Global) -> Ended
        ensures kind { self.old.follower.result ≡ None → IfSome result.fault (IsOfPoll self.old.follower.mode) }
        ensures closed { self.new.follower ≡ closed_follower self.old.follower }
        ensures tasks { result.tasks ≡ self.old.follower.tasks }
        ensures answer { is_managed self.old.follower.mode ≡ false → result ≡ ended self.old.follower.tasks (recorded_fault self.old.follower.result) }
        ensures store { is_managed self.old.follower.mode ≡ false → self.new.store ≡ self.old.store }
        ensures managed { is_managed self.old.follower.mode ≡ true → (made : ℕ) × ClosesManaged (by_objects (S.objects self.old.store)) made self.old.follower (known S.objects S.faults self.old.store) result self.new.follower (known S.objects S.faults self.new.store) }
        ensures untouched { self.old.follower.result ≢ None → self.new.store ≡ self.old.store }
        ensures count { S.faults self.old.store ≤ S.faults self.new.store }
        ensures calls { S.calls self.new.store ≤ S.calls self.old.store + 16 }
    {
        self.reader.close(alloc, &mut self.store)
    }
}
