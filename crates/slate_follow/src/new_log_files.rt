// Taking what log files have that a reader hasn't replayed yet.
ghost use Rattle.std.specs.Prelude.{◌≡◌, ◌+◌, ◌-◌, ◌≤◌, ℕ, List, Option, None, Err, OnErr, false, true, max, IfOk, IfErr, IfSome, IsSome};
ghost use Rattle.std.specs.Option.{option_copied};
ghost use Rattle.slate_model.specs.Follow.{AnswersAt};
ghost use Rattle.slate_model.specs.Followed.{read_logs};
ghost use Rattle.slate_model.specs.Follower.{Follower, HasSegments, follower_tasks, is_pinned, number};
ghost use Rattle.slate_model.specs.Known.{CountsFaults};
ghost use Rattle.slate_model.specs.Segments.{Extractor, IsExtractor};
ghost use Rattle.slate_follow.specs.Rebuilding.{BuildLacks, Builds, GoesOn, GoingLacks, IsOfRebuilding, IsOfReplay, Reaches, TakesUnder, TakingLacks, goes_on, last_above, new_logs, unleased};
ghost use Rattle.slate_follow.specs.Lagging.{IsLastRead, IsLastTaken, readings};
ghost use Rattle.slate_follow.specs.Takings.{GivesTaking, HasOwn};

use crate::rebuilds::{last_above, last_taken, reached};
use crate::takings::{Taken, taking_anew};
use crate::{FollowerState, PollAnswer};
use slate_errors::SlateError;
use slate_reads::IndexedTable;
use slate_replay::{recover, replay};
use slate_store::{Store, VersionedManifest};
use slate_types::PrefixExtractor;
use std::alloc::Global;

impl FollowerState {
    /// Whether it goes on by a manifest: it reads log files, and its batches lead up to the tables.
    fn goes_on(&self, view: &VersionedManifest) -> bool
        ensures goes { result ≡ goes_on self.now view.now }
        ensures reads { result ≡ true → self.now.skips ≡ false }
        ensures reaches { result ≡ true → Reaches self.now view.now }
        ensures running { self.now.result ≡ None → self.now.tasks ≡ follower_tasks self.now.mode }
    {
        let floor = self.status.manifest().manifest.last_l0_seq;
        let tabled = view.manifest.last_l0_seq;
        !self.following.skips && floor <= tabled && tabled <= self.number()
    }

    /// Goes by a manifest, and takes what log files have: what comes after its batches, where these lead up to the tables of the
    /// manifest, and else all that isn't in the tables. Where it fails, it is as before.
    pub(crate) fn follow<S: Store, E: PrefixExtractor>(
        &mut self,
        alloc: Global,
        store: &mut S,
        view: VersionedManifest,
        extractor: Option<&E>,
    ) -> Result<PollAnswer, SlateError>
        requires open_ { self.old.result ≡ None }
        requires free { is_pinned self.old.mode ≡ false }
        ensures faults { CountsFaults (S.faults store.old) (S.faults store.new) result }
        ensures kept { S.objects store.new ≡ S.objects store.old }
        ensures taken { IfOk result (λ answer. IfSome (S.objects store.old) (λ o. TakesUnder o view self.old (unleased self.new) answer)) }
        ensures asked { IfOk result (λ answer. (self.new.mode ≡ self.old.mode) × (self.new.skips ≡ self.old.skips) × (self.new.lag ≡ self.old.lag) × (self.new.lease ≡ self.old.lease)
            × (self.new.result ≡ None) × (self.new.view ≡ view) × AnswersAt (number self.new) answer) }
        ensures failed { OnErr result (self.new ≡ self.old) }
        ensures segments { (x : Option Extractor) → IsExtractor E.may_name E.may_extract (option_copied extractor.entry) x → HasSegments x self.old → HasSegments x self.new }
        ensures lacks { (x : Option Extractor) (key : List ℕ) → IsExtractor E.may_name E.may_extract (option_copied extractor.entry) x →
            result ≡ Err (SlateError.EmptySegmentPrefix key) → IfSome (S.objects store.old) (λ o. TakingLacks x o view self.old) }
        ensures named { (x : Option Extractor) (key : List ℕ) → IsExtractor E.may_name E.may_extract (option_copied extractor.entry) x → result ≡ Err (SlateError.EmptySegmentPrefix key) → IsSome x }
        ensures refusals { IfErr result IsOfRebuilding }
        ensures calls { IfSome (S.objects store.old) (λ o. S.calls store.new ≤ S.calls store.old + (new_logs self.old view o + 1)) }
    {
        let taken = self.taking_under(alloc, store, &view, extractor)?;
        Ok(self.install(Some(view), taken))
    }

    /// What it takes that goes by a manifest. It isn't changed.
    pub(crate) fn taking_under<S: Store, E: PrefixExtractor>(
        &self,
        alloc: Global,
        store: &mut S,
        view: &VersionedManifest,
        extractor: Option<&E>,
    ) -> Result<Taken, SlateError>
        requires open_ { self.now.result ≡ None }
        requires free { is_pinned self.now.mode ≡ false }
        ensures faults { CountsFaults (S.faults store.old) (S.faults store.new) result }
        ensures kept { S.objects store.new ≡ S.objects store.old }
        ensures floor { IfOk result (λ taken. taken.line.floor ≡ view.now.manifest.last_l0_seq) }
        ensures takes { IfOk result (λ taken. IfSome (S.objects store.old) (λ o. GivesTaking (TakesUnder o view.now self.now) view.now self.now taken)) }
        ensures segments { (x : Option Extractor) → IsExtractor E.may_name E.may_extract (option_copied extractor.entry) x → HasSegments x self.now → IfOk result (HasOwn x) }
        ensures lacks { (x : Option Extractor) (key : List ℕ) → IsExtractor E.may_name E.may_extract (option_copied extractor.entry) x →
            result ≡ Err (SlateError.EmptySegmentPrefix key) → IfSome (S.objects store.old) (λ o. TakingLacks x o view.now self.now) }
        ensures named { (x : Option Extractor) (key : List ℕ) → IsExtractor E.may_name E.may_extract (option_copied extractor.entry) x → result ≡ Err (SlateError.EmptySegmentPrefix key) → IsSome x }
        ensures refusals { IfErr result IsOfRebuilding }
        ensures calls { IfSome (S.objects store.old) (λ o. S.calls store.new ≤ S.calls store.old + (new_logs self.now view.now o + 1)) }
    {
        if self.goes_on(view) {
            let taken = self.taking_more(alloc, store, view, extractor)?;
            return Ok(taken);
        }
        let last = self.last_read(alloc, store, view)?;
        let anew = taking_all(alloc, store, view, last, extractor)?;
        Ok(anew)
    }

    /// The last log file that it replays where it begins by the tables of a manifest.
    fn last_read<S: Store>(
        &self,
        alloc: Global,
        store: &mut S,
        view: &VersionedManifest,
    ) -> Result<u64, SlateError>
        requires free { is_pinned self.now.mode ≡ false }
        ensures faults { CountsFaults (S.faults store.old) (S.faults store.new) result }
        ensures kept { S.objects store.new ≡ S.objects store.old }
        ensures read { IfOk result (λ last. IfSome (S.objects store.old) (λ o. IsLastRead self.now view.now o last)) }
        ensures refusals { IfErr result IsOfReplay }
        ensures calls { IfSome (S.objects store.old) (λ o. IfOk result (λ last. S.calls store.new + (last - view.now.manifest.replay_after_wal_id) ≤ S.calls store.old + (readings self.now.lag (read_logs self.now.mode self.now.skips o (Some view.now)) + 1))
            × (S.calls store.new ≤ S.calls store.old + (readings self.now.lag (read_logs self.now.mode self.now.skips o (Some view.now)) + 1))) }
    {
        let from = view.manifest.replay_after_wal_id;
        if self.following.skips {
            return Ok(from);
        }
        let tabled = view.manifest.last_l0_seq;
        if tabled <= self.number() {
            return last_above(alloc, store, from);
        }
        last_taken(alloc, store, self.following.lag, tabled, from)
    }

    /// What it takes that goes on by a manifest: what log files have that it hasn't replayed yet.
    fn taking_more<S: Store, E: PrefixExtractor>(
        &self,
        alloc: Global,
        store: &mut S,
        view: &VersionedManifest,
        extractor: Option<&E>,
    ) -> Result<Taken, SlateError>
        requires open_ { self.now.result ≡ None }
        requires reaches { Reaches self.now view.now }
        ensures faults { CountsFaults (S.faults store.old) (S.faults store.new) result }
        ensures calls { IfSome (S.objects store.old) (λ o. S.calls store.new ≤ S.calls store.old + (readings self.now.lag (last_above self.now view.now o - max self.now.mark view.now.manifest.replay_after_wal_id) + 1)) }
        ensures kept { S.objects store.new ≡ S.objects store.old }
        ensures floor { IfOk result (λ taken. taken.line.floor ≡ view.now.manifest.last_l0_seq) }
        ensures gone { IfOk result (λ taken. IfSome (S.objects store.old) (λ o. (last : ℕ) × IsLastTaken self.now.lag (number self.now) (max self.now.mark view.now.manifest.replay_after_wal_id) o last × GivesTaking (GoesOn o view.now last self.now) view.now self.now taken)) }
        ensures segments { (x : Option Extractor) → IsExtractor E.may_name E.may_extract (option_copied extractor.entry) x → HasSegments x self.now → IfOk result (HasOwn x) }
        ensures lacks { (x : Option Extractor) (key : List ℕ) → IsExtractor E.may_name E.may_extract (option_copied extractor.entry) x →
            result ≡ Err (SlateError.EmptySegmentPrefix key) → IfSome (S.objects store.old) (λ o. (last : ℕ) × IsLastTaken self.now.lag (number self.now) (max self.now.mark view.now.manifest.replay_after_wal_id) o last × ((first : List ℕ) × GoingLacks x o view.now last self.now first)) }
        ensures named { (x : Option Extractor) (key : List ℕ) → IsExtractor E.may_name E.may_extract (option_copied extractor.entry) x → result ≡ Err (SlateError.EmptySegmentPrefix key) → IsSome x }
        ensures refusals { IfErr result IsOfRebuilding }
    {
        let from = self.mark.max(view.manifest.replay_after_wal_id);
        let tabled = view.manifest.last_l0_seq;
        let number = self.number();
        let last = last_taken(alloc, store, self.following.lag, number, from)?;
        let mut fresh = IndexedTable::new(alloc);
        let replayed = replay(alloc, store, &mut fresh, number, from, last)?;
        let mark = reached(replayed, last);
        let taken = self.taking_after(alloc, tabled, fresh, mark, replayed, extractor)?;
        Ok(taken)
    }
}

/// What a reader takes that begins by the tables of a manifest: what log files up to the last one have above these.
fn taking_all<S: Store, E: PrefixExtractor>(
    alloc: Global,
    store: &mut S,
    view: &VersionedManifest,
    last: u64,
    extractor: Option<&E>,
) -> Result<Taken, SlateError>
    ensures faults { CountsFaults (S.faults store.old) (S.faults store.new) result }
    ensures calls { S.calls store.new ≤ S.calls store.old + (last - view.now.manifest.replay_after_wal_id) }
    ensures kept { S.objects store.new ≡ S.objects store.old }
    ensures floor { IfOk result (λ taken. taken.line.floor ≡ view.now.manifest.last_l0_seq) }
    ensures builds { (reader : Follower) → reader.result ≡ None → reader.tasks ≡ follower_tasks reader.mode →
        IfOk result (λ taken. IfSome (S.objects store.old) (λ o. GivesTaking (Builds o reader.mode reader.skips reader.lag view.now last) view.now reader taken)) }
    ensures segments { (x : Option Extractor) → IsExtractor E.may_name E.may_extract (option_copied extractor.entry) x → IfOk result (HasOwn x) }
    ensures lacks { (x : Option Extractor) (key : List ℕ) → IsExtractor E.may_name E.may_extract (option_copied extractor.entry) x →
        result ≡ Err (SlateError.EmptySegmentPrefix key) → IfSome (S.objects store.old) (λ o. BuildLacks x o view.now last key) }
    ensures named { (x : Option Extractor) (key : List ℕ) → IsExtractor E.may_name E.may_extract (option_copied extractor.entry) x → result ≡ Err (SlateError.EmptySegmentPrefix key) → IsSome x }
    ensures refusals { IfErr result IsOfRebuilding }
{
    let (memory, replayed) = recover(alloc, store, &view.manifest, last)?;
    let tabled = view.manifest.last_l0_seq;
    let mark = reached(replayed, last);
    let taken = taking_anew(alloc, tabled, memory, mark, replayed, extractor)?;
    Ok(taken)
}
