// Polling a reader that keeps a checkpoint of its own.
ghost use Rattle.std.specs.Prelude.{◌≡◌, ◌+◌, ◌-◌, ◌*◌, ◌≤◌, ℕ, Option, None, Some, Ok, Err, IfOk, IfErr, IfSome, IsSome, false, true};
ghost use Rattle.std.specs.Option.{option_copied};
ghost use Rattle.slate_store.specs.Calls.{WhereModelled};
ghost use Rattle.slate_store.specs.declared.reader_modes.DbReaderMode.TheVariants.{ManagedCheckpoint};
ghost use Rattle.slate_store.specs.Checkpoints.{found, to_refresh, to_write};
ghost use Rattle.slate_store.specs.Refusals.{checkpoint_changes, planned};
ghost use Rattle.slate_model.specs.Follower.{HasSegments, is_pinned, number};
ghost use Rattle.slate_model.specs.Known.{CountsFaults, known};
ghost use Rattle.slate_model.specs.Lease.{differs, is_due, leased, to_keep};
ghost use Rattle.slate_model.specs.Managed.{IsOpenAt, Keeps, KeepsOrNot, PollsLeased, PutsPlanned, PutsRenewal, poll_result, unrefused};
ghost use Rattle.slate_model.specs.Segments.{Extractor, IsExtractor};
ghost use Rattle.slate_model.specs.Open.{replayed_logs};
ghost use Rattle.slate_model.specs.Stores.{Stands, by_objects};
ghost use Rattle.slate_follow.specs.Keeping.{CallsKeeping, CallsRound, HasTaken, IsOfPolling, KeepLacks, LeftBy, MayLack, MovesBy, PutsBy, ReplaceLacks, Replaces, TakesLatest, answered, kept_answer, put_tried};
ghost use Rattle.slate_follow.specs.Answering.{IsOfPoll};
ghost use Rattle.slate_follow.specs.Lagging.{readings};
ghost use Rattle.slate_follow.specs.Rebuilding.{TakesUnder, TakingLacks, Truncates, new_logs};
ghost use Rattle.slate_follow.specs.Takings.{GivesTaking, HasOwn};

use crate::leases::{latest_of, put_next, with_new_lease, with_renewed_lease};
use crate::polls::poll_error;
use crate::takings::Taken;
use crate::{FollowerState, PollAnswer};
use slate_errors::{CloseFault, SlateError};
use slate_model::{Lease, recorded};
use slate_store::{COMMIT_TRIES, Store, VersionedManifest, find_checkpoint};
use slate_types::PrefixExtractor;
use std::alloc::Global;

/// How a round of a poll kept the lease.
#[derive(Clone, Copy)]
pub(crate) struct Kept {
    answer: PollAnswer,
    /// Whether the reader goes by another manifest since its view differed from the latest one.
    moved: bool,
}

impl FollowerState {
    /// Polls a reader that keeps a checkpoint under this lease. An error but want of memory closes it.
    pub(crate) fn poll_leased<S: Store, E: PrefixExtractor>(
        &mut self,
        alloc: Global,
        store: &mut S,
        lease: &Lease,
        extractor: Option<&E>,
        moment: i64,
    ) -> Result<PollAnswer, SlateError>
        requires open_ { self.old.result ≡ None }
        requires leased { self.old.lease ≡ Some lease.now }
        ensures faults { CountsFaults (S.faults store.old) (S.faults store.new) result }
        ensures keeps { (x : Option Extractor) → IsExtractor E.may_name E.may_extract (option_copied extractor.entry) x → (made : ℕ) × PollsLeased (by_objects (S.objects store.old)) x made lease.now moment self.old
            (known S.objects S.faults store.old) result self.new (known S.objects S.faults store.new) }
        ensures left { IfErr result (λ error. LeftBy moment self.old (S.objects store.old) error self.new (S.objects store.new)) }
        ensures truncates { IfOk result (λ answer. IfSome (S.objects store.old) (λ o. Truncates o self.new answer)) }
        ensures kind { IfErr result (IsOfPoll ManagedCheckpoint) }
        ensures costs { IfOk result (λ _. IfSome (S.objects store.old) (λ o. CallsKeeping o self.old lease.now moment (S.calls store.old) (S.calls store.new))) }
        ensures calls { IfSome (S.objects store.old) (λ o. S.calls store.new ≤ S.calls store.old + 9 * (readings self.old.lag (replayed_logs o) + 3)) }
    {
        let kept = match self.keep_lease(alloc, store, lease, extractor, moment) {
            Ok(kept) => kept,
            Err(error) => {
                self.close_by(&error);
                return Err(error);
            }
        };
        if !kept.moved {
            return Ok(kept.answer);
        }
        match self.renew_taken(alloc, store, moment) {
            Ok(()) => Ok(kept.answer),
            Err(error) => {
                self.close_by(&error);
                Err(error)
            }
        }
    }

    /// Renews a lease that was taken in place of another, where it is due at the same moment: it ends at the greatest one then,
    /// and does so still. Where a manifest is stored already under the id of the one that is put, that is left to the next poll.
    fn renew_taken<S: Store>(
        &self,
        alloc: Global,
        store: &mut S,
        moment: i64,
    ) -> Result<(), SlateError>
        requires there { HasTaken self.now }
        ensures faults { CountsFaults (S.faults store.old) (S.faults store.new) result }
        ensures puts { IfSome self.now.lease (λ lease. is_due moment lease ≡ true →
            WhereModelled (λ o o'. (made : ℕ) × PutsRenewal Stands (to_refresh lease.id lease.lifetime moment self.now.view) o result made o') (S.objects store.old) (S.objects store.new)) }
        ensures undue { IfSome self.now.lease (λ lease. is_due moment lease ≡ false → (result ≡ Ok tt) × (store.new ≡ store.old)) }
        ensures none { self.now.lease ≡ None → (result ≡ Ok tt) × (store.new ≡ store.old) }
        ensures kind { IfErr result (IsOfPoll ManagedCheckpoint) }
        ensures calls { S.calls store.new ≤ S.calls store.old + 1 }
    {
        let Some(taken) = self.lease else {
            return Ok(());
        };
        if !taken.is_due(moment) {
            return Ok(());
        }
        let view = self.status.manifest();
        let (next, _same) = with_renewed_lease(alloc, view, &taken, moment)?;
        put_next(alloc, store, &next)?;
        Ok(())
    }

    /// Records an error of a poll, but no want of memory.
    pub(crate) fn close_by(&mut self, error: &SlateError)
        requires { self.old.result ≡ None }
        ensures { self.new ≡ record self.old { result = poll_result error.now } }
    {
        if let Some(result) = poll_result(error) {
            self.status.report_closed(result);
        }
    }

    /// Reads the latest manifest, takes what is new, and keeps the lease, in as many tries as there are.
    fn keep_lease<S: Store, E: PrefixExtractor>(
        &mut self,
        alloc: Global,
        store: &mut S,
        lease: &Lease,
        extractor: Option<&E>,
        moment: i64,
    ) -> Result<Kept, SlateError>
        requires open_ { self.old.result ≡ None }
        requires leased { self.old.lease ≡ Some lease.now }
        ensures faults { CountsFaults (S.faults store.old) (S.faults store.new) result }
        ensures puts { WhereModelled (λ o o'. (made : ℕ) × PutsPlanned Stands MayLack (to_keep self.old.view lease.now moment) o (kept_answer result) made o'
            × IfErr result (λ _. KeepsOrNot (to_keep self.old.view lease.now moment) made self.old o self.new)) (S.objects store.old) (S.objects store.new) }
        ensures answers { IfOk result (λ kept. IsOpenAt self.old.skips self.old.lag self.new kept.answer) }
        ensures keeps { IfOk result (λ kept. WhereModelled (λ o o'. Keeps (by_objects (S.objects store.old)) lease.now moment self.old o self.new kept.answer o') (S.objects store.old) (S.objects store.new)) }
        ensures failed { IfErr result (λ _. self.new ≡ record self.old { lease = self.new.lease }) }
        ensures truncates { IfOk result (λ kept. IfSome (S.objects store.old) (λ o. Truncates o self.new kept.answer)) }
        ensures kind { IfErr result (IsOfPoll ManagedCheckpoint) }
        ensures costs { IfOk result (λ _. IfSome (S.objects store.old) (λ o. CallsRound o self.old lease.now moment (S.calls store.old) (S.calls store.new))) }
        ensures calls { IfSome (S.objects store.old) (λ o. S.calls store.new ≤ S.calls store.old + 8 * (readings self.old.lag (replayed_logs o) + 3)) }
        ensures moved { IfOk result (λ kept. IfSome (S.objects store.old) (MovesBy kept.moved self.old)) }
        ensures there { IfOk result (λ kept. kept.moved ≡ true → HasTaken self.new) }
        ensures segments { (x : Option Extractor) → IsExtractor E.may_name E.may_extract (option_copied extractor.entry) x → HasSegments x self.old → HasSegments x self.new }
        ensures lacks { (x : Option Extractor) → IsExtractor E.may_name E.may_extract (option_copied extractor.entry) x → result ≡ Err SlateError.InvalidDBState → IfSome (S.objects store.old) (λ o. KeepLacks x lease.now moment self.old o) }
    {
        for earlier in 0..COMMIT_TRIES {
            if let Some(kept) = self.try_to_keep(alloc, store, lease, extractor, moment)? {
                return Ok(kept);
            }
        }
        Err(SlateError::TransactionalObjectTimeout {
            tries: COMMIT_TRIES,
        })
    }

    /// One try. It answers None where a manifest is stored already under the id of the one that it puts.
    fn try_to_keep<S: Store, E: PrefixExtractor>(
        &mut self,
        alloc: Global,
        store: &mut S,
        lease: &Lease,
        extractor: Option<&E>,
        moment: i64,
    ) -> Result<Option<Kept>, SlateError>
        requires open_ { self.old.result ≡ None }
        requires leased { self.old.lease ≡ Some lease.now }
        ensures faults { CountsFaults (S.faults store.old) (S.faults store.new) result }
        ensures puts { WhereModelled (λ o o'. (made : ℕ) × PutsPlanned Stands MayLack (to_keep self.old.view lease.now moment) o (answered result) made o'
            × IfErr (answered result) (λ _. KeepsOrNot (to_keep self.old.view lease.now moment) made self.old o self.new)) (S.objects store.old) (S.objects store.new) }
        ensures answers { IfOk (answered result) (λ answer. IsOpenAt self.old.skips self.old.lag self.new answer) }
        ensures keeps { IfOk (answered result) (λ answer. WhereModelled (λ o o'. Keeps (by_objects (S.objects store.old)) lease.now moment self.old o self.new answer o') (S.objects store.old) (S.objects store.new)) }
        ensures failed { IfErr (answered result) (λ _. self.new ≡ record self.old { lease = self.new.lease }) }
        ensures again { result ≡ Ok None → (self.new ≡ self.old) × (S.objects store.new ≡ S.objects store.old) }
        ensures truncates { IfOk (answered result) (λ answer. IfSome (S.objects store.old) (λ o. Truncates o self.new answer)) }
        ensures kind { IfErr result (IsOfPoll ManagedCheckpoint) }
        ensures free { IfOk (answered result) (λ _. IfSome (S.objects store.old) (λ o. Stands (checkpoint_changes (to_keep self.old.view lease.now moment) o) o → ⊥)) }
        ensures costs { IfOk (answered result) (λ _. IfSome (S.objects store.old) (λ o. CallsRound o self.old lease.now moment (S.calls store.old) (S.calls store.new))) }
        ensures calls { IfSome (S.objects store.old) (λ o. S.calls store.new ≤ S.calls store.old + (readings self.old.lag (replayed_logs o) + 3)) }
        ensures moved { IfOk result (λ found. IfSome found (λ kept. IfSome (S.objects store.old) (MovesBy kept.moved self.old))) }
        ensures there { IfOk result (λ found. IfSome found (λ kept. kept.moved ≡ true → HasTaken self.new)) }
        ensures segments { (x : Option Extractor) → IsExtractor E.may_name E.may_extract (option_copied extractor.entry) x → HasSegments x self.old → HasSegments x self.new }
        ensures lacks { (x : Option Extractor) → IsExtractor E.may_name E.may_extract (option_copied extractor.entry) x → result ≡ Err SlateError.InvalidDBState → IfSome (S.objects store.old) (λ o. KeepLacks x lease.now moment self.old o) }
    {
        let latest = latest_of(alloc, store)?;
        if differs(self.status.manifest(), &latest) {
            return self.replace_lease(alloc, store, lease, &latest, extractor, moment);
        }
        let taken = self.taking_new(alloc, store, &latest, extractor)?;
        if !lease.is_due(moment) {
            let answer = self.install(None, taken);
            return Ok(Some(Kept {
                answer,
                moved: false,
            }));
        }
        if find_checkpoint(&latest, lease.id).is_none() {
            return self.replace_missing(alloc, store, lease, &latest, taken, moment);
        }
        let renewed = self.renew_lease(alloc, store, lease, &latest, moment)?;
        if !renewed {
            return Ok(None);
        }
        let answer = self.install(None, taken);
        Ok(Some(Kept {
            answer,
            moved: false,
        }))
    }

    /// What it takes under the latest manifest. A key without a segment is refused as a poll does.
    fn taking_new<S: Store, E: PrefixExtractor>(
        &self,
        alloc: Global,
        store: &mut S,
        latest: &VersionedManifest,
        extractor: Option<&E>,
    ) -> Result<Taken, SlateError>
        requires open_ { self.now.result ≡ None }
        requires free { is_pinned self.now.mode ≡ false }
        ensures faults { CountsFaults (S.faults store.old) (S.faults store.new) result }
        ensures kept { S.objects store.new ≡ S.objects store.old }
        ensures floor { IfOk result (λ taken. taken.line.floor ≡ latest.now.manifest.last_l0_seq) }
        ensures takes { IfOk result (λ taken. IfSome (S.objects store.old) (λ o. GivesTaking (TakesUnder o latest.now self.now) latest.now self.now taken)) }
        ensures segments { (x : Option Extractor) → IsExtractor E.may_name E.may_extract (option_copied extractor.entry) x → HasSegments x self.now → IfOk result (HasOwn x) }
        ensures lacks { (x : Option Extractor) → IsExtractor E.may_name E.may_extract (option_copied extractor.entry) x → result ≡ Err SlateError.InvalidDBState → IfSome (S.objects store.old) (λ o. TakingLacks x o latest.now self.now) }
        ensures refusals { IfErr result IsOfPolling }
        ensures calls { IfSome (S.objects store.old) (λ o. S.calls store.new ≤ S.calls store.old + (new_logs self.now latest.now o + 1)) }
    {
        match self.taking_under(alloc, store, latest, extractor) {
            Ok(taken) => Ok(taken),
            Err(error) => Err(poll_error(error)),
        }
    }

    /// Puts a manifest after the latest one with a new checkpoint in place of its own, and goes by that manifest. It answers
    /// None where one is stored already under its id.
    fn replace_lease<S: Store, E: PrefixExtractor>(
        &mut self,
        alloc: Global,
        store: &mut S,
        lease: &Lease,
        latest: &VersionedManifest,
        extractor: Option<&E>,
        moment: i64,
    ) -> Result<Option<Kept>, SlateError>
        requires open_ { self.old.result ≡ None }
        requires leased { self.old.lease ≡ Some lease.now }
        ensures faults { CountsFaults (S.faults store.old) (S.faults store.new) result }
        ensures puts { WhereModelled (λ o o'. PutsBy MayLack (leased lease.now.lifetime (to_write (Some lease.now.id) (Some lease.now.lifetime) moment latest.now)) self.old.lease o (answered result) self.new.lease o') (S.objects store.old) (S.objects store.new) }
        ensures taken { IfOk (answered result) (λ answer. IfSome (S.objects store.new) (λ o'. TakesLatest (leased lease.now.lifetime (to_write (Some lease.now.id) (Some lease.now.lifetime) moment latest.now)) self.old o' self.new answer)) }
        ensures answers { IfOk (answered result) (λ answer. IsOpenAt self.old.skips self.old.lag self.new answer) }
        ensures failed { IfErr (answered result) (λ _. self.new ≡ record self.old { lease = self.new.lease }) }
        ensures again { result ≡ Ok None → (self.new ≡ self.old) × (S.objects store.new ≡ S.objects store.old) }
        ensures truncates { IfOk (answered result) (λ answer. IfSome (S.objects store.old) (λ o. Truncates o self.new answer)) }
        ensures kind { IfErr result (IsOfPoll ManagedCheckpoint) }
        ensures free { IfOk (answered result) (λ _. IfSome (S.objects store.old) (λ o. Stands (planned (leased lease.now.lifetime (to_write (Some lease.now.id) (Some lease.now.lifetime) moment latest.now))) o → ⊥)) }
        ensures calls { IfSome (S.objects store.old) (λ o. S.calls store.new ≤ S.calls store.old + (new_logs self.old latest.now o + 2)) }
        ensures calls_again { result ≡ Ok None → S.calls store.new ≤ S.calls store.old + 1 }
        ensures moved { IfOk result (λ found. IfSome found (λ kept. kept.moved ≡ true)) }
        ensures there { IfOk result (λ found. IfSome found (λ _. HasTaken self.new)) }
        ensures segments { (x : Option Extractor) → IsExtractor E.may_name E.may_extract (option_copied extractor.entry) x → HasSegments x self.old → HasSegments x self.new }
        ensures lacks { (x : Option Extractor) → IsExtractor E.may_name E.may_extract (option_copied extractor.entry) x → result ≡ Err SlateError.InvalidDBState →
            IfSome (S.objects store.old) (λ o. ReplaceLacks x (leased lease.now.lifetime (to_write (Some lease.now.id) (Some lease.now.lifetime) moment latest.now)) self.old o) }
    {
        let replaced = Some(lease.id);
        let (next, taken) = with_new_lease(alloc, latest, replaced, lease.lifetime, moment)?;
        let is_put = put_next(alloc, store, &next)?;
        if !is_put {
            return Ok(None);
        }
        self.lease = Some(taken);
        match self.follow(alloc, store, next, extractor) {
            Ok(answer) => Ok(Some(Kept {
                answer,
                moved: true,
            })),
            Err(error) => Err(poll_error(error)),
        }
    }

    /// Puts a manifest after the latest one with a new checkpoint in place of one that isn't there, and goes by that manifest with what the
    /// poll found before. It answers None where one is stored already under its id.
    fn replace_missing<S: Store>(
        &mut self,
        alloc: Global,
        store: &mut S,
        lease: &Lease,
        latest: &VersionedManifest,
        taken: Taken,
        moment: i64,
    ) -> Result<Option<Kept>, SlateError>
        requires leased { self.old.lease ≡ Some lease.now }
        requires floor { taken.line.floor ≡ latest.now.manifest.last_l0_seq }
        ensures faults { CountsFaults (S.faults store.old) (S.faults store.new) result }
        ensures puts { WhereModelled (λ o o'. PutsBy MayLack (leased lease.now.lifetime (to_write (Some lease.now.id) (Some lease.now.lifetime) moment latest.now)) self.old.lease o (answered result) self.new.lease o') (S.objects store.old) (S.objects store.new) }
        ensures becomes { IfOk (answered result) (λ answer. Replaces (leased lease.now.lifetime (to_write (Some lease.now.id) (Some lease.now.lifetime) moment latest.now)) taken self.old self.new answer) }
        ensures failed { IfErr (answered result) (λ _. self.new ≡ record self.old { lease = self.new.lease }) }
        ensures again { result ≡ Ok None → (self.new ≡ self.old) × (S.objects store.new ≡ S.objects store.old) }
        ensures kind { IfErr result (IsOfPoll ManagedCheckpoint) }
        ensures free { IfOk (answered result) (λ _. IfSome (S.objects store.old) (λ o. Stands (planned (leased lease.now.lifetime (to_write (Some lease.now.id) (Some lease.now.lifetime) moment latest.now))) o → ⊥)) }
        ensures calls { S.calls store.new ≤ S.calls store.old + 1 }
        ensures moved { IfOk result (λ found. IfSome found (λ kept. kept.moved ≡ false)) }
        ensures lacks { (x : Option Extractor) → result ≡ Err SlateError.InvalidDBState →
            IfSome (S.objects store.old) (λ o. ReplaceLacks x (leased lease.now.lifetime (to_write (Some lease.now.id) (Some lease.now.lifetime) moment latest.now)) self.old o) }
    {
        let replaced = Some(lease.id);
        let (next, renewed) = with_new_lease(alloc, latest, replaced, lease.lifetime, moment)?;
        let is_put = put_next(alloc, store, &next)?;
        if !is_put {
            return Ok(None);
        }
        self.lease = Some(renewed);
        let answer = self.install(Some(next), taken);
        Ok(Some(Kept {
            answer,
            moved: false,
        }))
    }

    /// Puts a manifest after the latest one where the lease of its checkpoint ends anew. It answers false where one is
    /// stored already under its id.
    fn renew_lease<S: Store>(
        &mut self,
        alloc: Global,
        store: &mut S,
        lease: &Lease,
        latest: &VersionedManifest,
        moment: i64,
    ) -> Result<bool, SlateError>
        requires leased { self.old.lease ≡ Some lease.now }
        requires there { IsSome (found lease.now.id latest.now) }
        ensures faults { CountsFaults (S.faults store.old) (S.faults store.new) result }
        ensures puts { WhereModelled (λ o o'. PutsBy unrefused (leased lease.now.lifetime (to_refresh lease.now.id lease.now.lifetime moment latest.now)) self.old.lease o (put_tried result) self.new.lease o') (S.objects store.old) (S.objects store.new) }
        ensures same { self.new ≡ record self.old { lease = self.new.lease } }
        ensures again { result ≡ Ok false → (self.new ≡ self.old) × (S.objects store.new ≡ S.objects store.old) }
        ensures kind { IfErr result (IsOfPoll ManagedCheckpoint) }
        ensures free { result ≡ Ok true → IfSome (S.objects store.old) (λ o. Stands (planned (leased lease.now.lifetime (to_refresh lease.now.id lease.now.lifetime moment latest.now))) o → ⊥) }
        ensures calls { S.calls store.new ≤ S.calls store.old + 1 }
    {
        let (next, taken) = with_renewed_lease(alloc, latest, lease, moment)?;
        let is_put = put_next(alloc, store, &next)?;
        if !is_put {
            return Ok(false);
        }
        self.lease = Some(taken);
        Ok(true)
    }
}

/// Whether a manifest has other tables than a view, another last number in them, or other segments.
pub(crate) fn differs(view: &VersionedManifest, latest: &VersionedManifest) -> bool
    ensures { result ≡ differs view.now latest.now }
{
    let old = &view.manifest;
    let new = &latest.manifest;
    !(old.tables == new.tables
        && old.last_l0_seq == new.last_l0_seq
        && old.segments == new.segments)
}

/// What an error of a poll records: itself, but no want of memory.
fn poll_result(error: &SlateError) -> Option<Result<(), CloseFault>>
    ensures { result ≡ poll_result error.now }
{
    match error {
        SlateError::InvalidDBState => Some(Err(CloseFault::InvalidDBState)),
        SlateError::TransactionalObjectTimeout { tries } => {
            Some(Err(CloseFault::TransactionalObjectTimeout { tries: *tries }))
        }
        _ => recorded(error),
    }
}
