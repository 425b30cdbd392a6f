// The lease of a reader that keeps a checkpoint of its own: what options pass, and the manifests that take it and renew it.
ghost use Rattle.std.specs.Prelude.{◌≡◌, ◌⊎◌, ◌+◌, ◌≤◌, ℕ, List, Option, None, Some, Ok, Err, false, true, IfOk, IfErr, IfSome, IsSome};
ghost use Rattle.std.specs.Option.{option_copied};
ghost use Rattle.slate_types.specs.Counts.{one_more};
ghost use Rattle.slate_store.specs.declared.reader_modes.DbReaderMode.{DbReaderMode as AnyMode};
ghost use Rattle.slate_store.specs.declared.reader_modes.DbReaderMode.TheVariants.{ManagedCheckpoint};
ghost use Rattle.slate_store.specs.Calls.{WhereModelled};
ghost use Rattle.slate_store.specs.Objects.{Objects, PutManifest, is_present};
ghost use Rattle.slate_store.specs.Checkpoints.{found, to_refresh, to_write};
ghost use Rattle.slate_store.specs.Refusals.{PlanIs};
ghost use Rattle.slate_model.specs.Known.{CountsFaults};
ghost use Rattle.slate_model.specs.Lease.{lease_refusal, leased, to_take};
ghost use Rattle.slate_model.specs.Followed.{RefusesLatest};
ghost use Rattle.slate_model.specs.Managed.{PutsPlanned, TakeRefusal};
ghost use Rattle.slate_model.specs.Segments.{Extractor, IsExtractor};
ghost use Rattle.slate_model.specs.Stores.{Stands};
ghost use Rattle.slate_follow.specs.Answering.{IsOfLatest, IsOfOpening, IsOfOptions};
ghost use Rattle.slate_follow.specs.Keeping.{CallsRefused, FindsLatest, GivesLease, MayMismatch, PutsManifest, tried};
ghost use Rattle.slate_follow.specs.Stepping.{IsOfTurn};

use crate::DbReaderOptions;
use crate::rebuilds::follow_refusal;
use slate_errors::SlateError;
use slate_model::{Lease, error_of_refusal};
use slate_store::{
    COMMIT_TRIES, Store, VersionedManifest, next_with_checkpoint, next_with_end, read_latest,
};
use slate_types::PrefixExtractor;
use std::alloc::Global;
use uuid::Uuid;

// The least lifetime of a checkpoint of a reader, in milliseconds.
const LEAST_LIFETIME: u64 = 1000;

/// Why a reader with these options may not keep a checkpoint of its own.
pub(crate) fn lease_refusal(options: &DbReaderOptions) -> Option<SlateError>
    ensures refusal { result ≡ lease_refusal options.now.checkpoint_lifetime_ms options.now.manifest_poll_interval_ms }
    ensures kind { IfSome result IsOfOptions }
{
    let lifetime = options.checkpoint_lifetime_ms;
    let interval = options.manifest_poll_interval_ms;
    if lifetime < LEAST_LIFETIME {
        return Some(SlateError::InvalidCheckpointLifetime(lifetime));
    }
    let Some(doubled) = interval.checked_mul(2) else {
        return Some(SlateError::InvalidManifestPollInterval(interval));
    };
    if lifetime < doubled {
        return Some(SlateError::CheckpointLifetimeTooShort {
            lifetime,
            interval: doubled,
        });
    }
    None
}

/// The latest manifest, as `read_latest` reads it.
pub(crate) fn latest_of<S: Store>(
    alloc: Global,
    store: &mut S,
) -> Result<VersionedManifest, SlateError>
    ensures faults { CountsFaults (S.faults store.old) (S.faults store.new) result }
    ensures calls { S.calls store.new ≤ S.calls store.old + 1 }
    ensures kept { S.objects store.new ≡ S.objects store.old }
    ensures found { IfSome (S.objects store.old) (λ o. FindsLatest o result) }
    ensures whole { (key : List ℕ) → result ≡ Err (SlateError.EmptySegmentPrefix key) → ⊥ }
    ensures one { S.calls store.new ≡ one_more (S.calls store.old) }
    ensures kind { IfErr result (λ error. (mode : AnyMode) → IsOfTurn mode error) }
{
    match read_latest(alloc, store) {
        Ok(latest) => Ok(latest),
        Err(refusal) => Err(error_of_refusal(refusal)),
    }
}

/// Puts a manifest as the store's `put_next` does, and answers whether it did: where one is stored under its id, it didn't.
pub(crate) fn put_next<S: Store>(
    alloc: Global,
    store: &mut S,
    next: &VersionedManifest,
) -> Result<bool, SlateError>
    ensures faults { CountsFaults (S.faults store.old) (S.faults store.new) result }
    ensures calls { S.calls store.new ≤ S.calls store.old + 1 }
    ensures puts { WhereModelled (PutsManifest next.now result) (S.objects store.old) (S.objects store.new) }
    ensures whole { (key : List ℕ) → result ≡ Err (SlateError.EmptySegmentPrefix key) → ⊥ }
    ensures one { S.calls store.new ≡ one_more (S.calls store.old) }
    ensures kind { IfErr result (λ error. (mode : AnyMode) → IsOfTurn mode error) }
    ensures free { result ≡ Ok true → IfSome (S.objects store.old) (λ o. is_present (PutManifest next.now.id next.now.manifest) o ≡ false) }
    ensures undecided { IfErr result (λ error. IsOfLatest error → ⊥) }
{
    match slate_store::put_next(alloc, store, next) {
        Ok(is_put) => Ok(is_put),
        Err(refusal) => Err(error_of_refusal(refusal)),
    }
}

/// The manifest that follows the latest one with a new checkpoint, in place of another or beside all, and its lease.
pub(crate) fn with_new_lease(
    alloc: Global,
    latest: &VersionedManifest,
    replaced: Option<Uuid>,
    lifetime: u64,
    moment: i64,
) -> Result<(VersionedManifest, Lease), SlateError>
    ensures { GivesLease (leased lifetime (to_write replaced (Some lifetime) moment latest.now)) result }
{
    match next_with_checkpoint(alloc, latest, replaced, Some(lifetime), moment) {
        Ok((next, checkpoint)) => Ok((next, Lease::of(&checkpoint, lifetime))),
        Err(refusal) => Err(error_of_refusal(refusal)),
    }
}

/// The manifest that follows the latest one with this lease's checkpoint under a new end, and the lease then.
pub(crate) fn with_renewed_lease(
    alloc: Global,
    latest: &VersionedManifest,
    lease: &Lease,
    moment: i64,
) -> Result<(VersionedManifest, Lease), SlateError>
    requires { IsSome (found lease.now.id latest.now) }
    ensures { GivesLease (leased lease.now.lifetime (to_refresh lease.now.id lease.now.lifetime moment latest.now)) result }
{
    match next_with_end(alloc, latest, lease.id, lease.lifetime, moment) {
        Ok((next, checkpoint)) => Ok((next, Lease::of(&checkpoint, lease.lifetime))),
        Err(refusal) => Err(error_of_refusal(refusal)),
    }
}

/// Reads the latest manifest of a database that is initialised, and commits a new checkpoint after it. It answers the
/// manifest that does and the lease, and None where a manifest is stored already under that one's id.
fn try_to_take<S: Store, E: PrefixExtractor>(
    alloc: Global,
    store: &mut S,
    lifetime: u64,
    extractor: Option<&E>,
    moment: i64,
) -> Result<Option<(VersionedManifest, Lease)>, SlateError>
    ensures faults { CountsFaults (S.faults store.old) (S.faults store.new) result }
    ensures calls { S.calls store.new ≤ S.calls store.old + 2 }
    ensures first { IfErr result (λ error. IsOfLatest error → S.calls store.new ≤ S.calls store.old + 1) }
    ensures puts { WhereModelled (λ o o'. (made : ℕ) × PutsPlanned Stands MayMismatch (to_take lifetime moment) o (tried result) made o') (S.objects store.old) (S.objects store.new) }
    ensures mismatch { (x : Option Extractor) → IsExtractor E.may_name E.may_extract (option_copied extractor.entry) x → IfErr result (λ error. IfSome (S.objects store.old) (λ o. MayMismatch o error → TakeRefusal x o error)) }
    ensures given { IfOk (tried result) (λ p. IfSome (S.objects store.old) (λ o. PlanIs (to_take lifetime moment) o (Ok (Some p.0, p.1)))) }
    ensures fits { (x : Option Extractor) → IsExtractor E.may_name E.may_extract (option_copied extractor.entry) x → IfOk result (λ _. IfSome (S.objects store.old) (λ o. RefusesLatest x true o None)) }
    ensures whole { (key : List ℕ) → result ≡ Err (SlateError.EmptySegmentPrefix key) → ⊥ }
    ensures again { result ≡ Ok None → S.objects store.new ≡ S.objects store.old }
    ensures kind { IfErr result (IsOfOpening ManagedCheckpoint) }
    ensures decided { (x : Option Extractor) → IsExtractor E.may_name E.may_extract (option_copied extractor.entry) x → result ≡ Err SlateError.InvalidDBState →
        IfSome (S.objects store.old) (λ o. RefusesLatest x true o (Some SlateError.InvalidDBState) ⊎ RefusesLatest x true o None) }
{
    let latest = latest_of(alloc, store)?;
    if let Some(refusal) = follow_refusal(alloc, extractor, &latest)? {
        return Err(refusal);
    }
    let (next, lease) = with_new_lease(alloc, &latest, None, lifetime, moment)?;
    let is_put = put_next(alloc, store, &next)?;
    if !is_put {
        return Ok(None);
    }
    Ok(Some((next, lease)))
}

/// Commits a new checkpoint after the latest manifest, in as many tries as there are. It answers the manifest that does,
/// and the lease.
pub(crate) fn take_lease<S: Store, E: PrefixExtractor>(
    alloc: Global,
    store: &mut S,
    lifetime: u64,
    extractor: Option<&E>,
    moment: i64,
) -> Result<(VersionedManifest, Lease), SlateError>
    ensures faults { CountsFaults (S.faults store.old) (S.faults store.new) result }
    ensures calls { S.calls store.new ≤ S.calls store.old + 16 }
    ensures first { (x : Option Extractor) (o : Objects) → IsExtractor E.may_name E.may_extract (option_copied extractor.entry) x → S.objects store.old ≡ Some o → IfErr result (λ error. IsOfLatest error → S.calls store.new ≤ S.calls store.old + 1) }
    ensures tries { IfErr result (λ error. IsOfLatest error → CallsRefused lifetime moment (S.objects store.old) (S.calls store.old) (S.calls store.new)) }
    ensures puts { WhereModelled (λ o o'. (made : ℕ) × PutsPlanned Stands MayMismatch (to_take lifetime moment) o result made o') (S.objects store.old) (S.objects store.new) }
    ensures mismatch { (x : Option Extractor) → IsExtractor E.may_name E.may_extract (option_copied extractor.entry) x → IfErr result (λ error. IfSome (S.objects store.old) (λ o. MayMismatch o error → TakeRefusal x o error)) }
    ensures given { IfOk result (λ p. IfSome (S.objects store.old) (λ o. PlanIs (to_take lifetime moment) o (Ok (Some p.0, p.1)))) }
    ensures fits { (x : Option Extractor) → IsExtractor E.may_name E.may_extract (option_copied extractor.entry) x → IfOk result (λ p. IfSome (S.objects store.old) (λ o. RefusesLatest x true o None)) }
    ensures whole { (key : List ℕ) → result ≡ Err (SlateError.EmptySegmentPrefix key) → ⊥ }
    ensures kind { IfErr result (IsOfOpening ManagedCheckpoint) }
    ensures decided { (x : Option Extractor) → IsExtractor E.may_name E.may_extract (option_copied extractor.entry) x → result ≡ Err SlateError.InvalidDBState →
        IfSome (S.objects store.old) (λ o. RefusesLatest x true o (Some SlateError.InvalidDBState) ⊎ RefusesLatest x true o None) }
{
    for earlier in 0..COMMIT_TRIES {
        if let Some(taken) = try_to_take(alloc, store, lifetime, extractor, moment)? {
            return Ok(taken);
        }
    }
    Err(SlateError::TransactionalObjectTimeout {
        tries: COMMIT_TRIES,
    })
}
