// The calls that commit a manifest with other checkpoints.
ghost use Rattle.std.specs.Prelude.{◌≡◌, ◌+◌, ◌≤◌, ℕ, true, false, IfErr, IfSome, Ok, Err, Some, None};
ghost use Rattle.slate_types.specs.Counts.{one_more};
ghost use Rattle.slate_store.specs.Calls.{WhereModelled};
ghost use Rattle.slate_store.specs.Checkpoints.{to_delete, to_refresh, to_write};
ghost use Rattle.slate_store.specs.Objects.{PutManifest, is_present};
ghost use Rattle.slate_store.specs.Refusals.{Commits, CountsFaults, CountsTries, FindsLatest, FollowsPlan, IsDecided, IsOfCommit, IsOfLatest, IsOfStore, IsOfTry, IsTaken, PutsManifest, PutsNext, Tries, tried};

use crate::{
    Checkpoint, Store, StoreRefusal, VersionedManifest, find_checkpoint, next_with_checkpoint,
    next_with_end, next_without_checkpoint,
};
use slate_types::StoreError;
use std::alloc::Global;
use uuid::Uuid;

/// How often a call on checkpoints tries: it reads the latest manifest and puts the next one, and again where another was
/// put first. After so many tries it answers `TransactionalObjectTimeout`.
pub const COMMIT_TRIES: u32 = 8;

/// Commits a new checkpoint of what is stored: a manifest that keeps itself, with its tables and its log files, until the
/// lease ends. It answers the checkpoint. SlateDB's `create_checkpoint`.
///
/// The lease begins at `moment` and lasts `lifetime` milliseconds, to the greatest moment at most; without a lifetime it
/// has no end. It answers `LatestTransactionalObjectVersionMissing` where no manifest is stored, `InvalidDBState` where
/// the latest one's id is the greatest `u64`, and `TransactionalObjectTimeout` where eight times another manifest was put
/// first; then nothing was put. `ObjectStoreError` comes where a call of the store failed, and then the manifest may have
/// been put. Over any store it refuses by one of these, or by `NoMemory`. It calls the store at most twice for each try,
/// makes one try where it answers Ok or one of the first two refusals, and takes time linear in the manifest.
pub fn write_checkpoint<S: Store>(
    alloc: Global,
    store: &mut S,
    lifetime: Option<u64>,
    moment: i64,
) -> Result<Checkpoint, StoreRefusal>
    ensures { Commits (to_write None lifetime moment) None (S.objects store.old) (S.objects store.new) (S.faults store.old) (S.faults store.new) (S.calls store.old) (S.calls store.new) result }
{
    let creation = Creation {
        replaced: None,
        lifetime,
        moment,
    };
    commit(alloc, store, &creation)
}

/// Commits a new checkpoint as `write_checkpoint` does, with a lease of `lifetime` milliseconds, and takes the old one
/// out in the same manifest, where it is there. It answers, and costs, what `write_checkpoint` does.
pub fn replace_checkpoint<S: Store>(
    alloc: Global,
    store: &mut S,
    old: Uuid,
    lifetime: u64,
    moment: i64,
) -> Result<Checkpoint, StoreRefusal>
    ensures { Commits (to_write (Some old) (Some lifetime) moment) None (S.objects store.old) (S.objects store.new) (S.faults store.old) (S.faults store.new) (S.calls store.old) (S.calls store.new) result }
{
    let creation = Creation {
        replaced: Some(old),
        lifetime: Some(lifetime),
        moment,
    };
    commit(alloc, store, &creation)
}

/// Lets the lease of a checkpoint end `lifetime` milliseconds after `moment`, at the greatest moment at most, and leaves
/// all else of it. It answers the checkpoint as it is then. SlateDB's `refresh_checkpoint`.
///
/// It answers `CheckpointMissing` of this id where the latest manifest has no checkpoint with it, after one try, and
/// nothing was put then; else it answers, and costs, what `write_checkpoint` does.
pub fn refresh_checkpoint<S: Store>(
    alloc: Global,
    store: &mut S,
    id: Uuid,
    lifetime: u64,
    moment: i64,
) -> Result<Checkpoint, StoreRefusal>
    ensures { Commits (to_refresh id lifetime moment) (Some id) (S.objects store.old) (S.objects store.new) (S.faults store.old) (S.faults store.new) (S.calls store.old) (S.calls store.new) result }
{
    let renewal = Renewal {
        id,
        lifetime,
        moment,
    };
    commit(alloc, store, &renewal)
}

/// Takes a checkpoint out of the latest manifest. Where it isn't there the answer is Ok too, and nothing is put.
/// SlateDB's `delete_checkpoint`. It answers, and costs, what `write_checkpoint` does.
pub fn delete_checkpoint<S: Store>(
    alloc: Global,
    store: &mut S,
    id: Uuid,
) -> Result<(), StoreRefusal>
    ensures { Commits (to_delete id) None (S.objects store.old) (S.objects store.new) (S.faults store.old) (S.faults store.new) (S.calls store.old) (S.calls store.new) result }
{
    commit(alloc, store, &Deletion { id })
}

/// What a call does to the checkpoints of the latest manifest.
trait Change {
    type Answer;

    ghost use Rattle.std.specs.Prelude.{ℕ, List, Option};
    ghost use Rattle.slate_store.specs.declared.objects.VersionedManifest.{VersionedManifest as AnyManifest};
    ghost use Rattle.slate_store.specs.Checkpoints.{Plan};
    ghost use Rattle.slate_store.specs.Refusals.{GivesPlan, IsOfPlan};

    ghost plan: { Self → AnyManifest → Plan Self.Answer };

    /// The id of the checkpoint without which it is refused, where there is one.
    ghost asked: { Self → Option (List ℕ) };

    /// The manifest to be put after the latest one, where one is, and what the call answers then.
    fn next(
        &self,
        alloc: Global,
        latest: &VersionedManifest,
    ) -> Result<(Option<VersionedManifest>, Self::Answer), StoreRefusal>
        ensures plan { GivesPlan (plan self.now latest.now) result }
        ensures refusals { IfErr result (IsOfPlan (asked self.now)) };
}

/// A new checkpoint, in place of another or beside all.
#[derive(Drop)]
struct Creation {
    replaced: Option<Uuid>,
    lifetime: Option<u64>,
    moment: i64,
}

impl Change for Creation {
    type Answer = Checkpoint;

    ghost plan = { λ c. to_write c.replaced c.lifetime c.moment };

    ghost asked = { λ _. None };

    fn next(
        &self,
        alloc: Global,
        latest: &VersionedManifest,
    ) -> Result<(Option<VersionedManifest>, Checkpoint), StoreRefusal> {
        let (next, checkpoint) = next_with_checkpoint(
            alloc,
            latest,
            self.replaced,
            self.lifetime,
            self.moment,
        )?;
        Ok((Some(next), checkpoint))
    }
}

/// A checkpoint whose lease begins anew.
#[derive(Drop)]
struct Renewal {
    id: Uuid,
    lifetime: u64,
    moment: i64,
}

impl Change for Renewal {
    type Answer = Checkpoint;

    ghost plan = { λ r. to_refresh r.id r.lifetime r.moment };

    ghost asked = { λ r. Some r.id };

    fn next(
        &self,
        alloc: Global,
        latest: &VersionedManifest,
    ) -> Result<(Option<VersionedManifest>, Checkpoint), StoreRefusal> {
        let (next, checkpoint) = next_with_end(alloc, latest, self.id, self.lifetime, self.moment)?;
        Ok((Some(next), checkpoint))
    }
}

/// A checkpoint that is taken out, where it is there.
#[derive(Drop)]
struct Deletion {
    id: Uuid,
}

impl Change for Deletion {
    type Answer = ();

    ghost plan = { λ d. to_delete d.id };

    ghost asked = { λ _. None };

    fn next(
        &self,
        alloc: Global,
        latest: &VersionedManifest,
    ) -> Result<(Option<VersionedManifest>, ()), StoreRefusal> {
        if find_checkpoint(latest, self.id).is_none() {
            return Ok((None, ()));
        }
        Ok((Some(next_without_checkpoint(alloc, latest, self.id)?), ()))
    }
}

/// Reads the latest manifest, the one with the greatest id.
///
/// It answers `LatestTransactionalObjectVersionMissing` where no manifest is stored, `ObjectStoreError` of `Unavailable`
/// where the read failed, and `NoMemory`. It calls the store once, and takes the time of that call.
pub fn read_latest<S: Store>(
    alloc: Global,
    store: &mut S,
) -> Result<VersionedManifest, StoreRefusal>
    ensures kept { S.objects store.new ≡ S.objects store.old }
    ensures found { IfSome (S.objects store.old) (λ o. FindsLatest o result) }
    ensures faults { CountsFaults (S.faults store.old) (S.faults store.new) result }
    ensures calls { S.calls store.new ≡ one_more (S.calls store.old) }
    ensures kind { IfErr result IsOfLatest }
{
    match store.latest_manifest(alloc) {
        Ok(Some(latest)) => Ok(latest),
        Ok(None) => Err(StoreRefusal::LatestTransactionalObjectVersionMissing),
        Err(error) => Err(StoreRefusal::from(error)),
    }
}

/// Puts a manifest under its id, and answers whether it did: where one is stored under it already, it answers false, and
/// nothing is changed.
///
/// It answers `ObjectStoreError` of `Unavailable` where the put failed, and then the manifest may have been put, and
/// `NoMemory`, and then it wasn't. It calls the store once, and takes the time of that call.
pub fn put_next<S: Store>(
    alloc: Global,
    store: &mut S,
    next: &VersionedManifest,
) -> Result<bool, StoreRefusal>
    ensures puts { WhereModelled (PutsManifest next.now result) (S.objects store.old) (S.objects store.new) }
    ensures free { result ≡ Ok true → IfSome (S.objects store.old) (λ o. is_present (PutManifest next.now.id next.now.manifest) o ≡ false) }
    ensures faults { CountsFaults (S.faults store.old) (S.faults store.new) result }
    ensures calls { S.calls store.new ≡ one_more (S.calls store.old) }
    ensures kind { IfErr result IsOfStore }
{
    match store.put_manifest(alloc, next.id, &next.manifest) {
        Ok(()) => Ok(true),
        Err(StoreError::Exists) => Ok(false),
        Err(error) => Err(StoreRefusal::from(error)),
    }
}

/// Puts a manifest as `put_next` does, where there is one. Where there is none, it answers true.
fn put_planned<S: Store>(
    alloc: Global,
    store: &mut S,
    next: Option<VersionedManifest>,
) -> Result<bool, StoreRefusal>
    ensures puts { WhereModelled (PutsNext next result) (S.objects store.old) (S.objects store.new) }
    ensures free { result ≡ Ok true → IfSome next (λ next. IfSome (S.objects store.old) (λ o. is_present (PutManifest next.id next.manifest) o ≡ false)) }
    ensures faults { CountsFaults (S.faults store.old) (S.faults store.new) result }
    ensures calls { S.calls store.new ≤ S.calls store.old + 1 }
    ensures again { result ≡ Ok false → S.calls store.new ≡ one_more (S.calls store.old) }
    ensures kind { IfErr result IsOfStore }
{
    match next {
        Some(next) => put_next(alloc, store, &next),
        None => Ok(true),
    }
}

/// Reads the latest manifest and puts the one that follows it by a change. It answers None where a manifest is stored
/// already under that one's id.
fn attempt<S: Store, C: Change>(
    alloc: Global,
    store: &mut S,
    change: &C,
) -> Result<Option<C::Answer>, StoreRefusal>
where
    C::Answer: Drop,
    ensures follows { WhereModelled (Tries (C.plan change.now) result) (S.objects store.old) (S.objects store.new) }
    ensures faults { CountsFaults (S.faults store.old) (S.faults store.new) result }
    ensures calls { S.calls store.new ≤ S.calls store.old + 2 }
    ensures again { result ≡ Ok None → S.calls store.new ≡ one_more (one_more (S.calls store.old)) }
    ensures undecided { IfSome (S.objects store.old) (λ o. IsTaken (C.plan change.now) o → IsDecided (tried result) → ⊥) }
    ensures kind { IfErr result (IsOfTry (C.asked change.now)) }
{
    let latest = read_latest(alloc, store)?;
    let (next, answer) = change.next(alloc, &latest)?;
    if put_planned(alloc, store, next)? {
        Ok(Some(answer))
    } else {
        Ok(None)
    }
}

/// Commits a change, in as many tries as there are.
fn commit<S: Store, C: Change>(
    alloc: Global,
    store: &mut S,
    change: &C,
) -> Result<C::Answer, StoreRefusal>
where
    C::Answer: Drop,
    ensures follows { WhereModelled (λ o o'. (made : ℕ) × FollowsPlan (C.plan change.now) o result made o') (S.objects store.old) (S.objects store.new) }
    ensures faults { CountsFaults (S.faults store.old) (S.faults store.new) result }
    ensures tries { CountsTries (S.calls store.old) (S.calls store.new) result }
    ensures decided { IfSome (S.objects store.old) (λ o. IsDecided result → S.calls store.new ≤ S.calls store.old + 2) }
    ensures kind { IfErr result (IsOfCommit (C.asked change.now)) }
{
    for earlier in 0..COMMIT_TRIES {
        if let Some(answer) = attempt(alloc, store, change)? {
            return Ok(answer);
        }
    }
    Err(StoreRefusal::TransactionalObjectTimeout {
        tries: COMMIT_TRIES,
    })
}
