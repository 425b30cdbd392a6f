// Finding the manifest that a reader goes by and the last log file, and building it anew from the log files above its mark.
ghost use Rattle.std.specs.Prelude.{◌≡◌, ◌+◌, ◌-◌, ◌<◌, ◌≤◌, ℕ, List, true, false, cond, Err, Option, Some, None, IfOk, IfErr, IfSome, IsSome};
ghost use Rattle.std.specs.Option.{option_copied};
ghost use Rattle.slate_types.specs.declared.store_errors.StoreFault.TheVariants.{NotFound};
ghost use Rattle.slate_store.specs.Objects.{last_log};
ghost use Rattle.slate_model.specs.Follow.{AnswersAt};
ghost use Rattle.slate_model.specs.Followed.{can_follow, follow_refusal};
ghost use Rattle.slate_model.specs.Follower.{HasSegments, is_pinned, number};
ghost use Rattle.slate_model.specs.Known.{CountsFaults, FaultsRise};
ghost use Rattle.slate_model.specs.Segments.{Extractor, IsExtractor, ops_of, unsegmented_refusal};
ghost use Rattle.slate_follow.specs.Answering.{IsOfFinding, IsOfLatest};
ghost use Rattle.slate_follow.specs.Lagging.{IsLastTaken, readings};
ghost use Rattle.slate_follow.specs.Rebuilding.{BuildLacks, Builds, FindsLast, FindsView, Follows, GoesBy, IsOfFollowing, IsOfRebuilding, IsOfReplay, IsOfView, answer_of, reached};

use crate::PollAnswer;
use crate::states::Following;
use bytes::Bytes;
use slate_errors::SlateError;
use slate_reads::IndexedTable;
use slate_replay::{Newest, Replayed, newest_above, recover};
use slate_segments::{extractor_refusal, replayed_segments};
use slate_store::{DbReaderMode, Store, VersionedManifest, find_checkpoint};
use slate_types::{NoMemory, PrefixExtractor, Seq};
use std::alloc::Global;
use std::marker::Model;
use uuid::Uuid;

/// What a reader goes by: a manifest, the batches that the log files have above its tables, their prefixes, and up to which log
/// file.
#[derive(Drop)]
pub(crate) struct Rebuilt {
    pub(crate) following: Following,
    pub(crate) view: VersionedManifest,
    pub(crate) memory: IndexedTable,
    pub(crate) segments: Seq<Bytes>,
    pub(crate) mark: u64,
}

impl Model for Rebuilt {
    ghost use Rattle.slate_model.specs.Follower.{Follower};

    ghost Value = { Follower };

    ghost use Rattle.slate_follow.specs.Kept.{rebuilt_follower, IsRebuilt};

    ghost view = { rebuilt_follower };

    ghost invariant = { IsRebuilt };
}

impl Rebuilt {
    /// The number of its last batch.
    pub(crate) fn number(&self) -> u64
        ensures { result ≡ number self.now }
    {
        self.view.manifest.last_l0_seq + self.memory.batches().len() as u64
    }
}

/// The manifest that a reader goes by that is opened, where the database can be followed, and the last log file that it reads.
pub(crate) fn find_view<S: Store, E: PrefixExtractor>(
    alloc: Global,
    store: &mut S,
    following: Following,
    extractor: Option<&E>,
) -> Result<(VersionedManifest, u64), SlateError>
    ensures faults { FaultsRise (S.faults store.old) (S.faults store.new) result }
    ensures missing { result ≡ Err (SlateError.ObjectStoreError NotFound) → is_pinned following.mode ≡ true }
    ensures calls { S.calls store.new ≤ S.calls store.old + 2 }
    ensures kept { S.objects store.new ≡ S.objects store.old }
    ensures where_modelled { IfSome (S.objects store.old) (λ o. FindsView following.mode following.skips true o result) }
    ensures follows { (x : Option Extractor) → IsExtractor E.may_name E.may_extract (option_copied extractor.entry) x →
        IfSome (S.objects store.old) (λ o. Follows x following.mode true o result) }
    ensures whole { (key : List ℕ) → result ≡ Err (SlateError.EmptySegmentPrefix key) → ⊥ }
    ensures kind { IfErr result (IsOfFinding following.mode) }
    ensures first { IfErr result (λ error. IsOfLatest error → S.calls store.new ≤ S.calls store.old + 1) }
{
    let Some(latest) = store.latest_manifest(alloc)? else {
        return Err(SlateError::LatestTransactionalObjectVersionMissing);
    };
    if let Some(refusal) = follow_refusal(alloc, extractor, &latest)? {
        return Err(refusal);
    }
    let view = view_under(alloc, store, following.mode, latest)?;
    let last = last_read(alloc, store, following, &view)?;
    Ok((view, last))
}

/// Why a reader isn't opened by the latest manifest of a database.
pub(crate) fn follow_refusal<E: PrefixExtractor>(
    alloc: Global,
    extractor: Option<&E>,
    latest: &VersionedManifest,
) -> Result<Option<SlateError>, NoMemory>
    ensures refusal { (x : Option Extractor) → IsExtractor E.may_name E.may_extract (option_copied extractor.entry) x → IfOk result (λ refusal. refusal ≡ follow_refusal x true latest.now) }
    ensures kind { IfOk result (λ refusal. IfSome refusal IsOfFollowing) }
    ensures can { IfOk result (λ refusal. refusal ≡ None → can_follow true latest.now ≡ true) }
    ensures invalid { IfOk result (λ refusal. refusal ≡ Some SlateError.InvalidDBState → latest.now.manifest.initialized ≡ false) }
{
    if !latest.manifest.initialized {
        return Ok(Some(SlateError::InvalidDBState));
    }
    extractor_refusal(alloc, extractor, &latest.manifest)
}

/// The manifest that a reader goes by where this one is the latest: the one that its checkpoint keeps, or the latest.
fn view_under<S: Store>(
    alloc: Global,
    store: &mut S,
    mode: DbReaderMode,
    latest: VersionedManifest,
) -> Result<VersionedManifest, SlateError>
    ensures faults { FaultsRise (S.faults store.old) (S.faults store.new) result }
    ensures missing { result ≡ Err (SlateError.ObjectStoreError NotFound) → is_pinned mode ≡ true }
    ensures calls { S.calls store.new ≤ S.calls store.old + cond (is_pinned mode) 1 0 }
    ensures kept { S.objects store.new ≡ S.objects store.old }
    ensures where_modelled { IfSome (S.objects store.old) (λ o. GoesBy mode o latest result) }
    ensures kind { IfErr result (IsOfView mode) }
    ensures first { IfErr result (λ error. IsOfLatest error → S.calls store.new ≡ S.calls store.old) }
{
    let DbReaderMode::Checkpoint(id) = mode else {
        return Ok(latest);
    };
    let Some(checkpoint) = find_checkpoint(&latest, id) else {
        return Err(SlateError::CheckpointMissing(id));
    };
    let manifest = store.read_manifest(alloc, checkpoint.manifest_id)?;
    Ok(VersionedManifest {
        id: checkpoint.manifest_id,
        manifest,
    })
}

/// The last log file that a reader reads that goes by a manifest.
pub(crate) fn last_read<S: Store>(
    alloc: Global,
    store: &mut S,
    following: Following,
    view: &VersionedManifest,
) -> Result<u64, SlateError>
    ensures faults { CountsFaults (S.faults store.old) (S.faults store.new) result }
    ensures calls { S.calls store.new ≤ S.calls store.old + cond (is_pinned following.mode) 0 1 }
    ensures kept { S.objects store.new ≡ S.objects store.old }
    ensures where_modelled { IfSome (S.objects store.old) (λ o. FindsLast following.mode following.skips view.now o result) }
    ensures refusals { IfErr result IsOfReplay }
{
    if following.skips {
        return Ok(view.manifest.replay_after_wal_id);
    }
    if let DbReaderMode::Checkpoint(_) = following.mode {
        return Ok(view.manifest.next_wal_id.saturating_sub(1));
    }
    last_above(alloc, store, view.manifest.replay_after_wal_id)
}

/// The last log file above this one, or this one.
pub(crate) fn last_above<S: Store>(
    alloc: Global,
    store: &mut S,
    from: u64,
) -> Result<u64, SlateError>
    ensures faults { CountsFaults (S.faults store.old) (S.faults store.new) result }
    ensures calls { S.calls store.new ≤ S.calls store.old + 1 }
    ensures kept { S.objects store.new ≡ S.objects store.old }
    ensures found { IfOk result (λ last. IfSome (S.objects store.old) (λ o. last ≡ last_log from o)) }
    ensures refusals { IfErr result IsOfReplay }
{
    Ok(store.last_log(alloc, from)?)
}

/// The last log file that a poll replays above this one, by a reader that has come to a number: the last one of all, or this one, where
/// that leaves the reader no more numbers behind than it may be.
pub(crate) fn last_taken<S: Store>(
    alloc: Global,
    store: &mut S,
    lag: u64,
    number: u64,
    from: u64,
) -> Result<u64, SlateError>
    ensures faults { CountsFaults (S.faults store.old) (S.faults store.new) result }
    ensures kept { S.objects store.new ≡ S.objects store.old }
    ensures taken { IfOk result (λ last. IfSome (S.objects store.old) (λ o. IsLastTaken lag number from o last)) }
    ensures refusals { IfErr result IsOfReplay }
    ensures calls { IfSome (S.objects store.old) (λ o. IfOk result (λ last. S.calls store.new + (last - from) ≤ S.calls store.old + (readings lag (last_log from o - from) + 1))
        × (S.calls store.new ≤ S.calls store.old + (readings lag (last_log from o - from) + 1))) }
{
    let last = last_above(alloc, store, from)?;
    if lag == 0 {
        return Ok(last);
    }
    let reads = match newest_above(alloc, store, from, last, number)? {
        Newest::Nothing => false,
        Newest::Number(newest) => newest > number.saturating_add(lag),
        Newest::Missing(_) => true,
    };
    Ok(if reads { last } else { from })
}

/// What a reader has of a manifest that it goes by and its log files up to the last one, and whether these were whole.
pub(crate) fn rebuild<S: Store, E: PrefixExtractor>(
    alloc: Global,
    store: &mut S,
    following: Following,
    view: VersionedManifest,
    last: u64,
    extractor: Option<&E>,
) -> Result<(Rebuilt, PollAnswer), SlateError>
    ensures faults { CountsFaults (S.faults store.old) (S.faults store.new) result }
    ensures calls { S.calls store.new ≤ S.calls store.old + (last - view.manifest.replay_after_wal_id) }
    ensures kept { S.objects store.new ≡ S.objects store.old }
    ensures built { IfOk result (λ p. IfSome (S.objects store.old) (λ o. Builds o following.mode following.skips following.lag view last p.0 p.1)) }
    ensures asked { IfOk result (λ p. (p.0.mode ≡ following.mode) × (p.0.skips ≡ following.skips) × (p.0.lag ≡ following.lag) × (p.0.view ≡ view)) }
    ensures answer { IfOk result (λ p. (p.0.lease ≡ None) × (p.0.result ≡ None) × AnswersAt (number p.0) p.1) }
    ensures segments { (x : Option Extractor) → IsExtractor E.may_name E.may_extract (option_copied extractor.entry) x → IfOk result (λ p.
        HasSegments x p.0 × (unsegmented_refusal x (ops_of p.0.line.batches) ≡ None)) }
    ensures lacks { (x : Option Extractor) (key : List ℕ) → IsExtractor E.may_name E.may_extract (option_copied extractor.entry) x →
        result ≡ Err (SlateError.EmptySegmentPrefix key) → IfSome (S.objects store.old) (λ o. BuildLacks x o view last key) }
    ensures named { (x : Option Extractor) (key : List ℕ) → IsExtractor E.may_name E.may_extract (option_copied extractor.entry) x → result ≡ Err (SlateError.EmptySegmentPrefix key) → IsSome x }
    ensures refusals { IfErr result IsOfRebuilding }
{
    let (memory, replayed) = recover(alloc, store, &view.manifest, last)?;
    let segments = replayed_segments(alloc, extractor, memory.batches())?;
    let rebuilt = Rebuilt {
        following,
        view,
        memory,
        segments: Seq::of(segments),
        mark: reached(replayed, last),
    };
    let at = rebuilt.number();
    Ok((rebuilt, answer_of(replayed, at)))
}

/// Up to which log file a replay got that was to reach this last one.
pub(crate) fn reached(replayed: Replayed, last: u64) -> u64
    ensures { result ≡ reached replayed last }
{
    match replayed {
        Replayed::Whole => last,
        Replayed::Truncated(id) => id.saturating_sub(1),
    }
}

/// How a poll answers that replayed so, and sees the batches up to this number.
pub(crate) fn answer_of(replayed: Replayed, at: u64) -> PollAnswer
    ensures value { result ≡ answer_of replayed at }
    ensures number { AnswersAt at result }
{
    match replayed {
        Replayed::Whole => PollAnswer::Whole { at },
        Replayed::Truncated(_) => PollAnswer::Truncated { at },
    }
}
