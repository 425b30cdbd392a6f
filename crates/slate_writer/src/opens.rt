// Opening a database: its manifest, the fence, and the replay of its log files.
ghost use Rattle.std.specs.Prelude.{◌≡◌, ℕ, ◌+◌, ◌-◌, ◌<◌, ◌≤◌, ◌^◌, true, All, Option, None, Some, Ok, Err, length, IfErr, IfOk, IfSome, IsSome};
ghost use Rattle.std.specs.Option.{option_copied};
ghost use Rattle.slate_types.specs.Line.{AreNumberedFrom, IsLine};
ghost use Rattle.slate_store.specs.Calls.{IsCall, IsOfList, WhereModelled};
ghost use Rattle.slate_store.specs.declared.objects.VersionedManifest.{VersionedManifest};
ghost use Rattle.slate_store.specs.Logs.{IsLogged};
ghost use Rattle.slate_store.specs.Objects.{IsGreatest, Objects, latest_manifest};
ghost use Rattle.slate_model.specs.Handle.{latest_tick};
ghost use Rattle.slate_model.specs.Tracked.{latest_tracker, stored_tracker};
ghost use Rattle.slate_model.specs.Known.{CountsFaults, known};
ghost use Rattle.slate_model.specs.Open.{IsFresh, OpensHandle, can_open_by, first_manifest, has_next, manifest_refusal, mark_of, next_manifest};
ghost use Rattle.slate_model.specs.Segments.{Extractor, IsExtractor, extractor_name};
ghost use Rattle.slate_model.specs.Stores.{by_objects};
ghost use Rattle.slate_model.specs.Write.{last_number};
ghost use Rattle.slate_replay.specs.Replay.{calls_after};
ghost use Rattle.slate_writer.specs.Kinds.{IsOfOpening};
ghost use Rattle.slate_writer.specs.Tasks.{tasks_of};
ghost use Rattle.slate_writer.specs.Opening.{CallsOpening, FindsLog, FindsNext, Fits, HasLogs, IsLeftBy, IsOfFinding, IsOfManifest, PutsOpening, Recovers, recovery_calls};

use crate::WriterState;
use crate::board::{new_board, raise};
use crate::key_prefixes::rise;
use crate::memories::Memory;
use crate::tasks::start_tasks;
use crate::times::{track_all, tracker_of};
use slate_errors::SlateError;
use slate_reads::IndexedTable;
use slate_replay::Replayed;
use slate_segments::{extractor_refusal, name_of, replayed_segments};
use slate_seqtrack::SequenceTracker;
use slate_status::StatusRecord;
use slate_store::{Manifest, Store, StoreError, VersionedManifest};
use slate_types::{Batch, Name, NoMemory, PrefixExtractor, Seq};
use std::alloc::Global;

/// How a handle writes. SlateDB's `Settings`, as far as it is used here.
#[derive(Clone, Copy, Debug, PartialEq, Eq)]
pub struct WriterOptions {
    /// Whether the handle keeps a log. One that keeps none stores what it accepts in tables alone.
    pub wal_enabled: bool,
    /// From how many unflushed bytes on a write is refused with `Backpressure`: those of the keys and values that
    /// aren't in tables yet, and, where the handle keeps a log, once more those that aren't in the log. At 0 each write
    /// is.
    pub max_unflushed_bytes: u64,
    /// Whether a task of a compactor runs for the handle. It does nothing of its own: a compaction is a call of `compact`.
    pub compactor: bool,
    /// Whether a task of a compaction worker runs for it, likewise.
    pub compaction_worker: bool,
    /// Whether a task of a collector runs for it. It does nothing of its own: garbage is collected by `sweep`.
    pub collector: bool,
}

impl Default for WriterOptions {
    ghost use Rattle.std.specs.Prelude.{◌≡◌, true};

    ghost is_default = { λ o. o ≡ record { wal_enabled = true; max_unflushed_bytes = 1073741824; compactor = true; compaction_worker = true; collector = true } };

    fn default() -> WriterOptions {
        WriterOptions {
            wal_enabled: true,
            max_unflushed_bytes: 1_073_741_824,
            compactor: true,
            compaction_worker: true,
            collector: true,
        }
    }
}

impl WriterState {
    /// Opens a database, a new one where the store has no manifest. SlateDB's `Db::open`.
    ///
    /// It commits the next manifest, with an epoch above those of the handles that were opened before, and, for a new database,
    /// the name of the extractor, and puts an empty log file: from then on their flushes store nothing and answer `Fenced`, if
    /// nothing else fails first, while their writes and gets go on until then. Then it replays the log files above the
    /// manifest's replay mark, and keeps their batches that aren't in the manifest's tables in memory. The handle sees all
    /// batches that are stored, and all of them are durable. It reads no table. Its tracker is that of the latest manifest,
    /// and the batches that are replayed are tracked in it, in their order.
    ///
    /// # Errors
    ///
    /// error | when
    /// ---|---
    /// `InvalidDBState` | the latest manifest isn't initialised; its tracker can't be read, has more than 8192 pairs or one of a batch that isn't in its tables; the next manifest, epoch or log file would pass the greatest number
    /// `SegmentExtractorMismatch` | the extractor's name isn't the one in the latest manifest, or one of them is absent; it has both
    /// `SegmentPrefixNotRecognized` | of the first stored prefix that the extractor doesn't answer of itself
    /// `EmptySegmentPrefix` | after the replay, of the first key that has no prefix, or an empty one
    /// `WalTruncated` | of the log file at which the replay ended, since it isn't stored or a batch of it is past the next number; where another look at the latest manifest finds no greater epoch
    /// `Fenced` | the same, where it finds one, since another handle was opened meanwhile
    /// `ObjectStoreError`, `NoMemory` | a fault of the store; want of memory
    ///
    /// A mismatch and an unknown prefix come before a number that would pass the greatest. `WalTruncated`, `Fenced` and
    /// `TransactionalObjectVersionExists` never come over a store that only handles wrote.
    ///
    /// # Cost
    ///
    /// Four calls of the store, and one for each log file that it replays; one more where the replay ended early, and one alone
    /// where the latest manifest decides. Time linear in the operations of the log files, for each key a logarithm of the keys;
    /// with an extractor also a call of it for each segment of the manifest and each operation, and a logarithm of the prefixes.
    /// It makes room for 8194 numbers and times, 16 bytes a pair.
    ///
    /// # What stands after
    ///
    /// After the first three errors nothing is put; after the next three the manifest and the log file are. A fault of the store
    /// or `NoMemory` may leave the manifest, which fences the handles before it, or the manifest and the log file.
    pub fn open<S: Store, E: PrefixExtractor>(
        alloc: Global,
        store: &mut S,
        options: &WriterOptions,
        extractor: Option<&E>,
    ) -> Result<WriterState, SlateError>
        ensures opens { (x : Option Extractor) → IsExtractor E.may_name E.may_extract (option_copied extractor.entry) x → (made : ℕ) ×
            OpensHandle (by_objects (S.objects store.old)) x made options.now.wal_enabled options.now.max_unflushed_bytes (tasks_of options.now)
            (known S.objects S.faults store.old) result (known S.objects S.faults store.new) }
        // Memory begins after the tables of the manifest.
        ensures floor { IfOk result (λ h. h.line.floor ≡ h.view.manifest.last_l0_seq) }
        ensures replays { IfOk result (λ h. IfSome (S.objects store.old) (λ o. HasLogs o h)) }
        // With any extractor, lawful or not.
        ensures fresh { IfOk result (IsFresh options.now.wal_enabled options.now.max_unflushed_bytes (tasks_of options.now)) }
        ensures line { IfOk result (λ h. IsLine h.line) }
        ensures left { IfOk result (λ h. IfSome (S.objects store.new) (IsLeftBy h)) }
        ensures calls { IfSome (S.objects store.old) (λ o. CallsOpening o (S.calls store.old) (S.calls store.new) result) }
        // What the latest manifest decides takes one call.
        ensures first { (x : Option Extractor) (o : Objects) → IsExtractor E.may_name E.may_extract (option_copied extractor.entry) x →
            S.objects store.old ≡ Some o → (manifest_refusal x (latest_manifest o) ≡ None → ⊥) → S.calls store.new ≤ S.calls store.old + 1 }
        ensures kind { IfErr result IsOfOpening }
        ensures faults { CountsFaults (S.faults store.old) (S.faults store.new) result }
    {
        let (board, mut lead) = new_board(alloc)?;
        let name = name_of(alloc, extractor)?;
        let tasks = start_tasks(alloc, options)?;
        let (view, last, mut tracker) = find_next(alloc, store, extractor, name)?;
        put_opening(alloc, store, &view, last + 1)?;
        let memory = recover(alloc, store, &view, last)?;
        let segments = replayed_segments(alloc, extractor, memory.batches())?;
        track_all(&mut tracker, memory.batches());
        let floor = view.manifest.last_l0_seq;
        let durable = floor + memory.batches().len() as u64;
        let tick = latest_tick(view.manifest.last_tick, memory.batches());
        raise(&board, &mut lead, tick, durable);
        Ok(WriterState {
            keeps_log: options.wal_enabled,
            limit: options.max_unflushed_bytes,
            floor,
            epoch: view.manifest.writer_epoch,
            counter: 0,
            board,
            lead,
            tick,
            tracker,
            tracked: None,
            counted: durable,
            unlogged: 0,
            memory: Memory::of(memory),
            segments,
            stored_rise: rise(view.manifest.segments.as_slice()),
            status: StatusRecord::new(alloc, durable, view),
            tasks,
        })
    }
}

/// The manifest of a new database, with the name of its extractor.
fn first_manifest(alloc: Global, name: Option<Name>) -> Manifest
    ensures { result ≡ first_manifest name }
{
    Manifest {
        writer_epoch: 1,
        initialized: true,
        tables: Seq::of(Vec::new(alloc)),
        last_l0_seq: 0,
        last_tick: i64::MIN,
        replay_after_wal_id: 0,
        next_wal_id: 1,
        checkpoints: Seq::of(Vec::new(alloc)),
        segments: Seq::of(Vec::new(alloc)),
        extractor_name: name,
        sequence_tracker: None,
    }
}

/// Whether neither the id of the latest manifest nor its epoch is the last.
fn has_next(latest: &VersionedManifest) -> bool
    ensures { result ≡ has_next latest.now }
{
    latest.id < u64::MAX && latest.manifest.writer_epoch < u64::MAX
}

/// The manifest that an opening commits after the latest one, where `last` is the last log file.
fn next_manifest(
    alloc: Global,
    name: Option<Name>,
    latest: Option<VersionedManifest>,
    last: u64,
) -> VersionedManifest
    requires { can_open_by latest last ≡ true }
    ensures { result ≡ next_manifest name latest last }
{
    let Some(latest) = latest else {
        return VersionedManifest {
            id: 1,
            manifest: first_manifest(alloc, name),
        };
    };
    VersionedManifest {
        id: latest.id + 1,
        manifest: Manifest {
            writer_epoch: latest.manifest.writer_epoch + 1,
            initialized: true,
            next_wal_id: last + 1,
            ..latest.manifest
        },
    }
}

/// Why a database isn't opened by its latest manifest, whose tracker can be read and fits it, with an extractor, or with
/// none.
fn manifest_refusal<E: PrefixExtractor>(
    alloc: Global,
    extractor: Option<&E>,
    latest: Option<&VersionedManifest>,
) -> Result<Option<SlateError>, NoMemory>
    requires { IsSome (latest_tracker (option_copied latest)) }
    ensures refusal { (x : Option Extractor) → IsExtractor E.may_name E.may_extract (option_copied extractor.entry) x →
        IfOk result (λ refusal. refusal ≡ manifest_refusal x (option_copied latest.entry)) }
    ensures kind { IfOk result (λ refusal. IfSome refusal IsOfManifest) }
    ensures can { (last : ℕ) → IfOk result (λ refusal. refusal ≡ None → last < last_number → can_open_by (option_copied latest.entry) last ≡ true) }
{
    let Some(latest) = latest else {
        return Ok(None);
    };
    if !latest.manifest.initialized {
        return Ok(Some(SlateError::InvalidDBState));
    }
    if let Some(refusal) = extractor_refusal(alloc, extractor, &latest.manifest)? {
        return Ok(Some(refusal));
    }
    Ok((!has_next(latest)).then_some(SlateError::InvalidDBState))
}

/// The id of the last log file after the replay mark of the latest manifest. There is one more id after it.
fn find_log<S: Store>(
    alloc: Global,
    store: &mut S,
    latest: Option<&VersionedManifest>,
) -> Result<u64, SlateError>
    ensures faults { CountsFaults (S.faults store.old) (S.faults store.new) result }
    ensures calls { S.calls store.new ≤ S.calls store.old + 1 }
    ensures counted { IfOk result (λ last. S.calls store.new ≡ calls_after 1 (S.calls store.old)) }
    ensures kept { S.objects store.new ≡ S.objects store.old }
    ensures below { IfOk result (λ last. last < last_number) }
    ensures kind { IfErr result IsOfFinding }
    ensures where_modelled { IfSome (S.objects store.old) (λ o. FindsLog (mark_of (option_copied latest.entry)) o result) }
{
    let mark = match latest {
        Some(latest) => latest.manifest.replay_after_wal_id,
        None => 0,
    };
    let last = store.last_log(alloc, mark)?;
    if last == u64::MAX {
        return Err(SlateError::InvalidDBState);
    }
    Ok(last)
}

/// The manifest that an opening commits, the id of the last log file, after which there is one more, and the tracker of the
/// manifest.
fn find_next<S: Store, E: PrefixExtractor>(
    alloc: Global,
    store: &mut S,
    extractor: Option<&E>,
    name: Option<Name>,
) -> Result<(VersionedManifest, u64, SequenceTracker), SlateError>
    ensures faults { CountsFaults (S.faults store.old) (S.faults store.new) result }
    ensures calls { S.calls store.new ≤ S.calls store.old + 2 }
    ensures counted { IfOk result (λ found. S.calls store.new ≡ calls_after 2 (S.calls store.old)) }
    ensures kept { S.objects store.new ≡ S.objects store.old }
    ensures where_modelled { IfSome (S.objects store.old) (λ o. IfOk result (λ found. FindsNext name o (found.0, found.1))) }
    ensures tracked { IfOk result (λ found. stored_tracker found.0.manifest ≡ Some found.2) }
    ensures fits { (x : Option Extractor) → IsExtractor E.may_name E.may_extract (option_copied extractor.entry) x → name ≡ extractor_name x →
        IfSome (S.objects store.old) (λ o. Fits x o result) }
    ensures first { (x : Option Extractor) (o : Objects) → IsExtractor E.may_name E.may_extract (option_copied extractor.entry) x →
        S.objects store.old ≡ Some o → (manifest_refusal x (latest_manifest o) ≡ None → ⊥) → S.calls store.new ≤ S.calls store.old + 1 }
    ensures kind { IfErr result IsOfFinding }
    ensures below { IfOk result (λ found. found.1 < last_number) }
    ensures greatest { IfOk result (λ found. IfSome (S.objects store.old) (λ o. IfSome (latest_manifest o) (IsGreatest o))) }
{
    let latest = store.latest_manifest(alloc)?;
    let tracker = tracker_of(alloc, latest.as_ref())?;
    if let Some(error) = manifest_refusal(alloc, extractor, latest.as_ref())? {
        return Err(error);
    }
    let last = find_log(alloc, store, latest.as_ref())?;
    Ok((next_manifest(alloc, name, latest, last), last, tracker))
}

/// Puts the manifest of an opening, and then the fence.
fn put_opening<S: Store>(
    alloc: Global,
    store: &mut S,
    view: &VersionedManifest,
    fence: u64,
) -> Result<(), SlateError>
    ensures faults { CountsFaults (S.faults store.old) (S.faults store.new) result }
    ensures calls { S.calls store.new ≤ S.calls store.old + 2 }
    ensures counted { IfOk result (λ done. S.calls store.new ≡ calls_after 2 (S.calls store.old)) }
    ensures kind { IfErr result IsOfOpening }
    ensures where_modelled { WhereModelled (PutsOpening view.now fence result) (S.objects store.old) (S.objects store.new) }
{
    store.put_manifest(alloc, view.id, &view.manifest)?;
    Ok(store.put_log(alloc, fence, &[])?)
}

/// Whether another handle was opened after one of this epoch.
fn is_fenced<S: Store>(alloc: Global, store: &mut S, epoch: u64) -> Result<bool, StoreError>
    ensures counts { IsCall (S.faults store.old) (S.faults store.new) (S.calls store.old) (S.calls store.new) result }
    ensures kept { S.objects store.new ≡ S.objects store.old }
    ensures refusals { IfErr result IsOfList }
    ensures where_modelled { IfSome (S.objects store.old) (λ o. result ≡ Ok true →
        (latest : VersionedManifest) × (latest_manifest o ≡ Some latest) × (epoch < latest.manifest.writer_epoch)) }
{
    match store.latest_manifest(alloc)? {
        Some(latest) => Ok(latest.manifest.writer_epoch > epoch),
        None => Ok(false),
    }
}

/// The batches of the log files above the replay mark of a manifest, up to `last`.
fn recover<S: Store>(
    alloc: Global,
    store: &mut S,
    view: &VersionedManifest,
    last: u64,
) -> Result<IndexedTable, SlateError>
    ensures faults { CountsFaults (S.faults store.old) (S.faults store.new) result }
    ensures calls { S.calls store.new ≤ S.calls store.old + recovery_calls view.now last result }
    ensures ended_early { (id : ℕ) → result ≡ Err (SlateError.WalTruncated id) → S.calls store.new ≡ calls_after (id - view.now.manifest.replay_after_wal_id + 1) (S.calls store.old) }
    ensures kept { S.objects store.new ≡ S.objects store.old }
    ensures numbered { IfOk result (λ batches. AreNumberedFrom view.now.manifest.last_l0_seq batches) }
    ensures fits { IfOk result (λ batches. view.now.manifest.last_l0_seq + length batches < 2 ^ 64) }
    ensures kind { IfErr result IsOfOpening }
    ensures where_modelled { IfSome (S.objects store.old) (λ o. Recovers view.now last o result) }
    ensures logged { IfOk result (λ batches. IfSome (S.objects store.old) (λ o. All (IsLogged view.now.manifest.replay_after_wal_id o) batches)) }
{
    let manifest = &view.manifest;
    let (memory, replayed) = slate_replay::recover(alloc, store, manifest, last)?;
    let Replayed::Truncated(id) = replayed else {
        return Ok(memory);
    };
    if is_fenced(alloc, store, manifest.writer_epoch)? {
        return Err(SlateError::Fenced);
    }
    Err(SlateError::WalTruncated(id))
}

/// The latest of a tick and the creation times of batches.
pub(crate) fn latest_tick(tick: i64, batches: &[Batch]) -> i64
    ensures { result ≡ latest_tick tick batches.now }
{
    let mut latest = tick;
    for batch in batches {
        if latest < batch.create_ts {
            latest = batch.create_ts;
        }
    }
    latest
}
