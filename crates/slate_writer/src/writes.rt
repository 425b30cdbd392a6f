// Writing a batch to a handle, and what refuses it.
ghost use Rattle.std.specs.Prelude.{◌≡◌, ◌∷◌, ◌++◌, [], All, IsTrue, OnOk, option_map, ◌+◌, ◌<◌, ◌≤◌, ◌≤ℤ◌, ◌^◌, ◌⊎◌, List, Option, Some, None, Ok, Err, IfOk, IfErr, IfSome, unwrap_or};
ghost use Rattle.std.specs.Option.{option_copied};
ghost use Rattle.slate_types.specs.declared.batches.Batch.{Batch as ABatch};
ghost use Rattle.slate_types.specs.declared.batches.KeyOp.{KeyOp as AKeyOp};
ghost use Rattle.slate_status.specs.Segments.{PrefixesRise};
ghost use Rattle.slate_model.specs.Handle.{accepted, known_segments, untabled_segments};
ghost use Rattle.slate_model.specs.Segments.{Extractor, IsExtractor, segment_refusal, segments_with};
ghost use Rattle.slate_errors.specs.Errors.{closed_error};
ghost use Rattle.slate_transactions.specs.Writes.{after_writes, is_among};
ghost use Rattle.slate_model.specs.Write.{IsOfSegments, Writes, WritesBut, WritesByAny, accepted_moment, batch_refusal, has_empty_key, write_refusal};
ghost use Rattle.slate_model.specs.Tracked.{seconds_of, tracked};
ghost use Rattle.slate_seqtrack.specs.Tracker.{inserted, last_number};
ghost use Rattle.slate_writer.specs.Refusal.{answer_of};
ghost use Rattle.slate_segments.specs.Prefixes.{HaveSame};
ghost use Rattle.slate_writer.specs.Segments.{prefixes_by};

use crate::WriterState;
use crate::board::take_tick;
use crate::key_prefixes::take_prefixes;
use crate::merges::merge_refusal;
use crate::sizes::ops_size;
use bytes::Bytes;
use slate_errors::SlateError;
use slate_model::Written;
use slate_seqtrack::{SequenceTracker, TrackedSeq};
use slate_status::{are_among, union};
use slate_transactions::{KeySet, TrackedWrites};
use slate_types::{Batch, KeyOp, NoMemory, PrefixExtractor, Seq, WriteBatch};
use std::alloc::Global;

/// A write that was refused: the error, and the batch as it was handed in.
#[derive(Debug, Drop)]
pub struct WriteRefusal {
    pub error: SlateError,
    pub batch: WriteBatch,
}

impl WriterState {
    /// Accepts a batch: it gets the next number, and is readable at once. Its creation time is `moment` in
    /// milliseconds, or `second`, where `moment` is below the creation time of the batch before. Where it is accepted, its number
    /// and its creation time in whole seconds, rounded down, are tracked, at most one in 60 seconds. SlateDB's `write`.
    ///
    /// With an extractor each key is to have a prefix of a byte or more that doesn't nest with a known one: two prefixes nest where
    /// they differ and one begins the other. Known are the prefixes of the manifest that the handle goes by, those of its batches
    /// that aren't in the tables of that, and those of the batch's earlier operations. A handle is to be given one extractor, or
    /// none, from its opening on.
    ///
    /// # Errors
    ///
    /// In this order:
    ///
    /// error | when
    /// ---|---
    /// `Closed`, or the error that closed it | of a closed handle
    /// `EmptyBatch`, `EmptyKey` | without an operation; with an empty key
    /// `IncompatibleMergeTtls` | it merges one key under two times of expiry; of the first such merge
    /// `Backpressure` | what `unflushed` answers, without the batch's own bytes, has reached `max_unflushed_bytes`; it has both
    /// `EmptySegmentPrefix`, `InvalidSegmentPrefix` | of the first operation that has no prefix; or one that nests, with the least known one that it nests with
    /// `InvalidDBState` | after the greatest number
    /// `InvalidClockTick` | both moments are below the creation time of the batch before
    /// `NoMemory` | want of memory
    ///
    /// # Cost
    ///
    /// No call of the store. Time linear in the batch's operations, and for each key that the handle doesn't have yet a logarithm
    /// of its keys; with an extractor also a logarithm of the known prefixes for each byte of an operation's prefix, and, where
    /// one is new, a copy of those of the handle's batches and a shift of those of the operations before. Where the prefixes of
    /// the manifest don't rise, each operation takes time linear in them. Once a transaction began on the handle it also takes a
    /// logarithm of the tracked keys for each operation.
    ///
    /// # What stands after
    ///
    /// A refusal changes nothing and hands the batch back. After `Backpressure` a flush to a table makes room.
    pub fn write<E: PrefixExtractor>(
        &mut self,
        alloc: Global,
        batch: WriteBatch,
        moment: i64,
        second: Option<i64>,
        extractor: Option<&E>,
    ) -> Result<Written, WriteRefusal>
        ensures does { (x : Option Extractor) → IsExtractor E.may_name E.may_extract (option_copied extractor.entry) x →
            Writes x self.old batch.ops moment second (answer_of result) self.new }
        ensures by_any { WritesByAny [] self.old batch.ops moment second (answer_of result) self.new }
        ensures handed_back { IfErr result (λ r. r.batch ≡ batch) }
    {
        self.write_but(alloc, batch, &KeySet::new(alloc), moment, second, extractor)
    }

    /// Accepts a batch as `write` does, and tracks its writes but for those of unmarked keys.
    pub(crate) fn write_but<E: PrefixExtractor>(
        &mut self,
        alloc: Global,
        batch: WriteBatch,
        unmarked: &KeySet,
        moment: i64,
        second: Option<i64>,
        extractor: Option<&E>,
    ) -> Result<Written, WriteRefusal>
        ensures does { (x : Option Extractor) → IsExtractor E.may_name E.may_extract (option_copied extractor.entry) x →
            WritesBut unmarked.now x self.old batch.ops moment second (answer_of result) self.new }
        ensures by_any { WritesByAny unmarked.now self.old batch.ops moment second (answer_of result) self.new }
        ensures handed_back { IfErr result (λ r. r.batch ≡ batch) }
    {
        let (written, segments) = match self.admit(alloc, &batch, moment, second, extractor) {
            Ok(admitted) => admitted,
            Err(error) => return refuse(error, batch),
        };
        let size = ops_size(batch.ops.as_slice());
        let unlogged = self.unstored_size().saturating_add(size);
        let durable = self.durable();
        if make_room(&mut self.tracked, batch.ops.as_slice()).is_err() {
            return refuse(SlateError::NoMemory, batch);
        }
        let accepted = Batch {
            number: written.number,
            create_ts: written.create_ts,
            ops: batch.ops,
        };
        if let Err(batch) = self.memory.push(alloc, accepted) {
            return refuse(SlateError::NoMemory, WriteBatch { ops: batch.ops });
        }
        self.counted = durable;
        self.unlogged = unlogged;
        replace(&mut self.segments, segments);
        let tick = written.create_ts;
        take_tick(&self.board, &mut self.lead, &mut self.tick, tick);
        track(&mut self.tracker, written);
        let ops = last_ops(self.memory.batches());
        note(&mut self.tracked, written.number, ops, unmarked);
        Ok(written)
    }

    /// The number and the creation time that a write of a batch gets, and the prefixes of the handle's batches after it, where
    /// they are others than before; or why it is refused.
    fn admit<E: PrefixExtractor>(
        &self,
        alloc: Global,
        batch: &WriteBatch,
        moment: i64,
        second: Option<i64>,
        extractor: Option<&E>,
    ) -> Result<(Written, Option<Seq<Bytes>>), SlateError>
        ensures admitted { (x : Option Extractor) → IsExtractor E.may_name E.may_extract (option_copied extractor.entry) x → IfOk result (λ a.
            (write_refusal x self.now batch.now.ops moment second ≡ None) × (accepted_moment self.now.tick moment second ≡ Some a.0.create_ts)
            × (a.0.number ≡ accepted self.now + 1) × (unwrap_or a.1 self.now.segments ≡ segments_with x (untabled_segments self.now) batch.now.ops)) }
        ensures number { IfOk result (λ a. (a.0.number ≡ accepted self.now + 1) × (accepted self.now + 1 < 2 ^ 64)) }
        ensures closed { IfSome self.now.result (λ r. result ≡ Err (closed_error r)) }
        ensures by_any { IfOk result (λ a. (write_refusal None self.now batch.now.ops moment second ≡ None) × (accepted_moment self.now.tick moment second ≡ Some a.0.create_ts)) }
        ensures refused_by_any { IfErr result (λ e. (e ≡ SlateError.NoMemory) ⊎ (IsOfSegments e ⊎ (write_refusal None self.now batch.now.ops moment second ≡ Some e))) }
        ensures later { IfOk result (λ a. self.now.tick ≤ℤ a.0.create_ts) }
        ensures rising { IfOk result (λ a. PrefixesRise (unwrap_or a.1 self.now.segments)) }
        ensures refused { (x : Option Extractor) → IsExtractor E.may_name E.may_extract (option_copied extractor.entry) x → IfErr result (λ e.
            (e ≡ SlateError.NoMemory) ⊎ (write_refusal x self.now batch.now.ops moment second ≡ Some e)) }
    {
        if let Some(result) = self.closed() {
            return Err(SlateError::of_closed(result));
        }
        if let Some(error) = batch_refusal(alloc, batch)? {
            return Err(error);
        }
        if let Some(error) = self.limit_refusal() {
            return Err(error);
        }
        let taken = self.take_prefixes(alloc, batch.ops.as_slice(), extractor)?;
        let Some(number) = self.accepted().checked_add(1) else {
            return Err(SlateError::InvalidDBState);
        };
        let Some(create_ts) = accepted_moment(self.tick, moment, second) else {
            return Err(SlateError::InvalidClockTick {
                last_tick: self.tick,
                next_tick: second.unwrap_or(moment),
            });
        };
        let segments = self.segments_with(alloc, taken)?;
        Ok((Written { number, create_ts }, segments))
    }

    /// The prefixes of the keys of a batch, or the refusal of its first operation that has no segment beside the known prefixes.
    fn take_prefixes<E: PrefixExtractor>(
        &self,
        alloc: Global,
        ops: &[KeyOp],
        extractor: Option<&E>,
    ) -> Result<Vec<Bytes>, SlateError>
        ensures ok { (x : Option Extractor) → IsExtractor E.may_name E.may_extract (option_copied extractor.entry) x → IfOk result (λ taken.
            (segment_refusal x (known_segments self.now) ops.now ≡ None) × HaveSame taken.items (prefixes_by x ops.now)) }
        ensures err { (x : Option Extractor) → IsExtractor E.may_name E.may_extract (option_copied extractor.entry) x → IfErr result (λ error.
            (error ≡ SlateError.NoMemory) ⊎ (segment_refusal x (known_segments self.now) ops.now ≡ Some error)) }
        ensures kind { IfErr result (λ error. (error ≡ SlateError.NoMemory) ⊎ IsOfSegments error) }
    {
        let stored = self.view().manifest.segments.as_slice();
        let segments = self.untabled_segments();
        take_prefixes(alloc, extractor, stored, self.stored_rise, segments, ops)
    }

    /// The prefixes of the handle's batches once these are taken, where they are others than before.
    fn segments_with(
        &self,
        alloc: Global,
        taken: Vec<Bytes>,
    ) -> Result<Option<Seq<Bytes>>, NoMemory>
        ensures with { (x : Option Extractor) (ops : List AKeyOp) → HaveSame taken.items (prefixes_by x ops) → IfOk result (λ next.
            unwrap_or next self.now.segments ≡ segments_with x (untabled_segments self.now) ops) }
        ensures rising { IfOk result (λ next. PrefixesRise (unwrap_or next self.now.segments)) }
    {
        if self.has_untabled() && are_among(taken.as_slice(), self.segments.as_slice()) {
            return Ok(None);
        }
        let segments = union(alloc, self.untabled_segments(), taken.as_slice())?;
        Ok(Some(Seq::of(segments)))
    }
}

/// Puts other prefixes in the place of these, where there are any.
fn replace(segments: &mut Vec<Bytes>, next: Option<Seq<Bytes>>)
    ensures { segments.new.items ≡ unwrap_or next segments.old.items }
{
    if let Some(next) = next {
        *segments = next.into_vec();
    }
}

/// Notes when a batch was written. Its number isn't below the last one, so that it is never refused.
fn track(tracker: &mut SequenceTracker, written: Written)
    requires { IfSome (last_number tracker.old.pairs) (λ last. last ≤ written.number) }
    ensures tracked { tracker.new ≡ tracked tracker.old written.number written.create_ts }
    ensures taken { inserted tracker.old (record { seq = written.number; ts = seconds_of written.create_ts }) ≡ Ok tracker.new }
{
    let _ = tracker.insert(TrackedSeq {
        seq: written.number,
        ts: written.create_ts.div_euclid(1000),
    });
}

/// Makes room in the last writes, where they are tracked, for the keys of operations.
fn make_room(tracked: &mut Option<TrackedWrites>, ops: &[KeyOp]) -> Result<(), NoMemory>
    ensures same { option_map (λ t. t.writes) tracked.new ≡ option_map (λ t. t.writes) tracked.old }
    ensures room { OnOk result (IfSome tracked.new (λ t. All (λ o. IsTrue (is_among t.room o.key)) ops.now)) }
{
    match tracked {
        Some(tracked) => tracked.make_room(ops),
        None => Ok(()),
    }
}

/// Notes the operations of a batch with this number in the last writes, where they are tracked, but for those on unmarked
/// keys.
fn note(tracked: &mut Option<TrackedWrites>, number: u64, ops: &[KeyOp], unmarked: &KeySet)
    requires number { 0 < number }
    requires room { IfSome tracked.old (λ t. All (λ o. IsTrue (is_among t.room o.key)) ops.now) }
    ensures { option_map (λ t. t.writes) tracked.new ≡ option_map (after_writes number unmarked.now ops.now) (option_map (λ t. t.writes) tracked.old) }
{
    if let Some(tracked) = tracked {
        tracked.note(number, ops, unmarked);
    }
}

/// The operations of the last batch.
fn last_ops(batches: &[Batch]) -> &[KeyOp]
    ensures { (before : List ABatch) (last : ABatch) → batches.now ≡ before ++ last ∷ [] → result.now ≡ last.ops }
{
    match batches.split_last() {
        Some((last, _earlier)) => last.ops.as_slice(),
        None => &[],
    }
}

fn refuse(error: SlateError, batch: WriteBatch) -> Result<Written, WriteRefusal>
    ensures { result ≡ Err (record { error = error; batch = batch }) }
{
    Err(WriteRefusal { error, batch })
}

/// The refusal of a batch without an operation, with an empty key, or with two times of expiry for the merges of a key.
fn batch_refusal(alloc: Global, batch: &WriteBatch) -> Result<Option<SlateError>, NoMemory>
    ensures { IfOk result (λ refusal. refusal ≡ batch_refusal batch.now.ops) }
{
    let ops = batch.ops.as_slice();
    if ops.is_empty() {
        return Ok(Some(SlateError::EmptyBatch));
    }
    if has_empty_key(ops) {
        return Ok(Some(SlateError::EmptyKey));
    }
    merge_refusal(alloc, ops)
}

fn has_empty_key(ops: &[KeyOp]) -> bool
    ensures { result ≡ has_empty_key ops.now }
{
    ops.iter().any(|o| o.key.is_empty())
}

/// The first of a write's moments that isn't below the tick.
fn accepted_moment(tick: i64, moment: i64, second: Option<i64>) -> Option<i64>
    ensures later { IfSome result (λ accepted. tick ≤ℤ accepted) }
    ensures value { result ≡ accepted_moment tick moment second }
{
    if tick <= moment {
        return Some(moment);
    }
    second.filter(|second| tick <= *second)
}
