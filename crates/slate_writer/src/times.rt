// When the batches of a handle were written.
ghost use Rattle.std.specs.Prelude.{◌≡◌, ◌⊎◌, None, Some, IfErr, IfOk};
ghost use Rattle.std.specs.Option.{option_copied};
ghost use Rattle.std.specs.Ordering.{int_cmp, nat_cmp};
ghost use Rattle.slate_seqtrack.specs.Bytes.{tracker_at};
ghost use Rattle.slate_seqtrack.specs.Lookup.{IsPartner};
ghost use Rattle.slate_seqtrack.specs.Tracker.{numbers_of, times_of};
ghost use Rattle.slate_model.specs.Tracked.{fits_tables, fitting, latest_tracker, tracked, tracked_all};

use crate::WriterState;
use slate_errors::SlateError;
use slate_seqtrack::{FindOption, SequenceTracker, TrackedSeq, TrackerFault};
use slate_store::VersionedManifest;
use slate_types::Batch;
use std::alloc::Global;

/// How many pairs the tracker of a manifest has at most.
const MOST_PAIRS: usize = 8192;

impl WriterState {
    /// When the batch with a number was written, in whole seconds: the time of the tracked batch with this number, or else
    /// of the one with the next number up or down, as asked; None where there is none. A batch is tracked where the one
    /// that was tracked before is at least 60 seconds older, and of more than 8192 every other one goes. Those of earlier
    /// handles are among them, as far as the manifest or the log files had them when this one was opened. It is answered of
    /// a closed handle, too. It takes no memory, and logarithmic time. `find_ts` of SlateDB's tracker.
    pub fn find_ts(&self, seq: u64, find: FindOption) -> Option<i64>
        ensures { IsPartner nat_cmp find seq (numbers_of self.now.tracker) (times_of self.now.tracker) result }
    {
        self.tracker.find_ts(seq, find)
    }

    /// The number of the batch that was written at a time, in whole seconds: that of the tracked batch with this time, or
    /// else of the one with the next time up or down, as asked; None where there is none. Of several batches with this
    /// time the first one answers. It is answered of a closed handle, too. It takes no memory, and logarithmic time.
    /// `find_seq` of SlateDB's tracker.
    pub fn find_seq(&self, ts: i64, find: FindOption) -> Option<u64>
        ensures { IsPartner int_cmp find ts (times_of self.now.tracker) (numbers_of self.now.tracker) result }
    {
        self.tracker.find_seq(ts, find)
    }
}

/// The tracker of the latest manifest, one without a pair where there is none; or that it can't be read, or doesn't fit it.
pub(crate) fn tracker_of(
    alloc: Global,
    latest: Option<&VersionedManifest>,
) -> Result<SequenceTracker, SlateError>
    ensures ok { IfOk result (λ tracker. latest_tracker (option_copied latest.entry) ≡ Some tracker) }
    ensures err { IfErr result (λ error. (error ≡ SlateError.NoMemory) ⊎ ((error ≡ SlateError.InvalidDBState) × (latest_tracker (option_copied latest.entry) ≡ None))) }
{
    let Some(latest) = latest else {
        return Ok(SequenceTracker::new(alloc)?);
    };
    let Some(bytes) = &latest.manifest.sequence_tracker else {
        return Ok(SequenceTracker::new(alloc)?);
    };
    read_fitting(alloc, bytes.as_slice(), latest.manifest.last_l0_seq)
}

/// The tracker that the bytes are, where it is one of a manifest whose tables end at this number.
fn read_fitting(alloc: Global, bytes: &[u8], number: u64) -> Result<SequenceTracker, SlateError>
    ensures ok { IfOk result (λ tracker. fitting number (tracker_at bytes.now) ≡ Some tracker) }
    ensures err { IfErr result (λ error. (error ≡ SlateError.NoMemory) ⊎ ((error ≡ SlateError.InvalidDBState) × (fitting number (tracker_at bytes.now) ≡ None))) }
{
    match SequenceTracker::from_bytes(alloc, bytes) {
        Ok(tracker) => {
            if fits_tables(&tracker, number) {
                Ok(tracker)
            } else {
                Err(SlateError::InvalidDBState)
            }
        }
        Err(TrackerFault::NoMemory) => Err(SlateError::NoMemory),
        Err(_fault) => Err(SlateError::InvalidDBState),
    }
}

/// Whether a tracker may be that of a manifest whose tables end at this number.
fn fits_tables(tracker: &SequenceTracker, number: u64) -> bool
    ensures { result ≡ fits_tables number tracker.now }
{
    let numbers = tracker.numbers();
    let Some(last) = numbers.last() else {
        return true;
    };
    numbers.len() <= MOST_PAIRS && *last <= number
}

/// Notes when batches were written, in order.
pub(crate) fn track_all(tracker: &mut SequenceTracker, batches: &[Batch])
    ensures { tracker.new ≡ tracked_all tracker.old batches.now }
{
    for batch in batches {
        note(tracker, batch.number, batch.create_ts);
    }
}

/// Notes when a batch was written, unless its number is below the last one.
fn note(tracker: &mut SequenceTracker, number: u64, create_ts: i64)
    ensures { tracker.new ≡ tracked tracker.old number create_ts }
{
    let _ = tracker.insert(TrackedSeq {
        seq: number,
        ts: create_ts.div_euclid(1000),
    });
}
