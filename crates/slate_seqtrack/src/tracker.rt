// A tracker of sequence numbers and times: insertions, look-ups, and its bytes.
ghost use Rattle.std.specs.Prelude.{◌≡◌, ℕ, ℤ, List, ◌&&◌, true, ◌<◌, ◌≤◌, false, None, Some, Ok, Err, IfOk, IfSome, MatchResult, length, slice_index_or};
ghost use Rattle.std.specs.Ordering.{nat_cmp, int_cmp};
ghost use Rattle.std.specs.Vec.{vec_len, vec_capacity};
ghost use Rattle.slate_seqtrack.specs.declared.faults.TrackerFault.TheVariants.{NoMemory as Memory};
ghost use Rattle.slate_seqtrack.specs.Block.{is_encodable};
ghost use Rattle.slate_seqtrack.specs.Bytes.{as_signed, AreTrackerBytes, BeginsWithTracker, has_bytes, packed, tracker_at, tracker_of};
ghost use Rattle.slate_seqtrack.specs.Spelling.{tracker_bytes};
ghost use Rattle.slate_seqtrack.specs.Thinning.{last_alone};
ghost use Rattle.slate_seqtrack.specs.Lookup.{IsPartner};
ghost use Rattle.slate_seqtrack.specs.Reading.{IsReadFault};
ghost use Rattle.slate_seqtrack.specs.Writing.{IsWrittenBlock, IsWriteFault};
ghost use Rattle.slate_seqtrack.specs.Tracker.{fresh, numbers_of, times_of, is_early, last_number, recording, inserted, extended};

use crate::bytes::{read_lists, write_lists};
use crate::encoding::is_encodable;
use crate::lookups::partner_of;
use crate::thinning::{keep_last, push_thinned};
use crate::{FindOption, TrackedSeq, TrackerFault};
use slate_types::NoMemory;
use std::alloc::Global;
use std::marker::Model;

/// How many pairs a tracker keeps unless it is asked otherwise.
const DEFAULT_CAPACITY: u32 = 8192;

/// How many seconds lie between recorded pairs unless the tracker is asked otherwise.
const DEFAULT_INTERVAL_SECS: u64 = 60;

/// Pairs of a sequence number and the time of its write, at most one an interval and in bounded room: where there are
/// more than the capacity, every other one goes. Neither numbers nor times fall along the list. SlateDB's
/// `SequenceTracker`.
#[derive(Debug)]
pub struct SequenceTracker {
    sequence_numbers: Vec<u64>,
    timestamps: Vec<i64>,
    capacity: u32,
    interval_secs: u64,
    last_recorded_ts: Option<i64>,
}

impl Drop for SequenceTracker {
    fn drop(self) {
        let SequenceTracker {
            sequence_numbers: _,
            timestamps: _,
            capacity: _,
            interval_secs: _,
            last_recorded_ts: _,
        } = self;
    }
}

impl Model for SequenceTracker {
    ghost use Rattle.slate_seqtrack.specs.Tracker.{Tracker, paired};

    ghost Value = { Tracker };

    ghost view = { λ t. record {
      capacity = t.capacity;
      interval = t.interval_secs;
      pairs = paired t.sequence_numbers.items t.timestamps.items;
      recorded = t.last_recorded_ts;
    } };

    ghost use Rattle.std.specs.Vec.{vec_capacity};
    ghost use Rattle.slate_seqtrack.specs.Kept.{IsKeptTracker};

    ghost invariant = { λ t. IsKeptTracker t.capacity t.last_recorded_ts t.sequence_numbers.items t.timestamps.items
        (vec_capacity t.sequence_numbers) (vec_capacity t.timestamps) };
}

impl SequenceTracker {
    /// An empty tracker for 8192 pairs, at most one in 60 seconds.
    pub fn new(alloc: Global) -> Result<SequenceTracker, NoMemory>
        ensures { IfOk result (λ tracker. tracker ≡ fresh 8192 60) }
    {
        SequenceTracker::with_config(alloc, DEFAULT_CAPACITY, DEFAULT_INTERVAL_SECS)
    }

    /// An empty tracker for so many pairs, at most one in so many seconds. It makes room for two pairs more than the
    /// capacity, so that an insertion takes no memory.
    pub fn with_config(
        alloc: Global,
        capacity: u32,
        interval_secs: u64,
    ) -> Result<SequenceTracker, NoMemory>
        ensures { IfOk result (λ tracker. tracker ≡ fresh capacity interval_secs) }
    {
        let room = capacity as usize + 2;
        Ok(SequenceTracker {
            sequence_numbers: Vec::with_capacity(alloc, room)?,
            timestamps: Vec::with_capacity(alloc, room)?,
            capacity,
            interval_secs,
            last_recorded_ts: None,
        })
    }

    /// Adds a pair. One whose time is less than the interval after the last recorded time is dropped, and the answer
    /// is Ok. Else one whose number is below the last one in the list is refused with FallingNumber, and nothing is
    /// changed. Where there are then more pairs than the capacity, those at positions 0, 2, 4 and on stay. It takes no
    /// memory, and constant time but for the thinning, which comes at most once in half the capacity of insertions.
    pub fn insert(&mut self, pair: TrackedSeq) -> Result<(), TrackerFault>
        ensures { MatchResult result (λ _. inserted self.old pair ≡ Ok self.new)
            (λ fault. (inserted self.old pair ≡ Err fault) × (self.new ≡ self.old)) }
    {
        if is_early(self.interval_secs, self.last_recorded_ts, pair.ts) {
            return Ok(());
        }
        if let Some(last) = self.last_number()
            && pair.seq < last
        {
            let next = pair.seq;
            return Err(TrackerFault::FallingNumber { last, next });
        }
        self.record(pair);
        Ok(())
    }

    /// The number of the last pair.
    fn last_number(&self) -> Option<u64>
        ensures { result ≡ last_number self.now.pairs }
    {
        self.sequence_numbers.last().copied()
    }

    /// Adds a pair that doesn't come early and whose number doesn't fall, as far as there is room for it.
    fn record(&mut self, pair: TrackedSeq)
        requires late { is_early self.old.interval self.old.recorded pair.ts ≡ false }
        requires rises { IfSome (last_number self.old.pairs) (λ last. last ≤ pair.seq) }
        ensures { self.new ≡ recording self.old pair }
    {
        push_thinned(&mut self.sequence_numbers, pair.seq, self.capacity);
        push_thinned(&mut self.timestamps, pair.ts, self.capacity);
        self.last_recorded_ts = Some(pair.ts);
    }

    /// Inserts the pairs of another tracker in order. The first one that is refused ends it with its refusal; those
    /// before it stay. It takes no memory.
    pub fn extend_from(&mut self, other: &SequenceTracker) -> Result<(), TrackerFault>
        ensures { MatchResult result (λ _. extended self.old other.now.pairs ≡ (self.new, None))
            (λ fault. extended self.old other.now.pairs ≡ (self.new, Some fault)) }
    {
        for place in 0..other.numbers().len() {
            self.insert(other.pair_at(place))?;
        }
        Ok(())
    }

    /// The pair at a place of the list.
    fn pair_at(&self, place: usize) -> TrackedSeq
        requires { place < length self.now.pairs }
        ensures { result ≡ slice_index_or self.now.pairs place result }
    {
        TrackedSeq {
            seq: self.sequence_numbers[place],
            ts: self.timestamps[place],
        }
    }

    /// The time of a number: that of the entry with this number, or else of the one with the next number up or down,
    /// as asked; None where there is none. Of several entries with the same number the first one in the list answers.
    /// It takes no memory, and logarithmic time.
    pub fn find_ts(&self, seq: u64, find: FindOption) -> Option<i64>
        ensures { IsPartner nat_cmp find seq (numbers_of self.now) (times_of self.now) result }
    {
        partner_of(&self.sequence_numbers, &self.timestamps, &seq, find)
    }

    /// The number at a time: that of the entry with this time, or else of the one with the next time up or down, as
    /// asked; None where there is none. Of several entries with the same time the first one in the list answers. It
    /// takes no memory, and logarithmic time.
    pub fn find_seq(&self, ts: i64, find: FindOption) -> Option<u64>
        ensures { IsPartner int_cmp find ts (times_of self.now) (numbers_of self.now) result }
    {
        partner_of(&self.timestamps, &self.sequence_numbers, &ts, find)
    }

    /// The sequence numbers, in order.
    pub fn numbers(&self) -> &[u64]
        ensures { result.now ≡ numbers_of self.now }
    {
        self.sequence_numbers.as_slice()
    }

    /// The times in whole seconds, in order.
    pub fn times(&self) -> &[i64]
        ensures { result.now ≡ times_of self.now }
    {
        self.timestamps.as_slice()
    }

    /// Whether `to_bytes` has bytes for the tracker: in neither of its lists does the difference between two neighbouring
    /// differences leave 32 signed bits. It takes no memory, and linear time.
    pub fn encodable(&self) -> bool
        ensures { result ≡ has_bytes self.now }
    {
        is_encodable(self.numbers()) && is_encodable(self.times())
    }

    /// Keeps the last pair alone where the tracker isn't encodable, and else changes nothing. Then it is encodable, and
    /// what is inserted later is inserted as before. It takes no memory, and linear time.
    pub fn pack(&mut self)
        ensures packed { self.new ≡ packed self.old }
        ensures encodable { has_bytes self.new ≡ true }
    {
        if !self.encodable() {
            self.keep_last_pair();
        }
    }

    /// Keeps the last pair alone.
    fn keep_last_pair(&mut self)
        ensures { self.new ≡ record self.old { pairs = last_alone self.old.pairs } }
    {
        keep_last(&mut self.sequence_numbers);
        keep_last(&mut self.timestamps);
    }

    /// The bytes of the two lists. NotEncodable exactly where in one of them the difference between two neighbouring
    /// differences leaves 32 signed bits. It takes linear time. SlateDB's `to_bytes`.
    pub fn to_bytes(&self, alloc: Global) -> Result<Vec<u8>, TrackerFault>
        ensures written { let encodable = is_encodable (as_signed (numbers_of self.now)) && is_encodable (times_of self.now) in
            MatchResult result (λ bytes. AreTrackerBytes IsWrittenBlock (numbers_of self.now) (times_of self.now) bytes.items × (encodable ≡ true)) (IsWriteFault encodable) }
        // There is one spelling.
        ensures spelled { IfOk result (λ bytes. bytes.items ≡ tracker_bytes self.now) }
        // What is written is read again, as the lists of a tracker for 8192 pairs, at most one in 60 seconds.
        ensures again { IfOk result (λ bytes. tracker_at bytes.items ≡ Ok (tracker_of (numbers_of self.now) (times_of self.now))) }
    {
        write_lists(alloc, &self.sequence_numbers, &self.timestamps)
    }

    /// A tracker with the lists at the front of these bytes, for 8192 pairs, at most one in 60 seconds; its last
    /// recorded time is the last one of the list. Bytes after the second block aren't looked at. The refusals, in this
    /// order: Empty where there is no byte; Version where the first one isn't 1; ShortLength where fewer than four
    /// follow; for each of the two blocks ShortData where its bits run out or Overflows where a value leaves 64 signed
    /// bits, whichever is met first, and then CountMismatch where its count isn't the length; Falls where one of the
    /// lists falls. It takes linear time. SlateDB's `from_bytes`.
    pub fn from_bytes(alloc: Global, buf: &[u8]) -> Result<SequenceTracker, TrackerFault>
        // Which tracker, or which fault.
        ensures exact { MatchResult result (λ tracker. tracker_at buf.now ≡ Ok tracker) (IsReadFault (tracker_at buf.now)) }
        // What is read is spelled so.
        ensures found { IfOk result (λ tracker. BeginsWithTracker buf.now (numbers_of tracker) (times_of tracker)) }
        // What is spelled so is read, whatever follows, unless memory runs out.
        ensures only { (numbers : List ℕ) (times : List ℤ) → BeginsWithTracker buf.now numbers times
            → MatchResult result (λ tracker. (numbers_of tracker ≡ numbers) × (times_of tracker ≡ times)) (λ fault. fault ≡ Memory) }
    {
        read_tracker(alloc, buf)
    }

    /// A tracker with the same pairs, capacity, interval and last recorded time.
    pub fn clone(&self) -> Result<SequenceTracker, NoMemory>
        ensures { IfOk result (λ copy. copy ≡ self.now) }
    {
        let room = self.sequence_numbers.len().max(self.capacity as usize) + 2;
        Ok(SequenceTracker {
            sequence_numbers: copied_with_room(&self.sequence_numbers, room)?,
            timestamps: copied_with_room(&self.timestamps, room)?,
            capacity: self.capacity,
            interval_secs: self.interval_secs,
            last_recorded_ts: self.last_recorded_ts,
        })
    }
}

/// Trackers are equal where they have the same pairs, capacity and interval.
impl PartialEq for SequenceTracker {
    ghost use Rattle.std.proofs.Common.{rules};
    ghost use Rattle.std.specs.Cmp.Rules.{comparing};
    ghost use Rattle.slate_seqtrack.specs.Tracker.{same_tracker};

    ghost eq = { same_tracker };

    ghost laws = { Prim.search (comparing, rules) depth 9 };

    fn eq(&self, other: &SequenceTracker) -> bool {
        let same_limits = self.capacity == other.capacity
            && self.interval_secs == other.interval_secs;
        same_limits && self.numbers() == other.numbers() && self.times() == other.times()
    }
}

/// The tracker at the front of these bytes.
fn read_tracker(alloc: Global, buf: &[u8]) -> Result<SequenceTracker, TrackerFault>
    ensures { MatchResult result (λ tracker. tracker_at buf.now ≡ Ok tracker) (IsReadFault (tracker_at buf.now)) }
{
    let (numbers, times) = read_lists(alloc, buf)?;
    let room = numbers.len().max(DEFAULT_CAPACITY as usize) + 2;
    Ok(SequenceTracker {
        sequence_numbers: copied_with_room(&numbers, room)?,
        timestamps: copied_with_room(&times, room)?,
        capacity: DEFAULT_CAPACITY,
        interval_secs: DEFAULT_INTERVAL_SECS,
        last_recorded_ts: times.last().copied(),
    })
}

/// Whether a time is less than the interval after the last recorded one.
fn is_early(interval_secs: u64, recorded: Option<i64>, ts: i64) -> bool
    ensures { result ≡ is_early interval_secs recorded ts }
{
    match recorded {
        Some(last) => i128::from(ts) < i128::from(last) + i128::from(interval_secs),
        None => false,
    }
}

/// A copy of a list with room for so many elements.
fn copied_with_room<T: Copy>(list: &Vec<T>, room: usize) -> Result<Vec<T>, NoMemory>
    requires { vec_len list.now ≤ room }
    ensures { IfOk result (λ copy. (copy.items ≡ list.now.items) × (vec_capacity copy ≡ room)) }
{
    let mut copy = Vec::with_capacity(*list.allocator(), room)?;
    for item in list {
        copy.push_reserved(*item);
    }
    Ok(copy)
}
