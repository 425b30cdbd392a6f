// Whether a key that a transaction depends on was written since it began.
ghost use Rattle.std.specs.Prelude.{◌≡◌, nat_lt};
ghost use Rattle.std.specs.List.{list_any};
ghost use Rattle.slate_transactions.specs.Transaction.{conflicts, is_any_newer, is_newer, is_newer_in};

use crate::bounds::entries_in;
use crate::{KeySet, TrackedWrites};
use bytes::Bytes;
use slate_types::{ByteRange, KeyOp};
use std::collections::btree_map::Range;

/// Whether a key was written after a number that these operations write and that isn't unmarked, or that was read, or that
/// is in a scanned range. It takes a look-up, which is logarithmic in the keys of the last writes, for each operation and
/// each key that was read, and for each range one and a step for each written key in it. It takes no memory.
pub fn has_conflict(
    writes: &TrackedWrites,
    number: u64,
    ops: &[KeyOp],
    unmarked: &KeySet,
    read: &KeySet,
    scanned: &[ByteRange],
) -> bool
    ensures { result ≡ conflicts number writes.now.writes ops.now unmarked.now read.now scanned.now }
{
    is_any_written(writes, number, ops, unmarked)
        || is_set_written(writes, number, read)
        || is_range_written(writes, number, scanned)
}

/// Whether one of these operations is on a key that was written after a number and isn't unmarked.
fn is_any_written(writes: &TrackedWrites, number: u64, ops: &[KeyOp], unmarked: &KeySet) -> bool
    ensures { result ≡ is_any_newer number writes.now.writes ops.now unmarked.now }
{
    ops.iter().any(|o| !unmarked.contains(&o.key) && number < writes.last_write(&o.key))
}

/// Whether a key of a set was written after a number.
fn is_set_written(writes: &TrackedWrites, number: u64, keys: &KeySet) -> bool
    ensures { result ≡ list_any (is_newer number writes.now.writes) keys.now }
{
    keys.keys.iter().any(|key| number < writes.last_write(key))
}

/// Whether a key in one of these ranges was written after a number.
fn is_range_written(writes: &TrackedWrites, number: u64, ranges: &[ByteRange]) -> bool
    ensures { result ≡ list_any (is_newer_in number writes.now.writes) ranges.now }
{
    for range in ranges {
        if is_written_in(writes, number, range) {
            return true;
        }
    }
    false
}

/// Whether a key in a range was written after a number.
fn is_written_in(writes: &TrackedWrites, number: u64, range: &ByteRange) -> bool
    ensures { result ≡ is_newer_in number writes.now.writes range.now }
{
    is_any_above(entries_in(&writes.last, range), number)
}

/// Whether one of these entries has a number above this one.
fn is_any_above(mut entries: Range<'_, Bytes, u64>, number: u64) -> bool
    ensures { result ≡ list_any (λ e. nat_lt number e.1) entries.entry }
{
    entries.any(|(_, last)| number < *last)
}
