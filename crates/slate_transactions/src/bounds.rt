// The entries of an ordered map in a range.
ghost use Rattle.std.specs.Prelude.{◌≡◌};
ghost use Rattle.std.specs.List.{filter};
ghost use Rattle.slate_types.specs.Range.{contains};

use bytes::Bytes;
use slate_reads::{as_bound, is_crossed};
use slate_types::ByteRange;
use std::collections::BTreeMap;
use std::collections::btree_map::Range;
use std::ops::Bound;

/// The entries whose keys are in a range, in order. It takes time logarithmic in the keys, constant for each step of the
/// walk, and no memory.
pub(crate) fn entries_in<'a, V>(
    map: &'a BTreeMap<Bytes, V>,
    range: &ByteRange,
) -> Range<'a, Bytes, V>
    ensures { result ≡ filter (λ e. contains range.now e.0) map.now.entries }
{
    if is_crossed(range) {
        let least = Bytes::new();
        return map.range((Bound::Unbounded, Bound::Excluded(&least)));
    }
    map.range((as_bound(&range.low), as_bound(&range.high)))
}
