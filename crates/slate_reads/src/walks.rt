// Walking over the keys of a range in a table, in order.
ghost use Rattle.std.specs.Prelude.{◌≡◌, ◌≢◌, [], ℕ, List, Contains, true};
ghost use Rattle.std.specs.List.{AllByRecursion, flat_map};
ghost use Rattle.std.specs.List.Sorted.{IsStrictlySortedBy};
ghost use Rattle.std.specs.Range.Bound.{bound_map};
ghost use Rattle.slate_types.specs.Range.{contains, key_cmp};
ghost use Rattle.slate_reads.specs.Read.{versions_in};
ghost use Rattle.slate_reads.specs.Walk.{is_crossed, bound_of};

use crate::IndexedTable;
use bytes::Bytes;
use slate_types::{ByteRange, KeyBound};
use std::collections::btree_set::Range;
use std::ops::Bound;

impl IndexedTable {
    /// The keys of a range that have an operation, in order; keys of a batch that came back for want of memory, or was
    /// taken back, may be among them. It takes time logarithmic in the keys, and constant for each step of the walk. It
    /// takes no memory.
    pub fn keys(&self, range: &ByteRange) -> Range<'_, Bytes>
        ensures in_order { IsStrictlySortedBy key_cmp result }
        ensures within { AllByRecursion (λ key. contains range.now key ≡ true) result }
        ensures whole { (key : List ℕ) → contains range.now key ≡ true → flat_map (versions_in key) self.now ≢ [] → Contains result key }
    {
        if is_crossed(range) {
            let least = Bytes::new();
            return self
                .order
                .range((Bound::Unbounded, Bound::Excluded(&least)));
        }
        self.order
            .range((as_bound(&range.low), as_bound(&range.high)))
    }
}

/// Whether the bounds of a range cross, so that no key is between them; an ordered set or map isn't asked for such a range.
pub fn is_crossed(range: &ByteRange) -> bool
    ensures { result ≡ is_crossed range.now.low range.now.high }
{
    match (&range.low, &range.high) {
        (KeyBound::Unbounded, _) => false,
        (_, KeyBound::Unbounded) => false,
        (KeyBound::Excluded(low), KeyBound::Excluded(high)) => low >= high,
        (KeyBound::Excluded(low), KeyBound::Included(high)) => low > high,
        (KeyBound::Included(low), KeyBound::Excluded(high)) => low > high,
        (KeyBound::Included(low), KeyBound::Included(high)) => low > high,
    }
}

/// A bound, as an ordered set or map takes it.
pub fn as_bound(bound: &KeyBound) -> Bound<&Bytes>
    ensures { bound_map (λ key. key.now) result ≡ bound_of bound.now }
{
    match bound {
        KeyBound::Unbounded => Bound::Unbounded,
        KeyBound::Included(key) => Bound::Included(key),
        KeyBound::Excluded(key) => Bound::Excluded(key),
    }
}
