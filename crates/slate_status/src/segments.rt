// Lists of segment prefixes: copies, unions, and segments of them.
ghost use Rattle.std.specs.Prelude.{◌≡◌, ◌++◌, true, IfOk, IsTrue, All, Contains, map};
ghost use Rattle.std.specs.Ordering.{nat_cmp};
ghost use Rattle.std.specs.Cmp.Lexicographic.{slice_cmp};
ghost use Rattle.std.specs.BTreeSet.{IsFromIterResult};
ghost use Rattle.slate_status.specs.Segments.{PrefixesRise, IsUnion, union_of};

use bytes::Bytes;
use slate_types::NoMemory;
use std::alloc::Global;
use std::collections::BTreeSet;

/// A segment, by the prefix of its keys. Segments are ordered by it. SlateDB's type of this name.
#[derive(Debug, PartialEq, Eq, PartialOrd, Ord)]
pub struct SegmentPrefix {
    pub prefix: Bytes,
}

impl Drop for SegmentPrefix {
    fn drop(self) {
        let SegmentPrefix { prefix: _ } = self;
    }
}

/// Copies of prefixes, which share their bytes.
#[tactic(auto, using(slate_store::proofs::Copies::same_items))]
pub fn copies(alloc: Global, prefixes: &[Bytes]) -> Result<Vec<Bytes>, NoMemory>
    ensures { IfOk result (λ copies. copies.items ≡ prefixes.now) }
{
    Ok(prefixes.to_vec(alloc)?)
}

// The set of these prefixes.
fn set_of(alloc: Global, prefixes: Vec<Bytes>) -> Result<BTreeSet<Bytes>, NoMemory>
    ensures { IfOk result (IsFromIterResult (slice_cmp nat_cmp) prefixes.items) }
{
    Ok(prefixes.into_iter().collect(alloc)?)
}

/// The prefixes of a set, rising.
pub fn listed(alloc: Global, set: BTreeSet<Bytes>) -> Result<Vec<Bytes>, NoMemory>
    ensures listed { IfOk result (λ prefixes. prefixes.items ≡ set.keys) }
    ensures rising { IfOk result (λ prefixes. PrefixesRise prefixes.items) }
{
    Ok(set.into_iter().collect(alloc)?)
}

/// The prefixes of either list, rising, each once. It takes n log n comparisons, for n prefixes in both.
pub fn union(alloc: Global, first: &[Bytes], second: &[Bytes]) -> Result<Vec<Bytes>, NoMemory>
    ensures union { IfOk result (λ prefixes. IsUnion first.now second.now prefixes.items) }
    ensures set { IfOk result (λ prefixes. prefixes.items ≡ union_of first.now second.now) }
{
    let mut all = copies(alloc, first)?;
    all.append(&mut copies(alloc, second)?)?;
    listed(alloc, set_of(alloc, all)?)
}

// The segments of these prefixes, in their order.
pub(crate) fn segments_of(
    alloc: Global,
    prefixes: Vec<Bytes>,
) -> Result<Vec<SegmentPrefix>, NoMemory>
    ensures { IfOk result (λ segments. segments.items ≡ map (λ p. record { prefix = p }) prefixes.items) }
{
    let segments = prefixes.into_iter();
    Ok(
        segments
            .map(|prefix| SegmentPrefix { prefix })
            .collect(alloc)?,
    )
}

// Whether a search in prefixes that rise finds this one.
fn is_among(prefix: &Bytes, present: &[Bytes]) -> bool
    ensures { result ≡ true → Contains present.now prefix.now }
{
    present.binary_search(prefix).is_ok()
}

/// Whether searches in these prefixes, which rise, find each of those. A logarithm of them for each.
pub fn are_among(prefixes: &[Bytes], present: &[Bytes]) -> bool
    ensures { result ≡ true → All (Contains present.now) prefixes.now }
{
    for prefix in prefixes {
        if !is_among(prefix, present) {
            return false;
        }
    }
    true
}
