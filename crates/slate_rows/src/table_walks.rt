// Walks over the keys of a range in several tables at once, in order.
ghost use Rattle.std.specs.Prelude.{◌≡◌, ◌≢◌, ◌<◌, ◌∷◌, ◌++◌, [], ℕ, List, Contains, IfSome, MatchOption, OnOk, true, length};
ghost use Rattle.std.specs.List.{AllByRecursion, flat_map};
ghost use Rattle.std.specs.Option.{option_copied};
ghost use Rattle.slate_types.specs.Order.{AreInOrder};
ghost use Rattle.slate_types.specs.Range.{contains};
ghost use Rattle.slate_types.specs.declared.batches.Batch.{Batch as AnyBatch};
ghost use Rattle.slate_reads.specs.Read.{versions_in};
ghost use Rattle.slate_rows.specs.Ahead.{turned, from_next, ahead, all_ahead, earlier, AreEach, AreAhead, IsFirst, Passes, Pass};
ghost use Rattle.slate_rows.specs.Walked.{AreWalked};

use crate::IterationOrder;
use bytes::Bytes;
use slate_reads::{Indexed, IndexedTable};
use slate_types::{ByteRange, NoMemory};
use std::collections::btree_set::Range;

/// A walk over the keys of a range in a table: the next key, and those after it.
#[derive(Drop)]
pub(crate) struct Walk<'a> {
    next: Option<&'a Bytes>,
    later: Range<'a, Bytes>,
}

impl<'a> Walk<'a> {
    /// A walk over the keys of a range in a table, in the order.
    fn over(table: &'a IndexedTable, range: &ByteRange, order: IterationOrder) -> Walk<'a>
        ensures in_order { AreInOrder order (ahead order result) }
        ensures within { AllByRecursion (λ key. contains range.now key ≡ true) (ahead order result) }
        ensures whole { (key : List ℕ) → contains range.now key ≡ true → flat_map (versions_in key) table.now ≢ [] → Contains (ahead order result) key }
    {
        let mut later = table.keys(range);
        let next = take_end(&mut later, order);
        Walk { next, later }
    }

    /// Passes a key, where it is next.
    fn pass(&mut self, key: &Bytes, order: IterationOrder)
        ensures { Passes order key.now self.old self.new }
    {
        let Some(next) = self.next else {
            return;
        };
        if next.as_slice() == key.as_slice() {
            self.next = take_end(&mut self.later, order);
        }
    }
}

/// Takes the first key in the order.
fn take_end<'a>(later: &mut Range<'a, Bytes>, order: IterationOrder) -> Option<&'a Bytes>
    ensures { from_next (option_copied result) (turned order later.new) ≡ turned order later.old }
{
    match order {
        IterationOrder::Ascending => later.next(),
        IterationOrder::Descending => later.next_back(),
    }
}

/// Adds a walk over the keys of a range in each table.
pub(crate) fn add_walks<'a, T: Indexed>(
    walks: &mut Vec<Walk<'a>>,
    tables: &'a [T],
    range: &ByteRange,
    order: IterationOrder,
) -> Result<(), NoMemory>
    ensures each { OnOk result (AreEach order walks.old.items → AreEach order walks.new.items) }
    ensures walked { OnOk result ((batches : List AnyBatch) → AreWalked batches range.now (all_ahead order walks.old.items) →
        AreWalked (batches ++ flat_map T.batches tables.now) range.now (all_ahead order walks.new.items)) }
{
    for table in tables {
        walks.push(Walk::over(table.as_indexed(), range, order))?;
    }
    Ok(())
}

/// The next key of the walks, which pass it. It looks at each walk.
pub(crate) fn next_key<'a>(walks: &mut [Walk<'a>], order: IterationOrder) -> Option<&'a Bytes>
    ensures each { AreEach order walks.old → AreEach order walks.new }
    ensures fewer { IfSome result (λ key. length (all_ahead order walks.new) < length (all_ahead order walks.old)) }
    ensures ahead { AreEach order walks.old → MatchOption result (AreAhead order walks.old [])
        (λ key. (rest : List (List ℕ)) → AreAhead order walks.new rest → AreAhead order walks.old (key.now ∷ rest)) }
{
    let Some(key) = first_key(walks, order) else {
        return None;
    };
    pass_key(walks, key, order);
    Some(key)
}

/// The first of the next keys of walks.
fn first_key<'a>(walks: &[Walk<'a>], order: IterationOrder) -> Option<&'a Bytes>
    ensures { MatchOption result (all_ahead order walks.now ≡ []) (λ key. IsFirst order key.now walks.now) }
{
    let mut first = None;
    for walk in walks {
        first = earlier(first, walk.next, order);
    }
    first
}

/// The one of two keys that comes first, of which each may be absent.
fn earlier<'a>(
    first: Option<&'a Bytes>,
    next: Option<&'a Bytes>,
    order: IterationOrder,
) -> Option<&'a Bytes>
    ensures { option_copied result ≡ earlier order (option_copied first.entry) (option_copied next.entry) }
{
    let Some(key) = first else {
        return next;
    };
    match next {
        Some(other) if order.is_before(other.as_slice(), key.as_slice()) => next,
        _ => first,
    }
}

/// Each walk passes a key.
fn pass_key(walks: &mut [Walk<'_>], key: &Bytes, order: IterationOrder)
    ensures { Pass order key.now walks.old walks.new }
{
    for walk in walks.iter_mut() {
        walk.pass(key, order);
    }
}
