// Operations on the keys with a prefix, newest source first.
ghost use Rattle.std.specs.Prelude.{◌≡◌, [], ◌∷◌, ◌++◌, map, reverse, IfOk, OnOk, MatchOption};
ghost use Rattle.std.specs.List.Sorted.{IsPermutation, IsSorted, IsStable};
ghost use Rattle.slate_reads.specs.Read.{history};
ghost use Rattle.slate_rows.specs.Walked.{key_list};
ghost use Rattle.slate_rows.specs.Recency.{listed, version_entry, AreNewestFirst, IsRecency, entry_of, batch_entries, source_entries, recency_cmp};

use crate::indexed_scans::{add_table_keys, order_keys};
use crate::{IterationOrder, RowEntry, ValueDeletable};
use bytes::Bytes;
use slate_reads::{Indexed, IndexedTable, Version, add_newest_versions, is_within};
use slate_types::{Batch, ByteRange, KeyOp, NoMemory, Op, Seq};
use std::alloc::Global;
use std::cmp::Ordering;
use std::collections::VecDeque;
use std::marker::Model;

/// An iterator over operations, each on its own. A contract sees the list of those that are left.
#[derive(Debug)]
pub struct DbRecencyIterator {
    entries: VecDeque<RowEntry>,
}

impl Drop for DbRecencyIterator {
    fn drop(self) {
        let DbRecencyIterator { entries: _ } = self;
    }
}

impl Model for DbRecencyIterator {
    ghost use Rattle.std.specs.Prelude.{List};
    ghost use Rattle.slate_rows.specs.declared.entries.RowEntry.{RowEntry};

    ghost Value = { List RowEntry };

    ghost view = { λ i. i.entries.items };
}

impl DbRecencyIterator {
    /// The next operation, or None. It takes no memory.
    pub fn next_entry(&mut self) -> Option<RowEntry>
        ensures { MatchOption result ((self.old ≡ []) × (self.new ≡ [])) (λ entry. self.old ≡ entry ∷ self.new) }
    {
        self.entries.pop_front()
    }
}

/// The operations on keys with a prefix, in batches up to a bound, which is a number; without one, in all of them. The
/// sources, which are lists of batches, come newest first. Within a source the keys come in the order, of one key the
/// greatest number first, and within a batch the later operation first. It takes one pass over the batches and a sort
/// of the operations, and copies no bytes. SlateDB's `scan_prefix_by_recency`.
pub fn recency(
    alloc: Global,
    sources: &Seq<Seq<Batch>>,
    bound: Option<u64>,
    prefix: &[u8],
    order: IterationOrder,
) -> Result<DbRecencyIterator, NoMemory>
    ensures { IfOk result (IsRecency order (map (source_entries bound prefix.now) sources.now)) }
{
    let mut entries = VecDeque::new(alloc);
    for source in sources.as_slice() {
        let mut found = newest_first(alloc, source.as_slice(), bound, prefix, order)?;
        entries.append(&mut found)?;
    }
    Ok(DbRecencyIterator { entries })
}

/// The entries of a source.
fn newest_first(
    alloc: Global,
    batches: &[Batch],
    bound: Option<u64>,
    prefix: &[u8],
    order: IterationOrder,
) -> Result<VecDeque<RowEntry>, NoMemory>
    ensures { IfOk result (λ entries. AreNewestFirst order (source_entries bound prefix.now batches.now) entries.items) }
{
    let mut entries = Vec::new(alloc);
    for batch in batches {
        if is_within(bound, batch.number) {
            add_entries(&mut entries, batch, prefix)?;
        }
    }
    entries.reverse();
    sort(&mut entries, order)?;
    Ok(VecDeque::from_vec(entries))
}

/// Sorts entries by key in the order, and by number, the greatest first. The others keep their order.
fn sort(entries: &mut Vec<RowEntry>, order: IterationOrder) -> Result<(), NoMemory>
    ensures moved { IsPermutation entries.old.items entries.new.items }
    ensures sorted { OnOk result (IsSorted (recency_cmp order) entries.new.items) }
    ensures stable { OnOk result (IsStable (recency_cmp order) entries.old.items entries.new.items) }
{
    Ok(entries.sort_by(|left, right| compare(order, left, right))?)
}

/// Adds the operations of a batch on keys with a prefix.
fn add_entries(entries: &mut Vec<RowEntry>, batch: &Batch, prefix: &[u8]) -> Result<(), NoMemory>
    ensures { OnOk result (entries.new.items ≡ entries.old.items ++ batch_entries prefix.now batch.now) }
{
    for key_op in batch.ops.as_slice() {
        if key_op.key.as_slice().starts_with(prefix) {
            entries.push(entry_of(batch, key_op)?)?;
        }
    }
    Ok(())
}

/// An operation of a batch as an entry, which shares its bytes.
fn entry_of(batch: &Batch, key_op: &KeyOp) -> Result<RowEntry, NoMemory>
    ensures { IfOk result (λ entry. entry ≡ entry_of batch.now key_op.now) }
{
    let (value, expire_ts) = match &key_op.op {
        Op::Put(value, expire_ts) => (ValueDeletable::Value(value.clone()?), *expire_ts),
        Op::Delete => (ValueDeletable::Tombstone, None),
        Op::Merge(operand, expire_ts) => (ValueDeletable::Merge(operand.clone()?), *expire_ts),
    };
    Ok(RowEntry {
        key: key_op.key.clone()?,
        value,
        seq: batch.number,
        create_ts: batch.create_ts,
        expire_ts,
    })
}

/// How two entries of a source stand: by key in the order, and of one key the greatest number first.
fn compare(order: IterationOrder, left: &RowEntry, right: &RowEntry) -> Ordering
    ensures { result ≡ recency_cmp order left.now right.now }
{
    order
        .compare(left.key.as_slice(), right.key.as_slice())
        .then(right.seq.cmp(&left.seq))
}

/// The operations that `recency` lists, of sources that are tables, newest first, by their indexes. Of each table it walks over
/// the keys with the prefix, and of each of these over its operations, from the newest on. It takes time logarithmic in the
/// keys of the table, and then for each key a look-up by hash, and for each of its operations constant time. It takes memory
/// for each key and each operation that it lists, and copies no bytes.
pub fn recency_indexed<T: Indexed>(
    alloc: Global,
    sources: &[T],
    bound: Option<u64>,
    prefix: &[u8],
    order: IterationOrder,
) -> Result<DbRecencyIterator, NoMemory>
    ensures { IfOk result (IsRecency order (map (λ source. source_entries bound prefix.now (T.batches source)) sources.now)) }
{
    let mut entries = VecDeque::new(alloc);
    for source in sources {
        let mut found = list_table(alloc, source.as_indexed(), bound, prefix, order)?;
        entries.append(&mut found)?;
    }
    Ok(DbRecencyIterator { entries })
}

/// The entries of a table.
fn list_table(
    alloc: Global,
    table: &IndexedTable,
    bound: Option<u64>,
    prefix: &[u8],
    order: IterationOrder,
) -> Result<VecDeque<RowEntry>, NoMemory>
    ensures { IfOk result (λ entries. AreNewestFirst order (source_entries bound prefix.now table.now) entries.items) }
{
    if table.batches().is_empty() {
        return Ok(VecDeque::new(alloc));
    }
    let range = ByteRange::prefix(alloc, prefix)?;
    let mut keys = Vec::new(alloc);
    add_table_keys(&mut keys, table, &range)?;
    order_keys(&mut keys, order)?;
    let entries = list_keys(alloc, table, bound, prefix, keys.as_slice())?;
    Ok(VecDeque::from_vec(entries))
}

/// The entries of keys, of those with a prefix.
fn list_keys(
    alloc: Global,
    table: &IndexedTable,
    bound: Option<u64>,
    prefix: &[u8],
    keys: &[&Bytes],
) -> Result<Vec<RowEntry>, NoMemory>
    ensures { IfOk result (λ entries. entries.items ≡ listed bound prefix.now table.now (key_list keys.now)) }
{
    let mut entries = Vec::new(alloc);
    let mut versions = Vec::new(alloc);
    for key in keys {
        if key.as_slice().starts_with(prefix) {
            add_history(&mut entries, &mut versions, table, bound, key)?;
        }
    }
    Ok(entries)
}

/// Adds the entries of a key, newest first. The room of `versions` is used for its versions.
fn add_history<'a>(
    entries: &mut Vec<RowEntry>,
    versions: &mut Vec<Version<'a>>,
    table: &'a IndexedTable,
    bound: Option<u64>,
    key: &Bytes,
) -> Result<(), NoMemory>
    ensures { OnOk result (entries.new.items ≡ entries.old.items ++ map (version_entry key.now) (reverse (history table.now bound key.now))) }
{
    versions.clear();
    add_newest_versions(versions, table, bound, key)?;
    for version in versions.as_slice() {
        entries.push(entry_of(version.batch, version.key_op)?)?;
    }
    Ok(())
}
