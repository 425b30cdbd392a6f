// Reading a key in stored tables and those in memory by their indexes.
ghost use Rattle.std.specs.Prelude.{◌≡◌, ◌++◌, ◌+◌, ◌≤◌, [], ℕ, Bool, false, List, Option, Some, IfOk, IfSome, OnOk, MatchOption, if◌then◌else◌, length};
ghost use Rattle.std.specs.List.{flat_map};
ghost use Rattle.std.specs.Option.{option_copied};
ghost use Rattle.slate_types.specs.Operator.{Merge};
ghost use Rattle.slate_types.specs.declared.batches.Batch.{Batch as AnyBatch};
ghost use Rattle.slate_reads.specs.Run.{Stands};
ghost use Rattle.slate_reads.specs.Tails.{IsTail, IsEnd, IsBack};
ghost use Rattle.slate_reads.specs.Read.{Version as SeenVersion, IsOperator, Reads, read_at, history};

use crate::reads::{Version, fold, is_base, is_within, tail_of};
use crate::tables::{Entry, last_place};
use crate::windows::Window;
use crate::{IndexedTable, Table};
use bytes::Bytes;
use slate_types::{Batch, KeyValue, MergeOperator, NoMemory, ReadFault};
use std::alloc::Global;

/// A table with indexes: one in memory or a stored one.
pub trait Indexed {
    /// Its batches.
    ghost batches: { Self → List AnyBatch };

    /// The table with its indexes.
    fn as_indexed(&self) -> &IndexedTable
        ensures { result.now ≡ batches self.now };
}

impl Indexed for IndexedTable {
    ghost batches = { λ table. table };

    fn as_indexed(&self) -> &IndexedTable {
        self
    }
}

impl Indexed for Table {
    ghost batches = { λ table. table };

    fn as_indexed(&self) -> &IndexedTable {
        self.indexed()
    }
}

/// Reads a key as `read` does in `older`, followed by the batches of the stored tables and then of those in memory. It
/// takes a look-up in each table, from the last back to the first with a put or a delete within the bound, and goes over
/// the key's operations since then, with those above the bound. Only where no table has one it goes over `older`, once.
/// It copies the key.
pub fn read_indexed<M: MergeOperator>(
    alloc: Global,
    older: &[Batch],
    stored: &[Table],
    memory: &[IndexedTable],
    bound: Option<u64>,
    key: &[u8],
    operator: Option<&M>,
) -> Result<Option<KeyValue>, ReadFault>
    // The answer is the plain read, unless memory ran out, whatever lawful function the operator is.
    ensures plain { (merge : Option Merge) → IsOperator M.may_answer (option_copied operator.entry) merge →
        Reads (read_at merge (older.now ++ (flat_map (λ table. table) stored.now ++ flat_map (λ table. table) memory.now)) bound key.now) result }
{
    let key = Bytes::copy_from_slice(alloc, key).map_err(NoMemory::from)?;
    read_key(alloc, older, stored, memory, bound, &key, operator)
}

/// Reads a key as `read_indexed` does, and copies nothing.
pub fn read_key<M: MergeOperator>(
    alloc: Global,
    older: &[Batch],
    stored: &[Table],
    memory: &[IndexedTable],
    bound: Option<u64>,
    key: &Bytes,
    operator: Option<&M>,
) -> Result<Option<KeyValue>, ReadFault>
    // The answer is the plain read, unless memory ran out, whatever lawful function the operator is.
    ensures plain { (merge : Option Merge) → IsOperator M.may_answer (option_copied operator.entry) merge →
        Reads (read_at merge (older.now ++ (flat_map (λ table. table) stored.now ++ flat_map (λ table. table) memory.now)) bound key.now) result }
    ensures keyed { IfOk result (λ found. IfSome found (λ row. row.key ≡ key.now)) }
{
    let versions = indexed_tail(alloc, older, stored, memory, bound, key)?;
    fold(alloc, key.as_slice(), versions.as_slice(), operator)
}

/// The tail of a key in `older`, followed by the batches of the tables.
fn indexed_tail<'a>(
    alloc: Global,
    older: &'a [Batch],
    stored: &'a [Table],
    memory: &'a [IndexedTable],
    bound: Option<u64>,
    key: &Bytes,
) -> Result<Vec<Version<'a>>, NoMemory>
    ensures { IfOk result (λ versions. IsTail key.now (history (older.now ++ (flat_map (λ table. table) stored.now ++ flat_map (λ table. table) memory.now)) bound key.now) versions.items) }
{
    let mut newest = Vec::new(alloc);
    let ended = add_from_all(&mut newest, stored, memory, bound, key)?;
    let mut versions = tail_before(alloc, older, bound, key.as_slice(), ended)?;
    newest.reverse();
    versions.extend_from_slice(newest.as_slice())?;
    Ok(versions)
}

/// The tail of a key in these batches, and nothing where it has ended.
fn tail_before<'a>(
    alloc: Global,
    older: &'a [Batch],
    bound: Option<u64>,
    key: &[u8],
    ended: bool,
) -> Result<Vec<Version<'a>>, NoMemory>
    ensures { IfOk result (λ versions. IsTail key.now (if ended then [] else history older.now bound key.now) versions.items) }
{
    if ended {
        return Ok(Vec::new(alloc));
    }
    tail_of(alloc, older, bound, key)
}

/// Takes the versions of a key in the tables in memory and then in the stored ones, newest first, up to a put or a
/// delete, and says whether there is one.
fn add_from_all<'a>(
    newest: &mut Vec<Version<'a>>,
    stored: &'a [Table],
    memory: &'a [IndexedTable],
    bound: Option<u64>,
    key: &Bytes,
) -> Result<bool, NoMemory>
    ensures { IfOk result (λ ended. (whole rest : List SeenVersion) →
        IsEnd key.now whole (rest ++ history (flat_map (λ table. table) stored.now ++ flat_map (λ table. table) memory.now) bound key.now) false newest.old.items →
        IsEnd key.now whole rest ended newest.new.items) }
{
    if add_from_tables(newest, memory, bound, key)? {
        return Ok(true);
    }
    add_from_tables(newest, stored, bound, key)
}

/// Takes the versions of a key in tables, newest first, up to a put or a delete, and says whether there is one.
fn add_from_tables<'a, T: Indexed>(
    newest: &mut Vec<Version<'a>>,
    tables: &'a [T],
    bound: Option<u64>,
    key: &Bytes,
) -> Result<bool, NoMemory>
    ensures { IfOk result (λ ended. (whole rest : List SeenVersion) → IsEnd key.now whole (rest ++ history (flat_map T.batches tables.now) bound key.now) false newest.old.items →
        IsEnd key.now whole rest ended newest.new.items) }
{
    let mut left = tables;
    while let Some((table, earlier)) = left.split_last() {
        if add_from_table(newest, table.as_indexed(), bound, key)? {
            return Ok(true);
        }
        left = earlier;
    }
    Ok(false)
}

/// Takes the versions of a key in a table, newest first, up to a put or a delete, and says whether there is one.
fn add_from_table<'a>(
    newest: &mut Vec<Version<'a>>,
    table: &'a IndexedTable,
    bound: Option<u64>,
    key: &Bytes,
) -> Result<bool, NoMemory>
    ensures { IfOk result (λ ended. (whole rest : List SeenVersion) → IsEnd key.now whole (rest ++ history table.now bound key.now) false newest.old.items →
        IsEnd key.now whole rest ended newest.new.items) }
{
    let mut next = last_place(&table.latest, key);
    while let Some(entry) = entry_at(&table.entries, next) {
        let batch = table.batches.at(entry.batch);
        if is_within(bound, batch.number) {
            let key_op = &batch.ops.as_slice()[entry.op];
            newest.push(Version { batch, key_op })?;
            if is_base(&key_op.op) {
                return Ok(true);
            }
        }
        next = entry.previous;
    }
    Ok(false)
}

/// Adds the versions of a key in a table up to a bound, newest first. It takes a look-up, and goes over the key's
/// operations, with those above the bound.
pub fn add_newest_versions<'a>(
    newest: &mut Vec<Version<'a>>,
    table: &'a IndexedTable,
    bound: Option<u64>,
    key: &Bytes,
) -> Result<(), NoMemory>
    ensures { OnOk result ((whole rest : List SeenVersion) → IsBack key.now whole (rest ++ history table.now bound key.now) newest.old.items →
        IsBack key.now whole rest newest.new.items) }
{
    let mut next = last_place(&table.latest, key);
    while let Some(entry) = entry_at(&table.entries, next) {
        let batch = table.batches.at(entry.batch);
        if is_within(bound, batch.number) {
            let key_op = &batch.ops.as_slice()[entry.op];
            newest.push(Version { batch, key_op })?;
        }
        next = entry.previous;
    }
    Ok(())
}

/// The entry at a place, unless it was dropped.
fn entry_at(entries: &Window<Entry>, place: Option<usize>) -> Option<Entry>
    ensures { MatchOption result (IfSome place (λ p. entries.now.start ≤ p → entries.now.start + length entries.now.items ≤ p))
        (λ entry. (p : ℕ) × (place ≡ Some p) × Stands entries.now p entry) }
{
    entries.get(place?).copied()
}
