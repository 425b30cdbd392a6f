// Scanning a range in a list of batches.
ghost use Rattle.std.specs.Prelude.{◌≡◌, ◌<◌, ◌≤◌, ℕ, List, [], ◌∷◌, ◌++◌, drop, map, length, take_while, All, IsTrue, IfOk, IfSome, OnOk, true, None, Option};
ghost use Rattle.std.specs.List.{AllByRecursion};
ghost use Rattle.std.specs.List.Sorted.{IsPermutation};
ghost use Rattle.std.specs.Option.{option_copied};
ghost use Rattle.std.specs.Str.{bytes_eq};
ghost use Rattle.slate_types.specs.declared.scan_options.IterationOrder.{IterationOrder};
ghost use Rattle.slate_rows.specs.Gathered.{AreGathered, AddsRow, AreSorted, of_key, held_rows};
ghost use Rattle.slate_rows.specs.Iteration.{begun};
ghost use Rattle.slate_types.specs.Operator.{Merge};
ghost use Rattle.slate_types.specs.Order.{AreInOrder, row_keys};
ghost use Rattle.slate_types.specs.Range.{contains};
ghost use Rattle.slate_reads.specs.Read.{Version as SeenVersion, IsOperator, Reads, history, versions_in, fold_versions, since_base};
ghost use Rattle.slate_rows.specs.Scan.{IsScan};
ghost use Rattle.slate_reads.specs.Tails.{seen};

use crate::{DbIterator, IterationOrder};
use slate_reads::{Version, fold, is_base, is_within};
use slate_types::{Batch, ByteRange, KeyValue, MergeOperator, NoMemory, ReadFault, Seq};
use std::alloc::Global;

/// Reads the keys of a range in batches up to a bound, which is a number; without one, in all of them. The rows that
/// are found come in the order asked for, up to the first key whose read is refused: its fault ends them. It takes one
/// pass over the batches and a sort of the operations in the range, and copies no bytes.
pub fn scan<M: MergeOperator>(
    alloc: Global,
    batches: &[Batch],
    bound: Option<u64>,
    range: &ByteRange,
    order: IterationOrder,
    operator: Option<&M>,
) -> Result<DbIterator, NoMemory>
    // The rows are the plain scan, whatever lawful function the operator is.
    ensures plain { (merge : Option Merge) → IsOperator M.may_answer (option_copied operator.entry) merge →
        IfOk result (λ it. IsScan merge batches.now bound range.now order it.rows it.fault) }
    ensures begun { IfOk result (λ it. it ≡ begun range.now order it.rows it.fault) }
{
    let mut held = gather(alloc, batches, bound, range)?;
    sort(&mut held, order)?;
    let (rows, fault) = rows_of(alloc, held.as_slice(), operator)?;
    DbIterator::of_rows(alloc, range.clone()?, order, Seq::of(rows), fault)
}

/// The operations in a range, in batches up to a bound, in the order of the batches.
fn gather<'a>(
    alloc: Global,
    batches: &'a [Batch],
    bound: Option<u64>,
    range: &ByteRange,
) -> Result<Vec<Version<'a>>, NoMemory>
    ensures { IfOk result (λ held. AreGathered (history batches.now bound) range.now held.items) }
{
    let mut held = Vec::new(alloc);
    for batch in batches {
        if is_within(bound, batch.number) {
            gather_batch(&mut held, batch, range)?;
        }
    }
    Ok(held)
}

/// Adds a batch's operations in a range.
fn gather_batch<'a>(
    held: &mut Vec<Version<'a>>,
    batch: &'a Batch,
    range: &ByteRange,
) -> Result<(), NoMemory>
    ensures { OnOk result ((versions : List ℕ → List SeenVersion) → AreGathered versions range.now held.old.items →
        AreGathered (λ key. versions key ++ versions_in key batch.now) range.now held.new.items) }
{
    for key_op in batch.ops.as_slice() {
        if range.contains(key_op.key.as_slice()) {
            held.push(Version { batch, key_op })?;
        }
    }
    Ok(())
}

/// Sorts operations by key. Those of one key keep their order.
fn sort(held: &mut Vec<Version<'_>>, order: IterationOrder) -> Result<(), NoMemory>
    ensures sorted { OnOk result (AreSorted order held.new.items) }
    ensures moved { IsPermutation held.old.items held.new.items }
    ensures same { OnOk result ((key : List ℕ) → of_key key held.new.items ≡ of_key key held.old.items) }
{
    Ok(held.sort_by(|left, right| {
        order.compare(left.key_op.key.as_slice(), right.key_op.key.as_slice())
    })?)
}

/// The rows of versions that are sorted by key, up to the first key whose read is refused, and that fault.
fn rows_of<M: MergeOperator>(
    alloc: Global,
    held: &[Version<'_>],
    operator: Option<&M>,
) -> Result<(Vec<KeyValue>, Option<ReadFault>), NoMemory>
    ensures plain { (order : IterationOrder) → AreSorted order held.now →
        (merge : Option Merge) → IsOperator M.may_answer (option_copied operator.entry) merge →
        IfOk result (λ taken. held_rows merge held.now ≡ record { rows = taken.0.items; fault = taken.1 }) }
    ensures in_order { (order : IterationOrder) → AreSorted order held.now →
        IfOk result (λ taken. AreInOrder order (row_keys taken.0.items)) }
    ensures within { (range : ByteRange) → AllByRecursion (λ h. contains range h.key_op.now.key ≡ true) held.now →
        IfOk result (λ taken. All (λ row. IsTrue (contains range row.key)) taken.0.items) }
{
    let mut rows = Vec::new(alloc);
    let mut start = 0;
    while start < held.len() {
        let key_op = held[start].key_op;
        let key = key_op.key.as_slice();
        let end = start + front_len(key, &held[start..]);
        let found = fold_tail(alloc, key, &held[start..end], operator);
        if let Some(fault) = add_found(&mut rows, found)? {
            return Ok((rows, Some(fault)));
        }
        start = end;
    }
    Ok((rows, None))
}

/// Adds the row that was found to the rows of a scan, or answers the fault that ends them.
pub fn add_found(
    rows: &mut Vec<KeyValue>,
    found: Result<Option<KeyValue>, ReadFault>,
) -> Result<Option<ReadFault>, NoMemory>
    ensures { IfOk result (AddsRow found rows.old.items rows.new.items) }
{
    match found {
        Ok(Some(row)) => rows.push(row)?,
        Ok(None) => {}
        Err(ReadFault::NoMemory) => return Err(NoMemory),
        Err(fault) => return Ok(Some(fault)),
    }
    Ok(None)
}

/// How many versions of a key stand at the front.
fn front_len(key: &[u8], held: &[Version<'_>]) -> usize
    ensures { result ≡ length (take_while (λ h. bytes_eq h.key_op.now.key key.now) held.now) }
{
    held.iter()
        .take_while(|version| version.key_op.key.as_slice() == key)
        .count()
}

/// The row that a key's versions make since the last put or delete, oldest first.
fn fold_tail<M: MergeOperator>(
    alloc: Global,
    key: &[u8],
    versions: &[Version<'_>],
    operator: Option<&M>,
) -> Result<Option<KeyValue>, ReadFault>
    requires { AllByRecursion (λ v. v.key_op.now.key ≡ key.now) versions.now }
    ensures plain { (merge : Option Merge) → IsOperator M.may_answer (option_copied operator.entry) merge →
        Reads (fold_versions merge key.now None (since_base (map seen versions.now))) result }
    ensures keyed { IfOk result (λ found. IfSome found (λ row. row.key ≡ key.now)) }
{
    let start = tail_start(versions);
    fold(alloc, key, &versions[start..], operator)
}

/// Where the last put or delete stands; 0 where there is none.
fn tail_start(versions: &[Version<'_>]) -> usize
    ensures within { result ≤ length versions.now }
    ensures tail { map seen (drop result versions.now) ≡ since_base (map seen versions.now) }
{
    let mut start = 0;
    for (i, version) in versions.iter().enumerate() {
        if is_base(&version.key_op.op) {
            start = i;
        }
    }
    start
}
