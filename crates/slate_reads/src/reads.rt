// Plain reads: up to which number they see batches, and the row that a key's versions make.
ghost use Rattle.std.specs.Prelude.{◌≡◌, ◌++◌, [], ◌∷◌, ◌↔◌, None, Option, List, IsTrue, IfOk, IfSome, OnOk, OnErr, map};
ghost use Rattle.std.specs.List.{AllByRecursion};
ghost use Rattle.std.specs.Option.{option_copied};
ghost use Rattle.slate_reads.specs.Bound.{least, read_bound};
ghost use Rattle.slate_types.specs.Operator.{Merge};
ghost use Rattle.slate_reads.specs.Tails.{seen, IsTail};
ghost use Rattle.slate_reads.specs.Read.{Version as SeenVersion, IsOperator, Reads, history, read_at, row_after, fold_versions, versions_in, since_base, is_base, is_within, tail};

use bytes::Bytes;
use slate_types::{
    Batch, DurabilityLevel, KeyOp, KeyValue, MergeFault, MergeOperator, NoMemory, Op, ReadFault,
};
use std::alloc::Global;

/// Up to which number a read sees batches: the least of the bounds that it has. They are `user`, where there is one,
/// `durable` at the level of the object store, and `committed` unless the read is dirty. It takes no memory. SlateDB's
/// `prepare_max_seq`.
pub fn prepare_max_seq(
    user: Option<u64>,
    durable: u64,
    committed: u64,
    level: DurabilityLevel,
    dirty: bool,
) -> Option<u64>
    ensures { result ≡ read_bound user durable committed level dirty }
{
    let durable = match level {
        DurabilityLevel::Memory => None,
        DurabilityLevel::Remote => Some(durable),
    };
    let committed = if dirty { None } else { Some(committed) };
    least(user, least(durable, committed))
}

/// The least of two bounds, of which each may be absent.
fn least(bound: Option<u64>, other: Option<u64>) -> Option<u64>
    ensures { result ≡ least bound other }
{
    match (bound, other) {
        (Some(bound), Some(other)) => Some(bound.min(other)),
        (Some(bound), None) => Some(bound),
        (None, other) => other,
    }
}

/// A version of a key: an operation on it, in its batch.
#[derive(Clone, Copy)]
pub struct Version<'a> {
    pub batch: &'a Batch,
    pub key_op: &'a KeyOp,
}

/// Reads a key in batches up to a bound, which is a number; without one, in all of them. What is found is what the
/// key's operations since the last put or delete make of it. One pass over the batches.
pub fn read<M: MergeOperator>(
    alloc: Global,
    batches: &[Batch],
    bound: Option<u64>,
    key: &[u8],
    operator: Option<&M>,
) -> Result<Option<KeyValue>, ReadFault>
    // The answer is the plain read, unless memory ran out, whatever lawful function the operator is.
    ensures plain { (merge : Option Merge) → IsOperator M.may_answer (option_copied operator.entry) merge →
        Reads (read_at merge batches.now bound key.now) result }
{
    let versions = tail_of(alloc, batches, bound, key)?;
    fold(alloc, key, versions.as_slice(), operator)
}

/// The tail of a key in batches up to a bound: its versions since the last put or delete.
pub(crate) fn tail_of<'a>(
    alloc: Global,
    batches: &'a [Batch],
    bound: Option<u64>,
    key: &[u8],
) -> Result<Vec<Version<'a>>, NoMemory>
    ensures { IfOk result (λ versions. IsTail key.now (history batches.now bound key.now) versions.items) }
{
    let mut versions = Vec::new(alloc);
    for batch in batches {
        if is_within(bound, batch.number) {
            add_versions(&mut versions, batch, key)?;
        }
    }
    Ok(versions)
}

/// Adds a batch's versions of a key to a tail, oldest first. A put or a delete begins it anew. One pass over the batch.
pub fn add_versions<'a>(
    versions: &mut Vec<Version<'a>>,
    batch: &'a Batch,
    key: &[u8],
) -> Result<(), NoMemory>
    ensures { OnOk result ((history : List SeenVersion) → IsTail key.now history versions.old.items →
        IsTail key.now (history ++ versions_in key.now batch.now) versions.new.items) }
{
    for key_op in batch.ops.as_slice() {
        if key_op.key.as_slice() == key {
            add_version(versions, Version { batch, key_op })?;
        }
    }
    Ok(())
}

/// Adds a version to a tail. A put or a delete begins it anew.
fn add_version<'a>(versions: &mut Vec<Version<'a>>, version: Version<'a>) -> Result<(), NoMemory>
    ensures { OnOk result ((history : List SeenVersion) → IsTail version.entry.key_op.now.key history versions.old.items →
        IsTail version.entry.key_op.now.key (history ++ seen version.entry ∷ []) versions.new.items) }
{
    if is_base(&version.key_op.op) {
        versions.clear();
    }
    Ok(versions.push(version)?)
}

/// The row that versions of a key make, oldest first, where they leave one: a put sets it, a delete removes it, and a
/// merge hands it to the operator. The first fault ends it. One pass over the versions; it copies no bytes of its own.
pub fn fold<M: MergeOperator>(
    alloc: Global,
    key: &[u8],
    versions: &[Version<'_>],
    operator: Option<&M>,
) -> Result<Option<KeyValue>, ReadFault>
    requires { AllByRecursion (λ v. v.key_op.now.key ≡ key.now) versions.now }
    ensures plain { (merge : Option Merge) → IsOperator M.may_answer (option_copied operator.entry) merge →
        Reads (fold_versions merge key.now None (map seen versions.now)) result }
    ensures keyed { IfOk result (λ found. IfSome found (λ row. row.key ≡ key.now)) }
{
    let mut row = None;
    for version in versions {
        row = apply(alloc, row.as_ref(), version, operator)?;
    }
    Ok(row)
}

/// The row after one more version came to it.
fn apply<M: MergeOperator>(
    alloc: Global,
    before: Option<&KeyValue>,
    version: &Version<'_>,
    operator: Option<&M>,
) -> Result<Option<KeyValue>, ReadFault>
    ensures plain { (merge : Option Merge) → IsOperator M.may_answer (option_copied operator.entry) merge →
        Reads (row_after merge version.now.key_op.now.key (option_copied before.entry) (seen version.now) version.now.key_op.now.op) result }
    ensures keyed { IfOk result (λ found. IfSome found (λ row. row.key ≡ version.now.key_op.now.key)) }
{
    let (value, expire_ts) = match &version.key_op.op {
        Op::Put(value, expire_ts) => (value.clone().map_err(NoMemory::from)?, *expire_ts),
        Op::Delete => return Ok(None),
        Op::Merge(operand, expire_ts) => {
            let Some(operator) = operator else {
                return Err(ReadFault::MergeOperatorMissing);
            };
            let existing = before.map(|row| &row.value);
            match operator.merge(alloc, version.key_op.key.as_slice(), existing, operand) {
                Ok(value) => (value, *expire_ts),
                Err(MergeFault::Refused) => return Err(ReadFault::MergeOperatorError),
                Err(MergeFault::NoMemory) => return Err(ReadFault::NoMemory),
            }
        }
    };
    Ok(Some(KeyValue {
        key: version.key_op.key.clone().map_err(NoMemory::from)?,
        value,
        seq: version.batch.number,
        create_ts: version.batch.create_ts,
        expire_ts,
    }))
}

/// Whether nothing before an operation counts for its key: a put or a delete. It takes no memory.
pub fn is_base(op: &Op) -> bool
    ensures { result ≡ is_base op.now }
{
    match op {
        Op::Put(..) => true,
        Op::Delete => true,
        Op::Merge(..) => false,
    }
}

/// Whether a batch of this number is seen at a bound, which is a number; without one each is. It takes no memory.
pub fn is_within(bound: Option<u64>, number: u64) -> bool
    ensures { result ≡ is_within bound number }
{
    match bound {
        None => true,
        Some(bound) => number <= bound,
    }
}
