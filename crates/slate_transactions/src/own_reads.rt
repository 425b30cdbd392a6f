// Reading a key in tables and in a transaction's own operations.
ghost use Rattle.std.specs.Prelude.{◌≡◌, ◌∷◌, ◌++◌, [], Option, IfOk, IfSome};
ghost use Rattle.std.specs.List.{flat_map, list_any};
ghost use Rattle.std.specs.Option.{option_copied};
ghost use Rattle.slate_types.specs.Operator.{Merge};
ghost use Rattle.slate_reads.specs.Read.{IsOperator, Reads, is_base, read_at};
ghost use Rattle.slate_transactions.specs.Kept.{row_batch};
ghost use Rattle.slate_transactions.specs.Own.{seen_with};

use crate::OwnWrites;
use bytes::Bytes;
use slate_reads::{IndexedTable, Table, add_versions, fold, is_base, read_key};
use slate_types::{Batch, KeyOp, KeyValue, MergeOperator, NoMemory, Op, ReadFault, Seq};
use std::alloc::Global;

impl OwnWrites {
    /// Reads a key in the stored tables and in those in memory up to a bound, and in the own operations after them. It takes
    /// the time of a `read_key`, a logarithm of the own keys, and a pass over the own operations on the key. It copies no
    /// bytes.
    pub fn read<M: MergeOperator>(
        &self,
        alloc: Global,
        stored: &[Table],
        memory: &[IndexedTable],
        bound: Option<u64>,
        key: &Bytes,
        operator: Option<&M>,
    ) -> Result<Option<KeyValue>, ReadFault>
        // The answer is the plain read, unless memory ran out, whatever lawful function the operator is.
        ensures plain { (merge : Option Merge) → IsOperator M.may_answer (option_copied operator.entry) merge →
            Reads (read_at merge (seen_with bound (flat_map (λ table. table) stored.now ++ flat_map (λ table. table) memory.now) self.now) None key.now) result }
        ensures keyed { IfOk result (λ found. IfSome found (λ row. row.key ≡ key.now)) }
    {
        let Some(own) = self.by_key.get(key) else {
            return read_key(alloc, &[], stored, memory, bound, key, operator);
        };
        let before = if has_base(own) {
            None
        } else {
            read_key(alloc, &[], stored, memory, bound, key, operator)?
        };
        fold_over(alloc, before, own, key.as_slice(), operator)
    }
}

/// Whether one of a batch's operations is a put or a delete.
fn has_base(batch: &Batch) -> bool
    ensures { result ≡ list_any (λ o. is_base o.op) batch.now.ops }
{
    batch.ops.as_slice().iter().any(|o| is_base(&o.op))
}

/// The row that operations make of one before them, where there was one.
fn fold_over<M: MergeOperator>(
    alloc: Global,
    before: Option<KeyValue>,
    own: &Batch,
    key: &[u8],
    operator: Option<&M>,
) -> Result<Option<KeyValue>, ReadFault>
    ensures plain { (merge : Option Merge) → IsOperator M.may_answer (option_copied operator.entry) merge →
        Reads (read_at merge (row_batch before ∷ own.now ∷ []) None key.now) result }
    ensures keyed { IfOk result (λ found. IfSome found (λ row. row.key ≡ key.now)) }
{
    let base = row_batch(alloc, before)?;
    let mut versions = Vec::new(alloc);
    add_versions(&mut versions, &base, key)?;
    add_versions(&mut versions, own, key)?;
    fold(alloc, key, versions.as_slice(), operator)
}

/// A row as a batch that puts it.
fn row_batch(alloc: Global, row: Option<KeyValue>) -> Result<Batch, NoMemory>
    ensures { IfOk result (λ batch. batch ≡ row_batch row) }
{
    let mut ops = Vec::new(alloc);
    let Some(row) = row else {
        return Ok(Batch {
            number: 0,
            create_ts: 0,
            ops: Seq::of(ops),
        });
    };
    ops.push(KeyOp {
        key: row.key,
        op: Op::Put(row.value, row.expire_ts),
    })?;
    Ok(Batch {
        number: row.seq,
        create_ts: row.create_ts,
        ops: Seq::of(ops),
    })
}
