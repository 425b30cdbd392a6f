// Whether batches are the same.
ghost use Rattle.std.specs.Prelude.{◌≡◌, ◌↔◌, ◌++◌, IsTrue, List};
ghost use Rattle.slate_types.specs.declared.batches.Batch.{Batch as AnyBatch};
ghost use Rattle.slate_check.specs.Named.{batch_list};

use slate_types::{Batch, KeyOp, Op};

/// Whether these batches are the first of the others.
pub(crate) fn begin(batches: &[&Batch], others: &[&Batch]) -> bool
    ensures { IsTrue result ↔ ((rest : List AnyBatch) × (batch_list others.now ≡ batch_list batches.now ++ rest)) }
{
    if others.len() < batches.len() {
        return false;
    }
    for (i, batch) in batches.iter().enumerate() {
        if !is_same(batch, others[i]) {
            return false;
        }
    }
    true
}

/// Whether two batches are the same, with all their operations.
fn is_same(left: &Batch, right: &Batch) -> bool
    ensures { IsTrue result ↔ (left.now ≡ right.now) }
{
    left.number == right.number
        && left.create_ts == right.create_ts
        && are_same_ops(left.ops.as_slice(), right.ops.as_slice())
}

fn are_same_ops(left: &[KeyOp], right: &[KeyOp]) -> bool
    ensures { IsTrue result ↔ (left.now ≡ right.now) }
{
    if left.len() != right.len() {
        return false;
    }
    for (i, op) in left.iter().enumerate() {
        if !is_same_key_op(op, &right[i]) {
            return false;
        }
    }
    true
}

fn is_same_key_op(left: &KeyOp, right: &KeyOp) -> bool
    ensures { IsTrue result ↔ (left.now ≡ right.now) }
{
    left.key.as_slice() == right.key.as_slice() && is_same_op(&left.op, &right.op)
}

fn is_same_op(left: &Op, right: &Op) -> bool
    ensures { IsTrue result ↔ (left.now ≡ right.now) }
{
    match (left, right) {
        (Op::Put(value, expire_ts), Op::Put(other, other_ts)) => {
            value.as_slice() == other.as_slice() && *expire_ts == *other_ts
        }
        (Op::Merge(operand, expire_ts), Op::Merge(other, other_ts)) => {
            operand.as_slice() == other.as_slice() && *expire_ts == *other_ts
        }
        (Op::Delete, Op::Delete) => true,
        _ => false,
    }
}
