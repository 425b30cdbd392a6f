// Reading the lines of commands that write: one operation, and a batch of operations.
ghost use Rattle.std.specs.Prelude.{◌≡◌, IfOk, IfSome};
ghost use Rattle.std.specs.Option.{option_map};
ghost use Rattle.std.specs.List.{position};
ghost use Rattle.slate_script.specs.Writes.{put_of, merge_of, delete_of, operation_of, write_action, single_form};
ghost use Rattle.slate_script.specs.Writes.{is_merge, is_separator, pieces_of, piece_of, operations_of, written, batch_form, write_of};

use crate::Action;
use crate::values::{read_expiry, read_word};
use bytes::Bytes;
use slate_text::read_number;
use slate_types::{KeyOp, NoMemory, Op, Seq, WriteBatch};
use std::alloc::Global;
use std::collections::HashSet;

fn read_put(alloc: Global, fields: &[Bytes]) -> Result<Option<KeyOp>, NoMemory>
    ensures { IfOk result (λ key_op. key_op ≡ put_of fields.now) }
{
    let [key, value, behind @ ..] = fields else {
        return Ok(None);
    };
    let Some(expire) = read_expiry(behind) else {
        return Ok(None);
    };
    let Some(key) = read_word(alloc, key)? else {
        return Ok(None);
    };
    let Some(value) = read_word(alloc, value)? else {
        return Ok(None);
    };
    Ok(Some(KeyOp {
        key,
        op: Op::Put(value, expire),
    }))
}

fn read_merge(alloc: Global, fields: &[Bytes]) -> Result<Option<KeyOp>, NoMemory>
    ensures { IfOk result (λ key_op. key_op ≡ merge_of fields.now) }
{
    let [key, operand, behind @ ..] = fields else {
        return Ok(None);
    };
    let Some(expire) = read_expiry(behind) else {
        return Ok(None);
    };
    let Some(key) = read_word(alloc, key)? else {
        return Ok(None);
    };
    let Some(operand) = read_word(alloc, operand)? else {
        return Ok(None);
    };
    Ok(Some(KeyOp {
        key,
        op: Op::Merge(operand, expire),
    }))
}

fn read_delete(alloc: Global, fields: &[Bytes]) -> Result<Option<KeyOp>, NoMemory>
    ensures { IfOk result (λ key_op. key_op ≡ delete_of fields.now) }
{
    let [key] = fields else {
        return Ok(None);
    };
    let Some(key) = read_word(alloc, key)? else {
        return Ok(None);
    };
    Ok(Some(KeyOp {
        key,
        op: Op::Delete,
    }))
}

// The operation that a name and the fields behind it spell.
fn read_operation(alloc: Global, name: &[u8], fields: &[Bytes]) -> Result<Option<KeyOp>, NoMemory>
    ensures { IfOk result (λ key_op. key_op ≡ operation_of name.now fields.now) }
{
    if name == b"put".as_slice() {
        read_put(alloc, fields)
    } else if name == b"merge".as_slice() {
        read_merge(alloc, fields)
    } else if name == b"delete".as_slice() {
        read_delete(alloc, fields)
    } else {
        Ok(None)
    }
}

// The command that writes one operation.
fn write_action(handle: u64, key_op: KeyOp) -> Action
    ensures action { result ≡ write_action handle key_op }
{
    let KeyOp { key, op } = key_op;
    match op {
        Op::Put(value, expire) => Action::Put {
            handle,
            key,
            value,
            expire,
        },
        Op::Merge(value, expire) => Action::Merge {
            handle,
            key,
            value,
            expire,
        },
        Op::Delete => Action::Delete { handle, key },
    }
}

fn read_single(alloc: Global, name: &[u8], fields: &[Bytes]) -> Result<Option<Action>, NoMemory>
    ensures form { IfOk result (λ action. action ≡ single_form name.now fields.now) }
{
    let [handle, fields @ ..] = fields else {
        return Ok(None);
    };
    let Some(handle) = read_number(handle.as_slice()) else {
        return Ok(None);
    };
    let Some(key_op) = read_operation(alloc, name, fields)? else {
        return Ok(None);
    };
    Ok(Some(write_action(handle, key_op)))
}

// Whether a field is the `;` between the operations of a batch.
fn is_separator(field: &[u8]) -> bool
    ensures { result ≡ is_separator field.now }
{
    field == b";".as_slice()
}

// The place of the first `;`.
fn find_separator(fields: &[Bytes]) -> Option<usize>
    ensures { result ≡ position is_separator fields.now }
{
    fields
        .iter()
        .position(|field| is_separator(field.as_slice()))
}

// The operation that stands between two `;`.
fn read_piece(alloc: Global, piece: &[Bytes]) -> Result<Option<KeyOp>, NoMemory>
    ensures { IfOk result (λ key_op. key_op ≡ piece_of piece.now) }
{
    let [name, fields @ ..] = piece else {
        return Ok(None);
    };
    read_operation(alloc, name.as_slice(), fields)
}

// The operations of a batch as they are spelled, all of them.
fn read_operations(alloc: Global, fields: &[Bytes]) -> Result<Option<Vec<KeyOp>>, NoMemory>
    ensures { IfOk result (λ ops. option_map (λ v. v.items) ops ≡ operations_of (pieces_of fields.now)) }
{
    let mut ops = Vec::new(alloc);
    if fields.is_empty() {
        return Ok(Some(ops));
    }
    let mut rest = fields;
    while let Some(separator) = find_separator(rest) {
        let (piece, behind) = rest.split_at(separator);
        let Some(key_op) = read_piece(alloc, piece)? else {
            return Ok(None);
        };
        ops.push(key_op)?;
        rest = &behind[1..];
    }
    let Some(key_op) = read_piece(alloc, rest)? else {
        return Ok(None);
    };
    ops.push(key_op)?;
    Ok(Some(ops))
}

fn is_merge(op: &Op) -> bool
    ensures { result ≡ is_merge op.now }
{
    matches!(op, Op::Merge(..))
}

// The operations of the batch to which these are added in turn: those that no later put or delete of their key
// removes. It is one pass from the last one on, with a look-up of each key in a hash set, so that a batch takes time in
// proportion to its line.
fn without_removed(alloc: Global, mut ops: Vec<KeyOp>) -> Result<Vec<KeyOp>, NoMemory>
    ensures { IfOk result (λ kept. kept.items ≡ written ops.items) }
{
    let mut removed = HashSet::new(alloc);
    let mut kept = Vec::new(alloc);
    while let Some(key_op) = ops.pop() {
        if removed.contains(&key_op.key) {
            continue;
        }
        if !is_merge(&key_op.op) {
            removed.insert(key_op.key.clone()?)?;
        }
        kept.push(key_op)?;
    }
    kept.reverse();
    Ok(kept)
}

fn read_batch(alloc: Global, fields: &[Bytes]) -> Result<Option<Action>, NoMemory>
    ensures form { IfOk result (λ action. action ≡ batch_form fields.now) }
{
    let [handle, fields @ ..] = fields else {
        return Ok(None);
    };
    let Some(handle) = read_number(handle.as_slice()) else {
        return Ok(None);
    };
    let Some(ops) = read_operations(alloc, fields)? else {
        return Ok(None);
    };
    let batch = WriteBatch {
        ops: Seq::of(without_removed(alloc, ops)?),
    };
    Ok(Some(Action::Batch { handle, batch }))
}

/// The command of a name and the fields behind it, where that writes.
pub(crate) fn read_write(
    alloc: Global,
    name: &[u8],
    fields: &[Bytes],
) -> Result<Option<Action>, NoMemory>
    ensures form { IfOk result (λ action. action ≡ write_of name.now fields.now) }
{
    if name == b"batch".as_slice() {
        read_batch(alloc, fields)
    } else {
        read_single(alloc, name, fields)
    }
}
