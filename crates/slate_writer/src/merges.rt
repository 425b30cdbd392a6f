// The times of expiry of a batch's merges.
ghost use Rattle.std.specs.Prelude.{◌≡◌, if◌then◌else◌, [], ℕ, List, None, IfOk};
ghost use Rattle.std.specs.HashMap.{get};
ghost use Rattle.std.specs.Option.{option_or};
ghost use Rattle.std.specs.Str.{bytes_eq};
ghost use Rattle.slate_model.specs.Write.{expiry_refusal, merge_expiry, merge_refusal};

use bytes::Bytes;
use slate_errors::SlateError;
use slate_types::{KeyOp, NoMemory, Op};
use std::alloc::Global;
use std::collections::HashMap;

/// The refusal of the first merge of a key that an earlier one merges under another time of expiry. It takes a look-up
/// for each merge, and no memory where there is none.
pub(crate) fn merge_refusal(alloc: Global, ops: &[KeyOp]) -> Result<Option<SlateError>, NoMemory>
    ensures { IfOk result (λ refusal. refusal ≡ merge_refusal [] ops.now) }
{
    let mut expiries = HashMap::new(alloc);
    for key_op in ops {
        if let Some(refusal) = note_merge(&mut expiries, key_op)? {
            return Ok(Some(refusal));
        }
    }
    Ok(None)
}

/// Notes the time of expiry of a merge, where it is the first one of its key, and answers the refusal of any other.
fn note_merge(
    expiries: &mut HashMap<Bytes, Option<i64>>,
    key_op: &KeyOp,
) -> Result<Option<SlateError>, NoMemory>
    ensures refusal { IfOk result (λ refusal.
        refusal ≡ expiry_refusal key_op.now.key (get bytes_eq expiries.old key_op.now.key) (merge_expiry key_op.now.op)) }
    ensures noted { IfOk result (λ refusal. refusal ≡ None → (key : List ℕ) →
        get bytes_eq expiries.new key ≡ option_or (get bytes_eq expiries.old key) (if bytes_eq key_op.now.key key then merge_expiry key_op.now.op else None)) }
{
    let Op::Merge(_, expiry) = &key_op.op else {
        return Ok(None);
    };
    match expiries.get(&key_op.key) {
        Some(previous) if previous == expiry => Ok(None),
        Some(previous) => Ok(Some(SlateError::IncompatibleMergeTtls {
            key: key_op.key.clone()?,
            previous_expire_ts: *previous,
            current_expire_ts: *expiry,
        })),
        None => {
            expiries.insert(key_op.key.clone()?, *expiry)?;
            Ok(None)
        }
    }
}
