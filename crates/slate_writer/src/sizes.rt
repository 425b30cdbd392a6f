// How many bytes of keys and values operations and batches have, as far as a u64 counts.
ghost use Rattle.std.specs.Prelude.{◌≡◌, min};
ghost use Rattle.slate_model.specs.Unflushed.{most_bytes};
ghost use Rattle.slate_reads.specs.Size.{ops_size, size_of};

use slate_types::{Batch, KeyOp};

/// The bytes of keys and values in operations, at most the greatest `u64`.
pub(crate) fn ops_size(ops: &[KeyOp]) -> u64
    ensures { result ≡ min (ops_size ops.now) most_bytes }
{
    slate_reads::ops_size(ops).min(u128::from(u64::MAX)) as u64
}

/// The bytes of keys and values in batches, at most the greatest `u64`.
pub(crate) fn size_of(batches: &[Batch]) -> u64
    ensures { result ≡ min (size_of batches.now) most_bytes }
{
    let mut size: u64 = 0;
    for batch in batches {
        size = size.saturating_add(ops_size(batch.ops.as_slice()));
    }
    size
}
