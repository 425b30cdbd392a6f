// The short keys that a table's index keeps for its blocks.
ghost use Rattle.std.specs.Prelude.{◌≡◌, ◌≢◌, [], length, IfOk, false, map, ◌==◌, take_while};
ghost use Rattle.std.specs.List.{zip};
ghost use Rattle.std.specs.Option.{option_copied, ForSome};
ghost use Rattle.std.specs.Ordering.{is_gt};
ghost use Rattle.slate_types.specs.Range.{key_cmp};
ghost use Rattle.slate_rows.specs.IndexKey.{IsIndexKey};

use bytes::Bytes;
use slate_types::NoMemory;
use std::alloc::Global;

/// The key that the index of a table keeps for a block whose first key is `this`, where `prev` is the key before it.
/// The bytes are shared with `this`. SlateDB's `compute_index_key`.
pub fn compute_index_key(
    _alloc: Global,
    prev: Option<&Bytes>,
    this: &Bytes,
) -> Result<Bytes, NoMemory>
    requires some { this.now ≢ [] }
    requires some_before { ForSome (option_copied prev) (λ key. key ≢ []) }
    requires rising { ForSome (option_copied prev) (λ key. is_gt (key_cmp key this.now) ≡ false) }
    ensures { IfOk result (IsIndexKey (option_copied prev.entry) this.now) }
{
    let Some(prev) = prev else {
        return Ok(Bytes::new());
    };
    let shared = shared_len(prev.as_slice(), this.as_slice());
    if shared == this.len() {
        return Ok(this.clone()?);
    }
    Ok(this.slice(..shared + 1)?)
}

/// How many bytes two keys share at the front.
fn shared_len(left: &[u8], right: &[u8]) -> usize
    ensures { result ≡ length (take_while (λ p. p.0 == p.1) (zip left.now right.now)) }
{
    left.iter().zip(right).take_while(|(x, y)| x == y).count()
}
