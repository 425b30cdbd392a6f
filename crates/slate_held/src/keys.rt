// The keys of a scan of a prefix.
ghost use Rattle.std.specs.Prelude.{◌≡◌, ◌↔◌, ◌++◌, ℕ, List, IsTrue, IfOk};
ghost use Rattle.slate_types.specs.Range.{AreBytes, contains};

use slate_types::{ByteRange, NoMemory};
use std::alloc::Global;

/// The keys that are a prefix and then a suffix in a range.
pub fn keys_with(alloc: Global, prefix: &[u8], subrange: &ByteRange) -> Result<ByteRange, NoMemory>
    ensures { IfOk result (λ range. (key : List ℕ) → AreBytes key →
        (IsTrue (contains range key) ↔ ((suffix : List ℕ) × (key ≡ prefix.now ++ suffix) × IsTrue (contains subrange.now suffix)))) }
{
    ByteRange::prefix_and_subrange(alloc, prefix, subrange)
}
