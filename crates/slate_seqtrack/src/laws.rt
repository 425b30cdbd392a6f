// The bytes of a tracker give back its lists.
ghost use Rattle.std.specs.Prelude.{◌≡◌, ℕ, ℤ, List, ◌++◌, Ok};
ghost use Rattle.slate_seqtrack.specs.Writing.{IsWrittenBlock};
ghost use Rattle.slate_seqtrack.specs.Bytes.{AreLists, AreTrackerBytes, lists_at};

/// What is written of a tracker is read again as the same lists, whatever follows it.
pub fn written_is_read()
    ensures { (numbers : List ℕ) (times : List ℤ) (bytes rest : List ℕ) → AreLists numbers times
        → AreTrackerBytes IsWrittenBlock numbers times bytes → lists_at (bytes ++ rest) ≡ Ok (numbers, times) }
{}
