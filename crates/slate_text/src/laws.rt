// The texts of bytes, numbers and moments give back what was printed.
ghost use Rattle.std.specs.Prelude.{◌≡◌, ◌<◌, ◌^◌, ℕ, List, All, Some, None, pos, decimal};
ghost use Rattle.slate_text.specs.Numbers.{number_of, moment_of};
ghost use Rattle.slate_text.specs.Words.{word_of, word_text};

/// What is printed is read again: bytes as a byte word, numbers, and moments without a second one.
pub fn prints_read_again()
    ensures words { (bytes : List ℕ) → All (λ b. b < 256) bytes → word_of (word_text bytes) ≡ Some bytes }
    ensures numbers { (n : ℕ) → n < 2 ^ 64 → number_of (decimal n) ≡ Some n }
    ensures moments { (n : ℕ) → n < 2 ^ 63 → moment_of (decimal n) ≡ Some (pos n, None) }
{}
