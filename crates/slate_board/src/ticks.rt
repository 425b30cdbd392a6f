// A signed tick as an unsigned word: how far it is above the least one, so that their orders are the same.
ghost use Rattle.std.specs.Prelude.{◌≡◌};
ghost use Rattle.slate_board.specs.Words.{tick_of};

/// The word that holds a tick.
pub fn word_of(tick: i64) -> u64
    ensures { tick_of result ≡ tick }
{
    tick.abs_diff(i64::MIN)
}

/// The tick that a word holds.
pub fn tick_in(word: u64) -> i64
    ensures { result ≡ tick_of word }
{
    i64::MIN.saturating_add_unsigned(word)
}
