// What holds of a board after any steps of its seats, and of the words of ticks.
ghost use Rattle.std.specs.Prelude.{◌≡◌, ℕ, ◌≤◌, ◌≤ℤ◌, ◌↔◌, List};
ghost use mathlib.Core.Option.{some};
ghost use lib.ListN.{get_elem?};
ghost use Rattle.slate_board.specs.Views.{IsAtMost};
ghost use Rattle.slate_board.specs.Words.{numbers_of, tick_of};
ghost use Rattle.slate_board.specs.Rule.{Standing, IsRuled, new_board};
ghost use Rattle.slate_board.specs.Steps.{IsRun};

/// No word goes back, and the rule over the words and all seats holds at each moment: at the start, and after any steps
/// of any seats in any order.
pub fn no_word_goes_back()
    ensures start { (tick durable : ℕ) → IsRuled (new_board tick durable) }
    ensures run { (before : Standing) (later : List Standing) → IsRuled before → IsRun before later
        → (k : ℕ) (after : Standing) → get_elem? later k ≡ some after
        → IsRuled after × IsAtMost (numbers_of before.words) (numbers_of after.words) }
{}

/// The words of ticks are in the order of the ticks.
pub fn words_are_ordered_as_ticks()
    ensures { (x y : ℕ) → (x ≤ y) ↔ (tick_of x ≤ℤ tick_of y) }
{}
