// Counting the calls of a store or a stream, and its failures.
ghost use Rattle.std.specs.Prelude.{◌≡◌, ◌≤◌};
ghost use Rattle.slate_types.specs.Counts.{next_call, one_more};

use std::marker::Model;

/// How many calls of something there were, and how often it has failed. Both counts stay at the greatest `u64`.
#[derive(Debug, Drop)]
pub struct CallCount {
    made: u64,
    faults: u64,
}

impl Model for CallCount {
    ghost use Rattle.slate_types.specs.Counts.{CallCounts};

    ghost Value = { CallCounts };

    ghost view = { λ c. record { made = c.made; faults = c.faults } };
}

impl CallCount {
    /// No call and no failure yet.
    pub fn new() -> CallCount
        ensures { result ≡ record { made = 0; faults = 0 } }
    {
        CallCount { made: 0, faults: 0 }
    }

    /// How many calls there were.
    pub fn made(&self) -> u64
        ensures { result ≡ self.now.made }
    {
        self.made
    }

    /// Counts a call, and answers its number: the first one is call 1. At the greatest count it answers None.
    pub fn next_call(&mut self) -> Option<u64>
        ensures number { result ≡ next_call self.old.made }
        ensures counted { self.new ≡ record self.old { made = one_more self.old.made } }
    {
        let call = self.made.checked_add(1)?;
        self.made = call;
        Some(call)
    }

    /// Counts a failure.
    pub fn count_fault(&mut self)
        ensures counted { self.new ≡ record self.old { faults = one_more self.old.faults } }
        ensures never_falls { self.old.faults ≤ self.new.faults }
    {
        self.faults = self.faults.saturating_add(1);
    }
}
