// Counting the calls of streams in memory, and failing some by their numbers.
ghost use Rattle.std.specs.Prelude.{◌≡◌, ◌≤◌};
ghost use Rattle.slate_types.specs.Counts.{one_more};
ghost use Rattle.slate_streams.specs.InMemory.{called, fails_next};

use slate_types::{CallCount, Seq};
use std::marker::Model;

/// Counts the calls of a source or a sink in memory, and knows which of them fail.
#[derive(Debug, Drop)]
pub(crate) struct FailingCalls {
    failing: Seq<u64>,
    count: CallCount,
}

impl Model for FailingCalls {
    ghost use Rattle.slate_streams.specs.InMemory.{Calls};

    ghost Value = { Calls };

    ghost view = { λ c. record { failing = c.failing; made = c.count.made; faults = c.count.faults } };
}

impl FailingCalls {
    /// No call yet; those of these numbers, counted from 1, are to fail.
    pub(crate) fn new(failing: Seq<u64>) -> FailingCalls
        ensures { result ≡ record { failing = failing; made = 0; faults = 0 } }
    {
        FailingCalls {
            failing,
            count: CallCount::new(),
        }
    }

    /// Counts a call, and answers whether it is to fail. It counts that failure. At the greatest count no call fails.
    pub(crate) fn next_fails(&mut self) -> bool
        ensures value { result ≡ fails_next self.old }
        ensures counted { self.new ≡ called result self.old }
        ensures never_falls { self.old.faults ≤ self.new.faults }
    {
        let Some(call) = self.count.next_call() else {
            return false;
        };
        let fails = self.failing.as_slice().contains(&call);
        if fails {
            self.count_fault();
        }
        fails
    }

    /// Counts a failure.
    pub(crate) fn count_fault(&mut self)
        ensures counted { self.new ≡ record self.old { faults = one_more self.old.faults } }
        ensures never_falls { self.old.faults ≤ self.new.faults }
    {
        self.count.count_fault();
    }
}
