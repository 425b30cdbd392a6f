// Clocks, in milliseconds: one whose moments are given by hand, and that of the system.
ghost use Rattle.std.specs.Prelude.{◌≡◌, ◌⊎◌, ◌≤ℤ◌, pos};

use slate_types::Seq;
use std::marker::Model;
use std::rt;

/// Tells moments. They may fall.
pub trait Clock {
    /// The present moment, in milliseconds.
    fn now_ms(&mut self) -> i64;
}

/// A clock whose moments are given by hand. A contract sees the moment that it answered last and those that it answers
/// next.
#[derive(Debug, Drop)]
pub struct HandClock {
    moments: Seq<i64>,
    // How many were answered.
    answered: usize,
    last: i64,
}

impl Model for HandClock {
    ghost use Rattle.std.specs.Prelude.{drop};
    ghost use Rattle.slate_receivers.specs.Moments.{Hand};

    ghost Value = { Hand };

    ghost view = { λ c. record { last = c.last; ahead = drop c.answered c.moments } };
}

impl HandClock {
    ghost use Rattle.slate_receivers.specs.Moments.{Hand};

    /// A clock that answers these moments in order, and the last one again once they are used up: 0 where there are none.
    /// It takes no memory.
    pub fn new(moments: Seq<i64>) -> HandClock
        ensures { result ≡ record { last = pos 0; ahead = moments } }
    {
        HandClock {
            moments,
            answered: 0,
            last: 0,
        }
    }
}

impl Clock for HandClock {
    ghost use Rattle.slate_receivers.specs.Moments.{Hand, next};

    fn now_ms(&mut self) -> i64
        ensures moment { result ≡ self.new.last }
        ensures next { self.new ≡ next self.old }
    {
        if let Some(moment) = self.moments.as_slice().get(self.answered) {
            self.last = *moment;
            self.answered += 1;
        }
        self.last
    }
}

/// The clock of the system, by the clock of a runtime. A contract sees the moment that it answered last.
#[derive(Drop)]
pub struct SystemClock<R> {
    rt: R,
    last: i64,
}

impl<R> Model for SystemClock<R> {
    ghost use Rattle.std.specs.Prelude.{ℤ};

    ghost Value = { ℤ };

    ghost view = { λ c. c.last };
}

impl<R: rt::Clock> SystemClock<R> {
    /// The clock over this runtime.
    pub fn new(rt: R) -> SystemClock<R>
        ensures { result ≡ pos 0 }
    {
        SystemClock { rt, last: 0 }
    }
}

impl<R: rt::Clock> Clock for SystemClock<R> {
    /// The milliseconds since 1970. Where the clock can't be read, or the number is past an `i64`, it answers its last
    /// answer, 0 at first.
    fn now_ms(&mut self) -> i64
        ensures last { result ≡ self.new }
        ensures moment { (result ≡ self.old) ⊎ (pos 0 ≤ℤ result) }
    {
        if let Ok(time) = self.rt.since_1970() {
            if let Ok(moment) = i64::try_from(time.as_millis()) {
                self.last = moment;
            }
        }
        self.last
    }
}
