// The calls of a task: its turns, its cancelling and its finish.
ghost use Rattle.std.specs.Prelude.{◌≡◌, ◌↔◌, Bool, Option, Some, Result, IsTrue};
ghost use Rattle.slate_errors.specs.declared.closing.CloseFault.{CloseFault};
ghost use Rattle.slate_dispatch.specs.declared.tasks.TurnAnswer.{TurnAnswer};
ghost use Rattle.slate_dispatch.specs.Tasks.{TaskCall, Turn, Cancel, Finish, HasEnded};

use slate_errors::CloseFault;

/// What a turn of a task came to.
#[derive(Clone, Copy, Debug, PartialEq, Eq)]
pub enum TurnAnswer {
    /// It was cancelled, and did nothing. That ends it.
    Cancelled,
    /// It handled one message.
    Handled,
    /// It had nothing to handle.
    Idle,
    /// It handled one message, and failed. That ends it.
    Failed(CloseFault),
}

/// Work that is done in turns, until it is cancelled or fails.
///
/// A task whose last turn answered `Cancelled` or `Failed` has ended.
pub trait Task: Drop {
    /// Whether `cancel` was called.
    ghost is_cancelled: { Self → Bool };

    /// What the last turn answered, where there was one.
    ghost last_answer: { Self → Option TurnAnswer };

    /// The result with which it was finished last, where it was.
    ghost finished: { Self → Option (Result (Unit {0}) CloseFault) };

    /// Which state may follow a state by a call.
    ghost steps: { Self → TaskCall → Self → Type 0 };

    /// Does one piece of work, where there is some. `moment` is in milliseconds, `random` is any word. It answers
    /// `Cancelled` exactly where `cancel` was called before.
    fn turn(&mut self, moment: i64, random: u64) -> TurnAnswer
        ensures step { steps self.old (Turn moment random result) self.new }
        ensures answer { last_answer self.new ≡ Some result }
        ensures cancelled { result ≡ TurnAnswer.Cancelled ↔ IsTrue (is_cancelled self.old) }
        ensures flag { is_cancelled self.new ≡ is_cancelled self.old }
        ensures finished { finished self.new ≡ finished self.old };

    /// Lets the turns after it answer `Cancelled`.
    fn cancel(&mut self)
        ensures step { steps self.old Cancel self.new }
        ensures flag { IsTrue (is_cancelled self.new) }
        ensures answer { last_answer self.new ≡ last_answer self.old }
        ensures finished { finished self.new ≡ finished self.old };

    /// Cleans up after the last turn. `outcome` is the result with which all closed.
    fn finish(&mut self, outcome: Result<(), CloseFault>)
        requires { HasEnded (last_answer self.old) }
        ensures step { steps self.old (Finish outcome) self.new }
        ensures finished { finished self.new ≡ Some outcome }
        ensures flag { is_cancelled self.new ≡ is_cancelled self.old }
        ensures answer { last_answer self.new ≡ last_answer self.old };
}
