// Tasks in boxes, so that one executor runs tasks of several types.
use crate::{Task, TurnAnswer};
use slate_errors::CloseFault;

/// A task in a box, whichever it is. It is used like the task inside.
pub struct BoxedTask(pub Box<dyn Task>);

impl Drop for BoxedTask {
    fn drop(self) {
        let BoxedTask(_) = self;
    }
}

impl Task for BoxedTask {
    ghost use Rattle.std.specs.Prelude.{◌≡◌};
    ghost use Rattle.std.specs.DynBox.{dyn_box_with};

    ghost is_cancelled = { λ b. (Task-box b.0).is_cancelled b.0.value };

    ghost last_answer = { λ b. (Task-box b.0).last_answer b.0.value };

    ghost finished = { λ b. (Task-box b.0).finished b.0.value };

    ghost steps = { λ b call b'. (value : _) × (b'.0 ≡ dyn_box_with b.0 b.0.vtable value) × (Task-box b.0).steps b.0.value call value };

    fn turn(&mut self, moment: i64, random: u64) -> TurnAnswer {
        let task = &mut *self.0;
        task.turn(moment, random)
    }

    fn cancel(&mut self) {
        self.0.cancel()
    }

    fn finish(&mut self, outcome: Result<(), CloseFault>) {
        self.0.finish(outcome)
    }
}
