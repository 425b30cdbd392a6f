// What a write's handle asks whether the write is durable.
ghost use Rattle.std.specs.Prelude.{◌≡◌, Option, Some};
ghost use Rattle.slate_status.specs.declared.statuses.DurableAnswer.{DurableAnswer};

use slate_status::DurableAnswer;

/// Answers whether writes are durable.
pub trait DurabilityWaiter: Drop {
    /// What it answered last, where it was asked.
    ghost last_answer: { Self → Option DurableAnswer };

    /// Whether the write of this number is durable. It doesn't wait.
    fn poll(&mut self, seq: u64) -> DurableAnswer
        ensures { last_answer self.new ≡ Some result };
}
