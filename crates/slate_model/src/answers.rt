// What operations answer.

/// An accepted write: the number of its batch, and its creation time in milliseconds.
#[derive(Clone, Copy, Debug, PartialEq, Eq)]
pub struct Written {
    pub number: u64,
    pub create_ts: i64,
}

/// What a poll found, and the number of the last batch that the reader sees from then on.
#[derive(Clone, Copy, Debug, PartialEq, Eq)]
pub enum PollAnswer {
    /// The reader sees all that is stored.
    Whole { at: u64 },
    /// A log file or a batch is missing: the reader sees what comes before it.
    Truncated { at: u64 },
}

impl PollAnswer {
    ghost use Rattle.slate_model.specs.Follow.{AnswersAt};

    /// The number of the last batch that the reader sees.
    pub fn at(self) -> u64
        ensures { AnswersAt result self }
    {
        match self {
            PollAnswer::Whole { at } | PollAnswer::Truncated { at } => at,
        }
    }
}
