// The handler of the tasks: what they are for is done by the calls of the handle itself.
ghost use Rattle.std.specs.Prelude.{◌≡◌, [], Option, Result};
ghost use Rattle.slate_errors.specs.declared.closing.CloseFault.{CloseFault};

use slate_dispatch::{MessageHandler, TickerDef};
use slate_errors::CloseFault;
use std::collections::VecDeque;

/// Handles messages by doing nothing. A new one is sent none, and has neither tickers nor notifiers.
#[derive(Drop)]
pub(crate) struct NoWork {
    tickers: &'static [TickerDef],
    /// Which notifiers have a message ready.
    ready: &'static [bool],
    /// The answer of its last call.
    answered: Option<Result<(), CloseFault>>,
}

impl NoWork {
    pub(crate) fn new() -> NoWork
        ensures { result.tickers.now ≡ [] }
    {
        NoWork {
            tickers: &[],
            ready: &[],
            answered: None,
        }
    }
}

impl MessageHandler for NoWork {
    type Message = ();

    ghost schedule = { λ h. h.tickers.now };

    ghost ready = { λ h. h.ready.now };

    ghost last_answer = { λ h. h.answered };

    ghost steps = { λ _ _ _. Unit {0} };

    fn tickers(&self) -> &[TickerDef] {
        self.tickers
    }

    fn ticker_message(&mut self, _index: usize) {}

    fn notifier_count(&self) -> usize {
        self.ready.len()
    }

    fn poll_notifier(&mut self, index: usize) -> Option<()> {
        self.ready[index].then_some(())
    }

    fn handle(&mut self, _message: ()) -> Result<(), CloseFault> {
        self.answered = Some(Ok(()));
        Ok(())
    }

    fn cleanup(&mut self, _messages: VecDeque<()>, _outcome: Result<(), CloseFault>)
        ensures { self.new ≡ self.old }
    {}
}
