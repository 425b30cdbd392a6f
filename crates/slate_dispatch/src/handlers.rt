// The calls of a message handler, and what each may change.
ghost use Rattle.std.specs.Prelude.{◌≡◌, ◌↔◌, ◌<◌, Bool, false, List, length, slice_get, Option, Some, Result, IsNone, IfSome, IfNone};
ghost use Rattle.slate_errors.specs.declared.closing.CloseFault.{CloseFault};
ghost use Rattle.slate_dispatch.specs.declared.tickers.TickerDef.{TickerDef};
ghost use Rattle.slate_dispatch.specs.Handlers.{HandlerCall, Tick, Notify, Handle, Cleanup};

use crate::TickerDef;
use slate_errors::CloseFault;
use std::collections::VecDeque;

/// What a dispatcher hands messages to. SlateDB's `MessageHandler`.
///
/// Messages come from the dispatcher's queue, from the handler's tickers and from its notifiers. No call changes the
/// tickers, or how many notifiers there are.
pub trait MessageHandler {
    /// What it handles.
    type Message;

    /// The tickers.
    ghost schedule: { Self → List TickerDef };

    /// Which notifiers have a message ready.
    ghost ready: { Self → List Bool };

    /// The answer of the last `handle`, where there was one.
    ghost last_answer: { Self → Option (Result (Unit {0}) CloseFault) };

    /// Which state may follow a state by a call.
    ghost steps: { Self → HandlerCall Self.Message → Self → Type 0 };

    /// The tickers, by index.
    fn tickers(&self) -> &[TickerDef]
        ensures { result.now ≡ schedule self.now };

    /// The message of a ticker that is due.
    fn ticker_message(&mut self, index: usize) -> Self::Message
        requires { index < length (schedule self.old) }
        ensures step { steps self.old (Tick index result) self.new }
        ensures tickers { schedule self.new ≡ schedule self.old }
        ensures notifiers { length (ready self.new) ≡ length (ready self.old) }
        ensures answer { last_answer self.new ≡ last_answer self.old };

    /// How many notifiers there are.
    fn notifier_count(&self) -> usize
        ensures { result ≡ length (ready self.now) };

    /// The message that a notifier has ready, or None exactly where it has none. It changes nothing then.
    fn poll_notifier(&mut self, index: usize) -> Option<Self::Message>
        requires { index < length (ready self.old) }
        ensures none { IsNone result ↔ (slice_get (ready self.old) index ≡ Some false) }
        ensures unchanged { IfNone result (self.new ≡ self.old) }
        ensures step { IfSome result (λ message. steps self.old (Notify index message) self.new) }
        ensures tickers { schedule self.new ≡ schedule self.old }
        ensures notifiers { length (ready self.new) ≡ length (ready self.old) }
        ensures answer { last_answer self.new ≡ last_answer self.old };

    /// Handles a message. A fault ends the dispatcher's task.
    fn handle(&mut self, message: Self::Message) -> Result<(), CloseFault>
        ensures step { steps self.old (Handle message result) self.new }
        ensures tickers { schedule self.new ≡ schedule self.old }
        ensures notifiers { length (ready self.new) ≡ length (ready self.old) }
        ensures answer { last_answer self.new ≡ Some result };

    /// Cleans up. `messages` are those that were sent and not handled, in order; `outcome` is the result with which all
    /// closed.
    fn cleanup(&mut self, messages: VecDeque<Self::Message>, outcome: Result<(), CloseFault>)
        ensures step { steps self.old (Cleanup messages.items outcome) self.new }
        ensures tickers { schedule self.new ≡ schedule self.old }
        ensures notifiers { length (ready self.new) ≡ length (ready self.old) }
        ensures answer { last_answer self.new ≡ last_answer self.old };
}
