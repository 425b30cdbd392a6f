// What becomes of each message that is sent to a dispatcher.
ghost use Rattle.std.specs.Prelude.{List};
ghost use Rattle.slate_dispatch.specs.Runs.{Event, Runs, GivesOnce};
ghost use Rattle.slate_dispatch.specs.Turns.{Dispatching};

use crate::MessageHandler;

/// In every run of a dispatcher each message that was sent is handled once, or offered once to `cleanup`, in the order
/// in which they were sent, or waits in the queue.
pub fn each_message_is_given_once<H: MessageHandler>()
    ensures { (old new : Dispatching H H.Message) (events : List (Event H.Message)) →
        Runs H.steps H.schedule H.ready H.last_answer old events new →
        GivesOnce H.steps H.schedule H.ready H.last_answer old events new }
{}
