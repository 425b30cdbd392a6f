// Sending messages to a dispatcher, and handing the next one to its handler in each turn.
ghost use Rattle.std.specs.Prelude.{◌≡◌, ◌≢◌, All, false, None, IfOk, IfSome, IfNone};
ghost use Rattle.slate_dispatch.specs.Origins.{first_ready, due_at, TakesReady};
ghost use Rattle.slate_dispatch.specs.Tickers.{IsTicker};

use crate::tickers::first_dues;
use crate::{MessageHandler, Task, TurnAnswer};
use slate_errors::{CloseCell, CloseFault};
use slate_types::NoMemory;
use std::alloc::Global;
use std::collections::VecDeque;
use std::marker::Model;
use std::mem;

/// Why a message wasn't sent. It hands the message back.
#[derive(Debug, Drop)]
pub enum SendRefusal<M> {
    /// The dispatcher was finished, and takes no message any more.
    Closed {
        message: M,
        /// The result with which all closed, where one is recorded.
        result: Option<Result<(), CloseFault>>,
    },
    /// Memory ran out.
    NoMemory {
        message: M,
    },
}

/// A task that hands messages to a handler, one in a turn. SlateDB's `MessageDispatcher`.
///
/// A turn takes the first message of the queue; where the queue is empty, that of the first ticker that is due; and
/// where none is due, that of the first notifier that has one ready. A ticker is due its interval after the dispatcher
/// was made, and from then on its wait after each time that its message was taken: the interval, or where it has
/// jitter, the interval give or take up to that part of it, as the random word of the turn has it.
///
/// A turn takes time linear in the tickers and notifiers, besides that of the handler.
#[derive(Drop)]
pub struct Dispatcher<H: MessageHandler> {
    handler: H,
    queue: VecDeque<H::Message>,
    is_closed: bool,
    // A moment and a wait together may pass 64 bits.
    dues: Vec<i128>,
    is_cancelled: bool,
    last_answer: Option<TurnAnswer>,
    finished: Option<Result<(), CloseFault>>,
    alloc: Global,
}

impl<H: MessageHandler> Model for Dispatcher<H> {
    ghost use Rattle.std.specs.Prelude.{◌≡◌, All, length};
    ghost use Rattle.slate_dispatch.specs.Turns.{Dispatching};
    ghost use Rattle.slate_dispatch.specs.Tickers.{IsTicker};

    ghost Value = { Dispatching H H.Message };

    ghost view = { λ d.
        record {
          handler = d.handler;
          queue = d.queue.items;
          is_closed = d.is_closed;
          dues = d.dues.items;
          is_cancelled = d.is_cancelled;
          last_answer = d.last_answer;
          finished = d.finished;
        } };

    ghost invariant = { λ d. All IsTicker (H.schedule d.handler) × (length d.dues.items ≡ length (H.schedule d.handler)) };
}

impl<H: MessageHandler + Drop> Dispatcher<H> {
    ghost use Rattle.slate_dispatch.specs.Turns.{fresh};

    /// A dispatcher of this handler, with an empty queue. Its tickers are due their intervals after `moment`, which is
    /// in milliseconds. Where it answers `NoMemory` the handler is gone.
    pub fn new(alloc: Global, handler: H, moment: i64) -> Result<Dispatcher<H>, NoMemory>
        requires { All IsTicker (H.schedule handler) }
        ensures { IfOk result (λ dispatcher. dispatcher ≡ fresh handler moment (H.schedule handler)) }
    {
        let dues = first_dues(alloc, handler.tickers(), moment)?;
        Ok(Dispatcher {
            handler,
            queue: VecDeque::new(alloc),
            is_closed: false,
            dues,
            is_cancelled: false,
            last_answer: None,
            finished: None,
            alloc,
        })
    }
}

impl<H: MessageHandler> Dispatcher<H> {
    ghost use Rattle.slate_dispatch.specs.Turns.{Sends, TakesTurn, Acts, origin};

    /// Puts a message at the end of the queue. It is refused where the dispatcher was finished, with what `cell` holds;
    /// a refusal changes nothing.
    pub fn send(
        &mut self,
        message: H::Message,
        cell: &CloseCell,
    ) -> Result<(), SendRefusal<H::Message>>
        ensures { Sends message cell.now self.old result self.new }
    {
        if self.is_closed {
            return Err(SendRefusal::Closed {
                message,
                result: cell.read(),
            });
        }
        match self.queue.push_back(message) {
            Ok(()) => Ok(()),
            Err(refused) => Err(SendRefusal::NoMemory {
                message: refused.value,
            }),
        }
    }

    /// Takes the next message, where there is one.
    fn next_message(&mut self, moment: i64, random: u64) -> Option<H::Message>
        ensures takes { TakesTurn H.steps H.schedule moment random (origin H.ready moment self.old) self.old result self.new }
        ensures flag { self.new.is_cancelled ≡ self.old.is_cancelled }
        ensures finished { self.new.finished ≡ self.old.finished }
    {
        if let Some(message) = self.queue.pop_front() {
            return Some(message);
        }
        if let Some(index) = first_due(&self.dues, moment) {
            let due = self.handler.tickers()[index].next_due(moment, random);
            self.dues[index] = due;
            return Some(self.handler.ticker_message(index));
        }
        poll_notifiers(&mut self.handler)
    }

    /// Takes the next message and handles it, where there is one.
    fn handle_next(&mut self, moment: i64, random: u64) -> TurnAnswer
        ensures acts { Acts H.steps H.schedule H.ready H.last_answer moment random false self.old result self.new }
        ensures not_cancelled { result ≢ TurnAnswer.Cancelled }
        ensures flag { self.new.is_cancelled ≡ self.old.is_cancelled }
        ensures finished { self.new.finished ≡ self.old.finished }
    {
        let Some(message) = self.next_message(moment, random) else {
            return TurnAnswer::Idle;
        };
        match self.handler.handle(message) {
            Ok(()) => TurnAnswer::Handled,
            Err(fault) => TurnAnswer::Failed(fault),
        }
    }
}

/// The first ticker that is due.
fn first_due(dues: &[i128], moment: i64) -> Option<usize>
    ensures { result ≡ due_at moment dues.now }
{
    let moment = i128::from(moment);
    dues.iter().position(|due| *due <= moment)
}

/// The message of the first notifier that has one ready.
fn poll_notifiers<H: MessageHandler>(handler: &mut H) -> Option<H::Message>
    ensures none { IfNone result ((handler.new ≡ handler.old) × (first_ready (H.ready handler.old) ≡ None)) }
    ensures some { IfSome result (λ message. TakesReady H.steps (first_ready (H.ready handler.old)) handler.old message handler.new) }
    ensures tickers { H.schedule handler.new ≡ H.schedule handler.old }
{
    for index in 0..handler.notifier_count() {
        if let Some(message) = handler.poll_notifier(index) {
            return Some(message);
        }
    }
    None
}

impl<H: MessageHandler + Drop> Task for Dispatcher<H>
where
    H::Message: Drop,
{
    ghost use Rattle.slate_dispatch.specs.Turns.{DispatcherSteps};

    ghost is_cancelled = { λ d. d.is_cancelled };

    ghost last_answer = { λ d. d.last_answer };

    ghost finished = { λ d. d.finished };

    ghost steps = { DispatcherSteps H.steps H.schedule H.ready H.last_answer };

    fn turn(&mut self, moment: i64, random: u64) -> TurnAnswer {
        let answer = if self.is_cancelled {
            TurnAnswer::Cancelled
        } else {
            self.handle_next(moment, random)
        };
        self.last_answer = Some(answer);
        answer
    }

    fn cancel(&mut self) {
        self.is_cancelled = true;
    }

    fn finish(&mut self, outcome: Result<(), CloseFault>) {
        let messages = mem::replace(&mut self.queue, VecDeque::new(self.alloc));
        self.is_closed = true;
        self.finished = Some(outcome);
        self.handler.cleanup(messages, outcome);
    }
}
