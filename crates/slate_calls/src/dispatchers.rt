// The subject `dispatcher`: a dispatcher whose handler fails with the numbers that it is sent.
ghost use Rattle.std.specs.Prelude.{◌≡◌, All, length};
ghost use Rattle.slate_dispatch.specs.Tickers.{IsTicker};

use crate::answers::Answer;
use crate::call_line::CallLine;
use crate::subjects::Subject;
use crate::tasks::outcome_of;
use slate_dispatch::{Dispatcher, MessageHandler, SendRefusal, Task, TickerDef, TurnAnswer};
use slate_errors::{CloseCell, CloseFault};
use std::alloc::Global;
use std::cell::Cell;
use std::collections::VecDeque;
use std::rc::Rc;

#[derive(Clone, Copy)]
enum Call {
    Tickers,
    Send,
    Turn,
    End,
    Offered,
    Close,
}

const CALLS: &[(&[u8], Call)] = &[
    (b"tickers", Call::Tickers),
    (b"send", Call::Send),
    (b"turn", Call::Turn),
    (b"end", Call::End),
    (b"offered", Call::Offered),
    (b"close", Call::Close),
];

/// A handler of numbers, which fails with each number but 0 that it handles, so that the answer of a turn shows it. The
/// message of ticker `i` is `10 + i`, and that of notifier `i` is `20 + i`.
struct Teller {
    tickers: [TickerDef; 2],
    ready: [bool; 2],
    reported: Option<Result<(), CloseFault>>,
    /// The first two messages that were offered to it at the end.
    offered: Rc<Cell<[u64; 2]>>,
}

impl Drop for Teller {
    fn drop(self) {
        let Teller {
            tickers: _,
            ready: _,
            reported: _,
            offered: _,
        } = self;
    }
}

impl MessageHandler for Teller {
    type Message = u64;

    ghost schedule = { λ t. t.tickers };

    ghost ready = { λ t. t.ready };

    ghost last_answer = { λ t. t.reported };

    ghost steps = { λ _ _ _. Unit {0} };

    fn tickers(&self) -> &[TickerDef] {
        &self.tickers
    }

    fn ticker_message(&mut self, index: usize) -> u64 {
        10 + index as u64
    }

    fn notifier_count(&self) -> usize {
        2
    }

    fn poll_notifier(&mut self, index: usize) -> Option<u64> {
        if !self.ready[index] {
            return None;
        }
        self.ready[index] = false;
        Some(20 + index as u64)
    }

    fn handle(&mut self, message: u64) -> Result<(), CloseFault> {
        let answer = match message {
            0 => Ok(()),
            _ => Err(CloseFault::Custom(message)),
        };
        self.reported = Some(answer);
        answer
    }

    fn cleanup(&mut self, mut messages: VecDeque<u64>, _outcome: Result<(), CloseFault>)
        ensures tickers { self.new.tickers ≡ self.old.tickers }
        ensures notifiers { length self.new.ready ≡ length self.old.ready }
        ensures answer { self.new.reported ≡ self.old.reported }
    {
        let first = messages.pop_front().unwrap_or(0);
        let second = messages.pop_front().unwrap_or(0);
        self.offered.set([first, second]);
    }
}

/// A dispatcher, the numbers that its handler was offered at the end, and the cell that its refusals read.
pub struct Dispatchers {
    dispatcher: Option<Dispatcher<Teller>>,
    offered: Option<Rc<Cell<[u64; 2]>>>,
    cell: CloseCell,
}

impl Drop for Dispatchers {
    fn drop(self) {
        let Dispatchers {
            dispatcher: _,
            offered: _,
            cell: _,
        } = self;
    }
}

impl Dispatchers {
    /// No dispatcher, and an empty cell.
    pub fn new() -> Dispatchers {
        Dispatchers {
            dispatcher: None,
            offered: None,
            cell: CloseCell::new(),
        }
    }

    /// Makes a dispatcher with two tickers at a moment. Notifier 1 of its handler has a message ready.
    fn make(&mut self, line: &mut CallLine<'_>) {
        let moment = line.time();
        let tickers = [ticker_of(line), ticker_of(line)];
        let made = Rc::new(line.alloc(), Cell::new([0, 0]));
        let Some(offered) = line.made(made) else {
            return;
        };
        let shared: Result<_, _> = offered.clone();
        let Some(shared) = line.made(shared) else {
            return;
        };
        self.offered = Some(shared);
        let teller = Teller {
            tickers,
            ready: [false, true],
            reported: None,
            offered,
        };
        let made = Dispatcher::new(line.alloc(), teller, moment);
        self.dispatcher = line.made(made);
    }

    /// Prints the first two numbers that were offered at the end, with 0 for none.
    fn print_offered(&self, line: &mut CallLine<'_>) {
        match &self.offered {
            Some(offered) => line.print_numbers(&offered.get()),
            None => line.unread(),
        }
    }

    /// Makes a call of the dispatcher.
    fn call_dispatcher(&mut self, call: Call, line: &mut CallLine<'_>) {
        let Some(dispatcher) = &mut self.dispatcher else {
            line.unread();
            return;
        };
        match call {
            Call::Send => dispatcher.send(line.number(), &self.cell).print(line),
            Call::Turn => {
                let moment = line.time();
                let turn = dispatcher.turn(moment, line.number());
                line.print_debug(&turn);
            }
            _ => end(dispatcher, line),
        }
    }
}

impl Subject for Dispatchers {
    fn anew(&self, _alloc: Global) -> Dispatchers {
        Dispatchers::new()
    }

    fn call(&mut self, line: &mut CallLine<'_>) {
        match line.name(CALLS) {
            Some(Call::Tickers) => self.make(line),
            Some(Call::Close) => {
                let first = self.cell.write(outcome_of(line));
                line.print_debug(&first);
            }
            Some(Call::Offered) => self.print_offered(line),
            Some(call) => self.call_dispatcher(call, line),
            None => {}
        }
    }
}

/// A ticker by its interval and its jitter, which is at most 1000.
fn ticker_of(line: &mut CallLine<'_>) -> TickerDef
    ensures { IsTicker result }
{
    let interval_ms = line.number();
    let jitter = line.short();
    if jitter > 1000 {
        line.unread();
    }
    TickerDef {
        interval_ms,
        jitter_thousandths: jitter.min(1000),
    }
}

/// Cancels a dispatcher, prints the turn that ends it, and finishes it.
fn end(dispatcher: &mut Dispatcher<Teller>, line: &mut CallLine<'_>) {
    let outcome = outcome_of(line);
    dispatcher.cancel();
    let turn = dispatcher.turn(0, 0);
    if matches!(turn, TurnAnswer::Cancelled | TurnAnswer::Failed(_)) {
        dispatcher.finish(outcome);
    }
    line.print_debug(&turn);
}

impl Answer for SendRefusal<u64> {
    /// Prints why a number wasn't sent, with the number that came back.
    fn print(self, line: &mut CallLine<'_>) {
        match self {
            SendRefusal::NoMemory { .. } => line.no_memory(),
            refusal => line.print_debug(&refusal),
        }
    }
}
