// Calls of a feed of a database: whole ones, and one that makes its steps one by one.
ghost use Rattle.std.specs.Prelude.{None};

use crate::databases::Database;
use slate_calls::answers::Answer;
use slate_calls::call_line::CallLine;
use slate_feed::{Feed, FeedMachine, FeedRefusal, FeedStep};
use slate_store::Store;
use slate_types::{Batch, Seq};
use std::alloc::Global;
use std::marker::Model;

#[derive(Clone, Copy)]
enum Call {
    Open,
    Cursor,
    Next,
    Begin,
    Step,
}

const CALLS: &[(&[u8], Call)] = &[
    (b"open", Call::Open),
    (b"cursor", Call::Cursor),
    (b"next", Call::Next),
    (b"begin", Call::Begin),
    (b"step", Call::Step),
];

/// A feed, with its begun call, where there is one: that has a step to make, and is of the feed as it is.
pub struct SteppedFeed {
    feed: Feed,
    machine: Option<FeedMachine>,
}

impl Drop for SteppedFeed {
    fn drop(self) {
        let SteppedFeed {
            feed: _,
            machine: _,
        } = self;
    }
}

impl Model for SteppedFeed {
    ghost use Rattle.std.specs.Prelude.{◌≡◌, ℕ, IfSome};
    ghost use Rattle.slate_feed.specs.Reading.{IsGoing};

    ghost Value = { ℕ };

    ghost view = { λ a. a.feed };

    ghost invariant = { λ a. IfSome a.machine (λ b. (a.feed ≡ b.cursor) × IsGoing b.stage) };
}

impl SteppedFeed {
    /// Begins a call in place of the one that was begun.
    fn begin(&mut self, alloc: Global, limit: u32) {
        self.machine = None;
        self.machine = Some(FeedMachine::begin(alloc, &self.feed, limit));
    }

    /// Makes the next step of the begun call, or answers that there is none.
    fn step<S: Store>(
        &mut self,
        alloc: Global,
        store: &mut S,
    ) -> Option<Result<FeedStep, FeedRefusal>> {
        let mut machine = self.machine.take()?;
        let stepped = machine.step(alloc, &mut self.feed, store);
        if let Ok(FeedStep::More) = stepped {
            self.machine = Some(machine);
        }
        Some(stepped)
    }

    /// Makes a whole call. One that was begun is dropped.
    fn next<S: Store>(
        &mut self,
        alloc: Global,
        store: &mut S,
        limit: u32,
    ) -> Result<Seq<Batch>, FeedRefusal> {
        self.machine = None;
        self.feed.next_batches(alloc, store, limit)
    }
}

impl Database {
    /// Makes a call of the feed.
    pub fn call_feed(&mut self, line: &mut CallLine<'_>) {
        let alloc = line.alloc();
        match (line.name(CALLS), &mut self.feed) {
            (Some(Call::Open), _) => self.open_feed(line),
            (Some(Call::Cursor), Some(feed)) => line.print_number(feed.feed.cursor()),
            (Some(Call::Next), Some(feed)) => {
                let limit = limit_of(line);
                print_batches(feed.next(alloc, &mut self.store, limit), line);
            }
            (Some(Call::Begin), Some(feed)) => {
                feed.begin(alloc, limit_of(line));
                line.print_text("begun");
            }
            (Some(Call::Step), Some(feed)) => match feed.step(alloc, &mut self.store) {
                Some(stepped) => print_step(stepped, line),
                None => line.unread(),
            },
            _ => line.unread(),
        }
    }

    /// Opens a feed after a number, in place of the one before where it is opened.
    fn open_feed(&mut self, line: &mut CallLine<'_>) {
        let after = line.number();
        match Feed::open(line.alloc(), &mut self.store, after) {
            Ok(feed) => {
                line.print_text("after ");
                line.print_number(feed.cursor());
                self.feed = Some(SteppedFeed {
                    feed,
                    machine: None,
                });
            }
            Err(refusal) => print_refusal(refusal, line),
        }
    }
}

/// The limit that the next word spells.
fn limit_of(line: &mut CallLine<'_>) -> u32 {
    let limit = line.number();
    u32::try_from(limit).unwrap_or(u32::MAX)
}

/// Prints what a whole call answers.
fn print_batches(answer: Result<Seq<Batch>, FeedRefusal>, line: &mut CallLine<'_>) {
    match answer {
        Ok(batches) => batches.print(line),
        Err(refusal) => print_refusal(refusal, line),
    }
}

/// Prints what a step answers.
fn print_step(answer: Result<FeedStep, FeedRefusal>, line: &mut CallLine<'_>) {
    match answer {
        Ok(FeedStep::More) => line.print_text("more"),
        Ok(FeedStep::Batches(batches)) => batches.print(line),
        Ok(FeedStep::Moved) => line.print_text("moved"),
        Err(refusal) => print_refusal(refusal, line),
    }
}

fn print_refusal(refusal: FeedRefusal, line: &mut CallLine<'_>) {
    match refusal {
        FeedRefusal::LatestTransactionalObjectVersionMissing => line.print_text("missing"),
        FeedRefusal::BeforeFloor { cursor, floor } => {
            line.print_text("floor ");
            line.print_number(floor);
            line.print_text(" of ");
            line.print_number(cursor);
        }
        FeedRefusal::Ahead { cursor, end } => {
            line.print_text("ahead ");
            line.print_number(cursor);
            line.print_text(" of ");
            line.print_number(end);
        }
        FeedRefusal::ObjectStoreError => line.print_text("failed"),
        FeedRefusal::NoMemory => line.print_text("no memory"),
        FeedRefusal::Moved => line.print_text("refused as moved"),
    }
}
