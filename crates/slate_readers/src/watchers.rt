// Readers that take views of what is published, on threads of their own.
ghost use Rattle.std.specs.Prelude.{◌≡◌, ◌<◌, ◌≤◌, ◌^◌, [], true, All, IfOk, IfSome, OnOk, length, map, vec_capacity};
ghost use Rattle.std.specs.Option.{option_copied};
ghost use mathlib.Core.List.{IsPrefix};
ghost use Rattle.slate_published.specs.States.{last_of};
ghost use Rattle.slate_readers.specs.Watching.{AreOf, IsTold, StayOf};

use crate::Gate;
use slate_published::{FollowerNews, FollowerPublisher, FollowerReader};
use slate_types::NoMemory;
use std::alloc::Global;
use std::sync::Wait;
use std::sync::atomic::{AtomicBool, Ordering};
use std::thread::{self, Threads};

/// A reader with its number, and how many views it took.
pub(crate) struct Watcher {
    number: u32,
    turns: u64,
    reader: FollowerReader,
}

impl Drop for Watcher {
    fn drop(self) {
        let Watcher {
            number: _,
            turns: _,
            reader: _,
        } = self;
    }
}

impl Watcher {
    /// A reader that took no view.
    pub(crate) fn new(number: u32, reader: FollowerReader) -> Watcher
        ensures { result.reader ≡ reader }
    {
        Watcher {
            number,
            turns: 0,
            reader,
        }
    }

    /// The reader.
    pub(crate) fn into_reader(self) -> FollowerReader
        ensures { result ≡ self.reader }
    {
        let Watcher {
            number: _,
            turns: _,
            reader,
        } = self;
        reader
    }

    /// Learns news, where there are any.
    fn learn(&mut self, news: Option<&FollowerNews>) -> Result<(), NoMemory>
        requires { IfSome (option_copied news) (λ n. n.origin ≡ self.old.reader.origin) }
        ensures origin { self.new.reader.origin ≡ self.old.reader.origin }
        ensures told { OnOk result (IfSome (option_copied news.entry) (λ n. IsPrefix n.states self.new.reader.states)) }
    {
        if let Some(news) = news {
            self.reader.learn(news.again()?);
        }
        Ok(())
    }

    /// Takes a view.
    fn take_view<G: Gate>(&mut self, gate: &G)
        ensures origin { self.new.reader.origin ≡ self.old.reader.origin }
        ensures seen { IsPrefix self.old.reader.states self.new.reader.states }
    {
        gate.pass(self.number, self.turns);
        let number = view_number(&mut self.reader);
        gate.seen(self.number, self.turns, number);
        self.turns = self.turns.saturating_add(1);
    }

    /// Takes views until the flag is set, at least one.
    fn watch<R: Wait, G: Gate>(&mut self, rt: &R, gate: &G, ended: &AtomicBool)
        ensures { self.new.reader.origin ≡ self.old.reader.origin }
    {
        for _ in rt.forever() {
            self.take_view(gate);
            if ended.load(Ordering::SeqCst) {
                break;
            }
            thread::yield_now();
        }
    }

    /// Learns the last news, where there are any, and takes a last view: it has then seen all that was published. Where no copy
    /// of the news could be made it takes its view all the same.
    pub(crate) fn end<G: Gate>(
        &mut self,
        gate: &G,
        news: Option<&FollowerNews>,
        publisher: &mut FollowerPublisher,
    ) -> Result<(), NoMemory>
        requires origin { self.old.reader.origin ≡ publisher.old.origin }
        requires news { IsTold publisher.old (option_copied news) }
        ensures publisher { publisher.new ≡ publisher.old }
        ensures origin { self.new.reader.origin ≡ self.old.reader.origin }
        ensures seen { OnOk result (self.new.reader ≡ publisher.old) }
    {
        let told = self.learn(news);
        self.take_view(gate);
        publisher.has_published(&self.reader);
        told
    }
}

/// Readers as watchers, by their numbers from 0.
pub(crate) fn number_readers(
    alloc: Global,
    readers: Vec<FollowerReader>,
) -> Result<Vec<Watcher>, NoMemory>
    requires { length readers.items < 2 ^ 32 }
    ensures { IfOk result (λ watchers. map (λ w. w.reader) watchers.items ≡ readers.items) }
{
    let mut watchers = Vec::new(alloc);
    let mut number = 0;
    for reader in readers {
        watchers.push(Watcher::new(number, reader))?;
        number += 1;
    }
    Ok(watchers)
}

/// Moves the readers of watchers into an empty list that has room for them.
pub(crate) fn give_back(watchers: Vec<Watcher>, readers: &mut Vec<FollowerReader>)
    requires { (readers.old.items ≡ []) × (length watchers.items ≤ vec_capacity readers.old) }
    ensures { readers.new.items ≡ map (λ w. w.reader) watchers.items }
{
    for watcher in watchers {
        readers.push_reserved(watcher.into_reader());
    }
}

/// Lets each reader learn the last news, where there are any, and take a last view. It answers whether each has seen all that was
/// published; want of memory for a copy of the news alone keeps one from that.
pub(crate) fn end_all<G: Gate>(
    gate: &G,
    news: Option<&FollowerNews>,
    publisher: &mut FollowerPublisher,
    watchers: &mut [Watcher],
) -> bool
    requires origin { AreOf publisher.old watchers.old }
    requires news { IsTold publisher.old (option_copied news) }
    ensures publisher { publisher.new ≡ publisher.old }
    ensures seen { result ≡ true → All (λ w. w.reader ≡ publisher.old) watchers.new }
{
    let mut all = true;
    for place in 0..watchers.len() {
        let told = watchers[place].end(gate, news, publisher);
        all = all && told.is_ok();
    }
    all
}

/// Takes a view, and answers the number of the state.
fn view_number(reader: &mut FollowerReader) -> u64
    ensures origin { reader.new.origin ≡ reader.old.origin }
    ensures seen { IsPrefix reader.old.states reader.new.states }
    ensures number { result ≡ (last_of reader.new.states).number }
{
    reader.view().number()
}

/// Lets each reader take views on a thread of its own until the flag is set, at least one. Where no thread can be made for one, it
/// takes its views before or after others.
pub(crate) fn watch_all<R: Threads + Wait + Sync, G: Gate + Sync>(
    rt: &R,
    gate: &G,
    ended: &AtomicBool,
    watchers: &mut [Watcher],
)
    ensures { StayOf watchers.old watchers.new }
{
    let threads = watchers.len().max(1);
    thread::for_each_mut(
        rt,
        watchers,
        threads,
        &|_, watcher: &mut Watcher| watcher.watch(rt, gate, ended),
    );
}
