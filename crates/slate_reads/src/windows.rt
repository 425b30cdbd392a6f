// Lists whose front is dropped while the items that stay keep their places.
ghost use Rattle.std.specs.Prelude.{◌≡◌, ◌+◌, ◌-◌, ◌<◌, ◌≤◌, ◌^◌, [], ◌∷◌, ◌++◌, drop, length, MatchOption, OnOk};
ghost use Rattle.slate_reads.specs.Run.{Stands, IsSame, HasRoom};

use std::alloc::{AllocError, Global};
use std::marker::Model;
use std::mem;

/// The items of a growing list from some place on. Its front can be taken away, and the items that stay keep their
/// places. A contract sees them as a run.
#[derive(Debug)]
pub(crate) struct Window<T> {
    items: Vec<T>,
    gone: usize,
    start: usize,
}

impl<T: Drop> Drop for Window<T> {
    fn drop(self) {
        let Window {
            items: _,
            gone: _,
            start: _,
        } = self;
    }
}

impl<T> Model for Window<T> {
    ghost use Rattle.std.specs.Prelude.{◌-◌, ◌≤◌, drop, vec_len, vec_capacity};
    ghost use Rattle.slate_reads.specs.Run.{Run};

    ghost Value = { Run T };

    ghost view = { λ w. record { start = w.start; items = drop w.gone w.items.items; room = vec_capacity w.items - vec_len w.items } };

    ghost invariant = { λ w. w.gone ≤ vec_len w.items };
}

impl<T: Drop> Window<T> {
    /// A window without items. It takes no memory.
    pub(crate) fn new(alloc: Global) -> Window<T>
        ensures items { result.items ≡ [] }
        ensures start { result.start ≡ 0 }
    {
        Window {
            items: Vec::new(alloc),
            gone: 0,
            start: 0,
        }
    }

    /// The allocator.
    pub(crate) fn allocator(&self) -> Global {
        *self.items.allocator()
    }

    /// The place of the first item.
    pub(crate) fn start(&self) -> usize
        ensures { result ≡ self.now.start }
    {
        self.start
    }

    /// The items.
    pub(crate) fn as_slice(&self) -> &[T]
        ensures { result.now ≡ self.now.items }
    {
        &self.items.as_slice()[self.gone..]
    }

    /// The item at a place.
    pub(crate) fn get(&self, place: usize) -> Option<&T>
        ensures { MatchOption result (self.now.start ≤ place → self.now.start + length self.now.items ≤ place) (λ item. Stands self.now place item.now) }
    {
        let index = place.checked_sub(self.start)?;
        self.as_slice().get(index)
    }

    /// The item at a place where there is one.
    pub(crate) fn at(&self, place: usize) -> &T
        requires from { self.now.start ≤ place }
        requires before { place < self.now.start + length self.now.items }
        ensures { Stands self.now place result.now }
    {
        &self.as_slice()[place - self.start]
    }

    /// Makes room for more items.
    pub(crate) fn reserve(&mut self, count: usize) -> Result<(), AllocError>
        ensures same { IsSame self.old self.new }
        ensures ok { OnOk result (HasRoom self.new count) }
    {
        let end = self
            .start
            .checked_add(self.as_slice().len())
            .ok_or(AllocError)?;
        end.checked_add(count).ok_or(AllocError)?;
        self.items.reserve(count)
    }

    /// Adds an item, for which there is room.
    pub(crate) fn push_reserved(&mut self, item: T)
        requires { 0 < self.old.room }
        ensures items { self.new.items ≡ self.old.items ++ item ∷ [] }
        ensures start { self.new.start ≡ self.old.start }
        ensures room { self.new.room + 1 ≡ self.old.room }
    {
        self.items.push_reserved(item);
    }

    /// Takes the last item, where there is one. Its room is free again.
    pub(crate) fn pop(&mut self) -> Option<T>
        ensures start { self.new.start ≡ self.old.start }
        ensures cases { MatchOption result ((self.old.items ≡ []) × (self.new.items ≡ [])) (λ item. self.old.items ≡ self.new.items ++ item ∷ []) }
    {
        if self.gone == self.items.len() {
            return None;
        }
        self.items.pop()
    }

    /// Drops items from the front. It takes time for each of them, and moves those that stay where more than half
    /// of the vector was dropped.
    pub(crate) fn skip(&mut self, count: usize)
        requires within { count ≤ length self.old.items }
        requires fits { self.old.start + count < 2 ^ 64 }
        ensures items { self.new.items ≡ drop count self.old.items }
        ensures start { self.new.start ≡ self.old.start + count }
    {
        self.gone += count;
        self.start += count;
        if self.gone > self.items.len() / 2 {
            self.items.drain(..self.gone);
            self.gone = 0;
        }
    }

    /// Takes the first item, in whose stead another one fills its room.
    pub(crate) fn take_first(&mut self, filler: T) -> T
        requires some { 0 < length self.old.items }
        requires fits { self.old.start + 1 < 2 ^ 64 }
        ensures items { self.old.items ≡ result ∷ self.new.items }
        ensures start { self.new.start ≡ self.old.start + 1 }
    {
        let first = mem::replace(&mut self.items[self.gone], filler);
        self.skip(1);
        first
    }
}
