// The number of the last batch that wrote each key.
ghost use Rattle.std.specs.Prelude.{◌≡◌, ◌<◌, [], ℕ, List, All, IsTrue, OnOk, true};
ghost use Rattle.std.specs.BTreeMap.{insert_entry};
ghost use Rattle.slate_types.specs.Range.{key_cmp};
ghost use Rattle.slate_transactions.specs.Writes.{after_writes, is_among, last_write};

use crate::KeySet;
use bytes::Bytes;
use slate_types::{KeyOp, NoMemory};
use std::alloc::Global;
use std::collections::BTreeMap;
use std::marker::Model;

/// The last writes of a handle: for each key the number of the last batch with a write of it that is tracked, and 0 for a
/// key without one. It keeps each key for good, in order.
#[derive(Debug)]
pub struct TrackedWrites {
    pub(crate) last: BTreeMap<Bytes, u64>,
}

impl Drop for TrackedWrites {
    fn drop(self) {
        let TrackedWrites { last: _ } = self;
    }
}

impl Model for TrackedWrites {
    ghost use Rattle.std.specs.BTreeMap.{IsOrdered};
    ghost use Rattle.slate_types.specs.Range.{key_cmp};
    ghost use Rattle.slate_transactions.specs.Writes.{Tracking, tracking_of};

    ghost Value = { Tracking };

    ghost view = { λ w. tracking_of w.last.entries };

    ghost invariant = { λ w. IsOrdered key_cmp w.last };
}

impl TrackedWrites {
    /// No write. It takes no memory.
    pub fn new(alloc: Global) -> TrackedWrites
        ensures { result ≡ record { writes = []; room = [] } }
    {
        TrackedWrites {
            last: BTreeMap::new(alloc),
        }
    }

    /// The number of the last batch that wrote a key, or 0. It takes a logarithm of the keys, and no memory.
    pub fn last_write(&self, key: &Bytes) -> u64
        ensures { result ≡ last_write self.now.writes key.now }
    {
        self.last.get(key).copied().unwrap_or(0)
    }

    /// Makes room for the keys of operations, so that noting them takes no memory. For each it takes a logarithm of the keys.
    /// It copies no keys. Where memory ran out the writes are as before.
    pub fn make_room(&mut self, ops: &[KeyOp]) -> Result<(), NoMemory>
        ensures same { self.new.writes ≡ self.old.writes }
        ensures room { OnOk result (All (λ o. IsTrue (is_among self.new.room o.key)) ops.now) }
    {
        for key_op in ops {
            self.add_key(&key_op.key)?;
        }
        Ok(())
    }

    /// Makes room for a key.
    fn add_key(&mut self, key: &Bytes) -> Result<(), NoMemory>
        ensures same { self.new.writes ≡ self.old.writes }
        ensures keeps { (other : List ℕ) → is_among self.old.room other ≡ true → is_among self.new.room other ≡ true }
        ensures room { OnOk result (is_among self.new.room key.now ≡ true) }
    {
        if !self.last.contains_key(key) {
            self.last.insert(key.clone()?, 0)?;
        }
        Ok(())
    }

    /// Notes the keys of the operations of a batch with this number, but for unmarked ones. For each it takes a logarithm of
    /// the keys.
    pub fn note(&mut self, number: u64, ops: &[KeyOp], unmarked: &KeySet)
        requires number { 0 < number }
        requires room { All (λ o. IsTrue (is_among self.old.room o.key)) ops.now }
        ensures { self.new.writes ≡ after_writes number unmarked.now ops.now self.old.writes }
    {
        for key_op in ops {
            if !unmarked.contains(&key_op.key) {
                self.note_key(number, &key_op.key);
            }
        }
    }

    /// Notes a key, for which there is room.
    fn note_key(&mut self, number: u64, key: &Bytes)
        requires number { 0 < number }
        requires room { is_among self.old.room key.now ≡ true }
        ensures writes { self.new.writes ≡ insert_entry key_cmp self.old.writes key.now number }
        ensures room { self.new.room ≡ self.old.room }
    {
        if let Some(last) = self.last.get_mut(key) {
            *last = number;
        }
    }
}
