// Tables in memory: adding batches, dropping the first ones, and keeping the indexes.
ghost use Rattle.std.specs.Prelude.{◌↔◌, IsTrue, ◌≡◌, ◌+◌, ◌-◌, ◌<◌, ◌≤◌, ◌^◌, ◌++◌, [], ◌∷◌, ℕ, All, IsSome, List, OnErr, OnOk, IfErr, IfSome, Some, None, drop, take, if◌then◌else◌, length, map, min, true};
ghost use Rattle.std.specs.Str.{bytes_eq};
ghost use Rattle.std.specs.HashMap.{get};
ghost use Rattle.std.specs.BTreeSet.{contains};
ghost use Rattle.slate_types.specs.Line.{batches_above};
ghost use Rattle.slate_types.specs.Range.{key_cmp};
ghost use Rattle.slate_types.specs.declared.batches.Batch.{Batch as AnyBatch};
ghost use Rattle.slate_reads.specs.Index.{AreRising, IsAboveLast, IsIndex, AreOrdered, place_of, Loses, Forgets, begins_through};
ghost use Rattle.slate_reads.specs.Run.{Run, IsSame, HasRoom};
ghost use Rattle.slate_reads.specs.Size.{ops_size, size_of, value_size};

use crate::windows::Window;
use bytes::Bytes;
use slate_types::{Batch, KeyOp, NoMemory, Op, Seq};
use std::alloc::{AllocError, Global};
use std::collections::{BTreeSet, HashMap};
use std::marker::Model;
use std::mem;

/// Where an operation stands: the place of its batch, its index in it, and the place of the entry of the operation
/// before it on the same key.
#[derive(Clone, Copy, Debug)]
pub(crate) struct Entry {
    pub(crate) batch: usize,
    pub(crate) op: usize,
    pub(crate) previous: Option<usize>,
}

/// Batches with rising numbers, to be read by key and by range. A contract sees the list of them.
///
/// It keeps two indexes: for reads of a key an entry for each operation, which leads to the one before it on the same
/// key, with a hash map from each key to its last entry; and for scans the set of the keys, in order.
#[derive(Debug)]
pub struct IndexedTable {
    pub(crate) batches: Window<Batch>,
    pub(crate) entries: Window<Entry>,
    pub(crate) latest: HashMap<Bytes, Option<usize>>,
    pub(crate) order: BTreeSet<Bytes>,
    size: u128,
}

impl Drop for IndexedTable {
    fn drop(self) {
        let IndexedTable {
            batches: _,
            entries: _,
            latest: _,
            order: _,
            size: _,
        } = self;
    }
}

impl Model for IndexedTable {
    ghost use Rattle.std.specs.Prelude.{List};
    ghost use Rattle.slate_types.specs.declared.batches.Batch.{Batch};
    ghost use Rattle.slate_reads.specs.Index.{IsTable};

    ghost Value = { List Batch };

    ghost view = { λ t. t.batches.items };

    ghost invariant = { λ t. IsTable t.batches t.entries t.latest t.order t.size };
}

impl IndexedTable {
    /// A table without batches. It takes no memory.
    pub fn new(alloc: Global) -> IndexedTable
        ensures { result ≡ [] }
    {
        IndexedTable {
            batches: Window::new(alloc),
            entries: Window::new(alloc),
            latest: HashMap::new(alloc),
            order: BTreeSet::new(alloc),
            size: 0,
        }
    }

    /// Adds a batch, whose number is above that of the last one. For want of memory alone the batch comes back, and
    /// nothing is changed; a table that had 2^64 operations since it was made has no place for more, and answers so.
    /// It takes time for each operation of the batch, with a logarithm of the keys for each new key, and copies no keys.
    ///
    /// Its allocations are those by which what it keeps grows: the lists of batches and entries and the hash map, which
    /// double, and a node of the ordered keys for several new ones. A batch has none of its own.
    pub fn push(&mut self, batch: Batch) -> Result<(), Batch>
        requires { IsAboveLast batch.number self.old }
        ensures ok { OnOk result (self.new ≡ self.old ++ batch ∷ []) }
        ensures err { IfErr result (λ back. (back ≡ batch) × (self.new ≡ self.old)) }
    {
        let Some(size) = self.size.checked_add(batch_size(&batch)) else {
            return Err(batch);
        };
        if make_room(
            &mut self.batches,
            &mut self.entries,
            &mut self.latest,
            &mut self.order,
            &batch,
        )
        .is_err()
        {
            return Err(batch);
        }
        let place = self.batches.start() + self.batches.as_slice().len();
        add_entries(&mut self.entries, &mut self.latest, place, &batch);
        self.batches.push_reserved(batch);
        self.size = size;
        Ok(())
    }

    /// Adds copies of batches, whose numbers go on rising, as `push` does each. For want of memory the first of them may be
    /// added, and others not. It copies no keys and no values.
    pub fn push_all(&mut self, batches: &[Batch]) -> Result<(), NoMemory>
        requires { AreRising (self.old ++ batches.now) }
        ensures ok { OnOk result (self.new ≡ self.old ++ batches.now) }
        ensures err { OnErr result (take (length self.old) self.new ≡ self.old) }
    {
        for batch in batches {
            if self.push(batch.clone()?).is_err() {
                return Err(NoMemory);
            }
        }
        Ok(())
    }

    /// Whether a number is above that of the last batch, where there is one, so that a batch with it can be pushed.
    pub fn is_above_last(&self, number: u64) -> bool
        ensures { IsTrue result ↔ IsAboveLast number self.now }
    {
        match self.batches.as_slice().split_last() {
            None => true,
            Some((last, _earlier)) => last.number < number,
        }
    }

    /// The batches, in the order of their numbers.
    pub fn batches(&self) -> &[Batch]
        ensures value { result.now ≡ self.now }
        ensures rising { AreRising self.now }
    {
        self.batches.as_slice()
    }

    /// The bytes of keys and values in all operations, at most the greatest `u64`. A delete counts its key. It is kept,
    /// and not summed anew.
    pub fn size(&self) -> u64
        ensures { result ≡ min (size_of self.now) u64.MAX }
    {
        self.size.min(u64::MAX as u128) as u64
    }

    /// Drops the batches at or below a number. It takes no memory, and time for each operation that it drops, with a
    /// logarithm of the keys for each key that it drops; those that stay are looked at no more often than were dropped.
    pub fn drop_through(&mut self, number: u64)
        ensures { self.new ≡ batches_above number self.old }
    {
        while self.begins_through(number) {
            self.drop_first();
        }
    }

    /// Takes the last batches back, so that at most `count` are left, and the table is as if the others had not been pushed.
    /// It takes no memory, and time for each operation that it takes back, with a logarithm of the keys for each key that
    /// has no other.
    pub fn truncate(&mut self, count: usize)
        ensures { self.new ≡ take count self.old }
    {
        while self.batches.as_slice().len() > count {
            self.take_last();
        }
    }

    /// Takes the last batch back.
    fn take_last(&mut self)
        ensures { self.new ≡ take (length self.old - 1) self.old }
    {
        let Some(batch) = self.batches.pop() else {
            return;
        };
        self.size -= batch_size(&batch);
        take_entries(&mut self.entries, &mut self.latest, &mut self.order, &batch);
    }

    /// Whether there is a first batch, and it is at or below a number.
    fn begins_through(&self, number: u64) -> bool
        ensures rising { AreRising self.now }
        ensures value { result ≡ begins_through number self.now }
    {
        match self.batches.as_slice().first() {
            None => false,
            Some(batch) => batch.number <= number,
        }
    }

    /// Drops the first batch.
    fn drop_first(&mut self)
        requires { 0 < length self.old }
        ensures { self.new ≡ drop 1 self.old }
    {
        let batch = self.batches.take_first(Batch {
            number: 0,
            create_ts: 0,
            ops: Seq::of(Vec::new(self.batches.allocator())),
        });
        self.size -= batch_size(&batch);
        forget(
            &mut self.latest,
            &mut self.order,
            self.entries.start(),
            &batch,
        );
        self.entries.skip(batch.ops.as_slice().len());
    }
}

/// The bytes of keys and values in a batch.
fn batch_size(batch: &Batch) -> u128
    ensures { result ≡ ops_size batch.now.ops }
{
    ops_size(batch.ops.as_slice())
}

/// The bytes of keys and values in operations, in one pass over them.
pub fn ops_size(ops: &[KeyOp]) -> u128
    ensures { result ≡ ops_size ops.now }
{
    let mut size = 0;
    for key_op in ops {
        size += key_op.key.len() as u128 + value_len(&key_op.op) as u128;
    }
    size
}

/// The bytes of an operation's value or operand.
fn value_len(op: &Op) -> usize
    ensures { result ≡ value_size op.now }
{
    match op {
        Op::Put(value, _) => value.len(),
        Op::Delete => 0,
        Op::Merge(operand, _) => operand.len(),
    }
}

/// Makes room for a batch and its entries, and adds the keys that are new, without an entry. Where memory runs out some
/// of them are there.
fn make_room(
    batches: &mut Window<Batch>,
    entries: &mut Window<Entry>,
    latest: &mut HashMap<Bytes, Option<usize>>,
    order: &mut BTreeSet<Bytes>,
    batch: &Batch,
) -> Result<(), AllocError>
    ensures batches { IsSame batches.old batches.new }
    ensures entries { IsSame entries.old entries.new }
    ensures same { (key : List ℕ) → place_of latest.new key ≡ place_of latest.old key }
    ensures ordered { AreOrdered latest.old order.old → AreOrdered latest.new order.new }
    ensures there { OnOk result (All (λ o. IsSome (get bytes_eq latest.new o.key)) batch.now.ops) }
    ensures fits { OnOk result (HasRoom batches.new 1 × HasRoom entries.new (length batch.now.ops)) }
{
    add_keys(latest, order, batch)?;
    batches.reserve(1)?;
    entries.reserve(batch.ops.as_slice().len())
}

/// Adds the keys of a batch that are new, without an entry. Where memory runs out some of them are there.
fn add_keys(
    latest: &mut HashMap<Bytes, Option<usize>>,
    order: &mut BTreeSet<Bytes>,
    batch: &Batch,
) -> Result<(), AllocError>
    ensures same { (key : List ℕ) → place_of latest.new key ≡ place_of latest.old key }
    ensures ordered { AreOrdered latest.old order.old → AreOrdered latest.new order.new }
    ensures there { OnOk result (All (λ o. IsSome (get bytes_eq latest.new o.key)) batch.now.ops) }
{
    for key_op in batch.ops.as_slice() {
        add_key(latest, order, &key_op.key)?;
    }
    Ok(())
}

/// Adds a key, where it is new, without an entry.
fn add_key(
    latest: &mut HashMap<Bytes, Option<usize>>,
    order: &mut BTreeSet<Bytes>,
    key: &Bytes,
) -> Result<(), AllocError>
    ensures same { (other : List ℕ) → place_of latest.new other ≡ place_of latest.old other }
    ensures ordered { AreOrdered latest.old order.old → AreOrdered latest.new order.new }
    ensures there { OnOk result (IsSome (get bytes_eq latest.new key.now)) }
    ensures stays { (other : List ℕ) → IsSome (get bytes_eq latest.old other) → IsSome (get bytes_eq latest.new other) }
{
    if !latest.contains_key(key) {
        order.insert(key.clone()?)?;
        latest.insert(key.clone()?, None)?;
    }
    Ok(())
}

/// Adds the entries of a batch's operations, whose keys are in the map.
fn add_entries(
    entries: &mut Window<Entry>,
    latest: &mut HashMap<Bytes, Option<usize>>,
    place: usize,
    batch: &Batch,
)
    requires room { HasRoom entries.old (length batch.now.ops) }
    requires there { All (λ o. IsSome (get bytes_eq latest.old o.key)) batch.now.ops }
    ensures start { entries.new.start ≡ entries.old.start }
    ensures len { length entries.new.items ≡ length entries.old.items + length batch.now.ops }
    ensures index { (batches new : Run AnyBatch) → batches.start + length batches.items ≡ place → new.start ≡ batches.start → new.items ≡ batches.items ++ batch.now ∷ [] →
        IsIndex batches entries.old (place_of latest.old) → IsIndex new entries.new (place_of latest.new) }
    ensures stays { (key : List ℕ) → IsSome (get bytes_eq latest.new key) → IsSome (get bytes_eq latest.old key) }
{
    for (op, key_op) in batch.ops.as_slice().iter().enumerate() {
        add_entry(entries, latest, place, op, &key_op.key);
    }
}

/// Adds the entry of an operation, whose key is in the map.
fn add_entry(
    entries: &mut Window<Entry>,
    latest: &mut HashMap<Bytes, Option<usize>>,
    batch: usize,
    op: usize,
    key: &Bytes,
)
    requires room { 0 < entries.old.room }
    requires fits { entries.old.start + length entries.old.items < 2 ^ 64 }
    requires there { IsSome (get bytes_eq latest.old key.now) }
    ensures added { entries.new.items ≡ entries.old.items ++ record { batch = batch; op = op; previous = place_of latest.old key.now } ∷ [] }
    ensures start { entries.new.start ≡ entries.old.start }
    ensures room { entries.new.room + 1 ≡ entries.old.room }
    ensures latest { (other : List ℕ) →
        get bytes_eq latest.new other ≡ (if bytes_eq key.now other then Some (Some (entries.old.start + length entries.old.items)) else get bytes_eq latest.old other) }
{
    let place = entries.start() + entries.as_slice().len();
    if let Some(last) = latest.get_mut(key) {
        let previous = mem::replace(last, Some(place));
        entries.push_reserved(Entry {
            batch,
            op,
            previous,
        });
    }
}

/// Forgets the keys whose last entry is of this batch, the first one, whose entries begin at a place.
fn forget(
    latest: &mut HashMap<Bytes, Option<usize>>,
    order: &mut BTreeSet<Bytes>,
    start: usize,
    batch: &Batch,
)
    requires { start + length batch.now.ops < 2 ^ 64 }
    ensures forgets { (key : List ℕ) → Forgets (start + length batch.now.ops) (place_of latest.old key) (place_of latest.new key) }
    ensures ordered { AreOrdered latest.old order.old → AreOrdered latest.new order.new }
{
    for (op, key_op) in batch.ops.as_slice().iter().enumerate() {
        forget_key(latest, order, &key_op.key, start + op);
    }
}

/// Forgets a key, where its last entry has this place.
fn forget_key(
    latest: &mut HashMap<Bytes, Option<usize>>,
    order: &mut BTreeSet<Bytes>,
    key: &Bytes,
    place: usize,
)
    ensures loses { (other : List ℕ) → Loses place (place_of latest.old other) (place_of latest.new other) }
    ensures ordered { AreOrdered latest.old order.old → AreOrdered latest.new order.new }
{
    if last_place(latest, key) == Some(place) {
        remove_key(latest, order, key);
    }
}

/// Takes back the entries of the last batch, the last one first.
fn take_entries(
    entries: &mut Window<Entry>,
    latest: &mut HashMap<Bytes, Option<usize>>,
    order: &mut BTreeSet<Bytes>,
    batch: &Batch,
)
    ensures start { entries.new.start ≡ entries.old.start }
    ensures fewer { length entries.new.items ≤ length entries.old.items }
    ensures index { (batches new : Run AnyBatch) → new.start ≡ batches.start → new.items ≡ batches.items ++ batch.now ∷ [] →
        IsIndex new entries.old (place_of latest.old) → IsIndex batches entries.new (place_of latest.new) }
    ensures ordered { AreOrdered latest.old order.old → AreOrdered latest.new order.new }
{
    let mut left = batch.ops.as_slice();
    while let Some((key_op, earlier)) = left.split_last() {
        let Some(entry) = entries.pop() else {
            return;
        };
        lead_back(latest, order, &key_op.key, entry.previous);
        left = earlier;
    }
}

/// Leads a key back to the entry before its last one. Where there is none, it forgets the key.
fn lead_back(
    latest: &mut HashMap<Bytes, Option<usize>>,
    order: &mut BTreeSet<Bytes>,
    key: &Bytes,
    previous: Option<usize>,
)
    ensures back { IsSome (get bytes_eq latest.old key.now) → (other : List ℕ) → place_of latest.new other ≡ (if bytes_eq key.now other then previous else place_of latest.old other) }
    ensures ordered { AreOrdered latest.old order.old → AreOrdered latest.new order.new }
{
    match previous {
        None => remove_key(latest, order, key),
        Some(_) => set_last(latest, key, previous),
    }
}

/// Removes a key.
fn remove_key(latest: &mut HashMap<Bytes, Option<usize>>, order: &mut BTreeSet<Bytes>, key: &Bytes)
    ensures back { (other : List ℕ) → place_of latest.new other ≡ (if bytes_eq key.now other then None else place_of latest.old other) }
    ensures ordered { AreOrdered latest.old order.old → AreOrdered latest.new order.new }
{
    latest.remove(key);
    order.remove(key);
}

/// Sets the place of a key's last entry, where the key is in the map.
fn set_last(latest: &mut HashMap<Bytes, Option<usize>>, key: &Bytes, place: Option<usize>)
    ensures set { IsSome (get bytes_eq latest.old key.now) → (other : List ℕ) →
        get bytes_eq latest.new other ≡ (if bytes_eq key.now other then Some place else get bytes_eq latest.old other) }
    ensures stays { (other : List ℕ) → IsSome (get bytes_eq latest.new other) → IsSome (get bytes_eq latest.old other) }
{
    if let Some(last) = latest.get_mut(key) {
        *last = place;
    }
}

/// The place of a key's last entry, where it has one.
pub(crate) fn last_place(latest: &HashMap<Bytes, Option<usize>>, key: &Bytes) -> Option<usize>
    ensures { result ≡ place_of latest.now key.now }
{
    match latest.get(key) {
        Some(place) => *place,
        None => None,
    }
}
