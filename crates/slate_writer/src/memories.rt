// The batches that a handle keeps in memory, which a flush to a table freezes.
ghost use Rattle.std.specs.Prelude.{◌≡◌, ◌≤◌, ◌++◌, [], ◌∷◌, drop, length, min, nat_le, take_while, true, IfErr, IfOk, OnErr, OnOk};
ghost use Rattle.slate_types.specs.Line.{batches_above};
ghost use Rattle.slate_reads.specs.Index.{AreRising, IsAboveLast};
ghost use Rattle.slate_reads.specs.Size.{size_of};
ghost use Rattle.slate_model.specs.Unflushed.{most_bytes};

use crate::sizes::size_of;
use slate_reads::{Indexed, IndexedTable, Table};
use slate_types::{Batch, NoMemory};
use std::alloc::Global;
use std::marker::Model;
use std::mem;

/// The batches that a handle keeps in memory, in the order of their numbers. A contract sees the list of them.
///
/// They are one table that grows, until a flush freezes it: the table that it puts shares them with their indexes. They stay
/// frozen where the flush fails.
pub(crate) struct Memory {
    held: Held,
}

/// How the batches are held.
enum Held {
    /// In a table of their own.
    Growing(IndexedTable),
    /// In a table that others may share, of which so many first batches were dropped since it was frozen.
    Frozen(Table, usize),
}

impl Drop for Held {
    fn drop(self) {
        match self {
            Held::Growing(_) => {}
            Held::Frozen(_, _) => {}
        }
    }
}

impl Drop for Memory {
    fn drop(self) {
        let Memory { held: _ } = self;
    }
}

impl Model for Memory {
    ghost use Rattle.std.specs.Prelude.{List};
    ghost use Rattle.slate_types.specs.declared.batches.Batch.{Batch};
    ghost use Rattle.slate_writer.specs.Memories.{held_batches, IsHeld};

    ghost Value = { List Batch };

    ghost view = { λ m. held_batches m.held };

    ghost invariant = { λ m. IsHeld m.held };
}

impl Memory {
    ghost use Rattle.slate_writer.specs.Reading.{batches_of};

    /// The batches of a table, which grows.
    pub(crate) fn of(table: IndexedTable) -> Memory
        ensures { result ≡ table }
    {
        Memory {
            held: Held::Growing(table),
        }
    }

    /// The batches, in the order of their numbers.
    pub(crate) fn batches(&self) -> &[Batch]
        ensures value { result.now ≡ self.now }
        ensures rising { AreRising result.now }
    {
        match &self.held {
            Held::Growing(table) => table.batches(),
            Held::Frozen(table, gone) => rest_of(table, *gone),
        }
    }

    /// The bytes of keys and values in them, at most the greatest `u64`. They are summed anew only where some were dropped of
    /// a frozen table.
    pub(crate) fn size(&self) -> u64
        ensures { result ≡ min (size_of self.now) most_bytes }
    {
        match &self.held {
            Held::Growing(table) => table.size(),
            Held::Frozen(table, 0) => table.indexed().size(),
            Held::Frozen(table, gone) => size_of(rest_of(table, *gone)),
        }
    }

    /// Adds a batch, whose number is above that of the last one. Where memory runs out the batch comes back, and nothing is
    /// changed. It takes the time of a push to an `IndexedTable`; where they are frozen, and a table shares them, they get
    /// indexes of their own first.
    pub(crate) fn push(&mut self, alloc: Global, batch: Batch) -> Result<(), Batch>
        requires { IsAboveLast batch.number self.old }
        ensures ok { OnOk result (self.new ≡ self.old ++ batch ∷ []) }
        ensures err { IfErr result (λ back. (back ≡ batch) × (self.new ≡ self.old)) }
    {
        match &mut self.held {
            Held::Growing(table) => table.push(batch),
            Held::Frozen(table, gone) => push_frozen(alloc, table, gone, batch),
        }
    }

    /// Freezes them, so that tables can share them. It takes constant time, and changes nothing for want of memory.
    pub(crate) fn freeze(&mut self, alloc: Global) -> Result<(), NoMemory>
        ensures { self.new ≡ self.old }
    {
        let growing = Held::Growing(IndexedTable::new(alloc));
        let (held, result) = mem::replace(&mut self.held, growing).freeze(alloc);
        self.held = held;
        result
    }

    /// The table of them. Where they are frozen, and none was dropped since, it shares them with their indexes, and takes no
    /// memory; else it has indexes of its own.
    pub(crate) fn share(&self, alloc: Global) -> Result<Table, NoMemory>
        ensures { IfOk result (λ table. table ≡ self.now) }
    {
        match &self.held {
            Held::Growing(table) => Table::of_batches(alloc, table.batches()),
            Held::Frozen(table, gone) => rest(alloc, table, *gone),
        }
    }

    /// The table to be read. It takes no memory, unless some were dropped of a frozen table.
    pub(crate) fn to_read(&self, alloc: Global) -> Result<Readable<'_>, NoMemory>
        ensures { IfOk result (λ readable. batches_of readable ≡ self.now) }
    {
        match &self.held {
            Held::Growing(table) => Ok(Readable::Lent(table)),
            Held::Frozen(table, gone) => Ok(Readable::Shared(rest(alloc, table, *gone)?)),
        }
    }

    /// Drops the batches at or below a number. It takes no memory. Where all are, a table that grows is begun; else it takes
    /// the time of what is dropped, as `IndexedTable::drop_through` does, and a pass over those that are dropped of a frozen
    /// table, which keeps them.
    pub(crate) fn drop_through(&mut self, alloc: Global, number: u64)
        ensures { self.new ≡ batches_above number self.old }
    {
        if ends_through(self.batches(), number) {
            self.held = Held::Growing(IndexedTable::new(alloc));
            return;
        }
        match &mut self.held {
            Held::Growing(table) => table.drop_through(number),
            Held::Frozen(table, gone) => *gone = gone_through(table, *gone, number),
        }
    }
}

impl Held {
    ghost use Rattle.slate_writer.specs.Memories.{held_batches, IsHeld};

    /// The same batches, frozen, or as they were for want of memory.
    fn freeze(self, alloc: Global) -> (Held, Result<(), NoMemory>)
        requires { IsHeld self }
        ensures held { IsHeld result.0 }
        ensures same { held_batches result.0 ≡ held_batches self }
    {
        match self {
            Held::Growing(table) => match Table::new(alloc, table) {
                Ok(table) => (Held::Frozen(table, 0), Ok(())),
                Err(table) => (Held::Growing(table), Err(NoMemory)),
            },
            Held::Frozen(table, gone) => (Held::Frozen(table, gone), Ok(())),
        }
    }
}

/// A table of batches that is read, lent or shared.
pub(crate) enum Readable<'a> {
    Lent(&'a IndexedTable),
    Shared(Table),
}

impl Drop for Readable<'_> {
    fn drop(self) {
        match self {
            Readable::Lent(_) => {}
            Readable::Shared(_) => {}
        }
    }
}

impl Indexed for Readable<'_> {
    ghost use Rattle.slate_writer.specs.Reading.{batches_of};

    ghost batches = { batches_of };

    fn as_indexed(&self) -> &IndexedTable {
        match self {
            Readable::Lent(table) => table,
            Readable::Shared(table) => table.indexed(),
        }
    }
}

/// The batches of a table after so many first ones.
fn rest_of(table: &Table, gone: usize) -> &[Batch]
    requires { gone ≤ length table.now }
    ensures value { result.now ≡ drop gone table.now }
    ensures rising { AreRising result.now }
{
    &table.batches()[gone..]
}

/// How many first batches of a table are gone once those at or below a number are, too.
fn gone_through(table: &Table, gone: usize, number: u64) -> usize
    requires { gone ≤ length table.now }
    ensures within { result ≤ length table.now }
    ensures rest { drop result table.now ≡ batches_above number (drop gone table.now) }
{
    let batches = table.batches();
    gone + count_through(&batches[gone..], number)
}

/// The table of the batches of another one after so many first ones. It shares them where these are none.
fn rest(alloc: Global, table: &Table, gone: usize) -> Result<Table, NoMemory>
    requires { gone ≤ length table.now }
    ensures { IfOk result (λ rest. rest ≡ drop gone table.now) }
{
    if gone == 0 {
        return Ok(table.clone()?);
    }
    Table::of_batches(alloc, rest_of(table, gone))
}

/// Adds a batch to the batches of a frozen table after so many first ones.
fn push_frozen(
    alloc: Global,
    table: &mut Table,
    gone: &mut usize,
    batch: Batch,
) -> Result<(), Batch>
    requires within { gone.old ≤ length table.old }
    requires above { IsAboveLast batch.number (drop gone.old table.old) }
    ensures within { gone.new ≤ length table.new }
    ensures ok { OnOk result (drop gone.new table.new ≡ drop gone.old table.old ++ batch ∷ []) }
    ensures err { IfErr result (λ back. (back ≡ batch) × (drop gone.new table.new ≡ drop gone.old table.old)) }
{
    match own_rest(alloc, table, gone) {
        Ok(()) => table.push(alloc, batch),
        Err(NoMemory) => Err(batch),
    }
}

/// Puts the table of its batches after so many first ones in the place of a table, where any are gone.
fn own_rest(alloc: Global, table: &mut Table, gone: &mut usize) -> Result<(), NoMemory>
    requires { gone.old ≤ length table.old }
    ensures ok { OnOk result ((gone.new ≡ 0) × (table.new ≡ drop gone.old table.old)) }
    ensures err { OnErr result ((gone.new ≡ gone.old) × (table.new ≡ table.old)) }
{
    if *gone == 0 {
        return Ok(());
    }
    *table = rest(alloc, table, *gone)?;
    *gone = 0;
    Ok(())
}

/// Whether all batches are at or below a number.
fn ends_through(batches: &[Batch], number: u64) -> bool
    requires { AreRising batches.now }
    ensures { result ≡ true → batches_above number batches.now ≡ [] }
{
    match batches.split_last() {
        None => true,
        Some((last, _earlier)) => last.number <= number,
    }
}

/// How many batches at the front are at or below a number.
fn count_through(batches: &[Batch], number: u64) -> usize
    ensures within { result ≤ length batches.now }
    ensures counted { result ≡ length (take_while (λ batch. nat_le batch.number number) batches.now) }
{
    batches
        .iter()
        .take_while(|batch| batch.number <= number)
        .count()
}
