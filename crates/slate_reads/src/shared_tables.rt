// Tables whose copies share their batches and indexes.
ghost use Rattle.std.specs.Prelude.{◌≡◌, ◌≤◌, ◌++◌, [], ◌∷◌, false, length, nat_le, take_while, true, IfOk, IfErr, OnOk};
ghost use Rattle.slate_types.specs.Line.{batches_above};
ghost use Rattle.slate_reads.specs.Index.{AreRising, IsAboveLast};

use crate::IndexedTable;
use slate_types::{Batch, NoMemory};
use std::alloc::{AllocError, Global};
use std::marker::Model;
use std::sync::Arc;

/// A stored table, or one that is yet to be: batches with rising numbers. Copies share the batches and their indexes, and
/// no call on one copy changes another. A contract sees the list of batches.
#[derive(Debug)]
pub struct Table {
    shared: Arc<IndexedTable, Global>,
}

impl Drop for Table {
    fn drop(self) {
        let Table { shared: _ } = self;
    }
}

impl Model for Table {
    ghost use Rattle.std.specs.Prelude.{List};
    ghost use Rattle.std.specs.Arc.{arc_value};
    ghost use Rattle.slate_types.specs.declared.batches.Batch.{Batch};

    ghost Value = { List Batch };

    ghost view = { λ t. arc_value t.shared };
}

/// It shares the batches and their indexes, and takes no memory. It fails where there are as many copies as there may
/// be.
impl Clone for Table {
    ghost is_clone = { λ table copy. copy ≡ table };

    fn clone(&self) -> Result<Table, AllocError> {
        Ok(Table {
            shared: self.shared.clone()?,
        })
    }
}

impl Table {
    /// The stored table with these batches, whose numbers rise. It copies no keys and no values, and takes the time of
    /// as many pushes to an `IndexedTable`.
    pub fn of_batches(alloc: Global, batches: &[Batch]) -> Result<Table, NoMemory>
        requires { AreRising batches.now }
        ensures { IfOk result (λ table. table ≡ batches.now) }
    {
        let mut table = IndexedTable::new(alloc);
        table.push_all(batches)?;
        Table::new(alloc, table).map_err(|_table| NoMemory)
    }

    /// The stored table with the batches of a table in memory, which keeps its indexes. It copies nothing. For want of
    /// memory the table in memory comes back.
    pub fn new(alloc: Global, table: IndexedTable) -> Result<Table, IndexedTable>
        ensures ok { IfOk result (λ shared. shared ≡ table) }
        ensures err { IfErr result (λ back. back ≡ table) }
    {
        match Arc::new(alloc, table) {
            Ok(shared) => Ok(Table { shared }),
            Err(refused) => Err(refused.value),
        }
    }

    /// The table with the batches above a number. Where all of them are above it, it shares them and their indexes. Where
    /// some are, it has indexes of its own, as `of_batches` makes them, of these alone.
    pub fn above(&self, alloc: Global, number: u64) -> Result<Table, NoMemory>
        ensures { IfOk result (λ table. table ≡ batches_above number self.now) }
    {
        let batches = self.batches();
        let gone = count_through(batches, number);
        if gone == 0 {
            return Ok(self.clone()?);
        }
        Table::of_batches(alloc, &batches[gone..])
    }

    /// Whether there is another copy.
    fn is_shared(&self) -> bool {
        Arc::strong_count(&self.shared) > 1
    }

    /// Adds a batch, whose number is above that of the last one, as `IndexedTable::push` does, where there is no other copy.
    /// Where there is one, the table gets indexes of its own first, as `of_batches` makes them, and the copy stays as it is.
    /// Where memory runs out the batch comes back, and nothing is changed.
    pub fn push(&mut self, alloc: Global, batch: Batch) -> Result<(), Batch>
        requires { IsAboveLast batch.number self.old }
        ensures ok { OnOk result (self.new ≡ self.old ++ batch ∷ []) }
        ensures err { IfErr result (λ back. (back ≡ batch) × (self.new ≡ self.old)) }
    {
        if self.is_shared() {
            let Ok(own) = Table::of_batches(alloc, self.batches()) else {
                return Err(batch);
            };
            *self = own;
        }
        self.push_alone(batch)
    }

    /// Adds copies of batches, whose numbers go on rising, where there is no other copy of the table, and says whether it
    /// did. Where there is one, or memory runs out, nothing is changed. It takes the time of as many pushes to an
    /// `IndexedTable`, and copies no keys and no values.
    pub fn append_alone(&mut self, batches: &[Batch]) -> bool
        requires { AreRising (self.old ++ batches.now) }
        ensures done { result ≡ true → self.new ≡ self.old ++ batches.now }
        ensures left { result ≡ false → self.new ≡ self.old }
    {
        let Some(table) = Arc::get_mut(&mut self.shared) else {
            return false;
        };
        let count = table.batches().len();
        if table.push_all(batches).is_err() {
            table.truncate(count);
            return false;
        }
        true
    }

    /// Adds a batch, where there is no other copy.
    fn push_alone(&mut self, batch: Batch) -> Result<(), Batch>
        requires { IsAboveLast batch.number self.old }
        ensures ok { OnOk result (self.new ≡ self.old ++ batch ∷ []) }
        ensures err { IfErr result (λ back. (back ≡ batch) × (self.new ≡ self.old)) }
    {
        match Arc::get_mut(&mut self.shared) {
            Some(table) => table.push(batch),
            None => Err(batch),
        }
    }

    /// The batches, in the order of their numbers.
    pub fn batches(&self) -> &[Batch]
        ensures value { result.now ≡ self.now }
        ensures rising { AreRising self.now }
    {
        self.shared.batches()
    }

    /// The table with its indexes.
    pub fn indexed(&self) -> &IndexedTable
        ensures { result.now ≡ self.now }
    {
        &self.shared
    }
}

/// How many batches at the front are at or below a number.
fn count_through(batches: &[Batch], number: u64) -> usize
    ensures within { result ≤ length batches.now }
    ensures counted { result ≡ length (take_while (λ batch. nat_le batch.number number) batches.now) }
{
    batches
        .iter()
        .take_while(|batch| batch.number <= number)
        .count()
}
