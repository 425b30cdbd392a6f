// Iterators over the rows of a range, with seeks and the fault that ends them.
ghost use Rattle.std.specs.Prelude.{◌≡◌, ◌<◌, ◌∷◌, ◌++◌, List, map, not, filter, take, All, IsTrue, IfOk, OnOk, IfErr, Some, None};
ghost use Rattle.std.specs.VecDeque.{deque_len};
ghost use Rattle.slate_rows.specs.declared.iterators.Kept.{Kept};
ghost use Rattle.slate_rows.specs.Iteration.{begun, next_of, after_next, is_returned, seek_refusal, sought};
ghost use Rattle.slate_rows.specs.Kept.{kept_rows, kept_keys, AreCopies};
ghost use Rattle.slate_rows.specs.Taken.{all_rows, after_taking, seek_at, Seeks};
ghost use Rattle.slate_reads.specs.Read.{Reads};
ghost use Rattle.slate_types.specs.Order.{is_before, AreInOrder, row_keys};
ghost use Rattle.slate_types.specs.Range.{contains};

use crate::{IterationOrder, SeekFault};
use bytes::Bytes;
use slate_types::{ByteRange, KeyValue, NoMemory, ReadFault, Seq};
use std::alloc::Global;
use std::collections::VecDeque;
use std::marker::Model;

/// A row, and its key once more for when the row is given away.
#[derive(Debug, Drop)]
struct Kept {
    key: Bytes,
    row: KeyValue,
}

/// An iterator over the rows of a range, which may end with a fault. SlateDB's `DbIterator`.
#[derive(Debug)]
pub struct DbIterator {
    range: ByteRange,
    order: IterationOrder,
    rows: VecDeque<Kept>,
    fault: Option<ReadFault>,
    returned: Option<Bytes>,
    answered: Option<ReadFault>,
}

impl Drop for DbIterator {
    fn drop(self) {
        let DbIterator {
            range: _,
            order: _,
            rows: _,
            fault: _,
            returned: _,
            answered: _,
        } = self;
    }
}

impl Model for DbIterator {
    ghost use Rattle.slate_rows.specs.Iteration.{Iteration};

    ghost Value = { Iteration };

    ghost use Rattle.slate_rows.specs.Kept.{kept_rows, AreKept};

    ghost view = { λ i. record { range = i.range; order = i.order; rows = kept_rows i.rows.items; fault = i.fault; returned = i.returned; answered = i.answered } };

    ghost invariant = { λ i. AreKept i.order i.rows.items };
}

impl DbIterator {
    /// An iterator over these rows, whose keys are in the range and strictly in the order, and the fault after them,
    /// where there is one. It takes memory for each row, and copies no bytes.
    pub fn of_rows(
        alloc: Global,
        range: ByteRange,
        order: IterationOrder,
        rows: Seq<KeyValue>,
        fault: Option<ReadFault>,
    ) -> Result<DbIterator, NoMemory>
        requires in_range { All (λ row. IsTrue (contains range row.key)) rows }
        requires in_order { AreInOrder order (row_keys rows) }
        ensures { IfOk result (λ it. it ≡ begun range order rows fault) }
    {
        let mut kept = VecDeque::new(alloc);
        for row in rows.into_vec() {
            let key = row.key.clone()?;
            kept.push_back(Kept { key, row })?;
        }
        Ok(DbIterator {
            range,
            order,
            rows: kept,
            fault,
            returned: None,
            answered: None,
        })
    }

    /// The next row. After the last one it answers the fault, at each call, or None. It takes no memory. SlateDB's
    /// `DbIterator::next`.
    pub fn next(&mut self) -> Result<Option<KeyValue>, ReadFault>
        ensures answer { result ≡ next_of self.old.rows self.old.fault }
        ensures after { self.new ≡ after_next self.old.rows self.old.fault self.old }
    {
        match self.rows.pop_front() {
            Some(kept) => {
                self.returned = Some(kept.key);
                Ok(Some(kept.row))
            }
            None => match self.fault {
                Some(fault) => {
                    self.answered = Some(fault);
                    Err(fault)
                }
                None => Ok(None),
            },
        }
    }

    /// Passes the rows before a key, in the order of the iterator. It is refused with a fault that was answered before,
    /// then where the key is out of the range, and then where it is at most the key that was returned last, in both
    /// orders; a refusal changes nothing. Each row is passed once, and no other is looked at. It takes no memory.
    /// SlateDB's `DbIterator::seek`.
    pub fn seek(&mut self, next_key: &[u8]) -> Result<(), SeekFault>
        ensures ok { OnOk result ((seek_refusal self.old next_key.now ≡ None) × (self.new ≡ sought next_key.now self.old)) }
        ensures err { IfErr result (λ fault. (seek_refusal self.old next_key.now ≡ Some fault) × (self.new ≡ self.old)) }
    {
        if let Some(fault) = self.answered {
            return Err(SeekFault::Stored(fault));
        }
        if !self.range.contains(next_key) {
            return Err(SeekFault::OutOfRange);
        }
        if is_returned(&self.returned, next_key) {
            return Err(SeekFault::LessThanLastReturned);
        }
        pass(&mut self.rows, self.order, next_key);
        Ok(())
    }

    /// All rows that are left. Where a fault ends them it answers that fault, and else they come, or `NoMemory`. It
    /// copies no row, and takes constant time for each, and the memory of their list.
    pub fn into_rows(self, alloc: Global) -> Result<Seq<KeyValue>, ReadFault>
        ensures { Reads (all_rows self.rows self.fault) result }
    {
        let DbIterator {
            range: _,
            order: _,
            rows,
            fault,
            returned: _,
            answered: _,
        } = self;
        if let Some(fault) = fault {
            return Err(fault);
        }
        let mut list = Vec::new(alloc);
        add_rows(&mut list, rows)?;
        Ok(Seq::of(list))
    }

    /// The next rows, up to `count`, and then those of the rest that aren't before a key, in the order of the iterator:
    /// what so many calls of `next`, a `seek` and `into_rows` give.
    ///
    /// It answers `Stored` with the fault that ends the rows where fewer than `count` come, then what `seek` refuses,
    /// and then `Stored` with the fault, where one ends the rows; for want of memory it answers `Stored` with
    /// `NoMemory`. It copies no row, and takes constant time for each row that is left, also for those that the seek
    /// passes, and the memory of the list that it gives.
    pub fn into_rows_with_seek(
        mut self,
        alloc: Global,
        count: u64,
        key: &[u8],
    ) -> Result<Seq<KeyValue>, SeekFault>
        ensures { Seeks (seek_at count key.now self) result }
    {
        let mut list = Vec::new(alloc);
        self.add_next_rows(&mut list, count)?;
        self.seek(key)?;
        let DbIterator {
            range: _,
            order: _,
            rows,
            fault,
            returned: _,
            answered: _,
        } = self;
        if let Some(fault) = fault {
            return Err(SeekFault::Stored(fault));
        }
        add_rows(&mut list, rows)?;
        Ok(Seq::of(list))
    }

    /// Adds the next rows to a list, up to `count`.
    fn add_next_rows(&mut self, list: &mut Vec<KeyValue>, count: u64) -> Result<(), NoMemory>
        ensures rows { OnOk result (list.new.items ≡ list.old.items ++ take count self.old.rows) }
        ensures after { OnOk result (self.new ≡ after_taking count self.old) }
    {
        'rows: for _ in 0..count {
            let Ok(Some(row)) = self.next() else {
                break;
            };
            list.push(row)?;
        }
        Ok(())
    }
}

/// Adds rows to a list.
fn add_rows(list: &mut Vec<KeyValue>, rows: VecDeque<Kept>) -> Result<(), NoMemory>
    ensures { OnOk result (list.new.items ≡ list.old.items ++ kept_rows rows.items) }
{
    Ok(list.extend(rows.into_iter().map(|kept| kept.row))?)
}

/// Whether a key is at most the one that was returned last.
fn is_returned(returned: &Option<Bytes>, key: &[u8]) -> bool
    ensures { result ≡ is_returned returned.now key.now }
{
    match returned {
        None => false,
        Some(last) => key.cmp(last.as_slice()).is_le(),
    }
}

/// Drops the rows before a key from the front.
fn pass(rows: &mut VecDeque<Kept>, order: IterationOrder, key: &[u8])
    requires { AreInOrder order (kept_keys rows.old.items) }
    ensures { rows.new.items ≡ filter (λ k. not (is_before order k.key key.now)) rows.old.items }
{
    while let Some(kept) = rows.front() {
        if !order.is_before(kept.key.as_slice(), key) {
            break;
        }
        drop_front(rows);
    }
}

/// Drops the first row.
fn drop_front(rows: &mut VecDeque<Kept>)
    requires { 0 < deque_len rows.old }
    ensures { (first : Kept) × (rows.old.items ≡ first ∷ rows.new.items) }
{
    rows.pop_front();
}
