// The subject `rows`: batches in tables, which are read by the plain reads and by the indexes of the tables.
use crate::answers::Answer;
use crate::batches::ops_of;
use crate::call_line::CallLine;
use crate::operators::{Refusing, operator_of};
use crate::ranges::{order_of, range_of};
use crate::subjects::Subject;
use slate_rows::{
    Batch, ByteRange, DbIterator, DbRecencyIterator, IndexedTable, IterationOrder, KeyValue,
    ReadFault, RowEntry, Seq, Table, ValueDeletable, read, read_indexed, recency, recency_indexed,
    scan, scan_first, scan_indexed,
};
use std::alloc::Global;

#[derive(Clone, Copy)]
enum Call {
    Table,
    Push,
    Store,
    Drop,
    Truncate,
    Sizes,
    Copy,
    Part,
    Above,
    Empty,
    Operator,
    Broken,
    Shares,
    Recent,
    Get,
    Scan,
}

const CALLS: &[(&[u8], Call)] = &[
    (b"table", Call::Table),
    (b"push", Call::Push),
    (b"store", Call::Store),
    (b"drop", Call::Drop),
    (b"truncate", Call::Truncate),
    (b"sizes", Call::Sizes),
    (b"copy", Call::Copy),
    (b"part", Call::Part),
    (b"above", Call::Above),
    (b"empty", Call::Empty),
    (b"operator", Call::Operator),
    (b"broken", Call::Broken),
    (b"shares", Call::Shares),
    (b"recent", Call::Recent),
    (b"get", Call::Get),
    (b"scan", Call::Scan),
];

/// Batches in stored tables and in tables in memory above them, all batches once more as one list, and the operator of
/// reads.
pub struct Rows {
    all: Vec<Batch>,
    stored: Vec<Table>,
    memory: Vec<IndexedTable>,
    operator: Option<Refusing>,
}

impl Drop for Rows {
    fn drop(self) {
        let Rows {
            all: _,
            stored: _,
            memory: _,
            operator: _,
        } = self;
    }
}

impl Rows {
    /// No table, and no operator.
    pub fn new(alloc: Global) -> Rows {
        Rows {
            all: Vec::new(alloc),
            stored: Vec::new(alloc),
            memory: Vec::new(alloc),
            operator: None,
        }
    }

    /// Adds a batch to the last table in memory, or tells that its number isn't above the last one.
    fn push(&mut self, line: &mut CallLine<'_>) {
        let batch = batch_of(line);
        let Some(table) = self.memory.last_mut() else {
            line.unread();
            return;
        };
        if !table.is_above_last(batch.number) {
            line.print_text("too low");
            return;
        }
        let copy: Result<_, _> = batch.clone();
        if let Some(copy) = line.made(copy) {
            self.all.push(copy).print(line);
            line.note(table.push(batch).is_ok());
        }
    }

    /// Makes the last table in memory a stored one.
    fn store(&mut self, line: &mut CallLine<'_>) {
        let Some(table) = self.memory.pop() else {
            line.unread();
            return;
        };
        match Table::new(line.alloc(), table) {
            Ok(table) => self.stored.push(table).print(line),
            Err(_table) => line.no_memory(),
        }
    }

    /// Adds a stored table without a batch.
    fn add_empty(&mut self, line: &mut CallLine<'_>) {
        let made = Table::of_batches(line.alloc(), &[]);
        if let Some(table) = line.made(made) {
            self.stored.push(table).print(line);
        }
    }

    /// Drops the batches up to a number from the tables in memory, where none is stored.
    fn drop_through(&mut self, line: &mut CallLine<'_>) {
        let number = line.number();
        if !self.stored.is_empty() {
            line.unread();
        }
        for table in &mut self.memory {
            table.drop_through(number);
        }
        self.all.retain(|batch| batch.number > number);
    }

    /// Takes the batches of the last table in memory back, down to so many.
    fn truncate(&mut self, line: &mut CallLine<'_>) {
        let count = line.size();
        let Some(table) = self.memory.last_mut() else {
            line.unread();
            return;
        };
        let gone = table.batches().len().saturating_sub(count);
        table.truncate(count);
        self.all.truncate(self.all.len().saturating_sub(gone));
    }

    /// Prints how many batches each table in memory has, and of how many bytes.
    fn print_sizes(&self, line: &mut CallLine<'_>) {
        for table in &self.memory {
            print_size(table, line);
        }
    }

    /// Makes a call of the last stored table, and prints the same of what comes of it.
    fn call_stored(&self, call: Call, line: &mut CallLine<'_>) {
        match (self.stored.last(), call) {
            (Some(table), Call::Copy) => print_size_of(table.clone(), line),
            (Some(table), Call::Above) => {
                print_size_of(table.above(line.alloc(), line.number()), line);
            }
            (Some(table), _) => print_part(table, line),
            (None, _) => line.unread(),
        }
    }

    /// Prints whether the value of the row that a plain read finds has more than one owner.
    fn print_sharing(&self, line: &mut CallLine<'_>) {
        let key = line.bytes();
        match self.get(key.as_slice(), None, false, line) {
            Ok(Some(row)) => line.print_debug(&row.value.try_into_mut().is_err()),
            _ => line.print_text("none"),
        }
    }

    /// Prints the operations on the keys with a prefix, those of the last table in memory first.
    fn print_recent(&self, indexed: bool, line: &mut CallLine<'_>) {
        let prefix = line.bytes();
        let order = order_of(line);
        let bound = line.bound();
        let alloc = line.alloc();
        let found = if indexed {
            let tables = self.newest_first(line);
            recency_indexed(alloc, tables.as_slice(), bound, prefix.as_slice(), order)
        } else {
            let sources = Seq::of(self.sources(line));
            recency(alloc, &sources, bound, prefix.as_slice(), order)
        };
        if let Some(mut found) = line.made(found) {
            print_entries(&mut found, line);
        }
    }

    /// Stored tables of the batches of the tables in memory, the last one first.
    fn newest_first(&self, line: &mut CallLine<'_>) -> Vec<Table> {
        let mut tables = Vec::new(line.alloc());
        for table in self.memory.iter().rev() {
            let made = Table::of_batches(line.alloc(), table.batches());
            if let Some(table) = line.made(made) {
                tables.push(table).print(line);
            }
        }
        tables
    }

    /// The batches of the tables in memory, the last one first.
    fn sources(&self, line: &mut CallLine<'_>) -> Vec<Seq<Batch>> {
        let mut sources = Vec::new(line.alloc());
        for table in self.memory.iter().rev() {
            let copies = Batch::copies(line.alloc(), table.batches());
            if let Some(batches) = line.made(copies) {
                sources.push(batches).print(line);
            }
        }
        sources
    }

    /// Answers what is asked by the plain reads, and where the indexes answer otherwise, what they answer.
    fn ask(&self, call: Call, line: &mut CallLine<'_>) {
        let place = line.place();
        self.answer(call, false, line);
        let plain = line.take_answer();
        line.go_back(place);
        self.answer(call, true, line);
        let indexed = line.take_answer();
        line.print_plain(plain.as_slice());
        if indexed != plain {
            line.print_text(" and by the index ");
            line.print_plain(indexed.as_slice());
        }
    }

    /// Answers what is asked, by the indexes or by the plain reads.
    fn answer(&self, call: Call, indexed: bool, line: &mut CallLine<'_>) {
        match call {
            Call::Get => {
                let key = line.bytes();
                let bound = line.bound();
                self.get(key.as_slice(), bound, indexed, line).print(line);
            }
            Call::Recent => self.print_recent(indexed, line),
            _ => self.print_scan(indexed, line),
        }
    }

    fn get(
        &self,
        key: &[u8],
        bound: Option<u64>,
        indexed: bool,
        line: &CallLine<'_>,
    ) -> Result<Option<KeyValue>, ReadFault> {
        let operator = self.operator.as_ref();
        if indexed {
            let (stored, memory) = (self.stored.as_slice(), self.memory.as_slice());
            return read_indexed(line.alloc(), &[], stored, memory, bound, key, operator);
        }
        read(line.alloc(), self.all.as_slice(), bound, key, operator)
    }

    /// Prints what is taken of the rows of a range.
    fn print_scan(&self, indexed: bool, line: &mut CallLine<'_>) {
        let range = range_of(line);
        let order = order_of(line);
        let bound = line.bound();
        if line.takes(b"first") {
            self.print_first(&range, order, bound, indexed, line);
            return;
        }
        if let Some(rows) = self.scan(&range, order, bound, indexed, line) {
            print_taken(rows, line);
        }
    }

    fn scan(
        &self,
        range: &ByteRange,
        order: IterationOrder,
        bound: Option<u64>,
        indexed: bool,
        line: &mut CallLine<'_>,
    ) -> Option<DbIterator> {
        let (alloc, operator) = (line.alloc(), self.operator.as_ref());
        let scanned = if indexed {
            let (stored, memory) = (self.stored.as_slice(), self.memory.as_slice());
            scan_indexed(alloc, stored, memory, bound, range, order, operator)
        } else {
            scan(alloc, self.all.as_slice(), bound, range, order, operator)
        };
        line.made(scanned)
    }

    /// Prints the first rows of a range, up to so many or up to a fault: by the indexes those that a limited scan has, else
    /// as many of those that a scan has.
    fn print_first(
        &self,
        range: &ByteRange,
        order: IterationOrder,
        bound: Option<u64>,
        indexed: bool,
        line: &mut CallLine<'_>,
    ) {
        let limit = line.number();
        if !indexed {
            if let Some(mut rows) = self.scan(range, order, bound, false, line) {
                print_next(&mut rows, limit.min(100), line);
            }
            return;
        }
        let (stored, memory) = (self.stored.as_slice(), self.memory.as_slice());
        let operator = self.operator.as_ref();
        let alloc = line.alloc();
        let rows = scan_first(alloc, stored, memory, bound, range, order, limit, operator);
        if let Some(mut rows) = line.made(rows) {
            print_left(&mut rows, line);
        }
    }
}

impl Subject for Rows {
    fn anew(&self, alloc: Global) -> Rows {
        Rows::new(alloc)
    }

    fn call(&mut self, line: &mut CallLine<'_>) {
        match line.name(CALLS) {
            Some(Call::Table) => self
                .memory
                .push(IndexedTable::new(line.alloc()))
                .print(line),
            Some(Call::Push) => self.push(line),
            Some(Call::Store) => self.store(line),
            Some(Call::Drop) => self.drop_through(line),
            Some(Call::Truncate) => self.truncate(line),
            Some(Call::Sizes) => self.print_sizes(line),
            Some(Call::Empty) => self.add_empty(line),
            Some(Call::Operator) if line.takes(b"none") => self.operator = None,
            Some(Call::Operator) => self.operator = Some(operator_of(line)),
            Some(Call::Broken) => print_broken(line),
            Some(Call::Shares) => self.print_sharing(line),
            Some(call @ (Call::Copy | Call::Part | Call::Above)) => self.call_stored(call, line),
            Some(call) => self.ask(call, line),
            None => {}
        }
    }
}

/// The batch with a number and the operations that are left. It was created at ten times its number.
fn batch_of(line: &mut CallLine<'_>) -> Batch {
    let number = line.number();
    Batch {
        number,
        create_ts: (number % 1000) as i64 * 10,
        ops: ops_of(line),
    }
}

/// Prints how many batches a table has, and of how many bytes.
fn print_size(table: &IndexedTable, line: &mut CallLine<'_>) {
    line.add_number(table.batches().len() as u64);
    line.print_text(" of ");
    line.print_number(table.size());
}

/// Prints the same of a stored table that was made.
fn print_size_of<E: Answer>(made: Result<Table, E>, line: &mut CallLine<'_>) {
    if let Some(table) = line.made(made) {
        print_size(table.indexed(), line);
    }
}

/// Adds a batch to a copy of a stored table, and prints the same of the copy and then of the table.
fn print_part(table: &Table, line: &mut CallLine<'_>) {
    let batch = batch_of(line);
    let copy: Result<_, _> = table.clone();
    let Some(mut copy) = line.made(copy) else {
        return;
    };
    if copy.indexed().is_above_last(batch.number) {
        let pushed = copy.push(line.alloc(), batch);
        line.note(pushed.is_ok());
        print_size(copy.indexed(), line);
        print_size(table.indexed(), line);
    } else {
        line.print_text("too low");
    }
}

/// How rows are taken.
#[derive(Clone, Copy)]
enum Taken {
    Seek,
    Take,
}

const TAKEN: &[(&[u8], Taken)] = &[(b"seek", Taken::Seek), (b"take", Taken::Take)];

/// Prints what is taken of the rows of a scan: all, one after another; all in one call; or those after so many and a seek,
/// in one call or in several.
fn print_taken(rows: DbIterator, line: &mut CallLine<'_>) {
    let mut rows = rows;
    if line.is_read() {
        print_left(&mut rows, line);
        return;
    }
    match line.name(TAKEN) {
        Some(Taken::Seek) => print_sought(&mut rows, line),
        Some(Taken::Take) => print_taken_after(rows, line),
        None => {}
    }
}

/// Takes all rows in one call, or so many and those after a seek.
fn print_taken_after(rows: DbIterator, line: &mut CallLine<'_>) {
    let alloc = line.alloc();
    if line.is_read() {
        rows.into_rows(alloc).print(line);
    } else {
        let count = line.number();
        let key = line.bytes();
        rows.into_rows_with_seek(alloc, count, key.as_slice())
            .print(line);
    }
}

/// Takes so many rows, seeks a key, prints why that was refused where it was, and then the rows that are left.
fn print_sought(rows: &mut DbIterator, line: &mut CallLine<'_>) {
    let count = line.number();
    let key = line.bytes();
    for _ in 0..count {
        if let Err(fault) = rows.next() {
            fault.print(line);
        }
    }
    rows.seek(key.as_slice()).print(line);
    print_left(rows, line);
}

/// Prints the rows that are left, at most a hundred, or up to a fault.
pub fn print_left(rows: &mut DbIterator, line: &mut CallLine<'_>) {
    print_next(rows, 100, line);
}

/// Prints the next rows, up to so many or up to a fault.
fn print_next(rows: &mut DbIterator, count: u64, line: &mut CallLine<'_>) {
    for _ in 0..count {
        let next = rows.next();
        if matches!(next, Ok(None)) {
            break;
        }
        line.print_blank();
        let is_last = next.is_err();
        next.print(line);
        if is_last {
            break;
        }
    }
}

/// Prints what a seek and two rows and a seek of an iterator answer that has no row but a fault.
fn print_broken(line: &mut CallLine<'_>) {
    let key = line.bytes();
    let alloc = line.alloc();
    let fault = Some(ReadFault::ChecksumMismatch);
    let none = Seq::of(Vec::new(alloc));
    let order = IterationOrder::Ascending;
    let made = DbIterator::of_rows(alloc, ByteRange::full(), order, none, fault);
    if let Some(mut rows) = line.made(made) {
        print_seek(&mut rows, key.as_slice(), line);
        for _ in 0..2 {
            rows.next().print(line);
            line.print_text(" ");
        }
        print_seek(&mut rows, key.as_slice(), line);
    }
}

fn print_seek(rows: &mut DbIterator, key: &[u8], line: &mut CallLine<'_>) {
    let sought = rows.seek(key);
    if sought.is_ok() {
        line.print_text("sought ");
    }
    sought.print(line);
}

/// Prints operations, at most a hundred.
fn print_entries(found: &mut DbRecencyIterator, line: &mut CallLine<'_>) {
    for _ in 0..100 {
        let Some(entry) = found.next_entry() else {
            break;
        };
        line.print_blank();
        print_entry(&entry, line);
    }
}

/// Prints an operation as `key=value@number`, where `+` stands before an operand, and `-` for a delete.
fn print_entry(entry: &RowEntry, line: &mut CallLine<'_>) {
    line.print_bytes(entry.key.as_slice());
    match &entry.value {
        ValueDeletable::Value(value) => {
            line.print_text("=");
            line.print_bytes(value.as_slice());
        }
        ValueDeletable::Merge(operand) => {
            line.print_text("+");
            line.print_bytes(operand.as_slice());
        }
        ValueDeletable::Tombstone => line.print_text("-"),
    }
    line.print_text("@");
    line.print_number(entry.seq);
}
