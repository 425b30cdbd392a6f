// The subject `front`: a database that threads share, without an operator and an extractor, its snapshots and its transactions,
// and a reader, all over one store in memory.
use crate::transactions::LEVELS;
use slate_calls::answers::Answer;
use slate_calls::call_line::CallLine;
use slate_calls::ranges::range_of;
use slate_calls::rows::print_left;
use slate_calls::subjects::Subject;
use slate_db::{
    Db, DbMetadataOps, DbReadOps, DbReader, DbReaderMode, DbReaderOptions, DbSnapshot,
    DbTransaction, DbTransactionOps, DbWriteOps, HandClock, IsolationLevel, MemoryStore,
    NoExtractor, NoMerge, SharedStore, StatusReceiver, SystemClock, WriteHandle,
};
use slate_errors::Error;
use slate_types::{ByteRange, ScanOptions, Seq};
use std::alloc::Global;
use std::rt::Clock;
use std::sync::Wait;
use uuid::Uuid;

#[derive(Clone, Copy)]
enum Call {
    Open,
    Put,
    Merge,
    Delete,
    Flush,
    Close,
    Snapshot,
    At,
    Begin,
    Transaction,
    Reader,
}

const CALLS: &[(&[u8], Call)] = &[
    (b"open", Call::Open),
    (b"put", Call::Put),
    (b"merge", Call::Merge),
    (b"delete", Call::Delete),
    (b"flush", Call::Flush),
    (b"close", Call::Close),
    (b"snapshot", Call::Snapshot),
    (b"at", Call::At),
    (b"begin", Call::Begin),
    (b"transaction", Call::Transaction),
    (b"reader", Call::Reader),
];

#[derive(Clone, Copy)]
enum Asked {
    Get,
    Row,
    Scan,
    Prefix,
    Seek,
}

const READS: &[(&[u8], Asked)] = &[
    (b"get", Asked::Get),
    (b"row", Asked::Row),
    (b"scan", Asked::Scan),
    (b"prefix", Asked::Prefix),
    (b"seek", Asked::Seek),
];

#[derive(Clone, Copy)]
enum ReaderCall {
    Open,
    Poll,
    Changed,
    First,
    Close,
}

const READER_CALLS: &[(&[u8], ReaderCall)] = &[
    (b"open", ReaderCall::Open),
    (b"poll", ReaderCall::Poll),
    (b"changed", ReaderCall::Changed),
    (b"first", ReaderCall::First),
    (b"close", ReaderCall::Close),
];

/// A store that the database and the reader hold together.
type FrontStore<R> = SharedStore<R, MemoryStore>;

/// A database whose writes are accepted at moments that are given.
type FrontDb<R> = Db<FrontStore<R>, NoMerge, NoExtractor, HandClock>;

type FrontSnapshot<R> = DbSnapshot<FrontStore<R>, NoMerge, NoExtractor, HandClock>;

type FrontTransaction<R> = DbTransaction<FrontStore<R>, NoMerge, NoExtractor, HandClock>;

type FrontReader<R> = DbReader<FrontStore<R>, NoMerge, NoExtractor, SystemClock<R>>;

/// A store, and what is open over it.
pub struct Front<R: Wait> {
    rt: R,
    store: Option<FrontStore<R>>,
    db: Option<FrontDb<R>>,
    /// The snapshots in the order in which they were taken.
    snapshots: Vec<FrontSnapshot<R>>,
    /// The transactions in the order in which they began, but for those that were committed.
    transactions: Vec<Option<FrontTransaction<R>>>,
    reader: Option<FrontReader<R>>,
    /// The status of the reader.
    receiver: Option<StatusReceiver>,
}

impl<R: Wait + Drop> Drop for Front<R> {
    fn drop(self) {
        let Front {
            rt: _,
            store: _,
            db: _,
            snapshots: _,
            transactions: _,
            reader: _,
            receiver: _,
        } = self;
    }
}

impl<R: Wait + Clock + Copy> Front<R> {
    /// A store that is made once something is opened over it.
    pub fn new(alloc: Global, rt: R) -> Front<R> {
        Front {
            rt,
            store: None,
            db: None,
            snapshots: Vec::new(alloc),
            transactions: Vec::new(alloc),
            reader: None,
            receiver: None,
        }
    }

    /// Another holder of the store.
    fn share(&mut self, line: &mut CallLine<'_>) -> Option<FrontStore<R>> {
        if self.store.is_none() {
            let alloc = line.alloc();
            let made = SharedStore::new(alloc, self.rt, MemoryStore::new(alloc));
            self.store = line.made(made);
        }
        let shared = self.store.as_ref()?.share();
        line.made(shared)
    }

    /// Opens the database, in place of the one before, which isn't closed. Its writes are accepted at these moments.
    fn open(&mut self, line: &mut CallLine<'_>) {
        let clock = HandClock::new(moments_of(line));
        if let Some(store) = self.share(line) {
            let builder = Db::builder(self.rt, store).with_system_clock(clock);
            let opened = builder.build(line.alloc());
            self.db = line.made(opened);
        }
    }

    /// Makes a call of the database.
    fn call_db(&mut self, call: Call, line: &mut CallLine<'_>) {
        let (rt, alloc) = (&self.rt, line.alloc());
        let Some(db) = &self.db else {
            line.unread();
            return;
        };
        match call {
            Call::Flush => db.flush(rt, alloc).print(line),
            Call::Close => db.close(rt, alloc).print(line),
            Call::Snapshot => {
                if let Some(snapshot) = line.made(db.snapshot(rt)) {
                    line.print_number(snapshot.seq());
                    self.snapshots.push(snapshot).print(line);
                }
            }
            Call::Begin => {
                if let Some(begun) = begin(db, rt, line) {
                    self.transactions.push(Some(begun)).print(line);
                }
            }
            _ => write(db, rt, call, line),
        }
    }

    /// Reads the snapshot that is named by how many were taken before it.
    fn read_at(&self, line: &mut CallLine<'_>) {
        match self.snapshots.get(line.size()) {
            Some(snapshot) => read(snapshot, &self.rt, line),
            None => line.unread(),
        }
    }

    /// Makes a call of the transaction that is named by how many began before it.
    fn call_transaction(&mut self, line: &mut CallLine<'_>) {
        let Some(own) = self.transactions.get_mut(line.size()) else {
            line.unread();
            return;
        };
        if line.takes(b"commit") {
            match own.take() {
                Some(transaction) => commit(transaction, &self.rt, line),
                None => line.unread(),
            }
        } else if let Some(transaction) = own {
            operate(transaction, &self.rt, line);
        } else {
            line.unread();
        }
    }

    /// Makes a call of the reader.
    fn call_reader(&mut self, line: &mut CallLine<'_>) {
        match (line.find(READER_CALLS), &self.reader) {
            (Some(ReaderCall::Open), _) => self.follow(line),
            (Some(ReaderCall::Changed), _) => match &self.receiver {
                Some(receiver) => line.print_debug(&receiver.has_changed(&self.rt)),
                None => line.unread(),
            },
            (Some(call), Some(reader)) => call_reader(reader, &self.rt, call, line),
            (None, Some(reader)) => read(reader, &self.rt, line),
            _ => line.unread(),
        }
    }

    /// Opens the reader, and takes its status.
    fn follow(&mut self, line: &mut CallLine<'_>) {
        if let Some(store) = self.share(line) {
            let (mode, options) = (DbReaderMode::FollowLatest, DbReaderOptions::default());
            let opened = DbReader::open(line.alloc(), self.rt, store, mode, &options);
            if let Some(reader) = line.made(opened) {
                self.receiver = line.made(reader.subscribe(&self.rt));
                self.reader = Some(reader);
            }
        }
    }
}

impl<R: Wait + Clock + Copy> Subject for Front<R> {
    fn anew(&self, alloc: Global) -> Front<R> {
        Front::new(alloc, self.rt)
    }

    fn call(&mut self, line: &mut CallLine<'_>) {
        match (line.find(CALLS), &self.db) {
            (Some(Call::Open), _) => self.open(line),
            (Some(Call::At), _) => self.read_at(line),
            (Some(Call::Transaction), _) => self.call_transaction(line),
            (Some(Call::Reader), _) => self.call_reader(line),
            (Some(call), _) => self.call_db(call, line),
            (None, Some(db)) => read(db, &self.rt, line),
            (None, None) => line.unread(),
        }
    }
}

/// The moments that the words that are left spell.
fn moments_of(line: &mut CallLine<'_>) -> Seq<i64> {
    let mut moments = Vec::new(line.alloc());
    for _ in 0..line.left() {
        moments.push(line.time()).print(line);
    }
    Seq::of(moments)
}

/// Writes a key.
fn write<D: DbWriteOps, R: Wait>(db: &D, rt: &R, call: Call, line: &mut CallLine<'_>) {
    let (alloc, key) = (line.alloc(), line.bytes());
    let key = key.as_slice();
    match call {
        Call::Put => {
            let value = line.bytes();
            print_written(db.put(rt, alloc, key, value.as_slice()), line);
        }
        Call::Merge => {
            let value = line.bytes();
            print_written(db.merge(rt, alloc, key, value.as_slice()), line);
        }
        _ => print_written(db.delete(rt, alloc, key), line),
    }
}

/// Begins a transaction at a level, under an id, and prints the number that it reads up to and the id.
fn begin<D: DbWriteOps, R: Wait>(
    db: &D,
    rt: &R,
    line: &mut CallLine<'_>,
) -> Option<D::Transaction> {
    let level = line.name(LEVELS).unwrap_or(IsolationLevel::Snapshot);
    let id = Uuid::from_u128(u128::from(line.number()));
    let begun = line.made(db.begin(rt, line.alloc(), level, id))?;
    line.print_number(begun.seqnum());
    if begun.id() != id {
        line.print_text(" of another id");
    }
    Some(begun)
}

/// Makes a call of a transaction, but for the one that ends it.
fn operate<T: DbTransactionOps, R: Wait>(transaction: &T, rt: &R, line: &mut CallLine<'_>) {
    let alloc = line.alloc();
    match line.find(CALLS) {
        Some(Call::Put) => {
            let (key, value) = (line.bytes(), line.bytes());
            transaction
                .put(rt, alloc, key.as_slice(), value.as_slice())
                .print(line);
        }
        Some(Call::Merge) => {
            let (key, value) = (line.bytes(), line.bytes());
            transaction
                .merge(rt, alloc, key.as_slice(), value.as_slice())
                .print(line);
        }
        Some(_) => line.unread(),
        None => read(transaction, rt, line),
    }
}

fn commit<T: DbTransactionOps, R: Wait>(transaction: T, rt: &R, line: &mut CallLine<'_>) {
    let committed = transaction.commit(rt, line.alloc());
    match line.made(committed) {
        Some(Some(handle)) => print_handle(&handle, line),
        Some(None) => line.print_text("nothing"),
        None => {}
    }
}

/// Makes a read.
fn read<D: DbReadOps, R: Wait>(db: &D, rt: &R, line: &mut CallLine<'_>) {
    match line.name(READS) {
        Some(Asked::Get) => get_all(db, rt, line),
        Some(Asked::Row) => {
            let key = line.bytes();
            db.get_key_value(rt, line.alloc(), key.as_slice())
                .print(line);
        }
        Some(Asked::Scan) => {
            let range = range_of(line);
            db.scan(rt, line.alloc(), &range).print(line);
        }
        Some(Asked::Prefix) => {
            let (prefix, range) = (line.bytes(), range_of(line));
            db.scan_prefix(rt, line.alloc(), prefix.as_slice(), &range)
                .print(line);
        }
        Some(Asked::Seek) => seek(db, rt, line),
        None => {}
    }
}

/// Gets each key that is left, and prints its value or `none`.
fn get_all<D: DbReadOps, R: Wait>(db: &D, rt: &R, line: &mut CallLine<'_>) {
    for _ in 0..line.left() {
        let key = line.bytes();
        line.print_blank();
        db.get(rt, line.alloc(), key.as_slice()).print(line);
    }
}

/// Prints what a scan of all has left after a seek.
fn seek<D: DbReadOps, R: Wait>(db: &D, rt: &R, line: &mut CallLine<'_>) {
    let key = line.bytes();
    let found = db.scan(rt, line.alloc(), &ByteRange::full());
    if let Some(mut rows) = line.made(found) {
        rows.seek(key.as_slice()).print(line);
        print_left(&mut rows, line);
    }
}

/// Makes a call of a reader.
fn call_reader<R: Wait + Clock>(
    reader: &FrontReader<R>,
    rt: &R,
    call: ReaderCall,
    line: &mut CallLine<'_>,
) {
    let alloc = line.alloc();
    match call {
        ReaderCall::Poll => reader.poll(rt, alloc).print(line),
        ReaderCall::First => {
            let (limit, range) = (line.number(), range_of(line));
            let options = ScanOptions::default();
            reader
                .scan_first(rt, alloc, &range, &options, limit)
                .print(line);
        }
        _ => reader.close(rt, alloc).print(line),
    }
}

/// Prints the number of a write, and when it was accepted.
fn print_handle(handle: &WriteHandle, line: &mut CallLine<'_>) {
    line.print_number(handle.seqnum());
    line.print_text("+");
    line.print_time(handle.create_ts());
}

/// Prints that, or why nothing was written.
fn print_written(written: Result<WriteHandle, Error>, line: &mut CallLine<'_>) {
    match written {
        Ok(handle) => print_handle(&handle, line),
        Err(error) => error.print(line),
    }
}
