// Calls of the transactions of a database's handle.
use crate::databases::Database;
use slate_calls::answers::Answer;
use slate_calls::call_line::CallLine;
use slate_calls::keys::level_of;
use slate_types::{ByteRange, KeyBound, ReadOptions, ScanOptions};
use slate_writer::{IsolationLevel, Transaction};
use uuid::Uuid;

#[derive(Clone, Copy)]
enum Call {
    Put,
    Merge,
    Delete,
    MarkRead,
    UnmarkWrite,
    Get,
    Scan,
    Commit,
    Rollback,
}

const CALLS: &[(&[u8], Call)] = &[
    (b"put", Call::Put),
    (b"merge", Call::Merge),
    (b"delete", Call::Delete),
    (b"mark_read", Call::MarkRead),
    (b"unmark_write", Call::UnmarkWrite),
    (b"get", Call::Get),
    (b"scan", Call::Scan),
    (b"commit", Call::Commit),
    (b"rollback", Call::Rollback),
];

pub const LEVELS: &[(&[u8], IsolationLevel)] = &[
    (b"snapshot", IsolationLevel::Snapshot),
    (b"serializable", IsolationLevel::SerializableSnapshot),
];

impl Database {
    /// Makes a call of a transaction, which is named by how many began before it.
    pub fn call_transaction(&mut self, line: &mut CallLine<'_>) {
        if line.takes(b"begin") {
            self.begin(line);
            return;
        }
        let own = line.size();
        match line.name(CALLS) {
            Some(Call::Commit) => self.commit(own, line),
            Some(Call::Rollback) => self.roll_back(own, line),
            Some(Call::Get) => self.get(own, line),
            Some(Call::Scan) => self.scan(own, line),
            Some(call) => match self.transactions.get_mut(own) {
                Some(Some(transaction)) => operate(transaction, call, line),
                _ => line.unread(),
            },
            None => {}
        }
    }

    fn begin(&mut self, line: &mut CallLine<'_>) {
        let level = line.name(LEVELS).unwrap_or(IsolationLevel::Snapshot);
        let Some(handle) = &mut self.handle else {
            line.unread();
            return;
        };
        let begun = handle.begin(line.alloc(), level, Uuid::nil());
        if let Some(transaction) = line.made(begun) {
            line.print_number(transaction.seqnum());
            self.transactions.push(Some(transaction)).print(line);
        }
    }

    fn take(&mut self, own: usize) -> Option<Transaction> {
        self.transactions.get_mut(own)?.take()
    }

    fn commit(&mut self, own: usize, line: &mut CallLine<'_>) {
        let moment = line.time();
        match (self.take(own), &mut self.handle) {
            (Some(transaction), Some(handle)) => {
                let extractor = self.extractor.as_ref();
                let committed = transaction.commit(line.alloc(), handle, moment, None, extractor);
                match line.made(committed) {
                    Some(Some(written)) => line.print_number(written.number),
                    Some(None) => line.print_text("nothing"),
                    None => {}
                }
            }
            _ => line.unread(),
        }
    }

    fn roll_back(&mut self, own: usize, line: &mut CallLine<'_>) {
        match (self.take(own), &mut self.handle) {
            (Some(transaction), Some(handle)) => transaction.rollback(handle),
            _ => line.unread(),
        }
    }

    fn get(&mut self, own: usize, line: &mut CallLine<'_>) {
        let key = line.bytes();
        let options = ReadOptions {
            durability_filter: level_of(line),
            dirty: false,
        };
        let (store, operator) = (&mut self.store, self.operator.as_ref());
        match (self.transactions.get_mut(own), &self.handle) {
            (Some(Some(transaction)), Some(handle)) => transaction
                .get(
                    line.alloc(),
                    handle,
                    store,
                    key.as_slice(),
                    &options,
                    operator,
                )
                .print(line),
            _ => line.unread(),
        }
    }

    fn scan(&mut self, own: usize, line: &mut CallLine<'_>) {
        let low = KeyBound::Included(line.bytes());
        let high = KeyBound::Excluded(line.bytes());
        let range = ByteRange { low, high };
        let options = ScanOptions::default();
        let (store, operator) = (&mut self.store, self.operator.as_ref());
        match (self.transactions.get_mut(own), &self.handle) {
            (Some(Some(transaction)), Some(handle)) => transaction
                .scan(line.alloc(), handle, store, &range, &options, operator)
                .print(line),
            _ => line.unread(),
        }
    }
}

/// Adds an operation to a transaction, or marks a key of it.
fn operate(transaction: &mut Transaction, call: Call, line: &mut CallLine<'_>) {
    let alloc = line.alloc();
    let key = line.bytes();
    let key = key.as_slice();
    match call {
        Call::Put => {
            let value = line.bytes();
            transaction.put(alloc, key, value.as_slice()).print(line);
        }
        Call::Merge => {
            let value = line.bytes();
            transaction.merge(alloc, key, value.as_slice()).print(line);
        }
        Call::Delete => transaction.delete(alloc, key).print(line),
        Call::MarkRead => transaction.mark_read(alloc, key).print(line),
        _ => transaction.unmark_write(alloc, key).print(line),
    }
}
