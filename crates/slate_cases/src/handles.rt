// Calls of the handle of a database, beside those of script lines.
use crate::databases::Database;
use slate_calls::answers::Answer;
use slate_calls::call_line::CallLine;
use slate_calls::keys::level_of;
use slate_calls::operators::Refusing;
use slate_calls::ranges::{order_of, range_of};
use slate_calls::told_stores::ToldStore;
use slate_calls::trackers::find_of;
use slate_types::{CloseOptions, FlushType, KeyOp, Op, ScanOptions, Seq, WriteBatch};
use slate_writer::{WriterOptions, WriterState};

#[derive(Clone, Copy)]
enum Call {
    Open,
    Write,
    Flush,
    Compact,
    Close,
    Recent,
    First,
    Ts,
    Seq,
    Watch,
}

const CALLS: &[(&[u8], Call)] = &[
    (b"open", Call::Open),
    (b"write", Call::Write),
    (b"flush", Call::Flush),
    (b"compact", Call::Compact),
    (b"close", Call::Close),
    (b"recent", Call::Recent),
    (b"first", Call::First),
    (b"ts", Call::Ts),
    (b"seq", Call::Seq),
    (b"watch", Call::Watch),
];

const FLUSHES: &[(&[u8], FlushType)] = &[
    (b"wal", FlushType::Wal),
    (b"memtable", FlushType::MemTable),
];

impl Database {
    /// Makes a call of the handle.
    pub fn call_handle(&mut self, line: &mut CallLine<'_>) {
        match (line.name(CALLS), &mut self.handle) {
            (Some(Call::Open), _) => self.open_handle(line),
            (Some(Call::Write), Some(_)) => self.write(line),
            (Some(Call::Watch), Some(handle)) => self.watch = line.made(handle.watch()),
            (Some(Call::First), Some(handle)) => {
                scan_first(handle, &mut self.store, self.operator.as_ref(), line);
            }
            (Some(call), Some(handle)) => call_handle(handle, &mut self.store, call, line),
            _ => line.unread(),
        }
    }

    /// Opens a handle, in place of the one before.
    fn open_handle(&mut self, line: &mut CallLine<'_>) {
        let options = WriterOptions::default();
        let (store, extractor) = (&mut self.store, self.extractor.as_ref());
        let opened = WriterState::open(line.alloc(), store, &options, extractor);
        if let Some(handle) = line.made(opened) {
            self.handle = Some(handle);
        }
    }

    /// Writes a batch at a moment.
    fn write(&mut self, line: &mut CallLine<'_>) {
        let moment = line.time();
        let batch = WriteBatch { ops: ops_of(line) };
        let extractor = self.extractor.as_ref();
        if let Some(handle) = &mut self.handle {
            handle
                .write(line.alloc(), batch, moment, None, extractor)
                .map_err(|refusal| refusal.error)
                .print(line);
        }
    }
}

/// Makes a call of a handle over its store.
fn call_handle(
    handle: &mut WriterState,
    store: &mut ToldStore,
    call: Call,
    line: &mut CallLine<'_>,
) {
    let alloc = line.alloc();
    match call {
        Call::Flush => {
            let kind = line.name(FLUSHES).unwrap_or(FlushType::Wal);
            handle.flush(alloc, store, kind).print(line);
        }
        Call::Compact => handle.compact(alloc, store).print(line),
        Call::Close => handle
            .close(alloc, store, &CloseOptions::default())
            .print(line),
        Call::Recent => recent(handle, store, line),
        Call::Ts => {
            let number = line.number();
            handle.find_ts(number, find_of(line)).print(line);
        }
        _ => {
            let second = line.time();
            handle.find_seq(second, find_of(line)).print(line);
        }
    }
}

fn recent(handle: &WriterState, store: &mut ToldStore, line: &mut CallLine<'_>) {
    let prefix = line.bytes();
    let options = ScanOptions {
        durability_filter: level_of(line),
        ..ScanOptions::default()
    };
    handle
        .scan_by_recency(line.alloc(), store, prefix.as_slice(), &options)
        .print(line);
}

/// The first rows of a range, in an order and up to a snapshot's number, where one is given.
fn scan_first(
    handle: &WriterState,
    store: &mut ToldStore,
    operator: Option<&Refusing>,
    line: &mut CallLine<'_>,
) {
    let limit = line.number();
    let range = range_of(line);
    let options = ScanOptions {
        order: order_of(line),
        ..ScanOptions::default()
    };
    let snapshot = line.bound();
    handle
        .scan_first(
            line.alloc(),
            store,
            &range,
            &options,
            limit,
            snapshot,
            operator,
        )
        .print(line);
}

/// Whether an operation is a merge.
const OPS: &[(&[u8], bool)] = &[(b"put", false), (b"merge", true)];

/// The operations that the words that are left spell, as they stand, four words each.
pub fn ops_of(line: &mut CallLine<'_>) -> Seq<KeyOp> {
    let mut ops = Vec::new(line.alloc());
    for _ in 0..line.left() {
        if line.is_read() {
            break;
        }
        ops.push(op_of(line)).print(line);
    }
    Seq::of(ops)
}

fn op_of(line: &mut CallLine<'_>) -> KeyOp {
    let is_merge = line.name(OPS).unwrap_or(false);
    let key = line.bytes();
    let value = line.bytes();
    let expiry = line.end();
    let op = if is_merge {
        Op::Merge(value, expiry)
    } else {
        Op::Put(value, expiry)
    };
    KeyOp { key, op }
}
