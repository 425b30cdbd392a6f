// Batches as calls spell them, and the subject `batch`, which writes one.
use crate::answers::Answer;
use crate::call_line::CallLine;
use crate::subjects::Subject;
use slate_types::{KeyOp, MergeOptions, Op, PutOptions, Seq, WriteBatch};
use std::alloc::Global;

#[derive(Clone, Copy)]
enum Call {
    Bytes,
    Count,
    Ops,
}

const CALLS: &[(&[u8], Call)] = &[
    (b"bytes", Call::Bytes),
    (b"count", Call::Count),
    (b"ops", Call::Ops),
];

/// A batch that is written.
pub struct Batches {
    batch: WriteBatch,
}

impl Drop for Batches {
    fn drop(self) {
        let Batches { batch: _ } = self;
    }
}

impl Batches {
    /// A batch without operations.
    pub fn new(alloc: Global) -> Batches {
        Batches {
            batch: WriteBatch::new(alloc),
        }
    }
}

impl Subject for Batches {
    fn anew(&self, alloc: Global) -> Batches {
        Batches::new(alloc)
    }

    fn call(&mut self, line: &mut CallLine<'_>) {
        match line.find(CALLS) {
            Some(Call::Bytes) => add_bytes(&mut self.batch, line),
            Some(Call::Count) => line.print_number(self.batch.op_count() as u64),
            Some(Call::Ops) => print_ops(self.batch.ops.as_slice(), line),
            None => add_op(&mut self.batch, line),
        }
    }
}

/// The operations that the words that are left spell, with ` ; ` between each two.
pub fn ops_of(line: &mut CallLine<'_>) -> Seq<KeyOp> {
    let mut written = WriteBatch::new(line.alloc());
    for _ in 0..line.left() {
        if line.has_more() {
            add_op(&mut written, line);
        }
    }
    written.ops
}

#[derive(Clone, Copy)]
enum OpName {
    Put,
    Merge,
    Delete,
}

const OPS: &[(&[u8], OpName)] = &[
    (b"put", OpName::Put),
    (b"merge", OpName::Merge),
    (b"delete", OpName::Delete),
];

/// Adds the operation that words spell.
fn add_op(batch: &mut WriteBatch, line: &mut CallLine<'_>) {
    let name = line.name(OPS);
    let key = line.bytes();
    match name {
        Some(OpName::Put) => put(batch, key.as_slice(), line),
        Some(OpName::Merge) => merge(batch, key.as_slice(), line),
        Some(OpName::Delete) => batch.delete(line.alloc(), key.as_slice()).print(line),
        None => {}
    }
}

fn put(batch: &mut WriteBatch, key: &[u8], line: &mut CallLine<'_>) {
    let value = line.bytes();
    let alloc = line.alloc();
    if line.is_read() || line.is_next(b";") {
        batch.put(alloc, key, value.as_slice()).print(line);
    } else {
        let expire_ts = Some(line.time());
        let options = PutOptions { expire_ts };
        batch
            .put_with_options(alloc, key, value.as_slice(), &options)
            .print(line);
    }
}

fn merge(batch: &mut WriteBatch, key: &[u8], line: &mut CallLine<'_>) {
    let value = line.bytes();
    let alloc = line.alloc();
    if line.is_read() || line.is_next(b";") {
        batch.merge(alloc, key, value.as_slice()).print(line);
    } else {
        let expire_ts = Some(line.time());
        let options = MergeOptions { expire_ts };
        batch
            .merge_with_options(alloc, key, value.as_slice(), &options)
            .print(line);
    }
}

/// Adds a put whose key and value aren't copied.
fn add_bytes(batch: &mut WriteBatch, line: &mut CallLine<'_>) {
    let _put = line.name(&OPS[..1]);
    let key = line.bytes();
    let value = line.bytes();
    let alloc = line.alloc();
    if line.is_read() {
        batch.put_bytes(alloc, key, value).print(line);
    } else {
        let expire_ts = Some(line.time());
        let options = PutOptions { expire_ts };
        batch
            .put_bytes_with_options(alloc, key, value, &options)
            .print(line);
    }
}

/// Prints operations as they are spelled, with ` ; ` between each two.
pub fn print_ops(ops: &[KeyOp], line: &mut CallLine<'_>) {
    let mut between = "";
    for key_op in ops {
        line.print_text(between);
        print_op(key_op, line);
        between = " ; ";
    }
}

fn print_op(key_op: &KeyOp, line: &mut CallLine<'_>) {
    let key = key_op.key.as_slice();
    match &key_op.op {
        Op::Put(value, end) => print_value("put ", key, value.as_slice(), *end, line),
        Op::Merge(operand, end) => print_value("merge ", key, operand.as_slice(), *end, line),
        Op::Delete => {
            line.print_text("delete ");
            line.print_bytes(key);
        }
    }
}

fn print_value(
    call: &str,
    key: &[u8],
    value: &[u8],
    expire_ts: Option<i64>,
    line: &mut CallLine<'_>,
) {
    line.print_text(call);
    line.print_bytes(key);
    line.print_text(" ");
    line.print_bytes(value);
    if let Some(end) = expire_ts {
        line.print_text(" ");
        line.print_time(end);
    }
}
