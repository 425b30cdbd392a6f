// The subject `objects`: batches and a manifest as the bytes of objects, and bytes that are read as objects.
use crate::answers::Answer;
use crate::batches::ops_of;
use crate::call_line::CallLine;
use crate::manifests::prefixes_of;
use crate::subjects::Subject;
use crate::trackers::turn_bit;
use bytes::Bytes;
use slate_objects::{
    DecodeError, crc32, decode_log, decode_manifest, decode_table, encode_log, encode_manifest,
    encode_table,
};
use slate_store::{Checkpoint, Manifest, TableId};
use slate_types::{Batch, Name, Seq};
use std::alloc::Global;
use uuid::Uuid;

#[derive(Clone, Copy)]
enum Call {
    Crc,
    Batch,
    Manifest,
    Write,
    Bytes,
    Read,
    Front,
    Turn,
}

const CALLS: &[(&[u8], Call)] = &[
    (b"crc", Call::Crc),
    (b"batch", Call::Batch),
    (b"manifest", Call::Manifest),
    (b"write", Call::Write),
    (b"bytes", Call::Bytes),
    (b"read", Call::Read),
    (b"front", Call::Front),
    (b"turn", Call::Turn),
];

/// A kind of object.
#[derive(Clone, Copy)]
enum Kind {
    Log,
    Table,
    Manifest,
}

const KINDS: &[(&[u8], Kind)] = &[
    (b"log", Kind::Log),
    (b"table", Kind::Table),
    (b"manifest", Kind::Manifest),
];

/// Batches, a manifest, and bytes that are read.
pub struct Objects {
    batches: Vec<Batch>,
    manifest: Option<Manifest>,
    bytes: Vec<u8>,
}

impl Drop for Objects {
    fn drop(self) {
        let Objects {
            batches: _,
            manifest: _,
            bytes: _,
        } = self;
    }
}

impl Objects {
    /// No batch, no manifest and no bytes.
    pub fn new(alloc: Global) -> Objects {
        Objects {
            batches: Vec::new(alloc),
            manifest: None,
            bytes: Vec::new(alloc),
        }
    }

    /// Adds a batch.
    fn add_batch(&mut self, line: &mut CallLine<'_>) {
        let number = line.number();
        let create_ts = line.time();
        let batch = Batch {
            number,
            create_ts,
            ops: ops_of(line),
        };
        self.batches.push(batch).print(line);
    }

    /// Prints the bytes of the object of a kind.
    fn write(&self, line: &mut CallLine<'_>) {
        let alloc = line.alloc();
        let batches = self.batches.as_slice();
        match (line.name(KINDS), &self.manifest) {
            (Some(Kind::Log), _) => encode_log(alloc, batches).print(line),
            (Some(Kind::Table), _) => encode_table(alloc, batches).print(line),
            (Some(Kind::Manifest), Some(manifest)) => encode_manifest(alloc, manifest).print(line),
            _ => line.unread(),
        }
    }

    /// Reads the bytes as the object of a kind, all or so many first ones, and prints why they are refused. Batches that are
    /// read take the place of those before; of a manifest it prints whether it is the same.
    fn read(&mut self, is_whole: bool, line: &mut CallLine<'_>) {
        let kind = line.name(KINDS);
        let end = if is_whole {
            self.bytes.len()
        } else {
            line.size()
        };
        let Some(bytes) = copy_of(self.bytes.get(..end).unwrap_or_default(), line) else {
            return;
        };
        let alloc = line.alloc();
        match kind {
            Some(Kind::Log) => self.take_batches(decode_log(alloc, bytes), line),
            Some(Kind::Table) => self.take_batches(decode_table(alloc, bytes), line),
            _ => self.compare_manifest(decode_manifest(alloc, bytes), line),
        }
    }

    fn take_batches(&mut self, read: Result<Seq<Batch>, DecodeError>, line: &mut CallLine<'_>) {
        if let Some(batches) = line.made(read) {
            self.batches = batches.into_vec();
        }
    }

    fn compare_manifest(&self, read: Result<Manifest, DecodeError>, line: &mut CallLine<'_>) {
        let read = line.made(read);
        if read.is_some() {
            line.print_debug(&(self.manifest == read));
        }
    }

    /// Reads the bytes as a log file with one bit turned, and prints whether they are refused.
    fn read_turned(&mut self, line: &mut CallLine<'_>) {
        let bit = line.number();
        turn_bit(&mut self.bytes, bit);
        if let Some(turned) = copy_of(self.bytes.as_slice(), line) {
            let is_refused = decode_log(line.alloc(), turned).is_err();
            line.print_text(if is_refused { "refused" } else { "read" });
        }
        turn_bit(&mut self.bytes, bit);
    }
}

impl Subject for Objects {
    fn anew(&self, alloc: Global) -> Objects {
        Objects::new(alloc)
    }

    fn call(&mut self, line: &mut CallLine<'_>) {
        match line.name(CALLS) {
            Some(Call::Crc) => {
                let sum = crc32(line.bytes().as_slice());
                line.print_number(u64::from(sum));
            }
            Some(Call::Batch) => self.add_batch(line),
            Some(Call::Manifest) => self.manifest = Some(manifest_of(line)),
            Some(Call::Write) => self.write(line),
            Some(Call::Bytes) => self.bytes = line.byte_list(),
            Some(Call::Read) => self.read(true, line),
            Some(Call::Front) => self.read(false, line),
            Some(Call::Turn) => self.read_turned(line),
            None => {}
        }
    }
}

impl Answer for Vec<u8> {
    fn print(self, line: &mut CallLine<'_>) {
        line.print_bytes(self.as_slice());
    }
}

impl Answer for DecodeError {
    fn print(self, line: &mut CallLine<'_>) {
        line.print_fault(&self);
    }
}

fn copy_of(bytes: &[u8], line: &mut CallLine<'_>) -> Option<Bytes> {
    let copy = Bytes::copy_from_slice(line.alloc(), bytes);
    line.made(copy)
}

/// The manifest that words spell in parts, with `;` between each two: its numbers and the name of its extractor, its
/// segments, its tables, its checkpoints, and the bytes of its tracker, where it has one.
fn manifest_of(line: &mut CallLine<'_>) -> Manifest {
    let writer_epoch = line.number();
    let last_l0_seq = line.number();
    let last_tick = line.time();
    let replay_after_wal_id = line.number();
    let next_wal_id = line.number();
    let extractor_name = Some(Name::of(line.string()));
    let _end = line.has_more();
    let segments = Seq::of(prefixes_of(line));
    let tables = tables_of(line);
    let checkpoints = checkpoints_of(line);
    let sequence_tracker = if line.is_read() {
        None
    } else {
        Some(Seq::of(line.byte_list()))
    };
    Manifest {
        writer_epoch,
        initialized: true,
        tables,
        last_l0_seq,
        last_tick,
        replay_after_wal_id,
        next_wal_id,
        checkpoints,
        segments,
        extractor_name,
        sequence_tracker,
    }
}

/// The ids of tables up to the next `;`, each an epoch and an index.
fn tables_of(line: &mut CallLine<'_>) -> Seq<TableId> {
    let mut tables = Vec::new(line.alloc());
    for _ in 0..line.left() {
        if !line.has_more() {
            break;
        }
        tables.push(table_id(line)).print(line);
    }
    Seq::of(tables)
}

/// The id of a table.
pub fn table_id(line: &mut CallLine<'_>) -> TableId {
    let epoch = line.number();
    let index = line.number();
    TableId { epoch, index }
}

/// Checkpoints up to the next `;`, each an id, the id of its manifest, when it was made, and when its lease ends, or `none`.
fn checkpoints_of(line: &mut CallLine<'_>) -> Seq<Checkpoint> {
    let mut checkpoints = Vec::new(line.alloc());
    for _ in 0..line.left() {
        if !line.has_more() {
            break;
        }
        checkpoints.push(checkpoint_of(line)).print(line);
    }
    Seq::of(checkpoints)
}

fn checkpoint_of(line: &mut CallLine<'_>) -> Checkpoint {
    let id = id_of(line);
    let manifest_id = line.number();
    let create_ms = line.time();
    let expire_ms = line.end();
    Checkpoint {
        id,
        manifest_id,
        create_ms,
        expire_ms,
    }
}

/// The id that the next word spells.
fn id_of(line: &mut CallLine<'_>) -> Uuid {
    match Uuid::parse_str(line.text()) {
        Ok(id) => id,
        Err(_) => {
            line.unread();
            Uuid::nil()
        }
    }
}
