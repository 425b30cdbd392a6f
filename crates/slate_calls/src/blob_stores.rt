// The subject `blobs`: a store over blobs in memory, which counts the gets of tables and whose folders may be out of reach.
use crate::answers::Answer;
use crate::call_line::CallLine;
use crate::objects::table_id;
use crate::store_calls::{batches_of, call_store};
use crate::subjects::Subject;
use bytes::Bytes;
use slate_blobs::{BlobStore, Blobs, MemoryBlobs};
use slate_objects::{encode_log, encode_table};
use slate_store::TableId;
use slate_types::{CallCount, Seq, StoreError};
use std::alloc::Global;
use std::cell::Cell;
use std::mem;
use std::rc::Rc;

/// A folder in memory, which may be out of reach. It counts its gets where it was given a counter.
pub struct Folder<K: Copy + Ord + Drop> {
    blobs: MemoryBlobs<K>,
    gets: Option<Rc<Cell<u64>>>,
    reached: bool,
    count: CallCount,
}

impl<K: Copy + Ord + Drop> Drop for Folder<K> {
    fn drop(self) {
        let Folder {
            blobs: _,
            gets: _,
            reached: _,
            count: _,
        } = self;
    }
}

impl<K: Copy + Ord + Drop> Folder<K> {
    fn new(blobs: MemoryBlobs<K>, gets: Option<Rc<Cell<u64>>>, reached: bool) -> Folder<K> {
        Folder {
            blobs,
            gets,
            reached,
            count: CallCount::new(),
        }
    }
}

impl<K: Copy + Ord + Drop> Blobs<K> for Folder<K> {
    ghost use Rattle.std.specs.Prelude.{None};

    ghost held = { λ _. None };

    ghost faults = { λ s. s.count.faults };

    ghost calls = { λ s. s.count.made };

    fn put_if_absent(&mut self, alloc: Global, id: K, bytes: &[u8]) -> Result<(), StoreError> {
        self.count.next_call();
        if !self.reached {
            self.count.count_fault();
            return Err(StoreError::Failed);
        }
        self.blobs.put_if_absent(alloc, id, bytes)
    }

    fn get(&mut self, alloc: Global, id: K) -> Result<Bytes, StoreError> {
        self.count.next_call();
        if !self.reached {
            self.count.count_fault();
            return Err(StoreError::Failed);
        }
        if let Some(gets) = &self.gets {
            gets.set(gets.get().saturating_add(1));
        }
        self.blobs.get(alloc, id)
    }

    fn list(&mut self, alloc: Global) -> Result<Seq<K>, StoreError> {
        self.count.next_call();
        if !self.reached {
            self.count.count_fault();
            return Err(StoreError::Failed);
        }
        self.blobs.list(alloc)
    }

    fn remove(&mut self, alloc: Global, id: K) -> Result<(), StoreError> {
        self.count.next_call();
        if !self.reached {
            self.count.count_fault();
            return Err(StoreError::Failed);
        }
        self.blobs.remove(alloc, id)
    }
}

#[derive(Clone, Copy)]
enum Call {
    LogBlob,
    TableBlob,
    Open,
    OpenUnreached,
    Gets,
}

const CALLS: &[(&[u8], Call)] = &[
    (b"log_blob", Call::LogBlob),
    (b"table_blob", Call::TableBlob),
    (b"open", Call::Open),
    (b"open_unreached", Call::OpenUnreached),
    (b"gets", Call::Gets),
];

/// The blobs that are put before a store is made of them, and that store.
pub struct BlobStores {
    logs: MemoryBlobs<u64>,
    tables: MemoryBlobs<TableId>,
    gets: Option<Rc<Cell<u64>>>,
    store: Option<BlobStore<Folder<u64>, Folder<TableId>>>,
}

impl Drop for BlobStores {
    fn drop(self) {
        let BlobStores {
            logs: _,
            tables: _,
            gets: _,
            store: _,
        } = self;
    }
}

impl BlobStores {
    /// No blobs, and no store yet.
    pub fn new(alloc: Global) -> BlobStores {
        BlobStores {
            logs: MemoryBlobs::new(alloc),
            tables: MemoryBlobs::new(alloc),
            gets: None,
            store: None,
        }
    }

    /// Makes a store of the blobs. It keeps tables of so many bytes, where a bound is given. Of a store that isn't reached
    /// the tables alone are.
    fn open(&mut self, reached: bool, line: &mut CallLine<'_>) {
        let alloc = line.alloc();
        let gets = Rc::new(alloc, Cell::new(0));
        self.gets = line.made(gets);
        let gets = match &self.gets {
            Some(gets) => line.made(gets.clone()),
            None => None,
        };
        let logs = mem::replace(&mut self.logs, MemoryBlobs::new(alloc));
        let tables = mem::replace(&mut self.tables, MemoryBlobs::new(alloc));
        let manifests = Folder::new(MemoryBlobs::new(alloc), None, reached);
        let logs = Folder::new(logs, None, reached);
        let tables = Folder::new(tables, gets, true);
        self.store = Some(if line.is_read() {
            BlobStore::new(manifests, logs, tables)
        } else {
            BlobStore::with_table_bytes(manifests, logs, tables, line.number())
        });
    }

    fn put_log(&mut self, line: &mut CallLine<'_>) {
        let id = line.number();
        let blob = blob_of(line);
        self.logs
            .put_if_absent(line.alloc(), id, blob.as_slice())
            .print(line);
    }

    fn put_table(&mut self, line: &mut CallLine<'_>) {
        let id = table_id(line);
        let blob = blob_of(line);
        self.tables
            .put_if_absent(line.alloc(), id, blob.as_slice())
            .print(line);
    }
}

impl Subject for BlobStores {
    fn anew(&self, alloc: Global) -> BlobStores {
        BlobStores::new(alloc)
    }

    fn call(&mut self, line: &mut CallLine<'_>) {
        match (line.find(CALLS), &self.gets, &mut self.store) {
            (Some(Call::LogBlob), _, _) => self.put_log(line),
            (Some(Call::TableBlob), _, _) => self.put_table(line),
            (Some(Call::Open), _, _) => self.open(true, line),
            (Some(Call::OpenUnreached), _, _) => self.open(false, line),
            (Some(Call::Gets), Some(gets), _) => line.print_number(gets.get()),
            (None, _, Some(store)) => call_store(store, line),
            _ => line.unread(),
        }
    }
}

#[derive(Clone, Copy)]
enum Content {
    Log,
    Table,
    Bytes,
}

const CONTENTS: &[(&[u8], Content)] = &[
    (b"log", Content::Log),
    (b"table", Content::Table),
    (b"bytes", Content::Bytes),
];

/// The bytes of a blob: of a log file or of a table of batches without operations, or others.
fn blob_of(line: &mut CallLine<'_>) -> Vec<u8> {
    let content = line.name(CONTENTS);
    if let Some(Content::Bytes) = content {
        return line.byte_list();
    }
    let batches = batches_of(line.numbers().as_slice(), line);
    let encoded = match content {
        Some(Content::Log) => encode_log(line.alloc(), batches.as_slice()),
        _ => encode_table(line.alloc(), batches.as_slice()),
    };
    line.made(encoded).unwrap_or(Vec::new(line.alloc()))
}
