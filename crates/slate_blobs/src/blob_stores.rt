// A store whose objects are blobs in three folders.
ghost use Rattle.std.specs.Prelude.{◌≡◌};

use crate::Blobs;
use crate::answers::{answer_with, greatest_of, rising_table};
use crate::table_folders::TableFolder;
use slate_objects::{
    decode_log, decode_manifest, decode_table, encode_log, encode_manifest, encode_table,
};
use slate_reads::Table;
use slate_store::{Listing, LogFile, Manifest, Store, TableId, VersionedManifest};
use slate_types::{Batch, CallCount, StoreError};
use std::alloc::Global;

/// How many bytes of tables a store keeps decoded, where nothing else is asked: 64 MiB. They are counted as the bytes of
/// the tables' blobs.
pub const TABLE_BYTES: u64 = 64 * 1024 * 1024;

/// A store over the blobs of three folders: of manifests, of log files and of tables, each blob as `slate_objects` writes
/// the object, under its id.
///
/// Its objects are what its blobs are, where the three folders are modelled. A blob that isn't decoded stands for an
/// object with nothing in it, and isn't read; nor is a table whose numbers don't rise.
///
/// Tables that were read or put are kept decoded, the newest of them, as many as a bound of bytes has room for. A removal
/// forgets the table, also where it fails. Over folders that aren't modelled, as those of a directory, a table that is kept
/// may be answered though another process has removed its blob. That is right: a table is put once under its id and never
/// changed, so what is answered is what was put.
///
/// # Errors
///
/// A call that reads a blob which isn't decoded answers `Failed`, and the count of faults rises.
///
/// # Cost
///
/// A call is counted once. Besides, it takes time linear in the bytes that it reads or writes, and in the ids that it lists, which a directory sorts.
///
/// call | of blobs
/// ---|---
/// a put | one put; the object is encoded first
/// a read | one get; of a table that is kept none, and time linear in those; of another as many pushes to an `IndexedTable`
/// a removal | one removal
/// `latest_manifest`, `last_log`, `list` | one listing and one get; one listing; three listings
///
/// # What stands after
///
/// Nothing is kept from call to call but tables.
pub struct BlobStore<N: Blobs<u64>, T: Blobs<TableId>> {
    manifests: N,
    logs: N,
    tables: TableFolder<T>,
    count: CallCount,
}

impl<N: Blobs<u64> + Drop, T: Blobs<TableId> + Drop> Drop for BlobStore<N, T> {
    fn drop(self) {
        let BlobStore {
            manifests: _,
            logs: _,
            tables: _,
            count: _,
        } = self;
    }
}

impl<N: Blobs<u64>, T: Blobs<TableId>> BlobStore<N, T> {
    ghost use Rattle.slate_blobs.specs.Decoded.{all_held};

    /// The store of the objects in three folders, which keeps `TABLE_BYTES` bytes of tables decoded. It takes no memory.
    pub fn new(manifests: N, logs: N, tables: T) -> BlobStore<N, T>
        ensures objects { ⟦<BlobStore<N, T> as Store>⟧.objects result ≡ all_held (N.held manifests) (N.held logs) (T.held tables) }
        ensures calls { ⟦<BlobStore<N, T> as Store>⟧.calls result ≡ 0 }
    {
        BlobStore::with_table_bytes(manifests, logs, tables, TABLE_BYTES)
    }

    /// The store of the objects in three folders, which keeps tables decoded whose blobs have at most so many bytes
    /// together. It takes no memory.
    pub fn with_table_bytes(manifests: N, logs: N, tables: T, bound: u64) -> BlobStore<N, T>
        ensures objects { ⟦<BlobStore<N, T> as Store>⟧.objects result ≡ all_held (N.held manifests) (N.held logs) (T.held tables) }
        ensures calls { ⟦<BlobStore<N, T> as Store>⟧.calls result ≡ 0 }
    {
        BlobStore {
            manifests,
            logs,
            tables: TableFolder::new(tables, bound),
            count: CallCount::new(),
        }
    }
}

impl<N: Blobs<u64>, T: Blobs<TableId>> Store for BlobStore<N, T> {
    ghost use Rattle.std.specs.Prelude.{◌+◌};
    ghost use Rattle.slate_blobs.specs.Decoded.{all_held};

    ghost objects = { λ s. all_held (N.held s.manifests) (N.held s.logs) (T.held s.tables) };

    ghost faults = { λ s. N.faults s.manifests + N.faults s.logs + T.faults s.tables + s.count.faults };

    ghost calls = { λ s. s.count.made };

    fn latest_manifest(&mut self, alloc: Global) -> Result<Option<VersionedManifest>, StoreError> {
        self.count.next_call();
        let ids = self.manifests.list(alloc)?;
        let Some(id) = ids.as_slice().last() else {
            return Ok(None);
        };
        match self.manifests.get(alloc, *id) {
            Ok(bytes) => {
                let manifest = answer_with(&mut self.count, decode_manifest(alloc, bytes))?;
                Ok(Some(VersionedManifest { id: *id, manifest }))
            }
            Err(StoreError::NotFound) => {
                self.count.count_fault();
                Err(StoreError::Failed)
            }
            Err(error) => Err(error),
        }
    }

    fn read_manifest(&mut self, alloc: Global, id: u64) -> Result<Manifest, StoreError> {
        self.count.next_call();
        let bytes = self.manifests.get(alloc, id)?;
        answer_with(&mut self.count, decode_manifest(alloc, bytes))
    }

    fn put_manifest(
        &mut self,
        alloc: Global,
        id: u64,
        manifest: &Manifest,
    ) -> Result<(), StoreError> {
        self.count.next_call();
        let bytes = encode_manifest(alloc, manifest)?;
        self.manifests.put_if_absent(alloc, id, bytes.as_slice())
    }

    fn remove_manifest(&mut self, alloc: Global, id: u64) -> Result<(), StoreError> {
        self.count.next_call();
        self.manifests.remove(alloc, id)
    }

    fn last_log(&mut self, alloc: Global, after: u64) -> Result<u64, StoreError> {
        self.count.next_call();
        let ids = self.logs.list(alloc)?;
        Ok(greatest_of(after, ids.as_slice()))
    }

    fn read_log(&mut self, alloc: Global, id: u64) -> Result<LogFile, StoreError> {
        self.count.next_call();
        let bytes = self.logs.get(alloc, id)?;
        let batches = answer_with(&mut self.count, decode_log(alloc, bytes))?;
        let log = LogFile::new(alloc, batches)?;
        Ok(log)
    }

    fn put_log(&mut self, alloc: Global, id: u64, batches: &[Batch]) -> Result<(), StoreError> {
        self.count.next_call();
        let bytes = encode_log(alloc, batches)?;
        self.logs.put_if_absent(alloc, id, bytes.as_slice())
    }

    fn remove_log(&mut self, alloc: Global, id: u64) -> Result<(), StoreError> {
        self.count.next_call();
        self.logs.remove(alloc, id)
    }

    /// A table that is kept is answered, and its blob isn't read. Where the folder isn't modelled, another process may have
    /// removed the blob; as tables never change, the answer is still what was put.
    fn read_table(&mut self, alloc: Global, id: TableId) -> Result<Table, StoreError> {
        self.count.next_call();
        if let Some(table) = self.tables.kept(id) {
            return Ok(table);
        }
        let bytes = self.tables.get(alloc, id)?;
        let size = bytes.len() as u64;
        let batches = answer_with(&mut self.count, decode_table(alloc, bytes))?;
        match rising_table(alloc, batches.as_slice())? {
            Some(table) => {
                self.tables.keep(alloc, id, &table, size);
                Ok(table)
            }
            None => {
                self.count.count_fault();
                Err(StoreError::Failed)
            }
        }
    }

    fn put_table(&mut self, alloc: Global, id: TableId, table: &Table) -> Result<(), StoreError> {
        self.count.next_call();
        let bytes = encode_table(alloc, table.batches())?;
        self.tables.put(alloc, id, bytes.as_slice(), table)
    }

    fn remove_table(&mut self, alloc: Global, id: TableId) -> Result<(), StoreError> {
        self.count.next_call();
        self.tables.remove(alloc, id)
    }

    fn list(&mut self, alloc: Global) -> Result<Listing, StoreError> {
        self.count.next_call();
        Ok(Listing {
            manifests: self.manifests.list(alloc)?,
            logs: self.logs.list(alloc)?,
            tables: self.tables.list(alloc)?,
        })
    }
}
