// Keeping manifests, log files and tables in memory.
ghost use Rattle.std.specs.Prelude.{◌≡◌, Some, IfOk};
ghost use Rattle.std.specs.Map.{keys_of};
ghost use Rattle.slate_types.specs.Counts.{one_more};
ghost use Rattle.slate_store.specs.Objects.{empty};

use crate::{Listing, LogFile, Manifest, Store, TableId, VersionedManifest};
use slate_reads::Table;
use slate_types::{Batch, NoMemory, Seq, StoreError};
use std::alloc::Global;
use std::collections::BTreeMap;

/// A store in memory. It never fails: it answers `NoMemory`, or what is asked. It is modelled, and what it holds is
/// sound as long as only handles change it.
///
/// A call takes a look-up, logarithmic in the objects, but for the listing, which is linear in them. One that puts a log
/// file copies its batches and their lists of operations, and one that puts or gives a manifest copies its lists; a log
/// file that is given is shared, a table that is put or given is shared too, and so are the bytes of keys and values.
pub struct MemoryStore {
    manifests: BTreeMap<u64, Manifest>,
    logs: BTreeMap<u64, LogFile>,
    tables: BTreeMap<TableId, Table>,
    calls: u64,
}

impl Drop for MemoryStore {
    fn drop(self) {
        let MemoryStore {
            manifests: _,
            logs: _,
            tables: _,
            calls: _,
        } = self;
    }
}

impl MemoryStore {
    /// An empty store that wasn't called yet. It takes no memory.
    pub fn new(alloc: Global) -> MemoryStore
        ensures objects { ⟦<MemoryStore as Store>⟧.objects result ≡ Some empty }
        ensures calls { ⟦<MemoryStore as Store>⟧.calls result ≡ 0 }
    {
        MemoryStore {
            manifests: BTreeMap::new(alloc),
            logs: BTreeMap::new(alloc),
            tables: BTreeMap::new(alloc),
            calls: 0,
        }
    }

    fn count_call(&mut self)
        ensures { self.new ≡ record self.old { calls = one_more self.old.calls } }
    {
        self.calls = self.calls.saturating_add(1);
    }
}

impl Store for MemoryStore {
    ghost use Rattle.std.specs.Prelude.{Some};

    ghost objects = { λ s. Some (record { manifests = s.manifests.entries; logs = s.logs.entries; tables = s.tables.entries }) };

    ghost faults = { λ _. 0 };

    ghost calls = { λ s. s.calls };

    fn latest_manifest(&mut self, alloc: Global) -> Result<Option<VersionedManifest>, StoreError> {
        self.count_call();
        match self.manifests.last_key_value() {
            None => Ok(None),
            Some((id, manifest)) => Ok(Some(VersionedManifest {
                id: *id,
                manifest: manifest.clone()?,
            })),
        }
    }

    fn read_manifest(&mut self, alloc: Global, id: u64) -> Result<Manifest, StoreError> {
        self.count_call();
        match self.manifests.get(&id) {
            None => Err(StoreError::NotFound),
            Some(manifest) => Ok(manifest.clone()?),
        }
    }

    fn put_manifest(
        &mut self,
        alloc: Global,
        id: u64,
        manifest: &Manifest,
    ) -> Result<(), StoreError> {
        self.count_call();
        if self.manifests.contains_key(&id) {
            return Err(StoreError::Exists);
        }
        let manifest = manifest.clone()?;
        self.manifests.insert(id, manifest).map_err(NoMemory::from)?;
        Ok(())
    }

    fn remove_manifest(&mut self, alloc: Global, id: u64) -> Result<(), StoreError> {
        self.count_call();
        self.manifests.remove(&id);
        Ok(())
    }

    fn last_log(&mut self, alloc: Global, after: u64) -> Result<u64, StoreError> {
        self.count_call();
        match self.logs.last_key_value() {
            Some((id, _)) => Ok(after.max(*id)),
            None => Ok(after),
        }
    }

    fn read_log(&mut self, alloc: Global, id: u64) -> Result<LogFile, StoreError> {
        self.count_call();
        match self.logs.get(&id) {
            None => Err(StoreError::NotFound),
            Some(log) => Ok(log.clone().map_err(NoMemory::from)?),
        }
    }

    fn put_log(&mut self, alloc: Global, id: u64, batches: &[Batch]) -> Result<(), StoreError> {
        self.count_call();
        if self.logs.contains_key(&id) {
            return Err(StoreError::Exists);
        }
        let log = LogFile::new(alloc, Batch::copies(alloc, batches)?)?;
        self.logs.insert(id, log).map_err(NoMemory::from)?;
        Ok(())
    }

    fn remove_log(&mut self, alloc: Global, id: u64) -> Result<(), StoreError> {
        self.count_call();
        self.logs.remove(&id);
        Ok(())
    }

    fn read_table(&mut self, alloc: Global, id: TableId) -> Result<Table, StoreError> {
        self.count_call();
        match self.tables.get(&id) {
            None => Err(StoreError::NotFound),
            Some(table) => Ok(table.clone().map_err(NoMemory::from)?),
        }
    }

    fn put_table(&mut self, alloc: Global, id: TableId, table: &Table) -> Result<(), StoreError> {
        self.count_call();
        if self.tables.contains_key(&id) {
            return Err(StoreError::Exists);
        }
        let table = table.clone().map_err(NoMemory::from)?;
        self.tables.insert(id, table).map_err(NoMemory::from)?;
        Ok(())
    }

    fn remove_table(&mut self, alloc: Global, id: TableId) -> Result<(), StoreError> {
        self.count_call();
        self.tables.remove(&id);
        Ok(())
    }

    fn list(&mut self, alloc: Global) -> Result<Listing, StoreError> {
        self.count_call();
        Ok(Listing {
            manifests: ids_of(alloc, &self.manifests)?,
            logs: ids_of(alloc, &self.logs)?,
            tables: ids_of(alloc, &self.tables)?,
        })
    }
}

/// The keys of a map, in order.
fn ids_of<K: Copy + Ord, V>(alloc: Global, map: &BTreeMap<K, V>) -> Result<Seq<K>, NoMemory>
    ensures { IfOk result (λ ids. ids ≡ keys_of map.now.entries) }
{
    Ok(Seq::of(map.keys().copied().collect(alloc)?))
}
