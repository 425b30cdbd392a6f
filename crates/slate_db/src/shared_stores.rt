// A store that several databases and readers of a process hold together.
ghost use Rattle.std.specs.Prelude.{◌≡◌, None};
ghost use Rattle.slate_store.specs.Calls.{IsCall};

use slate_reads::Table;
use slate_store::{Listing, LogFile, Manifest, Store, StoreError, TableId, VersionedManifest};
use slate_types::{Batch, CallCount, NoMemory};
use std::alloc::Global;
use std::sync::{Arc, Mutex, Wait};

/// Our own, where SlateDB shares its object store by an `Arc`: one store that a `Db` and several `DbReader`s of a process
/// hold together. Each call takes a lock, for which it waits by the runtime, and is then that of the store inside. It is
/// shared by `share`, and each that shares it counts its own calls and faults.
///
/// It isn't modelled, since others change the store between two calls: what a contract says of the objects of a modelled
/// store isn't said of it.
pub struct SharedStore<R: Wait, S> {
    rt: R,
    shared: Arc<Mutex<S>>,
    count: CallCount,
}

impl<R: Wait + Drop, S: Drop> Drop for SharedStore<R, S> {
    fn drop(self) {
        let SharedStore {
            rt: _,
            shared: _,
            count: _,
        } = self;
    }
}

impl<R: Wait, S> SharedStore<R, S> {
    /// The store inside, shared by this one alone so far.
    pub fn new(alloc: Global, rt: R, store: S) -> Result<SharedStore<R, S>, NoMemory>
    where
        R: Drop,
        S: Drop,
    {
        let shared = Arc::new(alloc, Mutex::new(store)).map_err(NoMemory::from)?;
        Ok(SharedStore {
            rt,
            shared,
            count: CallCount::new(),
        })
    }

    /// The same store once more, with counts of its own. It takes no memory, and answers `NoMemory` where too many share it.
    pub fn share(&self) -> Result<SharedStore<R, S>, NoMemory>
    where
        R: Copy,
        S: Drop,
    {
        Ok(SharedStore {
            rt: self.rt,
            shared: self.shared.clone().map_err(NoMemory::from)?,
            count: CallCount::new(),
        })
    }

    /// Counts a call that was answered so.
    fn count<A>(&mut self, answer: Result<A, StoreError>) -> Result<A, StoreError>
        ensures answer { result ≡ answer }
        ensures counts { IsCall self.old.count.faults self.new.count.faults self.old.count.made self.new.count.made answer }
    {
        self.count.next_call();
        if let Err(StoreError::Failed) = &answer {
            self.count.count_fault();
        }
        answer
    }
}

impl<R: Wait, S: Store> Store for SharedStore<R, S> {
    ghost use Rattle.std.specs.Prelude.{None};

    ghost objects = { λ _. None };

    ghost faults = { λ s. s.count.faults };

    ghost calls = { λ s. s.count.made };

    fn latest_manifest(&mut self, alloc: Global) -> Result<Option<VersionedManifest>, StoreError> {
        let answer = self.shared.lock(&self.rt).latest_manifest(alloc);
        self.count(answer)
    }

    fn read_manifest(&mut self, alloc: Global, id: u64) -> Result<Manifest, StoreError> {
        let answer = self.shared.lock(&self.rt).read_manifest(alloc, id);
        self.count(answer)
    }

    fn put_manifest(
        &mut self,
        alloc: Global,
        id: u64,
        manifest: &Manifest,
    ) -> Result<(), StoreError> {
        let answer = self.shared.lock(&self.rt).put_manifest(alloc, id, manifest);
        self.count(answer)
    }

    fn remove_manifest(&mut self, alloc: Global, id: u64) -> Result<(), StoreError> {
        let answer = self.shared.lock(&self.rt).remove_manifest(alloc, id);
        self.count(answer)
    }

    fn last_log(&mut self, alloc: Global, after: u64) -> Result<u64, StoreError> {
        let answer = self.shared.lock(&self.rt).last_log(alloc, after);
        self.count(answer)
    }

    fn read_log(&mut self, alloc: Global, id: u64) -> Result<LogFile, StoreError> {
        let answer = self.shared.lock(&self.rt).read_log(alloc, id);
        self.count(answer)
    }

    fn put_log(&mut self, alloc: Global, id: u64, batches: &[Batch]) -> Result<(), StoreError> {
        let answer = self.shared.lock(&self.rt).put_log(alloc, id, batches);
        self.count(answer)
    }

    fn remove_log(&mut self, alloc: Global, id: u64) -> Result<(), StoreError> {
        let answer = self.shared.lock(&self.rt).remove_log(alloc, id);
        self.count(answer)
    }

    fn read_table(&mut self, alloc: Global, id: TableId) -> Result<Table, StoreError> {
        let answer = self.shared.lock(&self.rt).read_table(alloc, id);
        self.count(answer)
    }

    fn put_table(&mut self, alloc: Global, id: TableId, table: &Table) -> Result<(), StoreError> {
        let answer = self.shared.lock(&self.rt).put_table(alloc, id, table);
        self.count(answer)
    }

    fn remove_table(&mut self, alloc: Global, id: TableId) -> Result<(), StoreError> {
        let answer = self.shared.lock(&self.rt).remove_table(alloc, id);
        self.count(answer)
    }

    fn list(&mut self, alloc: Global) -> Result<Listing, StoreError> {
        let answer = self.shared.lock(&self.rt).list(alloc);
        self.count(answer)
    }
}
