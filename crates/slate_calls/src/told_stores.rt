// A store in memory whose calls fail as told, and beside which others act.
use slate_reads::Table;
use slate_store::{
    FailingCall, FaultyStore, Listing, LogFile, Manifest, MemoryStore, Store, TableId,
    VersionedManifest,
};
use slate_types::{Batch, Seq, StoreError};
use std::alloc::Global;
use std::mem;

/// A store in memory, and what it was told to do. It counts its calls.
pub struct ToldStore {
    inner: FaultyStore<MemoryStore>,
    /// The log file that isn't found when it is read.
    lost: Option<u64>,
    /// The call from which on the latest manifest has the next epoch, since another handle was opened.
    raised_at: u64,
    /// How many times another puts a manifest under the id before a put of one.
    rivals: u64,
    calls: u64,
}

impl Drop for ToldStore {
    fn drop(self) {
        let ToldStore {
            inner: _,
            lost: _,
            raised_at: _,
            rivals: _,
            calls: _,
        } = self;
    }
}

impl ToldStore {
    ghost use Rattle.std.specs.Prelude.{◌≡◌};
    ghost use Rattle.slate_types.specs.Counts.{one_more};

    /// An empty store that does as it is asked.
    pub fn new(alloc: Global) -> ToldStore {
        ToldStore {
            inner: FaultyStore::new(MemoryStore::new(alloc), Seq::of(Vec::new(alloc))),
            lost: None,
            raised_at: u64::MAX,
            rivals: 0,
            calls: 0,
        }
    }

    /// How many calls there were since the count began.
    pub fn calls(&self) -> u64 {
        self.calls
    }

    /// How many calls the store inside counted since then.
    pub fn faulty_calls(&self) -> u64 {
        self.inner.calls()
    }

    /// Lets these calls fail, counted from here.
    pub fn let_fail(&mut self, alloc: Global, failing: Seq<FailingCall>) {
        let empty = FaultyStore::new(MemoryStore::new(alloc), Seq::of(Vec::new(alloc)));
        let whole = mem::replace(&mut self.inner, empty);
        self.inner = FaultyStore::new(whole.into_inner(), failing);
        self.calls = 0;
    }

    /// Loses a log file, and lets another handle be opened before the call of a number, counted from here.
    pub fn contend(&mut self, lost: u64, raised_at: u64) {
        self.lost = Some(lost);
        self.raised_at = raised_at;
        self.calls = 0;
    }

    /// Lets another come first at so many puts of manifests, counted from here.
    pub fn let_others_put(&mut self, rivals: u64) {
        self.rivals = rivals;
        self.calls = 0;
    }

    fn count_call(&mut self)
        ensures { self.new ≡ record self.old { calls = one_more self.old.calls } }
    {
        self.calls = self.calls.saturating_add(1);
    }
}

impl Store for ToldStore {
    ghost use Rattle.std.specs.Prelude.{None};

    ghost objects = { λ _. None };

    ghost faults = { λ s. ⟦<FaultyStore<MemoryStore> as Store>⟧.faults s.inner };

    ghost calls = { λ s. s.calls };

    fn latest_manifest(&mut self, alloc: Global) -> Result<Option<VersionedManifest>, StoreError> {
        self.count_call();
        let Some(mut latest) = self.inner.latest_manifest(alloc)? else {
            return Ok(None);
        };
        if self.raised_at <= self.calls {
            latest.manifest.writer_epoch = latest.manifest.writer_epoch.saturating_add(1);
        }
        Ok(Some(latest))
    }

    fn read_manifest(&mut self, alloc: Global, id: u64) -> Result<Manifest, StoreError> {
        self.count_call();
        self.inner.read_manifest(alloc, id)
    }

    fn put_manifest(
        &mut self,
        alloc: Global,
        id: u64,
        manifest: &Manifest,
    ) -> Result<(), StoreError> {
        self.count_call();
        if self.rivals > 0 {
            self.rivals -= 1;
            self.inner.put_manifest(alloc, id, manifest)?;
        }
        self.inner.put_manifest(alloc, id, manifest)
    }

    fn last_log(&mut self, alloc: Global, after: u64) -> Result<u64, StoreError> {
        self.count_call();
        self.inner.last_log(alloc, after)
    }

    fn read_log(&mut self, alloc: Global, id: u64) -> Result<LogFile, StoreError> {
        self.count_call();
        if self.lost == Some(id) {
            return Err(StoreError::NotFound);
        }
        self.inner.read_log(alloc, id)
    }

    fn put_log(&mut self, alloc: Global, id: u64, batches: &[Batch]) -> Result<(), StoreError> {
        self.count_call();
        self.inner.put_log(alloc, id, batches)
    }

    fn read_table(&mut self, alloc: Global, id: TableId) -> Result<Table, StoreError> {
        self.count_call();
        self.inner.read_table(alloc, id)
    }

    fn put_table(&mut self, alloc: Global, id: TableId, table: &Table) -> Result<(), StoreError> {
        self.count_call();
        self.inner.put_table(alloc, id, table)
    }

    fn list(&mut self, alloc: Global) -> Result<Listing, StoreError> {
        self.count_call();
        self.inner.list(alloc)
    }

    fn remove_manifest(&mut self, alloc: Global, id: u64) -> Result<(), StoreError> {
        self.count_call();
        self.inner.remove_manifest(alloc, id)
    }

    fn remove_log(&mut self, alloc: Global, id: u64) -> Result<(), StoreError> {
        self.count_call();
        self.inner.remove_log(alloc, id)
    }

    fn remove_table(&mut self, alloc: Global, id: TableId) -> Result<(), StoreError> {
        self.count_call();
        self.inner.remove_table(alloc, id)
    }
}
