// Reading the objects that manifests name, each once.
ghost use Rattle.std.specs.Prelude.{◌≡◌, ◌≤◌, ◌++◌, ◌∷◌, [], IfOk, IfErr, MatchResult, OnErr, OnOk, Some, Err};
ghost use Rattle.std.specs.BTreeMap.{IsUnchanged, Updates};
ghost use Rattle.slate_types.specs.Counts.{HasRisen};
ghost use Rattle.slate_store.specs.Calls.{IsOfList};
ghost use Rattle.slate_store.specs.Objects.{Objects, log_at, table_at};
ghost use Rattle.slate_check.specs.Reads.{AreOf, FindsLogs, FindsTables};
ghost use Rattle.slate_check.specs.Steps.{AreLoaded, FailsToLoad};

use crate::ManifestFault;
use slate_reads::Table;
use slate_store::{LogFile, Manifest, Store, StoreError, TableId};
use slate_types::{NoMemory, Seq};
use std::alloc::Global;
use std::collections::BTreeMap;

/// The tables and log files that were read, by their ids.
pub(crate) struct Cache {
    tables: BTreeMap<TableId, Table>,
    logs: BTreeMap<u64, LogFile>,
}

impl Drop for Cache {
    fn drop(self) {
        let Cache { tables: _, logs: _ } = self;
    }
}

/// The tables and log files of a manifest, in order.
pub(crate) struct Loaded {
    pub(crate) tables: Seq<Table>,
    pub(crate) logs: Seq<LogFile>,
}

impl Drop for Loaded {
    fn drop(self) {
        let Loaded { tables: _, logs: _ } = self;
    }
}

impl Cache {
    /// One that has read nothing. It takes no memory.
    pub(crate) fn new(alloc: Global) -> Cache
        ensures { (objects : Objects) → AreOf objects result.tables.entries result.logs.entries }
    {
        Cache {
            tables: BTreeMap::new(alloc),
            logs: BTreeMap::new(alloc),
        }
    }

    /// The tables of a manifest, and the log files above its replay mark up to an id; or why they aren't there. It reads
    /// those that weren't read before.
    pub(crate) fn load<S: Store>(
        &mut self,
        alloc: Global,
        store: &mut S,
        manifest: &Manifest,
        last: u64,
    ) -> Result<Result<Loaded, ManifestFault>, StoreError>
        ensures kept { S.objects store.new ≡ S.objects store.old }
        ensures of { (objects : Objects) → S.objects store.old ≡ Some objects → AreOf objects self.old.tables.entries self.old.logs.entries → AreOf objects self.new.tables.entries self.new.logs.entries }
        ensures found { (objects : Objects) → S.objects store.old ≡ Some objects → AreOf objects self.old.tables.entries self.old.logs.entries →
            IfOk result (λ loaded. MatchResult loaded (λ l. AreLoaded objects manifest.now last l.tables l.logs) (FailsToLoad objects manifest.now last)) }
        ensures count { S.faults store.old ≤ S.faults store.new }
        ensures failed { result ≡ Err StoreError.Failed → HasRisen (S.faults store.old) (S.faults store.new) }
        ensures refused { IfErr result IsOfList }
    {
        let tables = match self.read_tables(alloc, store, manifest.tables.as_slice())? {
            Ok(tables) => tables,
            Err(fault) => return Ok(Err(fault)),
        };
        let mark = manifest.replay_after_wal_id;
        if manifest.next_wal_id <= mark {
            return Ok(Err(ManifestFault::NextLog));
        }
        match self.read_logs(alloc, store, mark, last)? {
            Ok(logs) => Ok(Ok(Loaded { tables, logs })),
            Err(id) => Ok(Err(ManifestFault::LogMissing(id))),
        }
    }

    /// The tables with these ids, in this order. It reads those that weren't read before.
    pub(crate) fn read_tables<S: Store>(
        &mut self,
        alloc: Global,
        store: &mut S,
        ids: &[TableId],
    ) -> Result<Result<Seq<Table>, ManifestFault>, StoreError>
        ensures kept { S.objects store.new ≡ S.objects store.old }
        ensures of { (objects : Objects) → S.objects store.old ≡ Some objects → AreOf objects self.old.tables.entries self.old.logs.entries → AreOf objects self.new.tables.entries self.new.logs.entries }
        ensures found { (objects : Objects) → S.objects store.old ≡ Some objects → AreOf objects self.old.tables.entries self.old.logs.entries → IfOk result (FindsTables objects ids.now) }
        ensures count { S.faults store.old ≤ S.faults store.new }
        ensures failed { result ≡ Err StoreError.Failed → HasRisen (S.faults store.old) (S.faults store.new) }
        ensures refused { IfErr result IsOfList }
    {
        let mut tables = Vec::new(alloc);
        for id in ids {
            let Some(table) = self.table(alloc, store, *id)? else {
                return Ok(Err(ManifestFault::TableMissing(*id)));
            };
            if table.batches().is_empty() {
                return Ok(Err(ManifestFault::TableEmpty(*id)));
            }
            push(&mut tables, table)?;
        }
        Ok(Ok(Seq::of(tables)))
    }

    /// The log files above a mark, up to an id, in order; or the first id under which none is stored. It reads those
    /// that weren't read before.
    pub(crate) fn read_logs<S: Store>(
        &mut self,
        alloc: Global,
        store: &mut S,
        mark: u64,
        last: u64,
    ) -> Result<Result<Seq<LogFile>, u64>, StoreError>
        ensures kept { S.objects store.new ≡ S.objects store.old }
        ensures of { (objects : Objects) → S.objects store.old ≡ Some objects → AreOf objects self.old.tables.entries self.old.logs.entries → AreOf objects self.new.tables.entries self.new.logs.entries }
        ensures found { (objects : Objects) → S.objects store.old ≡ Some objects → AreOf objects self.old.tables.entries self.old.logs.entries → IfOk result (FindsLogs objects mark last) }
        ensures count { S.faults store.old ≤ S.faults store.new }
        ensures failed { result ≡ Err StoreError.Failed → HasRisen (S.faults store.old) (S.faults store.new) }
        ensures refused { IfErr result IsOfList }
    {
        let mut logs = Vec::new(alloc);
        for before in mark..last {
            let id = before + 1;
            let Some(log) = self.log(alloc, store, id)? else {
                return Ok(Err(id));
            };
            push(&mut logs, log)?;
        }
        Ok(Ok(Seq::of(logs)))
    }

    /// The table with an id, where one is stored. It reads the store where it wasn't read before.
    fn table<S: Store>(
        &mut self,
        alloc: Global,
        store: &mut S,
        id: TableId,
    ) -> Result<Option<Table>, StoreError>
        ensures kept { S.objects store.new ≡ S.objects store.old }
        ensures of { (objects : Objects) → S.objects store.old ≡ Some objects → AreOf objects self.old.tables.entries self.old.logs.entries → AreOf objects self.new.tables.entries self.new.logs.entries }
        ensures found { (objects : Objects) → S.objects store.old ≡ Some objects → AreOf objects self.old.tables.entries self.old.logs.entries → IfOk result (λ table. table ≡ table_at id objects) }
        ensures count { S.faults store.old ≤ S.faults store.new }
        ensures failed { result ≡ Err StoreError.Failed → HasRisen (S.faults store.old) (S.faults store.new) }
        ensures refused { IfErr result IsOfList }
    {
        if let Some(table) = self.tables.get(&id) {
            return Ok(Some(copy(table)?));
        }
        let table = match store.read_table(alloc, id) {
            Ok(table) => table,
            Err(StoreError::NotFound) => return Ok(None),
            Err(error) => return Err(error),
        };
        let kept = copy(&table)?;
        insert(&mut self.tables, id, kept)?;
        Ok(Some(table))
    }

    /// The log file with an id, where one is stored. It reads the store where it wasn't read before.
    fn log<S: Store>(
        &mut self,
        alloc: Global,
        store: &mut S,
        id: u64,
    ) -> Result<Option<LogFile>, StoreError>
        ensures kept { S.objects store.new ≡ S.objects store.old }
        ensures of { (objects : Objects) → S.objects store.old ≡ Some objects → AreOf objects self.old.tables.entries self.old.logs.entries → AreOf objects self.new.tables.entries self.new.logs.entries }
        ensures found { (objects : Objects) → S.objects store.old ≡ Some objects → AreOf objects self.old.tables.entries self.old.logs.entries → IfOk result (λ log. log ≡ log_at id objects) }
        ensures count { S.faults store.old ≤ S.faults store.new }
        ensures failed { result ≡ Err StoreError.Failed → HasRisen (S.faults store.old) (S.faults store.new) }
        ensures refused { IfErr result IsOfList }
    {
        if let Some(log) = self.logs.get(&id) {
            return Ok(Some(copy(log)?));
        }
        let log = match store.read_log(alloc, id) {
            Ok(log) => log,
            Err(StoreError::NotFound) => return Ok(None),
            Err(error) => return Err(error),
        };
        let kept = copy(&log)?;
        insert(&mut self.logs, id, kept)?;
        Ok(Some(log))
    }
}

/// A copy of a value.
fn copy<T: Clone>(value: &T) -> Result<T, NoMemory>
    ensures { IfOk result (T.is_clone value.now) }
{
    Ok(value.clone()?)
}

/// Adds a value at the end.
fn push<T: Drop>(values: &mut Vec<T>, value: T) -> Result<(), NoMemory>
    ensures { OnOk result (values.new.items ≡ values.old.items ++ value ∷ []) }
{
    Ok(values.push(value)?)
}

/// Puts a value under a key.
fn insert<K: Ord + Drop, V: Drop>(
    map: &mut BTreeMap<K, V>,
    key: K,
    value: V,
) -> Result<(), NoMemory>
    ensures ok { OnOk result (Updates K.cmp map.old map.new key (Some value)) }
    ensures err { OnErr result (IsUnchanged map.old map.new) }
{
    map.insert(key, value)?;
    Ok(())
}
