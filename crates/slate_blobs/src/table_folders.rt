// A folder of tables, some of which are kept decoded.
ghost use Rattle.std.specs.Prelude.{◌≡◌, Ok, Some, IfSome, IfOk, IfErr};
ghost use Rattle.std.specs.List.Sorted.{IsStrictlySortedBy};
ghost use Rattle.std.specs.Map.{keys_of};
ghost use Rattle.slate_objects.specs.Objects.{table_in};
ghost use Rattle.slate_store.specs.Calls.{IsCall, WhereModelled, Finds, IsOfList, IsOfRead, IsOfPut};
ghost use Rattle.slate_store.specs.Objects.{table_cmp};
ghost use Rattle.slate_blobs.specs.Decoded.{each, table_held};
ghost use Rattle.slate_blobs.specs.Entries.{PutsAt, RemovesAt, value_at};

use crate::Blobs;
use crate::kept_tables::KeptTables;
use bytes::Bytes;
use slate_reads::Table;
use slate_store::TableId;
use slate_types::{Seq, StoreError};
use std::alloc::Global;
use std::marker::Model;

/// The blobs of tables, with those tables of them that are kept decoded. A contract sees the blobs.
///
/// Where they are modelled, each table that is kept is what is stored under its id.
pub(crate) struct TableFolder<T: Blobs<TableId>> {
    blobs: T,
    // none before the first table is kept
    kept: Option<KeptTables>,
    // how many bytes of tables are kept
    bound: u64,
}

impl<T: Blobs<TableId> + Drop> Drop for TableFolder<T> {
    fn drop(self) {
        let TableFolder {
            blobs: _,
            kept: _,
            bound: _,
        } = self;
    }
}

impl<T: Blobs<TableId>> Model for TableFolder<T> {
    ghost use Rattle.std.specs.Prelude.{IfSome};
    ghost use Rattle.slate_blobs.specs.Kept.{AreStored};

    ghost Value = { T };

    ghost view = { λ folder. folder.blobs };

    ghost invariant = { λ folder. IfSome folder.kept (λ kept. AreStored kept.tables.items (T.held folder.blobs)) };
}

impl<T: Blobs<TableId>> TableFolder<T> {
    /// A folder of which no table is kept yet, and then as many bytes as the bound. It takes no memory.
    pub(crate) fn new(blobs: T, bound: u64) -> TableFolder<T>
        ensures { result ≡ blobs }
    {
        TableFolder {
            blobs,
            kept: None,
            bound,
        }
    }

    /// The table under an id, where it is kept.
    pub(crate) fn kept(&self, id: TableId) -> Option<Table>
        ensures { IfSome result (λ table. IfSome (T.held self.now) (λ blobs. value_at table_cmp id (each table_held blobs) ≡ Some table)) }
    {
        match &self.kept {
            Some(kept) => kept.get(id),
            None => None,
        }
    }

    /// Keeps the table that is stored under an id, whose blob has so many bytes, where there is room and memory.
    pub(crate) fn keep(&mut self, alloc: Global, id: TableId, table: &Table, bytes: u64)
        requires { IfSome (T.held self.old) (λ blobs. value_at table_cmp id (each table_held blobs) ≡ Some table.now) }
        ensures { self.new ≡ self.old }
    {
        if let Some(kept) = &mut self.kept {
            kept.keep(id, table, bytes);
        } else {
            let mut kept = KeptTables::new(alloc, self.bound);
            kept.keep(id, table, bytes);
            self.kept = Some(kept);
        }
    }

    /// The bytes under an id, whether the table is kept or not.
    pub(crate) fn get(&mut self, alloc: Global, id: TableId) -> Result<Bytes, StoreError>
        ensures counts { IsCall (T.faults self.old) (T.faults self.new) (T.calls self.old) (T.calls self.new) result }
        ensures kept { T.held self.new ≡ T.held self.old }
        ensures found { IfSome (T.held self.old) (λ blobs. Finds (value_at table_cmp id blobs) result) }
        ensures refusals { IfErr result IsOfRead }
    {
        self.blobs.get(alloc, id)
    }

    /// Stores a table, which these bytes are, and keeps it.
    pub(crate) fn put(
        &mut self,
        alloc: Global,
        id: TableId,
        bytes: &[u8],
        table: &Table,
    ) -> Result<(), StoreError>
        requires { table_in bytes.now ≡ Ok table.now }
        ensures counts { IsCall (T.faults self.old) (T.faults self.new) (T.calls self.old) (T.calls self.new) result }
        ensures put { WhereModelled (PutsAt table_cmp id bytes.now result) (T.held self.old) (T.held self.new) }
        ensures refusals { IfErr result IsOfPut }
    {
        self.blobs.put_if_absent(alloc, id, bytes)?;
        self.keep(alloc, id, table, bytes.len() as u64);
        Ok(())
    }

    /// Forgets a table, and removes it.
    pub(crate) fn remove(&mut self, alloc: Global, id: TableId) -> Result<(), StoreError>
        ensures counts { IsCall (T.faults self.old) (T.faults self.new) (T.calls self.old) (T.calls self.new) result }
        ensures removed { WhereModelled (RemovesAt table_cmp id result) (T.held self.old) (T.held self.new) }
        ensures refusals { IfErr result IsOfList }
    {
        if let Some(kept) = &mut self.kept {
            kept.forget(id);
        }
        self.blobs.remove(alloc, id)
    }

    /// The ids of all tables, rising.
    pub(crate) fn list(&mut self, alloc: Global) -> Result<Seq<TableId>, StoreError>
        ensures counts { IsCall (T.faults self.old) (T.faults self.new) (T.calls self.old) (T.calls self.new) result }
        ensures kept { T.held self.new ≡ T.held self.old }
        ensures found { IfSome (T.held self.old) (λ blobs. IfOk result (λ ids. ids ≡ keys_of blobs)) }
        ensures refusals { IfErr result IsOfList }
    {
        self.blobs.list(alloc)
    }
}
