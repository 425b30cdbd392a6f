// The calls of a store, and what each answers and changes.
ghost use Rattle.std.specs.Prelude.{◌≡◌, ℕ, Option, IfSome, IfOk, IfErr};
ghost use Rattle.slate_store.specs.Objects.{IsGreatest, Objects, PutManifest, PutLog, PutTable, RemoveManifest, RemoveLog, RemoveTable, latest_manifest, last_log, log_at, entry_at, table_at, listing_of};
ghost use Rattle.slate_store.specs.Calls.{IsCall, WhereModelled, Finds, Puts, Removes, IsOfList, IsOfRead, IsOfPut};

use crate::{Listing, LogFile, Manifest, TableId, VersionedManifest};
use slate_reads::Table;
use slate_types::{Batch, StoreError};
use std::alloc::Global;

/// An object store: manifests, log files and tables, each under an id. An object is put once, never changed, and may be
/// removed.
///
/// Every call may answer `Failed`, where the store's count of faults has risen, and `NoMemory`; one that answers anything
/// but `Failed` leaves that count as it was. A put or a removal that answers `Failed` may have taken place; a call that
/// answers anything else but Ok did nothing.
pub trait Store {
    /// The objects that it holds, where it is modelled.
    ghost objects: { Self → Option Objects };

    /// How often it has failed. The count never falls.
    ghost faults: { Self → ℕ };

    /// How often it was called. The count stays at the end of a `u64`.
    ghost calls: { Self → ℕ };

    /// The manifest with the greatest id, or None where there is none.
    fn latest_manifest(&mut self, alloc: Global) -> Result<Option<VersionedManifest>, StoreError>
        ensures counts { IsCall (faults self.old) (faults self.new) (calls self.old) (calls self.new) result }
        ensures kept { objects self.new ≡ objects self.old }
        ensures found { IfSome (objects self.old) (λ o. IfOk result (λ latest. latest ≡ latest_manifest o)) }
        ensures greatest { IfSome (objects self.old) (λ o. IfOk result (λ latest. IfSome latest (IsGreatest o))) }
        ensures refusals { IfErr result IsOfList };

    /// A manifest. It answers `NotFound` where none is stored under the id.
    fn read_manifest(&mut self, alloc: Global, id: u64) -> Result<Manifest, StoreError>
        ensures counts { IsCall (faults self.old) (faults self.new) (calls self.old) (calls self.new) result }
        ensures kept { objects self.new ≡ objects self.old }
        ensures found { IfSome (objects self.old) (λ o. Finds (entry_at id o.manifests) result) }
        ensures refusals { IfErr result IsOfRead };

    /// Stores a manifest under an id. It answers `Exists` where one is stored under it.
    fn put_manifest(
        &mut self,
        alloc: Global,
        id: u64,
        manifest: &Manifest,
    ) -> Result<(), StoreError>
        ensures counts { IsCall (faults self.old) (faults self.new) (calls self.old) (calls self.new) result }
        ensures put { WhereModelled (Puts (PutManifest id manifest.now) result) (objects self.old) (objects self.new) }
        ensures refusals { IfErr result IsOfPut };

    /// Removes the manifest under an id. It is Ok too where none is stored under it.
    fn remove_manifest(&mut self, alloc: Global, id: u64) -> Result<(), StoreError>
        ensures counts { IsCall (faults self.old) (faults self.new) (calls self.old) (calls self.new) result }
        ensures removed { WhereModelled (Removes (RemoveManifest id) result) (objects self.old) (objects self.new) }
        ensures refusals { IfErr result IsOfList };

    /// The greatest id of a stored log file above `after`, or `after` where there is none.
    fn last_log(&mut self, alloc: Global, after: u64) -> Result<u64, StoreError>
        ensures counts { IsCall (faults self.old) (faults self.new) (calls self.old) (calls self.new) result }
        ensures kept { objects self.new ≡ objects self.old }
        ensures found { IfSome (objects self.old) (λ o. IfOk result (λ last. last ≡ last_log after o)) }
        ensures refusals { IfErr result IsOfList };

    /// A log file, with its batches shared. It answers `NotFound` where none is stored under the id.
    fn read_log(&mut self, alloc: Global, id: u64) -> Result<LogFile, StoreError>
        ensures counts { IsCall (faults self.old) (faults self.new) (calls self.old) (calls self.new) result }
        ensures kept { objects self.new ≡ objects self.old }
        ensures found { IfSome (objects self.old) (λ o. Finds (log_at id o) result) }
        ensures refusals { IfErr result IsOfRead };

    /// Stores batches as a log file under an id. It answers `Exists` where one is stored under it.
    fn put_log(&mut self, alloc: Global, id: u64, batches: &[Batch]) -> Result<(), StoreError>
        ensures counts { IsCall (faults self.old) (faults self.new) (calls self.old) (calls self.new) result }
        ensures put { WhereModelled (Puts (PutLog id batches.now) result) (objects self.old) (objects self.new) }
        ensures refusals { IfErr result IsOfPut };

    /// Removes the log file under an id. It is Ok too where none is stored under it.
    fn remove_log(&mut self, alloc: Global, id: u64) -> Result<(), StoreError>
        ensures counts { IsCall (faults self.old) (faults self.new) (calls self.old) (calls self.new) result }
        ensures removed { WhereModelled (Removes (RemoveLog id) result) (objects self.old) (objects self.new) }
        ensures refusals { IfErr result IsOfList };

    /// A table, with its batches and indexes shared. It answers `NotFound` where none is stored under the id.
    fn read_table(&mut self, alloc: Global, id: TableId) -> Result<Table, StoreError>
        ensures counts { IsCall (faults self.old) (faults self.new) (calls self.old) (calls self.new) result }
        ensures kept { objects self.new ≡ objects self.old }
        ensures found { IfSome (objects self.old) (λ o. Finds (table_at id o) result) }
        ensures refusals { IfErr result IsOfRead };

    /// Stores a table under an id. It answers `Exists` where one is stored under it.
    fn put_table(&mut self, alloc: Global, id: TableId, table: &Table) -> Result<(), StoreError>
        ensures counts { IsCall (faults self.old) (faults self.new) (calls self.old) (calls self.new) result }
        ensures put { WhereModelled (Puts (PutTable id table.now) result) (objects self.old) (objects self.new) }
        ensures refusals { IfErr result IsOfPut };

    /// Removes the table under an id. It is Ok too where none is stored under it.
    fn remove_table(&mut self, alloc: Global, id: TableId) -> Result<(), StoreError>
        ensures counts { IsCall (faults self.old) (faults self.new) (calls self.old) (calls self.new) result }
        ensures removed { WhereModelled (Removes (RemoveTable id) result) (objects self.old) (objects self.new) }
        ensures refusals { IfErr result IsOfList };

    /// The ids of all objects.
    fn list(&mut self, alloc: Global) -> Result<Listing, StoreError>
        ensures counts { IsCall (faults self.old) (faults self.new) (calls self.old) (calls self.new) result }
        ensures kept { objects self.new ≡ objects self.old }
        ensures found { IfSome (objects self.old) (λ o. IfOk result (λ listing. listing ≡ listing_of o)) }
        ensures refusals { IfErr result IsOfList };
}
