// The traits of what a database tells of itself, and of its caches.
use crate::CacheTarget;
use slate_errors::Error;
use slate_receivers::StatusReceiver;
use slate_status::DbStatus;
use slate_store::{TableId, VersionedManifest};
use std::alloc::Global;
use std::sync::Wait;

/// What a database or a reader tells of itself, open or closed. SlateDB's trait of this name. Each call waits for a lock.
pub trait DbMetadataOps {
    /// A copy of the manifest that it goes by. It answers `NoMemory` alone.
    fn manifest<R: Wait>(&self, rt: &R, alloc: Global) -> Result<VersionedManifest, Error>;

    /// A receiver of its status, which may go to another thread and waits there for changes. It takes no memory, and answers
    /// `NoMemory` where too many share the status.
    fn subscribe<R: Wait>(&self, rt: &R) -> Result<StatusReceiver, Error>;

    /// A copy of its status: the durable number, the manifest that it goes by, the prefixes of what isn't in tables, and why
    /// it closed, where it did. It answers `NoMemory` alone.
    fn status<R: Wait>(&self, rt: &R, alloc: Global) -> Result<DbStatus, Error>;
}

/// The calls on caches of tables. SlateDB's trait of this name. Nothing is cached here, so that a call answers Ok while it is
/// open, and else `Closed` or the error that closed it. Each call waits for a lock, and takes no memory.
pub trait DbCacheManagerOps {
    /// Would read a table into a cache.
    fn warm_sst<R: Wait>(
        &self,
        rt: &R,
        table: TableId,
        targets: &[CacheTarget],
    ) -> Result<(), Error>;

    /// Would let a cache forget a table.
    fn evict_cached_sst<R: Wait>(&self, rt: &R, table: TableId) -> Result<(), Error>;
}
