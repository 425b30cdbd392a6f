//! The objects of a store, and the store itself: manifests and log files under rising ids.
#![tactic(auto)]

mod checkpoints;
mod commits;
mod compactions;
mod faulty_store;
mod log_files;
mod memory_store;
mod objects;
mod reader_modes;
mod refusals;
mod stores;
mod sweeps;

pub use checkpoints::{
    find_checkpoint, next_with_checkpoint, next_with_end, next_without_checkpoint,
};
pub use commits::{
    COMMIT_TRIES, delete_checkpoint, put_next, read_latest, refresh_checkpoint, replace_checkpoint,
    write_checkpoint,
};
pub use compactions::compact_tables;
pub use faulty_store::{FailingCall, FaultyStore};
pub use log_files::LogFile;
pub use memory_store::MemoryStore;
pub use objects::{Checkpoint, Listing, Manifest, TableId, VersionedManifest};
pub use reader_modes::DbReaderMode;
pub use refusals::StoreRefusal;
pub use slate_reads::Table;
pub use slate_types::{StoreError, StoreFault};
pub use stores::Store;
pub use sweeps::{sweep, to_sweep};
