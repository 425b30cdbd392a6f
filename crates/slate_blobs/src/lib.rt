//! Bytes under ids in folders, and a store whose objects they are.
#![tactic(auto)]

mod answers;
mod blob_stores;
mod blobs;
mod kept_tables;
mod memory_blobs;
mod table_folders;

pub use blob_stores::{BlobStore, TABLE_BYTES};
pub use blobs::Blobs;
pub use memory_blobs::MemoryBlobs;
