//! A database in a directory: blobs that are files, and the store over them.
#![tactic(auto)]

mod directories;
mod directory_blobs;
mod folders;
mod laws;
mod names;

pub use directories::{DirectoryStore, open_directory};
pub use directory_blobs::DirectoryBlobs;
pub use laws::names_stay_in_their_folder;
pub use names::FileId;
