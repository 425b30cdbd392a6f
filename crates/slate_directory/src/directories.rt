// The store over a directory.
use crate::DirectoryBlobs;
use slate_blobs::BlobStore;
use slate_store::TableId;
use std::alloc::Global;
use std::fs::Files;
use std::io;
use std::io::ErrorKind;

/// The store over the files of a directory.
pub type DirectoryStore<R> = BlobStore<DirectoryBlobs<R, u64>, DirectoryBlobs<R, TableId>>;

/// The store over a directory, laid out after SlateDB: `manifest/ID.manifest`, `wal/ID.sst` and `compacted/ID.sst`, where
/// an id is 20 decimal digits, and that of a table two of these with `-` between. The directory and the three folders
/// are made where they aren't there, with the directories above.
///
/// It answers the system's error where one of them can't be made, opened or synced, and for want of memory one of the
/// kind `OutOfMemory`; folders may have been made then.
pub fn open_directory<R: Files + Copy>(
    files: R,
    alloc: Global,
    path: &str,
) -> io::Result<DirectoryStore<R>> {
    if path.is_empty() {
        return Err(io::Error::from(ErrorKind::NotFound));
    }
    Ok(BlobStore::new(
        DirectoryBlobs::open(files, alloc, path, "manifest", ".manifest")?,
        DirectoryBlobs::open(files, alloc, path, "wal", ".sst")?,
        DirectoryBlobs::open(files, alloc, path, "compacted", ".sst")?,
    ))
}
