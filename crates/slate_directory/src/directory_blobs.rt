// Keeping the blobs of a folder as files.
ghost use Rattle.std.specs.Prelude.{◌≡◌, ◌≤◌, ◌⊎◌, ◌++◌, IfOk, string_bytes};
ghost use Rattle.slate_types.specs.Counts.{HasRisen};
ghost use Rattle.slate_types.specs.declared.store_errors.StoreError.TheVariants.{Failed};
ghost use Rattle.slate_store.specs.Calls.{IsOfList};

use crate::FileId;
use crate::folders::Folder;
use crate::names::read_name;
use bytes::Bytes;
use slate_blobs::Blobs;
use slate_types::{CallCount, NoMemory, Seq, StoreError};
use std::alloc::Global;
use std::fs::Files;
use std::io;
use std::io::ErrorKind;
use std::marker::PhantomData;

/// The blobs of a folder as files, one a file, each under its id in 20 decimal digits. Files of other names are left
/// alone. They aren't modelled, since what the system's files hold isn't known to the check.
///
/// A put and a removal that answer Ok have taken place for good, also where the process or the system crashes then; a
/// put that was broken off has put the whole blob or none. Any number of processes may use a folder at once: of two puts
/// under one id one answers `Exists`.
///
/// A call is one of the system's, or a few; a put waits for the disk twice, and a removal once. A listing sorts the names of
/// the folder.
pub struct DirectoryBlobs<R: Files + Copy, K: FileId> {
    folder: Folder<R>,
    extension: &'static str,
    count: CallCount,
    ids: PhantomData<K>,
}

impl<R: Files + Copy + Drop, K: FileId + Drop> Drop for DirectoryBlobs<R, K> {
    fn drop(self) {
        let DirectoryBlobs {
            folder: _,
            extension: _,
            count: _,
            ids: _,
        } = self;
    }
}

impl<R: Files + Copy, K: FileId> DirectoryBlobs<R, K> {
    /// The blobs of the folder `name` in the directory `path`, in files with this extension, which has its dot. Folders that aren't there
    /// are made. It answers the system's error where one can't be made, opened or synced.
    pub fn open(
        files: R,
        alloc: Global,
        path: &str,
        name: &str,
        extension: &'static str,
    ) -> io::Result<DirectoryBlobs<R, K>>
        ensures { IfOk result (λ blobs. blobs.count ≡ record { made = 0; faults = 0 }) }
    {
        Ok(DirectoryBlobs {
            folder: Folder::open(files, alloc, path, name)?,
            extension,
            count: CallCount::new(),
            ids: PhantomData,
        })
    }

    /// The path of an id's file.
    fn path_of(&self, alloc: Global, id: K) -> Result<String, NoMemory>
        ensures { IfOk result (λ path. string_bytes path ≡ string_bytes self.now.folder.path ++ (K.stem id ++ self.now.extension.now)) }
    {
        let stem = id.to_stem(alloc)?;
        let (stem, extension) = (stem.as_str(), self.extension);
        let name = format!(in alloc; "{stem}{extension}")?;
        self.folder.path_of(alloc, name.as_str())
    }

    /// The ids of all files, rising.
    fn ids(&self, alloc: Global) -> io::Result<Vec<K>> {
        let extension = self.extension.as_bytes();
        let mut ids = self
            .folder
            .read_names(alloc, |name| read_name(name, extension))?;
        ids.sort_unstable();
        Ok(ids)
    }

    /// Counts a failure of the system.
    fn fail(&mut self) -> StoreError
        ensures made { self.new.count.made ≡ self.old.count.made }
        ensures never_falls { self.old.count.faults ≤ self.new.count.faults }
        ensures risen { HasRisen self.old.count.faults self.new.count.faults }
        ensures failed { result ≡ Failed }
    {
        self.count.count_fault();
        StoreError::Failed
    }

    /// What a call that changes nothing answers where it came to this error.
    fn refuse(&mut self, kind: ErrorKind) -> StoreError
        ensures made { self.new.count.made ≡ self.old.count.made }
        ensures never_falls { self.old.count.faults ≤ self.new.count.faults }
        ensures risen { result ≡ Failed → HasRisen self.old.count.faults self.new.count.faults }
        ensures stays { (self.new.count.faults ≡ self.old.count.faults) ⊎ (result ≡ Failed) }
        ensures refusal { IsOfList result }
    {
        if kind == ErrorKind::OutOfMemory {
            StoreError::NoMemory
        } else {
            self.fail()
        }
    }
}

impl<R: Files + Copy, K: FileId> Blobs<K> for DirectoryBlobs<R, K> {
    ghost use Rattle.std.specs.Prelude.{None};

    ghost held = { λ _. None };

    ghost faults = { λ s. s.count.faults };

    ghost calls = { λ s. s.count.made };

    fn put_if_absent(&mut self, alloc: Global, id: K, bytes: &[u8]) -> Result<(), StoreError> {
        self.count.next_call();
        let path = self.path_of(alloc, id)?;
        match self.folder.put(alloc, path.as_str(), bytes) {
            Ok(()) => Ok(()),
            Err(error) if error.kind() == ErrorKind::AlreadyExists => Err(StoreError::Exists),
            Err(_) => Err(self.fail()),
        }
    }

    fn get(&mut self, alloc: Global, id: K) -> Result<Bytes, StoreError> {
        self.count.next_call();
        let path = self.path_of(alloc, id)?;
        match self.folder.read(alloc, path.as_str()) {
            Ok(bytes) => Ok(Bytes::from_vec(bytes).map_err(NoMemory::from)?),
            Err(error) if error.kind() == ErrorKind::NotFound => Err(StoreError::NotFound),
            Err(error) => Err(self.refuse(error.kind())),
        }
    }

    fn list(&mut self, alloc: Global) -> Result<Seq<K>, StoreError> {
        self.count.next_call();
        match self.ids(alloc) {
            Ok(ids) => Ok(Seq::of(ids)),
            Err(error) => Err(self.refuse(error.kind())),
        }
    }

    fn remove(&mut self, alloc: Global, id: K) -> Result<(), StoreError> {
        self.count.next_call();
        let path = self.path_of(alloc, id)?;
        match self.folder.remove(path.as_str()) {
            Ok(()) => Ok(()),
            Err(_) => Err(self.fail()),
        }
    }
}
