// Files that are put whole into a folder, once, and stay there after a crash.
ghost use Rattle.std.specs.Prelude.{◌≡◌, ◌++◌, IfOk, string_bytes};

use slate_types::NoMemory;
use std::alloc::Global;
use std::fs::{File, Files, OpenFile};
use std::io::{ErrorKind, Read, Write};
use std::os::unix::fs::MetadataExt;
use std::{fs, io};

/// How many bytes of names are read at a time. A name has 255 at most.
const NAMES_ROOM: usize = 8192;

/// A folder of the system's, by its path.
pub(crate) struct Folder<R: Files + Copy> {
    files: R,
    /// It ends in a slash.
    path: String,
}

impl<R: Files + Copy + Drop> Drop for Folder<R> {
    fn drop(self) {
        let Folder { files: _, path: _ } = self;
    }
}

impl<R: Files + Copy> Folder<R> {
    /// The folder `name` in the directory `path`. Those that aren't there are made, and the folder is synced: what is
    /// listed in it now is there after a crash.
    pub(crate) fn open(files: R, alloc: Global, path: &str, name: &str) -> io::Result<Folder<R>> {
        let path = format!(in alloc; "{path}/{name}/")?;
        make_folders(&files, alloc, path.as_str())?;
        sync_folder(&files, path.as_str())?;
        Ok(Folder { files, path })
    }

    /// The path of a file of this folder.
    pub(crate) fn path_of(&self, alloc: Global, name: &str) -> Result<String, NoMemory>
        ensures { IfOk result (λ path. string_bytes path ≡ string_bytes self.now.path ++ name.now) }
    {
        let folder = self.path.as_str();
        Ok(format!(in alloc; "{folder}{name}")?)
    }

    /// Puts a file with these bytes at a path in this folder, whole or not at all. It answers an error of the kind
    /// `AlreadyExists` where a file is there. After Ok it is there after a crash; after another error it may be.
    pub(crate) fn put(&self, alloc: Global, path: &str, bytes: &[u8]) -> io::Result<()> {
        let (file, temporary) = self.create_temporary(alloc, path)?;
        let linked = self.write_and_link(file, temporary.as_str(), path, bytes);
        let _ = fs::remove_file(&self.files, temporary.as_str());
        linked?;
        self.sync()
    }

    /// A new file beside the one at this path, for the bytes that it will have: its path ends in `#` and a number.
    fn create_temporary(&self, alloc: Global, path: &str) -> io::Result<(R::File, String)> {
        for number in 0..u64::MAX {
            let temporary = format!(in alloc; "{path}#{number}")?;
            match File::create_new(&self.files, temporary.as_str()) {
                Ok(file) => return Ok((file, temporary)),
                Err(error) if error.kind() == ErrorKind::AlreadyExists => {}
                Err(error) => return Err(error),
            }
        }
        Err(io::Error::from(ErrorKind::AlreadyExists))
    }

    /// Writes a new file, and gives it its name once its bytes are on the disk.
    fn write_and_link(
        &self,
        mut file: R::File,
        temporary: &str,
        path: &str,
        bytes: &[u8],
    ) -> io::Result<()> {
        file.write_all(bytes)?;
        file.sync_all()?;
        match fs::hard_link(&self.files, temporary, path) {
            Err(_) if self.is_same_file(temporary, path) => Ok(()),
            linked => linked,
        }
    }

    /// Whether both paths lead to one file. So a link was made whose answer was lost, as it may be over a network.
    fn is_same_file(&self, first: &str, second: &str) -> bool {
        match (
            fs::metadata(&self.files, first),
            fs::metadata(&self.files, second),
        ) {
            (Ok(first), Ok(second)) => first.dev() == second.dev() && first.ino() == second.ino(),
            _ => false,
        }
    }

    /// The bytes of the file at a path.
    pub(crate) fn read(&self, alloc: Global, path: &str) -> io::Result<Vec<u8>> {
        fs::read(&(self.files, alloc), path)
    }

    /// Removes the file at a path. It is Ok too where none is there. After Ok none is there after a crash.
    pub(crate) fn remove(&self, path: &str) -> io::Result<()> {
        match fs::remove_file(&self.files, path) {
            Err(error) if error.kind() == ErrorKind::NotFound => Ok(()),
            Err(error) => Err(error),
            Ok(()) => self.sync(),
        }
    }

    /// What `read_name` makes of the names in this folder, in no order. Names of which it makes nothing are left out.
    pub(crate) fn read_names<K: Drop, F: Fn(&[u8]) -> Option<K>>(
        &self,
        alloc: Global,
        read_name: F,
    ) -> io::Result<Vec<K>>
        requires { F.IsAlwaysCallable read_name }
    {
        let mut found = Vec::new(alloc);
        let mut folder = self.files.open_dir(self.path.as_str())?;
        let mut names = [0; NAMES_ROOM];
        for _ in 0..u64::MAX {
            let count = folder.read(&mut names)?;
            if count == 0 {
                break;
            }
            for name in names[..count].split(|byte| *byte == 0) {
                if let Some(id) = read_name(name) {
                    found.push(id)?;
                }
            }
        }
        Ok(found)
    }

    /// Waits until the names in this folder are on the disk.
    fn sync(&self) -> io::Result<()> {
        sync_folder(&self.files, self.path.as_str())
    }
}

fn sync_folder<R: Files>(files: &R, path: &str) -> io::Result<()> {
    fs::open(files, path)?.sync_all()
}

/// Makes the folders of a path that aren't there, and waits until each that was made is on the disk.
fn make_folders<R: Files>(files: &R, alloc: Global, path: &str) -> io::Result<()> {
    let mut folder = String::new(alloc);
    for part in path.split('/') {
        folder.push_str(part)?;
        if !part.is_empty() && make_folder(files, folder.as_str())? {
            let above = format!(in alloc; "{}/..", folder.as_str())?;
            sync_folder(files, above.as_str())?;
        }
        folder.push('/')?;
    }
    Ok(())
}

/// Makes a folder, unless it is there. It answers whether it was made.
fn make_folder<R: Files>(files: &R, path: &str) -> io::Result<bool> {
    match fs::create_dir(files, path) {
        Ok(()) => Ok(true),
        Err(error) => match fs::metadata(files, path) {
            Ok(found) if found.is_dir() => Ok(false),
            Ok(_) => Err(io::Error::from(ErrorKind::NotADirectory)),
            Err(_) => Err(error),
        },
    }
}
