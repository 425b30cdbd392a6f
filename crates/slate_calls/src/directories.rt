// The subject `directory`: two stores over one directory.
use crate::answers::Answer;
use crate::call_line::CallLine;
use crate::store_calls::call_store;
use crate::subjects::Subject;
use slate_directory::{DirectoryStore, open_directory};
use std::alloc::Global;
use std::fs::Files;
use std::{fs, io};

/// The folder in which the directory lies.
const FOLDER: &str = "slate_directory";

#[derive(Clone, Copy)]
enum Call {
    Open,
    OpenOther,
    Store,
    Other,
    Remove,
    File,
    PutFile,
}

const CALLS: &[(&[u8], Call)] = &[
    (b"open", Call::Open),
    (b"open_other", Call::OpenOther),
    (b"store", Call::Store),
    (b"other", Call::Other),
    (b"remove", Call::Remove),
    (b"file", Call::File),
    (b"put_file", Call::PutFile),
];

/// The stores that are open over the system's files.
pub struct Directory<F: Files + Copy> {
    files: F,
    store: Option<DirectoryStore<F>>,
    other: Option<DirectoryStore<F>>,
}

impl<F: Files + Copy> Drop for Directory<F> {
    fn drop(self) {
        let Directory {
            files: _,
            store: _,
            other: _,
        } = self;
    }
}

impl<F: Files + Copy> Directory<F> {
    /// No store, and no directory.
    pub fn new(alloc: Global, files: F) -> Directory<F> {
        let _ = fs::remove_dir_all(&(files, alloc), FOLDER);
        Directory {
            files,
            store: None,
            other: None,
        }
    }

    fn open(&self, line: &mut CallLine<'_>) -> Option<DirectoryStore<F>> {
        let path = path_of(line)?;
        let opened = open_directory(self.files, line.alloc(), path.as_str());
        line.made(opened)
    }

    fn remove(&self, alloc: Global) -> io::Result<()> {
        fs::remove_dir_all(&(self.files, alloc), FOLDER)
    }

    /// Prints the bytes of a file.
    fn read(&self, line: &mut CallLine<'_>) {
        if let Some(path) = path_of(line) {
            match fs::read(&(self.files, line.alloc()), path.as_str()) {
                Ok(bytes) => line.print_bytes(bytes.as_slice()),
                Err(_) => line.print_text("absent"),
            }
        }
    }

    /// Writes the bytes of a file.
    fn write(&self, line: &mut CallLine<'_>) {
        if let Some(path) = path_of(line) {
            let bytes = line.bytes();
            fs::write(&self.files, path.as_str(), bytes.as_slice()).print(line);
        }
    }
}

impl<F: Files + Copy> Subject for Directory<F> {
    fn anew(&self, alloc: Global) -> Directory<F> {
        Directory::new(alloc, self.files)
    }

    fn call(&mut self, line: &mut CallLine<'_>) {
        match line.name(CALLS) {
            Some(Call::Open) => self.store = self.open(line),
            Some(Call::OpenOther) => self.other = self.open(line),
            Some(Call::Store) => call_of(&mut self.store, line),
            Some(Call::Other) => call_of(&mut self.other, line),
            Some(Call::Remove) => self.remove(line.alloc()).print(line),
            Some(Call::File) => self.read(line),
            Some(Call::PutFile) => self.write(line),
            None => {}
        }
    }
}

fn call_of<F: Files + Copy>(store: &mut Option<DirectoryStore<F>>, line: &mut CallLine<'_>) {
    match store {
        Some(store) => call_store(store, line),
        None => line.unread(),
    }
}

impl Answer for io::Error {
    fn print(self, line: &mut CallLine<'_>) {
        line.print_text("failed");
    }
}

/// A path in the folder.
fn path_of(line: &mut CallLine<'_>) -> Option<String> {
    let path = line.text();
    let whole = format!(in line.alloc(); "{FOLDER}/{path}");
    line.made(whole)
}
