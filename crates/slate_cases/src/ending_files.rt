// The system's files as a process finds them that ends in the middle: after some calls each one fails.
use std::alloc::Allocator;
use std::cell::Cell;
use std::fs::{File, Metadata, OpenFile, OpenOptions};
use std::io;
use std::io::{ErrorKind, Read, Seek, SeekFrom, Write};
use std::rt::Files;

/// How many bytes a call writes at most.
const PIECE: usize = 8;

/// The system's files, and how many calls are left until each fails.
#[derive(Clone, Copy)]
pub struct EndingFiles<'a> {
    pub rt: HostRuntime,
    pub left: &'a Cell<u64>,
}

impl EndingFiles<'_> {
    fn step(&self) -> io::Result<()> {
        step(self.left)
    }
}

fn step(left: &Cell<u64>) -> io::Result<()> {
    match left.get().checked_sub(1) {
        Some(less) => {
            left.set(less);
            Ok(())
        }
        None => Err(io::Error::from(ErrorKind::Other)),
    }
}

/// A file whose calls count too.
pub struct EndingFile<'a> {
    file: File,
    left: &'a Cell<u64>,
}

impl Drop for EndingFile<'_> {
    fn drop(self) {
        let EndingFile { file: _, left: _ } = self;
    }
}

impl<'a> Files for EndingFiles<'a> {
    type File = EndingFile<'a>;

    type Dir = <HostRuntime as Files>::Dir;

    fn open_file(&self, how: &OpenOptions, path: &str) -> io::Result<EndingFile<'a>> {
        self.step()?;
        let file = self.rt.open_file(how, path)?;
        Ok(EndingFile {
            file,
            left: self.left,
        })
    }

    fn open_dir(&self, path: &str) -> io::Result<<HostRuntime as Files>::Dir> {
        self.step()?;
        self.rt.open_dir(path)
    }

    fn metadata(&self, path: &str) -> io::Result<Metadata> {
        self.step()?;
        self.rt.metadata(path)
    }

    fn symlink_metadata(&self, path: &str) -> io::Result<Metadata> {
        self.step()?;
        self.rt.symlink_metadata(path)
    }

    fn copy(&self, from: &str, to: &str) -> io::Result<u64> {
        self.step()?;
        self.rt.copy(from, to)
    }

    fn rename(&self, from: &str, to: &str) -> io::Result<()> {
        self.step()?;
        self.rt.rename(from, to)
    }

    fn remove_file(&self, path: &str) -> io::Result<()> {
        self.step()?;
        self.rt.remove_file(path)
    }

    fn create_dir(&self, path: &str) -> io::Result<()> {
        self.step()?;
        self.rt.create_dir(path)
    }

    fn remove_dir(&self, path: &str) -> io::Result<()> {
        self.step()?;
        self.rt.remove_dir(path)
    }

    fn remove_dir_all<B: Allocator>(&self, alloc: B, path: &str) -> io::Result<()> {
        self.step()?;
        self.rt.remove_dir_all(alloc, path)
    }

    fn hard_link(&self, original: &str, link: &str) -> io::Result<()> {
        self.step()?;
        self.rt.hard_link(original, link)
    }
}

impl Read for EndingFile<'_> {
    fn read(&mut self, buf: &mut [u8]) -> io::Result<usize> {
        step(self.left)?;
        self.file.read(buf)
    }
}

impl Write for EndingFile<'_> {
    fn write(&mut self, buf: &[u8]) -> io::Result<usize> {
        step(self.left)?;
        self.file.write(&buf[..buf.len().min(PIECE)])
    }

    fn flush(&mut self) -> io::Result<()> {
        step(self.left)?;
        self.file.flush()
    }
}

impl Seek for EndingFile<'_> {
    fn seek(&mut self, to: SeekFrom) -> io::Result<u64> {
        step(self.left)?;
        self.file.seek(to)
    }
}

impl OpenFile for EndingFile<'_> {
    fn metadata(&self) -> io::Result<Metadata> {
        step(self.left)?;
        self.file.metadata()
    }

    fn set_len(&self, size: u64) -> io::Result<()> {
        step(self.left)?;
        self.file.set_len(size)
    }

    fn sync_all(&self) -> io::Result<()> {
        step(self.left)?;
        self.file.sync_all()
    }

    fn sync_data(&self) -> io::Result<()> {
        step(self.left)?;
        self.file.sync_data()
    }
}
