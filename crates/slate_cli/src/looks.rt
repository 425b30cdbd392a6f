// The commands that look at a directory and change nothing.
use crate::{NO_DIRECTORY, report};
use bytes::Bytes;
use slate_blobs::Blobs;
use slate_check::{
    Soundness, check_soundness, print_soundness, show_checkpoints, show_logs, show_manifests,
    show_sweep, show_tables,
};
use slate_directory::{DirectoryBlobs, DirectoryStore, FileId, open_directory};
use slate_live::Outcome;
use slate_objects::{DecodeError, DecodeFault, decode_log, decode_manifest, decode_table};
use slate_store::{Store, StoreError, StoreFault, StoreRefusal, TableId, to_sweep};
use std::alloc::Global;
use std::{fs, io};

/// The exit status where a directory was looked at, and isn't sound or has a damaged file.
const NOT_SOUND: u8 = 1;

/// What came of looking at the files of a directory.
#[derive(Clone, Copy)]
enum Damage {
    /// A file isn't an object. It was named.
    Found,
    /// Each file is an object.
    None,
}

/// Prints whether the objects in the files of a directory are sound, or names the first file that isn't an object. No
/// file and no folder is made or changed. It answers the exit status.
pub(crate) fn check_directory(rt: &HostRuntime, path: &str) -> u8 {
    match open_there(rt, path) {
        Ok(mut store) => check_store(rt, path, &mut store),
        Err(error) => refuse(rt, path, &error),
    }
}

/// Prints the manifests, the checkpoints of the latest one, the log files and the tables in the files of a directory, and
/// what a sweep at a moment would remove, where one is given; or names the first file that isn't an object. No file and no
/// folder is made or changed. It answers the exit status.
pub(crate) fn show_directory(rt: &HostRuntime, path: &str, moment: Option<i64>) -> u8 {
    match open_there(rt, path) {
        Ok(mut store) => show_store(rt, path, &mut store, moment),
        Err(error) => refuse(rt, path, &error),
    }
}

/// The store over a directory whose folders are there.
fn open_there(rt: &HostRuntime, path: &str) -> io::Result<DirectoryStore<HostRuntime>> {
    find_folders(rt, path)?;
    open_directory(*rt, rt.alloc(), path)
}

/// Prints whether a store is sound, or names the first file that isn't an object. It answers the exit status.
fn check_store<S: Store>(rt: &HostRuntime, path: &str, store: &mut S) -> u8 {
    match check_soundness(rt.alloc(), store) {
        Ok(soundness) => print_judged(rt, &soundness),
        Err(error) => name_cause(rt, path, error),
    }
}

/// Prints the objects of a store, and what a sweep at a moment would remove, where one is given, or names the first file
/// that isn't an object. It answers the exit status.
fn show_store<S: Store>(rt: &HostRuntime, path: &str, store: &mut S, moment: Option<i64>) -> u8 {
    let mut text = Vec::new(rt.alloc());
    match write_store(rt.alloc(), store, moment, &mut text) {
        Ok(()) => print_bytes(rt, text.as_slice(), 0),
        Err(error) => name_cause(rt, path, error),
    }
}

/// Writes the objects of a store, a line each, and what a sweep at a moment would remove, where one is given.
fn write_store<S: Store>(
    alloc: Global,
    store: &mut S,
    moment: Option<i64>,
    out: &mut Vec<u8>,
) -> Result<(), StoreError> {
    let listing = store.list(alloc)?;
    show_manifests(alloc, store, listing.manifests.as_slice(), out)?;
    write_checkpoints(alloc, store, out)?;
    show_logs(alloc, store, listing.logs.as_slice(), out)?;
    show_tables(alloc, store, listing.tables.as_slice(), out)?;
    match moment {
        Some(moment) => show_swept(alloc, store, moment, out),
        None => Ok(()),
    }
}

/// Writes the checkpoints of the latest manifest.
fn write_checkpoints<S: Store>(
    alloc: Global,
    store: &mut S,
    out: &mut Vec<u8>,
) -> Result<(), StoreError> {
    match store.latest_manifest(alloc)? {
        Some(latest) => Ok(show_checkpoints(out, latest.manifest.checkpoints.as_slice())?),
        None => Ok(()),
    }
}

/// Writes what a sweep at a moment would remove: nothing, where it would be refused.
fn show_swept<S: Store>(
    alloc: Global,
    store: &mut S,
    moment: i64,
    out: &mut Vec<u8>,
) -> Result<(), StoreError> {
    match to_sweep(alloc, store, moment) {
        Ok(listing) => Ok(show_sweep(out, &listing)?),
        Err(StoreRefusal::NoMemory) => Err(StoreError::NoMemory),
        Err(StoreRefusal::ObjectStoreError(StoreFault::Unavailable)) => Err(StoreError::Failed),
        Err(_) => Ok(()),
    }
}

/// Prints whether a store is sound.
fn print_judged(rt: &HostRuntime, soundness: &Soundness) -> u8 {
    let mut text = Vec::new(rt.alloc());
    if print_soundness(&mut text, soundness).is_err() {
        return report(rt, Outcome::NoMemory);
    }
    let status = match soundness {
        Soundness::Sound(_) => 0,
        Soundness::Unsound(_) => NOT_SOUND,
    };
    print_bytes(rt, text.as_slice(), status)
}

/// Prints bytes. It answers this status, or that of a write fault.
fn print_bytes(rt: &HostRuntime, bytes: &[u8], status: u8) -> u8 {
    let mut out = io::writer(rt);
    if io::Write::write_all(&mut out, bytes).is_ok() {
        status
    } else {
        report(rt, Outcome::WriteFault)
    }
}

/// Whether the three folders of a database are there.
fn find_folders(rt: &HostRuntime, path: &str) -> io::Result<()> {
    for name in ["manifest", "wal", "compacted"] {
        let folder = format!(in rt.alloc(); "{path}/{name}")?;
        if !fs::metadata(rt, folder.as_str())?.is_dir() {
            return Err(io::Error::from(io::ErrorKind::NotADirectory));
        }
    }
    Ok(())
}

/// Says on standard error that a directory can't be used. It answers the exit status.
fn refuse(rt: &HostRuntime, path: &str, error: &io::Error) -> u8 {
    if error.kind() == io::ErrorKind::OutOfMemory {
        return report(rt, Outcome::NoMemory);
    }
    let _ = eprintln!(rt; "slate: the directory {path:?} can't be used: {error}");
    NO_DIRECTORY
}

/// Names the first file of a directory that isn't an object, where a store over it failed, unless memory ran out. It
/// answers the exit status.
fn name_cause(rt: &HostRuntime, path: &str, error: StoreError) -> u8 {
    if error == StoreError::NoMemory {
        return report(rt, Outcome::NoMemory);
    }
    match find_damage(rt, path) {
        Ok(Damage::Found) => NOT_SOUND,
        Ok(Damage::None) => refuse(rt, path, &io::Error::from(io::ErrorKind::Other)),
        Err(error) => refuse(rt, path, &error),
    }
}

/// Looks at each file of a directory, and names the first that isn't an object.
fn find_damage(rt: &HostRuntime, path: &str) -> io::Result<Damage> {
    if let Damage::Found = find_in::<u64>(rt, path, Kind::Manifest)? {
        return Ok(Damage::Found);
    }
    if let Damage::Found = find_in::<u64>(rt, path, Kind::Log)? {
        return Ok(Damage::Found);
    }
    find_in::<TableId>(rt, path, Kind::Table)
}

/// What the files of a folder are.
#[derive(Clone, Copy)]
enum Kind {
    Manifest,
    Log,
    Table,
}

impl Kind {
    fn folder(self) -> &'static str {
        match self {
            Kind::Manifest => "manifest",
            Kind::Log => "wal",
            Kind::Table => "compacted",
        }
    }

    fn extension(self) -> &'static str {
        match self {
            Kind::Manifest => ".manifest",
            Kind::Log | Kind::Table => ".sst",
        }
    }

    /// Why bytes aren't an object of this kind, where they aren't.
    fn fault_of(self, alloc: Global, bytes: Bytes) -> io::Result<Option<DecodeFault>> {
        match self {
            Kind::Manifest => fault_of(decode_manifest(alloc, bytes)),
            Kind::Log => fault_of(decode_log(alloc, bytes)),
            Kind::Table => fault_of(decode_table(alloc, bytes)),
        }
    }
}

/// Looks at each file of a folder, and names the first that isn't an object.
fn find_in<K: FileId + Copy + Ord + Drop>(
    rt: &HostRuntime,
    path: &str,
    kind: Kind,
) -> io::Result<Damage> {
    let alloc = rt.alloc();
    let (folder, extension) = (kind.folder(), kind.extension());
    let mut blobs: DirectoryBlobs<HostRuntime, K> = DirectoryBlobs::open(
        *rt, alloc, path, folder, extension,
    )?;
    let ids = blobs.list(alloc).map_err(error_of)?;
    for id in ids.as_slice() {
        let bytes = blobs.get(alloc, *id).map_err(error_of)?;
        if let Some(fault) = kind.fault_of(alloc, bytes)? {
            return name_file(rt, folder, *id, extension, fault);
        }
    }
    Ok(Damage::None)
}

/// The system's error that stands for a refusal by a folder.
fn error_of(error: StoreError) -> io::Error {
    match error {
        StoreError::NoMemory => io::Error::from(io::ErrorKind::OutOfMemory),
        StoreError::NotFound => io::Error::from(io::ErrorKind::NotFound),
        StoreError::Exists | StoreError::Failed => io::Error::from(io::ErrorKind::Other),
    }
}

/// Why bytes aren't an object, where they aren't.
fn fault_of<T: Drop>(decoded: Result<T, DecodeError>) -> io::Result<Option<DecodeFault>> {
    match decoded {
        Ok(_object) => Ok(None),
        Err(DecodeError::Fault(fault)) => Ok(Some(fault)),
        Err(DecodeError::NoMemory) => Err(io::Error::from(io::ErrorKind::OutOfMemory)),
    }
}

/// Prints which file isn't an object, and why.
fn name_file<K: FileId + Drop>(
    rt: &HostRuntime,
    folder: &str,
    id: K,
    extension: &str,
    fault: DecodeFault,
) -> io::Result<Damage> {
    let stem = id
        .to_stem(rt.alloc())
        .map_err(|_| io::Error::from(io::ErrorKind::OutOfMemory))?;
    let stem = stem.as_str();
    println!(rt; "damaged: {folder}/{stem}{extension}: {fault}")?;
    Ok(Damage::Found)
}
