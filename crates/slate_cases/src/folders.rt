// Reading the files of a folder: the names of those that are run, and the bytes of one.
use std::{fs, io};

/// The names of the case files and the files of calls in a folder, in order.
pub fn case_names(rt: &HostRuntime, folder: &str) -> io::Result<Vec<String>> {
    let mut names = Vec::new(rt.alloc());
    for entry in fs::read_dir(rt, folder)? {
        let entry = entry?;
        let name = entry.file_name();
        if name.ends_with(".case") || name.ends_with(".calls") {
            names.push(String::from_str(rt.alloc(), name)?)?;
        }
    }
    names.sort()?;
    Ok(names)
}

/// The bytes of a file in a folder.
pub fn read_file(rt: &HostRuntime, folder: &str, name: &str) -> io::Result<Vec<u8>> {
    let path = format!(in rt.alloc(); "{folder}/{name}")?;
    fs::read(rt, path.as_str())
}
