//! The program `slate_cases`: runs scripts and calls of the library from files, and names those files that didn't come
//! out as they say. It takes the name of a folder, or no word, for the folder in which it runs. `docs/FORMATS.md` has the
//! forms of the files.
#![tactic(auto)]

mod calls;
mod cases;
mod databases;
mod ending_files;
mod failures;
mod feeds;
mod folders;
mod fronts;
mod handles;
mod polled;
mod readers;
mod routers;
mod sessions;
mod streams;
mod transactions;
mod trials;

use cases::Case;
use ending_files::EndingFiles;
use failures::Failure;
use std::cell::Cell;
use std::process::ExitCode;
use std::rt::Clock;
use std::sync::Wait;
use std::thread::Threads;
use std::{env, io};

fn main(rt: HostRuntime) -> ExitCode {
    match run_folder(&rt, rt) {
        Ok(true) => ExitCode::SUCCESS,
        Ok(false) => ExitCode::FAILURE,
        Err(error) => {
            let _ = eprintln!(rt; "slate_cases: {error}");
            ExitCode::FAILURE
        }
    }
}

/// Runs the files of the folder that the command line names, with threads and locks by `waiting`. It answers whether all came out as
/// they were to.
fn run_folder<R: Threads + Wait + Clock + Sync + Copy>(
    rt: &HostRuntime,
    waiting: R,
) -> io::Result<bool> {
    let folder = read_folder(rt)?;
    let names = folders::case_names(rt, folder.as_str())?;
    let mut failed = 0u64;
    for name in &names {
        if let Err(failure) = run_file(rt, waiting, folder.as_str(), name.as_str()) {
            println!(rt; "{name}: {failure}")?;
            failed = failed.saturating_add(1);
        }
    }
    let count = names.len();
    println!(rt; "{count} cases ran, {failed} failed")?;
    Ok(failed == 0)
}

/// The word of the command line, or the folder in which the program runs.
fn read_folder(rt: &HostRuntime) -> io::Result<String> {
    match env::args(rt)?.nth(1) {
        Some(folder) => Ok(folder),
        None => Ok(String::from_str(rt.alloc(), ".")?),
    }
}

/// Runs the case or the calls of one file.
fn run_file<R: Threads + Wait + Clock + Sync + Copy>(
    rt: &HostRuntime,
    waiting: R,
    folder: &str,
    name: &str,
) -> Result<(), Failure> {
    let text = folders::read_file(rt, folder, name)?;
    if name.ends_with(".calls") {
        let left = Cell::new(u64::MAX);
        let files = EndingFiles {
            rt: *rt,
            left: &left,
        };
        return calls::run_calls(waiting, rt.alloc(), files, &left, text.as_slice());
    }
    let case = Case::parse(rt.alloc(), text.as_slice())?;
    trials::run_case(&waiting, rt.alloc(), case)
}
