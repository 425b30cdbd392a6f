//! The program `slate_example`: how a program calls the library. It prints what each example finds: a first one, then one for a
//! read service, and one for a service whose readers view without a lock.
#![tactic(auto)]

mod first;
mod read_service;
mod reader_threads;

use bytes::Bytes;
use slate_db::Error;
use std::alloc::Global;
use std::io::{self, Print};
use std::rt::Clock;
use std::sync::Wait;
use std::thread::Threads;

fn main(rt: HostRuntime) -> io::Result<()> {
    print_first(rt, rt.alloc())?;
    print_service(rt, rt.alloc())?;
    print_readers(rt, rt.alloc())
}

fn print_first<R: Print + Wait + Clock + Copy>(rt: R, alloc: Global) -> io::Result<()> {
    match first::put_and_get(rt, alloc) {
        Ok(found) => print_values(&rt, &found),
        Err(error) => print_error(&rt, &error),
    }
}

fn print_values(rt: &impl Print, found: &[Option<Bytes>]) -> io::Result<()> {
    for value in found {
        match value {
            Some(value) => println!(rt; "first: a value of {} bytes", value.len())?,
            None => println!(rt; "first: no value")?,
        }
    }
    Ok(())
}

fn print_service<R>(rt: R, alloc: Global) -> io::Result<()>
where
    R: Print + Threads + Wait + Clock + Copy + Send + Sync,
{
    match read_service::serve_transfers(rt, alloc) {
        Ok((is_served, last)) => {
            println!(&rt;
                "service: served whole states {is_served}, and bob {} at last",
                last.bob
            )
        }
        Err(error) => print_error(&rt, &error),
    }
}

fn print_readers<R>(rt: R, alloc: Global) -> io::Result<()>
where
    R: Print + Threads + Wait + Copy + Send + Sync,
{
    match reader_threads::serve_without_lock(rt, alloc) {
        Ok((are_whole, balances)) => {
            println!(&rt; "readers: served whole states {are_whole}, and bob {balances:?} at last")
        }
        Err(error) => print_error(&rt, &error),
    }
}

fn print_error(rt: &impl Print, error: &Error) -> io::Result<()> {
    println!(rt; "{}", error.kind())
}
