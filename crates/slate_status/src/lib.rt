//! The status of a database and the record of its reports. The errors stand in a crate of their own below, and are
//! passed on.
#![tactic(auto)]

mod records;
mod segments;
mod statuses;

pub use records::StatusRecord;
pub use segments::{SegmentPrefix, are_among, copies, listed, union};
pub use slate_errors::{
    CloseCell, CloseFault, CloseReason, Ended, Ending, Error, ErrorKind, RetryReason, SlateError,
    TaskName, write_error,
};
pub use statuses::{DbStatus, DurableAnswer};
