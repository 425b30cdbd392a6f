//! The objects of a store as bytes, and back: a manifest, a log file and a table.
#![tactic(auto)]

mod batches;
mod checksums;
mod faults;
mod formats;
mod manifests;
mod objects;
mod seals;

pub use checksums::crc32;
pub use faults::{DecodeError, DecodeFault};
pub use objects::{
    decode_log, decode_manifest, decode_table, encode_log, encode_manifest, encode_table,
};
