//! Plain reads: what a line of batches says of a key, and tables that find it by an index.
#![tactic(auto)]

mod indexed_reads;
mod reads;
mod shared_tables;
mod tables;
mod walks;
mod windows;

pub use indexed_reads::{Indexed, add_newest_versions, read_indexed, read_key};
pub use reads::{Version, add_versions, fold, is_base, is_within, prepare_max_seq, read};
pub use shared_tables::Table;
pub use tables::{IndexedTable, ops_size};
pub use walks::{as_bound, is_crossed};
