//! What several crates speak of: batches and their operations, ranges of keys, options, operators, and the faults of
//! reads and of stores.
#![tactic(auto)]

mod batches;
mod counts;
mod memory;
mod operators;
mod options;
mod ranges;
mod read_faults;
mod scan_options;
mod shared_lists;
mod store_errors;

pub use batches::{Batch, KeyOp, KeyValue, Op, WriteBatch};
pub use counts::CallCount;
pub use memory::NoMemory;
pub use operators::{ConcatOperator, FixedPrefix, MergeFault, MergeOperator, PrefixExtractor};
pub use options::{
    CloseOptions, DurabilityLevel, FlushOptions, FlushType, MergeOptions, PutOptions, ReadOptions,
    WriteOptions,
};
pub use ranges::{ByteRange, KeyBound};
pub use read_faults::ReadFault;
pub use scan_options::{IterationOrder, ScanOptions};
pub use shared_lists::{Name, Seq};
pub use store_errors::{StoreError, StoreFault};
