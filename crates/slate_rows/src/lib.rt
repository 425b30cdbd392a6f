//! Rows, batches and reads: plain reads of a key, scans of a range, iterators over what they found, and varints. The
//! types and the plain reads stand in crates of their own below, and are passed on.
#![tactic(auto)]

mod entries;
mod first_scans;
mod index_keys;
mod indexed_scans;
mod iterators;
mod recency_scans;
mod scans;
mod seeks;
mod table_walks;
mod varints;

pub use entries::{RowEntry, ValueDeletable};
pub use first_scans::scan_first;
pub use index_keys::compute_index_key;
pub use indexed_scans::{add_range_keys, order_keys, scan_indexed};
pub use iterators::DbIterator;
pub use recency_scans::{DbRecencyIterator, recency, recency_indexed};
pub use scans::{add_found, scan};
pub use seeks::SeekFault;
pub use slate_reads::{
    Indexed, IndexedTable, Table, prepare_max_seq, read, read_indexed, read_key,
};
pub use slate_types::{
    Batch, ByteRange, CloseOptions, ConcatOperator, DurabilityLevel, FixedPrefix, FlushOptions,
    FlushType, IterationOrder, KeyBound, KeyOp, KeyValue, MergeFault, MergeOperator, MergeOptions,
    Name, NoMemory, Op, PrefixExtractor, PutOptions, ReadFault, ReadOptions, ScanOptions, Seq,
    WriteBatch, WriteOptions,
};
pub use varints::{VarintFault, decode_varint, encode_varint, varint_len};
