//! The database and its reader as programs use them: a `Db` that threads share, its snapshots and transactions, and a
//! `DbReader` that follows a database. It passes on what their calls are given and answer.
#![tactic(auto)]

mod absent;
mod builders;
mod caches;
mod databases;
mod metadata_ops;
mod read_ops;
mod reader_builders;
mod readers;
mod shared;
mod shared_stores;
mod snapshots;
mod stops;
mod telling;
mod transaction_ops;
mod transactions;
mod upkeep;
mod write_handles;
mod write_ops;

pub use absent::{NoExtractor, NoMerge};
pub use builders::DbBuilder;
pub use caches::CacheTarget;
pub use databases::Db;
pub use metadata_ops::{DbCacheManagerOps, DbMetadataOps};
pub use read_ops::DbReadOps;
pub use reader_builders::DbReaderBuilder;
pub use readers::DbReader;
pub use shared_stores::SharedStore;
pub use slate_errors::{CloseReason, Error, ErrorKind, SlateError};
pub use slate_follow::{DbReaderMode, DbReaderOptions, PollAnswer};
pub use slate_held::{Held, HeldReader};
pub use slate_receivers::{Clock, HandClock, StatusReceiver, SystemClock};
pub use slate_rows::{DbIterator, DbRecencyIterator};
pub use slate_seqtrack::FindOption;
pub use slate_status::{DbStatus, DurableAnswer};
pub use slate_store::{MemoryStore, Store, VersionedManifest};
pub use slate_types::{
    ByteRange, CloseOptions, DurabilityLevel, FlushOptions, FlushType, IterationOrder, KeyBound,
    KeyValue, MergeFault, MergeOperator, MergeOptions, NoMemory, PrefixExtractor, PutOptions,
    ReadOptions, ScanOptions, Seq, WriteBatch, WriteOptions,
};
pub use slate_writer::{BoardWatch, IsolationLevel, WriterOptions};
pub use snapshots::DbSnapshot;
pub use stops::Stop;
pub use transaction_ops::DbTransactionOps;
pub use transactions::DbTransaction;
pub use write_handles::WriteHandle;
pub use write_ops::DbWriteOps;
