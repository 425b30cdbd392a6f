//! The handle that writes: its batches, its flushes to the log and to tables, and its reads.
#![tactic(auto)]

mod board;
mod closes;
mod flushes;
mod key_prefixes;
mod memories;
mod merges;
mod opens;
mod reads;
mod recency_scans;
mod refreshes;
mod scans;
mod sizes;
mod states;
mod tables;
mod tasks;
mod times;
mod transaction_reads;
mod transactions;
mod unflushed;
mod writes;

pub use board::BoardWatch;
pub use opens::WriterOptions;
pub use slate_board::BoardView;
pub use slate_model::Written;
pub use slate_transactions::IsolationLevel;
pub use states::WriterState;
pub use transactions::Transaction;
pub use writes::WriteRefusal;
