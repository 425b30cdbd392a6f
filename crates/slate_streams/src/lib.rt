//! Where bytes come from and where they go: sources and sinks, in pieces and whole, and those in memory.
#![tactic(auto)]

mod failing;
mod sinks;
mod slice_sources;
mod sources;
mod vec_sinks;
mod whole;

pub use sinks::{Sink, WriteAnswer};
pub use slice_sources::SliceSource;
pub use sources::{ReadAnswer, Source};
pub use vec_sinks::VecSink;
pub use whole::{InputFault, read_whole, write_whole};
