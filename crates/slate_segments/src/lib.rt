//! The segments of keys: the prefixes that an extractor cuts off the keys of batches that are replayed, and whether an
//! extractor fits a database.
#![tactic(auto)]

mod extractors;
mod replayed_prefixes;

pub use extractors::{extractor_refusal, name_of};
pub use replayed_prefixes::{replayed_segments, segment_of, take_segments};
