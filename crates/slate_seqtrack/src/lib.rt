//! The sequence tracker: which sequence number was written about when, in bounded room, and its bytes.
#![tactic(auto)]

mod bits;
mod bytes;
mod decoding;
mod encoding;
mod faults;
mod laws;
mod lookups;
mod pairs;
mod thinning;
mod tracker;

pub use bits::{BitReader, BitWriter, sign_extend};
pub use decoding::decode_gorilla_i64_with_length;
pub use encoding::encode_gorilla_i64;
pub use faults::TrackerFault;
pub use laws::written_is_read;
pub use pairs::{FindOption, TrackedSeq};
pub use tracker::SequenceTracker;
