//! The text of numbers, moments and byte words, as scripts are written and replies are printed.
#![tactic(auto)]

mod appends;
mod laws;
mod numbers;
mod search;
mod words;

pub use appends::{cut_back, write_text};
pub use laws::prints_read_again;
pub use numbers::{read_moment, read_number, read_time, write_number, write_signed};
pub use search::find_byte;
pub use words::{read_byte_word, read_shared_word, write_byte_word};
