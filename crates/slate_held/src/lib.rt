//! A handle and a reader with their stores, as one value each: what a database and a reader that threads share hold under their
//! locks. What these promise is said here.
#![tactic(auto)]

mod flushes;
mod held;
mod keys;
mod readers;
mod reads;
mod transactions;
mod upkeep;
mod writes;

pub use held::Held;
pub use keys::keys_with;
pub use readers::HeldReader;
pub use transactions::merge_in;
pub use writes::require_operator;
