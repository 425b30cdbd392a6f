//! Runs a script over a store, and publishes the states of its first reader to others, which view them on threads of their own.
#![tactic(auto)]

mod beside;
mod broadcasts;
mod gates;
mod printing;
mod runs;
mod sessions;
mod states;
#[cfg(test)]
mod tests;
mod watchers;
mod words;

pub use gates::{Gate, OpenGate};
pub use sessions::{Live, live_session};
pub use words::{LiveWords, read_live_words};
