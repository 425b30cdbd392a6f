//! The board of a handle: its tick, its durable number and its close code, which any thread reads without a lock.
#![tactic(auto)]

mod boards;
mod laws;
mod rules;
#[cfg(test)]
mod tests;
mod ticks;
mod views;

pub use boards::{Board, BoardSeat};
pub use laws::{no_word_goes_back, words_are_ordered_as_ticks};
pub use views::{BoardView, ClockFault};
