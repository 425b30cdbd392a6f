// What the readers of a live session pass at each of their views.

/// What each reader of a live session calls around each of its views, on the reader's thread. A gate may hold readers, and so
/// choose in which order they go, and it may keep what they see. It waits for nobody without a runtime of its own.
pub trait Gate {
    /// The reader with this number, from 0, is about to take a view. It took so many before.
    fn pass(&self, reader: u32, turn: u64);

    /// It took that view, of a state with this number.
    fn seen(&self, reader: u32, turn: u64, number: u64);
}

/// A gate that holds nobody and keeps nothing.
#[derive(Clone, Copy, Debug)]
pub struct OpenGate;

impl Gate for OpenGate {
    fn pass(&self, _reader: u32, _turn: u64) {}

    fn seen(&self, _reader: u32, _turn: u64, _number: u64) {}
}
