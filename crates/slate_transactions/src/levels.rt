// How far a transaction is kept apart from others.

/// What a transaction is kept from. SlateDB's `IsolationLevel`.
#[derive(Clone, Copy, Debug, PartialEq, Eq)]
pub enum IsolationLevel {
    /// It reads what was there when it began, and commits where no other transaction wrote a key that it writes.
    Snapshot,
    /// It also commits only where nothing that it read was written since: where what it read is what it would have read
    /// just before its batch.
    SerializableSnapshot,
}
