// Rows as they are stored: one operation each, not folded.
use bytes::Bytes;

/// What an operation leaves at its key. SlateDB's `ValueDeletable`.
#[derive(Debug, Drop)]
pub enum ValueDeletable {
    /// A value that was put.
    Value(Bytes),
    /// An operand to merge.
    Merge(Bytes),
    /// Nothing: the key was deleted.
    Tombstone,
}

/// One operation, as it is stored: not folded with others. Times are in milliseconds. SlateDB's `RowEntry`.
#[derive(Debug, Drop)]
pub struct RowEntry {
    pub key: Bytes,
    pub value: ValueDeletable,
    pub seq: u64,
    pub create_ts: i64,
    pub expire_ts: Option<i64>,
}
