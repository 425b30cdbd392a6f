// Ranges of keys and orders, as calls spell them.
use crate::call_line::CallLine;
use slate_types::{ByteRange, IterationOrder, KeyBound};

/// The range between two ends.
pub fn range_of(line: &mut CallLine<'_>) -> ByteRange {
    let low = bound_at(line);
    let high = bound_at(line);
    ByteRange { low, high }
}

/// One end of a range: `*` for none, `[` and a key that is in the range, or `(` and one that isn't.
fn bound_at(line: &mut CallLine<'_>) -> KeyBound {
    if line.takes(b"*") {
        return KeyBound::Unbounded;
    }
    let word = line.word();
    let key = line.bytes_of(word.get(1..).unwrap_or_default());
    match word.first() {
        Some(b'[') => KeyBound::Included(key),
        Some(b'(') => KeyBound::Excluded(key),
        _ => {
            line.unread();
            KeyBound::Unbounded
        }
    }
}

const ORDERS: &[(&[u8], IterationOrder)] = &[
    (b"up", IterationOrder::Ascending),
    (b"down", IterationOrder::Descending),
];

/// In which order keys come: `up` or `down`.
pub fn order_of(line: &mut CallLine<'_>) -> IterationOrder {
    line.name(ORDERS).unwrap_or(IterationOrder::Ascending)
}
