// The subject `keys`: ranges, prefixes and index keys, varints, and the bounds and options of reads.
use crate::answers::Answer;
use crate::call_line::CallLine;
use crate::operators::fixed_of;
use crate::ranges::range_of;
use crate::subjects::Subject;
use bytes::Bytes;
use slate_rows::{
    ByteRange, CloseOptions, DurabilityLevel, MergeOptions, PrefixExtractor, PutOptions,
    ReadOptions, ScanOptions, WriteOptions, compute_index_key, decode_varint, encode_varint,
    prepare_max_seq, varint_len,
};
use std::alloc::Global;

#[derive(Clone, Copy)]
enum Call {
    Prefix,
    Subrange,
    Index,
    Fixed,
    Default,
    Bound,
    Varint,
    Read,
}

const CALLS: &[(&[u8], Call)] = &[
    (b"prefix", Call::Prefix),
    (b"subrange", Call::Subrange),
    (b"index", Call::Index),
    (b"fixed", Call::Fixed),
    (b"default", Call::Default),
    (b"bound", Call::Bound),
    (b"varint", Call::Varint),
    (b"read", Call::Read),
];

/// Calls that keep nothing.
#[derive(Clone, Copy)]
pub struct Keys;

impl Subject for Keys {
    fn anew(&self, _alloc: Global) -> Keys {
        Keys
    }

    fn call(&mut self, line: &mut CallLine<'_>) {
        match line.name(CALLS) {
            Some(Call::Prefix) => print_prefixed(line),
            Some(Call::Subrange) => print_subrange(line),
            Some(Call::Index) => print_index_key(line),
            Some(Call::Fixed) => print_fixed(line),
            Some(Call::Default) => print_default(line),
            Some(Call::Bound) => print_bound(line),
            Some(Call::Varint) => print_varint(line),
            Some(Call::Read) => print_number_in(line),
            None => {}
        }
    }
}

/// Prints those of these keys that begin with a prefix.
fn print_prefixed(line: &mut CallLine<'_>) {
    let prefix = line.bytes();
    let made = ByteRange::prefix(line.alloc(), prefix.as_slice());
    if let Some(range) = line.made(made) {
        print_within(&range, line);
    }
}

/// Prints those of these keys that begin with a prefix and go on between two bounds.
fn print_subrange(line: &mut CallLine<'_>) {
    let prefix = line.bytes();
    let suffixes = range_of(line);
    let made = ByteRange::prefix_and_subrange(line.alloc(), prefix.as_slice(), &suffixes);
    if let Some(range) = line.made(made) {
        print_within(&range, line);
    }
}

/// Prints those of the keys that are left that are in a range.
fn print_within(range: &ByteRange, line: &mut CallLine<'_>) {
    for _ in 0..line.left() {
        let key = line.bytes();
        if range.contains(key.as_slice()) {
            line.print_blank();
            line.print_bytes(key.as_slice());
        }
    }
}

const LEVELS: &[(&[u8], DurabilityLevel)] = &[
    (b"memory", DurabilityLevel::Memory),
    (b"remote", DurabilityLevel::Remote),
];

/// The level that a word names.
pub fn level_of(line: &mut CallLine<'_>) -> DurabilityLevel {
    line.name(LEVELS).unwrap_or(DurabilityLevel::Memory)
}

const DIRTY: &[(&[u8], bool)] = &[(b"dirty", true), (b"clean", false)];

/// Prints up to which number a read reads.
fn print_bound(line: &mut CallLine<'_>) {
    let user = line.bound();
    let durable = line.number();
    let committed = line.number();
    let level = level_of(line);
    let dirty = line.name(DIRTY).unwrap_or(false);
    line.print_debug(&prepare_max_seq(user, durable, committed, level, dirty));
}

/// Prints the index key of a block that begins with a key, where no key is before it, or after another one.
fn print_index_key(line: &mut CallLine<'_>) {
    let first = line.bytes();
    if first.is_empty() {
        line.unread();
    } else if line.is_read() {
        let key = compute_index_key(line.alloc(), None, &first);
        if let Some(key) = line.made(key) {
            line.print_bytes(key.as_slice());
        }
    } else {
        print_between(&first, line);
    }
}

/// Prints the index key of a block that begins with the next key, after another one, and whether it has more than one
/// owner.
fn print_between(before: &Bytes, line: &mut CallLine<'_>) {
    let this = line.bytes();
    if before.is_empty() || this.is_empty() || *before > this {
        line.unread();
        return;
    }
    let key = compute_index_key(line.alloc(), Some(before), &this);
    if let Some(key) = line.made(key) {
        line.print_bytes(key.as_slice());
        let is_shared = key.try_into_mut().is_err();
        line.print_text(if is_shared { " shared" } else { " owned" });
    }
}

/// Prints the name of an extractor of prefixes of a length, and the prefix of a key.
fn print_fixed(line: &mut CallLine<'_>) {
    if let Some(extractor) = fixed_of(line) {
        line.print_text(extractor.name());
        line.print_text(" ");
        match extractor.prefix_of(line.word()) {
            Some(prefix) => line.print_bytes(prefix),
            None => line.print_text("none"),
        }
    }
}

/// What has a default.
#[derive(Clone, Copy)]
enum Options {
    Level,
    Read,
    Scan,
    Put,
    Merge,
    Close,
    Write,
}

const OPTIONS: &[(&[u8], Options)] = &[
    (b"level", Options::Level),
    (b"read", Options::Read),
    (b"scan", Options::Scan),
    (b"put", Options::Put),
    (b"merge", Options::Merge),
    (b"close", Options::Close),
    (b"write", Options::Write),
];

/// Prints the options of a kind of call as they are by default.
fn print_default(line: &mut CallLine<'_>) {
    match line.name(OPTIONS) {
        Some(Options::Level) => line.print_debug(&DurabilityLevel::default()),
        Some(Options::Read) => line.print_debug(&ReadOptions::default()),
        Some(Options::Scan) => line.print_debug(&ScanOptions::default()),
        Some(Options::Put) => line.print_debug(&PutOptions::default()),
        Some(Options::Merge) => line.print_debug(&MergeOptions::default()),
        Some(Options::Close) => line.print_debug(&CloseOptions::default()),
        Some(Options::Write) => line.print_debug(&WriteOptions::default()),
        None => {}
    }
}

/// Prints the bytes of a varint, and how many they are.
fn print_varint(line: &mut CallLine<'_>) {
    let number = line.short();
    let mut text = Vec::new(line.alloc());
    encode_varint(line.alloc(), &mut text, number).print(line);
    line.print_bytes(text.as_slice());
    line.print_text(" of ");
    line.print_number(varint_len(number) as u64);
}

/// Prints the number that begins a text, or why there is none, and what is left.
fn print_number_in(line: &mut CallLine<'_>) {
    let bytes = line.bytes();
    let mut rest = bytes.as_slice();
    line.print_debug(&decode_varint(&mut rest));
    line.print_text(" before ");
    line.print_bytes(rest);
}
