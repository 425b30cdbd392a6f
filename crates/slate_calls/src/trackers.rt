// The subject `tracker`: a tracker of sequence numbers and times, another one beside it, and bytes of one.
use crate::answers::Answer;
use crate::call_line::CallLine;
use crate::subjects::Subject;
use slate_seqtrack::{FindOption, SequenceTracker, TrackedSeq};
use std::alloc::Global;
use std::mem;

#[derive(Clone, Copy)]
enum Call {
    New,
    Bytes,
    Read,
    Front,
    Turn,
    Swap,
    Extend,
    Copy,
    Same,
    Insert,
    Numbers,
    Times,
    Ts,
    Seq,
    Write,
}

const CALLS: &[(&[u8], Call)] = &[
    (b"new", Call::New),
    (b"bytes", Call::Bytes),
    (b"read", Call::Read),
    (b"front", Call::Front),
    (b"turn", Call::Turn),
    (b"swap", Call::Swap),
    (b"extend", Call::Extend),
    (b"copy", Call::Copy),
    (b"same", Call::Same),
    (b"insert", Call::Insert),
    (b"numbers", Call::Numbers),
    (b"times", Call::Times),
    (b"ts", Call::Ts),
    (b"seq", Call::Seq),
    (b"write", Call::Write),
];

const FINDS: &[(&[u8], FindOption)] = &[
    (b"up", FindOption::RoundUp),
    (b"down", FindOption::RoundDown),
];

/// Which pair is taken between two, `up` or `down`.
pub fn find_of(line: &mut CallLine<'_>) -> FindOption {
    line.name(FINDS).unwrap_or(FindOption::RoundUp)
}

/// A tracker, another one, and bytes that are read as one.
pub struct Trackers {
    tracker: Option<SequenceTracker>,
    other: Option<SequenceTracker>,
    bytes: Vec<u8>,
}

impl Drop for Trackers {
    fn drop(self) {
        let Trackers {
            tracker: _,
            other: _,
            bytes: _,
        } = self;
    }
}

impl Trackers {
    /// No tracker, and no bytes.
    pub fn new(alloc: Global) -> Trackers {
        Trackers {
            tracker: None,
            other: None,
            bytes: Vec::new(alloc),
        }
    }

    fn make(&mut self, line: &mut CallLine<'_>) {
        let made = if line.is_read() {
            SequenceTracker::new(line.alloc())
        } else {
            let capacity = line.short();
            SequenceTracker::with_config(line.alloc(), capacity, line.number())
        };
        self.tracker = line.made(made);
    }

    /// Copies the tracker to the other one.
    fn copy(&mut self, line: &mut CallLine<'_>) {
        match &self.tracker {
            Some(tracker) => self.other = line.made(tracker.clone()),
            None => line.unread(),
        }
    }

    /// Inserts the pairs of the other tracker.
    fn extend(&mut self, line: &mut CallLine<'_>) {
        match (&mut self.tracker, &self.other) {
            (Some(tracker), Some(other)) => tracker.extend_from(other).print(line),
            _ => line.unread(),
        }
    }

    /// Reads so many first bytes as a tracker, which takes the place of the first one.
    fn read(&mut self, end: usize, line: &mut CallLine<'_>) {
        let front = self.bytes.get(..end).unwrap_or_default();
        let read = SequenceTracker::from_bytes(line.alloc(), front);
        if let Some(tracker) = line.made(read) {
            self.tracker = Some(tracker);
        }
    }

    /// Reads the bytes with one bit turned, which is counted from the first byte's most significant one.
    fn read_turned(&mut self, line: &mut CallLine<'_>) {
        let bit = line.number();
        turn_bit(&mut self.bytes, bit);
        let end = self.bytes.len();
        self.read(end, line);
        turn_bit(&mut self.bytes, bit);
    }

    /// Asks the tracker, or inserts a pair.
    fn ask(&mut self, call: Call, line: &mut CallLine<'_>) {
        let Some(tracker) = &mut self.tracker else {
            line.unread();
            return;
        };
        match call {
            Call::Insert => {
                let seq = line.number();
                let ts = line.time();
                tracker.insert(TrackedSeq { seq, ts }).print(line);
            }
            Call::Ts => {
                let number = line.number();
                let time = tracker.find_ts(number, find_of(line));
                line.print_debug(&time);
            }
            Call::Seq => {
                let time = line.time();
                let number = tracker.find_seq(time, find_of(line));
                line.print_debug(&number);
            }
            Call::Numbers => line.print_debug(&tracker.numbers()),
            Call::Times => line.print_debug(&tracker.times()),
            Call::Write => print_written(tracker, line),
            _ => line.unread(),
        }
    }
}

impl Subject for Trackers {
    fn anew(&self, alloc: Global) -> Trackers {
        Trackers::new(alloc)
    }

    fn call(&mut self, line: &mut CallLine<'_>) {
        match line.name(CALLS) {
            Some(Call::New) => self.make(line),
            Some(Call::Bytes) => self.bytes = line.byte_list(),
            Some(Call::Read) => {
                let end = self.bytes.len();
                self.read(end, line);
            }
            Some(Call::Front) => self.read(line.size(), line),
            Some(Call::Turn) => self.read_turned(line),
            Some(Call::Swap) => mem::swap(&mut self.tracker, &mut self.other),
            Some(Call::Extend) => self.extend(line),
            Some(Call::Copy) => self.copy(line),
            Some(Call::Same) => line.print_debug(&(self.tracker == self.other)),
            Some(call) => self.ask(call, line),
            None => {}
        }
    }
}

/// Turns one bit of bytes, where they have it. It is counted from the first byte's most significant one.
pub fn turn_bit(bytes: &mut [u8], bit: u64) {
    if let Some(byte) = bytes.get_mut((bit / 8) as usize) {
        *byte ^= 128 >> (bit % 8);
    }
}

/// Prints the bytes of a tracker.
fn print_written(tracker: &SequenceTracker, line: &mut CallLine<'_>) {
    let written = tracker.to_bytes(line.alloc());
    if let Some(bytes) = line.made(written) {
        line.print_bytes(bytes.as_slice());
    }
}
