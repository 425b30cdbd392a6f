// The subject `status`: the record of a status, to which reports are made.
use crate::answers::Answer;
use crate::call_line::CallLine;
use crate::manifests::{manifest_of, prefixes_of, rising};
use crate::subjects::Subject;
use crate::tasks::outcome_of;
use slate_status::{DbStatus, DurableAnswer, StatusRecord};
use std::alloc::Global;

#[derive(Clone, Copy)]
enum Call {
    Record,
    Version,
    Present,
    Status,
    Copy,
    Wait,
    Durable,
    Close,
    Memory,
    Add,
    Stored,
    View,
    Opening,
    Both,
}

const CALLS: &[(&[u8], Call)] = &[
    (b"record", Call::Record),
    (b"version", Call::Version),
    (b"present", Call::Present),
    (b"status", Call::Status),
    (b"copy", Call::Copy),
    (b"wait", Call::Wait),
    (b"durable", Call::Durable),
    (b"close", Call::Close),
    (b"memory", Call::Memory),
    (b"add", Call::Add),
    (b"stored", Call::Stored),
    (b"view", Call::View),
    (b"opening", Call::Opening),
    (b"both", Call::Both),
];

/// The record of a status.
pub struct Statuses {
    record: Option<StatusRecord>,
}

impl Drop for Statuses {
    fn drop(self) {
        let Statuses { record: _ } = self;
    }
}

impl Statuses {
    /// No record.
    pub fn new() -> Statuses {
        Statuses { record: None }
    }
}

impl Subject for Statuses {
    fn anew(&self, _alloc: Global) -> Statuses {
        Statuses::new()
    }

    fn call(&mut self, line: &mut CallLine<'_>) {
        match (line.name(CALLS), &mut self.record) {
            (Some(Call::Record), _) => self.record = Some(record_of(line)),
            (Some(call), Some(record)) => call_record(record, call, line),
            _ => line.unread(),
        }
    }
}

/// A record with a durable number and a manifest.
fn record_of(line: &mut CallLine<'_>) -> StatusRecord {
    let durable = line.number();
    let id = line.number();
    let manifest = manifest_of(id, line);
    StatusRecord::new(line.alloc(), durable, manifest)
}

/// Makes a call of a record.
fn call_record(record: &mut StatusRecord, call: Call, line: &mut CallLine<'_>) {
    match call {
        Call::Version => line.print_number(record.version()),
        Call::Present => line.print_numbers(&[record.durable(), record.manifest().id]),
        Call::Status => print_status(record, line),
        Call::Copy => print_copy(record, line),
        Call::Wait => record.durable_answer(line.number()).print(line),
        _ => {
            let rose = report(record, call, line);
            line.print_text(if rose { "risen" } else { "same" });
        }
    }
}

/// Makes a report, and answers whether the version rose.
fn report(record: &mut StatusRecord, call: Call, line: &mut CallLine<'_>) -> bool {
    match call {
        Call::Durable => record.report_durable_seq(line.number()),
        Call::Close => record.report_closed(outcome_of(line)),
        Call::Memory => match rising(line) {
            Some(segments) => record.report_memtable_segments(segments),
            None => false,
        },
        Call::Add => {
            let segments = prefixes_of(line);
            let added = record.add_memtable_segments(line.alloc(), segments.as_slice());
            line.made(added).unwrap_or(false)
        }
        _ => report_manifest(record, call, line),
    }
}

/// Reports a manifest with an id.
fn report_manifest(record: &mut StatusRecord, call: Call, line: &mut CallLine<'_>) -> bool {
    let id = line.number();
    match call {
        Call::Stored => record.report_manifest(manifest_of(id, line)),
        Call::View => {
            let durable = line.number();
            record.report_view(durable, manifest_of(id, line))
        }
        Call::Opening => {
            let durable = line.number();
            record.report_fence_manifest(durable, manifest_of(id, line))
        }
        _ => {
            let manifest = manifest_of(id, line);
            match rising(line) {
                Some(segments) => {
                    record.report_manifest_and_memtable_segments(manifest, segments)
                }
                None => false,
            }
        }
    }
}

/// Prints the durable number and the id of the manifest of a status, and its segments.
fn print_status(record: &StatusRecord, line: &mut CallLine<'_>) {
    let status = record.status(line.alloc());
    if let Some(status) = line.made(status) {
        line.print_numbers(&[status.durable_seq, status.current_manifest.id]);
        print_segments(&status, line);
    }
}

fn print_segments(status: &DbStatus, line: &mut CallLine<'_>) {
    let segments = status.list_segments(line.alloc());
    if let Some(segments) = line.made(segments) {
        for segment in segments.as_slice() {
            line.print_text(" ");
            line.print_bytes(segment.prefix.as_slice());
        }
    }
}

/// Prints whether a copy of a status is equal to it; and of a copy of its manifest the id, and how many segments it has.
fn print_copy(record: &StatusRecord, line: &mut CallLine<'_>) {
    let status = record.status(line.alloc());
    if let Some(status) = line.made(status) {
        let copy: Result<_, _> = status.clone();
        if let Some(copy) = line.made(copy) {
            line.print_debug(&(copy == status));
        }
        print_manifest_copy(&status, line);
    }
}

fn print_manifest_copy(status: &DbStatus, line: &mut CallLine<'_>) {
    let copy: Result<_, _> = status.current_manifest.clone();
    if let Some(copy) = line.made(copy) {
        let count = copy.manifest.segments.as_slice().len();
        line.print_numbers(&[copy.id, count as u64]);
    }
}

impl Answer for DurableAnswer {
    fn print(self, line: &mut CallLine<'_>) {
        match self {
            DurableAnswer::Durable => line.print_text("durable"),
            DurableAnswer::Pending => line.print_text("pending"),
            DurableAnswer::Failed(error) => error.print(line),
        }
    }
}
