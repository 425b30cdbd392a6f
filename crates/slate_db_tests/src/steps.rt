// Reports to a manager and looks of a receiver, in turn in one thread, and the text of their answers.
ghost use Rattle.std.specs.Prelude.{IfOk};
ghost use Rattle.slate_status.specs.Segments.{PrefixesRise};

use crate::steps::Step::{
    Add, Await, Borrow, Both, Changed, Close, Closed, Durable, Memory, Opening, Status, Stored,
    Update, Write,
};
use bytes::Bytes;
use slate_receivers::{StatusManager, StatusReceiver};
use slate_status::{CloseFault, DbStatus, SegmentPrefix, StatusRecord, union};
use slate_store::{Manifest, VersionedManifest};
use slate_types::{NoMemory, Seq};
use std::alloc::Global;
use std::sync::Wait;
use std::test::Fail;

/// Manifests are named by their ids, and segments are prefixes of one letter.
pub(crate) enum Step {
    /// The report of a durable number and a manifest without segments, as an opening found them.
    Opening(u64, u64),
    /// The report of a durable number.
    Durable(u64),
    /// The report of a manifest with these segments.
    Stored(u64, &'static [u8]),
    /// The report of segments outside of tables.
    Memory(&'static [u8]),
    /// The report of a manifest with segments, and of those outside of tables.
    Both(u64, &'static [u8], &'static [u8]),
    /// Adds segments outside of tables.
    Add(&'static [u8]),
    Close(Result<(), CloseFault>),
    Write(Result<(), CloseFault>),
    /// Whether it closed with `Fenced`.
    Closed,
    /// The status of the manager.
    Status,
    /// The status of the receiver, and whether it changed.
    Borrow,
    Update,
    Changed,
    /// The status of the receiver with this durable number.
    Await(u64),
}

struct Session {
    manager: StatusManager,
    receiver: StatusReceiver,
    text: Vec<u8>,
}

impl Drop for Session {
    fn drop(self) {
        let Session {
            manager: _,
            receiver: _,
            text: _,
        } = self;
    }
}

impl Session {
    fn into_text(self) -> Vec<u8> {
        let Session {
            manager: _,
            receiver: _,
            text,
        } = self;
        text
    }
}

/// A manager of a durable number and a manifest without segments.
pub(crate) fn manager(alloc: Global, durable: u64, id: u64) -> Result<StatusManager, NoMemory> {
    let first = StatusRecord::new(alloc, durable, manifest(alloc, id, b"")?);
    StatusManager::new(alloc, first)
}

/// The text of the answers, each with a semicolon after it: a 1 where the version rose or something is so, else a 0, and
/// of a status its durable number, the id of its manifest, and its segments.
fn answers<R: Wait>(rt: &R, alloc: Global, steps: &[Step]) -> Result<Vec<u8>, Fail> {
    let manager = manager(alloc, 0, 1)?;
    let receiver = manager.subscribe(rt)?;
    let mut session = Session {
        manager,
        receiver,
        text: Vec::new(alloc),
    };
    for step in steps {
        take(&mut session, rt, alloc, step)?;
    }
    Ok(session.into_text())
}

fn take<R: Wait>(
    session: &mut Session,
    rt: &R,
    alloc: Global,
    step: &Step,
) -> Result<(), NoMemory> {
    match step {
        Status | Borrow | Update | Await(_) => {
            let status = look(session, rt, alloc, step)?;
            print(&mut session.text, alloc, &status)
        }
        Changed => print_bit(&mut session.text, session.receiver.has_changed(rt)),
        Closed => {
            let fenced = session.manager.result(rt) == Some(Err(CloseFault::Fenced));
            print_bit(&mut session.text, fenced)
        }
        _ => {
            let rose = report(&session.manager, rt, alloc, step)?;
            print_bit(&mut session.text, rose)
        }
    }
}

fn look<R: Wait>(
    session: &mut Session,
    rt: &R,
    alloc: Global,
    step: &Step,
) -> Result<DbStatus, NoMemory> {
    let receiver = &mut session.receiver;
    match step {
        Status => session.manager.status(rt, alloc),
        Await(number) => receiver.wait_for(rt, alloc, |status| status.durable_seq == *number),
        Update => receiver.borrow_and_update(rt, alloc),
        _ => receiver.borrow(rt, alloc),
    }
}

pub(crate) fn report<R: Wait>(
    manager: &StatusManager,
    rt: &R,
    alloc: Global,
    step: &Step,
) -> Result<bool, NoMemory> {
    match step {
        Opening(durable, id) => {
            let found = manifest(alloc, *id, b"")?;
            Ok(manager.report_fence_manifest(rt, *durable, found))
        }
        Durable(number) => Ok(manager.report_durable_seq(rt, *number)),
        Stored(id, segments) => Ok(manager.report_manifest(rt, manifest(alloc, *id, segments)?)),
        Close(outcome) => Ok(manager.report_closed(rt, *outcome)),
        Write(outcome) => Ok(manager.write_result(rt, *outcome)),
        _ => report_segments(manager, rt, alloc, step),
    }
}

fn report_segments<R: Wait>(
    manager: &StatusManager,
    rt: &R,
    alloc: Global,
    step: &Step,
) -> Result<bool, NoMemory> {
    match step {
        Memory(segments) => Ok(manager.report_memtable_segments(rt, rising(alloc, segments)?)),
        Both(id, stored, segments) => {
            let segments = rising(alloc, segments)?;
            let manifest = manifest(alloc, *id, stored)?;
            Ok(manager.report_manifest_and_memtable_segments(rt, manifest, segments))
        }
        Add(segments) => {
            let segments = prefixes(alloc, segments)?;
            manager.add_memtable_segments(rt, alloc, segments.as_slice())
        }
        _ => Ok(false),
    }
}

/// A prefix for each byte of the text.
fn prefixes(alloc: Global, text: &'static [u8]) -> Result<Vec<Bytes>, NoMemory> {
    let mut list = Vec::new(alloc);
    for letter in text.chunks(1) {
        list.push(Bytes::from_static(letter))?;
    }
    Ok(list)
}

/// The prefixes of a text, rising.
fn rising(alloc: Global, text: &'static [u8]) -> Result<Seq<Bytes>, NoMemory>
    ensures { IfOk result PrefixesRise }
{
    let list = prefixes(alloc, text)?;
    Ok(Seq::of(union(alloc, list.as_slice(), &[])?))
}

fn manifest(
    alloc: Global,
    id: u64,
    segments: &'static [u8],
) -> Result<VersionedManifest, NoMemory> {
    let segments = Seq::of(prefixes(alloc, segments)?);
    let manifest = Manifest {
        writer_epoch: 1,
        initialized: true,
        tables: Seq::of(Vec::new(alloc)),
        last_l0_seq: 0,
        last_tick: 0,
        replay_after_wal_id: 0,
        next_wal_id: 1,
        checkpoints: Seq::of(Vec::new(alloc)),
        segments,
        extractor_name: None,
        sequence_tracker: None,
    };
    Ok(VersionedManifest { id, manifest })
}

fn print(text: &mut Vec<u8>, alloc: Global, status: &DbStatus) -> Result<(), NoMemory> {
    let (durable, id) = (status.durable_seq, status.current_manifest.id);
    text.extend_from_slice(format!(in alloc; "{durable} {id} ")?.as_bytes())?;
    let segments = status.list_segments(alloc)?;
    print_segments(text, segments.as_slice())
}

fn print_segments(text: &mut Vec<u8>, segments: &[SegmentPrefix]) -> Result<(), NoMemory> {
    for segment in segments {
        text.extend_from_slice(segment.prefix.as_slice())?;
    }
    Ok(text.push(b';')?)
}

fn print_bit(text: &mut Vec<u8>, bit: bool) -> Result<(), NoMemory> {
    Ok(text.extend_from_slice(if bit { b"1;" } else { b"0;" })?)
}

const LOOKS: [Step; 9] = [
    Changed,
    Await(0),
    Durable(3),
    Changed,
    Borrow,
    Changed,
    Update,
    Changed,
    Await(3),
];

// What is looked at stays news, until it is marked as seen; a wait for what is so ends at once.
#[test]
fn receiver_in_one_thread(rt: HostRuntime) -> Result<(), Fail> {
    let text = answers(&rt, rt.alloc(), LOOKS.as_slice())?;
    assert!(rt; text.as_slice() == b"0;0 1 ;1;1;3 1 ;1;3 1 ;0;3 1 ;".as_slice());
    Ok(())
}

const REPORTS: [Step; 18] = [
    Stored(1, b"ab"),
    Memory(b"bc"),
    Status,
    Opening(0, 1),
    Add(b"ca"),
    Add(b"ac"),
    Memory(b"ab"),
    Update,
    Both(2, b"a", b"b"),
    Changed,
    Status,
    Stored(5, b""),
    Update,
    Stored(3, b""),
    Changed,
    Close(Err(CloseFault::Fenced)),
    Write(Ok(())),
    Closed,
];

#[test]
fn reports_in_one_thread(rt: HostRuntime) -> Result<(), Fail> {
    let text = answers(&rt, rt.alloc(), REPORTS.as_slice())?;
    let want = b"1;1;0 1 abc;1;1;0;1;0 1 ab;1;1;0 2 ab;1;0 5 b;0;0;1;0;1;";
    assert!(rt; text.as_slice() == want.as_slice());
    Ok(())
}
