// Calls on all objects of a told store: checkpoints, compactions and sweeps, and what a test puts and looks at.
use crate::answers::Answer;
use crate::call_line::CallLine;
use crate::manifests::first_manifest;
use crate::store_calls::{batches_of, table_of};
use crate::told_stores::ToldStore;
use slate_check::{check_soundness, print_soundness};
use slate_store::{
    Checkpoint, FailingCall, Manifest, Store, StoreError, StoreRefusal, TableId, VersionedManifest,
    compact_tables, delete_checkpoint, refresh_checkpoint, replace_checkpoint, sweep, to_sweep,
    write_checkpoint,
};
use slate_types::{NoMemory, Seq};
use std::alloc::Global;
use uuid::Uuid;

#[derive(Clone, Copy)]
enum CheckpointCall {
    Write,
    Replace,
    Refresh,
    Delete,
    List,
}

const CHECKPOINT_CALLS: &[(&[u8], CheckpointCall)] = &[
    (b"write", CheckpointCall::Write),
    (b"replace", CheckpointCall::Replace),
    (b"refresh", CheckpointCall::Refresh),
    (b"delete", CheckpointCall::Delete),
    (b"list", CheckpointCall::List),
];

/// Makes a call on the checkpoints of a store. Their ids are noted in order.
pub fn call_checkpoints(store: &mut ToldStore, ids: &mut Vec<Uuid>, line: &mut CallLine<'_>) {
    match line.name(CHECKPOINT_CALLS) {
        Some(CheckpointCall::List) => list_checkpoints(store, ids.as_slice(), line),
        Some(CheckpointCall::Delete) => {
            let id = noted_id(ids.as_slice(), line);
            delete_checkpoint(line.alloc(), store, id).print(line);
        }
        Some(CheckpointCall::Write) => {
            let lifetime = line.bound();
            let made = write_checkpoint(line.alloc(), store, lifetime, line.time());
            print_made(ids, made, line);
        }
        Some(CheckpointCall::Replace) => {
            let (id, lifetime) = (noted_id(ids.as_slice(), line), line.number());
            let made = replace_checkpoint(line.alloc(), store, id, lifetime, line.time());
            print_made(ids, made, line);
        }
        Some(CheckpointCall::Refresh) => {
            let (id, lifetime) = (noted_id(ids.as_slice(), line), line.number());
            let made = refresh_checkpoint(line.alloc(), store, id, lifetime, line.time());
            print_made(ids, made, line);
        }
        None => {}
    }
}

/// Notes the id of a checkpoint that was made, where it is new, and appends the checkpoint.
fn print_made(
    ids: &mut Vec<Uuid>,
    made: Result<Checkpoint, StoreRefusal>,
    line: &mut CallLine<'_>,
) {
    if let Some(checkpoint) = line.made(made) {
        let is_noted = ids.as_slice().contains(&checkpoint.id);
        if !is_noted {
            ids.push(checkpoint.id).print(line);
        }
        print_checkpoint(ids.as_slice(), &checkpoint, line);
    }
}

#[derive(Clone, Copy)]
enum ObjectCall {
    Database,
    Batches,
    Compact,
    Sweep,
    ToSweep,
    Check,
    Leases,
    Calls,
    FaultyCalls,
    Fail,
    Contend,
    Rivals,
}

const OBJECT_CALLS: &[(&[u8], ObjectCall)] = &[
    (b"database", ObjectCall::Database),
    (b"batches", ObjectCall::Batches),
    (b"compact", ObjectCall::Compact),
    (b"sweep", ObjectCall::Sweep),
    (b"to_sweep", ObjectCall::ToSweep),
    (b"check", ObjectCall::Check),
    (b"leases", ObjectCall::Leases),
    (b"calls", ObjectCall::Calls),
    (b"faulty_calls", ObjectCall::FaultyCalls),
    (b"fail", ObjectCall::Fail),
    (b"contend", ObjectCall::Contend),
    (b"rivals", ObjectCall::Rivals),
];

/// Makes one of the other calls.
pub fn call_objects(store: &mut ToldStore, line: &mut CallLine<'_>) {
    let alloc = line.alloc();
    match line.name(OBJECT_CALLS) {
        Some(ObjectCall::Database) => make_database(store, line),
        Some(ObjectCall::Batches) => print_batches_named(store, line),
        Some(ObjectCall::Compact) => compact(store, line),
        Some(ObjectCall::Sweep) => sweep(alloc, store, line.time()).print(line),
        Some(ObjectCall::ToSweep) => to_sweep(alloc, store, line.time()).print(line),
        Some(ObjectCall::Check) => check(store, line),
        Some(ObjectCall::Leases) => print_leases(store, line),
        Some(ObjectCall::Calls) => line.print_number(store.calls()),
        Some(ObjectCall::FaultyCalls) => line.print_number(store.faulty_calls()),
        Some(ObjectCall::Fail) => store.let_fail(alloc, failing_of(line)),
        Some(ObjectCall::Contend) => {
            let lost = line.number();
            store.contend(lost, line.number());
        }
        Some(ObjectCall::Rivals) => store.let_others_put(line.number()),
        None => {}
    }
}

/// Appends whether the objects are sound, or the first thing that is wrong.
fn check(store: &mut ToldStore, line: &mut CallLine<'_>) {
    let checked = check_soundness(line.alloc(), store);
    if let Some(soundness) = line.made(checked) {
        let mut text = Vec::new(line.alloc());
        print_soundness(&mut text, &soundness).print(line);
        line.print_lines(text.as_slice(), "; ");
    }
}

/// The id that was noted after so many others.
fn noted_id(ids: &[Uuid], line: &mut CallLine<'_>) -> Uuid {
    match ids.get(line.size()) {
        Some(id) => *id,
        None => {
            line.unread();
            Uuid::nil()
        }
    }
}

/// Whether a call that fails is made all the same.
const LANDED: &[(&[u8], bool)] = &[(b"landed", true), (b"lost", false)];

/// The calls that fail, each with its number and how it fails.
fn failing_of(line: &mut CallLine<'_>) -> Seq<FailingCall> {
    let mut failing = Vec::new(line.alloc());
    for _ in 0..line.left() {
        if line.is_read() {
            break;
        }
        let at = line.number();
        let landed = line.name(LANDED).unwrap_or(false);
        failing.push(FailingCall { at, landed }).print(line);
    }
    Seq::of(failing)
}

/// Appends which of the noted ids a checkpoint has, the manifest that it keeps, and when its lease began and ends.
fn print_checkpoint(ids: &[Uuid], checkpoint: &Checkpoint, line: &mut CallLine<'_>) {
    let Some(noted) = ids.iter().position(|id| *id == checkpoint.id) else {
        line.print_text("another");
        return;
    };
    line.print_text("checkpoint");
    line.add_number(noted as u64);
    line.print_text(" manifest");
    line.add_number(checkpoint.manifest_id);
    line.print_text(" from ");
    line.print_time(checkpoint.create_ms);
    if let Some(end) = checkpoint.expire_ms {
        line.print_text(" to ");
        line.print_time(end);
    }
}

/// The latest manifest; else `none` or an error is printed.
pub fn latest_of(store: &mut ToldStore, line: &mut CallLine<'_>) -> Option<VersionedManifest> {
    let latest = store.latest_manifest(line.alloc());
    let latest = line.made(latest)?;
    if latest.is_none() {
        line.print_text("none");
    }
    latest
}

/// Appends the checkpoints of the latest manifest.
fn list_checkpoints(store: &mut ToldStore, ids: &[Uuid], line: &mut CallLine<'_>) {
    if let Some(latest) = latest_of(store, line) {
        for checkpoint in latest.manifest.checkpoints.as_slice() {
            line.print_blank();
            print_checkpoint(ids, checkpoint, line);
        }
    }
}

/// Appends the id of the latest manifest, and for each of its checkpoints `KEPT@END`, the manifest that it keeps and the
/// end of its lease.
fn print_leases(store: &mut ToldStore, line: &mut CallLine<'_>) {
    if let Some(latest) = latest_of(store, line) {
        line.print_number(latest.id);
        for checkpoint in latest.manifest.checkpoints.as_slice() {
            line.add_number(checkpoint.manifest_id);
            line.print_text("@");
            line.print_time(checkpoint.expire_ms.unwrap_or(-1));
        }
    }
}

/// Puts a database of the epoch 1 with so many tables of one batch each, whose last number is in the log file 2.
fn make_database(store: &mut ToldStore, line: &mut CallLine<'_>) {
    let tables = line.number();
    let alloc = line.alloc();
    let mut ids = Vec::new(alloc);
    for index in 0..tables.min(100) {
        let id = TableId { epoch: 1, index };
        if let Some(table) = table_of(&[index.saturating_add(1)], line) {
            store.put_table(alloc, id, &table).print(line);
        }
        ids.push(id).print(line);
    }
    let manifest = Manifest {
        tables: Seq::of(ids),
        last_l0_seq: tables,
        replay_after_wal_id: 1,
        next_wal_id: 2,
        ..first_manifest(alloc)
    };
    store.put_manifest(alloc, 1, &manifest).print(line);
    store.put_log(alloc, 1, &[]).print(line);
    let last = batches_of(&[tables.saturating_add(1)], line);
    store.put_log(alloc, 2, last.as_slice()).print(line);
}

/// Joins tables, and appends how many are left and the next index.
fn compact(store: &mut ToldStore, line: &mut CallLine<'_>) {
    let epoch = line.number();
    let mut index = line.number();
    let compacted = compact_tables(line.alloc(), store, epoch, &mut index);
    if let Some(latest) = line.made(compacted) {
        line.print_number(latest.manifest.tables.as_slice().len() as u64);
        line.print_text(" next ");
        line.print_number(index);
    }
}

/// Appends the numbers of the batches that are stored, in order. All that the latest manifest names has to be there, and
/// the manifests of its checkpoints with their tables.
fn print_batches_named(store: &mut ToldStore, line: &mut CallLine<'_>) {
    let mut numbers = Vec::new(line.alloc());
    let added = add_named(line.alloc(), store, &mut numbers);
    if line.made(added).is_some() {
        line.print_numbers(numbers.as_slice());
    }
}

fn add_named(
    alloc: Global,
    store: &mut ToldStore,
    numbers: &mut Vec<u64>,
) -> Result<(), StoreError> {
    let Some(latest) = store.latest_manifest(alloc)? else {
        return Ok(());
    };
    let manifest = &latest.manifest;
    add_tables(alloc, store, manifest, numbers)?;
    let last = store.last_log(alloc, manifest.replay_after_wal_id)?;
    for before in manifest.replay_after_wal_id..last {
        add_log(alloc, store, before.saturating_add(1), numbers)?;
    }
    for checkpoint in manifest.checkpoints.as_slice() {
        let kept = store.read_manifest(alloc, checkpoint.manifest_id)?;
        add_tables(alloc, store, &kept, &mut Vec::new(alloc))?;
    }
    Ok(())
}

fn add_tables(
    alloc: Global,
    store: &mut ToldStore,
    manifest: &Manifest,
    numbers: &mut Vec<u64>,
) -> Result<(), StoreError> {
    for id in manifest.tables.as_slice() {
        for batch in store.read_table(alloc, *id)?.batches() {
            numbers.push(batch.number).map_err(NoMemory::from)?;
        }
    }
    Ok(())
}

fn add_log(
    alloc: Global,
    store: &mut ToldStore,
    id: u64,
    numbers: &mut Vec<u64>,
) -> Result<(), StoreError> {
    for batch in store.read_log(alloc, id)?.batches() {
        numbers.push(batch.number).map_err(NoMemory::from)?;
    }
    Ok(())
}
