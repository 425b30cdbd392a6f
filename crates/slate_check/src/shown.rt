// Writing the objects of a store as text, a line each.
ghost use Rattle.std.specs.Prelude.{◌≡◌, ◌≤◌, ◌++◌, codes, decimal, map, IfErr, IfOk, IfSome, OnOk, Err, None, Some};
ghost use Rattle.std.specs.Fmt.{signed_decimal};
ghost use Rattle.std.specs.List.{flat_map};
ghost use Rattle.slate_text.specs.Words.{word_text};
ghost use Rattle.slate_types.specs.Counts.{HasRisen};
ghost use Rattle.slate_store.specs.Calls.{IsOfList};
ghost use Rattle.slate_store.specs.Objects.{Objects, latest_manifest, listing_of};
ghost use Rattle.slate_check.specs.Shown.{checkpoint_text, ends_text, extractor_text, labelled, lease_text, log_text, logs_text, manifest_text, manifests_text, named_text, reach_text, segments_text, span_text, stored_text, sweep_text, swept_table_text, swept_text, table_text, tables_text, times_text, tracker_text};
ghost use Rattle.slate_check.specs.Texts.{table_id_text};

use crate::printing::{write_behind, write_table_id};
use bytes::Bytes;
use slate_reads::Table;
use slate_store::{Checkpoint, Listing, Manifest, Store, StoreError, TableId};
use slate_text::{write_byte_word, write_number, write_signed, write_text};
use slate_types::{Batch, Name, NoMemory, Seq};
use std::alloc::Global;

/// Writes the manifests with these ids, a line each, in this order. One that isn't stored is left out. It calls the store
/// once for each id, up to the first call that fails: then it answers `Failed`, or `NoMemory`, and a part may be written.
pub fn show_manifests<S: Store>(
    alloc: Global,
    store: &mut S,
    ids: &[u64],
    out: &mut Vec<u8>,
) -> Result<(), StoreError>
    ensures shown { (objects : Objects) → S.objects store.old ≡ Some objects → OnOk result (out.new.items ≡ out.old.items ++ manifests_text objects ids.now) }
    ensures kept { S.objects store.new ≡ S.objects store.old }
    ensures count { S.faults store.old ≤ S.faults store.new }
    ensures failed { result ≡ Err StoreError.Failed → HasRisen (S.faults store.old) (S.faults store.new) }
    ensures refused { IfErr result IsOfList }
{
    for id in ids {
        match store.read_manifest(alloc, *id) {
            Ok(manifest) => write_manifest(out, *id, &manifest)?,
            Err(StoreError::NotFound) => {}
            Err(error) => return Err(error),
        }
    }
    Ok(())
}

/// Writes the log files with these ids, a line each, in this order. One that isn't stored is left out. It calls the store
/// once for each id, up to the first call that fails: then it answers `Failed`, or `NoMemory`, and a part may be written.
pub fn show_logs<S: Store>(
    alloc: Global,
    store: &mut S,
    ids: &[u64],
    out: &mut Vec<u8>,
) -> Result<(), StoreError>
    ensures shown { (objects : Objects) → S.objects store.old ≡ Some objects → OnOk result (out.new.items ≡ out.old.items ++ logs_text objects ids.now) }
    ensures kept { S.objects store.new ≡ S.objects store.old }
    ensures count { S.faults store.old ≤ S.faults store.new }
    ensures failed { result ≡ Err StoreError.Failed → HasRisen (S.faults store.old) (S.faults store.new) }
    ensures refused { IfErr result IsOfList }
{
    for id in ids {
        match store.read_log(alloc, *id) {
            Ok(log) => write_log(out, *id, log.batches())?,
            Err(StoreError::NotFound) => {}
            Err(error) => return Err(error),
        }
    }
    Ok(())
}

/// Writes the tables with these ids, a line each, in this order. One that isn't stored is left out. It calls the store
/// once for each id, up to the first call that fails: then it answers `Failed`, or `NoMemory`, and a part may be written.
pub fn show_tables<S: Store>(
    alloc: Global,
    store: &mut S,
    ids: &[TableId],
    out: &mut Vec<u8>,
) -> Result<(), StoreError>
    ensures shown { (objects : Objects) → S.objects store.old ≡ Some objects → OnOk result (out.new.items ≡ out.old.items ++ stored_text objects ids.now) }
    ensures kept { S.objects store.new ≡ S.objects store.old }
    ensures count { S.faults store.old ≤ S.faults store.new }
    ensures failed { result ≡ Err StoreError.Failed → HasRisen (S.faults store.old) (S.faults store.new) }
    ensures refused { IfErr result IsOfList }
{
    for id in ids {
        match store.read_table(alloc, *id) {
            Ok(table) => write_table(out, *id, &table)?,
            Err(StoreError::NotFound) => {}
            Err(error) => return Err(error),
        }
    }
    Ok(())
}

/// Writes checkpoints, a line each, in this order. Where memory runs out, a part may be written.
pub fn show_checkpoints(out: &mut Vec<u8>, checkpoints: &[Checkpoint]) -> Result<(), NoMemory>
    ensures { OnOk result (out.new.items ≡ out.old.items ++ flat_map checkpoint_text checkpoints.now) }
{
    for checkpoint in checkpoints {
        write_checkpoint(out, "checkpoint ", checkpoint)?;
    }
    Ok(())
}

/// Writes the objects that a sweep would remove, as `to_sweep` lists them, a line each: tables, log files, and manifests. Where
/// memory runs out, a part may be written.
pub fn show_sweep(out: &mut Vec<u8>, listing: &Listing) -> Result<(), NoMemory>
    ensures { OnOk result (out.new.items ≡ out.old.items ++ sweep_text listing.now) }
{
    show_swept_tables(out, listing.tables.as_slice())?;
    show_swept(out, "sweep log ", listing.logs.as_slice())?;
    show_swept(out, "sweep manifest ", listing.manifests.as_slice())
}

fn show_swept_tables(out: &mut Vec<u8>, ids: &[TableId]) -> Result<(), NoMemory>
    ensures { OnOk result (out.new.items ≡ out.old.items ++ flat_map swept_table_text ids.now) }
{
    for id in ids {
        write_swept_table(out, *id)?;
    }
    Ok(())
}

fn write_swept_table(out: &mut Vec<u8>, id: TableId) -> Result<(), NoMemory>
    ensures { OnOk result (out.new.items ≡ out.old.items ++ swept_table_text id) }
{
    write_text(out, "sweep table ")?;
    write_table_id(out, id)?;
    write_text(out, "\n")
}

fn show_swept(out: &mut Vec<u8>, before: &str, ids: &[u64]) -> Result<(), NoMemory>
    ensures { OnOk result (out.new.items ≡ out.old.items ++ flat_map (swept_text before.now) ids.now) }
{
    for id in ids {
        write_behind(out, before, *id)?;
        write_text(out, "\n")?;
    }
    Ok(())
}

/// Writes a checkpoint behind a text.
fn write_checkpoint(
    out: &mut Vec<u8>,
    before: &str,
    checkpoint: &Checkpoint,
) -> Result<(), NoMemory>
    ensures { OnOk result (out.new.items ≡ out.old.items ++ (labelled before.now checkpoint.now.manifest_id ++ times_text checkpoint.now.create_ms checkpoint.now.expire_ms)) }
{
    write_behind(out, before, checkpoint.manifest_id)?;
    write_times(out, checkpoint.create_ms, checkpoint.expire_ms)
}

fn write_times(out: &mut Vec<u8>, begin: i64, end: Option<i64>) -> Result<(), NoMemory>
    ensures { OnOk result (out.new.items ≡ out.old.items ++ times_text begin end) }
{
    write_text(out, " from ")?;
    write_signed(out, begin)?;
    write_lease(out, end)
}

fn write_lease(out: &mut Vec<u8>, end: Option<i64>) -> Result<(), NoMemory>
    ensures { OnOk result (out.new.items ≡ out.old.items ++ lease_text end) }
{
    match end {
        None => write_text(out, " for good\n"),
        Some(end) => {
            write_text(out, " until ")?;
            write_signed(out, end)?;
            write_text(out, "\n")
        }
    }
}

fn write_manifest(out: &mut Vec<u8>, id: u64, manifest: &Manifest) -> Result<(), NoMemory>
    ensures { OnOk result (out.new.items ≡ out.old.items ++ manifest_text id manifest.now) }
{
    write_writer(out, id, manifest.writer_epoch)?;
    write_reach(out, manifest)?;
    write_named(out, manifest)?;
    write_text(out, "\n")
}

fn write_writer(out: &mut Vec<u8>, id: u64, epoch: u64) -> Result<(), NoMemory>
    ensures { OnOk result (out.new.items ≡ out.old.items ++ (labelled (codes "manifest ") id ++ labelled (codes " epoch ") epoch)) }
{
    write_behind(out, "manifest ", id)?;
    write_behind(out, " epoch ", epoch)
}

fn write_reach(out: &mut Vec<u8>, manifest: &Manifest) -> Result<(), NoMemory>
    ensures { OnOk result (out.new.items ≡ out.old.items ++ reach_text manifest.now) }
{
    write_behind(out, " last ", manifest.last_l0_seq)?;
    write_time(out, " tick ", manifest.last_tick)?;
    write_behind(out, " mark ", manifest.replay_after_wal_id)?;
    write_behind(out, " next ", manifest.next_wal_id)
}

fn write_named(out: &mut Vec<u8>, manifest: &Manifest) -> Result<(), NoMemory>
    ensures { OnOk result (out.new.items ≡ out.old.items ++ named_text manifest.now) }
{
    write_tables(out, manifest.tables.as_slice())?;
    write_segments(out, manifest.segments.as_slice())?;
    write_extractor(out, &manifest.extractor_name)?;
    write_tracker(out, &manifest.sequence_tracker)
}

fn write_tables(out: &mut Vec<u8>, ids: &[TableId]) -> Result<(), NoMemory>
    ensures { OnOk result (out.new.items ≡ out.old.items ++ tables_text ids.now) }
{
    write_behind(out, " tables ", ids.len() as u64)?;
    write_each_table(out, ids)
}

fn write_each_table(out: &mut Vec<u8>, ids: &[TableId]) -> Result<(), NoMemory>
    ensures { OnOk result (out.new.items ≡ out.old.items ++ flat_map (λ id. codes " " ++ table_id_text id) ids.now) }
{
    for id in ids {
        write_text(out, " ")?;
        write_table_id(out, *id)?;
    }
    Ok(())
}

fn write_segments(out: &mut Vec<u8>, prefixes: &[Bytes]) -> Result<(), NoMemory>
    ensures { OnOk result (out.new.items ≡ out.old.items ++ segments_text prefixes.now) }
{
    write_behind(out, " segments ", prefixes.len() as u64)?;
    write_each_segment(out, prefixes)
}

fn write_each_segment(out: &mut Vec<u8>, prefixes: &[Bytes]) -> Result<(), NoMemory>
    ensures { OnOk result (out.new.items ≡ out.old.items ++ flat_map (λ prefix. codes " " ++ word_text prefix) prefixes.now) }
{
    for prefix in prefixes {
        write_text(out, " ")?;
        write_byte_word(out, prefix.as_slice())?;
    }
    Ok(())
}

fn write_extractor(out: &mut Vec<u8>, name: &Option<Name>) -> Result<(), NoMemory>
    ensures { OnOk result (out.new.items ≡ out.old.items ++ extractor_text name.now) }
{
    match name {
        None => write_text(out, " extractor none"),
        Some(name) => {
            write_text(out, " extractor named ")?;
            write_byte_word(out, name.as_str().as_bytes())
        }
    }
}

fn write_tracker(out: &mut Vec<u8>, tracker: &Option<Seq<u8>>) -> Result<(), NoMemory>
    ensures { OnOk result (out.new.items ≡ out.old.items ++ tracker_text tracker.now) }
{
    match tracker {
        None => write_text(out, " tracker none"),
        Some(bytes) => write_behind(out, " tracker bytes ", bytes.as_slice().len() as u64),
    }
}

fn write_log(out: &mut Vec<u8>, id: u64, batches: &[Batch]) -> Result<(), NoMemory>
    ensures { OnOk result (out.new.items ≡ out.old.items ++ log_text id batches.now) }
{
    write_behind(out, "log ", id)?;
    write_span(out, batches)?;
    write_text(out, "\n")
}

fn write_table(out: &mut Vec<u8>, id: TableId, table: &Table) -> Result<(), NoMemory>
    ensures { OnOk result (out.new.items ≡ out.old.items ++ table_text id table.now) }
{
    write_name(out, id)?;
    write_span(out, table.batches())?;
    write_behind(out, " bytes ", table.indexed().size())?;
    write_text(out, "\n")
}

fn write_name(out: &mut Vec<u8>, id: TableId) -> Result<(), NoMemory>
    ensures { OnOk result (out.new.items ≡ out.old.items ++ (codes "table " ++ table_id_text id)) }
{
    write_text(out, "table ")?;
    write_table_id(out, id)
}

fn write_span(out: &mut Vec<u8>, batches: &[Batch]) -> Result<(), NoMemory>
    ensures { OnOk result (out.new.items ≡ out.old.items ++ span_text batches.now) }
{
    write_behind(out, " batches ", batches.len() as u64)?;
    let (Some(first), Some(last)) = (batches.first(), batches.last()) else {
        return Ok(());
    };
    write_behind(out, " from ", first.number)?;
    write_behind(out, " to ", last.number)
}

/// Writes a time behind a text.
fn write_time(out: &mut Vec<u8>, before: &str, time: i64) -> Result<(), NoMemory>
    ensures { OnOk result (out.new.items ≡ out.old.items ++ (before.now ++ signed_decimal time)) }
{
    write_text(out, before)?;
    write_signed(out, time)
}
