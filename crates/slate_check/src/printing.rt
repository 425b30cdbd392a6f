// Writing what was found of a store as text.
ghost use Rattle.std.specs.Prelude.{◌≡◌, ◌++◌, OnOk, decimal};
ghost use Rattle.slate_check.specs.Texts.{fault_text, lack_text, pin_text, soundness_text, table_id_text};

use crate::{CheckpointFault, ManifestFault, Soundness, SoundnessFault};
use slate_store::TableId;
use slate_text::{write_number, write_text};
use slate_types::NoMemory;

/// Writes whether a store is sound as a line: `sound at K`, or `unsound: ` and the first thing that is wrong. Where
/// memory runs out, a part may have been written.
pub fn print_soundness(out: &mut Vec<u8>, soundness: &Soundness) -> Result<(), NoMemory>
    ensures { OnOk result (out.new.items ≡ out.old.items ++ soundness_text soundness.now) }
{
    match soundness {
        Soundness::Sound(number) => write_between(out, "sound at ", *number, "\n"),
        Soundness::Unsound(fault) => {
            write_text(out, "unsound: ")?;
            write_fault(out, fault)?;
            write_text(out, "\n")
        }
    }
}

fn write_fault(out: &mut Vec<u8>, fault: &SoundnessFault) -> Result<(), NoMemory>
    ensures { OnOk result (out.new.items ≡ out.old.items ++ fault_text fault.now) }
{
    match fault {
        SoundnessFault::ManifestIds => write_text(out, "the ids of manifests don't rise"),
        SoundnessFault::LogIds => write_text(out, "the ids of log files don't rise"),
        SoundnessFault::TableIds => write_text(out, "the ids of tables don't rise"),
        SoundnessFault::NoManifest => write_text(out, "no manifest is stored"),
        SoundnessFault::TableEpoch(id) => {
            let behind = " has an epoch above the latest manifest's";
            write_table(out, "table ", *id, behind)
        }
        SoundnessFault::LogGap(after) => {
            write_behind(out, "a gap in the log files after ", *after)
        }
        SoundnessFault::Manifest(id, fault) => {
            write_between(out, "manifest ", *id, " ")?;
            write_lack(out, fault)
        }
        SoundnessFault::Numbers(number) => {
            write_between(out, "batch ", *number, " doesn't follow the one before it")
        }
        SoundnessFault::CheckpointTwice(id) => {
            write_behind(out, "two checkpoints keep manifest ", *id)
        }
        SoundnessFault::Checkpoint(id, fault) => { write_unpinned(out, *id, fault) }
    }
}

fn write_unpinned(out: &mut Vec<u8>, id: u64, fault: &CheckpointFault) -> Result<(), NoMemory>
    ensures { OnOk result (out.new.items ≡ out.old.items ++ fault_text (SoundnessFault.Checkpoint id fault.now)) }
{
    write_between(out, "the checkpoint of manifest ", id, " ")?;
    write_pin(out, fault)
}

fn write_pin(out: &mut Vec<u8>, fault: &CheckpointFault) -> Result<(), NoMemory>
    ensures { OnOk result (out.new.items ≡ out.old.items ++ pin_text fault.now) }
{
    match fault {
        CheckpointFault::Id => write_text(out, "has the id of another manifest"),
        CheckpointFault::Above => write_text(out, "keeps a manifest above the latest one"),
        CheckpointFault::Missing => write_text(out, "keeps a manifest that isn't stored"),
        CheckpointFault::Manifest(fault) => {
            write_text(out, "keeps a manifest that ")?;
            write_lack(out, fault)
        }
        CheckpointFault::Content => write_text(out, "keeps batches that don't begin the content"),
    }
}

fn write_lack(out: &mut Vec<u8>, fault: &ManifestFault) -> Result<(), NoMemory>
    ensures { OnOk result (out.new.items ≡ out.old.items ++ lack_text fault.now) }
{
    match fault {
        ManifestFault::TableMissing(id) => {
            write_table(out, "names table ", *id, ", which isn't stored")
        }
        ManifestFault::TableEmpty(id) => {
            write_table(out, "names table ", *id, ", which has no batch")
        }
        ManifestFault::NextLog => {
            write_text(out, "has a next log file at or below its replay mark")
        }
        ManifestFault::LogMissing(id) => {
            write_between(out, "needs log file ", *id, ", which isn't stored")
        }
        ManifestFault::TablesEnd => {
            write_text(out, "has tables that don't end at its last number")
        }
    }
}

/// Writes the id of a table between two texts.
fn write_table(out: &mut Vec<u8>, before: &str, id: TableId, behind: &str) -> Result<(), NoMemory>
    ensures { OnOk result (out.new.items ≡ out.old.items ++ (before.now ++ (table_id_text id ++ behind.now))) }
{
    write_text(out, before)?;
    write_table_id(out, id)?;
    write_text(out, behind)
}

/// Writes the id of a table.
pub(crate) fn write_table_id(out: &mut Vec<u8>, id: TableId) -> Result<(), NoMemory>
    ensures { OnOk result (out.new.items ≡ out.old.items ++ table_id_text id) }
{
    write_number(out, id.epoch)?;
    write_behind(out, "-", id.index)
}

/// Writes a number behind a text.
pub(crate) fn write_behind(out: &mut Vec<u8>, before: &str, number: u64) -> Result<(), NoMemory>
    ensures { OnOk result (out.new.items ≡ out.old.items ++ (before.now ++ decimal number)) }
{
    write_text(out, before)?;
    write_number(out, number)
}

/// Writes a number between two texts.
fn write_between(out: &mut Vec<u8>, before: &str, number: u64, behind: &str) -> Result<(), NoMemory>
    ensures { OnOk result (out.new.items ≡ out.old.items ++ (before.now ++ (decimal number ++ behind.now))) }
{
    write_text(out, before)?;
    write_number(out, number)?;
    write_text(out, behind)
}
