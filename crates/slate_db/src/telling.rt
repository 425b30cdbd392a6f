// What is told to the status that threads wait for.
ghost use Rattle.std.specs.Prelude.{IfOk};
ghost use Rattle.slate_status.specs.Segments.{PrefixesRise};

use bytes::Bytes;
use slate_receivers::StatusManager;
use slate_status::{DbStatus, StatusRecord, union};
use slate_types::{KeyOp, NoMemory, PrefixExtractor, Seq};
use std::alloc::Global;
use std::sync::Wait;

/// The record of what was just opened, with this status.
pub(crate) fn first_record(alloc: Global, present: DbStatus) -> Result<StatusRecord, NoMemory> {
    let prefixes = rising(alloc, &present)?;
    let mut record = StatusRecord::new(alloc, present.durable_seq, present.current_manifest);
    record.report_memtable_segments(prefixes);
    Ok(record)
}

/// Tells the manifest and the prefixes of this status.
pub(crate) fn tell_status<R: Wait>(
    rt: &R,
    alloc: Global,
    manager: &StatusManager,
    present: DbStatus,
) -> Result<(), NoMemory> {
    let prefixes = rising(alloc, &present)?;
    manager.report_manifest_and_memtable_segments(rt, present.current_manifest, prefixes);
    Ok(())
}

/// The prefixes of a status, rising, each once.
fn rising(alloc: Global, present: &DbStatus) -> Result<Seq<Bytes>, NoMemory>
    ensures { IfOk result PrefixesRise }
{
    let prefixes = union(alloc, present.memtable_segments.as_slice(), &[])?;
    Ok(Seq::of(prefixes))
}

/// The prefixes of the keys of operations, as far as they have one. Without an extractor it takes no memory.
pub(crate) fn prefixes_of<E: PrefixExtractor>(
    alloc: Global,
    extractor: Option<&E>,
    ops: &[KeyOp],
) -> Result<Vec<Bytes>, NoMemory> {
    let mut prefixes = Vec::new(alloc);
    let Some(extractor) = extractor else {
        return Ok(prefixes);
    };
    for op in ops {
        if let Some(prefix) = extractor.prefix_of(op.key.as_slice()) {
            prefixes.push(Bytes::copy_from_slice(alloc, prefix)?)?;
        }
    }
    Ok(prefixes)
}
