// Operations on the keys with a prefix, of a handle's memory and of the tables of its view.
ghost use Rattle.std.specs.Prelude.{◌≡◌, ◌+◌, ◌≤◌, ◌&&◌, [], ◌∷◌, None, IfErr, IfOk, IfSome, Err, find, length, map, not, reverse, true};
ghost use Rattle.std.specs.List.{list_any};
ghost use Rattle.std.specs.Option.{option_copied};
ghost use Rattle.std.specs.Str.{bytes_eq};
ghost use Rattle.slate_types.specs.declared.store_errors.StoreFault.TheVariants.{NotFound};
ghost use Rattle.slate_model.specs.Known.{FaultsRise, known};
ghost use Rattle.slate_model.specs.Recency.{AreEach, ScansByRecency, overlap, span_two};
ghost use Rattle.slate_model.specs.Tables.{AreStored};
ghost use Rattle.slate_replay.specs.Tables.{IsOfTables};
ghost use Rattle.slate_rows.specs.Recency.{IsRecency, source_entries};
ghost use Rattle.slate_writer.specs.Reading.{batches_of};

use crate::WriterState;
use crate::memories::Readable;
use bytes::Bytes;
use slate_errors::SlateError;
use slate_reads::{Indexed, IndexedTable, Table, prepare_max_seq};
use slate_replay::read_tables;
use slate_rows::{DbRecencyIterator, recency_indexed};
use slate_store::{Store, TableId};
use slate_types::{IterationOrder, NoMemory, ScanOptions};
use std::alloc::Global;

impl WriterState {
    /// The operations on the keys with a prefix, each on its own, source by source: those in memory, and then those of each
    /// table of the manifest that the handle goes by, the newest first. Within a source the keys come in the order asked for,
    /// of one key the greatest number first, and within a batch the later operation first. It lists the batches up to the
    /// accepted number, or up to the durable one at the level `Remote`.
    ///
    /// On a closed handle it answers `Closed` or the error that closed it. It answers `RecencyScanPrefixSpansMultipleSegments`
    /// where two different segments of that manifest overlap the prefix: each of the two begins it, or it begins the segment.
    /// Its other errors are `NoMemory`, and `ObjectStoreError` where the store fails, or a table isn't stored. It changes nothing;
    /// the iterator keeps its operations, whatever is written later.
    ///
    /// It calls the store once for each table, the newest first, and not at all where it answers one of the first two errors. It
    /// takes one pass over the segments, for memory and for each table time logarithmic in its keys, and then for each key with
    /// the prefix a look-up and constant time for each of its operations. It takes memory for each of these keys and each
    /// operation that it lists, and copies no key and no value. SlateDB's `scan_prefix_by_recency`.
    pub fn scan_by_recency<S: Store>(
        &self,
        alloc: Global,
        store: &mut S,
        prefix: &[u8],
        options: &ScanOptions,
    ) -> Result<DbRecencyIterator, SlateError>
        ensures scan { ScansByRecency self.now options.now prefix.now (known S.objects S.faults store.old) result (known S.objects S.faults store.new) }
        ensures count { S.faults store.old ≤ S.faults store.new }
        ensures calls { S.calls store.new ≤ S.calls store.old + length self.now.view.manifest.tables }
        ensures closed { (self.now.result ≡ None → ⊥) → store.new ≡ store.old }
        ensures spanning { span_two prefix.now self.now.view.manifest.segments ≡ true → store.new ≡ store.old }
        ensures untouched { self.now.view.manifest.tables ≡ [] → store.new ≡ store.old }
    {
        if let Some(result) = self.closed() {
            return Err(SlateError::of_closed(result));
        }
        if span_two(prefix, self.view().manifest.segments.as_slice()) {
            return Err(SlateError::RecencyScanPrefixSpansMultipleSegments);
        }
        let tables = self.read_newest_first(alloc, store)?;
        let memory = self.memory.to_read(alloc)?;
        let bound = prepare_max_seq(
            None,
            self.durable(),
            self.accepted(),
            options.durability_filter,
            options.dirty,
        );
        let (memory, tables) = (memory.as_indexed(), tables.as_slice());
        Ok(list_recent(alloc, memory, tables, bound, prefix, options.order)?)
    }

    /// The tables of the manifest that it goes by, newest first.
    fn read_newest_first<S: Store>(
        &self,
        alloc: Global,
        store: &mut S,
    ) -> Result<Vec<Table>, SlateError>
        ensures faults { FaultsRise (S.faults store.old) (S.faults store.new) result }
        ensures calls { S.calls store.new ≤ S.calls store.old + length self.now.view.manifest.tables }
        ensures kept { S.objects store.new ≡ S.objects store.old }
        ensures each { IfOk result (λ tables. AreEach (S.objects store.old) (reverse self.now.view.manifest.tables) tables.items) }
        ensures missing { result ≡ Err (SlateError.ObjectStoreError NotFound) → IfSome (S.objects store.old) (λ o. AreStored o self.now.view.manifest.tables → ⊥) }
        ensures refused { IfErr result IsOfTables }
        ensures untouched { self.now.view.manifest.tables ≡ [] → store.new ≡ store.old }
        ensures some { self.now.view.manifest.tables ≡ [] → result ≡ Err (SlateError.ObjectStoreError NotFound) → ⊥ }
    {
        let ids = newest_first(alloc, self.view().manifest.tables.as_slice())?;
        read_tables(alloc, store, ids.as_slice())
    }
}

/// Ids, from the last to the first.
fn newest_first(alloc: Global, ids: &[TableId]) -> Result<Vec<TableId>, NoMemory>
    ensures { IfOk result (λ newest. newest.items ≡ reverse ids.now) }
{
    Ok(ids.iter().rev().copied().collect(alloc)?)
}

/// The operations of the batches in memory, and then those of each table.
fn list_recent(
    alloc: Global,
    memory: &IndexedTable,
    tables: &[Table],
    bound: Option<u64>,
    prefix: &[u8],
    order: IterationOrder,
) -> Result<DbRecencyIterator, NoMemory>
    ensures { IfOk result (IsRecency order (map (source_entries bound prefix.now) (memory.now ∷ tables.now))) }
{
    let sources = sources(alloc, memory, tables)?;
    recency_indexed(alloc, sources.as_slice(), bound, prefix, order)
}

/// The batches in memory, and then those of each table.
fn sources<'a>(
    alloc: Global,
    memory: &'a IndexedTable,
    tables: &'a [Table],
) -> Result<Vec<Readable<'a>>, NoMemory>
    ensures { IfOk result (λ sources. map batches_of sources.items ≡ memory.now ∷ tables.now) }
{
    let mut sources = Vec::new(alloc);
    sources.push(Readable::Lent(memory))?;
    for table in tables {
        sources.push(Readable::Lent(table.indexed()))?;
    }
    Ok(sources)
}

/// Whether two different ones of these segments may have keys with a prefix. It takes time linear in them.
fn span_two(prefix: &[u8], segments: &[Bytes]) -> bool
    ensures { result ≡ span_two prefix.now segments.now }
{
    match first_overlap(prefix, segments) {
        None => false,
        Some(first) => is_another(prefix, first.as_slice(), segments),
    }
}

/// The first segment that may have keys with a prefix.
fn first_overlap<'a>(prefix: &[u8], segments: &'a [Bytes]) -> Option<&'a Bytes>
    ensures { option_copied result ≡ find (overlap prefix.now) segments.now }
{
    segments
        .iter()
        .find(|segment| overlap(prefix, segment.as_slice()))
}

/// Whether a segment other than this one may.
fn is_another(prefix: &[u8], first: &[u8], segments: &[Bytes]) -> bool
    ensures { result ≡ list_any (λ segment. overlap prefix.now segment && not (bytes_eq first.now segment)) segments.now }
{
    segments.iter().any(|segment| overlap(prefix, segment.as_slice())
        && first != segment.as_slice())
}

/// Whether keys with a prefix may be in a segment.
fn overlap(prefix: &[u8], segment: &[u8]) -> bool
    ensures { result ≡ overlap prefix.now segment.now }
{
    prefix.starts_with(segment) || segment.starts_with(prefix)
}
