// The calls of any store, with the answers that they print.
use crate::answers::Answer;
use crate::call_line::CallLine;
use crate::objects::table_id;
use crate::subjects::CallFailure;
use slate_reads::{IndexedTable, Table};
use slate_store::{Listing, LogFile, Store, TableId, VersionedManifest};
use slate_types::{Batch, Seq, StoreError};
use std::alloc::Global;

/// A call of a store.
#[derive(Clone, Copy)]
enum StoreCall {
    PutLog,
    ReadLog,
    LastLog,
    RemoveLog,
    PutTable,
    ReadTable,
    RemoveTable,
    LatestManifest,
    Stored,
    List,
}

const CALLS: &[(&[u8], StoreCall)] = &[
    (b"put_log", StoreCall::PutLog),
    (b"read_log", StoreCall::ReadLog),
    (b"last_log", StoreCall::LastLog),
    (b"remove_log", StoreCall::RemoveLog),
    (b"put_table", StoreCall::PutTable),
    (b"read_table", StoreCall::ReadTable),
    (b"remove_table", StoreCall::RemoveTable),
    (b"latest_manifest", StoreCall::LatestManifest),
    (b"stored", StoreCall::Stored),
    (b"list", StoreCall::List),
];

/// Makes one of the calls of a store that `docs/FORMATS.md` lists.
pub fn call_store<S: Store>(store: &mut S, line: &mut CallLine<'_>) {
    let alloc = line.alloc();
    match line.name(CALLS) {
        Some(StoreCall::LatestManifest) => store.latest_manifest(alloc).print(line),
        Some(StoreCall::Stored) => print_stored(store, line),
        Some(StoreCall::List) => store.list(alloc).print(line),
        Some(StoreCall::PutLog) => put_log(store, line),
        Some(StoreCall::ReadLog) => store.read_log(alloc, line.number()).print(line),
        Some(StoreCall::LastLog) => store.last_log(alloc, line.number()).print(line),
        Some(StoreCall::RemoveLog) => store.remove_log(alloc, line.number()).print(line),
        Some(StoreCall::PutTable) => put_table(store, line),
        Some(StoreCall::ReadTable) => store.read_table(alloc, table_id(line)).print(line),
        Some(StoreCall::RemoveTable) => store.remove_table(alloc, table_id(line)).print(line),
        None => {}
    }
}

/// A batch without operations.
fn empty_batch(alloc: Global, number: u64) -> Batch {
    Batch {
        number,
        create_ts: 0,
        ops: Seq::of(Vec::new(alloc)),
    }
}

/// Batches without operations, with these numbers.
pub fn batches_of(numbers: &[u64], line: &mut CallLine<'_>) -> Vec<Batch> {
    let mut batches = Vec::new(line.alloc());
    for number in numbers {
        batches.push(empty_batch(line.alloc(), *number)).print(line);
    }
    batches
}

/// Adds a batch to a table, where its number is above those there.
pub fn push(table: &mut IndexedTable, batch: Batch) -> Result<(), CallFailure> {
    if !table.is_above_last(batch.number) {
        return Err(CallFailure::Unread);
    }
    match table.push(batch) {
        Ok(()) => Ok(()),
        Err(_) => Err(CallFailure::Memory),
    }
}

impl Answer for CallFailure {
    fn print(self, line: &mut CallLine<'_>) {
        line.fail(self);
    }
}

/// The table of batches without operations. Its numbers have to rise.
pub fn table_of(numbers: &[u64], line: &mut CallLine<'_>) -> Option<Table> {
    let mut table = IndexedTable::new(line.alloc());
    for number in numbers {
        push(&mut table, empty_batch(line.alloc(), *number)).print(line);
    }
    stored(table, line)
}

/// A table as it is stored.
pub fn stored(table: IndexedTable, line: &mut CallLine<'_>) -> Option<Table> {
    match Table::new(line.alloc(), table) {
        Ok(table) => Some(table),
        Err(_table) => {
            line.no_memory();
            None
        }
    }
}

fn put_log<S: Store>(store: &mut S, line: &mut CallLine<'_>) {
    let id = line.number();
    let batches = batches_of(line.numbers().as_slice(), line);
    store
        .put_log(line.alloc(), id, batches.as_slice())
        .print(line);
}

fn put_table<S: Store>(store: &mut S, line: &mut CallLine<'_>) {
    let id = table_id(line);
    if let Some(table) = table_of(line.numbers().as_slice(), line) {
        store.put_table(line.alloc(), id, &table).print(line);
    }
}

/// The numbers of its batches.
impl Answer for LogFile {
    fn print(self, line: &mut CallLine<'_>) {
        print_batches(self.batches(), line);
    }
}

/// The numbers of its batches.
impl Answer for Table {
    fn print(self, line: &mut CallLine<'_>) {
        print_batches(self.batches(), line);
    }
}

fn print_batches(batches: &[Batch], line: &mut CallLine<'_>) {
    for batch in batches {
        line.add_number(batch.number);
    }
}

/// The id of the manifest and its tables.
impl Answer for VersionedManifest {
    fn print(self, line: &mut CallLine<'_>) {
        line.print_number(self.id);
        print_ids(self.manifest.tables.as_slice(), line);
    }
}

/// The ids that are listed, behind the name of their kind.
impl Answer for Listing {
    fn print(self, line: &mut CallLine<'_>) {
        line.print_text("manifests");
        line.print_numbers(self.manifests.as_slice());
        line.print_text(" logs");
        line.print_numbers(self.logs.as_slice());
        line.print_text(" tables");
        print_ids(self.tables.as_slice(), line);
    }
}

/// Appends the ids of tables, with a blank before each.
fn print_ids(ids: &[TableId], line: &mut CallLine<'_>) {
    for id in ids {
        line.add_number(id.epoch);
        line.print_text("-");
        line.print_number(id.index);
    }
}

/// Appends the id of the latest manifest, that of the last log file, and how many batches this one has.
pub fn print_stored<S: Store>(store: &mut S, line: &mut CallLine<'_>) {
    let found = find_stored(line.alloc(), store);
    if let Some((manifest, last, batches)) = line.made(found) {
        manifest.print(line);
        line.add_number(last);
        line.add_number(batches as u64);
    }
}

fn find_stored<S: Store>(
    alloc: Global,
    store: &mut S,
) -> Result<(Option<u64>, u64, usize), StoreError> {
    let manifest = store.latest_manifest(alloc)?.map(|latest| latest.id);
    let last = store.last_log(alloc, 0)?;
    let batches = match store.read_log(alloc, last) {
        Err(StoreError::NotFound) => 0,
        log => log?.batches().len(),
    };
    Ok((manifest, last, batches))
}
