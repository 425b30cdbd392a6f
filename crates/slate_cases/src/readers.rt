// Calls of a reader of a database beside those of script lines, and what others put for it.
use crate::databases::Database;
use crate::handles::ops_of;
use crate::polled::PolledReader;
use slate_calls::answers::Answer;
use slate_calls::call_line::CallLine;
use slate_calls::manifests::{first_manifest, prefixes_of};
use slate_calls::object_calls::latest_of;
use slate_calls::operators::{Cuts, Refusing};
use slate_calls::ranges::{order_of, range_of};
use slate_calls::rows::print_left;
use slate_calls::store_calls::{push, stored};
use slate_calls::told_stores::ToldStore;
use slate_follow::{DbReaderMode, DbReaderOptions, FollowerState};
use slate_reads::IndexedTable;
use slate_store::{LogFile, Manifest, Store, TableId};
use slate_types::{Batch, Name, PrefixExtractor, Seq};

#[derive(Clone, Copy)]
enum Call {
    Open,
    Lags,
    Managed,
    Poll,
    Begin,
    Step,
    Mark,
    Tables,
    Publish,
    First,
}

const CALLS: &[(&[u8], Call)] = &[
    (b"open", Call::Open),
    (b"lags", Call::Lags),
    (b"managed", Call::Managed),
    (b"poll", Call::Poll),
    (b"begin", Call::Begin),
    (b"step", Call::Step),
    (b"mark", Call::Mark),
    (b"tables", Call::Tables),
    (b"publish", Call::Publish),
    (b"first", Call::First),
];

#[derive(Clone, Copy)]
enum Put {
    First,
    Log,
    Table,
    Last,
    Segment,
    Tracker,
}

const PUTS: &[(&[u8], Put)] = &[
    (b"first", Put::First),
    (b"log", Put::Log),
    (b"table", Put::Table),
    (b"last", Put::Last),
    (b"segment", Put::Segment),
    (b"tracker", Put::Tracker),
];

impl Database {
    /// Makes a call of the reader.
    pub fn call_reader(&mut self, line: &mut CallLine<'_>) {
        match line.name(CALLS) {
            Some(Call::Open) => {
                let options = DbReaderOptions {
                    max_memtable_bytes: line.number(),
                    ..DbReaderOptions::default()
                };
                self.follow(DbReaderMode::FollowLatest, &options, line);
            }
            Some(Call::Lags) => {
                let options = DbReaderOptions {
                    max_lag: line.number(),
                    ..DbReaderOptions::default()
                };
                self.follow(DbReaderMode::FollowLatest, &options, line);
            }
            Some(Call::Managed) => {
                let options = DbReaderOptions {
                    checkpoint_lifetime_ms: line.number(),
                    manifest_poll_interval_ms: line.number(),
                    ..DbReaderOptions::default()
                };
                self.follow(DbReaderMode::ManagedCheckpoint, &options, line);
            }
            Some(call @ (Call::Poll | Call::Begin | Call::Step)) => self.poll_reader(call, line),
            Some(call) => self.ask_reader(call, line),
            None => {}
        }
    }

    /// Polls the reader, whole or by single calls of the store.
    fn poll_reader(&mut self, call: Call, line: &mut CallLine<'_>) {
        let Some(reader) = &mut self.reader else {
            line.unread();
            return;
        };
        let (alloc, store) = (line.alloc(), &mut self.store);
        let extractor = self.extractor.as_ref();
        match call {
            Call::Poll => {
                let moment = line.time();
                reader.poll(alloc, store, extractor, moment).print(line);
            }
            Call::Begin => {
                let begun = reader.begin(alloc, line.time());
                if line.made(begun).is_some() {
                    line.print_text("begun");
                }
            }
            _ => match reader.step(alloc, store, extractor) {
                Some(Ok(None)) => line.print_text("stepped"),
                Some(stepped) => stepped.print(line),
                None => line.unread(),
            },
        }
    }

    /// Asks the reader what it has.
    fn ask_reader(&mut self, call: Call, line: &mut CallLine<'_>) {
        let Some(reader) = &self.reader else {
            line.unread();
            return;
        };
        let reader = reader.reader();
        match call {
            Call::Mark => line.print_number(reader.mark()),
            Call::Tables => line.print_number(reader.tables_in_memory()),
            Call::Publish => {
                let published = reader.published(line.alloc());
                if let Some(state) = line.made(published) {
                    line.print_number(state.number());
                    self.published = Some(state);
                }
            }
            _ => scan_first(reader, &mut self.store, self.operator.as_ref(), line),
        }
    }

    /// Opens a reader in a mode.
    fn follow(&mut self, mode: DbReaderMode, options: &DbReaderOptions, line: &mut CallLine<'_>) {
        let (store, extractor) = (&mut self.store, self.extractor.as_ref());
        let opened = FollowerState::open(line.alloc(), store, mode, options, extractor, 0);
        if let Some((reader, polled)) = line.made(opened) {
            self.reader = Some(PolledReader::new(reader));
            polled.print(line);
        }
    }

    /// Puts what another handle would put.
    pub fn put(&mut self, line: &mut CallLine<'_>) {
        let store = &mut self.store;
        match line.name(PUTS) {
            Some(Put::First) => put_first(store, self.extractor.as_ref(), line),
            Some(Put::Log) => put_log(store, line),
            Some(Put::Table) => {
                let last = line.number();
                put_table(store, last, line);
                put_changed(store, Change::Table(last), line);
            }
            Some(Put::Last) => put_changed(store, Change::Last(line.number()), line),
            Some(Put::Segment) => put_changed(store, Change::Segment, line),
            Some(Put::Tracker) => put_changed(store, Change::Tracker, line),
            None => {}
        }
    }
}

/// Prints the first rows of a range, up to so many.
fn scan_first(
    reader: &FollowerState,
    store: &mut ToldStore,
    operator: Option<&Refusing>,
    line: &mut CallLine<'_>,
) {
    let range = range_of(line);
    let order = order_of(line);
    let limit = line.number();
    let rows = reader.scan_first(line.alloc(), store, &range, order, limit, operator);
    if let Some(mut rows) = line.made(rows) {
        print_left(&mut rows, line);
    }
}

/// Puts the first manifest, with the name of an extractor.
fn put_first(store: &mut ToldStore, extractor: Option<&Cuts>, line: &mut CallLine<'_>) {
    let mut manifest = first_manifest(line.alloc());
    if let Some(extractor) = extractor {
        let name = String::from_str(line.alloc(), extractor.name());
        manifest.extractor_name = line.made(name).map(Name::of);
    }
    store.put_manifest(line.alloc(), 1, &manifest).print(line);
}

/// Puts a log file whose one batch has its number.
fn put_log(store: &mut ToldStore, line: &mut CallLine<'_>) {
    let number = line.number();
    let batch = Batch {
        number,
        create_ts: 0,
        ops: ops_of(line),
    };
    store.put_log(line.alloc(), number, &[batch]).print(line);
}

/// What a manifest has that is otherwise the one before.
#[derive(Clone, Copy)]
enum Change {
    /// Another last number in its tables.
    Last(u64),
    /// The segment that the next word spells.
    Segment,
    /// The bytes of a tracker that the next word spells.
    Tracker,
    /// The table of the log files up to this one, in place of all others.
    Table(u64),
}

/// The table that has the batches up to a number, each of the log file of its number.
fn table_up_to(last: u64) -> TableId {
    TableId {
        epoch: 1,
        index: last,
    }
}

fn make_change(manifest: &mut Manifest, change: Change, line: &mut CallLine<'_>) {
    match change {
        Change::Last(number) => manifest.last_l0_seq = number,
        Change::Segment => manifest.segments = Seq::of(prefixes_of(line)),
        Change::Tracker => manifest.sequence_tracker = Some(Seq::of(line.byte_list())),
        Change::Table(last) => {
            let mut tables = Vec::new(line.alloc());
            tables.push(table_up_to(last)).print(line);
            manifest.tables = Seq::of(tables);
            manifest.last_l0_seq = last;
            manifest.replay_after_wal_id = last;
            manifest.next_wal_id = last.saturating_add(1);
        }
    }
}

/// Puts the latest manifest with a change under the next id.
fn put_changed(store: &mut ToldStore, change: Change, line: &mut CallLine<'_>) {
    if let Some(mut latest) = latest_of(store, line) {
        make_change(&mut latest.manifest, change, line);
        let id = latest.id.saturating_add(1);
        store
            .put_manifest(line.alloc(), id, &latest.manifest)
            .print(line);
    }
}

/// Puts the table of the log files up to one.
fn put_table(store: &mut ToldStore, last: u64, line: &mut CallLine<'_>) {
    let mut table = IndexedTable::new(line.alloc());
    for earlier in 0..last {
        let log = store.read_log(line.alloc(), earlier.saturating_add(1));
        if let Some(log) = line.made(log) {
            add_log(&mut table, &log, line);
        }
    }
    if let Some(table) = stored(table, line) {
        store
            .put_table(line.alloc(), table_up_to(last), &table)
            .print(line);
    }
}

fn add_log(table: &mut IndexedTable, log: &LogFile, line: &mut CallLine<'_>) {
    for batch in log.batches() {
        let copy: Result<_, _> = batch.clone();
        if let Some(batch) = line.made(copy) {
            push(table, batch).print(line);
        }
    }
}
