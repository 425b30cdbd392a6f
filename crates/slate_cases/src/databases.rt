// The subject `database`: a store that fails as told, and what is opened over it, by script lines and by calls.
use crate::feeds::SteppedFeed;
use crate::polled::PolledReader;
use slate_calls::answers::Answer;
use slate_calls::call_line::CallLine;
use slate_calls::object_calls::{call_checkpoints, call_objects};
use slate_calls::operators::{Cuts, Refusing, extractor_of, operator_of};
use slate_calls::store_calls::call_store;
use slate_calls::subjects::Subject;
use slate_calls::told_stores::ToldStore;
use slate_follow::PublishedState;
use slate_live::{Command, LineAnswer, LiveState, Options, print_replies, read_line};
use slate_reads::IndexedTable;
use slate_replay::replay;
use slate_route::Router;
use slate_writer::{BoardWatch, Transaction, WriterState};
use std::alloc::Global;
use std::sync::Arc;
use uuid::Uuid;

const OPTIONS: Options = Options {
    max_unflushed_bytes: 1_073_741_824,
    compactor: true,
    compaction_worker: true,
    collector: true,
};

#[derive(Clone, Copy)]
enum Call {
    Store,
    Objects,
    Checkpoint,
    Handle,
    Transaction,
    Reader,
    Feed,
    Router,
    Put,
    Replay,
    Restart,
    Operator,
    Extractor,
    Watch,
}

const CALLS: &[(&[u8], Call)] = &[
    (b"store", Call::Store),
    (b"objects", Call::Objects),
    (b"checkpoint", Call::Checkpoint),
    (b"handle", Call::Handle),
    (b"transaction", Call::Transaction),
    (b"reader", Call::Reader),
    (b"feed", Call::Feed),
    (b"router", Call::Router),
    (b"put", Call::Put),
    (b"replay", Call::Replay),
    (b"restart", Call::Restart),
    (b"operator", Call::Operator),
    (b"extractor", Call::Extractor),
    (b"watch", Call::Watch),
];

/// A store, the objects of a session over it, and one handle, one reader, one feed and one router beside these.
pub struct Database {
    pub store: ToldStore,
    pub operator: Option<Refusing>,
    pub extractor: Option<Cuts>,
    live: LiveState,
    pub handle: Option<WriterState>,
    /// A view of a handle, which may be another one by now.
    pub watch: Option<BoardWatch>,
    /// The transactions of the handle in the order in which they began, but for those that ended.
    pub transactions: Vec<Option<Transaction>>,
    pub reader: Option<PolledReader>,
    pub published: Option<Arc<PublishedState, Global>>,
    pub feed: Option<SteppedFeed>,
    pub router: Router,
    checkpoints: Vec<Uuid>,
}

impl Drop for Database {
    fn drop(self) {
        let Database {
            store: _,
            operator: _,
            extractor: _,
            live: _,
            handle: _,
            watch: _,
            transactions: _,
            reader: _,
            published: _,
            feed: _,
            router: _,
            checkpoints: _,
        } = self;
    }
}

impl Database {
    /// An empty store, over which nothing is open.
    pub fn new(alloc: Global) -> Database {
        Database {
            store: ToldStore::new(alloc),
            operator: None,
            extractor: None,
            live: LiveState::new(alloc, &OPTIONS),
            handle: None,
            watch: None,
            transactions: Vec::new(alloc),
            reader: None,
            published: None,
            feed: None,
            router: Router::new(alloc),
            checkpoints: Vec::new(alloc),
        }
    }

    /// Does the command of a script line, and prints its reply.
    fn apply_line(&mut self, line: &mut CallLine<'_>) {
        let read = read_line(line.alloc(), line.joined().as_slice());
        match line.made(read) {
            Some(LineAnswer::Command(command)) => self.apply(&command, line),
            _ => line.unread(),
        }
    }

    fn apply(&mut self, command: &Command, line: &mut CallLine<'_>) {
        let alloc = line.alloc();
        let (operator, extractor) = (self.operator.as_ref(), self.extractor.as_ref());
        let reply = self
            .live
            .apply(alloc, &mut self.store, operator, extractor, command);
        let mut text = Vec::new(alloc);
        print_replies(&mut text, &[reply]).print(line);
        line.print_lines(text.as_slice(), "; ");
    }
}

impl Subject for Database {
    fn anew(&self, alloc: Global) -> Database {
        Database::new(alloc)
    }

    fn call(&mut self, line: &mut CallLine<'_>) {
        match line.find(CALLS) {
            Some(Call::Store) => call_store(&mut self.store, line),
            Some(Call::Objects) => call_objects(&mut self.store, line),
            Some(Call::Checkpoint) => {
                call_checkpoints(&mut self.store, &mut self.checkpoints, line);
            }
            Some(Call::Handle) => self.call_handle(line),
            Some(Call::Transaction) => self.call_transaction(line),
            Some(Call::Reader) => self.call_reader(line),
            Some(Call::Feed) => self.call_feed(line),
            Some(Call::Router) => self.call_router(line),
            Some(Call::Put) => self.put(line),
            Some(Call::Replay) => replay_twice(&mut self.store, line),
            Some(Call::Restart) => self.live = LiveState::new(line.alloc(), &OPTIONS),
            Some(Call::Operator) => self.operator = Some(operator_of(line)),
            Some(Call::Extractor) => self.extractor = extractor_of(line),
            Some(Call::Watch) => print_watch(&mut self.watch, line),
            None => self.apply_line(line),
        }
    }
}

/// Appends the tick, the durable number and the close code that a view loads.
fn print_watch(watch: &mut Option<BoardWatch>, line: &mut CallLine<'_>) {
    match watch {
        Some(watch) => {
            let view = watch.load();
            line.print_time(view.tick);
            line.add_number(view.durable);
            line.add_number(view.close);
        }
        None => line.unread(),
    }
}

/// Replays the log files twice into one table, and appends how each replay ends, and how many batches the table has.
fn replay_twice(store: &mut ToldStore, line: &mut CallLine<'_>) {
    let (floor, mark, last) = (line.number(), line.number(), line.number());
    let mut memory = IndexedTable::new(line.alloc());
    replay(line.alloc(), store, &mut memory, floor, mark, last).print(line);
    replay(line.alloc(), store, &mut memory, floor, mark, last).print(line);
    line.print_number(memory.batches().len() as u64);
}
