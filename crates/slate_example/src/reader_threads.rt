// A read service whose readers view without a lock: one thread writes, flushes, polls and publishes what its reader sees, and
// readers on threads of their own view that and scan it. As in the other service, each scan is of one state of the database.
ghost use Rattle.std.specs.Prelude.{◌≡◌, ◌≤◌, [], OnOk};
ghost use Rattle.slate_published.specs.States.{last_of};

use crate::read_service::{Served, TRANSFERS, served_of};
use slate_db::{
    ByteRange, DbReaderMode, DbReaderOptions, Error, FlushType, IterationOrder, MemoryStore,
    NoExtractor, NoMemory, NoMerge, SharedStore, WriteBatch, WriterOptions,
};
use slate_follow::{FollowerPublisher, FollowerReader, FollowerState, follower_readers};
use slate_writer::WriterState;
use std::alloc::Global;
use std::sync::Wait;
use std::sync::atomic::{AtomicBool, Ordering};
use std::thread::{self, Threads, join};

/// The store that all share. A reader of batches that are in tables asks it; one of the log alone doesn't.
type Shared<R> = SharedStore<R, MemoryStore>;

/// A reader that serves: what it views by, and what its scans found.
struct Server<R: Wait> {
    reader: FollowerReader,
    store: Shared<R>,
    are_whole: bool,
    last: Served,
}

impl<R: Wait + Drop> Drop for Server<R> {
    fn drop(self) {
        let Server {
            reader: _,
            store: _,
            are_whole: _,
            last: _,
        } = self;
    }
}

/// How many readers serve.
const SERVERS: u32 = 4;

/// What each of four readers found in its scans beside all transfers, and in one after them: whether all were whole, and Bob's
/// balance in the last one.
pub fn serve_without_lock<R>(rt: R, alloc: Global) -> Result<(bool, Vec<u8>), Error>
where
    R: Threads + Wait + Copy + Send + Sync,
{
    let store = SharedStore::new(alloc, rt, MemoryStore::new(alloc))?;
    let (mut publisher, readers) = follower_readers(&rt, alloc, SERVERS)?;
    let found = serve_all(&rt, alloc, store, &mut publisher, readers);
    publisher.end(&rt);
    found
}

/// Makes all transfers on this thread, beside the readers on theirs.
fn serve_all<R>(
    rt: &R,
    alloc: Global,
    store: Shared<R>,
    publisher: &mut FollowerPublisher,
    readers: Vec<FollowerReader>,
) -> Result<(bool, Vec<u8>), Error>
where
    R: Threads + Wait + Copy + Send + Sync,
    requires { publisher.old.states ≡ [] }
{
    let mut servers = Vec::new(alloc);
    for reader in readers {
        servers
            .push(Server::new(reader, store.share()?))
            .map_err(NoMemory::from)?;
    }
    let ended = &AtomicBool::new(false);
    let all = servers.as_mut_slice();
    let (_, transferred) = join(
        rt,
        || serve_until(rt, alloc, all, ended),
        ||
            requires { publisher.now.states ≡ [] }
        {
            let transferred = transfer_all(rt, alloc, store, publisher);
            ended.store(true, Ordering::SeqCst);
            transferred
        },
    );
    transferred?;
    let mut are_whole = true;
    let mut balances = Vec::new(alloc);
    for server in servers.as_mut_slice() {
        server.serve(alloc);
        are_whole = are_whole && server.are_whole;
        balances.push(server.last.bob).map_err(NoMemory::from)?;
    }
    Ok((are_whole, balances))
}

/// Lets each server serve on a thread of its own until all is transferred, at least once.
fn serve_until<R>(rt: &R, alloc: Global, servers: &mut [Server<R>], ended: &AtomicBool)
where
    R: Threads + Wait + Copy + Send + Sync,
{
    let threads = servers.len().max(1);
    thread::for_each_mut(
        rt,
        servers,
        threads,
        &|_, server: &mut Server<R>| {
            for _ in rt.forever() {
                server.serve(alloc);
                if ended.load(Ordering::SeqCst) {
                    break;
                }
            }
        },
    );
}

impl<R: Wait + Copy> Server<R> {
    fn new(reader: FollowerReader, store: Shared<R>) -> Server<R> {
        Server {
            reader,
            store,
            are_whole: true,
            last: Served {
                are_whole: true,
                bob: 0,
            },
        }
    }

    /// Serves both balances, which one scan of one view finds.
    fn serve(&mut self, alloc: Global) {
        let (view, order) = (self.reader.view(), IterationOrder::Ascending);
        let range = ByteRange::full();
        let found = view.scan(alloc, &mut self.store, &range, order, None::<&NoMerge>);
        match found.and_then(|rows| served_of(alloc, rows)) {
            Ok(served) => {
                self.are_whole = self.are_whole && served.are_whole;
                self.last = served;
            }
            Err(_) => self.are_whole = false,
        }
    }
}

/// Makes each transfer, flushes it, polls, and publishes what the poll found.
fn transfer_all<R: Wait + Copy>(
    rt: &R,
    alloc: Global,
    mut store: Shared<R>,
    publisher: &mut FollowerPublisher,
) -> Result<(), Error>
    requires { publisher.old.states ≡ [] }
{
    let extractor = None::<&NoExtractor>;
    let options = WriterOptions::default();
    let mut bank = WriterState::open(alloc, &mut store, &options, extractor)?;
    let (mode, options) = (DbReaderMode::FollowLatest, DbReaderOptions::default());
    let (mut follower, _) = FollowerState::open(alloc, &mut store, mode, &options, extractor, 0)?;
    let mut last = 0;
    for balances in TRANSFERS {
        transfer(alloc, &mut store, &mut bank, balances)?;
        follower.poll(alloc, &mut store, extractor, 0)?;
        publish(rt, alloc, &follower, publisher, &mut last)?;
    }
    Ok(())
}

/// Writes both balances as one batch, and flushes it.
fn transfer<R: Wait + Copy>(
    alloc: Global,
    store: &mut Shared<R>,
    bank: &mut WriterState,
    (ann, bob): (u8, u8),
) -> Result<(), Error> {
    let mut batch = WriteBatch::new(alloc);
    batch.put(alloc, b"ann", &[ann])?;
    batch.put(alloc, b"bob", &[bob])?;
    if let Err(refusal) = bank.write(alloc, batch, 0, None, None::<&NoExtractor>) {
        return Err(refusal.error.into());
    }
    bank.flush(alloc, store, FlushType::Wal)?;
    Ok(())
}

/// Publishes what a reader sees, unless that is older than what was published last.
fn publish<R: Wait>(
    rt: &R,
    alloc: Global,
    follower: &FollowerState,
    publisher: &mut FollowerPublisher,
    last: &mut u64,
) -> Result<(), NoMemory>
    requires { (last_of publisher.old.states).number ≤ last.old }
    ensures { (last_of publisher.new.states).number ≤ last.new }
{
    let number = follower.number();
    if number < *last || publisher.count() == u64::MAX {
        return Ok(());
    }
    publisher.publish(rt, follower.published(alloc)?)?;
    *last = number;
    Ok(())
}
