// A read service on threads: while one thread writes, one flushes, one polls and one serves. What one scan of a reader finds is of
// one state of the database, whatever is stored meanwhile, and no later one goes back behind it.
//
// Here the states are the balances of two accounts. Each transfer writes both as one batch, so that in every state they come to
// 100.
use slate_db::{
    ByteRange, Db, DbIterator, DbReadOps, DbReader, DbReaderMode, DbReaderOptions, DbWriteOps,
    Error, MemoryStore, NoExtractor, NoMerge, SharedStore, SlateError, Stop, SystemClock,
    WriteBatch, WriterOptions,
};
use std::alloc::Global;
use std::rt::Clock;
use std::sync::Wait;
use std::thread::{Threads, join};

/// What a service found in its scans.
#[derive(Clone, Copy, Debug, PartialEq, Eq)]
pub struct Served {
    /// Whether both balances came to 100 in each.
    pub are_whole: bool,
    /// Bob's balance in the last one.
    pub bob: u8,
}

/// The database in which the bank keeps its accounts.
type Bank<R> = Db<SharedStore<R, MemoryStore>, NoMerge, NoExtractor, SystemClock<R>>;

/// What serves the balances to others.
type Service<R> = DbReader<SharedStore<R, MemoryStore>, NoMerge, NoExtractor, SystemClock<R>>;

/// The balances of Ann and Bob after each transfer.
pub const TRANSFERS: [(u8, u8); 5] = [(100, 0), (90, 10), (70, 30), (40, 60), (20, 80)];

/// What a service finds in a hundred scans beside all transfers, and after its last poll.
pub fn serve_transfers<R>(rt: R, alloc: Global) -> Result<(bool, Served), Error>
where
    R: Threads + Wait + Clock + Copy + Send + Sync,
{
    let store = SharedStore::new(alloc, rt, MemoryStore::new(alloc))?;
    let bank = Db::open(alloc, rt, store.share()?, &WriterOptions::default())?;
    let options = DbReaderOptions {
        manifest_poll_interval_ms: 1,
        ..DbReaderOptions::default()
    };
    let service = DbReader::open(alloc, rt, store, DbReaderMode::FollowLatest, &options)?;
    let is_served = serve_beside(&rt, alloc, &bank, &service);
    service.poll(&rt, alloc)?;
    Ok((is_served, serve(&rt, alloc, &service)?))
}

/// Runs the four threads until the last transfer is durable. Whether none failed, and each scan found a whole state.
fn serve_beside<R>(rt: &R, alloc: Global, bank: &Bank<R>, service: &Service<R>) -> bool
where
    R: Threads + Wait + Clock + Copy + Send + Sync,
{
    let stop = &Stop::new();
    let (stored, kept_on) = join(
        rt,
        move || transfer_all(rt, alloc, bank, stop),
        move || keep_on(rt, alloc, bank, service, stop),
    );
    stored && kept_on
}

/// Makes each transfer, and stops the flusher and the poller. Whether each became durable.
fn transfer_all<R>(rt: &R, alloc: Global, bank: &Bank<R>, stop: &Stop) -> bool
where
    R: Wait + Clock + Drop,
{
    let mut are_durable = true;
    for balances in TRANSFERS {
        are_durable = are_durable && transfer(rt, alloc, bank, balances).is_ok();
    }
    stop.stop(rt);
    are_durable
}

/// Writes both balances as one batch, and waits until that is durable.
fn transfer<R>(rt: &R, alloc: Global, bank: &Bank<R>, (ann, bob): (u8, u8)) -> Result<(), Error>
where
    R: Wait + Clock + Drop,
{
    let mut batch = WriteBatch::new(alloc);
    batch.put(alloc, b"ann", &[ann])?;
    batch.put(alloc, b"bob", &[bob])?;
    bank.write(rt, alloc, batch)?.await_durable(rt)
}

/// Runs the flusher of the bank, and the poller of the service beside those whom it serves.
fn keep_on<R>(rt: &R, alloc: Global, bank: &Bank<R>, service: &Service<R>, stop: &Stop) -> bool
where
    R: Threads + Wait + Clock + Copy + Send + Sync,
{
    let (flushed, (polled, whole)) = join(
        rt,
        move || bank.run_flusher(rt, alloc, 1, stop).is_ok(),
        move || {
            join(
                rt,
                move || service.run_poller(rt, alloc, stop).is_ok(),
                move || matches!(serve_often(rt, alloc, service), Ok(true)),
            )
        },
    );
    flushed && polled && whole
}

/// Serves a hundred times. Whether each scan found a whole state.
fn serve_often<R>(rt: &R, alloc: Global, service: &Service<R>) -> Result<bool, Error>
where
    R: Wait + Clock,
{
    let mut are_whole = true;
    for _ in 0..100 {
        are_whole = are_whole && serve(rt, alloc, service)?.are_whole;
    }
    Ok(are_whole)
}

/// Serves both balances, which one scan finds.
fn serve<R: Wait + Clock>(rt: &R, alloc: Global, service: &Service<R>) -> Result<Served, Error> {
    Ok(served_of(alloc, service.scan(rt, alloc, &ByteRange::full())?)?)
}

/// What the rows of a scan come to.
pub fn served_of(alloc: Global, rows: DbIterator) -> Result<Served, SlateError> {
    let rows = rows.into_rows(alloc)?;
    let (mut sum, mut bob) = (0_u8, 0);
    for row in rows.as_slice() {
        bob = row.value.as_slice().first().copied().unwrap_or(0);
        sum = sum.saturating_add(bob);
    }
    let are_whole = sum == 0 || sum == 100;
    Ok(Served { are_whole, bob })
}
