// What a reader that follows a database keeps.
ghost use Rattle.std.specs.Prelude.{◌≡◌, ◌≤◌, [], is_some, length, None, IfOk};
ghost use Rattle.slate_model.specs.Follower.{is_managed, is_pinned, number};
ghost use Rattle.slate_model.specs.Status.{follower_status};

use crate::rebuilds::Rebuilt;
use crate::tables::list_of;
use crate::tasks::start_tasks;
use bytes::Bytes;
use slate_errors::CloseFault;
use slate_model::Lease;
use slate_reads::Table;
use slate_status::{DbStatus, StatusRecord, copies};
use slate_store::{DbReaderMode, TableId};
use slate_tasks::Tasks;
use slate_types::{NoMemory, Seq};
use std::alloc::Global;
use std::marker::Model;

/// Which state of a database a reader follows, whether it sees the tables alone and reads no log file, and by how many numbers its
/// polls may leave it behind.
#[derive(Clone, Copy, Debug, PartialEq, Eq)]
pub(crate) struct Following {
    pub(crate) mode: DbReaderMode,
    pub(crate) skips: bool,
    pub(crate) lag: u64,
}

/// A reader that follows a database, without the store that it follows. SlateDB's `DbReader`, as a plain value.
///
/// A contract sees it as a follower whose line is the batches that it keeps in memory: those that aren't in the tables of
/// the manifest that it goes by.
pub struct FollowerState {
    pub(crate) following: Following,
    /// With how many bytes a table in memory takes no more batches.
    pub(crate) limit: u64,
    /// Its batches, joined: tables, oldest first, which states that it published share.
    pub(crate) kept: Vec<Table>,
    /// The number of the last batch that it sees.
    pub(crate) number: u64,
    /// The prefixes of its batches, rising, each once.
    pub(crate) segments: Seq<Bytes>,
    /// The log files up to this id are replayed.
    pub(crate) mark: u64,
    /// Of the checkpoint that it keeps of its own, where it does.
    pub(crate) lease: Option<Lease>,
    /// The manifest that it goes by, and the result with which it closed.
    pub(crate) status: StatusRecord,
    /// The task that runs until it is closed, unless it stays at a checkpoint.
    pub(crate) tasks: Tasks,
}

impl Drop for FollowerState {
    fn drop(self) {
        let FollowerState {
            following: _,
            limit: _,
            kept: _,
            number: _,
            segments: _,
            mark: _,
            lease: _,
            status: _,
            tasks: _,
        } = self;
    }
}

impl Model for FollowerState {
    ghost use Rattle.slate_model.specs.Follower.{Follower};

    ghost Value = { Follower };

    ghost use Rattle.slate_follow.specs.Kept.{follower_of, IsKeptFollower};

    ghost view = { follower_of };

    ghost invariant = { IsKeptFollower };
}

impl FollowerState {
    /// A reader that was opened with what was built, under a lease where it keeps a checkpoint of its own, and begins
    /// another table in memory where one has `limit` bytes.
    pub(crate) fn new(
        alloc: Global,
        rebuilt: Rebuilt,
        lease: Option<Lease>,
        limit: u64,
    ) -> Result<FollowerState, NoMemory>
        requires leased { is_some lease ≡ is_managed rebuilt.mode }
        ensures { IfOk result (λ new. new ≡ record rebuilt { lease = lease }) }
    {
        let number = rebuilt.number();
        let following = rebuilt.following;
        let tasks = start_tasks(alloc, following.mode)?;
        Ok(FollowerState {
            following,
            limit,
            kept: list_of(alloc, rebuilt.memory)?,
            number,
            segments: rebuilt.segments,
            mark: rebuilt.mark,
            lease,
            status: StatusRecord::new(alloc, number, rebuilt.view),
            tasks,
        })
    }

    /// The ids of the tables of the manifest that it goes by.
    pub(crate) fn tables(&self) -> &[TableId]
        ensures { result.now ≡ self.now.view.manifest.tables }
    {
        self.status.manifest().manifest.tables.as_slice()
    }

    /// Whether it stays at a checkpoint.
    pub(crate) fn is_pinned(&self) -> bool
        ensures { result ≡ is_pinned self.now.mode }
    {
        matches!(self.following.mode, DbReaderMode::Checkpoint(_))
    }

    /// The number of the last batch that it sees. It takes constant time.
    pub fn number(&self) -> u64
        ensures { result ≡ number self.now }
    {
        self.number
    }

    /// The id of the log file up to which it has what the log files have. After an answer `Whole` of a reader that follows
    /// the latest manifest and reads log files, no log file was stored above it; after `Truncated` it is the id before the
    /// log file where they break off. One that skips them answers its manifest's replay mark, and one of a checkpoint the
    /// last one that its manifest named. It takes constant time.
    pub fn mark(&self) -> u64
        ensures { result ≡ self.now.mark }
    {
        self.mark
    }

    /// How many tables in memory a get and a scan look in, beside the stored ones: at most as many as there are batches
    /// that it sees and that are in no stored table, and 0 only where there are none. Each takes a get a look-up, so
    /// where there are many, `max_memtable_bytes` is small for what its polls find. It takes constant time.
    pub fn tables_in_memory(&self) -> u64
        ensures few { result ≤ length self.now.line.batches }
        ensures none { result ≡ 0 → self.now.line.batches ≡ [] }
    {
        self.kept.len() as u64
    }

    /// The result with which it closed, or None while it is open.
    pub fn closed(&self) -> Option<Result<(), CloseFault>>
        ensures { result ≡ self.now.result }
    {
        self.status.result()
    }

    /// A copy of what it reports of itself: the number of the last batch that it sees, the manifest that it goes by
    /// (the latest, when it was opened or last polled, or that of its checkpoint), the prefixes of its batches that aren't in
    /// the tables of that manifest, and why it closed, where it did. It is answered of a closed reader, too, and changes
    /// nothing. Where all its polls were given the extractor with which it was opened, the prefixes rise, each once; none is
    /// there without an extractor. It takes time and memory linear in the manifest and in these prefixes. SlateDB's
    /// `DbReader::status`.
    pub fn status(&self, alloc: Global) -> Result<DbStatus, NoMemory>
        ensures { IfOk result (λ status. status ≡ follower_status self.now) }
    {
        Ok(DbStatus {
            durable_seq: self.number,
            memtable_segments: Seq::of(copies(alloc, self.segments.as_slice())?),
            ..self.status.status(alloc)?
        })
    }
}
