// What a handle that writes keeps, and its batches above a number.
ghost use Rattle.std.specs.Prelude.{◌≡◌, ◌-◌, ◌≤◌, IfOk, length};
ghost use Rattle.slate_types.specs.Line.{IsLine, batches_above};
ghost use Rattle.slate_reads.specs.Index.{AreRising};
ghost use Rattle.slate_status.specs.Segments.{PrefixesRise as AreRisingPrefixes};
ghost use Rattle.slate_model.specs.Handle.{accepted, has_untabled, kept_handle, to_log, untabled_segments};
ghost use Rattle.slate_model.specs.Status.{handle_status};

use crate::key_prefixes::{clear_unless, rise};
use crate::memories::Memory;
use bytes::Bytes;
use slate_board::{Board, BoardSeat};
use slate_errors::CloseFault;
use slate_seqtrack::SequenceTracker;
use slate_status::{DbStatus, StatusRecord, copies};
use slate_store::VersionedManifest;
use slate_tasks::Tasks;
use slate_transactions::TrackedWrites;
use slate_types::{Batch, NoMemory, Seq};
use std::alloc::Global;
use std::marker::Model;
use std::sync::Arc;

/// A handle that writes, without the store that it writes to. SlateDB's `Db`, as a plain value.
///
/// A contract sees it as a handle whose line is the batches that it keeps in memory: after each flush, refresh and
/// compaction these are the batches that it accepted and that aren't in the tables of its manifest. Its memory grows
/// with them, and with the prefixes of their keys, where it writes with an extractor; once the unflushed bytes reach
/// its limit (`WriterOptions`), it accepts no batch until a flush brings them below. It keeps when batches were
/// written, of at most 8192 (`find_ts`, `find_seq`): those that it wrote or replayed, and those of which the manifest knew
/// by which it was opened. And it keeps from its first transaction on, for good, which batch last wrote each key. Tasks run
/// for it until it is closed.
pub struct WriterState {
    pub(crate) keeps_log: bool,
    pub(crate) limit: u64,
    pub(crate) floor: u64,
    pub(crate) memory: Memory,
    /// The prefixes of the batches in memory, rising.
    pub(crate) segments: Vec<Bytes>,
    /// Whether the prefixes of the manifest that it goes by rise.
    pub(crate) stored_rise: bool,
    pub(crate) epoch: u64,
    pub(crate) counter: u64,
    /// What other threads read of it: its tick, its durable number and its close code.
    pub(crate) board: Arc<Board, Global>,
    /// The seat that alone changes them.
    pub(crate) lead: BoardSeat,
    pub(crate) tick: i64,
    pub(crate) tracker: SequenceTracker,
    /// The last writes that it tracks for transactions, from the first of them on.
    pub(crate) tracked: Option<TrackedWrites>,
    /// The batches in memory above this number have `unlogged` bytes of keys and values.
    pub(crate) counted: u64,
    pub(crate) unlogged: u64,
    pub(crate) status: StatusRecord,
    pub(crate) tasks: Tasks,
}

impl Drop for WriterState {
    fn drop(self) {
        let WriterState {
            keeps_log: _,
            limit: _,
            floor: _,
            memory: _,
            segments: _,
            stored_rise: _,
            epoch: _,
            counter: _,
            board: _,
            lead: _,
            tick: _,
            tracker: _,
            tracked: _,
            counted: _,
            unlogged: _,
            status: _,
            tasks: _,
        } = self;
    }
}

impl Model for WriterState {
    ghost use Rattle.slate_model.specs.Handle.{Handle};

    ghost Value = { Handle };

    ghost use Rattle.slate_writer.specs.Kept.{handle_of, IsKeptHandle};

    ghost view = { handle_of };

    ghost invariant = { IsKeptHandle };
}

impl WriterState {
    /// The number of the last batch that it accepted. It takes constant time.
    pub fn accepted(&self) -> u64
        ensures value { result ≡ accepted self.now }
        // The batches in memory are numbered one after another.
        ensures line { IsLine self.now.line }
    {
        self.floor + self.memory.batches().len() as u64
    }

    /// The number up to which its batches are stored.
    pub fn durable(&self) -> u64
        ensures value { result ≡ self.now.durable }
        ensures accepted { result ≤ accepted self.now }
    {
        self.status.durable()
    }

    /// Its epoch, with which it fenced the handles that were opened before it: that of each is above theirs.
    pub fn epoch(&self) -> u64
        ensures { result ≡ self.now.epoch }
    {
        self.epoch
    }

    /// The creation time of its last batch, in milliseconds; the greatest one in the manifest that it opened by and in the log
    /// files that it replayed, where it accepted none. A write below it is refused.
    pub fn tick(&self) -> i64
        ensures { result ≡ self.now.tick }
    {
        self.tick
    }

    /// Whether it keeps a log.
    pub fn keeps_log(&self) -> bool
        ensures { result ≡ self.now.keeps_log }
    {
        self.keeps_log
    }

    /// The result with which it closed, or None while it is open.
    pub fn closed(&self) -> Option<Result<(), CloseFault>>
        ensures { result ≡ self.now.result }
    {
        self.status.result()
    }

    /// A copy of what it reports of itself: the number up to which its batches are stored, the manifest that it goes by
    /// (the latest, when it was opened or last found its epoch current), and why it closed, where it did. It is
    /// answered of a closed handle, too, and changes nothing. It has the prefixes of the batches that aren't in the tables of
    /// that manifest, rising, each once. It takes time and memory linear in the manifest and in these prefixes. SlateDB's
    /// `status`.
    pub fn status(&self, alloc: Global) -> Result<DbStatus, NoMemory>
        ensures { IfOk result (λ status. status ≡ handle_status self.now) }
    {
        Ok(DbStatus {
            memtable_segments: Seq::of(copies(alloc, self.untabled_segments())?),
            ..self.status.status(alloc)?
        })
    }

    /// The manifest that it goes by.
    pub(crate) fn view(&self) -> &VersionedManifest
        ensures { result.now ≡ self.now.view }
    {
        self.status.manifest()
    }

    /// Takes a manifest as the one that it goes by.
    pub(crate) fn adopt(&mut self, manifest: VersionedManifest)
        ensures { self.new ≡ record self.old { view = manifest } }
    {
        let durable = self.durable();
        self.stored_rise = rise(manifest.manifest.segments.as_slice());
        self.status.report_view(durable, manifest);
    }

    /// Whether it accepted batches that aren't in the tables of the manifest that it goes by.
    pub(crate) fn has_untabled(&self) -> bool
        ensures { result ≡ has_untabled self.now self.now.view.manifest }
    {
        self.view().manifest.last_l0_seq < self.accepted()
    }

    /// The prefixes of those batches, rising.
    pub(crate) fn untabled_segments(&self) -> &[Bytes]
        ensures value { result.now ≡ untabled_segments self.now }
        ensures rising { AreRisingPrefixes result.now }
    {
        if !self.has_untabled() {
            return &[];
        }
        self.segments.as_slice()
    }

    /// The batches in memory above a number.
    pub(crate) fn batches_above(&self, number: u64) -> &[Batch]
        ensures value { result.now ≡ batches_above number self.now.line.batches }
        ensures rising { AreRising result.now }
    {
        let batches = self.memory.batches();
        let start = number.saturating_sub(self.floor).min(batches.len() as u64);
        &batches[start as usize..]
    }

    /// The batches that a flush puts into the log: those that aren't stored yet, where the handle keeps one.
    pub(crate) fn to_log(&self) -> &[Batch]
        ensures { result.now ≡ to_log self.now }
    {
        if !self.keeps_log {
            return &[];
        }
        self.batches_above(self.durable())
    }

    /// Drops the batches that are in the tables of the manifest that it goes by, and, where all are, their prefixes.
    pub(crate) fn drop_flushed(&mut self, alloc: Global)
        ensures { self.new ≡ kept_handle self.old }
    {
        let accepted = self.accepted();
        let tabled = self.view().manifest.last_l0_seq;
        let untabled = self.has_untabled();
        clear_unless(&mut self.segments, untabled);
        self.memory.drop_through(alloc, tabled);
        self.floor = accepted - self.memory.batches().len() as u64;
        if self.counted < tabled {
            self.unlogged = self.memory.size();
        }
    }
}
