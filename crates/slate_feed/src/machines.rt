// A call of a feed that makes its calls of the store one by one.
ghost use Rattle.std.specs.Prelude.{◌≡◌, ◌≢◌, ◌+◌, ◌-◌, ◌<◌, ◌≤◌, false, Some, Ok, Err, List, [], length, IfOk, IfSome, slice_get, ◌^◌};
ghost use Rattle.slate_types.specs.Counts.{one_more};
ghost use Rattle.slate_types.specs.declared.batches.Batch.{Batch as ABatch};
ghost use Rattle.slate_types.specs.Line.{AreNumberedFrom, batches_above};
ghost use Rattle.slate_reads.specs.Index.{AreRising};
ghost use Rattle.slate_store.specs.Content.{IsSound, content};
ghost use Rattle.slate_store.specs.Objects.{latest_manifest};
ghost use Rattle.slate_feed.specs.Answer.{Answers, HasNoneAbove, most_calls};
ghost use Rattle.slate_feed.specs.declared.machines.Stage.TheVariants.{AskLast, Ended, ReadLatest};
ghost use Rattle.slate_feed.specs.Following.{FollowsLine, FollowsOn};
ghost use Rattle.slate_feed.specs.Reaching.{StepReaches};
ghost use Rattle.slate_feed.specs.Pieces.{tables_to_read};
ghost use Rattle.slate_feed.specs.Reading.{CanFollow, IsGoing, IsStaged, begun, log_stage, made, most_made, table_stage, taken};
ghost use Rattle.slate_feed.specs.Taking.{IsThrough};
ghost use Rattle.slate_feed.specs.Stepping.{CountsFaults, GoesBy, GoesTo, IsStagedBy, Meets, ReadsPiece, Steps, delivered};

use crate::pieces::{Found, Taken, last_through, take_from};
use crate::{Feed, FeedRefusal};
use slate_store::{Manifest, Store, StoreError, TableId};
use slate_types::{Batch, Seq};
use std::alloc::Global;
use std::marker::Model;
use std::mem;

/// What a step of a begun call answers.
#[derive(Debug, Drop)]
pub enum FeedStep {
    /// There is another step to make.
    More,
    /// The call has ended with these batches, and the feed's cursor is the number of the last.
    Batches(Seq<Batch>),
    /// The call has ended without any, since what it was to read isn't stored any more. The cursor is as it was.
    Moved,
}

/// The call of the store that is made next.
#[derive(Clone, Copy, Debug, PartialEq, Eq)]
pub(crate) enum Stage {
    ReadLatest,
    /// Of the table at this place.
    ReadTable { at: usize },
    AskLast,
    /// Of the log file with this id; another one is the last.
    ReadLog { id: u64, last: u64 },
    Ended,
}

/// What a call of the store leads to.
#[derive(Clone, Copy, Debug, PartialEq, Eq)]
pub(crate) enum Turn {
    Goes,
    Ends,
    Breaks,
}

/// A call of `Feed::next_batches` by single calls of the store: each step makes one, and others may use the store between two
/// of them, whatever they do there. The feed stays as it is until the step that delivers.
pub struct FeedMachine {
    cursor: u64,
    limit: u32,
    stage: Stage,
    /// The tables that it reads, oldest first.
    tables: Seq<TableId>,
    /// The last number in tables.
    tabled: u64,
    /// The replay mark: log files up to it are in tables.
    mark: u64,
    found: Found,
}

impl Drop for FeedMachine {
    fn drop(self) {
        let FeedMachine {
            cursor: _,
            limit: _,
            stage: _,
            tables: _,
            tabled: _,
            mark: _,
            found: _,
        } = self;
    }
}

impl Model for FeedMachine {
    ghost use Rattle.slate_feed.specs.Reading.{IsReading, Reading, reading_of};

    ghost Value = { Reading };

    ghost view = { reading_of };

    ghost invariant = { IsReading };
}

impl FeedMachine {
    /// Begins a call of a feed, which is done by `step`. It makes no call of the store, and takes no memory.
    pub fn begin(alloc: Global, feed: &Feed, limit: u32) -> FeedMachine
        ensures { result ≡ begun feed.now limit }
    {
        FeedMachine::new(alloc, feed.cursor(), limit)
    }

    /// One with this cursor.
    pub(crate) fn new(alloc: Global, cursor: u64, limit: u32) -> FeedMachine
        ensures { result ≡ begun cursor limit }
    {
        FeedMachine {
            cursor,
            limit,
            stage: Stage::ReadLatest,
            tables: Seq::of(Vec::new(alloc)),
            tabled: 0,
            mark: 0,
            found: Found {
                batches: Vec::new(alloc),
                end: 0,
                began: false,
            },
        }
    }

    /// Makes the next call of the store. It answers `More` while there is another to make, and then, once, the batches or that
    /// what it was to read was moved. The feed must be as it was at `begin`, and the call mustn't have ended.
    ///
    /// It delivers whole batches right above the cursor, and over an honest store those of the line that is stored then,
    /// whatever others did between its steps. They are as many as were stored at its first step, up to the limit, as long as
    /// the tables and log files that it goes by stay stored; else they may be fewer. There are at most as many `More` as the
    /// manifest has tables and as there are log files from its replay mark to the last, and one besides.
    ///
    /// # Errors
    ///
    /// answer | when
    /// ---|---
    /// `Moved` | a table or a log file isn't there any more, since others flushed or compacted and then swept, or a batch is past the next number; another call goes by a new manifest
    /// those of `next_batches`, but for `Moved` | as there
    ///
    /// After any of these the cursor is as it was, and the call has ended.
    ///
    /// # Cost
    ///
    /// One call of the store, and the time of `next_batches` for what it reads.
    pub fn step<S: Store>(
        &mut self,
        alloc: Global,
        feed: &mut Feed,
        store: &mut S,
    ) -> Result<FeedStep, FeedRefusal>
        requires going { IsGoing self.old.stage }
        requires cursor { feed.old ≡ self.old.cursor }
        ensures steps { IfSome (S.objects store.old) (λ o. Steps o self.old result self.new) }
        // Over an honest store, whatever others did to it since the step before.
        ensures follows { IfSome (S.objects store.old) (λ o. IsSound o → FollowsLine o (content o) self.old → FollowsOn o (content o) self.old.cursor result self.new) }
        // While the tables that it goes by and the log files above its replay mark stay stored.
        ensures reaches { IfSome (S.objects store.old) (λ o. StepReaches o self.old result self.new) }
        ensures counts { result ≡ Ok FeedStep.More → made self.new.stage self.new ≡ made self.old.stage self.old + 1 }
        ensures most { made self.old.stage self.old ≤ most_made self.old.stage self.old }
        ensures numbered { IfOk result (λ step. (batches : List ABatch) → step ≡ FeedStep.Batches batches → AreNumberedFrom feed.old batches) }
        ensures cursor { feed.new ≡ feed.old + length (delivered result) }
        // Then the next step may be made.
        ensures again { result ≡ Ok FeedStep.More → IsGoing self.new.stage × (feed.new ≡ self.new.cursor) }
        ensures ended { result ≢ Ok FeedStep.More → self.new.stage ≡ Ended }
        ensures kept { S.objects store.new ≡ S.objects store.old }
        ensures faults { CountsFaults (S.faults store.old) (S.faults store.new) result }
        ensures calls { S.calls store.new ≡ one_more (S.calls store.old) }
    {
        match self.call(alloc, store)? {
            Turn::Goes => Ok(FeedStep::More),
            Turn::Ends => {
                let batches = self.take_found(alloc);
                feed.advance(batches.as_slice());
                Ok(FeedStep::Batches(batches))
            }
            Turn::Breaks => Ok(FeedStep::Moved),
        }
    }

    /// Makes all steps one after another.
    pub(crate) fn run<S: Store>(
        &mut self,
        alloc: Global,
        store: &mut S,
    ) -> Result<Seq<Batch>, FeedRefusal>
        requires begun { self.old ≡ begun self.old.cursor self.old.limit }
        ensures answers { IfSome (S.objects store.old) (λ o. Answers o self.old.cursor self.old.limit result) }
        ensures none { result ≡ Ok [] → 0 < self.old.limit → IfSome (S.objects store.old) (λ o. HasNoneAbove o self.old.cursor self.new.end) }
        ensures numbered { IfOk result (AreNumberedFrom self.old.cursor) }
        ensures kept { S.objects store.new ≡ S.objects store.old }
        ensures faults { CountsFaults (S.faults store.old) (S.faults store.new) result }
        ensures calls { IfSome (S.objects store.old) (λ o. S.calls store.new ≤ S.calls store.old + most_calls self.old.cursor (latest_manifest o) o) }
    {
        loop {
            match self.call(alloc, store)? {
                Turn::Goes => {}
                Turn::Ends => return Ok(self.take_found(alloc)),
                Turn::Breaks => return Err(FeedRefusal::Moved),
            }
        }
    }

    /// The greatest number that was read.
    pub(crate) fn end(&self) -> u64
        ensures { result ≡ self.now.end }
    {
        self.found.end
    }

    /// Gives away the batches that it has found.
    fn take_found(&mut self, alloc: Global) -> Seq<Batch>
        requires { self.old.stage ≡ Ended }
        ensures found { result ≡ self.old.found }
        ensures numbered { AreNumberedFrom self.old.cursor result }
        ensures left { self.new ≡ record self.old { found = [] } }
    {
        Seq::of(mem::replace(&mut self.found.batches, Vec::new(alloc)))
    }

    /// Makes the next call of the store, and answers what it leads to.
    fn call<S: Store>(&mut self, alloc: Global, store: &mut S) -> Result<Turn, FeedRefusal>
        requires going { IsGoing self.old.stage }
        ensures meets { IfSome (S.objects store.old) (λ o. Meets self.old.stage o (taken self.old) result self.new) }
        ensures counts { result ≡ Ok Turn.Goes → made self.new.stage self.new ≡ made self.old.stage self.old + 1 }
        ensures bounded { made self.old.stage self.old ≤ 2 ^ 65 }
        ensures most { made self.old.stage self.old ≤ most_made self.old.stage self.old }
        ensures fits { IsStaged self.old.stage self.old }
        ensures cursor { self.new.cursor ≡ self.old.cursor }
        ensures staged { IsStagedBy result self.new.stage }
        ensures kept { S.objects store.new ≡ S.objects store.old }
        ensures faults { CountsFaults (S.faults store.old) (S.faults store.new) result }
        ensures calls { S.calls store.new ≡ one_more (S.calls store.old) }
    {
        let stage = self.stage;
        self.stage = Stage::Ended;
        match stage {
            Stage::ReadLatest => self.call_latest(alloc, store),
            Stage::ReadTable { at } => self.call_table(alloc, store, at),
            Stage::AskLast => self.call_last(alloc, store),
            Stage::ReadLog { id, last } => self.call_log(alloc, store, id, last),
            Stage::Ended => unreachable!(),
        }
    }

    /// Reads the latest manifest.
    fn call_latest<S: Store>(&mut self, alloc: Global, store: &mut S) -> Result<Turn, FeedRefusal>
        requires ended { self.old.stage ≡ Ended }
        requires fresh { (self.old.found ≡ []) × (self.old.began ≡ false) }
        ensures meets { IfSome (S.objects store.old) (λ o. Meets ReadLatest o self.old result self.new) }
        ensures counts { result ≡ Ok Turn.Goes → made self.new.stage self.new ≡ 1 }
        ensures cursor { self.new.cursor ≡ self.old.cursor }
        ensures staged { IsStagedBy result self.new.stage }
        ensures kept { S.objects store.new ≡ S.objects store.old }
        ensures faults { CountsFaults (S.faults store.old) (S.faults store.new) result }
        ensures calls { S.calls store.new ≡ one_more (S.calls store.old) }
    {
        match store.latest_manifest(alloc) {
            Ok(Some(latest)) => Ok(self.adopt(alloc, latest.manifest)),
            Ok(None) => Err(FeedRefusal::LatestTransactionalObjectVersionMissing),
            Err(error) => Err(FeedRefusal::of_call(error)),
        }
    }

    /// Goes on by a manifest, where a batch is asked for.
    fn adopt(&mut self, alloc: Global, manifest: Manifest) -> Turn
        requires ended { self.old.stage ≡ Ended }
        requires fresh { (self.old.found ≡ []) × (self.old.began ≡ false) }
        ensures by { GoesBy manifest self.old result self.new }
        ensures counts { result ≡ Turn.Goes → made self.new.stage self.new ≡ 1 }
        ensures staged { IsStagedBy (Ok result) self.new.stage }
    {
        self.tabled = manifest.last_l0_seq;
        self.mark = manifest.replay_after_wal_id;
        self.found.end = manifest.last_l0_seq;
        self.tables = tables_to_read(alloc, self.cursor, manifest);
        if self.limit == 0 {
            return Turn::Ends;
        }
        self.stage = self.from_table(0);
        Turn::Goes
    }

    /// The call after which the tables from this place on are read.
    fn from_table(&self, at: usize) -> Stage
        ensures value { result ≡ table_stage self.now.tables at }
    {
        if at < self.tables.as_slice().len() {
            Stage::ReadTable { at }
        } else {
            Stage::AskLast
        }
    }

    fn call_table<S: Store>(
        &mut self,
        alloc: Global,
        store: &mut S,
        at: usize,
    ) -> Result<Turn, FeedRefusal>
        requires ended { self.old.stage ≡ Ended }
        requires staged { IsStaged (Stage.ReadTable at) self.old }
        ensures meets { IfSome (S.objects store.old) (λ o. Meets (Stage.ReadTable at) o self.old result self.new) }
        ensures counts { result ≡ Ok Turn.Goes → made self.new.stage self.new ≡ 2 + at }
        ensures cursor { self.new.cursor ≡ self.old.cursor }
        ensures staged { IsStagedBy result self.new.stage }
        ensures kept { S.objects store.new ≡ S.objects store.old }
        ensures faults { CountsFaults (S.faults store.old) (S.faults store.new) result }
        ensures calls { S.calls store.new ≡ one_more (S.calls store.old) }
    {
        let id = self.table(at);
        match store.read_table(alloc, id) {
            Ok(table) => {
                let from = last_through(table.batches(), self.cursor);
                self.take(0, table.batches(), from, self.from_table(at + 1))
            }
            Err(StoreError::NotFound) => Ok(Turn::Breaks),
            Err(error) => Err(FeedRefusal::of_call(error)),
        }
    }

    /// The id of the table at a place.
    fn table(&self, at: usize) -> TableId
        requires { at < length self.now.tables }
        ensures at_ { slice_get self.now.tables at ≡ Some result }
        ensures few { length self.now.tables < 2 ^ 64 }
    {
        self.tables.as_slice()[at]
    }

    /// Asks for the last log file.
    fn call_last<S: Store>(&mut self, alloc: Global, store: &mut S) -> Result<Turn, FeedRefusal>
        requires ended { self.old.stage ≡ Ended }
        requires staged { IsStaged AskLast self.old }
        ensures meets { IfSome (S.objects store.old) (λ o. Meets AskLast o self.old result self.new) }
        ensures counts { result ≡ Ok Turn.Goes → made self.new.stage self.new ≡ 2 + length self.old.tables }
        ensures cursor { self.new.cursor ≡ self.old.cursor }
        ensures staged { IsStagedBy result self.new.stage }
        ensures kept { S.objects store.new ≡ S.objects store.old }
        ensures faults { CountsFaults (S.faults store.old) (S.faults store.new) result }
        ensures calls { S.calls store.new ≡ one_more (S.calls store.old) }
    {
        match store.last_log(alloc, self.mark) {
            Ok(last) => self.go_to(log_after(self.mark, last)),
            Err(error) => Err(FeedRefusal::of_call(error)),
        }
    }

    /// Reads a log file.
    fn call_log<S: Store>(
        &mut self,
        alloc: Global,
        store: &mut S,
        id: u64,
        last: u64,
    ) -> Result<Turn, FeedRefusal>
        requires ended { self.old.stage ≡ Ended }
        requires staged { IsStaged (Stage.ReadLog id last) self.old }
        ensures meets { IfSome (S.objects store.old) (λ o. Meets (Stage.ReadLog id last) o self.old result self.new) }
        ensures counts { result ≡ Ok Turn.Goes → made self.new.stage self.new ≡ 2 + length self.old.tables + (id - self.old.mark) }
        ensures cursor { self.new.cursor ≡ self.old.cursor }
        ensures staged { IsStagedBy result self.new.stage }
        ensures kept { S.objects store.new ≡ S.objects store.old }
        ensures faults { CountsFaults (S.faults store.old) (S.faults store.new) result }
        ensures calls { S.calls store.new ≡ one_more (S.calls store.old) }
    {
        match store.read_log(alloc, id) {
            Ok(log) => self.take(self.tabled, log.batches(), 0, log_after(id, last)),
            Err(StoreError::NotFound) => Ok(Turn::Breaks),
            Err(error) => Err(FeedRefusal::of_call(error)),
        }
    }

    /// Takes the batches of a piece that are above a number, from a place on, and goes on to this call.
    fn take(
        &mut self,
        above: u64,
        batches: &[Batch],
        from: usize,
        next: Stage,
    ) -> Result<Turn, FeedRefusal>
        requires within { from ≤ length batches.now }
        requires passed { IsThrough self.old.cursor from batches.now }
        requires rising { from ≢ 0 → AreRising batches.now }
        requires ended { self.old.stage ≡ Ended }
        requires room { length self.old.found < self.old.limit }
        requires next { CanFollow next self.old }
        ensures reads { ReadsPiece (Some (batches_above above batches.now)) next self.old result self.new }
        ensures cursor { self.new.cursor ≡ self.old.cursor }
        ensures staged { IsStagedBy result self.new.stage }
        ensures unfailed { result ≢ Err FeedRefusal.ObjectStoreError }
    {
        match take_from(
            &mut self.found,
            self.cursor,
            self.limit,
            above,
            batches,
            from,
        )? {
            Taken::Whole => {
                if self.found.batches.len() >= self.limit as usize {
                    return Ok(Turn::Ends);
                }
                self.go_to(next)
            }
            Taken::Gap => Ok(Turn::Breaks),
            Taken::Below(floor) => Err(FeedRefusal::BeforeFloor {
                cursor: self.cursor,
                floor,
            }),
        }
    }

    /// Goes on to a call, or ends where all is read.
    fn go_to(&mut self, next: Stage) -> Result<Turn, FeedRefusal>
        requires ended { self.old.stage ≡ Ended }
        requires room { length self.old.found < self.old.limit }
        requires next { CanFollow next self.old }
        ensures goes { GoesTo next self.old result self.new }
    {
        if next != Stage::Ended {
            self.stage = next;
            return Ok(Turn::Goes);
        }
        if !self.found.began && self.cursor < self.tabled {
            return Err(FeedRefusal::BeforeFloor {
                cursor: self.cursor,
                floor: self.tabled,
            });
        }
        Ok(Turn::Ends)
    }
}

/// The call after a log file, where this is the last one.
fn log_after(id: u64, last: u64) -> Stage
    ensures { result ≡ log_stage id last }
{
    if id < last {
        Stage::ReadLog { id: id + 1, last }
    } else {
        Stage::Ended
    }
}

/// The tables that a call reads under a manifest: none where the cursor is at or above the last number in them.
fn tables_to_read(alloc: Global, cursor: u64, manifest: Manifest) -> Seq<TableId>
    ensures value { result ≡ tables_to_read cursor manifest }
    ensures few { length result < 2 ^ 64 }
{
    let tables = if cursor < manifest.last_l0_seq {
        manifest.tables
    } else {
        Seq::of(Vec::new(alloc))
    };
    // For the proof alone: a list in memory has a length that is a number.
    let _count = tables.as_slice().len();
    tables
}
