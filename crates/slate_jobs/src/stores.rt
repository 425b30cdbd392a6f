// The job store: its opening, and its calls.
ghost use Rattle.std.specs.Prelude.{◌≡◌, ◌⊎◌, ◌≤◌, ◌+◌, ℕ, ℤ, List, [], length, Some, None, is_some, Ok, Err, IfOk, IfErr, IfSome, IsSome, OnOk, OnErr, MatchResult};
ghost use Rattle.std.specs.BTreeMap.{insert_entry};
ghost use Rattle.std.specs.Ordering.{nat_cmp};
ghost use Rattle.slate_types.specs.declared.batches.Batch.{Batch as ABatch};
ghost use Rattle.slate_types.specs.declared.batches.KeyValue.{KeyValue as ARow};
ghost use Rattle.slate_types.specs.declared.read_faults.ReadFault.{ReadFault as AFault};
ghost use Rattle.slate_errors.specs.declared.errors.SlateError.TheVariants.{InvalidClockTick, NoMemory as OutOfMemory};
ghost use Rattle.slate_store.specs.Calls.{HasRisen};
ghost use Rattle.slate_store.specs.Content.{IsSound, content};
ghost use Rattle.slate_store.specs.Objects.{Objects, entry_at};
ghost use Rattle.slate_model.specs.Known.{known};
ghost use Rattle.slate_model.specs.Object.{Handle as AHandle};
ghost use Rattle.slate_model.specs.Stores.{kept_rows};
ghost use Rattle.slate_model.specs.Write.{write_refusal, written};
ghost use Rattle.slate_jobs.specs.declared.jobs.JobReply.{JobReply as AReply};
ghost use Rattle.slate_jobs.specs.Calls.{Accepts, Calls, RefusesBatch, Stands, Stores, TakesRequest};
ghost use Rattle.slate_jobs.specs.Causes.{IsCallRefusal, IsReady, IsScanRefusal, OpensFor, TakesBatches};
ghost use Rattle.slate_jobs.specs.Machine.{Machine as AMachine, kept_reply};
ghost use Rattle.slate_jobs.specs.Rows.{Holds};
ghost use Rattle.slate_jobs.specs.Decoding.{AreOfBytes, AreRows, machine_at};
ghost use Rattle.slate_jobs.specs.Queue.{IsHeld, Opens, OpensWriter};

use crate::effects::{Effect, is_full};
use crate::failures::{Failure, passing, refuse};
use crate::job_lists::JobList;
use crate::jobs::{JobOp, JobRefusal, JobReply};
use crate::reading::{Kept, note_rows, read_machine};
use crate::rows::Plan;
use slate_errors::SlateError;
use slate_rows::DbIterator;
use slate_store::Store;
use slate_types::{
    ByteRange, ConcatOperator, DurabilityLevel, FixedPrefix, FlushType, IterationOrder, KeyValue,
    NoMemory, ReadFault, ScanOptions, Seq, WriteBatch,
};
use slate_writer::{WriterOptions, WriterState};
use std::alloc::Global;
use std::collections::BTreeMap;
use std::marker::Model;

/// A job store on one writer, without the store that it writes to.
///
/// A contract sees it as its handle, its machine, and the refusal of the writer that ended it, where one did. The machine is a
/// list of jobs and the kept replies (`specs/Machine.antt`); its rows are those of `specs/Rows.antt`. It keeps all jobs and all
/// replies in memory.
pub struct JobStore {
    writer: WriterState,
    jobs: JobList,
    replies: BTreeMap<u64, JobReply>,
    failure: Option<Failure>,
}

impl Drop for JobStore {
    fn drop(self) {
        let JobStore {
            writer: _,
            jobs: _,
            replies: _,
            failure: _,
        } = self;
    }
}

impl Model for JobStore {
    ghost use Rattle.slate_jobs.specs.Queue.{Queue};

    ghost Value = { Queue };

    ghost view = { λ s. record { handle = s.writer; machine = record { jobs = s.jobs.items; replies = s.replies.entries }; failure = s.failure } };
}

impl JobStore {
    /// Opens the job store that a store holds, a new one where it holds nothing. It reads all rows.
    ///
    /// # Errors
    ///
    /// error | when
    /// ---|---
    /// `Foreign` | a row isn't one of a job or of a kept reply, the jobs' numbers have a gap, or a key has operands to merge
    /// `Writer(SegmentExtractorMismatch)` | the latest manifest names an extractor
    /// `Writer(InvalidDBState)` | the latest manifest isn't initialised, or its tracker isn't sound; or the next manifest, epoch or log file would pass the greatest number
    /// `Writer(ObjectStoreError)` | the store failed
    /// `NoMemory` | want of memory
    ///
    /// Over a store that more than handles wrote, any error of `WriterState::open` and `scan` may come as `Writer`.
    ///
    /// # Cost
    ///
    /// The calls of `WriterState::open`, and one for each table. Time linear in the rows, with a logarithm of the requests for each
    /// kept reply.
    ///
    /// # What stands after
    ///
    /// The store holds what it held, and at most a manifest with the next epoch and an empty log file more: after Ok and `Foreign`
    /// both. Then handles and job stores that were opened before are fenced. A store that holds a job store isn't `Foreign`.
    pub fn open<S: Store>(alloc: Global, store: &mut S) -> Result<JobStore, JobRefusal>
        ensures opens { (o : Objects) → S.objects store.old ≡ Some o → IsSound o → (o' : Objects) × (S.objects store.new ≡ Some o') × Opens o o' result }
        ensures causes { (o : Objects) → S.objects store.old ≡ Some o → IsSound o → OpensFor (HasRisen (S.faults store.old) (S.faults store.new)) o result }
        ensures known { (o : Objects) (machine : AMachine) → S.objects store.old ≡ Some o → IsSound o → Holds (content o).batches machine → result ≡ Err JobRefusal.Foreign → ⊥ }
        ensures ready { IfOk result IsReady }
        ensures faults { S.faults store.old ≤ S.faults store.new }
    {
        let writer = match open_writer(alloc, store) {
            Ok(writer) => writer,
            Err(refusal) => return Err(refusal),
        };
        match all_rows(alloc, store, &writer) {
            Ok(rows) => JobStore::of_rows(alloc, writer, rows.as_slice()),
            Err(refusal) => Err(refusal),
        }
    }

    /// The job store of a handle that reads these rows, where they are those of a machine.
    fn of_rows(
        alloc: Global,
        writer: WriterState,
        rows: &[KeyValue],
    ) -> Result<JobStore, JobRefusal>
        ensures queue { IfOk result (λ queue. (queue.handle ≡ writer) × (queue.failure ≡ None) × (machine_at rows.now ≡ Some queue.machine)) }
        ensures refused { IfErr result (λ refusal. (refusal ≡ JobRefusal.NoMemory) ⊎ ((refusal ≡ JobRefusal.Foreign) × (machine_at rows.now ≡ None))) }
        ensures bytes { AreOfBytes rows.now }
    {
        note_rows(rows);
        let Some(kept) = read_machine(alloc, rows)? else {
            return Err(JobRefusal::Foreign);
        };
        let Kept { jobs, replies } = kept;
        Ok(JobStore {
            writer,
            jobs: JobList::of(jobs),
            replies,
            failure: None,
        })
    }

    /// Answers a request: with the reply that is kept for its number, whatever it asks then, and else as the machine does. The
    /// reply, and what it says, is stored when it is answered. `moment` is in milliseconds.
    ///
    /// # Errors
    ///
    /// error | when
    /// ---|---
    /// `Full` | an enqueued job would have the greatest number
    /// `Writer(InvalidClockTick)` | the moment is below that of an earlier request that was accepted
    /// `Writer(Backpressure)` | as many bytes wait as can be counted
    /// `Writer(InvalidDBState)` | the next batch or log file would pass the greatest number
    /// `Writer(Fenced)` | the store was opened since, as a job store or by a handle
    /// `Writer(ObjectStoreError)` | the store failed
    /// `Writer` | the writer refused an earlier request: with the same error
    /// `NoMemory` | want of memory
    ///
    /// # Cost
    ///
    /// Three calls of the store at most, and none for a request that is repeated once its reply is stored. A logarithm of the jobs
    /// and the requests; for the first request after an opening, and after want of memory, time linear in the jobs.
    ///
    /// # What stands after
    ///
    /// After `Full`, and after a moment below the tick, nothing has changed. After `NoMemory` the request has had its effect or
    /// not, and may be repeated. Any other refusal of the writer ends the job store: it answers that to each later request, and
    /// is to be opened again; the next opening finds the request's effect, or doesn't, and so for those before it that answered
    /// `NoMemory`, all of them or none.
    pub fn call<S: Store>(
        &mut self,
        alloc: Global,
        store: &mut S,
        request: u64,
        op: JobOp,
        moment: i64,
    ) -> Result<JobReply, JobRefusal>
        ensures answers { Calls request op moment self.old result self.new }
        // Over an honest store that held it, to which nobody else wrote since.
        ensures stands { (o : Objects) → S.objects store.old ≡ Some o → IsHeld o self.old → (o' : Objects) × (S.objects store.new ≡ Some o') × Stands o o' self.old self.new result }
        // A job store is ready from its opening on, until a refusal of the writer ends it.
        ensures causes { (o : Objects) → S.objects store.old ≡ Some o → IsSound o → IsReady self.old →
            IfErr result (IsCallRefusal (HasRisen (S.faults store.old) (S.faults store.new)) o self.old op moment) }
        ensures ready { IsReady self.old → self.new.failure ≡ None → IsReady self.new }
        ensures ended { IsSome self.old.failure → store.new ≡ store.old }
        ensures faults { S.faults store.old ≤ S.faults store.new }
        ensures calls { S.calls store.new ≤ S.calls store.old + 3 }
    {
        if let Some(failure) = self.failure {
            return Err(JobRefusal::Writer(failure.error()));
        }
        if let Err(refusal) = self.take(alloc, request, op, moment) {
            return Err(refusal);
        }
        if let Err(refusal) = self.store(alloc, store) {
            return Err(refusal);
        }
        self.reply_to(request)
    }

    /// Takes a request: accepts it, where it has no reply.
    fn take(
        &mut self,
        alloc: Global,
        request: u64,
        op: JobOp,
        moment: i64,
    ) -> Result<(), JobRefusal>
        requires { self.old.failure ≡ None }
        ensures taken { OnOk result (TakesRequest request op moment self.old self.new) }
        ensures refused { IfErr result (λ refusal. (kept_reply self.old.machine request ≡ None) × RefusesBatch request op moment self.old self.new refusal) }
    {
        if self.has_reply(request) {
            return Ok(());
        }
        self.accept(alloc, request, op, moment)
    }

    /// Whether a request has a reply.
    fn has_reply(&self, request: u64) -> bool
        ensures { result ≡ is_some (kept_reply self.now.machine request) }
    {
        self.replies.contains_key(&request)
    }

    /// Accepts a request that has no reply: its batch is in the handle then, and its effect in the machine.
    fn accept(
        &mut self,
        alloc: Global,
        request: u64,
        op: JobOp,
        moment: i64,
    ) -> Result<(), JobRefusal>
        requires free { kept_reply self.old.machine request ≡ None }
        requires open { self.old.failure ≡ None }
        ensures accepted { OnOk result (Accepts request op moment self.old self.new) }
        ensures refused { IfErr result (RefusesBatch request op moment self.old self.new) }
    {
        if is_full(self.jobs.as_slice(), &op) {
            return Err(JobRefusal::Full);
        }
        self.jobs.prepare(alloc)?;
        let plan = Plan::of(alloc, &self.jobs, request, op, moment)?;
        let Plan { effect, batch } = plan;
        let Effect { change, reply } = effect;
        keep_reply(&mut self.replies, request, reply)?;
        match write(&mut self.writer, alloc, batch, moment) {
            Ok(()) => {
                self.jobs.make(alloc, change);
                Ok(())
            }
            Err(error) => {
                drop_reply(&mut self.replies, request);
                let (refusal, failure) = refuse(error);
                self.failure = failure;
                Err(refusal)
            }
        }
    }

    /// Stores what the handle accepted and didn't store yet.
    fn store<S: Store>(&mut self, alloc: Global, store: &mut S) -> Result<(), JobRefusal>
        requires { self.old.failure ≡ None }
        ensures stored { Stores (known S.objects S.faults store.old) self.old result self.new (known S.objects S.faults store.new) }
        ensures ticks { (previous next : ℤ) → result ≡ Err (JobRefusal.Writer (InvalidClockTick previous next)) → ⊥ }
        ensures faults { S.faults store.old ≤ S.faults store.new }
        ensures calls { S.calls store.new ≤ S.calls store.old + 3 }
    {
        if self.writer.accepted() <= self.writer.durable() {
            return Ok(());
        }
        match self.writer.flush(alloc, store, FlushType::Wal) {
            Ok(()) => Ok(()),
            Err(error) => {
                let (refusal, failure) = refuse(error);
                self.failure = failure;
                Err(refusal)
            }
        }
    }

    /// A copy of the reply that is kept for a request.
    fn reply_to(&self, request: u64) -> Result<JobReply, JobRefusal>
        ensures { MatchResult result (λ reply. kept_reply self.now.machine request ≡ Some reply) (λ refusal. refusal ≡ JobRefusal.NoMemory) }
    {
        match self.replies.get(&request) {
            Some(reply) => Ok(reply.clone().map_err(NoMemory::from)?),
            None => Err(JobRefusal::NoMemory),
        }
    }
}

/// Keeps a reply to a request that has none.
fn keep_reply(
    replies: &mut BTreeMap<u64, JobReply>,
    request: u64,
    reply: JobReply,
) -> Result<(), NoMemory>
    ensures ok { OnOk result (replies.new.entries ≡ insert_entry nat_cmp replies.old.entries request reply) }
    ensures err { OnErr result (replies.new.entries ≡ replies.old.entries) }
{
    replies.insert(request, reply).map_err(NoMemory::from)?;
    Ok(())
}

/// Takes out the reply to a request that had none before.
fn drop_reply(replies: &mut BTreeMap<u64, JobReply>, request: u64)
    ensures { (reply : AReply) (before : List (ℕ × AReply)) → entry_at request before ≡ None → replies.old.entries ≡ insert_entry nat_cmp before request reply → replies.new.entries ≡ before }
{
    replies.remove(&request);
}

/// Writes a batch, without an extractor.
fn write(
    writer: &mut WriterState,
    alloc: Global,
    batch: WriteBatch,
    moment: i64,
) -> Result<(), SlateError>
    ensures ok { OnOk result ((at : ℤ) × (writer.new ≡ written None writer.old batch.ops at)) }
    ensures err { IfErr result (λ error. ((error ≡ OutOfMemory) ⊎ (write_refusal None writer.old batch.ops moment None ≡ Some error)) × (writer.new ≡ writer.old)) }
{
    match writer.write(alloc, batch, moment, None, None::<&FixedPrefix>) {
        Ok(_written) => Ok(()),
        Err(refusal) => Err(refusal.error),
    }
}

/// Opens the handle of a job store: with a log, and without a limit or a task of its own.
fn open_writer<S: Store>(alloc: Global, store: &mut S) -> Result<WriterState, JobRefusal>
    ensures opens { (o : Objects) → S.objects store.old ≡ Some o → IsSound o → (o' : Objects) × (S.objects store.new ≡ Some o') × OpensWriter o o' result }
    ensures causes { (o : Objects) → S.objects store.old ≡ Some o → IsSound o → OpensFor (HasRisen (S.faults store.old) (S.faults store.new)) o result }
    ensures takes { IfOk result TakesBatches }
    ensures faults { S.faults store.old ≤ S.faults store.new }
{
    let options = WriterOptions {
        wal_enabled: true,
        max_unflushed_bytes: u64::MAX,
        compactor: false,
        compaction_worker: false,
        collector: false,
    };
    match WriterState::open(alloc, store, &options, None::<&FixedPrefix>) {
        Ok(writer) => Ok(writer),
        Err(error) => Err(passing(error)),
    }
}

/// The rows of all keys that an open handle reads.
fn all_rows<S: Store>(
    alloc: Global,
    store: &mut S,
    writer: &WriterState,
) -> Result<Seq<KeyValue>, JobRefusal>
    requires { writer.now.result ≡ None }
    ensures rows { IfOk result (λ rows. (batches : List ABatch) × kept_rows (S.objects store.old) (AHandle writer.now) batches × AreRows batches rows None) }
    ensures foreign { result ≡ Err JobRefusal.Foreign → (batches : List ABatch) × kept_rows (S.objects store.old) (AHandle writer.now) batches
        × (rows : List ARow) × (fault : AFault) × AreRows batches rows (Some fault) }
    ensures refused { IfErr result (IsScanRefusal (HasRisen (S.faults store.old) (S.faults store.new)) (S.objects store.old) writer.now.view.manifest.tables) }
    ensures kept { S.objects store.new ≡ S.objects store.old }
    ensures faults { S.faults store.old ≤ S.faults store.new }
{
    let options = ScanOptions {
        durability_filter: DurabilityLevel::Memory,
        dirty: true,
        order: IterationOrder::Ascending,
    };
    let range = ByteRange::full();
    match writer.scan(
        alloc,
        store,
        &range,
        &options,
        None,
        None::<&ConcatOperator>,
    ) {
        Ok(rows) => rest_of(alloc, rows),
        Err(error) => Err(passing(error)),
    }
}

/// All rows of an iterator.
fn rest_of(alloc: Global, rows: DbIterator) -> Result<Seq<KeyValue>, JobRefusal>
    ensures rows { IfOk result (λ all. (rows.rows ≡ all) × (rows.fault ≡ None)) }
    ensures foreign { result ≡ Err JobRefusal.Foreign → (fault : AFault) × (rows.fault ≡ Some fault) }
    ensures refused { IfErr result (λ refusal. (refusal ≡ JobRefusal.NoMemory) ⊎ (refusal ≡ JobRefusal.Foreign)) }
{
    match rows.into_rows(alloc) {
        Ok(rows) => Ok(rows),
        Err(ReadFault::NoMemory) => Err(JobRefusal::NoMemory),
        Err(_fault) => Err(JobRefusal::Foreign),
    }
}
