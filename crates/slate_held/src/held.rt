// A handle that writes and its store, as one value.
ghost use Rattle.std.specs.Prelude.{◌≡◌, ◌+◌, ◌≤◌, ℕ, IfErr, IfOk, IfSome, MatchResult, Err, Ok, Option};
ghost use Rattle.std.specs.Option.{option_copied};
ghost use Rattle.slate_held.specs.Keeping.{IsKept};
ghost use Rattle.slate_model.specs.Handle.{accepted};
ghost use Rattle.slate_model.specs.Known.{known};
ghost use Rattle.slate_model.specs.Open.{OpensHandle, replayed_logs};
ghost use Rattle.slate_model.specs.Segments.{Extractor, IsExtractor};
ghost use Rattle.slate_model.specs.Status.{handle_status};
ghost use Rattle.slate_model.specs.Stores.{by_objects};
ghost use Rattle.slate_writer.specs.Kinds.{IsOfOpening};
ghost use Rattle.slate_writer.specs.Tasks.{tasks_of};

use slate_errors::{CloseFault, SlateError};
use slate_status::DbStatus;
use slate_store::Store;
use slate_types::{NoMemory, PrefixExtractor};
use slate_writer::{WriterOptions, WriterState};
use std::alloc::Global;
use std::marker::Model;

/// A handle that writes, with its store, as one value: what a `Db` holds under its lock. A program of one thread may use
/// it by itself. Each call is that of `WriterState` of its name, over the store that it was opened with.
///
/// A contract sees the handle and the store. Since no other changes the store, each call finds and leaves them in step.
pub struct Held<S: Store> {
    pub(crate) writer: WriterState,
    pub(crate) store: S,
}

impl<S: Store + Drop> Drop for Held<S> {
    fn drop(self) {
        let Held {
            writer: _,
            store: _,
        } = self;
    }
}

impl<S: Store> Model for Held<S> {
    ghost use Rattle.slate_held.specs.Holding.{Holding};

    ghost Value = { Holding S };

    ghost view = { λ held. record { handle = held.writer; store = held.store } };

    ghost use Rattle.slate_held.specs.Keeping.{IsKept};

    ghost invariant = { λ held. IsKept (S.objects held.store) held.writer };
}

impl<S: Store> Held<S> {
    /// Opens a database over this store, as `WriterState::open` does. Where it answers an error, the store is gone, with
    /// what the opening put into it.
    pub fn open<E: PrefixExtractor>(
        alloc: Global,
        mut store: S,
        options: &WriterOptions,
        extractor: Option<&E>,
    ) -> Result<Held<S>, SlateError>
    where
        S: Drop,
        ensures opens { (x : Option Extractor) → IsExtractor E.may_name E.may_extract (option_copied extractor.entry) x →
            MatchResult result
            (λ held. (made : ℕ) × OpensHandle (by_objects (S.objects store)) x made options.now.wal_enabled options.now.max_unflushed_bytes (tasks_of options.now)
            (known S.objects S.faults store) (Ok held.handle) (known S.objects S.faults held.store))
            (λ error. (made : ℕ) × (after : S) × OpensHandle (by_objects (S.objects store)) x made options.now.wal_enabled options.now.max_unflushed_bytes (tasks_of options.now)
            (known S.objects S.faults store) (Err error) (known S.objects S.faults after)) }
        ensures kind { IfErr result IsOfOpening }
        ensures floor { IfOk result (λ held. held.handle.line.floor ≡ held.handle.view.manifest.last_l0_seq) }
        ensures faults { IfOk result (λ held. S.faults store ≤ S.faults held.store) }
        ensures calls { IfOk result (λ held. IfSome (S.objects store) (λ o. S.calls held.store ≤ S.calls store + 4 + replayed_logs o)) }
    {
        let writer = WriterState::open(alloc, &mut store, options, extractor)?;
        Ok(Held { writer, store })
    }

    /// The number of the last batch that it accepted.
    pub fn accepted(&self) -> u64
        ensures value { result ≡ accepted self.now.handle }
        // The batches in memory are numbered one after another, up to this number; where the store is modelled, memory begins
        // after the tables of the latest manifest, and what is durable of it is stored.
        ensures kept { IsKept (S.objects self.now.store) self.now.handle }
    {
        self.writer.accepted()
    }

    /// The number up to which its batches are stored.
    pub fn durable(&self) -> u64
        ensures value { result ≡ self.now.handle.durable }
        ensures accepted { result ≤ accepted self.now.handle }
    {
        self.writer.durable()
    }

    /// The creation time of its last batch, in milliseconds, below which a write is refused.
    pub fn tick(&self) -> i64
        ensures { result ≡ self.now.handle.tick }
    {
        self.writer.tick()
    }

    /// The result with which it closed, or None while it is open.
    pub fn closed(&self) -> Option<Result<(), CloseFault>>
        ensures { result ≡ self.now.handle.result }
    {
        self.writer.closed()
    }

    /// A copy of what it reports of itself, also where it is closed. It takes time and memory linear in the manifest and in
    /// the prefixes of the batches that aren't in its tables.
    pub fn status(&self, alloc: Global) -> Result<DbStatus, NoMemory>
        ensures { IfOk result (λ status. status ≡ handle_status self.now.handle) }
    {
        self.writer.status(alloc)
    }
}
