// Letting calls of a store fail by their numbers, made or not made.
ghost use Rattle.std.specs.Prelude.{◌≡◌, ◌≤◌, ◌==◌, find, OnErr, OnOk};
ghost use Rattle.slate_types.specs.Counts.{next_call};

use crate::{Listing, LogFile, Manifest, Store, TableId, VersionedManifest};
use slate_reads::Table;
use slate_types::{Batch, CallCount, NoMemory, Seq, StoreError};
use std::alloc::Global;
use std::marker::Model;

/// A call of a `FaultyStore` that is to fail.
#[derive(Clone, Copy, Debug, PartialEq, Eq)]
pub struct FailingCall {
    /// The number of the call. The first one since the store was made is call 1.
    pub at: u64,
    /// Whether the call is made all the same. A put that is made takes place, though its answer is lost.
    pub landed: bool,
}

/// What becomes of a call.
#[derive(Clone, Copy, Debug, PartialEq, Eq)]
enum Fate {
    /// It is made and answered.
    Answered,
    /// It is made, and fails.
    Landed,
    /// It isn't made, and fails.
    Lost,
}

impl Fate {
    ghost use Rattle.slate_store.specs.Faulty.{answer_of};

    /// What a call answers where the store inside gave this answer.
    fn answer_with<A: Drop>(self, answer: Result<A, StoreError>) -> Result<A, StoreError>
        ensures { result ≡ answer_of self answer }
    {
        match self {
            Fate::Answered => answer,
            Fate::Landed | Fate::Lost => Err(StoreError::Failed),
        }
    }
}

/// A store over another one, whose calls fail as a list says. A call that the list names answers `Failed`; it is made
/// or not, as the list says. Where the list names a call twice, the first counts. All other calls are those of the
/// store inside. Each call takes time linear in the list besides.
pub struct FaultyStore<S> {
    inner: S,
    failing: Vec<FailingCall>,
    count: CallCount,
}

impl<S: Drop> Drop for FaultyStore<S> {
    fn drop(self) {
        let FaultyStore {
            inner: _,
            failing: _,
            count: _,
        } = self;
    }
}

impl<S> Model for FaultyStore<S> {
    ghost use Rattle.slate_store.specs.Faulty.{Faulty};

    ghost Value = { Faulty S };

    ghost view = { λ s. record { inner = s.inner; failing = s.failing.items; calls = s.count.made; faults = s.count.faults } };
}

impl<S> FaultyStore<S> {
    ghost use Rattle.slate_store.specs.Faulty.{called, fate, naming};

    /// A store over `inner` whose calls of these numbers fail. It takes no memory.
    pub fn new(inner: S, failing: Seq<FailingCall>) -> FaultyStore<S>
        ensures { result ≡ record { inner = inner; failing = failing; calls = 0; faults = 0 } }
    {
        FaultyStore {
            inner,
            failing: failing.into_vec(),
            count: CallCount::new(),
        }
    }

    /// Lets the next call fail, made all the same or not; where the list names it already, as that says. After the greatest
    /// `u64` of calls it does nothing. Where it answers `NoMemory`, the list is as before.
    pub fn fail_next(&mut self, landed: bool) -> Result<(), NoMemory>
        ensures ok { OnOk result (self.new ≡ naming (next_call self.old.calls) landed self.old) }
        ensures err { OnErr result (self.new ≡ self.old) }
    {
        if let Some(at) = self.count.made().checked_add(1) {
            self.failing.push(FailingCall { at, landed })?;
        }
        Ok(())
    }

    /// How many calls there were, those that failed too. It stays at the greatest `u64`, and then no call fails by the
    /// list.
    pub fn calls(&self) -> u64
        ensures { result ≡ self.now.calls }
    {
        self.count.made()
    }

    /// The store inside.
    pub fn into_inner(self) -> S
        ensures { result ≡ self.inner }
    {
        let FaultyStore {
            inner,
            failing: _,
            count: _,
        } = self;
        inner
    }

    /// Counts a call, and answers what becomes of it. It counts a failure.
    fn fate(&mut self) -> Fate
        ensures value { result ≡ fate self.old }
        ensures counted { self.new ≡ called self.old }
        ensures never_falls { self.old.faults ≤ self.new.faults }
    {
        let Some(call) = self.count.next_call() else {
            return Fate::Answered;
        };
        let Some(named) = find_call(self.failing.as_slice(), call) else {
            return Fate::Answered;
        };
        self.count.count_fault();
        if named.landed {
            Fate::Landed
        } else {
            Fate::Lost
        }
    }
}

/// What the list says of a call.
fn find_call(failing: &[FailingCall], call: u64) -> Option<FailingCall>
    ensures { result ≡ find (λ named. named.at == call) failing.now }
{
    failing.iter().copied().find(|named| named.at == call)
}

impl<S: Store> Store for FaultyStore<S> {
    ghost use Rattle.std.specs.Prelude.{◌≡◌, ◌+◌, IfSome, IfOk, IfErr};
    ghost use Rattle.slate_store.specs.Objects.{IsGreatest, PutManifest, PutLog, PutTable, RemoveManifest, RemoveLog, RemoveTable, latest_manifest, last_log, log_at, entry_at, table_at, listing_of};
    ghost use Rattle.slate_store.specs.Calls.{IsCall, WhereModelled, Finds, Puts, Removes, IsOfList, IsOfRead, IsOfPut};
    ghost use Rattle.slate_store.specs.Faulty.{IsFated};

    ghost objects = { λ s. S.objects s.inner };

    ghost faults = { λ s. S.faults s.inner + s.faults };

    ghost calls = { λ s. s.calls };

    fn latest_manifest(&mut self, alloc: Global) -> Result<Option<VersionedManifest>, StoreError>
        ensures counts { IsCall (S.faults self.old.inner + self.old.faults)
            (S.faults self.new.inner + self.new.faults) self.old.calls self.new.calls result }
        ensures kept { S.objects self.new.inner ≡ S.objects self.old.inner }
        ensures found { IfSome (S.objects self.old.inner) (λ o. IfOk result (λ latest. latest ≡ latest_manifest o)) }
        ensures greatest { IfSome (S.objects self.old.inner) (λ o. IfOk result (λ latest. IfSome latest (IsGreatest o))) }
        ensures refusals { IfErr result IsOfList }
        ensures fated { IsFated self.old self.new
            (S.calls self.old.inner) (S.calls self.new.inner) result }
    {
        let fate = self.fate();
        if fate == Fate::Lost {
            return Err(StoreError::Failed);
        }
        fate.answer_with(self.inner.latest_manifest(alloc))
    }

    fn read_manifest(&mut self, alloc: Global, id: u64) -> Result<Manifest, StoreError>
        ensures counts { IsCall (S.faults self.old.inner + self.old.faults)
            (S.faults self.new.inner + self.new.faults) self.old.calls self.new.calls result }
        ensures kept { S.objects self.new.inner ≡ S.objects self.old.inner }
        ensures found { IfSome (S.objects self.old.inner) (λ o. Finds (entry_at id o.manifests) result) }
        ensures refusals { IfErr result IsOfRead }
        ensures fated { IsFated self.old self.new
            (S.calls self.old.inner) (S.calls self.new.inner) result }
    {
        let fate = self.fate();
        if fate == Fate::Lost {
            return Err(StoreError::Failed);
        }
        fate.answer_with(self.inner.read_manifest(alloc, id))
    }

    fn put_manifest(
        &mut self,
        alloc: Global,
        id: u64,
        manifest: &Manifest,
    ) -> Result<(), StoreError>
        ensures counts { IsCall (S.faults self.old.inner + self.old.faults)
            (S.faults self.new.inner + self.new.faults) self.old.calls self.new.calls result }
        ensures put { WhereModelled (Puts (PutManifest id manifest.now) result) (S.objects self.old.inner) (S.objects self.new.inner) }
        ensures refusals { IfErr result IsOfPut }
        ensures fated { IsFated self.old self.new
            (S.calls self.old.inner) (S.calls self.new.inner) result }
    {
        let fate = self.fate();
        if fate == Fate::Lost {
            return Err(StoreError::Failed);
        }
        fate.answer_with(self.inner.put_manifest(alloc, id, manifest))
    }

    fn remove_manifest(&mut self, alloc: Global, id: u64) -> Result<(), StoreError>
        ensures counts { IsCall (S.faults self.old.inner + self.old.faults)
            (S.faults self.new.inner + self.new.faults) self.old.calls self.new.calls result }
        ensures removed { WhereModelled (Removes (RemoveManifest id) result) (S.objects self.old.inner) (S.objects self.new.inner) }
        ensures refusals { IfErr result IsOfList }
        ensures fated { IsFated self.old self.new
            (S.calls self.old.inner) (S.calls self.new.inner) result }
    {
        let fate = self.fate();
        if fate == Fate::Lost {
            return Err(StoreError::Failed);
        }
        fate.answer_with(self.inner.remove_manifest(alloc, id))
    }

    fn last_log(&mut self, alloc: Global, after: u64) -> Result<u64, StoreError>
        ensures counts { IsCall (S.faults self.old.inner + self.old.faults)
            (S.faults self.new.inner + self.new.faults) self.old.calls self.new.calls result }
        ensures kept { S.objects self.new.inner ≡ S.objects self.old.inner }
        ensures found { IfSome (S.objects self.old.inner) (λ o. IfOk result (λ last. last ≡ last_log after o)) }
        ensures refusals { IfErr result IsOfList }
        ensures fated { IsFated self.old self.new
            (S.calls self.old.inner) (S.calls self.new.inner) result }
    {
        let fate = self.fate();
        if fate == Fate::Lost {
            return Err(StoreError::Failed);
        }
        fate.answer_with(self.inner.last_log(alloc, after))
    }

    fn read_log(&mut self, alloc: Global, id: u64) -> Result<LogFile, StoreError>
        ensures counts { IsCall (S.faults self.old.inner + self.old.faults)
            (S.faults self.new.inner + self.new.faults) self.old.calls self.new.calls result }
        ensures kept { S.objects self.new.inner ≡ S.objects self.old.inner }
        ensures found { IfSome (S.objects self.old.inner) (λ o. Finds (log_at id o) result) }
        ensures refusals { IfErr result IsOfRead }
        ensures fated { IsFated self.old self.new
            (S.calls self.old.inner) (S.calls self.new.inner) result }
    {
        let fate = self.fate();
        if fate == Fate::Lost {
            return Err(StoreError::Failed);
        }
        fate.answer_with(self.inner.read_log(alloc, id))
    }

    fn put_log(&mut self, alloc: Global, id: u64, batches: &[Batch]) -> Result<(), StoreError>
        ensures counts { IsCall (S.faults self.old.inner + self.old.faults)
            (S.faults self.new.inner + self.new.faults) self.old.calls self.new.calls result }
        ensures put { WhereModelled (Puts (PutLog id batches.now) result) (S.objects self.old.inner) (S.objects self.new.inner) }
        ensures refusals { IfErr result IsOfPut }
        ensures fated { IsFated self.old self.new
            (S.calls self.old.inner) (S.calls self.new.inner) result }
    {
        let fate = self.fate();
        if fate == Fate::Lost {
            return Err(StoreError::Failed);
        }
        fate.answer_with(self.inner.put_log(alloc, id, batches))
    }

    fn remove_log(&mut self, alloc: Global, id: u64) -> Result<(), StoreError>
        ensures counts { IsCall (S.faults self.old.inner + self.old.faults)
            (S.faults self.new.inner + self.new.faults) self.old.calls self.new.calls result }
        ensures removed { WhereModelled (Removes (RemoveLog id) result) (S.objects self.old.inner) (S.objects self.new.inner) }
        ensures refusals { IfErr result IsOfList }
        ensures fated { IsFated self.old self.new
            (S.calls self.old.inner) (S.calls self.new.inner) result }
    {
        let fate = self.fate();
        if fate == Fate::Lost {
            return Err(StoreError::Failed);
        }
        fate.answer_with(self.inner.remove_log(alloc, id))
    }

    fn read_table(&mut self, alloc: Global, id: TableId) -> Result<Table, StoreError>
        ensures counts { IsCall (S.faults self.old.inner + self.old.faults)
            (S.faults self.new.inner + self.new.faults) self.old.calls self.new.calls result }
        ensures kept { S.objects self.new.inner ≡ S.objects self.old.inner }
        ensures found { IfSome (S.objects self.old.inner) (λ o. Finds (table_at id o) result) }
        ensures refusals { IfErr result IsOfRead }
        ensures fated { IsFated self.old self.new
            (S.calls self.old.inner) (S.calls self.new.inner) result }
    {
        let fate = self.fate();
        if fate == Fate::Lost {
            return Err(StoreError::Failed);
        }
        fate.answer_with(self.inner.read_table(alloc, id))
    }

    fn put_table(&mut self, alloc: Global, id: TableId, table: &Table) -> Result<(), StoreError>
        ensures counts { IsCall (S.faults self.old.inner + self.old.faults)
            (S.faults self.new.inner + self.new.faults) self.old.calls self.new.calls result }
        ensures put { WhereModelled (Puts (PutTable id table.now) result) (S.objects self.old.inner) (S.objects self.new.inner) }
        ensures refusals { IfErr result IsOfPut }
        ensures fated { IsFated self.old self.new
            (S.calls self.old.inner) (S.calls self.new.inner) result }
    {
        let fate = self.fate();
        if fate == Fate::Lost {
            return Err(StoreError::Failed);
        }
        fate.answer_with(self.inner.put_table(alloc, id, table))
    }

    fn remove_table(&mut self, alloc: Global, id: TableId) -> Result<(), StoreError>
        ensures counts { IsCall (S.faults self.old.inner + self.old.faults)
            (S.faults self.new.inner + self.new.faults) self.old.calls self.new.calls result }
        ensures removed { WhereModelled (Removes (RemoveTable id) result) (S.objects self.old.inner) (S.objects self.new.inner) }
        ensures refusals { IfErr result IsOfList }
        ensures fated { IsFated self.old self.new
            (S.calls self.old.inner) (S.calls self.new.inner) result }
    {
        let fate = self.fate();
        if fate == Fate::Lost {
            return Err(StoreError::Failed);
        }
        fate.answer_with(self.inner.remove_table(alloc, id))
    }

    fn list(&mut self, alloc: Global) -> Result<Listing, StoreError>
        ensures counts { IsCall (S.faults self.old.inner + self.old.faults)
            (S.faults self.new.inner + self.new.faults) self.old.calls self.new.calls result }
        ensures kept { S.objects self.new.inner ≡ S.objects self.old.inner }
        ensures found { IfSome (S.objects self.old.inner) (λ o. IfOk result (λ listing. listing ≡ listing_of o)) }
        ensures refusals { IfErr result IsOfList }
        ensures fated { IsFated self.old self.new
            (S.calls self.old.inner) (S.calls self.new.inner) result }
    {
        let fate = self.fate();
        if fate == Fate::Lost {
            return Err(StoreError::Failed);
        }
        fate.answer_with(self.inner.list(alloc))
    }
}
