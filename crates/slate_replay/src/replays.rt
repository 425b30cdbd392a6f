// Appending the batches of log files to those in memory.
ghost use Rattle.std.specs.Prelude.{◌≡◌, ◌≢◌, ◌+◌, ◌-◌, ◌<◌, ◌≤◌, ◌^◌, ◌++◌, [], ◌∷◌, ℕ, List, Ok, Err, OnOk, OnErr, length, Contains, IfSome};
ghost use Rattle.slate_types.specs.Counts.{HasRisen, one_more};
ghost use Rattle.slate_types.specs.Line.{AreNumberedFrom};
ghost use Rattle.slate_types.specs.declared.batches.Batch.{Batch};
ghost use Rattle.slate_reads.specs.Index.{IsAboveLast};
ghost use Rattle.slate_store.specs.Calls.{KeepsFaults};
ghost use Rattle.slate_store.specs.Logs.{IsLogged};
ghost use Rattle.slate_replay.specs.Replay.{AreFrom, Replays, ReplaysNext, AppendsNext, calls_after};

use slate_reads::IndexedTable;
use slate_store::Store;
use slate_types::{Batch, NoMemory, StoreError};
use std::alloc::Global;

/// How a replay ended.
#[derive(Clone, Copy, Debug, PartialEq, Eq)]
pub enum Replayed {
    /// All log files were there, and their batches come one after another.
    Whole,
    /// The log file with this id isn't stored, or has a batch past the next number: one before it is missing.
    Truncated(u64),
}

/// Appends to `memory` the batches of the log files above `mark` up to `last`, in order, and passes those that it has
/// already. `floor` is the number before the first batch of `memory`.
///
/// It ends at the first log file that isn't stored, or that has a batch past the next number. It answers `Failed`,
/// where a read of the store failed, and `NoMemory`; `memory` has the first of the batches then, and another replay
/// goes on after them. It calls the store once for each log file that it reads. It takes time linear in the operations
/// that it reads, and for each new key a logarithm of the keys. It copies the lists of operations of the batches that it
/// appends, and no key and no value.
pub fn replay<S: Store>(
    alloc: Global,
    store: &mut S,
    memory: &mut IndexedTable,
    floor: u64,
    mark: u64,
    last: u64,
) -> Result<Replayed, StoreError>
    requires numbered { AreNumberedFrom floor memory.old }
    requires fits { floor + length memory.old < 2 ^ 64 }
    ensures numbered { AreNumberedFrom floor memory.new }
    ensures fits { floor + length memory.new < 2 ^ 64 }
    ensures grows { (added : List Batch) × (memory.new ≡ memory.old ++ added) }
    ensures kept { S.objects store.new ≡ S.objects store.old }
    ensures count { S.faults store.old ≤ S.faults store.new }
    ensures failed { result ≡ Err StoreError.Failed → HasRisen (S.faults store.old) (S.faults store.new) }
    ensures stays { KeepsFaults StoreError.Failed (S.faults store.old) (S.faults store.new) result }
    ensures none_missing { result ≢ Err StoreError.NotFound }
    ensures none_exists { result ≢ Err StoreError.Exists }
    ensures calls { S.calls store.new ≤ S.calls store.old + (last - mark) }
    ensures ended_early { (id : ℕ) → result ≡ Ok (Replayed.Truncated id) → S.calls store.new ≡ calls_after (id - mark) (S.calls store.old) }
    ensures where_modelled { IfSome (S.objects store.old) (λ o. Replays mark last floor memory.old memory.new o result) }
    ensures logged { IfSome (S.objects store.old) (λ o. AreFrom (IsLogged mark o) memory.old memory.new) }
{
    for before in mark..last {
        if let Replayed::Truncated(id) = replay_next(alloc, store, memory, floor, before + 1)? {
            return Ok(Replayed::Truncated(id));
        }
    }
    Ok(Replayed::Whole)
}

/// Appends to `memory` the batches of one log file that come next, in order, and passes those that it has already.
/// `floor` is the number before the first batch of `memory`. Called for each log file in turn, it does what `replay` does,
/// and a caller can do other work between two of them.
///
/// It answers `Truncated` with this id where the log file isn't stored, and nothing is appended then, or where it has a
/// batch past the next number, and those before it are appended. It answers `Failed`, where the read failed, and
/// `NoMemory`; `memory` has the first of the batches then, and another call goes on after them. It calls the store once.
/// It takes time linear in the operations that it reads, and for each new key a logarithm of the keys. It copies the lists
/// of operations of the batches that it appends, and no key and no value.
pub fn replay_next<S: Store>(
    alloc: Global,
    store: &mut S,
    memory: &mut IndexedTable,
    floor: u64,
    id: u64,
) -> Result<Replayed, StoreError>
    requires numbered { AreNumberedFrom floor memory.old }
    requires fits { floor + length memory.old < 2 ^ 64 }
    ensures numbered { AreNumberedFrom floor memory.new }
    ensures fits { floor + length memory.new < 2 ^ 64 }
    ensures grows { (added : List Batch) × (memory.new ≡ memory.old ++ added) }
    ensures kept { S.objects store.new ≡ S.objects store.old }
    ensures count { S.faults store.old ≤ S.faults store.new }
    ensures failed { result ≡ Err StoreError.Failed → HasRisen (S.faults store.old) (S.faults store.new) }
    ensures stays { KeepsFaults StoreError.Failed (S.faults store.old) (S.faults store.new) result }
    ensures none_missing { result ≢ Err StoreError.NotFound }
    ensures none_exists { result ≢ Err StoreError.Exists }
    ensures calls { S.calls store.new ≡ one_more (S.calls store.old) }
    ensures cut { (n : ℕ) → result ≡ Ok (Replayed.Truncated n) → n ≡ id }
    ensures where_modelled { IfSome (S.objects store.old) (λ o. ReplaysNext id floor memory.old memory.new o result) }
    ensures logged { (mark : ℕ) → mark < id → IfSome (S.objects store.old) (λ o. AreFrom (IsLogged mark o) memory.old memory.new) }
{
    let log = match store.read_log(alloc, id) {
        Ok(log) => log,
        Err(StoreError::NotFound) => return Ok(Replayed::Truncated(id)),
        Err(error) => return Err(error),
    };
    if append_next(memory, floor, log.batches())? {
        Ok(Replayed::Whole)
    } else {
        Ok(Replayed::Truncated(id))
    }
}

/// Appends the batches of a log file that come next, in order, and passes those that are there already. It answers
/// whether all did: it ends at one past the next number.
fn append_next(memory: &mut IndexedTable, floor: u64, batches: &[Batch]) -> Result<bool, StoreError>
    requires numbered { AreNumberedFrom floor memory.old }
    requires fits { floor + length memory.old < 2 ^ 64 }
    ensures numbered { AreNumberedFrom floor memory.new }
    ensures fits { floor + length memory.new < 2 ^ 64 }
    ensures grows { (added : List Batch) × (memory.new ≡ memory.old ++ added) }
    ensures appended { AppendsNext floor memory.old memory.new batches.now result }
    ensures from { AreFrom (Contains batches.now) memory.old memory.new }
{
    for batch in batches {
        let end = floor + memory.batches().len() as u64;
        if batch.number <= end {
            continue;
        }
        if batch.number - 1 != end {
            return Ok(false);
        }
        if push_copy(memory, batch).is_err() {
            return Err(StoreError::NoMemory);
        }
    }
    Ok(true)
}

/// Adds a copy of a batch, which shares its keys and values.
fn push_copy(memory: &mut IndexedTable, batch: &Batch) -> Result<(), NoMemory>
    requires { IsAboveLast batch.now.number memory.old }
    ensures ok { OnOk result (memory.new ≡ memory.old ++ batch.now ∷ []) }
    ensures err { OnErr result (memory.new ≡ memory.old) }
{
    match memory.push(batch.clone()?) {
        Ok(()) => Ok(()),
        Err(_batch) => Err(NoMemory),
    }
}
