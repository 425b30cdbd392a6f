// What a manifest's log files have, in a table of its own.
ghost use Rattle.std.specs.Prelude.{◌≡◌, ◌≢◌, ◌+◌, ◌-◌, ◌<◌, ◌≤◌, ◌^◌, [], ℕ, Ok, Err, All, length, IfOk, IfSome};
ghost use Rattle.slate_types.specs.Counts.{HasRisen};
ghost use Rattle.slate_types.specs.Line.{AreNumberedFrom};
ghost use Rattle.slate_store.specs.Calls.{KeepsFaults};
ghost use Rattle.slate_replay.specs.Replay.{Replays, calls_after};
ghost use Rattle.slate_store.specs.Logs.{IsLogged};

use crate::replays::{Replayed, replay};
use slate_reads::IndexedTable;
use slate_store::{Manifest, Store, StoreError};
use std::alloc::Global;

/// A table of the batches that the log files above a manifest's replay mark have above its last number in tables, up to
/// the log file `last`, and how the replay ended: where it was truncated, the table has what comes before. It takes the
/// time of `replay`.
pub fn recover<S: Store>(
    alloc: Global,
    store: &mut S,
    manifest: &Manifest,
    last: u64,
) -> Result<(IndexedTable, Replayed), StoreError>
    ensures numbered { IfOk result (λ p. AreNumberedFrom manifest.now.last_l0_seq p.0) }
    ensures fits { IfOk result (λ p. manifest.now.last_l0_seq + length p.0 < 2 ^ 64) }
    ensures kept { S.objects store.new ≡ S.objects store.old }
    ensures count { S.faults store.old ≤ S.faults store.new }
    ensures failed { result ≡ Err StoreError.Failed → HasRisen (S.faults store.old) (S.faults store.new) }
    ensures stays { KeepsFaults StoreError.Failed (S.faults store.old) (S.faults store.new) result }
    ensures none_missing { result ≢ Err StoreError.NotFound }
    ensures none_exists { result ≢ Err StoreError.Exists }
    ensures calls { S.calls store.new ≤ S.calls store.old + (last - manifest.now.replay_after_wal_id) }
    ensures ended_early { IfOk result (λ p. (id : ℕ) → p.1 ≡ Replayed.Truncated id → S.calls store.new ≡ calls_after (id - manifest.now.replay_after_wal_id) (S.calls store.old)) }
    ensures where_modelled { IfOk result (λ p. IfSome (S.objects store.old) (λ o. Replays manifest.now.replay_after_wal_id last manifest.now.last_l0_seq [] p.0 o (Ok p.1))) }
    ensures logged { IfOk result (λ p. IfSome (S.objects store.old) (λ o. All (IsLogged manifest.now.replay_after_wal_id o) p.0)) }
{
    let floor = manifest.last_l0_seq;
    let mark = manifest.replay_after_wal_id;
    let mut memory = IndexedTable::new(alloc);
    let replayed = replay(alloc, store, &mut memory, floor, mark, last)?;
    Ok((memory, replayed))
}
