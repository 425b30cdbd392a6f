// What commands do to the store alone: checkpoints and sweeps.
ghost use Rattle.std.specs.Prelude.{◌≤◌, ◌+◌, ℕ, IfSome};
ghost use Rattle.slate_store.specs.Sweeps.{sweep_calls};
ghost use Rattle.slate_model.specs.Known.{known};
ghost use Rattle.slate_model.specs.Stores.{by_objects};
ghost use Rattle.slate_live.specs.Maintenance.{CommitsTo, SweepsTo};

use crate::handles::refusal;
use slate_model::error_of_refusal;
use slate_script::Reply;
use slate_store::{Store, sweep as sweep_store, write_checkpoint};
use std::alloc::Global;

/// Commits a checkpoint of what is stored, with a lease of so many milliseconds or without an end.
pub(crate) fn checkpoint<S: Store>(
    alloc: Global,
    store: &mut S,
    lifetime: Option<u64>,
    moment: i64,
) -> Reply
    ensures faults { S.faults store.old ≤ S.faults store.new }
    ensures calls { S.calls store.new ≤ S.calls store.old + 16 }
    ensures does { (made : ℕ) × CommitsTo (by_objects (S.objects store.old)) made lifetime moment (known S.objects S.faults store.old) result (known S.objects S.faults store.new) }
{
    match write_checkpoint(alloc, store, lifetime, moment) {
        Ok(checkpoint) => Reply::Checkpointed {
            id: checkpoint.manifest_id,
        },
        Err(error) => refusal(error_of_refusal(error)),
    }
}

/// Removes what isn't protected at a moment.
pub(crate) fn sweep<S: Store>(alloc: Global, store: &mut S, moment: i64) -> Reply
    ensures faults { S.faults store.old ≤ S.faults store.new }
    ensures calls { IfSome (S.objects store.old) (λ o. S.calls store.new ≤ S.calls store.old + sweep_calls moment o) }
    ensures does { (made : ℕ) × SweepsTo (by_objects (S.objects store.old)) made moment (known S.objects S.faults store.old) result (known S.objects S.faults store.new) }
{
    match sweep_store(alloc, store, moment) {
        Ok(_removed) => Reply::Swept,
        Err(error) => refusal(error_of_refusal(error)),
    }
}
