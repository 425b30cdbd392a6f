// A run whose readers take views on threads of their own.
ghost use Rattle.std.specs.Prelude.{◌≡◌, ◌≤◌, [], length, vec_capacity};
ghost use Rattle.slate_reads.specs.Read.{IsOperator};
ghost use Rattle.slate_model.specs.Known.{known};
ghost use Rattle.slate_model.specs.Segments.{IsExtractor};
ghost use Rattle.slate_live.specs.Settings.{Settings};
ghost use Rattle.slate_readers.specs.Published.{Airs};
ghost use Rattle.slate_readers.specs.Watching.{StayOf};

use crate::Gate;
use crate::broadcasts::Broadcast;
use crate::runs::{Script, run_published};
use crate::watchers::{Watcher, watch_all};
use slate_live::Reply;
use slate_store::Store;
use slate_types::{MergeOperator, PrefixExtractor};
use std::alloc::Global;
use std::sync::Wait;
use std::sync::atomic::{AtomicBool, Ordering};
use std::thread::{Threads, join_mut};

/// Does what `run_published` does on this thread, while each reader takes views on a thread of its own: at least one, and then on
/// until the last command is done. Where no thread can be made, the readers take theirs afterwards.
pub(crate) fn run_beside<
    R: Threads + Wait + Sync,
    S: Store,
    M: MergeOperator,
    E: PrefixExtractor,
    G: Gate + Sync,
>(
    rt: &R,
    alloc: Global,
    store: &mut S,
    script: &Script<'_, M, E>,
    broadcast: &mut Broadcast,
    replies: &mut Vec<Reply>,
    gate: &G,
    watchers: &mut [Watcher],
)
    requires room { (replies.old.items ≡ []) × (length script.now.commands.now ≤ vec_capacity replies.old) }
    requires new { (broadcast.old.list.states ≡ []) × (broadcast.old.place ≡ 0) }
    ensures readers { StayOf watchers.old watchers.new }
    ensures origin { broadcast.new.list.origin ≡ broadcast.old.list.origin }
    ensures faults { S.faults store.old ≤ S.faults store.new }
    ensures airs { (settings : Settings) → IsOperator M.may_answer script.now.operator.now settings.merge → IsExtractor E.may_name E.may_extract script.now.extractor.now settings.extractor → settings.options ≡ script.now.options.now →
        Airs settings script.now.commands.now replies.new.items (known S.objects S.faults store.old) (known S.objects S.faults store.new) broadcast.new }
{
    let ended = AtomicBool::new(false);
    join_mut(
        rt,
        &mut || watch_all(rt, gate, &ended, watchers),
        &mut ||
            requires room { (replies.now.items ≡ []) × (length script.now.commands.now ≤ vec_capacity replies.now) }
            requires new { (broadcast.now.list.states ≡ []) × (broadcast.now.place ≡ 0) }
            ensures origin { broadcast.exit.now.list.origin ≡ broadcast.entry.now.list.origin }
            ensures faults { S.faults store.entry.now ≤ S.faults store.exit.now }
            ensures airs { (settings : Settings) → IsOperator M.may_answer script.entry.now.operator.now settings.merge → IsExtractor E.may_name E.may_extract script.entry.now.extractor.now settings.extractor → settings.options ≡ script.entry.now.options.now →
                Airs settings script.entry.now.commands.now replies.exit.now.items (known S.objects S.faults store.entry.now) (known S.objects S.faults store.exit.now) broadcast.exit.now }
        {
            run_published(rt, alloc, store, script, broadcast, replies);
            ended.store(true, Ordering::SeqCst);
        },
    );
}
