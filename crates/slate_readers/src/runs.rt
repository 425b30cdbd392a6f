// Commands that are done on a store, and what is published of their first reader.
ghost use Rattle.std.specs.Prelude.{◌≡◌, ◌≤◌, [], length, vec_capacity};
ghost use Rattle.slate_reads.specs.Read.{IsOperator};
ghost use Rattle.slate_model.specs.Known.{known};
ghost use Rattle.slate_model.specs.Segments.{IsExtractor};
ghost use Rattle.slate_live.specs.Settings.{Settings};
ghost use Rattle.slate_readers.specs.Published.{Airs};

use crate::broadcasts::Broadcast;
use slate_live::{Command, LiveState, Options, Reply, commands_lead_on};
use slate_store::Store;
use slate_types::{MergeOperator, PrefixExtractor};
use std::alloc::Global;
use std::sync::Wait;

/// What is run: the commands of a script, and under which options, merge operator and extractor.
#[derive(Drop)]
pub(crate) struct Script<'a, M, E> {
    pub(crate) options: &'a Options,
    pub(crate) operator: &'a Option<M>,
    pub(crate) extractor: &'a Option<E>,
    pub(crate) commands: &'a [Command],
}

/// Does the commands of a script on a store, as `run` of `slate_live` does, into a list that has room for the replies, and publishes
/// what their first reader sees after each command after which that isn't what was published last.
pub(crate) fn run_published<R: Wait, S: Store, M: MergeOperator, E: PrefixExtractor>(
    rt: &R,
    alloc: Global,
    store: &mut S,
    script: &Script<'_, M, E>,
    broadcast: &mut Broadcast,
    replies: &mut Vec<Reply>,
)
    requires room { (replies.old.items ≡ []) × (length script.now.commands.now ≤ vec_capacity replies.old) }
    requires new { (broadcast.old.list.states ≡ []) × (broadcast.old.place ≡ 0) }
    ensures origin { broadcast.new.list.origin ≡ broadcast.old.list.origin }
    ensures faults { S.faults store.old ≤ S.faults store.new }
    ensures airs { (settings : Settings) → IsOperator M.may_answer script.now.operator.now settings.merge → IsExtractor E.may_name E.may_extract script.now.extractor.now settings.extractor → settings.options ≡ script.now.options.now →
        Airs settings script.now.commands.now replies.new.items (known S.objects S.faults store.old) (known S.objects S.faults store.new) broadcast.new }
{
    commands_lead_on();
    let mut live = LiveState::new(alloc, script.options);
    let operator = script.operator.as_ref();
    let extractor = script.extractor.as_ref();
    for command in script.commands {
        let reply = live.apply(alloc, store, operator, extractor, command);
        replies.push_reserved(reply);
        broadcast.show(rt, alloc, &live);
    }
}
