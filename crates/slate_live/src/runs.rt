// Running a list of commands over a store, with a reply to each.
ghost use Rattle.std.specs.Prelude.{◌≡◌, ◌≤◌, Option, IfOk, OnErr};
ghost use Rattle.std.specs.Option.{option_copied};
ghost use Rattle.slate_model.specs.Known.{known};
ghost use Rattle.slate_live.specs.Lawful.{AreLawful, asks_in};
ghost use Rattle.slate_live.specs.Run.{DidAll, IsRun};
ghost use Rattle.slate_live.specs.Settings.{Settings};

use crate::LiveState;
use slate_script::{Command, Options, Reply};
use slate_store::Store;
use slate_types::{MergeOperator, NoMemory, PrefixExtractor};
use std::alloc::Global;

/// Does a list of commands on a store, one after another, and answers a reply to each.
///
/// Over any store each command is answered once, in order, and does what `apply` says of it.
///
/// Over an honest store, with a lawful operator and extractor or without, the commands lead through worlds, one link for
/// each command with its reply, from the world of the store as it was to one that the store holds afterwards. An operator
/// need be lawful only where a command merges or reads, an extractor only where one opens, writes, polls or makes a step. Where memory runs out before the first command, nothing was done; a command that finds no memory has
/// a reply of its own. It takes room for all replies first, and then the time of each command.
pub fn run<S: Store, M: MergeOperator, E: PrefixExtractor>(
    alloc: Global,
    store: &mut S,
    options: &Options,
    operator: Option<&M>,
    extractor: Option<&E>,
    commands: &[Command],
) -> Result<Vec<Reply>, NoMemory>
    ensures faults { S.faults store.old ≤ S.faults store.new }
    ensures nothing { OnErr result (store.new ≡ store.old) }
    // Over any store each command is done as `apply` says, with its reply, from a state without an object on.
    ensures does { IfOk result (λ replies. (settings : Settings) → AreLawful M.may_answer (option_copied operator.entry) E.may_name E.may_extract (option_copied extractor.entry) settings (asks_in commands.now) → settings.options ≡ options.now →
        DidAll settings commands.now replies.items (known S.objects S.faults store.old) (known S.objects S.faults store.new)) }
    ensures leads { IfOk result (λ replies. (settings : Settings) → AreLawful M.may_answer (option_copied operator.entry) E.may_name E.may_extract (option_copied extractor.entry) settings (asks_in commands.now) → settings.options ≡ options.now →
        IsRun settings commands.now replies.items (known S.objects S.faults store.old) (known S.objects S.faults store.new)) }
{
    let mut replies = Vec::with_capacity(alloc, commands.len())?;
    let mut live = LiveState::new(alloc, options);
    for command in commands {
        let reply = live.apply(alloc, store, operator, extractor, command);
        replies.push_reserved(reply);
    }
    Ok(replies)
}
