// A live reader, and the poll of it that makes its calls of the store one by one.
ghost use Rattle.std.specs.Prelude.{◌≡◌, ◌≤◌, ◌+◌, ℕ, None, Some, List, Option, IfSome, true, false, if◌then◌else◌, is_some};
ghost use Rattle.std.specs.Option.{option_copied};
ghost use Rattle.slate_model.specs.Follower.{is_managed};
ghost use Rattle.slate_model.specs.Known.{known};
ghost use Rattle.slate_model.specs.Object.{Follower as AFollower};
ghost use Rattle.slate_model.specs.Segments.{Extractor, IsExtractor};
ghost use Rattle.slate_model.specs.Stores.{by_objects};
ghost use Rattle.slate_script.specs.declared.replies.Reply.TheVariants as replies;
ghost use Rattle.slate_live.specs.Calls.{call_of, ends_poll, most_asked};
ghost use Rattle.slate_live.specs.Followers.{FollowerActs};
ghost use Rattle.slate_live.specs.Lawful.{AreLawful, asks_of};
ghost use Rattle.slate_live.specs.Settings.{Settings};
ghost use Rattle.slate_live.specs.Stepping.{BeginsReader, StepsOf};
ghost use Rattle.slate_live.specs.declared.states.Write.{Write};

use crate::extensions::Extensions;
use crate::followers;
use crate::handles::refusal;
use slate_follow::{FollowerState, PollMachine};
use slate_script::{Action, Command, Reply};
use slate_store::Store;
use slate_types::{MergeOperator, PrefixExtractor};
use std::alloc::Global;
use std::marker::Model;

/// A reader that follows a database, with its begun poll, where there is one: that has a call to make, and is of the reader as
/// it is.
pub struct Reader {
    state: FollowerState,
    poll: Option<PollMachine>,
}

impl Drop for Reader {
    fn drop(self) {
        let Reader { state: _, poll: _ } = self;
    }
}

impl Model for Reader {
    ghost use Rattle.std.specs.Prelude.{◌≡◌, None, IfSome};
    ghost use Rattle.slate_follow.specs.Stepping.{FitsReader, IsGoing};
    ghost use Rattle.slate_live.specs.Readers.{Polled};

    ghost Value = { Polled };

    ghost view = { λ a. record { state = a.state; poll = a.poll } };

    ghost invariant = { λ a. IfSome a.poll (λ begun. (a.state.result ≡ None) × FitsReader a.state begun × IsGoing begun.stage) };
}

impl Reader {
    /// A reader of which no poll is begun.
    pub(crate) fn new(state: FollowerState) -> Reader
        ensures { result ≡ record { state = state; poll = None } }
    {
        Reader { state, poll: None }
    }

    /// What it keeps, but for its begun poll.
    pub(crate) fn state(&self) -> &FollowerState
        ensures { result.now ≡ self.now.state }
    {
        &self.state
    }

    /// Does a command that names it and makes a call whole. A poll and a close drop the begun poll.
    pub(crate) fn act<S: Store, M: MergeOperator, E: PrefixExtractor>(
        &mut self,
        alloc: Global,
        store: &mut S,
        extensions: &Extensions<'_, M, E>,
        command: &Command,
    ) -> Reply
        ensures faults { S.faults store.old ≤ S.faults store.new }
        ensures calls { IfSome (S.objects store.old) (λ o. S.calls store.new ≤ S.calls store.old + most_asked o (Some (AFollower self.old.state)) (call_of command.now.action)) }
        ensures untouched { (self.old.state.result ≡ None → ⊥) → store.new ≡ store.old }
        ensures does { (settings : Settings) (writes : List Write) → AreLawful M.may_answer (option_copied extensions.now.operator) E.may_name E.may_extract (option_copied extensions.now.extractor) settings (asks_of (Some (AFollower self.old.state)) command.now.action) →
            (made : ℕ) × FollowerActs (by_objects (S.objects store.old)) settings command.now.moment (call_of command.now.action) made
            self.old.state (known S.objects S.faults store.old) writes result self.new.state (known S.objects S.faults store.new) writes }
        ensures poll { self.new.poll ≡ (if ends_poll command.now.action then None else self.old.poll) }
    {
        let reply = followers::act(&mut self.state, alloc, store, extensions, command);
        if ends_poll(&command.action) {
            self.poll = None;
        }
        reply
    }

    /// Begins a poll at a moment, in place of one that was begun.
    pub(crate) fn begin(&mut self, alloc: Global, moment: i64) -> Reply
        ensures state { self.new.state ≡ self.old.state }
        ensures begins { BeginsReader self.old.state.result moment self.old.state result self.new.poll }
        ensures keeps { result ≡ replies.Begun → (self.old.state.line.floor ≡ self.old.state.view.manifest.last_l0_seq) × (is_some self.old.state.lease ≡ is_managed self.old.state.mode) }
    {
        self.poll = None;
        match PollMachine::begin(alloc, &self.state, moment) {
            Ok(machine) => {
                self.poll = Some(machine);
                Reply::Begun
            }
            Err(error) => refusal(error),
        }
    }

    /// Makes the next call of the begun poll, where there is one.
    pub(crate) fn step<S: Store, E: PrefixExtractor>(
        &mut self,
        alloc: Global,
        store: &mut S,
        extractor: Option<&E>,
    ) -> Reply
        ensures faults { S.faults store.old ≤ S.faults store.new }
        ensures calls { S.calls store.new ≤ S.calls store.old + 1 }
        ensures none { self.old.poll ≡ None → (result ≡ replies.Unknown) × (self.new ≡ self.old) × (store.new ≡ store.old) }
        ensures open_ { IfSome self.old.poll (λ begun. self.old.state.result ≡ None) }
        ensures steps { (x : Option Extractor) → IsExtractor E.may_name E.may_extract (option_copied extractor.entry) x →
            IfSome self.old.poll (λ begun. StepsOf x self.old.state begun (known S.objects S.faults store.old) result self.new.state self.new.poll (known S.objects S.faults store.new)) }
    {
        let Some(mut machine) = self.poll.take() else {
            return Reply::Unknown;
        };
        match machine.step(alloc, &mut self.state, store, extractor) {
            Ok(None) => {
                self.poll = Some(machine);
                Reply::Stepped
            }
            Ok(Some(answer)) => followers::polled_reply(answer),
            Err(error) => refusal(error),
        }
    }
}

/// Whether a command that names a reader ends its begun poll.
fn ends_poll(action: &Action) -> bool
    ensures { result ≡ ends_poll action.now }
{
    match action {
        Action::Poll { .. } | Action::Close { .. } => true,
        _ => false,
    }
}
