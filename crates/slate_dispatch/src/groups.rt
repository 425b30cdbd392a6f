// The tasks of one group: their turns, their cancelling, and the group's result.
ghost use Rattle.std.specs.Prelude.{◌≡◌, ◌∷◌, false, IsTrue};
ghost use Rattle.std.specs.List.{AllZip};
ghost use Rattle.std.specs.Option.{option_to_list};
ghost use Rattle.slate_dispatch.specs.Groups.{TurnsMember, CancelsMember, EndsWell, Passes, ending, endings, after_writes, first_error, has_running};

use crate::{Task, TurnAnswer};
use slate_errors::{CloseCell, CloseFault};
use slate_types::Name;
use std::marker::Model;

/// A task of a group, and its result once it has ended.
pub(crate) struct Member<T> {
    pub(crate) task: T,
    pub(crate) ended: Option<Result<(), CloseFault>>,
}

impl<T: Drop> Drop for Member<T> {
    fn drop(self) {
        let Member { task: _, ended: _ } = self;
    }
}

impl<T: Task> Member<T> {
    /// Gives the task a turn, where it runs. One that it ends writes its result to the cell, and is finished with what
    /// the cell then holds. It answers the result of a task that ended in this turn.
    fn turn(
        &mut self,
        cell: &mut CloseCell,
        moment: i64,
        random: u64,
    ) -> Option<Result<(), CloseFault>>
        ensures turns { TurnsMember T.steps moment random false false cell.new self.old self.new }
        ensures ended { result ≡ ending self.old.ended self.new.ended }
        ensures holds { cell.new ≡ after_writes (option_to_list result) cell.old }
        ensures well { IsTrue (T.is_cancelled self.old.task) → EndsWell self.old self.new }
    {
        if self.ended.is_some() {
            return None;
        }
        let outcome = match self.task.turn(moment, random) {
            TurnAnswer::Cancelled => Ok(()),
            TurnAnswer::Failed(fault) => Err(fault),
            TurnAnswer::Handled | TurnAnswer::Idle => return None,
        };
        cell.write(outcome);
        self.task.finish(cell.read().unwrap_or(outcome));
        self.ended = Some(outcome);
        Some(outcome)
    }

    /// The same, of a task that is cancelled before where `cancels` says so.
    fn visit(
        &mut self,
        cell: &mut CloseCell,
        moment: i64,
        random: u64,
        cancels: bool,
    ) -> Option<Result<(), CloseFault>>
        ensures turns { TurnsMember T.steps moment random cancels cancels cell.new self.old self.new }
        ensures ended { result ≡ ending self.old.ended self.new.ended }
        ensures holds { cell.new ≡ after_writes (option_to_list result) cell.old }
    {
        if cancels {
            self.task.cancel();
        }
        self.turn(cell, moment, random)
    }
}

/// Gives each member its turn, in order. Those that come after a failure are cancelled first. `result` becomes the
/// first error, and `has_failed` knows of every one.
fn turn_members<T: Task>(
    members: &mut [Member<T>],
    cell: &mut CloseCell,
    moment: i64,
    random: u64,
    result_so_far: &mut Result<(), CloseFault>,
    has_failed: &mut bool,
)
    ensures passes { Passes T.steps moment random has_failed.old cell.old members.old members.new has_failed.new cell.new }
    ensures first { result_so_far.new ≡ first_error (result_so_far.old ∷ endings members.old members.new) }
{
    for member in members.iter_mut() {
        if let Some(outcome) = member.visit(cell, moment, random, *has_failed) {
            *result_so_far = result_so_far.and(outcome);
            *has_failed = *has_failed || outcome.is_err();
        }
    }
}

/// Cancels each member.
fn cancel_members<T: Task>(members: &mut [Member<T>])
    ensures { AllZip (CancelsMember T.steps T.is_cancelled) members.old members.new }
{
    for member in members.iter_mut() {
        member.task.cancel();
    }
}

/// Tasks under one name. A contract sees the name, the members, and the first error that one ended with, else Ok.
pub(crate) struct Group<T> {
    name: Name,
    members: Vec<Member<T>>,
    result: Result<(), CloseFault>,
}

impl<T: Drop> Drop for Group<T> {
    fn drop(self) {
        let Group {
            name: _,
            members: _,
            result: _,
        } = self;
    }
}

impl<T> Model for Group<T> {
    ghost use Rattle.slate_dispatch.specs.Groups.{TaskGroup};

    ghost Value = { TaskGroup T };

    ghost view = { λ g. record { name = g.name; members = g.members.items; result = g.result } };
}

impl<T> Group<T> {
    ghost use Rattle.std.specs.Prelude.{Ok};
    ghost use Rattle.slate_dispatch.specs.Groups.{outcome_of};

    /// A group of these members.
    pub(crate) fn new(name: Name, members: Vec<Member<T>>) -> Group<T>
        ensures { result ≡ record { name = name; members = members.items; result = Ok tt } }
    {
        Group {
            name,
            members,
            result: Ok(()),
        }
    }

    pub(crate) fn name(&self) -> &str
        ensures { result.now ≡ self.now.name }
    {
        self.name.as_str()
    }

    /// The first error that a member ended with, else Ok.
    pub(crate) fn result(&self) -> Result<(), CloseFault>
        ensures { result ≡ self.now.result }
    {
        self.result
    }

    /// The result of the group, once all its members have ended.
    pub(crate) fn outcome(&self) -> Option<Result<(), CloseFault>>
        ensures { result ≡ outcome_of self.now }
    {
        if is_any_running(&self.members) {
            None
        } else {
            Some(self.result)
        }
    }
}

/// Whether a member runs.
fn is_any_running<T>(members: &[Member<T>]) -> bool
    ensures { result ≡ has_running members.now }
{
    members.iter().any(|member| member.ended.is_none())
}

impl<T: Task> Group<T> {
    ghost use Rattle.slate_dispatch.specs.Groups.{CancelsGroup};

    /// Gives each member its turn, in order. Those that come after a failure are cancelled first. It answers whether
    /// something has failed, here or before.
    pub(crate) fn turn(
        &mut self,
        cell: &mut CloseCell,
        moment: i64,
        random: u64,
        has_failed: bool,
    ) -> bool
        ensures name { self.new.name ≡ self.old.name }
        ensures passes { Passes T.steps moment random has_failed cell.old self.old.members self.new.members result cell.new }
        ensures first { self.new.result ≡ first_error (self.old.result ∷ endings self.old.members self.new.members) }
    {
        let mut fails = has_failed;
        turn_members(
            &mut self.members,
            cell,
            moment,
            random,
            &mut self.result,
            &mut fails,
        );
        fails
    }

    /// Cancels each member.
    pub(crate) fn cancel(&mut self)
        ensures { CancelsGroup T.steps T.is_cancelled self.old self.new }
    {
        cancel_members(&mut self.members);
    }
}
