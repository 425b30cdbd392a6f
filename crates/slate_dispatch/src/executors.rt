// Registering groups of tasks, and giving each task its turns until it ends or is cancelled.
ghost use Rattle.std.specs.Prelude.{◌≡◌, ◌<◌, ◌≤◌, ◌∷◌, ◌++◌, [], true, false, IsTrue, map, Ok, Err, if◌then◌else◌, vec_capacity, vec_len};
ghost use Rattle.std.specs.List.{AllZip};
ghost use Rattle.slate_errors.specs.declared.errors.SlateError.TheVariants.{BackgroundTaskExecutorStarted as Started};
ghost use Rattle.slate_dispatch.specs.Executors.{index_of, new_member};
ghost use Rattle.slate_dispatch.specs.Groups.{CancelsGroup, TurnsGroups, PassesGroups};

use crate::Task;
use crate::groups::{Group, Member};
use slate_errors::{CloseCell, CloseFault, SlateError};
use slate_types::Name;
use std::alloc::Global;
use std::marker::Model;
use std::mem;

/// Why a group wasn't registered. It hands the members back, in order.
#[derive(Debug, Drop)]
pub struct ExecutorRefusal<T> {
    pub error: SlateError,
    pub members: Vec<T>,
}

/// Runs groups of tasks, one turn of each at a time. SlateDB's `MessageHandlerExecutor`.
///
/// Groups are registered before the start. A task that ends writes its result to the close cell, where the first result
/// stays, and is finished with what the cell then holds. The result of a group is the first error that one of its
/// tasks ended with, else Ok. An error cancels every task of every group.
pub struct Executor<T> {
    groups: Vec<Group<T>>,
    is_started: bool,
}

impl<T: Drop> Drop for Executor<T> {
    fn drop(self) {
        let Executor {
            groups: _,
            is_started: _,
        } = self;
    }
}

impl<T> Model for Executor<T> {
    ghost use Rattle.slate_dispatch.specs.Executors.{Executing};

    ghost Value = { Executing T };

    ghost view = { λ e. record { groups = e.groups.items; is_started = e.is_started } };
}

impl<T: Task> Executor<T> {
    ghost use Rattle.slate_dispatch.specs.Executors.{started_index, Registers, CancelsTask, Joins, ShutsTask, TakesOut};

    /// An executor without a group, which isn't started. It takes no memory.
    pub fn new(alloc: Global) -> Executor<T>
        ensures { result ≡ record { groups = []; is_started = false } }
    {
        Executor {
            groups: Vec::new(alloc),
            is_started: false,
        }
    }

    /// Registers a group. It is refused with `BackgroundTaskExecutorStarted` where the executor was started, else with
    /// `BackgroundTaskExists` where a group has the name, and else with `NoMemory` where memory ran out. A refusal
    /// changes nothing. It takes time linear in the groups and the members.
    pub fn add_handlers(
        &mut self,
        alloc: Global,
        name: Name,
        members: Vec<T>,
    ) -> Result<(), ExecutorRefusal<T>>
        requires { 0 < vec_len members }
        ensures { Registers name members.items self.old result self.new }
    {
        if self.is_started {
            let error = SlateError::BackgroundTaskExecutorStarted;
            return Err(ExecutorRefusal { error, members });
        }
        if find_group(&self.groups, name.as_str()).is_some() {
            let error = SlateError::BackgroundTaskExists(name);
            return Err(ExecutorRefusal { error, members });
        }
        if self.groups.reserve(1).is_err() {
            let error = SlateError::NoMemory;
            return Err(ExecutorRefusal { error, members });
        }
        let Ok(enrolled) = Vec::with_capacity(alloc, members.len()) else {
            let error = SlateError::NoMemory;
            return Err(ExecutorRefusal { error, members });
        };
        let group = Group::new(name, enrol(members, enrolled));
        push_group(&mut self.groups, group);
        Ok(())
    }

    /// Lets the tasks have turns from now on. It answers `BackgroundTaskExecutorStarted` from the second time on.
    pub fn start(&mut self) -> Result<(), SlateError>
        ensures answer { result ≡ (if self.old.is_started then Err Started else Ok tt) }
        ensures started { self.new ≡ record self.old { is_started = true } }
    {
        if mem::replace(&mut self.is_started, true) {
            return Err(SlateError::BackgroundTaskExecutorStarted);
        }
        Ok(())
    }

    /// Gives each task that runs one turn, in order of registration. `moment` is in milliseconds, `random` is any word.
    /// Tasks that come after one that fails are cancelled before their turn, and those before it after their turn.
    pub fn turn(&mut self, cell: &mut CloseCell, moment: i64, random: u64)
        requires { IsTrue self.old.is_started }
        ensures turns { TurnsGroups T.steps T.is_cancelled moment random cell.old cell.new self.old.groups self.new.groups }
        ensures started { self.new.is_started ≡ self.old.is_started }
    {
        turn_all(&mut self.groups, cell, moment, random);
    }

    /// Cancels each task of a started group. Before the start, or where no group has the name, it does nothing. It takes
    /// no memory but what the tasks' `cancel` takes.
    pub fn cancel_task(&mut self, name: &str)
        ensures { CancelsTask T.steps T.is_cancelled name.now self.old self.new }
    {
        let Some(index) = self.started_group(name) else {
            return;
        };
        let group = &mut self.groups[index];
        group.cancel();
    }

    /// The result of a started group, or None exactly where one of its tasks runs. It is Ok before the start, and where
    /// no group has the name.
    pub fn join_task(&self, name: &str) -> Option<Result<(), CloseFault>>
        ensures { Joins name.now self.now result }
    {
        let Some(index) = self.started_group(name) else {
            return Some(Ok(()));
        };
        self.groups[index].outcome()
    }

    /// Cancels each task of a started group, ends those that run by one turn, and answers the group's result. Before the
    /// start, or where no group has the name, it does nothing and answers Ok.
    pub fn shutdown_task(&mut self, cell: &mut CloseCell, name: &str) -> Result<(), CloseFault>
        ensures { ShutsTask T.steps name.now cell.old cell.new self.old result self.new }
    {
        let Some(index) = self.started_group(name) else {
            return Ok(());
        };
        let group = &mut self.groups[index];
        group.turn(cell, 0, 0, true);
        group.result()
    }

    /// Takes a group out that wasn't started, and answers None. Otherwise it answers what `shutdown_task` answers.
    pub fn shutdown_or_deregister_task(
        &mut self,
        cell: &mut CloseCell,
        name: &str,
    ) -> Option<Result<(), CloseFault>>
        ensures { TakesOut T.steps name.now cell.old cell.new self.old result self.new }
    {
        if !self.is_started {
            if let Some(index) = find_group(&self.groups, name) {
                drop(self.groups.remove(index));
                return None;
            }
        }
        Some(self.shutdown_task(cell, name))
    }

    /// The index of a started group.
    fn started_group(&self, name: &str) -> Option<usize>
        ensures { result ≡ started_index name.now self.now }
    {
        if !self.is_started {
            return None;
        }
        find_group(&self.groups, name)
    }
}

/// The index of the group with a name.
fn find_group<T>(groups: &[Group<T>], name: &str) -> Option<usize>
    ensures { result ≡ index_of name.now groups.now }
{
    groups.iter().position(|group| group.name() == name)
}

/// The tasks as members that run, in a list that has room for them.
fn enrol<T: Drop>(tasks: Vec<T>, mut enrolled: Vec<Member<T>>) -> Vec<Member<T>>
    requires empty { enrolled.items ≡ [] }
    requires room { vec_len tasks ≤ vec_capacity enrolled }
    ensures { result.items ≡ map new_member tasks.items }
{
    for task in tasks {
        let pushed = enrolled.push(Member { task, ended: None });
        prove!(pushed.is_ok());
    }
    enrolled
}

/// Adds a group, where there is room.
fn push_group<T: Drop>(groups: &mut Vec<Group<T>>, group: Group<T>)
    requires { vec_len groups.old < vec_capacity groups.old }
    ensures { groups.new.items ≡ groups.old.items ++ group ∷ [] }
{
    let pushed = groups.push(group);
    prove!(pushed.is_ok());
}

/// Gives each member of each group its turn, in order. An error cancels every member of every group.
fn turn_all<T: Task>(groups: &mut [Group<T>], cell: &mut CloseCell, moment: i64, random: u64)
    ensures { TurnsGroups T.steps T.is_cancelled moment random cell.old cell.new groups.old groups.new }
{
    if turn_groups(groups, cell, moment, random) {
        cancel_groups(groups);
    }
}

/// Gives each member of each group its turn, in order, and answers whether one failed.
fn turn_groups<T: Task>(
    groups: &mut [Group<T>],
    cell: &mut CloseCell,
    moment: i64,
    random: u64,
) -> bool
    ensures { PassesGroups T.steps moment random false cell.old groups.old groups.new result cell.new }
{
    let mut has_failed = false;
    for group in groups.iter_mut() {
        has_failed = group.turn(cell, moment, random, has_failed);
    }
    has_failed
}

/// Cancels each member of each group.
fn cancel_groups<T: Task>(groups: &mut [Group<T>])
    ensures { AllZip (CancelsGroup T.steps T.is_cancelled) groups.old groups.new }
{
    for group in groups.iter_mut() {
        group.cancel();
    }
}
