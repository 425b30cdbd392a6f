// Registering tasks with an executor, and ending those that run.
ghost use Rattle.std.specs.Prelude.{◌≡◌, ℕ, ◌≤◌, false, true, List, [], ◌∷◌, ◌++◌, length, unwrap_or, Some, None, IfOk, OnOk};
ghost use Rattle.slate_errors.specs.Tasks.{task_text};
ghost use Rattle.slate_dispatch.specs.Groups.{Outcome};
ghost use Rattle.slate_tasks.specs.Running.{AreTold, Runs};

use crate::handlers::NoWork;
use slate_dispatch::{Dispatcher, Executor};
use slate_errors::{CloseCell, CloseFault, Ending, TaskName};
use slate_types::{Name, NoMemory};
use std::alloc::Global;
use std::marker::Model;
use std::mem;

/// Tasks of an executor that run under their names. A contract sees the names of those that run, in the order in which they
/// were registered, and the result that those were told that have ended.
pub struct Tasks {
    executor: Executor<Dispatcher<NoWork>>,
    running: Ending,
    /// The result with which what they ran for closed, once they were to end.
    told: Option<Result<(), CloseFault>>,
}

impl Drop for Tasks {
    fn drop(self) {
        let Tasks {
            executor: _,
            running: _,
            told: _,
        } = self;
    }
}

impl Model for Tasks {
    ghost use Rattle.std.specs.Prelude.{map, true};
    ghost use Rattle.slate_errors.specs.Tasks.{task_text};
    ghost use Rattle.slate_tasks.specs.Running.{AreTold, Running, Runs};

    ghost Value = { Running };

    ghost view = { λ t. record { names = t.running; told = t.told } };

    // The groups of the executor that run are those with these names, in this order, and each task that has ended was told
    // this.
    ghost invariant = { λ t. Runs true (map task_text t.running) t.executor × AreTold (λ d. d.finished) t.told t.executor.groups };
}

impl Tasks {
    /// Starts a task under each of these names. It takes constant time and memory. Where a name stands twice, it answers
    /// `NoMemory`, too.
    pub fn start(alloc: Global, names: &[TaskName]) -> Result<Tasks, NoMemory>
        requires { length names.now ≤ 5 }
        ensures { IfOk result (λ tasks. tasks ≡ record { names = names.now; told = None }) }
    {
        let mut executor = Executor::new(alloc);
        let mut running = Ending::new();
        for name in names {
            register(alloc, &mut executor, *name)?;
            running.push(*name);
        }
        let _started = executor.start();
        Ok(Tasks {
            executor,
            running,
            told: None,
        })
    }

    /// Ends the tasks that run, in the order in which they were registered, and answers their names. Each is finished with
    /// the result with which what they ran for closed: the outcome that is given first. It takes constant time and no memory.
    pub fn end(&mut self, outcome: Result<(), CloseFault>) -> Ending
        ensures ended { result ≡ self.old.names }
        ensures none { self.new ≡ record { names = []; told = Some (unwrap_or self.old.told outcome) } }
    {
        let first = self.told.unwrap_or(outcome);
        self.told = Some(first);
        let mut cell = CloseCell::new();
        cell.write(first);
        let running = mem::replace(&mut self.running, Ending::new());
        for name in running.names() {
            shut(&mut self.executor, &mut cell, *name);
        }
        running
    }
}

/// Registers a task under a name, which no other task has.
fn register(
    alloc: Global,
    executor: &mut Executor<Dispatcher<NoWork>>,
    name: TaskName,
) -> Result<(), NoMemory>
    ensures runs { (names : List (List ℕ)) → Runs false names executor.old → OnOk result (Runs false (names ++ task_text name ∷ []) executor.new) }
    ensures told { AreTold (λ d. d.finished) None executor.old.groups → OnOk result (AreTold (λ d. d.finished) None executor.new.groups) }
{
    let mut members = Vec::with_capacity(alloc, 1)?;
    members.push(Dispatcher::new(alloc, NoWork::new(), 0)?)?;
    let text = Name::of(String::from_str(alloc, name.as_str())?);
    let Ok(()) = executor.add_handlers(alloc, text, members) else {
        return Err(NoMemory);
    };
    Ok(())
}

/// Shuts the task with a name down, which is told what the cell holds.
fn shut(executor: &mut Executor<Dispatcher<NoWork>>, cell: &mut CloseCell, name: TaskName)
    ensures runs { (rest : List (List ℕ)) → Runs true (task_text name ∷ rest) executor.old → Runs true rest executor.new }
    ensures told { (outcome : Outcome) → cell.old ≡ Some outcome → AreTold (λ d. d.finished) (Some outcome) executor.old.groups →
        (cell.new ≡ Some outcome) × AreTold (λ d. d.finished) (Some outcome) executor.new.groups }
{
    let _result = executor.shutdown_task(cell, name.as_str());
}
