// The subject `executor`: an executor of groups of tasks that work or fail, and a close cell.
ghost use Rattle.std.specs.Prelude.{◌≡◌, IsTrue};

use crate::answers::Answer;
use crate::call_line::CallLine;
use crate::subjects::Subject;
use crate::tasks::outcome_of;
use slate_dispatch::{BoxedTask, Executor, ExecutorRefusal, Task, TurnAnswer};
use slate_errors::{CloseCell, CloseFault};
use slate_types::Name;
use std::alloc::Global;
use std::cell::Cell;
use std::rc::Rc;

#[derive(Clone, Copy)]
enum Call {
    Add,
    Start,
    Turn,
    Close,
    Cell,
    Told,
    Pair,
    Join,
    Shut,
    Out,
    Cancel,
}

const CALLS: &[(&[u8], Call)] = &[
    (b"add", Call::Add),
    (b"start", Call::Start),
    (b"turn", Call::Turn),
    (b"close", Call::Close),
    (b"cell", Call::Cell),
    (b"told", Call::Told),
    (b"pair", Call::Pair),
    (b"join", Call::Join),
    (b"shut", Call::Shut),
    (b"out", Call::Out),
    (b"cancel", Call::Cancel),
];

/// The faults with which tasks fail.
const TASKS: &[(&[u8], Option<CloseFault>)] = &[
    (b"works", None),
    (b"fails", Some(CloseFault::Fenced)),
];

/// How something closed.
type Outcome = Result<(), CloseFault>;

/// A task that fails at its first turn with the fault that it has, or handles a message at each turn.
struct Scripted {
    fault: Option<CloseFault>,
    is_cancelled: bool,
    answered: Option<TurnAnswer>,
    finished: Option<Outcome>,
    /// Where it tells the result with which it was finished.
    told: Option<Rc<Cell<Option<Outcome>>>>,
}

impl Drop for Scripted {
    fn drop(self) {
        let Scripted {
            fault: _,
            is_cancelled: _,
            answered: _,
            finished: _,
            told: _,
        } = self;
    }
}

impl Task for Scripted {
    ghost is_cancelled = { λ t. t.is_cancelled };

    ghost last_answer = { λ t. t.answered };

    ghost finished = { λ t. t.finished };

    ghost steps = { λ _ _ _. Unit {0} };

    fn turn(&mut self, _moment: i64, _random: u64) -> TurnAnswer {
        let answer = match self.fault {
            _ if self.is_cancelled => TurnAnswer::Cancelled,
            Some(fault) => TurnAnswer::Failed(fault),
            None => TurnAnswer::Handled,
        };
        self.answered = Some(answer);
        answer
    }

    fn cancel(&mut self) {
        self.is_cancelled = true;
    }

    fn finish(&mut self, outcome: Outcome) {
        self.finished = Some(outcome);
        if let Some(told) = &self.told {
            told.set(Some(outcome));
        }
    }
}

/// A task that tells nobody.
fn task_of(fault: Option<CloseFault>) -> Scripted {
    Scripted {
        fault,
        is_cancelled: false,
        answered: None,
        finished: None,
        told: None,
    }
}

/// An executor, its close cell, and the result with which the first task of the last group was finished.
pub struct Executors {
    executor: Executor<Scripted>,
    cell: CloseCell,
    told: Option<Rc<Cell<Option<Outcome>>>>,
}

impl Drop for Executors {
    fn drop(self) {
        let Executors {
            executor: _,
            cell: _,
            told: _,
        } = self;
    }
}

impl Executors {
    /// An executor without a group, and an empty cell.
    pub fn new(alloc: Global) -> Executors {
        Executors {
            executor: Executor::new(alloc),
            cell: CloseCell::new(),
            told: None,
        }
    }

    /// Gives each task a turn.
    fn turn(&mut self) {
        let _started = self.executor.start();
        self.executor.turn(&mut self.cell, 0, 0);
    }

    /// Makes a call of the group with a name.
    fn call_group(&mut self, call: Call, line: &mut CallLine<'_>) {
        let name = line.text();
        let cell = &mut self.cell;
        match call {
            Call::Join => line.print_debug(&self.executor.join_task(name)),
            Call::Shut => line.print_debug(&self.executor.shutdown_task(cell, name)),
            Call::Out => {
                line.print_debug(&self.executor.shutdown_or_deregister_task(cell, name));
            }
            _ => self.executor.cancel_task(name),
        }
    }

    /// Prints the result with which the first task of the last group was finished.
    fn print_told(&self, line: &mut CallLine<'_>) {
        match &self.told {
            Some(told) => line.print_debug(&told.get()),
            None => line.unread(),
        }
    }

    /// Registers a group of tasks, or prints why it wasn't registered and how many tasks came back. The first task tells with
    /// which result it was finished.
    fn add(&mut self, line: &mut CallLine<'_>) {
        let made = Rc::new(line.alloc(), Cell::new(None));
        let Some(told) = line.made(made) else {
            return;
        };
        self.told = line.made(told.clone());
        let name = Name::of(line.string());
        let tasks = tasks_of(told, line);
        if tasks.is_empty() {
            line.unread();
            return;
        }
        self.executor
            .add_handlers(line.alloc(), name, tasks)
            .print(line);
    }
}

impl Subject for Executors {
    fn anew(&self, alloc: Global) -> Executors {
        Executors::new(alloc)
    }

    fn call(&mut self, line: &mut CallLine<'_>) {
        match line.name(CALLS) {
            Some(Call::Add) => self.add(line),
            Some(Call::Start) => self.executor.start().print(line),
            Some(Call::Turn) => self.turn(),
            Some(Call::Close) => {
                let first = self.cell.write(outcome_of(line));
                line.print_debug(&first);
            }
            Some(Call::Cell) => line.print_debug(&self.cell.read()),
            Some(Call::Told) => self.print_told(line),
            Some(Call::Pair) => run_boxed(line),
            Some(call) => self.call_group(call, line),
            None => {}
        }
    }
}

/// The tasks that the words that are left name. The first one tells with which result it was finished.
fn tasks_of(told: Rc<Cell<Option<Outcome>>>, line: &mut CallLine<'_>) -> Vec<Scripted> {
    let mut told = Some(told);
    let mut tasks = Vec::new(line.alloc());
    for _ in 0..line.left() {
        if let Some(fault) = line.name(TASKS) {
            let mut task = task_of(fault);
            task.told = told.take();
            tasks.push(task).print(line);
        }
    }
    tasks
}

impl Answer for ExecutorRefusal<Scripted> {
    fn print(self, line: &mut CallLine<'_>) {
        line.print_error(&self.error);
        line.print_text("; back ");
        line.print_number(self.members.len() as u64);
    }
}

/// Runs a task that works and one that fails as a group, in boxes.
fn run_boxed(line: &mut CallLine<'_>) {
    let works = Box::new(line.alloc(), task_of(None));
    let fails = Box::new(line.alloc(), task_of(Some(CloseFault::Fenced)));
    if let (Ok(works), Ok(fails)) = (works, fails) {
        run_pair(BoxedTask(works), BoxedTask(fails), line);
    } else {
        line.no_memory();
    }
}

/// Runs two tasks as a group for two turns, and prints the result of the group after each, and then that of the cell.
fn run_pair<T: Task>(first: T, second: T, line: &mut CallLine<'_>) {
    let Some(mut executor) = pair_of(first, second, line) else {
        return;
    };
    let mut cell = CloseCell::new();
    print_turn(&mut executor, &mut cell, line);
    print_turn(&mut executor, &mut cell, line);
    line.print_debug(&cell.read());
}

/// An executor of one group of two tasks.
fn pair_of<T: Task>(first: T, second: T, line: &mut CallLine<'_>) -> Option<Executor<T>> {
    let alloc = line.alloc();
    let name = String::from_str(alloc, "pair");
    let name = Name::of(line.made(name)?);
    let mut tasks = Vec::new(alloc);
    if tasks.push(first).is_err() || tasks.push(second).is_err() {
        line.no_memory();
        return None;
    }
    let mut executor = Executor::new(alloc);
    match executor.add_handlers(alloc, name, tasks) {
        Ok(()) => Some(executor),
        Err(_refusal) => {
            line.no_memory();
            None
        }
    }
}

/// Gives each task a turn, and prints the result of the pair.
fn print_turn<T: Task>(executor: &mut Executor<T>, cell: &mut CloseCell, line: &mut CallLine<'_>) {
    let _started = executor.start();
    executor.turn(cell, 0, 0);
    line.print_debug(&executor.join_task("pair"));
    line.print_text(" ");
}
