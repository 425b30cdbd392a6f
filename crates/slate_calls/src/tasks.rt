// The subject `tasks`: the tasks that a handle or a reader registers.
use crate::answers::Answer;
use crate::call_line::CallLine;
use crate::subjects::Subject;
use slate_errors::{CloseFault, TaskName};
use slate_tasks::Tasks;
use std::alloc::Global;

#[derive(Clone, Copy)]
enum Call {
    Start,
    End,
}

const CALLS: &[(&[u8], Call)] = &[(b"start", Call::Start), (b"end", Call::End)];

const NAMES: &[(&[u8], TaskName)] = &[
    (b"memtable_flusher", TaskName::MemtableFlusher),
    (b"compactor", TaskName::Compactor),
    (b"compaction_worker", TaskName::CompactionWorker),
    (b"garbage_collector", TaskName::GarbageCollector),
    (b"batch_writer", TaskName::BatchWriter),
    (b"manifest_poller", TaskName::ManifestPoller),
];

/// Tasks that run, where they were started.
pub struct TaskCalls {
    tasks: Option<Tasks>,
}

impl Drop for TaskCalls {
    fn drop(self) {
        let TaskCalls { tasks: _ } = self;
    }
}

impl TaskCalls {
    /// No tasks.
    pub fn new() -> TaskCalls {
        TaskCalls { tasks: None }
    }

    fn start(&mut self, line: &mut CallLine<'_>) {
        let names = names_of(line);
        if names.len() > 5 {
            line.unread();
            return;
        }
        let started = Tasks::start(line.alloc(), names.as_slice());
        self.tasks = line.made(started);
    }

    fn end(&mut self, line: &mut CallLine<'_>) {
        let outcome = outcome_of(line);
        match &mut self.tasks {
            Some(tasks) => print_names(tasks.end(outcome).names(), line),
            None => line.unread(),
        }
    }
}

impl Subject for TaskCalls {
    fn anew(&self, _alloc: Global) -> TaskCalls {
        TaskCalls::new()
    }

    fn call(&mut self, line: &mut CallLine<'_>) {
        match line.name(CALLS) {
            Some(Call::Start) => self.start(line),
            Some(Call::End) => self.end(line),
            None => {}
        }
    }
}

const OUTCOMES: &[(&[u8], Result<(), CloseFault>)] = &[
    (b"ok", Ok(())),
    (b"fenced", Err(CloseFault::Fenced)),
];

/// The result with which something closes.
pub fn outcome_of(line: &mut CallLine<'_>) -> Result<(), CloseFault> {
    line.name(OUTCOMES).unwrap_or(Ok(()))
}

/// The names that the words that are left are.
fn names_of(line: &mut CallLine<'_>) -> Vec<TaskName> {
    let mut names = Vec::new(line.alloc());
    for _ in 0..line.left() {
        if let Some(name) = line.name(NAMES) {
            names.push(name).print(line);
        }
    }
    names
}

/// Prints the names of tasks.
pub fn print_names(names: &[TaskName], line: &mut CallLine<'_>) {
    for name in names {
        line.print_blank();
        line.print_text(name.as_str());
    }
}
