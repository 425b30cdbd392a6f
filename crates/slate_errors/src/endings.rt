// What a close answers: its error, and the names of the tasks that it ended.
ghost use Rattle.std.specs.Prelude.{◌≡◌, ◌<◌, [], ◌∷◌, ◌++◌, length};
ghost use Rattle.slate_errors.specs.Tasks.{task_text};

use crate::SlateError;
use std::marker::Model;

/// The name of a task that a database runs in the background.
#[derive(Clone, Copy, Debug, PartialEq, Eq)]
pub enum TaskName {
    MemtableFlusher,
    Compactor,
    CompactionWorker,
    GarbageCollector,
    BatchWriter,
    /// The task of a reader that follows a database.
    ManifestPoller,
}

impl TaskName {
    /// The name as a text.
    pub fn as_str(self) -> &'static str
        ensures { result.now ≡ task_text self }
    {
        match self {
            TaskName::MemtableFlusher => "memtable_flusher",
            TaskName::Compactor => "compactor",
            TaskName::CompactionWorker => "compaction_worker",
            TaskName::GarbageCollector => "garbage_collector",
            TaskName::BatchWriter => "batch_writer",
            TaskName::ManifestPoller => "manifest_poller",
        }
    }
}

const CAPACITY: usize = 5;

/// The names of the tasks that a close ended, in order: at most five. It takes no memory. A contract sees the list.
#[derive(Debug, Drop)]
pub struct Ending {
    // The names stand in front; what follows them means nothing.
    names: [TaskName; CAPACITY],
    count: usize,
}

impl Model for Ending {
    ghost use Rattle.std.specs.Prelude.{List, ◌≤◌, take};
    ghost use Rattle.slate_errors.specs.declared.endings.TaskName.{TaskName};

    ghost Value = { List TaskName };

    ghost view = { λ e. take e.count e.names };

    ghost invariant = { λ e. e.count ≤ 5 };
}

impl Ending {
    /// No name.
    pub fn new() -> Ending
        ensures { result ≡ [] }
    {
        Ending {
            names: [TaskName::MemtableFlusher; CAPACITY],
            count: 0,
        }
    }

    /// Adds a name at the end.
    pub fn push(&mut self, name: TaskName)
        requires { length self.old < 5 }
        ensures { self.new ≡ self.old ++ name ∷ [] }
    {
        self.names[self.count] = name;
        self.count += 1;
    }

    /// The names, in order.
    pub fn names(&self) -> &[TaskName]
        ensures { result.now ≡ self.now }
    {
        &self.names[..self.count]
    }
}

/// What a close answers.
#[derive(Debug, Drop)]
pub struct Ended {
    /// The error of the flush that the close made, or of what else it did at last, where there was one.
    pub fault: Option<SlateError>,
    /// The tasks that it ended.
    pub tasks: Ending,
}
