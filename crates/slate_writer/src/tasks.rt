// Starting the tasks of a handle.
ghost use Rattle.std.specs.Prelude.{◌≡◌, ◌+◌, ◌<◌, ◌≤◌, ◌++◌, length, None, IfOk};
ghost use Rattle.slate_model.specs.Tasks.{task_if};
ghost use Rattle.slate_writer.specs.Tasks.{tasks_of};

use crate::WriterOptions;
use slate_errors::{Ending, TaskName};
use slate_tasks::Tasks;
use slate_types::NoMemory;
use std::alloc::Global;

/// Starts the tasks that the options ask for, in the order in which a close ends them.
pub(crate) fn start_tasks(alloc: Global, options: &WriterOptions) -> Result<Tasks, NoMemory>
    ensures { IfOk result (λ tasks. tasks ≡ record { names = tasks_of options.now; told = None }) }
{
    let mut names = Ending::new();
    names.push(TaskName::MemtableFlusher);
    push_if(&mut names, options.compactor, TaskName::Compactor);
    push_if(
        &mut names,
        options.compaction_worker,
        TaskName::CompactionWorker,
    );
    push_if(&mut names, options.collector, TaskName::GarbageCollector);
    names.push(TaskName::BatchWriter);
    Tasks::start(alloc, names.names())
}

/// Adds a name where its task is to run.
fn push_if(names: &mut Ending, runs: bool, name: TaskName)
    requires { length names.old < 5 }
    ensures added { names.new ≡ names.old ++ task_if runs name }
    ensures few { length names.new ≤ length names.old + 1 }
{
    if runs {
        names.push(name);
    }
}
