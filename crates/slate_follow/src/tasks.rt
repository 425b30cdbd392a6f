// Starting the task of a reader.
ghost use Rattle.std.specs.Prelude.{◌≡◌, None, IfOk};
ghost use Rattle.slate_model.specs.Follower.{follower_tasks};

use slate_errors::TaskName;
use slate_store::DbReaderMode;
use slate_tasks::Tasks;
use slate_types::NoMemory;
use std::alloc::Global;

/// Starts the task of a reader in a mode: one that polls, unless the reader stays at a checkpoint.
pub(crate) fn start_tasks(alloc: Global, mode: DbReaderMode) -> Result<Tasks, NoMemory>
    ensures { IfOk result (λ tasks. tasks ≡ record { names = follower_tasks mode; told = None }) }
{
    match mode {
        DbReaderMode::Checkpoint(_) => Tasks::start(alloc, &[]),
        _ => Tasks::start(alloc, &[TaskName::ManifestPoller]),
    }
}
