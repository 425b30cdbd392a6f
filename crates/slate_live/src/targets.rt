// Where commands go.
ghost use Rattle.std.specs.Prelude.{◌≡◌};
ghost use Rattle.slate_live.specs.Calls.{target_of};

use slate_script::Action;
use slate_store::DbReaderMode;

/// Where a command goes.
pub enum Target {
    /// It opens a handle, which keeps a log or not.
    NewHandle {
        keeps_log: bool,
    },
    /// It opens a snapshot of the handle with this number.
    NewSnapshot {
        handle: u64,
    },
    /// It opens a reader in a mode, which skips log files or not, may lag by so many numbers, and has a lifetime and an
    /// interval, in milliseconds, where it keeps a checkpoint.
    NewFollower {
        mode: DbReaderMode,
        managed: Option<(u64, u64)>,
        skips: bool,
        lag: Option<u64>,
    },
    /// It commits a checkpoint of the store, with a lifetime in milliseconds or without an end.
    NewCheckpoint {
        lifetime: Option<u64>,
    },
    /// It sweeps the store.
    WholeStore,
    /// It asks for the write with this number.
    OfWrite {
        write: u64,
    },
    /// It names the object with this number.
    OfObject {
        object: u64,
    },
}

/// Where a command goes.
pub(crate) fn target_of(action: &Action) -> Target
    ensures { result ≡ target_of action.now }
{
    match action {
        Action::Open { wal } => Target::NewHandle { keeps_log: *wal },
        Action::Snapshot { handle } => Target::NewSnapshot { handle: *handle },
        Action::Follow {
            mode,
            managed,
            skip,
            lag,
        } => Target::NewFollower {
            mode: *mode,
            managed: *managed,
            skips: *skip,
            lag: *lag,
        },
        Action::Checkpoint { lifetime } => Target::NewCheckpoint {
            lifetime: *lifetime,
        },
        Action::Sweep => Target::WholeStore,
        Action::Await { write } => Target::OfWrite { write: *write },
        Action::Begin { follower: number }
        | Action::Step { follower: number }
        | Action::Put { handle: number, .. }
        | Action::Merge { handle: number, .. }
        | Action::Delete { handle: number, .. }
        | Action::Batch { handle: number, .. }
        | Action::Flush { handle: number, .. }
        | Action::Refresh { handle: number }
        | Action::Compact { handle: number }
        | Action::Get { object: number, .. }
        | Action::Scan { object: number, .. }
        | Action::Seek { object: number, .. }
        | Action::Close { object: number, .. }
        | Action::Poll { follower: number }
        | Action::Status { object: number }
        | Action::Ts { handle: number, .. }
        | Action::Seq { handle: number, .. } => Target::OfObject { object: *number },
    }
}
