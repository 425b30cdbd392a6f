// The modes in which a reader follows a database.
use uuid::Uuid;

/// Which state of a database a reader follows. SlateDB's enum of this name.
#[derive(Clone, Copy, Debug, PartialEq, Eq)]
pub enum DbReaderMode {
    /// It keeps a checkpoint of its own, and replaces it as the database goes on.
    ManagedCheckpoint,
    /// It reads the checkpoint with this id, and stays at it.
    Checkpoint(Uuid),
    /// It reads what the latest manifest names, and keeps nothing of it from being removed.
    FollowLatest,
}

impl Default for DbReaderMode {
    ghost use Rattle.std.specs.Prelude.{◌≡◌};
    ghost use Rattle.slate_store.specs.declared.reader_modes.DbReaderMode.TheVariants.{ManagedCheckpoint as Managed};

    ghost is_default = { λ mode. mode ≡ Managed };

    fn default() -> DbReaderMode {
        DbReaderMode::ManagedCheckpoint
    }
}
