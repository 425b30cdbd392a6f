// Why the calls refuse that make several calls of a store.
ghost use Rattle.std.specs.Prelude.{◌≡◌};
ghost use Rattle.slate_store.specs.Refusals.{refusal_of};

use slate_types::{NoMemory, StoreError, StoreFault};
use uuid::Uuid;

/// Why a call on the checkpoints, the tables or all objects of a store refuses.
#[derive(Clone, Copy, Debug, PartialEq, Eq)]
pub enum StoreRefusal {
    /// The latest manifest has no checkpoint with this id.
    CheckpointMissing(Uuid),
    /// No manifest is stored.
    LatestTransactionalObjectVersionMissing,
    /// The latest manifest has a greater epoch than the caller's.
    Fenced,
    /// The next manifest or table would have an id past the greatest.
    InvalidDBState,
    /// A call of the store failed, or an object that is read isn't stored.
    ObjectStoreError(StoreFault),
    /// An object is stored already under the id that was put.
    TransactionalObjectVersionExists,
    /// So many times another manifest was put first.
    TransactionalObjectTimeout { tries: u32 },
    /// The memory ran out.
    NoMemory,
}

impl From<StoreError> for StoreRefusal {
    ghost from_gives = { λ error refusal. refusal ≡ refusal_of error };

    fn from(error: StoreError) -> StoreRefusal {
        match error {
            StoreError::NotFound => StoreRefusal::ObjectStoreError(StoreFault::NotFound),
            StoreError::Exists => StoreRefusal::TransactionalObjectVersionExists,
            StoreError::Failed => StoreRefusal::ObjectStoreError(StoreFault::Unavailable),
            StoreError::NoMemory => StoreRefusal::NoMemory,
        }
    }
}

impl From<NoMemory> for StoreRefusal {
    ghost use Rattle.slate_store.specs.declared.refusals.StoreRefusal.TheVariants.{NoMemory as OutOfMemory};

    ghost from_gives = { λ _ refusal. refusal ≡ OutOfMemory };

    fn from(_error: NoMemory) -> StoreRefusal {
        StoreRefusal::NoMemory
    }
}
