// The refusals of a store's calls, and the faults of a store that errors name.
ghost use Rattle.std.specs.Prelude.{◌≡◌};
ghost use Rattle.slate_types.specs.declared.store_errors.StoreError.TheVariants.{NoMemory as OutOfMemory};

use crate::NoMemory;
use thiserror::Error;

/// Why a call of a store did not do what it was asked.
#[derive(Clone, Copy, Debug, PartialEq, Eq, Error)]
pub enum StoreError {
    /// The object that was to be read isn't stored.
    #[error("the object isn't stored")]
    NotFound,
    /// An object with the id that was to be put is stored already. It is as it was.
    #[error("an object with this id is stored already")]
    Exists,
    /// The store failed. A put may have taken place.
    #[error("the store failed")]
    Failed,
    /// Memory ran out. Nothing took place.
    #[error("memory ran out")]
    NoMemory,
}

impl From<NoMemory> for StoreError {
    ghost from_gives = { λ _ error. error ≡ OutOfMemory };

    fn from(_error: NoMemory) -> StoreError {
        StoreError::NoMemory
    }
}

/// What an object store answered in place of an object.
#[derive(Clone, Copy, Debug, PartialEq, Eq, Error)]
pub enum StoreFault {
    /// The object isn't stored.
    #[error("the object isn't stored")]
    NotFound,
    /// The store can't be reached, or failed.
    #[error("the store can't be reached, or failed")]
    Unavailable,
}
