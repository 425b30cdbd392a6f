// The errors that refusals of a store's calls are answered with, and what errors record.
ghost use Rattle.std.specs.Prelude.{◌≡◌};
ghost use Rattle.slate_model.specs.Flush.{recorded};
ghost use Rattle.slate_model.specs.Refusal.{error_of_refusal};

use slate_errors::{CloseFault, SlateError};
use slate_store::StoreRefusal;

/// The error that a refusal of a store's call is answered with: that of its name.
pub fn error_of_refusal(refusal: StoreRefusal) -> SlateError
    ensures { result ≡ error_of_refusal refusal }
{
    match refusal {
        StoreRefusal::CheckpointMissing(id) => SlateError::CheckpointMissing(id),
        StoreRefusal::LatestTransactionalObjectVersionMissing => {
            SlateError::LatestTransactionalObjectVersionMissing
        }
        StoreRefusal::Fenced => SlateError::Fenced,
        StoreRefusal::InvalidDBState => SlateError::InvalidDBState,
        StoreRefusal::ObjectStoreError(fault) => SlateError::ObjectStoreError(fault),
        StoreRefusal::TransactionalObjectVersionExists => {
            SlateError::TransactionalObjectVersionExists
        }
        StoreRefusal::TransactionalObjectTimeout { tries } => {
            SlateError::TransactionalObjectTimeout { tries }
        }
        StoreRefusal::NoMemory => SlateError::NoMemory,
    }
}

/// What an error of a flush records as the result of its handle: of a fence, a fault of the store, an object that is there already and
/// a missing manifest that fault; of each other error nothing. A leased reader's poll records two more.
pub fn recorded(error: &SlateError) -> Option<Result<(), CloseFault>>
    ensures { result ≡ recorded error.now }
{
    let fault = match error {
        SlateError::Fenced => CloseFault::Fenced,
        SlateError::ObjectStoreError(fault) => CloseFault::ObjectStoreError(*fault),
        SlateError::TransactionalObjectVersionExists => {
            CloseFault::TransactionalObjectVersionExists
        }
        SlateError::LatestTransactionalObjectVersionMissing => {
            CloseFault::LatestTransactionalObjectVersionMissing
        }
        _ => return None,
    };
    Some(Err(fault))
}
