// The refusals of the writer that end a job store.
ghost use Rattle.std.specs.Prelude.{◌≡◌};
ghost use Rattle.slate_jobs.specs.Queue.{error_of, failing, failure_of, refusal_by, refusal_of};

use crate::jobs::JobRefusal;
use slate_errors::{CloseFault, SlateError};

/// Why a job store answers no request any more.
#[derive(Clone, Copy)]
pub(crate) enum Failure {
    /// A fault of the store, or a number at its end.
    Fault(CloseFault),
    /// So many bytes wait that no batch is accepted.
    Backpressure { unflushed: u64, limit: u64 },
}

impl Failure {
    /// The failure that an error is kept as.
    fn of(error: &SlateError) -> Failure
        ensures { result ≡ failure_of error.now }
    {
        match error {
            SlateError::Fenced => Failure::Fault(CloseFault::Fenced),
            SlateError::ObjectStoreError(fault) => {
                Failure::Fault(CloseFault::ObjectStoreError(*fault))
            }
            SlateError::TransactionalObjectVersionExists => {
                Failure::Fault(CloseFault::TransactionalObjectVersionExists)
            }
            SlateError::LatestTransactionalObjectVersionMissing => {
                Failure::Fault(CloseFault::LatestTransactionalObjectVersionMissing)
            }
            SlateError::Backpressure { unflushed, limit } => Failure::Backpressure {
                unflushed: *unflushed,
                limit: *limit,
            },
            _ => Failure::Fault(CloseFault::InvalidDBState),
        }
    }

    /// The error of a failure.
    pub(crate) fn error(self) -> SlateError
        ensures { result ≡ error_of self }
    {
        match self {
            Failure::Fault(fault) => SlateError::from(fault),
            Failure::Backpressure { unflushed, limit } => {
                SlateError::Backpressure { unflushed, limit }
            }
        }
    }
}

/// The failure by which an error of the writer ends a job store, where it does.
fn failing(error: &SlateError) -> Option<Failure>
    ensures { result ≡ failing error.now }
{
    match error {
        SlateError::NoMemory | SlateError::InvalidClockTick { .. } => None,
        error => Some(Failure::of(error)),
    }
}

/// The refusal of an error that ends no job store.
pub(crate) fn passing(error: SlateError) -> JobRefusal
    ensures { result ≡ refusal_by None error }
{
    match error {
        SlateError::NoMemory => JobRefusal::NoMemory,
        error => JobRefusal::Writer(error),
    }
}

/// The refusal of an error of the writer, and the failure by which it ends a job store, where it does.
pub(crate) fn refuse(error: SlateError) -> (JobRefusal, Option<Failure>)
    ensures refusal { result.0 ≡ refusal_of error }
    ensures failure { result.1 ≡ failing error }
{
    match failing(&error) {
        Some(failure) => (JobRefusal::Writer(failure.error()), Some(failure)),
        None => (passing(error), None),
    }
}
