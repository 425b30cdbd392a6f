//! The errors of the product, their kinds and texts, and the result with which something closed.
#![tactic(auto)]

mod closing;
mod endings;
mod errors;
mod kinds;
mod public_errors;
mod shown;
mod texts;

pub use closing::{CloseCell, CloseFault, CloseReason};
pub use endings::{Ended, Ending, TaskName};
pub use errors::{RetryReason, SlateError};
pub use kinds::ErrorKind;
pub use public_errors::Error;
pub use texts::write_error;
