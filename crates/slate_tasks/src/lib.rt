//! The background tasks of a handle, or of a reader that follows a database: they are registered when it is opened, and ended
//! by its close.
#![tactic(auto)]

mod handlers;
mod running;

pub use running::Tasks;
