//! Reads that are at least as new as asked: a router keeps readers of a database and polls them only where it has to; and
//! sessions with one.
#![tactic(auto)]

mod answers;
mod commands;
mod lines;
mod routers;
mod sessions;
mod texts;

pub use answers::{Added, RouteRefusal, Routed};
pub use commands::{RouteAction, RouteAnswer, RouteCommand};
pub use routers::Router;
pub use sessions::route_session;
