//! Background tasks, run one turn at a time: a dispatcher hands messages to a handler, and an executor gives the tasks
//! of its groups their turns.
#![tactic(auto)]

mod boxed;
mod dispatchers;
mod executors;
mod groups;
mod handlers;
mod laws;
mod tasks;
mod tickers;

pub use boxed::BoxedTask;
pub use dispatchers::{Dispatcher, SendRefusal};
pub use executors::{Executor, ExecutorRefusal};
pub use handlers::MessageHandler;
pub use laws::each_message_is_given_once;
pub use tasks::{Task, TurnAnswer};
pub use tickers::TickerDef;
