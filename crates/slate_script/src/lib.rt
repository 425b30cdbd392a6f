//! Scripts: their lines and commands, the replies to them, the words of the command line, and what sessions that read one
//! and write a text share.
#![tactic(auto)]

mod boxed;
mod commands;
mod fields;
mod forms;
mod generator;
mod laws;
mod lines;
mod lookups;
mod options;
mod printing;
mod queries;
mod replies;
mod scripts;
mod sessions;
mod values;
mod writes;

pub use boxed::Boxed;
pub use commands::{Action, Command, LineAnswer, ScriptFault};
pub use fields::script_fields;
pub use forms::read_line;
pub use generator::{MAX_GENERATED, generate, print_summary};
pub use laws::bounds_read_again;
pub use lines::{FromFields, MAX_SCRIPT, read_lines};
pub use options::{Options, RunOptions, SessionWords, read_words};
pub use printing::{print_replies, write_labelled, write_reply_words, write_shown};
pub use replies::Reply;
pub use scripts::read_script;
pub use sessions::{Finished, Outcome, read_commands, write_text};
pub use values::read_word;
