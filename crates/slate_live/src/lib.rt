//! Runs commands over a store: the live handles, the replies to a list of commands, and a whole session from the words
//! of the command line and the bytes of a script to the bytes of the replies.
#![tactic(auto)]

mod extensions;
mod followers;
mod handles;
mod laws;
mod maintenance;
mod objects;
mod readers;
mod runs;
mod scans;
mod sessions;
mod states;
mod targets;

pub use laws::{begun_polls_stand, calls_are_steps, commands_lead_on};
pub use runs::run;
pub use sessions::{extractor_of, session};
pub use slate_receivers::{
    Clock, DurabilityWaiter, HandClock, StatusManager, StatusReceiver, SystemClock, WriteHandle,
};
pub use slate_script::{
    Action, Command, Finished, LineAnswer, MAX_GENERATED, MAX_SCRIPT, Options, Outcome, Reply,
    RunOptions, ScriptFault, SessionWords, generate, print_replies, print_summary, read_line,
    read_script, script_fields,
};
pub use slate_seqtrack::FindOption;
pub use slate_streams::{
    InputFault, ReadAnswer, Sink, SliceSource, Source, VecSink, WriteAnswer, read_whole,
    write_whole,
};
pub use slate_text::{read_byte_word, read_moment, read_number, write_byte_word};
pub use states::LiveState;
