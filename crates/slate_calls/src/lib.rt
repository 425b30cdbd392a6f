//! Calls of the library as lines of a file: what their words spell, how what is answered is printed, and the subjects below handles and
//! readers. The program `slate_cases` runs such files; `docs/FORMATS.md` has their forms.
#![tactic(auto)]

pub mod answers;
mod answers_of_calls;
pub mod batches;
pub mod bits;
pub mod blob_stores;
pub mod call_line;
pub mod directories;
pub mod dispatchers;
pub mod errors;
pub mod executors;
pub mod keys;
pub mod lines;
pub mod manifests;
pub mod object_calls;
pub mod objects;
pub mod operators;
pub mod ranges;
pub mod replies;
pub mod rows;
pub mod statuses;
pub mod store_calls;
pub mod subjects;
pub mod tasks;
pub mod texts;
pub mod told_stores;
pub mod trackers;
