// Why a file fails, and the words for it.
use std::alloc::AllocError;
use std::io;
use thiserror::Error;

/// Why a file failed.
#[derive(Debug, Drop, Error)]
pub enum Failure {
    /// The line with this number stands before the script, and sets nothing.
    #[error("line {0} is neither one of words, failing calls or a status, nor `script`")]
    Setting(u64),
    /// The file has no script.
    #[error("the file has no line `script`")]
    ScriptMissing,
    /// The file has no replies.
    #[error("the file has no line `replies` after its script")]
    RepliesMissing,
    /// The session ended with another status.
    #[error("it ended with status {found}, and {wanted} was wanted")]
    Status {
        found: u8,
        wanted: u8,
    },
    /// The line with this number is the first of the replies that differs.
    #[error("line {number} of the replies is {found:?}, and {wanted:?} was wanted")]
    Reply {
        number: u64,
        found: String,
        wanted: String,
    },
    /// The file of calls names no subject in its first line.
    #[error("the first line is not `calls` with a subject")]
    SubjectMissing,
    /// The line with this number is no call of the subject.
    #[error("line {0} is no call of the subject")]
    Call(u64),
    /// The call in the line with this number was answered otherwise.
    #[error("line {number} is answered {found:?}, and {wanted:?} was wanted")]
    Answer {
        number: u64,
        found: String,
        wanted: String,
    },
    /// Memory ran out in a call.
    #[error("no memory")]
    NoMemory,
    /// The file can't be read.
    #[error(transparent)]
    File(#[from] io::Error),
    /// Memory ran out.
    #[error(transparent)]
    Memory(#[from(alloc)] AllocError),
}
