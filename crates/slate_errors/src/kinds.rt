// What kind an error may have, and the words of each.
ghost use Rattle.std.specs.Prelude.{◌≡◌, Some};
ghost use Rattle.slate_errors.specs.Kinds.{kind_words, reason_of};

use crate::CloseReason;
use std::fmt;

/// What kind of error it is. SlateDB's enum of this name. `Display` prints the kind's words.
#[derive(Clone, Copy, Debug, PartialEq, Eq)]
pub enum ErrorKind {
    /// A transaction conflicts with another write. It may be tried again.
    Transaction,
    /// The object is closed, for this reason.
    Closed(CloseReason),
    /// The object store, or another means, isn't there now. A call that closed nothing may be tried again; a flush that
    /// met such a fault has closed its handle.
    Unavailable,
    /// The call isn't one that may be made.
    Invalid,
    /// What is stored is damaged, or isn't what it should be.
    Data,
    /// The program itself is at fault.
    Internal,
    /// Memory ran out.
    Memory,
}

impl ErrorKind {
    /// The words of the kind. They don't name the reason of `Closed`. It takes no memory.
    pub fn as_str(self) -> &'static str
        ensures { result.now ≡ kind_words self }
    {
        match self {
            ErrorKind::Transaction => "Transaction error",
            ErrorKind::Closed(_) => "Closed error",
            ErrorKind::Unavailable => "Unavailable error",
            ErrorKind::Invalid => "Invalid error",
            ErrorKind::Data => "Data error",
            ErrorKind::Internal => "Internal error",
            ErrorKind::Memory => "Memory error",
        }
    }
}

impl fmt::Display for ErrorKind {
    ghost output = { λ kind. Some (kind_words kind) };

    fn fmt<W: fmt::Write>(&self, f: &mut fmt::Formatter<W>) -> fmt::Result {
        f.write_str(self.as_str())
    }
}

/// The reason that a `Closed` kind names, and `Panic` for every other kind. It takes no memory.
impl From<ErrorKind> for CloseReason {
    ghost from_gives = { λ kind reason. reason ≡ reason_of kind };

    fn from(kind: ErrorKind) -> CloseReason {
        match kind {
            ErrorKind::Closed(reason) => reason,
            _ => CloseReason::Panic,
        }
    }
}
