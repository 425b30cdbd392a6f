// Errors as a caller sees them: made, read and printed.
ghost use Rattle.std.specs.Prelude.{◌≡◌, ◌++◌, length, take, Some, OnOk, OnErr};
ghost use Rattle.std.specs.Option.{option_copied};
ghost use Rattle.slate_errors.specs.Kinds.{kind_of};

use crate::texts::{source_of, write_message, write_source};
use crate::{CloseReason, ErrorKind, SlateError};
use slate_text::{cut_back, write_text};
use slate_types::{Name, NoMemory, ReadFault};
use std::marker::Model;

/// What an error comes from.
#[derive(Debug, Drop)]
enum Origin {
    /// An error that a call answered.
    Cause(SlateError),
    /// A message of this kind.
    Stated(ErrorKind, Name),
}

/// An error as a caller sees it: its kind, its message, and its source where it has one. SlateDB's `Error`. A contract
/// sees these, and the error of the product that caused it, where one did.
#[derive(Debug, Drop)]
pub struct Error {
    origin: Origin,
    // It takes the place of the cause's own source.
    source: Option<Name>,
}

impl Model for Error {
    ghost use Rattle.slate_errors.specs.PublicErrors.{PublicError, from_origin, with_source};

    ghost Value = { PublicError };

    ghost view = { λ e. with_source e.source (from_origin e.origin) };
}

impl Error {
    ghost use Rattle.slate_errors.specs.PublicErrors.{stated, public_text};

    /// An error of a transaction, with this message. It takes no memory.
    pub fn transaction(msg: Name) -> Error
        ensures { result ≡ stated ErrorKind.Transaction msg }
    {
        Error::stated(ErrorKind::Transaction, msg)
    }

    /// An error of what is closed for this reason, with this message. It takes no memory.
    pub fn closed(msg: Name, reason: CloseReason) -> Error
        ensures { result ≡ stated (ErrorKind.Closed reason) msg }
    {
        Error::stated(ErrorKind::Closed(reason), msg)
    }

    /// An error of what isn't there now, with this message. It takes no memory.
    pub fn unavailable(msg: Name) -> Error
        ensures { result ≡ stated ErrorKind.Unavailable msg }
    {
        Error::stated(ErrorKind::Unavailable, msg)
    }

    /// An error of a call that may not be made, with this message. It takes no memory.
    pub fn invalid(msg: Name) -> Error
        ensures { result ≡ stated ErrorKind.Invalid msg }
    {
        Error::stated(ErrorKind::Invalid, msg)
    }

    /// An error of damaged data, with this message. It takes no memory.
    pub fn data(msg: Name) -> Error
        ensures { result ≡ stated ErrorKind.Data msg }
    {
        Error::stated(ErrorKind::Data, msg)
    }

    /// An error of the program itself, with this message. It takes no memory.
    pub fn internal(msg: Name) -> Error
        ensures { result ≡ stated ErrorKind.Internal msg }
    {
        Error::stated(ErrorKind::Internal, msg)
    }

    fn stated(kind: ErrorKind, message: Name) -> Error
        ensures { result ≡ stated kind message }
    {
        Error {
            origin: Origin::Stated(kind, message),
            source: None,
        }
    }

    /// The same error with this source. It takes the place of one that was given before, and of the cause's own. It
    /// takes no memory.
    pub fn with_source(self, source: Name) -> Error
        ensures { result ≡ record self { source = Some source } }
    {
        Error {
            origin: self.origin,
            source: Some(source),
        }
    }

    /// What kind of error it is. It takes no memory.
    pub fn kind(&self) -> ErrorKind
        ensures { result ≡ self.now.kind }
    {
        match &self.origin {
            Origin::Cause(error) => error.kind(),
            Origin::Stated(kind, _) => *kind,
        }
    }

    /// The error of the product that caused it, where one did. It takes no memory.
    pub fn cause(&self) -> Option<&SlateError>
        ensures { option_copied result ≡ self.now.cause }
    {
        match &self.origin {
            Origin::Cause(error) => Some(error),
            Origin::Stated(..) => None,
        }
    }

    fn source(&self) -> Option<&str>
        ensures { option_copied result ≡ self.now.source }
    {
        match (&self.source, &self.origin) {
            (Some(source), _) => Some(source.as_str()),
            (None, Origin::Cause(error)) => source_of(error),
            (None, Origin::Stated(..)) => None,
        }
    }

    fn write_message(&self, out: &mut Vec<u8>) -> Result<(), NoMemory>
        ensures ok { OnOk result (out.new.items ≡ out.old.items ++ self.now.message) }
        ensures err { OnErr result (take (length out.old.items) out.new.items ≡ out.old.items) }
    {
        match &self.origin {
            Origin::Cause(error) => write_message(out, error),
            Origin::Stated(_, message) => write_text(out, message.as_str()),
        }
    }

    fn write_parts(&self, out: &mut Vec<u8>) -> Result<(), NoMemory>
        ensures ok { OnOk result (out.new.items ≡ out.old.items ++ public_text self.now) }
        ensures err { OnErr result (take (length out.old.items) out.new.items ≡ out.old.items) }
    {
        write_text(out, self.kind().as_str())?;
        write_text(out, ": ")?;
        self.write_message(out)?;
        write_source(out, self.source())
    }

    /// Writes its public text at the end: the words of its kind, `: `, its message, and in parentheses its source where
    /// it has one. Where memory runs out, nothing was written. It takes time linear in the text.
    pub fn write_text(&self, out: &mut Vec<u8>) -> Result<(), NoMemory>
        ensures ok { OnOk result (out.new.items ≡ out.old.items ++ public_text self.now) }
        ensures err { OnErr result (out.new.items ≡ out.old.items) }
    {
        let length = out.len();
        let written = self.write_parts(out);
        cut_back(out, length, written)
    }
}

/// The error that a call answered, as its cause. It takes no memory.
impl From<SlateError> for Error {
    ghost use Rattle.slate_errors.specs.PublicErrors.{caused_by};

    ghost from_gives = { λ cause error. error ≡ caused_by cause };

    fn from(cause: SlateError) -> Error {
        Error {
            origin: Origin::Cause(cause),
            source: None,
        }
    }
}

/// Lack of memory as an error whose cause it is, so that `?` takes it there in one step.
impl From<NoMemory> for Error {
    ghost use Rattle.slate_errors.specs.PublicErrors.{caused_by};
    ghost use Rattle.slate_errors.specs.declared.errors.SlateError.TheVariants.{NoMemory as OutOfMemory};

    ghost from_gives = { λ _ error. error ≡ caused_by OutOfMemory };

    fn from(_error: NoMemory) -> Error {
        Error::from(SlateError::NoMemory)
    }
}

/// The fault that ends the rows of an iterator as an error whose cause it is, so that `?` takes it there in one step.
impl From<ReadFault> for Error {
    ghost use Rattle.slate_errors.specs.Errors.{error_of_read};
    ghost use Rattle.slate_errors.specs.PublicErrors.{caused_by};

    ghost from_gives = { λ fault error. error ≡ caused_by (error_of_read fault) };

    fn from(fault: ReadFault) -> Error {
        Error::from(SlateError::from(fault))
    }
}
