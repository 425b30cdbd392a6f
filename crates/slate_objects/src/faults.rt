// Why bytes aren't decoded as an object.
ghost use Rattle.std.specs.Prelude.{◌≡◌};
ghost use Rattle.slate_objects.specs.declared.faults.DecodeError.TheVariants.{NoMemory as OutOfMemory};

use slate_types::NoMemory;
use std::alloc::{AllocError, AllocFailed};
use thiserror::Error;

/// Why bytes aren't those of an object: the first reason from left to right.
#[derive(Clone, Copy, Debug, PartialEq, Eq, Error)]
pub enum DecodeFault {
    /// The bytes end before the object does.
    #[error("the bytes end too early")]
    TooShort,
    /// The bytes don't begin as an object of this kind does.
    #[error("the bytes are not an object of this kind")]
    AnotherKind,
    /// The object is of a version of the format that isn't read.
    #[error("unsupported version {found}")]
    AnotherVersion { found: u32 },
    /// Bytes follow the object.
    #[error("bytes follow the object")]
    Trailing,
    /// The checksum isn't that of the bytes.
    #[error("checksum mismatch")]
    Checksum,
    /// A number has a byte that could be left out, or passes 64 bits.
    #[error("not a number")]
    NotANumber,
    /// A tag is none of those that may stand there.
    #[error("unknown tag {tag}")]
    UnknownTag { tag: u8 },
    /// A name isn't UTF-8.
    #[error("a name is not UTF-8")]
    NotText,
}

/// Why an object wasn't decoded.
#[derive(Clone, Copy, Debug, PartialEq, Eq, Error)]
pub enum DecodeError {
    /// The bytes aren't those of an object.
    #[error("{0}")]
    Fault(DecodeFault),
    /// Memory ran out.
    #[error("no memory")]
    NoMemory,
}

impl From<AllocError> for DecodeError {
    ghost from_gives = { λ _ error. error ≡ OutOfMemory };

    fn from(_error: AllocError) -> DecodeError {
        DecodeError::NoMemory
    }
}

impl<T: Drop> From<AllocFailed<T>> for DecodeError {
    ghost from_gives = { λ _ error. error ≡ OutOfMemory };

    fn from(_error: AllocFailed<T>) -> DecodeError {
        DecodeError::NoMemory
    }
}
