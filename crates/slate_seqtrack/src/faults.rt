// The refusals of a tracker and of its bytes.
ghost use Rattle.std.specs.Prelude.{◌≡◌};

use slate_types::NoMemory;
use std::alloc::{AllocError, AllocFailed};
use thiserror::Error;

/// Why a tracker refuses a pair, or bytes aren't those of a tracker.
#[derive(Clone, Copy, Debug, PartialEq, Eq, Error)]
pub enum TrackerFault {
    /// The sequence number is below the last one in the list.
    #[error("sequence numbers must not fall. last={last}, next={next}")]
    FallingNumber { last: u64, next: u64 },
    /// The difference between two neighbouring differences leaves 32 signed bits.
    #[error("a difference of differences leaves 32 signed bits")]
    NotEncodable,
    /// There is no byte.
    #[error("no bytes")]
    Empty,
    /// The first byte isn't 1.
    #[error("unsupported version {found}")]
    Version { found: u8 },
    /// Fewer than four bytes follow the version.
    #[error("too few bytes for the length")]
    ShortLength,
    /// The bits of a block run out.
    #[error("the bits of a block run out")]
    ShortData,
    /// A value of a block leaves 64 signed bits.
    #[error("a value of a block leaves 64 signed bits")]
    Overflows,
    /// A block has another count than the length says.
    #[error("expected {expected} values, found {found}")]
    CountMismatch { expected: u32, found: u32 },
    /// One of the two lists falls.
    #[error("a list falls")]
    Falls,
    /// Memory ran out.
    #[error("no memory")]
    NoMemory,
}

impl From<NoMemory> for TrackerFault {
    ghost use Rattle.slate_seqtrack.specs.declared.faults.TrackerFault.TheVariants.{NoMemory as Memory};

    ghost from_gives = { λ _ fault. fault ≡ Memory };

    fn from(_fault: NoMemory) -> TrackerFault {
        TrackerFault::NoMemory
    }
}

impl From<AllocError> for TrackerFault {
    ghost use Rattle.slate_seqtrack.specs.declared.faults.TrackerFault.TheVariants.{NoMemory as Memory};

    ghost from_gives = { λ _ fault. fault ≡ Memory };

    fn from(_error: AllocError) -> TrackerFault {
        TrackerFault::NoMemory
    }
}

impl<T: Drop> From<AllocFailed<T>> for TrackerFault {
    ghost use Rattle.slate_seqtrack.specs.declared.faults.TrackerFault.TheVariants.{NoMemory as Memory};

    ghost from_gives = { λ _ fault. fault ≡ Memory };

    fn from(_error: AllocFailed<T>) -> TrackerFault {
        TrackerFault::NoMemory
    }
}
