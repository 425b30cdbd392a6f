// The refusals of a seek, and what ends rows that are taken with one on the way.
ghost use Rattle.std.specs.Prelude.{◌≡◌};

use slate_types::{NoMemory, ReadFault};
use thiserror::Error;

/// Why a seek was refused. A refusal changes nothing.
#[derive(Clone, Copy, Debug, PartialEq, Eq, Error)]
pub enum SeekFault {
    /// The key isn't in the range of the iterator.
    #[error("the key isn't in the range of the iterator")]
    OutOfRange,
    /// The key is at most the one that was returned last, in whichever order.
    #[error("the key is at most the one that was returned last")]
    LessThanLastReturned,
    /// The iterator answered this fault before, or it ends the rows that were asked for beside the seek.
    #[error("the rows end with a fault: {0}")]
    Stored(ReadFault),
}

impl From<NoMemory> for SeekFault {
    ghost use Rattle.slate_types.specs.declared.read_faults.ReadFault.TheVariants.{NoMemory as OutOfMemory};
    ghost use Rattle.slate_rows.specs.declared.seeks.SeekFault.TheVariants.{Stored};

    ghost from_gives = { λ _ fault. fault ≡ Stored OutOfMemory };

    fn from(_error: NoMemory) -> SeekFault {
        SeekFault::Stored(ReadFault::NoMemory)
    }
}
