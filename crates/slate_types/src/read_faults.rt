// The faults of a read.
use crate::NoMemory;
use thiserror::Error;

/// Why a read gave no answer.
#[derive(Clone, Copy, Debug, PartialEq, Eq, Error)]
pub enum ReadFault {
    /// The key has operands to merge, and there is no operator.
    #[error("there is no operator to merge the operands of a key")]
    MergeOperatorMissing,
    /// The operator refused an operand.
    #[error("the merge operator refused an operand")]
    MergeOperatorError,
    /// A stored row is damaged. No read here answers it: it comes only from an iterator that was made with it.
    #[error("a stored row is damaged")]
    ChecksumMismatch,
    /// Memory ran out.
    #[error("memory ran out")]
    NoMemory,
}

impl From<NoMemory> for ReadFault {
    ghost use Rattle.std.specs.Prelude.{◌≡◌};
    ghost use Rattle.slate_types.specs.declared.read_faults.ReadFault.TheVariants.{NoMemory as OutOfMemory};

    ghost from_gives = { λ _ fault. fault ≡ OutOfMemory };

    fn from(_error: NoMemory) -> ReadFault {
        ReadFault::NoMemory
    }
}
