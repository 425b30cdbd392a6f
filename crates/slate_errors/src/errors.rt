// The errors of the product, what kind each is, and the error of a fault of a read, a store or a close.
ghost use Rattle.std.specs.Prelude.{◌≡◌, ◌↔◌, IsTrue};
ghost use Rattle.slate_types.specs.declared.store_errors.StoreFault.TheVariants.{NotFound};
ghost use Rattle.slate_errors.specs.declared.errors.SlateError.TheVariants.{NoMemory as OutOfMemory};
ghost use Rattle.slate_errors.specs.Errors.{closed_error, error_of_read, error_of_store, error_of_fault};
ghost use Rattle.slate_errors.specs.Kinds.{kind_of, retry_reason};

use crate::{CloseFault, CloseReason, ErrorKind};
use bytes::Bytes;
use slate_types::{ByteRange, Name, NoMemory, ReadFault, StoreError, StoreFault};
use uuid::Uuid;

/// Every error that a call of the product answers. SlateDB's `SlateDBError`.
#[derive(Debug, PartialEq, Eq, Drop)]
pub enum SlateError {
    /// A key to be written is empty.
    EmptyKey,
    /// A batch to be written has no operation.
    EmptyBatch,
    /// The object store failed, or an object isn't there.
    ObjectStoreError(StoreFault),
    /// A manifest or a log file that was to be put is there already.
    TransactionalObjectVersionExists,
    /// There is no manifest.
    LatestTransactionalObjectVersionMissing,
    /// A put met an id that was stored already at each of its tries.
    TransactionalObjectTimeout {
        tries: u32,
    },
    /// The database is in a state that it can't go on from, or a number is at the end of its type.
    InvalidDBState,
    /// A log file that was to be replayed isn't there, or goes on with a number past the next. It names the file's id.
    WalTruncated(u64),
    /// The segment prefix of a key begins another one that is known, or begins with it.
    InvalidSegmentPrefix {
        prefix: Bytes,
        /// The least of the known prefixes that it nests with.
        conflict: Bytes,
    },
    /// The keys of a scan by recency are in more than one segment.
    RecencyScanPrefixSpansMultipleSegments,
    /// The database was written with another segment extractor, or with one where none is configured, or without one.
    SegmentExtractorMismatch {
        /// The name in the manifest.
        persisted: Option<Name>,
        /// The name of the extractor at hand.
        configured: Option<Name>,
    },
    /// The extractor at hand answers another prefix for a stored one.
    SegmentPrefixNotRecognized {
        prefix: Bytes,
        extractor: Name,
    },
    /// The extractor answers no prefix of this key, or an empty one.
    EmptySegmentPrefix {
        key: Bytes,
    },
    /// The moment of a write is below that of the write before. Moments are in milliseconds.
    InvalidClockTick {
        last_tick: i64,
        next_tick: i64,
    },
    /// Another writer took over.
    Fenced,
    /// A stored row is damaged.
    ChecksumMismatch,
    /// A stored block has no row.
    EmptyBlock,
    /// A table has no description of its blocks.
    EmptyBlockMeta,
    /// A stored filter can't be read.
    InvalidFilterBlock,
    /// A task of this name is registered already.
    BackgroundTaskExists(Name),
    /// The tasks were started already.
    BackgroundTaskExecutorStarted,
    /// It was closed by a call.
    Closed,
    /// The merge operator refused an operand.
    MergeOperatorError,
    /// There are operands to merge, and there is no operator.
    MergeOperatorMissing,
    /// Two merges of one batch give one key different times of expiry, in milliseconds.
    IncompatibleMergeTtls {
        key: Bytes,
        previous_expire_ts: Option<i64>,
        current_expire_ts: Option<i64>,
    },
    /// The latest manifest has no checkpoint of this id.
    CheckpointMissing(Uuid),
    /// A key that is sought lies outside the range of the iterator.
    SeekKeyOutOfRange {
        key: Bytes,
        range: ByteRange,
    },
    /// A key that is sought is at most the last one that the iterator gave.
    SeekKeyLessThanLastReturnedKey,
    /// The lifetime of a checkpoint is too short. It is in milliseconds.
    InvalidCheckpointLifetime(u64),
    /// The interval of polls is too long to be doubled. It is in milliseconds.
    InvalidManifestPollInterval(u64),
    /// The lifetime of a checkpoint is less than twice the interval of polls. Both are in milliseconds.
    CheckpointLifetimeTooShort {
        lifetime: u64,
        /// Twice the interval of polls.
        interval: u64,
    },
    /// A flush of the log was asked of a handle that keeps none.
    WalDisabled,
    /// Another write changed what a transaction writes, or read.
    TransactionConflict,
    /// A task failed with a fault of its own, which has this number.
    Custom(u64),
    /// So many bytes wait to be flushed that no write is accepted.
    Backpressure {
        unflushed: u64,
        /// From so many bytes on none is accepted.
        limit: u64,
    },
    /// Memory ran out.
    NoMemory,
}

impl SlateError {
    /// What a checked call on something that closed with this result answers: `Closed`, or the error that closed it. It
    /// takes no memory.
    pub fn of_closed(recorded: Result<(), CloseFault>) -> SlateError
        ensures { result ≡ closed_error recorded }
    {
        match recorded {
            Ok(()) => SlateError::Closed,
            Err(fault) => SlateError::from(fault),
        }
    }

    /// What kind of error it is. It takes no memory.
    pub fn kind(&self) -> ErrorKind
        ensures { result ≡ kind_of self.now }
    {
        match self {
            SlateError::TransactionConflict => ErrorKind::Transaction,
            SlateError::Fenced => ErrorKind::Closed(CloseReason::Fenced),
            SlateError::Closed => ErrorKind::Closed(CloseReason::Clean),
            SlateError::Custom(_) => ErrorKind::Closed(CloseReason::Panic),
            SlateError::ObjectStoreError(StoreFault::Unavailable)
            | SlateError::TransactionalObjectTimeout { .. }
            | SlateError::Backpressure { .. } => ErrorKind::Unavailable,
            SlateError::EmptyKey
            | SlateError::ObjectStoreError(StoreFault::NotFound)
            | SlateError::TransactionalObjectVersionExists
            | SlateError::LatestTransactionalObjectVersionMissing
            | SlateError::InvalidDBState
            | SlateError::WalTruncated(_)
            | SlateError::ChecksumMismatch
            | SlateError::EmptyBlock
            | SlateError::EmptyBlockMeta
            | SlateError::InvalidFilterBlock
            | SlateError::CheckpointMissing(_) => ErrorKind::Data,
            SlateError::BackgroundTaskExists(_) | SlateError::BackgroundTaskExecutorStarted => {
                ErrorKind::Internal
            }
            SlateError::NoMemory => ErrorKind::Memory,
            _ => ErrorKind::Invalid,
        }
    }
}

impl SlateError {
    /// Whether it says that a manifest or a log file of that id was put before. It takes no memory.
    pub fn is_sequenced_write_conflict(&self) -> bool
        ensures { IsTrue result ↔ (self.now ≡ SlateError.TransactionalObjectVersionExists) }
    {
        matches!(self, SlateError::TransactionalObjectVersionExists)
    }

    /// Whether it says that an object isn't in the object store. It takes no memory.
    pub fn has_object_store_not_found(&self) -> bool
        ensures { IsTrue result ↔ (self.now ≡ SlateError.ObjectStoreError NotFound) }
    {
        matches!(self, SlateError::ObjectStoreError(StoreFault::NotFound))
    }

    /// Why reading the data again may help, where it may. It takes no memory.
    pub fn maybe_validation_retry_reason(&self) -> Option<RetryReason>
        ensures { result ≡ retry_reason self.now }
    {
        match self {
            SlateError::ChecksumMismatch => Some(RetryReason::CrcMismatch),
            SlateError::EmptyBlock | SlateError::EmptyBlockMeta | SlateError::InvalidFilterBlock =>
                Some(RetryReason::BlockDecodeError),
            _ => None,
        }
    }
}

/// Why data that was read is worth being read again. SlateDB's enum of this name.
#[derive(Clone, Copy, Debug, PartialEq, Eq)]
pub enum RetryReason {
    /// A checksum didn't match.
    CrcMismatch,
    /// A block could not be decoded.
    BlockDecodeError,
}

impl From<NoMemory> for SlateError {
    ghost from_gives = { λ _ error. error ≡ OutOfMemory };

    fn from(_error: NoMemory) -> SlateError {
        SlateError::NoMemory
    }
}

impl From<ReadFault> for SlateError {
    ghost from_gives = { λ fault error. error ≡ error_of_read fault };

    fn from(fault: ReadFault) -> SlateError {
        match fault {
            ReadFault::MergeOperatorMissing => SlateError::MergeOperatorMissing,
            ReadFault::MergeOperatorError => SlateError::MergeOperatorError,
            ReadFault::ChecksumMismatch => SlateError::ChecksumMismatch,
            ReadFault::NoMemory => SlateError::NoMemory,
        }
    }
}

impl From<StoreError> for SlateError {
    ghost from_gives = { λ refusal error. error ≡ error_of_store refusal };

    fn from(refusal: StoreError) -> SlateError {
        match refusal {
            StoreError::NotFound => SlateError::ObjectStoreError(StoreFault::NotFound),
            StoreError::Exists => SlateError::TransactionalObjectVersionExists,
            StoreError::Failed => SlateError::ObjectStoreError(StoreFault::Unavailable),
            StoreError::NoMemory => SlateError::NoMemory,
        }
    }
}

impl From<CloseFault> for SlateError {
    ghost from_gives = { λ fault error. error ≡ error_of_fault fault };

    fn from(fault: CloseFault) -> SlateError {
        match fault {
            CloseFault::Fenced => SlateError::Fenced,
            CloseFault::InvalidDBState => SlateError::InvalidDBState,
            CloseFault::ObjectStoreError(fault) => SlateError::ObjectStoreError(fault),
            CloseFault::TransactionalObjectVersionExists => {
                SlateError::TransactionalObjectVersionExists
            }
            CloseFault::LatestTransactionalObjectVersionMissing => {
                SlateError::LatestTransactionalObjectVersionMissing
            }
            CloseFault::TransactionalObjectTimeout { tries } => {
                SlateError::TransactionalObjectTimeout { tries }
            }
            CloseFault::Custom(number) => SlateError::Custom(number),
        }
    }
}
