// The subject `errors`: the errors of the product, what they answer, and errors as a caller sees them.
use crate::call_line::CallLine;
use crate::ranges::range_of;
use crate::subjects::Subject;
use slate_errors::{CloseReason, Error, SlateError};
use slate_types::{Name, StoreFault};
use std::alloc::Global;
use uuid::Uuid;

#[derive(Clone, Copy)]
enum Call {
    Text,
    Asks,
    Kind,
    Reason,
    Words,
    Invalid,
    Source,
}

const CALLS: &[(&[u8], Call)] = &[
    (b"text", Call::Text),
    (b"asks", Call::Asks),
    (b"kind", Call::Kind),
    (b"reason", Call::Reason),
    (b"words", Call::Words),
    (b"invalid", Call::Invalid),
    (b"source", Call::Source),
];

/// Calls that keep nothing.
#[derive(Clone, Copy)]
pub struct Errors;

impl Subject for Errors {
    fn anew(&self, _alloc: Global) -> Errors {
        Errors
    }

    fn call(&mut self, line: &mut CallLine<'_>) {
        match line.name(CALLS) {
            Some(Call::Invalid) => print_invalid(line),
            Some(Call::Source) => print_source(line),
            Some(call) => {
                let error = error_of(line);
                print_of(call, &error, line);
            }
            None => {}
        }
    }
}

/// Prints what a call asks of an error.
fn print_of(call: Call, error: &SlateError, line: &mut CallLine<'_>) {
    let kind = error.kind();
    match call {
        Call::Text => line.print_text_of(error),
        Call::Asks => print_answers(error, line),
        Call::Kind => line.print_debug(&kind),
        Call::Reason => line.print_debug(&CloseReason::from(kind)),
        _ => {
            let words = kind.to_string(line.alloc());
            if let Some(words) = line.made(words) {
                line.print_text(words.as_str());
            }
        }
    }
}

/// Prints an error of a caller with a message, and with a source, where there is one.
fn print_invalid(line: &mut CallLine<'_>) {
    let error = Error::invalid(name_of(line));
    let error = if line.is_read() {
        error
    } else {
        error.with_source(name_of(line))
    };
    line.print_public(&error);
}

/// Prints an error with a source of its own.
fn print_source(line: &mut CallLine<'_>) {
    let source = name_of(line);
    let error = Error::from(error_of(line)).with_source(source);
    line.print_public(&error);
}

/// Prints what each of the three questions answers of an error: whether an id was taken, whether an object is missing, and
/// why reading again may help.
fn print_answers(error: &SlateError, line: &mut CallLine<'_>) {
    let taken = error.is_sequenced_write_conflict();
    let missing = error.has_object_store_not_found();
    let retry = error.maybe_validation_retry_reason();
    line.print_debug(&(taken, missing, retry));
}

/// The name that the next word spells.
fn name_of(line: &mut CallLine<'_>) -> Name {
    Name::of(line.string())
}

/// The name of an error that holds nothing.
#[derive(Clone, Copy)]
enum Plain {
    TransactionalObjectVersionExists,
    LatestTransactionalObjectVersionMissing,
    InvalidDBState,
    ChecksumMismatch,
    EmptyBlock,
    EmptyBlockMeta,
    InvalidFilterBlock,
    EmptyKey,
    EmptyBatch,
    Fenced,
    Closed,
    WalDisabled,
    TransactionConflict,
    MergeOperatorError,
    MergeOperatorMissing,
    NoMemory,
    BackgroundTaskExecutorStarted,
    SeekKeyLessThanLastReturnedKey,
    RecencyScanPrefixSpansMultipleSegments,
}

const PLAIN: &[(&[u8], Plain)] = &[
    (
        b"TransactionalObjectVersionExists",
        Plain::TransactionalObjectVersionExists,
    ),
    (
        b"LatestTransactionalObjectVersionMissing",
        Plain::LatestTransactionalObjectVersionMissing,
    ),
    (b"InvalidDBState", Plain::InvalidDBState),
    (b"ChecksumMismatch", Plain::ChecksumMismatch),
    (b"EmptyBlock", Plain::EmptyBlock),
    (b"EmptyBlockMeta", Plain::EmptyBlockMeta),
    (b"InvalidFilterBlock", Plain::InvalidFilterBlock),
    (b"EmptyKey", Plain::EmptyKey),
    (b"EmptyBatch", Plain::EmptyBatch),
    (b"Fenced", Plain::Fenced),
    (b"Closed", Plain::Closed),
    (b"WalDisabled", Plain::WalDisabled),
    (b"TransactionConflict", Plain::TransactionConflict),
    (b"MergeOperatorError", Plain::MergeOperatorError),
    (b"MergeOperatorMissing", Plain::MergeOperatorMissing),
    (b"NoMemory", Plain::NoMemory),
    (
        b"BackgroundTaskExecutorStarted",
        Plain::BackgroundTaskExecutorStarted,
    ),
    (
        b"SeekKeyLessThanLastReturnedKey",
        Plain::SeekKeyLessThanLastReturnedKey,
    ),
    (
        b"RecencyScanPrefixSpansMultipleSegments",
        Plain::RecencyScanPrefixSpansMultipleSegments,
    ),
];

/// The error that words name.
pub fn error_of(line: &mut CallLine<'_>) -> SlateError {
    if let Some(name) = line.find(PLAIN) {
        return plain_error(name);
    }
    if let Some(name) = line.find(NUMBERED) {
        return numbered_error(name, line);
    }
    error_with_fields(line)
}

/// The error with this name that holds nothing.
fn plain_error(name: Plain) -> SlateError {
    match name {
        Plain::TransactionalObjectVersionExists => SlateError::TransactionalObjectVersionExists,
        Plain::LatestTransactionalObjectVersionMissing =>
            SlateError::LatestTransactionalObjectVersionMissing,
        Plain::InvalidDBState => SlateError::InvalidDBState,
        Plain::ChecksumMismatch => SlateError::ChecksumMismatch,
        Plain::EmptyBlock => SlateError::EmptyBlock,
        Plain::EmptyBlockMeta => SlateError::EmptyBlockMeta,
        Plain::InvalidFilterBlock => SlateError::InvalidFilterBlock,
        Plain::EmptyKey => SlateError::EmptyKey,
        Plain::EmptyBatch => SlateError::EmptyBatch,
        Plain::Fenced => SlateError::Fenced,
        Plain::Closed => SlateError::Closed,
        Plain::WalDisabled => SlateError::WalDisabled,
        Plain::TransactionConflict => SlateError::TransactionConflict,
        Plain::MergeOperatorError => SlateError::MergeOperatorError,
        Plain::MergeOperatorMissing => SlateError::MergeOperatorMissing,
        Plain::NoMemory => SlateError::NoMemory,
        Plain::BackgroundTaskExecutorStarted => SlateError::BackgroundTaskExecutorStarted,
        Plain::SeekKeyLessThanLastReturnedKey => SlateError::SeekKeyLessThanLastReturnedKey,
        Plain::RecencyScanPrefixSpansMultipleSegments =>
            SlateError::RecencyScanPrefixSpansMultipleSegments,
    }
}

/// The name of an error that holds numbers.
#[derive(Clone, Copy)]
enum Numbered {
    TransactionalObjectTimeout,
    WalTruncated,
    Custom,
    InvalidCheckpointLifetime,
    InvalidManifestPollInterval,
    CheckpointMissing,
    InvalidClockTick,
    Backpressure,
    CheckpointLifetimeTooShort,
}

const NUMBERED: &[(&[u8], Numbered)] = &[
    (
        b"TransactionalObjectTimeout",
        Numbered::TransactionalObjectTimeout,
    ),
    (b"WalTruncated", Numbered::WalTruncated),
    (b"Custom", Numbered::Custom),
    (
        b"InvalidCheckpointLifetime",
        Numbered::InvalidCheckpointLifetime,
    ),
    (
        b"InvalidManifestPollInterval",
        Numbered::InvalidManifestPollInterval,
    ),
    (b"CheckpointMissing", Numbered::CheckpointMissing),
    (b"InvalidClockTick", Numbered::InvalidClockTick),
    (b"Backpressure", Numbered::Backpressure),
    (
        b"CheckpointLifetimeTooShort",
        Numbered::CheckpointLifetimeTooShort,
    ),
];

/// The error with this name and with the numbers that the next words spell.
fn numbered_error(name: Numbered, line: &mut CallLine<'_>) -> SlateError {
    match name {
        Numbered::TransactionalObjectTimeout => {
            let tries = line.short();
            SlateError::TransactionalObjectTimeout { tries }
        }
        Numbered::WalTruncated => SlateError::WalTruncated(line.number()),
        Numbered::Custom => SlateError::Custom(line.number()),
        Numbered::InvalidCheckpointLifetime => SlateError::InvalidCheckpointLifetime(line.number()),
        Numbered::InvalidManifestPollInterval => SlateError::InvalidManifestPollInterval(
            line.number(),
        ),
        Numbered::CheckpointMissing => {
            SlateError::CheckpointMissing(Uuid::from_u128(u128::from(line.number())))
        }
        Numbered::InvalidClockTick => {
            let last_tick = line.time();
            let next_tick = line.time();
            SlateError::InvalidClockTick {
                last_tick,
                next_tick,
            }
        }
        Numbered::Backpressure => {
            let unflushed = line.number();
            let limit = line.number();
            SlateError::Backpressure { unflushed, limit }
        }
        Numbered::CheckpointLifetimeTooShort => {
            let lifetime = line.number();
            let interval = line.number();
            SlateError::CheckpointLifetimeTooShort { lifetime, interval }
        }
    }
}

const FAULTS: &[(&[u8], StoreFault)] = &[
    (b"NotFound", StoreFault::NotFound),
    (b"Unavailable", StoreFault::Unavailable),
];

/// The name of an error that holds other things.
#[derive(Clone, Copy)]
enum Fielded {
    ObjectStoreError,
    EmptySegmentPrefix,
    SegmentExtractorMismatch,
    BackgroundTaskExists,
    InvalidSegmentPrefix,
    SegmentPrefixNotRecognized,
    IncompatibleMergeTtls,
    SeekKeyOutOfRange,
}

const FIELDED: &[(&[u8], Fielded)] = &[
    (b"ObjectStoreError", Fielded::ObjectStoreError),
    (b"EmptySegmentPrefix", Fielded::EmptySegmentPrefix),
    (
        b"SegmentExtractorMismatch",
        Fielded::SegmentExtractorMismatch,
    ),
    (b"BackgroundTaskExists", Fielded::BackgroundTaskExists),
    (b"InvalidSegmentPrefix", Fielded::InvalidSegmentPrefix),
    (
        b"SegmentPrefixNotRecognized",
        Fielded::SegmentPrefixNotRecognized,
    ),
    (b"IncompatibleMergeTtls", Fielded::IncompatibleMergeTtls),
    (b"SeekKeyOutOfRange", Fielded::SeekKeyOutOfRange),
];

/// The error that the next word names, with what the words behind it spell.
fn error_with_fields(line: &mut CallLine<'_>) -> SlateError {
    match line.name(FIELDED) {
        Some(Fielded::ObjectStoreError) => {
            let fault = line.name(FAULTS).unwrap_or(StoreFault::NotFound);
            SlateError::ObjectStoreError(fault)
        }
        Some(Fielded::SegmentExtractorMismatch) => SlateError::SegmentExtractorMismatch {
            persisted: None,
            configured: Some(name_of(line)),
        },
        Some(Fielded::BackgroundTaskExists) => SlateError::BackgroundTaskExists(name_of(line)),
        Some(name) => error_with_key(name, line),
        None => SlateError::NoMemory,
    }
}

/// The error with this name, with a key or a prefix, and with what the words behind that spell.
fn error_with_key(name: Fielded, line: &mut CallLine<'_>) -> SlateError {
    let key = line.bytes();
    match name {
        Fielded::InvalidSegmentPrefix => {
            let conflict = line.bytes();
            SlateError::InvalidSegmentPrefix {
                prefix: key,
                conflict,
            }
        }
        Fielded::SegmentPrefixNotRecognized => {
            let extractor = name_of(line);
            SlateError::SegmentPrefixNotRecognized {
                prefix: key,
                extractor,
            }
        }
        Fielded::IncompatibleMergeTtls => {
            let previous_expire_ts = line.end();
            let current_expire_ts = line.end();
            SlateError::IncompatibleMergeTtls {
                key,
                previous_expire_ts,
                current_expire_ts,
            }
        }
        Fielded::SeekKeyOutOfRange => {
            let range = range_of(line);
            SlateError::SeekKeyOutOfRange { key, range }
        }
        _ => SlateError::EmptySegmentPrefix { key },
    }
}
