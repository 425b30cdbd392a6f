// The messages of errors, and their public texts.
ghost use Rattle.std.specs.Prelude.{◌≡◌, ◌++◌, length, take, Some, OnOk, OnErr};
ghost use Rattle.std.specs.Option.{option_copied};
ghost use Rattle.slate_errors.specs.Texts.{fixed_message, shown_message, message_of, fault_words, source_of, source_text, error_text};

use crate::SlateError;
use crate::shown::{Shown, write_around, write_around_both, write_before, write_both};
use bytes::Bytes;
use slate_text::{cut_back, write_text};
use slate_types::{ByteRange, Name, NoMemory, StoreFault};

const TIMEOUT: &str = "transactional object (e.g. manifest) op timeout after ";

const TRIES: &str = " tries";

const WAL_TRUNCATED: &str = "wal truncated at wal file `";

const SEGMENT: &str = "segment prefix ";

const NESTS: &str = " would nest with existing segment ";

const EMPTY_PREFIX: &str = "segment extractor produced an empty prefix for key ";

const TASK_EXISTS: &str = "background task exists. name=`";

const CHECKPOINT_MISSING: &str = "checkpoint missing. checkpoint_id=`";

const LIFETIME: &str = "invalid checkpoint lifetime. lifetime=`";

const INTERVAL: &str = "invalid manifest poll interval. interval=`";

const PRESSURE: &str = "backpressure ";

const OF: &str = " of ";

// The message of an error that shows no value, and nothing for the others.
fn fixed_message(error: &SlateError) -> &'static str
    ensures { result.now ≡ fixed_message error.now }
{
    match error {
        SlateError::EmptyKey => "empty RowEntry key",
        SlateError::EmptyBatch => "empty write batch not allowed",
        SlateError::ObjectStoreError(_) => "object store error",
        SlateError::TransactionalObjectVersionExists => {
            "transactional object (e.g. manifest) version already exists"
        }
        SlateError::LatestTransactionalObjectVersionMissing => {
            "failed to find latest transactional object (e.g. manifest) version"
        }
        SlateError::InvalidDBState => "invalid DB state error",
        SlateError::RecencyScanPrefixSpansMultipleSegments => {
            "recency scan prefix spans multiple segments, which is unsupported"
        }
        SlateError::Fenced => "detected newer DB client",
        SlateError::ChecksumMismatch => "checksum mismatch",
        SlateError::EmptyBlock => "empty block",
        SlateError::EmptyBlockMeta => "empty block metadata",
        SlateError::InvalidFilterBlock => "invalid composite filter block",
        SlateError::BackgroundTaskExecutorStarted => "background task executor already started",
        SlateError::Closed => "db is closed",
        SlateError::MergeOperatorError => "merge operator error",
        SlateError::MergeOperatorMissing => {
            "merge operator missing. A merge operator is required to read merge operands"
        }
        SlateError::SeekKeyLessThanLastReturnedKey => {
            "cannot seek to a key less than the last returned key"
        }
        SlateError::WalDisabled => "attempted a WAL operation when the WAL is disabled",
        SlateError::TransactionConflict => "transaction conflict",
        SlateError::NoMemory => "no memory",
        _ => "",
    }
}

fn write_mismatch(
    out: &mut Vec<u8>,
    persisted: &Option<Name>,
    configured: &Option<Name>,
) -> Result<(), NoMemory>
    ensures ok { OnOk result (out.new.items ≡ out.old.items ++ shown_message (SlateError.SegmentExtractorMismatch persisted.now configured.now)) }
    ensures err { OnErr result (take (length out.old.items) out.new.items ≡ out.old.items) }
{
    let before = "segment extractor configuration mismatch (persisted: ";
    write_around_both(out, before, persisted, ", configured: ", configured, ")")
}

fn write_not_recognized(out: &mut Vec<u8>, prefix: &Bytes, extractor: &Name) -> Result<(), NoMemory>
    ensures ok { OnOk result (out.new.items ≡ out.old.items ++ shown_message (SlateError.SegmentPrefixNotRecognized prefix.now extractor.now)) }
    ensures err { OnErr result (take (length out.old.items) out.new.items ≡ out.old.items) }
{
    let between = " is not recognized by the configured extractor `";
    write_around_both(out, "segment prefix ", prefix, between, extractor, "`")
}

fn write_clock_tick(out: &mut Vec<u8>, last_tick: &i64, next_tick: &i64) -> Result<(), NoMemory>
    ensures ok { OnOk result (out.new.items ≡ out.old.items ++ shown_message (SlateError.InvalidClockTick last_tick.now next_tick.now)) }
    ensures err { OnErr result (take (length out.old.items) out.new.items ≡ out.old.items) }
{
    let before = "invalid clock tick, must be monotonic. last_tick=`";
    write_around_both(out, before, last_tick, "`, next_tick=`", next_tick, "`")
}

fn write_two_ttls(
    out: &mut Vec<u8>,
    key: &Bytes,
    previous: &Option<i64>,
    current: &Option<i64>,
) -> Result<(), NoMemory>
    ensures ok { OnOk result (out.new.items ≡ out.old.items ++ shown_message (SlateError.IncompatibleMergeTtls key.now previous.now current.now)) }
    ensures err { OnErr result (take (length out.old.items) out.new.items ≡ out.old.items) }
{
    let before = "only one merge TTL per-key allowed in a batch. key=";
    write_around_both(out, before, key, ", previous=`", previous, "`, current=`")?;
    current.show(out)?;
    write_text(out, "`")
}

fn write_out_of_range(out: &mut Vec<u8>, key: &Bytes, range: &ByteRange) -> Result<(), NoMemory>
    ensures ok { OnOk result (out.new.items ≡ out.old.items ++ shown_message (SlateError.SeekKeyOutOfRange key.now range.now)) }
    ensures err { OnErr result (take (length out.old.items) out.new.items ≡ out.old.items) }
{
    let before = "cannot seek to a key outside the iterator range. key=`";
    write_around_both(out, before, key, "`, range=`", range, "`")
}

fn write_too_short(out: &mut Vec<u8>, lifetime: &u64, interval: &u64) -> Result<(), NoMemory>
    ensures ok { OnOk result (out.new.items ≡ out.old.items ++ shown_message (SlateError.CheckpointLifetimeTooShort lifetime.now interval.now)) }
    ensures err { OnErr result (take (length out.old.items) out.new.items ≡ out.old.items) }
{
    let before =
        "checkpoint lifetime must be at least double the manifest poll interval. lifetime=`";
    write_around_both(out, before, lifetime, "ms`, interval=`", interval, "ms`")
}

// The message of an error that shows values, and nothing for the others.
fn write_shown(out: &mut Vec<u8>, error: &SlateError) -> Result<(), NoMemory>
    ensures ok { OnOk result (out.new.items ≡ out.old.items ++ shown_message error.now) }
    ensures err { OnErr result (take (length out.old.items) out.new.items ≡ out.old.items) }
{
    match error {
        SlateError::TransactionalObjectTimeout { tries } => write_around(
            out, TIMEOUT, tries, TRIES,
        ),
        SlateError::WalTruncated(id) => write_around(out, WAL_TRUNCATED, id, "`"),
        SlateError::InvalidSegmentPrefix { prefix, conflict } => write_both(
            out, SEGMENT, prefix, NESTS, conflict,
        ),
        SlateError::SegmentExtractorMismatch {
            persisted,
            configured,
        } => write_mismatch(out, persisted, configured),
        SlateError::SegmentPrefixNotRecognized { prefix, extractor } => write_not_recognized(
            out, prefix, extractor,
        ),
        SlateError::EmptySegmentPrefix { key } => write_before(out, EMPTY_PREFIX, key),
        SlateError::InvalidClockTick {
            last_tick,
            next_tick,
        } => write_clock_tick(out, last_tick, next_tick),
        SlateError::BackgroundTaskExists(name) => write_around(out, TASK_EXISTS, name, "`"),
        SlateError::IncompatibleMergeTtls {
            key,
            previous_expire_ts,
            current_expire_ts,
        } => write_two_ttls(out, key, previous_expire_ts, current_expire_ts),
        SlateError::CheckpointMissing(id) => write_around(out, CHECKPOINT_MISSING, id, "`"),
        SlateError::SeekKeyOutOfRange { key, range } => write_out_of_range(out, key, range),
        SlateError::InvalidCheckpointLifetime(ms) => write_around(out, LIFETIME, ms, "ms`"),
        SlateError::InvalidManifestPollInterval(ms) => write_around(out, INTERVAL, ms, "ms`"),
        SlateError::CheckpointLifetimeTooShort { lifetime, interval } => write_too_short(
            out, lifetime, interval,
        ),
        SlateError::Custom(number) => write_before(out, "task fault ", number),
        SlateError::Backpressure { unflushed, limit } => write_both(
            out, PRESSURE, unflushed, OF, limit,
        ),
        _ => Ok(()),
    }
}

// The message of an error.
pub(crate) fn write_message(out: &mut Vec<u8>, error: &SlateError) -> Result<(), NoMemory>
    ensures ok { OnOk result (out.new.items ≡ out.old.items ++ message_of error.now) }
    ensures err { OnErr result (take (length out.old.items) out.new.items ≡ out.old.items) }
{
    write_text(out, fixed_message(error))?;
    write_shown(out, error)
}

// The words of a store's fault.
fn words_of_fault(fault: StoreFault) -> &'static str
    ensures { result.now ≡ fault_words fault }
{
    match fault {
        StoreFault::NotFound => "not found",
        StoreFault::Unavailable => "unavailable",
    }
}

// The source of an error, where it has one.
pub(crate) fn source_of(error: &SlateError) -> Option<&'static str>
    ensures { option_copied result ≡ source_of error.now }
{
    match error {
        SlateError::ObjectStoreError(fault) => Some(words_of_fault(*fault)),
        _ => None,
    }
}

// A source in parentheses, where there is one.
pub(crate) fn write_source(out: &mut Vec<u8>, source: Option<&str>) -> Result<(), NoMemory>
    ensures ok { OnOk result (out.new.items ≡ out.old.items ++ source_text (option_copied source.entry)) }
    ensures err { OnErr result (take (length out.old.items) out.new.items ≡ out.old.items) }
{
    if let Some(source) = source {
        write_text(out, " (")?;
        write_text(out, source)?;
        write_text(out, ")")?;
    }
    Ok(())
}

fn write_parts(out: &mut Vec<u8>, error: &SlateError) -> Result<(), NoMemory>
    ensures ok { OnOk result (out.new.items ≡ out.old.items ++ error_text error.now) }
    ensures err { OnErr result (take (length out.old.items) out.new.items ≡ out.old.items) }
{
    write_text(out, error.kind().as_str())?;
    write_text(out, ": ")?;
    write_message(out, error)?;
    write_source(out, source_of(error))
}

/// Writes the public text of an error at the end: the words of its kind, `: `, its message, and in parentheses its
/// source where it has one. Where memory runs out, nothing was written. It takes time linear in the text.
pub fn write_error(out: &mut Vec<u8>, error: &SlateError) -> Result<(), NoMemory>
    ensures ok { OnOk result (out.new.items ≡ out.old.items ++ error_text error.now) }
    ensures err { OnErr result (out.new.items ≡ out.old.items) }
{
    let length = out.len();
    let written = write_parts(out, error);
    cut_back(out, length, written)
}
