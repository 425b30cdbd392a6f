// Taking the rows of a scan, and the replies to scans and seeks.
ghost use Rattle.std.specs.Prelude.{◌≡◌, IfOk};
ghost use Rattle.slate_live.specs.Replies.{reply_to};
ghost use Rattle.slate_live.specs.Scans.{AnswersTaken, error_of_seek, scanned, sought};
ghost use Rattle.slate_script.specs.declared.replies.Reply.TheVariants.{Rows};

use crate::handles::refusal;
use bytes::Bytes;
use slate_errors::SlateError;
use slate_rows::{DbIterator, SeekFault};
use slate_script::Reply;
use slate_types::{ByteRange, KeyValue, NoMemory, Seq};
use std::alloc::Global;

/// All rows of a scan. Where a fault ends them it answers that alone.
pub(crate) fn all_rows(
    alloc: Global,
    scan: Result<DbIterator, SlateError>,
) -> Result<Seq<KeyValue>, SlateError>
    ensures { AnswersTaken scanned scan result }
{
    let iterator = scan?;
    Ok(iterator.into_rows(alloc)?)
}

/// So many rows of a scan of a range, and then those from a key on.
pub(crate) fn rows_with_seek(
    alloc: Global,
    scan: Result<DbIterator, SlateError>,
    take: u64,
    key: &Bytes,
    range: &ByteRange,
) -> Result<Seq<KeyValue>, SlateError>
    ensures { AnswersTaken (sought range.now take key.now) scan result }
{
    let iterator = scan?;
    match iterator.into_rows_with_seek(alloc, take, key.as_slice()) {
        Ok(rows) => Ok(rows),
        Err(fault) => Err(seek_error(range, key, fault)?),
    }
}

/// The error of a seek of a key in a range that is refused.
fn seek_error(range: &ByteRange, key: &Bytes, fault: SeekFault) -> Result<SlateError, NoMemory>
    ensures { IfOk result (λ error. error ≡ error_of_seek range.now key.now fault) }
{
    Ok(match fault {
        SeekFault::OutOfRange => SlateError::SeekKeyOutOfRange {
            key: key.clone()?,
            range: range.clone()?,
        },
        SeekFault::LessThanLastReturned => SlateError::SeekKeyLessThanLastReturnedKey,
        SeekFault::Stored(fault) => SlateError::from(fault),
    })
}

/// The reply to a scan or a seek.
pub(crate) fn rows_reply(rows: Result<Seq<KeyValue>, SlateError>) -> Reply
    ensures { result ≡ reply_to Rows rows }
{
    match rows {
        Ok(rows) => Reply::Rows(rows),
        Err(error) => refusal(error),
    }
}
