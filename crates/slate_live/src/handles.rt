// What commands do to a handle that writes.
ghost use Rattle.std.specs.Prelude.{◌≡◌, ◌≤◌, ℕ, List, ◌+◌, [], ◌∷◌, ◌++◌, false, None, Some, Option, IfErr, IfOk, IfSome, IsTrue, ◌↔◌, true};
ghost use Rattle.std.specs.Option.{option_copied};
ghost use Rattle.slate_types.specs.Operator.{Merge};
ghost use Rattle.slate_reads.specs.Read.{IsOperator};
ghost use Rattle.slate_store.specs.Compaction.{compact_calls};
ghost use Rattle.slate_model.specs.Known.{known};
ghost use Rattle.slate_model.specs.Object.{Handle as AHandle};
ghost use Rattle.slate_model.specs.Stores.{by_objects};
ghost use Rattle.slate_model.specs.Segments.{Extractor, IsExtractor};
ghost use Rattle.slate_model.specs.Status.{handle_status};
ghost use Rattle.slate_model.specs.Write.{Writes};
ghost use Rattle.slate_live.specs.Lawful.{AreLawful, asks_of};
ghost use Rattle.slate_live.specs.Settings.{Settings};
ghost use Rattle.slate_live.specs.Calls.{asks_operator, call_of, flush_of_close, most_asked, ops_of, read_of};
ghost use Rattle.slate_live.specs.declared.states.Write.{Write as AWrite};
ghost use Rattle.slate_live.specs.Handles.{ClosesHandle, CompactsHandle, FlushesHandle, HandleActs, RefreshesHandle};
ghost use Rattle.slate_live.specs.Handles.{WritesTo, durable_reply, flush_type_by, level_of, noted};
ghost use Rattle.slate_live.specs.Replies.{AnswersStatus, ended_reply, found_reply, refusal, reply_to};

use crate::extensions::Extensions;
use crate::scans::{all_rows, rows_reply, rows_with_seek};
use crate::states::Write;
use bytes::Bytes;
use slate_errors::{Ended, SlateError};
use slate_script::{Action, Boxed, Command, Reply};
use slate_status::DbStatus;
use slate_store::Store;
use slate_types::{
    CloseOptions, DurabilityLevel, FlushType, IterationOrder, KeyOp, KeyValue, MergeOperator,
    NoMemory, Op, PrefixExtractor, ReadOptions, ScanOptions, Seq, WriteBatch,
};
use slate_writer::{WriterState, Written};
use std::alloc::Global;

/// Does a command that names the handle by this number.
pub(crate) fn act<S: Store, M: MergeOperator, E: PrefixExtractor>(
    writer: &mut WriterState,
    alloc: Global,
    store: &mut S,
    writes: &mut Vec<Write>,
    number: u64,
    extensions: &Extensions<'_, M, E>,
    command: &Command,
) -> Reply
    ensures faults { S.faults store.old ≤ S.faults store.new }
    ensures calls { IfSome (S.objects store.old) (λ o.
        S.calls store.new ≤ S.calls store.old + most_asked o (Some (AHandle writer.old)) (call_of command.now.action)) }
    ensures untouched { (writer.old.result ≡ None → ⊥) → store.new ≡ store.old }
    ensures does { (settings : Settings) → AreLawful M.may_answer (option_copied extensions.now.operator) E.may_name E.may_extract (option_copied extensions.now.extractor) settings (asks_of (Some (AHandle writer.old)) command.now.action) →
        (made : ℕ) × HandleActs (by_objects (S.objects store.old)) settings number command.now.moment command.now.second (call_of command.now.action) made
        writer.old (known S.objects S.faults store.old) writes.old.items result writer.new (known S.objects S.faults store.new) writes.new.items }
{
    match &command.action {
        Action::Put { .. } | Action::Delete { .. } | Action::Batch { .. } => {
            write(writer, alloc, writes, number, command, extensions.extractor)
        }
        Action::Merge { .. } => {
            if extensions.operator.is_none() {
                return Reply::Refused(SlateError::MergeOperatorMissing);
            }
            write(writer, alloc, writes, number, command, extensions.extractor)
        }
        Action::Flush { flush_type, .. } => flush(writer, alloc, store, *flush_type),
        Action::Refresh { .. } => refresh(writer, alloc, store),
        Action::Compact { .. } => compact(writer, alloc, store),
        Action::Get { .. } | Action::Scan { .. } | Action::Seek { .. } => {
            read(writer, alloc, store, None, extensions.operator, command)
        }
        Action::Close { options, .. } => close(writer, alloc, store, *options),
        Action::Status { .. } => status(writer, alloc),
        Action::Ts { number, find, .. } => Reply::Time(writer.find_ts(*number, *find)),
        Action::Seq { seconds, find, .. } => Reply::Number(writer.find_seq(*seconds, *find)),
        _ => Reply::Unknown,
    }
}

/// Does what of a command reads the handle, up to the number of a snapshot, where one is given. Nothing else is asked of a
/// snapshot.
pub(crate) fn read<S: Store, M: MergeOperator>(
    writer: &WriterState,
    alloc: Global,
    store: &mut S,
    snapshot: Option<u64>,
    operator: Option<&M>,
    command: &Command,
) -> Reply
    ensures faults { S.faults store.old ≤ S.faults store.new }
    ensures calls { IfSome (S.objects store.old) (λ o.
        S.calls store.new ≤ S.calls store.old + most_asked o (Some (AHandle writer.now)) (call_of command.now.action)) }
    ensures untouched { (writer.now.result ≡ None → ⊥) → store.new ≡ store.old }
    ensures does { (settings : Settings) (handle : ℕ) (writes : List AWrite) → (asks_operator (Some (AHandle writer.now)) command.now.action ≡ true → IsOperator M.may_answer (option_copied operator.entry) settings.merge) →
        HandleActs (by_objects (S.objects store.old)) settings handle command.now.moment command.now.second (read_of snapshot (call_of command.now.action)) 0
        writer.now (known S.objects S.faults store.old) writes result writer.now (known S.objects S.faults store.new) writes }
{
    match &command.action {
        Action::Get { key, remote, .. } => {
            let options = read_options(*remote);
            read_reply(writer.get(alloc, store, key.as_slice(), &options, snapshot, operator))
        }
        Action::Scan {
            range,
            order,
            remote,
            ..
        } => {
            let options = scan_options(*order, *remote);
            let scan = writer.scan(alloc, store, range.as_ref(), &options, snapshot, operator);
            rows_reply(all_rows(alloc, scan))
        }
        Action::Seek {
            range,
            take,
            key,
            order,
            remote,
            ..
        } => {
            let range = range.as_ref();
            let options = scan_options(*order, *remote);
            let scan = writer.scan(alloc, store, range, &options, snapshot, operator);
            rows_reply(rows_with_seek(alloc, scan, *take, key, range))
        }
        _ => Reply::Unknown,
    }
}

/// Writes the operations of a command to the handle with a number.
fn write<E: PrefixExtractor>(
    writer: &mut WriterState,
    alloc: Global,
    writes: &mut Vec<Write>,
    number: u64,
    command: &Command,
    extractor: Option<&E>,
) -> Reply
    ensures { (x : Option Extractor) → (writer.old.result ≡ None → IsExtractor E.may_name E.may_extract (option_copied extractor.entry) x) → WritesTo x number (ops_of command.now.action) command.now.moment command.now.second
        writer.old writes.old.items result writer.new writes.new.items }
{
    let write = writes.len() as u64;
    match write_noted(writer, alloc, writes, number, command, extractor) {
        Ok(written) => Reply::Written {
            write,
            number: written.number,
        },
        Err(error) => refusal(error),
    }
}

/// Writes the operations of a command, and notes the write.
fn write_noted<E: PrefixExtractor>(
    writer: &mut WriterState,
    alloc: Global,
    writes: &mut Vec<Write>,
    handle: u64,
    command: &Command,
    extractor: Option<&E>,
) -> Result<Written, SlateError>
    ensures does { (x : Option Extractor) → (writer.old.result ≡ None → IsExtractor E.may_name E.may_extract (option_copied extractor.entry) x) → Writes x writer.old (ops_of command.now.action) command.now.moment command.now.second result writer.new }
    ensures noted { writes.new.items ≡ writes.old.items ++ noted handle result }
{
    writes.reserve(1).map_err(NoMemory::from)?;
    let batch = batch_of(alloc, &command.action)?;
    match writer.write(alloc, batch, command.moment, command.second, extractor) {
        Ok(written) => {
            writes.push_reserved(Write {
                handle,
                number: written.number,
            });
            Ok(written)
        }
        Err(refusal) => Err(refusal.error),
    }
}

/// The operations that a command writes. Keys and values are shared.
fn batch_of(alloc: Global, action: &Action) -> Result<WriteBatch, NoMemory>
    ensures { IfOk result (λ batch. batch.ops ≡ ops_of action.now) }
{
    match action {
        Action::Put {
            key,
            value,
            expire,
            ..
        } => one_op(alloc, key, Op::Put(value.clone()?, *expire)),
        Action::Merge {
            key,
            value,
            expire,
            ..
        } => one_op(alloc, key, Op::Merge(value.clone()?, *expire)),
        Action::Delete { key, .. } => one_op(alloc, key, Op::Delete),
        Action::Batch { batch, .. } => Ok(WriteBatch {
            ops: batch.ops.clone()?,
        }),
        _ => Ok(WriteBatch::new(alloc)),
    }
}

/// A batch of one operation.
fn one_op(alloc: Global, key: &Bytes, op: Op) -> Result<WriteBatch, NoMemory>
    ensures { IfOk result (λ batch. batch.ops ≡ record { key = key.now; op = op } ∷ []) }
{
    let mut ops = Vec::with_capacity(alloc, 1)?;
    ops.push_reserved(KeyOp {
        key: key.clone()?,
        op,
    });
    Ok(WriteBatch { ops: Seq::of(ops) })
}

/// The reply to a command that answers an error.
pub(crate) fn refusal(error: SlateError) -> Reply
    ensures { result ≡ refusal error }
{
    match error {
        SlateError::NoMemory => Reply::NoMemory,
        SlateError::Backpressure { unflushed, limit } => Reply::Backpressure { unflushed, limit },
        error => Reply::Refused(error),
    }
}

/// Flushes a handle; without a type, to where it stores its batches first.
fn flush<S: Store>(
    writer: &mut WriterState,
    alloc: Global,
    store: &mut S,
    flush_type: Option<FlushType>,
) -> Reply
    ensures faults { S.faults store.old ≤ S.faults store.new }
    ensures calls { S.calls store.new ≤ S.calls store.old + 5 }
    ensures untouched { (writer.old.result ≡ None → ⊥) → store.new ≡ store.old }
    ensures does { (made : ℕ) × FlushesHandle (by_objects (S.objects store.old)) made (flush_type_by flush_type writer.old)
        writer.old (known S.objects S.faults store.old) result writer.new (known S.objects S.faults store.new) }
{
    let flush_type = flush_type_by(writer, flush_type);
    match writer.flush(alloc, store, flush_type) {
        Ok(()) => Reply::Flushed,
        Err(error) => refusal(error),
    }
}

/// The type of a flush of a handle: without one, to the log where the handle keeps one, and else to a table.
fn flush_type_by(writer: &WriterState, flush_type: Option<FlushType>) -> FlushType
    ensures { result ≡ flush_type_by flush_type writer.now }
{
    match flush_type {
        Some(flush_type) => flush_type,
        None if writer.keeps_log() => FlushType::Wal,
        None => FlushType::MemTable,
    }
}

/// Lets a handle go by the latest manifest.
fn refresh<S: Store>(writer: &mut WriterState, alloc: Global, store: &mut S) -> Reply
    ensures faults { S.faults store.old ≤ S.faults store.new }
    ensures calls { S.calls store.new ≤ S.calls store.old + 1 }
    ensures untouched { (writer.old.result ≡ None → ⊥) → store.new ≡ store.old }
    ensures does { RefreshesHandle (by_objects (S.objects store.old))
        writer.old (known S.objects S.faults store.old) result writer.new (known S.objects S.faults store.new) }
{
    match writer.refresh_manifest(alloc, store) {
        Ok(()) => Reply::Refreshed,
        Err(error) => refusal(error),
    }
}

/// Joins the tables of the latest manifest.
fn compact<S: Store>(writer: &mut WriterState, alloc: Global, store: &mut S) -> Reply
    ensures faults { S.faults store.old ≤ S.faults store.new }
    ensures calls { IfSome (S.objects store.old) (λ o. S.calls store.new ≤ S.calls store.old + compact_calls o) }
    ensures untouched { (writer.old.result ≡ None → ⊥) → store.new ≡ store.old }
    ensures does { (made : ℕ) × CompactsHandle (by_objects (S.objects store.old)) made
        writer.old (known S.objects S.faults store.old) result writer.new (known S.objects S.faults store.new) }
{
    match writer.compact(alloc, store) {
        Ok(()) => Reply::Compacted,
        Err(error) => refusal(error),
    }
}

/// The reply to a read.
pub(crate) fn read_reply(found: Result<Option<KeyValue>, SlateError>) -> Reply
    ensures { result ≡ reply_to found_reply found }
{
    match found {
        Ok(Some(row)) => Reply::Found(row),
        Ok(None) => Reply::Absent,
        Err(error) => refusal(error),
    }
}

/// The options of a read from durable batches alone, or from all.
fn read_options(remote: bool) -> ReadOptions
    ensures { result ≡ record { durability_filter = level_of remote; dirty = false } }
{
    let durability_filter = if remote {
        DurabilityLevel::Remote
    } else {
        DurabilityLevel::Memory
    };
    ReadOptions {
        durability_filter,
        dirty: false,
    }
}

/// The options of a scan in an order, of durable batches alone, or of all.
fn scan_options(order: IterationOrder, remote: bool) -> ScanOptions
    ensures { result ≡ record { durability_filter = level_of remote; dirty = false; order = order } }
{
    let ReadOptions {
        durability_filter,
        dirty,
    } = read_options(remote);
    ScanOptions {
        durability_filter,
        dirty,
        order,
    }
}

/// Closes a handle, and then flushes it as the options ask; without them to a table.
fn close<S: Store>(
    writer: &mut WriterState,
    alloc: Global,
    store: &mut S,
    options: Option<CloseOptions>,
) -> Reply
    ensures faults { S.faults store.old ≤ S.faults store.new }
    ensures calls { S.calls store.new ≤ S.calls store.old + 5 }
    ensures untouched { (writer.old.result ≡ None → ⊥) → store.new ≡ store.old }
    ensures does { (made : ℕ) × ClosesHandle (by_objects (S.objects store.old)) made (flush_of_close options)
        writer.old (known S.objects S.faults store.old) result writer.new (known S.objects S.faults store.new) }
{
    let options = options.unwrap_or_default();
    ended_reply(writer.close(alloc, store, &options))
}

/// What a handle reports of itself.
fn status(writer: &WriterState, alloc: Global) -> Reply
    ensures { AnswersStatus (handle_status writer.now) result }
{
    status_reply(alloc, writer.status(alloc))
}

/// The reply to a question for a status.
pub(crate) fn status_reply(alloc: Global, answer: Result<DbStatus, NoMemory>) -> Reply
    ensures ok { IfOk answer (λ status. AnswersStatus status result) }
    ensures err { IfErr answer (λ _. result ≡ Reply.NoMemory) }
{
    let Ok(status) = answer else {
        return Reply::NoMemory;
    };
    match Boxed::new(alloc, status) {
        Ok(status) => Reply::Status(status),
        Err(_) => Reply::NoMemory,
    }
}

/// Whether it says that the object was closed by a call.
fn is_closed(error: &SlateError) -> bool
    ensures { IsTrue result ↔ (error.now ≡ SlateError.Closed) }
{
    matches!(error, SlateError::Closed)
}

/// The reply to a close: one of a handle that closed cleanly is refused.
fn ended_reply(ended: Ended) -> Reply
    ensures { result ≡ ended_reply ended }
{
    match ended.fault {
        Some(error) if is_closed(&error) => Reply::Refused(error),
        fault => Reply::Ended {
            fault,
            tasks: ended.tasks,
        },
    }
}

/// The reply where a write with this number is asked for.
pub(crate) fn durable_reply(writer: &WriterState, number: u64) -> Reply
    ensures { result ≡ durable_reply writer.now number }
{
    if number <= writer.durable() {
        return Reply::Durable;
    }
    match writer.closed() {
        None => Reply::Pending,
        Some(Ok(())) => Reply::Refused(SlateError::Closed),
        Some(Err(fault)) => Reply::Refused(SlateError::from(fault)),
    }
}
