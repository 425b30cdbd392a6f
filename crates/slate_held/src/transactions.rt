// Transactions on a handle with its store.
ghost use Rattle.std.specs.Prelude.{◌≡◌, ◌+◌, ◌≤◌, ℤ, None, Option, OnErr, OnOk, Err, length};
ghost use Rattle.std.specs.Option.{option_copied};
ghost use Rattle.slate_types.specs.declared.batches.Op.TheVariants as ops;
ghost use Rattle.slate_types.specs.Operator.{Merge};
ghost use Rattle.slate_reads.specs.Read.{IsOperator, read_at};
ghost use Rattle.slate_rows.specs.Scan.{BeginsScan};
ghost use Rattle.slate_transactions.specs.Own.{adding};
ghost use Rattle.slate_model.specs.Known.{known};
ghost use Rattle.slate_model.specs.Object.{Handle};
ghost use Rattle.slate_model.specs.Read.{Gives, ReadsUnlessClosed, ReadsByAny};
ghost use Rattle.slate_model.specs.Segments.{Extractor, IsExtractor};
ghost use Rattle.slate_model.specs.Snapshot.{unless_closed};
ghost use Rattle.slate_model.specs.Stores.{kept_rows};
ghost use Rattle.slate_model.specs.Transaction.{Commits, CommitsByAny, begun, having_got, having_scanned, seen_by, start_bound, tracking_if};
ghost use Rattle.slate_held.specs.Moments.{IsSecondBelow};

use crate::{Held, require_operator};
use slate_errors::SlateError;
use slate_rows::DbIterator;
use slate_store::Store;
use slate_types::{
    ByteRange, KeyValue, MergeOperator, MergeOptions, PrefixExtractor, ReadOptions, ScanOptions,
};
use slate_writer::{IsolationLevel, Transaction, Written};
use std::alloc::Global;
use uuid::Uuid;

impl<S: Store> Held<S> {
    /// Begins a transaction, as `WriterState::begin` does.
    pub fn begin(
        &mut self,
        alloc: Global,
        level: IsolationLevel,
        id: Uuid,
    ) -> Result<Transaction, SlateError>
        ensures begun { result ≡ unless_closed self.old.handle.result (begun self.old.handle level id) }
        ensures tracking { self.new.handle ≡ tracking_if self.old.handle.result self.old.handle }
        ensures store { self.new.store ≡ self.old.store }
    {
        self.writer.begin(alloc, level, id)
    }

    /// Reads a key in a transaction, as `Transaction::get` does.
    pub fn get_in<M: MergeOperator>(
        &mut self,
        transaction: &mut Transaction,
        alloc: Global,
        key: &[u8],
        options: &ReadOptions,
        operator: Option<&M>,
    ) -> Result<Option<KeyValue>, SlateError>
        ensures read { (merge : Option Merge) → IsOperator M.may_answer (option_copied operator.entry) merge →
            ReadsUnlessClosed self.old.handle.result self.old.handle.view.manifest.tables (kept_rows (S.objects self.old.store) (Handle self.old.handle))
            (λ rows answer. answer ≡ read_at merge (seen_by transaction.old (start_bound transaction.old self.old.handle options.now.durability_filter options.now.dirty) rows) None key.now)
            (known S.objects S.faults self.old.store) result (known S.objects S.faults self.new.store) }
        ensures by_any { ReadsByAny self.old.handle.result self.old.handle.view.manifest.tables (known S.objects S.faults self.old.store) result (known S.objects S.faults self.new.store) }
        ensures kept { self.new.handle ≡ self.old.handle }
        ensures got { OnOk result (transaction.new ≡ having_got transaction.old.level key.now transaction.old) }
        ensures refused { OnErr result (transaction.new ≡ transaction.old) }
        ensures count { S.faults self.old.store ≤ S.faults self.new.store }
        ensures calls { S.calls self.new.store ≤ S.calls self.old.store + length self.old.handle.view.manifest.tables }
        ensures closed { (self.old.handle.result ≡ None → ⊥) → self.new.store ≡ self.old.store }
    {
        let (writer, store) = (&self.writer, &mut self.store);
        transaction.get(alloc, writer, store, key, options, operator)
    }

    /// Scans a range in a transaction, as `Transaction::scan` does.
    pub fn scan_in<M: MergeOperator>(
        &mut self,
        transaction: &mut Transaction,
        alloc: Global,
        range: &ByteRange,
        options: &ScanOptions,
        operator: Option<&M>,
    ) -> Result<DbIterator, SlateError>
        ensures scan { (merge : Option Merge) → IsOperator M.may_answer (option_copied operator.entry) merge →
            ReadsUnlessClosed self.old.handle.result self.old.handle.view.manifest.tables (kept_rows (S.objects self.old.store) (Handle self.old.handle))
            (Gives (λ rows it. BeginsScan merge (seen_by transaction.old (start_bound transaction.old self.old.handle options.now.durability_filter options.now.dirty) rows) None range.now options.now.order it))
            (known S.objects S.faults self.old.store) result (known S.objects S.faults self.new.store) }
        ensures by_any { ReadsByAny self.old.handle.result self.old.handle.view.manifest.tables (known S.objects S.faults self.old.store) result (known S.objects S.faults self.new.store) }
        ensures kept { self.new.handle ≡ self.old.handle }
        ensures scanned { OnOk result (transaction.new ≡ having_scanned transaction.old.level range.now transaction.old) }
        ensures refused { OnErr result (transaction.new ≡ transaction.old) }
        ensures count { S.faults self.old.store ≤ S.faults self.new.store }
        ensures calls { S.calls self.new.store ≤ S.calls self.old.store + length self.old.handle.view.manifest.tables }
        ensures closed { (self.old.handle.result ≡ None → ⊥) → self.new.store ≡ self.old.store }
    {
        let (writer, store) = (&self.writer, &mut self.store);
        transaction.scan(alloc, writer, store, range, options, operator)
    }

    /// Commits a transaction at this moment, in milliseconds, as `Transaction::commit` does. Where the moment is below the
    /// creation time of the batch before, `again` is asked for a second one first, since a commit is the transaction's end.
    pub fn commit<E: PrefixExtractor, F: FnOnce() -> i64>(
        &mut self,
        transaction: Transaction,
        alloc: Global,
        moment: i64,
        again: F,
        extractor: Option<&E>,
    ) -> Result<Option<Written>, SlateError>
        requires { F.pre again }
        ensures commits { (second : Option ℤ) × IsSecondBelow (F.post again) self.old.handle.tick moment second
            × ((x : Option Extractor) → IsExtractor E.may_name E.may_extract (option_copied extractor.entry) x →
            Commits x transaction self.old.handle moment second result self.new.handle)
            × CommitsByAny transaction self.old.handle moment second result self.new.handle }
        ensures store { self.new.store ≡ self.old.store }
    {
        let second = self.second_moment(moment, again);
        transaction.commit(alloc, &mut self.writer, moment, second, extractor)
    }

    /// The second moment of a write at this one: none where that isn't below the tick.
    fn second_moment<F: FnOnce() -> i64>(&self, moment: i64, again: F) -> Option<i64>
        requires { F.pre again }
        ensures { IsSecondBelow (F.post again) self.now.handle.tick moment result }
    {
        if moment < self.writer.tick() {
            Some(again())
        } else {
            None
        }
    }
}

/// Adds an operand to merge to a transaction of a database with this operator, or without one.
pub fn merge_in<M: MergeOperator>(
    transaction: &mut Transaction,
    alloc: Global,
    key: &[u8],
    value: &[u8],
    options: &MergeOptions,
    operator: Option<&M>,
) -> Result<(), SlateError>
    ensures missing { option_copied operator.entry ≡ None → result ≡ Err SlateError.MergeOperatorMissing }
    ensures ok { OnOk result (transaction.new ≡ record transaction.old { own = adding transaction.old.own (record { key = key.now; op = ops.Merge value.now options.now.expire_ts }) }) }
    ensures err { OnErr result (transaction.new ≡ transaction.old) }
{
    require_operator(operator)?;
    Ok(transaction.merge_with_options(alloc, key, value, options)?)
}
