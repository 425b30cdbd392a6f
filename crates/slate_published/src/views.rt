// A view of one state, and reading from it.
ghost use Rattle.std.specs.Prelude.{◌≡◌, ◌+◌, ◌≤◌, [], Some, Option, length};
ghost use Rattle.std.specs.Option.{option_copied};
ghost use Rattle.slate_types.specs.Operator.{Merge};
ghost use Rattle.slate_reads.specs.Read.{IsOperator, read_at};
ghost use Rattle.slate_rows.specs.Scan.{BeginsScan};
ghost use Rattle.slate_model.specs.Known.{known};
ghost use Rattle.slate_model.specs.Read.{Gives, ReadsTables};
ghost use Rattle.slate_published.specs.Published.{Published};
ghost use Rattle.slate_published.specs.Reading.{published_rows};
ghost use Rattle.slate_published.specs.States.{last_of};

use crate::editions::Edition;
use slate_errors::SlateError;
use slate_rows::DbIterator;
use slate_store::Store;
use slate_types::{ByteRange, IterationOrder, KeyValue, MergeOperator};
use std::alloc::Global;

/// A view of one published state. It stays as it is while others are published.
///
/// A contract sees the states that were published up to this one, as `viewed`.
#[derive(Drop)]
pub struct ReaderView<'a> {
    edition: &'a Edition,
}

impl<'a> ReaderView<'a> {
    ghost use Rattle.slate_published.specs.Views.{viewed, state_of};

    /// The view of an edition's state.
    pub(crate) fn of(edition: &'a Edition) -> ReaderView<'a>
        ensures { viewed result ≡ edition.now }
    {
        ReaderView { edition }
    }

    /// The number of the last batch that the state sees. It takes constant time and no memory.
    pub fn number(&self) -> u64
        ensures { result ≡ (state_of self.now).number }
    {
        self.edition.state().number()
    }

    /// What the tables of the state and then its batches in memory say of a key. None is: there is no value.
    ///
    /// It answers `MergeOperatorMissing` where operands are to be merged and there is no operator, `MergeOperatorError` where
    /// the operator refuses one, and `NoMemory`; and `ObjectStoreError` where the store fails, or a table isn't stored (a
    /// sweep may have removed it: a later state mends that). It calls the store once for each stored table, and shares what
    /// it reads. It takes a look-up in each table, stored or in memory, from the last back to the first with a put or a
    /// delete, and goes over the key's operations since then.
    pub fn get<S: Store, M: MergeOperator>(
        &self,
        alloc: Global,
        store: &mut S,
        key: &[u8],
        operator: Option<&M>,
    ) -> Result<Option<KeyValue>, SlateError>
        // The answer is the plain read of the state at its number, whatever lawful function the operator is.
        ensures read { (merge : Option Merge) → IsOperator M.may_answer (option_copied operator.entry) merge → let state : Published = state_of self.now in
            ReadsTables state.tables (published_rows (S.objects store.old) state) (λ rows answer. answer ≡ read_at merge rows (Some state.number) key.now)
            (known S.objects S.faults store.old) result (known S.objects S.faults store.new) }
        ensures by_any { ReadsTables (state_of self.now).tables (λ rows. Unit {0}) (λ rows found. Unit {0}) (known S.objects S.faults store.old) result (known S.objects S.faults store.new) }
        ensures calls { S.calls store.new ≤ S.calls store.old + length (state_of self.now).tables }
        ensures untouched { (state_of self.now).tables ≡ [] → store.new ≡ store.old }
    {
        self.edition.state().get(alloc, store, key, operator)
    }

    /// The rows of the keys of a range that have one, in the order asked for: what the tables of the state and then its
    /// batches in memory say of each. Bounds that cross have none.
    ///
    /// It answers `NoMemory`, and `ObjectStoreError` as a get does. Where operands of a key are to be merged and there is no
    /// operator, or it refuses one, the rows end before this key, and the iterator answers that fault after them. It calls the
    /// store once for each stored table. It takes time logarithmic in the keys of each table, and then for each key of the
    /// range that of a get; it takes memory for each key and row, and copies no key and no value.
    pub fn scan<S: Store, M: MergeOperator>(
        &self,
        alloc: Global,
        store: &mut S,
        range: &ByteRange,
        order: IterationOrder,
        operator: Option<&M>,
    ) -> Result<DbIterator, SlateError>
        // The rows are the plain scan of the state at its number, whatever lawful function the operator is.
        ensures scan { (merge : Option Merge) → IsOperator M.may_answer (option_copied operator.entry) merge → let state : Published = state_of self.now in
            ReadsTables state.tables (published_rows (S.objects store.old) state) (Gives (λ rows it. BeginsScan merge rows (Some state.number) range.now order it))
            (known S.objects S.faults store.old) result (known S.objects S.faults store.new) }
        ensures by_any { ReadsTables (state_of self.now).tables (λ rows. Unit {0}) (λ rows found. Unit {0}) (known S.objects S.faults store.old) result (known S.objects S.faults store.new) }
        ensures calls { S.calls store.new ≤ S.calls store.old + length (state_of self.now).tables }
        ensures untouched { (state_of self.now).tables ≡ [] → store.new ≡ store.old }
    {
        self.edition
            .state()
            .scan(alloc, store, range, order, operator)
    }
}
