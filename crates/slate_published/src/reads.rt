// Reading a key and scanning a range of a state that is published.
ghost use Rattle.std.specs.Prelude.{◌≡◌, ◌++◌, ◌+◌, ◌≤◌, [], Some, List, Option, IfOk, IfErr, IfSome, OnOk, Err, length};
ghost use Rattle.std.specs.Option.{option_copied};
ghost use Rattle.slate_types.specs.declared.batches.Batch.{Batch as AnyBatch};
ghost use Rattle.slate_types.specs.declared.store_errors.StoreFault.TheVariants.{NotFound};
ghost use Rattle.slate_types.specs.Operator.{Merge};
ghost use Rattle.slate_reads.specs.Read.{IsOperator, read_at};
ghost use Rattle.slate_rows.specs.Scan.{BeginsScan};
ghost use Rattle.slate_model.specs.Known.{known, FaultsRise};
ghost use Rattle.slate_model.specs.Read.{Gives, ReadsTables};
ghost use Rattle.slate_model.specs.Tables.{AreStored};
ghost use Rattle.slate_replay.specs.Tables.{IsOfTables};
ghost use Rattle.slate_published.specs.Published.{rows_of};
ghost use Rattle.slate_published.specs.Reading.{published_rows};

use crate::PublishedState;
use slate_errors::SlateError;
use slate_reads::{Table, read_indexed};
use slate_replay::read_tables;
use slate_rows::{DbIterator, scan_indexed};
use slate_store::Store;
use slate_types::{ByteRange, IterationOrder, KeyValue, MergeOperator, NoMemory};
use std::alloc::Global;

impl PublishedState {
    /// What its tables and then its batches in memory say of a key.
    pub(crate) fn get<S: Store, M: MergeOperator>(
        &self,
        alloc: Global,
        store: &mut S,
        key: &[u8],
        operator: Option<&M>,
    ) -> Result<Option<KeyValue>, SlateError>
        ensures read { (merge : Option Merge) → IsOperator M.may_answer (option_copied operator.entry) merge →
            ReadsTables self.now.tables (published_rows (S.objects store.old) self.now) (λ rows answer. answer ≡ read_at merge rows (Some self.now.number) key.now)
            (known S.objects S.faults store.old) result (known S.objects S.faults store.new) }
        ensures by_any { ReadsTables self.now.tables (λ rows. Unit {0}) (λ rows found. Unit {0}) (known S.objects S.faults store.old) result (known S.objects S.faults store.new) }
        ensures calls { S.calls store.new ≤ S.calls store.old + length self.now.tables }
        ensures untouched { self.now.tables ≡ [] → store.new ≡ store.old }
    {
        let tables = self.all_tables(alloc, store)?;
        let bound = Some(self.number());
        Ok(read_indexed(alloc, &[], tables.as_slice(), &[], bound, key, operator)?)
    }

    /// The rows of the keys of a range that have one, in the order asked for, as its tables and then its batches in memory
    /// say.
    pub(crate) fn scan<S: Store, M: MergeOperator>(
        &self,
        alloc: Global,
        store: &mut S,
        range: &ByteRange,
        order: IterationOrder,
        operator: Option<&M>,
    ) -> Result<DbIterator, SlateError>
        ensures scan { (merge : Option Merge) → IsOperator M.may_answer (option_copied operator.entry) merge →
            ReadsTables self.now.tables (published_rows (S.objects store.old) self.now) (Gives (λ rows it. BeginsScan merge rows (Some self.now.number) range.now order it))
            (known S.objects S.faults store.old) result (known S.objects S.faults store.new) }
        ensures by_any { ReadsTables self.now.tables (λ rows. Unit {0}) (λ rows found. Unit {0}) (known S.objects S.faults store.old) result (known S.objects S.faults store.new) }
        ensures calls { S.calls store.new ≤ S.calls store.old + length self.now.tables }
        ensures untouched { self.now.tables ≡ [] → store.new ≡ store.old }
    {
        let tables = self.all_tables(alloc, store)?;
        let bound = Some(self.number());
        let tables = tables.as_slice();
        Ok(scan_indexed(alloc, tables, &[], bound, range, order, operator)?)
    }

    /// Its stored tables and then those in memory, which are shared.
    fn all_tables<S: Store>(&self, alloc: Global, store: &mut S) -> Result<Vec<Table>, SlateError>
        ensures faults { FaultsRise (S.faults store.old) (S.faults store.new) result }
        ensures calls { S.calls store.new ≤ S.calls store.old + length self.now.tables }
        ensures kept { S.objects store.new ≡ S.objects store.old }
        ensures rows { IfOk result (λ tables. published_rows (S.objects store.old) self.now (rows_of tables.items)) }
        ensures missing { result ≡ Err (SlateError.ObjectStoreError NotFound) → IfSome (S.objects store.old) (λ o. AreStored o self.now.tables → ⊥) }
        ensures refused { IfErr result IsOfTables }
        ensures untouched { self.now.tables ≡ [] → store.new ≡ store.old }
        ensures some { self.now.tables ≡ [] → result ≡ Err (SlateError.ObjectStoreError NotFound) → ⊥ }
    {
        let mut tables = read_tables(alloc, store, self.tables())?;
        share(&mut tables, self.memory())?;
        Ok(tables)
    }
}

/// Adds tables to others, and shares their batches.
fn share(tables: &mut Vec<Table>, more: &[Table]) -> Result<(), NoMemory>
    ensures { OnOk result (rows_of tables.new.items ≡ rows_of tables.old.items ++ rows_of more.now) }
{
    for table in more {
        tables.push(table.clone()?)?;
    }
    Ok(())
}
