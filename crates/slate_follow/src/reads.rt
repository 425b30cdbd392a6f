// Reading a key from the tables of a reader's view and from its batches in memory.
ghost use Rattle.std.specs.Prelude.{◌≡◌, ◌+◌, ◌≤◌, [], None, Some, Option, Err, IfOk, IfErr, IfSome, length};
ghost use Rattle.std.specs.Option.{option_copied};
ghost use Rattle.slate_types.specs.declared.store_errors.StoreFault.TheVariants.{NotFound};
ghost use Rattle.slate_types.specs.Operator.{Merge};
ghost use Rattle.slate_reads.specs.Read.{IsOperator, read_at};
ghost use Rattle.slate_model.specs.Follower.{number};
ghost use Rattle.slate_model.specs.Known.{known, FaultsRise};
ghost use Rattle.slate_model.specs.Object.{Follower};
ghost use Rattle.slate_model.specs.Read.{ReadsUnlessClosed, ReadsByAny};
ghost use Rattle.slate_model.specs.Stores.{kept_rows};
ghost use Rattle.slate_model.specs.Tables.{AreStored};
ghost use Rattle.slate_replay.specs.Tables.{IsOfTables};
ghost use Rattle.slate_follow.specs.Joined.{joined};

use crate::FollowerState;
use crate::tables::share;
use slate_errors::SlateError;
use slate_reads::{Table, read_indexed};
use slate_replay::read_tables;
use slate_store::Store;
use slate_types::{KeyValue, MergeOperator};
use std::alloc::Global;

impl FollowerState {
    /// What the tables of the manifest that the reader goes by and then its batches in memory say of a key: both as the
    /// last poll took them, so what was stored since isn't seen. None is: there is no value.
    ///
    /// On a closed reader it answers `Closed` or the error that closed it, and doesn't touch the store. It answers
    /// `MergeOperatorMissing` where operands are to be merged and there is no operator, `MergeOperatorError` where the
    /// operator refuses one, and `NoMemory`; and `ObjectStoreError` where the store fails, or a table isn't stored (a
    /// sweep may have removed it: a poll mends that, but not at a checkpoint). A read changes nothing. It calls the store once for each
    /// stored table, and shares what it reads. It takes a look-up in each of its tables in memory and in each stored one,
    /// from the last back to the first with a put or a delete, and goes over the key's operations since then. SlateDB's
    /// `get`.
    pub fn get<S: Store, M: MergeOperator>(
        &self,
        alloc: Global,
        store: &mut S,
        key: &[u8],
        operator: Option<&M>,
    ) -> Result<Option<KeyValue>, SlateError>
        ensures read { (merge : Option Merge) → IsOperator M.may_answer (option_copied operator.entry) merge →
            ReadsUnlessClosed self.now.result self.now.view.manifest.tables (kept_rows (S.objects store.old) (Follower self.now))
            (λ rows answer. answer ≡ read_at merge rows (Some (number self.now)) key.now)
            (known S.objects S.faults store.old) result (known S.objects S.faults store.new) }
        ensures by_any { ReadsByAny self.now.result self.now.view.manifest.tables (known S.objects S.faults store.old) result (known S.objects S.faults store.new) }
        ensures count { S.faults store.old ≤ S.faults store.new }
        ensures calls { S.calls store.new ≤ S.calls store.old + length self.now.view.manifest.tables }
        ensures closed { (self.now.result ≡ None → ⊥) → store.new ≡ store.old }
        ensures untouched { self.now.view.manifest.tables ≡ [] → store.new ≡ store.old }
    {
        if let Some(result) = self.closed() {
            return Err(SlateError::of_closed(result));
        }
        let tables = self.all_tables(alloc, store)?;
        let bound = Some(self.number());
        Ok(read_indexed(alloc, &[], tables.as_slice(), &[], bound, key, operator)?)
    }

    /// Its stored tables and then those in memory, which are shared.
    pub(crate) fn all_tables<S: Store>(
        &self,
        alloc: Global,
        store: &mut S,
    ) -> Result<Vec<Table>, SlateError>
        ensures faults { FaultsRise (S.faults store.old) (S.faults store.new) result }
        ensures calls { S.calls store.new ≤ S.calls store.old + length self.now.view.manifest.tables }
        ensures kept { S.objects store.new ≡ S.objects store.old }
        ensures rows { IfOk result (λ tables. kept_rows (S.objects store.old) (Follower self.now) (joined tables.items)) }
        ensures missing { result ≡ Err (SlateError.ObjectStoreError NotFound) → IfSome (S.objects store.old) (λ o. AreStored o self.now.view.manifest.tables → ⊥) }
        ensures refused { IfErr result IsOfTables }
        ensures untouched { self.now.view.manifest.tables ≡ [] → store.new ≡ store.old }
        ensures some { self.now.view.manifest.tables ≡ [] → result ≡ Err (SlateError.ObjectStoreError NotFound) → ⊥ }
    {
        let mut tables = read_tables(alloc, store, self.tables())?;
        share(&mut tables, self.kept.as_slice())?;
        Ok(tables)
    }
}
