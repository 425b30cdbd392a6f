// Transactions on a handle: their operations, their marks, and how they begin and end.
ghost use Rattle.std.specs.Prelude.{◌≡◌, ◌++◌, [], ◌∷◌, None, Option, IfOk, IfSome, List, OnOk, OnErr, true};
ghost use Rattle.std.specs.Option.{option_copied};
ghost use Rattle.slate_types.specs.Line.{IsLine};
ghost use Rattle.slate_types.specs.declared.batches.Op.TheVariants as ops;
ghost use Rattle.slate_types.specs.Operator.{Merge};
ghost use Rattle.slate_transactions.specs.Own.{adding, own_batch};
ghost use Rattle.slate_transactions.specs.Writes.{with_key};
ghost use Rattle.slate_model.specs.Handle.{Handle as AHandle, kept_handle};
ghost use Rattle.slate_model.specs.Segments.{Extractor, IsExtractor};
ghost use Rattle.slate_model.specs.Serial.{AreSerial, Run, Step, first_side, last_side};
ghost use Rattle.slate_model.specs.Snapshot.{unless_closed};
ghost use Rattle.slate_model.specs.Transaction.{Commits, CommitsByAny, Transaction as ATransaction, begun, is_in_conflict, start_of, tracking_if, writes_of};

use crate::WriterState;
use slate_errors::SlateError;
use slate_model::Written;
use slate_transactions::{IsolationLevel, KeySet, OwnWrites, TrackedWrites, has_conflict};
use slate_types::{ByteRange, MergeOptions, NoMemory, PrefixExtractor, PutOptions};
use std::alloc::Global;
use std::marker::Model;
use uuid::Uuid;

/// Operations that are read by the transaction alone until they are committed as one batch, and what it read before. Its
/// calls speak of the handle that they are given, which is to be the one on which it began. SlateDB's `DbTransaction`.
pub struct Transaction {
    pub(crate) id: Uuid,
    pub(crate) level: IsolationLevel,
    pub(crate) own: OwnWrites,
    pub(crate) unmarked: KeySet,
    pub(crate) read: KeySet,
    pub(crate) scanned: Vec<ByteRange>,
}

impl Drop for Transaction {
    fn drop(self) {
        let Transaction {
            id: _,
            level: _,
            own: _,
            unmarked: _,
            read: _,
            scanned: _,
        } = self;
    }
}

impl Model for Transaction {
    ghost use Rattle.slate_model.specs.Transaction.{Transaction};
    ghost use Rattle.slate_writer.specs.Transacting.{transaction_of};

    ghost Value = { Transaction };

    ghost view = { transaction_of };
}

impl WriterState {
    /// Begins a transaction, whose reads see the batches up to the accepted number. From the first one on the handle keeps the
    /// number of the last batch that wrote each key, for good. On a closed handle it answers `Closed` or the error that closed
    /// it. It takes constant time, and no memory. SlateDB's `begin`.
    pub fn begin(
        &mut self,
        alloc: Global,
        level: IsolationLevel,
        id: Uuid,
    ) -> Result<Transaction, SlateError>
        ensures begun { result ≡ unless_closed self.old.result (begun self.old level id) }
        ensures tracking { self.new ≡ tracking_if self.old.result self.old }
    {
        if let Some(result) = self.closed() {
            return Err(SlateError::of_closed(result));
        }
        if self.tracked.is_none() {
            self.tracked = Some(TrackedWrites::new(alloc));
        }
        Ok(Transaction::new(alloc, self.accepted(), level, id))
    }
}

impl Transaction {
    /// A transaction that begins after the batch with a number.
    fn new(alloc: Global, start: u64, level: IsolationLevel, id: Uuid) -> Transaction
        ensures { result ≡ record { id = id; level = level; own = own_batch start []; unmarked = []; read = []; scanned = [] } }
    {
        Transaction {
            id,
            level,
            own: OwnWrites::new(alloc, start),
            unmarked: KeySet::new(alloc),
            read: KeySet::new(alloc),
            scanned: Vec::new(alloc),
        }
    }

    /// The number of the last batch when it began. SlateDB's `seqnum`.
    pub fn seqnum(&self) -> u64
        ensures { result ≡ start_of self.now }
    {
        self.own.start()
    }

    /// The id with which it began. SlateDB's `id`.
    pub fn id(&self) -> Uuid
        ensures { result ≡ self.now.id }
    {
        self.id
    }

    /// Adds a put without a time of expiry, as `put_with_options` does. SlateDB's `put`.
    pub fn put(&mut self, alloc: Global, key: &[u8], value: &[u8]) -> Result<(), NoMemory>
        ensures ok { OnOk result (self.new ≡ record self.old { own = adding self.old.own (record { key = key.now; op = ops.Put value.now None }) }) }
        ensures err { OnErr result (self.new ≡ self.old) }
    {
        self.put_with_options(alloc, key, value, &PutOptions::default())
    }

    /// Adds a put, which removes its earlier operations on the key. It copies key and value. Where memory ran out the
    /// transaction is as before. It takes a logarithm of its keys, and one pass over its operations where the key has some.
    /// SlateDB's `put_with_options`.
    pub fn put_with_options(
        &mut self,
        alloc: Global,
        key: &[u8],
        value: &[u8],
        options: &PutOptions,
    ) -> Result<(), NoMemory>
        ensures ok { OnOk result (self.new ≡ record self.old { own = adding self.old.own (record { key = key.now; op = ops.Put value.now options.now.expire_ts }) }) }
        ensures err { OnErr result (self.new ≡ self.old) }
    {
        self.own.put(alloc, key, value, options)
    }

    /// Adds a delete, which removes its earlier operations on the key. It copies the key. Where memory ran out the transaction
    /// is as before. It takes the time of a put. SlateDB's `delete`.
    pub fn delete(&mut self, alloc: Global, key: &[u8]) -> Result<(), NoMemory>
        ensures ok { OnOk result (self.new ≡ record self.old { own = adding self.old.own (record { key = key.now; op = ops.Delete }) }) }
        ensures err { OnErr result (self.new ≡ self.old) }
    {
        self.own.delete(alloc, key)
    }

    /// Adds an operand to merge, without a time of expiry, as `merge_with_options` does. SlateDB's `merge`.
    pub fn merge(&mut self, alloc: Global, key: &[u8], value: &[u8]) -> Result<(), NoMemory>
        ensures ok { OnOk result (self.new ≡ record self.old { own = adding self.old.own (record { key = key.now; op = ops.Merge value.now None }) }) }
        ensures err { OnErr result (self.new ≡ self.old) }
    {
        self.merge_with_options(alloc, key, value, &MergeOptions::default())
    }

    /// Adds an operand to merge. It copies key and operand. Where memory ran out the transaction is as before. It takes a
    /// logarithm of its keys, and time for its earlier operations on the key. SlateDB's `merge_with_options`.
    pub fn merge_with_options(
        &mut self,
        alloc: Global,
        key: &[u8],
        value: &[u8],
        options: &MergeOptions,
    ) -> Result<(), NoMemory>
        ensures ok { OnOk result (self.new ≡ record self.old { own = adding self.old.own (record { key = key.now; op = ops.Merge value.now options.now.expire_ts }) }) }
        ensures err { OnErr result (self.new ≡ self.old) }
    {
        self.own.merge(alloc, key, value, options)
    }

    /// Marks a key as read, at both levels: a commit conflicts with a later write of it. It copies the key. Where memory ran
    /// out the transaction is as before. It takes a logarithm of the keys that it read. SlateDB's `mark_read`, for one key.
    pub fn mark_read(&mut self, alloc: Global, key: &[u8]) -> Result<(), NoMemory>
        ensures ok { OnOk result (self.new ≡ record self.old { read = with_key self.old.read key.now }) }
        ensures err { OnErr result (self.new ≡ self.old) }
    {
        self.read.insert(alloc, key)
    }

    /// Unmarks its writes of a key, those before and after: they conflict with no one's, in its commit and in those of others.
    /// It copies the key. Where memory ran out the transaction is as before. It takes a logarithm of the unmarked keys.
    /// SlateDB's `unmark_write`, for one key.
    pub fn unmark_write(&mut self, alloc: Global, key: &[u8]) -> Result<(), NoMemory>
        ensures ok { OnOk result (self.new ≡ record self.old { unmarked = with_key self.old.unmarked key.now }) }
        ensures err { OnErr result (self.new ≡ self.old) }
    {
        self.unmarked.insert(alloc, key)
    }

    /// Whether a batch after its start has a tracked write of a key that it depends on.
    fn is_in_conflict(&self, writer: &WriterState) -> bool
        ensures { result ≡ is_in_conflict self.now (writes_of writer.now) }
    {
        let Some(tracked) = &writer.tracked else {
            return false;
        };
        has_conflict(
            tracked,
            self.own.start(),
            self.own.ops(),
            &self.unmarked,
            &self.read,
            self.scanned.as_slice(),
        )
    }

    /// Ends the transaction, and writes its operations as one batch, as `write` does; without one it writes nothing and
    /// answers None. Other transactions don't conflict with its writes of keys that it unmarked.
    ///
    /// It is refused on a closed handle (`Closed` or the error that closed it), then with `TransactionConflict`, and then as a
    /// write is. It conflicts where a batch that was accepted since it began has a write, which isn't unmarked, of a key that it
    /// writes and didn't unmark, that it marked as read, or, at `SerializableSnapshot`, that it got or that is in a range that it
    /// scanned. So there each get and each scan that it answered at the level `Memory` is what the same read would answer just
    /// before its batch, as long as no one unmarked a write of the keys in question since. A refusal, and want of memory
    /// (`NoMemory`), changes nothing in the handle.
    ///
    /// For conflicts it takes a look-up, which is logarithmic in the keys that the handle tracks, for each operation and each key
    /// that it read, and for each range that it scanned one and a step for each tracked key in it; then it takes the time of a
    /// write, and such a look-up for each operation. SlateDB's `commit`.
    pub fn commit<E: PrefixExtractor>(
        self,
        alloc: Global,
        writer: &mut WriterState,
        moment: i64,
        second: Option<i64>,
        extractor: Option<&E>,
    ) -> Result<Option<Written>, SlateError>
        ensures commits { (x : Option Extractor) → IsExtractor E.may_name E.may_extract (option_copied extractor.entry) x → Commits x self writer.old moment second result writer.new }
        ensures by_any { CommitsByAny self writer.old moment second result writer.new }
        ensures serial { (x : Option Extractor) (merge : Option Merge) (h : AHandle) (steps : List Step) → IsLine h.line → Run x merge (first_side h self.id) steps →
            kept_handle (last_side (first_side h self.id) steps).handle ≡ writer.old → (last_side (first_side h self.id) steps).transaction ≡ self →
            IfOk result (λ written. IfSome written (λ w. AreSerial merge steps (last_side (first_side h self.id) steps).handle.line.batches)) }
    {
        if let Some(result) = writer.closed() {
            return Err(SlateError::of_closed(result));
        }
        if self.own.ops().is_empty() {
            return Ok(None);
        }
        if self.is_in_conflict(writer) {
            return Err(SlateError::TransactionConflict);
        }
        let Transaction {
            id: _,
            level: _,
            own,
            unmarked,
            read: _,
            scanned: _,
        } = self;
        let batch = own.into_batch();
        match writer.write_but(alloc, batch, &unmarked, moment, second, extractor) {
            Ok(written) => Ok(Some(written)),
            Err(refusal) => Err(refusal.error),
        }
    }

    /// Ends the transaction without a write. SlateDB's `rollback`.
    pub fn rollback(self, _writer: &mut WriterState)
        ensures { _writer.new ≡ _writer.old }
    {
        let _ = self;
    }
}
