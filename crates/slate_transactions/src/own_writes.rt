// A transaction's own operations, by key.
ghost use Rattle.std.specs.Prelude.{◌≡◌, ◌∷◌, ◌++◌, ◌<◌, ◌&&◌, not, filter, vec_len, vec_capacity, ℕ, List, [], IfOk, OnOk, OnErr, IsSome, if◌then◌else◌, unwrap_or};
ghost use Rattle.std.specs.Option.{option_copied};
ghost use Rattle.std.specs.Str.{bytes_eq};
ghost use Rattle.std.specs.BTreeMap.{get};
ghost use Rattle.slate_types.specs.Range.{key_cmp};
ghost use Rattle.slate_reads.specs.Read.{is_base};
ghost use Rattle.slate_transactions.specs.Kept.{has_any, own_at};
ghost use Rattle.slate_transactions.specs.Own.{adding, own_batch};

use bytes::Bytes;
use slate_reads::is_base;
use slate_types::{Batch, KeyOp, MergeOptions, NoMemory, Op, PutOptions, Seq, WriteBatch};
use std::alloc::Global;
use std::collections::BTreeMap;
use std::marker::Model;

/// Operations that a transaction adds one by one, as those of a `WriteBatch`, with those of each key at hand. A contract
/// sees a batch with the number at which the transaction began and the creation time 0.
#[derive(Debug)]
pub struct OwnWrites {
    start: u64,
    ops: Vec<KeyOp>,
    /// The operations on each key, as such a batch; a key without one may be there.
    pub(crate) by_key: BTreeMap<Bytes, Batch>,
}

impl Drop for OwnWrites {
    fn drop(self) {
        let OwnWrites {
            start: _,
            ops: _,
            by_key: _,
        } = self;
    }
}

impl Model for OwnWrites {
    ghost use Rattle.slate_types.specs.declared.batches.Batch.{Batch};
    ghost use Rattle.slate_transactions.specs.Kept.{AreByKey};
    ghost use Rattle.slate_transactions.specs.Own.{own_batch};

    ghost Value = { Batch };

    ghost view = { λ w. own_batch w.start w.ops.items };

    ghost invariant = { λ w. AreByKey w.start w.ops.items w.by_key };
}

impl OwnWrites {
    /// No operation, of a transaction that begins at a number. It takes no memory.
    pub fn new(alloc: Global, start: u64) -> OwnWrites
        ensures { result ≡ own_batch start [] }
    {
        OwnWrites {
            start,
            ops: Vec::new(alloc),
            by_key: BTreeMap::new(alloc),
        }
    }

    /// The number at which the transaction began.
    pub fn start(&self) -> u64
        ensures { result ≡ self.now.number }
    {
        self.start
    }

    /// The operations, in order.
    pub fn ops(&self) -> &[KeyOp]
        ensures { result.now ≡ self.now.ops }
    {
        self.ops.as_slice()
    }

    /// The operations, as a batch to write.
    pub fn into_batch(self) -> WriteBatch
        ensures { result.ops ≡ self.ops }
    {
        let OwnWrites {
            start: _,
            ops,
            by_key: _,
        } = self;
        WriteBatch { ops: Seq::of(ops) }
    }

    /// Adds a put, which removes the earlier operations on the key. It copies key and value. Where memory ran out the
    /// operations are as before. One pass over them, where the key has some, and a logarithm of the keys.
    pub fn put(
        &mut self,
        alloc: Global,
        key: &[u8],
        value: &[u8],
        options: &PutOptions,
    ) -> Result<(), NoMemory>
        ensures ok { OnOk result (self.new ≡ adding self.old (record { key = key.now; op = Op.Put value.now options.now.expire_ts })) }
        ensures err { OnErr result (self.new ≡ self.old) }
    {
        let key = Bytes::copy_from_slice(alloc, key)?;
        let value = Bytes::copy_from_slice(alloc, value)?;
        let op = Op::Put(value, options.expire_ts);
        self.add(alloc, KeyOp { key, op })
    }

    /// Adds a delete, which removes the earlier operations on the key. It copies the key. Where memory ran out the operations
    /// are as before. It takes the time of a put.
    pub fn delete(&mut self, alloc: Global, key: &[u8]) -> Result<(), NoMemory>
        ensures ok { OnOk result (self.new ≡ adding self.old (record { key = key.now; op = Op.Delete })) }
        ensures err { OnErr result (self.new ≡ self.old) }
    {
        let key = Bytes::copy_from_slice(alloc, key)?;
        let op = Op::Delete;
        self.add(alloc, KeyOp { key, op })
    }

    /// Adds an operand to merge. It copies key and operand. Where memory ran out the operations are as before. It takes a
    /// logarithm of the keys, and time for the key's earlier operations.
    pub fn merge(
        &mut self,
        alloc: Global,
        key: &[u8],
        value: &[u8],
        options: &MergeOptions,
    ) -> Result<(), NoMemory>
        ensures ok { OnOk result (self.new ≡ adding self.old (record { key = key.now; op = Op.Merge value.now options.now.expire_ts })) }
        ensures err { OnErr result (self.new ≡ self.old) }
    {
        let key = Bytes::copy_from_slice(alloc, key)?;
        let value = Bytes::copy_from_slice(alloc, value)?;
        let op = Op::Merge(value, options.expire_ts);
        self.add(alloc, KeyOp { key, op })
    }

    /// Adds an operation.
    fn add(&mut self, alloc: Global, key_op: KeyOp) -> Result<(), NoMemory>
        ensures ok { OnOk result (self.new ≡ adding self.old key_op) }
        ensures err { OnErr result (self.new ≡ self.old) }
    {
        let key = key_op.key.clone()?;
        let earlier = self.by_key.get(&key);
        let own = next_own(alloc, self.start, earlier, &key_op)?;
        let replaces = replaces(earlier, &key_op);
        self.ops.reserve(1)?;
        make_place(alloc, &mut self.by_key, self.start, &key)?;
        add_op(&mut self.ops, replaces, key_op);
        set_own(&mut self.by_key, self.start, key, own);
        Ok(())
    }
}

/// Whether an operation removes earlier ones on its key.
fn replaces(own: Option<&Batch>, key_op: &KeyOp) -> bool
    ensures { result ≡ (is_base key_op.now.op && has_any (unwrap_or (option_copied own.entry) (own_batch 0 [])).ops) }
{
    is_base(&key_op.op) && has_ops(own)
}

/// Whether a key has operations.
fn has_ops(own: Option<&Batch>) -> bool
    ensures { result ≡ has_any (unwrap_or (option_copied own.entry) (own_batch 0 [])).ops }
{
    own.is_some_and(|own| !own.ops.as_slice().is_empty())
}

/// Adds an operation, for which there is room, and before that removes those on its key, where it replaces them.
fn add_op(ops: &mut Vec<KeyOp>, replaces: bool, key_op: KeyOp)
    requires { vec_len ops.old < vec_capacity ops.old }
    ensures { ops.new.items ≡ (if replaces then filter (λ o. not (bytes_eq o.key key_op.key)) ops.old.items else ops.old.items) ++ key_op ∷ [] }
{
    if replaces {
        ops.retain(|o| o.key.as_slice() != key_op.key.as_slice());
    }
    ops.push_reserved(key_op);
}

/// The operations of a key after one more.
fn next_own(
    alloc: Global,
    start: u64,
    own: Option<&Batch>,
    key_op: &KeyOp,
) -> Result<Batch, NoMemory>
    ensures { IfOk result (λ next. next ≡ own_batch start (if is_base key_op.now.op then key_op.now ∷ [] else (unwrap_or (option_copied own.entry) (own_batch start [])).ops ++ key_op.now ∷ [])) }
{
    let mut ops = match own {
        Some(own) if !is_base(&key_op.op) => own.ops.clone()?.into_vec(),
        _ => Vec::new(alloc),
    };
    ops.push(key_op.clone()?)?;
    Ok(Batch {
        number: start,
        create_ts: 0,
        ops: Seq::of(ops),
    })
}

/// Makes room for the operations of a key.
fn make_place(
    alloc: Global,
    by_key: &mut BTreeMap<Bytes, Batch>,
    start: u64,
    key: &Bytes,
) -> Result<(), NoMemory>
    ensures same { (other : List ℕ) → own_at start by_key.new other ≡ own_at start by_key.old other }
    ensures room { OnOk result (IsSome (get key_cmp by_key.new key.now)) }
{
    if !by_key.contains_key(key) {
        let none = Batch {
            number: start,
            create_ts: 0,
            ops: Seq::of(Vec::new(alloc)),
        };
        by_key.insert(key.clone()?, none)?;
    }
    Ok(())
}

/// Sets the operations of a key, for which there is room.
fn set_own(by_key: &mut BTreeMap<Bytes, Batch>, start: u64, key: Bytes, own: Batch)
    requires { IsSome (get key_cmp by_key.old key) }
    ensures { (other : List ℕ) → own_at start by_key.new other ≡ (if bytes_eq key other then own else own_at start by_key.old other) }
{
    let _ = by_key.insert(key, own);
}
