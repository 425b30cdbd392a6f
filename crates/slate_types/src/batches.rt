// Operations on keys, batches of them, and the row that a read finds.
ghost use Rattle.std.specs.Prelude.{◌≡◌, [], None, IfOk, OnOk, OnErr, length};

use crate::{MergeOptions, NoMemory, PutOptions, Seq};
use bytes::Bytes;
use std::alloc::{AllocError, Global};

/// What a write does to one key. A time of expiry is in milliseconds, and no read compares it.
#[derive(Debug, Drop)]
pub enum Op {
    /// Sets the value, with the time at which it expires, where it does.
    Put(Bytes, Option<i64>),
    /// Removes the value.
    Delete,
    /// Hands an operand to the merge operator, with the time at which the merged value expires, where it does.
    Merge(Bytes, Option<i64>),
}

impl Clone for Op {
    ghost is_clone = { λ op copy. copy ≡ op };

    fn clone(&self) -> Result<Op, AllocError> {
        Ok(match self {
            Op::Put(value, expire_ts) => Op::Put(value.clone()?, *expire_ts),
            Op::Delete => Op::Delete,
            Op::Merge(operand, expire_ts) => Op::Merge(operand.clone()?, *expire_ts),
        })
    }
}

/// An operation on a key.
#[derive(Debug, Drop)]
pub struct KeyOp {
    pub key: Bytes,
    pub op: Op,
}

impl Clone for KeyOp {
    ghost is_clone = { λ o copy. copy ≡ o };

    fn clone(&self) -> Result<KeyOp, AllocError> {
        Ok(KeyOp {
            key: self.key.clone()?,
            op: self.op.clone()?,
        })
    }
}

/// Operations that are written as one, in order. A write gives them a number and a creation time.
#[derive(Debug, Drop)]
pub struct WriteBatch {
    pub ops: Seq<KeyOp>,
}

impl WriteBatch {
    ghost use Rattle.slate_types.specs.Written.{with_base, with_merge};

    /// A batch without operations. It takes no memory. SlateDB's `WriteBatch::new`.
    pub fn new(alloc: Global) -> WriteBatch
        ensures { result.ops ≡ [] }
    {
        WriteBatch {
            ops: Seq::of(Vec::new(alloc)),
        }
    }

    /// Adds a put without a time of expiry, which removes the earlier operations on the key. It copies key and value.
    /// Where memory ran out the batch is as before. One pass over the batch. SlateDB's `WriteBatch::put`.
    pub fn put(&mut self, alloc: Global, key: &[u8], value: &[u8]) -> Result<(), NoMemory>
        ensures ok { OnOk result (self.new.ops ≡ with_base self.old.ops (record { key = key.now; op = Op.Put value.now None })) }
        ensures err { OnErr result (self.new ≡ self.old) }
    {
        self.put_with_options(alloc, key, value, &PutOptions::default())
    }

    /// Adds a put, which removes the earlier operations on the key. It copies key and value. Where memory ran out the
    /// batch is as before. One pass over the batch. SlateDB's `WriteBatch::put_with_options`.
    pub fn put_with_options(
        &mut self,
        alloc: Global,
        key: &[u8],
        value: &[u8],
        options: &PutOptions,
    ) -> Result<(), NoMemory>
        ensures ok { OnOk result (self.new.ops ≡ with_base self.old.ops (record { key = key.now; op = Op.Put value.now options.now.expire_ts })) }
        ensures err { OnErr result (self.new ≡ self.old) }
    {
        let key = Bytes::copy_from_slice(alloc, key)?;
        let value = Bytes::copy_from_slice(alloc, value)?;
        self.put_bytes_with_options(alloc, key, value, options)
    }

    /// Adds a put without a time of expiry, which removes the earlier operations on the key. It copies no bytes. Where
    /// memory ran out the batch is as before, and key and value are dropped. One pass over the batch. SlateDB's
    /// `WriteBatch::put_bytes`.
    pub fn put_bytes(&mut self, alloc: Global, key: Bytes, value: Bytes) -> Result<(), NoMemory>
        ensures ok { OnOk result (self.new.ops ≡ with_base self.old.ops (record { key = key; op = Op.Put value None })) }
        ensures err { OnErr result (self.new ≡ self.old) }
    {
        self.put_bytes_with_options(alloc, key, value, &PutOptions::default())
    }

    /// Adds a put, which removes the earlier operations on the key. It copies no bytes. Where memory ran out the batch
    /// is as before, and key and value are dropped. One pass over the batch. SlateDB's
    /// `WriteBatch::put_bytes_with_options`.
    pub fn put_bytes_with_options(
        &mut self,
        _alloc: Global,
        key: Bytes,
        value: Bytes,
        options: &PutOptions,
    ) -> Result<(), NoMemory>
        ensures ok { OnOk result (self.new.ops ≡ with_base self.old.ops (record { key = key; op = Op.Put value options.now.expire_ts })) }
        ensures err { OnErr result (self.new ≡ self.old) }
    {
        self.add_base(KeyOp {
            key,
            op: Op::Put(value, options.expire_ts),
        })
    }

    /// Adds a delete, which removes the earlier operations on the key. It copies the key. Where memory ran out the
    /// batch is as before. One pass over the batch. SlateDB's `WriteBatch::delete`.
    pub fn delete(&mut self, alloc: Global, key: &[u8]) -> Result<(), NoMemory>
        ensures ok { OnOk result (self.new.ops ≡ with_base self.old.ops (record { key = key.now; op = Op.Delete })) }
        ensures err { OnErr result (self.new ≡ self.old) }
    {
        let key = Bytes::copy_from_slice(alloc, key)?;
        self.add_base(KeyOp {
            key,
            op: Op::Delete,
        })
    }

    /// Adds an operand to merge, without a time of expiry. It copies key and operand. Where memory ran out the batch is
    /// as before. SlateDB's `WriteBatch::merge`.
    pub fn merge(&mut self, alloc: Global, key: &[u8], value: &[u8]) -> Result<(), NoMemory>
        ensures ok { OnOk result (self.new.ops ≡ with_merge self.old.ops (record { key = key.now; op = Op.Merge value.now None })) }
        ensures err { OnErr result (self.new ≡ self.old) }
    {
        self.merge_with_options(alloc, key, value, &MergeOptions::default())
    }

    /// Adds an operand to merge. It copies key and operand. Where memory ran out the batch is as before. SlateDB's
    /// `WriteBatch::merge_with_options`.
    pub fn merge_with_options(
        &mut self,
        alloc: Global,
        key: &[u8],
        value: &[u8],
        options: &MergeOptions,
    ) -> Result<(), NoMemory>
        ensures ok { OnOk result (self.new.ops ≡ with_merge self.old.ops (record { key = key.now; op = Op.Merge value.now options.now.expire_ts })) }
        ensures err { OnErr result (self.new ≡ self.old) }
    {
        let key = Bytes::copy_from_slice(alloc, key)?;
        let value = Bytes::copy_from_slice(alloc, value)?;
        let ops = &mut self.ops;
        Ok(
            ops.list.push(KeyOp {
                key,
                op: Op::Merge(value, options.expire_ts),
            })?,
        )
    }

    /// The number of operations. It takes no memory.
    pub fn op_count(&self) -> usize
        ensures { result ≡ length self.now.ops }
    {
        self.ops.as_slice().len()
    }

    /// Adds a put or a delete, which removes the earlier operations on its key.
    fn add_base(&mut self, key_op: KeyOp) -> Result<(), NoMemory>
        ensures ok { OnOk result (self.new.ops ≡ with_base self.old.ops key_op) }
        ensures err { OnErr result (self.new ≡ self.old) }
    {
        let ops = &mut self.ops;
        ops.list.reserve(1)?;
        ops.list
            .retain(|o| o.key.as_slice() != key_op.key.as_slice());
        ops.list.push_reserved(key_op);
        Ok(())
    }
}

/// A batch that was written: its number, its creation time in milliseconds, and its operations in order.
#[derive(Debug, Drop)]
pub struct Batch {
    pub number: u64,
    pub create_ts: i64,
    pub ops: Seq<KeyOp>,
}

impl Clone for Batch {
    ghost is_clone = { λ batch copy. copy ≡ batch };

    fn clone(&self) -> Result<Batch, AllocError> {
        Ok(Batch {
            number: self.number,
            create_ts: self.create_ts,
            ops: self.ops.clone()?,
        })
    }
}

impl Batch {
    /// Copies of these batches. Keys and values are shared, not copied.
    #[tactic(auto, using(crate::proofs::Copies::same_batches))]
    pub fn copies(alloc: Global, batches: &[Batch]) -> Result<Seq<Batch>, NoMemory>
        ensures { IfOk result (λ copies. copies ≡ batches.now) }
    {
        Ok(Seq::of(batches.to_vec(alloc)?))
    }
}

/// What a read found at a key: the value, and the number, creation time and time of expiry of the newest
/// operation in it. Times are in milliseconds.
#[derive(Debug, Drop)]
pub struct KeyValue {
    pub key: Bytes,
    pub value: Bytes,
    pub seq: u64,
    pub create_ts: i64,
    pub expire_ts: Option<i64>,
}
