// Batches as bytes.
ghost use Rattle.std.specs.Prelude.{◌≡◌, List, ℕ, Result};
ghost use Rattle.slate_objects.specs.Batches.{OpFits, KeyOpFits, BatchFits, op_at, key_op_at, batch_at, op_of, key_op_of, batch_of};

use crate::faults::{DecodeError, DecodeFault};
use crate::formats::{Format, read_tag};
use bytes::Bytes;
use slate_types::{Batch, KeyOp, NoMemory, Op, Seq};
use std::alloc::Global;

impl Format for Op {
    ghost read_at = { op_at };

    ghost spelled = { op_of };

    ghost Fits = { OpFits };

    #[tactic(auto, unfolding(crate::specs::Batches::op_at))]
    fn read(alloc: Global, bytes: &mut Bytes) -> Result<Op, DecodeError> {
        match read_tag(bytes)? {
            0 => {
                let value = Bytes::read(alloc, bytes)?;
                let expire_ts = Option::<i64>::read(alloc, bytes)?;
                Ok(Op::Put(value, expire_ts))
            }
            1 => Ok(Op::Delete),
            2 => {
                let operand = Bytes::read(alloc, bytes)?;
                let expire_ts = Option::<i64>::read(alloc, bytes)?;
                Ok(Op::Merge(operand, expire_ts))
            }
            tag => Err(DecodeError::Fault(DecodeFault::UnknownTag { tag })),
        }
    }

    fn write(&self, out: &mut Vec<u8>) -> Result<(), NoMemory> {
        match self {
            Op::Put(value, expire_ts) => {
                out.push(0)?;
                value.write(out)?;
                expire_ts.write(out)
            }
            Op::Delete => Ok(out.push(1)?),
            Op::Merge(operand, expire_ts) => {
                out.push(2)?;
                operand.write(out)?;
                expire_ts.write(out)
            }
        }
    }
}

impl Format for KeyOp {
    ghost read_at = { key_op_at };

    ghost spelled = { key_op_of };

    ghost Fits = { KeyOpFits };

    #[tactic(auto, unfolding(crate::specs::Batches::key_op_at))]
    fn read(alloc: Global, bytes: &mut Bytes) -> Result<KeyOp, DecodeError> {
        let key = Bytes::read(alloc, bytes)?;
        let op = Op::read(alloc, bytes)?;
        Ok(KeyOp { key, op })
    }

    fn write(&self, out: &mut Vec<u8>) -> Result<(), NoMemory> {
        self.key.write(out)?;
        self.op.write(out)
    }
}

impl Format for Batch {
    ghost read_at = { batch_at };

    ghost spelled = { batch_of };

    ghost Fits = { BatchFits };

    #[tactic(auto, unfolding(crate::specs::Batches::batch_at))]
    fn read(alloc: Global, bytes: &mut Bytes) -> Result<Batch, DecodeError> {
        let number = u64::read(alloc, bytes)?;
        let create_ts = i64::read(alloc, bytes)?;
        let ops = Seq::<KeyOp>::read(alloc, bytes)?;
        Ok(Batch {
            number,
            create_ts,
            ops,
        })
    }

    fn write(&self, out: &mut Vec<u8>) -> Result<(), NoMemory> {
        self.number.write(out)?;
        self.create_ts.write(out)?;
        self.ops.write(out)
    }
}
