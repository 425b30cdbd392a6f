// Merge operators and prefix extractors, with one of each.
ghost use Rattle.std.specs.Prelude.{◌≡◌, ℕ, List, ◌++◌, Option, IfOk, codes};
ghost use Rattle.std.specs.Fmt.{decimal};
ghost use Rattle.slate_types.specs.Operator.{Merges, concat};
ghost use Rattle.slate_types.specs.Prefix.{fixed_prefix};
ghost use Rattle.std.specs.Option.{option_copied};

use crate::ranges::joined;
use crate::{Name, NoMemory};
use bytes::Bytes;
use std::alloc::Global;
use std::marker::Model;
use thiserror::Error;

/// Why a merge gave no value.
#[derive(Clone, Copy, Debug, PartialEq, Eq, Error)]
pub enum MergeFault {
    /// The operator refuses this operand at this value.
    #[error("the merge operator refuses the operand at this value")]
    Refused,
    /// Memory ran out.
    #[error("memory ran out")]
    NoMemory,
}

/// Folds the operands of a key into its value. SlateDB's trait of this name.
pub trait MergeOperator {
    /// What `merge` may answer at a key, the value so far and an operand: a value, or None where it refuses.
    /// An operator is lawful where that is one answer for each.
    ghost may_answer: { Self → List ℕ → Option (List ℕ) → List ℕ → Option (List ℕ) → Type 0 };

    /// The value after `operand` came to `existing`, which is None at a key without a value.
    fn merge(
        &self,
        alloc: Global,
        key: &[u8],
        existing: Option<&Bytes>,
        operand: &Bytes,
    ) -> Result<Bytes, MergeFault>
        ensures { Merges (may_answer self.now key.now (option_copied existing.entry) operand.now) result };
}

/// Cuts the prefix off a key that says in which segment it lies. SlateDB's trait of this name.
pub trait PrefixExtractor {
    /// What the name may be.
    ghost may_name: { Self → List ℕ → Type 0 };

    /// What `prefix_of` may answer at a key. An extractor is lawful where that is one answer for each key, and a
    /// prefix of it.
    ghost may_extract: { Self → List ℕ → Option (List ℕ) → Type 0 };

    /// The name that is kept in the manifest.
    fn name(&self) -> &str
        ensures { may_name self.now result.now };

    /// The prefix of a key, or None where the key has none.
    fn prefix_of<'a>(&self, key: &'a [u8]) -> Option<&'a [u8]>
        ensures { may_extract self.now key.now (option_copied result) };
}

impl From<NoMemory> for MergeFault {
    ghost use Rattle.std.specs.Prelude.{◌≡◌};
    ghost use Rattle.slate_types.specs.declared.operators.MergeFault.TheVariants.{NoMemory as OutOfMemory};

    ghost from_gives = { λ _ fault. fault ≡ OutOfMemory };

    fn from(_error: NoMemory) -> MergeFault {
        MergeFault::NoMemory
    }
}

/// Appends each operand to the value, and never refuses. It is lawful.
#[derive(Clone, Copy, Debug, PartialEq, Eq)]
pub struct ConcatOperator;

impl MergeOperator for ConcatOperator {
    ghost may_answer = { λ _ key existing operand answer. answer ≡ concat key existing operand };

    fn merge(
        &self,
        alloc: Global,
        _key: &[u8],
        existing: Option<&Bytes>,
        operand: &Bytes,
    ) -> Result<Bytes, MergeFault> {
        Ok(match existing {
            None => operand.clone().map_err(NoMemory::from)?,
            Some(existing) => joined(alloc, existing.as_slice(), operand)?,
        })
    }
}

/// Cuts off a prefix of a fixed length. A key that is shorter has none. It is lawful. A contract sees the length.
#[derive(Debug)]
pub struct FixedPrefix {
    name: Name,
    length: u8,
}

impl Drop for FixedPrefix {
    fn drop(self) {
        let FixedPrefix { name: _, length: _ } = self;
    }
}

impl Model for FixedPrefix {
    ghost use Rattle.std.specs.Prelude.{◌≡◌, ℕ, ◌++◌, codes};
    ghost use Rattle.std.specs.Fmt.{decimal};

    ghost Value = { ℕ };

    ghost view = { λ p. p.length };

    ghost invariant = { λ p. p.name ≡ codes "fixed-" ++ decimal p.length };
}

impl FixedPrefix {
    /// The extractor of prefixes of this length, in bytes. Its name is `fixed-N`, with the length for N.
    pub fn new(alloc: Global, length: u8) -> Result<FixedPrefix, NoMemory>
        ensures { IfOk result (λ extractor. extractor ≡ length) }
    {
        let name = format!(in alloc; "fixed-{length}")?;
        Ok(FixedPrefix {
            name: Name::of(name),
            length,
        })
    }
}

impl PrefixExtractor for FixedPrefix {
    ghost may_name = { λ length name. name ≡ codes "fixed-" ++ decimal length };

    ghost may_extract = { λ length key answer. answer ≡ fixed_prefix length key };

    fn name(&self) -> &str {
        self.name.as_str()
    }

    fn prefix_of<'a>(&self, key: &'a [u8]) -> Option<&'a [u8]> {
        key.get(..usize::from(self.length))
    }
}
