// The types of an operator and an extractor that a database doesn't have.
use bytes::Bytes;
use slate_types::{MergeFault, MergeOperator, PrefixExtractor};
use std::alloc::Global;

/// The type of the merge operator where a database has none. Nothing makes a value of it, so that no call is ever made on
/// it; one would refuse each operand.
#[derive(Clone, Copy, Debug)]
pub struct NoMerge(());

impl MergeOperator for NoMerge {
    ghost use Rattle.std.specs.Prelude.{◌≡◌, None};

    ghost may_answer = { λ _ _ _ _ answer. answer ≡ None };

    fn merge(
        &self,
        _alloc: Global,
        _key: &[u8],
        _existing: Option<&Bytes>,
        _operand: &Bytes,
    ) -> Result<Bytes, MergeFault> {
        Err(MergeFault::Refused)
    }
}

/// The type of the prefix extractor where a database has none. Nothing makes a value of it, so that no call is ever made on
/// it; one would find no prefix.
#[derive(Clone, Copy, Debug)]
pub struct NoExtractor(());

impl PrefixExtractor for NoExtractor {
    ghost use Rattle.std.specs.Prelude.{◌≡◌, [], None};

    ghost may_name = { λ _ name. name ≡ [] };

    ghost may_extract = { λ _ _ prefix. prefix ≡ None };

    fn name(&self) -> &str {
        ""
    }

    fn prefix_of<'a>(&self, _key: &'a [u8]) -> Option<&'a [u8]> {
        None
    }
}
