// The prefixes of the keys of batches that are replayed, and the refusal of a key without one.
ghost use Rattle.std.specs.Prelude.{◌≡◌, ◌++◌, ◌⊎◌, ◌∷◌, Option, Some, None, OnOk, [], IfErr, IfOk};
ghost use Rattle.std.specs.Option.{option_copied};
ghost use Rattle.slate_status.specs.Segments.{PrefixesRise};
ghost use Rattle.slate_model.specs.Segments.{Extractor, IsExtractor, IsLawful, empty_refusal, ops_of, prefixes_of, segments_of, unsegmented_refusal};
ghost use Rattle.slate_segments.specs.Prefixes.{HaveSame};
ghost use Rattle.slate_segments.specs.Refusals.{IsOfSegment};

use bytes::Bytes;
use slate_errors::SlateError;
use slate_status::listed;
use slate_types::{Batch, KeyOp, NoMemory, PrefixExtractor};
use std::alloc::Global;
use std::collections::BTreeSet;

/// The prefix of a key, which has a byte; or the refusal of a key without one.
pub fn segment_of<'a, E: PrefixExtractor>(
    extractor: &E,
    key: &'a Bytes,
) -> Result<&'a [u8], SlateError>
    ensures ok { (x : Extractor) → IsLawful E.may_name E.may_extract extractor.now x → IfOk result (λ prefix.
        (x.prefix_of key.now ≡ Some prefix.now) × (empty_refusal key.now (x.prefix_of key.now) ≡ None)) }
    ensures err { (x : Extractor) → IsLawful E.may_name E.may_extract extractor.now x → IfErr result (λ error.
        (error ≡ SlateError.NoMemory) ⊎ (empty_refusal key.now (x.prefix_of key.now) ≡ Some error)) }
    ensures kind { IfErr result IsOfSegment }
{
    let Some(prefix) = extractor.prefix_of(key.as_slice()) else {
        return Err(empty_segment(key)?);
    };
    if prefix.is_empty() {
        return Err(empty_segment(key)?);
    }
    Ok(prefix)
}

/// The refusal of a key without a prefix, or with an empty one.
fn empty_segment(key: &Bytes) -> Result<SlateError, NoMemory>
    ensures { IfOk result (λ error. error ≡ SlateError.EmptySegmentPrefix key.now) }
{
    Ok(SlateError::EmptySegmentPrefix { key: key.clone()? })
}

/// Adds a prefix to a set.
fn add(alloc: Global, taken: &mut BTreeSet<Bytes>, prefix: &[u8]) -> Result<(), NoMemory>
    ensures { OnOk result (HaveSame taken.new.keys (taken.old.keys ++ prefix.now ∷ [])) }
{
    taken.insert(Bytes::copy_from_slice(alloc, prefix)?)?;
    Ok(())
}

/// Takes the prefixes of the keys of operations; or refuses the first that has none.
pub fn take_segments<E: PrefixExtractor>(
    alloc: Global,
    extractor: &E,
    taken: &mut BTreeSet<Bytes>,
    ops: &[KeyOp],
) -> Result<(), SlateError>
    ensures ok { (x : Extractor) → IsLawful E.may_name E.may_extract extractor.now x → OnOk result
        ((unsegmented_refusal (Some x) ops.now ≡ None) × HaveSame taken.new.keys (taken.old.keys ++ prefixes_of x ops.now)) }
    ensures err { (x : Extractor) → IsLawful E.may_name E.may_extract extractor.now x → IfErr result (λ error.
        (error ≡ SlateError.NoMemory) ⊎ (unsegmented_refusal (Some x) ops.now ≡ Some error)) }
    ensures kind { IfErr result IsOfSegment }
{
    for op in ops {
        let prefix = segment_of(extractor, &op.key)?;
        add(alloc, taken, prefix)?;
    }
    Ok(())
}

/// The segments of batches that were replayed, none without an extractor; or the refusal of the first key that has none.
pub fn replayed_segments<E: PrefixExtractor>(
    alloc: Global,
    extractor: Option<&E>,
    batches: &[Batch],
) -> Result<Vec<Bytes>, SlateError>
    ensures ok { (x : Option Extractor) → IsExtractor E.may_name E.may_extract (option_copied extractor.entry) x → IfOk result (λ segments.
        (unsegmented_refusal x (ops_of batches.now) ≡ None) × (segments.items ≡ segments_of x batches.now)) }
    ensures rising { IfOk result (λ prefixes. PrefixesRise prefixes.items) }
    ensures err { (x : Option Extractor) → IsExtractor E.may_name E.may_extract (option_copied extractor.entry) x → IfErr result (λ error.
        (error ≡ SlateError.NoMemory) ⊎ (unsegmented_refusal x (ops_of batches.now) ≡ Some error)) }
    ensures kind { IfErr result IsOfSegment }
{
    let mut taken = BTreeSet::new(alloc);
    let Some(extractor) = extractor else {
        return Ok(Vec::new(alloc));
    };
    for batch in batches {
        take_segments(alloc, extractor, &mut taken, batch.ops.as_slice())?;
    }
    Ok(listed(alloc, taken)?)
}
