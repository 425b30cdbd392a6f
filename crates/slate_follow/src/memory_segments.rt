// The segments of what a reader has in memory.
ghost use Rattle.std.specs.Prelude.{◌≡◌, ◌++◌, ◌⊎◌, ℕ, List, Option, IfErr, IfOk};
ghost use Rattle.std.specs.Option.{option_copied};
ghost use Rattle.slate_types.specs.declared.batches.Batch.{Batch as AnyBatch};
ghost use Rattle.slate_model.specs.Segments.{Extractor, IsExtractor, segments_of};
ghost use Rattle.slate_segments.specs.Refusals.{IsOfSegment};
ghost use Rattle.slate_follow.specs.Joined.{joined};
ghost use Rattle.slate_follow.specs.Rebuilding.{Lacks};

use bytes::Bytes;
use slate_errors::SlateError;
use slate_reads::Table;
use slate_segments::replayed_segments;
use slate_status::union;
use slate_types::{Batch, PrefixExtractor};
use std::alloc::Global;

/// The segments of tables.
pub(crate) fn segments_in<E: PrefixExtractor>(
    alloc: Global,
    extractor: Option<&E>,
    tables: &[Table],
) -> Result<Vec<Bytes>, SlateError>
    ensures ok { (x : Option Extractor) → IsExtractor E.may_name E.may_extract (option_copied extractor.entry) x → IfOk result (λ segments.
        segments.items ≡ segments_of x (joined tables.now)) }
    ensures err { (x : Option Extractor) → IsExtractor E.may_name E.may_extract (option_copied extractor.entry) x → IfErr result (λ error.
        (error ≡ SlateError.NoMemory) ⊎ ((key : List ℕ) × Lacks x (joined tables.now) key)) }
    ensures kind { IfErr result IsOfSegment }
{
    let mut all = Vec::new(alloc);
    for table in tables {
        all = with_segments(alloc, extractor, all.as_slice(), table.batches())?;
    }
    Ok(all)
}

/// Segments, and those of batches.
pub(crate) fn with_segments<E: PrefixExtractor>(
    alloc: Global,
    extractor: Option<&E>,
    segments: &[Bytes],
    batches: &[Batch],
) -> Result<Vec<Bytes>, SlateError>
    ensures ok { (x : Option Extractor) → IsExtractor E.may_name E.may_extract (option_copied extractor.entry) x → IfOk result (λ all. (old : List AnyBatch) →
        segments.now ≡ segments_of x old → all.items ≡ segments_of x (old ++ batches.now)) }
    ensures err { (x : Option Extractor) → IsExtractor E.may_name E.may_extract (option_copied extractor.entry) x → IfErr result (λ error.
        (error ≡ SlateError.NoMemory) ⊎ ((key : List ℕ) × Lacks x batches.now key)) }
    ensures kind { IfErr result IsOfSegment }
{
    let more = replayed_segments(alloc, extractor, batches)?;
    Ok(union(alloc, segments, more.as_slice())?)
}
