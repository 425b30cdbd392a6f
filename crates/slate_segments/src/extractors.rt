// Whether an extractor fits a database.
ghost use Rattle.std.specs.Prelude.{◌≡◌, Option, not, IfOk, IfSome};
ghost use Rattle.std.specs.List.{find};
ghost use Rattle.std.specs.Option.{option_copied};
ghost use Rattle.slate_model.specs.Segments.{Extractor, IsExtractor, IsLawful, extractor_name, extractor_refusal, name_refusal, prefix_refusal, recognizes};
ghost use Rattle.slate_segments.specs.Refusals.{IsOfExtractor};

use bytes::Bytes;
use slate_errors::SlateError;
use slate_store::Manifest;
use slate_types::{Name, NoMemory, PrefixExtractor};
use std::alloc::Global;

/// The name of an extractor, where there is one.
pub fn name_of<E: PrefixExtractor>(
    alloc: Global,
    extractor: Option<&E>,
) -> Result<Option<Name>, NoMemory>
    ensures { (x : Option Extractor) → IsExtractor E.may_name E.may_extract (option_copied extractor.entry) x → IfOk result (λ name. name ≡ extractor_name x) }
{
    let Some(extractor) = extractor else {
        return Ok(None);
    };
    Ok(Some(Name::of(String::from_str(alloc, extractor.name())?)))
}

/// The refusal of an extractor by the name of the one that a database was written with.
fn name_refusal(
    persisted: &Option<Name>,
    configured: &Option<Name>,
) -> Result<Option<SlateError>, NoMemory>
    ensures refusal { IfOk result (λ refusal. refusal ≡ name_refusal persisted.now configured.now) }
    ensures kind { IfOk result (λ refusal. IfSome refusal IsOfExtractor) }
{
    if persisted == configured {
        return Ok(None);
    }
    Ok(Some(SlateError::SegmentExtractorMismatch {
        persisted: persisted.clone()?,
        configured: configured.clone()?,
    }))
}

/// Whether an extractor answers a prefix of itself.
fn recognizes<E: PrefixExtractor>(extractor: &E, prefix: &Bytes) -> bool
    ensures { (x : Extractor) → IsLawful E.may_name E.may_extract extractor.now x → result ≡ recognizes x prefix.now }
{
    extractor.prefix_of(prefix.as_slice()) == Some(prefix.as_slice())
}

/// The first stored prefix that an extractor doesn't answer of itself.
fn first_unrecognized<'a, E: PrefixExtractor>(
    extractor: &E,
    stored: &'a [Bytes],
) -> Option<&'a Bytes>
    ensures { (x : Extractor) → IsLawful E.may_name E.may_extract extractor.now x → option_copied result ≡ find (λ p. not (recognizes x p)) stored.now }
{
    for prefix in stored {
        if !recognizes(extractor, prefix) {
            return Some(prefix);
        }
    }
    None
}

/// The refusal of an extractor by the first stored prefix that it doesn't answer of itself.
fn prefix_refusal<E: PrefixExtractor>(
    alloc: Global,
    extractor: Option<&E>,
    stored: &[Bytes],
) -> Result<Option<SlateError>, NoMemory>
    ensures refusal { (x : Option Extractor) → IsExtractor E.may_name E.may_extract (option_copied extractor.entry) x → IfOk result (λ refusal. refusal ≡ prefix_refusal x stored.now) }
    ensures kind { IfOk result (λ refusal. IfSome refusal IsOfExtractor) }
{
    let Some(extractor) = extractor else {
        return Ok(None);
    };
    let Some(prefix) = first_unrecognized(extractor, stored) else {
        return Ok(None);
    };
    let name = String::from_str(alloc, extractor.name())?;
    Ok(Some(SlateError::SegmentPrefixNotRecognized {
        prefix: prefix.clone()?,
        extractor: Name::of(name),
    }))
}

/// Why a database with this manifest isn't opened with an extractor, or with none: the manifest has another name
/// (`SegmentExtractorMismatch`), or a prefix that the extractor doesn't answer of itself (`SegmentPrefixNotRecognized`, which
/// names the first). It takes a call of the extractor for each segment of the manifest.
pub fn extractor_refusal<E: PrefixExtractor>(
    alloc: Global,
    extractor: Option<&E>,
    manifest: &Manifest,
) -> Result<Option<SlateError>, NoMemory>
    ensures refusal { (x : Option Extractor) → IsExtractor E.may_name E.may_extract (option_copied extractor.entry) x → IfOk result (λ refusal. refusal ≡ extractor_refusal x manifest.now) }
    ensures kind { IfOk result (λ refusal. IfSome refusal IsOfExtractor) }
{
    let name = name_of(alloc, extractor)?;
    if let Some(error) = name_refusal(&manifest.extractor_name, &name)? {
        return Ok(Some(error));
    }
    prefix_refusal(alloc, extractor, manifest.segments.as_slice())
}
