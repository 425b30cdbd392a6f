// The segments of a handle's batches: the prefixes that its extractor cuts off their keys, and what refuses a key by them.
ghost use Rattle.std.specs.Prelude.{◌≡◌, ◌++◌, ◌⊎◌, ◌∷◌, List, ℕ, Option, Some, None, OnOk, [], true, if◌then◌else◌, IfErr, IfOk, IfSome};
ghost use Rattle.std.specs.Option.{option_copied};
ghost use Rattle.slate_status.specs.Segments.{PrefixesRise};
ghost use Rattle.slate_model.specs.Segments.{Extractor, IsExtractor, IsLawful, key_refusal, nest, nesting_refusal, prefixes_of, segment_refusal};
ghost use Rattle.slate_model.specs.Write.{IsOfSegments};
ghost use Rattle.slate_segments.specs.Prefixes.{HaveSame};
ghost use Rattle.slate_writer.specs.Segments.{IsConflict, IsNext, IsPlace, IsSame, prefixes_by};

use bytes::Bytes;
use slate_errors::SlateError;
use slate_segments::segment_of;
use slate_types::{KeyOp, NoMemory, PrefixExtractor};
use std::alloc::Global;

/// Keeps prefixes, or drops all.
pub(crate) fn clear_unless(segments: &mut Vec<Bytes>, keep: bool)
    ensures { segments.new.items ≡ (if keep then segments.old.items else []) }
{
    if !keep {
        segments.clear();
    }
}

/// The refusal of a prefix that nests with a known one.
fn nested_segment(alloc: Global, prefix: &[u8], conflict: &Bytes) -> Result<SlateError, NoMemory>
    ensures { IfOk result (λ error. error ≡ SlateError.InvalidSegmentPrefix prefix.now conflict.now) }
{
    Ok(SlateError::InvalidSegmentPrefix {
        prefix: Bytes::copy_from_slice(alloc, prefix)?,
        conflict: conflict.clone()?,
    })
}

/// Whether two prefixes nest: they differ, and one begins the other.
fn nest(one: &[u8], other: &[u8]) -> bool
    ensures { result ≡ nest one.now other.now }
{
    one != other && (one.starts_with(other) || other.starts_with(one))
}

/// The lesser of two conflicts of a prefix, of which each may be absent.
fn lesser<'a>(one: Option<&'a Bytes>, other: Option<&'a Bytes>) -> Option<&'a Bytes>
    ensures { (prefix : List ℕ) (known others : List (List ℕ)) → IsConflict known prefix (option_copied one.entry) → IsConflict others prefix (option_copied other.entry)
        → IsConflict (known ++ others) prefix (option_copied result) }
{
    let Some(first) = one else {
        return other;
    };
    let Some(second) = other else {
        return one;
    };
    if second < first {
        Some(second)
    } else {
        Some(first)
    }
}

/// The least of these prefixes that nests with one. It takes time linear in them.
fn least_conflict<'a>(known: &'a [Bytes], prefix: &[u8]) -> Option<&'a Bytes>
    ensures { IsConflict known.now prefix.now (option_copied result) }
{
    let mut least = None;
    for other in known {
        if nest(prefix, other.as_slice()) {
            least = lesser(least, Some(other));
        }
    }
    least
}

/// Where a prefix stands among these, which rise, or where it belongs. It takes a logarithm of them.
fn place(known: &[Bytes], prefix: &[u8]) -> Result<usize, usize>
    requires { PrefixesRise known.now }
    ensures { IsPlace known.now prefix.now result }
{
    known.binary_search_by(|other| other.as_slice().cmp(prefix))
}

/// The one of these prefixes, which rise, that is this one.
fn same<'a>(known: &'a [Bytes], prefix: &[u8]) -> Option<&'a Bytes>
    requires { PrefixesRise known.now }
    ensures { IsSame known.now prefix.now (option_copied result) }
{
    match place(known, prefix) {
        Ok(i) => Some(&known[i]),
        Err(_) => None,
    }
}

/// The least of these prefixes, which rise, above one.
fn next<'a>(known: &'a [Bytes], prefix: &[u8]) -> Option<&'a Bytes>
    requires { PrefixesRise known.now }
    ensures { IsNext known.now prefix.now (option_copied result) }
{
    let above = match place(known, prefix) {
        Ok(i) => i + 1,
        Err(i) => i,
    };
    if above < known.len() {
        Some(&known[above])
    } else {
        None
    }
}

/// The least of these prefixes, which rise, that nests with one. It takes a logarithm of them for each byte of that: one that
/// begins it is below all that it begins, and the least of these is the next one above it.
fn least_nesting<'a>(known: &'a [Bytes], prefix: &[u8]) -> Option<&'a Bytes>
    requires { PrefixesRise known.now }
    ensures { IsConflict known.now prefix.now (option_copied result) }
{
    for n in 0..prefix.len() {
        if let Some(found) = same(known, &prefix[..n]) {
            return Some(found);
        }
    }
    let other = next(known, prefix)?;
    if other.as_slice().starts_with(prefix) {
        Some(other)
    } else {
        None
    }
}

/// Whether prefixes rise.
pub(crate) fn rise(prefixes: &[Bytes]) -> bool
    ensures { result ≡ true → PrefixesRise prefixes.now }
{
    for i in 1..prefixes.len() {
        if prefixes[i - 1] >= prefixes[i] {
            return false;
        }
    }
    true
}

/// Takes a prefix that wasn't taken yet, among those that were, which rise.
fn take(alloc: Global, taken: &mut Vec<Bytes>, prefix: &[u8]) -> Result<(), NoMemory>
    requires { PrefixesRise taken.old.items }
    ensures same { OnOk result (HaveSame taken.new.items (taken.old.items ++ prefix.now ∷ [])) }
    ensures rising { PrefixesRise taken.new.items }
{
    if let Err(i) = place(taken.as_slice(), prefix) {
        taken.insert(i, Bytes::copy_from_slice(alloc, prefix)?)?;
    }
    Ok(())
}

/// The least of the stored prefixes that nests with one: by a search, where they are known to rise.
fn stored_conflict<'a>(stored: &'a [Bytes], rising: bool, prefix: &[u8]) -> Option<&'a Bytes>
    requires { rising ≡ true → PrefixesRise stored.now }
    ensures { IsConflict stored.now prefix.now (option_copied result) }
{
    if rising {
        least_nesting(stored, prefix)
    } else {
        least_conflict(stored, prefix)
    }
}

/// The least prefix that nests with one, of those that are stored, those of the handle's batches, and those taken before.
fn conflict<'a>(
    stored: &'a [Bytes],
    rising: bool,
    segments: &'a [Bytes],
    taken: &'a [Bytes],
    prefix: &[u8],
) -> Option<&'a Bytes>
    requires stored { rising ≡ true → PrefixesRise stored.now }
    requires segments { PrefixesRise segments.now }
    requires taken { PrefixesRise taken.now }
    ensures { IsConflict (stored.now ++ (segments.now ++ taken.now)) prefix.now (option_copied result) }
{
    let among_batches = lesser(
        least_nesting(segments, prefix),
        least_nesting(taken, prefix),
    );
    lesser(stored_conflict(stored, rising, prefix), among_batches)
}

/// The refusal of a prefix that nests with one of these.
fn nesting_refusal(
    alloc: Global,
    stored: &[Bytes],
    rising: bool,
    segments: &[Bytes],
    taken: &[Bytes],
    prefix: &[u8],
) -> Result<Option<SlateError>, NoMemory>
    requires stored { rising ≡ true → PrefixesRise stored.now }
    requires segments { PrefixesRise segments.now }
    requires taken { PrefixesRise taken.now }
    ensures refusal { (all : List (List ℕ)) → HaveSame all (stored.now ++ (segments.now ++ taken.now)) →
        IfOk result (λ refusal. refusal ≡ nesting_refusal all (Some prefix.now)) }
    ensures kind { IfOk result (λ refusal. IfSome refusal IsOfSegments) }
{
    match conflict(stored, rising, segments, taken, prefix) {
        None => Ok(None),
        Some(other) => Ok(Some(nested_segment(alloc, prefix, other)?)),
    }
}

/// Takes the prefix of a key; or refuses the key by the prefixes that are stored, those of the handle's batches, or those taken
/// before.
fn take_prefix<E: PrefixExtractor>(
    alloc: Global,
    extractor: &E,
    stored: &[Bytes],
    rising: bool,
    segments: &[Bytes],
    taken: &mut Vec<Bytes>,
    key: &Bytes,
) -> Result<(), SlateError>
    requires stored { rising ≡ true → PrefixesRise stored.now }
    requires segments { PrefixesRise segments.now }
    requires taken { PrefixesRise taken.old.items }
    ensures ok { (x : Extractor) (all : List (List ℕ)) → IsLawful E.may_name E.may_extract extractor.now x → HaveSame all (stored.now ++ (segments.now ++ taken.old.items)) →
        OnOk result (key_refusal all key.now (x.prefix_of key.now) ≡ None) }
    ensures taken_ { (x : Extractor) (op : KeyOp) → IsLawful E.may_name E.may_extract extractor.now x → op.key ≡ key.now →
        OnOk result (HaveSame taken.new.items (taken.old.items ++ prefixes_of x (op ∷ []))) }
    ensures rising { PrefixesRise taken.new.items }
    ensures err { (x : Extractor) (all : List (List ℕ)) → IsLawful E.may_name E.may_extract extractor.now x → HaveSame all (stored.now ++ (segments.now ++ taken.old.items)) →
        IfErr result (λ error. (error ≡ SlateError.NoMemory) ⊎ (key_refusal all key.now (x.prefix_of key.now) ≡ Some error)) }
    ensures kind { IfErr result (λ error. (error ≡ SlateError.NoMemory) ⊎ IsOfSegments error) }
{
    let prefix = segment_of(extractor, key)?;
    if let Some(error) = nesting_refusal(
        alloc,
        stored,
        rising,
        segments,
        taken.as_slice(),
        prefix,
    )? {
        return Err(error);
    }
    Ok(take(alloc, taken, prefix)?)
}

/// The prefixes of a batch's keys, none without an extractor; or the refusal of its first operation that the prefixes refuse that
/// are stored, those of the handle's batches, or those of the operations before.
pub(crate) fn take_prefixes<E: PrefixExtractor>(
    alloc: Global,
    extractor: Option<&E>,
    stored: &[Bytes],
    rising: bool,
    segments: &[Bytes],
    ops: &[KeyOp],
) -> Result<Vec<Bytes>, SlateError>
    requires stored { rising ≡ true → PrefixesRise stored.now }
    requires segments { PrefixesRise segments.now }
    ensures ok { (x : Option Extractor) → IsExtractor E.may_name E.may_extract (option_copied extractor.entry) x → IfOk result (λ taken.
        (segment_refusal x (stored.now ++ segments.now) ops.now ≡ None) × HaveSame taken.items (prefixes_by x ops.now)) }
    ensures err { (x : Option Extractor) → IsExtractor E.may_name E.may_extract (option_copied extractor.entry) x → IfErr result (λ error.
        (error ≡ SlateError.NoMemory) ⊎ (segment_refusal x (stored.now ++ segments.now) ops.now ≡ Some error)) }
    ensures kind { IfErr result (λ error. (error ≡ SlateError.NoMemory) ⊎ IsOfSegments error) }
{
    let mut taken = Vec::new(alloc);
    let Some(extractor) = extractor else {
        return Ok(taken);
    };
    for op in ops {
        let key = &op.key;
        take_prefix(alloc, extractor, stored, rising, segments, &mut taken, key)?;
    }
    Ok(taken)
}
