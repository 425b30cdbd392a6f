// The ids of what is stored: whether they rise and have no gap, and what stands against the latest manifest.
ghost use Rattle.std.specs.Prelude.{◌≡◌, ◌↔◌, ◌+◌, ◌<◌, ◌≤◌, nat_eq, nat_lt, IsTrue, IfOk, MatchOption, MatchResult, All, filter, length};
ghost use Rattle.std.specs.List.{IsDistinct};
ghost use Rattle.std.specs.List.Sorted.{IsStrictlySortedBy};
ghost use Rattle.slate_store.specs.Content.{AreGapless, IdsRise};
ghost use Rattle.slate_store.specs.Objects.{table_cmp};
ghost use Rattle.slate_check.specs.Named.{IsFirstGap, IsFirstTwice, IsFirstWithout, kept_ids};

use slate_store::{Checkpoint, TableId};
use slate_types::NoMemory;
use std::alloc::Global;
use std::collections::BTreeSet;

/// Whether each id is above those before it.
pub(crate) fn are_rising(ids: &[u64]) -> bool
    ensures { IsTrue result ↔ IdsRise ids.now }
{
    ids.is_sorted_by(|before, id| *before < *id)
}

/// Whether each table's id is above those before it.
pub(crate) fn are_tables_rising(ids: &[TableId]) -> bool
    ensures { IsTrue result ↔ IsStrictlySortedBy table_cmp ids.now }
{
    ids.is_sorted_by(|before, id| *before < *id)
}

/// The first table whose epoch is above this one, where there is one.
pub(crate) fn find_above(ids: &[TableId], epoch: u64) -> Option<TableId>
    ensures { MatchOption result (All (λ id. id.epoch ≤ epoch) ids.now) (λ found. IsFirstWithout (λ id. id.epoch ≤ epoch) ids.now found × (epoch < found.epoch)) }
{
    for id in ids {
        if id.epoch > epoch {
            return Some(*id);
        }
    }
    None
}

/// The last of the ids above a mark, which have no gap; or an error with the id after which the first gap is.
pub(crate) fn last_gapless(ids: &[u64], mark: u64) -> Result<u64, u64>
    ensures { let above = filter (λ id. nat_lt mark id) ids.now in
        MatchResult result (λ last. AreGapless mark above × (last ≡ mark + length above)) (IsFirstGap mark above) }
{
    let mut last = mark;
    for id in ids {
        if *id <= mark {
            continue;
        }
        if *id - 1 != last {
            return Err(last);
        }
        last = *id;
    }
    Ok(last)
}

/// The first manifest that two of these checkpoints keep, where there is one. It takes time with a logarithm.
pub(crate) fn find_kept_twice(
    alloc: Global,
    checkpoints: &[Checkpoint],
) -> Result<Option<u64>, NoMemory>
    ensures { IfOk result (λ found. MatchOption found (IsDistinct nat_eq (kept_ids checkpoints.now)) (IsFirstTwice (kept_ids checkpoints.now))) }
{
    let mut seen = BTreeSet::new(alloc);
    for checkpoint in checkpoints {
        let id = checkpoint.manifest_id;
        if !seen.insert(id)? {
            return Ok(Some(id));
        }
    }
    Ok(None)
}
