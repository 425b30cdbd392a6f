// Looking at log files without replaying them: which is the newest batch that they have.
ghost use Rattle.std.specs.Prelude.{◌≡◌, ◌≢◌, ◌-◌, ◌+◌, ◌≤◌, Err, IfOk, IfSome};
ghost use Rattle.std.specs.Option.{option_map};
ghost use Rattle.slate_types.specs.Counts.{HasRisen, one_more};
ghost use Rattle.slate_store.specs.Calls.{KeepsFaults};
ghost use Rattle.slate_store.specs.Objects.{log_at};
ghost use Rattle.slate_model.specs.Begun.{greatest_number};
ghost use Rattle.slate_replay.specs.Newest.{FindsNewest};

use slate_store::Store;
use slate_types::{Batch, StoreError};
use std::alloc::Global;

/// What a look at log files from the last one downwards finds.
#[derive(Clone, Copy, Debug, PartialEq, Eq)]
pub enum Newest {
    /// None has a batch above the number that was asked about.
    Nothing,
    /// The greatest number of the first one that has such a batch.
    Number(u64),
    /// The log file with this id isn't stored.
    Missing(u64),
}

/// Looks at the log files above `mark` up to `last`, from the last one downwards, up to one that has a batch above a number. It
/// replays none.
///
/// It ends at the first log file that isn't stored. It answers `Failed`, where a read of the store failed, and `NoMemory`. It calls
/// the store once for each log file that it reads, and takes time linear in their batches.
pub fn newest_above<S: Store>(
    alloc: Global,
    store: &mut S,
    mark: u64,
    last: u64,
    number: u64,
) -> Result<Newest, StoreError>
    ensures kept { S.objects store.new ≡ S.objects store.old }
    ensures count { S.faults store.old ≤ S.faults store.new }
    ensures failed { result ≡ Err StoreError.Failed → HasRisen (S.faults store.old) (S.faults store.new) }
    ensures stays { KeepsFaults StoreError.Failed (S.faults store.old) (S.faults store.new) result }
    ensures none_missing { result ≢ Err StoreError.NotFound }
    ensures none_exists { result ≢ Err StoreError.Exists }
    ensures calls { S.calls store.new ≤ S.calls store.old + (last - mark) }
    ensures found { IfOk result (λ newest. IfSome (S.objects store.old) (λ o. FindsNewest number mark last o newest)) }
{
    let mut id = last;
    while id > mark {
        match newest_of(alloc, store, id)? {
            None => return Ok(Newest::Missing(id)),
            Some(newest) if newest > number => return Ok(Newest::Number(newest)),
            Some(_) => id -= 1,
        }
    }
    Ok(Newest::Nothing)
}

/// The greatest number of the batches of a log file, 0 where it has none; or None where it isn't stored. It calls the store once,
/// answers `Failed`, where that failed, and `NoMemory`, and takes time linear in the batches.
pub fn newest_of<S: Store>(alloc: Global, store: &mut S, id: u64) -> Result<Option<u64>, StoreError>
    ensures kept { S.objects store.new ≡ S.objects store.old }
    ensures count { S.faults store.old ≤ S.faults store.new }
    ensures failed { result ≡ Err StoreError.Failed → HasRisen (S.faults store.old) (S.faults store.new) }
    ensures stays { KeepsFaults StoreError.Failed (S.faults store.old) (S.faults store.new) result }
    ensures none_missing { result ≢ Err StoreError.NotFound }
    ensures none_exists { result ≢ Err StoreError.Exists }
    ensures calls { S.calls store.new ≡ one_more (S.calls store.old) }
    ensures found { IfOk result (λ newest. IfSome (S.objects store.old) (λ o. newest ≡ option_map greatest_number (log_at id o))) }
{
    match store.read_log(alloc, id) {
        Ok(log) => Ok(Some(greatest_number(log.batches()))),
        Err(StoreError::NotFound) => Ok(None),
        Err(error) => Err(error),
    }
}

/// The greatest number of batches, or 0.
#[tactic(auto, using(crate::proofs::Looking::newest_more))]
fn greatest_number(batches: &[Batch]) -> u64
    ensures { result ≡ greatest_number batches.now }
{
    let mut greatest = 0;
    for batch in batches {
        if batch.number > greatest {
            greatest = batch.number;
        }
    }
    greatest
}
