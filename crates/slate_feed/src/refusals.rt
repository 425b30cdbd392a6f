// Why a feed doesn't answer.
ghost use Rattle.std.specs.Prelude.{◌≡◌};
ghost use Rattle.slate_store.specs.Calls.{IsOfList};

use slate_store::StoreError;
use slate_types::NoMemory;
use thiserror::Error;

/// Why a feed isn't opened, or hands out no batches. Its cursor is as it was.
#[derive(Clone, Copy, Debug, PartialEq, Eq, Error)]
pub enum FeedRefusal {
    /// No manifest is stored: there is no database.
    #[error("no manifest is stored")]
    LatestTransactionalObjectVersionMissing,
    /// The batches right above the cursor aren't kept: the first one that is comes right after the floor.
    #[error("the cursor {cursor} is below the floor {floor}")]
    BeforeFloor { cursor: u64, floor: u64 },
    /// The cursor at which a feed was to be opened is above the number of the last batch.
    #[error("the cursor {cursor} is above the end {end}")]
    Ahead { cursor: u64, end: u64 },
    /// The store can't be reached, or failed.
    #[error("the store can't be reached, or failed")]
    ObjectStoreError,
    /// Memory ran out.
    #[error("memory ran out")]
    NoMemory,
    /// A table or a log file wasn't there any more, or a batch between two others is missing.
    #[error("what was to be read isn't stored any more")]
    Moved,
}

impl From<NoMemory> for FeedRefusal {
    ghost use Rattle.slate_feed.specs.declared.refusals.FeedRefusal.TheVariants.{NoMemory as OutOfMemory};

    ghost from_gives = { λ _ refusal. refusal ≡ OutOfMemory };

    fn from(_error: NoMemory) -> FeedRefusal {
        FeedRefusal::NoMemory
    }
}

impl FeedRefusal {
    ghost use Rattle.slate_feed.specs.Refusal.{refusal_of};

    /// The refusal of a call of the store that failed, or for which memory ran out.
    pub(crate) fn of_call(error: StoreError) -> FeedRefusal
        requires { IsOfList error }
        ensures { result ≡ refusal_of error }
    {
        match error {
            StoreError::NoMemory => FeedRefusal::NoMemory,
            _ => FeedRefusal::ObjectStoreError,
        }
    }
}
