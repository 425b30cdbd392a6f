// Taking the batches that come next out of a table or a log file.
ghost use Rattle.std.specs.Prelude.{◌≡◌, ◌≢◌, ◌+◌, ◌<◌, ◌≤◌, ◌^◌, [], ℕ, false, length};
ghost use Rattle.slate_types.specs.Line.{AreNumberedFrom, batches_above};
ghost use Rattle.slate_store.specs.Content.{number_before};
ghost use Rattle.slate_reads.specs.Index.{AreRising};
ghost use Rattle.slate_feed.specs.Taking.{IsNoneBelow, IsThrough, Grows, TakesPiece, TakesOne};

use slate_types::{Batch, NoMemory};

/// What a feed has found above its cursor.
pub(crate) struct Found {
    /// The batches right above the cursor.
    pub(crate) batches: Vec<Batch>,
    /// The greatest number that was read, or the last number in tables.
    pub(crate) end: u64,
    /// Whether a batch was read.
    pub(crate) began: bool,
}

impl Drop for Found {
    fn drop(self) {
        let Found {
            batches: _,
            end: _,
            began: _,
        } = self;
    }
}

/// How the batches of a table or a log file lead on from those found.
#[derive(Clone, Copy, Debug, PartialEq, Eq)]
pub(crate) enum Taken {
    /// Without a gap, or up to as many as were asked for.
    Whole,
    /// A batch is past the next number.
    Gap,
    /// So is the first one that was ever read; this is the number before it.
    Below(u64),
}

/// Takes the batches above a number that come next after the cursor and those found, and passes those that came before,
/// until as many are found as were asked for. It copies the lists of operations of the batches that it takes, and no key
/// and no value.
pub(crate) fn take_next(
    found: &mut Found,
    cursor: u64,
    limit: u32,
    above: u64,
    batches: &[Batch],
) -> Result<Taken, NoMemory>
    requires numbered { AreNumberedFrom cursor found.old.batches.items }
    requires fits { cursor + length found.old.batches.items < 2 ^ 64 }
    requires fresh { found.old.began ≡ false → found.old.batches.items ≡ [] }
    requires room { length found.old.batches.items < limit }
    ensures numbered { AreNumberedFrom cursor found.new.batches.items }
    ensures fits { cursor + length found.new.batches.items < 2 ^ 64 }
    ensures fresh { found.new.began ≡ false → found.new.batches.items ≡ [] }
    ensures within { length found.new.batches.items ≤ limit }
    ensures grows { Grows (batches_above above batches.now) found.old.batches.items found.new.batches.items }
    ensures first { IsNoneBelow result → found.old.began ≡ false → number_before (batches_above above batches.now) cursor ≤ cursor }
    ensures takes { TakesPiece cursor limit (batches_above above batches.now) found.old result found.new }
{
    for batch in batches {
        if batch.number <= above {
            continue;
        }
        match take_one(found, cursor, batch)? {
            Taken::Whole => {
                if found.batches.len() >= limit as usize {
                    return Ok(Taken::Whole);
                }
            }
            Taken::Gap => return Ok(Taken::Gap),
            Taken::Below(floor) => return Ok(Taken::Below(floor)),
        }
    }
    Ok(Taken::Whole)
}

/// Does what `take_next` does, and passes the batches before a place unread: that place is the first, or that of a batch at
/// or below the cursor among batches whose numbers rise.
pub(crate) fn take_from(
    found: &mut Found,
    cursor: u64,
    limit: u32,
    above: u64,
    batches: &[Batch],
    from: usize,
) -> Result<Taken, NoMemory>
    requires numbered { AreNumberedFrom cursor found.old.batches.items }
    requires fits { cursor + length found.old.batches.items < 2 ^ 64 }
    requires fresh { found.old.began ≡ false → found.old.batches.items ≡ [] }
    requires room { length found.old.batches.items < limit }
    requires within { from ≤ length batches.now }
    requires passed { IsThrough cursor from batches.now }
    requires rising { from ≢ 0 → AreRising batches.now }
    ensures numbered { AreNumberedFrom cursor found.new.batches.items }
    ensures fits { cursor + length found.new.batches.items < 2 ^ 64 }
    ensures fresh { found.new.began ≡ false → found.new.batches.items ≡ [] }
    ensures within { length found.new.batches.items ≤ limit }
    ensures grows { Grows (batches_above above batches.now) found.old.batches.items found.new.batches.items }
    ensures first { IsNoneBelow result → found.old.began ≡ false → number_before (batches_above above batches.now) cursor ≤ cursor }
    ensures takes { TakesPiece cursor limit (batches_above above batches.now) found.old result found.new }
{
    take_next(found, cursor, limit, above, &batches[from..])
}

/// The place of the last batch at or below a number, or 0 where there is none.
pub(crate) fn last_through(batches: &[Batch], number: u64) -> usize
    ensures within { result ≤ length batches.now }
    ensures through { IsThrough number result batches.now }
{
    let (mut low, mut high) = (0, batches.len());
    while high - low > 1 {
        let middle = low + (high - low) / 2;
        if batches[middle].number <= number {
            low = middle;
        } else {
            high = middle;
        }
    }
    low
}

/// Takes a batch that comes next, or passes one that came before.
fn take_one(found: &mut Found, cursor: u64, batch: &Batch) -> Result<Taken, NoMemory>
    requires { cursor + length found.old.batches.items < 2 ^ 64 }
    ensures takes { TakesOne cursor batch.now found.old result found.new }
    ensures fits { cursor + length found.new.batches.items < 2 ^ 64 }
{
    let reached = cursor + found.batches.len() as u64;
    if batch.number > reached {
        if batch.number - 1 != reached {
            return Ok(if found.began {
                Taken::Gap
            } else {
                Taken::Below(batch.number - 1)
            });
        }
        found.batches.push(batch.clone()?)?;
    }
    found.began = true;
    found.end = found.end.max(batch.number);
    Ok(Taken::Whole)
}
