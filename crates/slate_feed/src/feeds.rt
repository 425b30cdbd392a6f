// A feed: its opening, and its calls.
ghost use Rattle.std.specs.Prelude.{◌≡◌, ◌+◌, ◌≤◌, length, IfOk, IfSome, MatchResult};
ghost use Rattle.slate_types.specs.Line.{AreNumberedFrom};
ghost use Rattle.slate_store.specs.Content.{IsSound};
ghost use Rattle.slate_store.specs.Objects.{latest_manifest};
ghost use Rattle.slate_feed.specs.Answer.{Answers, Delivers, Opens, OpensWithin, most_calls};
ghost use Rattle.slate_feed.specs.Stepping.{CountsFaults};

use crate::{FeedMachine, FeedRefusal};
use slate_store::Store;
use slate_types::{Batch, Seq};
use std::alloc::Global;
use std::marker::Model;

/// A feed of the stored batches of a database, without the store: it hands them out in the order of their numbers. A contract
/// sees its cursor.
#[derive(Clone, Copy, Debug, PartialEq, Eq)]
pub struct Feed {
    /// The number of the last batch that was delivered, or the one after which the feed was opened.
    cursor: u64,
}

impl Model for Feed {
    ghost use Rattle.std.specs.Prelude.{ℕ};

    ghost Value = { ℕ };

    ghost view = { λ f. f.cursor };

    ghost inverse = { λ n. record { cursor = n } };
}

impl Feed {
    /// Opens a feed of the batches after a number: 0 for all of them, or the cursor that another feed has reached, which its
    /// caller kept. It reads until it finds a batch above that number or knows that there is none.
    ///
    /// # Errors
    ///
    /// error | when
    /// ---|---
    /// `LatestTransactionalObjectVersionMissing` | no manifest is stored
    /// `BeforeFloor` | the number is below the floor, the number before the first stored batch
    /// `Ahead` | it is above the end, the number of the last stored batch
    /// `ObjectStoreError` | a read of the store failed
    /// `Moved` | what was to be read isn't stored; it never comes over an honest store
    /// `NoMemory` | want of memory
    ///
    /// # Cost
    ///
    /// The calls and the time of `next_batches` with the limit 1.
    pub fn open<S: Store>(alloc: Global, store: &mut S, after: u64) -> Result<Feed, FeedRefusal>
        ensures opened { IfOk result (λ feed. feed ≡ after) }
        ensures opens { IfSome (S.objects store.old) (λ o. Opens o after result) }
        // Over an honest store.
        ensures within { IfSome (S.objects store.old) (λ o. IsSound o → OpensWithin o after result) }
        ensures kept { S.objects store.new ≡ S.objects store.old }
        ensures faults { CountsFaults (S.faults store.old) (S.faults store.new) result }
        ensures calls { IfSome (S.objects store.old) (λ o. S.calls store.new ≤ S.calls store.old + most_calls after (latest_manifest o) o) }
    {
        Feed::open_at(alloc, store, after)
    }

    /// Opens a feed, and says of it what is read.
    fn open_at<S: Store>(alloc: Global, store: &mut S, after: u64) -> Result<Feed, FeedRefusal>
        ensures opened { IfOk result (λ feed. feed ≡ after) }
        ensures opens { IfSome (S.objects store.old) (λ o. Opens o after result) }
        ensures kept { S.objects store.new ≡ S.objects store.old }
        ensures faults { CountsFaults (S.faults store.old) (S.faults store.new) result }
        ensures calls { IfSome (S.objects store.old) (λ o. S.calls store.new ≤ S.calls store.old + most_calls after (latest_manifest o) o) }
    {
        let mut machine = FeedMachine::new(alloc, after, 1);
        let above = machine.run(alloc, store)?;
        let end = machine.end();
        if above.as_slice().len() == 0 && end < after {
            return Err(FeedRefusal::Ahead { cursor: after, end });
        }
        Ok(Feed { cursor: after })
    }

    /// The number of the last batch that was delivered, or the one after which the feed was opened. A feed that is opened after
    /// it goes on from there.
    pub fn cursor(&self) -> u64
        ensures { result ≡ self.now }
    {
        self.cursor
    }

    /// Delivers the stored batches right above the cursor, at most `limit`, each once and whole; the cursor is the last one's
    /// number then. Over an honest store it delivers as many as there are up to the limit, whatever others flushed, compacted
    /// and swept since the last call. What a handle holds and didn't flush isn't stored.
    ///
    /// # Errors
    ///
    /// As of `open`, but for `Ahead`: a cursor above the end, of another database, is answered with no batch. `BeforeFloor`
    /// comes only where a batch is asked for. The cursor stays then, and so does the store.
    ///
    /// # Cost
    ///
    /// It reads the latest manifest; where the cursor is below the last number in tables, the tables, oldest first, until
    /// `limit` batches above the cursor are found; and, while fewer are, it asks for the last log file and reads those above the
    /// replay mark. Each of these is one call of the store. A table doesn't tell its numbers before it is read, so those below
    /// the cursor are read too: a database that is compacted has few. Time linear in the batches that it passes, a step for
    /// each, and in the operations of those that it delivers, whose lists it copies: no key and no value.
    pub fn next_batches<S: Store>(
        &mut self,
        alloc: Global,
        store: &mut S,
        limit: u32,
    ) -> Result<Seq<Batch>, FeedRefusal>
        ensures answers { IfSome (S.objects store.old) (λ o. Answers o self.old limit result) }
        ensures numbered { IfOk result (AreNumberedFrom self.old) }
        ensures cursor { MatchResult result (λ batches. self.new ≡ self.old + length batches) (λ _. self.new ≡ self.old) }
        // Over an honest store.
        ensures delivers { IfSome (S.objects store.old) (λ o. IsSound o → Delivers o self.old limit result) }
        ensures kept { S.objects store.new ≡ S.objects store.old }
        ensures faults { CountsFaults (S.faults store.old) (S.faults store.new) result }
        ensures calls { IfSome (S.objects store.old) (λ o. S.calls store.new ≤ S.calls store.old + most_calls self.old (latest_manifest o) o) }
    {
        let mut machine = FeedMachine::begin(alloc, self, limit);
        let batches = machine.run(alloc, store)?;
        self.advance(batches.as_slice());
        Ok(batches)
    }

    /// Moves the cursor past these batches, which are right above it.
    pub(crate) fn advance(&mut self, batches: &[Batch])
        requires { AreNumberedFrom self.old batches.now }
        ensures { self.new ≡ self.old + length batches.now }
    {
        if let Some(last) = batches.last() {
            self.cursor = last.number;
        }
    }
}
