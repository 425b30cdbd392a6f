// The readers of what a publisher publishes, and the news that they are told.
ghost use Rattle.std.specs.Prelude.{◌≡◌, ⊤, length, Some, IfOk, IfSome};
ghost use Rattle.std.specs.Borrow.{sem, follows_so};
ghost use mathlib.Core.List.{IsPrefix};
ghost use mathlib.Core.Option.{none};
ghost use Rattle.left_right.specs.Sides.{view as known_at};
ghost use Rattle.slate_published.specs.States.{NeverFall};

use crate::ReaderView;
use crate::editions::{Edition, Origin, SameOrigin, Show};
use crate::fronts::Front;
use left_right::reader::Reader;
use slate_types::NoMemory;
use std::marker::Model;

/// What enters the copy that is shown.
pub(crate) type Entry = Reader<Edition, Option<Origin>, SameOrigin>;

/// News of the states that were published up to one of them. A contract sees which call made the publisher and its readers,
/// and these states, in order.
#[derive(Drop)]
pub struct FollowerNews {
    edition: Edition,
}

impl Model for FollowerNews {
    ghost use Rattle.slate_published.specs.Beginnings.{Beginning};

    ghost Value = { Beginning };

    ghost view = { λ news. news.edition };
}

impl FollowerNews {
    /// News of an edition.
    pub(crate) fn of(edition: Edition) -> FollowerNews
        ensures { result ≡ edition }
    {
        FollowerNews { edition }
    }

    /// The same news for another reader. It shares the state, and fails where there are as many copies as there may be.
    pub fn again(&self) -> Result<FollowerNews, NoMemory>
        ensures { IfOk result (λ again. again ≡ self.now) }
    {
        Ok(FollowerNews {
            edition: self.edition.again()?,
        })
    }
}

/// One that views what is published, beside the publisher and other readers, and goes to a thread of its own. No call takes
/// a lock or memory, or waits.
///
/// A contract sees which call made it and its publisher, and the states that it has seen: the first ones that were
/// published, in order, up to the last one that it viewed or was told of.
#[derive(Drop)]
pub struct FollowerReader {
    /// None where a view was cut off within.
    entry: Option<Entry>,
    edition: Edition,
}

impl Model for FollowerReader {
    ghost use Rattle.std.specs.Prelude.{◌≡◌, Some, IfSome};
    ghost use Rattle.left_right.specs.Sides.{view as known_at};
    ghost use Rattle.slate_published.specs.Beginnings.{Beginning};

    ghost Value = { Beginning };

    ghost view = { λ r. r.edition };

    ghost invariant = { λ r. IfSome r.entry (λ e. known_at e.place ≡ Some r.edition.origin) };
}

impl FollowerReader {
    ghost use Rattle.slate_published.specs.Views.{viewed};
    ghost use Rattle.slate_published.specs.contracts.readers.FollowerReader.{the_row};

    /// A reader that has seen what an edition ends with.
    pub(crate) fn of(entry: Entry, edition: Edition) -> FollowerReader
        requires { known_at entry.place ≡ Some edition.origin }
        ensures { result ≡ edition }
    {
        FollowerReader {
            entry: Some(entry),
            edition,
        }
    }

    /// How many states it has seen. It takes constant time and no memory.
    pub fn count(&self) -> u64
        ensures count { result ≡ length self.now.states }
        // Numbers never fall along what it has seen.
        ensures rising { NeverFall self.now.states }
    {
        self.edition.front().count()
    }

    /// The beginning of what was published that it has seen.
    pub(crate) fn front(&self) -> &Front
        ensures { result.now ≡ self.now }
    {
        self.edition.front()
    }

    /// Takes in news of the publisher that was made with it: from now on it has seen what they tell. It takes no memory, and
    /// constant time, but for that of dropping the last copy of a state.
    pub fn learn(&mut self, news: FollowerNews)
        requires { news.origin ≡ self.old.origin }
        ensures origin { self.new.origin ≡ self.old.origin }
        ensures seen { IsPrefix self.old.states self.new.states }
        ensures told { IsPrefix news.states self.new.states }
    {
        let FollowerNews { edition } = news;
        if self.edition.front().is_behind(edition.front()) {
            self.edition = edition;
        }
    }

    /// A view of one published state: the last one that was published, or where it has seen or was told of a later one, that
    /// one; before any is published, the state with number 0. It has then seen the states up to this one. Where the publisher
    /// has ended, or there are as many copies of the state as there may be, it is the last one that it has seen. It takes
    /// no memory, and constant time, but for that of dropping the last copy of the state that it saw before.
    pub fn view(&mut self) -> ReaderView<'_>
        ensures origin { (viewed result).origin ≡ self.old.origin }
        ensures begins { IsPrefix self.old.states (viewed result).states }
        ensures* becomes { sem 𝓛 (follows_so the_row the_row self.entry.ghost_name none (λ _ _. ⊤) (λ after. after ≡ viewed result)) }
    {
        self.look();
        ReaderView::of(&self.edition)
    }

    /// Sees what is shown.
    fn look(&mut self)
        ensures origin { self.new.origin ≡ self.old.origin }
        ensures seen { IsPrefix self.old.states self.new.states }
    {
        if let Some(edition) = self.later() {
            self.edition = edition;
        }
    }

    /// What is shown, where it is later than what it has seen.
    fn later(&mut self) -> Option<Edition>
        ensures same { self.new ≡ self.old }
        ensures later { IfSome result (λ edition. (edition.origin ≡ self.old.origin) × IsPrefix self.old.states edition.states) }
    {
        let entry = self.entry.take()?;
        match entry.enter_as::<Show>() {
            Ok(reading) => {
                let later = later_than(&self.edition, reading.get());
                self.entry = Some(reading.leave());
                later
            }
            Err(entry) => {
                self.entry = Some(entry);
                None
            }
        }
    }
}

/// A copy of the edition that is shown, where it is later than another.
fn later_than(edition: &Edition, shown: &Edition) -> Option<Edition>
    requires { shown.now.origin ≡ edition.now.origin }
    ensures { IfSome result (λ later. (later ≡ shown.now) × IsPrefix edition.now.states shown.now.states) }
{
    if edition.front().is_behind(shown.front()) {
        shown.again().ok()
    } else {
        None
    }
}
