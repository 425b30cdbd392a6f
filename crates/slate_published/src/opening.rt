// Making a publisher and its readers.
ghost use Rattle.std.specs.Prelude.{◌≡◌, [], All, Some, drop, length, IfOk};
ghost use Rattle.left_right.specs.Sides.{view as known_at};
ghost use Rattle.slate_published.specs.Copies.{AreOfOrigin};

use crate::editions::{Edition, Show, Tell};
use crate::lists::StateList;
use crate::publishers::{Copies, hold};
use crate::{FollowerPublisher, FollowerReader, PublishedState};
use left_right::writer::Writer;
use slate_types::NoMemory;
use std::alloc::Global;
use std::sync::{Arc, Wait};

/// For how many editions there is room while they wait. At most two do: the one that is published, and the last one, which the
/// copy that isn't shown lacks.
const ROOM: usize = 4;

/// A publisher, which has published nothing, and so many readers. It takes time and memory for each reader, and makes the
/// room that publishing takes. It waits for nobody: where memory runs out it ends what it began, which takes a runtime.
pub fn follower_readers<R: Wait>(
    rt: &R,
    alloc: Global,
    count: u32,
) -> Result<(FollowerPublisher, Vec<FollowerReader>), NoMemory>
    ensures publisher { IfOk result (λ made. made.0.states ≡ []) }
    ensures readers { IfOk result (λ made. (length made.1.items ≡ count) × All (λ reader. reader ≡ made.0) made.1.items) }
{
    let list = StateList::open().ok_or(NoMemory)?;
    let state = Arc::new(alloc, PublishedState::nothing(alloc))?;
    let empty = Edition::of(state, list.front().again());
    let mut copies = open_copies(rt, alloc, &empty, count)?;
    match open_readers(alloc, &mut copies, &empty, count) {
        Ok(readers) => { Ok((FollowerPublisher::of(list, copies), readers)) }
        Err(error) => {
            copies.take(rt);
            Err(error)
        }
    }
}

/// Two copies of an edition, for so many readers.
fn open_copies<R: Wait>(
    rt: &R,
    alloc: Global,
    empty: &Edition,
    count: u32,
) -> Result<Copies, NoMemory>
    ensures knows { IfOk result (λ copies. known_at copies.desk.place ≡ Some empty.now.origin) }
    ensures one { IfOk result (λ copies. AreOfOrigin empty.now.origin copies.desk.shown.value (drop copies.behind copies.log.items)) }
{
    let readers = (count as usize).max(1);
    let mut copies = Writer::new(alloc, empty.again()?, empty.again()?, readers)?;
    match make_room(&mut copies, empty) {
        Ok(()) => show_first(rt, copies, empty),
        Err(error) => {
            copies.take(rt);
            Err(error)
        }
    }
}

/// Shows the copies for the first time.
fn show_first<R: Wait>(rt: &R, copies: Copies, empty: &Edition) -> Result<Copies, NoMemory>
    requires { AreOfOrigin empty.now.origin copies.desk.shown.value (drop copies.behind copies.log.items) }
    ensures knows { IfOk result (λ copies. known_at copies.desk.place ≡ Some empty.now.origin) }
    ensures one { IfOk result (λ copies. AreOfOrigin empty.now.origin copies.desk.shown.value (drop copies.behind copies.log.items)) }
{
    let (copies, shown) = copies.publish_as::<Show, R>(rt);
    match shown {
        Ok(()) => Ok(copies),
        Err(error) => {
            copies.take(rt);
            Err(error.into())
        }
    }
}

/// Makes room for editions that wait, by letting some wait.
fn make_room(copies: &mut Copies, empty: &Edition) -> Result<(), NoMemory>
    requires { AreOfOrigin empty.now.origin copies.old.desk.shown.value (drop copies.old.behind copies.old.log.items) }
    ensures desk { copies.new.desk ≡ copies.old.desk }
    ensures one { AreOfOrigin empty.now.origin copies.new.desk.shown.value (drop copies.new.behind copies.new.log.items) }
{
    for _ in 0..ROOM {
        hold(copies, empty.again()?)?;
    }
    Ok(())
}

/// So many readers of the copies.
fn open_readers(
    alloc: Global,
    copies: &mut Copies,
    empty: &Edition,
    count: u32,
) -> Result<Vec<FollowerReader>, NoMemory>
    requires knows { known_at copies.old.desk.place ≡ Some empty.now.origin }
    requires one { AreOfOrigin empty.now.origin copies.old.desk.shown.value (drop copies.old.behind copies.old.log.items) }
    ensures knows { known_at copies.new.desk.place ≡ Some empty.now.origin }
    ensures one { AreOfOrigin empty.now.origin copies.new.desk.shown.value (drop copies.new.behind copies.new.log.items) }
    ensures count { IfOk result (λ readers. length readers.items ≡ count) }
    ensures each { IfOk result (λ readers. All (λ reader. reader ≡ empty.now) readers.items) }
{
    let mut readers = Vec::new(alloc);
    for _ in 0..count {
        readers.push(open_reader(copies, empty)?)?;
    }
    Ok(readers)
}

/// A reader of the copies.
fn open_reader(copies: &mut Copies, empty: &Edition) -> Result<FollowerReader, NoMemory>
    requires knows { known_at copies.old.desk.place ≡ Some empty.now.origin }
    ensures knows { known_at copies.new.desk.place ≡ Some empty.now.origin }
    ensures kept { (copies.new.desk.shown ≡ copies.old.desk.shown) × (copies.new.log ≡ copies.old.log) × (copies.new.behind ≡ copies.old.behind) }
    ensures reader { IfOk result (λ reader. reader ≡ empty.now) }
{
    let edition = empty.again()?;
    let mut entry = copies.factory().reader()?;
    entry.learn::<Tell>(copies.tell::<Tell>());
    Ok(FollowerReader::of(entry, edition))
}
