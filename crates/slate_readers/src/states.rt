// Whether a reader sees what was published last.
ghost use Rattle.std.specs.Prelude.{Decides};
ghost use Rattle.slate_follow.specs.Publishing.{published_state};
ghost use Rattle.slate_readers.specs.Changes.{AreAlike};

use slate_follow::FollowerState;
use slate_published::PublishedState;

/// Whether a reader sees a state that was published: its number, its manifest's id, the last number in the tables of that, and
/// their ids are the same. It takes time linear in the ids where the rest is the same, and no memory.
pub(crate) fn is_seen(reader: &FollowerState, state: &PublishedState) -> bool
    ensures { Decides result (AreAlike (published_state reader.now) state.now) }
{
    let view = reader.manifest();
    if reader.number() != state.number() {
        return false;
    }
    if view.id != state.manifest_id() {
        return false;
    }
    if view.manifest.last_l0_seq != state.last_l0_seq() {
        return false;
    }
    view.manifest.tables.as_slice() == state.tables()
}

/// What a reader saw when a publication of it found no memory.
#[derive(Clone, Copy, Debug, PartialEq, Eq)]
pub(crate) struct Sight {
    number: u64,
    manifest_id: u64,
    last_l0_seq: u64,
}

/// What a reader sees, but for the ids of its tables.
pub(crate) fn sight_of(reader: &FollowerState) -> Sight {
    let view = reader.manifest();
    Sight {
        number: reader.number(),
        manifest_id: view.id,
        last_l0_seq: view.manifest.last_l0_seq,
    }
}
