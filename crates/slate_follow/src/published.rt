// The state of a reader, as it is published to readers on other threads.
ghost use Rattle.std.specs.Prelude.{◌≡◌, IfOk};
ghost use Rattle.std.specs.Arc.{arc_value};
ghost use Rattle.slate_follow.specs.Publishing.{published_state};

use crate::FollowerState;
use crate::tables::share;
use slate_published::PublishedState;
use slate_store::{TableId, VersionedManifest};
use slate_types::{NoMemory, Seq};
use std::alloc::Global;
use std::sync::Arc;

impl FollowerState {
    /// The manifest that it goes by: the latest, when it was opened or last polled, or that of its checkpoint. It takes constant
    /// time.
    pub fn manifest(&self) -> &VersionedManifest
        ensures { result.now ≡ self.now.view }
    {
        self.status.manifest()
    }

    /// What it sees, to be published. It is answered of a closed reader, too, and changes nothing. It takes time and memory
    /// linear in the ids of its tables and in the tables in memory, which it shares.
    pub fn published(&self, alloc: Global) -> Result<Arc<PublishedState, Global>, NoMemory>
        ensures { IfOk result (λ state. arc_value state ≡ published_state self.now) }
    {
        let tables = ids(alloc, self.tables())?;
        let mut memory = Vec::new(alloc);
        share(&mut memory, self.kept.as_slice())?;
        let view = self.manifest();
        let floor = view.manifest.last_l0_seq;
        let state = PublishedState::of(self.number, view.id, tables, floor, memory);
        Ok(Arc::new(alloc, state)?)
    }
}

/// A copy of ids.
fn ids(alloc: Global, tables: &[TableId]) -> Result<Seq<TableId>, NoMemory>
    ensures { IfOk result (λ copy. copy ≡ tables.now) }
{
    let mut copy = Vec::new(alloc);
    copy.extend_from_slice(tables)?;
    Ok(Seq::of(copy))
}
