// Manifests, with the table ids and checkpoints in them.
ghost use Rattle.std.specs.Prelude.{◌≡◌, IfOk};
ghost use Rattle.std.specs.Option.{option_copied};

use bytes::Bytes;
use slate_types::{Name, NoMemory, Seq};
use uuid::Uuid;

/// The id of a table: the epoch of the writer that put it, and that writer's count of tables before.
#[derive(Clone, Copy, Debug, PartialEq, Eq, PartialOrd, Ord)]
pub struct TableId {
    pub epoch: u64,
    pub index: u64,
}

/// A manifest that is kept, with what it protects, until its lease ends. Times are in milliseconds.
#[derive(Clone, Copy, Debug, PartialEq, Eq)]
pub struct Checkpoint {
    pub id: Uuid,
    /// The manifest that is kept.
    pub manifest_id: u64,
    pub create_ms: i64,
    /// The moment at which the lease ends, where it does.
    pub expire_ms: Option<i64>,
}

/// The state of a database: which tables and log files it is made of, and who may write to it.
#[derive(Debug, PartialEq, Eq, Drop)]
pub struct Manifest {
    /// The epoch of the handle that may write. A handle with a lower one is fenced.
    pub writer_epoch: u64,
    pub initialized: bool,
    /// The tables, oldest first.
    pub tables: Seq<TableId>,
    /// The number of the last batch in the tables.
    pub last_l0_seq: u64,
    /// The greatest creation time in the tables, in milliseconds.
    pub last_tick: i64,
    /// The log files up to this id are in the tables: a replay begins after it.
    pub replay_after_wal_id: u64,
    /// The log files below this id, and above the replay mark, were stored when the manifest was put.
    pub next_wal_id: u64,
    pub checkpoints: Seq<Checkpoint>,
    /// The segment prefixes of the keys in the tables, in order.
    pub segments: Seq<Bytes>,
    /// The name of the segment extractor, where there is one.
    pub extractor_name: Option<Name>,
    /// When the batches in the tables were written: the bytes of the tracker of the handle that put the last table.
    /// None stands for a tracker without a pair; a manifest that was put before one had a tracker has it, too.
    pub sequence_tracker: Option<Seq<u8>>,
}

impl Manifest {
    /// The same manifest. Its lists are copied with their own allocators, and its prefixes share their bytes.
    #[tactic(auto, using(crate::proofs::Copies::same_items))]
    pub fn clone(&self) -> Result<Manifest, NoMemory>
        ensures { IfOk result (λ copy. copy ≡ self.now) }
    {
        Ok(Manifest {
            writer_epoch: self.writer_epoch,
            initialized: self.initialized,
            tables: self.tables.clone()?,
            last_l0_seq: self.last_l0_seq,
            last_tick: self.last_tick,
            replay_after_wal_id: self.replay_after_wal_id,
            next_wal_id: self.next_wal_id,
            checkpoints: self.checkpoints.clone()?,
            segments: self.segments.clone()?,
            extractor_name: self.extractor_name.clone()?,
            sequence_tracker: copy_of(self.sequence_tracker.as_ref())?,
        })
    }
}

/// A copy of a list of bytes, where there is one.
#[tactic(auto, using(crate::proofs::Copies::same_items))]
fn copy_of(bytes: Option<&Seq<u8>>) -> Result<Option<Seq<u8>>, NoMemory>
    ensures { IfOk result (λ copy. copy ≡ option_copied bytes.entry) }
{
    match bytes {
        Some(bytes) => Ok(Some(bytes.clone()?)),
        None => Ok(None),
    }
}

/// A manifest under its id. SlateDB's type of this name.
#[derive(Debug, PartialEq, Eq, Drop)]
pub struct VersionedManifest {
    pub id: u64,
    pub manifest: Manifest,
}

impl VersionedManifest {
    /// The same manifest under the same id, as by `Manifest::clone`.
    pub fn clone(&self) -> Result<VersionedManifest, NoMemory>
        ensures { IfOk result (λ copy. copy ≡ self.now) }
    {
        Ok(VersionedManifest {
            id: self.id,
            manifest: self.manifest.clone()?,
        })
    }
}

/// The ids of all objects that a store holds. They rise where the store is sound; a `MemoryStore` always lists them so.
#[derive(Debug, PartialEq, Eq, Drop)]
pub struct Listing {
    pub manifests: Seq<u64>,
    /// The log files.
    pub logs: Seq<u64>,
    pub tables: Seq<TableId>,
}
