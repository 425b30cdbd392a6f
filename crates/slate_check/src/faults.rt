// What is wrong with the objects of a store.

use slate_store::TableId;

/// What a manifest names that isn't there.
#[derive(Clone, Copy, Debug, PartialEq, Eq)]
pub enum ManifestFault {
    /// The first of its tables that isn't stored or has no batch: it isn't stored.
    TableMissing(TableId),
    /// The first of its tables that isn't stored or has no batch: it has no batch.
    TableEmpty(TableId),
    /// The next id of a log file isn't above the replay mark.
    NextLog,
    /// The first log file above the replay mark that isn't stored, and is below the next id.
    LogMissing(u64),
    /// The tables, joined in order, don't end at the last number in tables.
    TablesEnd,
}

/// Why a checkpoint isn't pinned.
#[derive(Clone, Copy, Debug, PartialEq, Eq)]
pub enum CheckpointFault {
    /// Its id isn't that of the manifest that it keeps.
    Id,
    /// The manifest that it keeps would come after the latest one.
    Above,
    /// The manifest that it keeps isn't stored.
    Missing,
    /// The manifest that it keeps lacks something.
    Manifest(ManifestFault),
    /// What the manifest that it keeps named when it was put doesn't begin the content.
    Content,
}

/// The first thing that is wrong with the objects of a store, in this order.
#[derive(Clone, Copy, Debug, PartialEq, Eq)]
pub enum SoundnessFault {
    /// The ids of manifests don't rise.
    ManifestIds,
    /// The ids of log files don't rise.
    LogIds,
    /// The ids of tables don't rise.
    TableIds,
    /// There is no manifest, but a log file or a table.
    NoManifest,
    /// The first table whose epoch is above that of the latest manifest.
    TableEpoch(TableId),
    /// The log files above the latest manifest's replay mark have a gap after this id, the first one.
    LogGap(u64),
    /// The latest manifest, which has this id, lacks something.
    Manifest(u64, ManifestFault),
    /// The content isn't numbered one after another: a batch with this number is the first that doesn't go on from the
    /// one before it.
    Numbers(u64),
    /// Two checkpoints keep the manifest with this id, the first such one.
    CheckpointTwice(u64),
    /// The checkpoint that keeps the manifest with this id is the first that isn't pinned.
    Checkpoint(u64, CheckpointFault),
}

/// Whether the objects of a store are sound.
#[derive(Clone, Copy, Debug, PartialEq, Eq)]
pub enum Soundness {
    /// They are, and this is the number of the last stored batch; where there is none, the number before the first.
    Sound(u64),
    /// They aren't, and this is the first thing that is wrong.
    Unsound(SoundnessFault),
}
