// The status of a database, its segments, and the answers to a wait.
ghost use Rattle.std.specs.Prelude.{◌≡◌, IfOk, map};
ghost use Rattle.slate_status.specs.Segments.{IsUnion, segments_of};

use crate::SegmentPrefix;
use crate::segments::{segments_of, union};
use bytes::Bytes;
use slate_errors::{CloseReason, SlateError};
use slate_store::VersionedManifest;
use slate_types::{NoMemory, Seq};
use std::alloc::Global;

/// The status of a database, or of a reader. SlateDB's type of this name.
#[derive(Debug, PartialEq, Eq, Drop)]
pub struct DbStatus {
    /// The batches up to this number are durable. Of a reader it is the number of its last batch.
    pub durable_seq: u64,
    /// The manifest by which it reads.
    pub current_manifest: VersionedManifest,
    /// The prefixes of the segments that its batches outside of tables are in.
    pub memtable_segments: Seq<Bytes>,
    /// Why it closed, where it did.
    pub close_reason: Option<CloseReason>,
}

impl DbStatus {
    /// The segments of the manifest's tables and of the batches outside of them, by rising prefix, each once. It takes
    /// n log n comparisons, for n prefixes in both.
    pub fn list_segments(&self, alloc: Global) -> Result<Seq<SegmentPrefix>, NoMemory>
        ensures union { IfOk result (λ segments. IsUnion self.now.current_manifest.manifest.segments self.now.memtable_segments
            (map (λ segment. segment.prefix) segments)) }
        ensures set { IfOk result (λ segments. map (λ segment. segment.prefix) segments ≡ segments_of self.now) }
    {
        let stored = self.current_manifest.manifest.segments.as_slice();
        let prefixes = union(alloc, stored, self.memtable_segments.as_slice())?;
        Ok(Seq::of(segments_of(alloc, prefixes)?))
    }

    /// The same status. Its lists are copied with their own allocators, and its prefixes share their bytes.
    #[tactic(auto, using(slate_store::proofs::Copies::same_items))]
    pub fn clone(&self) -> Result<DbStatus, NoMemory>
        ensures { IfOk result (λ copy. copy ≡ self.now) }
    {
        Ok(DbStatus {
            durable_seq: self.durable_seq,
            current_manifest: self.current_manifest.clone()?,
            memtable_segments: self.memtable_segments.clone()?,
            close_reason: self.close_reason,
        })
    }
}

/// What the wait for a number to be durable is answered.
#[derive(Debug, Drop)]
pub enum DurableAnswer {
    /// It is durable.
    Durable,
    /// It isn't durable yet.
    Pending,
    /// It was closed before the number was durable. This is what a call on it answers.
    Failed(SlateError),
}
