// Manifests and prefixes of segments, as calls spell them.
ghost use Rattle.std.specs.Prelude.{IfSome};
ghost use Rattle.slate_status.specs.Segments.{PrefixesRise};

use crate::answers::Answer;
use crate::call_line::CallLine;
use bytes::Bytes;
use slate_status::union;
use slate_store::{Manifest, VersionedManifest};
use slate_types::Seq;
use std::alloc::Global;

/// The prefixes that words spell, up to the next `;`.
pub fn prefixes_of(line: &mut CallLine<'_>) -> Vec<Bytes> {
    let mut prefixes = Vec::new(line.alloc());
    for _ in 0..line.left() {
        if !line.has_more() {
            break;
        }
        prefixes.push(line.bytes()).print(line);
    }
    prefixes
}

/// The same, rising, each once.
pub fn rising(line: &mut CallLine<'_>) -> Option<Seq<Bytes>>
    ensures { IfSome result PrefixesRise }
{
    let prefixes = prefixes_of(line);
    match union(line.alloc(), prefixes.as_slice(), &[]) {
        Ok(rising) => Some(Seq::of(rising)),
        Err(_) => {
            line.no_memory();
            None
        }
    }
}

/// The manifest of a database without tables.
pub fn first_manifest(alloc: Global) -> Manifest {
    Manifest {
        writer_epoch: 1,
        initialized: true,
        tables: Seq::of(Vec::new(alloc)),
        last_l0_seq: 0,
        last_tick: 0,
        replay_after_wal_id: 0,
        next_wal_id: 1,
        checkpoints: Seq::of(Vec::new(alloc)),
        segments: Seq::of(Vec::new(alloc)),
        extractor_name: None,
        sequence_tracker: None,
    }
}

/// The manifest with an id, and with the segments that words spell up to the next `;`.
pub fn manifest_of(id: u64, line: &mut CallLine<'_>) -> VersionedManifest {
    let mut manifest = first_manifest(line.alloc());
    manifest.segments = Seq::of(prefixes_of(line));
    VersionedManifest { id, manifest }
}
