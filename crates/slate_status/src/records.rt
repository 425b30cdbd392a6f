// Recording reports of a database's status, and answering waits for durable numbers.
ghost use Rattle.std.specs.Prelude.{◌≡◌, ◌↔◌, ℕ, List, true, None, [], if◌then◌else◌, IsTrue, IfOk, OnErr};
ghost use Rattle.slate_status.specs.Records.{reason_for};

use crate::segments::{are_among, copies, union};
use crate::{DbStatus, DurableAnswer};
use bytes::Bytes;
use slate_errors::{CloseCell, CloseFault, CloseReason, SlateError};
use slate_store::VersionedManifest;
use slate_types::{NoMemory, Seq};
use std::alloc::Global;
use std::marker::Model;

/// The status of a database with its version, and the result with which it closed. Each report that changes the status
/// raises the version by one and answers true, and so does each `report_fence_manifest`; every other report changes
/// nothing and answers false. At the greatest `u64` the version stays, and counts as risen.
#[derive(Debug)]
pub struct StatusRecord {
    version: u64,
    durable: u64,
    manifest: VersionedManifest,
    segments: Seq<Bytes>,
    closed: CloseCell,
}

impl Drop for StatusRecord {
    fn drop(self) {
        let StatusRecord {
            version: _,
            durable: _,
            manifest: _,
            segments: _,
            closed: _,
        } = self;
    }
}

impl Model for StatusRecord {
    ghost use Rattle.slate_status.specs.Records.{Record};
    ghost use Rattle.slate_status.specs.Segments.{PrefixesRise};

    ghost Value = { Record };

    ghost view = { λ r. record { version = r.version; durable = r.durable; manifest = r.manifest; segments = r.segments; result = r.closed } };

    ghost invariant = { λ r. PrefixesRise r.segments };
}

impl StatusRecord {
    ghost use Rattle.slate_status.specs.Records.{Record, Reports, TakesReport, durable_answer, risen, status_of, with_durable, with_manifest, with_result, with_segments, with_view};
    ghost use Rattle.slate_status.specs.Segments.{PrefixesRise, IsUnion};

    /// The record of version 0, of this durable number and manifest, without a prefix and a result. It takes no memory.
    pub fn new(alloc: Global, durable: u64, manifest: VersionedManifest) -> StatusRecord
        ensures { result ≡ record { version = 0; durable = durable; manifest = manifest; segments = []; result = None } }
    {
        StatusRecord {
            version: 0,
            durable,
            manifest,
            segments: Seq::of(Vec::new(alloc)),
            closed: CloseCell::new(),
        }
    }

    /// How often a report changed the status. It takes no memory.
    pub fn version(&self) -> u64
        ensures { result ≡ self.now.version }
    {
        self.version
    }

    /// The batches up to this number are durable. It takes no memory.
    pub fn durable(&self) -> u64
        ensures { result ≡ self.now.durable }
    {
        self.durable
    }

    /// The manifest, which isn't copied.
    pub fn manifest(&self) -> &VersionedManifest
        ensures { result.now ≡ self.now.manifest }
    {
        &self.manifest
    }

    /// A copy of the status. Its prefixes are rising, each there once.
    pub fn status(&self, alloc: Global) -> Result<DbStatus, NoMemory>
        ensures status { IfOk result (λ status. status ≡ status_of self.now) }
        ensures rising { IfOk result (λ status. PrefixesRise status.memtable_segments) }
    {
        Ok(DbStatus {
            durable_seq: self.durable,
            current_manifest: self.manifest.clone()?,
            memtable_segments: Seq::of(copies(alloc, self.segments.as_slice())?),
            close_reason: self.closed.read().map(reason_for),
        })
    }

    /// The result with which it closed, where it did. It takes no memory.
    pub fn result(&self) -> Option<Result<(), CloseFault>>
        ensures { result ≡ self.now.result }
    {
        self.closed.read()
    }

    /// Reports what an opening found: this durable number and manifest, whatever was there before. It always raises the
    /// version. It takes no memory.
    pub fn report_fence_manifest(&mut self, durable: u64, manifest: VersionedManifest) -> bool
        ensures rose { result ≡ true }
        ensures record_ { self.new ≡ risen (record self.old { durable = durable; manifest = manifest }) }
    {
        self.durable = durable;
        self.manifest = manifest;
        self.report(true)
    }

    /// Reports that the batches up to this number are durable. A number that isn't above the present one changes
    /// nothing. It takes no memory.
    pub fn report_durable_seq(&mut self, number: u64) -> bool
        ensures { Reports self.old (with_durable number self.old) self.new result }
    {
        if number <= self.durable {
            return false;
        }
        self.durable = number;
        self.report(true)
    }

    /// Reports a manifest. One with a lower id than the present one, or that equals it, changes nothing. It takes no
    /// memory.
    pub fn report_manifest(&mut self, manifest: VersionedManifest) -> bool
        ensures { Reports self.old (with_manifest manifest self.old) self.new result }
    {
        let changed = self.take_manifest(manifest);
        self.report(changed)
    }

    /// Reports a durable number and a manifest as they were read, as one change, also where one of them is lower than
    /// the present one. Where both equal the present ones, nothing changes. The manifest is moved in and compared with
    /// the present one; it takes no memory.
    pub fn report_view(&mut self, durable: u64, manifest: VersionedManifest) -> bool
        ensures reports { Reports self.old (with_view durable manifest self.old) self.new result }
        ensures view { self.new ≡ record (with_view durable manifest self.old) { version = self.new.version } }
    {
        let changed = durable != self.durable || !is_same_manifest(&manifest, &self.manifest);
        self.durable = durable;
        self.manifest = manifest;
        self.report(changed)
    }

    /// Reports the prefixes of the segments that batches outside of tables are in, rising, each once. Prefixes that
    /// equal the present ones change nothing. It takes no memory.
    pub fn report_memtable_segments(&mut self, prefixes: Seq<Bytes>) -> bool
        requires { PrefixesRise prefixes }
        ensures { Reports self.old (with_segments prefixes self.old) self.new result }
    {
        let changed = self.take_segments(prefixes);
        self.report(changed)
    }

    /// Reports a manifest and prefixes together, each as its own report takes it, as one change. It takes no memory.
    pub fn report_manifest_and_memtable_segments(
        &mut self,
        manifest: VersionedManifest,
        prefixes: Seq<Bytes>,
    ) -> bool
        requires { PrefixesRise prefixes }
        ensures { Reports self.old (with_segments prefixes (with_manifest manifest self.old)) self.new result }
    {
        let manifest_changed = self.take_manifest(manifest);
        let segments_changed = self.take_segments(prefixes);
        self.report(manifest_changed || segments_changed)
    }

    /// Adds prefixes of segments, in any order, to the present ones. Where each is there already it changes nothing and
    /// takes no memory, after one search for each; else it copies the present ones. Where memory runs out, nothing was
    /// changed.
    pub fn add_memtable_segments(
        &mut self,
        alloc: Global,
        prefixes: &[Bytes],
    ) -> Result<bool, NoMemory>
        ensures ok { IfOk result (λ rose. (added : List (List ℕ)) × IsUnion self.old.segments prefixes.now added
            × Reports self.old (with_segments added self.old) self.new rose) }
        ensures err { OnErr result (self.new ≡ self.old) }
    {
        let present = self.segments.as_slice();
        if are_among(prefixes, present) {
            return Ok(false);
        }
        let segments = union(alloc, present, prefixes)?;
        Ok(self.report_memtable_segments(Seq::of(segments)))
    }

    /// Reports the result with which it closed. The first one stays, and later ones change nothing. It takes no memory.
    pub fn report_closed(&mut self, outcome: Result<(), CloseFault>) -> bool
        ensures reports { Reports self.old (with_result outcome self.old) self.new result }
        ensures closed { self.new ≡ record (with_result outcome self.old) { version = self.new.version } }
    {
        let first = self.closed.write(outcome);
        self.report(first)
    }

    /// What the wait for a number is answered: `Durable` exactly where the durable number reaches it; else `Pending`
    /// exactly where nothing is closed; else `Closed` or the recorded error. It takes no memory.
    pub fn durable_answer(&self, seq: u64) -> DurableAnswer
        ensures { result ≡ durable_answer seq self.now }
    {
        if seq <= self.durable {
            return DurableAnswer::Durable;
        }
        match self.closed.read() {
            None => DurableAnswer::Pending,
            Some(result) => DurableAnswer::Failed(SlateError::of_closed(result)),
        }
    }

    // Takes a manifest unless its id is too low, and answers whether it differs from the present one.
    fn take_manifest(&mut self, manifest: VersionedManifest) -> bool
        ensures { TakesReport self.old (with_manifest manifest self.old) self.new result }
    {
        if manifest.id < self.manifest.id || is_same_manifest(&manifest, &self.manifest) {
            return false;
        }
        self.manifest = manifest;
        true
    }

    // Takes prefixes, and answers whether they differ from the present ones.
    fn take_segments(&mut self, prefixes: Seq<Bytes>) -> bool
        requires { PrefixesRise prefixes }
        ensures { TakesReport self.old (with_segments prefixes self.old) self.new result }
    {
        if are_same_prefixes(prefixes.as_slice(), self.segments.as_slice()) {
            return false;
        }
        self.segments = prefixes;
        true
    }

    // Raises the version where the status changed.
    fn report(&mut self, changed: bool) -> bool
        ensures answer { result ≡ changed }
        ensures version { self.new ≡ (if changed then risen self.old else self.old) }
        ensures others { self.new ≡ record self.old { version = self.new.version } }
    {
        if changed {
            self.version = self.version.saturating_add(1);
        }
        changed
    }
}

// Why something closed with this result.
fn reason_for(outcome: Result<(), CloseFault>) -> CloseReason
    ensures { result ≡ reason_for outcome }
{
    match outcome {
        Ok(()) => CloseReason::Clean,
        Err(fault) => CloseReason::from(SlateError::from(fault).kind()),
    }
}

fn is_same_manifest(one: &VersionedManifest, other: &VersionedManifest) -> bool
    ensures { IsTrue result ↔ (one.now ≡ other.now) }
{
    one == other
}

fn are_same_prefixes(some: &[Bytes], others: &[Bytes]) -> bool
    ensures { IsTrue result ↔ (some.now ≡ others.now) }
{
    some == others
}
