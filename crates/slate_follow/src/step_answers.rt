// What a reader takes of a poll by single calls once that has made them all.
ghost use Rattle.std.specs.Prelude.{◌≡◌, ℕ, List, Option, Err, IfErr, OnOk, OnErr, None, unwrap_or};
ghost use Rattle.std.specs.Option.{option_copied};
ghost use Rattle.slate_model.specs.Begun.{Ended, arrived};
ghost use Rattle.slate_model.specs.Follower.{HasSegments, unsegmented};
ghost use Rattle.slate_model.specs.Segments.{Extractor, IsExtractor};
ghost use Rattle.slate_segments.specs.Refusals.{IsOfSegment};
ghost use Rattle.slate_follow.specs.Stepping.{ArrivalLacks, FitsReader, failed_by};

use crate::FollowerState;
use crate::machines::PollMachine;
use slate_errors::SlateError;
use slate_reads::IndexedTable;
use slate_replay::Replayed;
use slate_store::VersionedManifest;
use slate_types::PrefixExtractor;
use std::alloc::Global;
use std::mem;

impl FollowerState {
    /// Becomes what a poll by single calls came to, whose replay ended so. Where that fails, it is as before.
    pub(crate) fn arrive<E: PrefixExtractor>(
        &mut self,
        alloc: Global,
        machine: &mut PollMachine,
        replayed: Replayed,
        extractor: Option<&E>,
    ) -> Result<(), SlateError>
        requires open_ { self.old.result ≡ None }
        requires fits { FitsReader self.old machine.old }
        requires ended { machine.old.stage ≡ Ended }
        ensures ok { OnOk result (unsegmented self.new ≡ arrived self.old machine.old) }
        ensures err { OnErr result (self.new ≡ self.old) }
        ensures stage { machine.new.stage ≡ machine.old.stage }
        ensures segments { (x : Option Extractor) → IsExtractor E.may_name E.may_extract (option_copied extractor.entry) x → HasSegments x self.old → HasSegments x self.new }
        ensures lacks { (x : Option Extractor) (key : List ℕ) → IsExtractor E.may_name E.may_extract (option_copied extractor.entry) x → result ≡ Err (SlateError.EmptySegmentPrefix key) → ArrivalLacks x self.old machine.old }
        ensures kind { IfErr result IsOfSegment }
    {
        let (lease, mark) = (machine.lease, machine.mark);
        let fresh = mem::replace(&mut machine.fresh, IndexedTable::new(alloc));
        let view = machine.view.take();
        let tabled = self.tabled_by(&view);
        let keeps = machine.keeps;
        let taken = self.taking_up(alloc, keeps, tabled, fresh, mark, replayed, extractor)?;
        self.lease = lease;
        self.install(view, taken);
        Ok(())
    }

    /// The last number in the tables of a manifest, or, where none is given, of the one that it goes by.
    fn tabled_by(&self, view: &Option<VersionedManifest>) -> u64
        ensures { result ≡ (unwrap_or view.now self.now.view).manifest.last_l0_seq }
    {
        match view {
            Some(view) => view.manifest.last_l0_seq,
            None => self.status.manifest().manifest.last_l0_seq,
        }
    }

    /// Is closed by an error of a poll, where it keeps a checkpoint; but for want of memory.
    pub(crate) fn fail_by(&mut self, error: &SlateError)
        requires { self.old.result ≡ None }
        ensures { self.new ≡ failed_by error.now self.old }
    {
        if self.lease.is_some() {
            self.close_by(error);
        }
    }
}
