// What a poll found: it is made as a whole, and then the reader has it, which can't fail.
ghost use Rattle.std.specs.Prelude.{◌≡◌, ◌⊎◌, ◌+◌, ◌<◌, ◌≤◌, ◌^◌, ◌++◌, ℕ, List, [], Option, Err, IfErr, IfOk, true, if◌then◌else◌, length, unwrap_or};
ghost use Rattle.std.specs.Option.{option_copied};
ghost use Rattle.slate_types.specs.Line.{AreNumberedFrom, batches_above};
ghost use Rattle.slate_model.specs.Follow.{AnswersAt};
ghost use Rattle.slate_model.specs.Follower.{HasSegments, number};
ghost use Rattle.slate_model.specs.Segments.{Extractor, IsExtractor, segments_of};
ghost use Rattle.slate_replay.specs.Replay.{line_of};
ghost use Rattle.slate_segments.specs.Refusals.{IsOfSegment};
ghost use Rattle.slate_follow.specs.Joined.{joined};
ghost use Rattle.slate_follow.specs.Rebuilding.{Lacks, answer_of};
ghost use Rattle.slate_follow.specs.Takings.{HasOwn, installed};

use crate::memory_segments::{segments_in, with_segments};
use crate::rebuilds::answer_of;
use crate::tables::{add_table, join_newest, list_of, tables_above};
use crate::{FollowerState, PollAnswer};
use bytes::Bytes;
use slate_errors::SlateError;
use slate_reads::{IndexedTable, Table};
use slate_replay::Replayed;
use slate_segments::replayed_segments;
use slate_store::VersionedManifest;
use slate_types::{Batch, PrefixExtractor, Seq};
use std::alloc::Global;
use std::marker::Model;

/// What a poll found, before the reader has it: the tables that this keeps then, the number before their first batch and that of
/// their last one, their prefixes, up to which log file they are replayed, and how that ended.
#[derive(Drop)]
pub(crate) struct Taken {
    tabled: u64,
    tables: Vec<Table>,
    number: u64,
    segments: Seq<Bytes>,
    mark: u64,
    replayed: Replayed,
}

impl Model for Taken {
    ghost use Rattle.slate_follow.specs.Takings.{Taking};

    ghost Value = { Taking };

    ghost use Rattle.slate_follow.specs.Takings.{taking_of, IsTaken};

    ghost view = { taking_of };

    ghost invariant = { IsTaken };
}

impl FollowerState {
    /// What it takes that has fresh batches after its own: those of both that aren't in tables, which end with a number. It
    /// shares its tables, but for one of which some batches are in those, and but for the small ones that are joined.
    pub(crate) fn taking_after<E: PrefixExtractor>(
        &self,
        alloc: Global,
        tabled: u64,
        fresh: IndexedTable,
        mark: u64,
        replayed: Replayed,
        extractor: Option<&E>,
    ) -> Result<Taken, SlateError>
        requires numbered { AreNumberedFrom (number self.now) fresh }
        requires fits { number self.now + length fresh < 2 ^ 64 }
        requires low { self.now.view.manifest.last_l0_seq ≤ tabled }
        requires high { tabled ≤ number self.now + length fresh }
        ensures line { IfOk result (λ taken. taken.line ≡ line_of tabled (batches_above tabled (self.now.line.batches ++ fresh))) }
        ensures found { IfOk result (λ taken. (taken.mark ≡ mark) × (taken.replayed ≡ replayed)) }
        ensures segments { (x : Option Extractor) → IsExtractor E.may_name E.may_extract (option_copied extractor.entry) x → HasSegments x self.now → IfOk result (HasOwn x) }
        ensures lacks { (x : Option Extractor) (key : List ℕ) → IsExtractor E.may_name E.may_extract (option_copied extractor.entry) x → result ≡ Err (SlateError.EmptySegmentPrefix key) →
            (first : List ℕ) × Lacks x (batches_above tabled (self.now.line.batches ++ fresh)) first }
        ensures kind { IfErr result IsOfSegment }
    {
        let mut fresh = fresh;
        let number = self.number + fresh.batches().len() as u64;
        fresh.drop_through(tabled);
        let mut tables = tables_above(alloc, self.kept.as_slice(), tabled)?;
        let (own, more) = (tables.as_slice(), fresh.batches());
        let segments = self.segments_after(alloc, extractor, tabled, own, more)?;
        add_table(alloc, &mut tables, self.limit, fresh)?;
        Ok(Taken {
            tabled,
            tables,
            number,
            segments: Seq::of(segments),
            mark,
            replayed,
        })
    }

    /// What it takes that has fresh batches, after its own where it keeps these.
    pub(crate) fn taking_up<E: PrefixExtractor>(
        &self,
        alloc: Global,
        keeps: bool,
        tabled: u64,
        fresh: IndexedTable,
        mark: u64,
        replayed: Replayed,
        extractor: Option<&E>,
    ) -> Result<Taken, SlateError>
        requires numbered { (floor : ℕ) × AreNumberedFrom floor fresh × (floor + length fresh < 2 ^ 64) × (keeps ≡ true → floor ≡ number self.now)
            × ((if keeps then self.now.view.manifest.last_l0_seq else floor) ≤ tabled) × (tabled ≤ floor + length fresh) }
        ensures line { IfOk result (λ taken. taken.line ≡ line_of tabled (batches_above tabled ((if keeps then self.now.line.batches else []) ++ fresh))) }
        ensures found { IfOk result (λ taken. (taken.mark ≡ mark) × (taken.replayed ≡ replayed)) }
        ensures segments { (x : Option Extractor) → IsExtractor E.may_name E.may_extract (option_copied extractor.entry) x → HasSegments x self.now → IfOk result (HasOwn x) }
        ensures lacks { (x : Option Extractor) (key : List ℕ) → IsExtractor E.may_name E.may_extract (option_copied extractor.entry) x → result ≡ Err (SlateError.EmptySegmentPrefix key) →
            (first : List ℕ) × Lacks x (batches_above tabled ((if keeps then self.now.line.batches else []) ++ fresh)) first }
        ensures kind { IfErr result IsOfSegment }
    {
        if keeps {
            self.taking_after(alloc, tabled, fresh, mark, replayed, extractor)
        } else {
            taking_anew(alloc, tabled, fresh, mark, replayed, extractor)
        }
    }

    /// The segments of its tables that are left above a number, and of fresh batches after them. It looks at its own batches only where
    /// the tables of its manifest don't end there.
    fn segments_after<E: PrefixExtractor>(
        &self,
        alloc: Global,
        extractor: Option<&E>,
        tabled: u64,
        left: &[Table],
        fresh: &[Batch],
    ) -> Result<Vec<Bytes>, SlateError>
        requires left { joined left.now ≡ batches_above tabled self.now.line.batches }
        ensures ok { (x : Option Extractor) → IsExtractor E.may_name E.may_extract (option_copied extractor.entry) x → HasSegments x self.now → IfOk result (λ segments.
            segments.items ≡ segments_of x (joined left.now ++ fresh.now)) }
        ensures err { (x : Option Extractor) → IsExtractor E.may_name E.may_extract (option_copied extractor.entry) x → IfErr result (λ error.
            (error ≡ SlateError.NoMemory) ⊎ ((key : List ℕ) × Lacks x (joined left.now ++ fresh.now) key)) }
        ensures kind { IfErr result IsOfSegment }
    {
        if tabled == self.status.manifest().manifest.last_l0_seq {
            return with_segments(alloc, extractor, self.segments.as_slice(), fresh);
        }
        let own = segments_in(alloc, extractor, left)?;
        with_segments(alloc, extractor, own.as_slice(), fresh)
    }

    /// Has what a poll found in place of what it had, and goes by a manifest, where one is given. It answers as the poll does.
    pub(crate) fn install(&mut self, view: Option<VersionedManifest>, taken: Taken) -> PollAnswer
        requires { taken.line.floor ≡ (unwrap_or view self.old.view).manifest.last_l0_seq }
        ensures becomes { self.new ≡ installed (unwrap_or view self.old.view) taken self.old }
        ensures answer { result ≡ answer_of taken.replayed (number self.new) }
        ensures at { AnswersAt (number self.new) result }
    {
        let Taken {
            tabled: _,
            tables,
            number,
            segments,
            mark,
            replayed,
        } = taken;
        self.kept = tables;
        join_newest(&mut self.kept, self.limit);
        self.number = number;
        self.segments = segments;
        self.mark = mark;
        if let Some(view) = view {
            self.status.report_view(number, view);
        }
        answer_of(replayed, number)
    }
}

/// What a reader takes that has fresh batches in place of its own: those that aren't in tables, which end with a number.
pub(crate) fn taking_anew<E: PrefixExtractor>(
    alloc: Global,
    tabled: u64,
    fresh: IndexedTable,
    mark: u64,
    replayed: Replayed,
    extractor: Option<&E>,
) -> Result<Taken, SlateError>
    requires numbered { (floor : ℕ) × AreNumberedFrom floor fresh × (floor + length fresh < 2 ^ 64) × (floor ≤ tabled) × (tabled ≤ floor + length fresh) }
    ensures line { IfOk result (λ taken. taken.line ≡ line_of tabled (batches_above tabled fresh)) }
    ensures found { IfOk result (λ taken. (taken.mark ≡ mark) × (taken.replayed ≡ replayed)) }
    ensures segments { (x : Option Extractor) → IsExtractor E.may_name E.may_extract (option_copied extractor.entry) x → IfOk result (HasOwn x) }
    ensures lacks { (x : Option Extractor) (key : List ℕ) → IsExtractor E.may_name E.may_extract (option_copied extractor.entry) x → result ≡ Err (SlateError.EmptySegmentPrefix key) →
        Lacks x (batches_above tabled fresh) key }
    ensures kind { IfErr result IsOfSegment }
{
    let mut fresh = fresh;
    fresh.drop_through(tabled);
    let number = tabled + fresh.batches().len() as u64;
    let segments = replayed_segments(alloc, extractor, fresh.batches())?;
    let tables = list_of(alloc, fresh)?;
    Ok(Taken {
        tabled,
        tables,
        number,
        segments: Seq::of(segments),
        mark,
        replayed,
    })
}
