// Writes to a handle with its store.
ghost use Rattle.std.specs.Prelude.{◌≡◌, ℤ, [], IfErr, IfSome, None, Err, Option, OnOk};
ghost use Rattle.std.specs.Option.{option_copied};
ghost use Rattle.slate_model.specs.Segments.{Extractor, IsExtractor};
ghost use Rattle.slate_model.specs.Write.{Writes, WritesByAny};
ghost use Rattle.slate_writer.specs.Refusal.{answer_of};
ghost use Rattle.slate_held.specs.Moments.{IsSecond, is_of_clock};

use crate::Held;
use slate_errors::SlateError;
use slate_store::Store;
use slate_types::{MergeOperator, PrefixExtractor, WriteBatch};
use slate_writer::{WriteRefusal, Written};
use std::alloc::Global;

impl<S: Store> Held<S> {
    /// Accepts a batch at this moment, in milliseconds, as `WriterState::write` does. Where that is below the creation time
    /// of the batch before, and nothing else refuses the batch, `again` is asked for a second moment.
    pub fn write<E: PrefixExtractor, F: FnOnce() -> i64>(
        &mut self,
        alloc: Global,
        batch: WriteBatch,
        moment: i64,
        again: F,
        extractor: Option<&E>,
    ) -> Result<Written, WriteRefusal>
        requires { F.pre again }
        ensures does { (x : Option Extractor) → IsExtractor E.may_name E.may_extract (option_copied extractor.entry) x →
            (second : Option ℤ) × IsSecond (F.post again) x self.old.handle batch.ops moment second
            × Writes x self.old.handle batch.ops moment second (answer_of result) self.new.handle }
        ensures by_any { (second : Option ℤ) × IfSome second (F.post again) × WritesByAny [] self.old.handle batch.ops moment second (answer_of result) self.new.handle }
        ensures store { self.new.store ≡ self.old.store }
        ensures handed_back { IfErr result (λ r. r.batch ≡ batch) }
    {
        let refusal = match self.writer.write(alloc, batch, moment, None, extractor) {
            Ok(written) => return Ok(written),
            Err(refusal) => refusal,
        };
        if !is_of_clock(&refusal.error) {
            return Err(refusal);
        }
        let second = Some(again());
        let batch = batch_of(refusal);
        self.writer.write(alloc, batch, moment, second, extractor)
    }
}

/// Whether an error says that a moment lies below the tick.
fn is_of_clock(error: &SlateError) -> bool
    ensures { result ≡ is_of_clock error.now }
{
    matches!(error, SlateError::InvalidClockTick { .. })
}

/// The batch that a refusal hands back.
fn batch_of(refusal: WriteRefusal) -> WriteBatch
    ensures { result ≡ refusal.batch }
{
    refusal.batch
}

/// The refusal of a `merge` where there is no operator.
pub fn require_operator<M: MergeOperator>(operator: Option<&M>) -> Result<(), SlateError>
    ensures missing { option_copied operator.entry ≡ None → result ≡ Err SlateError.MergeOperatorMissing }
    ensures there { (option_copied operator.entry ≡ None → ⊥) → OnOk result (Unit {0}) }
{
    match operator {
        None => Err(SlateError::MergeOperatorMissing),
        Some(_) => Ok(()),
    }
}
