// The batches that a manifest names, as references to those of its tables and log files.
ghost use Rattle.std.specs.Prelude.{◌≡◌, ◌↔◌, ◌+◌, ◌++◌, IsTrue, IfOk, OnOk, MatchOption};
ghost use Rattle.std.specs.List.{flat_map};
ghost use Rattle.slate_types.specs.Line.{IsLine, IsPrefix, batches_above, end};
ghost use Rattle.slate_store.specs.Content.{number_before};
ghost use Rattle.slate_check.specs.Named.{EndAt, IsFirstUnnumbered, batch_list, line_of, named_line};

use crate::batches::begin;
use slate_reads::Table;
use slate_store::{LogFile, Manifest};
use slate_types::{Batch, NoMemory};
use std::alloc::Global;

/// The line that a manifest names: the number before its first batch, and its batches in order.
#[derive(Drop)]
pub(crate) struct Named<'a> {
    floor: u64,
    batches: Vec<&'a Batch>,
}

impl<'a> Named<'a> {
    /// What a manifest names that has these tables and these log files above its replay mark. None where the tables
    /// don't end at the manifest's last number in tables. It copies no batch.
    pub(crate) fn new(
        alloc: Global,
        last_in_tables: u64,
        tables: &'a [Table],
        logs: &'a [LogFile],
    ) -> Result<Option<Named<'a>>, NoMemory>
        ensures { IfOk result (λ found. MatchOption found (¬ EndAt last_in_tables (flat_map (λ table. table) tables.now))
            (λ named. EndAt last_in_tables (flat_map (λ table. table) tables.now)
            × (line_of named.floor named.batches.items ≡ named_line last_in_tables (flat_map (λ table. table) tables.now) (flat_map (λ log. log) logs.now)))) }
    {
        let mut batches = joined(alloc, tables)?;
        let floor = number_before(batches.as_slice(), last_in_tables);
        if !is_apart(floor, batches.len(), last_in_tables) {
            return Ok(None);
        }
        add_logged(&mut batches, logs, last_in_tables)?;
        Ok(Some(Named { floor, batches }))
    }

    /// The number of the first batch that doesn't go on from the one before it, where there is one.
    pub(crate) fn find_unnumbered(&self) -> Option<u64>
        ensures { MatchOption result (IsLine (line_of self.now.floor self.now.batches.items)) (IsFirstUnnumbered (line_of self.now.floor self.now.batches.items)) }
    {
        let mut before = self.floor;
        for batch in &self.batches {
            if batch.number == 0 {
                return Some(0);
            }
            if batch.number - 1 != before {
                return Some(batch.number);
            }
            before = batch.number;
        }
        None
    }

    /// The number of its last batch; that before its first, where there is none.
    pub(crate) fn end(&self) -> u64
        requires { IsLine (line_of self.now.floor self.now.batches.items) }
        ensures { result ≡ end (line_of self.now.floor self.now.batches.items) }
    {
        match self.batches.last() {
            Some(batch) => batch.number,
            None => self.floor,
        }
    }

    /// Whether it begins another one.
    pub(crate) fn begins(&self, other: &Named) -> bool
        ensures { IsTrue result ↔ IsPrefix (line_of self.now.floor self.now.batches.items) (line_of other.now.floor other.now.batches.items) }
    {
        self.floor == other.floor && begin(self.batches.as_slice(), other.batches.as_slice())
    }
}

/// The batches of tables, joined in this order.
fn joined(alloc: Global, tables: &[Table]) -> Result<Vec<&Batch>, NoMemory>
    ensures { IfOk result (λ batches. batch_list batches.items ≡ flat_map (λ table. table) tables.now) }
{
    let mut batches = Vec::new(alloc);
    for table in tables {
        add_all(&mut batches, table.batches())?;
    }
    Ok(batches)
}

/// Adds these batches.
fn add_all<'a>(batches: &mut Vec<&'a Batch>, others: &'a [Batch]) -> Result<(), NoMemory>
    ensures { OnOk result (batch_list batches.new.items ≡ batch_list batches.old.items ++ others.now) }
{
    for batch in others {
        batches.push(batch)?;
    }
    Ok(())
}

/// Adds those batches of log files whose number is above this one.
fn add_logged<'a>(
    batches: &mut Vec<&'a Batch>,
    logs: &'a [LogFile],
    number: u64,
) -> Result<(), NoMemory>
    ensures { OnOk result (batch_list batches.new.items ≡ batch_list batches.old.items ++ batches_above number (flat_map (λ log. log) logs.now)) }
{
    for log in logs {
        add_above(batches, log.batches(), number)?;
    }
    Ok(())
}

/// Adds those of these batches whose number is above this one.
fn add_above<'a>(
    batches: &mut Vec<&'a Batch>,
    others: &'a [Batch],
    number: u64,
) -> Result<(), NoMemory>
    ensures { OnOk result (batch_list batches.new.items ≡ batch_list batches.old.items ++ batches_above number others.now) }
{
    for batch in others {
        if batch.number > number {
            batches.push(batch)?;
        }
    }
    Ok(())
}

/// The number before the first of these batches, or another where there is none.
fn number_before(batches: &[&Batch], otherwise: u64) -> u64
    ensures { result ≡ number_before (batch_list batches.now) otherwise }
{
    match batches.first() {
        Some(batch) => batch.number.saturating_sub(1),
        None => otherwise,
    }
}

/// Whether so many batches lead from one number to another.
fn is_apart(floor: u64, count: usize, last: u64) -> bool
    ensures { IsTrue result ↔ (floor + count ≡ last) }
{
    floor <= last && last - floor == count as u64
}
