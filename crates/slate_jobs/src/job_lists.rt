// The jobs of a machine, with an index of when each may be claimed.
ghost use Rattle.std.specs.Prelude.{◌≡◌, ◌≤◌, ◌<◌, List, Option, Some, true, length, IfOk, IfSome, OnOk};
ghost use Rattle.slate_jobs.specs.JobLists.{IsRenoted, changed_place, turns_of};
ghost use Rattle.slate_jobs.specs.Machine.{first_claimable, jobs_after};
ghost use Rattle.slate_jobs.specs.declared.turns.Turn.{Turn as ATurn};

use crate::effects::{Change, first_claimable, make};
use crate::jobs::Job;
use crate::turns::{Turn, Turns};
use slate_types::NoMemory;
use std::alloc::Global;
use std::marker::Model;

/// The jobs of a machine. A contract sees them, and whether there is room for one more.
#[derive(Drop)]
pub(crate) struct JobList {
    jobs: Vec<Job>,
    /// When each may be claimed; none before the first change is prepared, and after want of memory in one.
    turns: Option<Turns>,
}

impl Model for JobList {
    ghost use Rattle.std.specs.Prelude.{length, nat_lt};
    ghost use Rattle.std.specs.Vec.{vec_capacity};
    ghost use Rattle.slate_jobs.specs.JobLists.{AreNoted, Listed};

    ghost Value = { Listed };

    ghost view = { λ l. record { items = l.jobs.items; has_room = nat_lt (length l.jobs.items) (vec_capacity l.jobs) } };

    ghost invariant = { λ l. AreNoted l.jobs.items l.turns };
}

impl JobList {
    /// These jobs.
    pub(crate) fn of(jobs: Vec<Job>) -> JobList
        ensures { result.items ≡ jobs.items }
    {
        JobList { jobs, turns: None }
    }

    /// The jobs, each at the place of its number.
    pub(crate) fn as_slice(&self) -> &[Job]
        ensures { result.now ≡ self.now.items }
    {
        self.jobs.as_slice()
    }

    /// Makes room for one more job, and notes when each may be claimed, where that isn't noted.
    pub(crate) fn prepare(&mut self, alloc: Global) -> Result<(), NoMemory>
        ensures room { OnOk result (self.new.has_room ≡ true) }
        ensures kept { self.new.items ≡ self.old.items }
    {
        self.jobs.reserve(1)?;
        if self.turns.is_none() {
            self.turns = Some(note(alloc, self.jobs.as_slice())?);
        }
        Ok(())
    }

    /// The place of the least job that may be claimed at a moment. It takes a logarithm of the jobs, once a change is prepared.
    pub(crate) fn first_claimable(&self, moment: i64) -> Option<usize>
        ensures place { result ≡ first_claimable self.now.items moment }
        ensures within { IfSome result (λ place. place < length self.now.items) }
    {
        match &self.turns {
            Some(turns) => turns.first(moment),
            None => first_claimable(self.jobs.as_slice(), moment),
        }
    }

    /// Makes a change. There is room for one more job.
    pub(crate) fn make(&mut self, alloc: Global, change: Change)
        requires { self.old.has_room ≡ true }
        ensures { self.new.items ≡ jobs_after self.old.items change }
    {
        let place = changed_place(self.jobs.len(), &change);
        make(&mut self.jobs, change);
        self.turns = renote(alloc, self.turns.take(), self.jobs.as_slice(), place);
    }
}

/// When each of these jobs may be claimed.
fn note(alloc: Global, jobs: &[Job]) -> Result<Turns, NoMemory>
    ensures { IfOk result (λ turns. turns ≡ turns_of jobs.now) }
{
    let mut turns = Turns::new(alloc);
    for (place, job) in jobs.iter().enumerate() {
        turns.put(alloc, place, Turn::of(job.state))?;
    }
    Ok(turns)
}

/// The place that a change of so many jobs changes.
fn changed_place(count: usize, change: &Change) -> Option<usize>
    ensures { result ≡ changed_place count change.now }
{
    match change {
        Change::Adds(_) => Some(count),
        Change::Moves(number, _) if (*number as usize) < count => Some(*number as usize),
        _ => None,
    }
}

/// When jobs may be claimed once the one at a place has changed; nothing, where it isn't noted, or memory runs out.
fn renote(alloc: Global, turns: Option<Turns>, jobs: &[Job], place: Option<usize>) -> Option<Turns>
    requires within { IfSome place (λ at. at < length jobs.now) }
    requires upto { IfSome turns (λ old. IfSome place (λ at. at ≤ length old)) }
    ensures { IfSome result (λ new. (old : List ATurn) × (turns ≡ Some old) × IsRenoted jobs.now place old new) }
{
    let mut turns = turns?;
    if let Some(place) = place {
        turns.put(alloc, place, Turn::of(jobs[place].state)).ok()?;
    }
    Some(turns)
}
