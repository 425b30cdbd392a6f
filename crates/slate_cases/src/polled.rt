// A reader, and the poll of it that makes its calls one by one.
ghost use Rattle.std.specs.Prelude.{None};

use slate_errors::SlateError;
use slate_follow::{FollowerState, PollAnswer, PollMachine};
use slate_store::Store;
use slate_types::PrefixExtractor;
use std::alloc::Global;
use std::marker::Model;

/// A reader, with its begun poll, where there is one: that has a call to make, and is of the reader as it is.
pub struct PolledReader {
    reader: FollowerState,
    machine: Option<PollMachine>,
}

impl Drop for PolledReader {
    fn drop(self) {
        let PolledReader {
            reader: _,
            machine: _,
        } = self;
    }
}

impl Model for PolledReader {
    ghost use Rattle.std.specs.Prelude.{◌≡◌, None, IfSome};
    ghost use Rattle.slate_model.specs.Follower.{Follower};
    ghost use Rattle.slate_follow.specs.Stepping.{FitsReader, IsGoing};

    ghost Value = { Follower };

    ghost view = { λ a. a.reader };

    ghost invariant = { λ a. IfSome a.machine (λ b. (a.reader.result ≡ None) × FitsReader a.reader b × IsGoing b.stage) };
}

impl PolledReader {
    /// A reader of which no poll is begun.
    pub fn new(reader: FollowerState) -> PolledReader {
        PolledReader {
            reader,
            machine: None,
        }
    }

    /// The reader as it is.
    pub fn reader(&self) -> &FollowerState {
        &self.reader
    }

    /// Begins a poll in place of the one that was begun.
    pub fn begin(&mut self, alloc: Global, moment: i64) -> Result<(), SlateError> {
        self.machine = None;
        self.machine = Some(PollMachine::begin(alloc, &self.reader, moment)?);
        Ok(())
    }

    /// Makes the next call of the begun poll, or answers that there is none.
    pub fn step<S: Store, E: PrefixExtractor>(
        &mut self,
        alloc: Global,
        store: &mut S,
        extractor: Option<&E>,
    ) -> Option<Result<Option<PollAnswer>, SlateError>> {
        let mut machine = self.machine.take()?;
        let stepped = machine.step(alloc, &mut self.reader, store, extractor);
        if let Ok(None) = stepped {
            self.machine = Some(machine);
        }
        Some(stepped)
    }

    /// Polls the reader whole. A poll that was begun is dropped.
    pub fn poll<S: Store, E: PrefixExtractor>(
        &mut self,
        alloc: Global,
        store: &mut S,
        extractor: Option<&E>,
        moment: i64,
    ) -> Result<PollAnswer, SlateError> {
        self.machine = None;
        self.reader.poll(alloc, store, extractor, moment)
    }
}
