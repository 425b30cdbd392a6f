// Why something closed, and the cell that keeps the first result.
ghost use Rattle.std.specs.Prelude.{◌≡◌, None, Some, is_none, unwrap_or};

use slate_types::StoreFault;
use std::marker::Model;

/// Why something is closed. SlateDB's enum of this name.
#[derive(Clone, Copy, Debug, PartialEq, Eq)]
pub enum CloseReason {
    /// It was closed by a call.
    Clean,
    /// Another writer took over.
    Fenced,
    /// It failed.
    Panic,
}

/// An error that can be recorded as the result of closing.
#[derive(Clone, Copy, Debug, PartialEq, Eq)]
pub enum CloseFault {
    /// Another writer took over.
    Fenced,
    /// The database is in a state that it can't go on from.
    InvalidDBState,
    /// The object store failed, or an object isn't there.
    ObjectStoreError(StoreFault),
    /// A manifest or a log file that was to be put is there already.
    TransactionalObjectVersionExists,
    /// There is no manifest.
    LatestTransactionalObjectVersionMissing,
    /// A put met an id that was stored already at each of its tries.
    TransactionalObjectTimeout { tries: u32 },
    /// A task failed with a fault of its own, which has this number.
    Custom(u64),
}

/// The result with which something closed. The first one that is written stays.
#[derive(Debug)]
pub struct CloseCell {
    recorded: Option<Result<(), CloseFault>>,
}

impl Drop for CloseCell {
    fn drop(self) {
        let CloseCell { recorded: _ } = self;
    }
}

impl Model for CloseCell {
    ghost use Rattle.std.specs.Prelude.{Option, Result};
    ghost use Rattle.slate_errors.specs.declared.closing.CloseFault.{CloseFault};

    ghost Value = { Option (Result (Unit {0}) CloseFault) };

    ghost view = { λ cell. cell.recorded };
}

impl CloseCell {
    /// A cell that holds no result.
    pub fn new() -> CloseCell
        ensures { result ≡ None }
    {
        CloseCell { recorded: None }
    }

    /// Records how something closed, where nothing was recorded before, and answers whether that was so.
    pub fn write(&mut self, outcome: Result<(), CloseFault>) -> bool
        ensures first { result ≡ is_none self.old }
        ensures kept { self.new ≡ Some (unwrap_or self.old outcome) }
    {
        if self.recorded.is_some() {
            return false;
        }
        self.recorded = Some(outcome);
        true
    }

    /// The result that was recorded first.
    pub fn read(&self) -> Option<Result<(), CloseFault>>
        ensures { result ≡ self.now }
    {
        self.recorded
    }
}
