// The words of a handle that other threads read without a lock, and what reports to them.
ghost use Rattle.std.specs.Prelude.{◌≡◌, ◌≤◌, ◌≤ℤ◌, None, Some, IsTrue, IfOk};
ghost use Rattle.std.specs.Arc.{arc_value};
ghost use Rattle.slate_board.specs.Views.{IsAtMost};
ghost use Rattle.slate_model.specs.Handle.{accepted};
ghost use Rattle.slate_writer.specs.Board.{code_of, first_words, lead_at, words_of};

use crate::WriterState;
use crate::key_prefixes::rise;
use slate_board::{Board, BoardSeat, BoardView};
use slate_errors::{CloseFault, CloseReason, SlateError};
use slate_store::VersionedManifest;
use slate_types::NoMemory;
use std::alloc::Global;
use std::marker::Model;
use std::sync::Arc;

/// What a thread sees of a handle that another one writes with: its tick, its durable number and its close code. It goes to
/// that thread, and outlives the handle.
///
/// A contract sees the numbers that it has seen. None goes back.
pub struct BoardWatch {
    board: Arc<Board, Global>,
    seat: BoardSeat,
}

impl Drop for BoardWatch {
    fn drop(self) {
        let BoardWatch { board: _, seat: _ } = self;
    }
}

impl Model for BoardWatch {
    ghost use Rattle.std.specs.Prelude.{◌≡◌};
    ghost use Rattle.std.specs.Arc.{arc_value};
    ghost use Rattle.slate_board.specs.declared.views.BoardView.{BoardView};

    ghost Value = { BoardView };

    ghost view = { λ w. w.seat.seen };

    ghost invariant = { λ w. w.seat.board ≡ arc_value w.board };
}

impl BoardWatch {
    /// The creation time of the handle's last batch in milliseconds, the number up to which its batches are stored, and
    /// how it closed: 0 while it is open, 1 where it closed cleanly, 2 where it was fenced, 3 for any other error. None is
    /// behind what this call answered before. It takes three loads of a word, no lock and no memory, and doesn't wait.
    pub fn load(&mut self) -> BoardView
        ensures forward { IsAtMost self.old result }
        ensures code { result.close ≤ 3 }
        ensures seen { self.new ≡ result }
    {
        self.board.load(&mut self.seat)
    }
}

impl WriterState {
    /// A view of the handle's tick, durable number and close code for another thread, which loads them without a lock. It
    /// has seen what they are now. It takes no memory; `NoMemory` comes where there are as many views as there may be, and
    /// changes nothing. SlateDB's `subscribe` gives a durable number to other tasks so.
    pub fn watch(&mut self) -> Result<BoardWatch, NoMemory>
        ensures same { self.new ≡ self.old }
        ensures seen { IfOk result (λ watch. watch ≡ words_of self.old) }
    {
        let board = self.board.clone()?;
        let seat = board.split(&mut self.lead);
        Ok(BoardWatch { board, seat })
    }

    /// Takes a manifest as the one that it goes by, and all its batches as stored.
    pub(crate) fn adopt_stored(&mut self, manifest: VersionedManifest)
        ensures { self.new ≡ record self.old { durable = accepted self.old; view = manifest } }
    {
        let accepted = self.accepted();
        self.stored_rise = rise(manifest.manifest.segments.as_slice());
        self.board.advance_durable(&mut self.lead, accepted);
        self.status.report_view(accepted, manifest);
    }

    /// Takes all its batches as stored.
    pub(crate) fn report_stored(&mut self)
        ensures { self.new ≡ record self.old { durable = accepted self.old } }
    {
        let accepted = self.accepted();
        self.board.advance_durable(&mut self.lead, accepted);
        self.status.report_durable_seq(accepted);
    }

    /// Records the result with which it closes.
    pub(crate) fn record_close(&mut self, outcome: Result<(), CloseFault>)
        requires { self.old.result ≡ None }
        ensures { self.new ≡ record self.old { result = Some outcome } }
    {
        self.board.close_once(&mut self.lead, close_code(outcome));
        self.status.report_closed(outcome);
    }
}

/// Takes a moment, which isn't below the tick of a handle, as that tick and as the one of its board.
pub(crate) fn take_tick(board: &Board, lead: &mut BoardSeat, tick: &mut i64, moment: i64)
    requires lead { (lead.old.board ≡ board.now) × IsTrue lead.old.lead }
    requires seen { lead.old.seen.tick ≡ tick.old }
    requires later { tick.old ≤ℤ moment }
    ensures tick { tick.new ≡ moment }
    ensures lead { lead.new ≡ record lead.old { seen = record lead.old.seen { tick = moment } } }
{
    let _ = board.tick(lead, moment);
    *tick = moment;
}

/// A board and its lead, for a handle of which nothing is known yet.
pub(crate) fn new_board(alloc: Global) -> Result<(Arc<Board, Global>, BoardSeat), NoMemory>
    ensures { IfOk result (λ made. made.1 ≡ lead_at (arc_value made.0) first_words) }
{
    let (board, lead) = Board::new(alloc, i64::MIN, 0)?;
    Ok((Arc::new(alloc, board)?, lead))
}

/// Raises a new board to the tick and the durable number that an opening found.
pub(crate) fn raise(board: &Board, lead: &mut BoardSeat, tick: i64, durable: u64)
    requires { lead.old ≡ lead_at board.now first_words }
    ensures { lead.new ≡ lead_at board.now (record { tick = tick; durable = durable; close = 0 }) }
{
    let _ = board.tick(lead, tick);
    board.advance_durable(lead, durable);
}

/// The code of a result on the board.
fn close_code(outcome: Result<(), CloseFault>) -> u64
    ensures { result ≡ code_of outcome }
{
    let reason = match outcome {
        Ok(()) => CloseReason::Clean,
        Err(fault) => CloseReason::from(SlateError::from(fault).kind()),
    };
    match reason {
        CloseReason::Clean => 1,
        CloseReason::Fenced => 2,
        CloseReason::Panic => 3,
    }
}
