//! Seats at the board of a plan, and their workers.
ghost use Rattle.std.specs.Prelude.{◌≡◌, ◌+◌, ◌<◌, length, IfOk};
ghost use Rattle.redodb_board.specs.Shown.{first_of, end_of};
ghost use Rattle.redodb_board.specs.Kept.{IsBoardOf, SitsAt, IsFresh, IsFreshOf, WorksAt};

use redodb_board::{Board, Seat, Worker};
use redodb_journal::Plan;
use std::alloc::{AllocError, Global};

pub(crate) fn split(board: &Board, _plan: &Plan, seat: Seat, middle: usize) -> (Seat, Seat)
    requires board { IsBoardOf _plan.now board.now × SitsAt _plan.now board.now seat }
    requires fresh { IsFresh seat × (first_of seat < middle) × (middle < end_of seat) }
    ensures left { SitsAt _plan.now board.now result.0 }
    ensures below { IsFreshOf (first_of seat) middle result.0 }
    ensures right { SitsAt _plan.now board.now result.1 }
    ensures from { IsFreshOf middle (end_of seat) result.1 }
{
    seat.split(board, middle)
}

pub(crate) fn worker_of<'a>(
    alloc: Global,
    board: &'a Board,
    plan: &Plan,
    seat: Seat,
) -> Result<Worker<'a>, AllocError>
    requires board { IsBoardOf plan.now board.now }
    requires fresh { IsFresh seat × (end_of seat ≡ first_of seat + 1) }
    requires sits { SitsAt plan.now board.now seat × (first_of seat < length plan.now.scripts) }
    ensures { IfOk result (WorksAt plan.now board.now) }
{
    match Worker::new(alloc, board, plan, seat) {
        Ok(worker) => Ok(worker),
        Err(_) => Err(AllocError),
    }
}
