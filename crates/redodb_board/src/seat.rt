ghost use Rattle.std.specs.Prelude.{◌≡◌, ℕ, ◌<◌, ◌++◌, []};
ghost use Rattle.redodb_board.specs.Rule.{longer};
ghost use Rattle.redodb_board.specs.Support.Rule.{left_of, right_of};
ghost use Rattle.redodb_board.specs.Shown.{plan_of, first_of, end_of, parts_of, seen_at};
ghost use Rattle.redodb_board.specs.Kept.{IsBoardOf, SitsAt, IsFresh, IsFreshOf};
ghost use Rattle.redodb_board.specs.Outcomes.{Together};

use crate::board::Board;
use crate::rule::{Both, Cut, Look, Middle};
use crate::view::View;
use std::marker::Brand;

pub type Token = atomic_table::Seat<(), View>;

/// A right to work on the sessions from `first` on and below `end`.
#[derive(Drop)]
pub struct Seat {
    pub(crate) seat: Token,
    pub(crate) first: usize,
    pub(crate) end: usize,
}

// Cuts a seat's view at the middle that the call picks.
fn split_at<M: Middle>(board: &Board, seat: &mut Token, middle: usize) -> Token
    requires middle { middle ≡ M.middle }
    requires table { seat.old.table_id ≡ board.now.table.shared.table_id }
    requires words { 0 < board.now.table.shared.table_id.words }
    ensures left { (seat.new.table_id ≡ seat.old.table_id)
        × (seat.new.me ≡ (left_of middle seat.old.me.0, seat.old.me.1)) }
    ensures right { (result.table_id ≡ seat.old.table_id)
        × (result.me ≡ (right_of middle seat.old.me.0, [])) }
{
    board.table.shared.split_seat::<Cut<M>>(seat)
}

impl Seat {
    /// The sessions below `middle`, and the rest.
    pub fn split(self, board: &Board, middle: usize) -> (Seat, Seat)
        requires belongs { IsBoardOf (plan_of board.now) board.now
            × SitsAt (plan_of board.now) board.now self }
        requires fresh { IsFresh self × (first_of self < middle) × (middle < end_of self) }
        ensures left { SitsAt (plan_of board.now) board.now result.0 }
        ensures below { IsFreshOf (first_of self) middle result.0 }
        ensures right { SitsAt (plan_of board.now) board.now result.1 }
        ensures from { IsFreshOf middle (end_of self) result.1 }
    {
        let Seat {
            mut seat,
            first,
            end,
        } = self;
        let right = split_at::<Brand>(board, &mut seat, middle);
        (
            Seat {
                seat,
                first,
                end: middle,
            },
            Seat {
                seat: right,
                first: middle,
                end,
            },
        )
    }

    /// One seat for the sessions of both, which has seen the more of what they saw. It is fresh if both are, and the
    /// sessions of the first end where those of the other begin.
    pub fn meet(self, other: Seat, board: &Board) -> Seat
        requires board { IsBoardOf (plan_of board.now) board.now }
        requires first { SitsAt (plan_of board.now) board.now self }
        requires second { SitsAt (plan_of board.now) board.now other }
        ensures belongs { SitsAt (plan_of board.now) board.now result }
        ensures parts { parts_of result ≡ parts_of self ++ parts_of other }
        ensures seen { seen_at result ≡ longer (seen_at self) (seen_at other) }
        ensures fresh { (from middle below : ℕ) → IsFreshOf from middle self
            → IsFreshOf middle below other → IsFreshOf from below result }
        ensures together { Together (plan_of board.now) result self other }
    {
        let Seat {
            mut seat,
            first,
            end: _,
        } = self;
        let Seat {
            seat: their,
            first: _,
            end,
        } = other;
        board.table.shared.join_seat::<Both>(&mut seat, their);
        board.table.shared.load::<Look>(&mut seat, 0);
        Seat { seat, first, end }
    }
}
