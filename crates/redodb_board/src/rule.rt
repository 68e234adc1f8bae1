// The rule of the board's table, and its nine kinds of step: a row won, a row lost; a claim granted, a claim busy; a
// release; the first seat; a split, a meet, and a look. A load of a row before the exchange there is none of its own: by
// it a row isn't passed.
use crate::view::View;
use atomic_table::{Join, Play, Split, TableRule};
use redodb_journal::Plan;
use std::marker::{Brand, PhantomData};

pub struct Running;

impl TableRule<(), View, Plan> for Running {
    ghost use Rattle.redodb_board.specs.Rule.{Orderly};
    ghost use Rattle.redodb_board.specs.Support.Rule.{first_view};

    ghost holds = { Orderly };

    ghost first = { first_view };
}

/// A row won, or lost.
pub struct Try;

impl Play<(), View> for Try {
    ghost use Rattle.redodb_board.specs.Support.Plays.{tried};

    ghost then = { tried };
}

/// A load of the row where the next exchange is.
pub struct Peek;

impl Play<(), View> for Peek {
    ghost use Rattle.redodb_board.specs.Support.Plays.{peeked};

    ghost then = { peeked };
}

/// A row lost, which a load showed filled.
pub struct Lose;

impl Play<(), View> for Lose {
    ghost use Rattle.redodb_board.specs.Support.Plays.{lost};

    ghost then = { lost };
}

pub struct Claim;

impl Play<(), View> for Claim {
    ghost use Rattle.redodb_board.specs.Support.Plays.{claimed};

    ghost then = { claimed };
}

pub struct Free;

impl Play<(), View> for Free {
    ghost use Rattle.redodb_board.specs.Support.Plays.{freed};

    ghost then = { freed };
}

pub struct Look;

impl Play<(), View> for Look {
    ghost use Rattle.redodb_board.specs.Support.Plays.{looked};

    ghost then = { looked };
}

/// Where a seat is cut. Each call picks it.
pub trait Middle {
    ghost use Rattle.std.specs.Prelude.{ℕ};

    ghost middle: { ℕ };
}

impl Middle for Brand {
    ghost middle = { 0 };
}

pub struct Cut<M>(PhantomData<M>);

impl<M: Middle> Split<View> for Cut<M> {
    ghost use Rattle.redodb_board.specs.Support.Rule.{left_of, right_of};

    ghost left = { left_of M.middle };

    ghost right = { right_of M.middle };
}

pub struct Both;

impl Join<View> for Both {
    ghost use Rattle.redodb_board.specs.Support.Rule.{met};
    ghost use Rattle.redodb_board.specs.Support.Views.{nobody};

    ghost both = { met };

    ghost spent = { nobody };
}
