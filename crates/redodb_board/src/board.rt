ghost use Rattle.std.specs.Prelude.{◌≡◌, ◌+◌, length, IfOk};
ghost use Rattle.std.specs.Mem.Slots.{slots_items, slots_len, IsFull};
ghost use Rattle.redodb_board.specs.Rows.{rows_of};
ghost use Rattle.redodb_board.specs.Shown.{plan_of, parts_of, IsForAll};
ghost use Rattle.redodb_board.specs.Kept.{IsBoardOf, SitsAt, IsFreshOf};
ghost use Rattle.redodb_board.specs.Outcomes.{Closes, AreLastWords};

use crate::plan::{rows, sessions};
use crate::rule::Running;
use crate::seat::Seat;
use crate::view::View;
use atomic_table::{Closed, Table};
use redodb_graph::Graph;
use redodb_journal::Plan;
use std::alloc::{AllocError, Global};

/// What all workers share: the words, one for the seats, one for each row, one for each name's
/// claim; and the graph of the plan.
#[derive(Drop)]
pub struct Board {
    pub(crate) table: Table<(), View, Plan, Running, Global>,
    pub(crate) rows: usize,
    pub(crate) graph: Graph,
}

impl Board {
    /// The board of a plan, all words 0, and a fresh seat for all sessions. If memory runs out nothing
    /// is kept.
    pub fn open(alloc: Global, plan: &Plan) -> Result<(Board, Seat), AllocError>
        ensures board { IfOk result (λ r. IsBoardOf plan.now r.0) }
        ensures seat { IfOk result (λ r. SitsAt plan.now r.0 r.1) }
        ensures fresh { IfOk result (λ r. IsFreshOf 0 (length plan.now.scripts) r.1) }
    {
        let rows = rows(plan);
        let end = sessions(plan);
        let words = vec![in alloc; 0u64; rows + 1 + plan.names().len() as usize]?;
        let graph = Graph::new(alloc, plan)?;
        let (table, seat) = Table::of_words(alloc, words.as_slice(), plan)?;
        Ok((
            Board { table, rows, graph },
            Seat {
                seat,
                first: 0,
                end,
            },
        ))
    }

    /// The number of filled rows.
    pub fn close(self, seat: Seat) -> u32
        requires belongs { IsBoardOf (plan_of self) self × SitsAt (plan_of self) self seat }
        requires all { IsForAll (plan_of self) seat }
        ensures { Closes (plan_of self) seat result }
    {
        let rows = self.rows;
        let closed = self.last_words(seat);
        let mut filled = 0;
        while filled < rows && closed.word(filled + 1) != 0 {
            filled += 1;
        }
        closed.free();
        filled as u32
    }

    /// The words of the board at its end, which the caller reads and frees: that of the seats, which is 0, that of each
    /// row, and that of each name's claim. They are those of one legal joint order of what all sessions did.
    pub fn last_words(self, seat: Seat) -> Closed<(), Global>
        requires belongs { IsBoardOf (plan_of self) self × SitsAt (plan_of self) self seat }
        requires all { IsForAll (plan_of self) seat }
        ensures words { AreLastWords (plan_of self) (parts_of seat) (slots_items result.words) }
        ensures full { IsFull result.words }
        ensures count { slots_len result.words
            ≡ rows_of (plan_of self) + 1 + length (plan_of self).names }
        ensures slots { slots_len result.slots ≡ 0 }
    {
        self.table.close_with(seat.seat)
    }
}
