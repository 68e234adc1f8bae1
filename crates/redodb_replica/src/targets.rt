//! Whether a name is a target, and the marks of those with a row on a name.

ghost use Rattle.std.specs.Prelude.{◌≡◌, ◌≢◌, ◌<◌, ◌↔◌, ◌⊎◌, IsTrue, IsSome, length};
ghost use Rattle.redodb_model.specs.OutOfDate.{IsTarget, HasChangeRow, HasCreatedRow};
ghost use Rattle.redodb_model.specs.State as states;
ghost use Rattle.redodb_memo.specs.NameSet.{Enters, size_of};
ghost use Rattle.redodb_replica.specs.CompactCells.{cell_at, compact_state_of};
ghost use Rattle.redodb_replica.specs.PairRows.{change_of};
ghost use Rattle.redodb_replica.specs.Replicas.{records_in};
ghost use Rattle.redodb_replica.specs.Support.Fits.{IsFit};

use crate::cells::CompactCells;
use crate::rows::{PairRows, Row};
use crate::state::CompactState;
use redodb_graph::Graph;
use redodb_memo::NameSet;

pub(crate) fn is_target(cells: &CompactCells, t: u32) -> bool
    requires { t < length cells.now }
    ensures { IsTrue result ↔ (compact_state_of (cell_at cells.now t).state ≢ states.Idle) }
{
    !matches!(cells.get(t).state, CompactState::Idle)
}

pub(crate) fn has_change(row: &Row) -> bool
    ensures { IsTrue result ↔ IsSome (change_of row.now) }
{
    row.change().is_some()
}

/// Whether it is a target, and there is a change row, or a created row if these count.
fn is_holder(cells: &CompactCells, t: u32, row: &Row, created: bool) -> bool
    requires { t < length cells.now }
    ensures { IsTrue result ↔ ((compact_state_of (cell_at cells.now t).state ≢ states.Idle)
        × (IsSome (change_of row.now) ⊎ (IsTrue created × IsTrue row.now.created))) }
{
    is_target(cells, t) && (has_change(row) || created && row.created)
}

/// Marks the targets with a change row on the name, or with a created row if these count.
#[inline]
pub(crate) fn enter_holders(
    graph: &Graph,
    cells: &CompactCells,
    rows: &PairRows,
    n: u32,
    created: bool,
    marks: &mut NameSet,
)
    requires name { n < length cells.now }
    requires fit { IsFit graph.now cells.now rows.now }
    requires sized { size_of marks.old ≡ length cells.now }
    ensures { Enters (λ t. IsTarget (records_in graph.now.tables cells.now rows.now) t
        × (HasChangeRow (records_in graph.now.tables cells.now rows.now) t n ⊎ (IsTrue created
        × HasCreatedRow (records_in graph.now.tables cells.now rows.now) t n)))
        marks.old marks.new }
{
    let pairs = graph.pairs();
    for &(_, place) in graph.pairs_on(n) {
        let t = pairs[place as usize].0;
        marks.enter_if(t, is_holder(cells, t, &rows.row(place), created));
    }
}
