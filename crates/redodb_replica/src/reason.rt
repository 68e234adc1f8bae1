//! Whether a target has to be built again: it has a reason of its own, or depends on a marked name.

ghost use Rattle.std.specs.Prelude.{◌≡◌, ◌≢◌, ◌↔◌, ◌<◌, IsTrue, IsSome, Some, length};
ghost use Rattle.redodb_memo.specs.NameSet.{IsMarked, size_of};
ghost use Rattle.redodb_memo.specs.Support.Regions.{IsDue};
ghost use Rattle.redodb_graph.specs.Graphs.{IsOnce};
ghost use Rattle.redodb_graph.specs.Steps.{TablesOf};
ghost use Rattle.redodb_replica.specs.declared.mark.Mark.{Mark};
ghost use Rattle.redodb_replica.specs.CompactCells.{HasEntries};
ghost use Rattle.redodb_replica.specs.PairRows.{change_of};
ghost use Rattle.redodb_replica.specs.Replicas.{records_in};
ghost use Rattle.redodb_replica.specs.Support.Entries.{HasMark};
ghost use Rattle.redodb_replica.specs.Support.Fits.{IsFit};
ghost use Rattle.redodb_replica.specs.Support.News.{IsNews, HasDueRow};

use crate::cell::CompactCell;
use crate::cells::CompactCells;
use crate::mark::Mark;
use crate::rows::{PairRows, Row};
use crate::state::CompactState;
use crate::targets::has_change;
use redodb_graph::Graph;
use redodb_memo::NameSet;

/// Whether there is a change row, with another mark than this one.
fn is_other(change: Option<Mark>, now: Mark) -> bool
    ensures { IsTrue result ↔ ((mark : Mark) × (change ≡ Some mark) × (mark ≢ now)) }
{
    match change {
        Some(mark) => mark != now,
        None => false,
    }
}

/// Whether there is a created row, and the cell's name has a file.
fn has_appeared(row: &Row, cell: &CompactCell) -> bool
    ensures { IsTrue result ↔ (IsTrue row.now.created × IsSome cell.now.file) }
{
    row.created && cell.file.is_some()
}

/// Whether the rows on the cell's name are a reason to build their target again.
fn is_news(row: &Row, cell: &CompactCell) -> bool
    ensures { (tables : TablesOf) → IsOnce tables.stamps → IsOnce tables.digests
        → HasEntries tables.stamps tables.digests cell.now → HasMark tables row.now
        → IsTrue result ↔ IsNews tables row.now cell.now }
{
    has_appeared(row, cell) || is_other(row.change(), cell.mark())
}

/// Whether there is a change row, and its name is marked.
fn needs_marked(row: &Row, marks: &NameSet, n: u32) -> bool
    requires { n < size_of marks.now }
    ensures { IsTrue result ↔ (IsSome (change_of row.now) × IsMarked marks.now n) }
{
    marks.contains(n) && has_change(row)
}

/// Whether the rows of the target on some name are such a reason, or it has a change row on a marked name.
fn has_due_row(
    graph: &Graph,
    cells: &CompactCells,
    rows: &PairRows,
    marks: &NameSet,
    t: u32,
) -> bool
    requires target { t < length cells.now }
    requires fit { IsFit graph.now cells.now rows.now }
    requires sized { size_of marks.now ≡ length cells.now }
    ensures { IsTrue result ↔ HasDueRow graph.now.tables cells.now rows.now marks.now t }
{
    let pairs = graph.pairs();
    for place in graph.start(t)..graph.start(t + 1) {
        let row = rows.row(place as u32);
        let name = pairs[place].1;
        if is_news(&row, &cells.get(name)) || needs_marked(&row, marks, name) {
            return true;
        }
    }
    false
}

/// Whether it is a target that has a reason of its own, or depends on a marked name.
pub(crate) fn is_due(
    graph: &Graph,
    cells: &CompactCells,
    rows: &PairRows,
    marks: &NameSet,
    t: u32,
) -> bool
    requires target { t < length cells.now }
    requires fit { IsFit graph.now cells.now rows.now }
    requires sized { size_of marks.now ≡ length cells.now }
    ensures { IsTrue result ↔ IsDue (records_in graph.now.tables cells.now rows.now) marks.now t }
{
    let cell = cells.get(t);
    match cell.state {
        CompactState::Idle => false,
        CompactState::Building(_) | CompactState::Failed => true,
        CompactState::Built => cell.file != cell.done
            || cell.always
            || has_due_row(graph, cells, rows, marks, t),
    }
}
