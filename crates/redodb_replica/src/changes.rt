ghost use Rattle.std.specs.Prelude.{◌≡◌, ◌+◌, ◌<◌, ◌^◌, ℕ, List, length};
ghost use Rattle.redodb_model.specs.Command as commands;
ghost use Rattle.redodb_graph.specs.declared.step.Step.TheVariants as steps;
ghost use Rattle.redodb_replica.specs.declared.cell.CompactCell.{CompactCell};
ghost use Rattle.redodb_replica.specs.Support.Changes.{ArePlacesOf, AreBuilt, AreRowsAfter, AreSized, HasEffect, HavePlaces, IsReady, IsWithout};
ghost use Rattle.redodb_replica.specs.Support.Entries.{HasNumber, HaveEntries, HaveMarks};
ghost use Rattle.redodb_replica.specs.Support.Fits.{IsFit};

use crate::cells::CompactCells;
use crate::laws::pairs_are_once;
use crate::rows::PairRows;
use redodb_graph::{Graph, Step};

/// A change row of each of the pairs, with the mark that its name has now.
fn change_each(graph: &Graph, cells: &CompactCells, rows: &mut PairRows, places: &[u32])
    requires rows { length rows.old ≡ length graph.now.tables.pairs.items }
    requires places { HavePlaces graph.now.tables.pairs.items (length cells.now) places.now }
    ensures after { (t : ℕ) (names : List ℕ)
        → ArePlacesOf graph.now.tables.pairs.items t names places.now
        → AreRowsAfter graph.now.tables cells.now rows.old rows.new (commands.IfChange t names) }
    ensures count { length rows.new ≡ length rows.old }
    ensures marks { HaveEntries graph.now.tables cells.now → HaveMarks graph.now.tables rows.old
        → HaveMarks graph.now.tables rows.new }
{
    let pairs = graph.pairs();
    for &place in places {
        let name = pairs[place as usize].1;
        rows.put_change(place, cells.get(name).mark());
    }
}

fn create_each(graph: &Graph, rows: &mut PairRows, places: &[u32])
    requires rows { length rows.old ≡ length graph.now.tables.pairs.items }
    requires places { (count : ℕ) × HavePlaces graph.now.tables.pairs.items count places.now }
    ensures after { (cells : List CompactCell) (t : ℕ) (names : List ℕ)
        → ArePlacesOf graph.now.tables.pairs.items t names places.now
        → AreRowsAfter graph.now.tables cells rows.old rows.new (commands.IfCreate t names) }
    ensures count { length rows.new ≡ length rows.old }
    ensures marks { HaveMarks graph.now.tables rows.old → HaveMarks graph.now.tables rows.new }
{
    pairs_are_once(graph);
    for &place in places {
        rows.put_created(place);
    }
}

fn clear(graph: &Graph, rows: &mut PairRows, t: u32)
    requires rows { length rows.old ≡ length graph.now.tables.pairs.items }
    requires target { t < graph.now.tables.pairs.count }
    requires number { t + 1 < 2 ^ 32 }
    ensures { IsWithout graph.now.tables t rows.old rows.new }
{
    rows.clear(graph.start(t), graph.start(t + 1));
}

/// The session starts a build of the target, without rows so far.
fn start(graph: &Graph, cells: &mut CompactCells, rows: &mut PairRows, s: u8, t: u32)
    requires sized { AreSized graph.now.tables cells.old rows.old }
    requires target { t < length cells.old }
    requires number { length cells.old < 2 ^ 32 }
    ensures effect { HasEffect graph.now.tables cells.old rows.old cells.new rows.new s
        (steps.Start t) }
    ensures sized { AreSized graph.now.tables cells.new rows.new }
    ensures builds { (count : ℕ) → AreBuilt count cells.old → AreBuilt (count + 1) cells.new }
    ensures fit { IsFit graph.now cells.old rows.old → IsFit graph.now cells.new rows.new }
{
    cells.start(s, t);
    clear(graph, rows, t);
}

/// Makes the change of an accepted step. Allocates nothing.
pub(crate) fn obey(graph: &Graph, cells: &mut CompactCells, rows: &mut PairRows, s: u8, step: &Step)
    requires ready { IsReady graph.now.tables (length cells.old) step.now }
    requires sized { AreSized graph.now.tables cells.old rows.old }
    requires number { length cells.old < 2 ^ 32 }
    requires builds { (count : ℕ) × (count + 1 < 2 ^ 32) × AreBuilt count cells.old }
    requires entry { HasNumber graph.now.tables step.now }
    ensures effect { HasEffect graph.now.tables cells.old rows.old cells.new rows.new s step.now }
    ensures sized { AreSized graph.now.tables cells.new rows.new }
    ensures builds { (count : ℕ) → AreBuilt count cells.old → AreBuilt (count + 1) cells.new }
    ensures fit { IsFit graph.now cells.old rows.old → IsFit graph.now cells.new rows.new }
{
    match step {
        Step::File(n, stamp) => cells.set_file(*n, Some(*stamp)),
        Step::Gone(n) => cells.set_file(*n, None),
        Step::Start(t) => start(graph, cells, rows, s, *t),
        Step::IfChange(_, list) => change_each(graph, cells, rows, graph.listed(list)),
        Step::IfCreate(_, list) => create_each(graph, rows, graph.listed(list)),
        Step::Always(t) => cells.set_always(*t),
        Step::Stamp(t, digest) => cells.stamp(*t, *digest),
        Step::Done(t, stamp) => cells.done(*t, *stamp),
        Step::Failed(t) => cells.failed(*t),
        Step::Lock(_) | Step::Unlock(_) | Step::Ood | Step::Targets | Step::Sources => {}
    }
}
