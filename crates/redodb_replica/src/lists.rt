//! The names that a reply lists, in the order of their bytes.

ghost use Rattle.std.specs.Prelude.{◌≡◌, ◌<◌, ◌↔◌, ◌⊎◌, ◌++◌, ◌∷◌, [], ℕ, List, Contains, IsNone, IsSome, IsTrue, IfOk, OnOk, if◌then◌else◌, is_some, length, slice_index};
ghost use Rattle.redodb_model.specs.OutOfDate.{HasFile, HasRow, IsSource, IsStale, IsTarget, OutOfDate};
ghost use Rattle.redodb_names.specs.Orders.{AreRanks};
ghost use Rattle.redodb_names.specs.Support.Orders.{AreInOrder, ArePlaces};
ghost use Rattle.redodb_memo.specs.Bits.{IsSet};
ghost use Rattle.redodb_memo.specs.Memo.{IsRight};
ghost use Rattle.redodb_memo.specs.NameSet.{IsMarked, size_of};
ghost use Rattle.redodb_graph.specs.Graphs.{IsOn};
ghost use Rattle.redodb_replica.specs.declared.rows.Row.{Row};
ghost use Rattle.redodb_replica.specs.declared.cell.CompactCell.{CompactCell};
ghost use Rattle.redodb_replica.specs.PairRows.{change_of};
ghost use Rattle.redodb_replica.specs.CompactCells.{cell_at};
ghost use Rattle.redodb_replica.specs.Replicas.{records_in};
ghost use Rattle.redodb_replica.specs.Support.Changes.{HavePlaces};
ghost use Rattle.redodb_replica.specs.Support.Lists.{HasFileIn, IsIdleIn, IsLaidOut, IsStaleIn, IsTargetIn, names_on};

use crate::cells::CompactCells;
use crate::laws::pairs_are_once;
use crate::rows::{PairRows, Row};
use crate::state::CompactState;
use redodb_graph::Graph;
use redodb_memo::{Bits, NameSet};
use redodb_names::{in_order, names_at};
use std::alloc::{AllocError, Global};

fn push_if(names: &mut Vec<u32>, n: u32, is_due: bool) -> Result<(), AllocError>
    ensures { OnOk result (names.new.items ≡ names.old.items ++ (if is_due then n ∷ [] else [])) }
{
    if is_due {
        names.push(n)?;
    }
    Ok(())
}

fn rank_of(graph: &Graph, n: u32) -> u32
    requires ranks { AreRanks graph.now.sorted graph.now.ranks }
    requires name { Contains graph.now.sorted n }
    ensures below { result < length graph.now.sorted }
    ensures at { slice_index graph.now.sorted result ≡ n }
{
    graph.rank(n)
}

fn has_file(cells: &CompactCells, n: u32) -> bool
    requires { n < length cells.now }
    ensures { result ≡ is_some (cell_at cells.now n).file }
{
    cells.get(n).file.is_some()
}

fn is_idle(cells: &CompactCells, n: u32) -> bool
    requires { n < length cells.now }
    ensures { IsTrue result ↔ IsIdleIn cells.now n }
{
    matches!(cells.get(n).state, CompactState::Idle)
}

/// Whether it is an idle name without a file.
fn is_missing(cells: &CompactCells, n: u32) -> bool
    requires { n < length cells.now }
    ensures { IsTrue result ↔ (IsIdleIn cells.now n × IsNone (cell_at cells.now n).file) }
{
    is_idle(cells, n) && !has_file(cells, n)
}

/// Whether it is marked as out of date, or an idle name without a file.
fn is_stale(cells: &CompactCells, out: &NameSet, n: u32) -> bool
    requires name { n < length cells.now }
    requires mark { n < size_of out.now }
    ensures { IsTrue result ↔ IsStaleIn cells.now out.now.marks n }
{
    out.contains(n) || is_missing(cells, n)
}

/// The ranks of the stale ones of the names of these pairs.
fn stale_ranks(
    alloc: Global,
    graph: &Graph,
    cells: &CompactCells,
    out: &NameSet,
    places: &[u32],
) -> Result<Vec<u32>, AllocError>
    requires laid_out { IsLaidOut graph.now (length cells.now) }
    requires marks { size_of out.now ≡ length cells.now }
    requires places { HavePlaces graph.now.tables.pairs.items (length cells.now) places.now }
    ensures { IfOk result (λ ranks. ArePlaces graph.now.sorted
        (λ n. Contains (names_on graph.now.tables.pairs.items places.now) n
        × IsStaleIn cells.now out.now.marks n) (Contains ranks.items)) }
{
    let pairs = graph.pairs();
    let mut ranks = Vec::new(alloc);
    for &place in places {
        let name = pairs[place as usize].1;
        let rank = rank_of(graph, name);
        let is_due = is_stale(cells, out, name);
        push_if(&mut ranks, rank, is_due)?;
    }
    Ok(ranks)
}

/// The stale ones of the names of these pairs, each once, in order.
pub(crate) fn stale(
    alloc: Global,
    graph: &Graph,
    cells: &CompactCells,
    out: &NameSet,
    places: &[u32],
) -> Result<Vec<u32>, AllocError>
    requires laid_out { IsLaidOut graph.now (length cells.now) }
    requires marks { size_of out.now ≡ length cells.now }
    requires places { HavePlaces graph.now.tables.pairs.items (length cells.now) places.now }
    ensures { (rows : List Row)
        → IsRight out.now.marks (records_in graph.now.tables cells.now rows)
        → IfOk result (λ stale. AreInOrder graph.now.sorted (length cells.now)
        (λ n. Contains (names_on graph.now.tables.pairs.items places.now) n
        × IsStale (records_in graph.now.tables cells.now rows) n) stale.items) }
{
    let ranks = stale_ranks(alloc, graph, cells, out, places)?;
    let places = in_order(ranks);
    let sorted = graph.sorted();
    names_at(alloc, sorted, &places)
}

fn insert_if(places: &mut Bits, k: u32, is_due: bool)
    requires { k < length places.old }
    ensures sized { length places.new ≡ length places.old }
    ensures each { (j : ℕ) → IsSet places.new j ↔ (IsSet places.old j ⊎ (IsTrue is_due × (j ≡ k))) }
{
    if is_due {
        places.insert(k);
    }
}

/// The ranks of the marked names with a file.
fn ood_places(
    alloc: Global,
    graph: &Graph,
    cells: &CompactCells,
    out: &NameSet,
) -> Result<Bits, AllocError>
    requires laid_out { IsLaidOut graph.now (length cells.now) }
    requires marks { size_of out.now ≡ length cells.now }
    ensures { IfOk result (λ places. ArePlaces graph.now.sorted
        (λ n. HasFileIn cells.now n × IsMarked out.now n) (IsSet places)) }
{
    let marked = out.list(alloc)?;
    let mut places = Bits::new(alloc, graph.sorted().len() as u32)?;
    for &n in &marked {
        let rank = rank_of(graph, n);
        let is_due = has_file(cells, n);
        insert_if(&mut places, rank, is_due);
    }
    Ok(places)
}

/// The out-of-date targets with a file, in order.
pub(crate) fn ood(
    alloc: Global,
    graph: &Graph,
    cells: &CompactCells,
    out: &NameSet,
) -> Result<Vec<u32>, AllocError>
    requires laid_out { IsLaidOut graph.now (length cells.now) }
    requires marks { size_of out.now ≡ length cells.now }
    ensures { (rows : List Row)
        → IsRight out.now.marks (records_in graph.now.tables cells.now rows)
        → IfOk result (λ names. AreInOrder graph.now.sorted (length cells.now)
        (λ t. HasFile (records_in graph.now.tables cells.now rows) t
        × OutOfDate (records_in graph.now.tables cells.now rows) t) names.items) }
{
    let marked = ood_places(alloc, graph, cells, out)?;
    let places = marked.list(alloc)?;
    let sorted = graph.sorted();
    names_at(alloc, sorted, &places)
}

/// Whether it is a target with a file.
fn is_listed(cells: &CompactCells, n: u32) -> bool
    requires { n < length cells.now }
    ensures { IsTrue result ↔ (HasFileIn cells.now n × IsTargetIn cells.now n) }
{
    has_file(cells, n) && !is_idle(cells, n)
}

/// The targets with a file, in order.
pub(crate) fn targets(
    alloc: Global,
    graph: &Graph,
    cells: &CompactCells,
) -> Result<Vec<u32>, AllocError>
    requires { IsLaidOut graph.now (length cells.now) }
    ensures { (rows : List Row) → IfOk result (λ names. AreInOrder graph.now.sorted
        (length cells.now) (λ t. HasFile (records_in graph.now.tables cells.now rows) t
        × IsTarget (records_in graph.now.tables cells.now rows) t) names.items) }
{
    let mut names = Vec::new(alloc);
    for &n in graph.sorted() {
        let is_due = is_listed(cells, n);
        push_if(&mut names, n, is_due)?;
    }
    Ok(names)
}

fn has_rows(row: Row) -> bool
    ensures { IsTrue result ↔ (IsSome (change_of row) ⊎ IsTrue row.created) }
{
    row.change().is_some() || row.created
}

fn has_row_on(graph: &Graph, rows: &PairRows, n: u32) -> bool
    requires name { n < graph.now.on.count }
    requires pairs_on { (m i : ℕ) → Contains graph.now.on.items (m, i)
        ↔ IsOn graph.now.tables.pairs.items i m }
    requires sized { length rows.now ≡ length graph.now.tables.pairs.items }
    ensures { (cells : List CompactCell) → IsTrue result
        ↔ ((t : ℕ) × HasRow (records_in graph.now.tables cells rows.now) t n) }
{
    pairs_are_once(graph);
    for &pair in graph.pairs_on(n) {
        if has_rows(rows.row(pair.1)) {
            return true;
        }
    }
    false
}

fn is_idle_file(cells: &CompactCells, n: u32) -> bool
    requires { n < length cells.now }
    ensures { IsTrue result ↔ (IsIdleIn cells.now n × HasFileIn cells.now n) }
{
    is_idle(cells, n) && has_file(cells, n)
}

fn is_source(graph: &Graph, cells: &CompactCells, rows: &PairRows, n: u32) -> bool
    requires laid_out { IsLaidOut graph.now (length cells.now) }
    requires sized { length rows.now ≡ length graph.now.tables.pairs.items }
    requires name { n < length cells.now }
    ensures { IsTrue result ↔ (IsIdleIn cells.now n × HasFileIn cells.now n
        × ((t : ℕ) × HasRow (records_in graph.now.tables cells.now rows.now) t n)) }
{
    is_idle_file(cells, n) && has_row_on(graph, rows, n)
}

/// The idle names with a file and on which a target has a row, in order.
pub(crate) fn sources(
    alloc: Global,
    graph: &Graph,
    cells: &CompactCells,
    rows: &PairRows,
) -> Result<Vec<u32>, AllocError>
    requires laid_out { IsLaidOut graph.now (length cells.now) }
    requires sized { length rows.now ≡ length graph.now.tables.pairs.items }
    ensures { IfOk result (λ names. AreInOrder graph.now.sorted (length cells.now)
        (IsSource (records_in graph.now.tables cells.now rows.now)) names.items) }
{
    let mut names = Vec::new(alloc);
    for &n in graph.sorted() {
        let is_due = is_source(graph, cells, rows, n);
        push_if(&mut names, n, is_due)?;
    }
    Ok(names)
}
