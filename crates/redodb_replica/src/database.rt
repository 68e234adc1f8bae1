ghost use Rattle.std.specs.Prelude.{length};
ghost use Rattle.redodb_replica.specs.Replicas.{records_in};

use crate::cells::CompactCells;
use crate::reason::is_due;
use crate::rows::PairRows;
use crate::targets::enter_holders;
use redodb_graph::Graph;
use redodb_memo::{Dependencies, NameSet};
use std::marker::Model;

/// A graph, and the cells of its names and the rows of its pairs, which fit.
#[derive(Drop)]
pub(crate) struct Database<'a> {
    pub(crate) graph: &'a Graph,
    pub(crate) cells: &'a CompactCells,
    pub(crate) rows: &'a PairRows,
}

impl<'a> Model for Database<'a> {
    ghost use Rattle.redodb_replica.specs.Support.Fits.{DatabaseOf, IsFit};

    ghost Value = { DatabaseOf };

    ghost view = { λ inside. record {
      graph = inside.graph.now;
      cells = inside.cells.now;
      rows = inside.rows.now;
    } };

    ghost invariant = { λ inside. IsFit inside.graph.now inside.cells.now inside.rows.now };
}

impl<'a> Dependencies for Database<'a> {
    type Hints = ();

    ghost records = { λ it. records_in it.graph.tables it.cells it.rows };

    ghost names = { λ it. length it.cells };

    #[inline]
    fn enter_dependents(&self, n: u32, marks: &mut NameSet) {
        enter_holders(self.graph, self.cells, self.rows, n, false, marks);
    }

    #[inline]
    fn enter_holders(&self, n: u32, marks: &mut NameSet) {
        enter_holders(self.graph, self.cells, self.rows, n, true, marks);
    }

    #[inline]
    fn is_due(&self, t: u32, marks: &NameSet, _hints: &mut ()) -> bool {
        is_due(self.graph, self.cells, self.rows, marks, t)
    }
}
