ghost use Rattle.std.specs.Prelude.{◌≡◌, ◌↔◌, ◌<◌, ◌≤◌, ◌+◌, ◌^◌, ℕ, [], Some, Contains, length, slice_get, slice_index, slice_index_or, slice_range, IfOk};
ghost use Rattle.redodb_graph.specs.Pairs.{AreAscending, IsStart};
ghost use Rattle.redodb_graph.specs.Graphs.{IsGraphOf, IsOnce};

use crate::keys::{by_name, listed_pairs};
use crate::numbering::Numbering;
use crate::pairs::Pairs;
use crate::step::{Listed, Step};
use crate::tables::Tables;
use redodb_journal::Plan;
use redodb_names::{ranks_of, sorted_numbers};
use std::alloc::{AllocError, Global};
use std::marker::Model;

/// What all workers of a run read of its plan: plain data, laid out once.
#[derive(Drop)]
pub struct Graph {
    steps: Vec<Vec<Step>>,
    tables: Tables,
    on: Pairs,
    sorted: Vec<u32>,
    ranks: Vec<u32>,
}

impl Model for Graph {
    ghost use Rattle.redodb_graph.specs.Graphs.{GraphOf};

    ghost Value = { GraphOf };

    ghost use Rattle.redodb_graph.specs.Support.Kept.{graph_of};

    ghost view = { graph_of };
}

impl Graph {
    /// The graph of the plan. A count of 2^32 or more gives `AllocError`.
    pub fn new(alloc: Global, plan: &Plan) -> Result<Graph, AllocError>
        ensures { IfOk result (λ graph. IsGraphOf plan.now graph) }
    {
        let names = plan.names();
        let scripts = plan.scripts();
        let count = names.len();
        let sorted = sorted_numbers(alloc, names)?;
        let ranks = ranks_of(alloc, &sorted)?;
        let pairs = Pairs::new(alloc, count, listed_pairs(alloc, scripts)?)?;
        let on = Pairs::new(alloc, count, by_name(alloc, pairs.as_slice())?)?;
        let mut numbering = Numbering::new(alloc, pairs);
        let steps = numbering.scripts(alloc, scripts)?;
        let tables = numbering.into_tables(alloc)?;
        tables.are_once();
        Ok(Graph {
            steps,
            tables,
            on,
            sorted,
            ranks,
        })
    }

    pub fn step(&self, session: usize, line: usize) -> Step
        requires { line < length (slice_index_or self.now.steps session []) }
        ensures { slice_get (slice_index_or self.now.steps session []) line ≡ Some result }
    {
        self.steps[session][line]
    }

    /// The places of the pairs that a step lists, in its line's order.
    pub fn listed(&self, list: &Listed) -> &[u32]
        requires { list.now.from + list.now.len ≤ length self.now.tables.listed }
        ensures { result.now ≡ slice_range self.now.tables.listed list.now.from
            (list.now.from + list.now.len) }
    {
        let from = list.from as usize;
        &self.tables.listed[from..from + list.len as usize]
    }

    /// The pairs of a target and a name by their places: in ascending order, each once.
    pub fn pairs(&self) -> &[(u32, u32)]
        ensures pairs { result.now ≡ self.now.tables.pairs.items }
        ensures ascending { AreAscending self.now.tables.pairs.items }
        ensures few { length self.now.tables.pairs.items < 2 ^ 32 }
    {
        self.tables.pairs.as_slice()
    }

    /// The place where the pairs of this target begin, and those of the targets before it end.
    pub fn start(&self, target: u32) -> usize
        requires { target ≤ self.now.tables.pairs.count }
        ensures { IsStart self.now.tables.pairs.items target result }
    {
        self.tables.pairs.start(target)
    }

    /// The name with the place of each pair on it.
    pub fn pairs_on(&self, name: u32) -> &[(u32, u32)]
        requires { name < self.now.on.count }
        ensures ascending { AreAscending result.now }
        ensures those { (p : ℕ × ℕ)
            → Contains result.now p ↔ (Contains self.now.on.items p × (p.0 ≡ name)) }
    {
        self.on.block(name)
    }

    /// The digests by their numbers.
    pub fn digests(&self) -> &[[u8; 20]]
        ensures digests { result.now ≡ self.now.tables.digests }
        ensures once { IsOnce self.now.tables.digests }
    {
        self.tables.digests()
    }

    /// The names' numbers in the order of their bytes.
    pub fn sorted(&self) -> &[u32]
        ensures { result.now ≡ self.now.sorted }
    {
        &self.sorted
    }

    /// The place of a name in that order.
    pub fn rank(&self, name: u32) -> u32
        requires { name < length self.now.ranks }
        ensures { result ≡ slice_index self.now.ranks name }
    {
        self.ranks[name as usize]
    }
}
