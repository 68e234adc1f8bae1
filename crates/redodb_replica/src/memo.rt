ghost use Rattle.std.specs.Prelude.{◌≡◌, ◌↔◌, ◌⊎◌, ◌<◌, ℕ, Some, IfOk, IfSome, Contains};
ghost use Rattle.redodb_model.specs.State.{empty};
ghost use Rattle.redodb_memo.specs.Memo.{memo_count, IsRight};
ghost use Rattle.redodb_replica.specs.Replicas.{records_in};
ghost use Rattle.redodb_replica.specs.Support.Fits.{IsFit};
ghost use Rattle.redodb_replica.specs.Support.Memos.{IsMemoOf};

use crate::cells::CompactCells;
use crate::database::Database;
use crate::rows::PairRows;
use redodb_graph::Graph;
use redodb_memo::NameSet;
use std::alloc::{AllocError, Global};
use std::marker::Model;

/// Which targets are out of date: those from which a chain of change rows leads to a target with a reason of its own.
/// After a change its name, a seed, is noted, and the memo is made right by `settle`, for all seeds at once. Only `new`
/// allocates.
#[derive(Drop)]
pub(crate) struct Memo {
    out: redodb_memo::Memo,
    seeds: NameSet,
}

impl Model for Memo {
    ghost use Rattle.redodb_replica.specs.Support.Memos.{MemoOf};

    ghost Value = { MemoOf };

    ghost use Rattle.redodb_replica.specs.Support.KeptMemo.{memo_of, KeepsMemo};

    ghost view = { memo_of };

    ghost invariant = { KeepsMemo };
}

impl Memo {
    pub(crate) fn new(alloc: Global, names: u32) -> Result<Memo, AllocError>
        ensures count { IfOk result (λ memo. memo_count memo.out ≡ names) }
        ensures right { IfOk result (λ memo. IsRight memo.out empty.records) }
    {
        let out = redodb_memo::Memo::new(alloc, names)?;
        let seeds = NameSet::new(alloc, names)?;
        Ok(Memo { out, seeds })
    }

    pub(crate) fn note(&mut self, seed: Option<u32>)
        requires { IfSome seed (λ n. n < memo_count self.old.out) }
        ensures out { self.new.out ≡ self.old.out }
        ensures seeds { (n : ℕ) → Contains self.new.seeds n
            ↔ (Contains self.old.seeds n ⊎ (seed ≡ Some n)) }
    {
        if let Some(n) = seed {
            self.seeds.enter(n);
        }
    }

    /// Makes the memo right for the cells and rows; it was right before they changed at the seeds. Looks only at the
    /// region of the seeds and the rows of that.
    pub(crate) fn settle(&mut self, graph: &Graph, cells: &CompactCells, rows: &PairRows)
        requires fit { IsFit graph.now cells.now rows.now }
        requires memo { IsMemoOf graph.now.tables cells.now rows.now self.old }
        ensures right { IsRight self.new.out (records_in graph.now.tables cells.now rows.now) }
        ensures none { (n : ℕ) → Contains self.new.seeds n → ⊥ }
        ensures memo { IsMemoOf graph.now.tables cells.now rows.now self.new }
    {
        let database = Database { graph, cells, rows };
        self.out.refresh(&database, self.seeds.queue(), &mut ());
        self.seeds.unmark_queue();
    }

    /// The marks of the out-of-date targets.
    pub(crate) fn marks(&self) -> &NameSet
        ensures { result.now.marks ≡ self.now.out }
    {
        self.out.marks()
    }
}
