ghost use Rattle.std.specs.Prelude.{◌≡◌, ◌+◌, ◌<◌, ◌^◌, ℕ, Bool, IsSome, IsOk, None, false, option_map, IfOk};
ghost use Rattle.redodb_model.specs.Command as commands;
ghost use Rattle.redodb_model.specs.State.{empty};
ghost use Rattle.redodb_model.specs.Command.{asked_lock};
ghost use Rattle.redodb_model.specs.Renaming.{IsReplyBelow};
ghost use Rattle.redodb_model.specs.Step.{Replies, records_after, verdict_of};
ghost use Rattle.redodb_commands.specs.Meaning.{refusal_of, reply_of};
ghost use Rattle.redodb_records.specs.Rows.{by_number};
ghost use Rattle.redodb_graph.specs.Steps.{Means};
ghost use Rattle.redodb_replica.specs.Replicas.{IsGraphFor, IsStepBelow, count_of, records_of};
ghost use Rattle.redodb_replica.specs.Replies.{lists_names, naming_in};
ghost use Rattle.redodb_replica.specs.Support.Changes.{HasEffect};

use crate::cells::CompactCells;
use crate::changes::obey;
use crate::memo::Memo;
use crate::replies::answer;
use crate::rows::PairRows;
use crate::seed::seed_of;
use crate::verdict::verdict;
use redodb_commands::{Refusal, Reply};
use redodb_graph::{Graph, Step};
use std::alloc::{AllocError, Global};
use std::marker::Model;

/// The database's records for one worker of a run, over the graph of the run's plan. Only `new` and the lists of `reply`
/// allocate. Callers pass `holds`: whether the session holds the lock of the step's target.
#[derive(Drop)]
pub struct Replica<'a> {
    graph: &'a Graph,
    cells: CompactCells,
    rows: PairRows,
    // what was out of date before the cells and rows of its seeds changed
    memo: Memo,
    applied: u32,
}

impl<'a> Model for Replica<'a> {
    ghost use Rattle.redodb_replica.specs.Replicas.{ReplicaOf};

    ghost Value = { ReplicaOf };

    ghost use Rattle.redodb_replica.specs.Support.Replicas.{IsKept};

    ghost view = { λ inside. record {
      graph = inside.graph.now;
      cells = inside.cells;
      rows = inside.rows;
      applied = inside.applied;
    } };

    ghost invariant = { λ inside. IsKept (record {
      graph = inside.graph.now;
      cells = inside.cells;
      rows = inside.rows;
      applied = inside.applied;
    }) inside.memo };
}

impl<'a> Replica<'a> {
    pub fn new(alloc: Global, graph: &'a Graph, names: u32) -> Result<Replica<'a>, AllocError>
        requires { IsGraphFor names graph.now }
        ensures empty { IfOk result (λ replica. records_of replica ≡ empty.records) }
        ensures count { IfOk result (λ replica. count_of replica ≡ names) }
        ensures graph { IfOk result (λ replica. replica.graph ≡ graph.now) }
        ensures applied { IfOk result (λ replica. replica.applied ≡ 0) }
    {
        let cells = CompactCells::new(alloc, names)?;
        let rows = PairRows::new(alloc, graph.pairs().len())?;
        let memo = Memo::new(alloc, names)?;
        Ok(Replica {
            graph,
            cells,
            rows,
            memo,
            applied: 0,
        })
    }

    pub fn graph(&self) -> &'a Graph
        ensures { result.now ≡ self.now.graph }
    {
        self.graph
    }

    /// The first refusal that applies to a session's step.
    pub fn verdict(&self, s: u8, step: &Step, holds: bool) -> Option<Refusal>
        requires { IsStepBelow self.now.graph.tables (count_of self.now) step.now }
        ensures { (x : commands.Command ℕ) → Means self.now.graph.tables step.now x
            → option_map refusal_of result
            ≡ verdict_of by_number (records_of self.now) s holds x }
    {
        verdict(self.graph, &self.cells, s, step, holds)
    }

    /// The reply to a session's step, which is no lock. Only the lists of names allocate, and a refusal doesn't. If the
    /// reply says what is out of date, that is derived now, for all changes since the last such reply.
    pub fn reply(
        &mut self,
        alloc: Global,
        s: u8,
        step: &Step,
        holds: bool,
    ) -> Result<Reply, AllocError>
        requires numbers { IsStepBelow self.old.graph.tables (count_of self.old) step.now }
        requires no_lock { (x : commands.Command ℕ) → Means self.old.graph.tables step.now x
            → asked_lock x ≡ None }
        ensures replies { (x : commands.Command ℕ) → Means self.old.graph.tables step.now x
            → IfOk result (λ reply. Replies (naming_in self.old.graph) (records_of self.old) s holds
            x (reply_of reply)) }
        ensures below { IfOk result (λ reply. IsReplyBelow (count_of self.old) (reply_of reply)) }
        ensures ok { (x : commands.Command ℕ) → Means self.old.graph.tables step.now x
            → lists_names x ≡ false → IsOk result }
        ensures refused { (x : commands.Command ℕ) → Means self.old.graph.tables step.now x
            → IsSome (verdict_of (naming_in self.old.graph) (records_of self.old) s holds x)
            → IsOk result }
        ensures same { self.new ≡ self.old }
    {
        match self.verdict(s, step, holds) {
            Some(refusal) => Ok(Reply::Refused(refusal)),
            None => {
                let memo = &mut self.memo;
                answer(alloc, self.graph, &self.cells, &self.rows, memo, step)
            }
        }
    }

    /// Makes the change of a session's step, which can't fail.
    pub fn apply(&mut self, s: u8, step: &Step, holds: bool)
        requires step { IsStepBelow self.old.graph.tables (count_of self.old) step.now }
        requires applied { self.old.applied + 1 < 2 ^ 32 }
        ensures after { (x : commands.Command ℕ) → Means self.old.graph.tables step.now x
            → records_of self.new ≡ records_after by_number (records_of self.old) s holds x }
        ensures applied { self.new.applied ≡ self.old.applied + 1 }
        ensures count { count_of self.new ≡ count_of self.old }
        ensures graph { self.new.graph ≡ self.old.graph }
    {
        match self.verdict(s, step, holds) {
            Some(_) => self.applied += 1,
            None => self.accept(s, step),
        }
    }

    /// Makes the change of a session's step that has this reply, which can't fail.
    pub fn change(&mut self, s: u8, step: &Step, reply: &Reply)
        requires step { IsStepBelow self.old.graph.tables (count_of self.old) step.now }
        requires applied { self.old.applied + 1 < 2 ^ 32 }
        ensures after { (x : commands.Command ℕ) (holds : Bool)
            → Means self.old.graph.tables step.now x
            → Replies (naming_in self.old.graph) (records_of self.old) s holds x
            (reply_of reply.now)
            → records_of self.new ≡ records_after by_number (records_of self.old) s holds x }
        ensures applied { self.new.applied ≡ self.old.applied + 1 }
        ensures count { count_of self.new ≡ count_of self.old }
        ensures graph { self.new.graph ≡ self.old.graph }
    {
        if reply.lets_through() {
            self.accept(s, step);
        } else {
            self.applied += 1;
        }
    }

    /// Makes the change of a session's accepted step.
    fn accept(&mut self, s: u8, step: &Step)
        requires step { IsStepBelow self.old.graph.tables (count_of self.old) step.now }
        requires applied { self.old.applied + 1 < 2 ^ 32 }
        ensures effect { HasEffect self.old.graph.tables self.old.cells self.old.rows
            self.new.cells self.new.rows s step.now }
        ensures applied { self.new.applied ≡ self.old.applied + 1 }
        ensures count { count_of self.new ≡ count_of self.old }
        ensures graph { self.new.graph ≡ self.old.graph }
    {
        let seed = seed_of(&self.cells, step);
        obey(self.graph, &mut self.cells, &mut self.rows, s, step);
        self.memo.note(seed);
        self.applied += 1;
    }
}
