ghost use Rattle.std.specs.Prelude.{◌≡◌, ◌<◌, ℕ, List, IsTrue, IfSome, length};
ghost use Rattle.redodb_model.specs.Command as commands;
ghost use Rattle.redodb_model.specs.Names.{by_number};
ghost use Rattle.redodb_model.specs.Step.{effect_of};
ghost use Rattle.redodb_graph.specs.Steps.{TablesOf, Means};
ghost use Rattle.redodb_replica.specs.declared.rows.Row.{Row};
ghost use Rattle.redodb_replica.specs.Replicas.{records_in};
ghost use Rattle.redodb_replica.specs.Support.Changes.{IsReady};
ghost use Rattle.redodb_replica.specs.Support.Seeds.{IsSeed, step_seed};

use crate::cells::CompactCells;
use redodb_graph::Step;

/// The name or target of a step that can change records.
fn name_of(step: &Step) -> Option<u32>
    ensures { result ≡ step_seed step.now }
{
    match step {
        Step::File(n, _) | Step::Gone(n) => Some(*n),
        Step::Start(t)
        | Step::IfChange(t, _)
        | Step::IfCreate(t, _)
        | Step::Always(t)
        | Step::Stamp(t, _)
        | Step::Done(t, _)
        | Step::Failed(t) => Some(*t),
        Step::Lock(_) | Step::Unlock(_) | Step::Ood | Step::Targets | Step::Sources => None,
    }
}

/// Whether the step reports of a name what is known of its file.
fn repeats(cells: &CompactCells, step: &Step) -> bool
    requires { (tables : TablesOf) × IsReady tables (length cells.now) step.now }
    ensures { IsTrue result → (tables : TablesOf) (rows : List Row) (s : ℕ)
        (x : commands.Command ℕ) → Means tables step.now x
        → effect_of by_number (records_in tables cells.now rows) s x
        ≡ records_in tables cells.now rows }
{
    match step {
        Step::File(n, stamp) => cells.get(*n).file == Some(*stamp),
        Step::Gone(n) => cells.get(*n).file.is_none(),
        _ => false,
    }
}

/// Where an accepted step changes the records: its name or target, unless it changes nothing.
pub(crate) fn seed_of(cells: &CompactCells, step: &Step) -> Option<u32>
    requires { (tables : TablesOf) × IsReady tables (length cells.now) step.now }
    ensures below { IfSome result (λ n. n < length cells.now) }
    ensures seed { (tables : TablesOf) (rows : List Row)
        → IsSeed tables step.now (records_in tables cells.now rows) result }
{
    if repeats(cells, step) {
        return None;
    }
    name_of(step)
}
