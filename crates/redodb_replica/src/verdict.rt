ghost use Rattle.std.specs.Prelude.{◌≡◌, ℕ, List, find, length, option_map};
ghost use Rattle.redodb_model.specs.Command as commands;
ghost use Rattle.redodb_model.specs.State.{has_file};
ghost use Rattle.redodb_model.specs.Step.{refusal_of_existing, verdict_of};
ghost use Rattle.redodb_commands.specs.Meaning.{refusal_of};
ghost use Rattle.redodb_records.specs.Refusals.{refusal_of_names};
ghost use Rattle.redodb_records.specs.Rows.{by_number};
ghost use Rattle.redodb_graph.specs.Steps.{AreListed, Means};
ghost use Rattle.redodb_replica.specs.declared.rows.Row.{Row};
ghost use Rattle.redodb_replica.specs.Replicas.{records_in};
ghost use Rattle.redodb_replica.specs.Support.Changes.{IsListReady, IsReady};
ghost use Rattle.redodb_replica.specs.Support.Steps.{step_kind, step_target};

use crate::cells::CompactCells;
use redodb_commands::{Kind, Refusal};
use redodb_graph::{Graph, Listed, Step};

fn kind_of(step: &Step) -> Kind
    ensures { result ≡ step_kind step.now }
{
    match step {
        Step::File(_, _) => Kind::File,
        Step::Gone(_) => Kind::Gone,
        Step::Lock(_) => Kind::Lock,
        Step::Unlock(_) => Kind::Unlock,
        Step::Start(_) => Kind::Start,
        Step::IfChange(_, _) => Kind::IfChange,
        Step::IfCreate(_, _) => Kind::IfCreate,
        Step::Always(_) => Kind::Always,
        Step::Stamp(_, _) => Kind::Stamp,
        Step::Done(_, _) => Kind::Done,
        Step::Failed(_) => Kind::Failed,
        Step::Ood => Kind::Ood,
        Step::Targets => Kind::Targets,
        Step::Sources => Kind::Sources,
    }
}

/// The target of a step that can be refused.
fn target_of(step: &Step) -> Option<u32>
    ensures { result ≡ step_target step.now }
{
    match step {
        Step::Unlock(t)
        | Step::Start(t)
        | Step::IfChange(t, _)
        | Step::IfCreate(t, _)
        | Step::Always(t)
        | Step::Stamp(t, _)
        | Step::Done(t, _)
        | Step::Failed(t) => Some(*t),
        _ => None,
    }
}

/// The refusal of an `ifcreate` for the first of its names that has a file.
fn existing(graph: &Graph, cells: &CompactCells, list: &Listed) -> Option<Refusal>
    requires { IsListReady graph.now.tables (length cells.now) list.now }
    ensures { (rows : List Row) (t : ℕ) (names : List ℕ)
        → AreListed graph.now.tables t names list.now → option_map refusal_of result
        ≡ refusal_of_existing (find (has_file (records_in graph.now.tables cells.now rows)) names) }
{
    let pairs = graph.pairs();
    for &place in graph.listed(list) {
        let name = pairs[place as usize].1;
        if cells.get(name).file.is_some() {
            return Some(Refusal::Exists(name));
        }
    }
    None
}

/// The first refusal for the names after the step's target.
fn refusal_by_names(graph: &Graph, cells: &CompactCells, step: &Step) -> Option<Refusal>
    requires { IsReady graph.now.tables (length cells.now) step.now }
    ensures { (rows : List Row) (x : commands.Command ℕ) → Means graph.now.tables step.now x
        → option_map refusal_of result
        ≡ refusal_of_names by_number (records_in graph.now.tables cells.now rows) x }
{
    match step {
        Step::IfChange(_, list) => {
            if list.itself {
                return Some(Refusal::Itself);
            }
            None
        }
        Step::IfCreate(_, list) => {
            if list.itself {
                return Some(Refusal::Itself);
            }
            existing(graph, cells, list)
        }
        _ => None,
    }
}

/// The first refusal that applies to a session's step.
pub(crate) fn verdict(
    graph: &Graph,
    cells: &CompactCells,
    s: u8,
    step: &Step,
    holds: bool,
) -> Option<Refusal>
    requires { IsReady graph.now.tables (length cells.now) step.now }
    ensures { (rows : List Row) (x : commands.Command ℕ) → Means graph.now.tables step.now x
        → option_map refusal_of result
        ≡ verdict_of by_number (records_in graph.now.tables cells.now rows) s holds x }
{
    match target_of(step) {
        Some(t) => match cells.get(t).refusal(s, kind_of(step), holds) {
            Some(refusal) => Some(refusal),
            None => refusal_by_names(graph, cells, step),
        },
        None => None,
    }
}
