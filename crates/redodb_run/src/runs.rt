ghost use Rattle.std.specs.Prelude.{map, IfOk};
ghost use Rattle.redodb_commands.specs.Meaning.{line_of, line_at};
ghost use Rattle.redodb_merge.specs.Merges.{AreMerged};
ghost use Rattle.redodb_history.specs.Recorded.{AreLinesBelow};
ghost use Rattle.redodb_run.specs.Runs.{IsRun, LeavesNothingHeld};
ghost use Rattle.redodb_run.specs.Outcomes.{AreWhole, SeenStands};
ghost use Rattle.redodb_journal.specs.Plans.{scripts_named};

use crate::outcome::Outcome;
use crate::sessions::{Sessions, run_all};
use redodb_board::{Board, Gate};
use redodb_journal::Plan;
use redodb_merge::merge;
use std::alloc::{AllocError, Global};
use std::sync::Wait;
use std::thread::Threads;

/// Runs the plan, each session on a thread of its own, one of them the caller's. It joins all
/// threads before it returns.
pub fn run<G: Gate + Sync, R: Threads + Wait + Sync>(
    rt: &R,
    alloc: Global,
    plan: &Plan,
    gate: &G,
) -> Result<Outcome, AllocError>
    // The journals of all sessions, in order, each with all that the session does.
    ensures journals { IfOk result (λ outcome. AreWhole plan.now outcome.journals.items) }

    // The history is that of their first joint order. Whatever a session had seen at a line comes
    // before it.
    ensures merged { IfOk result (λ outcome. AreMerged plan.now outcome.journals.items
        (map line_of outcome.history.items)) }
    ensures seen { IfOk result (λ outcome. SeenStands plan.now outcome.journals.items) }

    // Over the names it is a run of the scripts: one legal history, in which each session does all
    // that its script says, and then closes what it holds.
    ensures run { IfOk result (λ outcome. IsRun (scripts_named plan.now)
        (map (line_at plan.now.names) outcome.history.items)) }

    // After all is done no target is held, and none is building.
    ensures let_go { IfOk result (λ outcome. LeavesNothingHeld
        (map (line_at plan.now.names) outcome.history.items)) }
    ensures below { IfOk result (λ outcome.
        AreLinesBelow plan.now.names outcome.history.items) }
{
    let (board, seat) = Board::open(alloc, plan)?;
    let sessions = Sessions {
        seat,
        first: 0,
        end: plan.scripts().len(),
    };
    let (seat, journals) = run_all(rt, alloc, &board, plan, gate, sessions)?;
    let _rows = board.close(seat);
    match merge(alloc, plan, &journals)? {
        Some(history) => Ok(Outcome { history, journals }),
        None => unreachable!(),
    }
}
