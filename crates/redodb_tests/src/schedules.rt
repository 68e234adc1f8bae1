//! Every order in which workers can take their steps.
ghost use Rattle.std.specs.Prelude.{length, All, IfOk};
ghost use Rattle.redodb_board.specs.Kept.{IsBoardOf, SitsAt, IsFreshOf, WorksAt};

use crate::gates::{Counts, check_counts};
use crate::histories::check_legal;
use crate::order::{advance, first_order};
use crate::plans::planned;
use crate::seats::{split, worker_of};
use redodb_board::{Board, Seat, Worker};
use redodb_journal::{Journal, Plan};
use std::alloc::{AllocError, Global};
use std::process::Abort;

/// A small plan, whose sessions want one target, are refused, lose rows and ask for lists.
struct Small {
    files: &'static [&'static str],
    /// How many steps of each session are taken.
    steps: &'static [usize],
    /// How many orders of these steps there are.
    orders: usize,
    /// Whether each step makes a line.
    is_full: bool,
}

/// There are 12! / (6! 6!) orders twice, 10! / (4! 3! 3!), 9! / (3! 3! 3!), 8! / (2! 2! 2! 2!) and 14! / (8! 6!).
const PLANS: [Small; 6] = [
    Small {
        files: &[
            "lock t\nstart t\ndone t 1\nunlock t\nood\nlock t\n",
            "start t\nlock t\nunlock t\nlock t\nalways t\ntargets\n",
        ],
        steps: &[6, 6],
        orders: 924,
        is_full: true,
    },
    Small {
        files: &[
            "file a 1\nlock t\nstart t\nifchange t a\ndone t 1\nood\n",
            "file a 2\nood\ngone a\ntargets\nsources\nunlock t\n",
        ],
        steps: &[6, 6],
        orders: 924,
        is_full: true,
    },
    Small {
        files: &[
            "lock t\nstart t\ndone t 1\nunlock t\n",
            "lock t\nstart t\nfailed t\n",
            "lock t\nood\nunlock t\n",
        ],
        steps: &[4, 3, 3],
        orders: 4_200,
        is_full: true,
    },
    Small {
        files: &[
            "lock t\nstart t\nifcreate t a\n",
            "file a 1\nood\nlock t\n",
            "gone a\nstart t\nunlock t\n",
        ],
        steps: &[3, 3, 3],
        orders: 1_680,
        is_full: true,
    },
    Small {
        files: &[
            "lock t\nunlock t\n",
            "lock t\nstart t\n",
            "file t 1\nood\n",
            "unlock t\ntargets\n",
        ],
        steps: &[2, 2, 2, 2],
        orders: 2_520,
        is_full: true,
    },
    // Sessions that hold and build at their end, and close that. If both get all, they take so many steps.
    Small {
        files: &[
            "lock b\nstart b\nlock a\nstart a\n",
            "lock a\nstart a\nlock b\n",
        ],
        steps: &[8, 6],
        orders: 3_003,
        is_full: false,
    },
];

/// A worker for each session.
fn workers_of<'a>(
    alloc: Global,
    board: &'a Board,
    plan: &Plan,
    seat: Seat,
) -> Result<Vec<Worker<'a>>, AllocError>
    requires board { IsBoardOf plan.now board.now × SitsAt plan.now board.now seat }
    requires fresh { IsFreshOf 0 (length plan.now.scripts) seat }
    ensures { IfOk result (λ workers. All (WorksAt plan.now board.now) workers.items) }
{
    let last = plan.scripts().len() - 1;
    let mut workers = Vec::new(alloc);
    let mut rest = seat;
    for session in 0..last {
        let (one, others) = split(board, plan, rest, session + 1);
        workers.push(worker_of(alloc, board, plan, one)?)?;
        rest = others;
    }
    workers.push(worker_of(alloc, board, plan, rest)?)?;
    Ok(workers)
}

/// Takes one step.
fn take_turn(
    alloc: Global,
    board: &Board,
    plan: &Plan,
    gate: &Counts,
    worker: &mut Worker<'_>,
) -> Result<(), AllocError>
    requires { IsBoardOf plan.now board.now × WorksAt plan.now board.now worker.old }
    ensures { WorksAt plan.now board.now worker.new }
{
    worker.step(alloc, board, plan, gate)?;
    Ok(())
}

/// Takes the steps in this order.
fn take_turns(
    rt: &impl Abort,
    alloc: Global,
    board: &Board,
    plan: &Plan,
    gate: &Counts,
    workers: &mut [Worker<'_>],
    turns: &[usize],
) -> Result<(), AllocError>
    requires board { IsBoardOf plan.now board.now }
    requires workers { All (WorksAt plan.now board.now) workers.old }
{
    for &turn in turns {
        assert!(rt; turn < workers.len());
        take_turn(alloc, board, plan, gate, &mut workers[turn])?;
    }
    Ok(())
}

/// The journals of the sessions, whose workers leave.
fn journals_of(
    rt: &impl Abort,
    alloc: Global,
    workers: Vec<Worker<'_>>,
) -> Result<Vec<Journal>, AllocError> {
    let mut journals = Vec::new(alloc);
    for worker in workers {
        let tries = worker.tries();
        let journal = worker.leave().1;
        assert!(rt; journal.tries == tries);
        journals.push(journal)?;
    }
    Ok(journals)
}

/// The workers of the sessions, which have taken their steps in this order.
fn turned<'a>(
    rt: &impl Abort,
    alloc: Global,
    board: &'a Board,
    plan: &Plan,
    gate: &Counts,
    seat: Seat,
    turns: &[usize],
) -> Result<Vec<Worker<'a>>, AllocError>
    requires board { IsBoardOf plan.now board.now × SitsAt plan.now board.now seat }
    requires fresh { IsFreshOf 0 (length plan.now.scripts) seat }
{
    let mut workers = workers_of(alloc, board, plan, seat)?;
    take_turns(rt, alloc, board, plan, gate, &mut workers, turns)?;
    Ok(workers)
}

/// The journals of the sessions in this order of their steps.
fn journals_in(
    rt: &impl Abort,
    alloc: Global,
    plan: &Plan,
    gate: &Counts,
    turns: &[usize],
) -> Result<Vec<Journal>, AllocError> {
    let (board, seat) = Board::open(alloc, plan)?;
    journals_of(
        rt,
        alloc,
        turned(rt, alloc, &board, plan, gate, seat, turns)?,
    )
}

/// In this order of steps the history is legal, and the gate is called as the journals say. Returns how many lines
/// there are.
fn check_order(
    rt: &impl Abort,
    alloc: Global,
    plan: &Plan,
    turns: &[usize],
) -> Result<usize, AllocError> {
    let gate = Counts::new(alloc, &[])?;
    let journals = journals_in(rt, alloc, plan, &gate, turns)?;
    check_counts(rt, &gate, &journals);
    check_legal(rt, alloc, plan, &journals, turns)
}

/// Checks this order of steps and all later ones.
fn check_orders(
    rt: &impl Abort,
    alloc: Global,
    plan: &Plan,
    small: &Small,
    turns: &mut [usize],
) -> Result<(), AllocError> {
    for left in (0..small.orders).rev() {
        let lines = check_order(rt, alloc, plan, turns)?;
        assert!(rt; !small.is_full || lines == turns.len());
        assert!(rt; advance(turns) == (left > 0));
    }
    Ok(())
}

/// Checks each order of the steps of a plan.
fn check_plan(
    rt: &impl Abort,
    alloc: Global,
    plan: &Plan,
    small: &Small,
) -> Result<(), AllocError> {
    let mut turns = first_order(alloc, small.steps)?;
    check_orders(rt, alloc, plan, small, &mut turns)
}

/// The same of its files.
fn check_files(rt: &impl Abort, alloc: Global, small: &Small) -> Result<(), AllocError> {
    let plan = planned(alloc, small.files)?.expect(rt, "a plan");
    check_plan(rt, alloc, &plan, small)
}

#[test]
fn every_schedule(rt: HostRuntime) -> Result<(), AllocError> {
    for small in &PLANS {
        check_files(&rt, rt.alloc(), small)?;
    }
    Ok(())
}
