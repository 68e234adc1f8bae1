// Any number of sessions, each on a thread of its own.
ghost use Rattle.std.specs.Prelude.{◌≡◌, ◌+◌, ◌<◌, ◌∷◌, [], IfOk};
ghost use Rattle.std.specs.Thread.{IsSync};
ghost use Rattle.redodb_board.specs.Kept.{IsBoardOf};
ghost use Rattle.redodb_run.specs.Support.Sessions.{AreReady, AreDone};

use redodb_board::{Board, Gate, Seat, Worker};
use redodb_journal::{Journal, Plan};
use std::alloc::{AllocError, Global};
use std::sync::Wait;
use std::thread;
use std::thread::{Promise, Scope, Threads};

/// The sessions from `first` on and below `end`, none of which has begun, and their seat.
#[derive(Drop)]
pub(crate) struct Sessions {
    pub(crate) seat: Seat,
    pub(crate) first: usize,
    pub(crate) end: usize,
}

/// The first of the sessions, and the others.
fn parted(board: &Board, plan: &Plan, sessions: Sessions) -> (Sessions, Sessions)
    requires board { IsBoardOf plan.now board.now }
    requires ready { AreReady plan.now board.now sessions }
    requires several { sessions.first + 1 < sessions.end }
    ensures left { AreReady plan.now board.now result.0 }
    ensures right { AreReady plan.now board.now result.1 }
    ensures one { (result.0.first ≡ sessions.first) × (result.0.end ≡ sessions.first + 1) }
    ensures others { (result.1.first ≡ sessions.first + 1) × (result.1.end ≡ sessions.end) }
{
    let Sessions { seat, first, end } = sessions;
    let next = first + 1;
    let (left, right) = seat.split(board, next);
    (
        Sessions {
            seat: left,
            first,
            end: next,
        },
        Sessions {
            seat: right,
            first: next,
            end,
        },
    )
}

/// Does all that the one session does.
fn work<G: Gate>(
    alloc: Global,
    board: &Board,
    plan: &Plan,
    gate: &G,
    sessions: Sessions,
) -> Result<(Seat, Journal), AllocError>
    requires board { IsBoardOf plan.now board.now }
    requires ready { AreReady plan.now board.now sessions }
    requires one { sessions.end ≡ sessions.first + 1 }
    ensures { IfOk result (λ done. AreDone plan.now board.now
        sessions.first sessions.end done.0 (done.1 ∷ [])) }
{
    let Ok(mut worker) = Worker::new(alloc, board, plan, sessions.seat) else {
        return Err(AllocError);
    };
    while let Some(_entry) = worker.step(alloc, board, plan, gate)? {}
    Ok(worker.leave())
}

/// The result of the thread of one session.
#[derive(Clone, Copy)]
struct Answer<'a> {
    board: &'a Board,
    plan: &'a Plan,
    session: usize,
}

impl<'a> Promise<Result<(Seat, Journal), AllocError>> for Answer<'a> {
    ghost use Rattle.std.specs.Prelude.{◌+◌, ◌∷◌, [], IfOk};
    ghost use Rattle.redodb_run.specs.Support.Sessions.{AreDone};

    ghost kept_by = { λ a result. IfOk result (λ done. AreDone a.plan.now a.board.now
        a.session (a.session + 1) done.0 (done.1 ∷ [])) };
}

/// The seat of the sessions after their end, and their journals, in order.
type Done = (Seat, Vec<Journal>);

/// Does all that the sessions do, each on a thread of the scope but the last, which runs on the
/// caller's. It joins all threads that it starts before it returns.
fn run_in<'s, E, G: Gate + Sync, R: Threads + Sync>(
    rt: &'s R,
    scope: &'s Scope<'s, E>,
    alloc: Global,
    board: &'s Board,
    plan: &'s Plan,
    gate: &'s G,
    sessions: Sessions,
) -> Result<Done, AllocError>
    requires board { IsBoardOf plan.now board.now }
    requires ready { AreReady plan.now board.now sessions }
    ensures { IfOk result (λ done. AreDone plan.now board.now
        sessions.first sessions.end done.0 done.1.items) }
{
    if sessions.end - sessions.first == 1 {
        let (seat, journal) = work(alloc, board, plan, gate, sessions)?;
        return Ok((seat, vec![in alloc; journal]?));
    }
    let (one, others) = parted(board, plan, sessions);
    let answer = Answer {
        board,
        plan,
        session: one.first,
    };
    let thread = scope.spawn_with(
        answer,
        move || -> Result<(Seat, Journal), AllocError>
            requires { IsBoardOf plan.now board.now × AreReady plan.now board.now one
                × (one.end ≡ one.first + 1) }
            ensures { IfOk result (λ done. AreDone plan.entry.now board.entry.now
                one.first (one.first + 1) done.0 (done.1 ∷ [])) }
        { work(alloc, board, plan, gate, one) },
    )?;
    let rest = run_in(rt, scope, alloc, board, plan, gate, others);
    let (Ok((seat, journal)), Ok((other, mut later))) = (thread.join(rt), rest) else {
        return Err(AllocError);
    };
    later.insert(0, journal)?;
    Ok((seat.meet(other, board), later))
}

/// Does all that the sessions do, each on a thread of its own, one of them the caller's. It joins
/// all threads before it returns.
pub(crate) fn run_all<G: Gate + Sync, R: Threads + Wait + Sync>(
    rt: &R,
    alloc: Global,
    board: &Board,
    plan: &Plan,
    gate: &G,
    sessions: Sessions,
) -> Result<Done, AllocError>
    requires board { IsBoardOf plan.now board.now }
    requires ready { AreReady plan.now board.now sessions }
    ensures { IfOk result (λ done. AreDone plan.now board.now
        sessions.first sessions.end done.0 done.1.items) }
{
    thread::scope(
        thread::scope_env(),
        rt,
        |scope| -> Result<Done, AllocError>
            requires { IsSync R.row × IsSync G.row × IsBoardOf plan.now board.now
                × AreReady plan.now board.now sessions }
            ensures { IfOk result (λ done. AreDone plan.entry.now board.entry.now
                sessions.first sessions.end done.0 done.1.items) }
        { run_in(rt, scope, alloc, board, plan, gate, sessions) },
    )
}
