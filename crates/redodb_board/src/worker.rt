ghost use Rattle.std.specs.Prelude.{◌≡◌, ◌+◌, ◌<◌, [], ◌++◌, ◌∷◌, length, IfOk, IfErr, IsOk, OnErr, MatchBool, None, IfSome, option_map, vec_len, vec_capacity};
ghost use Rattle.std.specs.Borrow.{sem};
ghost use mir.Syntax.{named};
ghost use Rattle.std.specs.Option.{IfNone};
ghost use Rattle.redodb_model.specs.Renaming.{IsBelow};
ghost use Rattle.redodb_commands.specs.Meaning.{command_of};
ghost use Rattle.redodb_journal.specs.Plans.{PlanOf, script_of};
ghost use Rattle.redodb_journal.specs.Journals.{command_by};
ghost use Rattle.redodb_board.specs.declared.board.Board.{Board as BoardOf};
ghost use Rattle.redodb_board.specs.contracts.worker.Worker.{the_row};
ghost use Rattle.redodb_board.specs.Shown.{session_of, journal_of, tries_of, seen_by, first_of, end_of, entries_of, NeedsNoRow, IsAtEnd, IsLast};
ghost use Rattle.redodb_board.specs.Kept.{IsBoardOf, IsSeatOf, SitsAt, IsFresh, Works, WorksAt};
ghost use Rattle.redodb_board.specs.Support.Shown.{IsNextBy};
ghost use Rattle.redodb_board.specs.Outcomes.{Made, Waits, Leaves, Rests, Stepped};
ghost use Rattle.redodb_board.specs.Support.Steps.{Enters};

use crate::board::Board;
use crate::gate::Gate;
use crate::plan::{command_next, items, room_for, script, session_number};
use crate::seat::{Seat, Token};
use crate::worker::ways::{Way, way_for};
use redodb_commands::{Command, Reply};
use redodb_journal::{Entry, Holds, Journal, Next, Plan, next_step};
use redodb_replica::Replica;
use std::alloc::{AllocError, Global};

mod claims;
mod rows;
mod ways;
mod words;

/// A worker of one session: its journal, what it holds and builds by that, the rows that it saw,
/// and a replica of its own that is up to date with these rows, or one row behind.
#[derive(Drop)]
pub struct Worker<'a> {
    pub(crate) seat: Token,
    pub(crate) session: u8,
    pub(crate) entries: Vec<Entry>,
    pub(crate) own: Holds,
    pub(crate) replica: Replica<'a>,
    pub(crate) pending: Option<u64>,
    pub(crate) tries: u32,
}

impl<'a> Worker<'a> {
    /// A worker of the seat's one session, which reads the board's graph. If memory runs out the seat comes back.
    pub fn new(alloc: Global, board: &'a Board, plan: &Plan, seat: Seat) -> Result<Worker<'a>, Seat>
        requires board { IsBoardOf plan.now board.now }
        requires fresh { IsFresh seat × (end_of seat ≡ first_of seat + 1) }
        requires plan { IsSeatOf plan.now seat × (first_of seat < length plan.now.scripts) }
        ensures session { IfOk result (λ worker. session_of worker ≡ first_of seat) }
        ensures journal { IfOk result (λ worker. journal_of plan.now worker ≡ []) }
        ensures tries { IfOk result (λ worker. tries_of worker ≡ 0) }
        ensures works { IfOk result (λ worker. (board : BoardOf) → SitsAt plan.now board seat
            → WorksAt plan.now board worker) }
        ensures err { IfErr result (λ back. back ≡ seat) }
    {
        let session = session_number(plan, seat.first);
        let Ok(entries) = Vec::with_capacity(alloc, room_for(items(plan, session))) else {
            return Err(seat);
        };
        let Ok(own) = Holds::new(alloc, plan.names()) else {
            return Err(seat);
        };
        let Ok(replica) = Replica::new(alloc, &board.graph, plan.names().len()) else {
            return Err(seat);
        };
        Ok(Worker {
            seat: seat.seat,
            session,
            entries,
            own,
            replica,
            pending: None,
            tries: 0,
        })
    }

    /// Does the next line of the script that is unguarded, or that the latest reply lets through;
    /// after these a closing command, while the session holds a target. Lends its entry; at the end
    /// there is none. If memory runs out its command isn't done, and the next step does it.
    pub fn step<G: Gate>(
        &mut self,
        alloc: Global,
        board: &Board,
        plan: &Plan,
        gate: &G,
    ) -> Result<Option<&Entry>, AllocError>
        requires { IsBoardOf plan.now board.now × WorksAt plan.now board.now self.old }
        ensures* after { sem 𝓛 (Rests (the_row (record { mir = named 0; lft = [] })) self.entry
            (Stepped plan.now board.now self.old result)) }
        ensures no_memory { NeedsNoRow plan.now self.old → IsOk result }
    {
        if !self.advance(alloc, board, plan, gate)? {
            return Ok(None);
        }
        Ok(self.last())
    }

    /// Does what `step` does, and returns whether there was a command.
    fn advance<G: Gate>(
        &mut self,
        alloc: Global,
        board: &Board,
        plan: &Plan,
        gate: &G,
    ) -> Result<bool, AllocError>
        requires { IsBoardOf plan.now board.now × WorksAt plan.now board.now self.old }
        ensures works { WorksAt plan.now board.now self.new }
        ensures session { session_of self.new ≡ session_of self.old }
        ensures ok { IfOk result (λ made. MatchBool made (Made plan.now self.old self.new)
            (IsAtEnd plan.now self.old × (self.new ≡ self.old))) }
        ensures err { OnErr result (Waits plan.now self.old self.new) }
        ensures no_row { NeedsNoRow plan.now self.old → tries_of self.new ≡ tries_of self.old }
        ensures no_memory { NeedsNoRow plan.now self.old → IsOk result }
    {
        let Some(next) = self.next(plan) else {
            return Ok(false);
        };
        let command = command_next(plan, self.session, &next);
        gate.before(self.session, next.number);
        match way_for(&self.own, command) {
            Way::Claim(target) => self.lock(board, plan, next.number, target),
            Way::Free(target) => self.free(board, plan, &next, target),
            Way::Row => self.place(alloc, board, plan, gate, &next, command)?,
        }
        gate.after(self.session, next.number);
        Ok(true)
    }

    /// What the session does next, if there is anything.
    fn next(&self, plan: &Plan) -> Option<Next>
        requires { Works plan.now self.now }
        ensures some { IfSome result (λ next. IsNextBy plan.now self.now next.number next.closing
            (command_by (script_of plan.now self.now.session)
            (option_map command_of next.closing) next.number)) }
        ensures none { IfNone result (IsAtEnd plan.now self.now) }
    {
        next_step(
            plan.names(),
            script(plan, self.session),
            &self.entries,
            &self.own,
        )
    }

    /// Writes the entry of a command into the journal, which has reserved memory for it.
    fn enter(&mut self, command: &Command, entry: Entry)
        requires names { IsBelow (length self.old.own) (command_of command.now) }
        requires room { vec_len self.old.entries < vec_capacity self.old.entries }
        ensures { Enters self.old (command_of command.now) entry self.new }
    {
        self.own.note(command, &entry.reply);
        self.entries.push_reserved(entry);
    }

    fn last(&self) -> Option<&Entry>
        ensures { IsLast (entries_of self.now) result }
    {
        self.entries.last()
    }

    /// How many exchanges on rows it tried: one for each row word that it saw.
    pub fn tries(&self) -> u32
        ensures tries { result ≡ tries_of self.now }
        ensures seen { (plan : PlanOf) (board : BoardOf) → WorksAt plan board self.now
            → result ≡ length (seen_by self.now) }
    {
        self.tries
    }

    /// The seat, which isn't fresh, and the journal.
    pub fn leave(self) -> (Seat, Journal)
        ensures journal { (result.1.session ≡ session_of self.entry)
            × (result.1.tries ≡ tries_of self.entry) }
        ensures leaves { (plan : PlanOf) (board : BoardOf) → WorksAt plan board self.entry
            → Leaves plan board self.entry result.0 result.1 }
    {
        let session_at = self.session as usize;
        let left = Seat {
            seat: self.seat,
            first: session_at,
            end: session_at,
        };
        let journal = Journal {
            session: self.session,
            entries: self.entries,
            tries: self.tries,
        };
        (left, journal)
    }
}
