ghost use Rattle.std.specs.Prelude.{◌≡◌, ◌+◌, ◌^◌, ◌<◌, false, None, IsOk, IsTrue, IsFalse, IfOk, OnOk, OnErr, MatchBool, length};
ghost use Rattle.redodb_commands.specs.Meaning.{command_of, reply_of};
ghost use Rattle.redodb_records.specs.Rows.{by_number};
ghost use Rattle.redodb_graph.specs.Graphs.{IsGraphOf};
ghost use Rattle.redodb_replica.specs.Replicas.{records_of, count_of};
ghost use Rattle.redodb_history_laws.specs.RowWord.{after_row, decoded};
ghost use Rattle.redodb_journal.specs.Plans.{IsPlan, script_of};
ghost use Rattle.redodb_board.specs.Rows.{rows_of};
ghost use Rattle.redodb_board.specs.Core.{row};
ghost use Rattle.redodb_board.specs.Support.Core.{IsWord};
ghost use Rattle.redodb_board.specs.Plays.{own_way};
ghost use Rattle.redodb_board.specs.Shown.{session_of, journal_of, tries_of};
ghost use Rattle.redodb_board.specs.Kept.{IsBoardOf, Works, WorksAt};
ghost use Rattle.redodb_board.specs.Support.Shown.{IsNextBy};
ghost use Rattle.redodb_board.specs.Support.Steps.{IsStepOf, IsSaidBy, IsReadyBy};
ghost use Rattle.redodb_replica.specs.Replies.{lists_names};
ghost use Rattle.redodb_board.specs.Outcomes.{Made, Waits};

use crate::board::Board;
use crate::gate::Gate;
use crate::rule::{Lose, Peek, Try};
use crate::worker::Worker;
use crate::worker::ways::holds_its_target;
use crate::worker::words::{line_step, noted, word_of};
use redodb_commands::{Command, Reply};
use redodb_graph::Step;
use redodb_history_laws::RowWord;
use redodb_journal::{Entry, Next, Place, Plan};
use redodb_replica::Replica;
use std::alloc::{AllocError, Global};

/// An exchange of this kind on the worker's first unseen row, which the gate is told of. It gives
/// the word that was there.
macro_rules! exchange {
    ($kind:ty, $worker:ident, $board:ident, $gate:ident, $number:expr, $own:ident) => {{
        $gate.ready($worker.session, $number, $worker.tries);
        let row = $worker.tries as usize + 1;
        let found = $board
            .table
            .shared
            .compare_exchange::<$kind>(&mut $worker.seat, row, 0, $own);
        $worker.tries += 1;
        found
    }};
}

/// Applies the command that a row word names.
fn apply_word<'a>(replica: &mut Replica<'a>, plan: &Plan, word: u64)
    requires word { IsPlan plan.now × IsWord plan.now word }
    requires graph { IsGraphOf plan.now replica.old.graph }
    requires names { count_of replica.old ≡ length plan.now.names }
    requires applied { replica.old.applied + 1 < 2 ^ 32 }
    ensures after { records_of replica.new ≡ after_row by_number (script_of plan.now)
        (records_of replica.old) (decoded word) }
    ensures applied { replica.new.applied ≡ replica.old.applied + 1 }
    ensures count { count_of replica.new ≡ count_of replica.old }
    ensures graph { replica.new.graph ≡ replica.old.graph }
{
    match RowWord::decode(word) {
        RowWord::Line {
            session,
            number,
            holds,
        } => {
            let step = line_step(replica.graph(), plan, session, number);
            replica.apply(session, &step, holds);
        }
        RowWord::Closing { session, target } => {
            replica.apply(session, &Step::Failed(target), false);
        }
    }
}

impl<'a> Worker<'a> {
    /// Applies the word that a lost exchange found, if it isn't applied yet.
    fn catch_up(&mut self, plan: &Plan)
        requires { Works plan.now self.old }
        ensures works { Works plan.now self.new }
        ensures seat { self.new.seat ≡ self.old.seat }
        ensures same { (self.new.session ≡ self.old.session) × (self.new.entries ≡ self.old.entries)
            × (self.new.tries ≡ self.old.tries) }
        ensures caught_up { self.new.pending ≡ None }
    {
        if let Some(word) = self.pending {
            apply_word(&mut self.replica, plan, word);
            self.pending = None;
        }
    }

    /// The step of what the session does next, on a row: that of the line, or a closing `failed`.
    fn step_next(&self, plan: &Plan, next: &Next, command: &Command) -> Step
        requires works { Works plan.now self.now }
        requires command { IsNextBy plan.now self.now next.now.number next.now.closing
            (command_of command.now) }
        requires way { own_way (journal_of plan.now self.now) (command_of command.now) ≡ row }
        ensures { IsStepOf self.now result (command_of command.now) }
    {
        match next.closing {
            None => line_step(self.replica.graph(), plan, self.session, next.number),
            Some(_) => Step::Failed(command.target().unwrap_or(0)),
        }
    }

    /// The reply of a step, by what the session holds.
    fn reply(&mut self, alloc: Global, step: &Step, command: &Command) -> Result<Reply, AllocError>
        requires step { IsStepOf self.old step.now (command_of command.now) }
        ensures said { IfOk result
            (λ reply. IsSaidBy self.old (command_of command.now) (reply_of reply)) }
        ensures ok { lists_names (command_of command.now) ≡ false → IsOk result }
        ensures same { self.new ≡ self.old }
    {
        let holds = holds_its_target(&self.own, command);
        self.replica.reply(alloc, self.session, step, holds)
    }

    /// The reply of a command whose reply lists names, if it isn't refused. Other replies allocate nothing, and are
    /// made after the exchange.
    fn list_first(
        &mut self,
        alloc: Global,
        step: &Step,
        command: &Command,
    ) -> Result<Option<Reply>, AllocError>
        requires step { IsStepOf self.old step.now (command_of command.now) }
        ensures ready { IfOk result (λ list. IsReadyBy self.old (command_of command.now) list) }
        ensures ok { lists_names (command_of command.now) ≡ false → IsOk result }
        ensures same { self.new ≡ self.old }
    {
        match command {
            Command::IfChange(..) | Command::Ood | Command::Targets | Command::Sources => {
                Ok(Some(self.reply(alloc, step, command)?))
            }
            _ => Ok(None),
        }
    }

    /// The reply that was made first, or else the one that allocates nothing.
    fn reply_to(
        &mut self,
        alloc: Global,
        step: &Step,
        command: &Command,
        list: Option<Reply>,
    ) -> Reply
        requires step { IsStepOf self.old step.now (command_of command.now) }
        requires ready { IsReadyBy self.old (command_of command.now) list }
        ensures said { IsSaidBy self.old (command_of command.now) (reply_of result) }
        ensures same { self.new ≡ self.old }
    {
        if let Some(reply) = list {
            return reply;
        }
        let Ok(reply) = self.reply(alloc, step, command) else {
            unreachable!()
        };
        reply
    }

    /// Loads the first unseen row. If it is filled, makes the exchange there, which is lost, before any list is made.
    /// Returns whether it was filled.
    fn pass_row<G: Gate>(
        &mut self,
        board: &Board,
        plan: &Plan,
        gate: &G,
        next: &Next,
        command: &Command,
    ) -> bool
        requires belongs { IsBoardOf plan.now board.now × WorksAt plan.now board.now self.old }
        requires command { IsNextBy plan.now self.old next.now.number next.now.closing
            (command_of command.now) }
        requires way { own_way (journal_of plan.now self.old) (command_of command.now) ≡ row }
        requires none { self.old.pending ≡ None }
        ensures works { WorksAt plan.now board.now self.new }
        ensures session { session_of self.new ≡ session_of self.old }
        ensures waits { Waits plan.now self.old self.new }
        ensures tries { IsTrue result → tries_of self.new ≡ tries_of self.old + 1 }
        ensures row { IsTrue result → tries_of self.old < rows_of plan.now }
        ensures same { IsFalse result → self.new ≡ self.old }
    {
        let row = self.tries as usize + 1;
        let word = board.table.shared.load::<Peek>(&mut self.seat, row);
        if word == 0 {
            return false;
        }
        let holds = holds_its_target(&self.own, command);
        let own = word_of(self.session, next, command, holds);
        self.pending = Some(exchange!(Lose, self, board, gate, next.number, own));
        true
    }

    /// One exchange, on the first unseen row. What follows a win allocates nothing.
    fn try_row<G: Gate>(
        &mut self,
        alloc: Global,
        board: &Board,
        plan: &Plan,
        gate: &G,
        next: &Next,
        step: &Step,
        command: &Command,
        list: Option<Reply>,
    ) -> bool
        requires belongs { IsBoardOf plan.now board.now × WorksAt plan.now board.now self.old }
        requires command { IsNextBy plan.now self.old next.now.number next.now.closing
            (command_of command.now) }
        requires way { own_way (journal_of plan.now self.old) (command_of command.now) ≡ row }
        requires none { self.old.pending ≡ None }
        requires step { IsStepOf self.old step.now (command_of command.now) }
        requires ready { IsReadyBy self.old (command_of command.now) list }
        ensures works { WorksAt plan.now board.now self.new }
        ensures session { session_of self.new ≡ session_of self.old }
        ensures result { MatchBool result (Made plan.now self.old self.new)
            (Waits plan.now self.old self.new) }
        ensures tries { tries_of self.new ≡ tries_of self.old + 1 }
        ensures row { tries_of self.old < rows_of plan.now }
    {
        let holds = holds_its_target(&self.own, command);
        let word = word_of(self.session, next, command, holds);
        let row = self.tries;
        let found = exchange!(Try, self, board, gate, next.number, word);
        if found != 0 {
            self.pending = Some(found);
            return false;
        }
        let reply = self.reply_to(alloc, step, command, list);
        self.replica.change(self.session, step, &reply);
        let entry = Entry {
            number: next.number,
            closing: noted(&next.closing),
            reply,
            place: Place::Row(row),
        };
        self.enter(command, entry);
        true
    }

    /// The command, in the first row that is empty.
    pub(crate) fn place<G: Gate>(
        &mut self,
        alloc: Global,
        board: &Board,
        plan: &Plan,
        gate: &G,
        next: &Next,
        command: &Command,
    ) -> Result<(), AllocError>
        requires belongs { IsBoardOf plan.now board.now × WorksAt plan.now board.now self.old }
        requires command { IsNextBy plan.now self.old next.now.number next.now.closing
            (command_of command.now) }
        requires way { own_way (journal_of plan.now self.old) (command_of command.now) ≡ row }
        ensures works { WorksAt plan.now board.now self.new }
        ensures session { session_of self.new ≡ session_of self.old }
        ensures ok { OnOk result (Made plan.now self.old self.new) }
        ensures err { OnErr result (Waits plan.now self.old self.new) }
    {
        'rows: loop {
            self.catch_up(plan);
            if self.pass_row(board, plan, gate, next, command) {
                continue;
            }
            let step = self.step_next(plan, next, command);
            let list = self.list_first(alloc, &step, command)?;
            if self.try_row(alloc, board, plan, gate, next, &step, command, list) {
                return Ok(());
            }
        }
    }
}
