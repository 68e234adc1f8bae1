ghost use Rattle.std.specs.Prelude.{◌≡◌, ◌<◌, None};
ghost use Rattle.redodb_model.specs.Command as commands;
ghost use Rattle.redodb_model.specs.Journals.{Numbered};
ghost use Rattle.redodb_journal.specs.Journals.{line_told};
ghost use Rattle.redodb_board.specs.Core as core;
ghost use Rattle.redodb_board.specs.Plays.{own_way};
ghost use Rattle.redodb_board.specs.Support.Steps.{TellsLock};
ghost use Rattle.redodb_board.specs.Shown.{session_of, journal_of, tries_of};
ghost use Rattle.redodb_board.specs.Kept.{IsBoardOf, WorksAt};
ghost use Rattle.redodb_board.specs.Support.Shown.{IsNextBy};
ghost use Rattle.redodb_board.specs.Outcomes.{Made};

use crate::board::Board;
use crate::rule::{Claim, Free};
use crate::worker::Worker;
use crate::worker::words::noted;
use redodb_commands::{Command, Reply};
use redodb_journal::{Entry, Next, Place, Plan};

impl<'a> Worker<'a> {
    /// One `fetch_or` on the claim word of a target.
    pub(crate) fn lock(&mut self, board: &Board, plan: &Plan, number: u32, target: u32)
        requires belongs { IsBoardOf plan.now board.now × WorksAt plan.now board.now self.old }
        requires command { IsNextBy plan.now self.old number None (commands.Lock target) }
        ensures works { WorksAt plan.now board.now self.new }
        ensures session { session_of self.new ≡ session_of self.old }
        ensures made { Made plan.now self.old self.new }
        ensures tries { tries_of self.new ≡ tries_of self.old }
    {
        let word = board.rows + 1 + target as usize;
        let found = board
            .table
            .shared
            .fetch_or::<Claim>(&mut self.seat, word, 1);
        self.enter(&Command::Lock(target), claim_entry(number, target, found));
    }

    /// One `fetch_add` on the claim word of a target that the session holds and doesn't build.
    pub(crate) fn free(&mut self, board: &Board, plan: &Plan, next: &Next, target: u32)
        requires belongs { IsBoardOf plan.now board.now × WorksAt plan.now board.now self.old }
        requires command { IsNextBy plan.now self.old next.now.number next.now.closing
            (commands.Unlock target) }
        requires way { own_way (journal_of plan.now self.old) (commands.Unlock target)
            ≡ core.free target }
        ensures works { WorksAt plan.now board.now self.new }
        ensures session { session_of self.new ≡ session_of self.old }
        ensures made { Made plan.now self.old self.new }
        ensures tries { tries_of self.new ≡ tries_of self.old }
    {
        let word = board.rows + 1 + target as usize;
        let found = board
            .table
            .shared
            .fetch_add::<Free>(&mut self.seat, word, 1);
        let grant = (found / 2 + 1) as u32;
        let entry = Entry {
            number: next.number,
            closing: noted(&next.closing),
            reply: Reply::Okay,
            place: Place::Released(target, grant),
        };
        self.enter(&Command::Unlock(target), entry);
    }
}

/// The entry of a lock that found this word.
fn claim_entry(number: u32, target: u32, found: u64) -> Entry
    requires { found < 4294967296 }
    ensures { TellsLock number target found result }
{
    let grant = (found / 2 + 1) as u32;
    if found % 2 == 0 {
        Entry {
            number,
            closing: None,
            reply: Reply::Granted(grant),
            place: Place::Granted(target, grant),
        }
    } else {
        Entry {
            number,
            closing: None,
            reply: Reply::Busy(grant),
            place: Place::Busy(target, grant),
        }
    }
}
