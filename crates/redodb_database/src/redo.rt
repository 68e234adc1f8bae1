ghost use Rattle.std.specs.Prelude.{◌≡◌, ◌+◌, ◌^◌, ◌<◌, IfOk, IsOk, IsSome, OnOk, OnErr};
ghost use Rattle.redodb_model.specs.Names.{by_number};
ghost use Rattle.redodb_model.specs.Command.{asked_lock};
ghost use Rattle.redodb_model.specs.Step.{Answers, after, holds_target, verdict_of};
ghost use Rattle.redodb_model.specs.Renaming.{IsBelow, IsReplyBelow};
ghost use Rattle.redodb_commands.specs.Meaning.{command_of, reply_of};

use crate::hints::Hints;
use redodb_commands::{Command, Reply};
use redodb_memo::{Bits, Memo};
use redodb_records::{DepRows, Records};
use std::alloc::{AllocError, Global};
use std::marker::Model;

mod changes;
mod lists;
mod loading;
mod questions;
mod refusals;
mod replies;
mod room;
mod spare;
mod stale;
mod steps;

pub use loading::Loading;

/// The database with its locks, for one thread. Names are numbers below the number of names it was made for.
#[derive(Drop)]
pub struct Redo {
    records: Records,
    rows: DepRows,
    /// What is out of date by the records and the rows.
    memo: Memo,
    /// Where a reason to be out of date is looked for first.
    hints: Hints,
    holders: Vec<Option<u16>>,
    /// The names that have a holder.
    held: Bits,
    grants: Vec<u32>,
    calls: u32,
}

impl Model for Redo {
    ghost use Rattle.redodb_database.specs.Tables.{Tables};

    ghost Value = { Tables };

    ghost use Rattle.redodb_database.specs.Support.Kept.{tables_of, KeepsTables};

    ghost view = { tables_of };

    ghost invariant = { KeepsTables };
}

impl Redo {
    ghost use Rattle.redodb_database.specs.Tables.{state_of, tables_count, calls_of, IsAsBefore};

    /// The reply to a session's command, and its change. An error changes neither the state nor the calls. A lock, or a
    /// command that is refused, gives no error.
    pub fn call(
        &mut self,
        alloc: Global,
        session: u16,
        command: &Command,
    ) -> Result<Reply, AllocError>
        requires numbers { IsBelow (tables_count self.old) (command_of command.now) }
        requires calls { calls_of self.old + 1 < 2 ^ 32 }
        ensures answers { IfOk result (λ reply. Answers by_number (state_of self.old) session
            (command_of command.now) (reply_of reply)) }
        ensures after { OnOk result (state_of self.new
            ≡ after by_number (state_of self.old) session (command_of command.now)) }
        ensures calls { OnOk result (calls_of self.new ≡ calls_of self.old + 1) }
        ensures below { IfOk result
            (λ reply. IsReplyBelow (tables_count self.old) (reply_of reply)) }
        ensures count { tables_count self.new ≡ tables_count self.old }
        ensures lock { IsSome (asked_lock (command_of command.now)) → IsOk result }
        ensures refused { IsSome (verdict_of by_number (state_of self.old).records session
            (holds_target (state_of self.old).locks session (command_of command.now))
            (command_of command.now)) → IsOk result }
        ensures err { OnErr result (IsAsBefore self.old self.new) }
    {
        let reply = self.reply(alloc, session, command)?;
        if reply.lets_through() {
            self.reserve(command)?;
            self.change(session, command, &reply);
        } else {
            self.count_call();
        }
        Ok(reply)
    }

    /// How many calls gave a reply.
    pub fn calls(&self) -> u32
        ensures { result ≡ calls_of self.now }
    {
        self.calls
    }
}
