//! The replies to commands that are no locks.
ghost use Rattle.std.specs.Prelude.{◌≡◌, None, option_map, false, IfOk, IsOk, IsSome};
ghost use Rattle.redodb_model.specs.Names.{by_number};
ghost use Rattle.redodb_model.specs.Command.{asked_lock};
ghost use Rattle.redodb_model.specs.Step.{Replies, Tells, verdict_of};
ghost use Rattle.redodb_model.specs.Renaming.{IsBelow, IsReplyBelow};
ghost use Rattle.redodb_commands.specs.Meaning.{command_of, reply_of, refusal_of};
ghost use Rattle.redodb_database.specs.Tables.{tables_records, tables_count, lists_names};

use crate::redo::Redo;
use crate::table::{answer, answers};
use redodb_commands::{Command, Digest, Refusal, Reply, cases};
use redodb_records::digest_of;
use std::alloc::{AllocError, Global};

impl Redo {
    /// The reply to a session's command, which is no lock. Callers pass `holds`: whether the session holds the lock of
    /// the command's target. Only the lists of names allocate, and a refusal doesn't.
    pub(super) fn reply_without_lock(
        &self,
        alloc: Global,
        s: u16,
        command: &Command,
        holds: bool,
    ) -> Result<Reply, AllocError>
        requires numbers { IsBelow (tables_count self.now) (command_of command.now) }
        requires no_lock { asked_lock (command_of command.now) ≡ None }
        ensures replies { IfOk result (λ reply. Replies by_number (tables_records self.now) s holds
            (command_of command.now) (reply_of reply)) }
        ensures below { IfOk result
            (λ reply. IsReplyBelow (tables_count self.now) (reply_of reply)) }
        ensures ok { lists_names (command_of command.now) ≡ false → IsOk result }
        ensures refused { IsSome (verdict_of by_number (tables_records self.now) s holds
            (command_of command.now)) → IsOk result }
    {
        match self.refusal(s, command, holds) {
            Some(refusal) => Ok(Reply::Refused(refusal)),
            None => self.answer(alloc, command),
        }
    }

    /// The first refusal that applies.
    fn refusal(&self, s: u16, command: &Command, holds: bool) -> Option<Refusal>
        requires { IsBelow (tables_count self.now) (command_of command.now) }
        ensures { option_map refusal_of result
            ≡ verdict_of by_number (tables_records self.now) s holds (command_of command.now) }
    {
        let t = command.target()?;
        match self.records.verdict(s, command.kind(), t, holds) {
            Some(refusal) => Some(refusal),
            None => self.refusal_of_names(command),
        }
    }

    /// The reply to an accepted command.
    fn answer(&self, alloc: Global, command: &Command) -> Result<Reply, AllocError>
        requires numbers { IsBelow (tables_count self.now) (command_of command.now) }
        requires no_lock { asked_lock (command_of command.now) ≡ None }
        ensures tells { IfOk result (λ reply. Tells by_number (tables_records self.now)
            (command_of command.now) (reply_of reply)) }
        ensures below { IfOk result
            (λ reply. IsReplyBelow (tables_count self.now) (reply_of reply)) }
        ensures ok { lists_names (command_of command.now) ≡ false → IsOk result }
    {
        cases!(answers self alloc command)
    }
}
