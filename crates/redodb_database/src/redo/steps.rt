//! The steps of a call: the reply, and after memory was reserved the change.
ghost use Rattle.std.specs.Prelude.{◌≡◌, ℕ, ◌+◌, ◌^◌, ◌<◌, Some, None, true, false, slice_set, IfOk, IsOk, IsSome};
ghost use Rattle.redodb_model.specs.Names.{by_number};
ghost use Rattle.redodb_model.specs.Command as commands;
ghost use Rattle.redodb_model.specs.Command.{asked_lock};
ghost use Rattle.redodb_model.specs.Reply.{lets_through};
ghost use Rattle.redodb_model.specs.Step.{Answers, after, is_held_by, holds_target, verdict_of};
ghost use Rattle.redodb_model.specs.Renaming.{IsBelow, IsReplyBelow};
ghost use Rattle.redodb_commands.specs.Meaning.{command_of, reply_of};
ghost use Rattle.redodb_database.specs.Tables.{state_of, locks_of, tables_count, calls_of, has_room_for, lists_names};
ghost use Rattle.redodb_database.specs.Support.Tables.{freed_by, HasCallsLeft};

use crate::redo::Redo;
use redodb_commands::{Command, Reply};
use std::alloc::{AllocError, Global};

/// The name that a `lock` is about.
fn asked_lock(command: &Command) -> Option<u32>
    ensures { result ≡ asked_lock (command_of command.now) }
{
    match command {
        Command::Lock(t) => Some(*t),
        _ => None,
    }
}

/// The target that a command with this reply frees.
fn freed_by(command: &Command, reply: &Reply) -> Option<u32>
    ensures { result ≡ freed_by (command_of command.now) (reply_of reply.now) }
{
    match (command, reply) {
        (Command::Unlock(t), Reply::Okay) => Some(*t),
        _ => None,
    }
}

impl Redo {
    /// The reply that `call` gives, without its change. Only the lists of names allocate, and a refusal doesn't.
    pub fn reply(&self, alloc: Global, session: u16, command: &Command) -> Result<Reply, AllocError>
        requires numbers { IsBelow (tables_count self.now) (command_of command.now) }
        requires calls { calls_of self.now + 1 < 2 ^ 32 }
        ensures answers { IfOk result (λ reply. Answers by_number (state_of self.now) session
            (command_of command.now) (reply_of reply)) }
        ensures below { IfOk result
            (λ reply. IsReplyBelow (tables_count self.now) (reply_of reply)) }
        ensures lock { IsSome (asked_lock (command_of command.now)) → IsOk result }
        ensures ok { lists_names (command_of command.now) ≡ false → IsOk result }
        ensures refused { IsSome (verdict_of by_number (state_of self.now).records session
            (holds_target (state_of self.now).locks session (command_of command.now))
            (command_of command.now)) → IsOk result }
    {
        match asked_lock(command) {
            Some(t) => Ok(self.lock_reply(t)),
            None => {
                let holds = self.holds_target(session, command);
                self.reply_without_lock(alloc, session, command, holds)
            }
        }
    }

    /// The change of a session's command with this reply. Allocates nothing.
    pub fn change(&mut self, session: u16, command: &Command, reply: &Reply)
        requires numbers { IsBelow (tables_count self.old) (command_of command.now) }
        requires calls { calls_of self.old + 1 < 2 ^ 32 }
        requires room { has_room_for self.old (command_of command.now) ≡ true }
        requires answers { Answers by_number (state_of self.old) session
            (command_of command.now) (reply_of reply.now) }
        ensures after { state_of self.new
            ≡ after by_number (state_of self.old) session (command_of command.now) }
        ensures calls { calls_of self.new ≡ calls_of self.old + 1 }
        ensures count { tables_count self.new ≡ tables_count self.old }
    {
        self.count_call();
        if reply.lets_through() {
            self.obey(session, command, reply);
        }
    }

    pub(super) fn count_call(&mut self)
        requires { calls_of self.old + 1 < 2 ^ 32 }
        ensures after { self.new ≡ record self.old { calls = calls_of self.old + 1 } }
        ensures left { HasCallsLeft self.new }
    {
        self.calls += 1;
    }

    fn lock_reply(&self, t: u32) -> Reply
        requires number { t < tables_count self.now }
        requires calls { calls_of self.now + 1 < 2 ^ 32 }
        ensures answers { (session : ℕ) → Answers by_number (state_of self.now) session
            (commands.Lock t) (reply_of result) }
        ensures below { IsReplyBelow (tables_count self.now) (reply_of result) }
    {
        let granted = self.grants[t as usize];
        match self.holders[t as usize] {
            Some(_) => Reply::Busy(granted),
            None => Reply::Granted(granted + 1),
        }
    }

    fn holds_target(&self, session: u16, command: &Command) -> bool
        requires { IsBelow (tables_count self.now) (command_of command.now) }
        ensures { result ≡ holds_target (locks_of self.now) session (command_of command.now) }
    {
        match command.target() {
            Some(t) => self.holds(session, t),
            None => false,
        }
    }

    pub(super) fn holds(&self, session: u16, t: u32) -> bool
        requires { t < tables_count self.now }
        ensures { result ≡ is_held_by session ((locks_of self.now).holder t) }
    {
        match self.holders[t as usize] {
            Some(holder) => holder == session,
            None => false,
        }
    }

    /// The change of a command that isn't refused, after the call was counted.
    fn obey(&mut self, session: u16, command: &Command, reply: &Reply)
        requires numbers { IsBelow (tables_count self.old) (command_of command.now) }
        requires room { has_room_for self.old (command_of command.now) ≡ true }
        requires left { HasCallsLeft self.old }
        requires answers { Answers by_number (state_of self.old) session
            (command_of command.now) (reply_of reply.now) }
        requires accepted { lets_through (reply_of reply.now) ≡ true }
        ensures after { state_of self.new
            ≡ after by_number (state_of self.old) session (command_of command.now) }
        ensures calls { calls_of self.new ≡ calls_of self.old }
        ensures count { tables_count self.new ≡ tables_count self.old }
    {
        match asked_lock(command) {
            Some(t) => self.grant(session, t),
            None => {
                self.apply(session, command);
                if let Some(t) = freed_by(command, reply) {
                    self.free(t);
                }
            }
        }
    }

    fn grant(&mut self, session: u16, t: u32)
        requires number { t < tables_count self.old }
        requires free { (locks_of self.old).holder t ≡ None }
        requires left { HasCallsLeft self.old }
        ensures after { state_of self.new
            ≡ after by_number (state_of self.old) session (commands.Lock t) }
        ensures calls { calls_of self.new ≡ calls_of self.old }
        ensures count { tables_count self.new ≡ tables_count self.old }
    {
        let at = t as usize;
        self.holders[at] = Some(session);
        self.held.insert(t);
        self.grants[at] += 1;
    }

    fn free(&mut self, t: u32)
        requires { t < tables_count self.old }
        ensures { self.new ≡ record self.old { holders = slice_set self.old.holders t None } }
    {
        self.holders[t as usize] = None;
        self.held.remove(t);
    }
}
