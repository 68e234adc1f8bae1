//! How the lines of a history are read, and their commands done again.
ghost use Rattle.std.specs.Prelude.{◌≡◌, ◌+◌, ◌≤◌, length, IfOk, IfErr, OnOk, OnErr};
ghost use Rattle.redodb_names.specs.Support.Names.{Extends};
ghost use Rattle.redodb_model.specs.Names.{texts, text_at};
ghost use Rattle.redodb_model.specs.Step.{Answers, after};
ghost use Rattle.redodb_model.specs.Renaming.{IsBelow, IsReplyBelow, IsLineBelow, named_command};
ghost use Rattle.redodb_commands.specs.Meaning.{command_of, line_of, line_at, reply_of, reply_at};
ghost use Rattle.redodb_history.specs.HistoryTexts.{IsHistoryLine};
ghost use Rattle.redodb_history.specs.Support.HistoryTexts.{AddsLineNames};
ghost use Rattle.redodb_history.specs.Support.HistoryFaults.{IsLineCause};
ghost use Rattle.redodb_live.specs.Support.LiveState.{state_in, calls_in, HasCallsLeft, IsAsKnown};

use crate::live::Live;
use crate::ordering::{ascending, list_of, ordered};
use redodb_commands::{Command, Line, Reply};
use redodb_history::{HistoryFault, read_line};
use redodb_names::Names;
use std::alloc::{AllocError, Global};

impl Live {
    /// The names that are known.
    pub fn names(&self) -> &Names
        ensures { result.now ≡ self.now.names }
    {
        &self.names
    }

    /// Reads the line of this number of a history: its names become known, and nothing is done. On
    /// a fault no more names are known than before.
    pub fn read_line(
        &mut self,
        alloc: Global,
        number: usize,
        text: &[u8],
    ) -> Result<Line, HistoryFault>
        requires few { length self.old.names ≤ 65536 }
        ensures read { IfOk result
            (λ line. IsHistoryLine text.now (line_at self.new.names line)) }
        ensures named { IfOk result (λ line.
            AddsLineNames self.old.names (line_at self.new.names line) self.new.names) }
        ensures below { IfOk result
            (λ line. IsLineBelow (length self.new.names) (line_of line)) }
        ensures fault { IfErr result (IsLineCause self.old.names number text.now) }
        ensures kept { Extends self.old.names self.new.names }
        ensures names { OnErr result (self.new.names ≡ self.old.names) }
        ensures state { state_in self.new ≡ state_in self.old }
        ensures calls { calls_in self.new ≡ calls_in self.old }
    {
        self.names.are_names();
        let count = self.names.len();
        match read_line(alloc, number, text, &mut self.names) {
            Ok(line) => {
                self.names.are_names();
                Ok(line)
            }
            Err(fault) => {
                self.names.keep_first(count);
                self.names.are_names();
                Err(fault)
            }
        }
    }

    /// Does a session's command, and gives its reply; an error changes nothing. Callers pass
    /// `guess`: what the reply may be. If it is that, its list of names need not be sorted.
    pub fn call(
        &mut self,
        alloc: Global,
        session: u16,
        command: &Command,
        guess: &Reply,
    ) -> Result<Reply, AllocError>
        requires below { IsBelow (length self.old.names) (command_of command.now) }
        requires calls { HasCallsLeft self.old }
        ensures answers { IfOk result (λ reply. Answers texts (state_in self.old) session
            (named_command (text_at self.old.names) (command_of command.now))
            (reply_at self.old.names reply)) }
        ensures after { OnOk result (state_in self.new ≡ after texts (state_in self.old) session
            (named_command (text_at self.old.names) (command_of command.now))) }
        ensures below { IfOk result
            (λ reply. IsReplyBelow (length self.old.names) (reply_of reply)) }
        ensures names { self.new.names ≡ self.old.names }
        ensures calls { OnOk result (calls_in self.new ≡ calls_in self.old + 1) }
        ensures err { OnErr result (IsAsKnown self.old self.new) }
    {
        self.names.are_names();
        self.grow()?;
        let guessed = list_of(guess);
        let sorted = ascending(alloc, guessed)?;
        let reply = self.redo.call(alloc, session, command)?;
        Ok(ordered(&self.names, reply, guessed, &sorted))
    }
}
