ghost use Rattle.std.specs.Prelude.{◌≡◌, ◌↔◌, ◌≤◌, ◌<◌, ◌+◌, ◌^◌, [], ◌∷◌, None, length, IfOk, IfErr, OnOk, OnErr, true};
ghost use Rattle.redodb_names.specs.Support.Names.{Extends, AreNames};
ghost use Rattle.redodb_model.specs.State.{empty};
ghost use Rattle.redodb_model.specs.Renaming.{IsBelow};
ghost use Rattle.redodb_commands.specs.Meaning.{command_of};
ghost use Rattle.redodb_commands.specs.Support.Meaning.{command_at};
ghost use Rattle.redodb_text.specs.Grammar.{IsCommandLine, AddsNames};
ghost use Rattle.redodb_text.specs.Questions.{line_fault};
ghost use Rattle.redodb_database.specs.Tables.{tables_count};

use crate::appending::{answered, append_within, line_text, text_if};
use crate::fault::{AnswerFault, Unanswered};
use redodb_commands::{Command, Line, Reply};
use redodb_database::Redo;
use redodb_names::Names;
use redodb_text::read_command;
use std::alloc::{AllocError, Global};
use std::marker::Model;
use std::mem;

mod asking;
mod ending;
mod listing;
mod parts;
mod replaying;

/// How many numbers there are for names at first.
const FIRST_NUMBERS: u32 = 64;

/// How many sessions a conversation has at most.
pub const MOST_SESSIONS: u16 = 65_535;

/// How many names a conversation has at most.
const MOST_NAMES: u32 = 16_777_216;

/// How many names a line has at most.
const NAMES_OF_A_LINE: u32 = 65;

/// From this many on, a growth doesn't double them.
const MANY_NUMBERS: u32 = 65_536;

/// How many numbers there are after a growth: of many, more by a quarter of the last power of two.
fn grown(numbers: u32) -> u32
    requires { numbers < 2 ^ 31 }
    ensures { numbers ≤ result }
{
    if numbers < MANY_NUMBERS {
        2 * numbers
    } else {
        numbers + (numbers + 1).next_power_of_two() / 8
    }
}

/// A database over names that become known with the commands.
#[derive(Drop)]
pub struct Live {
    names: Names,
    redo: Redo,
    /// There are numbers for this many names.
    numbers: u32,
    /// Memory for the line that is printed next.
    line: Vec<u8>,
}

impl Model for Live {
    ghost use Rattle.redodb_live.specs.Support.LiveState.{LiveState};

    ghost Value = { LiveState };

    ghost use Rattle.redodb_live.specs.Support.Kept.{live_of, KeepsLive};

    ghost view = { live_of };

    ghost invariant = { KeepsLive };
}

impl Live {
    ghost use Rattle.redodb_live.specs.Support.LiveState.{state_in, calls_in, HasCallsLeft};
    ghost use Rattle.redodb_live.specs.Support.LiveState.{IsAsKnown, IsSameDatabase};
    ghost use Rattle.redodb_live.specs.Support.Appended.{IsUnansweredFor, IsWorn, AnswersText, AppendsNothing};
    ghost use Rattle.redodb_live.specs.Support.Appended.{IsDue, IsObeyed};
    ghost use Rattle.redodb_live.specs.Support.AnswerFaults.{IsAnswerFaultFor, IsUnobeyedFor};

    /// The empty database.
    pub fn new(alloc: Global) -> Result<Live, AllocError>
        ensures names { IfOk result (λ live. live.names ≡ []) }
        ensures state { IfOk result (λ live. state_in live ≡ empty) }
        ensures calls { IfOk result (λ live. calls_in live ≡ 0) }
    {
        let redo = Redo::blank(alloc, FIRST_NUMBERS)?;
        Ok(Live {
            names: Names::new(alloc),
            redo,
            numbers: FIRST_NUMBERS,
            line: Vec::new(alloc),
        })
    }

    /// Answers a session's command: appends its line of the history to `output`, and to `logged` if it changes
    /// something.
    pub fn answer(
        &mut self,
        alloc: Global,
        session: u16,
        text: &[u8],
        output: &mut Vec<u8>,
        logged: &mut Vec<u8>,
    ) -> Result<(), Unanswered>
        ensures answered { OnOk result (AnswersText self.old self.new session text.now
            output.old.items output.new.items logged.old.items logged.new.items) }

        // A fault is that of the line, and a line that is answered has none.
        ensures cause { IfErr result (IsUnansweredFor self.old text.now) }
        ensures no_fault { OnOk result (line_fault 16777216 self.old.names text.now ≡ None) }

        ensures known { OnErr result (IsAsKnown self.old self.new) }
        ensures unwritten { OnErr result
            (AppendsNothing output.old.items output.new.items logged.old.items logged.new.items) }
    {
        match self.answer_within(alloc, session, text, usize::MAX, output, logged) {
            Ok(()) => Ok(()),
            Err(AnswerFault::Unanswered(why)) => Err(why),
            // No line is longer than that.
            Err(AnswerFault::TooLong(_)) => Err(Unanswered::Memory),
        }
    }

    /// Answers a session's command as `answer` does, if the answer has at most `most` bytes. If it has more, nothing is
    /// done, and the caller can give the same command again with a greater `most`.
    pub fn answer_within(
        &mut self,
        alloc: Global,
        session: u16,
        text: &[u8],
        most: usize,
        output: &mut Vec<u8>,
        logged: &mut Vec<u8>,
    ) -> Result<(), AnswerFault>
        ensures answered { OnOk result (AnswersText self.old self.new session text.now
            output.old.items output.new.items logged.old.items logged.new.items) }
        ensures fits { OnOk result
            (length output.new.items ≤ length output.old.items + most) }

        // A fault is that of the line, and a line that is answered has none. `TooLong` has the length of the answer.
        ensures cause { IfErr result (IsAnswerFaultFor self.old session text.now most) }
        ensures no_fault { OnOk result (line_fault 16777216 self.old.names text.now ≡ None) }

        ensures known { OnErr result (IsAsKnown self.old self.new) }
        ensures unwritten { OnErr result
            (AppendsNothing output.old.items output.new.items logged.old.items logged.new.items) }
    {
        if self.is_worn() {
            return Err(AnswerFault::Unanswered(Unanswered::Worn));
        }
        let count = self.names.len();
        let command = self.read(alloc, text)?;
        match self.obey(alloc, session, command, most, output, logged) {
            Ok(()) => Ok(()),
            Err(why) => {
                self.names.keep_first(count);
                Err(why)
            }
        }
    }

    /// Whether too few calls are left: closing takes two for each held target, and there are at most as many of these
    /// as names.
    fn is_worn(&self) -> bool
        ensures { (result ≡ true) ↔ IsWorn self.now }
    {
        let closing = 2 * (self.names.len() + NAMES_OF_A_LINE);
        self.redo.calls() >= u32::MAX - closing
    }

    /// Reads a command: its names become known. After an error no more names are known than before.
    fn read(&mut self, alloc: Global, text: &[u8]) -> Result<Command, Unanswered>
        requires names { AreNames self.old.names }
        ensures read { IfOk result (λ command.
            IsCommandLine text.now (command_at self.new.names command)) }
        ensures named { IfOk result (λ command. AddsNames 16777216 self.old.names
            (command_at self.new.names command ∷ []) self.new.names) }
        ensures below { IfOk result
            (λ command. IsBelow (length self.new.names) (command_of command)) }
        ensures cause { IfErr result (IsUnansweredFor self.old text.now) }
        ensures kept { Extends self.old.names self.new.names }
        ensures names { AreNames self.new.names }
        ensures known { IsSameDatabase self.old self.new }
        ensures state { state_in self.new ≡ state_in self.old }
        ensures same { OnErr result (self.new.names ≡ self.old.names) }
    {
        let known = self.names.len();
        match read_command(alloc, text, &mut self.names, MOST_NAMES) {
            Ok(command) => {
                self.names.are_names();
                Ok(command)
            }
            Err(fault) => {
                self.names.keep_first(known);
                self.names.are_names();
                Err(Unanswered::from(fault))
            }
        }
    }

    /// Answers a session's command, whose names are known.
    fn obey(
        &mut self,
        alloc: Global,
        session: u16,
        command: Command,
        most: usize,
        output: &mut Vec<u8>,
        logged: &mut Vec<u8>,
    ) -> Result<(), AnswerFault>
        requires below { IsBelow (length self.old.names) (command_of command) }
        requires names { AreNames self.old.names }
        requires calls { HasCallsLeft self.old }
        ensures obeyed { OnOk result (IsObeyed self.old self.new session (command_of command)
            output.old.items output.new.items logged.old.items logged.new.items) }
        ensures fits { OnOk result
            (length output.new.items ≤ length output.old.items + most) }
        ensures cause { IfErr result
            (IsUnobeyedFor self.old session (command_of command) most) }
        ensures names { self.new.names ≡ self.old.names }
        ensures known { OnErr result (IsSameDatabase self.old self.new) }
        ensures unwritten { OnErr result
            (AppendsNothing output.old.items output.new.items logged.old.items logged.new.items) }
    {
        self.grow()?;
        self.redo.reserve(&command)?;
        let reply = self.redo.reply(alloc, session, &command)?;
        let line = answered(alloc, session, command, &reply, &self.names)?;
        self.carry_out(alloc, &line, &reply, most, output, logged)
    }

    /// Appends the line of a command with this reply, and makes its change, in reserved memory.
    fn carry_out(
        &mut self,
        alloc: Global,
        line: &Line,
        reply: &Reply,
        most: usize,
        output: &mut Vec<u8>,
        logged: &mut Vec<u8>,
    ) -> Result<(), AnswerFault>
        requires { IsDue self.old line.now reply.now }
        ensures obeyed { OnOk result (IsObeyed self.old self.new line.now.session
            (command_of line.now.command)
            output.old.items output.new.items logged.old.items logged.new.items) }
        ensures fits { OnOk result (length output.new.items ≤ length output.old.items + most) }
        ensures cause { IfErr result (IsUnobeyedFor self.old line.now.session
            (command_of line.now.command) most) }
        ensures names { self.new.names ≡ self.old.names }
        ensures err { OnErr result (self.new ≡ self.old) }
        ensures unwritten { OnErr result
            (AppendsNothing output.old.items output.new.items logged.old.items logged.new.items) }
    {
        let old_line = self.take_line(alloc);
        let text = line_text(alloc, line, &self.names, old_line)?;
        let changes = self.redo.changes(&line.command, reply);
        append_within(output, &text, most, logged, text_if(changes, &text))?;
        self.redo.change(line.session, &line.command, reply);
        self.line = text;
        Ok(())
    }

    /// The line that was printed last, whose memory is used for the next.
    fn take_line(&mut self, alloc: Global) -> Vec<u8>
        ensures { self.new ≡ self.old }
    {
        mem::replace(&mut self.line, Vec::new(alloc))
    }

    /// A number for each name, and some more.
    fn grow(&mut self) -> Result<(), AllocError>
        requires { AreNames self.old.names }
        ensures names { self.new.names ≡ self.old.names }
        ensures known { IsSameDatabase self.old self.new }
        ensures count { OnOk result (length self.new.names ≤ tables_count self.new.tables) }
    {
        let count = self.names.len();
        if count > self.numbers {
            let numbers = grown(self.numbers).max(count).min(MOST_NAMES);
            self.redo.grow(numbers)?;
            self.numbers = numbers;
        }
        Ok(())
    }
}
