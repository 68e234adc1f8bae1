//! How a session ends.
ghost use Rattle.std.specs.Prelude.{◌≡◌, ◌↔◌, ℕ, ◌+◌, ◌^◌, ◌<◌, ◌≤◌, ◌++◌, [], Some, Contains, cond, length, map, IfOk, IfErr, OnOk, OnErr};
ghost use Rattle.std.specs.List.{AllByRecursion, flat_map};
ghost use Rattle.std.specs.List.Sorted.{IsStrictlyIncreasing};
ghost use Rattle.redodb_model.specs.Names.{Text, by_number};
ghost use Rattle.redodb_model.specs.State.{Building, target_state};
ghost use Rattle.redodb_model.specs.Command as commands;
ghost use Rattle.redodb_model.specs.History.{LegalFrom, left_by};
ghost use Rattle.redodb_model.specs.Support.Ending.{okay_line};
ghost use Rattle.redodb_model.specs.Renaming.{IsBelow};
ghost use Rattle.redodb_commands.specs.Meaning.{command_of, line_of, line_at};
ghost use Rattle.redodb_database.specs.Tables.{state_of, tables_count, calls_of};
ghost use Rattle.redodb_history.specs.Histories.{line_text_of};
ghost use Rattle.redodb_history.specs.Recorded.{AreLinesBelow};
ghost use Rattle.redodb_live.specs.Support.Ended.{end_text};
ghost use Rattle.redodb_live.specs.Support.ClosingLines.{TakesNoRoom, letting};

use crate::appending::append_within;
use crate::fault::{AnswerFault, Unanswered};
use crate::live::Live;
use crate::ordering::sort;
use redodb_commands::{Command, Line, Reply};
use redodb_database::Redo;
use redodb_history::{put_line, put_number};
use redodb_names::Names;
use std::alloc::{AllocError, Global};

fn okay_line(session: u16, command: Command) -> Line
    ensures { line_of result ≡ okay_line session (command_of command) }
{
    Line {
        session,
        command,
        reply: Reply::Okay,
    }
}

/// Appends the closing lines of a target, which is building or not.
fn push_letting(
    lines: &mut Vec<Line>,
    session: u16,
    t: u32,
    is_building: bool,
) -> Result<(), AllocError>
    ensures { OnOk result (map line_of lines.new.items
        ≡ map line_of lines.old.items ++ letting session is_building t) }
{
    if is_building {
        lines.push(okay_line(session, Command::Failed(t)))?;
    }
    lines.push(okay_line(session, Command::Unlock(t)))?;
    Ok(())
}

/// The lines of a history.
fn lines_text(alloc: Global, lines: &[Line], names: &Names) -> Result<Vec<u8>, AllocError>
    requires { AreLinesBelow names.now lines.now }
    ensures { IfOk result
        (λ text. text.items ≡ flat_map line_text_of (map (line_at names.now) lines.now)) }
{
    let mut text = Vec::new(alloc);
    for line in lines {
        put_line(alloc, &mut text, line, names)?;
    }
    Ok(text)
}

/// The answer to a session's end with these lines.
fn with_end(alloc: Global, session: u16, lines: &[u8]) -> Result<Vec<u8>, AllocError>
    ensures { IfOk result (λ text. text.items ≡ lines.now ++ end_text session) }
{
    let mut text = Vec::from_slice(alloc, lines)?;
    put_number(&mut text, session as usize + 1)?;
    text.extend_from_slice(b" end => ok\n")?;
    Ok(text)
}

/// Does the commands of these lines. Allocates nothing.
fn close(redo: &mut Redo, lines: &[Line])
    requires below { AllByRecursion
        (λ line. IsBelow (tables_count redo.old) (command_of line.command)) lines.now }
    requires room { AllByRecursion (λ line. TakesNoRoom (command_of line.command)) lines.now }
    requires calls { calls_of redo.old + length lines.now < 2 ^ 32 }
    requires legal { LegalFrom by_number (state_of redo.old) (map line_of lines.now) }
    ensures left { state_of redo.new
        ≡ left_by by_number (state_of redo.old) (map line_of lines.now) }
    ensures calls { calls_of redo.new ≡ calls_of redo.old + length lines.now }
    ensures count { tables_count redo.new ≡ tables_count redo.old }
{
    for line in lines {
        redo.change(line.session, &line.command, &line.reply);
    }
}

impl Live {
    ghost use Rattle.redodb_live.specs.Support.LiveState.{state_in, IsAsKnown};
    ghost use Rattle.redodb_live.specs.Support.ClosingLines.{AreClosing};
    ghost use Rattle.redodb_live.specs.Support.Appended.{EndsSession, AppendsNothing};
    ghost use Rattle.redodb_live.specs.Support.AnswerFaults.{IsUnendedFor};
    ghost use Rattle.redodb_live.specs.declared.fault.Unanswered.TheVariants.{Memory};

    /// Closes all that a session holds: appends the lines of these commands to `output` and `logged`, and to `output`
    /// the line `SESSION end => ok`.
    pub fn end(
        &mut self,
        alloc: Global,
        session: u16,
        output: &mut Vec<u8>,
        logged: &mut Vec<u8>,
    ) -> Result<(), Unanswered>
        ensures ended { OnOk result (EndsSession self.old self.new session
            output.old.items output.new.items logged.old.items logged.new.items) }
        ensures memory { IfErr result (λ why. why ≡ Memory) }
        ensures known { OnErr result (IsAsKnown self.old self.new) }
        ensures unwritten { OnErr result
            (AppendsNothing output.old.items output.new.items logged.old.items logged.new.items) }
    {
        match self.end_within(alloc, session, usize::MAX, output, logged) {
            Ok(()) => Ok(()),
            // No text is longer than that.
            Err(_) => Err(Unanswered::Memory),
        }
    }

    /// Ends a session as `end` does, if the answer has at most `most` bytes. If it has more, nothing is done.
    pub fn end_within(
        &mut self,
        alloc: Global,
        session: u16,
        most: usize,
        output: &mut Vec<u8>,
        logged: &mut Vec<u8>,
    ) -> Result<(), AnswerFault>
        ensures ended { OnOk result (EndsSession self.old self.new session
            output.old.items output.new.items logged.old.items logged.new.items) }
        ensures fits { OnOk result
            (length output.new.items ≤ length output.old.items + most) }
        ensures cause { IfErr result (IsUnendedFor self.old session most) }
        ensures known { OnErr result (IsAsKnown self.old self.new) }
        ensures unwritten { OnErr result
            (AppendsNothing output.old.items output.new.items logged.old.items logged.new.items) }
    {
        let lines = self.closing_lines(alloc, session)?;
        self.names.are_names();
        let kept = lines_text(alloc, &lines, &self.names)?;
        let text = with_end(alloc, session, &kept)?;
        append_within(output, &text, most, logged, &kept)?;
        close(&mut self.redo, &lines);
        Ok(())
    }

    /// The sessions that hold something, ascending. A session that builds is among them.
    pub fn holders(&self, alloc: Global) -> Result<Vec<u16>, AllocError>
        ensures holders { IfOk result (λ sessions. (s : ℕ) → Contains sessions.items s
            ↔ ((t : Text) × ((state_in self.now).locks.holder t ≡ Some s))) }
        ensures distinct { IfOk result (λ sessions. IsStrictlyIncreasing sessions.items) }
        ensures builders { IfOk result (λ sessions. (t : Text) (s : ℕ)
            → target_state (state_in self.now).records t ≡ Building s
            → Contains sessions.items s) }
    {
        self.names.are_names();
        let sessions = self.redo.holders(alloc)?;
        Ok(sessions)
    }

    /// The closing lines of all that a session holds, in the order of the texts.
    fn closing_lines(&self, alloc: Global, session: u16) -> Result<Vec<Line>, AllocError>
        ensures { IfOk result (λ lines. AreClosing self.now session (map line_of lines.items)) }
    {
        self.names.are_names();
        let mut targets = self.redo.held_by(alloc, session)?;
        sort(&self.names, &mut targets);
        let mut lines = Vec::new(alloc);
        for t in &targets {
            let is_building = self.redo.is_building(*t);
            push_letting(&mut lines, session, *t, is_building)?;
        }
        Ok(lines)
    }
}
