ghost use Rattle.std.specs.Prelude.{◌≡◌, ◌≤◌, ◌⊎◌, ◌∷◌, [], List, length, IfOk, IsOkAnd, IfErr, IfSome, true};
ghost use Rattle.std.specs.Option.{option_map};
ghost use Rattle.redodb_names.specs.Support.Names.{Extends};
ghost use Rattle.redodb_model.specs.Names.{Text};
ghost use Rattle.redodb_model.specs.Command.{Command as CommandOf};
ghost use Rattle.redodb_model.specs.Renaming.{IsBelow};
ghost use Rattle.redodb_commands.specs.Meaning.{command_of};
ghost use Rattle.redodb_commands.specs.Support.Meaning.{command_at, item_at};
ghost use Rattle.redodb_text.specs.Grammar.{IsCommandLine, IsShort, AddsNames, is_skipped as skipped_test};
ghost use Rattle.redodb_text.specs.Questions.{has_bad_byte as bad_byte_test, is_guarded, unguarded};
ghost use Rattle.redodb_text.specs.Support.Faults.{IsLineFault, LeavesNames};
ghost use Rattle.redodb_text.specs.Support.Reading.{Reads, LeavesWords, line_in, script_line_in};

use crate::fault::{LineFault, ReadFault, Unread, at_line};
use crate::forms::form_of;
use crate::words::has_bad_byte;
use redodb_commands::{Command, Item};
use redodb_names::{MOST_NAMES, Names};
use std::alloc::Global;

/// How many bytes a line has at most, without its LF.
pub const LONGEST_LINE: usize = 8192;

/// How many commands a session file has at most.
pub const MOST_COMMANDS: usize = 4096;

/// The command of a line without its LF.
#[tactic(auto, using(crate::proofs::Added::extends_same), unfolding(crate::specs::Support::Reading::line_in))]
fn line_of(alloc: Global, line: &[u8], names: &mut Names, most: u32) -> Result<Command, Unread>
    requires few { length names.old ≤ most }
    ensures reads { Reads (λ command. (command_at names.new command, names.new)) result
        (line_in most names.old line.now) }
    ensures too_long { ¬ (IsShort line.now) → result ≡ Err (Unread.Fault LineFault.LineTooLong) }
    ensures bad_byte { IsShort line.now → bad_byte_test line.now ≡ true
        → result ≡ Err (Unread.Fault LineFault.BadByte) }
    ensures within { IfOk result (λ command. IsBelow (length names.new) (command_of command)) }
    ensures left { IfErr result (LeavesWords most names.old line.now names.new) }
    ensures kept { Extends names.old names.new }
{
    if line.len() > LONGEST_LINE {
        return Err(Unread::Fault(LineFault::LineTooLong));
    }
    names.are_names();
    match form_of(alloc, names, line, most) {
        Ok(command) => Ok(command),
        Err(_) if has_bad_byte(line) => Err(Unread::Fault(LineFault::BadByte)),
        Err(unread) => Err(unread),
    }
}

/// Reads the command of a line without its LF. Faults have line 1.
///
/// After a fault of the line the names are as before, unless its own would be too many.
pub fn read_command(
    alloc: Global,
    line: &[u8],
    names: &mut Names,
    most: u32,
) -> Result<Command, ReadFault>
    requires few { length names.old ≤ most }
    // What is read is a command line, and its names are added.
    ensures read { IfOk result (λ command. IsCommandLine line.now (command_at names.new command)
        × AddsNames most names.old (command_at names.new command ∷ []) names.new) }
    // A command line whose names fit is read, unless memory runs out.
    ensures only { (command : CommandOf Text) (after : List Text) → IsCommandLine line.now command
        → AddsNames most names.old (command ∷ []) after
        → (result ≡ Err ReadFault.Memory)
        ⊎ IsOkAnd result (λ read. (command_at names.new read ≡ command) × (names.new ≡ after)) }
    // A fault is that of the first question about the line that is answered by "yes".
    ensures fault { IfErr result (IsLineFault most names.old line.now) }
    // These two come before `Memory`.
    ensures too_long { ¬ (IsShort line.now)
        → result ≡ Err (ReadFault.Line 1 LineFault.LineTooLong) }
    ensures bad_byte { IsShort line.now → bad_byte_test line.now ≡ true
        → result ≡ Err (ReadFault.Line 1 LineFault.BadByte) }
    ensures within { IfOk result (λ command. IsBelow (length names.new) (command_of command)) }
    ensures left { IfErr result (LeavesNames most names.old line.now names.new) }
    ensures kept { Extends names.old names.new }
{
    names.are_names();
    match line_of(alloc, line, names, most) {
        Ok(command) => Ok(command),
        Err(unread) => Err(at_line(1, unread)),
    }
}

fn is_skipped(line: &[u8]) -> bool
    ensures { result ≡ skipped_test line.now }
{
    match line {
        [] | [b'#', ..] => true,
        _ => false,
    }
}

/// Whether a line begins with `? `, and the line without it.
fn cut_guard(line: &[u8]) -> (bool, &[u8])
    ensures guarded { result.0 ≡ is_guarded line.now }
    ensures rest { result.1.now ≡ unguarded line.now }
{
    match line {
        [b'?', b' ', rest @ ..] => (true, rest),
        _ => (false, line),
    }
}

/// Reads a line of a script that has `count` lines so far; gives nothing if the line is skipped.
#[tactic(auto, using(crate::proofs::Added::extends_same), unfolding(crate::specs::Support::Reading::script_line_in))]
pub(crate) fn read_script_line(
    alloc: Global,
    line: &[u8],
    count: usize,
    names: &mut Names,
) -> Result<Option<Item>, Unread>
    requires few { length names.old ≤ 65536 }
    ensures reads { Reads (λ read. (option_map (item_at names.new) read, names.new)) result
        (script_line_in count names.old line.now) }
    ensures within { IfOk result
        (λ read. IfSome read (λ item. IsBelow (length names.new) (command_of item.command))) }
    ensures kept { Extends names.old names.new }
{
    if line.len() > LONGEST_LINE {
        return Err(Unread::Fault(LineFault::LineTooLong));
    }
    if is_skipped(line) {
        return Ok(None);
    }
    if count == MOST_COMMANDS {
        return Err(Unread::Fault(LineFault::TooManyLines));
    }
    let (guarded, text) = cut_guard(line);
    let command = line_of(alloc, text, names, MOST_NAMES)?;
    Ok(Some(Item { guarded, command }))
}
