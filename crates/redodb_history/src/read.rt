ghost use Rattle.std.specs.Prelude.{◌≡◌, ℕ, ◌<◌, ◌≤◌, ◌++◌, length, MatchOption, IfOk, IfErr};
ghost use Rattle.redodb_names.specs.Support.Names.{Extends};
ghost use Rattle.redodb_model.specs.Renaming.{IsLineBelow};
ghost use Rattle.redodb_commands.specs.Meaning.{line_of, line_at};
ghost use Rattle.redodb_history.specs.Histories.{header_of};
ghost use Rattle.redodb_history.specs.HistoryTexts.{IsHistoryLine};
ghost use Rattle.redodb_history.specs.Support.HistoryTexts.{AddsLineNames};
ghost use Rattle.redodb_history.specs.HistoryFaults.{IsHistoryFault, IsSessionWord};
ghost use Rattle.redodb_history.specs.Support.HistoryFaults.{IsLineCause};

use crate::cuts::{cut_at, cut_at_arrow, cut_at_space};
use crate::fault::HistoryFault;
use redodb_commands::{Line, MOST_SESSIONS};
use redodb_names::{MOST_NAMES, Names};
use redodb_text::{ReadFault, ReplyFault, read_command, read_number, read_reply};
use std::alloc::Global;

/// How many lines a history has at most.
const MOST_LINES: usize = 1_048_576;

/// The session, counted from 0, with this word as its number, if there are that many sessions.
pub fn session_of(word: &[u8], most: u16) -> Option<u16>
    ensures { MatchOption result ((session : ℕ) → ¬ (IsSessionWord most word.now session))
        (IsSessionWord most word.now) }
{
    let number = read_number(word)?;
    if number == 0 || number > most as u32 {
        return None;
    }
    Some(number as u16 - 1)
}

/// How many lines the header counts, and what follows it.
pub fn read_header(input: &[u8]) -> Result<(usize, &[u8]), HistoryFault>
    ensures read { IfOk result (λ header. (header.0 ≤ 1048576)
        × (input.now ≡ header_of header.0 ++ header.1.now)) }
    ensures fault { IfErr result (IsHistoryFault input.now) }
    ensures bad { IfErr result (λ fault. fault ≡ HistoryFault.BadHeader) }
{
    let Some((header, rest)) = cut_at(input, b'\n') else {
        return Err(HistoryFault::BadHeader);
    };
    let Some(word) = header.strip_prefix(b"history ".as_slice()) else {
        return Err(HistoryFault::BadHeader);
    };
    match read_number(word) {
        Some(count) if count as usize <= MOST_LINES => Ok((count as usize, rest)),
        _ => Err(HistoryFault::BadHeader),
    }
}

/// The line of this number and this text, with its names added. On a fault, some of its names may
/// stay.
pub fn read_line(
    alloc: Global,
    number: usize,
    text: &[u8],
    names: &mut Names,
) -> Result<Line, HistoryFault>
    requires { length names.old ≤ 65536 }
    ensures read { IfOk result (λ line. IsHistoryLine text.now (line_at names.new line)) }
    ensures named { IfOk result (λ line.
        AddsLineNames names.old (line_at names.new line) names.new) }
    ensures below { IfOk result (λ line. IsLineBelow (length names.new) (line_of line)) }
    ensures session { IfOk result (λ line. line.session < 64) }
    ensures kept { Extends names.old names.new }
    ensures fault { IfErr result (IsLineCause names.old number text.now) }
{
    let (word, rest) = cut_at_space(text);
    let Some(session) = session_of(word, MOST_SESSIONS as u16) else {
        return Err(HistoryFault::BadSession(number));
    };
    let Some((command, reply)) = cut_at_arrow(rest) else {
        return Err(HistoryFault::BadReply(number));
    };
    let command = match read_command(alloc, command, names, MOST_NAMES) {
        Ok(command) => command,
        Err(ReadFault::Memory) => return Err(HistoryFault::Memory),
        Err(ReadFault::Line { fault, .. }) => return Err(HistoryFault::BadLine(number, fault)),
    };
    let reply = match read_reply(alloc, reply, names, MOST_NAMES) {
        Ok(reply) => reply,
        Err(ReplyFault::Memory) => return Err(HistoryFault::Memory),
        Err(ReplyFault::BadReply) => return Err(HistoryFault::BadReply(number)),
    };
    Ok(Line {
        session,
        command,
        reply,
    })
}
