ghost use Rattle.std.specs.Prelude.{◌≡◌, ◌≤◌, ◌++◌, [], length, if◌then◌else◌, IfOk, IfErr, OnOk, OnErr};
ghost use Rattle.redodb_model.specs.Renaming.{IsLineBelow};
ghost use Rattle.redodb_model.specs.Names.{by_text};
ghost use Rattle.redodb_commands.specs.Meaning.{command_of, reply_of, line_of, line_at};
ghost use Rattle.redodb_history.specs.Histories.{line_text_of};
ghost use Rattle.redodb_live.specs.Support.Ordered.{IsSortedReply};
ghost use Rattle.redodb_live.specs.Support.Appended.{AppendsNothing};
ghost use Rattle.redodb_live.specs.Support.AnswerFaults.{IsUnwrittenFor};

use crate::fault::AnswerFault;
use crate::ordering::ordered;
use redodb_commands::{Command, Line, Reply};
use redodb_history::put_line;
use redodb_names::Names;
use std::alloc::{AllocError, Global};

/// The text if `wanted`, else nothing.
pub(crate) fn text_if(wanted: bool, text: &[u8]) -> &[u8]
    ensures { result.now ≡ (if wanted then text.now else []) }
{
    if wanted { text } else { &[] }
}

/// The line of a command that got this reply; its list of names is in the order of their texts.
pub(crate) fn answered(
    alloc: Global,
    session: u16,
    command: Command,
    reply: &Reply,
    names: &Names,
) -> Result<Line, AllocError>
    ensures session { IfOk result (λ line. line.session ≡ session) }
    ensures command { IfOk result (λ line. command_of line.command ≡ command_of command) }
    ensures reply { IfOk result (λ line. IsSortedReply (by_text names.now).order
        (reply_of reply.now) (reply_of line.reply)) }
{
    let copy = reply.copy(alloc)?;
    Ok(Line {
        session,
        command,
        reply: ordered(names, copy, &[], &[]),
    })
}

/// The line of a history, with its LF, in the memory of an older one.
pub(crate) fn line_text(
    alloc: Global,
    line: &Line,
    names: &Names,
    mut text: Vec<u8>,
) -> Result<Vec<u8>, AllocError>
    requires { IsLineBelow (length names.now) (line_of line.now) }
    ensures { IfOk result (λ text. text.items ≡ line_text_of (line_at names.now line.now)) }
{
    text.clear();
    put_line(alloc, &mut text, line, names)?;
    Ok(text)
}

/// Appends one text of at most `most` bytes to `output` and another to `logged`, or neither.
pub(crate) fn append_within(
    output: &mut Vec<u8>,
    text: &[u8],
    most: usize,
    logged: &mut Vec<u8>,
    kept: &[u8],
) -> Result<(), AnswerFault>
    ensures output { OnOk result (output.new.items ≡ output.old.items ++ text.now) }
    ensures logged { OnOk result (logged.new.items ≡ logged.old.items ++ kept.now) }
    ensures fits { OnOk result (length text.now ≤ most) }
    ensures cause { IfErr result (IsUnwrittenFor text.now most) }
    ensures err { OnErr result
        (AppendsNothing output.old.items output.new.items logged.old.items logged.new.items) }
{
    let size = text.len();
    if size > most {
        return Err(AnswerFault::TooLong(size));
    }
    let before = output.len();
    output.extend_from_slice(text)?;
    if let Err(refused) = logged.extend_from_slice(kept) {
        output.truncate(before);
        return Err(AnswerFault::from(refused));
    }
    Ok(())
}
