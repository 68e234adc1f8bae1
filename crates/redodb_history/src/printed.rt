ghost use Rattle.std.specs.Prelude.{◌≡◌, ◌+◌, ◌++◌, length, codes, decimal, OnOk};
ghost use Rattle.redodb_model.specs.Renaming.{IsLineBelow};
ghost use Rattle.redodb_commands.specs.Meaning.{line_of, line_at};
ghost use Rattle.redodb_text.specs.Texts.{after_space};
ghost use Rattle.redodb_history.specs.Histories.{ended, header_of, answer_text_of, line_text_of};

use itoa::Buffer;
use redodb_commands::Line;
use redodb_names::Names;
use redodb_text::{put_command, put_reply};
use std::alloc::{AllocError, Global};

/// Writes a number in decimal digits.
pub fn put_number(text: &mut Vec<u8>, n: usize) -> Result<(), AllocError>
    ensures { OnOk result (text.new.items ≡ text.old.items ++ decimal n) }
{
    text.extend_from_slice(Buffer::new().format(n).as_bytes())
}

/// Writes a space, and a number in decimal digits.
pub fn put_count(text: &mut Vec<u8>, n: usize) -> Result<(), AllocError>
    ensures { OnOk result (text.new.items ≡ text.old.items ++ after_space (decimal n)) }
{
    text.push(b' ')?;
    put_number(text, n)
}

/// Writes a session's number, with a space after it.
pub fn put_session(text: &mut Vec<u8>, session: u16) -> Result<(), AllocError>
    ensures { OnOk result (text.new.items ≡ text.old.items ++ decimal (session + 1) ++ codes " ") }
{
    put_number(text, session as usize + 1)?;
    text.push(b' ')?;
    Ok(())
}

/// Writes how many lines a history has.
pub fn put_header(text: &mut Vec<u8>, count: usize) -> Result<(), AllocError>
    ensures { OnOk result (text.new.items ≡ text.old.items ++ header_of count) }
{
    text.extend_from_slice(b"history ")?;
    put_number(text, count)?;
    text.push(b'\n')?;
    Ok(())
}

/// Writes a line's command and reply, with an LF after them.
pub fn put_answer(
    alloc: Global,
    text: &mut Vec<u8>,
    line: &Line,
    names: &Names,
) -> Result<(), AllocError>
    requires { IsLineBelow (length names.now) (line_of line.now) }
    ensures { OnOk result (text.new.items
        ≡ text.old.items ++ ended (answer_text_of (line_at names.now line.now))) }
{
    put_command(alloc, text, &line.command, names)?;
    text.extend_from_slice(b" => ")?;
    put_reply(alloc, text, &line.reply, names)?;
    text.push(b'\n')?;
    Ok(())
}

/// Writes a line of a history, with an LF after it.
pub fn put_line(
    alloc: Global,
    text: &mut Vec<u8>,
    line: &Line,
    names: &Names,
) -> Result<(), AllocError>
    requires { IsLineBelow (length names.now) (line_of line.now) }
    ensures { OnOk result (text.new.items
        ≡ text.old.items ++ line_text_of (line_at names.now line.now)) }
{
    put_session(text, line.session)?;
    put_answer(alloc, text, line, names)
}
