ghost use Rattle.std.specs.Prelude.{◌≡◌, IfErr, IfSome, OnOk, OnErr, IsTrue, IsFalse};
ghost use Rattle.std.specs.List.{flat_map};
ghost use Rattle.redodb_io.specs.Watched.{has_failed};
ghost use Rattle.redodb_io.specs.Devices.{Writes, WritesNothing};
ghost use Rattle.redodb_arguments.specs.Lines.{file_name, fault_line, said, said_of, in_line, status_of};

use arrayvec::ArrayVec;
use itoa::Buffer;
use redodb_history::Verdict;
use redodb_io::{Watched, WriteFault, write_whole};
use redodb_text::{Fault, fault_word};
use std::io::Write;

/// A line of at most this many bytes is written at once: a name of 4,096 bytes fits in it.
const LINE_ROOM: usize = 4352;

fn name(files: &[String], file: usize) -> &str
    ensures { result.now ≡ file_name files.now file }
{
    match files.get(file) {
        Some(name) => name.as_str(),
        None => "-",
    }
}

/// The pieces, one after another, if they fit in one line.
fn gathered(pieces: &[&str]) -> Option<ArrayVec<u8, LINE_ROOM>>
    ensures { IfSome result (λ line. line.items ≡ flat_map (λ piece. piece.now) pieces.now) }
{
    let mut line = ArrayVec::new();
    for piece in pieces {
        if line.try_extend_from_slice(piece.as_bytes()).is_err() {
            return None;
        }
    }
    Some(line)
}

/// Writes the pieces, one after another: all at once, if they fit in one line.
fn write_pieces<W: Write>(err: &mut Watched<W>, pieces: &[&str]) -> Result<(), WriteFault>
    ensures written { OnOk result
        (Writes W.contents err.old err.new (flat_map (λ piece. piece.now) pieces.now)) }
    ensures failed { OnErr result (IsTrue (has_failed err.old err.new)) }
{
    if let Some(line) = gathered(pieces) {
        return write_whole(err, &line);
    }
    for piece in pieces {
        write_whole(err, piece.as_bytes())?;
    }
    Ok(())
}

/// `redodb: TEXT`.
fn say<W: Write>(err: &mut Watched<W>, text: &str) -> Result<(), WriteFault>
    ensures line { OnOk result (Writes W.contents err.old err.new (said text.now)) }
    ensures failed { OnErr result (IsTrue (has_failed err.old err.new)) }
{
    write_pieces(err, &["redodb: ", text, "\n"])
}

/// `redodb: FILE: TEXT`.
fn say_of_file<W: Write>(err: &mut Watched<W>, name: &str, text: &str) -> Result<(), WriteFault>
    ensures line { OnOk result (Writes W.contents err.old err.new (said_of name.now text.now)) }
    ensures failed { OnErr result (IsTrue (has_failed err.old err.new)) }
{
    write_pieces(err, &["redodb: ", name, ": ", text, "\n"])
}

/// `redodb: FILE: line L: WORD`.
fn say_line<W: Write>(
    err: &mut Watched<W>,
    name: &str,
    line: usize,
    word: &str,
) -> Result<(), WriteFault>
    ensures line { OnOk result
        (Writes W.contents err.old err.new (said_of name.now (in_line line word.now))) }
    ensures failed { OnErr result (IsTrue (has_failed err.old err.new)) }
{
    let mut digits = Buffer::new();
    let number = digits.format(line);
    write_pieces(
        err,
        &["redodb: ", name, ": line ", number, ": ", word, "\n"],
    )
}

/// Writes the fault's line.
fn tell<W: Write>(err: &mut Watched<W>, files: &[String], fault: Fault) -> Result<(), WriteFault>
    ensures line { OnOk result (Writes W.contents err.old err.new (fault_line files.now fault)) }
    ensures failed { OnErr result (IsTrue (has_failed err.old err.new)) }
{
    match fault {
        Fault::Memory => say(err, "memory"),
        Fault::Usage => say(err, "usage"),
        Fault::CannotOpen { file } => say_of_file(err, name(files, file), "cannot open"),
        Fault::Read { file } => say_of_file(err, name(files, file), "read"),
        Fault::TooLong { file } => say_of_file(err, name(files, file), "too long"),
        Fault::Line { file, line, fault } => {
            say_line(err, name(files, file), line, fault_word(fault))
        }
        Fault::BadHeader => say_of_file(err, name(files, 0), "bad header"),
        Fault::Cut => say_of_file(err, name(files, 0), "cut"),
        Fault::BadSession { line } => say_line(err, name(files, 0), line, "bad-session"),
        Fault::BadReply { line } => say_line(err, name(files, 0), line, "bad-reply"),
        Fault::NoSession => say(err, "no session"),
        Fault::TooManySessions => say(err, "too many sessions"),
        Fault::Write => say(err, "write"),
    }
}

/// Writes the fault's line to `err`, if there is a fault, and returns the program's status: 1 for a
/// history that differs, 2 for a fault, and else 0. FILE is the word in `files`, or `-` if there is
/// none. It allocates nothing, and a fault of `err` changes nothing in the status.
pub fn finish<W: Write>(
    answer: &Result<Option<Verdict>, Fault>,
    files: &[String],
    err: &mut Watched<W>,
) -> u8
    ensures status { result ≡ status_of answer.now }
    ensures silent { OnOk answer.now (WritesNothing W.contents err.old err.new) }

    // If no write of this call failed, the line is written.
    ensures line { IfErr answer.now (λ fault. IsFalse (has_failed err.old err.new)
        → Writes W.contents err.old err.new (fault_line files.now fault)) }
{
    match answer {
        Ok(None | Some(Verdict::Same(_))) => 0,
        Ok(Some(Verdict::Differs { .. })) => 1,
        Err(fault) => {
            let _ = tell(err, files, *fault);
            2
        }
    }
}
