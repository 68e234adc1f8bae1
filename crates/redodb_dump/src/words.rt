//! The words of a dump. Each word of a list has the space before it.
ghost use Rattle.std.specs.Prelude.{◌≡◌, ◌++◌, bytes_eq, decimal, OnOk};
ghost use Rattle.std.specs.Option.{option_eq};
ghost use Rattle.hex.specs.Hex.{encode_lower};
ghost use Rattle.redodb_model.specs.State.{mark_in};
ghost use Rattle.redodb_records.specs.Meaning.{row_mark_of};
ghost use Rattle.redodb_text.specs.Texts.{after_space};
ghost use Rattle.redodb_dump.specs.Dumps.{change_word, created_word, done_word, lettered_word, mark_word};

use redodb_commands::FileStamp;
use redodb_history::put_number;
use redodb_records::{Cell, Mark, Slot};
use redodb_text::put_word;
use std::alloc::AllocError;

/// Writes a stamp with an `s` before it, or `-` for none.
fn put_lettered(out: &mut Vec<u8>, stamp: Option<FileStamp>) -> Result<(), AllocError>
    ensures { OnOk result (out.new.items ≡ out.old.items ++ after_space (lettered_word stamp)) }
{
    match stamp {
        None => put_word(out, b"-"),
        Some(stamp) => {
            put_word(out, b"s")?;
            out.extend_from_slice(stamp.bytes())
        }
    }
}

fn is_same_stamp(one: &Option<FileStamp>, other: &Option<FileStamp>) -> bool
    ensures { result ≡ option_eq bytes_eq one.now other.now }
{
    match (one, other) {
        (Some(one), Some(other)) => one.bytes() == other.bytes(),
        (None, None) => true,
        _ => false,
    }
}

/// Writes the stamp of the last done, or `=` if the file has it now.
pub(crate) fn put_done(
    out: &mut Vec<u8>,
    file: Option<FileStamp>,
    done: Option<FileStamp>,
) -> Result<(), AllocError>
    ensures { OnOk result (out.new.items ≡ out.old.items ++ after_space (done_word file done)) }
{
    if is_same_stamp(&done, &file) {
        put_word(out, b"=")
    } else {
        put_lettered(out, done)
    }
}

/// Writes a digest as hexadecimal digits in lower case.
pub(crate) fn put_digest(out: &mut Vec<u8>, digest: &[u8; 20]) -> Result<(), AllocError>
    ensures { OnOk result (out.new.items ≡ out.old.items ++ encode_lower digest.now) }
{
    let mut digits = [0; 40];
    let _fits = hex::encode_to_slice(digest, &mut digits);
    out.extend_from_slice(&digits)
}

/// Writes a letter, and what the mark records.
fn put_mark(out: &mut Vec<u8>, mark: &Mark) -> Result<(), AllocError>
    ensures { OnOk result (out.new.items ≡ out.old.items ++ mark_word (row_mark_of mark.now)) }
{
    match mark {
        Mark::File(stamp) => {
            out.push(b'f')?;
            out.extend_from_slice(stamp.bytes())
        }
        Mark::Digest(digest) => {
            out.push(b'd')?;
            put_digest(out, digest)
        }
        Mark::Builds(builds) => {
            out.push(b'b')?;
            put_number(out, *builds as usize)
        }
        Mark::Pending => out.extend_from_slice(b"p"),
        Mark::Absent => out.extend_from_slice(b"a"),
    }
}

/// Writes the mark of a change row on a name with this cell, or `=` if the name has that mark now.
fn put_change(out: &mut Vec<u8>, slot: &Slot, cell: &Cell) -> Result<(), AllocError>
    ensures { OnOk result (out.new.items ≡ out.old.items
        ++ change_word (mark_in cell.now.state cell.now) slot.now.change) }
{
    match slot.change() {
        None => Ok(()),
        Some(mark) => {
            if slot.has_changed(cell) {
                put_mark(out, &mark)
            } else {
                out.extend_from_slice(b"=")
            }
        }
    }
}

/// The sign of a created row.
fn created_word(created: bool) -> &'static [u8]
    ensures { result.now ≡ created_word created }
{
    if created { b"+" } else { b"" }
}

/// Writes the rows of a slot, which are on a name with this cell. There is one at least.
pub(crate) fn put_row(out: &mut Vec<u8>, slot: &Slot, cell: &Cell) -> Result<(), AllocError>
    ensures { OnOk result (out.new.items ≡ out.old.items ++ after_space
        (created_word slot.now.created ++ decimal slot.now.name
        ++ change_word (mark_in cell.now.state cell.now) slot.now.change)) }
{
    put_word(out, created_word(slot.created()))?;
    put_number(out, slot.name() as usize)?;
    put_change(out, slot, cell)
}
