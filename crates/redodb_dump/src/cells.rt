//! What is known of a name but its rows: words, each with the space before it.
ghost use Rattle.std.specs.Prelude.{◌≡◌, ◌++◌, OnOk};
ghost use Rattle.std.specs.List.{flat_map};
ghost use Rattle.redodb_text.specs.Texts.{after_space};
ghost use Rattle.redodb_dump.specs.Dumps.{cell_words, is_plain};

use crate::words::put_done;
use redodb_history::put_count;
use redodb_live::{put_holder, stage_word};
use redodb_records::{Cell, State};
use redodb_text::{put_digest_or_none, put_stamp_or_none, put_word};
use std::alloc::AllocError;

/// Whether nothing is known of the name but its file.
fn is_plain(cell: &Cell, grants: u32, holder: Option<u16>) -> bool
    ensures { result ≡ is_plain cell.now grants holder }
{
    matches!(cell.state(), State::Idle)
        && cell.builds() == 0
        && cell.last_done().is_none()
        && cell.digest_ref().is_none()
        && grants == 0
        && holder.is_none()
}

/// Writes the file, and what else is known.
pub(crate) fn put_cell(
    out: &mut Vec<u8>,
    cell: &Cell,
    grants: u32,
    holder: Option<u16>,
) -> Result<(), AllocError>
    ensures { OnOk result (out.new.items
        ≡ out.old.items ++ flat_map after_space (cell_words cell.now grants holder)) }
{
    put_stamp_or_none(out, cell.file())?;
    if is_plain(cell, grants, holder) {
        return Ok(());
    }
    put_word(out, stage_word(cell.state()))?;
    put_count(out, cell.builds() as usize)?;
    put_done(out, cell.file(), cell.last_done())?;
    put_digest_or_none(out, cell.digest_ref())?;
    put_count(out, grants as usize)?;
    put_holder(out, holder)
}
