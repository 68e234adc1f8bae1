//! What is known of a name but rows and locks: words, each with the space before it.
ghost use Rattle.std.specs.Prelude.{◌≡◌, ◌++◌, OnOk};
ghost use Rattle.std.specs.List.{flat_map};
ghost use Rattle.redodb_records.specs.Meaning.{target_state_of};
ghost use Rattle.redodb_text.specs.Texts.{after_space};
ghost use Rattle.redodb_live.specs.Answers.{cell_words, stage_word};

use redodb_history::put_count;
use redodb_records::{Cell, State};
use redodb_text::{put_digest_or_none, put_stamp_or_none, put_word};
use std::alloc::AllocError;

/// The word of a state, which does not tell the session.
pub fn stage_word(state: State) -> &'static [u8]
    ensures { result.now ≡ stage_word (target_state_of state) }
{
    match state {
        State::Idle => b"idle",
        State::Building(_) => b"building",
        State::Built => b"built",
        State::Failed => b"failed",
    }
}

/// Writes the name and its cell.
pub(crate) fn put_cell(out: &mut Vec<u8>, name: &[u8], cell: &Cell) -> Result<(), AllocError>
    ensures { OnOk result (out.new.items
        ≡ out.old.items ++ flat_map after_space (cell_words name.now cell.now)) }
{
    put_word(out, name)?;
    put_stamp_or_none(out, cell.file())?;
    put_word(out, stage_word(cell.state()))?;
    put_count(out, cell.builds() as usize)?;
    put_stamp_or_none(out, cell.last_done())?;
    put_digest_or_none(out, cell.digest_ref())
}
