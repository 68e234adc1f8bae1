//! The rows of a target.
ghost use Rattle.std.specs.Prelude.{◌≡◌, ◌<◌, ◌++◌, List, IsTrue, IfSome, OnOk, length};
ghost use Rattle.std.specs.List.{flat_map};
ghost use Rattle.redodb_model.specs.Names.{Text, text_at};
ghost use Rattle.redodb_text.specs.Texts.{after_space};
ghost use Rattle.redodb_live.specs.Support.LiveState.{state_in};
ghost use Rattle.redodb_dump.specs.Dumps.{HasMarkForm, rows_line, rows_text};
ghost use Rattle.redodb_dump.specs.Support.Forms.{HasRowForms};
ghost use Rattle.redodb_dump.specs.Support.Slots.{has_rows, slot_words};

use crate::forms::has_change_form;
use crate::words::put_row;
use redodb_history::put_number;
use redodb_live::{Live, flag_word};
use redodb_records::Slot;
use redodb_text::put_word;
use std::alloc::AllocError;

fn has_rows(slot: &Slot) -> bool
    ensures { result ≡ has_rows slot.now }
{
    slot.created() || slot.has_change()
}

/// Writes the rows of a slot: one word, or none if there are no rows.
#[tactic(auto, using(crate::proofs::SlotWords::one_word, crate::proofs::SlotWords::no_word))]
fn put_slot(out: &mut Vec<u8>, live: &Live, slot: &Slot) -> Result<(), AllocError>
    requires { IsTrue (has_rows slot.now) → slot.now.name < length live.now.names }
    ensures text { OnOk result (out.new.items ≡ out.old.items
        ++ flat_map after_space (slot_words live.now.names (state_in live.now) slot.now)) }
    ensures form { IfSome slot.now.change HasMarkForm }
{
    has_change_form(slot);
    if has_rows(slot) {
        put_row(out, slot, &live.cell(slot.name()))
    } else {
        Ok(())
    }
}

/// Writes the line of a target with these rows, if it has any.
fn put_line(out: &mut Vec<u8>, t: u32, always: bool, words: &[u8]) -> Result<(), AllocError>
    ensures { (rows : List Text) → words.now ≡ flat_map after_space rows
        → OnOk result (out.new.items ≡ out.old.items ++ rows_text t always rows) }
{
    if !always && words.is_empty() {
        return Ok(());
    }
    put_number(out, t as usize)?;
    put_word(out, flag_word(always))?;
    out.extend_from_slice(words)?;
    out.push(b'\n')?;
    Ok(())
}

/// Writes the line of the target with this number, if it has rows: they are by the ascending numbers of the names that
/// they are on. What `words` has is lost: its memory serves one target after another.
pub(crate) fn put_rows(
    words: &mut Vec<u8>,
    out: &mut Vec<u8>,
    live: &Live,
    t: u32,
) -> Result<(), AllocError>
    requires { t < length live.now.names }
    ensures text { OnOk result (out.new.items
        ≡ out.old.items ++ rows_line live.now.names (state_in live.now) t) }
    ensures forms { OnOk result
        (HasRowForms live.now.names (state_in live.now) (text_at live.now.names t)) }
{
    words.clear();
    for slot in live.slots(t) {
        put_slot(words, live, slot)?;
    }
    put_line(out, t, live.always(t), words)
}
