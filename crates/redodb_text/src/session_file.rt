ghost use Rattle.std.specs.Prelude.{◌≡◌, ◌⊎◌, ◌<◌, ◌≤◌, List, [], ◌∷◌, ◌++◌, map, length, MatchOption, IfOk, IsOkAnd, IfErr, OnOk};
ghost use Rattle.std.specs.List.{AllByRecursion};
ghost use Rattle.redodb_names.specs.Support.Names.{Extends};
ghost use Rattle.redodb_model.specs.Names.{Text};
ghost use Rattle.redodb_model.specs.Command.{Item as ItemOf};
ghost use Rattle.redodb_model.specs.Renaming.{IsBelow};
ghost use Rattle.redodb_commands.specs.Meaning.{command_of};
ghost use Rattle.redodb_commands.specs.Support.Meaning.{item_at};
ghost use Rattle.redodb_text.specs.Grammar.{lines_of, IsScript, AreScriptLines};
ghost use Rattle.redodb_text.specs.Support.Faults.{IsReadFault};
ghost use Rattle.redodb_text.specs.Support.Reading.{script_line_in};

use crate::fault::{LineFault, ReadFault, Unread, at_line};
use crate::read::{MOST_COMMANDS, read_script_line};
use crate::scan::position_of;
use redodb_commands::{Item, Script};
use redodb_names::Names;
use std::alloc::Global;

/// A command has at least this many bytes with its LF: `ood`.
const SHORTEST_LINE: usize = 4;

/// The first line, and the text after its LF, if it has one.
fn cut(text: &[u8]) -> (&[u8], Option<&[u8]>)
    ensures { MatchOption result.1 (lines_of text.now ≡ result.0.now ∷ [])
        (λ rest. (lines_of text.now ≡ result.0.now ∷ lines_of rest.now)
        × (length rest.now < length text.now)) }
{
    if let [b'\n', rest @ ..] = text {
        return (&[], Some(rest));
    }
    match position_of(text, b'\n') {
        Some(end) => (&text[..end], Some(&text[end + 1..])),
        None => (text, None),
    }
}

/// A script of this text has no more items.
fn most_items(text: &[u8]) -> usize {
    (text.len() / SHORTEST_LINE + 1).min(MOST_COMMANDS)
}

/// Reads one more line.
fn take_line(
    alloc: Global,
    line: &[u8],
    items: &mut Vec<Item>,
    names: &mut Names,
) -> Result<(), Unread>
    requires few { length names.old ≤ 65536 }
    requires within { AllByRecursion
        (λ item. IsBelow (length names.old) (command_of item.command)) items.old.items }
    // The lines that were read before are read with this line.
    ensures taken { (start before : List Text)
        → AreScriptLines start before (map (item_at names.old) items.old.items) names.old
        → OnOk result (AreScriptLines start (before ++ line.now ∷ [])
        (map (item_at names.new) items.new.items) names.new) }
    ensures fault { (fault : LineFault) → result ≡ Err (Unread.Fault fault)
        → script_line_in (length items.old.items) names.old line.now ≡ Err fault }
    ensures within { OnOk result (AllByRecursion
        (λ item. IsBelow (length names.new) (command_of item.command)) items.new.items) }
    ensures kept { Extends names.old names.new }
{
    if let Some(item) = read_script_line(alloc, line, items.len(), names)? {
        items.push(item)?;
    }
    Ok(())
}

/// Reads the lines of a session file. After a fault the old names are a prefix of the names.
pub fn read_script(alloc: Global, text: &[u8], names: &mut Names) -> Result<Script, ReadFault>
    requires few { length names.old ≤ 65536 }
    // What is read is a script, and its names are added.
    ensures read { IfOk result
        (λ script. IsScript names.old text.now (map (item_at names.new) script) names.new) }
    // A script is read, unless memory runs out.
    ensures only { (items : List (ItemOf Text)) (after : List Text)
        → IsScript names.old text.now items after
        → (result ≡ Err ReadFault.Memory) ⊎ IsOkAnd result
        (λ script. (map (item_at names.new) script ≡ items) × (names.new ≡ after)) }
    // A fault is that of the first faulty line.
    ensures fault { IfErr result (IsReadFault names.old text.now) }
    ensures within { IfOk result (λ script. AllByRecursion
        (λ item. IsBelow (length names.new) (command_of item.command)) script) }
    ensures kept { Extends names.old names.new }
{
    names.are_names();
    let mut items = Vec::with_capacity(alloc, most_items(text))?;
    let mut rest = text;
    let mut number = 1usize;
    'lines: loop {
        let (line, after) = cut(rest);
        if let Err(unread) = take_line(alloc, line, &mut items, names) {
            return Err(at_line(number, unread));
        }
        let Some(next) = after else {
            return Ok(Script::new(items));
        };
        rest = next;
        number += 1;
    }
}
