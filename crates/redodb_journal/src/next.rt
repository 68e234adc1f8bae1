ghost use Rattle.std.specs.Prelude.{◌≡◌, ℕ, ◌<◌, ◌≤◌, ◌↔◌, ◌||◌, not, All, IfSome, IsSome, drop, length, map, option_map};
ghost use Rattle.redodb_model.specs.Journals.{first_from, next_line_of, closing_number};
ghost use Rattle.redodb_model.specs.Renaming.{IsBelow};
ghost use Rattle.redodb_commands.specs.Meaning.{command_of};
ghost use Rattle.redodb_commands.specs.Support.Meaning.{item_of};
ghost use Rattle.redodb_journal.specs.Holds.{Says, AreToldBelow, own_lines};
ghost use Rattle.redodb_journal.specs.Journals.{lines_told};
ghost use Rattle.redodb_journal.specs.Numbers.{numbered_in, numbered_by, next_after};

use crate::entry::Entry;
use crate::holds::Holds;
use redodb_commands::{Command, Item, Script};
use redodb_names::Names;

/// What a session does next: a line of its script, or a closing command.
#[derive(Debug, Drop)]
pub struct Next {
    /// The number of its entry.
    pub number: u32,
    /// The command, if it is a closing one.
    pub closing: Option<Command>,
}

/// Whether the line is done, by whether guarded lines are let through.
fn is_done(item: &Item, through: bool) -> bool
    ensures { result ≡ (through || not item.now.guarded) }
{
    through || !item.guarded
}

/// From this line on, the number of the first that is done.
fn first_done(script: &Script, through: bool, from: usize) -> Option<u32>
    ensures next { first_from through from (drop from (map item_of script.now))
        ≡ option_map (numbered_in (map item_of script.now)) result }
    ensures within { IfSome result (λ number. number < length script.now) }
{
    let items = script.items();
    let mut at = from;
    while at < items.len() {
        if is_done(&items[at], through) {
            return Some(at as u32);
        }
        at += 1;
    }
    None
}

/// The number of the script's line that a session with these entries does next, if there is one:
/// the first after the last of them that is unguarded, or that the reply there lets through.
pub fn next_line(script: &Script, entries: &[Entry]) -> Option<u32>
    ensures next { (s : ℕ) → next_line_of (map item_of script.now)
        (lines_told s (map item_of script.now) entries.now)
        ≡ option_map (numbered_in (map item_of script.now)) result }
    ensures within { IfSome result (λ number. number < length script.now) }
{
    match entries.last() {
        None => first_done(script, true, 0),
        Some(last) => first_done(script, last.reply.lets_through(), last.number as usize + 1),
    }
}

/// The number of a closing command after these entries.
fn closing_number(script: &Script, entries: &[Entry]) -> usize
    ensures number { (s : ℕ) → closing_number (map item_of script.now)
        (lines_told s (map item_of script.now) entries.now) ≡ result }
    ensures past { length script.now ≤ result }
    ensures fits { All (λ entry. entry.number < 4294967295) entries.now → result < 4294967296 }
{
    let lines = script.items().len();
    match entries.last() {
        None => lines,
        Some(last) => lines.max(last.number as usize + 1),
    }
}

/// What the session with these entries, whose table this is, does next, if anything: the next line
/// of its script, and after these a closing command.
pub fn next_step(names: &Names, script: &Script, entries: &[Entry], holds: &Holds) -> Option<Next>
    requires names { length holds.now ≡ length names.now }
    requires below { AreToldBelow (length names.now) (map item_of script.now) entries.now }
    requires numbers { All (λ entry. entry.number < 4294967295) entries.now }
    ensures next { (s : ℕ)
        → Says names.now holds.now (own_lines s (map item_of script.now) entries.now)
        → next_after names.now s (map item_of script.now) entries.now
        ≡ option_map (numbered_by (map item_of script.now)) result }
    ensures marked { IfSome result (λ next. IsSome next.closing
        ↔ (length script.now ≤ next.number)) }
    ensures below { IfSome result (λ next. IfSome next.closing (λ command.
        IsBelow (length names.now) (command_of command))) }
{
    match next_line(script, entries) {
        Some(number) => Some(Next {
            number,
            closing: None,
        }),
        None => {
            let command = holds.closing(names, script, entries)?;
            Some(Next {
                number: closing_number(script, entries) as u32,
                closing: Some(command),
            })
        }
    }
}
