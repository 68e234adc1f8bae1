ghost use Rattle.std.specs.Prelude.{◌≡◌, ℕ, ◌<◌, IfSome, length, map, filter, option_map};
ghost use Rattle.std.specs.Option.{ForSome};
ghost use Rattle.redodb_model.specs.Command.{asked_lock};
ghost use Rattle.redodb_model.specs.Renaming.{IsBelow};
ghost use Rattle.redodb_model.specs.Closing.{lesser_of, least, closing_of};
ghost use Rattle.redodb_model.specs.Names.{by_text};
ghost use Rattle.redodb_commands.specs.Meaning.{command_of};
ghost use Rattle.redodb_commands.specs.Support.Meaning.{item_of};
ghost use Rattle.redodb_journal.specs.Journals.{command_told};
ghost use Rattle.redodb_journal.specs.Holds.{Says, AreToldBelow, own_lines};
ghost use Rattle.redodb_journal.specs.Support.Holds.{is_held, locked_in, lesser_held};

use crate::entry::Entry;
use crate::holds::Holds;
use redodb_commands::{Command, Script};
use redodb_names::Names;
use std::cmp::Ordering;

/// The name that the entry's command locks, if it is a lock.
fn locked_by(script: &Script, entry: &Entry) -> Option<u32>
    ensures { result ≡ asked_lock (command_told (map item_of script.now) entry.now) }
{
    match entry.command(script)?.get() {
        Command::Lock(name) => Some(*name),
        _ => None,
    }
}

/// The name, or the other if that comes first by bytes.
fn lesser(names: &Names, name: u32, other: Option<u32>) -> u32
    requires name { name < length names.now }
    requires other { ForSome other (λ other. other < length names.now) }
    ensures lesser { result ≡ lesser_of (by_text names.now) name other }
    ensures below { result < length names.now }
{
    let Some(other) = other else {
        return name;
    };
    match names.order(name, other) {
        Ordering::Greater => other,
        Ordering::Less | Ordering::Equal => name,
    }
}

impl Holds {
    /// The lesser of the name, if it is held, and the least so far.
    fn lesser_held(&self, names: &Names, name: Option<u32>, least: Option<u32>) -> Option<u32>
        requires names { length self.now ≡ length names.now }
        requires name { ForSome name (λ name. name < length names.now) }
        requires least { ForSome least (λ least. least < length names.now) }
        ensures lesser { result ≡ lesser_held (by_text names.now) self.now name least }
        ensures below { IfSome result (λ name. name < length names.now) }
    {
        match name {
            Some(name) if self.at(name).held => Some(lesser(names, name, least)),
            _ => least,
        }
    }

    /// The least by bytes of the names that the entries lock and that are held.
    pub(crate) fn least_held(
        &self,
        names: &Names,
        script: &Script,
        entries: &[Entry],
    ) -> Option<u32>
        requires names { length self.now ≡ length names.now }
        requires below { AreToldBelow (length names.now) (map item_of script.now) entries.now }
        ensures least { result ≡ least (by_text names.now)
            (filter (is_held self.now) (locked_in (map item_of script.now) entries.now)) }
        ensures below { IfSome result (λ name. name < length names.now) }
    {
        let mut least = None;
        let mut at = entries.len();
        while at > 0 {
            at -= 1;
            least = self.lesser_held(names, locked_by(script, &entries[at]), least);
        }
        least
    }

    /// The closing command after these entries of the session, whose table this is: about the least target by bytes
    /// that it holds, `failed` if it builds it, else `unlock`.
    pub fn closing(&self, names: &Names, script: &Script, entries: &[Entry]) -> Option<Command>
        requires names { length self.now ≡ length names.now }
        requires below { AreToldBelow (length names.now) (map item_of script.now) entries.now }
        ensures closing { (s : ℕ)
            → Says names.now self.now (own_lines s (map item_of script.now) entries.now)
            → option_map command_of result ≡ closing_of (by_text names.now)
            (own_lines s (map item_of script.now) entries.now) }
        ensures below { IfSome result (λ command. IsBelow (length names.now)
            (command_of command)) }
    {
        let name = self.least_held(names, script, entries)?;
        if self.at(name).building {
            Some(Command::Failed(name))
        } else {
            Some(Command::Unlock(name))
        }
    }
}
