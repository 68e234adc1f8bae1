//! Whether each entry has a place that fits it.

ghost use Rattle.std.specs.Prelude.{◌≡◌, ◌↔◌, ℕ, IsTrue, MatchBool, length, map};
ghost use Rattle.redodb_model.specs.Placed as placed;
ghost use Rattle.redodb_model.specs.Placed.{Fits};
ghost use Rattle.redodb_commands.specs.Meaning.{command_of, reply_of};
ghost use Rattle.redodb_commands.specs.Support.Meaning.{item_of};
ghost use Rattle.redodb_journal.specs.Plans.{scripts_of};
ghost use Rattle.redodb_journal.specs.Journals.{place_of};
ghost use Rattle.redodb_merge.specs.Support.Merging.{AllFit, FitsAt, FitsScript, MisfitsAt, OneMisfits};

use redodb_commands::{Command, Reply, Script};
use redodb_journal::{Entry, Journal, Place};

fn is_claim(command: &Command, reply: &Reply) -> bool
    ensures { result ≡ placed.is_claim (command_of command.now) (reply_of reply.now) }
{
    match (command, reply) {
        (Command::Lock(_), Reply::Granted(_)) => true,
        (Command::Lock(_), Reply::Busy(_)) => true,
        (Command::Unlock(_), Reply::Okay) => true,
        _ => false,
    }
}

/// Whether the place fits the command and its reply.
fn fits(command: &Command, reply: &Reply, place: Place) -> bool
    ensures { IsTrue result
        ↔ Fits (place_of place) (command_of command.now) (reply_of reply.now) }
{
    match (place, command, reply) {
        (Place::Row(_), _, _) => !is_claim(command, reply),
        (Place::Granted(t, g), Command::Lock(u), Reply::Granted(h)) => t == *u && g == *h,
        (Place::Busy(t, g), Command::Lock(u), Reply::Busy(h)) => t == *u && g == *h,
        (Place::Released(t, _), Command::Unlock(u), Reply::Okay) => t == *u,
        _ => false,
    }
}

fn entry_fits(script: &Script, entry: &Entry) -> bool
    ensures { IsTrue result ↔ FitsScript (map item_of script.now) entry.now }
{
    match entry.command(script) {
        Some(command) => fits(command.get(), &entry.reply, entry.place),
        // No entry of a journal is without a command.
        None => fits(&Command::Ood, &entry.reply, entry.place),
    }
}

fn journal_fits(script: &Script, entries: &[Entry]) -> bool
    ensures { MatchBool result
        ((k : ℕ) → FitsAt (map item_of script.now) entries.now k)
        ((k : ℕ) × MisfitsAt (map item_of script.now) entries.now k) }
{
    'fitting: for k in 0..entries.len() {
        if !entry_fits(script, &entries[k]) {
            return false;
        }
    }
    true
}

/// Whether each entry of the journals has a place that fits it.
pub(crate) fn all_fit(scripts: &[Script], journals: &[Journal]) -> bool
    requires sized { length journals.now ≡ length scripts.now }
    ensures { MatchBool result
        (AllFit (scripts_of scripts.now) journals.now)
        (OneMisfits (scripts_of scripts.now) journals.now) }
{
    'checking: for s in 0..journals.len() {
        if !journal_fits(&scripts[s], &journals[s].entries) {
            return false;
        }
    }
    true
}
