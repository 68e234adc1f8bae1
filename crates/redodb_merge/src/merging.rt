//! One history of what several sessions did.

ghost use Rattle.std.specs.Prelude.{◌≡◌, ◌↔◌, ℕ, ◌<◌, ◌≤◌, ◌+◌, IsTrue, IfOk, OnOk, MatchOption, MatchBool, length, map, slice_index, slice_index_or};
ghost use Rattle.redodb_commands.specs.Meaning.{line_of};
ghost use Rattle.redodb_commands.specs.Support.Meaning.{item_of};
ghost use Rattle.redodb_model.specs.Placed as placed;
ghost use Rattle.redodb_journal.specs.Journals.{AreJournals, line_told, entries_of};
ghost use Rattle.redodb_merge.specs.Merges.{AreMerged};
ghost use Rattle.redodb_merge.specs.Support.Merges.{HaveNoOrder};
ghost use Rattle.redodb_merge.specs.Support.Merging.{none, AreWithin, IsLeast, MayCome, MayTake, NoneMayCome, AddsLine, Turned, Uncounted};
ghost use Rattle.redodb_merge.specs.Support.Waiting.{AreWaiting};

mod counts;
mod fitting;
mod turning;
mod waiting;

use counts::{Counts, busy_answers, is_free, take};
use fitting::all_fit;
use redodb_commands::{Command, Line, Script};
use redodb_journal::{Entry, Journal, Place, Plan};
use std::alloc::{AllocError, Global};
use turning::{Turns, comes, turn};
use waiting::Waiting;

/// Whether the entry at k may come next.
fn may_come(turns: &Turns, counts: &Counts, entries: &[Entry], k: usize) -> bool
    requires { AreWithin (length turns.now.claims.items) entries.now }
    ensures { IsTrue result ↔ MayCome turns.now counts.now entries.now k }
{
    if k >= entries.len() {
        return false;
    }
    let place = entries[k].place;
    comes(turns, place) && is_free(counts, place)
}

/// The least session whose next entry may come next. Notes which sessions wait.
fn least(
    turns: &Turns,
    counts: &Counts,
    journals: &[Journal],
    next: &[usize],
    waiting: &mut Waiting,
) -> Option<usize>
    requires few { length journals.now ≤ 64 }
    requires sized { length next.now ≡ length journals.now }
    requires within { (s : ℕ) →
        AreWithin (length turns.now.claims.items) (entries_of journals.now s) }
    requires waiting { AreWaiting waiting.old turns.now counts.now journals.now next.now }
    ensures least { MatchOption result
        (NoneMayCome turns.now counts.now journals.now next.now)
        (IsLeast turns.now counts.now journals.now next.now) }
    ensures waiting { AreWaiting waiting.new turns.now counts.now journals.now next.now }
{
    'looking: while let Some(s) = waiting.first(journals.len()) {
        if may_come(turns, counts, &journals[s].entries, next[s]) {
            return Some(s);
        }
        waiting.wait(s, &journals[s].entries, next[s]);
    }
    None
}

fn is_done(journals: &[Journal], next: &[usize]) -> bool
    requires { length next.now ≡ length journals.now }
    ensures { MatchBool result
        ((s : ℕ) → s < length journals.now
        → length (entries_of journals.now s) ≤ slice_index next.now s)
        ((s : ℕ) × (s < length journals.now)
        × (slice_index next.now s < length (entries_of journals.now s))) }
{
    'looking: for s in 0..journals.len() {
        let entries: &[Entry] = &journals[s].entries;
        if next[s] < entries.len() {
            return false;
        }
    }
    true
}

/// How many entries the journals have.
fn entries_in(journals: &[Journal]) -> usize {
    journals.iter().fold(0usize, |count, journal| {
        count.saturating_add(journal.entries.len())
    })
}

/// The line of the entry of this session.
fn told(alloc: Global, session: u8, script: &Script, entry: &Entry) -> Result<Line, AllocError>
    ensures { IfOk result (λ line. line_of line
        ≡ placed.line_of (line_told session (map item_of script.now) entry.now)) }
{
    let command = match entry.command(script) {
        Some(command) => command.get().copy(alloc)?,
        // No entry of a journal is without a command.
        None => Command::Ood,
    };
    let reply = entry.reply.copy(alloc)?;
    Ok(Line {
        session: session as u16,
        command,
        reply,
    })
}

/// Takes the entry at k: adds its line, and counts its place. Returns the place.
fn take_entry(
    alloc: Global,
    script: &Script,
    journal: &Journal,
    k: usize,
    turns: &mut Turns,
    counts: &mut Counts,
    lines: &mut Vec<Line>,
) -> Result<Place, AllocError>
    requires { MayTake turns.old counts.old journal.now.entries.items k }
    ensures place { IfOk result (λ place. place
        ≡ (slice_index_or journal.now.entries.items k none).place) }
    ensures turned { OnOk result
        (Turned turns.old turns.new (slice_index_or journal.now.entries.items k none).place) }
    ensures taken { OnOk result
        (Uncounted counts.old counts.new (slice_index_or journal.now.entries.items k none).place) }
    ensures told { OnOk result (AddsLine lines.old.items lines.new.items journal.now.session
        (map item_of script.now) (slice_index_or journal.now.entries.items k none)) }
{
    let entry = &journal.entries[k];
    lines.push(told(alloc, journal.session, script, entry)?)?;
    turn(turns, entry.place);
    take(counts, entry.place);
    Ok(entry.place)
}

/// The joint order of the journals whose list of sessions comes first in dictionary order, if they
/// have a joint order.
pub fn merge(
    alloc: Global,
    plan: &Plan,
    journals: &[Journal],
) -> Result<Option<Vec<Line>>, AllocError>
    requires journals { AreJournals plan.now journals.now }
    ensures merged { IfOk result (λ answer. MatchOption answer
        (HaveNoOrder plan.now journals.now)
        (λ lines. AreMerged plan.now journals.now (map line_of lines.items))) }
{
    let scripts = plan.scripts();
    if !all_fit(scripts, journals) {
        return Ok(None);
    }
    let mut counts = busy_answers(alloc, journals)?;
    let claims = vec![in alloc; 0u64; plan.names().len() as usize]?;
    let mut turns = Turns { rows: 0, claims };
    let mut next: Vec<usize> = vec![in alloc; 0; journals.len()]?;
    let mut waiting = Waiting::new(alloc)?;
    let mut lines = Vec::with_capacity(alloc, entries_in(journals))?;
    'merging: while let Some(s) = least(&turns, &counts, journals, &next, &mut waiting) {
        let k = next[s];
        let place = take_entry(
            alloc,
            &scripts[s],
            &journals[s],
            k,
            &mut turns,
            &mut counts,
            &mut lines,
        )?;
        waiting.wake(place);
        next[s] = k + 1;
    }
    if is_done(journals, &next) {
        Ok(Some(lines))
    } else {
        Ok(None)
    }
}
