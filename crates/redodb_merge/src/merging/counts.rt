//! How many busy replies of each grant are left.

ghost use Rattle.std.specs.Prelude.{◌≡◌, ◌↔◌, ℕ, ◌+◌, ◌<◌, ◌≤◌, ◌^◌, ◌*◌, IfOk, IsTrue, length};
ghost use Rattle.redodb_journal.specs.Journals.{entries_of};
ghost use Rattle.redodb_merge.specs.Support.Merging.{tally, busy_one, busy_in, busy_below, Uncounted, IsFree};

use redodb_journal::{Entry, Journal, Place};
use std::alloc::{AllocError, Global};
use std::collections::HashMap;

/// How many busy replies are left, by the numbers of the target and of the grant.
pub(crate) type Counts = HashMap<(u32, u32), u64>;

fn counted(counts: &Counts, target: u32, grant: u32) -> u64
    ensures { result ≡ tally counts.now target grant }
{
    match counts.get(&(target, grant)) {
        Some(n) => *n,
        None => 0,
    }
}

/// Counts a place, if it is a busy reply.
fn add(counts: &mut Counts, place: Place) -> Result<(), AllocError>
    requires { (t g : ℕ) → tally counts.old t g + busy_one t g place < 2 ^ 64 }
    ensures { IfOk result (λ _. (t g : ℕ) →
        tally counts.new t g ≡ tally counts.old t g + busy_one t g place) }
{
    if let Place::Busy(target, grant) = place {
        let n = counted(counts, target, grant);
        counts.insert((target, grant), n + 1)?;
    }
    Ok(())
}

/// Takes a place from the counts, if it is a busy reply.
pub(crate) fn take(counts: &mut Counts, place: Place)
    requires { (t g : ℕ) → busy_one t g place ≤ tally counts.old t g }
    ensures { Uncounted counts.old counts.new place }
{
    if let Place::Busy(target, grant) = place {
        if let Some(n) = counts.get_mut(&(target, grant)) {
            *n -= 1;
        }
    }
}

/// Whether the place, if it is a release, has no busy reply of its own grant left.
pub(crate) fn is_free(counts: &Counts, place: Place) -> bool
    ensures { IsTrue result ↔ IsFree counts.now place }
{
    match place {
        Place::Released(target, grant) => counted(counts, target, grant) == 0,
        _ => true,
    }
}

/// Counts the busy replies of a journal.
fn add_all(counts: &mut Counts, entries: &[Entry]) -> Result<(), AllocError>
    requires { (t g : ℕ) → tally counts.old t g + busy_in t g entries.now < 2 ^ 64 }
    ensures { IfOk result (λ _. (t g : ℕ) →
        tally counts.new t g ≡ tally counts.old t g + busy_in t g entries.now) }
{
    'adding: for entry in entries {
        add(counts, entry.place)?;
    }
    Ok(())
}

/// The busy replies of the journals.
pub(crate) fn busy_answers(alloc: Global, journals: &[Journal]) -> Result<Counts, AllocError>
    requires few { length journals.now ≤ 64 }
    requires short { (t g s : ℕ) → busy_in t g (entries_of journals.now s) ≤ 4096 }
    ensures { IfOk result (λ counts. (t g : ℕ) →
        tally counts t g ≡ busy_below t g (entries_of journals.now) (length journals.now)) }
{
    let mut counts = HashMap::new(alloc);
    'counting: for journal in journals {
        add_all(&mut counts, &journal.entries)?;
    }
    Ok(counts)
}
