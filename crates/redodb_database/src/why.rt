//! A shortest chain of change rows from an out-of-date target to one with a reason of its own: a search, breadth first,
//! through names that are out of date.

ghost use Rattle.std.specs.Prelude.{◌≡◌, ◌<◌, ◌+◌, ◌++◌, ℕ, List, IsTrue, IfOk, IfSome, MatchOption, OnOk, OnErr, length, slice_index, option_map};
ghost use Rattle.redodb_model.specs.Why.{TellsWhy};
ghost use Rattle.redodb_model.specs.Support.Why.{IsReasonBelow, IsWhyBelow};
ghost use Rattle.redodb_model.specs.OutOfDate.{OutOfDate};
ghost use Rattle.redodb_model.specs.Renaming.{AllBelow};
ghost use Rattle.redodb_records.specs.Rows.{with_rows, rows_count};
ghost use Rattle.redodb_memo.specs.NameSet.{IsMarked, IsQueued, size_of};
ghost use Rattle.redodb_memo.specs.Support.NameSet.{AreQueued};
ghost use Rattle.redodb_database.specs.Meaning.{reason_of, why_of};
ghost use Rattle.redodb_database.specs.Support.Search.{IsSearch, StepsBefore, Finds, IsWay, HaveNoReason, IsFirstReason};

use crate::needs::needs_marked;
use crate::reason::{Reason, own_reason};
use crate::targets::is_target;
use redodb_memo::NameSet;
use redodb_records::{DepRows, Records};
use std::alloc::{AllocError, Global};

/// Why a target is out of date.
#[derive(Debug, Drop)]
pub struct Why {
    /// The names after it of a shortest chain of change rows to a target with a reason of its own.
    pub names: Vec<u32>,
    /// The reason of the last of them; the target's own, if there are none.
    pub reason: Reason,
}

// Puts the name at the queue's end, as found from this place, if it is due and wasn't found before.
fn find_if(
    n: u32,
    from: u32,
    is_due: bool,
    seen: &mut NameSet,
    parents: &mut Vec<u32>,
) -> Result<(), AllocError>
    requires { n < size_of seen.old }
    ensures found { OnOk result
        (Finds (IsTrue is_due) n from seen.old parents.old.items seen.new parents.new.items) }
    ensures kept { OnErr result (seen.new ≡ seen.old) }
{
    if is_due && !seen.contains(n) {
        parents.push(from)?;
        seen.enter_new(n);
    }
    Ok(())
}

// Finds the out-of-date names on which the target at this place has a change row.
fn find_needs(
    records: &Records,
    rows: &DepRows,
    out: &NameSet,
    from: u32,
    seen: &mut NameSet,
    parents: &mut Vec<u32>,
) -> Result<(), AllocError>
    requires from { from < length seen.old.queue }
    requires records { length records.now ≡ rows_count rows.now }
    requires sized { size_of seen.old ≡ rows_count rows.now }
    requires out { size_of out.now ≡ rows_count rows.now }
    requires search { IsSearch (with_rows records.now rows.now)
        (StepsBefore (with_rows records.now rows.now) out.now seen.old.queue from) from
        seen.old parents.old.items }
    ensures sized { size_of seen.new ≡ size_of seen.old }
    ensures queued { AreQueued seen.new }
    ensures behind { OnOk result ((ns : List ℕ) × (seen.new.queue ≡ seen.old.queue ++ ns)) }
    ensures search { OnOk result (IsSearch (with_rows records.now rows.now)
        (StepsBefore (with_rows records.now rows.now) out.now seen.new.queue (from + 1)) (from + 1)
        seen.new parents.new.items) }
{
    let t = seen.queued(from as usize);
    if is_target(records, t) {
        for slot in rows.slots_of(t) {
            let is_due = needs_marked(slot, out);
            find_if(slot.name(), from, is_due, seen, parents)?;
        }
    }
    Ok(())
}

// A place of the queue, and the reason of its own of the name there.
#[derive(Clone, Copy)]
struct Found {
    place: usize,
    reason: Reason,
}

// The first place from this one on whose name has a reason of its own.
fn first_reason(records: &Records, rows: &DepRows, seen: &NameSet, from: usize) -> Option<Found>
    requires records { length records.now ≡ rows_count rows.now }
    requires sized { size_of seen.now ≡ rows_count rows.now }
    ensures first { MatchOption result
        (HaveNoReason (with_rows records.now rows.now) seen.now.queue from
        (length seen.now.queue))
        (λ found. IsFirstReason (with_rows records.now rows.now) seen.now.queue from found.place
        (reason_of found.reason)) }
    ensures below { IfSome result
        (λ found. IsReasonBelow (rows_count rows.now) (reason_of found.reason)) }
{
    for place in from..seen.queue_len() {
        if let Some(reason) = own_reason(records, rows, seen.queued(place)) {
            return Some(Found { place, reason });
        }
    }
    None
}

// The names on the path from the queue's first place, whose name is left out, to this one.
fn way_to(
    alloc: Global,
    seen: &NameSet,
    parents: &Vec<u32>,
    place: usize,
) -> Result<Vec<u32>, AllocError>
    requires place { place < length seen.now.queue }
    requires sized { length parents.now.items ≡ length seen.now.queue }
    requires earlier { (i : ℕ) → 0 < i → i < length seen.now.queue
        → slice_index parents.now.items i < i }
    ensures way { IfOk result
        (λ way. IsWay seen.now.queue parents.now.items 0 place way.items) }
    ensures below { IfOk result (λ way. AllBelow (size_of seen.now) way.items) }
{
    let mut way = Vec::new(alloc);
    let mut i = place;
    'back: while i > 0 {
        way.push(seen.queued(i))?;
        i = parents[i] as usize;
    }
    way.reverse();
    Ok(way)
}

/// Why the target is out of date, if it is. Marks each name that it finds, and allocates for each.
pub(crate) fn search(
    alloc: Global,
    records: &Records,
    rows: &DepRows,
    out: &NameSet,
    t: u32,
    seen: &mut NameSet,
) -> Result<Option<Why>, AllocError>
    requires target { t < rows_count rows.now }
    requires records { length records.now ≡ rows_count rows.now }
    requires sized { size_of out.now ≡ rows_count rows.now }
    requires right { (n : ℕ) → OutOfDate (with_rows records.now rows.now) n → IsMarked out.now n }
    requires seen { size_of seen.old ≡ rows_count rows.now }
    requires unmarked { (n : ℕ) → IsMarked seen.old n → ⊥ }
    requires empty { (n : ℕ) → IsQueued seen.old n → ⊥ }
    ensures sized { size_of seen.new ≡ size_of seen.old }
    ensures queued { AreQueued seen.new }
    ensures why { IfOk result
        (λ found. TellsWhy (with_rows records.now rows.now) t (option_map why_of found)) }
    ensures below { IfOk result
        (λ found. IfSome found (λ why. IsWhyBelow (rows_count rows.now) (why_of why))) }
{
    let mut parents = Vec::new(alloc);
    parents.push(0)?;
    seen.enter_new(t);
    let mut tested = 0;
    let mut next = 0;
    'names: while next < seen.queue_len() {
        // the names that were found last are tested before more are looked for
        if let Some(found) = first_reason(records, rows, seen, tested) {
            let names = way_to(alloc, seen, &parents, found.place)?;
            let reason = found.reason;
            return Ok(Some(Why { names, reason }));
        }
        tested = seen.queue_len();
        find_needs(records, rows, out, next as u32, seen, &mut parents)?;
        next += 1;
    }
    Ok(None)
}
