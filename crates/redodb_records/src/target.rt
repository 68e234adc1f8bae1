ghost use Rattle.std.specs.Prelude.{◌≡◌, ◌↔◌, ℕ, ◌<◌, ◌≤◌, ◌==◌, ◌||◌, Some, true, false, is_some, IsTrue, length, option_map, MatchOption, IfOk, IfErr, OnOk, OnErr, if◌then◌else◌};
ghost use Rattle.redodb_model.specs.State as states;
ghost use Rattle.redodb_model.specs.State.{mark_in};
ghost use Rattle.redodb_records.specs.Meaning.{row_mark_of};
ghost use Rattle.redodb_records.specs.Rows.{bare, slot_at, has_slot};
ghost use Rattle.redodb_records.specs.Target.{HasChangeBut, Ascending};
ghost use Rattle.redodb_records.specs.Support.Target.{blank, blanked, cleared, IsSlotOf, IsGapFor};

use crate::cell::Cell;
use crate::kept_mark::{BuildCount, KeptMark};
use crate::mark::Mark;
use crate::state::State;
use redodb_commands::FileStamp;
use std::alloc::{AllocError, Global};
use std::marker::Model;
use std::mem::size_of;

/// Reserved memory for a target's rows on one name, and the rows that are there.
#[derive(Clone, Copy, Debug)]
pub struct Slot {
    name: u32,
    created: bool,
    change: Option<KeptMark>,
}

// A large store has many slots.
const _: () = prove!(size_of::<Slot>() <= 72);

impl Model for Slot {
    ghost use Rattle.redodb_records.specs.Rows as rows;

    ghost Value = { rows.Slot };

    ghost use Rattle.redodb_records.specs.Support.Slot.{slot_of, fields_for, fields_for-slot_of};

    ghost view = { slot_of };

    ghost inverse = { fields_for };

    ghost inverse_ok = { λ slot i. fields_for-slot_of slot };
}

impl Slot {
    fn blank(name: u32) -> Slot
        ensures { result ≡ blank name }
    {
        Slot {
            name,
            created: false,
            change: None,
        }
    }

    pub fn name(&self) -> u32
        ensures { result ≡ self.now.name }
    {
        self.name
    }

    pub fn change(&self) -> Option<Mark>
        ensures { option_map row_mark_of result ≡ self.now.change }
    {
        self.change.map(|kept| kept.mark())
    }

    /// Whether there is a change row with another mark than a name with this cell has.
    pub fn has_changed(&self, cell: &Cell) -> bool
        ensures { IsTrue result ↔ HasChangeBut (mark_in cell.now.state cell.now) self.now }
    {
        match &self.change {
            Some(kept) => !kept.is_of(cell),
            None => false,
        }
    }

    pub fn has_change(&self) -> bool
        ensures { result ≡ is_some self.now.change }
    {
        self.change.is_some()
    }

    pub fn created(&self) -> bool
        ensures { result ≡ self.now.created }
    {
        self.created
    }

    /// A change row with the mark that a name with this cell has. It is written in place, so that no mark is copied.
    fn put_change(&mut self, cell: &Cell)
        ensures { self.new ≡ record self.old { change = Some (mark_in cell.now.state cell.now) } }
    {
        match cell.state() {
            State::Idle => self.put_file(cell.file_ref()),
            State::Building(_) | State::Failed => self.change = Some(KeptMark::Pending),
            State::Built => self.put_build(cell.digest_ref(), cell.builds()),
        }
    }

    /// The mark of an idle name.
    fn put_file(&mut self, file: Option<&FileStamp>)
        ensures { self.new ≡ record self.old {
          change
              = Some (states.file_mark (option_map (λ stamp. stamp.now) file.entry));
        } }
    {
        match file {
            Some(stamp) => self.change = Some(KeptMark::File(*stamp)),
            None => self.change = Some(KeptMark::Absent),
        }
    }

    /// The mark of a target that is built.
    fn put_build(&mut self, digest: Option<&[u8; 20]>, builds: u32)
        ensures { self.new ≡ record self.old {
          change
              = Some (states.build_mark (option_map (λ digest. digest.now) digest.entry) builds);
        } }
    {
        match digest {
            Some(digest) => self.change = Some(KeptMark::Digest(*digest)),
            None => self.change = Some(KeptMark::Builds(BuildCount::new(builds))),
        }
    }

    fn put_created(&mut self)
        ensures { self.new ≡ record self.old { created = true } }
    {
        self.created = true;
    }

    fn clear(&mut self)
        ensures { self.new ≡ blank self.old.name }
    {
        self.change = None;
        self.created = false;
    }
}

fn clear_each(slots: &mut Vec<Slot>)
    ensures { slots.new.items ≡ blanked slots.old.items }
{
    for slot in slots.iter_mut() {
        slot.clear();
    }
}

/// The place of the name's slot, or of the gap for it.
fn search(slots: &[Slot], n: u32) -> Result<usize, usize>
    requires { Ascending slots.now }
    ensures found { IfOk result (IsSlotOf slots.now n) }
    ensures absent { IfErr result (IsGapFor slots.now n) }
{
    slots.binary_search_by_key(&n, |slot| slot.name())
}

fn is_slot_at(slots: &[Slot], n: u32, place: usize) -> bool
    ensures { IsTrue result ↔ IsSlotOf slots.now n place }
{
    match slots.get(place) {
        Some(slot) => slot.name() == n,
        None => false,
    }
}

/// Whether all slots are of names before this one: so it is where names come in ascending order.
fn are_before(slots: &[Slot], n: u32) -> bool
    requires { Ascending slots.now }
    ensures { IsTrue result → IsGapFor slots.now n (length slots.now) }
{
    match slots.len().checked_sub(1) {
        Some(last) => slots[last].name() < n,
        None => true,
    }
}

/// The same as `search`. Callers pass `guess`: the place where the slot may be.
fn search_from(slots: &[Slot], n: u32, guess: usize) -> Result<usize, usize>
    requires { Ascending slots.now }
    ensures found { IfOk result (IsSlotOf slots.now n) }
    ensures absent { IfErr result (IsGapFor slots.now n) }
{
    if is_slot_at(slots, n, guess) {
        return Ok(guess);
    }
    if are_before(slots, n) {
        return Err(slots.len());
    }
    search(slots, n)
}

/// The place of the name's slot, or the place where it would go. Callers pass `guess`: the place where the slot may be.
fn slot_place(slots: &[Slot], n: u32, guess: usize) -> usize
    requires { Ascending slots.now }
    ensures there { has_slot slots.now n ≡ true → IsSlotOf slots.now n result }
    ensures absent { has_slot slots.now n ≡ false → IsGapFor slots.now n result }
{
    match search_from(slots, n, guess) {
        Ok(place) => place,
        Err(place) => place,
    }
}

/// The rows of one target, and reserved memory for more.
#[derive(Drop)]
pub struct Target {
    slots: Vec<Slot>,
    always: bool,
}

impl Model for Target {
    ghost use Rattle.redodb_records.specs.Rows.{TargetRows};
    ghost use Rattle.redodb_records.specs.Target.{Ascending};

    ghost Value = { TargetRows };

    ghost view = { λ inside. record { slots = inside.slots.items; always = inside.always } };

    ghost invariant = { λ inside. Ascending inside.slots.items };
}

impl Target {
    pub fn new(alloc: Global) -> Target
        ensures { result ≡ bare }
    {
        Target {
            slots: Vec::new(alloc),
            always: false,
        }
    }

    /// The name's slot. Callers pass `guess`: the place where it may be.
    pub fn find(&self, n: u32, guess: usize) -> Option<&Slot>
        ensures there { is_some result ≡ has_slot self.now.slots n }
        ensures slot { MatchOption result (slot_at self.now.slots n ≡ blank n)
            (λ slot. slot.now ≡ slot_at self.now.slots n) }
    {
        match search_from(self.slots.as_slice(), n, guess) {
            Ok(place) => Some(&self.slots[place]),
            Err(_) => None,
        }
    }

    /// Whether the name has a slot. Callers pass `guess`: the place where it may be.
    pub fn has_slot(&self, n: u32, guess: usize) -> bool
        ensures { result ≡ has_slot self.now.slots n }
    {
        self.find(n, guess).is_some()
    }

    pub fn always(&self) -> bool
        ensures { result ≡ self.now.always }
    {
        self.always
    }

    /// The slots, by their names' ascending numbers.
    pub fn slots(&self) -> &[Slot]
        ensures same { result.now ≡ self.now.slots }
        ensures ascending { Ascending result.now }
    {
        self.slots.as_slice()
    }

    /// Reserves memory for exactly that many slots, if there is none yet.
    pub fn reserve_first(&mut self, count: usize) -> Result<(), AllocError>
        ensures { self.new ≡ self.old }
    {
        if self.slots.is_empty() {
            self.slots.reserve_exact(count)?;
        }
        Ok(())
    }

    /// Reserves memory for rows on a name. Only this and `reserve_first` allocate.
    pub fn add_slot(&mut self, n: u32) -> Result<(), AllocError>
        requires new { has_slot self.old.slots n ≡ false }
        ensures rows { (k : ℕ) → slot_at self.new.slots k ≡ slot_at self.old.slots k }
        ensures always { self.new.always ≡ self.old.always }
        ensures made { OnOk result
            ((k : ℕ) → has_slot self.new.slots k ≡ (k == n || has_slot self.old.slots k)) }
        ensures err { OnErr result (self.new ≡ self.old) }
    {
        let place = slot_place(self.slots.as_slice(), n, 0);
        Ok(self.slots.insert(place, Slot::blank(n))?)
    }

    /// A change row on a name with a slot and this cell, which replaces an earlier one. Returns whether there was one.
    /// Callers pass `guess`: the place where the slot may be.
    pub fn put_change(&mut self, n: u32, cell: &Cell, guess: usize) -> bool
        requires { has_slot self.old.slots n ≡ true }
        ensures was { result ≡ is_some (slot_at self.old.slots n).change }
        ensures rows { (k : ℕ)
            → slot_at self.new.slots k ≡ (if n == k then record (slot_at self.old.slots k)
            { change = Some (mark_in cell.now.state cell.now) } else slot_at self.old.slots k) }
        ensures room { (k : ℕ) → has_slot self.new.slots k ≡ has_slot self.old.slots k }
        ensures always { self.new.always ≡ self.old.always }
    {
        let place = slot_place(self.slots.as_slice(), n, guess);
        let slot = &mut self.slots[place];
        let was = slot.has_change();
        slot.put_change(cell);
        was
    }

    /// A created row on a name with a slot. Returns whether there was one.
    pub fn put_created(&mut self, n: u32) -> bool
        requires { has_slot self.old.slots n ≡ true }
        ensures was { result ≡ (slot_at self.old.slots n).created }
        ensures rows { (k : ℕ)
            → slot_at self.new.slots k ≡ (if n == k then record (slot_at self.old.slots k)
            { created = true } else slot_at self.old.slots k) }
        ensures room { (k : ℕ) → has_slot self.new.slots k ≡ has_slot self.old.slots k }
        ensures always { self.new.always ≡ self.old.always }
    {
        let place = slot_place(self.slots.as_slice(), n, 0);
        let slot = &mut self.slots[place];
        let was = slot.created();
        slot.put_created();
        was
    }

    pub fn put_always(&mut self)
        ensures { self.new ≡ record self.old { always = true } }
    {
        self.always = true;
    }

    /// Removes the rows, and keeps their slots.
    pub fn clear(&mut self)
        ensures { self.new ≡ cleared self.old }
    {
        clear_each(&mut self.slots);
        self.always = false;
    }
}
