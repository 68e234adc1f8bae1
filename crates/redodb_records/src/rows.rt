ghost use Rattle.std.specs.Prelude.{◌≡◌, ◌⊎◌, ◌↔◌, ℕ, ◌<◌, ◌≤◌, ◌==◌, ◌&&◌, true, false, IsTrue, length, Contains, ◌||◌, IfOk, IfSome, MatchOption, OnOk, OnErr};
ghost use Rattle.redodb_model.specs.Names.{IsListed};
ghost use Rattle.redodb_model.specs.OutOfDate.{SomeAppeared, SomeChanged};
ghost use Rattle.redodb_model.specs.State.{mark_in, no_rows};
ghost use Rattle.redodb_model.specs.Renaming.{AllBelow};
ghost use Rattle.redodb_records.specs.News.{HasNewsOn, IsNews, name_of};
ghost use Rattle.redodb_records.specs.Numbers.{numbers_there};
ghost use Rattle.redodb_records.specs.Target.{Ascending};
ghost use Rattle.redodb_records.specs.Rows.{rows_count, rows_of, room_of, target_at, has_slot, with_change, with_created, with_always, without_rows, HasChangeRowOn, HasCreatedRowOn, by_number, with_rows};

use crate::cell::Cell;
use crate::news::{News, first_news, has_news};
use crate::numbers::{Numbers, Place};
use crate::records::Records;
use crate::target::{Slot, Target};
use crate::{inverse, made};
use std::alloc::{AllocError, Global};
use std::marker::Model;

/// The rows of each target, and their inverses. Targets and names are numbers below the number of names it was made
/// for. Only `new`, `grow` and `reserve` allocate.
#[derive(Drop)]
pub struct DepRows {
    targets: Vec<Target>,
    // for each name, the targets with a change row on it
    needed: Vec<Numbers>,
    // and those with a created row on it
    awaited: Vec<Numbers>,
    // and how many targets have a slot for it
    slotted: Vec<usize>,
}

impl Model for DepRows {
    ghost use Rattle.std.specs.Prelude.{List};
    ghost use Rattle.redodb_records.specs.Rows.{TargetRows};
    ghost use Rattle.redodb_records.specs.Support.Kept.{IsKept};

    ghost Value = { List TargetRows };

    ghost view = { λ inside. inside.targets.items };

    ghost invariant = { λ inside.
        IsKept inside.targets.items inside.needed.items inside.awaited.items inside.slotted.items };
}

impl DepRows {
    pub fn new(alloc: Global, names: u32) -> Result<DepRows, AllocError>
        ensures count { IfOk result (λ rows. rows_count rows ≡ names) }
        ensures rows { IfOk result (λ rows. rows_of rows ≡ no_rows) }
        ensures room { IfOk result (λ rows. (t n : ℕ) → room_of rows t n ≡ false) }
    {
        let made = made::more_names(alloc, names as usize, &[], names as usize)?;
        Ok(DepRows {
            targets: made.targets,
            needed: made.needed,
            awaited: made.awaited,
            slotted: made.slotted,
        })
    }

    /// More names, without rows and slots. It allocates all that it needs before anything changes.
    pub fn grow(&mut self, names: u32) -> Result<(), AllocError>
        requires { rows_count self.old ≤ names }
        ensures count { OnOk result (rows_count self.new ≡ names) }
        ensures rows { rows_of self.new ≡ rows_of self.old }
        ensures room { (t n : ℕ) → room_of self.new t n ≡ room_of self.old t n }
        ensures err { OnErr result (self.new ≡ self.old) }
    {
        let alloc = *self.targets.allocator();
        let more = names as usize - self.targets.len();
        made::reserve_each(&mut self.targets, &mut self.needed, &mut self.awaited, more)?;
        let mut made = made::more_names(alloc, more, &self.slotted, names as usize)?;
        let _targets = self.targets.append(&mut made.targets);
        let _needed = self.needed.append(&mut made.needed);
        let _awaited = self.awaited.append(&mut made.awaited);
        self.slotted = made.slotted;
        Ok(())
    }

    /// A law of rows: they are on names alone.
    pub fn are_on_names(&self)
        ensures change { (t n : ℕ) → HasChangeRowOn (rows_of self.now) t n
            → n < rows_count self.now }
        ensures created { (t n : ℕ) → HasCreatedRowOn (rows_of self.now) t n
            → n < rows_count self.now }
    {
        let _ = self.targets.len();
    }

    /// Reserves memory for rows of `t` on these names, and changes no row. What was reserved stays, also if memory runs
    /// out.
    pub fn reserve(&mut self, t: u32, names: &[u32]) -> Result<(), AllocError>
        requires target { t < rows_count self.old }
        requires names { AllBelow (rows_count self.old) names.now }
        ensures rows { rows_of self.new ≡ rows_of self.old }
        ensures made { OnOk result
            ((n : ℕ) → Contains names.now n → IsTrue (room_of self.new t n)) }
        ensures kept { (u n : ℕ) → IsTrue (room_of self.old u n) → IsTrue (room_of self.new u n) }
        ensures from { (u n : ℕ) → IsTrue (room_of self.new u n)
            → IsTrue (room_of self.old u n) ⊎ ((u ≡ t) × Contains names.now n) }
        ensures count { rows_count self.new ≡ rows_count self.old }
    {
        self.reserve_first(t, names.len())?;
        for &n in names {
            self.reserve_slot(t, n)?;
        }
        Ok(())
    }

    /// Reserves memory for exactly that many slots of `t`, if it has none. This changes nothing.
    pub fn reserve_first(&mut self, t: u32, count: usize) -> Result<(), AllocError>
        requires { t < rows_count self.old }
        ensures { self.new ≡ self.old }
    {
        self.targets[t as usize].reserve_first(count)
    }

    /// Reserves memory for rows of `t` on `n`.
    fn reserve_slot(&mut self, t: u32, n: u32) -> Result<(), AllocError>
        requires target { t < rows_count self.old }
        requires name { n < rows_count self.old }
        ensures rows { rows_of self.new ≡ rows_of self.old }
        ensures made { OnOk result
            ((u k : ℕ) → room_of self.new u k ≡ (((t == u) && (k == n)) || room_of self.old u k)) }
        ensures err { OnErr result (self.new ≡ self.old) }
        ensures count { rows_count self.new ≡ rows_count self.old }
    {
        if self.has_room(t, n, 0) {
            return Ok(());
        }
        let slots = self.slotted[n as usize] + 1;
        self.needed[n as usize].reserve(slots)?;
        self.awaited[n as usize].reserve(slots)?;
        self.targets[t as usize].add_slot(n)?;
        self.slotted[n as usize] = slots;
        Ok(())
    }

    /// Whether `t` has a slot for `n`, and so memory for its change row and its created row. Callers pass `guess`: how
    /// many slots `t` may have before it.
    pub fn has_room(&self, t: u32, n: u32, guess: usize) -> bool
        requires { t < rows_count self.now }
        ensures { result ≡ room_of self.now t n }
    {
        self.targets[t as usize].has_slot(n, guess)
    }

    /// A change row of `t` on `n` with the mark that `n` has if this is its cell. It replaces an earlier one. Callers
    /// pass `guess`: how many slots `t` may have before that for `n`.
    pub fn put_change(&mut self, t: u32, n: u32, cell: &Cell, guess: usize)
        requires target { t < rows_count self.old }
        requires name { n < rows_count self.old }
        requires room { IsTrue (room_of self.old t n) }
        ensures rows { rows_of self.new
            ≡ with_change (rows_of self.old) t n (mark_in cell.now.state cell.now) }
        ensures room { (u k : ℕ) → room_of self.new u k ≡ room_of self.old u k }
        ensures count { rows_count self.new ≡ rows_count self.old }
    {
        let was = self.targets[t as usize].put_change(n, cell, guess);
        inverse::put_in(&mut self.needed, n, t, was);
    }

    pub fn put_created(&mut self, t: u32, n: u32)
        requires target { t < rows_count self.old }
        requires name { n < rows_count self.old }
        requires room { IsTrue (room_of self.old t n) }
        ensures rows { rows_of self.new ≡ with_created (rows_of self.old) t n }
        ensures room { (u k : ℕ) → room_of self.new u k ≡ room_of self.old u k }
        ensures count { rows_count self.new ≡ rows_count self.old }
    {
        let was = self.targets[t as usize].put_created(n);
        inverse::put_in(&mut self.awaited, n, t, was);
    }

    pub fn put_always(&mut self, t: u32)
        requires { t < rows_count self.old }
        ensures rows { rows_of self.new ≡ with_always (rows_of self.old) t }
        ensures room { (u k : ℕ) → room_of self.new u k ≡ room_of self.old u k }
        ensures count { rows_count self.new ≡ rows_count self.old }
    {
        self.targets[t as usize].put_always();
    }

    /// Removes the rows of `t`, and keeps their slots.
    pub fn clear(&mut self, t: u32)
        requires { t < rows_count self.old }
        ensures rows { rows_of self.new ≡ without_rows (rows_of self.old) t }
        ensures room { (u k : ℕ) → room_of self.new u k ≡ room_of self.old u k }
        ensures count { rows_count self.new ≡ rows_count self.old }
    {
        inverse::forget(&self.targets, t, &mut self.needed, &mut self.awaited);
        self.targets[t as usize].clear();
    }

    pub fn always(&self, t: u32) -> bool
        requires { t < rows_count self.now }
        ensures { result ≡ (rows_of self.now).always t }
    {
        self.targets[t as usize].always()
    }

    /// The slots of `t`, by their names' ascending numbers: each has the rows of `t` on its name.
    pub fn slots_of(&self, t: u32) -> &[Slot]
        requires { t < rows_count self.now }
        ensures same { result.now ≡ (target_at self.now t).slots }
        ensures ascending { Ascending result.now }
        ensures below { (n : ℕ) → has_slot result.now n ≡ true → n < rows_count self.now }
    {
        self.targets[t as usize].slots()
    }

    /// The first name, by ascending number, that has a file now and on which `t` has a created row, or that has another
    /// mark now than the change row of `t` on it.
    pub fn news(&self, records: &Records, t: u32) -> Option<News>
        requires target { t < rows_count self.now }
        requires names { length records.now ≡ rows_count self.now }
        ensures news { MatchOption result (SomeAppeared (with_rows records.now self.now) t
            ⊎ SomeChanged (with_rows records.now self.now) t → ⊥)
            (IsNews (with_rows records.now self.now) t) }
        ensures below { IfSome result (λ news. name_of news < rows_count self.now) }
    {
        first_news(records, self.slots_of(t))
    }

    /// Whether `n` has a file now and `t` a created row on it, or another mark now than the change row of `t` on it.
    pub fn has_news_on(&self, records: &Records, t: u32, n: u32) -> bool
        requires target { t < rows_count self.now }
        requires names { length records.now ≡ rows_count self.now }
        ensures { IsTrue result ↔ HasNewsOn (with_rows records.now self.now) t n }
    {
        match self.targets[t as usize].find(n, 0) {
            Some(slot) => has_news(records, slot),
            None => false,
        }
    }

    /// Whether some target has a change row on `n`.
    pub fn is_needed(&self, n: u32) -> bool
        requires { n < rows_count self.now }
        ensures { IsTrue result ↔ ((t : ℕ) × HasChangeRowOn (rows_of self.now) t n) }
    {
        self.needed[n as usize].has_any()
    }

    /// Whether some target has a created row on `n`.
    pub fn is_awaited(&self, n: u32) -> bool
        requires { n < rows_count self.now }
        ensures { IsTrue result ↔ ((t : ℕ) × HasCreatedRowOn (rows_of self.now) t n) }
    {
        self.awaited[n as usize].has_any()
    }

    /// The places of the targets with a change row on `n`, by ascending number.
    pub fn needed_by(&self, n: u32) -> &[Place]
        requires { n < rows_count self.now }
        ensures listed { IsListed by_number
            (λ t. HasChangeRowOn (rows_of self.now) t n) (numbers_there result.now) }
        ensures below { AllBelow (rows_count self.now) (numbers_there result.now) }
    {
        self.needed[n as usize].places()
    }

    /// The places of the targets with a created row on `n`, by ascending number.
    pub fn awaited_by(&self, n: u32) -> &[Place]
        requires { n < rows_count self.now }
        ensures listed { IsListed by_number
            (λ t. HasCreatedRowOn (rows_of self.now) t n) (numbers_there result.now) }
        ensures below { AllBelow (rows_count self.now) (numbers_there result.now) }
    {
        self.awaited[n as usize].places()
    }
}
