//! A database that is made from its parts.
ghost use Rattle.std.specs.Prelude.{◌≡◌, ℕ, ◌<◌, ◌^◌, ◌↔◌, Some, max, length, slice_set, Contains, IfOk, OnOk, OnErr};
ghost use Rattle.redodb_model.specs.State.{Building, empty, mark_in, target_state};
ghost use Rattle.redodb_records.specs.Cells.{cell_at, with_cell_at};
ghost use Rattle.redodb_records.specs.Meaning.{row_mark_of};
ghost use Rattle.redodb_memo.specs.Memo.{IsRight, memo_count};
ghost use Rattle.redodb_records.specs.Rows.{rows_count, rows_of, with_always, with_change, with_created, with_rows};
ghost use Rattle.redodb_database.specs.Tables.{state_of, tables_records, locks_of, tables_count, calls_of};

use crate::database::correct;
use crate::hints::Hints;
use crate::redo::Redo;
use redodb_memo::{Bits, Memo};
use redodb_records::{Cell, DepRows, Mark, Records};
use std::alloc::{AllocError, Global};
use std::marker::Model;

/// What is known so far of a database that is being made. Names are numbers below the number of names it is made for.
#[derive(Drop)]
pub struct Loading {
    records: Records,
    rows: DepRows,
    holders: Vec<Option<u16>>,
    /// The names that have a holder.
    held: Bits,
    grants: Vec<u32>,
    /// No name was built or granted more often.
    most: u32,
}

impl Model for Loading {
    ghost use Rattle.redodb_database.specs.Support.Parts.{Parts};

    ghost Value = { Parts };

    ghost use Rattle.redodb_database.specs.Support.Parts.{parts_of, KeepsParts};

    ghost view = { parts_of };

    ghost invariant = { KeepsParts };
}

fn set_held(held: &mut Bits, n: u32, is_held: bool)
    requires { n < length held.old }
    ensures { held.new ≡ slice_set held.old n is_held }
{
    if is_held {
        held.insert(n);
    } else {
        held.remove(n);
    }
}

fn all_numbers(alloc: Global, count: u32) -> Result<Vec<u32>, AllocError>
    ensures { IfOk result (λ numbers. (n : ℕ) → Contains numbers.items n ↔ (n < count)) }
{
    (0..count).collect(alloc)
}

/// What is out of date by these records and rows, derived from nothing, and hints for it.
fn derived(alloc: Global, records: &Records, rows: &DepRows) -> Result<(Memo, Hints), AllocError>
    requires rows { rows_count rows.now ≡ length records.now }
    requires few { length records.now < 2 ^ 32 }
    ensures right { IfOk result (λ made. IsRight made.0 (with_rows records.now rows.now)) }
    ensures count { IfOk result (λ made. memo_count made.0 ≡ length records.now) }
{
    let count = records.count() as u32;
    let all = all_numbers(alloc, count)?;
    let mut hints = Hints::new(alloc, count)?;
    let mut memo = Memo::new(alloc, count)?;
    correct(&mut memo, &mut hints, records, rows, &all);
    Ok((memo, hints))
}

impl Loading {
    ghost use Rattle.redodb_database.specs.Support.Parts.{state_made, parts_count, AreSameButRows};

    /// Nothing is known of that many names.
    pub fn new(alloc: Global, count: u32) -> Result<Loading, AllocError>
        ensures empty { IfOk result (λ loading. state_made loading ≡ empty) }
        ensures count { IfOk result (λ loading. parts_count loading ≡ count) }
        ensures most { IfOk result (λ loading. loading.most ≡ 0) }
    {
        let holders = vec![in alloc; None; count as usize]?;
        let grants = vec![in alloc; 0; count as usize]?;
        let held = Bits::new(alloc, count)?;
        let records = Records::new(alloc, count)?;
        let rows = DepRows::new(alloc, count)?;
        Ok(Loading {
            records,
            rows,
            holders,
            held,
            grants,
            most: 0,
        })
    }

    /// How many names it is made for.
    pub fn count(&self) -> u32
        ensures { result ≡ parts_count self.now }
    {
        self.records.count() as u32
    }

    /// What is known of a name but rows, who holds its lock, and how often that was granted.
    pub fn set(&mut self, n: u32, cell: Cell, holder: Option<u16>, grants: u32)
        requires number { n < parts_count self.old }
        requires builder { (s : ℕ) → cell.state ≡ Building s → holder ≡ Some s }
        ensures { self.new ≡ record self.old {
          cells = with_cell_at self.old.cells n cell;
          holders = slice_set self.old.holders n holder;
          grants = slice_set self.old.grants n grants;
          most = max (max self.old.most cell.builds) grants;
        } }
    {
        let at = n as usize;
        self.records.set_cell(n, cell);
        self.holders[at] = holder;
        set_held(&mut self.held, n, holder.is_some());
        self.grants[at] = grants;
        self.most = self.most.max(cell.builds()).max(grants);
    }

    /// The mark that a change row on the name gets now.
    pub fn mark(&self, n: u32) -> Mark
        requires { n < parts_count self.now }
        ensures { row_mark_of result
            ≡ mark_in (cell_at self.now.cells n).state (cell_at self.now.cells n) }
    {
        self.records.mark(n)
    }

    /// Reserves memory for so many rows of `t`, if it has none yet. This changes nothing.
    pub fn reserve(&mut self, t: u32, count: usize) -> Result<(), AllocError>
        requires { t < parts_count self.old }
        ensures { self.new ≡ self.old }
    {
        self.rows.reserve_first(t, count)
    }

    /// Where the slot is that `t` got last, if names come in ascending order.
    fn last_slot(&self, t: u32) -> usize
        requires { t < parts_count self.now }
    {
        self.rows.slots_of(t).len().saturating_sub(1)
    }

    /// A change row of `t` on `n` with this mark, which replaces an earlier one.
    pub fn put_change(&mut self, t: u32, n: u32, mark: Mark) -> Result<(), AllocError>
        requires target { t < parts_count self.old }
        requires name { n < parts_count self.old }
        ensures rows { OnOk result (rows_of self.new.rows
            ≡ with_change (rows_of self.old.rows) t n (row_mark_of mark)) }
        ensures err { OnErr result (rows_of self.new.rows ≡ rows_of self.old.rows) }
        ensures same { AreSameButRows self.old self.new }
    {
        self.rows.reserve(t, &[n])?;
        let place = self.last_slot(t);
        self.rows.put_change(t, n, &Cell::of_mark(mark), place);
        Ok(())
    }

    pub fn put_created(&mut self, t: u32, n: u32) -> Result<(), AllocError>
        requires target { t < parts_count self.old }
        requires name { n < parts_count self.old }
        ensures rows { OnOk result (rows_of self.new.rows
            ≡ with_created (rows_of self.old.rows) t n) }
        ensures err { OnErr result (rows_of self.new.rows ≡ rows_of self.old.rows) }
        ensures same { AreSameButRows self.old self.new }
    {
        self.rows.reserve(t, &[n])?;
        self.rows.put_created(t, n);
        Ok(())
    }

    pub fn put_always(&mut self, t: u32)
        requires { t < parts_count self.old }
        ensures rows { rows_of self.new.rows ≡ with_always (rows_of self.old.rows) t }
        ensures same { AreSameButRows self.old self.new }
    {
        self.rows.put_always(t);
    }

    /// The database with these parts. It has answered as many calls as the most that a name was built or granted.
    pub fn finish(self, alloc: Global) -> Result<Redo, AllocError>
        ensures state { IfOk result (λ redo. state_of redo ≡ state_made self) }
        ensures count { IfOk result (λ redo. tables_count redo ≡ parts_count self) }
        ensures calls { IfOk result (λ redo. calls_of redo ≡ self.most) }
        ensures builders { IfOk result (λ redo. (t s : ℕ)
            → target_state (tables_records redo) t ≡ Building s
            → (locks_of redo).holder t ≡ Some s) }
    {
        let (memo, hints) = derived(alloc, &self.records, &self.rows)?;
        Ok(Redo {
            records: self.records,
            rows: self.rows,
            memo,
            hints,
            holders: self.holders,
            held: self.held,
            grants: self.grants,
            calls: self.most,
        })
    }
}
