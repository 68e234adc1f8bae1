//! A database with numbers for names that come later.

ghost use Rattle.std.specs.Prelude.{◌≡◌, ◌≤◌, ℕ, length, IfOk, OnOk, OnErr};
ghost use Rattle.redodb_model.specs.State.{empty};
ghost use Rattle.redodb_records.specs.Cells.{cell_at};
ghost use Rattle.redodb_records.specs.Rows.{rows_count, rows_of};
ghost use Rattle.redodb_database.specs.Tables.{state_of, tables_count, calls_of};

use crate::hints::Hints;
use crate::redo::{Loading, Redo};
use redodb_records::{DepRows, Records, extended};
use std::alloc::{AllocError, Global};

/// More names, of which nothing is known, and without rows. An error changes neither.
fn grow_both(records: &mut Records, rows: &mut DepRows, numbers: u32) -> Result<(), AllocError>
    requires cells { length records.old ≤ numbers }
    requires rows { rows_count rows.old ≤ numbers }
    ensures cells { (n : ℕ) → cell_at records.new n ≡ cell_at records.old n }
    ensures rows { rows_of rows.new ≡ rows_of rows.old }
    ensures count { OnOk result (length records.new ≡ numbers) }
    ensures counted { OnOk result (rows_count rows.new ≡ numbers) }
    ensures same { OnErr result (records.new ≡ records.old) }
    ensures err { OnErr result (rows.new ≡ rows.old) }
{
    let count = records.count() as u32;
    records.grow(numbers)?;
    match rows.grow(numbers) {
        Ok(()) => Ok(()),
        Err(error) => {
            records.keep_first(count);
            Err(error)
        }
    }
}

impl Redo {
    /// The empty database with `numbers` numbers for names: each is idle, without a file, and free.
    pub fn blank(alloc: Global, numbers: u32) -> Result<Redo, AllocError>
        ensures empty { IfOk result (λ redo. state_of redo ≡ empty) }
        ensures count { IfOk result (λ redo. tables_count redo ≡ numbers) }
        ensures calls { IfOk result (λ redo. calls_of redo ≡ 0) }
    {
        Loading::new(alloc, numbers)?.finish(alloc)
    }

    /// More numbers for names, up to `numbers` in all. An error changes nothing.
    pub fn grow(&mut self, numbers: u32) -> Result<(), AllocError>
        requires { tables_count self.old ≤ numbers }
        ensures state { state_of self.new ≡ state_of self.old }
        ensures calls { calls_of self.new ≡ calls_of self.old }
        ensures count { OnOk result (tables_count self.new ≡ numbers) }
        ensures err { OnErr result (self.new ≡ self.old) }
    {
        let alloc = *self.holders.allocator();
        let count = numbers as usize;
        let holders = extended(alloc, &self.holders, count, None)?;
        let grants = extended(alloc, &self.grants, count, 0)?;
        let held = self.held.grown(alloc, numbers)?;
        let hints = Hints::new(alloc, numbers)?;
        let memo = self.memo.grown(alloc, numbers)?;
        grow_both(&mut self.records, &mut self.rows, numbers)?;
        self.memo = memo;
        self.hints = hints;
        self.holders = holders;
        self.held = held;
        self.grants = grants;
        Ok(())
    }
}
