ghost use Rattle.std.specs.Prelude.{◌≡◌, ℕ, ◌+◌, ◌-◌, ◌^◌, ◌<◌, ◌≤◌, ◌↔◌, ◌++◌, IsTrue, IsFalse, List, length, replicate, take, option_map, IfOk, OnOk, OnErr};
ghost use Rattle.redodb_model.specs.State as states;
ghost use Rattle.redodb_model.specs.State.{idle, mark_in, is_building};
ghost use Rattle.redodb_commands.specs.Meaning.{refusal_of};
ghost use Rattle.redodb_records.specs.Meaning.{row_mark_of, target_state_of};
ghost use Rattle.redodb_records.specs.Cells.{cell_at, with_cell_at, IsBuiltAndEdited};
ghost use Rattle.redodb_records.specs.Refusals.{refusal_by_target};

use crate::cell::Cell;
use crate::mark::Mark;
use crate::state::State;
use redodb_commands::{FileStamp, Kind, Refusal};
use std::alloc::{AllocError, Global};
use std::marker::Model;

/// What is known of each name. Names are numbers below the number of names it was made for.
#[derive(Drop)]
pub struct Records {
    cells: Vec<Cell>,
}

impl Model for Records {
    ghost use Rattle.std.specs.Prelude.{List};
    ghost use Rattle.redodb_model.specs.State as states;

    ghost Value = { List states.Cell };

    ghost view = { λ records. records.cells.items };
}

impl Records {
    /// Records in which nothing is known. But for `grow`, no other call allocates.
    pub fn new(alloc: Global, names: u32) -> Result<Records, AllocError>
        ensures { IfOk result (λ records. records ≡ replicate names idle) }
    {
        let cells = vec![in alloc; Cell::idle(); names as usize]?;
        Ok(Records { cells })
    }

    /// More names, of which nothing is known. The cells stay where they are, if the system can.
    pub fn grow(&mut self, names: u32) -> Result<(), AllocError>
        requires { length self.old ≤ names }
        ensures grown { OnOk result
            (self.new ≡ self.old ++ replicate (names - length self.old) idle) }
        ensures err { OnErr result (self.new ≡ self.old) }
    {
        let more = names as usize - self.cells.len();
        self.cells.reserve_exact(more)?;
        self.cells.resize(names as usize, Cell::idle())
    }

    /// The first names alone.
    pub fn keep_first(&mut self, names: u32)
        ensures { self.new ≡ take names self.old }
    {
        self.cells.truncate(names as usize);
    }

    /// How many names there are.
    pub fn count(&self) -> usize
        ensures { result ≡ length self.now }
    {
        self.cells.len()
    }

    /// The stamp of its file.
    pub fn file(&self, n: u32) -> Option<FileStamp>
        requires { n < length self.now }
        ensures { result ≡ (cell_at self.now n).file }
    {
        self.cells[n as usize].file()
    }

    pub fn state(&self, n: u32) -> State
        requires { n < length self.now }
        ensures { target_state_of result ≡ (cell_at self.now n).state }
    {
        self.cells[n as usize].state()
    }

    /// All that is known of it.
    pub fn cell(&self, n: u32) -> &Cell
        requires { n < length self.now }
        ensures { result.now ≡ cell_at self.now n }
    {
        &self.cells[n as usize]
    }

    /// The mark that a change row on it gets now.
    pub fn mark(&self, n: u32) -> Mark
        requires { n < length self.now }
        ensures { row_mark_of result ≡ mark_in (cell_at self.now n).state (cell_at self.now n) }
    {
        self.cells[n as usize].mark()
    }

    /// Whether it is built, and its file differs from the one that its last done gave.
    pub fn changed(&self, n: u32) -> bool
        requires { n < length self.now }
        ensures { IsTrue result ↔ IsBuiltAndEdited (cell_at self.now n) }
    {
        self.cells[n as usize].is_edited()
    }

    /// The first refusal that applies to a session's command on `t` whatever the names after `t` are. `holds`: whether
    /// the session holds the lock of `t`.
    pub fn verdict(&self, s: u16, kind: Kind, t: u32, holds: bool) -> Option<Refusal>
        requires { t < length self.now }
        ensures { option_map refusal_of result
            ≡ refusal_by_target (cell_at self.now t).state s holds kind }
    {
        self.cells[t as usize].refusal(s, kind, holds)
    }

    pub fn set_cell(&mut self, n: u32, cell: Cell)
        requires { n < length self.old }
        ensures { self.new ≡ with_cell_at self.old n cell }
    {
        self.cells[n as usize] = cell;
    }

    pub fn set_file(&mut self, n: u32, file: Option<FileStamp>)
        requires { n < length self.old }
        ensures { self.new ≡ with_cell_at self.old n (record (cell_at self.old n) { file = file }) }
    {
        self.cells[n as usize].set_file(file);
    }

    pub fn start(&mut self, s: u16, t: u32)
        requires number { t < length self.old }
        requires free { IsFalse (is_building (cell_at self.old t).state) }
        ensures { self.new ≡ with_cell_at self.old t
            (record (cell_at self.old t) { state = states.Building s; digest = None }) }
    {
        self.cells[t as usize].start(s);
    }

    /// Its build stamped content with this digest.
    pub fn stamp(&mut self, t: u32, digest: [u8; 20])
        requires number { t < length self.old }
        requires building { IsTrue (is_building (cell_at self.old t).state) }
        ensures { self.new
            ≡ with_cell_at self.old t (record (cell_at self.old t) { digest = Some digest }) }
    {
        self.cells[t as usize].stamp(digest);
    }

    /// Its build ended. Its file has this stamp, or there is none.
    pub fn done(&mut self, t: u32, stamp: Option<FileStamp>)
        requires number { t < length self.old }
        requires building { IsTrue (is_building (cell_at self.old t).state) }
        requires builds { (cell_at self.old t).builds + 1 < 2 ^ 32 }
        ensures { self.new ≡ with_cell_at self.old t (record (cell_at self.old t) {
          file = stamp;
          state = states.Built;
          builds = (cell_at self.old t).builds + 1;
          done = stamp;
        }) }
    {
        self.cells[t as usize].done(stamp);
    }

    pub fn failed(&mut self, t: u32)
        requires number { t < length self.old }
        requires building { IsTrue (is_building (cell_at self.old t).state) }
        ensures { self.new
            ≡ with_cell_at self.old t (record (cell_at self.old t) { state = states.Failed }) }
    {
        self.cells[t as usize].failed();
    }
}
