ghost use Rattle.std.specs.Prelude.{◌≡◌, ◌+◌, ◌<◌, ◌^◌, true, Some, None, false, length, replicate, slice_set, IfOk};
ghost use Rattle.redodb_replica.specs.declared.state.CompactState.TheVariants as coded;
ghost use Rattle.redodb_replica.specs.CompactCells.{idle_cell, cell_at};

use crate::cell::CompactCell;
use crate::state::CompactState;
use std::alloc::{AllocError, Global};
use std::marker::Model;

/// What is known of each name. Only `new` allocates.
#[derive(Drop)]
pub struct CompactCells {
    cells: Vec<CompactCell>,
}

impl Model for CompactCells {
    ghost use Rattle.std.specs.Prelude.{List};
    ghost use Rattle.redodb_replica.specs.declared.cell.CompactCell.{CompactCell};

    ghost Value = { List CompactCell };

    ghost view = { λ inside. inside.cells.items };
}

impl CompactCells {
    pub fn new(alloc: Global, names: u32) -> Result<CompactCells, AllocError>
        ensures { IfOk result (λ cells. cells ≡ replicate names idle_cell) }
    {
        let cells = vec![in alloc; CompactCell::idle(); names as usize]?;
        Ok(CompactCells { cells })
    }

    pub fn get(&self, n: u32) -> CompactCell
        requires { n < length self.now }
        ensures { result ≡ cell_at self.now n }
    {
        self.cells[n as usize]
    }

    pub fn set_file(&mut self, n: u32, file: Option<u32>)
        requires { n < length self.old }
        ensures { self.new ≡ slice_set self.old n (record (cell_at self.old n) { file = file }) }
    {
        self.cells[n as usize].file = file;
    }

    /// The session starts a build, without a digest and an always row so far.
    pub fn start(&mut self, s: u8, t: u32)
        requires { t < length self.old }
        ensures { self.new ≡ slice_set self.old t (record (cell_at self.old t) {
          state = coded.Building s;
          digest = None;
          always = false;
        }) }
    {
        let cell = &mut self.cells[t as usize];
        cell.state = CompactState::Building(s);
        cell.digest = None;
        cell.always = false;
    }

    pub fn stamp(&mut self, t: u32, digest: u32)
        requires { t < length self.old }
        ensures { self.new
            ≡ slice_set self.old t (record (cell_at self.old t) { digest = Some digest }) }
    {
        self.cells[t as usize].digest = Some(digest);
    }

    /// The build ends with this file, or with none.
    pub fn done(&mut self, t: u32, stamp: Option<u32>)
        requires name { t < length self.old }
        requires builds { (cell_at self.old t).builds + 1 < 2 ^ 32 }
        ensures { self.new ≡ slice_set self.old t (record (cell_at self.old t) {
          file = stamp;
          done = stamp;
          state = coded.Built;
          builds = (cell_at self.old t).builds + 1;
        }) }
    {
        let cell = &mut self.cells[t as usize];
        cell.file = stamp;
        cell.done = stamp;
        cell.state = CompactState::Built;
        cell.builds += 1;
    }

    pub fn failed(&mut self, t: u32)
        requires { t < length self.old }
        ensures { self.new
            ≡ slice_set self.old t (record (cell_at self.old t) { state = coded.Failed }) }
    {
        self.cells[t as usize].state = CompactState::Failed;
    }

    pub fn set_always(&mut self, t: u32)
        requires { t < length self.old }
        ensures { self.new ≡ slice_set self.old t (record (cell_at self.old t) { always = true }) }
    {
        self.cells[t as usize].always = true;
    }
}
