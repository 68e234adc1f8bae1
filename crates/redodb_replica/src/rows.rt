ghost use Rattle.std.specs.Prelude.{◌≡◌, ◌<◌, ◌≤◌, length, replicate, IfOk};
ghost use Rattle.redodb_replica.specs.PairRows.{bare, change_of, row_at, IsChanged, IsMade, IsPut, IsCleared};

use crate::mark::Mark;
use std::alloc::{AllocError, Global};
use std::marker::Model;
use std::mem::size_of;

/// Whether there is a change row, and which mark it has.
#[derive(Clone, Copy, Debug, PartialEq, Eq)]
pub enum RowKind {
    Missing,
    Absent,
    Pending,
    File,
    Digest,
    Builds,
}

/// The rows of a target on a name: its change row, with the number of the mark, and whether there is a created row.
#[derive(Clone, Copy, Debug, PartialEq, Eq)]
pub struct Row {
    pub kind: RowKind,
    pub created: bool,
    pub number: u32,
}

// Each replica has one for each pair. An `Option<Mark>` beside the flag takes 16 bytes.
const _: () = prove!(size_of::<Row>() <= 8);

impl Row {
    pub fn bare() -> Row
        ensures { result ≡ bare }
    {
        Row {
            kind: RowKind::Missing,
            created: false,
            number: 0,
        }
    }

    pub fn change(&self) -> Option<Mark>
        ensures { result ≡ change_of self.now }
    {
        match self.kind {
            RowKind::Missing => None,
            RowKind::Absent => Some(Mark::Absent),
            RowKind::Pending => Some(Mark::Pending),
            RowKind::File => Some(Mark::File(self.number)),
            RowKind::Digest => Some(Mark::Digest(self.number)),
            RowKind::Builds => Some(Mark::Builds(self.number)),
        }
    }

    /// The same with a change row of this mark, which replaces an earlier one.
    pub fn changed(self, mark: Mark) -> Row
        ensures { IsChanged mark self result }
    {
        let (kind, number) = match mark {
            Mark::Absent => (RowKind::Absent, 0),
            Mark::Pending => (RowKind::Pending, 0),
            Mark::File(stamp) => (RowKind::File, stamp),
            Mark::Digest(digest) => (RowKind::Digest, digest),
            Mark::Builds(builds) => (RowKind::Builds, builds),
        };
        Row {
            kind,
            created: self.created,
            number,
        }
    }

    pub fn made(self) -> Row
        ensures { IsMade self result }
    {
        Row {
            created: true,
            ..self
        }
    }
}

/// The rows of the pairs of targets and names, by the places of the pairs. Only `new` allocates.
#[derive(Drop)]
pub struct PairRows {
    rows: Vec<Row>,
}

impl Model for PairRows {
    ghost use Rattle.std.specs.Prelude.{List};
    ghost use Rattle.redodb_replica.specs.declared.rows.Row.{Row};

    ghost Value = { List Row };

    ghost view = { λ inside. inside.rows.items };
}

impl PairRows {
    pub fn new(alloc: Global, pairs: usize) -> Result<PairRows, AllocError>
        ensures { IfOk result (λ rows. rows ≡ replicate pairs bare) }
    {
        let rows = vec![in alloc; Row::bare(); pairs]?;
        Ok(PairRows { rows })
    }

    pub fn row(&self, place: u32) -> Row
        requires { place < length self.now }
        ensures { result ≡ row_at self.now place }
    {
        self.rows[place as usize]
    }

    /// A change row of the pair, which replaces an earlier one.
    pub fn put_change(&mut self, place: u32, mark: Mark)
        requires { place < length self.old }
        ensures { IsPut place (IsChanged mark) self.old self.new }
    {
        let row = self.rows[place as usize];
        self.rows[place as usize] = row.changed(mark);
    }

    pub fn put_created(&mut self, place: u32)
        requires { place < length self.old }
        ensures { IsPut place IsMade self.old self.new }
    {
        let row = self.rows[place as usize];
        self.rows[place as usize] = row.made();
    }

    pub fn clear(&mut self, from: usize, to: usize)
        requires order { from ≤ to }
        requires places { to ≤ length self.old }
        ensures { IsCleared from to self.old self.new }
    {
        for place in from..to {
            self.rows[place] = Row::bare();
        }
    }
}
