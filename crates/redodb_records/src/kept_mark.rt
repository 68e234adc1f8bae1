ghost use Rattle.std.specs.Prelude.{◌≡◌, ◌↔◌, IsTrue};
ghost use Rattle.redodb_model.specs.State.{mark_in};
ghost use Rattle.redodb_records.specs.Meaning.{row_mark_of};
ghost use Rattle.redodb_records.specs.Support.KeptMark.{kept_mark_of};

use crate::cell::Cell;
use crate::mark::Mark;
use redodb_commands::FileStamp;
use std::marker::Model;

/// How often a name was built, in four bytes at any address.
#[derive(Clone, Copy, Debug)]
pub struct BuildCount {
    bytes: [u8; 4],
}

impl Model for BuildCount {
    ghost use Rattle.std.specs.Prelude.{◌≡◌, ℕ};
    ghost use Rattle.std.specs.Int.{w32, from_le_bytes, to_le_bytes};

    ghost Value = { ℕ };

    ghost view = { λ count. from_le_bytes w32 count.bytes };

    ghost invariant = { λ count. to_le_bytes w32 (from_le_bytes w32 count.bytes) ≡ count.bytes };

    ghost inverse = { λ builds. record { bytes = to_le_bytes w32 builds } };

    ghost inverse_ok = { λ count is i. record { bytes = is i } };
}

impl BuildCount {
    pub fn new(builds: u32) -> BuildCount
        ensures { result ≡ builds }
    {
        BuildCount {
            bytes: builds.to_le_bytes(),
        }
    }

    fn builds(self) -> u32
        ensures { result ≡ self }
    {
        u32::from_le_bytes(self.bytes)
    }
}

/// A mark in a slot, without the padding of a `Mark`.
#[derive(Clone, Copy, Debug)]
pub enum KeptMark {
    Digest([u8; 20]),
    Builds(BuildCount),
    Pending,
    File(FileStamp),
    Absent,
}

impl KeptMark {
    pub fn mark(self) -> Mark
        ensures { row_mark_of result ≡ kept_mark_of self }
    {
        match self {
            KeptMark::Digest(digest) => Mark::Digest(digest),
            KeptMark::Builds(count) => Mark::Builds(count.builds()),
            KeptMark::Pending => Mark::Pending,
            KeptMark::File(stamp) => Mark::File(stamp),
            KeptMark::Absent => Mark::Absent,
        }
    }

    /// Whether it is the mark of a name with this cell.
    pub fn is_of(&self, cell: &Cell) -> bool
        ensures { IsTrue result ↔ (kept_mark_of self.now ≡ mark_in cell.now.state cell.now) }
    {
        match self {
            KeptMark::Digest(digest) => cell.has_digest(digest),
            KeptMark::Builds(count) => cell.has_builds(count.builds()),
            KeptMark::Pending => cell.is_pending(),
            KeptMark::File(stamp) => cell.has_stamp(stamp),
            KeptMark::Absent => cell.is_absent(),
        }
    }
}
