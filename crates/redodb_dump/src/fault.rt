//! Why a text can't be loaded.

use std::alloc::AllocError;
use thiserror::Error;

/// Why the database of a dump can't be made.
#[derive(Clone, Copy, Debug, PartialEq, Eq, Error)]
pub enum LoadFault {
    #[error("out of memory")]
    Memory,
    /// A name was built or granted so often that the database would answer no more calls.
    #[error("worn")]
    Worn,
    /// This line isn't that of a dump. Lines are counted from 1.
    #[error("line {0} differs")]
    Line(usize),
}

impl From<AllocError> for LoadFault {
    ghost use Rattle.std.specs.Prelude.{◌≡◌};
    ghost use Rattle.redodb_dump.specs.declared.fault.LoadFault.TheVariants.{Memory};

    ghost from_gives = { λ _ fault. fault ≡ Memory };

    fn from(_: AllocError) -> LoadFault {
        LoadFault::Memory
    }
}
