ghost use Rattle.std.specs.Prelude.{◌≡◌};
ghost use Rattle.redodb_live.specs.Support.Appended.{unread};
ghost use Rattle.redodb_live.specs.declared.fault.Unanswered.TheVariants.{Memory};
ghost use Rattle.redodb_live.specs.declared.fault.AnswerFault.TheVariants.{Unanswered};

use redodb_text::{LineFault, ReadFault};
use std::alloc::AllocError;
use thiserror::Error;

/// Why a command was not answered.
#[derive(Clone, Copy, Debug, PartialEq, Eq, Error)]
pub enum Unanswered {
    #[error("out of memory")]
    Memory,
    /// So many commands were answered that the calls that are left are kept for closing.
    #[error("worn")]
    Worn,
    /// The text is no command, or its names don't fit.
    #[error("{0}")]
    Fault(LineFault),
}

/// Why a command was not answered in this many bytes.
#[derive(Clone, Copy, Debug, PartialEq, Eq, Error)]
pub enum AnswerFault {
    #[error("{0}")]
    Unanswered(Unanswered),
    /// The answer would have this many bytes, which is more than the limit.
    #[error("{0} bytes are too long")]
    TooLong(usize),
}

impl From<AllocError> for Unanswered {
    ghost from_gives = { λ _ why. why ≡ Memory };

    fn from(_: AllocError) -> Unanswered {
        Unanswered::Memory
    }
}

impl From<ReadFault> for Unanswered {
    ghost from_gives = { λ fault why. why ≡ unread fault };

    fn from(fault: ReadFault) -> Unanswered {
        match fault {
            ReadFault::Memory => Unanswered::Memory,
            ReadFault::Line { line: _, fault } => Unanswered::Fault(fault),
        }
    }
}

impl From<AllocError> for AnswerFault {
    ghost from_gives = { λ _ why. why ≡ Unanswered Memory };

    fn from(_: AllocError) -> AnswerFault {
        AnswerFault::Unanswered(Unanswered::Memory)
    }
}

impl From<Unanswered> for AnswerFault {
    ghost from_gives = { λ unanswered why. why ≡ Unanswered unanswered };

    fn from(unanswered: Unanswered) -> AnswerFault {
        AnswerFault::Unanswered(unanswered)
    }
}
