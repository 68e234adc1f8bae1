use redodb_text::LineFault;
use std::alloc::AllocError;
use thiserror::Error;

/// Why a text could not be read as a history. Lines are counted from 1, without the header.
#[derive(Clone, Copy, Debug, PartialEq, Eq, Error)]
pub enum HistoryFault {
    #[error("out of memory")]
    Memory,
    /// It does not begin with the header of a history.
    #[error("bad header")]
    BadHeader,
    /// It ends before as many lines as the header counts.
    #[error("cut")]
    Cut,
    /// The line does not begin with a session's number.
    #[error("line {0}: no session")]
    BadSession(usize),
    /// What follows the session's number is no command.
    #[error("line {0}: {1}")]
    BadLine(usize, LineFault),
    /// What follows the command is no reply.
    #[error("line {0}: no reply")]
    BadReply(usize),
}

impl From<AllocError> for HistoryFault {
    ghost use Rattle.std.specs.Prelude.{◌≡◌};
    ghost use Rattle.redodb_history.specs.declared.fault.HistoryFault.TheVariants.{Memory};

    ghost from_gives = { λ _ fault. fault ≡ Memory };

    fn from(_: AllocError) -> HistoryFault {
        HistoryFault::Memory
    }
}
