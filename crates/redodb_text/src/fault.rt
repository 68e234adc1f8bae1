ghost use Rattle.std.specs.Prelude.{◌≡◌, ◌↔◌};
ghost use Rattle.redodb_text.specs.Faults.{fault_word_of};

use std::alloc::{AllocError, AllocFailed};
use thiserror::Error;

/// What is wrong with a line. The numbers are those of the faults of reading, of which `Memory` is 1.
#[derive(Clone, Copy, Debug, PartialEq, Eq, Error)]
pub enum LineFault {
    #[error("the line is too long")]
    LineTooLong = 2,
    #[error("a byte that is no text")]
    BadByte = 3,
    #[error("no such command")]
    UnknownCommand = 4,
    #[error("not the words of the command")]
    WrongWords = 5,
    #[error("not a name")]
    BadName = 6,
    #[error("not a file stamp")]
    BadStamp = 7,
    #[error("not hexadecimal digits")]
    BadHex = 8,
    #[error("too many commands")]
    TooManyLines = 9,
    #[error("too many names")]
    TooManyNames = 10,
}

/// The word of a line's fault.
pub fn fault_word(fault: LineFault) -> &'static str
    ensures { result.now ≡ fault_word_of fault }
{
    match fault {
        LineFault::LineTooLong => "line-too-long",
        LineFault::BadByte => "bad-byte",
        LineFault::UnknownCommand => "unknown-command",
        LineFault::WrongWords => "wrong-words",
        LineFault::BadName => "bad-name",
        LineFault::BadStamp => "bad-stamp",
        LineFault::BadHex => "bad-hex",
        LineFault::TooManyLines => "too-many-lines",
        LineFault::TooManyNames => "too-many-names",
    }
}

/// Why a text could not be read. Lines are counted from 1.
#[derive(Debug, Drop, Error)]
pub enum ReadFault {
    #[error("out of memory")]
    Memory,
    #[error("line {line}: {fault}")]
    Line { line: usize, fault: LineFault },
}

impl From<AllocError> for ReadFault {
    ghost use Rattle.std.specs.Prelude.{◌≡◌};
    ghost use Rattle.redodb_text.specs.declared.fault.ReadFault.TheVariants.{Memory};

    ghost from_gives = { λ _ e. e ≡ Memory };

    fn from(_e: AllocError) -> ReadFault {
        ReadFault::Memory
    }
}

/// Why a run or a replay is refused, or the program fails. Files are counted from 0, lines from 1. A
/// replay's history is file 0, and its lines are counted without the header.
#[derive(Clone, Copy, Debug, PartialEq, Eq, Error)]
pub enum Fault {
    #[error("out of memory")]
    Memory,
    #[error("words that ask for nothing")]
    Usage,
    #[error("file {file}: cannot open")]
    CannotOpen {
        file: usize,
    },
    #[error("file {file}: a read failed")]
    Read {
        file: usize,
    },
    #[error("file {file}: too long")]
    TooLong {
        file: usize,
    },
    #[error("file {file}: line {line}: {fault}")]
    Line {
        file: usize,
        line: usize,
        fault: LineFault,
    },
    #[error("bad header")]
    BadHeader,
    #[error("cut")]
    Cut,
    #[error("line {line}: no session")]
    BadSession {
        line: usize,
    },
    #[error("line {line}: no reply")]
    BadReply {
        line: usize,
    },
    #[error("no session")]
    NoSession,
    #[error("too many sessions")]
    TooManySessions,
    #[error("a write failed")]
    Write,
}

impl From<AllocError> for Fault {
    ghost use Rattle.std.specs.Prelude.{◌≡◌};
    ghost use Rattle.redodb_text.specs.declared.fault.Fault.TheVariants.{Memory};

    ghost from_gives = { λ _ fault. fault ≡ Memory };

    fn from(_: AllocError) -> Fault {
        Fault::Memory
    }
}

impl<T: Drop> From<AllocFailed<T>> for Fault {
    ghost use Rattle.std.specs.Prelude.{◌≡◌};
    ghost use Rattle.redodb_text.specs.declared.fault.Fault.TheVariants.{Memory};

    ghost from_gives = { λ _ fault. fault ≡ Memory };

    fn from(_: AllocFailed<T>) -> Fault {
        Fault::Memory
    }
}

/// Why a text could not be read as a reply.
#[derive(Clone, Copy, Debug, PartialEq, Eq, Error)]
pub enum ReplyFault {
    #[error("out of memory")]
    Memory,
    /// It is no reply's text, or its names would be too many.
    #[error("not a reply")]
    BadReply,
}

/// Why a line could not be read, apart from its number.
#[derive(Drop)]
pub(crate) enum Unread {
    Memory,
    Fault(LineFault),
}

impl From<AllocError> for Unread {
    ghost use Rattle.std.specs.Prelude.{◌≡◌};
    ghost use Rattle.redodb_text.specs.declared.fault.Unread.TheVariants.{Memory};

    ghost from_gives = { λ _ e. e ≡ Memory };

    fn from(_e: AllocError) -> Unread {
        Unread::Memory
    }
}

impl<T: Drop> From<AllocFailed<T>> for Unread {
    ghost use Rattle.std.specs.Prelude.{◌≡◌};
    ghost use Rattle.redodb_text.specs.declared.fault.Unread.TheVariants.{Memory};

    ghost from_gives = { λ _ e. e ≡ Memory };

    fn from(_e: AllocFailed<T>) -> Unread {
        Unread::Memory
    }
}

/// The fault of the line of this number; only `Memory` stays `Memory`.
pub(crate) fn at_line(number: usize, unread: Unread) -> ReadFault
    ensures memory { (result ≡ ReadFault.Memory) ↔ (unread ≡ Unread.Memory) }
    ensures fault { (fault : LineFault) → unread ≡ Unread.Fault fault
        → result ≡ ReadFault.Line number fault }
{
    match unread {
        Unread::Memory => ReadFault::Memory,
        Unread::Fault(fault) => ReadFault::Line {
            line: number,
            fault,
        },
    }
}
