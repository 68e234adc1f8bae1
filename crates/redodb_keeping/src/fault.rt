use redodb_io::WriteFault;
use redodb_live::Unanswered;
use redodb_log::{LogFault, RestoreFault, Unread};
use redodb_text::fault_word;
use std::alloc::AllocError;
use thiserror::Error;

/// Why a conversation ended before its input did.
#[derive(Clone, Copy, Debug, PartialEq, Eq, Error)]
pub enum ServeFault {
    /// Memory ran out at the beginning.
    #[error("out of memory")]
    Memory,
    /// The log has more lines than the database answers.
    #[error("worn")]
    Worn,
    /// This line of the log isn't that of a dump. The header is line 1.
    #[error("line {line}: no state")]
    State { line: usize },
    /// This line of the log isn't the database's answer, or it isn't the header, which is line 1.
    #[error("line {line} differs")]
    Differs { line: usize },
    /// An operation of the log failed.
    #[error("log: {0}")]
    Log(LogFault),
    /// A read of the input failed.
    #[error("a read failed")]
    Read,
    /// More reads than can be counted gave bytes.
    #[error("too long")]
    TooLong,
    /// A write to the output failed, or its flush.
    #[error("a write failed")]
    Write,
}

impl From<AllocError> for ServeFault {
    ghost use Rattle.std.specs.Prelude.{◌≡◌};
    ghost use Rattle.redodb_keeping.specs.declared.fault.ServeFault.TheVariants.{Memory};

    ghost from_gives = { λ _ fault. fault ≡ Memory };

    fn from(_: AllocError) -> ServeFault {
        ServeFault::Memory
    }
}

impl From<LogFault> for ServeFault {
    ghost use Rattle.std.specs.Prelude.{◌≡◌};
    ghost use Rattle.redodb_keeping.specs.declared.fault.ServeFault.TheVariants.{Log};

    ghost from_gives = { λ cause fault. fault ≡ Log cause };

    fn from(fault: LogFault) -> ServeFault {
        ServeFault::Log(fault)
    }
}

impl From<Unread> for ServeFault {
    ghost use Rattle.std.specs.Prelude.{◌≡◌};
    ghost use Rattle.redodb_keeping.specs.Support.Opening.{unread};

    ghost from_gives = { λ cause fault. fault ≡ unread cause };

    fn from(fault: Unread) -> ServeFault {
        match fault {
            Unread::Memory => ServeFault::Memory,
            Unread::Fault(fault) => ServeFault::Log(fault),
        }
    }
}

impl From<RestoreFault> for ServeFault {
    ghost use Rattle.std.specs.Prelude.{◌≡◌};
    ghost use Rattle.redodb_keeping.specs.Support.Opening.{unrestored};

    ghost from_gives = { λ cause fault. fault ≡ unrestored cause };

    fn from(fault: RestoreFault) -> ServeFault {
        match fault {
            RestoreFault::Memory => ServeFault::Memory,
            RestoreFault::Worn => ServeFault::Worn,
            RestoreFault::State { line } => ServeFault::State { line },
            RestoreFault::Differs { line, .. } => ServeFault::Differs { line },
        }
    }
}

impl From<WriteFault> for ServeFault {
    ghost use Rattle.std.specs.Prelude.{◌≡◌};
    ghost use Rattle.redodb_keeping.specs.declared.fault.ServeFault.TheVariants.{Write};

    ghost from_gives = { λ _ fault. fault ≡ Write };

    fn from(_: WriteFault) -> ServeFault {
        ServeFault::Write
    }
}

/// The fault of a line: the session's number in the answer, 0 if the line has none, and its word.
#[derive(Clone, Copy, Debug, PartialEq, Eq)]
pub struct Refusal {
    pub number: u16,
    pub word: &'static str,
}

impl Refusal {
    ghost use Rattle.std.specs.Prelude.{◌≡◌, ◌+◌, ◌<◌, ◌≤◌, codes, length};
    ghost use Rattle.redodb_keeping.specs.Support.Sending.{refusal_word_of};

    /// The line has no session.
    pub fn no_session() -> Refusal
        ensures number { result.number ≡ 0 }
        ensures word { result.word.now ≡ codes "bad-session" }
    {
        Refusal {
            number: 0,
            word: "bad-session",
        }
    }

    /// Why a session was not answered.
    pub fn of(session: u16, why: Unanswered) -> Refusal
        requires { session < 65535 }
        ensures number { result.number ≡ session + 1 }
        ensures word { result.word.now ≡ refusal_word_of why }
        ensures short { length result.word.now ≤ 20 }
    {
        let word = match why {
            Unanswered::Memory => "memory",
            Unanswered::Worn => "worn",
            Unanswered::Fault(fault) => fault_word(fault),
        };
        Refusal {
            number: session + 1,
            word,
        }
    }
}
