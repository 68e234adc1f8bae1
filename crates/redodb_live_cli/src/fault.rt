use redodb_arguments::LiveJob;
use redodb_io::{Watched, write_whole};
use redodb_keeping::ServeFault;
use redodb_log::{self as logs, Unread};
use std::alloc::AllocError;
use thiserror::Error;

/// Why the program fails.
#[derive(Clone, Copy, Debug, Error)]
pub enum Fault {
    #[error("usage")]
    Usage,
    #[error("memory")]
    Memory,
    /// The root folder can't be opened.
    #[error("/: cannot open")]
    Root,
    /// A read of standard input failed.
    #[error("-: read")]
    Read,
    /// A write to standard output failed.
    #[error("write")]
    Write,
    #[error("{0}")]
    Log(#[from] LogFault),
    #[error("{0}")]
    Copy(#[from] CopyFault),
}

/// Why a backup can't be made. Its text follows the name of the copy.
#[derive(Clone, Copy, Debug, Error)]
pub enum CopyFault {
    #[error(": is there already")]
    IsThere,
    #[error(": cannot open")]
    CannotOpen,
    #[error(": write")]
    Write,
}

/// Why the log can't be used. Its text follows the name of the log.
#[derive(Clone, Copy, Debug, Error)]
pub enum LogFault {
    #[error(": cannot open")]
    CannotOpen,
    #[error(": not a regular file")]
    NotRegular,
    #[error(": has other links")]
    HasLinks,
    #[error(": in use")]
    InUse,
    #[error(": cannot lock")]
    CannotLock,
    #[error(": read")]
    Read,
    #[error(": write")]
    Write,
    /// Lines are counted from 1, the header among them.
    #[error(": line {line} differs")]
    Differs { line: usize },
    /// The dump that it begins with is damaged.
    #[error(": line {line}: no state")]
    State { line: usize },
    #[error(": worn")]
    Worn,
    /// Another file, or a copy of another log, has the name of the copy.
    #[error(".damaged: is there already")]
    IsCopied,
    #[error(".damaged: cannot open")]
    CannotCopy,
    #[error(".damaged: write")]
    CopyWrite,
}

impl From<AllocError> for Fault {
    fn from(_: AllocError) -> Fault {
        Fault::Memory
    }
}

impl From<logs::LogFault> for LogFault {
    fn from(fault: logs::LogFault) -> LogFault {
        match fault {
            logs::LogFault::Read => LogFault::Read,
            logs::LogFault::NotRegular => LogFault::NotRegular,
            logs::LogFault::Write => LogFault::Write,
            logs::LogFault::IsCopied => LogFault::IsCopied,
            logs::LogFault::CannotCopy => LogFault::CannotCopy,
            logs::LogFault::CopyWrite => LogFault::CopyWrite,
        }
    }
}

impl From<ServeFault> for Fault {
    fn from(fault: ServeFault) -> Fault {
        match fault {
            ServeFault::Memory => Fault::Memory,
            ServeFault::Worn => Fault::Log(LogFault::Worn),
            ServeFault::State { line } => Fault::Log(LogFault::State { line }),
            ServeFault::Differs { line } => Fault::Log(LogFault::Differs { line }),
            ServeFault::Log(fault) => Fault::Log(LogFault::from(fault)),
            ServeFault::Read | ServeFault::TooLong => Fault::Read,
            ServeFault::Write => Fault::Write,
        }
    }
}

impl From<Unread> for Fault {
    fn from(unread: Unread) -> Fault {
        match unread {
            Unread::Memory => Fault::Memory,
            Unread::Fault(fault) => Fault::Log(LogFault::from(fault)),
        }
    }
}

/// Writes a line to standard error, at once. Ignores a failed write.
pub fn say(rt: &HostRuntime, line: &str) {
    let _ = write_whole(&mut Watched::new(rt.stderr()), line.as_bytes());
}

/// The names of the log and of its copy, if the job has them.
fn names_of(job: Option<&LiveJob>) -> (&str, &str) {
    match job {
        Some(LiveJob::Talk(Some(log))) => (&log.name, "-"),
        Some(LiveJob::BackUp(backup)) => (&backup.log, &backup.copy),
        Some(LiveJob::Talk(None)) | None => ("-", "-"),
    }
}

/// Writes the fault's line.
pub fn tell(rt: &HostRuntime, job: Option<&LiveJob>, fault: Fault) {
    let (log, copy) = names_of(job);
    let line = match fault {
        Fault::Log(fault) => format!(in rt.alloc(); "redodb-live: {log}{fault}\n"),
        Fault::Copy(fault) => format!(in rt.alloc(); "redodb-live: {copy}{fault}\n"),
        other => format!(in rt.alloc(); "redodb-live: {other}\n"),
    };
    match line {
        Ok(line) => say(rt, &line),
        Err(_) => say(rt, "redodb-live: memory\n"),
    }
}
