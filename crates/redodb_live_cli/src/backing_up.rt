use crate::fault::{CopyFault, Fault, LogFault};
use crate::log_file::LogFile;
use crate::opening::{create, open_to_read};
use crate::reading::is_log;
use redodb_arguments::Backup;
use std::fs::File;
use std::io::ErrorKind;

/// Opens the log to read it, if it begins as one.
fn open_log(rt: &HostRuntime, name: &str) -> Result<File, Fault> {
    let log = open_to_read(rt, name)?;
    let Ok(metadata) = log.metadata() else {
        return Err(Fault::Log(LogFault::Read));
    };
    if is_log(rt.alloc(), &log, metadata.len())? {
        Ok(log)
    } else {
        Err(Fault::Log(LogFault::Differs { line: 1 }))
    }
}

fn create_copy(rt: &HostRuntime, name: &str) -> Result<File, CopyFault> {
    match create(rt, name) {
        Ok(copy) => Ok(copy),
        Err(error) if error.kind() == ErrorKind::AlreadyExists => Err(CopyFault::IsThere),
        Err(_) => Err(CopyFault::CannotOpen),
    }
}

/// A new file for a copy, which has no bytes yet.
fn new_copy<'a>(rt: &HostRuntime, name: &'a str) -> Result<LogFile<'a>, Fault> {
    let copy = format!(in rt.alloc(); "{name}.damaged")?;
    let new = format!(in rt.alloc(); "{name}.new")?;
    let file = create_copy(rt, name)?;
    Ok(LogFile::new(name, copy, new, Some(file)))
}

/// Copies the log. What was copied isn't taken if a process that has the log has cut it meanwhile.
fn fill(rt: &HostRuntime, log: &File, copy: &mut LogFile<'_>) -> Result<(), Fault> {
    match copy.fill(rt, log) {
        Ok(true) => Ok(()),
        Ok(false) => Err(Fault::Log(LogFault::InUse)),
        Err(_) => Err(Fault::Copy(CopyFault::Write)),
    }
}

/// A new file with the bytes that a log has now, which another process may have. If it can't be filled, it is removed.
pub fn copy_log<'a>(rt: &HostRuntime, asked: &'a Backup) -> Result<LogFile<'a>, Fault> {
    let log = open_log(rt, &asked.log)?;
    let mut copy = new_copy(rt, &asked.copy)?;
    let filled = fill(rt, &log, &mut copy);
    match filled {
        Ok(()) => Ok(copy),
        Err(fault) => {
            copy.remove(rt);
            Err(fault)
        }
    }
}
