use crate::fault::{Fault, LogFault};
use crate::log_file::LogFile;
use redodb_arguments as words;
use redodb_log::LOG_HEADER;
use std::fs::{File, Metadata, OpenOptions, TryLockError};
use std::io::ErrorKind;
use std::os::fd::AsRawFd;
use std::os::unix::fs::MetadataExt;
use std::path::Path;
use std::{fs, io};

/// How often a log is opened again whose name another file got meanwhile.
const MOST_TRIES: usize = 100;

/// That of standard error. Those of standard input and standard output come before it.
const LAST_STANDARD: i32 = 2;

/// Opens the root folder at each standard descriptor that is closed, so that no other file gets one: to read or to write
/// there still fails.
pub fn hold_closed(rt: &HostRuntime) -> Result<Vec<File>, Fault> {
    let mut held = Vec::new(rt.alloc());
    for _ in 0..=LAST_STANDARD {
        let Ok(root) = File::open(rt, "/") else {
            return Err(Fault::Root);
        };
        if root.as_raw_fd() > LAST_STANDARD {
            break;
        }
        if held.push(root).is_err() {
            return Err(Fault::Memory);
        }
    }
    Ok(held)
}

fn is_same(one: &Metadata, other: &Metadata) -> bool {
    one.dev() == other.dev() && one.ino() == other.ino()
}

/// Opens a regular file that has no other name: `None` if another file takes its place meanwhile.
pub fn open_found(
    rt: &HostRuntime,
    name: &str,
    how: &OpenOptions,
) -> Result<Option<File>, LogFault> {
    let Ok(found) = fs::symlink_metadata(rt, name) else {
        return Err(LogFault::CannotOpen);
    };
    if !found.is_file() {
        return Err(LogFault::NotRegular);
    }
    if found.nlink() > 1 {
        return Err(LogFault::HasLinks);
    }
    let Ok(file) = how.open(rt, name) else {
        return Err(LogFault::CannotOpen);
    };
    match file.metadata() {
        Ok(opened) => Ok(is_same(&found, &opened).then_some(file)),
        Err(_) => Err(LogFault::CannotOpen),
    }
}

/// Whether the open file has this name.
pub fn is_named(rt: &HostRuntime, name: &str, file: &File) -> bool {
    match (fs::symlink_metadata(rt, name), file.metadata()) {
        (Ok(named), Ok(opened)) => is_same(&named, &opened),
        _ => false,
    }
}

/// Opens a log to read it. Another process may have it.
pub fn open_to_read(rt: &HostRuntime, name: &str) -> Result<File, LogFault> {
    for _ in 0..MOST_TRIES {
        if let Some(file) = open_found(rt, name, OpenOptions::new().read(true))? {
            return Ok(file);
        }
    }
    Err(LogFault::InUse)
}

/// Creates a file that no other process has. If it can't be locked, it is removed.
pub fn create(rt: &HostRuntime, name: &str) -> io::Result<File> {
    let file = OpenOptions::new()
        .read(true)
        .append(true)
        .create_new(true)
        .open(rt, name)?;
    if file.try_lock().is_ok() {
        return Ok(file);
    }
    let _ = fs::remove_file(rt, name);
    Err(io::Error::from(ErrorKind::WouldBlock))
}

/// Opens the log's file, a new one if there is none: `None` if another file takes its place meanwhile.
fn open_once(rt: &HostRuntime, name: &str) -> Result<Option<File>, LogFault> {
    // follows no link, whatever the name leads to
    let created = OpenOptions::new()
        .read(true)
        .append(true)
        .create_new(true)
        .open(rt, name);
    match created {
        Ok(file) => Ok(Some(file)),
        Err(_) => open_found(rt, name, OpenOptions::new().read(true).append(true)),
    }
}

/// Locks the log's file. The lock ends with the process.
fn lock(file: &File) -> Result<(), LogFault> {
    match file.try_lock() {
        Ok(()) => Ok(()),
        Err(TryLockError::WouldBlock) => Err(LogFault::InUse),
        Err(TryLockError::Error(_)) => Err(LogFault::CannotLock),
    }
}

/// Opens the log, which no other process may have. A process that had it can have put another file in its place, just
/// before this one locks the old file: then this tries once more.
fn open(rt: &HostRuntime, name: &str) -> Result<File, LogFault> {
    for _ in 0..MOST_TRIES {
        let Some(file) = open_once(rt, name)? else {
            continue;
        };
        lock(&file)?;
        if is_named(rt, name, &file) {
            return Ok(file);
        }
    }
    Err(LogFault::InUse)
}

/// Opens an open file by its name once more, to write from its beginning on.
pub fn open_again(rt: &HostRuntime, name: &str, file: &File) -> Option<File> {
    let again = open_found(rt, name, OpenOptions::new().write(true)).ok()??;
    let (one, other) = (file.metadata().ok()?, again.metadata().ok()?);
    is_same(&one, &other).then_some(again)
}

/// Opens the folder of a file.
pub fn open_folder(rt: &HostRuntime, name: &str) -> io::Result<File> {
    let folder = match Path::new(name).parent() {
        Some(folder) if folder != Path::new("") => folder,
        _ => Path::new("."),
    };
    File::open(rt, folder)
}

/// Syncs a folder to the disk. A file system that knows no such sync is taken as it is.
pub fn sync_open_folder(folder: &File) -> io::Result<()> {
    match folder.sync_all() {
        Err(error) if error.kind() == ErrorKind::InvalidInput => Ok(()),
        synced => synced,
    }
}

/// Syncs the folder of a file to the disk.
pub fn sync_folder(rt: &HostRuntime, name: &str) -> io::Result<()> {
    sync_open_folder(&open_folder(rt, name)?)
}

/// Whether the file has no line yet.
fn is_new(file: &File) -> Result<bool, LogFault> {
    match file.metadata() {
        Ok(metadata) => Ok(metadata.len() < LOG_HEADER.len() as u64),
        Err(_) => Err(LogFault::Read),
    }
}

/// Opens the log of the arguments. The folder is synced if the log has no line yet, or if each answer is to be.
pub fn open_log<'a>(rt: &HostRuntime, asked: &'a words::LogFile) -> Result<LogFile<'a>, Fault> {
    let copy = format!(in rt.alloc(); "{}.damaged", asked.name)?;
    let new = format!(in rt.alloc(); "{}.new", asked.name)?;
    let file = open(rt, &asked.name)?;
    if (asked.sync || is_new(&file)?) && sync_folder(rt, &asked.name).is_err() {
        return Err(Fault::Log(LogFault::Write));
    }
    Ok(LogFile::new(&asked.name, copy, new, Some(file)))
}
