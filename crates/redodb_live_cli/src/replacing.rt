use crate::opening::{create, is_named, open_folder, open_found, sync_open_folder};
use std::fs::{File, Metadata, OpenOptions};
use std::io::{ErrorKind, Write};
use std::os::unix::fs::{FileExt, MetadataExt};
use std::{fs, io};
use thiserror::Error;

/// How many bytes are compared at once.
const PIECE: usize = 8192;

/// Why a log keeps its bytes when others were to take their place. Its text follows the name of the new file.
#[derive(Clone, Copy, Debug, Error)]
pub enum KeepCause {
    /// Another file has its name.
    #[error("is there already")]
    IsThere,
    #[error("cannot open")]
    CannotOpen,
    #[error("would have another owner")]
    OtherOwner,
    #[error("write")]
    Write,
    /// The log's name is another file's by now, or the new file can't get it.
    #[error("cannot rename")]
    CannotRename,
}

/// Why a log was not replaced.
#[derive(Clone, Copy)]
pub enum ReplaceFault {
    /// It has the bytes that it had.
    Kept(KeepCause),
    /// The new file has its name, but the folder could not be synced.
    Unsynced,
}

impl From<KeepCause> for ReplaceFault {
    fn from(cause: KeepCause) -> ReplaceFault {
        ReplaceFault::Kept(cause)
    }
}

/// Whether a file has a beginning of these bytes, or all of them, and nothing else.
fn is_begun(file: &File, bytes: &[u8]) -> io::Result<bool> {
    let length = file.metadata()?.len();
    if length > bytes.len() as u64 {
        return Ok(false);
    }
    let mut piece = [0u8; PIECE];
    for at in (0..length).step_by(PIECE) {
        let count = (length - at).min(PIECE as u64) as usize;
        file.read_exact_at(&mut piece[..count], at)?;
        if !bytes[at as usize..].starts_with(&piece[..count]) {
            return Ok(false);
        }
    }
    Ok(true)
}

/// Opens the file that a start left, which was killed as it wrote these bytes, and cuts it. Any other file stays as it
/// is.
fn open_left(rt: &HostRuntime, name: &str, bytes: &[u8]) -> Result<File, KeepCause> {
    let found = open_found(rt, name, OpenOptions::new().read(true).append(true));
    let Ok(Some(file)) = found else {
        return Err(KeepCause::IsThere);
    };
    if file.try_lock().is_err() || !matches!(is_begun(&file, bytes), Ok(true)) {
        return Err(KeepCause::IsThere);
    }
    match file.set_len(0) {
        Ok(()) => Ok(file),
        Err(_) => Err(KeepCause::Write),
    }
}

/// Opens an empty file of this name for these bytes, which no other process has.
fn open_new(rt: &HostRuntime, name: &str, bytes: &[u8]) -> Result<File, KeepCause> {
    match create(rt, name) {
        Ok(file) => Ok(file),
        Err(error) if error.kind() == ErrorKind::AlreadyExists => open_left(rt, name, bytes),
        Err(_) => Err(KeepCause::CannotOpen),
    }
}

fn has_owner_of(file: &Metadata, other: &Metadata) -> bool {
    file.uid() == other.uid() && file.gid() == other.gid()
}

/// Writes the bytes to a new file, which is on the disk then, and may be read by whom the log may be read.
fn fill(file: &mut File, log: &File, bytes: &[u8]) -> Result<(), KeepCause> {
    let (Ok(own), Ok(logs)) = (file.metadata(), log.metadata()) else {
        return Err(KeepCause::Write);
    };
    if !has_owner_of(&own, &logs) {
        return Err(KeepCause::OtherOwner);
    }
    let written = file
        .set_permissions(logs.permissions())
        .and_then(|()| file.write_all(bytes))
        .and_then(|()| file.sync_all());
    written.map_err(|_| KeepCause::Write)
}

/// Gives the new file the name of the log, and syncs the folder. Returns whether that could be synced.
fn put_in_place(rt: &HostRuntime, name: &str, new: &str, log: &File) -> Result<bool, KeepCause> {
    let Ok(folder) = open_folder(rt, name) else {
        return Err(KeepCause::CannotOpen);
    };
    if !is_named(rt, name, log) || fs::rename(rt, new, name).is_err() {
        return Err(KeepCause::CannotRename);
    }
    Ok(sync_open_folder(&folder).is_ok())
}

/// Puts a new file with these bytes in the place of a log that has this name. Until then, its name is `new`. Returns the
/// file, and whether the folder could be synced.
pub fn replace(
    rt: &HostRuntime,
    name: &str,
    new: &str,
    log: &File,
    bytes: &[u8],
) -> Result<(File, bool), KeepCause> {
    let mut file = open_new(rt, new, bytes)?;
    let filled = fill(&mut file, log, bytes);
    match filled.and_then(|()| put_in_place(rt, name, new, log)) {
        Ok(is_synced) => Ok((file, is_synced)),
        Err(cause) => {
            let _ = fs::remove_file(rt, new);
            Err(cause)
        }
    }
}
