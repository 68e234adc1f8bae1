use crate::fault::LogFault as OpenFault;
use crate::opening::{open_again, open_found, sync_folder};
use redodb_log::LogFault;
use std::fs::{File, OpenOptions};
use std::io;
use std::io::{ErrorKind, Seek, SeekFrom};
use std::os::unix::fs::FileExt;

/// How many bytes are compared at once.
const PIECE: usize = 8192;

/// Writes the bytes of an open file from this place on to another one.
fn copy_from(start: u64, mut from: &File, to: &mut File) -> io::Result<()> {
    from.seek(SeekFrom::Start(start))?;
    io::copy(&mut from, to)?;
    Ok(())
}

/// Writes the bytes of an open file, which has this name, once more in their place.
pub fn write_again(rt: &HostRuntime, name: &str, file: &File) -> io::Result<()> {
    match open_again(rt, name, file) {
        Some(mut again) => copy_from(0, file, &mut again),
        None => Ok(()),
    }
}

/// Whether two files have the same first bytes, so many. Each has at least these.
fn begin_alike(one: &File, other: &File, length: u64) -> io::Result<bool> {
    let (mut piece, mut wanted) = ([0u8; PIECE], [0u8; PIECE]);
    for at in (0..length).step_by(PIECE) {
        let count = (length - at).min(PIECE as u64) as usize;
        one.read_exact_at(&mut piece[..count], at)?;
        other.read_exact_at(&mut wanted[..count], at)?;
        if piece[..count] != wanted[..count] {
            return Ok(false);
        }
    }
    Ok(true)
}

/// How many bytes a copy has, if these are the first ones of the file.
fn copied(file: &File, copy: &File) -> io::Result<Option<u64>> {
    let length = copy.metadata()?.len();
    let is_begun = length <= file.metadata()?.len() && begin_alike(copy, file, length)?;
    Ok(is_begun.then_some(length))
}

/// Copies an open file, which others may change meanwhile, to an empty one, which is read from its beginning on then.
/// Returns whether the file still begins with what was copied.
pub fn copy_beginning(file: &File, copy: &mut File) -> io::Result<bool> {
    copy_from(0, file, copy)?;
    copy.seek(SeekFrom::Start(0))?;
    Ok(copied(file, copy)?.is_some())
}

/// Lets a copy be read by whom the file may be read.
fn share_alike(file: &File, copy: &File) -> io::Result<()> {
    copy.set_permissions(file.metadata()?.permissions())
}

/// Opens a copy that is there, to append to it, and tells how many bytes it has. They are the first ones of the file: any
/// other file stays closed, or as it is, and so does another user's.
fn open_begun(rt: &HostRuntime, name: &str, file: &File) -> Result<(File, u64), LogFault> {
    let copy = match open_found(rt, name, OpenOptions::new().read(true).append(true)) {
        Ok(Some(copy)) => copy,
        Ok(None) | Err(OpenFault::CannotOpen) => return Err(LogFault::CannotCopy),
        Err(_) => return Err(LogFault::IsCopied),
    };
    let length = match copied(file, &copy) {
        Ok(Some(length)) => length,
        Ok(None) => return Err(LogFault::IsCopied),
        Err(_) => return Err(LogFault::CopyWrite),
    };
    match share_alike(file, &copy) {
        Ok(()) => Ok((copy, length)),
        Err(error) if error.kind() == ErrorKind::PermissionDenied => Err(LogFault::IsCopied),
        Err(_) => Err(LogFault::CopyWrite),
    }
}

/// Opens the copy of this name, and tells how many bytes of the file it has: none, if it is new.
fn open_copy(rt: &HostRuntime, name: &str, file: &File) -> Result<(File, u64), LogFault> {
    let created = OpenOptions::new()
        .append(true)
        .create_new(true)
        .open(rt, name);
    match created {
        Ok(copy) => match share_alike(file, &copy) {
            Ok(()) => Ok((copy, 0)),
            Err(_) => Err(LogFault::CopyWrite),
        },
        Err(error) if error.kind() == ErrorKind::AlreadyExists => open_begun(rt, name, file),
        Err(_) => Err(LogFault::CannotCopy),
    }
}

/// Copies what a copy lacks to it, and syncs it and its folder.
fn copy_synced(
    rt: &HostRuntime,
    name: &str,
    file: &File,
    (mut copy, start): (File, u64),
) -> io::Result<()> {
    copy_from(start, file, &mut copy)?;
    copy.sync_data()?;
    sync_folder(rt, name)
}

/// Copies an open file to one of this name, which is on the disk then. A copy that was begun is gone on with; any other
/// file that is there stays as it is.
pub fn copy_to(rt: &HostRuntime, name: &str, file: &File) -> Result<(), LogFault> {
    let begun = open_copy(rt, name, file)?;
    match copy_synced(rt, name, file, begun) {
        Ok(()) => Ok(()),
        Err(_) => Err(LogFault::CopyWrite),
    }
}
