use redodb_io::{Watched, WholeFault, read_whole};
use redodb_log::{DUMP_HEADER, LOG_HEADER, LogFault, Unread};
use std::alloc::Global;
use std::fs::File;
use std::io::Read;
use std::os::unix::fs::FileExt;

/// The first bytes of a file that has this length, as many as `most` if there are so many.
fn read_head(alloc: Global, file: &File, length: u64, most: usize) -> Result<Vec<u8>, Unread> {
    let Ok(mut head) = vec![in alloc; 0; most] else {
        return Err(Unread::Memory);
    };
    let Ok(count) = file.read_at(&mut head, 0) else {
        return Err(Unread::Fault(LogFault::Read));
    };
    // a file of /proc has no length, and more in it
    if count as u64 > length {
        return Err(Unread::Fault(LogFault::NotRegular));
    }
    head.truncate(count);
    Ok(head)
}

fn begins_log(head: &[u8]) -> bool {
    LOG_HEADER.starts_with(head) || DUMP_HEADER.starts_with(head)
}

/// Whether a file that has this length begins as a log does.
pub fn is_log(alloc: Global, file: &File, length: u64) -> Result<bool, Unread> {
    let head = read_head(alloc, file, length, LOG_HEADER.len())?;
    Ok(begins_log(&head))
}

/// All bytes of a file that has this length. If they don't begin as a log does, the first ones alone.
pub fn read_log(alloc: Global, file: &File, length: u64) -> Result<Vec<u8>, Unread> {
    let head = read_head(alloc, file, length, LOG_HEADER.len())?;
    if !begins_log(&head) {
        return Ok(head);
    }
    match read_whole(alloc, &mut Watched::new(file.take(length)), usize::MAX) {
        Ok(bytes) => Ok(bytes),
        Err(WholeFault::Memory) => Err(Unread::Memory),
        Err(WholeFault::Device | WholeFault::TooLong) => Err(Unread::Fault(LogFault::Read)),
    }
}
