ghost use Rattle.std.specs.Prelude.{IfErr};
ghost use Rattle.redodb_log.specs.Operations.{IsPrefix};

use crate::copying::{copy_beginning, copy_to, write_again};
use crate::opening::{is_named, sync_folder};
use crate::reading::read_log;
use crate::replacing::{ReplaceFault, replace};
use crate::writing::write_or_part;
use redodb_log::{LogFault, Unread};
use std::alloc::Global;
use std::fs::File;
use std::{fs, io};

/// The file of a log, if there is one: without it nothing is read, and what is done succeeds and does nothing.
#[derive(Drop)]
pub struct LogFile<'a> {
    name: &'a str,
    /// The name of the copy of a damaged log.
    copy: String,
    /// The name of a file that is to take its place.
    new: String,
    file: Option<File>,
    /// The file whose place it took: it stays locked, so that who opened it meanwhile finds it in use.
    former: Option<File>,
    /// How many bytes it had when it was read, how many it has, and how many it had when it was synced.
    found: u64,
    length: u64,
    synced: u64,
    /// Whether it may differ from what is on the disk.
    is_changed: bool,
}

impl<'a> LogFile<'a> {
    pub fn new(name: &'a str, copy: String, new: String, file: Option<File>) -> LogFile<'a> {
        LogFile {
            name,
            copy,
            new,
            file,
            former: None,
            found: 0,
            length: 0,
            synced: 0,
            is_changed: false,
        }
    }

    pub fn name(&self) -> &str {
        self.name
    }

    /// How many bytes were found after the first ones.
    pub fn found_after(&self, bytes: usize) -> u64 {
        self.found.saturating_sub(bytes as u64)
    }

    pub fn read(&mut self, alloc: Global) -> Result<Vec<u8>, Unread> {
        let Some(file) = &self.file else {
            return Ok(Vec::new(alloc));
        };
        let Ok(metadata) = file.metadata() else {
            return Err(Unread::Fault(LogFault::Read));
        };
        self.found = metadata.len();
        self.length = metadata.len();
        self.is_changed = metadata.len() > 0;
        read_log(alloc, file, metadata.len())
    }

    /// Appends the bytes, or gives those that were appended before a write failed.
    pub fn append<'b>(&mut self, bytes: &'b [u8]) -> Result<(), &'b [u8]>
        ensures { IfErr result (λ part. IsPrefix part.now bytes.now) }
    {
        let Some(file) = &mut self.file else {
            return Ok(());
        };
        let written = write_or_part(file, bytes);
        let count = match written {
            Ok(()) => bytes.len(),
            Err(part) => part.len(),
        };
        self.length = self.length.saturating_add(count as u64);
        self.is_changed = self.is_changed || count > 0;
        written
    }

    /// Whether it could be cut.
    pub fn cut(&mut self, size: usize) -> bool {
        let Some(file) = &self.file else {
            return true;
        };
        let is_cut = file.set_len(size as u64).is_ok();
        if is_cut {
            self.length = size as u64;
            self.synced = self.synced.min(self.length);
            self.is_changed = true;
        }
        is_cut
    }

    /// Syncs what was changed, if anything was. Returns whether all is on the disk.
    pub fn sync(&mut self) -> bool {
        let Some(file) = &self.file else {
            return true;
        };
        if self.is_changed {
            if file.sync_data().is_err() {
                return false;
            }
            self.synced = self.length;
            self.is_changed = false;
        }
        true
    }

    /// Cuts off what was not synced: else the next start could read it from memory, and take it for kept. Returns whether
    /// it could be cut.
    pub fn revert(&mut self) -> bool {
        let Some(file) = &self.file else {
            return true;
        };
        let is_cut = file.set_len(self.synced).is_ok();
        if is_cut {
            self.length = self.synced;
        }
        is_cut
    }

    /// Writes all bytes once more in their place: else the system could take them for synced, and say so at the next
    /// sync.
    pub fn write_again(&self, rt: &HostRuntime) {
        if let Some(file) = &self.file {
            let _ = write_again(rt, self.name, file);
        }
    }

    /// Puts a file with these bytes in its place, which is on the disk then.
    pub fn replace(&mut self, rt: &HostRuntime, bytes: &[u8]) -> Result<(), ReplaceFault> {
        let Some(file) = &self.file else {
            return Ok(());
        };
        let (new, is_synced) = replace(rt, self.name, &self.new, file, bytes)?;
        self.former = self.file.replace(new);
        self.length = bytes.len() as u64;
        self.synced = self.length;
        self.is_changed = false;
        if is_synced {
            Ok(())
        } else {
            Err(ReplaceFault::Unsynced)
        }
    }

    /// Copies another log to the file, which has no bytes yet and may be read by whom that log may be read, and syncs its
    /// folder. Returns whether the log still begins with what was copied.
    pub fn fill(&mut self, rt: &HostRuntime, log: &File) -> io::Result<bool> {
        let Some(file) = &mut self.file else {
            return Ok(true);
        };
        file.set_permissions(log.metadata()?.permissions())?;
        sync_folder(rt, self.name)?;
        copy_beginning(log, file)
    }

    /// Removes the file, if it has its name still.
    pub fn remove(&self, rt: &HostRuntime) {
        match &self.file {
            Some(file) if is_named(rt, self.name, file) => {
                let _ = fs::remove_file(rt, self.name);
            }
            _ => {}
        }
    }

    /// Copies all bytes to a file beside it, which is on the disk then, or goes on with a copy that was begun.
    pub fn copy(&self, rt: &HostRuntime) -> Result<(), LogFault> {
        match &self.file {
            Some(file) => copy_to(rt, &self.copy, file),
            None => Ok(()),
        }
    }
}
