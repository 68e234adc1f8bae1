//! The log and the output of the program. Each method does what it is called for, and then notes what it did.
ghost use Rattle.std.specs.Prelude.{◌≡◌, []};

use crate::fault::say;
use crate::log_file::LogFile;
use crate::replacing::{KeepCause, ReplaceFault};
use crate::writing::write_or_part;
use redodb_io::WriteFault;
use redodb_log::{Devices, LogFault, Record, Unread};
use std::alloc::Global;
use std::io;
use std::marker::Model;

/// The file of a log, and standard output. In clauses it is what was done, the newest operation first.
#[derive(Drop)]
pub struct FileDevices<'a> {
    rt: &'a HostRuntime,
    log: LogFile<'a>,
    done: Record,
}

impl<'a> Model for FileDevices<'a> {
    ghost use Rattle.std.specs.Prelude.{List};
    ghost use Rattle.redodb_log.specs.Operations.{Operation};

    ghost Value = { List Operation };

    ghost view = { λ inside. inside.done.operations };
}

impl<'a> FileDevices<'a> {
    pub fn new(rt: &'a HostRuntime, log: LogFile<'a>) -> FileDevices<'a>
        ensures { result ≡ [] }
    {
        FileDevices {
            rt,
            log,
            done: Record::new(),
        }
    }

    /// Removes the log's file.
    pub fn remove(&self) {
        self.log.remove(self.rt);
    }

    /// Tells the user why the log was not replaced.
    fn tell_kept(&self, cause: KeepCause) {
        let name = self.log.name();
        let line = format!(in self.rt.alloc(); "redodb-live: {name}.new: {cause}\n");
        if let Ok(line) = line {
            say(self.rt, &line);
        }
    }
}

impl Devices for FileDevices<'_> {
    ghost history = { λ done. done };

    fn read(&mut self, alloc: Global) -> Result<Vec<u8>, Unread> {
        let read = self.log.read(alloc);
        match &read {
            Ok(bytes) => self.done.read(bytes),
            Err(Unread::Memory) => {}
            Err(Unread::Fault(_)) => self.done.log_failed(),
        }
        read
    }

    fn append(&mut self, bytes: &[u8]) -> Result<(), LogFault> {
        match self.log.append(bytes) {
            Ok(()) => {
                self.done.appended(bytes);
                Ok(())
            }
            Err(part) => {
                self.done.appended(part);
                self.done.log_failed();
                Err(LogFault::Write)
            }
        }
    }

    fn cut(&mut self, size: usize) -> Result<(), LogFault> {
        if self.log.cut(size) {
            self.done.cut(size);
            return Ok(());
        }
        self.done.log_failed();
        Err(LogFault::Write)
    }

    fn settle(&mut self) -> Result<(), LogFault> {
        if self.log.sync() {
            self.done.synced();
            return Ok(());
        }
        self.log.write_again(self.rt);
        self.done.log_failed();
        Err(LogFault::Write)
    }

    fn sync(&mut self) -> Result<(), LogFault> {
        if self.log.sync() {
            self.done.synced();
            return Ok(());
        }
        if self.log.revert() {
            self.done.reverted();
        } else {
            self.done.log_failed();
        }
        Err(LogFault::Write)
    }

    fn copy(&mut self) -> Result<(), LogFault> {
        let copied = self.log.copy(self.rt);
        match copied {
            Ok(()) => self.done.copied(),
            Err(_) => self.done.log_failed(),
        }
        copied
    }

    fn replace(&mut self, bytes: &[u8]) -> Result<bool, LogFault> {
        match self.log.replace(self.rt, bytes) {
            Ok(()) => {
                self.done.replaced(bytes);
                Ok(true)
            }
            Err(ReplaceFault::Kept(cause)) => {
                self.tell_kept(cause);
                Ok(false)
            }
            Err(ReplaceFault::Unsynced) => {
                self.done.replaced(bytes);
                self.done.log_failed();
                Err(LogFault::Write)
            }
        }
    }

    fn tell_cut(&mut self, lines: usize, bytes: usize) {
        let (name, gone) = (self.log.name(), self.log.found_after(bytes));
        let alloc = self.rt.alloc();
        let line = format!(in alloc;
            "redodb-live: {name}: {lines} lines kept, {gone} bytes cut off\n"
        );
        if let Ok(line) = line {
            say(self.rt, &line);
        }
    }

    fn write(&mut self, bytes: &[u8]) -> Result<(), WriteFault> {
        match write_or_part(&mut io::writer(self.rt), bytes) {
            Ok(()) => {
                self.done.written(bytes);
                Ok(())
            }
            Err(part) => {
                self.done.written(part);
                self.done.output_failed();
                Err(WriteFault::Write)
            }
        }
    }
}
