//! A log and an output in memory, of which one operation may fail.
ghost use Rattle.std.specs.Prelude.{◌≡◌, ◌++◌, IfErr, OnOk, take};
ghost use Rattle.redodb_log.specs.Operations.{IsPrefix};

use crate::devices::{Devices, LogFault, Unread};
use crate::record::Record;
use redodb_io::WriteFault;
use std::alloc::Global;
use std::marker::Model;
use std::mem::swap;

/// Which operation fails, and how.
#[derive(Clone, Copy, Debug, PartialEq, Eq)]
pub struct Failing {
    /// Its number, counted from 1; 0 if none fails.
    pub number: usize,
    /// How many bytes an append or a write takes before it fails.
    pub most: usize,
    /// Whether a sync that fails cuts off what had not been synced, and a replacing that fails has replaced the log.
    pub reverts: bool,
}

impl Failing {
    /// None fails.
    pub fn never() -> Failing {
        Failing {
            number: 0,
            most: 0,
            reverts: false,
        }
    }
}

/// How many operations there were, and which one fails.
#[derive(Clone, Copy)]
struct Counted {
    failing: Failing,
    count: usize,
}

impl Counted {
    /// Counts an operation. Returns whether it fails.
    fn fails(&mut self) -> bool {
        self.count = self.count.wrapping_add(1);
        self.count == self.failing.number
    }

    /// Counts an operation. Returns how many bytes it takes at most, if it fails.
    fn most(&mut self) -> Option<usize> {
        self.fails().then_some(self.failing.most)
    }
}

/// The first bytes, this many at most.
#[tactic(auto, using(crate::proofs::Prefixes::take_prefix))]
fn first(bytes: &[u8], most: usize) -> &[u8]
    ensures taken { result.now ≡ take most bytes.now }
    ensures part { IsPrefix result.now bytes.now }
{
    if bytes.len() <= most {
        bytes
    } else {
        &bytes[..most]
    }
}

/// Appends the bytes, or gives a first part of them that was appended: none if there is no memory, and not more than
/// `most` if that is given.
fn put<'a>(to: &mut Vec<u8>, bytes: &'a [u8], most: Option<usize>) -> Result<(), &'a [u8]>
    ensures whole { OnOk result (to.new.items ≡ to.old.items ++ bytes.now) }
    ensures appended { IfErr result (λ part. to.new.items ≡ to.old.items ++ part.now) }
    ensures part { IfErr result (λ part. IsPrefix part.now bytes.now) }
{
    let Some(most) = most else {
        if to.extend_from_slice(bytes).is_err() {
            return Err(first(bytes, 0));
        }
        return Ok(());
    };
    let part = first(bytes, most);
    if to.extend_from_slice(part).is_err() {
        return Err(first(bytes, 0));
    }
    Err(part)
}

/// A log and an output in memory. In clauses it is what was done, the newest operation first.
#[derive(Drop)]
pub struct MemoryDevices {
    counted: Counted,
    log: Vec<u8>,
    /// How many bytes of the log were synced since it was read.
    synced: usize,
    copy: Vec<u8>,
    /// Memory for what replaces the log.
    other: Vec<u8>,
    output: Vec<u8>,
    done: Record,
}

impl Model for MemoryDevices {
    ghost use Rattle.std.specs.Prelude.{List};
    ghost use Rattle.redodb_log.specs.Operations.{Operation};
    ghost use Rattle.redodb_log.specs.Support.Memory.{HoldAsDone};

    ghost Value = { List Operation };

    ghost view = { λ inside. inside.done.operations };

    ghost invariant = { λ inside. HoldAsDone
        inside.log.items inside.synced inside.output.items inside.done.operations };
}

impl MemoryDevices {
    ghost use Rattle.std.specs.Prelude.{◌≡◌, [], IsTrue};
    ghost use Rattle.redodb_log.specs.Operations.{has_read, held_after, written_by};

    /// A log that has these bytes, and an empty output.
    pub fn new(alloc: Global, log: Vec<u8>, failing: Failing) -> MemoryDevices
        ensures { result ≡ [] }
    {
        MemoryDevices {
            counted: Counted { failing, count: 0 },
            log,
            synced: 0,
            copy: Vec::new(alloc),
            other: Vec::new(alloc),
            output: Vec::new(alloc),
            done: Record::new(),
        }
    }

    /// What the log holds.
    pub fn log(&self) -> &[u8]
        ensures { IsTrue (has_read self.now) → result.now ≡ (held_after self.now).all }
    {
        &self.log
    }

    /// What of the log was synced since it was read.
    pub fn synced(&self) -> &[u8]
        ensures { IsTrue (has_read self.now) → result.now ≡ (held_after self.now).synced }
    {
        first(&self.log, self.synced)
    }

    /// The copy of a damaged log.
    pub fn copied(&self) -> &[u8] {
        &self.copy
    }

    /// What was written to the output.
    pub fn output(&self) -> &[u8]
        ensures { result.now ≡ written_by self.now }
    {
        &self.output
    }
}

impl Devices for MemoryDevices {
    ghost history = { λ done. done };

    fn read(&mut self, alloc: Global) -> Result<Vec<u8>, Unread> {
        if self.counted.fails() {
            self.done.log_failed();
            return Err(Unread::Fault(LogFault::Read));
        }
        let Ok(bytes) = Vec::from_slice(alloc, &self.log) else {
            return Err(Unread::Memory);
        };
        self.synced = 0;
        self.done.read(&bytes);
        Ok(bytes)
    }

    fn append(&mut self, bytes: &[u8]) -> Result<(), LogFault> {
        let most = self.counted.most();
        match put(&mut self.log, bytes, most) {
            Ok(()) => {
                self.done.appended(bytes);
                Ok(())
            }
            Err(part) => {
                self.done.appended(part);
                self.done.log_failed();
                Err(LogFault::Write)
            }
        }
    }

    fn cut(&mut self, size: usize) -> Result<(), LogFault> {
        if self.counted.fails() {
            self.done.log_failed();
            return Err(LogFault::Write);
        }
        self.log.truncate(size);
        self.synced = self.synced.min(size);
        self.done.cut(size);
        Ok(())
    }

    fn settle(&mut self) -> Result<(), LogFault> {
        if self.counted.fails() {
            self.done.log_failed();
            return Err(LogFault::Write);
        }
        self.synced = self.log.len();
        self.done.synced();
        Ok(())
    }

    fn sync(&mut self) -> Result<(), LogFault> {
        if !self.counted.fails() {
            self.synced = self.log.len();
            self.done.synced();
            return Ok(());
        }
        if self.counted.failing.reverts {
            self.log.truncate(self.synced);
            self.done.reverted();
            return Err(LogFault::Write);
        }
        self.done.log_failed();
        Err(LogFault::Write)
    }

    fn copy(&mut self) -> Result<(), LogFault> {
        if self.counted.fails() {
            self.done.log_failed();
            return Err(LogFault::CopyWrite);
        }
        self.copy.clear();
        if self.copy.extend_from_slice(&self.log).is_err() {
            self.done.log_failed();
            return Err(LogFault::CopyWrite);
        }
        self.done.copied();
        Ok(())
    }

    fn replace(&mut self, bytes: &[u8]) -> Result<bool, LogFault> {
        let fails = self.counted.fails();
        if fails && !self.counted.failing.reverts {
            return Ok(false);
        }
        self.other.clear();
        if self.other.extend_from_slice(bytes).is_err() {
            return Ok(false);
        }
        swap(&mut self.log, &mut self.other);
        self.synced = self.log.len();
        self.done.replaced(bytes);
        if fails {
            self.done.log_failed();
            return Err(LogFault::Write);
        }
        Ok(true)
    }

    fn tell_cut(&mut self, _lines: usize, _bytes: usize) {}

    fn write(&mut self, bytes: &[u8]) -> Result<(), WriteFault> {
        let most = self.counted.most();
        match put(&mut self.output, bytes, most) {
            Ok(()) => {
                self.done.written(bytes);
                Ok(())
            }
            Err(part) => {
                self.done.written(part);
                self.done.output_failed();
                Err(WriteFault::Write)
            }
        }
    }
}
