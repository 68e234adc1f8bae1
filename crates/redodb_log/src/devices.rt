ghost use Rattle.std.specs.Prelude.{◌≡◌, ◌⊎◌, ◌≤◌, ◌∷◌, List, length, IfOk, IfErr, OnOk, OnErr, if◌then◌else◌};
ghost use Rattle.redodb_model.specs.Names.{Text};
ghost use Rattle.redodb_log.specs.Operations.{Operation, Read, Append, Cut, Sync, Revert, Copy, Replace, Write, LogFailed, OutputFailed, IsPrefix, held_after};
ghost use Rattle.redodb_log.specs.declared.devices.Unread.TheVariants.{Memory};

use redodb_io::WriteFault;
use std::alloc::Global;
use thiserror::Error;

/// Why an operation of a log failed.
#[derive(Clone, Copy, Debug, PartialEq, Eq, Error)]
pub enum LogFault {
    #[error("a read failed")]
    Read,
    /// It gives bytes that its length doesn't tell, as a file of `/proc`.
    #[error("not a regular file")]
    NotRegular,
    /// A write, a cut or a sync failed.
    #[error("a write failed")]
    Write,
    /// Another file has the name of the copy.
    #[error("is copied already")]
    IsCopied,
    #[error("the copy can't be opened")]
    CannotCopy,
    /// A write to the copy, or a sync of it, failed.
    #[error("the copy can't be written")]
    CopyWrite,
}

/// Why a log was not read.
#[derive(Clone, Copy, Debug, PartialEq, Eq, Error)]
pub enum Unread {
    #[error("out of memory")]
    Memory,
    #[error("{0}")]
    Fault(LogFault),
}

/// The append-only file of a log, and the output: what a conversation changes outside of itself.
///
/// Each operation is noted, with what it did. A kill in its midst leaves a first part of it.
pub trait Devices {
    /// What was done so far, the newest operation first.
    ghost history: { Self → List Operation };

    /// All bytes of the log. If they begin with no header of a log, the first ones may be given alone.
    fn read(&mut self, alloc: Global) -> Result<Vec<u8>, Unread>
        ensures read { IfOk result
            (λ bytes. history self.new ≡ Read bytes.items ∷ history self.old) }
        ensures err { IfErr result (λ fault. (history self.new ≡ LogFailed ∷ history self.old)
            ⊎ ((fault ≡ Memory) × (history self.new ≡ history self.old))) };

    /// Appends bytes to the log; if that fails, a first part of them.
    fn append(&mut self, bytes: &[u8]) -> Result<(), LogFault>
        ensures whole { OnOk result (history self.new ≡ Append bytes.now ∷ history self.old) }
        ensures part { OnErr result ((part : Text) × IsPrefix part bytes.now
            × (history self.new ≡ LogFailed ∷ Append part ∷ history self.old)) };

    /// Cuts the log to a length: not to more than it holds, since it could be made longer then.
    fn cut(&mut self, size: usize) -> Result<(), LogFault>
        requires { size ≤ length (held_after (history self.old)).all }
        ensures cut { OnOk result (history self.new ≡ Cut size ∷ history self.old) }
        ensures err { OnErr result (history self.new ≡ LogFailed ∷ history self.old) };

    /// Syncs the log to the disk, for the first time. If that fails, nothing is cut off.
    fn settle(&mut self) -> Result<(), LogFault>
        ensures synced { OnOk result (history self.new ≡ Sync ∷ history self.old) }
        ensures err { OnErr result (history self.new ≡ LogFailed ∷ history self.old) };

    /// Syncs the log to the disk. If that fails, it may cut off what had not been synced.
    fn sync(&mut self) -> Result<(), LogFault>
        ensures synced { OnOk result (history self.new ≡ Sync ∷ history self.old) }
        ensures err { OnErr result ((history self.new ≡ LogFailed ∷ history self.old)
            ⊎ (history self.new ≡ Revert ∷ history self.old)) };

    /// Copies the log, and syncs the copy, under another name. No byte of a file that has it is changed: this goes on
    /// with a copy that was begun, or fails.
    fn copy(&mut self) -> Result<(), LogFault>
        ensures copied { OnOk result (history self.new ≡ Copy ∷ history self.old) }
        ensures err { OnErr result (history self.new ≡ LogFailed ∷ history self.old) };

    /// Puts other bytes in the place of the log's, all at once: a kill leaves the old log or the new one, and no part of
    /// either. Returns whether it did; if not, the log is as it was. A failure is one to sync the new name to the disk.
    fn replace(&mut self, bytes: &[u8]) -> Result<bool, LogFault>
        ensures replaced { IfOk result (λ is. history self.new ≡ (if is
            then Replace bytes.now ∷ history self.old else history self.old)) }
        ensures err { OnErr result
            (history self.new ≡ LogFailed ∷ Replace bytes.now ∷ history self.old) };

    /// Tells the user that a damaged log was cut to this many lines and bytes.
    fn tell_cut(&mut self, lines: usize, bytes: usize)
        ensures { history self.new ≡ history self.old };

    /// Writes bytes to the output, and flushes it; if that fails, a first part of them.
    fn write(&mut self, bytes: &[u8]) -> Result<(), WriteFault>
        ensures whole { OnOk result (history self.new ≡ Write bytes.now ∷ history self.old) }
        ensures part { OnErr result ((part : Text) × IsPrefix part bytes.now
            × (history self.new ≡ OutputFailed ∷ Write part ∷ history self.old)) };
}
