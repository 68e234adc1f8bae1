//! A list of operations that only clauses read.
ghost use Rattle.std.specs.Prelude.{◌≡◌, List, [], ◌∷◌};
ghost use Rattle.std.specs.Borrow.{ftrue};
ghost use Rattle.std.specs.Coded.{coded_list};
ghost use Rattle.redodb_log.specs.Operations.{Operation, Read, Append, Cut, Sync, Revert, Copy, Replace, Write, LogFailed, OutputFailed};
ghost use Rattle.redodb_log.specs.Support.Noting.{noted, operation_code};

use std::marker::{Model, PhantomData};

/// What was done to a log and an output, the newest operation first. It takes no memory.
#[derive(Drop)]
pub struct Record {
    marker: PhantomData<u8>,
    pub ghost operations: { List Operation } by { coded_list operation_code },
}

impl Model for Record {
    ghost also_owns = { λ _. ftrue };
}

impl Record {
    /// Nothing was done.
    pub fn new() -> Record
        ensures { result.operations ≡ [] }
    {
        Record {
            marker: PhantomData,
        }
    }

    /// Notes an operation by its kind, a size and bytes.
    fn note(&mut self, _numbers: &[u64], _bytes: &[u8])
        ensures { self.new.operations ≡ noted _numbers.now _bytes.now ∷ self.old.operations }
    {}

    /// These bytes of the log were read.
    pub fn read(&mut self, bytes: &[u8])
        ensures { self.new.operations ≡ Read bytes.now ∷ self.old.operations }
    {
        self.note(&[0, 0], bytes);
    }

    /// These bytes were appended to the log.
    pub fn appended(&mut self, bytes: &[u8])
        ensures { self.new.operations ≡ Append bytes.now ∷ self.old.operations }
    {
        self.note(&[1, 0], bytes);
    }

    /// The log was cut to this many bytes.
    pub fn cut(&mut self, size: usize)
        ensures { self.new.operations ≡ Cut size ∷ self.old.operations }
    {
        self.note(&[2, size as u64], &[]);
    }

    /// The log was synced to the disk.
    pub fn synced(&mut self)
        ensures { self.new.operations ≡ Sync ∷ self.old.operations }
    {
        self.note(&[3, 0], &[]);
    }

    /// A sync failed, and what had not been synced was cut off.
    pub fn reverted(&mut self)
        ensures { self.new.operations ≡ Revert ∷ self.old.operations }
    {
        self.note(&[4, 0], &[]);
    }

    /// The log was copied, and the copy synced.
    pub fn copied(&mut self)
        ensures { self.new.operations ≡ Copy ∷ self.old.operations }
    {
        self.note(&[5, 0], &[]);
    }

    /// These bytes were written to the output.
    pub fn written(&mut self, bytes: &[u8])
        ensures { self.new.operations ≡ Write bytes.now ∷ self.old.operations }
    {
        self.note(&[6, 0], bytes);
    }

    /// An operation of the log failed, and changed nothing.
    pub fn log_failed(&mut self)
        ensures { self.new.operations ≡ LogFailed ∷ self.old.operations }
    {
        self.note(&[7, 0], &[]);
    }

    /// An operation of the output failed, and changed nothing.
    pub fn output_failed(&mut self)
        ensures { self.new.operations ≡ OutputFailed ∷ self.old.operations }
    {
        self.note(&[8, 0], &[]);
    }

    /// These bytes took the place of the log's.
    pub fn replaced(&mut self, bytes: &[u8])
        ensures { self.new.operations ≡ Replace bytes.now ∷ self.old.operations }
    {
        self.note(&[9, 0], bytes);
    }
}
