use crate::command::Command;
use crate::digest::Digest;
use std::alloc::{AllocError, Global};

/// Why a command changed nothing.
#[derive(Clone, Copy, Debug, PartialEq, Eq)]
pub enum Refusal {
    /// The session does not hold the target.
    NotLocked,
    /// The target is being built.
    Building,
    /// The session is not building the target.
    NotBuilding,
    /// The target is among the names after it.
    Itself,
    /// This name has a file, the first of the names after the target that has one.
    Exists(u32),
}

/// The reply of the database. Names are numbers. Lists of names are sorted by the bytes of the names.
#[derive(Debug, Drop)]
pub enum Reply {
    Okay,
    /// The session gets the lock, by the grant of this number.
    Granted(u32),
    /// A session holds the lock, by the grant of this number.
    Busy(u32),
    /// Those of the names after the target that are out of date, or idle without a file; at least one.
    Stale(Vec<u32>),
    /// The digest of the content.
    Stamped(Digest),
    /// The targets that have a file and are out of date.
    Ood(Vec<u32>),
    /// The targets that have a file.
    Targets(Vec<u32>),
    /// The idle names that have a file and on which a target has a row.
    Sources(Vec<u32>),
    Refused(Refusal),
}

impl Reply {
    ghost use Rattle.std.specs.Prelude.{◌≡◌, ◌↔◌, IsTrue, IfOk};
    ghost use Rattle.redodb_model.specs.Reply.{lets_through};
    ghost use Rattle.redodb_commands.specs.Meaning.{reply_of};

    /// Whether a guarded line after this reply is done: it is neither busy nor a refusal.
    pub fn lets_through(&self) -> bool
        ensures { result ≡ lets_through (reply_of self.now) }
    {
        !matches!(self, Reply::Busy(_) | Reply::Refused(_))
    }

    pub fn is_same(&self, other: &Reply) -> bool
        ensures { IsTrue result ↔ (reply_of self.now ≡ reply_of other.now) }
    {
        match (self, other) {
            (Reply::Okay, Reply::Okay) => true,
            (Reply::Granted(one), Reply::Granted(two)) => one == two,
            (Reply::Busy(one), Reply::Busy(two)) => one == two,
            (Reply::Stale(one), Reply::Stale(two)) => one == two,
            (Reply::Stamped(one), Reply::Stamped(two)) => one.bytes == two.bytes,
            (Reply::Ood(one), Reply::Ood(two)) => one == two,
            (Reply::Targets(one), Reply::Targets(two)) => one == two,
            (Reply::Sources(one), Reply::Sources(two)) => one == two,
            (Reply::Refused(one), Reply::Refused(two)) => one == two,
            _ => false,
        }
    }

    pub fn copy(&self, alloc: Global) -> Result<Reply, AllocError>
        ensures { IfOk result (λ copy. reply_of copy ≡ reply_of self.now) }
    {
        Ok(match self {
            Reply::Okay => Reply::Okay,
            Reply::Granted(grant) => Reply::Granted(*grant),
            Reply::Busy(grant) => Reply::Busy(*grant),
            Reply::Stale(names) => Reply::Stale(Vec::from_slice(alloc, names)?),
            Reply::Stamped(digest) => Reply::Stamped(*digest),
            Reply::Ood(names) => Reply::Ood(Vec::from_slice(alloc, names)?),
            Reply::Targets(names) => Reply::Targets(Vec::from_slice(alloc, names)?),
            Reply::Sources(names) => Reply::Sources(Vec::from_slice(alloc, names)?),
            Reply::Refused(refusal) => Reply::Refused(*refusal),
        })
    }
}

/// A line of a history. Sessions are counted from 0.
#[derive(Debug, Drop)]
pub struct Line {
    pub session: u16,
    pub command: Command,
    pub reply: Reply,
}
