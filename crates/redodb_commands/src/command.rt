ghost use Rattle.std.specs.Prelude.{◌≡◌, ◌↔◌, IsTrue, IfOk, box_value, option_map};

use crate::kind::Kind;
use crate::stamp::FileStamp;
use std::alloc::{AllocError, Global};

/// A command of a session. Names are numbers. Stamps are boxed, so that a command has 32 bytes.
#[derive(Debug, Drop)]
pub enum Command {
    /// The name has a file with this stamp.
    File(u32, Box<FileStamp>),
    /// The name has no file.
    Gone(u32),
    Lock(u32),
    Unlock(u32),
    /// The target is built from now on.
    Start(u32),
    /// The target depends on these names as they are now; a line has 1 to 64.
    IfChange(u32, Vec<u32>),
    /// The target depends on none of these names having a file; a line has 1 to 64.
    IfCreate(u32, Vec<u32>),
    /// Once built, the target is always out of date.
    Always(u32),
    /// The target's digest is that of this content; a line has up to 4,092 bytes of it.
    Stamp(u32, Vec<u8>),
    /// The target was built; its file has this stamp, or there is none.
    Done(u32, Option<Box<FileStamp>>),
    /// The target could not be built.
    Failed(u32),
    /// Which targets have a file and are out of date?
    Ood,
    /// Which targets have a file?
    Targets,
    /// Which idle names have a file, and a row of some target on them?
    Sources,
}

const _: () = prove!(size_of::<Command>() <= 32);

fn is_same_stamp(one: &FileStamp, other: &FileStamp) -> bool
    ensures { IsTrue result ↔ (one.now ≡ other.now) }
{
    one.bytes() == other.bytes()
}

/// Whether a build ends the same: with such a stamp, or with none.
fn is_same_end(one: &Option<Box<FileStamp>>, other: &Option<Box<FileStamp>>) -> bool
    ensures { IsTrue result ↔ (option_map box_value one.now ≡ option_map box_value other.now) }
{
    match (one, other) {
        (Some(one), Some(other)) => is_same_stamp(one, other),
        (None, None) => true,
        _ => false,
    }
}

/// The stamp in a box, if there is one.
pub fn boxed(alloc: Global, stamp: Option<FileStamp>) -> Result<Option<Box<FileStamp>>, AllocError>
    ensures { IfOk result (λ boxed. option_map box_value boxed ≡ stamp) }
{
    match stamp {
        Some(stamp) => Ok(Some(Box::new(alloc, stamp)?)),
        None => Ok(None),
    }
}

/// The stamp in the box, if there is one.
pub fn unboxed(stamp: &Option<Box<FileStamp>>) -> Option<FileStamp>
    ensures { result ≡ option_map box_value stamp.now }
{
    match stamp {
        Some(stamp) => Some(**stamp),
        None => None,
    }
}

impl Command {
    ghost use Rattle.std.specs.Prelude.{◌≡◌, ◌↔◌, IsTrue, IfOk};
    ghost use Rattle.redodb_model.specs.Command.{target_of};
    ghost use Rattle.redodb_commands.specs.Meaning.{command_of};
    ghost use Rattle.redodb_commands.specs.Support.Meaning.{kind_of};

    pub fn kind(&self) -> Kind
        ensures { result ≡ kind_of self.now }
    {
        match self {
            Command::File(..) => Kind::File,
            Command::Gone(_) => Kind::Gone,
            Command::Lock(_) => Kind::Lock,
            Command::Unlock(_) => Kind::Unlock,
            Command::Start(_) => Kind::Start,
            Command::IfChange(..) => Kind::IfChange,
            Command::IfCreate(..) => Kind::IfCreate,
            Command::Always(_) => Kind::Always,
            Command::Stamp(..) => Kind::Stamp,
            Command::Done(..) => Kind::Done,
            Command::Failed(_) => Kind::Failed,
            Command::Ood => Kind::Ood,
            Command::Targets => Kind::Targets,
            Command::Sources => Kind::Sources,
        }
    }

    /// The number of its target; none for `file` and `gone`, and for the three lists.
    pub fn target(&self) -> Option<u32>
        ensures { result ≡ target_of (command_of self.now) }
    {
        match self {
            Command::Lock(t) | Command::Unlock(t) | Command::Start(t) => Some(*t),
            Command::IfChange(t, _) | Command::IfCreate(t, _) | Command::Always(t) => Some(*t),
            Command::Stamp(t, _) | Command::Done(t, _) | Command::Failed(t) => Some(*t),
            Command::File(..) | Command::Gone(_) => None,
            Command::Ood | Command::Targets | Command::Sources => None,
        }
    }

    pub fn is_same(&self, other: &Command) -> bool
        ensures { IsTrue result ↔ (command_of self.now ≡ command_of other.now) }
    {
        match (self, other) {
            (Command::File(m, one), Command::File(n, two)) => m == n && is_same_stamp(one, two),
            (Command::Gone(m), Command::Gone(n)) => m == n,
            (Command::Lock(t), Command::Lock(u)) => t == u,
            (Command::Unlock(t), Command::Unlock(u)) => t == u,
            (Command::Start(t), Command::Start(u)) => t == u,
            (Command::IfChange(t, one), Command::IfChange(u, two)) => t == u && one == two,
            (Command::IfCreate(t, one), Command::IfCreate(u, two)) => t == u && one == two,
            (Command::Always(t), Command::Always(u)) => t == u,
            (Command::Stamp(t, one), Command::Stamp(u, two)) => t == u && one == two,
            (Command::Done(t, one), Command::Done(u, two)) => t == u && is_same_end(one, two),
            (Command::Failed(t), Command::Failed(u)) => t == u,
            (Command::Ood, Command::Ood) => true,
            (Command::Targets, Command::Targets) => true,
            (Command::Sources, Command::Sources) => true,
            _ => false,
        }
    }

    pub fn copy(&self, alloc: Global) -> Result<Command, AllocError>
        ensures { IfOk result (λ copy. command_of copy ≡ command_of self.now) }
    {
        Ok(match self {
            Command::File(n, stamp) => Command::File(*n, Box::new(alloc, **stamp)?),
            Command::Gone(n) => Command::Gone(*n),
            Command::Lock(t) => Command::Lock(*t),
            Command::Unlock(t) => Command::Unlock(*t),
            Command::Start(t) => Command::Start(*t),
            Command::IfChange(t, names) => Command::IfChange(*t, Vec::from_slice(alloc, names)?),
            Command::IfCreate(t, names) => Command::IfCreate(*t, Vec::from_slice(alloc, names)?),
            Command::Always(t) => Command::Always(*t),
            Command::Stamp(t, content) => Command::Stamp(*t, Vec::from_slice(alloc, content)?),
            Command::Done(t, stamp) => Command::Done(*t, boxed(alloc, unboxed(stamp))?),
            Command::Failed(t) => Command::Failed(*t),
            Command::Ood => Command::Ood,
            Command::Targets => Command::Targets,
            Command::Sources => Command::Sources,
        })
    }
}
