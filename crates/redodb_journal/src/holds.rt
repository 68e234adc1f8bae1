ghost use Rattle.std.specs.Prelude.{◌≡◌, ◌<◌, List, [], length, IfOk};
ghost use Rattle.redodb_model.specs.Names.{Text};
ghost use Rattle.redodb_model.specs.Renaming.{IsBelow};
ghost use Rattle.redodb_commands.specs.Meaning.{command_of, reply_of};
ghost use Rattle.redodb_journal.specs.Holds.{hold_at, Says, Notes};

use redodb_commands::{Command, Reply};
use redodb_names::Names;
use std::alloc::{AllocError, Global};
use std::marker::Model;

/// What a session does with a name.
#[derive(Clone, Copy, Debug)]
pub struct Hold {
    pub held: bool,
    pub building: bool,
}

/// What a session holds and builds by its own entries, for each name.
#[derive(Drop)]
pub struct Holds {
    names: Vec<Hold>,
}

impl Model for Holds {
    ghost use Rattle.std.specs.Prelude.{List};
    ghost use Rattle.redodb_journal.specs.declared.holds.Hold.{Hold};

    ghost Value = { List Hold };

    ghost view = { λ holds. holds.names.items };
}

impl Holds {
    /// The session holds and builds none of these names.
    pub fn new(alloc: Global, names: &Names) -> Result<Holds, AllocError>
        ensures { IfOk result (λ holds. Says names.now holds []) }
    {
        let none = Hold {
            held: false,
            building: false,
        };
        let names = vec![in alloc; none; names.len() as usize]?;
        Ok(Holds { names })
    }

    /// What the session does with the name.
    pub fn at(&self, name: u32) -> Hold
        requires { name < length self.now }
        ensures { result ≡ hold_at self.now name }
    {
        self.names[name as usize]
    }

    /// Changes the table by a command of the session and its reply.
    pub fn note(&mut self, command: &Command, reply: &Reply)
        requires { IsBelow (length self.old) (command_of command.now) }
        ensures { (names : List Text)
            → Notes names self.old (command_of command.now) (reply_of reply.now) self.new }
    {
        match (command, reply) {
            (Command::Lock(target), Reply::Granted(_)) => self.names[*target as usize].held = true,
            (Command::Unlock(target), Reply::Okay) => self.names[*target as usize].held = false,
            (Command::Start(target), Reply::Okay) => self.names[*target as usize].building = true,
            (Command::Done(target, _), Reply::Okay) => {
                self.names[*target as usize].building = false
            }
            (Command::Failed(target), Reply::Okay) => {
                self.names[*target as usize].building = false
            }
            _ => {}
        }
    }
}
