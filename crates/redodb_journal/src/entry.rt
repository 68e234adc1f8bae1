ghost use Rattle.std.specs.Prelude.{◌≡◌, map, option_map, unwrap_or, slice_index_or};
ghost use Rattle.redodb_model.specs.Command.{Ood, commands_in};
ghost use Rattle.redodb_commands.specs.Meaning.{command_of};
ghost use Rattle.redodb_commands.specs.Support.Meaning.{item_of};
ghost use Rattle.redodb_journal.specs.Journals.{closing_command, command_told};
ghost use Rattle.redodb_journal.specs.Support.Commands.{command_done};

use redodb_commands::{Command, Reply, Script};

/// The place of a command: a row, or one among the claims on a target. The numbers of a claim are
/// the target's and the grant's.
#[derive(Clone, Copy, Debug, PartialEq, Eq)]
pub enum Place {
    /// The command has this row; rows are counted from 0.
    Row(u32),
    /// The target was granted.
    Granted(u32, u32),
    /// The grant was in force.
    Busy(u32, u32),
    /// The grant was released.
    Released(u32, u32),
}

/// A closing command. The number is that of its target.
#[derive(Clone, Copy, Debug, PartialEq, Eq)]
pub enum Closing {
    Failed(u32),
    Unlock(u32),
}

impl Closing {
    /// It, as a line would say it.
    pub fn command(self) -> Command
        ensures { command_of result ≡ closing_command self }
    {
        match self {
            Closing::Failed(target) => Command::Failed(target),
            Closing::Unlock(target) => Command::Unlock(target),
        }
    }
}

/// The command of an entry.
#[derive(Debug, Drop)]
pub enum CommandDone<'a> {
    OfLine(&'a Command),
    Closing(Command),
}

impl<'a> CommandDone<'a> {
    /// The command.
    pub fn get(&self) -> &Command
        ensures { command_of result.now ≡ command_done self.now }
    {
        match self {
            CommandDone::OfLine(command) => command,
            CommandDone::Closing(command) => command,
        }
    }
}

/// A command that was done, its reply and its place.
#[derive(Debug, Drop)]
pub struct Entry {
    /// The command's number: that of its line in the script, counted from 0. Closing commands are
    /// counted on from the number of lines.
    pub number: u32,
    /// The command, if it is a closing one.
    pub closing: Option<Closing>,
    pub reply: Reply,
    pub place: Place,
}

impl Entry {
    /// The command that was done. There is none if the script has no line of this number.
    pub fn command<'a>(&self, script: &'a Script) -> Option<CommandDone<'a>>
        ensures { unwrap_or (option_map command_done result) Ood
            ≡ command_told (map item_of script.now) self.now }
    {
        match self.closing {
            Some(closing) => Some(CommandDone::Closing(closing.command())),
            None => {
                let item = script.items().get(self.number as usize)?;
                Some(CommandDone::OfLine(&item.command))
            }
        }
    }
}

/// What a session did, in order, and how often it tried to fill a row. Sessions are counted from 0.
#[derive(Debug, Drop)]
pub struct Journal {
    pub session: u8,
    pub entries: Vec<Entry>,
    pub tries: u32,
}
