//! Memory that is reserved for rows.
ghost use Rattle.std.specs.Prelude.{◌≡◌, ◌<◌, true, IsOk, OnOk};
ghost use Rattle.std.specs.List.{list_all};
ghost use Rattle.redodb_model.specs.Renaming.{AllBelow, IsBelow};
ghost use Rattle.redodb_commands.specs.Meaning.{command_of};
ghost use Rattle.redodb_records.specs.Rows.{room_of};
ghost use Rattle.redodb_database.specs.Tables.{tables_count, has_room_for, IsAsBefore, KeepsRoom};

use crate::redo::Redo;
use redodb_commands::Command;
use std::alloc::AllocError;

impl Redo {
    /// Reserves memory for the change of a command, and changes nothing else. Allocates nothing if it is reserved
    /// already. What was reserved stays, also if memory runs out.
    pub fn reserve(&mut self, command: &Command) -> Result<(), AllocError>
        requires numbers { IsBelow (tables_count self.old) (command_of command.now) }
        ensures same { IsAsBefore self.old self.new }
        ensures room { KeepsRoom self.old self.new }
        ensures made { OnOk result (has_room_for self.new (command_of command.now) ≡ true) }
        ensures ok { has_room_for self.old (command_of command.now) ≡ true → IsOk result }
    {
        if self.has_room(command) {
            return Ok(());
        }
        match command {
            Command::IfChange(t, names) => self.reserve_on(*t, names),
            Command::IfCreate(t, names) => self.reserve_on(*t, names),
            _ => Ok(()),
        }
    }

    /// Whether memory is reserved for all rows of the command.
    fn has_room(&self, command: &Command) -> bool
        requires numbers { IsBelow (tables_count self.now) (command_of command.now) }
        ensures { result ≡ has_room_for self.now (command_of command.now) }
    {
        match command {
            Command::IfChange(t, names) => self.has_room_on(*t, names),
            Command::IfCreate(t, names) => self.has_room_on(*t, names),
            _ => true,
        }
    }

    fn has_room_on(&self, t: u32, names: &[u32]) -> bool
        requires { t < tables_count self.now }
        ensures { result ≡ list_all (room_of self.now.rows t) names.now }
    {
        for (place, &n) in names.iter().enumerate() {
            if !self.rows.has_room(t, n, place) {
                return false;
            }
        }
        true
    }

    fn reserve_on(&mut self, t: u32, names: &[u32]) -> Result<(), AllocError>
        requires number { t < tables_count self.old }
        requires numbers { AllBelow (tables_count self.old) names.now }
        ensures same { IsAsBefore self.old self.new }
        ensures room { KeepsRoom self.old self.new }
        ensures made { OnOk result (list_all (room_of self.new.rows t) names.now ≡ true) }
    {
        self.rows.reserve(t, names)
    }
}
