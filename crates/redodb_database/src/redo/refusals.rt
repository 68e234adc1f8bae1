ghost use Rattle.std.specs.Prelude.{◌≡◌, ◌==◌, find, option_map};
ghost use Rattle.std.specs.List.{list_any};
ghost use Rattle.redodb_model.specs.Names.{by_number};
ghost use Rattle.redodb_model.specs.State.{has_file};
ghost use Rattle.redodb_model.specs.Renaming.{AllBelow, IsBelow};
ghost use Rattle.redodb_commands.specs.Meaning.{command_of, refusal_of};
ghost use Rattle.redodb_records.specs.Refusals.{refusal_of_names};
ghost use Rattle.redodb_database.specs.Tables.{tables_records, tables_count};

use crate::redo::Redo;
use crate::table::{first_refusal_of_names, refusals_of_names, refuse_names_unless};
use redodb_commands::{Command, Refusal, cases};

fn is_among(names: &[u32], t: u32) -> bool
    ensures { result ≡ list_any (λ m. m == t) names.now }
{
    names.contains(&t)
}

impl Redo {
    /// The first refusal for the names after the command's target.
    pub(crate) fn refusal_of_names(&self, command: &Command) -> Option<Refusal>
        requires { IsBelow (tables_count self.now) (command_of command.now) }
        ensures { option_map refusal_of result
            ≡ refusal_of_names by_number (tables_records self.now) (command_of command.now) }
    {
        cases!(refusals_of_names self command)
    }

    /// The first of the names that has a file.
    fn existing(&self, names: &[u32]) -> Option<u32>
        requires { AllBelow (tables_count self.now) names.now }
        ensures { result ≡ find (has_file (tables_records self.now)) names.now }
    {
        for &n in names {
            if self.has_file(n) {
                return Some(n);
            }
        }
        None
    }
}
