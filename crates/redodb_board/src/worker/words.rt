// Row words, and the steps that they name.
ghost use Rattle.std.specs.Prelude.{◌≡◌, ◌<◌, ◌≤◌, ◌↔◌, IfSome, IsSome, length, option_map};
ghost use Rattle.redodb_commands.specs.Meaning.{command_of};
ghost use Rattle.redodb_journal.specs.Plans.{PlanOf, script_of};
ghost use Rattle.redodb_journal.specs.Journals.{closing_command};
ghost use Rattle.redodb_graph.specs.Graphs.{IsGraphOf};
ghost use Rattle.redodb_graph.specs.Steps.{Means};
ghost use Rattle.redodb_board.specs.Rows.{command};
ghost use Rattle.redodb_board.specs.Core.{word};
ghost use Rattle.redodb_board.specs.Support.Steps.{LetsGo};

use redodb_commands::Command;
use redodb_graph::{Graph, Step};
use redodb_history_laws::RowWord;
use redodb_journal::{Closing, Next, Plan};

/// The word of what the session does next.
pub(crate) fn word_of(session: u8, next: &Next, command: &Command, holds: bool) -> u64
    ensures { (plan : PlanOf)
        → (IsSome next.now.closing ↔ (length (script_of plan session) ≤ next.now.number))
        → result ≡ word plan session next.now.number (command_of command.now) holds }
{
    let number = next.number;
    if next.closing.is_none() {
        return RowWord::Line {
            session,
            number,
            holds,
        }
        .encode();
    }
    let target = command.target().unwrap_or(0);
    RowWord::Closing { session, target }.encode()
}

/// The closing command as an entry has it, if there is one.
pub(crate) fn noted(closing: &Option<Command>) -> Option<Closing>
    requires { IfSome closing.now (λ command. LetsGo (command_of command)) }
    ensures { option_map closing_command result ≡ option_map command_of closing.now }
{
    match closing {
        Some(Command::Failed(target)) => Some(Closing::Failed(*target)),
        Some(Command::Unlock(target)) => Some(Closing::Unlock(*target)),
        _ => None,
    }
}

/// The step of a line of a session.
pub(crate) fn line_step(graph: &Graph, plan: &Plan, session: u8, number: u32) -> Step
    requires graph { IsGraphOf plan.now graph.now }
    requires line { number < length (script_of plan.now session) }
    ensures { Means graph.now.tables result (command plan.now session number) }
{
    graph.step(session as usize, number as usize)
}
