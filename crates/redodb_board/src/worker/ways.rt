ghost use Rattle.std.specs.Prelude.{◌≡◌, ◌<◌, ◌&&◌, not, cond, length};
ghost use Rattle.redodb_model.specs.Renaming.{IsBelow};
ghost use Rattle.redodb_commands.specs.Meaning.{command_of};
ghost use Rattle.redodb_journal.specs.Holds.{hold_at};
ghost use Rattle.redodb_board.specs.Core as core;
ghost use Rattle.redodb_board.specs.Support.Own.{holds_its_target, way_by};
ghost use Rattle.redodb_board.specs.Support.Steps.{way_of};

use redodb_commands::Command;
use redodb_journal::Holds;

/// The word that a command steps on.
#[derive(Clone, Copy)]
pub(crate) enum Way {
    Row,
    Claim(u32),
    Free(u32),
}

/// Whether the session holds the command's target.
pub(crate) fn holds_its_target(holds: &Holds, command: &Command) -> bool
    requires { IsBelow (length holds.now) (command_of command.now) }
    ensures { result ≡ holds_its_target holds.now (command_of command.now) }
{
    match command.target() {
        Some(target) => holds.at(target).held,
        None => false,
    }
}

/// The word that the command steps on.
pub(crate) fn way_for(holds: &Holds, command: &Command) -> Way
    requires { IsBelow (length holds.now) (command_of command.now) }
    ensures { way_of result ≡ way_by holds.now (command_of command.now) }
{
    match command {
        Command::Lock(target) => Way::Claim(*target),
        Command::Unlock(target) => freeing(holds, *target),
        _ => Way::Row,
    }
}

/// An unlock is accepted from a session that holds its target and doesn't build it.
fn freeing(holds: &Holds, target: u32) -> Way
    requires { target < length holds.now }
    ensures { way_of result ≡ cond
        ((hold_at holds.now target).held && not (hold_at holds.now target).building)
        (core.free target) core.row }
{
    let hold = holds.at(target);
    if hold.held && !hold.building {
        Way::Free(target)
    } else {
        Way::Row
    }
}
