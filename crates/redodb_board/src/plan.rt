// What a board and its workers need of a plan.
ghost use Rattle.std.specs.Prelude.{◌≡◌, ◌<◌, ◌≤◌, ◌+◌, ◌*◌, ◌↔◌, IsSome, cond, length, map, option_map};
ghost use Rattle.redodb_model.specs.Support.Room.{is_lock, is_start, room_of};
ghost use Rattle.redodb_commands.specs.Meaning.{command_of};
ghost use Rattle.redodb_commands.specs.Support.Meaning.{item_of};
ghost use Rattle.redodb_journal.specs.Plans.{IsPlan, script_of};
ghost use Rattle.redodb_journal.specs.Journals.{command_by};
ghost use Rattle.redodb_board.specs.Rows.{command, rows_for, rows_in, rows_of};

use redodb_commands::{Command, Item, Script};
use redodb_journal::{Next, Plan};

pub(crate) fn script(plan: &Plan, session: u8) -> &Script
    requires { session < length plan.now.scripts }
    ensures script { map item_of result.now ≡ script_of plan.now session }
    ensures plan { IsPlan plan.now }
{
    &plan.scripts()[session as usize]
}

/// The lines of a session.
pub(crate) fn items(plan: &Plan, session: u8) -> &[Item]
    requires { session < length plan.now.scripts }
    ensures items { map item_of result.now ≡ script_of plan.now session }
    ensures plan { IsPlan plan.now }
{
    script(plan, session).items()
}

/// The command of a line of a session.
pub(crate) fn command_at(plan: &Plan, session: u8, number: usize) -> &Command
    requires { (session < length plan.now.scripts)
        × (number < length (script_of plan.now session)) }
    ensures command { command_of result.now ≡ command plan.now session number }
    ensures plan { IsPlan plan.now }
{
    &items(plan, session)[number].command
}

/// The command that a session does next: the closing one, or else that of the line.
pub(crate) fn command_next<'a>(plan: &'a Plan, session: u8, next: &'a Next) -> &'a Command
    requires session { session < length plan.now.scripts }
    requires marked { IsSome next.now.closing
        ↔ (length (script_of plan.now session) ≤ next.now.number) }
    ensures { command_of result.now
        ≡ command_by (script_of plan.now session) (option_map command_of next.now.closing)
        next.now.number }
{
    match &next.closing {
        Some(command) => command,
        None => command_at(plan, session, next.number as usize),
    }
}

/// The number of a session, as it is written in a row word.
pub(crate) fn session_number(plan: &Plan, session: usize) -> u8
    requires { session < length plan.now.scripts }
    ensures number { result ≡ session }
    ensures plan { IsPlan plan.now }
{
    let _scripts = plan.scripts();
    session as u8
}

pub(crate) fn sessions(plan: &Plan) -> usize
    ensures count { result ≡ length plan.now.scripts }
    ensures plan { IsPlan plan.now }
{
    plan.scripts().len()
}

/// How many rows the sessions may need.
pub(crate) fn rows(plan: &Plan) -> usize
    ensures count { result ≡ rows_of plan.now }
    ensures plan { IsPlan plan.now }
{
    let mut rows = 0;
    for script in plan.scripts() {
        rows += rows_in(script.items());
    }
    rows
}

/// How many rows a session with these lines may need.
fn rows_in(items: &[Item]) -> usize
    requires short { length items.now ≤ 4096 }
    ensures rows { result ≡ rows_in (map item_of items.now) }
    ensures few { result ≤ 2 * length items.now }
{
    let mut rows = 0;
    for item in items {
        rows += needs(&item.command);
    }
    rows
}

/// How many rows a line may need: a lock none; a start one, and one more for a closing `failed`.
fn needs(command: &Command) -> usize
    ensures { result ≡ rows_for (command_of command.now) }
{
    match command {
        Command::Lock(_) => 0,
        Command::Start(_) => 2,
        _ => 1,
    }
}

/// How many entries a session with these lines may need.
pub(crate) fn room_for(items: &[Item]) -> usize
    requires short { length items.now ≤ 4096 }
    ensures { result ≡ room_of (map item_of items.now) }
{
    let mut room = 0;
    for item in items {
        room += entries_for(&item.command);
    }
    room
}

/// How many entries a line may need: its own, and for a lock or a start that of a closing command.
fn entries_for(command: &Command) -> usize
    ensures { result ≡ 1 + cond (is_lock (command_of command.now)) 1 0
        + cond (is_start (command_of command.now)) 1 0 }
{
    match command {
        Command::Start(_) | Command::Lock(_) => 2,
        _ => 1,
    }
}
