ghost use Rattle.std.specs.Prelude.{◌≡◌, ◌<◌, ◌^◌, ℕ, ◌++◌, flat_map, length, map, IfOk, OnOk};
ghost use Rattle.redodb_commands.specs.Meaning.{command_of};
ghost use Rattle.redodb_commands.specs.Support.Meaning.{item_of};
ghost use Rattle.redodb_journal.specs.Plans.{scripts_of};
ghost use Rattle.redodb_graph.specs.Steps.{listed_in, listed_by};
ghost use Rattle.redodb_graph.specs.Support.Named.{AreByName};

use redodb_commands::{Command, Script};
use std::alloc::{AllocError, Global};

/// Appends the target with each of the names.
pub(crate) fn push_names(
    keys: &mut Vec<(u32, u32)>,
    target: u32,
    names: &[u32],
) -> Result<(), AllocError>
    ensures { OnOk result (keys.new.items ≡ keys.old.items ++ map (λ n. (target, n)) names.now) }
{
    for name in names {
        keys.push((target, *name))?;
    }
    Ok(())
}

fn push_command(keys: &mut Vec<(u32, u32)>, command: &Command) -> Result<(), AllocError>
    ensures { OnOk result
        (keys.new.items ≡ keys.old.items ++ listed_in (command_of command.now)) }
{
    match command {
        Command::IfChange(target, names) => push_names(keys, *target, names),
        Command::IfCreate(target, names) => push_names(keys, *target, names),
        _ => Ok(()),
    }
}

fn push_script(keys: &mut Vec<(u32, u32)>, script: &Script) -> Result<(), AllocError>
    ensures { OnOk result (keys.new.items ≡ keys.old.items
        ++ flat_map (λ item. listed_in item.command) (map item_of script.now)) }
{
    for item in script.items() {
        push_command(keys, &item.command)?;
    }
    Ok(())
}

/// The pairs that the lines of all scripts list, in order.
pub(crate) fn listed_pairs(alloc: Global, scripts: &[Script]) -> Result<Vec<(u32, u32)>, AllocError>
    ensures { IfOk result (λ keys. keys.items ≡ listed_by (scripts_of scripts.now)) }
{
    let mut keys = Vec::new(alloc);
    for script in scripts {
        push_script(&mut keys, script)?;
    }
    Ok(keys)
}

/// The name of each pair, with the pair's place.
pub(crate) fn by_name(alloc: Global, pairs: &[(u32, u32)]) -> Result<Vec<(u32, u32)>, AllocError>
    requires { length pairs.now < 2 ^ 32 }
    ensures { IfOk result (λ keys. AreByName pairs.now (length pairs.now) keys.items) }
{
    let mut keys = Vec::with_capacity(alloc, pairs.len())?;
    for place in 0..pairs.len() {
        keys.push((pairs[place].1, place as u32))?;
    }
    Ok(keys)
}
