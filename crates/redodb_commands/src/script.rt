ghost use Rattle.std.specs.Prelude.{◌≡◌, ◌≤◌, length};

use crate::command::Command;
use std::marker::Model;

/// How many sessions a run or a history has at most.
pub const MOST_SESSIONS: usize = 64;

/// A line of a script. A guarded one is done only if the session's latest reply lets it through.
#[derive(Debug, Drop)]
pub struct Item {
    pub guarded: bool,
    pub command: Command,
}

/// The lines of one session, in order: at most 4,096.
#[derive(Debug, Drop)]
pub struct Script {
    items: Vec<Item>,
}

impl Model for Script {
    ghost use Rattle.std.specs.Prelude.{List, ◌≤◌, length};
    ghost use Rattle.redodb_commands.specs.declared.script.Item.{Item};

    ghost Value = { List Item };

    ghost view = { λ script. script.items.items };

    ghost invariant = { λ script. length script.items.items ≤ 4096 };
}

impl Script {
    pub fn new(items: Vec<Item>) -> Script
        requires { length items.items ≤ 4096 }
        ensures items { result ≡ items.items }
    {
        Script { items }
    }

    /// The lines, in order.
    pub fn items(&self) -> &[Item]
        ensures items { result.now ≡ self.now }
        ensures few { length self.now ≤ 4096 }
    {
        &self.items
    }
}
