ghost use Rattle.std.specs.Prelude.{◌≡◌, ◌<◌, ◌≤◌, ◌↔◌, length, IfOk, IsErrOf};
ghost use Rattle.std.specs.List.{AllByRecursion};
ghost use Rattle.redodb_journal.specs.Plans.{AreBelow, IsPlan, scripts_of};

use redodb_commands::{MOST_SESSIONS, Script};
use redodb_names::Names;
use std::marker::Model;
use thiserror::Error;

/// Why scripts are no plan.
#[derive(Clone, Copy, Debug, PartialEq, Eq, Error)]
pub enum PlanFault {
    /// There is no script.
    #[error("no session")]
    NoSession,
    /// There are more than 64 scripts.
    #[error("too many sessions")]
    TooManySessions,
}

/// The scripts of the sessions of a run, with the names that the scripts' numbers stand for.
#[derive(Drop)]
pub struct Plan {
    scripts: Vec<Script>,
    names: Names,
}

impl Model for Plan {
    ghost use Rattle.redodb_journal.specs.Plans.{PlanOf};

    ghost Value = { PlanOf };

    ghost use Rattle.redodb_journal.specs.Support.Kept.{plan_of, KeepsPlan};

    ghost view = { plan_of };

    ghost invariant = { KeepsPlan };
}

impl Plan {
    /// The plan of these scripts, whose names these are.
    pub fn new(scripts: Vec<Script>, names: Names) -> Result<Plan, PlanFault>
        requires below { AllByRecursion (AreBelow (length names)) scripts.items }
        requires few { length names ≤ 65536 }
        ensures plan { IfOk result (λ plan. plan
            ≡ record { names = names; scripts = scripts_of scripts.items }) }
        ensures none { IsErrOf result PlanFault.NoSession ↔ (length scripts.items ≡ 0) }
        ensures many { IsErrOf result PlanFault.TooManySessions
            ↔ (64 < length scripts.items) }
    {
        if scripts.is_empty() {
            return Err(PlanFault::NoSession);
        }
        if scripts.len() > MOST_SESSIONS {
            return Err(PlanFault::TooManySessions);
        }
        names.are_names();
        // This shows that no script is too long.
        for script in &scripts {
            let _ = script.items();
        }
        Ok(Plan { scripts, names })
    }

    pub fn scripts(&self) -> &[Script]
        ensures scripts { scripts_of result.now ≡ self.now.scripts }
        ensures plan { IsPlan self.now }
    {
        &self.scripts
    }

    pub fn names(&self) -> &Names
        ensures { result.now ≡ self.now.names }
    {
        &self.names
    }
}
