//! The plan of a run, and the journals of its sessions.
#![tactic(auto)]

mod closing;
mod entry;
mod holds;
mod next;
mod plan;

pub use entry::{Closing, CommandDone, Entry, Journal, Place};
pub use holds::{Hold, Holds};
pub use next::{Next, next_line, next_step};
pub use plan::{Plan, PlanFault};
