//! The redo database as a mathematical model, and laws about its definitions.
#![tactic(auto)]

pub mod changes;
pub mod histories;
pub mod journals;
pub mod regions;
pub mod renaming;
pub mod replies;
