//! The static graph of a plan: its lines as steps over numbers, and the pairs of a target and a name that they list.
#![tactic(auto)]

mod count;
mod graph;
mod keys;
mod numbering;
mod once;
mod pairs;
mod step;
mod tables;

pub use graph::Graph;
pub use pairs::Pairs;
pub use step::{Listed, Step};
