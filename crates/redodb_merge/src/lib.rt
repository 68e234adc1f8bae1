//! The journals of all sessions merged into one history.
#![tactic(auto)]

mod merging;

pub use merging::merge;
