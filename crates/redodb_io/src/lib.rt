//! Whole reads and writes, by readers and writers that record a failure.
#![tactic(auto)]

mod watched;
mod whole;

pub use watched::Watched;
pub use whole::{WholeFault, WriteFault, read_whole, write_whole};
