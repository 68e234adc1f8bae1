//! Dumps of a database's state.
#![tactic(auto)]

mod cells;
mod checking;
mod fault;
mod forms;
mod laws;
mod loaded;
mod parsing;
mod printed;
mod reading;
mod reading_rows;
mod rows;
mod words;
mod worked;

pub use fault::LoadFault;
pub use laws::one_dump;
pub use loaded::{Loaded, load};
pub use printed::{DumpText, dump};
pub use worked::{building_is_dumped, nothing_is_dumped, rows_are_dumped, source_is_dumped};
