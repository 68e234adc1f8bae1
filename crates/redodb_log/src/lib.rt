//! The log of a conversation's database: how it is restored, and what a beginning of it is.
#![tactic(auto)]

mod devices;
mod laws;
mod memory;
mod record;
mod restoring;

pub use devices::{Devices, LogFault, Unread};
pub use laws::{cut_log, one_log, one_past};
pub use memory::{Failing, MemoryDevices};
pub use record::Record;
pub use restoring::{DUMP_HEADER, LOG_HEADER, RestoreFault, Restored, restore};
