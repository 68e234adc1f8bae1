//! The words after a program's name, and their meaning; how a program ends: the lines of its faults, and its status.
#![tactic(auto)]

mod ending;
mod fault;
mod live_words;
mod task;
mod words;

pub use ending::finish;
pub use fault::WordsFault;
pub use live_words::live_job;
pub use task::{Backup, Job, LiveJob, LogFile};
pub use words::job;
