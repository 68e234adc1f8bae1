//! Runs of session files: from their bytes to the run text.
#![tactic(auto)]

mod files;
mod laws;
mod lines;
mod outcome;
mod part;
mod printed;
mod runs;
mod sessions;
mod texts;

pub use files::read_files;
pub use laws::{one_run, run_lets_go, run_replays};
pub use outcome::Outcome;
pub use printed::run_text;
pub use runs::run;
pub use texts::run_texts;
