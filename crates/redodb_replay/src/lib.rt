//! Replays: whether the database gives the replies of a history.
#![tactic(auto)]

mod laws;
mod replays;
mod texts;
mod verdict;

pub use laws::{one_verdict, same_where_legal};
pub use redodb_history::{HistoryFault, Verdict};
pub use redodb_live::Live;
pub use replays::replay;
pub use texts::{INPUT_LIMIT, replay_text};
pub use verdict::verdict_text;
