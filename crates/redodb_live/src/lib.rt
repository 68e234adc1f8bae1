//! The database of a conversation or a replay: it answers commands as they come, over the names in them.
#![tactic(auto)]

mod appending;
mod asked;
mod fault;
mod known;
mod laws;
mod live;
mod ordering;

pub use asked::{flag_word, put_holder};
pub use fault::{AnswerFault, Unanswered};
pub use known::stage_word;
pub use laws::{ended_leave_nothing, one_answer_a_line};
pub use live::{Live, MOST_SESSIONS};
