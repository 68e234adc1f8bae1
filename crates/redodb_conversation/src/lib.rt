//! Conversations: a database is restored from its log and answers the lines that are read; what changes it is logged
//! before it is answered.
#![tactic(auto)]

mod answering;
mod asked;
mod dumping;
mod growth;
mod keeping;
mod laws;
mod midst;
mod opening;
mod replying;
mod request;
mod serving;
mod talking;

pub use keeping::{Compacting, Keeping};
pub use laws::{
    answers_differ, conversation_is_determined, conversation_is_history, log_is_always_one,
    log_restores, own_lines_in_order,
};
pub use replying::{Replied, reply};
pub use serving::serve;
