//! How a conversation keeps its log: what the log has is done again or salvaged, the sessions that it left end, and
//! what changes the database comes to the log before it is answered.
#![tactic(auto)]

mod ending;
mod fault;
mod going_on;
mod restoring;
mod sending;

pub use ending::end_all;
pub use fault::{Refusal, ServeFault};
pub use going_on::{cut_rest, go_on};
pub use restoring::{Kept, Rest, restore_or_salvage};
pub use sending::{Unsent, put_fault, send, send_fault};
