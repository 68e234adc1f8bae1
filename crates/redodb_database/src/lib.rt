//! The redo database for one thread: what is known of each name, the rows, the locks, and a memo of which targets are
//! out of date, which is corrected after each change, in the region of the names that changed.
#![tactic(auto)]

mod database;
mod deps;
mod hints;
mod needs;
mod reason;
mod redo;
mod table;
mod targets;
mod users;
mod why;

pub use deps::Deps;
pub use reason::Reason;
pub use redo::{Loading, Redo};
pub use users::Users;
pub use why::Why;
