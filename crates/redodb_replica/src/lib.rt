//! A compact replica of the database's records, over the graph of a plan. A change of it allocates nothing.
#![tactic(auto)]

mod cell;
mod cells;
mod changes;
mod database;
mod laws;
mod lists;
mod mark;
mod memo;
mod reason;
mod replica;
mod replies;
mod rows;
mod seed;
mod state;
mod targets;
mod verdict;

pub use cell::CompactCell;
pub use laws::{block_cleared, row_put, same_mark};
pub use mark::Mark;
pub use replica::Replica;
pub use rows::{Row, RowKind};
pub use state::CompactState;
