//! Sessions that work on one redo database without a lock.
#![tactic(auto)]

mod board;
mod gate;
mod laws;
mod plan;
mod rule;
mod seat;
mod view;
mod worker;

pub use atomic_table::Closed;
pub use board::Board;
pub use gate::{Gate, Open};
pub use laws::{no_row_is_wanting, the_rule_runs, words_fix_the_records};
pub use seat::Seat;
pub use view::View;
pub use worker::Worker;
