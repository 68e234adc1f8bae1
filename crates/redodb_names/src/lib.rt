//! Names as numbers: a list of distinct names; a name's number is its place.
#![tactic(auto)]

mod lists;
mod name;
mod names;
mod sorted;
mod texts;

pub use lists::{in_order, names_at};
pub use name::{LONGEST_NAME, is_name};
pub use names::{MOST_NAMES, Names, NamesFault, Turn};
pub use sorted::{ranks_of, sorted_numbers};
