//! Sets of numbers as bits, and names that are marked: a set with a queue of those that were marked last. The walk over
//! what depends on what, and the memo of out-of-date targets that it makes right.
#![tactic(auto)]

mod bits;
mod memo;
mod name_set;
mod walk;

pub use bits::Bits;
pub use memo::Memo;
pub use name_set::NameSet;
pub use walk::Dependencies;
