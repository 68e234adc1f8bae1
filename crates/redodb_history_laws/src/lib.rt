//! Placed histories: which are legal, how they can be extended, what their words say; and the joint
//! orders of journals.
#![tactic(auto)]

pub mod events;
pub mod histories;
pub mod merging;
pub mod renaming;
mod row_word;
pub mod words;
pub mod worked;
pub mod worked_histories;

pub use row_word::RowWord;
