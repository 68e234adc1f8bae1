//! What the database knows of each name: the stamp of its file, its state, its builds, the stamp of its last done and
//! the digest of its present build; and the rows of the targets: on which names each depends, and for each name, which
//! targets depend on it.
#![tactic(auto)]

mod cell;
mod digest;
mod inverse;
mod kept_mark;
mod kept_state;
mod laws;
mod lists;
mod made;
mod mark;
mod news;
mod numbers;
mod records;
mod refusal;
mod rows;
mod state;
mod target;

pub use cell::Cell;
pub use digest::digest_of;
pub use laws::verdict_by_kind;
pub use lists::extended;
pub use mark::Mark;
pub use news::News;
pub use numbers::Place;
pub use records::Records;
pub use rows::DepRows;
pub use state::State;
pub use target::Slot;
