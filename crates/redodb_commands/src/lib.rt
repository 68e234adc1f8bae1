//! What commands and replies are: their cases, the table of the commands, file stamps, and the script of a session.
#![tactic(auto)]

mod cases;
mod command;
mod digest;
mod kind;
mod reply;
mod script;
mod stamp;

pub use command::{Command, boxed, unboxed};
pub use digest::Digest;
pub use kind::Kind;
pub use reply::{Line, Refusal, Reply};
pub use script::{Item, MOST_SESSIONS, Script};
pub use stamp::{FileStamp, LONGEST_STAMP};
