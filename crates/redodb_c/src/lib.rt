//! The database for callers in other languages: calls on a handle that answer into the caller's memory.
#![tactic(auto)]

mod answering;
mod calls;
mod contents;
mod handle;
mod status;
