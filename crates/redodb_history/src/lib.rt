//! Histories: their text, and how it is printed and read.
#![tactic(auto)]

mod cuts;
mod fault;
mod laws;
mod logs;
mod printed;
mod read;
mod verdict;

pub use cuts::{cut_at, cut_at_arrow, cut_at_space};
pub use fault::HistoryFault;
pub use laws::{
    fault_or_history, history_reads_back, legal_history_reads_back, legal_lines_fit, no_fault,
    one_history,
};
pub use logs::{cut_lines, one_cut};
pub use printed::{put_answer, put_count, put_header, put_line, put_number, put_session};
pub use read::{read_header, read_line, session_of};
pub use verdict::Verdict;
