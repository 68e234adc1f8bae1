//! How commands and replies are read and printed: lines, session files and the texts of replies.
#![tactic(auto)]

mod args;
mod fault;
mod form;
mod forms;
mod inquiries;
mod keywords;
mod known;
mod laws;
mod name_lists;
mod numbers;
mod read;
mod replies;
mod reply_kind;
mod reply_words;
mod scan;
mod session_file;
mod text;
mod words;

pub use fault::{Fault, LineFault, ReadFault, ReplyFault, fault_word};
pub use inquiries::{Inquiry, read_inquiry};
pub use laws::{
    command_reads_back, fault_or_command, fault_or_script, line_reads_back, no_read_fault,
    one_command_a_line, one_reply_a_text, one_script, reply_reads_back,
};
pub use name_lists::MOST_LISTED_NAMES;
pub use numbers::read_number;
pub use read::{LONGEST_LINE, MOST_COMMANDS, read_command};
pub use replies::read_reply;
pub use scan::{near_position_of, position_of};
pub use session_file::read_script;
pub use text::{
    line_text, put_command, put_digest_or_none, put_item, put_names, put_reply, put_stamp_or_none,
    put_word,
};
