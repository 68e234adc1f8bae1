use redodb_commands::Reply;

/// Whether a history's replies are those of the database.
#[derive(Debug, Drop)]
pub enum Verdict {
    /// They are, in this number of lines.
    Same(usize),
    /// The reply of this line, counted from 1, is the first that is wrong, and this is the right
    /// one.
    Differs { line: usize, reply: Reply },
}
