use redodb_commands::Line;
use redodb_journal::Journal;

/// The result of a run: one history of all sessions, and what each session did.
#[derive(Debug, Drop)]
pub struct Outcome {
    pub history: Vec<Line>,
    pub journals: Vec<Journal>,
}
