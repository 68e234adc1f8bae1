/// When a dump takes the place of a log, at the start of a conversation or in its midst.
#[derive(Clone, Copy, Debug, PartialEq, Eq)]
pub enum Compacting {
    Never,
    /// If the log's lines have grown so far that it pays.
    InTime,
    /// At the start in any case; in the midst as in time.
    Always,
}

/// How a log is kept.
#[derive(Clone, Copy, Debug, PartialEq, Eq)]
pub struct Keeping {
    /// Whether each answer waits until its lines are synced to the disk.
    pub sync: bool,
    /// Whether a damaged log is cut before its first line that differs, after it was copied.
    pub salvage: bool,
    pub compacting: Compacting,
}

/// A log whose lines have fewer bytes stays as it is at a start.
const LEAST_LINES: usize = 4_194_304;

/// A log whose lines have fewer bytes stays as it is in the midst of a conversation.
const LEAST_IN_MIDST: usize = 67_108_864;

/// In the midst of a conversation the lines have this many times the bytes of what comes before them.
const TIMES_IN_MIDST: usize = 64;

impl Compacting {
    /// How many bytes a log that begins with a dump may have, if it is time for one: the log has `head` bytes before its
    /// lines, and `bytes` in all.
    pub(crate) fn most(self, head: usize, bytes: usize) -> Option<usize> {
        let lines = bytes.saturating_sub(head);
        match self {
            Compacting::Never => None,
            Compacting::InTime if lines < LEAST_LINES || lines / 2 < head => None,
            Compacting::InTime => Some(bytes / 2),
            Compacting::Always => Some(usize::MAX),
        }
    }

    /// How far the lines of a log have to grow in the midst of a conversation until it is time for a dump: the log has
    /// `head` bytes before them.
    pub(crate) fn least_in_midst(self, head: usize) -> Option<usize> {
        match self {
            Compacting::Never => None,
            Compacting::InTime | Compacting::Always => {
                Some(head.saturating_mul(TIMES_IN_MIDST).max(LEAST_IN_MIDST))
            }
        }
    }
}
