use crate::keeping::Compacting;

/// How far a log has grown, and when a dump is tried in its place.
#[derive(Clone, Copy, Debug)]
pub(crate) struct Growth {
    compacting: Compacting,
    /// The bytes that the log has before its lines, and those of its lines.
    head: usize,
    lines: usize,
    /// How many the latter were when the log was left as it was.
    refused: usize,
}

impl Growth {
    /// A log at a start. Where its lines are reason enough, the start has tried.
    pub fn new(compacting: Compacting, head: usize, lines: usize) -> Growth {
        let mut growth = Growth {
            compacting,
            head,
            lines,
            refused: 0,
        };
        if growth.is_enough() {
            growth.refuse();
        }
        growth
    }

    /// A log that begins with a dump of so many bytes, and has no lines.
    pub fn replaced(self, head: usize) -> Growth {
        Growth::new(self.compacting, head, 0)
    }

    /// So many bytes came to the log.
    pub fn add(&mut self, bytes: usize) {
        self.lines = self.lines.saturating_add(bytes);
    }

    /// The log stays as it is until its lines have twice these bytes: so all tries cost no more than a few times the log.
    pub fn refuse(&mut self) {
        self.refused = self.lines;
    }

    fn is_enough(&self) -> bool {
        match self.compacting.least_in_midst(self.head) {
            Some(least) => self.lines >= self.refused.saturating_mul(2).max(least),
            None => false,
        }
    }

    /// How many bytes a log that begins with a dump may have, if it is time for one in the midst of a conversation.
    pub fn most(&self) -> Option<usize> {
        if self.is_enough() {
            Some(self.head.saturating_add(self.lines) / 2)
        } else {
            None
        }
    }
}
