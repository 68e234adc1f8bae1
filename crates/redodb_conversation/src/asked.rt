ghost use Rattle.std.specs.Prelude.{MatchOption};
ghost use Rattle.redodb_keeping.specs.Rounds.{Asks, HasNoSession};

use redodb_history::{cut_at, session_of};
use redodb_live::MOST_SESSIONS;

/// The session, counted from 0, and the text of a line.
pub(crate) fn asked(line: &[u8]) -> Option<(u16, &[u8])>
    ensures { MatchOption result (HasNoSession line.now)
        (λ parts. Asks line.now parts.0 parts.1.now) }
{
    let (word, text) = cut_at(line, b' ')?;
    let session = session_of(word, MOST_SESSIONS)?;
    Some((session, text))
}
