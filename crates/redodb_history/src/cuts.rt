ghost use Rattle.std.specs.Prelude.{◌≡◌, ◌≢◌, ◌<◌, ◌-◌, ◌∷◌, ◌++◌, length, drop, Contains, MatchOption};
ghost use Rattle.redodb_model.specs.Names.{Text};
ghost use Rattle.redodb_history.specs.HistoryFaults.{arrow, IsCutAtSpace, IsCutAtArrow, HasNoArrow};
ghost use Rattle.redodb_history.specs.Support.HistoryFaults.{IsCutAt};

use redodb_text::{near_position_of, position_of};

const ARROW: &[u8] = b" => ";

/// The part before the first such byte, and the part after it.
#[inline]
pub fn cut_at(text: &[u8], byte: u8) -> Option<(&[u8], &[u8])>
    ensures { MatchOption result (¬ (Contains text.now byte))
        (λ parts. IsCutAt byte text.now parts.0.now parts.1.now) }
{
    let at = position_of(text, byte)?;
    Some((&text[..at], &text[at + 1..]))
}

/// The part before the first space, and the part after it. All of it is before, if there is none.
/// This is fast for a short first part.
pub fn cut_at_space(line: &[u8]) -> (&[u8], &[u8])
    ensures { IsCutAtSpace line.now result.0.now result.1.now }
{
    match near_position_of(line, b' ') {
        Some(at) => (&line[..at], &line[at + 1..]),
        None => (line, &[]),
    }
}

/// The part after the arrow whose equals sign is at this place.
#[inline]
fn after_arrow(rest: &[u8], at: usize) -> Option<&[u8]>
    requires { at < length rest.now }
    ensures { MatchOption result ((back : Text) → 0 < at → drop (at - 1) rest.now ≢ arrow ++ back)
        (λ reply. (0 < at) × (drop (at - 1) rest.now ≡ arrow ++ reply.now)) }
{
    if at == 0 {
        return None;
    }
    rest[at - 1..].strip_prefix(ARROW)
}

/// The part before the first arrow, and the part after it.
pub fn cut_at_arrow(rest: &[u8]) -> Option<(&[u8], &[u8])>
    ensures { MatchOption result (HasNoArrow rest.now)
        (λ parts. IsCutAtArrow rest.now parts.0.now parts.1.now) }
{
    let mut seen = 0;
    while let Some(more) = position_of(&rest[seen..], b'=') {
        let at = seen + more;
        if let Some(reply) = after_arrow(rest, at) {
            return Some((&rest[..at - 1], reply));
        }
        seen = at + 1;
    }
    None
}
