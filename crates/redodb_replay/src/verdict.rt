ghost use Rattle.std.specs.Prelude.{◌≡◌, length, IfOk};
ghost use Rattle.redodb_replay.specs.Verdicts.{verdict_at, verdict_text_of};
ghost use Rattle.redodb_replay.specs.Support.Verdicts.{IsVerdictBelow};

use redodb_history::{Verdict, put_number};
use redodb_names::Names;
use redodb_text::put_reply;
use std::alloc::{AllocError, Global};

/// The text of a verdict: one line, with its LF.
pub fn verdict_text(alloc: Global, verdict: &Verdict, names: &Names) -> Result<Vec<u8>, AllocError>
    requires { IsVerdictBelow (length names.now) verdict.now }
    ensures { IfOk result (λ text. text.items
        ≡ verdict_text_of (verdict_at names.now verdict.now)) }
{
    let mut text = Vec::new(alloc);
    match verdict {
        Verdict::Same(count) => {
            text.extend_from_slice(b"same ")?;
            put_number(&mut text, *count)?;
        }
        Verdict::Differs { line, reply } => {
            text.extend_from_slice(b"differs ")?;
            put_number(&mut text, *line)?;
            text.push(b' ')?;
            put_reply(alloc, &mut text, reply, names)?;
        }
    }
    text.push(b'\n')?;
    Ok(text)
}
