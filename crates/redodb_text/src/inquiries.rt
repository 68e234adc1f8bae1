//! Questions about a name, which change nothing.

ghost use Rattle.std.specs.Prelude.{◌≡◌, ◌∷◌, [], drop, None, Some, IfOk, IfErr, IfSome, MatchOption};
ghost use Rattle.redodb_text.specs.Inquiries.{inquiry_word, inquiry_named, inquiry_in, inquiry_fault};
ghost use Rattle.redodb_text.specs.Support.Inquiries.{ReadsInquiry};
ghost use Rattle.redodb_text.specs.Questions.{words_of};
ghost use Rattle.redodb_text.specs.Support.Reading.{words_after};

use crate::args::{cut_word, one};
use crate::fault::LineFault;
use crate::read::LONGEST_LINE;
use crate::words::has_bad_byte;
use redodb_names::is_name;

/// A question about a name.
#[derive(Clone, Copy, Debug, PartialEq, Eq)]
pub enum Inquiry {
    /// Why it is out of date.
    Why,
    /// On which names it has rows.
    Deps,
    /// Which targets have rows on it.
    Users,
    /// Its state, who holds its lock, and the stamp of its file.
    State,
}

/// The question of the word.
fn inquiry_of_word(word: &[u8]) -> Option<Inquiry>
    ensures named { result ≡ inquiry_named word.now }
    ensures word { IfSome result (λ inquiry. word.now ≡ inquiry_word inquiry) }
{
    if word == b"why".as_slice() {
        Some(Inquiry::Why)
    } else if word == b"deps".as_slice() {
        Some(Inquiry::Deps)
    } else if word == b"users".as_slice() {
        Some(Inquiry::Users)
    } else if word == b"state".as_slice() {
        Some(Inquiry::State)
    } else {
        None
    }
}

/// The name in the question.
#[tactic(auto, unfolding(crate::specs::Inquiries::inquiry_fault))]
fn name_asked<'a>(line: &'a [u8], args: Option<&'a [u8]>) -> Result<&'a [u8], LineFault>
    requires { drop 1 (words_of line.now) ≡ words_after args }
    ensures read { IfOk result (λ name. (words_after args.entry ≡ name.now ∷ [])
        × (inquiry_fault line.now ≡ None)) }
    ensures fault { IfErr result (λ fault. inquiry_fault line.now ≡ Some fault) }
{
    if line.len() > LONGEST_LINE {
        return Err(LineFault::LineTooLong);
    }
    if has_bad_byte(line) {
        return Err(LineFault::BadByte);
    }
    let Some(name) = one(args) else {
        return Err(LineFault::WrongWords);
    };
    if is_name(name) {
        Ok(name)
    } else {
        Err(LineFault::BadName)
    }
}

/// Which question a line asks, without its LF, and about which name; nothing if its first word is
/// no question's.
pub fn read_inquiry(line: &[u8]) -> Option<Result<(Inquiry, &[u8]), LineFault>>
    ensures { MatchOption result (inquiry_in (words_of line.now) ≡ None) (ReadsInquiry line.now) }
{
    let (word, args) = cut_word(line);
    let inquiry = inquiry_of_word(word)?;
    match name_asked(line, args) {
        Ok(name) => Some(Ok((inquiry, name))),
        Err(fault) => Some(Err(fault)),
    }
}
