ghost use Rattle.std.specs.Prelude.{◌≡◌, Some, Err, MatchOption};
ghost use Rattle.redodb_text.specs.Questions.{words_of};
ghost use Rattle.redodb_text.specs.Support.Reading.{words_after};
ghost use Rattle.redodb_text.specs.Support.ReplyReading.{reply_words_in, reply_args_in, reply_kind_named, reply_word};
ghost use Rattle.redodb_text.specs.declared.fault.LineFault.TheVariants.{WrongWords};

use crate::args::cut_word;
use crate::keywords::keyword;
use redodb_commands::Kind;

/// The kind of a reply: its case alone.
#[derive(Clone, Copy)]
pub(crate) enum ReplyKind {
    Okay,
    Granted,
    Busy,
    Stale,
    Stamped,
    Ood,
    Targets,
    Sources,
    Refused,
}

const REPLY_KINDS: [ReplyKind; 9] = [
    ReplyKind::Okay,
    ReplyKind::Granted,
    ReplyKind::Busy,
    ReplyKind::Stale,
    ReplyKind::Stamped,
    ReplyKind::Ood,
    ReplyKind::Targets,
    ReplyKind::Sources,
    ReplyKind::Refused,
];

/// The word that a reply of this kind begins with.
fn reply_word(kind: ReplyKind) -> &'static [u8]
    ensures { result.now ≡ reply_word kind }
{
    match kind {
        ReplyKind::Okay => b"ok",
        ReplyKind::Granted => b"granted",
        ReplyKind::Busy => b"busy",
        ReplyKind::Stale => b"stale",
        ReplyKind::Stamped => b"stamped",
        ReplyKind::Ood => keyword(Kind::Ood),
        ReplyKind::Targets => keyword(Kind::Targets),
        ReplyKind::Sources => keyword(Kind::Sources),
        ReplyKind::Refused => b"refused",
    }
}

/// The kind of reply that begins with the word.
fn reply_kind_of(word: &[u8]) -> Option<ReplyKind>
    ensures { result ≡ reply_kind_named word.now }
{
    for kind in REPLY_KINDS {
        if word == reply_word(kind) {
            return Some(kind);
        }
    }
    None
}

/// The kind of reply that begins with the first word of a text, and the text after its space, if it
/// has one.
#[tactic(auto, using(crate::proofs::FirstWords::reply_by_kind, crate::proofs::FirstWords::no_reply_kind))]
pub(crate) fn cut_reply_kind(text: &[u8]) -> Option<(ReplyKind, Option<&[u8]>)>
    ensures { MatchOption result (reply_words_in (words_of text.now) ≡ Err WrongWords)
        (λ k. reply_words_in (words_of text.now) ≡ reply_args_in (Some k.0) (words_after k.1)) }
{
    let (word, args) = cut_word(text);
    match reply_kind_of(word) {
        Some(kind) => Some((kind, args)),
        None => None,
    }
}
