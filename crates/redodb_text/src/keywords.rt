ghost use Rattle.std.specs.Prelude.{◌≡◌, ◌∷◌, List, Some, Err, IfSome, MatchOption, ℕ};
ghost use Rattle.redodb_model.specs.Names.{Text};
ghost use Rattle.redodb_text.specs.Texts.{word_of};
ghost use Rattle.redodb_text.specs.Questions.{words_of, kind_named};
ghost use Rattle.redodb_text.specs.Support.Reading.{words_in, words_after, form_in};
ghost use Rattle.redodb_text.specs.declared.fault.LineFault.TheVariants.{UnknownCommand};

use crate::args::cut_word;
use redodb_commands::{Kind, cases};

/// Expands to the kinds of all rows.
macro_rules! kinds {
    ([] $(($case:ident $(($($field:ident),*))?, $($rest:tt)*))*) => {
        [$(Kind::$case),*]
    };
}

/// Expands from a kind to the word in its row.
macro_rules! word_by_kind {
    ([$given:ident] $(($case:ident $(($($field:ident),*))?, $word:literal, $($rest:tt)*))*) => {
        match $given {
            $(Kind::$case => $word.as_slice(),)*
        }
    };
}

/// The kind of command with this word.
fn kind_of_word(word: &[u8]) -> Option<Kind>
    ensures { result ≡ kind_named word.now }
{
    for kind in cases!(kinds) {
        if word == keyword(kind) {
            return Some(kind);
        }
    }
    None
}

/// The kind of command with the first word of a text, and the text after its space, if it has one.
#[tactic(auto, using(crate::proofs::FirstWords::words_by_kind, crate::proofs::FirstWords::no_kind, crate::proofs::FirstWords::word_is))]
pub(crate) fn cut_kind(text: &[u8]) -> Option<(Kind, Option<&[u8]>)>
    ensures reads { (most : ℕ) (names : List Text)
        → MatchOption result (words_in most names (words_of text.now) ≡ Err UnknownCommand)
        (λ k. words_in most names (words_of text.now)
        ≡ form_in most (Some k.0) names (words_after k.1)) }
    ensures words { IfSome result (λ k. words_of text.now ≡ word_of k.0 ∷ words_after k.1) }
{
    let (word, args) = cut_word(text);
    match kind_of_word(word) {
        Some(kind) => Some((kind, args)),
        None => None,
    }
}

/// The word of the command.
pub(crate) fn keyword(kind: Kind) -> &'static [u8]
    ensures { result.now ≡ word_of kind }
{
    cases!(word_by_kind kind)
}
