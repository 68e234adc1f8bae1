ghost use Rattle.std.specs.Prelude.{◌≡◌, ◌≢◌, ◌∷◌, [], List, Some, MatchOption, IfOk, length, map, false, ◌==◌};
ghost use Rattle.std.specs.List.{list_any};
ghost use Rattle.redodb_model.specs.Names.{Text};
ghost use Rattle.redodb_text.specs.Questions.{words_of};
ghost use Rattle.redodb_text.specs.Support.Reading.{words_after};

use crate::scan::near_position_of;
use std::alloc::{AllocError, Global};

/// The first word of a text, and the text after its space, if it has one.
#[inline]
pub(crate) fn cut_word(text: &[u8]) -> (&[u8], Option<&[u8]>)
    ensures { words_of text.now ≡ result.0.now ∷ words_after result.1 }
{
    match near_position_of(text, b' ') {
        Some(end) => (&text[..end], Some(&text[end + 1..])),
        None => (text, None),
    }
}

/// The word, if there is one.
#[inline]
pub(crate) fn one(args: Option<&[u8]>) -> Option<&[u8]>
    ensures { MatchOption result (length (words_after args.entry) ≢ 1)
        (λ a. words_after args.entry ≡ a.now ∷ []) }
{
    let Some(text) = args else {
        return None;
    };
    let (word, others) = cut_word(text);
    match others {
        None => Some(word),
        Some(_) => None,
    }
}

/// The words, if there are two.
#[inline]
pub(crate) fn two(args: Option<&[u8]>) -> Option<(&[u8], &[u8])>
    ensures { MatchOption result (length (words_after args.entry) ≢ 2)
        (λ p. words_after args.entry ≡ p.0.now ∷ p.1.now ∷ []) }
{
    let Some(text) = args else {
        return None;
    };
    let (first, others) = cut_word(text);
    match one(others) {
        Some(second) => Some((first, second)),
        None => None,
    }
}

/// The words.
pub(crate) fn words(alloc: Global, args: Option<&[u8]>) -> Result<Vec<&[u8]>, AllocError>
    ensures { IfOk result (λ words. map (λ w. w.now) words.items ≡ words_after args.entry) }
{
    match args {
        Some(text) => text.split(|b| *b == b' ').collect(alloc),
        None => Ok(Vec::new(alloc)),
    }
}
