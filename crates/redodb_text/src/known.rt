ghost use Rattle.std.specs.Prelude.{◌≡◌, ◌≤◌, ◌∷◌, map, length, IfOk, IfSome, true};
ghost use Rattle.redodb_model.specs.Names.{text_at};
ghost use Rattle.redodb_names.specs.Names.{is_name as name_test};
ghost use Rattle.redodb_model.specs.Renaming.{AllBelow};
ghost use Rattle.redodb_text.specs.Questions.{words_of};
ghost use Rattle.redodb_text.specs.Support.Reading.{IsCutAt, words_after};

use crate::args::cut_word;
use crate::name_lists::MOST_LISTED_NAMES;
use redodb_names::{Names, Turn};
use std::alloc::{AllocError, Global};

/// The first capacity of a list of names, if it has any: most have no more.
const FEW_NAMES: usize = 8;

/// If this name is the first word of a text: the text after its space, if it has one.
fn after_name<'a>(name: &[u8], text: &'a [u8]) -> Option<Option<&'a [u8]>>
    requires { name_test name.now ≡ true }
    ensures { IfSome result (λ rest. words_of text.now ≡ name.now ∷ words_after rest) }
{
    let (first, rest) = text.split_at_checked(name.len())?;
    if first != name {
        return None;
    }
    match rest.split_first() {
        None => Some(None),
        Some((b' ', others)) => Some(Some(others)),
        Some(_) => None,
    }
}

/// The number of the first word of a text, and the text after its space, if the word came after
/// this name the last time.
fn cut_follower<'a>(
    names: &Names,
    before: u32,
    turn: Turn,
    text: &'a [u8],
) -> Option<(u32, Option<&'a [u8]>)>
    ensures { IfSome result (λ cut. IsCutAt names.now text.now cut.0 (words_after cut.1)) }
{
    names.are_names();
    let number = names.follower(before, turn)?;
    let rest = after_name(names.text(number), text)?;
    Some((number, rest))
}

/// The number of the first word of a text, if that is among the names, and the text after its
/// space, if it has one. Callers pass `before`: the number of the name before it in the line. Names
/// that came one after the other often do so again.
fn cut_known<'a>(
    names: &mut Names,
    before: u32,
    turn: Turn,
    text: &'a [u8],
) -> Option<(u32, Option<&'a [u8]>)>
    ensures cut { IfSome result (λ cut. IsCutAt names.old text.now cut.0 (words_after cut.1)) }
    ensures kept { names.new ≡ names.old }
{
    if let Some(found) = cut_follower(names, before, turn, text) {
        return Some(found);
    }
    let (word, others) = cut_word(text);
    let number = names.number_of(word)?;
    names.note_follower(before, turn, number);
    Some((number, others))
}

/// The numbers of the words, if each is among the names. Callers pass `before`: the number of the
/// name before them in the line.
pub(crate) fn known_numbers(
    alloc: Global,
    names: &mut Names,
    before: u32,
    args: Option<&[u8]>,
) -> Result<Option<Vec<u32>>, AllocError>
    ensures known { IfOk result (λ known. IfSome known (λ numbers.
        (words_after args.entry ≡ map (text_at names.old) numbers.items)
        × AllBelow (length names.old) numbers.items)) }
    ensures kept { names.new ≡ names.old }
{
    let room = if args.is_some() { FEW_NAMES } else { 0 };
    let mut numbers = Vec::with_capacity(alloc, room)?;
    let mut before = before;
    let mut turn = Turn::First;
    let mut left = args;
    while let Some(text) = left {
        let Some((number, others)) = cut_known(names, before, turn, text) else {
            return Ok(None);
        };
        numbers.push(number)?;
        before = number;
        turn = Turn::Next;
        left = others;
    }
    Ok(Some(numbers))
}

/// The numbers of a target and of 1 to 64 names after it, if each word is among the names.
pub(crate) fn known_target_and_numbers(
    alloc: Global,
    names: &mut Names,
    args: Option<&[u8]>,
) -> Result<Option<(u32, Vec<u32>)>, AllocError>
    ensures words { IfOk result (λ known. IfSome known
        (λ p. words_after args.entry ≡ text_at names.old p.0 ∷ map (text_at names.old) p.1.items)) }
    ensures below { IfOk result (λ known. IfSome known
        (λ p. AllBelow (length names.old) (p.0 ∷ p.1.items))) }
    ensures kept { names.new ≡ names.old }
    ensures count { IfOk result (λ known. IfSome known
        (λ p. (1 ≤ length p.1.items) × (length p.1.items ≤ 64))) }
{
    let Some(text) = args else {
        return Ok(None);
    };
    let (word, others) = cut_word(text);
    let Some(target) = names.number_of(word) else {
        return Ok(None);
    };
    let Some(numbers) = known_numbers(alloc, names, target, others)? else {
        return Ok(None);
    };
    if numbers.is_empty() || numbers.len() > MOST_LISTED_NAMES {
        return Ok(None);
    }
    Ok(Some((target, numbers)))
}
