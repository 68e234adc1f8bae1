ghost use Rattle.std.specs.Prelude.{◌≤◌, List, ℕ, map, length, IfOk};
ghost use Rattle.redodb_names.specs.Support.Names.{Extends};
ghost use Rattle.redodb_model.specs.Names.{Text, text_at};
ghost use Rattle.redodb_model.specs.Reply.{Refused};
ghost use Rattle.redodb_model.specs.Renaming.{AllBelow, IsReplyBelow, named_refusal};
ghost use Rattle.redodb_commands.specs.Meaning.{refusal_of};
ghost use Rattle.redodb_text.specs.Support.Reading.{Reads, words_after};
ghost use Rattle.redodb_text.specs.Replies.{names_in_refusal};
ghost use Rattle.redodb_text.specs.Support.ReplyReading.{one_word_in, grant_in, digest_in, names_in_words, plain_refusal_in, refusal_in_words, with_its_names};

use crate::args::{one, two, words};
use crate::fault::{LineFault, Unread};
use crate::known::known_numbers;
use crate::name_lists::{are_names, numbers_of};
use crate::numbers::read_number;
use crate::words::{known_name, number_of};
use hex::FromHex;
use redodb_commands::Refusal;
use redodb_names::Names;
use std::alloc::Global;

/// The number of a grant, from the one word: from 1, without a sign or a leading zero.
pub(crate) fn grant_of(args: Option<&[u8]>) -> Result<u32, Unread>
    ensures { Reads (λ g. g) result (one_word_in grant_in (words_after args.entry)) }
{
    let Some(words) = args else {
        return Err(Unread::Fault(LineFault::WrongWords));
    };
    // More than one word is no number either.
    match read_number(words) {
        Some(grant) if grant > 0 => Ok(grant),
        _ => Err(Unread::Fault(LineFault::WrongWords)),
    }
}

/// The 20 bytes with the digits of a word, whose letters are in lower case.
#[tactic(auto, unfolding(crate::specs::Support::ReplyReading::digest_in))]
fn digest_in_word(word: &[u8]) -> Result<[u8; 20], Unread>
    ensures { Reads (λ digest. digest) result (digest_in word.now) }
{
    let Ok(digest) = <[u8; 20] as FromHex>::from_hex(word) else {
        return Err(Unread::Fault(LineFault::BadHex));
    };
    let mut printed = [0; 40];
    let fits = hex::encode_to_slice(&digest, &mut printed).is_ok();
    if fits && printed.as_slice() == word {
        Ok(digest)
    } else {
        Err(Unread::Fault(LineFault::BadHex))
    }
}

/// The digest, from the one word.
pub(crate) fn digest_of_word(args: Option<&[u8]>) -> Result<[u8; 20], Unread>
    ensures { Reads (λ digest. digest) result (one_word_in digest_in (words_after args.entry)) }
{
    match one(args) {
        Some(word) => digest_in_word(word),
        None => Err(Unread::Fault(LineFault::WrongWords)),
    }
}

/// The numbers of the names of words, in any order; each new name is added.
pub(crate) fn listed_of(
    alloc: Global,
    names: &mut Names,
    args: Option<&[u8]>,
    most: u32,
) -> Result<Vec<u32>, Unread>
    requires { length names.old ≤ most }
    ensures reads { Reads (λ numbers. (map (text_at names.new) numbers.items, names.new)) result
        (with_its_names most (λ ns. ns) names.old (names_in_words (words_after args.entry))) }
    ensures within { IfOk result (λ numbers. AllBelow (length names.new) numbers.items) }
    ensures kept { Extends names.old names.new }
{
    names.are_names();
    let before = names.latest();
    if let Some(known) = known_numbers(alloc, names, before, args)? {
        return Ok(known);
    }
    let words = words(alloc, args)?;
    if !are_names(&words) {
        return Err(Unread::Fault(LineFault::BadName));
    }
    numbers_of(alloc, names, &words, most)
}

/// The refusal of one word alone.
#[tactic(auto, using(crate::proofs::ReplyNames::none_added))]
fn plain_refusal_of(word: &[u8]) -> Result<Refusal, Unread>
    ensures reads { (most : ℕ) (names : List Text) → length names ≤ most
        → Reads (λ refusal. (named_refusal (text_at names) (refusal_of refusal), names)) result
        (with_its_names most names_in_refusal names (plain_refusal_in word.now)) }
    ensures within { (n : ℕ)
        → IfOk result (λ refusal. IsReplyBelow n (Refused (refusal_of refusal))) }
{
    if word == b"not-locked".as_slice() {
        Ok(Refusal::NotLocked)
    } else if word == b"building".as_slice() {
        Ok(Refusal::Building)
    } else if word == b"not-building".as_slice() {
        Ok(Refusal::NotBuilding)
    } else if word == b"self".as_slice() {
        Ok(Refusal::Itself)
    } else {
        Err(Unread::Fault(LineFault::WrongWords))
    }
}

/// The refusal of words.
#[tactic(auto, using(crate::proofs::Added::extends_same, crate::proofs::ReplyNames::none_added, crate::proofs::ReplyNames::one_all_added))]
pub(crate) fn refusal_of_words(
    names: &mut Names,
    args: Option<&[u8]>,
    most: u32,
) -> Result<Refusal, Unread>
    requires { length names.old ≤ most }
    ensures reads { Reads
        (λ refusal. (named_refusal (text_at names.new) (refusal_of refusal), names.new))
        result
        (with_its_names most names_in_refusal names.old (refusal_in_words (words_after args.entry))) }
    ensures within { IfOk result
        (λ refusal. IsReplyBelow (length names.new) (Refused (refusal_of refusal))) }
    ensures kept { Extends names.old names.new }
{
    if let Some(word) = one(args) {
        return plain_refusal_of(word);
    }
    let Some((word, name)) = two(args) else {
        return Err(Unread::Fault(LineFault::WrongWords));
    };
    if word != b"exists".as_slice() {
        return Err(Unread::Fault(LineFault::WrongWords));
    }
    let known = known_name(names, name)?;
    Ok(Refusal::Exists(number_of(names, known, name, most)?))
}
