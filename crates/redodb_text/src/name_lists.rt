ghost use Rattle.std.specs.Prelude.{◌≡◌, ◌≤◌, ◌∷◌, List, map, length, IfOk, IfErr, true};
ghost use Rattle.std.specs.List.{list_all};
ghost use Rattle.redodb_names.specs.Names.{is_name as name_test};
ghost use Rattle.redodb_names.specs.Support.Names.{Extends};
ghost use Rattle.redodb_model.specs.Names.{Text, text_at};
ghost use Rattle.redodb_model.specs.Command as commands;
ghost use Rattle.redodb_model.specs.Renaming.{AllBelow};
ghost use Rattle.redodb_text.specs.Support.Reading.{Reads, LeavesPrefix, LeavesSome, target_and_names_in, all_added, names_form_in, words_after};

use crate::args::words;
use crate::fault::{LineFault, Unread};
use crate::known::known_target_and_numbers;
use crate::words::number_of;
use redodb_names::{Names, is_name};
use std::alloc::Global;

/// How many names a line has at most after its target.
pub const MOST_LISTED_NAMES: usize = 64;

/// Whether each word is a name.
pub(crate) fn are_names(words: &[&[u8]]) -> bool
    ensures { result ≡ list_all name_test (map (λ w. w.now) words.now) }
{
    for word in words {
        if !is_name(*word) {
            return false;
        }
    }
    true
}

/// The word of the target and the 1 to 64 words of the names after it.
#[tactic(auto, unfolding(crate::specs::Support::Reading::target_and_names_in))]
fn target_and_names<'a, 'b>(args: &'b [&'a [u8]]) -> Result<(&'a [u8], &'b [&'a [u8]]), Unread>
    ensures reads { Reads (λ p. (p.0.now, map (λ w. w.now) p.1.now)) result
        (target_and_names_in (map (λ w. w.now) args.now)) }
    ensures target { IfOk result (λ p. name_test p.0.now ≡ true) }
    ensures names { IfOk result (λ p. list_all name_test (map (λ w. w.now) p.1.now) ≡ true) }
{
    let [target, others @ ..] = args else {
        return Err(Unread::Fault(LineFault::WrongWords));
    };
    if others.is_empty() {
        return Err(Unread::Fault(LineFault::WrongWords));
    }
    if others.len() > MOST_LISTED_NAMES {
        return Err(Unread::Fault(LineFault::TooManyNames));
    }
    if !are_names(args) {
        return Err(Unread::Fault(LineFault::BadName));
    }
    Ok((*target, others))
}

/// The numbers of names; each new name is added.
pub(crate) fn numbers_of(
    alloc: Global,
    names: &mut Names,
    words: &[&[u8]],
    most: u32,
) -> Result<Vec<u32>, Unread>
    requires few { length names.old ≤ most }
    requires names { list_all name_test (map (λ w. w.now) words.now) ≡ true }
    ensures reads { Reads (λ _. names.new) result
        (all_added most names.old (map (λ w. w.now) words.now)) }
    ensures numbers { IfOk result
        (λ numbers. map (text_at names.new) numbers.items ≡ map (λ w. w.now) words.now) }
    ensures within { IfOk result (λ numbers. AllBelow (length names.new) numbers.items) }
    ensures left { IfErr result
        (LeavesPrefix most names.old (map (λ w. w.now) words.now) names.new) }
    ensures kept { Extends names.old names.new }
{
    let mut numbers = Vec::new(alloc);
    for word in words {
        let number = number_of(names, None, *word, most)?;
        numbers.push(number)?;
    }
    Ok(numbers)
}

/// The numbers of the target and of the names of a form.
#[tactic(auto, using(crate::proofs::Added::extends_same), unfolding(crate::specs::Support::Reading::names_form_in))]
pub(crate) fn target_and_numbers_of(
    alloc: Global,
    names: &mut Names,
    args: Option<&[u8]>,
    most: u32,
) -> Result<(u32, Vec<u32>), Unread>
    requires few { length names.old ≤ most }
    ensures reads { (form : Text → List Text → commands.Command Text) → Reads
        (λ p. (form (text_at names.new p.0) (map (text_at names.new) p.1.items), names.new))
        result (names_form_in most form names.old (words_after args.entry)) }
    ensures within { IfOk result (λ p. AllBelow (length names.new) (p.0 ∷ p.1.items)) }
    ensures left { IfErr result (LeavesSome most names.old (words_after args.entry) names.new) }
    ensures kept { Extends names.old names.new }
{
    names.are_names();
    if let Some(known) = known_target_and_numbers(alloc, names, args)? {
        names.remember(known.0);
        return Ok(known);
    }
    let words = words(alloc, args)?;
    let (target, others) = target_and_names(&words)?;
    let number = number_of(names, None, target, most)?;
    let numbers = numbers_of(alloc, names, others, most)?;
    Ok((number, numbers))
}
