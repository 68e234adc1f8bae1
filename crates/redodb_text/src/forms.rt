ghost use Rattle.std.specs.Prelude.{◌≡◌, ◌<◌, List, length, IfOk, IfErr, OnErr, Err, ◌≤◌};
ghost use Rattle.redodb_names.specs.Support.Names.{Extends};
ghost use Rattle.redodb_model.specs.Names.{Text, text_at};
ghost use Rattle.redodb_model.specs.Command as commands;
ghost use Rattle.redodb_model.specs.Reply as replies;
ghost use Rattle.redodb_model.specs.Renaming.{IsBelow};
ghost use Rattle.redodb_commands.specs.Meaning.{command_of};
ghost use Rattle.redodb_commands.specs.Support.Meaning.{command_at};
ghost use Rattle.redodb_text.specs.Questions.{words_of};
ghost use Rattle.redodb_text.specs.Support.Reading.{Reads, LeavesWords, one_name_in, file_in, stamp_in, done_in, no_words_in, form_in, words_in, words_after};
ghost use Rattle.redodb_text.specs.Support.ReplyReading.{okay_in};

use crate::args::{one, two};
use crate::fault::{LineFault, Unread};
use crate::form::Form;
use crate::keywords::cut_kind;
use crate::name_lists::target_and_numbers_of;
use crate::words::{
    content_of, file_stamp_of, file_stamp_or_none_of, known_alone, known_name, number_of,
};
use redodb_commands::{Command, boxed};
use redodb_names::{Names, is_name};
use std::alloc::Global;

/// The number of the one name of a form.
#[tactic(auto, using(crate::proofs::Added::extends_same), unfolding(crate::specs::Support::Reading::one_name_in))]
fn one_name_of(names: &mut Names, args: Option<&[u8]>, most: u32) -> Result<u32, Unread>
    requires few { length names.old ≤ most }
    ensures reads { (form : Text → commands.Command Text)
        → Reads (λ n. (form (text_at names.new n), names.new)) result
        (one_name_in most form names.old (words_after args.entry)) }
    ensures within { IfOk result (λ n. n < length names.new) }
    ensures left { OnErr result (names.new ≡ names.old) }
    ensures kept { Extends names.old names.new }
{
    if let Some(number) = known_alone(names, args) {
        names.remember(number);
        return Ok(number);
    }
    let Some(word) = one(args) else {
        return Err(Unread::Fault(LineFault::WrongWords));
    };
    if !is_name(word) {
        return Err(Unread::Fault(LineFault::BadName));
    }
    number_of(names, None, word, most)
}

#[tactic(auto, using(crate::proofs::Added::extends_same), unfolding(crate::specs::Support::Reading::name_and_word_in))]
fn file_of(
    alloc: Global,
    names: &mut Names,
    args: Option<&[u8]>,
    most: u32,
) -> Result<Command, Unread>
    requires few { length names.old ≤ most }
    ensures reads { Reads (λ command. (command_at names.new command, names.new)) result
        (file_in most names.old (words_after args.entry)) }
    ensures within { IfOk result (λ command. IsBelow (length names.new) (command_of command)) }
    ensures left { OnErr result (names.new ≡ names.old) }
    ensures kept { Extends names.old names.new }
{
    let Some((n, s)) = two(args) else {
        return Err(Unread::Fault(LineFault::WrongWords));
    };
    let known = known_name(names, n)?;
    let stamp = Box::new(alloc, file_stamp_of(s)?)?;
    let number = number_of(names, known, n, most)?;
    Ok(Command::File(number, stamp))
}

#[tactic(auto, using(crate::proofs::Added::extends_same), unfolding(crate::specs::Support::Reading::name_and_word_in))]
fn stamp_of(
    alloc: Global,
    names: &mut Names,
    args: Option<&[u8]>,
    most: u32,
) -> Result<Command, Unread>
    requires few { length names.old ≤ most }
    ensures reads { Reads (λ command. (command_at names.new command, names.new)) result
        (stamp_in most names.old (words_after args.entry)) }
    ensures within { IfOk result (λ command. IsBelow (length names.new) (command_of command)) }
    ensures left { OnErr result (names.new ≡ names.old) }
    ensures kept { Extends names.old names.new }
{
    let Some((n, c)) = two(args) else {
        return Err(Unread::Fault(LineFault::WrongWords));
    };
    let known = known_name(names, n)?;
    let content = content_of(alloc, c)?;
    let number = number_of(names, known, n, most)?;
    Ok(Command::Stamp(number, content))
}

#[tactic(auto, using(crate::proofs::Added::extends_same), unfolding(crate::specs::Support::Reading::name_and_word_in))]
fn done_of(
    alloc: Global,
    names: &mut Names,
    args: Option<&[u8]>,
    most: u32,
) -> Result<Command, Unread>
    requires few { length names.old ≤ most }
    ensures reads { Reads (λ command. (command_at names.new command, names.new)) result
        (done_in most names.old (words_after args.entry)) }
    ensures within { IfOk result (λ command. IsBelow (length names.new) (command_of command)) }
    ensures left { OnErr result (names.new ≡ names.old) }
    ensures kept { Extends names.old names.new }
{
    let Some((n, s)) = two(args) else {
        return Err(Unread::Fault(LineFault::WrongWords));
    };
    let known = known_name(names, n)?;
    let stamp = boxed(alloc, file_stamp_or_none_of(s)?)?;
    let number = number_of(names, known, n, most)?;
    Ok(Command::Done(number, stamp))
}

/// Whether a form without words has none.
#[tactic(auto, unfolding(crate::specs::Support::Reading::no_words_in))]
pub(crate) fn check_no_words(args: Option<&[u8]>) -> Result<(), Unread>
    ensures command { (form : commands.Command Text) (names : List Text)
        → Reads (λ _. (form, names)) result (no_words_in form names (words_after args.entry)) }
    ensures reply { Reads (λ _. replies.Okay) result (okay_in (words_after args.entry)) }
{
    match args {
        None => Ok(()),
        Some(_) => Err(Unread::Fault(LineFault::WrongWords)),
    }
}

/// The command that a text is, by its first word.
#[tactic(auto, using(crate::proofs::Added::extends_same, crate::proofs::Left::same_left, crate::proofs::Left::same_left_on))]
pub(crate) fn form_of(
    alloc: Global,
    names: &mut Names,
    text: &[u8],
    most: u32,
) -> Result<Command, Unread>
    requires few { length names.old ≤ most }
    ensures reads { Reads (λ command. (command_at names.new command, names.new)) result
        (words_in most names.old (words_of text.now)) }
    ensures within { IfOk result (λ command. IsBelow (length names.new) (command_of command)) }
    ensures left { IfErr result (LeavesWords most names.old text.now names.new) }
    ensures kept { Extends names.old names.new }
{
    let Some((kind, args)) = cut_kind(text) else {
        return Err(Unread::Fault(LineFault::UnknownCommand));
    };
    match Form::of(kind) {
        Form::OneName(form) => Ok(form.command(one_name_of(names, args, most)?)),
        Form::Listing(form) => {
            let (target, others) = target_and_numbers_of(alloc, names, args, most)?;
            Ok(form.command(target, others))
        }
        Form::Bare(form) => {
            check_no_words(args)?;
            Ok(form.command())
        }
        Form::File => file_of(alloc, names, args, most),
        Form::Stamp => stamp_of(alloc, names, args, most),
        Form::Done => done_of(alloc, names, args, most),
    }
}
