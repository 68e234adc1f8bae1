//! The answers about a name: words, each with the space before it.
ghost use Rattle.std.specs.Prelude.{◌≡◌, ◌+◌, ◌<◌, ◌++◌, length, map, decimal, option_map, true, OnOk, IfSome};
ghost use Rattle.std.specs.List.{flat_map};
ghost use Rattle.redodb_model.specs.Names.{text_at};
ghost use Rattle.redodb_model.specs.Support.Deps.{AreDepsBelow};
ghost use Rattle.redodb_model.specs.Support.Users.{AreUsersBelow};
ghost use Rattle.redodb_model.specs.Why.{end_of};
ghost use Rattle.redodb_model.specs.Support.Why.{IsReasonBelow, IsWhyBelow, named_reason};
ghost use Rattle.redodb_model.specs.Renaming.{AllBelow};
ghost use Rattle.redodb_database.specs.Meaning.{deps_of, reason_of, users_of, why_of};
ghost use Rattle.redodb_records.specs.Meaning.{target_state_of};
ghost use Rattle.redodb_commands.specs.Stamp.{is_stamp};
ghost use Rattle.redodb_text.specs.Texts.{after_space};
ghost use Rattle.redodb_text.specs.Inquiries.{inquiry_word};
ghost use Rattle.redodb_live.specs.Answers.{Standing, counted, deps_words, flag_word, holder_word, reason_name, reason_word, stage_words, state_words, users_words, why_words};
ghost use Rattle.redodb_live.specs.Support.AnswerForms.{HasAnswerForm, HasStateForm};
ghost use Rattle.redodb_live.specs.Support.Asked.{deps_at, users_at, why_at};

use crate::known::stage_word;
use redodb_commands::FileStamp;
use redodb_database::{Deps, Reason, Users, Why};
use redodb_history::put_count;
use redodb_names::Names;
use redodb_records::State;
use redodb_text::{Inquiry, put_names, put_stamp_or_none, put_word};
use std::alloc::AllocError;

/// The word of the question.
pub(crate) fn inquiry_word(inquiry: Inquiry) -> &'static [u8]
    ensures { result.now ≡ inquiry_word inquiry }
{
    match inquiry {
        Inquiry::Why => b"why",
        Inquiry::Deps => b"deps",
        Inquiry::Users => b"users",
        Inquiry::State => b"state",
    }
}

fn reason_word(reason: Reason) -> &'static [u8]
    ensures { result.now ≡ reason_word (reason_of reason) }
{
    match reason {
        Reason::Building => b"building",
        Reason::Failed => b"failed",
        Reason::Edited => b"edited",
        Reason::Always => b"always",
        Reason::Appeared(_) => b"appeared",
        Reason::Changed(_) => b"changed",
    }
}

/// The name in the answer with the reason of a target.
fn reason_name<'a>(names: &'a Names, t: &'a [u8], reason: Reason) -> &'a [u8]
    requires { IsReasonBelow (length names.now) (reason_of reason) }
    ensures { result.now ≡ reason_name t.now (named_reason (text_at names.now) (reason_of reason)) }
{
    match reason {
        Reason::Appeared(n) | Reason::Changed(n) => names.text(n),
        _ => t,
    }
}

/// The last name of a chain.
fn end_name<'a>(names: &'a Names, t: &'a [u8], chain: &[u32]) -> &'a [u8]
    requires { AllBelow (length names.now) chain.now }
    ensures { result.now ≡ end_of t.now (map (text_at names.now) chain.now) }
{
    match chain.last() {
        Some(n) => names.text(*n),
        None => t,
    }
}

/// Writes why `t` is out of date, or that it isn't.
pub(crate) fn put_why(
    out: &mut Vec<u8>,
    names: &Names,
    t: &[u8],
    found: &Option<Why>,
) -> Result<(), AllocError>
    requires { IfSome found.now (λ why. IsWhyBelow (length names.now) (why_of why)) }
    ensures { OnOk result (out.new.items ≡ out.old.items ++ flat_map after_space
        (why_words t.now (option_map (why_at names.now) found.now))) }
{
    match found {
        None => put_word(out, b"clean"),
        Some(why) => {
            let last = end_name(names, t, &why.names);
            put_word(out, reason_word(why.reason))?;
            put_word(out, reason_name(names, last, why.reason))?;
            put_word(out, t)?;
            put_names(out, names, &why.names)
        }
    }
}

/// Writes how many names there are, and the names.
fn put_counted(out: &mut Vec<u8>, names: &Names, numbers: &[u32]) -> Result<(), AllocError>
    requires { AllBelow (length names.now) numbers.now }
    ensures { OnOk result (out.new.items ≡ out.old.items
        ++ flat_map after_space (counted (map (text_at names.now) numbers.now))) }
{
    put_count(out, numbers.len())?;
    put_names(out, names, numbers)
}

/// The word that says whether it is so.
pub fn flag_word(flag: bool) -> &'static [u8]
    ensures { result.now ≡ flag_word flag }
{
    if flag { b"1" } else { b"0" }
}

/// Writes on which names a target has rows.
pub(crate) fn put_deps(out: &mut Vec<u8>, names: &Names, deps: &Deps) -> Result<(), AllocError>
    requires { AreDepsBelow (length names.now) (deps_of deps.now) }
    ensures { OnOk result (out.new.items ≡ out.old.items
        ++ flat_map after_space (deps_words (deps_at names.now deps.now))) }
{
    put_word(out, b"change")?;
    put_counted(out, names, &deps.change)?;
    put_word(out, b"created")?;
    put_counted(out, names, &deps.created)?;
    put_word(out, b"always")?;
    put_word(out, flag_word(deps.always))
}

/// Writes which targets have rows on a name.
pub(crate) fn put_users(out: &mut Vec<u8>, names: &Names, users: &Users) -> Result<(), AllocError>
    requires { AreUsersBelow (length names.now) (users_of users.now) }
    ensures { OnOk result (out.new.items ≡ out.old.items
        ++ flat_map after_space (users_words (users_at names.now users.now))) }
{
    put_word(out, b"change")?;
    put_counted(out, names, &users.change)?;
    put_word(out, b"created")?;
    put_counted(out, names, &users.created)
}

/// Writes the number of a session, counted from 1.
fn put_session(out: &mut Vec<u8>, session: u16) -> Result<(), AllocError>
    ensures { OnOk result (out.new.items ≡ out.old.items ++ after_space (decimal (session + 1))) }
{
    put_count(out, session as usize + 1)
}

fn put_stage(out: &mut Vec<u8>, state: State) -> Result<(), AllocError>
    ensures words { OnOk result (out.new.items
        ≡ out.old.items ++ flat_map after_space (stage_words (target_state_of state))) }
    ensures form { HasStateForm (target_state_of state) }
{
    put_word(out, stage_word(state))?;
    match state {
        State::Building(session) => put_session(out, session),
        _ => Ok(()),
    }
}

/// Writes the number of a session, counted from 1, or `-` for none.
pub fn put_holder(out: &mut Vec<u8>, holder: Option<u16>) -> Result<(), AllocError>
    ensures word { OnOk result (out.new.items
        ≡ out.old.items ++ after_space (holder_word holder)) }
    ensures form { IfSome holder (λ session. session < 65536) }
{
    match holder {
        None => put_word(out, b"-"),
        Some(session) => put_session(out, session),
    }
}

/// The stamp of a file is one.
fn is_stamped(file: &Option<FileStamp>)
    ensures { IfSome file.now (λ stamp. is_stamp stamp ≡ true) }
{
    if let Some(stamp) = file {
        let _ = stamp.bytes();
    }
}

/// Writes the state of a name, who holds its lock, and the stamp of its file.
pub(crate) fn put_state(
    out: &mut Vec<u8>,
    state: State,
    holder: Option<u16>,
    file: Option<FileStamp>,
) -> Result<(), AllocError>
    ensures words { OnOk result (out.new.items ≡ out.old.items
        ++ flat_map after_space (state_words (target_state_of state) holder file)) }
    ensures form { OnOk result (HasAnswerForm (Standing (target_state_of state) holder file)) }
{
    is_stamped(&file);
    put_stage(out, state)?;
    put_word(out, b"lock")?;
    put_holder(out, holder)?;
    put_word(out, b"file")?;
    put_stamp_or_none(out, file)
}
