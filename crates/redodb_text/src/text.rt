ghost use Rattle.std.specs.Prelude.{◌≡◌, ◌<◌, ◌++◌, map, length, decimal, option_map, IfOk, OnOk};
ghost use Rattle.std.specs.List.{flat_map};
ghost use Rattle.hex.specs.Hex.{encode_lower};
ghost use Rattle.redodb_model.specs.Names.{text_at};
ghost use Rattle.redodb_model.specs.Reply.{Refused};
ghost use Rattle.redodb_model.specs.Renaming.{IsBelow, IsReplyBelow, AllBelow, named_refusal};
ghost use Rattle.redodb_commands.specs.Meaning.{command_of, reply_of, refusal_of, reply_at};
ghost use Rattle.redodb_commands.specs.Support.Meaning.{command_at, item_at};
ghost use Rattle.redodb_text.specs.Texts.{after_space, stamp_word, digest_word, content_word, refusal_words, command_text_of, item_text_of, reply_text_of};

use crate::keywords::keyword;
use itoa::Buffer;
use redodb_commands::{Command, FileStamp, Item, Kind, Refusal, Reply, unboxed};
use redodb_names::Names;
use std::alloc::{AllocError, Global};

/// Writes a word with the space before it.
pub fn put_word(out: &mut Vec<u8>, word: &[u8]) -> Result<(), AllocError>
    ensures { OnOk result (out.new.items ≡ out.old.items ++ after_space word.now) }
{
    out.push(b' ')?;
    out.extend_from_slice(word)?;
    Ok(())
}

/// Writes the names of these numbers.
pub fn put_names(out: &mut Vec<u8>, names: &Names, numbers: &[u32]) -> Result<(), AllocError>
    requires { AllBelow (length names.now) numbers.now }
    ensures { OnOk result (out.new.items
        ≡ out.old.items ++ flat_map after_space (map (text_at names.now) numbers.now)) }
{
    for number in numbers {
        put_word(out, names.text(*number))?;
    }
    Ok(())
}

/// Writes a stamp, or `-` for none.
pub fn put_stamp_or_none(out: &mut Vec<u8>, stamp: Option<FileStamp>) -> Result<(), AllocError>
    ensures { OnOk result (out.new.items ≡ out.old.items ++ after_space (stamp_word stamp)) }
{
    match stamp {
        None => put_word(out, b"-"),
        Some(stamp) => put_word(out, stamp.bytes()),
    }
}

/// Writes bytes as hexadecimal digits in lower case.
fn put_hex(alloc: Global, out: &mut Vec<u8>, bytes: &[u8]) -> Result<(), AllocError>
    ensures { OnOk result (out.new.items ≡ out.old.items ++ after_space (encode_lower bytes.now)) }
{
    put_word(out, hex::encode(alloc, bytes)?.as_bytes())
}

fn put_digest(out: &mut Vec<u8>, digest: &[u8; 20]) -> Result<(), AllocError>
    ensures { OnOk result (out.new.items ≡ out.old.items ++ after_space (encode_lower digest.now)) }
{
    let mut digits = [0; 40];
    let _fits = hex::encode_to_slice(digest, &mut digits);
    put_word(out, &digits)
}

/// Writes a digest as hexadecimal digits in lower case, or `-` for none.
pub fn put_digest_or_none(out: &mut Vec<u8>, digest: Option<&[u8; 20]>) -> Result<(), AllocError>
    ensures { OnOk result (out.new.items ≡ out.old.items
        ++ after_space (digest_word (option_map (λ bytes. bytes.now) digest.entry))) }
{
    match digest {
        None => put_word(out, b"-"),
        Some(digest) => put_digest(out, digest),
    }
}

/// Writes content, or `-` for none.
fn put_content(alloc: Global, out: &mut Vec<u8>, content: &[u8]) -> Result<(), AllocError>
    ensures { OnOk result
        (out.new.items ≡ out.old.items ++ after_space (content_word content.now)) }
{
    match content {
        [] => put_word(out, b"-"),
        _ => put_hex(alloc, out, content),
    }
}

/// Writes the text of a command: its words with single spaces, without LF.
pub fn put_command(
    alloc: Global,
    out: &mut Vec<u8>,
    command: &Command,
    names: &Names,
) -> Result<(), AllocError>
    requires { IsBelow (length names.now) (command_of command.now) }
    ensures { OnOk result
        (out.new.items ≡ out.old.items ++ command_text_of (command_at names.now command.now)) }
{
    out.extend_from_slice(keyword(command.kind()))?;
    match command {
        Command::File(n, stamp) => {
            put_word(out, names.text(*n))?;
            put_word(out, stamp.bytes())
        }
        Command::Gone(n)
        | Command::Lock(n)
        | Command::Unlock(n)
        | Command::Start(n)
        | Command::Always(n)
        | Command::Failed(n) => put_word(out, names.text(*n)),
        Command::IfChange(t, others) | Command::IfCreate(t, others) => {
            put_word(out, names.text(*t))?;
            put_names(out, names, others)
        }
        Command::Stamp(t, content) => {
            put_word(out, names.text(*t))?;
            put_content(alloc, out, content)
        }
        Command::Done(t, stamp) => {
            put_word(out, names.text(*t))?;
            put_stamp_or_none(out, unboxed(stamp))
        }
        Command::Ood | Command::Targets | Command::Sources => Ok(()),
    }
}

/// Writes the text of a line of a script: that of its command, with `? ` before it if it is
/// guarded.
pub fn put_item(
    alloc: Global,
    out: &mut Vec<u8>,
    item: &Item,
    names: &Names,
) -> Result<(), AllocError>
    requires { IsBelow (length names.now) (command_of item.now.command) }
    ensures { OnOk result
        (out.new.items ≡ out.old.items ++ item_text_of (item_at names.now item.now)) }
{
    if item.guarded {
        out.extend_from_slice(b"? ")?;
    }
    put_command(alloc, out, &item.command, names)
}

/// The text of a line of a script.
pub fn line_text(alloc: Global, item: &Item, names: &Names) -> Result<Vec<u8>, AllocError>
    requires { IsBelow (length names.now) (command_of item.now.command) }
    ensures { IfOk result (λ text. text.items ≡ item_text_of (item_at names.now item.now)) }
{
    let mut out = Vec::new(alloc);
    put_item(alloc, &mut out, item, names)?;
    Ok(out)
}

/// Writes a word and a number.
fn put_numbered(out: &mut Vec<u8>, word: &[u8], number: u32) -> Result<(), AllocError>
    ensures { OnOk result
        (out.new.items ≡ out.old.items ++ word.now ++ after_space (decimal number)) }
{
    out.extend_from_slice(word)?;
    put_word(out, Buffer::new().format(number).as_bytes())
}

/// Writes a word, and the names of these numbers after it.
fn put_list(
    out: &mut Vec<u8>,
    word: &[u8],
    names: &Names,
    numbers: &[u32],
) -> Result<(), AllocError>
    requires { AllBelow (length names.now) numbers.now }
    ensures { OnOk result (out.new.items ≡ out.old.items ++ word.now
        ++ flat_map after_space (map (text_at names.now) numbers.now)) }
{
    out.extend_from_slice(word)?;
    put_names(out, names, numbers)
}

/// Writes the words of a refusal.
fn put_refusal(out: &mut Vec<u8>, refusal: Refusal, names: &Names) -> Result<(), AllocError>
    requires { IsReplyBelow (length names.now) (Refused (refusal_of refusal)) }
    ensures { OnOk result (out.new.items ≡ out.old.items ++ flat_map after_space
        (refusal_words (named_refusal (text_at names.now) (refusal_of refusal)))) }
{
    match refusal {
        Refusal::NotLocked => put_word(out, b"not-locked"),
        Refusal::Building => put_word(out, b"building"),
        Refusal::NotBuilding => put_word(out, b"not-building"),
        Refusal::Itself => put_word(out, b"self"),
        Refusal::Exists(n) => {
            put_word(out, b"exists")?;
            put_word(out, names.text(n))
        }
    }
}

/// Writes the text of a reply, without LF.
pub fn put_reply(
    alloc: Global,
    out: &mut Vec<u8>,
    reply: &Reply,
    names: &Names,
) -> Result<(), AllocError>
    requires { IsReplyBelow (length names.now) (reply_of reply.now) }
    ensures { OnOk result
        (out.new.items ≡ out.old.items ++ reply_text_of (reply_at names.now reply.now)) }
{
    match reply {
        Reply::Okay => {
            out.extend_from_slice(b"ok")?;
            Ok(())
        }
        Reply::Granted(grant) => put_numbered(out, b"granted", *grant),
        Reply::Busy(grant) => put_numbered(out, b"busy", *grant),
        Reply::Stale(stale) => put_list(out, b"stale", names, stale),
        Reply::Stamped(digest) => {
            out.extend_from_slice(b"stamped")?;
            put_hex(alloc, out, &digest.bytes)
        }
        Reply::Ood(ood) => put_list(out, keyword(Kind::Ood), names, ood),
        Reply::Targets(targets) => put_list(out, keyword(Kind::Targets), names, targets),
        Reply::Sources(sources) => put_list(out, keyword(Kind::Sources), names, sources),
        Reply::Refused(refusal) => {
            out.extend_from_slice(b"refused")?;
            put_refusal(out, *refusal, names)
        }
    }
}
