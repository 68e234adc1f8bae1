ghost use Rattle.std.specs.Prelude.{◌≡◌, ◌⊎◌, ◌≤◌, List, length, IfOk, IsOkAnd};
ghost use Rattle.redodb_names.specs.Support.Names.{Extends};
ghost use Rattle.redodb_model.specs.Names.{Text};
ghost use Rattle.redodb_model.specs.Reply.{Reply as ReplyOf};
ghost use Rattle.redodb_model.specs.Renaming.{IsReplyBelow};
ghost use Rattle.redodb_commands.specs.Meaning.{reply_of, reply_at};
ghost use Rattle.redodb_text.specs.Support.Reading.{Reads};
ghost use Rattle.redodb_text.specs.Replies.{IsReplyText, AddsReplyNames};
ghost use Rattle.redodb_text.specs.Support.ReplyReading.{reply_in};

use crate::fault::{LineFault, ReplyFault, Unread};
use crate::forms::check_no_words;
use crate::reply_kind::{ReplyKind, cut_reply_kind};
use crate::reply_words::{digest_of_word, grant_of, listed_of, refusal_of_words};
use redodb_commands::{Digest, Reply};
use redodb_names::Names;
use std::alloc::Global;

/// The reply of a text by its first word.
#[tactic(auto, using(crate::proofs::Added::extends_same, crate::proofs::FirstWords::some_after, crate::proofs::ReplyNames::none_added), unfolding(crate::specs::Support::ReplyReading::reply_in, crate::specs::Support::ReplyReading::reply_args_in))]
fn reply_of_words(alloc: Global, text: &[u8], names: &mut Names, most: u32) -> Result<Reply, Unread>
    requires { length names.old ≤ most }
    ensures reads { Reads (λ reply. (reply_at names.new reply, names.new)) result
        (reply_in most names.old text.now) }
    ensures within { IfOk result (λ reply. IsReplyBelow (length names.new) (reply_of reply)) }
    ensures kept { Extends names.old names.new }
{
    // Most replies are this one.
    if text == b"ok".as_slice() {
        return Ok(Reply::Okay);
    }
    let Some((kind, args)) = cut_reply_kind(text) else {
        return Err(Unread::Fault(LineFault::WrongWords));
    };
    match kind {
        ReplyKind::Okay => {
            check_no_words(args)?;
            Ok(Reply::Okay)
        }
        ReplyKind::Granted => Ok(Reply::Granted(grant_of(args)?)),
        ReplyKind::Busy => Ok(Reply::Busy(grant_of(args)?)),
        ReplyKind::Stale => match args {
            Some(_) => Ok(Reply::Stale(listed_of(alloc, names, args, most)?)),
            None => Err(Unread::Fault(LineFault::WrongWords)),
        },
        ReplyKind::Stamped => Ok(Reply::Stamped(Digest::new(digest_of_word(args)?))),
        ReplyKind::Ood => Ok(Reply::Ood(listed_of(alloc, names, args, most)?)),
        ReplyKind::Targets => Ok(Reply::Targets(listed_of(alloc, names, args, most)?)),
        ReplyKind::Sources => Ok(Reply::Sources(listed_of(alloc, names, args, most)?)),
        ReplyKind::Refused => Ok(Reply::Refused(refusal_of_words(names, args, most)?)),
    }
}

/// Reads the reply of a text, without LF. After a fault the old names are a prefix of the names.
pub fn read_reply(
    alloc: Global,
    text: &[u8],
    names: &mut Names,
    most: u32,
) -> Result<Reply, ReplyFault>
    requires { length names.old ≤ most }
    // What is read is a reply's text, and its names are added.
    ensures read { IfOk result (λ reply. IsReplyText text.now (reply_at names.new reply)
        × AddsReplyNames most names.old (reply_at names.new reply) names.new) }
    // A reply's text whose names fit is read, unless memory runs out.
    ensures only { (reply : ReplyOf Text) (after : List Text) → IsReplyText text.now reply
        → AddsReplyNames most names.old reply after
        → (result ≡ Err ReplyFault.Memory)
        ⊎ IsOkAnd result (λ read. (reply_at names.new read ≡ reply) × (names.new ≡ after)) }
    ensures within { IfOk result (λ reply. IsReplyBelow (length names.new) (reply_of reply)) }
    ensures kept { Extends names.old names.new }
{
    names.are_names();
    match reply_of_words(alloc, text, names, most) {
        Ok(reply) => Ok(reply),
        Err(Unread::Memory) => Err(ReplyFault::Memory),
        Err(Unread::Fault(_)) => Err(ReplyFault::BadReply),
    }
}
