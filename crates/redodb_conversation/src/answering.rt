ghost use Rattle.std.specs.Prelude.{◌≡◌, ◌≤◌, ◌++◌, [], length, take, vec_capacity, IfErr, OnOk, OnErr};
ghost use Rattle.redodb_model.specs.Names.{Text};
ghost use Rattle.redodb_history.specs.Histories.{ended};
ghost use Rattle.redodb_conversation.specs.Logs.{HasNoEnd};
ghost use Rattle.redodb_conversation.specs.Support.KeptLines.{IsReceivedOf, IsPrefixOf, kept_of};
ghost use Rattle.redodb_conversation.specs.Support.Places.{GoesOn, GoesOnInLine, BreaksOff, as_place};
ghost use Rattle.redodb_keeping.specs.Support.Sending.{IsFollowedBy, IsMemoryFor, IsSendCause};

use crate::asked::asked;
use crate::replying::reply;
use redodb_history::cut_at;
use redodb_keeping::{Refusal, ServeFault, Unsent, send, send_fault};
use redodb_live::{Live, Unanswered};
use redodb_log::Devices;
use std::alloc::Global;

/// This many bytes of a line are kept: one more than a session's number, a space and the longest command have.
pub(crate) const MOST_KEPT: usize = 8199;

/// The first bytes, this many at most.
fn first(bytes: &[u8], most: usize) -> &[u8]
    ensures { result.now ≡ take most bytes.now }
{
    if bytes.len() <= most {
        bytes
    } else {
        &bytes[..most]
    }
}

/// Appends bytes to what is kept of a line. Allocates nothing.
fn keep(prefix: &mut Vec<u8>, bytes: &[u8])
    requires room { MOST_KEPT ≤ vec_capacity prefix.old }
    requires few { length prefix.old.items ≤ MOST_KEPT }
    ensures kept { prefix.new.items ≡ kept_of (prefix.old.items ++ bytes.now) }
    ensures room { MOST_KEPT ≤ vec_capacity prefix.new }
    ensures few { length prefix.new.items ≤ MOST_KEPT }
{
    let room = MOST_KEPT - prefix.len();
    let _ = prefix.extend_from_slice(first(bytes, room));
}

/// The fault of a line for whose answer memory ran out, if it has a session.
fn without_memory(line: &[u8]) -> Refusal
    ensures cause { IsMemoryFor line.now result.number result.word.now }
    ensures short { length result.word.now ≤ 20 }
{
    match asked(line) {
        Some((session, _)) => Refusal::of(session, Unanswered::Memory),
        None => Refusal::no_session(),
    }
}

/// Answers a line, by its fault if it has one.
fn answer_line<D: Devices>(
    alloc: Global,
    live: &mut Live,
    line: &[u8],
    sync: bool,
    unsent: &mut Unsent,
    devices: &mut D,
) -> Result<(), ServeFault>
    ensures talk { OnOk result ((whole more : Text) → IsReceivedOf whole line.now → GoesOn sync
        (as_place live.old (D.history devices.old) unsent.old)
        (as_place live.new (D.history devices.new) unsent.new)
        (ended whole ++ more) more) }
    ensures broken { OnErr result ((whole more : Text) → IsReceivedOf whole line.now
        → BreaksOff sync
        (as_place live.old (D.history devices.old) unsent.old)
        (as_place live.new (D.history devices.new) unsent.new)
        (ended whole ++ more)) }
    ensures cause { IfErr result (IsSendCause (D.history devices.new)) }
    ensures more { IsFollowedBy (D.history devices.old) (D.history devices.new) }
{
    let Unsent { output, logged, .. } = unsent;
    match reply(alloc, live, line, usize::MAX, output, logged) {
        Ok(_) => Ok(()),
        // No answer is longer than that, so memory ran out.
        Err(_) => send_fault(without_memory(line), sync, unsent, devices),
    }
}

/// Answers the line that ends with this piece, and of which a prefix may be kept.
fn answer_piece<D: Devices>(
    alloc: Global,
    live: &mut Live,
    prefix: &mut Vec<u8>,
    piece: &[u8],
    sync: bool,
    unsent: &mut Unsent,
    devices: &mut D,
) -> Result<(), ServeFault>
    requires room { MOST_KEPT ≤ vec_capacity prefix.old }
    requires few { length prefix.old.items ≤ MOST_KEPT }
    requires free { HasNoEnd piece.now }
    ensures talk { OnOk result ((begun more : Text) → IsPrefixOf begun prefix.old.items
        → GoesOn sync
        (as_place live.old (D.history devices.old) unsent.old)
        (as_place live.new (D.history devices.new) unsent.new)
        (ended (begun ++ piece.now) ++ more) more) }
    ensures broken { OnErr result ((begun more : Text) → IsPrefixOf begun prefix.old.items
        → BreaksOff sync
        (as_place live.old (D.history devices.old) unsent.old)
        (as_place live.new (D.history devices.new) unsent.new)
        (ended (begun ++ piece.now) ++ more)) }
    ensures cause { IfErr result (IsSendCause (D.history devices.new)) }
    ensures more { IsFollowedBy (D.history devices.old) (D.history devices.new) }
    ensures room { MOST_KEPT ≤ vec_capacity prefix.new }
    ensures none { OnOk result (prefix.new.items ≡ []) }
{
    if prefix.is_empty() {
        return answer_line(alloc, live, piece, sync, unsent, devices);
    }
    keep(prefix, piece);
    answer_line(alloc, live, prefix, sync, unsent, devices)?;
    prefix.clear();
    Ok(())
}

/// Sends what waits, if it is much.
fn send_much<D: Devices>(
    live: &Live,
    sync: bool,
    unsent: &mut Unsent,
    devices: &mut D,
) -> Result<(), ServeFault>
    ensures talk { OnOk result ((more : Text) → GoesOn sync
        (as_place live.now (D.history devices.old) unsent.old)
        (as_place live.now (D.history devices.new) unsent.new)
        more more) }
    ensures broken { OnErr result ((more : Text) → BreaksOff sync
        (as_place live.now (D.history devices.old) unsent.old)
        (as_place live.now (D.history devices.new) unsent.new)
        more) }
    ensures cause { IfErr result (IsSendCause (D.history devices.new)) }
    ensures more { IsFollowedBy (D.history devices.old) (D.history devices.new) }
{
    if unsent.is_much() {
        send(sync, unsent, devices)?;
    }
    Ok(())
}

/// Answers each line that ends in the bytes, and sends all answers. Keeps a prefix of a line that doesn't end in them.
pub(crate) fn answer_lines<D: Devices>(
    alloc: Global,
    live: &mut Live,
    prefix: &mut Vec<u8>,
    bytes: &[u8],
    sync: bool,
    unsent: &mut Unsent,
    devices: &mut D,
) -> Result<(), ServeFault>
    requires room { MOST_KEPT ≤ vec_capacity prefix.old }
    requires few { length prefix.old.items ≤ MOST_KEPT }
    ensures talk { OnOk result ((begun : Text) → IsPrefixOf begun prefix.old.items
        → GoesOnInLine sync
        (as_place live.old (D.history devices.old) unsent.old)
        (as_place live.new (D.history devices.new) unsent.new)
        (begun ++ bytes.now) prefix.new.items []) }
    ensures broken { OnErr result ((begun : Text) → IsPrefixOf begun prefix.old.items
        → BreaksOff sync
        (as_place live.old (D.history devices.old) unsent.old)
        (as_place live.new (D.history devices.new) unsent.new)
        (begun ++ bytes.now)) }
    ensures cause { IfErr result (IsSendCause (D.history devices.new)) }
    ensures more { IsFollowedBy (D.history devices.old) (D.history devices.new) }
    ensures room { MOST_KEPT ≤ vec_capacity prefix.new }
    ensures few { OnOk result (length prefix.new.items ≤ MOST_KEPT) }
    ensures none_output { OnOk result (unsent.new.output.items ≡ []) }
    ensures none_logged { OnOk result (unsent.new.logged.items ≡ []) }
{
    let mut rest = bytes;
    'lines: while let Some((piece, after)) = cut_at(rest, b'\n') {
        answer_piece(alloc, live, prefix, piece, sync, unsent, devices)?;
        send_much(live, sync, unsent, devices)?;
        rest = after;
    }
    keep(prefix, rest);
    send(sync, unsent, devices)
}
