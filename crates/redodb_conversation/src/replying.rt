//! The answer to one line, in this many bytes at most.
ghost use Rattle.std.specs.Prelude.{◌≡◌, ◌≤◌, ◌+◌, ◌++◌, length, decimal, IfOk, IfErr, OnOk, OnErr};
ghost use Rattle.redodb_model.specs.Names.{Text};
ghost use Rattle.redodb_live.specs.Support.AnswerForms.{AnswersInForm};
ghost use Rattle.redodb_live.specs.Support.LiveState.{IsAsKnown, state_in};
ghost use Rattle.redodb_live.specs.Support.AnswerFaults.{IsUnwrittenFor};
ghost use Rattle.redodb_live.specs.Support.Appended.{AppendsNothing};
ghost use Rattle.redodb_keeping.specs.Rounds.{Asks, fault_text_of};
ghost use Rattle.redodb_keeping.specs.Support.Steps.{known_of};
ghost use Rattle.redodb_conversation.specs.Support.Replies.{AppendsRound, IsInquiryFaultFor, IsPutOffFor, IsUndoneFor};

use crate::asked::asked;
use crate::request::{Request, read_request};
use redodb_keeping::{Refusal, put_fault};
use redodb_live::{AnswerFault, Live, Unanswered};
use redodb_text::Inquiry;
use std::alloc::Global;

/// How a line was answered.
#[derive(Clone, Copy, Debug, PartialEq, Eq)]
pub enum Replied {
    /// It was done.
    Done,
    /// By its fault, which changes nothing.
    Fault,
}

/// Answers a session's question about a name, in at most `most` bytes.
fn ask_within(
    alloc: Global,
    live: &mut Live,
    session: u16,
    inquiry: Inquiry,
    name: &[u8],
    most: usize,
    output: &mut Vec<u8>,
) -> Result<(), AnswerFault>
    ensures answered { OnOk result ((line : Text)
        × AnswersInForm (state_in live.old) session inquiry name.now line
        × (output.new.items ≡ output.old.items ++ line)) }
    ensures fits { OnOk result
        (length output.new.items ≤ length output.old.items + most) }
    ensures cause { IfErr result
        (IsInquiryFaultFor (state_in live.old) session inquiry name.now most) }
    ensures known { IsAsKnown live.old live.new }
    ensures unwritten { OnErr result (output.new.items ≡ output.old.items) }
{
    let before = output.len();
    live.ask(alloc, session, inquiry, name, output)?;
    let size = output.len() - before;
    if size > most {
        output.truncate(before);
        return Err(AnswerFault::TooLong(size));
    }
    Ok(())
}

/// Does what a session asks, if the answer has at most `most` bytes.
fn respond_within(
    alloc: Global,
    live: &mut Live,
    session: u16,
    text: &[u8],
    most: usize,
    output: &mut Vec<u8>,
    logged: &mut Vec<u8>,
) -> Result<(), AnswerFault>
    ensures answered { OnOk result ((received : Text) → Asks received session text.now
        → AppendsRound Replied.Done (known_of live.old) (known_of live.new) received
        output.old.items output.new.items logged.old.items logged.new.items) }
    ensures fits { OnOk result
        (length output.new.items ≤ length output.old.items + most) }
    ensures cause { IfErr result (IsUndoneFor live.old session text.now most) }
    ensures known { OnErr result (IsAsKnown live.old live.new) }
    ensures unwritten { OnErr result
        (AppendsNothing output.old.items output.new.items logged.old.items logged.new.items) }
{
    match read_request(text) {
        Ok(Request::End) => live.end_within(alloc, session, most, output, logged),
        Ok(Request::Names) => live.list_names(alloc, session, most, output),
        Ok(Request::Inquiry(inquiry, name)) => {
            ask_within(alloc, live, session, inquiry, name, most, output)
        }
        Ok(Request::Command) => live.answer_within(alloc, session, text, most, output, logged),
        Err(fault) => Err(AnswerFault::Unanswered(Unanswered::Fault(fault))),
    }
}

/// Answers a fault in at most `most` bytes.
fn refuse_within(fault: Refusal, most: usize, output: &mut Vec<u8>) -> Result<Replied, AnswerFault>
    requires { length fault.word.now ≤ 20 }
    ensures answered { OnOk result (output.new.items
        ≡ output.old.items ++ fault_text_of (decimal fault.number) fault.word.now) }
    ensures fits { OnOk result
        (length output.new.items ≤ length output.old.items + most) }
    ensures fault { IfOk result (λ replied. replied ≡ Replied.Fault) }
    ensures cause { IfErr result
        (IsUnwrittenFor (fault_text_of (decimal fault.number) fault.word.now) most) }
    ensures unwritten { OnErr result (output.new.items ≡ output.old.items) }
{
    put_fault(fault, most, output)?;
    Ok(Replied::Fault)
}

/// Answers a line, without its LF, as a conversation does, if the answer has at most `most` bytes. If it has more,
/// nothing is done, and the caller can give the same line again with a greater `most`.
pub fn reply(
    alloc: Global,
    live: &mut Live,
    line: &[u8],
    most: usize,
    output: &mut Vec<u8>,
    logged: &mut Vec<u8>,
) -> Result<Replied, AnswerFault>
    ensures answered { IfOk result (λ replied. AppendsRound replied
        (known_of live.old) (known_of live.new) line.now
        output.old.items output.new.items logged.old.items logged.new.items) }
    ensures fits { OnOk result
        (length output.new.items ≤ length output.old.items + most) }
    ensures cause { IfErr result (IsPutOffFor (known_of live.old) line.now most) }
    ensures known { OnErr result (IsAsKnown live.old live.new) }
    ensures unwritten { OnErr result
        (AppendsNothing output.old.items output.new.items logged.old.items logged.new.items) }
{
    let Some((session, text)) = asked(line) else {
        return refuse_within(Refusal::no_session(), most, output);
    };
    match respond_within(alloc, live, session, text, most, output, logged) {
        Ok(()) => Ok(Replied::Done),
        Err(AnswerFault::Unanswered(why)) => refuse_within(Refusal::of(session, why), most, output),
        Err(AnswerFault::TooLong(size)) => Err(AnswerFault::TooLong(size)),
    }
}
