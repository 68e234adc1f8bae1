ghost use Rattle.std.specs.Prelude.{MatchResult};
ghost use Rattle.redodb_conversation.specs.Support.Requests.{Requests, RequestsBadly};

use redodb_text::{Inquiry, LineFault, read_inquiry};

/// What a session asks.
#[derive(Drop)]
pub(crate) enum Request<'a> {
    /// To end.
    End,
    /// What is known of all names.
    Names,
    /// A question about a name.
    Inquiry(Inquiry, &'a [u8]),
    /// Anything else has to be a command.
    Command,
}

/// What the text asks, or the fault of its question.
pub(crate) fn read_request(text: &[u8]) -> Result<Request<'_>, LineFault>
    ensures { MatchResult result (Requests text.now) (RequestsBadly text.now) }
{
    if text == b"end".as_slice() {
        return Ok(Request::End);
    }
    if text == b"names".as_slice() {
        return Ok(Request::Names);
    }
    match read_inquiry(text) {
        Some(Ok((inquiry, name))) => Ok(Request::Inquiry(inquiry, name)),
        Some(Err(fault)) => Err(fault),
        None => Ok(Request::Command),
    }
}
