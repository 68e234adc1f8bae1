ghost use Rattle.redodb_c.specs.Calls.{Answers};

use crate::contents::Opened;
use crate::status::{FAULT, MEMORY, OK, TOO_SMALL};
use redodb_conversation::{Replied, reply};
use redodb_live::AnswerFault;
use std::alloc::Global;

/// How long an answer is.
#[repr(C)]
#[derive(Clone, Copy, Debug)]
pub struct AnswerSizes {
    /// How many bytes the answer has, or would have if the buffer is too small.
    pub size: usize,
    /// How many of them, from the first on, are to be logged.
    pub logged: usize,
}

/// Answers a line into the buffer.
pub(crate) fn answer(
    alloc: Global,
    opened: &mut Opened,
    line: &[u8],
    room: &mut [u8],
    sizes: &mut AnswerSizes,
) -> u32
    ensures { Answers result opened.old opened.new line.now room.old room.new sizes.new }
{
    let Opened {
        live,
        output,
        logged,
    } = opened;
    output.clear();
    logged.clear();
    match reply(alloc, live, line, room.len(), output, logged) {
        Ok(replied) => {
            room[..output.len()].copy_from_slice(output);
            sizes.size = output.len();
            sizes.logged = logged.len();
            match replied {
                Replied::Done => OK,
                Replied::Fault => FAULT,
            }
        }
        Err(AnswerFault::TooLong(size)) => {
            sizes.size = size;
            sizes.logged = 0;
            TOO_SMALL
        }
        Err(AnswerFault::Unanswered(_)) => {
            sizes.size = 0;
            sizes.logged = 0;
            MEMORY
        }
    }
}
