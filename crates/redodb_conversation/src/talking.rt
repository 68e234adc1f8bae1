ghost use Rattle.std.specs.Prelude.{◌≡◌, ◌↔◌, ◌<◌, ◌≤◌, [], length, vec_capacity, IsTrue, OnOk, IfOk, IfErr, IsErrAnd};
ghost use Rattle.std.specs.Io.KnownBytes.{IsAtEnd};
ghost use Rattle.redodb_io.specs.Devices.{known_in};
ghost use Rattle.redodb_io.specs.Watched.{has_failed};
ghost use Rattle.redodb_keeping.specs.Support.Steps.{known_of};
ghost use Rattle.redodb_keeping.specs.Support.Sending.{IsFollowedBy};
ghost use Rattle.redodb_conversation.specs.Support.Talking.{AreEmpty, HasAnsweredAll, IsTalkCause, IsTalkFault, TalksFrom};

use crate::answering::{MOST_KEPT, answer_lines};
use crate::growth::Growth;
use crate::midst::compact;
use redodb_io::Watched;
use redodb_keeping::{ServeFault, Unsent};
use redodb_live::Live;
use redodb_log::Devices;
use std::alloc::{AllocError, Global};
use std::io::Read;

/// This many bytes are read at once.
const READ_BYTES: usize = 65_536;

/// Memory for what is read, and for a prefix of a line that goes on in the next read.
#[derive(Drop)]
pub(crate) struct Buffers {
    chunk: Vec<u8>,
    prefix: Vec<u8>,
}

impl Buffers {
    pub fn new(alloc: Global) -> Result<Buffers, AllocError>
        ensures { IfOk result AreEmpty }
    {
        Ok(Buffers {
            chunk: vec![in alloc; 0; READ_BYTES]?,
            prefix: Vec::with_capacity(alloc, MOST_KEPT)?,
        })
    }
}

/// Answers line after line, until the input ends. Answers are sent before more is read: lines that came together share
/// one write. Then a dump may take the place of the log. A last line without LF is not answered.
pub(crate) fn talk<R: Read, D: Devices>(
    alloc: Global,
    live: &mut Live,
    sync: bool,
    mut growth: Growth,
    buffers: Buffers,
    input: &mut Watched<R>,
    devices: &mut D,
) -> Result<(), ServeFault>
    requires { AreEmpty buffers }
    ensures talk { OnOk result (TalksFrom sync (known_of live.old)
        (known_in R.remaining input.old) (D.history devices.old) (λ start. HasAnsweredAll start
        (known_of live.new) (known_in R.remaining input.new) (D.history devices.new))) }
    ensures end { OnOk result (IsAtEnd (known_in R.remaining input.new)) }
    ensures cause { IfErr result (λ fault. TalksFrom sync (known_of live.old)
        (known_in R.remaining input.old) (D.history devices.old) (λ start. IsTalkCause start
        (known_of live.new) (known_in R.remaining input.new) (D.history devices.new) fault)) }
    ensures device { IfErr result (IsTalkFault (D.history devices.new)) }
    ensures more { IsFollowedBy (D.history devices.old) (D.history devices.new) }
    ensures read { IsErrAnd result (λ fault. fault ≡ ServeFault.Read)
        ↔ IsTrue (has_failed input.old input.new) }
{
    let Buffers {
        mut chunk,
        mut prefix,
    } = buffers;
    let mut unsent = Unsent::new(alloc);
    'reads: for _ in 0..u64::MAX {
        let Some(count) = input.read(&mut chunk) else {
            return Err(ServeFault::Read);
        };
        if count == 0 {
            return Ok(());
        }
        answer_lines(
            alloc,
            live,
            &mut prefix,
            &chunk[..count],
            sync,
            &mut unsent,
            devices,
        )?;
        growth.add(unsent.appended);
        unsent.appended = 0;
        compact(alloc, live, &mut growth, devices)?;
    }
    Err(ServeFault::TooLong)
}
