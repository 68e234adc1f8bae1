//! How a log is opened: its lines are done again, and the sessions that it left end.
ghost use Rattle.std.specs.Prelude.{◌≡◌, ◌≤◌, Bool, List, [], ◌∷◌, ◌++◌, codes, decimal, length, IfOk, IfErr, OnOk, OnErr};
ghost use Rattle.redodb_model.specs.Names.{Text};
ghost use Rattle.redodb_history.specs.Histories.{ended};
ghost use Rattle.redodb_log.specs.Logs.{HasPast, Past};
ghost use Rattle.redodb_log.specs.Operations.{Read, held_after};
ghost use Rattle.redodb_keeping.specs.Support.Opening.{IsOpenCause};
ghost use Rattle.redodb_keeping.specs.Support.Sending.{IsSendCause};
ghost use Rattle.redodb_conversation.specs.Support.Opening.{IsOpenedFrom, BeginsAt, BeginsInPart};

use crate::dumping::dumped;
use crate::growth::Growth;
use crate::keeping::Keeping;
use redodb_history::put_number;
use redodb_keeping::{Kept, Rest, ServeFault, cut_rest, end_all, go_on, restore_or_salvage};
use redodb_live::Live;
use redodb_log::{Devices, LOG_HEADER, Restored};
use std::alloc::{AllocError, Global};

/// A database whose log can go on.
#[derive(Drop)]
pub(crate) struct Opened {
    pub live: Live,
    /// How many lines of the log are kept, and their bytes with the header.
    pub lines: usize,
    pub bytes: usize,
    pub rest: Rest,
    /// What comes to the log before a line is read: a header if it has none, and the ends of the sessions that it left.
    pub logged: Vec<u8>,
    /// What takes the place of the log, if it is time for that: a dump of what is known then.
    pub dump: Option<Vec<u8>>,
    /// How far the log has grown, if no dump takes its place.
    pub growth: Growth,
    /// What comes to the output before a line is read.
    pub greeting: Vec<u8>,
}

/// The greeting: which version it is, and how many lines were restored.
fn greeting(alloc: Global, version: &str, lines: usize) -> Result<Vec<u8>, AllocError>
    ensures { IfOk result (λ text. text.items ≡ ended
        (codes "redodb-live " ++ version.now ++ codes " restored " ++ decimal lines)) }
{
    let mut greeting = Vec::from_slice(alloc, b"redodb-live ")?;
    greeting.extend_from_slice(version.as_bytes())?;
    greeting.extend_from_slice(b" restored ")?;
    put_number(&mut greeting, lines)?;
    greeting.push(b'\n')?;
    Ok(greeting)
}

/// Opens a log that has these bytes; changes nothing outside of memory.
pub(crate) fn open(
    alloc: Global,
    version: &str,
    keeping: Keeping,
    log: Vec<u8>,
) -> Result<Opened, ServeFault>
    ensures opened { IfOk result (λ opened. (past : Past) → HasPast past log.items
        → IsOpenedFrom keeping.salvage version.now past log.items opened) }
    ensures within { IfOk result (λ opened. opened.bytes ≤ length log.items) }
    ensures cause { IfErr result (IsOpenCause keeping.salvage log.items) }
{
    let Kept { restored, rest } = restore_or_salvage(alloc, keeping.salvage, &log)?;
    drop(log);
    let Restored {
        mut live,
        lines,
        head,
        bytes,
    } = restored;
    let mut logged = Vec::new(alloc);
    if bytes == 0 {
        logged.extend_from_slice(LOG_HEADER)?;
    }
    end_all(alloc, &mut live, &mut logged)?;
    let greeting = greeting(alloc, version, lines)?;
    let dump = match keeping.compacting.most(head, bytes) {
        Some(most) => dumped(alloc, &live, most),
        None => None,
    };
    let grown = bytes.saturating_sub(head).saturating_add(logged.len());
    Ok(Opened {
        live,
        lines,
        bytes,
        rest,
        logged,
        dump,
        growth: Growth::new(keeping.compacting, head, grown),
        greeting,
    })
}

/// How far the log has grown, if the dump took its place or if it didn't.
fn growth_after(opened: &Opened, replaced: bool) -> Growth {
    match &opened.dump {
        Some(dump) if replaced => opened.growth.replaced(dump.len()),
        _ => opened.growth,
    }
}

/// Goes on with the log, and greets. Returns how far the log has grown then.
pub(crate) fn begin<D: Devices>(
    opened: &Opened,
    sync: bool,
    devices: &mut D,
) -> Result<Growth, ServeFault>
    requires { opened.now.bytes ≤ length (held_after (D.history devices.old)).all }
    ensures begun { OnOk result ((salvage : Bool) (version bytes : Text)
        → D.history devices.old ≡ Read bytes ∷ []
        → BeginsAt sync salvage version bytes opened.now (D.history devices.new)) }
    ensures part { OnErr result ((salvage : Bool) (version bytes : Text)
        → D.history devices.old ≡ Read bytes ∷ []
        → BeginsInPart sync salvage version bytes opened.now (D.history devices.new)) }
    ensures cause { IfErr result (IsSendCause (D.history devices.new)) }
{
    cut_rest(opened.rest, opened.lines, opened.bytes, devices)?;
    let replaced = go_on(&opened.dump, &opened.logged, devices)?;
    if sync {
        devices.settle()?;
    }
    devices.write(&opened.greeting)?;
    Ok(growth_after(opened, replaced))
}
