//! A dump takes the place of a log in the midst of a conversation.
ghost use Rattle.std.specs.Prelude.{Bool, IfErr, OnOk, OnErr};
ghost use Rattle.redodb_model.specs.Names.{Text};
ghost use Rattle.redodb_conversation.specs.Support.Places.{GoesOn, BreaksOff, idle_place};
ghost use Rattle.redodb_keeping.specs.Support.Sending.{IsFollowedBy, IsSendCause};

use crate::dumping::dumped;
use crate::growth::Growth;
use redodb_keeping::ServeFault;
use redodb_live::Live;
use redodb_log::Devices;
use std::alloc::Global;

/// Puts a dump of what is known, if it has at most so many bytes, in the place of the log. Returns how many it has, or
/// None if the log is as it was.
fn replace_log<D: Devices>(
    alloc: Global,
    live: &Live,
    most: usize,
    devices: &mut D,
) -> Result<Option<usize>, ServeFault>
    ensures talk { OnOk result ((sync : Bool) (more : Text) → GoesOn sync
        (idle_place live.now (D.history devices.old))
        (idle_place live.now (D.history devices.new)) more more) }
    ensures broken { OnErr result ((sync : Bool) (more : Text) → BreaksOff sync
        (idle_place live.now (D.history devices.old))
        (idle_place live.now (D.history devices.new)) more) }
    ensures cause { IfErr result (IsSendCause (D.history devices.new)) }
    ensures more { IsFollowedBy (D.history devices.old) (D.history devices.new) }
{
    let Some(log) = dumped(alloc, live, most) else {
        return Ok(None);
    };
    if devices.replace(&log)? {
        Ok(Some(log.len()))
    } else {
        Ok(None)
    }
}

/// Puts a dump of what is known in the place of the log, if that has grown so far that it pays. Nothing waits to be
/// sent.
pub(crate) fn compact<D: Devices>(
    alloc: Global,
    live: &Live,
    growth: &mut Growth,
    devices: &mut D,
) -> Result<(), ServeFault>
    ensures talk { OnOk result ((sync : Bool) (more : Text) → GoesOn sync
        (idle_place live.now (D.history devices.old))
        (idle_place live.now (D.history devices.new)) more more) }
    ensures broken { OnErr result ((sync : Bool) (more : Text) → BreaksOff sync
        (idle_place live.now (D.history devices.old))
        (idle_place live.now (D.history devices.new)) more) }
    ensures cause { IfErr result (IsSendCause (D.history devices.new)) }
    ensures more { IsFollowedBy (D.history devices.old) (D.history devices.new) }
{
    let Some(most) = growth.most() else {
        return Ok(());
    };
    match replace_log(alloc, live, most, devices)? {
        Some(head) => *growth = growth.replaced(head),
        None => growth.refuse(),
    }
    Ok(())
}
