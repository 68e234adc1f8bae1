ghost use Rattle.std.specs.Prelude.{◌≡◌, ◌≢◌, ◌↔◌, ◌⊎◌, Bool, List, Option, false, IfSome, IfOk, IfErr, IsErrOf, IsErrAnd, IsTrue, length};
ghost use Rattle.redodb_model.specs.Names.{Text, texts};
ghost use Rattle.redodb_model.specs.History.{Line, Legal};
ghost use Rattle.redodb_io.specs.Watched.{failures_of, has_failed};
ghost use Rattle.redodb_io.specs.Devices.{known_in, WritesNothing};
ghost use Rattle.redodb_text.specs.Faults.{IsDeviceFault};
ghost use Rattle.redodb_replay.specs.Verdicts.{IsSame, verdict_at, verdict_text_of};
ghost use Rattle.redodb_replay.specs.Support.Verdicts.{IsVerdictBelow};
ghost use Rattle.redodb_replay.specs.Replays.{IsKnownAs, HasVerdict, HasFault, WritesVerdict, WritesReplayPart, IsReplayCause};

use crate::replays::replay;
use crate::verdict::verdict_text;
use redodb_history::{HistoryFault, Verdict};
use redodb_io::{Watched, WholeFault, WriteFault, read_whole, write_whole};
use redodb_live::Live;
use redodb_text::Fault;
use std::alloc::{AllocError, Global};
use std::io::{Read, Write};

/// An input of more bytes is refused.
pub const INPUT_LIMIT: usize = 1_073_741_824;

/// The replay's fault if its input has this one.
fn whole_fault(fault: WholeFault) -> Fault
    ensures memory { (result ≡ Fault.Memory) ↔ (fault ≡ WholeFault.Memory) }
    ensures device { (result ≡ Fault.Read 0) ↔ (fault ≡ WholeFault.Device) }
    ensures too_long { (result ≡ Fault.TooLong 0) ↔ (fault ≡ WholeFault.TooLong) }
{
    match fault {
        WholeFault::Memory => Fault::Memory,
        WholeFault::Device => Fault::Read { file: 0 },
        WholeFault::TooLong => Fault::TooLong { file: 0 },
    }
}

/// The replay's fault if its history has this one.
fn history_fault(fault: HistoryFault) -> Fault
    ensures memory { (result ≡ Fault.Memory) ↔ (fault ≡ HistoryFault.Memory) }
    ensures cause { (known : Option Text) (failed out_failed : Bool) → HasFault known fault
        → IsReplayCause known failed out_failed result }
{
    match fault {
        HistoryFault::Memory => Fault::Memory,
        HistoryFault::BadHeader => Fault::BadHeader,
        HistoryFault::Cut => Fault::Cut,
        HistoryFault::BadSession(line) => Fault::BadSession { line },
        HistoryFault::BadLine(line, fault) => Fault::Line {
            file: 0,
            line,
            fault,
        },
        HistoryFault::BadReply(line) => Fault::BadReply { line },
    }
}

/// The verdict's text, and the database, which is dropped if memory runs out.
fn told(alloc: Global, verdict: &Verdict, live: Live) -> Result<(Vec<u8>, Live), AllocError>
    requires { IsVerdictBelow (length live.names) verdict.now }
    ensures { IfOk result (λ told. told.0.items
        ≡ verdict_text_of (verdict_at live.names verdict.now)) }
{
    let text = verdict_text(alloc, verdict, live.names())?;
    Ok((text, live))
}

/// The verdict on the input's lines, its text, and the database.
fn verdict_on_input<R: Read>(
    alloc: Global,
    input: &mut Watched<R>,
) -> Result<(Verdict, Vec<u8>, Live), Fault>
    ensures verdict { IfOk result (λ judged.
        HasVerdict (known_in R.remaining input.old) judged.0 judged.1.items) }
    ensures only { (lines : List (Line Text)) → IsKnownAs (known_in R.remaining input.old) lines
        → IfErr result (λ fault. (fault ≡ Fault.Memory) ⊎ IsDeviceFault fault) }
    ensures same { (lines : List (Line Text)) → IsKnownAs (known_in R.remaining input.old) lines
        → IfOk result (λ judged. IsSame judged.0 ↔ Legal texts lines) }
    ensures cause { IfErr result
        (IsReplayCause (known_in R.remaining input.old) (has_failed input.old input.new) false) }
    ensures others { ¬ (IsErrAnd result IsDeviceFault)
        → failures_of input.new ≡ failures_of input.old }
{
    let bytes = match read_whole(alloc, input, INPUT_LIMIT) {
        Ok(bytes) => bytes,
        Err(fault) => return Err(whole_fault(fault)),
    };
    let (verdict, live) = match replay(alloc, &bytes) {
        Ok(judged) => judged,
        Err(fault) => return Err(history_fault(fault)),
    };
    let (text, live) = told(alloc, &verdict, live)?;
    Ok((verdict, text, live))
}

/// Reads a history, does its commands again, and writes the verdict. Writes nothing before the
/// verdict is complete. Beside the verdict it gives the database that did the commands, of which
/// no clause speaks: a program that ends need not take the time to drop it.
pub fn replay_text<R: Read, W: Write>(
    alloc: Global,
    input: &mut Watched<R>,
    out: &mut Watched<W>,
) -> Result<(Verdict, Live), Fault>
    // The input is a history, the verdict is the right one, and its text was written.
    ensures verdict { IfOk result (λ judged. WritesVerdict (known_in R.remaining input.old)
        (known_in W.contents out.old) (known_in W.contents out.new) judged.0) }

    // A history is refused only if memory runs out or a device fails, and is the same exactly if
    // its lines are legal.
    ensures only { (lines : List (Line Text)) → IsKnownAs (known_in R.remaining input.old) lines
        → IfErr result (λ fault. (fault ≡ Fault.Memory) ⊎ IsDeviceFault fault) }
    ensures same { (lines : List (Line Text)) → IsKnownAs (known_in R.remaining input.old) lines
        → IfOk result (λ judged. IsSame judged.0 ↔ Legal texts lines) }

    // Each fault has its cause.
    ensures cause { IfErr result (IsReplayCause (known_in R.remaining input.old)
        (has_failed input.old input.new) (has_failed out.old out.new)) }
    ensures nothing_written { IfErr result (λ fault. fault ≢ Fault.Write
        → WritesNothing W.contents out.old out.new) }
    ensures part_written { IsErrOf result Fault.Write
        → WritesReplayPart (known_in R.remaining input.old)
        (known_in W.contents out.old) (known_in W.contents out.new) }

    // A device's fault is the result exactly if a read or a write of this call failed.
    ensures device { IsErrAnd result IsDeviceFault
        ↔ (IsTrue (has_failed input.old input.new) ⊎ IsTrue (has_failed out.old out.new)) }
{
    let (verdict, text, live) = verdict_on_input(alloc, input)?;
    match write_whole(out, &text) {
        Ok(()) => Ok((verdict, live)),
        Err(WriteFault::Write) => Err(Fault::Write),
    }
}
