ghost use Rattle.std.specs.Prelude.{◌≡◌, ◌≢◌, ◌↔◌, ◌⊎◌, ℕ, ◌<◌, ◌≤◌, [], false, length, map, IfOk, IfErr, OnOk, IsErrOf, IsErrAnd, IsTrue};
ghost use Rattle.redodb_io.specs.Watched.{has_failed};
ghost use Rattle.redodb_io.specs.Devices.{known_in, WritesNothing};
ghost use Rattle.redodb_run.specs.Runs.{IsRunText, RunsAs, WritesRun, WritesPart, AreKnownSessions};
ghost use Rattle.redodb_run.specs.Files.{bytes_of_files, failures_of_files, failed_files};
ghost use Rattle.redodb_run.specs.Support.Files.{scripts_at, AreScriptsBelow};
ghost use Rattle.redodb_text.specs.Faults.{IsDeviceFault};
ghost use Rattle.redodb_run.specs.Faults.{IsRunCause};
ghost use Rattle.redodb_journal.specs.Plans.{scripts_named};

use crate::files::read_files;
use crate::printed::run_text;
use crate::runs::run;
use redodb_board::Open;
use redodb_commands::Script;
use redodb_io::{Watched, WriteFault, write_whole};
use redodb_journal::{Plan, PlanFault};
use redodb_names::Names;
use redodb_text::Fault;
use std::alloc::{AllocError, Global};
use std::io::{Read, Write};
use std::sync::Wait;
use std::thread::Threads;

/// The run's fault if its plan has this one.
fn plan_fault(fault: PlanFault) -> Fault
    ensures none { (result ≡ Fault.NoSession) ↔ (fault ≡ PlanFault.NoSession) }
    ensures many { (result ≡ Fault.TooManySessions) ↔ (fault ≡ PlanFault.TooManySessions) }
{
    match fault {
        PlanFault::NoSession => Fault::NoSession,
        PlanFault::TooManySessions => Fault::TooManySessions,
    }
}

/// The run text of the plan's sessions, each run on a thread of its own.
fn text_of_plan<T: Threads + Wait + Sync>(
    rt: &T,
    alloc: Global,
    plan: &Plan,
) -> Result<Vec<u8>, AllocError>
    ensures { IfOk result (λ text. IsRunText (scripts_named plan.now) text.items) }
{
    let outcome = run(rt, alloc, plan, &Open)?;
    run_text(rt, alloc, plan, &outcome)
}

/// The run text of the scripts' sessions.
fn text_of_scripts<T: Threads + Wait + Sync>(
    rt: &T,
    alloc: Global,
    scripts: Vec<Script>,
    names: Names,
) -> Result<Vec<u8>, Fault>
    requires below { AreScriptsBelow names scripts.items }
    requires few_names { length names ≤ 65536 }
    ensures text { IfOk result (λ text. IsRunText (scripts_at names scripts.items) text.items) }
    ensures few { OnOk result (length scripts.items ≤ 64) }
    ensures none { IsErrOf result Fault.NoSession ↔ (length scripts.items ≡ 0) }
    ensures many { IsErrOf result Fault.TooManySessions ↔ (64 < length scripts.items) }
    ensures others { IfErr result (λ fault. (fault ≡ Fault.Memory)
        ⊎ (fault ≡ Fault.NoSession) ⊎ (fault ≡ Fault.TooManySessions)) }
{
    let plan = match Plan::new(scripts, names) {
        Ok(plan) => plan,
        Err(fault) => return Err(plan_fault(fault)),
    };
    Ok(text_of_plan(rt, alloc, &plan)?)
}

/// The run text of the files' sessions.
fn text_of_files<R: Read, T: Threads + Wait + Sync>(
    rt: &T,
    alloc: Global,
    files: &mut [Watched<R>],
) -> Result<Vec<u8>, Fault>
    ensures text { IfOk result (λ text. RunsAs
        (bytes_of_files R.remaining files.old) text.items) }
    ensures cause { IfErr result (IsRunCause
        (bytes_of_files R.remaining files.old) (failed_files files.old files.new) false) }
    ensures none { files.old ≡ [] → IsErrOf result Fault.NoSession }
    ensures others { ¬ (IsErrAnd result IsDeviceFault)
        → failures_of_files files.new ≡ failures_of_files files.old }
{
    let mut names = Names::new(alloc);
    let scripts = read_files(alloc, files, &mut names)?;
    text_of_scripts(rt, alloc, scripts, names)
}

/// Reads each file in order, runs their sessions side by side, and writes the run text. Writes
/// nothing before the run has returned.
pub fn run_texts<R: Read, W: Write, T: Threads + Wait + Sync>(
    rt: &T,
    alloc: Global,
    files: &mut [Watched<R>],
    out: &mut Watched<W>,
) -> Result<(), Fault>
    // The files are accepted, 1 to 64 of them, and what was written is the run text of one legal
    // history of their commands.
    ensures run { OnOk result (WritesRun (bytes_of_files R.remaining files.old)
        (known_in W.contents out.old) (known_in W.contents out.new)) }

    // Without a file there is no session.
    ensures none { files.old ≡ [] → IsErrOf result Fault.NoSession }

    // Each fault has its cause, in the order of the work.
    ensures cause { IfErr result (IsRunCause (bytes_of_files R.remaining files.old)
        (failed_files files.old files.new) (has_failed out.old out.new)) }
    ensures nothing_written { IfErr result (λ fault. fault ≢ Fault.Write
        → WritesNothing W.contents out.old out.new) }
    ensures part_written { IsErrOf result Fault.Write
        → WritesPart (bytes_of_files R.remaining files.old)
        (known_in W.contents out.old) (known_in W.contents out.new) }

    // If the files' bytes are known and accepted, only memory and devices refuse the run.
    ensures only { AreKnownSessions (bytes_of_files R.remaining files.old)
        → IfErr result (λ fault. (fault ≡ Fault.Memory) ⊎ IsDeviceFault fault) }

    // A device's fault is the result exactly if a read or a write of this call failed.
    ensures device { IsErrAnd result IsDeviceFault
        ↔ (((file : ℕ) × IsTrue (failed_files files.old files.new file))
        ⊎ IsTrue (has_failed out.old out.new)) }
{
    let text = text_of_files(rt, alloc, files)?;
    match write_whole(out, &text) {
        Ok(()) => Ok(()),
        Err(WriteFault::Write) => Err(Fault::Write),
    }
}
