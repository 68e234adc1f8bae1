ghost use Rattle.std.specs.Prelude.{◌≡◌, ◌↔◌, ℕ, ◌<◌, ◌≤◌, false, [], length, map, IfOk, IfErr, IsErrAnd, OnOk, OnErr};
ghost use Rattle.redodb_names.specs.Support.Names.{Extends};
ghost use Rattle.redodb_commands.specs.Support.Meaning.{item_at};
ghost use Rattle.redodb_io.specs.Watched.{failures_of, has_failed};
ghost use Rattle.redodb_io.specs.Devices.{known_in};
ghost use Rattle.redodb_run.specs.Files.{IsAccepted, AreAccepted, bytes_of_files, failures_of_files, failed_files};
ghost use Rattle.redodb_run.specs.Support.Files.{scripts_at, IsScriptBelow, AreScriptsBelow};
ghost use Rattle.redodb_text.specs.Faults.{IsDeviceFault};
ghost use Rattle.redodb_run.specs.Faults.{IsRunCause};
ghost use Rattle.redodb_run.specs.Support.Faults.{IsFileCause};

use redodb_commands::Script;
use redodb_io::{Watched, WholeFault, read_whole};
use redodb_names::Names;
use redodb_text::{Fault, LineFault, ReadFault, read_script};
use std::alloc::Global;
use std::io::Read;

/// A file of more bytes is refused.
pub const FILE_LIMIT: usize = 67_108_864;

/// The run's fault if the bytes of this file have this one.
fn whole_fault(file: usize, fault: WholeFault) -> Fault
    ensures memory { (result ≡ Fault.Memory) ↔ (fault ≡ WholeFault.Memory) }
    ensures device { fault ≡ WholeFault.Device → result ≡ Fault.Read file }
    ensures too_long { fault ≡ WholeFault.TooLong → result ≡ Fault.TooLong file }
{
    match fault {
        WholeFault::Memory => Fault::Memory,
        WholeFault::Device => Fault::Read { file },
        WholeFault::TooLong => Fault::TooLong { file },
    }
}

/// The run's fault if the commands of this file have this one.
fn read_fault(file: usize, fault: ReadFault) -> Fault
    ensures memory { (result ≡ Fault.Memory) ↔ (fault ≡ ReadFault.Memory) }
    ensures line { (line : ℕ) (own : LineFault) → fault ≡ ReadFault.Line line own
        → result ≡ Fault.Line file line own }
{
    match fault {
        ReadFault::Memory => Fault::Memory,
        ReadFault::Line { line, fault } => Fault::Line { file, line, fault },
    }
}

fn read_file<R: Read>(
    alloc: Global,
    at: usize,
    file: &mut Watched<R>,
    names: &mut Names,
) -> Result<Script, Fault>
    requires few { length names.old ≤ 65536 }
    ensures accepted { IfOk result (λ script. IsAccepted names.old
        (known_in R.remaining file.old) (map (item_at names.new) script) names.new) }
    ensures below { IfOk result (IsScriptBelow names.new) }
    ensures few { OnOk result (length names.new ≤ 65536) }
    ensures kept { Extends names.old names.new }
    ensures cause { IfErr result (IsFileCause names.old
        (known_in R.remaining file.old) (has_failed file.old file.new) at) }
    ensures others { ¬ (IsErrAnd result IsDeviceFault)
        → failures_of file.new ≡ failures_of file.old }
{
    let text = match read_whole(alloc, file, FILE_LIMIT) {
        Ok(text) => text,
        Err(fault) => return Err(whole_fault(at, fault)),
    };
    match read_script(alloc, &text, names) {
        Ok(script) => Ok(script),
        Err(fault) => Err(read_fault(at, fault)),
    }
}

/// Reads a script from each file, in order, over the names of those before it. The first fault ends
/// it; the names are then those of the files before the faulty one, and some of that one's.
pub fn read_files<R: Read>(
    alloc: Global,
    files: &mut [Watched<R>],
    names: &mut Names,
) -> Result<Vec<Script>, Fault>
    requires { names.old ≡ [] }

    // Each file is a script, and the result is their commands.
    ensures accepted { IfOk result (λ scripts. AreAccepted []
        (bytes_of_files R.remaining files.old) (scripts_at names.new scripts.items) names.new) }
    ensures below { IfOk result (λ scripts. AreScriptsBelow names.new scripts.items) }
    ensures few { OnOk result (length names.new ≤ 65536) }

    // Each fault has its cause; without a file there is none.
    ensures cause { IfErr result (IsRunCause
        (bytes_of_files R.remaining files.old) (failed_files files.old files.new) false) }
    ensures some { OnErr result (0 < length files.old) }

    // A file counts one failure more only if a device failed.
    ensures others { ¬ (IsErrAnd result IsDeviceFault)
        → failures_of_files files.new ≡ failures_of_files files.old }
{
    let mut scripts = Vec::new(alloc);
    for (at, file) in files.iter_mut().enumerate() {
        let script = read_file(alloc, at, file, names)?;
        scripts.push(script)?;
    }
    Ok(scripts)
}
