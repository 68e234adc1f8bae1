ghost use Rattle.std.specs.Prelude.{◌≡◌, ◌↔◌, List, [], IsTrue, OnOk, IfErr, IsErrAnd};
ghost use Rattle.std.specs.Io.KnownBytes.{IsAtEnd};
ghost use Rattle.redodb_io.specs.Devices.{known_in};
ghost use Rattle.redodb_io.specs.Watched.{has_failed};
ghost use Rattle.redodb_conversation.specs.Causes.{AnsweredAll, IsServeCause};

use crate::keeping::Keeping;
use crate::opening::{begin, open};
use crate::talking::{Buffers, talk};
use redodb_io::Watched;
use redodb_keeping::ServeFault;
use redodb_log::Devices;
use std::alloc::Global;
use std::io::Read;
use std::mem;

/// Restores a database from its log, ends the sessions that the log left, puts a dump of what is known then in the
/// place of the log if it is time for that, greets, and answers line after line until the input ends. A last line
/// without LF is not answered. When the log has grown far enough, a dump takes its place once more.
///
/// What changes the database is logged before it is answered. After an operation fails, nothing more is done.
pub fn serve<R: Read, D: Devices>(
    alloc: Global,
    version: &str,
    keeping: Keeping,
    input: &mut Watched<R>,
    devices: &mut D,
) -> Result<(), ServeFault>
    requires { D.history devices.old ≡ [] }
    ensures talk { OnOk result (AnsweredAll keeping version.now
        (known_in R.remaining input.old) (known_in R.remaining input.new)
        (D.history devices.new)) }
    ensures end { OnOk result (IsAtEnd (known_in R.remaining input.new)) }
    ensures cause { IfErr result (IsServeCause keeping version.now
        (known_in R.remaining input.old) (known_in R.remaining input.new)
        (D.history devices.new)) }
    ensures read { IsErrAnd result (λ fault. fault ≡ ServeFault.Read)
        ↔ IsTrue (has_failed input.old input.new) }
{
    let log = devices.read(alloc)?;
    let mut opened = open(alloc, version, keeping, log)?;
    let buffers = Buffers::new(alloc)?;
    let growth = begin(&opened, keeping.sync, devices)?;
    let talked = talk(
        alloc,
        &mut opened.live,
        keeping.sync,
        growth,
        buffers,
        input,
        devices,
    );
    // The program ends: the system takes the memory back at once, where the database would be freed piece by piece.
    mem::forget(opened);
    talked
}
