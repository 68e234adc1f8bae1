//! A conversation over a log and an output in memory.
ghost use Rattle.std.specs.Prelude.{◌≡◌, []};

use redodb_conversation::{Compacting, Keeping, serve};
use redodb_io::Watched;
use redodb_keeping::ServeFault;
use redodb_log::{Failing, LogFault, MemoryDevices};
use std::alloc::Global;

/// Lines, the greeting and their answers, and the log then.
const INPUT: &[u8] = b"1 lock a.o\n2 lock a.o\n1 start a.o\n1 end\n";

const OUTPUT: &[u8] = b"redodb-live test restored 0\n1 lock a.o => granted 1\n\
    2 lock a.o => busy 1\n1 start a.o => ok\n1 failed a.o => ok\n1 unlock a.o => ok\n\
    1 end => ok\n";

const LOGGED: &[u8] = b"redodb-log 1\n1 lock a.o => granted 1\n1 start a.o => ok\n\
    1 failed a.o => ok\n1 unlock a.o => ok\n";

/// The greeting, and the log before a line is answered.
const GREETING: &[u8] = b"redodb-live test restored 0\n";

const HEADER: &[u8] = b"redodb-log 1\n";

/// Reads these lines over a new log.
fn served(alloc: Global, devices: &mut MemoryDevices) -> Result<(), ServeFault>
    requires { devices.old ≡ [] }
{
    let keeping = Keeping {
        sync: false,
        salvage: false,
        compacting: Compacting::Never,
    };
    serve(alloc, "test", keeping, &mut Watched::new(INPUT), devices)
}

/// A conversation is answered and logged. A line that changes something isn't answered if the log takes no byte of it:
/// the operations before it are a read, the header, and the greeting.
#[test]
fn conversations(rt: HostRuntime) {
    for (number, wanted, output, logged) in [
        (0, Ok(()), OUTPUT, LOGGED),
        (4, Err(ServeFault::Log(LogFault::Write)), GREETING, HEADER),
    ] {
        let failing = Failing {
            number,
            ..Failing::never()
        };
        let mut devices = MemoryDevices::new(rt.alloc(), Vec::new(rt.alloc()), failing);
        assert!(rt; served(rt.alloc(), &mut devices) == wanted);
        assert!(rt; devices.output() == output && devices.log() == logged);
    }
}
