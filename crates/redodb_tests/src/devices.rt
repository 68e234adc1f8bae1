//! No call of a device that failed is tried again, and none comes after it.
use redodb_io::{Watched, WholeFault, read_whole, write_whole};
use std::alloc::Global;
use std::io;
use std::io::{Error, ErrorKind, Read, Write};

/// A device of which one call fails.
#[derive(Clone, Copy)]
struct Device {
    /// How many calls there were.
    calls: usize,
    /// How many there were before the one that fails.
    fails_after: usize,
    /// Whether a write then takes no byte, rather than giving an error.
    takes_none: bool,
    /// How many bytes are left to be read, one a call.
    left: usize,
    /// How many bytes were written, three a call at most.
    taken: usize,
}

impl Device {
    /// Counts a call. Returns whether it fails.
    fn fails(&mut self) -> bool {
        let fails = self.calls == self.fails_after;
        self.calls = self.calls.wrapping_add(1);
        fails
    }
}

impl Read for Device {
    fn read(&mut self, buf: &mut [u8]) -> io::Result<usize> {
        if self.fails() {
            return Err(Error::from(ErrorKind::Other));
        }
        if self.left == 0 || buf.is_empty() {
            return Ok(0);
        }
        self.left -= 1;
        buf[0] = b'x';
        Ok(1)
    }
}

impl Write for Device {
    fn write(&mut self, buf: &[u8]) -> io::Result<usize> {
        if self.fails() {
            if self.takes_none {
                return Ok(0);
            }
            return Err(Error::from(ErrorKind::Other));
        }
        let taken = buf.len().min(3);
        self.taken = self.taken.wrapping_add(taken);
        Ok(taken)
    }

    fn flush(&mut self) -> io::Result<()> {
        if self.fails() {
            return Err(Error::from(ErrorKind::Other));
        }
        Ok(())
    }
}

/// A device that gives this many bytes, and of which the call after so many fails.
fn failing(left: usize, fails_after: usize, takes_none: bool) -> Device {
    Device {
        calls: 0,
        fails_after,
        takes_none,
        left,
        taken: 0,
    }
}

/// Whether a read of at most nine bytes gives these, or fails.
fn is_read<R: Read>(alloc: Global, reader: &mut Watched<R>, wanted: Option<&[u8]>) -> bool {
    match (read_whole(alloc, reader, 9), wanted) {
        (Ok(whole), Some(bytes)) => whole.as_slice() == bytes,
        (Err(WholeFault::Device), None) => true,
        _ => false,
    }
}

/// The third read fails, and no fourth one is tried. What comes later is read, and the failure
/// stays noted.
#[test]
fn failing_read(rt: HostRuntime) {
    let mut device = failing(5, 2, false);
    let mut reader = Watched::new(&mut device);
    for wanted in [None, Some(b"xxx".as_slice())] {
        assert!(rt; is_read(rt.alloc(), &mut reader, wanted) && reader.faulted());
    }
    // two bytes and the failure; three bytes and the end
    assert!(rt; device.calls == 7);
}

/// Whether each of three writes works, and if a failure is noted after it.
fn written<W: Write>(out: &mut Watched<W>) -> [(bool, bool); 3] {
    let first = (write_whole(out, b"").is_ok(), out.faulted());
    let second = (write_whole(out, b"abcd").is_ok(), out.faulted());
    [
        first,
        second,
        (write_whole(out, b"ef").is_ok(), out.faulted()),
    ]
}

/// After a write that fails or takes no byte, the call tries no other. Later calls write, and the
/// failure stays noted.
#[test]
fn failing_write(rt: HostRuntime) {
    for (calls, takes_none, taken) in [(0, false, 2), (0, true, 2), (1, false, 5), (1, true, 5)] {
        let mut device = failing(0, calls, takes_none);
        let found = written(&mut Watched::new(&mut device));
        assert!(rt;
            found == [(true, false), (false, true), (true, true)],
            "{calls}"
        );
        assert!(rt;
            device.calls == calls + 2 && device.taken == taken,
            "{calls}"
        );
    }
}

/// A flush that fails, after one that works, is tried once. A later one works, and the failure stays noted.
#[test]
fn failing_flush(rt: HostRuntime) {
    let mut device = failing(0, 1, false);
    let mut out = Watched::new(&mut device);
    for wanted in [(true, false), (false, true), (true, true)] {
        let flushed = out.flush().is_ok();
        assert!(rt; (flushed, out.faulted()) == wanted);
    }
    assert!(rt; device.calls == 3 && device.taken == 0);
}
