ghost use Rattle.std.specs.Prelude.{◌≡◌, ◌==◌, ◌||◌, ◌≤◌, ◌<◌, [], not, length, take, is_none, is_err, IfNone, IfSome, MatchOption};
ghost use Rattle.std.specs.Io.KnownBytes.{Consumes, Appends, Keeps, IsAtEnd};
ghost use Rattle.redodb_io.specs.Watched.{failures_of, has_failed, inner_of};
ghost use Rattle.redodb_io.specs.Support.Counts.{counted, is_faulted};

use crate::whole::WriteFault;
use std::io::{Read, Write};

/// A reader or a writer that counts its failures.
///
/// It failed if a read, a write or a flush of it gave an error, or a write of some bytes took none.
#[derive(Drop)]
pub struct Watched<T> {
    inner: T,
    failures: u64,
}

/// The count of failures after a call: one more if it failed. After the greatest comes 1, so that each failure changes
/// the count, and none makes it 0.
#[tactic(auto, using(crate::proofs::Counts::count_changes, crate::proofs::Counts::count_is_some))]
fn counted(failed: bool, failures: u64) -> u64
    ensures count { result ≡ counted failed failures }
    ensures some { not (result == 0) ≡ (not (failures == 0) || failed) }
    ensures another { not (result == failures) ≡ failed }
{
    if !failed {
        return failures;
    }
    if failures == u64::MAX {
        1
    } else {
        failures + 1
    }
}

impl<T> Watched<T> {
    /// Watches a reader or a writer from here on.
    pub fn new(inner: T) -> Self
        ensures inner { inner_of result ≡ inner }
        ensures count { failures_of result ≡ 0 }
    {
        Watched { inner, failures: 0 }
    }

    /// Whether a call of it failed.
    pub fn faulted(&self) -> bool
        ensures { result ≡ is_faulted self.now }
    {
        self.failures != 0
    }
}

impl<R: Read> Watched<R> {
    /// How many bytes one read gave, if it did not fail: 0 at the end, or if the buffer is empty.
    pub fn read(&mut self, buf: &mut [u8]) -> Option<usize>
        ensures within { IfSome result (λ n. n ≤ length buf.new) }
        ensures given { IfSome result (λ n. Consumes (R.remaining (inner_of self.old))
            (R.remaining (inner_of self.new)) (take n buf.new)) }
        ensures end { IfSome result
            (λ n. n ≡ 0 → 0 < length buf.new → IsAtEnd (R.remaining (inner_of self.new))) }
        ensures failed { IfNone result (Keeps (R.remaining (inner_of self.old))
            (R.remaining (inner_of self.new))) }
        ensures count { failures_of self.new ≡ counted (is_none result) (failures_of self.old) }
        ensures noted { has_failed self.old self.new ≡ is_none result }
        ensures flag { is_faulted self.new ≡ (is_faulted self.old || is_none result) }
    {
        let given = self.inner.read(buf).ok();
        self.failures = counted(given.is_none(), self.failures);
        given
    }
}

impl<W: Write> Watched<W> {
    /// How many bytes one write took, if it did not fail.
    pub(crate) fn write(&mut self, bytes: &[u8]) -> Option<usize>
        requires { 0 < length bytes.now }
        ensures within { IfSome result (λ n. (0 < n) × (n ≤ length bytes.now)) }
        ensures sent { MatchOption result
            (Appends (W.contents (inner_of self.old)) (W.contents (inner_of self.new)) [])
            (λ n. Appends (W.contents (inner_of self.old)) (W.contents (inner_of self.new))
            (take n bytes.now)) }
        ensures count { failures_of self.new ≡ counted (is_none result) (failures_of self.old) }
        ensures noted { has_failed self.old self.new ≡ is_none result }
        ensures flag { is_faulted self.new ≡ (is_faulted self.old || is_none result) }
    {
        let taken = self.inner.write(bytes).ok().filter(|n| *n > 0);
        self.failures = counted(taken.is_none(), self.failures);
        taken
    }

    /// Flushes the writer.
    pub fn flush(&mut self) -> Result<(), WriteFault>
        ensures kept { Keeps (W.contents (inner_of self.old)) (W.contents (inner_of self.new)) }
        ensures count { failures_of self.new ≡ counted (is_err result) (failures_of self.old) }
        ensures noted { has_failed self.old self.new ≡ is_err result }
        ensures flag { is_faulted self.new ≡ (is_faulted self.old || is_err result) }
    {
        let flushed = self.inner.flush();
        self.failures = counted(flushed.is_err(), self.failures);
        flushed.map_err(|_| WriteFault::Write)
    }
}
