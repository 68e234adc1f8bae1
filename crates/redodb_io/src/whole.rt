ghost use Rattle.std.specs.Prelude.{◌≡◌, ◌||◌, ◌↔◌, ◌≤◌, ◌<◌, false, true, length, is_err, IfOk, IfSome, OnOk, OnErr, IsErrOf};
ghost use Rattle.std.specs.Io.KnownBytes.{Appends, IsAtEnd};
ghost use Rattle.redodb_io.specs.Watched.{failures_of, has_failed, inner_of};
ghost use Rattle.redodb_io.specs.Support.Watched.{AppendsPrefix, ConsumesSome};
ghost use Rattle.redodb_io.specs.Support.Counts.{counted, is_faulted};
ghost use Rattle.redodb_io.specs.declared.whole.WholeFault.TheVariants.{Memory};

use crate::watched::Watched;
use std::alloc::{AllocError, Global};
use std::io::{Read, Write};
use thiserror::Error;

/// Why a reader was not read to its end.
#[derive(Debug, Drop, Error)]
pub enum WholeFault {
    /// Memory for the bytes ran out.
    #[error("out of memory")]
    Memory,
    /// A read failed.
    #[error("a read failed")]
    Device,
    /// More bytes came than the limit allows.
    #[error("too many bytes")]
    TooLong,
}

impl From<AllocError> for WholeFault {
    ghost from_gives = { λ _ fault. fault ≡ Memory };

    fn from(_: AllocError) -> WholeFault {
        WholeFault::Memory
    }
}

/// Why not all bytes were written.
#[derive(Debug, Drop, Error)]
pub enum WriteFault {
    /// A write or a flush failed.
    #[error("a write failed")]
    Write,
}

const READ_BYTES: usize = 16384;

/// All the bytes up to the reader's end, if they are at most `limit`.
///
/// After an error it tries no read again.
pub fn read_whole<R: Read>(
    alloc: Global,
    reader: &mut Watched<R>,
    limit: usize,
) -> Result<Vec<u8>, WholeFault>
    ensures whole { IfOk result
        (λ whole. IfSome (R.remaining (inner_of reader.old)) (λ bytes. whole.items ≡ bytes)) }
    ensures end { OnOk result (IsAtEnd (R.remaining (inner_of reader.new))) }
    ensures few { IfOk result (λ whole. length whole.items ≤ limit) }
    ensures too_long { IsErrOf result WholeFault.TooLong
        → IfSome (R.remaining (inner_of reader.old)) (λ bytes. limit < length bytes) }
    // It allocates only for bytes that were read and that the limit allows.
    ensures memory { IsErrOf result WholeFault.Memory
        → ConsumesSome (R.remaining (inner_of reader.old)) (R.remaining (inner_of reader.new))
        limit }

    // The fault of a device comes exactly if a read of this call failed.
    ensures device { IsErrOf result WholeFault.Device ↔ (has_failed reader.old reader.new ≡ true) }
    ensures others { ¬ (IsErrOf result WholeFault.Device)
        → failures_of reader.new ≡ failures_of reader.old }
    ensures flag { IsErrOf result WholeFault.Device → is_faulted reader.new ≡ true }
{
    let mut whole = Vec::new(alloc);
    let mut buf = [0u8; READ_BYTES];
    loop {
        let Some(n) = reader.read(&mut buf) else {
            return Err(WholeFault::Device);
        };
        if n == 0 {
            return Ok(whole);
        }
        if n > limit - whole.len() {
            return Err(WholeFault::TooLong);
        }
        whole.extend_from_slice(&buf[..n])?;
    }
}

/// Writes all the bytes, and allocates nothing.
///
/// After an error it tries no write again, and a prefix of the bytes was written.
pub fn write_whole<W: Write>(writer: &mut Watched<W>, bytes: &[u8]) -> Result<(), WriteFault>
    ensures whole { OnOk result
        (Appends (W.contents (inner_of writer.old)) (W.contents (inner_of writer.new)) bytes.now) }
    ensures prefix { OnErr result (AppendsPrefix (W.contents (inner_of writer.old))
        (W.contents (inner_of writer.new)) bytes.now) }

    // The fault of a device comes exactly if a write of this call failed.
    ensures write { IsErrOf result WriteFault.Write ↔ (has_failed writer.old writer.new ≡ true) }
    ensures count { failures_of writer.new ≡ counted (is_err result) (failures_of writer.old) }
    ensures flag { is_faulted writer.new ≡ (is_faulted writer.old || is_err result) }
{
    let mut at = 0;
    while at < bytes.len() {
        let Some(n) = writer.write(&bytes[at..]) else {
            return Err(WriteFault::Write);
        };
        at += n;
    }
    Ok(())
}
