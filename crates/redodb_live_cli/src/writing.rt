ghost use Rattle.std.specs.Prelude.{IfErr};
ghost use Rattle.redodb_log.specs.Operations.{IsPrefix};

use std::io::Write;

/// Writes all the bytes, or gives those that were written before a write failed or took no byte.
pub fn write_or_part<'a, W: Write>(writer: &mut W, bytes: &'a [u8]) -> Result<(), &'a [u8]>
    ensures { IfErr result (λ part. IsPrefix part.now bytes.now) }
{
    let mut at = 0;
    'writes: while at < bytes.len() {
        match writer.write(&bytes[at..]) {
            Ok(count) if count > 0 => at += count,
            _ => return Err(&bytes[..at]),
        }
    }
    Ok(())
}
