ghost use Rattle.std.specs.Prelude.{◌≡◌, IfOk};

use std::alloc::AllocError;

/// The count in 32 bits, or `AllocError` if it is larger.
pub(crate) fn small(count: usize) -> Result<u32, AllocError>
    ensures { IfOk result (λ small. small ≡ count) }
{
    if count > u32::MAX as usize {
        return Err(AllocError);
    }
    Ok(count as u32)
}
