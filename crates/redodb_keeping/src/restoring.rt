//! What a log has is done again, as far as it may be kept.
ghost use Rattle.std.specs.Prelude.{◌≤◌, length, IfOk, IfErr};
ghost use Rattle.redodb_log.specs.Logs.{HasPast, Past};
ghost use Rattle.redodb_keeping.specs.Support.Opening.{IsKeptFrom, IsOpenCause};

use crate::fault::ServeFault;
use redodb_log::{RestoreFault, Restored, restore};
use std::alloc::Global;

/// What comes after the lines of a log that are kept.
#[derive(Clone, Copy, Debug, PartialEq, Eq)]
pub enum Rest {
    Nothing,
    /// A last line without LF, or a beginning of a header.
    Torn,
    /// A line that differs.
    Damaged,
}

/// A database in the state after a log's lines, and what is kept of the log.
#[derive(Drop)]
pub struct Kept {
    pub restored: Restored,
    pub rest: Rest,
}

/// Does the lines of a log again, or those before the first that differs, if it may be cut.
pub fn restore_or_salvage(alloc: Global, salvage: bool, log: &[u8]) -> Result<Kept, ServeFault>
    ensures kept { IfOk result (λ kept. (past : Past) → HasPast past log.now
        → IsKeptFrom salvage past log.now kept) }
    ensures within { IfOk result (λ kept. kept.restored.bytes ≤ length log.now) }
    ensures cause { IfErr result (IsOpenCause salvage log.now) }
{
    match restore(alloc, log) {
        Ok(restored) => {
            let rest = if restored.bytes < log.len() {
                Rest::Torn
            } else {
                Rest::Nothing
            };
            Ok(Kept { restored, rest })
        }
        Err(RestoreFault::Differs { bytes, .. }) if salvage => Ok(Kept {
            restored: restore(alloc, &log[..bytes])?,
            rest: Rest::Damaged,
        }),
        Err(fault) => Err(ServeFault::from(fault)),
    }
}
