//! A log goes on after what was kept of it.
ghost use Rattle.std.specs.Prelude.{◌≡◌, ◌⊎◌, ◌≤◌, ◌∷◌, true, false, length, IsSomeAnd, IfOk, IfErr, OnOk, OnErr};
ghost use Rattle.redodb_model.specs.Names.{Text};
ghost use Rattle.redodb_log.specs.Operations.{Append, Replace, LogFailed, IsPrefix, held_after};
ghost use Rattle.redodb_keeping.specs.Support.Opening.{IsCutInPart, after_cut};
ghost use Rattle.redodb_keeping.specs.Support.Sending.{IsSendCause};

use crate::fault::ServeFault;
use crate::restoring::Rest;
use redodb_log::Devices;

/// Cuts off what comes after the lines that are kept. A damaged log is copied first, and synced then: else, if power is
/// lost, what was cut off could come back behind lines that are appended now.
pub fn cut_rest<D: Devices>(
    rest: Rest,
    lines: usize,
    bytes: usize,
    devices: &mut D,
) -> Result<(), ServeFault>
    requires { bytes ≤ length (held_after (D.history devices.old)).all }
    ensures cut { OnOk result (D.history devices.new
        ≡ after_cut rest bytes (D.history devices.old)) }
    ensures part { OnErr result (IsCutInPart rest bytes
        (D.history devices.old) (D.history devices.new)) }
    ensures cause { IfErr result (IsSendCause (D.history devices.new)) }
{
    match rest {
        Rest::Nothing => {}
        Rest::Torn => devices.cut(bytes)?,
        Rest::Damaged => {
            devices.copy()?;
            devices.cut(bytes)?;
            devices.tell_cut(lines, bytes);
            devices.settle()?;
        }
    }
    Ok(())
}

/// Puts the dump in the place of the log, if there is one and the log takes it, or appends the lines. Returns whether the
/// dump took that place.
pub fn go_on<D: Devices>(
    dump: &Option<Vec<u8>>,
    lines: &[u8],
    devices: &mut D,
) -> Result<bool, ServeFault>
    ensures replaced { IfOk result (λ replaced. replaced ≡ true
        → IsSomeAnd dump.now (λ dump. D.history devices.new
        ≡ Replace dump.items ∷ D.history devices.old)) }
    ensures appended { IfOk result (λ replaced. replaced ≡ false
        → D.history devices.new ≡ Append lines.now ∷ D.history devices.old) }
    ensures part { OnErr result (((part : Text) × IsPrefix part lines.now
        × (D.history devices.new ≡ LogFailed ∷ Append part ∷ D.history devices.old))
        ⊎ IsSomeAnd dump.now (λ dump. D.history devices.new
        ≡ LogFailed ∷ Replace dump.items ∷ D.history devices.old)) }
    ensures cause { IfErr result (IsSendCause (D.history devices.new)) }
{
    if let Some(dump) = dump {
        if devices.replace(dump)? {
            return Ok(true);
        }
    }
    devices.append(lines)?;
    Ok(false)
}
