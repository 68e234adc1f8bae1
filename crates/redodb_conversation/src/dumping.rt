//! A log that begins with a dump of what is known.
ghost use Rattle.std.specs.Prelude.{◌≡◌, ◌++◌, List, Some, IfOk, IfSome};
ghost use Rattle.redodb_model.specs.History.{Line};
ghost use Rattle.redodb_model.specs.Names.{Text};
ghost use Rattle.redodb_live.specs.Support.LiveState.{state_in};
ghost use Rattle.redodb_dump.specs.Dumps.{HasSessions, IsStateOver, dump_of};
ghost use Rattle.redodb_log.specs.Logs.{dump_header, head_of, AreLogged, IsPast};
ghost use Rattle.redodb_keeping.specs.Support.Steps.{known_of, LeadsTo};

use redodb_dump::dump;
use redodb_live::Live;
use redodb_log::DUMP_HEADER;
use std::alloc::{AllocError, Global};

/// The bytes, if memory suffices, of a log that begins with a dump of what is known.
fn dump_log(alloc: Global, live: &Live) -> Result<Vec<u8>, AllocError>
    ensures log { IfOk result (λ log. log.items
        ≡ dump_header ++ dump_of live.now.names (state_in live.now)) }
    ensures over { IfOk result (λ log. HasSessions (state_in live.now)
        → IsStateOver live.now.names (state_in live.now)) }
{
    let text = dump(alloc, live)?;
    let mut log = Vec::from_slice(alloc, DUMP_HEADER)?;
    log.extend_from_slice(&text.head)?;
    log.extend_from_slice(&text.body)?;
    Ok(log)
}

/// A log that begins with a dump of what is known, if it has at most so many bytes, and memory suffices.
pub(crate) fn dumped(alloc: Global, live: &Live, most: usize) -> Option<Vec<u8>>
    ensures { IfSome result (λ log. (before : List (Line Text)) → AreLogged before
        → LeadsTo before (known_of live.now) → IsPast (Some before)
        × (log.items ≡ head_of (Some before))) }
{
    let Ok(log) = dump_log(alloc, live) else {
        return None;
    };
    if log.len() > most {
        return None;
    }
    Some(log)
}
