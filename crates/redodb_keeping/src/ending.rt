//! The sessions that a log left end.
ghost use Rattle.std.specs.Prelude.{List, OnOk, OnErr};
ghost use Rattle.redodb_model.specs.History.{Line};
ghost use Rattle.redodb_model.specs.Names.{Text};
ghost use Rattle.redodb_log.specs.Logs.{AreLogged};
ghost use Rattle.redodb_keeping.specs.Support.Opening.{EndsAll, EndsSome};
ghost use Rattle.redodb_keeping.specs.Support.Steps.{LeadsTo, known_of};

use redodb_live::Live;
use std::alloc::{AllocError, Global};

/// Ends each session that holds something; `logged` gets the lines. If memory runs out, some of them have ended.
pub fn end_all(alloc: Global, live: &mut Live, logged: &mut Vec<u8>) -> Result<(), AllocError>
    ensures ended { OnOk result ((before : List (Line Text)) → AreLogged before
        → LeadsTo before (known_of live.old)
        → EndsAll before live.new logged.old.items logged.new.items) }
    ensures part { OnErr result ((before : List (Line Text)) → AreLogged before
        → LeadsTo before (known_of live.old)
        → EndsSome before live.new logged.old.items logged.new.items) }
{
    let sessions = live.holders(alloc)?;
    let mut output = Vec::new(alloc);
    for &session in &sessions {
        output.clear();
        if live.end(alloc, session, &mut output, logged).is_err() {
            return Err(AllocError);
        }
    }
    Ok(())
}
