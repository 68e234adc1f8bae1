//! The dump of a database.
ghost use Rattle.std.specs.Prelude.{◌≡◌, ◌<◌, ◌++◌, length, IfOk, OnOk};
ghost use Rattle.std.specs.List.{flat_map};
ghost use Rattle.sha1.specs.Sha1.{sha1};
ghost use Rattle.redodb_model.specs.Names.{text_at};
ghost use Rattle.redodb_history.specs.Histories.{ended};
ghost use Rattle.redodb_live.specs.Support.LiveState.{state_in};
ghost use Rattle.redodb_dump.specs.Dumps.{HasSessions, IsStateOver, cell_line, dump_of, numbers_of, rows_line, state_line};
ghost use Rattle.redodb_dump.specs.Support.Forms.{HasNameForm, HaveNameForms, HaveRowForms};

use crate::cells::put_cell;
use crate::forms::has_cell_form;
use crate::rows::put_rows;
use crate::words::put_digest;
use redodb_history::put_count;
use redodb_live::Live;
use sha1::Sha1;
use std::alloc::{AllocError, Global};

/// A dump: its first line, and the lines that this one counts.
#[derive(Drop)]
pub struct DumpText {
    pub head: Vec<u8>,
    pub body: Vec<u8>,
}

/// Writes the line of the name with this number.
pub(crate) fn put_name(out: &mut Vec<u8>, live: &Live, n: u32) -> Result<(), AllocError>
    requires { n < length live.now.names }
    ensures text { OnOk result (out.new.items ≡ out.old.items
        ++ cell_line (state_in live.now) (text_at live.now.names n)) }
    ensures form { OnOk result (HasNameForm (state_in live.now) (text_at live.now.names n)) }
{
    let cell = live.cell(n);
    has_cell_form(&cell);
    out.extend_from_slice(live.name(n))?;
    put_cell(out, &cell, live.grants(n), live.holder(n))?;
    out.push(b'\n')?;
    Ok(())
}

/// Writes a line for each name.
fn put_names(out: &mut Vec<u8>, live: &Live) -> Result<(), AllocError>
    ensures text { OnOk result (out.new.items ≡ out.old.items
        ++ flat_map (cell_line (state_in live.now)) live.now.names) }
    ensures forms { OnOk result
        (HaveNameForms live.now.names (state_in live.now) (length live.now.names)) }
{
    for n in 0..live.count() {
        put_name(out, live, n)?;
    }
    Ok(())
}

/// Writes a line for each target with rows.
fn put_targets(alloc: Global, out: &mut Vec<u8>, live: &Live) -> Result<(), AllocError>
    ensures text { OnOk result (out.new.items ≡ out.old.items
        ++ flat_map (rows_line live.now.names (state_in live.now)) (numbers_of live.now.names)) }
    ensures forms { OnOk result
        (HaveRowForms live.now.names (state_in live.now) (length live.now.names)) }
{
    let mut words = Vec::new(alloc);
    for t in 0..live.count() {
        put_rows(&mut words, out, live, t)?;
    }
    Ok(())
}

/// The digest of these counts and of the bytes that they count.
fn sum(counts: &[u8], body: &[u8]) -> [u8; 20]
    ensures { result ≡ sha1 (ended counts.now ++ body.now) }
{
    let mut hasher = Sha1::new();
    hasher.update(counts);
    hasher.update(b"\n");
    hasher.update(body);
    hasher.finalize()
}

/// The first line of a dump with these other lines.
pub(crate) fn state_line(alloc: Global, live: &Live, body: &[u8]) -> Result<Vec<u8>, AllocError>
    ensures { IfOk result (λ line. line.items ≡ state_line live.now.names body.now) }
{
    let mut line = Vec::from_slice(alloc, b"state")?;
    put_count(&mut line, live.count() as usize)?;
    put_count(&mut line, body.len())?;
    let sum = sum(&line, body);
    line.push(b' ')?;
    put_digest(&mut line, &sum)?;
    line.push(b'\n')?;
    Ok(line)
}

/// The text of the database's state.
pub fn dump(alloc: Global, live: &Live) -> Result<DumpText, AllocError>
    ensures dump { IfOk result (λ text. text.head.items ++ text.body.items
        ≡ dump_of live.now.names (state_in live.now)) }
    ensures over { IfOk result (λ text. HasSessions (state_in live.now)
        → IsStateOver live.now.names (state_in live.now)) }
{
    // the laws that `over` rests on
    live.builders_hold();
    let _count = live.count();
    let mut body = Vec::new(alloc);
    put_names(&mut body, live)?;
    put_targets(alloc, &mut body, live)?;
    let head = state_line(alloc, live, &body)?;
    Ok(DumpText { head, body })
}
