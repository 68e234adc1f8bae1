//! Whether a text is the dump of a database: each line is printed again.
ghost use Rattle.std.specs.Prelude.{◌≡◌, ◌≢◌, ◌++◌, ◌∷◌, [], length, IfErr, IfOk, MatchOption, OnOk};
ghost use Rattle.std.specs.List.{flat_map};
ghost use Rattle.redodb_model.specs.Names.{Text};
ghost use Rattle.redodb_live.specs.Support.LiveState.{state_in};
ghost use Rattle.redodb_dump.specs.Dumps.{HasSessions, IsStateOver, body_of, cell_line, numbers_of, rows_line, state_line};
ghost use Rattle.redodb_dump.specs.Support.Forms.{HaveNameForms, HaveRowForms};

use crate::fault::LoadFault;
use crate::printed::{put_name, state_line};
use crate::rows::put_rows;
use redodb_live::Live;
use std::alloc::Global;

/// What follows the beginning of a text.
fn after<'a>(text: &'a [u8], begin: &[u8]) -> Option<&'a [u8]>
    ensures { MatchOption result ((rest : Text) → text.now ≢ begin.now ++ rest)
        (λ rest. text.now ≡ begin.now ++ rest.now) }
{
    text.strip_prefix(begin)
}

/// What follows the lines of the names.
fn after_names<'a>(live: &Live, line: &mut Vec<u8>, body: &'a [u8]) -> Result<&'a [u8], LoadFault>
    ensures text { IfOk result (λ left. body.now
        ≡ flat_map (cell_line (state_in live.now)) live.now.names ++ left.now) }
    ensures forms { OnOk result
        (HaveNameForms live.now.names (state_in live.now) (length live.now.names)) }
    ensures only { IfErr result (λ fault. (more : Text) → body.now
        ≡ flat_map (cell_line (state_in live.now)) live.now.names ++ more
        → fault ≡ LoadFault.Memory) }
{
    let mut left = body;
    for n in 0..live.count() {
        line.clear();
        put_name(line, live, n)?;
        let Some(rest) = after(left, line) else {
            return Err(LoadFault::Line(n as usize + 2));
        };
        left = rest;
    }
    Ok(left)
}

/// Compares the lines of rows.
fn check_rows(alloc: Global, live: &Live, line: &mut Vec<u8>, lines: &[u8]) -> Result<(), LoadFault>
    ensures text { OnOk result (lines.now
        ≡ flat_map (rows_line live.now.names (state_in live.now)) (numbers_of live.now.names)) }
    ensures forms { OnOk result
        (HaveRowForms live.now.names (state_in live.now) (length live.now.names)) }
    ensures only { IfErr result (λ fault. lines.now
        ≡ flat_map (rows_line live.now.names (state_in live.now)) (numbers_of live.now.names)
        → fault ≡ LoadFault.Memory) }
{
    let mut left = lines;
    let mut number = live.count() as usize + 2;
    let mut words = Vec::new(alloc);
    for t in 0..live.count() {
        line.clear();
        put_rows(&mut words, line, live, t)?;
        let Some(rest) = after(left, line) else {
            return Err(LoadFault::Line(number));
        };
        left = rest;
        if !line.is_empty() {
            number += 1;
        }
    }
    if left.is_empty() {
        Ok(())
    } else {
        Err(LoadFault::Line(number))
    }
}

/// Compares the lines of a dump but the first.
pub(crate) fn check_body(alloc: Global, live: &Live, body: &[u8]) -> Result<(), LoadFault>
    requires { HasSessions (state_in live.now) }
    ensures text { OnOk result (body.now ≡ body_of live.now.names (state_in live.now)) }
    ensures over { OnOk result (IsStateOver live.now.names (state_in live.now)) }
    ensures only { IfErr result (λ fault. body.now ≡ body_of live.now.names (state_in live.now)
        → fault ≡ LoadFault.Memory) }
{
    live.builders_hold();
    let _count = live.count();
    let mut line = Vec::new(alloc);
    let rows = after_names(live, &mut line, body)?;
    check_rows(alloc, live, &mut line, rows)?;
    Ok(())
}

/// Compares the first line of a dump, without its LF.
pub(crate) fn check_head(
    alloc: Global,
    live: &Live,
    line: &[u8],
    body: &[u8],
) -> Result<(), LoadFault>
    ensures text { OnOk result (line.now ++ 10 ∷ [] ≡ state_line live.now.names body.now) }
    ensures only { IfErr result (λ fault. line.now ++ 10 ∷ [] ≡ state_line live.now.names body.now
        → fault ≡ LoadFault.Memory) }
{
    let printed = state_line(alloc, live, body)?;
    match after(&printed, line) {
        Some(rest) if rest == b"\n".as_slice() => Ok(()),
        _ => Err(LoadFault::Line(1)),
    }
}
