ghost use Rattle.std.specs.Prelude.{◌≡◌, ◌<◌, ◌≤◌, ◌+◌, ◌^◌, ◌++◌, ◌∷◌, ℕ, List, [], drop, length, map, IfOk, OnOk, slice_index_or};
ghost use Rattle.std.specs.List.{flat_map};
ghost use Rattle.redodb_model.specs.Names.{Text};
ghost use Rattle.redodb_model.specs.History as histories;
ghost use Rattle.redodb_model.specs.Renaming.{IsLineBelow};
ghost use Rattle.redodb_commands.specs.Meaning.{line_of, line_at};
ghost use Rattle.redodb_commands.specs.Support.Meaning.{item_of};
ghost use Rattle.redodb_journal.specs.Plans.{IsPlan, script_of, scripts_named};
ghost use Rattle.redodb_history.specs.Histories.{ended, answer_text_of, line_text_of};
ghost use Rattle.redodb_history.specs.Recorded.{AreLinesBelow};
ghost use Rattle.redodb_run.specs.RunTexts.{run_text_of, sessions_below};
ghost use Rattle.redodb_run.specs.Support.Lines.{AreAnswersAt, AreChunksOf};
ghost use Rattle.redodb_run.specs.Support.Printed.{ArePrinted};

use crate::lines::{Printed, Span, print_chunks, put_lines};
use crate::outcome::Outcome;
use crate::part::{Part, blank_text};
use redodb_commands::{Item, Line};
use redodb_history::put_header;
use redodb_journal::Plan;
use redodb_names::Names;
use std::alloc::{AllocError, Global};
use std::thread::Threads;

/// A history of no more lines is printed on the caller's thread: one session has fewer.
const MOST_ALONE: usize = 16_384;

/// A longer history is cut into at most this many chunks: each may start a thread.
const MOST_CHUNKS: usize = 8;

/// A chunk has at least this many lines, but for the last.
const LEAST_CHUNK: usize = 4_096;

/// The lines of a session's script.
fn items_of(plan: &Plan, session: usize) -> &[Item]
    requires { session < length plan.now.scripts }
    ensures items { map item_of result.now ≡ script_of plan.now session }
    ensures plan { IsPlan plan.now }
{
    plan.scripts()[session].items()
}

/// A part for each session, with nothing printed.
fn blank_parts(alloc: Global, plan: &Plan) -> Result<Vec<Part>, AllocError>
    ensures { IfOk result (λ parts. (lines : List (histories.Line Text))
        → ArePrinted (scripts_named plan.now) lines lines parts.items) }
{
    let mut parts = Vec::new(alloc);
    for script in plan.scripts() {
        parts.push(Part::new(alloc, script.items().len())?)?;
    }
    Ok(parts)
}

/// Prints a line in the part of its session, if it has one. Its command and reply are printed
/// already.
fn put_own(
    alloc: Global,
    plan: &Plan,
    line: &Line,
    answer: &[u8],
    parts: &mut Vec<Part>,
) -> Result<(), AllocError>
    requires line { IsLineBelow (length plan.now.names) (line_of line.now) }
    requires answer { answer.now ≡ ended (answer_text_of (line_at plan.now.names line.now)) }
    requires count { length parts.old.items ≡ length plan.now.scripts }
    requires few { (s : ℕ) (part : Part) → s < length parts.old.items
        → part ≡ slice_index_or parts.old.items s part → part.closing + 1 < 2 ^ 64 }
    ensures { OnOk result ((lines : List (histories.Line Text)) (later : List (histories.Line Text))
        → ArePrinted (scripts_named plan.now) lines (line_at plan.now.names line.now ∷ later)
        parts.old.items
        → ArePrinted (scripts_named plan.now) lines later parts.new.items) }
{
    let session = line.session as usize;
    if session >= parts.len() {
        return Ok(());
    }
    let items = items_of(plan, session);
    let part = &mut parts[session];
    part.put(alloc, items, line, answer, plan.names())?;
    Ok(())
}

/// Prints lines of the history in the parts of their sessions, from this line on. The text has
/// their commands and replies at the spans: they are copied.
fn put_parts(
    alloc: Global,
    plan: &Plan,
    lines: &[Line],
    from: usize,
    text: &[u8],
    spans: &[Span],
    parts: &mut Vec<Part>,
) -> Result<(), AllocError>
    requires lines { AreLinesBelow plan.now.names lines.now }
    requires within { from + length spans.now ≤ length lines.now }
    requires spans { AreAnswersAt plan.now.names text.now lines.now from spans.now }
    requires parts { ArePrinted (scripts_named plan.now)
        (map (line_at plan.now.names) lines.now)
        (map (line_at plan.now.names) (drop from lines.now)) parts.old.items }
    ensures { OnOk result (ArePrinted (scripts_named plan.now)
        (map (line_at plan.now.names) lines.now)
        (map (line_at plan.now.names) (drop (from + length spans.now) lines.now))
        parts.new.items) }
{
    for at in 0..spans.len() {
        let line = &lines[from + at];
        put_own(alloc, plan, line, spans[at].cut(text), parts)?;
    }
    Ok(())
}

/// Adds the texts of the history's chunks, and prints each line in the part of its session.
fn put_chunks(
    alloc: Global,
    text: &mut Vec<u8>,
    plan: &Plan,
    lines: &[Line],
    size: usize,
    chunks: &[Result<Printed, AllocError>],
    parts: &mut Vec<Part>,
) -> Result<(), AllocError>
    requires lines { AreLinesBelow plan.now.names lines.now }
    requires chunks { AreChunksOf plan.now.names lines.now size chunks.now }
    requires parts { ArePrinted (scripts_named plan.now)
        (map (line_at plan.now.names) lines.now) (map (line_at plan.now.names) lines.now)
        parts.old.items }
    ensures text { OnOk result (text.new.items ≡ text.old.items
        ++ flat_map line_text_of (map (line_at plan.now.names) lines.now)) }
    ensures parts { OnOk result (ArePrinted (scripts_named plan.now)
        (map (line_at plan.now.names) lines.now) [] parts.new.items) }
{
    let mut from = 0;
    for chunk in chunks {
        let Ok(printed) = chunk else {
            return Err(AllocError);
        };
        text.extend_from_slice(&printed.text)?;
        put_parts(
            alloc,
            plan,
            lines,
            from,
            &printed.text,
            &printed.spans,
            parts,
        )?;
        from += printed.spans.len();
    }
    Ok(())
}

/// Prints the lines of the history, and each once more in the part of its session.
fn put_history<R: Threads + Sync>(
    rt: &R,
    alloc: Global,
    text: &mut Vec<u8>,
    plan: &Plan,
    lines: &[Line],
    parts: &mut Vec<Part>,
) -> Result<(), AllocError>
    requires lines { AreLinesBelow plan.now.names lines.now }
    requires parts { ArePrinted (scripts_named plan.now)
        (map (line_at plan.now.names) lines.now) (map (line_at plan.now.names) lines.now)
        parts.old.items }
    ensures text { OnOk result (text.new.items ≡ text.old.items
        ++ flat_map line_text_of (map (line_at plan.now.names) lines.now)) }
    ensures parts { OnOk result (ArePrinted (scripts_named plan.now)
        (map (line_at plan.now.names) lines.now) [] parts.new.items) }
{
    if lines.len() <= MOST_ALONE {
        let spans = put_lines(alloc, text, lines, plan.names())?;
        return put_parts(alloc, plan, lines, 0, text, &spans, parts);
    }
    let count = MOST_CHUNKS.min(lines.len() / LEAST_CHUNK);
    let size = lines.len() / count + 1;
    let chunks = print_chunks(rt, alloc, lines, size, plan.names())?;
    put_chunks(alloc, text, plan, lines, size, &chunks, parts)
}

/// The run text: the history, and then each session's lines. A long history's lines are printed
/// side by side, and all threads are joined before it returns.
pub fn run_text<R: Threads + Sync>(
    rt: &R,
    alloc: Global,
    plan: &Plan,
    outcome: &Outcome,
) -> Result<Vec<u8>, AllocError>
    requires { AreLinesBelow plan.now.names outcome.now.history.items }
    ensures { IfOk result (λ text. text.items
        ≡ run_text_of (scripts_named plan.now) (sessions_below (length plan.now.scripts))
        (map (line_at plan.now.names) outcome.now.history.items)) }
{
    // Each line is printed in the history and in its session's part.
    let mut text = blank_text(alloc, outcome.history.len().saturating_mul(2))?;
    put_header(&mut text, outcome.history.len())?;
    let mut parts = blank_parts(alloc, plan)?;
    put_history(rt, alloc, &mut text, plan, &outcome.history, &mut parts)?;
    for session in 0..plan.scripts().len() {
        let items = items_of(plan, session);
        parts[session].put_all(alloc, &mut text, session as u8, items, plan.names())?;
    }
    Ok(text)
}
