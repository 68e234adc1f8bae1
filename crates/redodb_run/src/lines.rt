// The lines of a history, printed: a long one's chunks side by side.
ghost use Rattle.std.specs.Prelude.{◌≡◌, ◌<◌, ◌≤◌, ◌++◌, length, map, IfOk, OnOk, slice_range};
ghost use Rattle.std.specs.List.{flat_map};
ghost use Rattle.redodb_model.specs.Renaming.{IsLineBelow};
ghost use Rattle.redodb_commands.specs.Meaning.{line_of, line_at};
ghost use Rattle.redodb_history.specs.Histories.{line_text_of};
ghost use Rattle.redodb_history.specs.Recorded.{AreLinesBelow};
ghost use Rattle.redodb_run.specs.Support.Lines.{IsAnswerAt, AreAnswersAt, AreShown, AreChunksOf};

use crate::part::blank_text;
use redodb_commands::Line;
use redodb_history::{put_answer, put_session};
use redodb_names::Names;
use std::alloc::{AllocError, Global};
use std::thread;
use std::thread::Threads;

/// Where a text has the command and reply of a printed line, with the LF after them.
#[derive(Clone, Copy)]
pub(crate) struct Span {
    pub(crate) start: usize,
    pub(crate) end: usize,
}

impl Span {
    /// The bytes there.
    pub(crate) fn cut<'a>(&self, text: &'a [u8]) -> &'a [u8]
        requires { (self.now.start ≤ self.now.end) × (self.now.end ≤ length text.now) }
        ensures { result.now ≡ slice_range text.now self.now.start self.now.end }
    {
        &text[self.start..self.end]
    }
}

fn put_line(
    alloc: Global,
    text: &mut Vec<u8>,
    line: &Line,
    names: &Names,
) -> Result<Span, AllocError>
    requires { IsLineBelow (length names.now) (line_of line.now) }
    ensures text { OnOk result (text.new.items
        ≡ text.old.items ++ line_text_of (line_at names.now line.now)) }
    ensures span { IfOk result (IsAnswerAt text.new.items (line_at names.now line.now)) }
{
    put_session(text, line.session)?;
    let start = text.len();
    put_answer(alloc, text, line, names)?;
    Ok(Span {
        start,
        end: text.len(),
    })
}

/// Prints lines of the history. Returns where the text has the command and reply of each.
pub(crate) fn put_lines(
    alloc: Global,
    text: &mut Vec<u8>,
    lines: &[Line],
    names: &Names,
) -> Result<Vec<Span>, AllocError>
    requires { AreLinesBelow names.now lines.now }
    ensures text { OnOk result (text.new.items ≡ text.old.items
        ++ flat_map line_text_of (map (line_at names.now) lines.now)) }
    ensures count { IfOk result (λ spans. length spans.items ≡ length lines.now) }
    ensures spans { IfOk result (λ spans.
        AreAnswersAt names.now text.new.items lines.now 0 spans.items) }
{
    let mut spans = Vec::with_capacity(alloc, lines.len())?;
    for line in lines {
        spans.push(put_line(alloc, text, line, names)?)?;
    }
    Ok(spans)
}

/// A chunk of the history, printed.
#[derive(Drop)]
pub(crate) struct Printed {
    pub(crate) text: Vec<u8>,
    /// Where the text has the command and reply of each line.
    pub(crate) spans: Vec<Span>,
}

fn print_chunk(alloc: Global, lines: &[Line], names: &Names) -> Result<Printed, AllocError>
    requires { AreLinesBelow names.now lines.now }
    ensures { IfOk result (AreShown names.now lines.now) }
{
    let mut text = blank_text(alloc, lines.len())?;
    let spans = put_lines(alloc, &mut text, lines, names)?;
    Ok(Printed { text, spans })
}

/// Prints the history in chunks of so many lines, side by side.
pub(crate) fn print_chunks<R: Threads + Sync>(
    rt: &R,
    alloc: Global,
    lines: &[Line],
    size: usize,
    names: &Names,
) -> Result<Vec<Result<Printed, AllocError>>, AllocError>
    requires lines { AreLinesBelow names.now lines.now }
    requires size { 0 < size }
    ensures { IfOk result (λ chunks. AreChunksOf names.now lines.now size chunks.items) }
{
    thread::map_chunks(
        rt,
        alloc,
        lines,
        size,
        &|_, chunk| { print_chunk(alloc, chunk, names) },
    )
}
