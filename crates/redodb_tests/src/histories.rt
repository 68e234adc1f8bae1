//! The histories that journals make.
ghost use Rattle.std.specs.Prelude.{IsTrue};
ghost use Rattle.redodb_model.specs.Renaming.{AllBelow, IsBelow, IsReplyBelow, IsLineBelow};
ghost use Rattle.redodb_commands.specs.Meaning.{command_of, reply_of, line_of};

use redodb_commands::{Command, Line, Refusal, Reply, Script};
use redodb_history::{put_header, put_line};
use redodb_journal::{Entry, Journal, Plan};
use redodb_names::Names;
use redodb_replay::{Verdict, replay};
use std::alloc::{AllocError, Global};
use std::process::Abort;

fn all_below(count: u32, numbers: &[u32]) -> bool
    ensures { IsTrue result → AllBelow count numbers.now }
{
    numbers.iter().all(|&number| number < count)
}

fn is_command_below(count: u32, command: &Command) -> bool
    ensures { IsTrue result → IsBelow count (command_of command.now) }
{
    match command {
        Command::File(n, _)
        | Command::Gone(n)
        | Command::Lock(n)
        | Command::Unlock(n)
        | Command::Start(n)
        | Command::Always(n)
        | Command::Stamp(n, _)
        | Command::Done(n, _)
        | Command::Failed(n) => *n < count,
        Command::IfChange(n, names) | Command::IfCreate(n, names) => {
            *n < count && all_below(count, names)
        }
        Command::Ood | Command::Targets | Command::Sources => true,
    }
}

fn is_reply_below(count: u32, reply: &Reply) -> bool
    ensures { IsTrue result → IsReplyBelow count (reply_of reply.now) }
{
    match reply {
        Reply::Stale(names) | Reply::Ood(names) | Reply::Targets(names) | Reply::Sources(names) =>
            all_below(count, names),
        Reply::Refused(Refusal::Exists(n)) => *n < count,
        _ => true,
    }
}

fn is_line_below(count: u32, line: &Line) -> bool
    ensures { IsTrue result → IsLineBelow count (line_of line.now) }
{
    is_command_below(count, &line.command) && is_reply_below(count, &line.reply)
}

/// The line of the entry of this session.
fn line_of(
    rt: &impl Abort,
    alloc: Global,
    session: u8,
    script: &Script,
    entry: &Entry,
) -> Result<Line, AllocError> {
    let command = entry.command(script).expect(rt, "a command");
    Ok(Line {
        session: session as u16,
        command: command.get().copy(alloc)?,
        reply: entry.reply.copy(alloc)?,
    })
}

/// Prints the session's next line, if it has one. Returns how many it has printed then, if this many before it.
fn put_next(
    rt: &impl Abort,
    alloc: Global,
    names: &Names,
    script: &Script,
    journal: &Journal,
    printed: usize,
    text: &mut Vec<u8>,
) -> Result<usize, AllocError> {
    let Some(entry) = journal.entries.get(printed) else {
        return Ok(printed);
    };
    let line = line_of(rt, alloc, journal.session, script, entry)?;
    assert!(rt; is_line_below(names.len(), &line));
    put_line(alloc, text, &line, names)?;
    Ok(printed.wrapping_add(1))
}

/// Prints the lines of sessions that took their steps in this order: each step but those after a session's end made
/// its next line.
fn put_turns(
    rt: &impl Abort,
    alloc: Global,
    plan: &Plan,
    journals: &[Journal],
    turns: &[usize],
    text: &mut Vec<u8>,
) -> Result<(), AllocError> {
    let scripts = plan.scripts();
    assert!(rt; journals.len() == scripts.len() && scripts.len() <= 4);
    let mut printed = [0usize; 4];
    for &turn in turns {
        assert!(rt; turn < scripts.len());
        let (script, journal, before) = (&scripts[turn], &journals[turn], printed[turn]);
        printed[turn] = put_next(rt, alloc, plan.names(), script, journal, before, text)?;
    }
    Ok(())
}

/// How many lines there are in these journals.
fn lines_in(journals: &[Journal]) -> usize {
    let mut lines = 0usize;
    for journal in journals {
        lines = lines.wrapping_add(journal.entries.len());
    }
    lines
}

/// Whether the history of this text replays as `same`, with this many lines.
fn is_replayed(alloc: Global, history: &[u8], count: usize) -> bool {
    match replay(alloc, history) {
        Ok(judged) => matches!(judged.0, Verdict::Same(lines) if lines == count),
        Err(_) => false,
    }
}

/// The sessions, which took their steps in this order, made a legal history. Returns how many lines it has.
pub(crate) fn check_legal(
    rt: &impl Abort,
    alloc: Global,
    plan: &Plan,
    journals: &[Journal],
    turns: &[usize],
) -> Result<usize, AllocError> {
    let lines = lines_in(journals);
    let mut text = Vec::new(alloc);
    put_header(&mut text, lines)?;
    put_turns(rt, alloc, plan, journals, turns, &mut text)?;
    assert!(rt; is_replayed(alloc, &text, lines), "{text:?}");
    Ok(lines)
}
