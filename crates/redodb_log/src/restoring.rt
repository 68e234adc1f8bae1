ghost use Rattle.std.specs.Prelude.{◌≡◌, ◌==◌, ◌<◌, ◌≤◌, ◌+◌, ◌++◌, ℕ, List, length, filter, IfOk, IfErr, IfSome, MatchOption, IsSomeAnd};
ghost use Rattle.redodb_model.specs.Names.{Text};
ghost use Rattle.redodb_model.specs.Command.{Command};
ghost use Rattle.redodb_model.specs.History.{Line};
ghost use Rattle.redodb_text.specs.Grammar.{IsCommandLine};
ghost use Rattle.redodb_live.specs.Support.Appended.{IsWorn};
ghost use Rattle.redodb_history.specs.Support.HistoryFaults.{IsCutAt};
ghost use Rattle.redodb_log.specs.Logs.{dump_header, Past, HasPast, IsLogOf, IsTornHeader};
ghost use Rattle.redodb_log.specs.Restores.{IsRestored, IsRestoredTo, IsRestoreCause, IsOfRoom, IsWithin};
ghost use Rattle.redodb_log.specs.Support.Steps.{AsksFor, BeginsAfter, DoesNext, NothingFollows};

use redodb_dump::{LoadFault, Loaded, load};
use redodb_history::{cut_at, cut_at_arrow, cut_at_space, session_of};
use redodb_live::{Live, MOST_SESSIONS, Unanswered};
use std::alloc::{AllocError, Global};
use thiserror::Error;

/// The first line of a log that begins with no dump.
pub const LOG_HEADER: &[u8] = b"redodb-log 1\n";

/// The first line of a log that begins with a dump.
pub const DUMP_HEADER: &[u8] = b"redodb-log 2\n";

/// A database in the state after a log's lines.
#[derive(Drop)]
pub struct Restored {
    pub live: Live,
    /// How many lines were done again: those after the dump, if there is one.
    pub lines: usize,
    /// How many bytes of the log come before these lines.
    pub head: usize,
    /// How many bytes of the log they have, with the head. The bytes after them were torn.
    pub bytes: usize,
}

/// Why a log can't be restored.
#[derive(Clone, Copy, Debug, PartialEq, Eq, Error)]
pub enum RestoreFault {
    #[error("out of memory")]
    Memory,
    /// The log has more lines than the database answers.
    #[error("worn")]
    Worn,
    /// This line of the log isn't that of a dump. Lines are counted from 1, and the header is line 1.
    #[error("line {line}: no state")]
    State {
        line: usize,
    },
    /// This line of the log isn't the database's answer, or it isn't the header. Lines are counted from 1, and the
    /// header is line 1; `lines` lines of sessions, and `bytes` bytes in all, come before it.
    #[error("line {line} differs")]
    Differs {
        line: usize,
        lines: usize,
        bytes: usize,
    },
}

impl From<AllocError> for RestoreFault {
    ghost use Rattle.std.specs.Prelude.{◌≡◌};
    ghost use Rattle.redodb_log.specs.declared.restoring.RestoreFault.TheVariants.{Memory};

    ghost from_gives = { λ _ fault. fault ≡ Memory };

    fn from(_: AllocError) -> RestoreFault {
        RestoreFault::Memory
    }
}

/// The session and the text of the command that a line begins with.
fn asked(text: &[u8]) -> Option<(u16, &[u8])>
    ensures session { IfSome result (λ asked. asked.0 < 65535) }
    ensures found { (session : ℕ) (wanted : Text) (command : Command Text) → session < 65535
        → IsCommandLine wanted command → AsksFor text.now session wanted
        → IsSomeAnd result (λ asked. (asked.0 ≡ session) × (asked.1.now ≡ wanted)) }
{
    let (word, rest) = cut_at_space(text);
    let session = session_of(word, MOST_SESSIONS)?;
    let (command, _) = cut_at_arrow(rest)?;
    Some((session, command))
}

/// A database that does a log's lines, and buffers for one of them.
#[derive(Drop)]
struct Again {
    live: Live,
    output: Vec<u8>,
    logged: Vec<u8>,
}

impl Again {
    /// Does the first line of what is left of a log, which has this text. Returns what is left after it, if it is the
    /// database's answer.
    fn redo<'a>(
        &mut self,
        alloc: Global,
        text: &[u8],
        left: &'a [u8],
    ) -> Result<Option<&'a [u8]>, RestoreFault>
        requires { (rest : Text) × IsCutAt 10 left.now text.now rest }
        ensures next { IfOk result (λ found.
            MatchOption found (NothingFollows self.old.live left.now)
            (λ rest. DoesNext self.old.live self.new.live left.now rest.now)) }
        ensures room { IfErr result IsOfRoom }
        ensures worn { IfErr result
            (λ fault. fault ≡ RestoreFault.Worn → IsWorn self.old.live) }
    {
        let Some((session, command)) = asked(text) else {
            return Ok(None);
        };
        self.output.clear();
        self.logged.clear();
        match self.live.answer(alloc, session, command, &mut self.output, &mut self.logged) {
            Ok(()) => Ok(left.strip_prefix(self.output.as_slice())),
            Err(Unanswered::Fault(_)) => Ok(None),
            Err(Unanswered::Memory) => Err(RestoreFault::Memory),
            Err(Unanswered::Worn) => Err(RestoreFault::Worn),
        }
    }
}

/// How many lines end in the bytes.
fn lines_in(bytes: &[u8]) -> usize
    ensures count { result ≡ length (filter (λ byte. byte == 10) bytes.now) }
    ensures few { result ≤ length bytes.now }
{
    bytes.iter().filter(|byte| **byte == b'\n').count()
}

/// Does again the lines that follow the head of a log, after which the database knows this.
fn restore_lines(
    alloc: Global,
    live: Live,
    log: &[u8],
    lines: &[u8],
) -> Result<Restored, RestoreFault>
    requires { length lines.now ≤ length log.now }
    ensures within { IfOk result (λ restored. restored.bytes ≤ length log.now) }
    ensures cut { IfErr result (IsWithin (length log.now)) }
    ensures restored { IfOk result (λ restored. (past : Past)
        → BeginsAfter past log.now lines.now live → (done : List (Line Text)) × (torn : Text)
        × IsLogOf past log.now done torn × IsRestoredTo past done restored) }
    ensures only { (past : Past) (done : List (Line Text)) (torn : Text)
        → BeginsAfter past log.now lines.now live
        → IsLogOf past log.now done torn → IfErr result IsOfRoom }
    ensures same { (past : Past) (done : List (Line Text)) (torn : Text)
        → BeginsAfter past log.now lines.now live
        → IsLogOf past log.now done torn → IfOk result (IsRestoredTo past done) }
    ensures cause { IfErr result (λ fault. (past : Past)
        → BeginsAfter past log.now lines.now live → IsRestoreCause past log.now fault) }
{
    let head = log.len() - lines.len();
    let first = lines_in(&log[..head]) + 1;
    let mut again = Again {
        live,
        output: Vec::new(alloc),
        logged: Vec::new(alloc),
    };
    let mut left = lines;
    let mut count = 0;
    'lines: while let Some((text, _)) = cut_at(left, b'\n') {
        let Some(rest) = again.redo(alloc, text, left)? else {
            return Err(RestoreFault::Differs {
                line: first + count,
                lines: count,
                bytes: log.len() - left.len(),
            });
        };
        left = rest;
        count += 1;
    }
    Ok(Restored {
        live: again.live,
        lines: count,
        head,
        bytes: log.len() - left.len(),
    })
}

/// Does again the lines of a log that begins with a dump, which is in `text`.
fn restore_dumped(alloc: Global, log: &[u8], text: &[u8]) -> Result<Restored, RestoreFault>
    requires { log.now ≡ dump_header ++ text.now }
    ensures within { IfOk result (λ restored. restored.bytes ≤ length log.now) }
    ensures cut { IfErr result (IsWithin (length log.now)) }
    ensures restored { IfOk result (λ restored. (past : Past) → HasPast past log.now
        → IsRestored past log.now restored) }
    ensures only { (past : Past) (lines : List (Line Text)) (torn : Text)
        → IsLogOf past log.now lines torn → IfErr result IsOfRoom }
    ensures same { (past : Past) (lines : List (Line Text)) (torn : Text)
        → IsLogOf past log.now lines torn → IfOk result (IsRestoredTo past lines) }
    ensures cause { IfErr result (λ fault. (past : Past) → HasPast past log.now
        → IsRestoreCause past log.now fault) }
{
    match load(alloc, text) {
        Ok(Loaded { live, bytes }) => restore_lines(alloc, live, log, &text[bytes..]),
        Err(LoadFault::Memory) => Err(RestoreFault::Memory),
        Err(LoadFault::Worn) => Err(RestoreFault::Worn),
        // the header comes before the dump
        Err(LoadFault::Line(line)) => Err(RestoreFault::State {
            line: line.saturating_add(1),
        }),
    }
}

/// Does a log's lines again. What is promised of a log that begins with a dump rests on lines that left the state of the
/// dump: nothing is said of a dump that no lines can leave.
pub fn restore(alloc: Global, log: &[u8]) -> Result<Restored, RestoreFault>
    ensures within { IfOk result (λ restored. restored.bytes ≤ length log.now) }
    ensures cut { IfErr result (IsWithin (length log.now)) }

    // The lines of a log are done again; what follows its last LF was torn.
    ensures restored { IfOk result (λ restored. (past : Past) → HasPast past log.now
        → IsRestored past log.now restored) }
    // A log is refused only by `Memory` or `Worn`; else all its lines are restored.
    ensures only { (past : Past) (lines : List (Line Text)) (torn : Text)
        → IsLogOf past log.now lines torn → IfErr result IsOfRoom }
    ensures same { (past : Past) (lines : List (Line Text)) (torn : Text)
        → IsLogOf past log.now lines torn → IfOk result (IsRestoredTo past lines) }
    ensures begun { IsTornHeader log.now → IfErr result IsOfRoom }
    // Each fault has its cause.
    ensures cause { IfErr result (λ fault. (past : Past) → HasPast past log.now
        → IsRestoreCause past log.now fault) }
{
    if let Some(lines) = log.strip_prefix(LOG_HEADER) {
        return restore_lines(alloc, Live::new(alloc)?, log, lines);
    }
    if let Some(text) = log.strip_prefix(DUMP_HEADER) {
        return restore_dumped(alloc, log, text);
    }
    if !b"redodb-log 1".starts_with(log) {
        return Err(RestoreFault::Differs {
            line: 1,
            lines: 0,
            bytes: 0,
        });
    }
    Ok(Restored {
        live: Live::new(alloc)?,
        lines: 0,
        head: 0,
        bytes: 0,
    })
}
