//! A gate that counts the calls of each session, and makes sessions wait until others come to a moment.
use redodb_board::Gate;
use redodb_journal::{Journal, Place};
use std::alloc::{AllocError, Global};
use std::hint::spin_loop;
use std::process::Abort;
use std::sync::atomic::{AtomicU32, Ordering};

/// The plans here have at most this many sessions, and this many commands of each, with closing ones.
const SESSIONS: usize = 4;

const COMMANDS: usize = 64;

/// How many turns a session waits at most.
const TURNS: u32 = 100_000_000;

/// A moment of a step: its session, the number of its command, and at `Ready` the row.
#[derive(Clone, Copy, PartialEq, Eq)]
pub(crate) enum Moment {
    Before(u8, u32),
    Ready(u8, u32, u32),
    After(u8, u32),
}

/// A session that comes to the first moment of a pair waits there until the second has come.
pub(crate) type Pairs = &'static [(Moment, Moment)];

/// A session that comes to the first moment waits there until the second has come.
#[derive(Drop)]
struct Pause {
    at: Moment,
    until: Moment,
    has_come: AtomicU32,
    is_met: AtomicU32,
}

impl Pause {
    fn new(at: Moment, until: Moment) -> Pause {
        Pause {
            at,
            until,
            has_come: AtomicU32::new(0),
            is_met: AtomicU32::new(0),
        }
    }

    /// Whether the second moment came within this many turns.
    fn comes(&self) -> bool {
        for _ in 0..TURNS {
            if self.has_come.load(Ordering::SeqCst) != 0 {
                return true;
            }
            spin_loop();
        }
        false
    }
}

/// A pause for each of these pairs.
fn pauses_of(alloc: Global, pairs: Pairs) -> Result<Vec<Pause>, AllocError> {
    let mut pauses = Vec::new(alloc);
    for (at, until) in pairs {
        pauses.push(Pause::new(*at, *until))?;
    }
    Ok(pauses)
}

/// A gate that counts, with some pauses.
#[derive(Drop)]
pub(crate) struct Counts {
    pauses: Vec<Pause>,
    /// For each session, one more than the number of the command whose step goes on, or 0.
    open: [AtomicU32; SESSIONS],
    /// How many rows each session was ready for.
    rows: [AtomicU32; SESSIONS],
    /// For each command, one more than the rows that its session had been ready for when its step ended; 0 before.
    reached: Vec<AtomicU32>,
    /// How many steps have ended.
    steps: AtomicU32,
    /// How many calls were out of turn: not in a step of this command, in its second step, or not on the row after
    /// the one that its session was last ready for.
    strays: AtomicU32,
}

/// This many zeros.
fn zeros(alloc: Global, count: usize) -> Result<Vec<AtomicU32>, AllocError> {
    let mut zeros = Vec::new(alloc);
    for _ in 0..count {
        zeros.push(AtomicU32::new(0))?;
    }
    Ok(zeros)
}

/// A zero for each session.
fn zero_each() -> [AtomicU32; SESSIONS] {
    [
        AtomicU32::new(0),
        AtomicU32::new(0),
        AtomicU32::new(0),
        AtomicU32::new(0),
    ]
}

/// The count at this place.
fn load(counts: &[AtomicU32], at: usize) -> u32 {
    match counts.get(at) {
        Some(count) => count.load(Ordering::SeqCst),
        None => u32::MAX,
    }
}

/// Puts another count at this place, and returns what the count was.
fn swap(counts: &[AtomicU32], at: usize, count: u32) -> u32 {
    match counts.get(at) {
        Some(old) => old.swap(count, Ordering::SeqCst),
        None => u32::MAX,
    }
}

/// The place of a command among those of all sessions.
fn index_of(session: u8, number: u32) -> usize {
    session as usize * COMMANDS + number as usize % COMMANDS
}

impl Counts {
    pub(crate) fn new(alloc: Global, pairs: Pairs) -> Result<Counts, AllocError> {
        let pauses = pauses_of(alloc, pairs)?;
        Ok(Counts {
            pauses,
            open: zero_each(),
            rows: zero_each(),
            reached: zeros(alloc, SESSIONS * COMMANDS)?,
            steps: AtomicU32::new(0),
            strays: AtomicU32::new(0),
        })
    }

    /// Whether at each pause a session waited until the second moment had come.
    pub(crate) fn are_met(&self) -> bool {
        for pause in &self.pauses {
            if pause.is_met.load(Ordering::SeqCst) == 0 {
                return false;
            }
        }
        true
    }

    /// Counts a call as out of turn, unless this is so.
    fn expect(&self, in_turn: bool) {
        if !in_turn {
            self.strays.fetch_add(1, Ordering::SeqCst);
        }
    }

    /// Wakes the sessions that wait for this moment.
    fn wake(&self, moment: Moment) {
        for pause in &self.pauses {
            if pause.until == moment {
                pause.has_come.store(1, Ordering::SeqCst);
            }
        }
    }

    /// Wakes the sessions that wait for this moment, and then waits if there is a pause.
    fn come(&self, moment: Moment) {
        self.wake(moment);
        for pause in &self.pauses {
            if pause.at == moment && pause.comes() {
                pause.is_met.store(1, Ordering::SeqCst);
            }
        }
    }
}

impl Gate for Counts {
    fn before(&self, session: u8, number: u32) {
        self.expect(swap(&self.open, session as usize, number.wrapping_add(1)) == 0);
        self.come(Moment::Before(session, number));
    }

    fn ready(&self, session: u8, number: u32, row: u32) {
        self.expect(load(&self.open, session as usize) == number.wrapping_add(1));
        self.expect(swap(&self.rows, session as usize, row.wrapping_add(1)) == row);
        self.come(Moment::Ready(session, number, row));
    }

    fn after(&self, session: u8, number: u32) {
        self.expect(swap(&self.open, session as usize, 0) == number.wrapping_add(1));
        let reached = load(&self.rows, session as usize).wrapping_add(1);
        self.expect(swap(&self.reached, index_of(session, number), reached) == 0);
        self.steps.fetch_add(1, Ordering::SeqCst);
        self.come(Moment::After(session, number));
    }
}

/// Each command of the session had one step. In it the session was ready for each row after its row before, up to the
/// command's own, or for none. Returns how many rows it was ready for in all.
fn check_session(rt: &impl Abort, gate: &Counts, journal: &Journal) -> u32 {
    let mut tried = 0;
    for entry in &journal.entries {
        if let Place::Row(row) = entry.place {
            tried = row.wrapping_add(1);
        }
        let reached = load(&gate.reached, index_of(journal.session, entry.number));
        assert!(rt; reached == tried.wrapping_add(1));
    }
    assert!(rt; load(&gate.rows, journal.session as usize) == tried);
    assert!(rt; journal.tries == tried);
    tried
}

/// The gate was called as these journals say, and for nothing else. Returns how many exchanges there were.
pub(crate) fn check_counts(rt: &impl Abort, gate: &Counts, journals: &[Journal]) -> u32 {
    let (mut steps, mut exchanges) = (0usize, 0u32);
    for journal in journals {
        exchanges = exchanges.wrapping_add(check_session(rt, gate, journal));
        steps = steps.wrapping_add(journal.entries.len());
    }
    assert!(rt; gate.steps.load(Ordering::SeqCst) as usize == steps);
    assert!(rt; gate.strays.load(Ordering::SeqCst) == 0);
    exchanges
}
