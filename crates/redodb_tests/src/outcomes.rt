//! The outcomes of runs of whole plans, each session on a thread of its own.
use crate::gates::{Counts, Pairs, check_counts};
use crate::plans::planned;
use redodb_journal::{Journal, Plan};
use redodb_run::{run, run_text};
use std::alloc::{AllocError, Global};
use std::process::Abort;
use std::sync::Wait;
use std::thread::Threads;

/// Files that are run, and in which order sessions wait.
#[derive(Clone, Copy)]
pub(crate) struct Run {
    pub(crate) files: &'static [&'static str],
    pub(crate) pairs: Pairs,
    /// The history, if there is only one.
    pub(crate) history: &'static str,
}

/// The run text of a plan under a gate, and the journals.
fn ran<R: Threads + Wait + Sync>(
    rt: &R,
    alloc: Global,
    plan: &Plan,
    gate: &Counts,
) -> Result<(Vec<u8>, Vec<Journal>), AllocError> {
    let outcome = run(rt, alloc, plan, gate)?;
    let text = run_text(rt, alloc, plan, &outcome)?;
    Ok((text, outcome.journals))
}

/// The plan has this history under the gate, and the gate is called as the journals say, and at each pause a session
/// waits. Returns how many exchanges there were.
fn check_gate<R: Threads + Wait + Abort + Sync>(
    rt: &R,
    alloc: Global,
    plan: &Plan,
    gate: &Counts,
    history: &str,
) -> Result<u32, AllocError> {
    let (text, journals) = ran(rt, alloc, plan, gate)?;
    assert!(rt; text.starts_with(history.as_bytes()), "{text:?}");
    assert!(rt; gate.are_met());
    Ok(check_counts(rt, gate, &journals))
}

/// The same of a plan and the pauses of its run.
fn check_plan<R: Threads + Wait + Abort + Sync>(
    rt: &R,
    alloc: Global,
    plan: &Plan,
    run: &Run,
) -> Result<u32, AllocError> {
    let gate = Counts::new(alloc, run.pairs)?;
    check_gate(rt, alloc, plan, &gate, run.history)
}

/// The same of a run.
pub(crate) fn check_run<R: Threads + Wait + Abort + Sync>(
    rt: &R,
    alloc: Global,
    run: &Run,
) -> Result<u32, AllocError> {
    let plan = planned(alloc, run.files)?.expect(rt, "a plan");
    check_plan(rt, alloc, &plan, run)
}
