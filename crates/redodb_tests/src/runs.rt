//! Runs on threads: some that a gate forces and that were worked out by hand, and some that nothing forces.
use crate::gates::Moment;
use crate::outcomes::{Run, check_run};
use std::alloc::AllocError;

/// The first session builds a target and then asks `ood`. The second one's `file` comes between
/// that command's first try and its reply: the second session waits until the first is ready at the
/// fifth row, and the first waits there until the `file` is done.
const LOST_TRY: Run = Run {
    files: &[
        "file a.c 10\nlock a.o\nstart a.o\nifchange a.o a.c\ndone a.o 20\nunlock a.o\nood\n",
        "file a.c 11\n",
    ],
    pairs: &[
        (Moment::Before(1, 0), Moment::Ready(0, 6, 4)),
        (Moment::Ready(0, 6, 4), Moment::After(1, 0)),
    ],
    history: "history 8\n\
        1 file a.c 10 => ok\n\
        1 lock a.o => granted 1\n\
        1 start a.o => ok\n\
        1 ifchange a.o a.c => ok\n\
        1 done a.o 20 => ok\n\
        1 unlock a.o => ok\n\
        2 file a.c 11 => ok\n\
        1 ood => ood a.o\n\
        session 1 7\n",
};

/// A session loses its row to the other's closing command, and has to learn by the row's word that
/// the target failed, and so is out of date. It asks after the other has closed all. By then two
/// rows come after its own.
const CLOSING_ROW_IS_READ: Run = Run {
    files: &[
        "file t 1\nlock t\nstart t\n",
        "file a 1\nood\nlock t\nstart t\nifchange t a\ndone t 2\nood\n",
    ],
    pairs: &[
        (Moment::Before(1, 0), Moment::After(0, 1)),
        (Moment::Before(0, 2), Moment::After(1, 0)),
        (Moment::Before(1, 1), Moment::After(0, 4)),
    ],
    history: "history 13\n\
        1 file t 1 => ok\n\
        1 lock t => granted 1\n\
        2 file a 1 => ok\n\
        1 start t => ok\n\
        1 failed t => ok\n\
        1 unlock t => ok\n\
        2 ood => ood t\n\
        2 lock t => granted 2\n\
        2 start t => ok\n\
        2 ifchange t a => ok\n\
        2 done t 2 => ok\n\
        2 ood => ood\n\
        2 unlock t => ok\n\
        session 1 5\n",
};

/// Two sessions try one lock. The second skips its build while the first has the lock, and does it
/// after it gets the lock. A skipped line is no step.
const BUSY_OF_ANOTHER: Run = Run {
    files: &[
        "? lock t\n? unlock t\n",
        "? lock t\n? start t\n? done t 1\nlock t\n? start t\n? done t 2\n",
    ],
    pairs: &[
        (Moment::Before(1, 0), Moment::After(0, 0)),
        (Moment::Before(0, 1), Moment::After(1, 0)),
        (Moment::Before(1, 3), Moment::After(0, 1)),
    ],
    history: "history 7\n\
        1 lock t => granted 1\n\
        2 lock t => busy 1\n\
        1 unlock t => ok\n\
        2 lock t => granted 2\n\
        2 start t => ok\n\
        2 done t 2 => ok\n\
        2 unlock t => ok\n\
        session 1 2\n",
};

/// Three sessions that want one lock. The second gets `busy` by the first one's grant, and by the
/// third's. Each command waits until the one before it in the history is done.
const BUSY_ACROSS_A_RELEASE: Run = Run {
    files: &[
        "lock t\nunlock t\n",
        "lock t\nlock t\n",
        "lock t\ntargets\n",
    ],
    pairs: &[
        (Moment::Before(1, 0), Moment::After(0, 0)),
        (Moment::Before(0, 1), Moment::After(1, 0)),
        (Moment::Before(2, 0), Moment::After(0, 1)),
        (Moment::Before(1, 1), Moment::After(2, 0)),
        (Moment::Before(2, 1), Moment::After(1, 1)),
    ],
    history: "history 7\n\
        1 lock t => granted 1\n\
        2 lock t => busy 1\n\
        1 unlock t => ok\n\
        3 lock t => granted 2\n\
        2 lock t => busy 2\n\
        3 targets => targets\n\
        3 unlock t => ok\n\
        session 1 2\n",
};

/// A session that waits until the other one's command is done comes second.
const FIRST_WAITS: Run = Run {
    files: &["file a 1\n", "file b 1\n"],
    pairs: &[(Moment::Before(0, 0), Moment::After(1, 0))],
    history: "history 2\n2 file b 1 => ok\n1 file a 1 => ok\nsession 1 1\n",
};

/// The commands of sessions that share no name take turns. Nothing orders their locks, so in the
/// history all of the first session come first.
const BESIDE_OWN_LOCK: Run = Run {
    files: &["lock u\nstart u\ndone u 1\n", "lock t\nlock t\n"],
    pairs: &[
        (Moment::Before(1, 0), Moment::After(0, 0)),
        (Moment::Before(0, 1), Moment::After(1, 0)),
        (Moment::Before(1, 1), Moment::After(0, 1)),
        (Moment::Before(0, 2), Moment::After(1, 1)),
    ],
    history: "history 7\n\
        1 lock u => granted 1\n\
        1 start u => ok\n\
        1 done u 1 => ok\n\
        1 unlock u => ok\n\
        2 lock t => granted 1\n\
        2 lock t => busy 1\n\
        2 unlock t => ok\n\
        session 1 4\n",
};

const RUNS: [Run; 6] = [
    LOST_TRY,
    CLOSING_ROW_IS_READ,
    BUSY_OF_ANOTHER,
    BUSY_ACROSS_A_RELEASE,
    FIRST_WAITS,
    BESIDE_OWN_LOCK,
];

#[test]
fn runs_under_gates(rt: HostRuntime) -> Result<(), AllocError> {
    for run in &RUNS {
        check_run(&rt, rt.alloc(), run)?;
    }
    Ok(())
}

/// Four sessions that want two targets, are refused, lose rows and ask for lists. Six lines of the first two and one of
/// the others always have a row. So even if they go one after the other, these try 1, 2, 8 and 14 exchanges or more.
const CONTENDING: Run = Run {
    files: &[
        "lock t\nstart t\nifchange t a u\nood\ndone t 1\nunlock t\nfile a 1\nsources\n",
        "lock u\nstart u\nifcreate u b\nood\nfailed u\nunlock u\ngone a\ntargets\n",
        "lock t\n? start t\n? always t\n? done t 2\nlock u\n? start u\n? done u -\nood\n",
        "lock u\n? start u\n? stamp u 61\nlock t\n? ifchange t a\nunlock t\nunlock u\nood\n",
    ],
    pairs: &[],
    history: "history ",
};

#[test]
fn contended_runs(rt: HostRuntime) -> Result<(), AllocError> {
    let mut exchanges = 0u32;
    for _ in 0..200 {
        exchanges = exchanges.wrapping_add(check_run(&rt, rt.alloc(), &CONTENDING)?);
    }
    assert!(rt; exchanges >= 5_000);
    Ok(())
}
