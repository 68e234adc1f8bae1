//! The program `redodb`: runs of session files, and replays of histories.
#![tactic(auto)]

ghost use Rattle.std.specs.Prelude.{◌≡◌, ◌⊎◌, ℕ, ◌<◌, length, IfOk, IfErr};

use redodb_arguments::{Job, WordsFault, finish, job};
use redodb_io::Watched;
use redodb_replay::{Verdict, replay_text};
use redodb_run::run_texts;
use redodb_text::Fault;
use std::process::ExitCode;
use std::rt::{Env, Files};
use std::sync::Wait;
use std::thread::Threads;
use std::{env, fs, io, mem};

/// The words after the program's name.
fn given_words<R: Env + AllocGlobal>(rt: &R) -> Result<Vec<String>, Fault> {
    match env::args(rt) {
        Ok(all) => Ok(all.skip(1).collect(rt.alloc())?),
        Err(error) if error.kind() == io::ErrorKind::OutOfMemory => Err(Fault::Memory),
        Err(_) => Err(Fault::Usage),
    }
}

/// Opens the file of this number.
fn open<R: Files>(rt: &R, file: usize, name: &str) -> Result<Watched<R::File>, Fault>
    ensures { IfErr result (λ fault. (fault ≡ Fault.Memory) ⊎ (fault ≡ Fault.CannotOpen file)) }
{
    match fs::open(rt, name) {
        Ok(opened) => Ok(Watched::new(opened)),
        Err(error) if error.kind() == io::ErrorKind::OutOfMemory => Err(Fault::Memory),
        Err(_) => Err(Fault::CannotOpen { file }),
    }
}

/// Opens each file, in order.
fn open_all<R: Files + AllocGlobal>(
    rt: &R,
    names: &[String],
) -> Result<Vec<Watched<R::File>>, Fault>
    ensures each { IfOk result (λ files. length files.items ≡ length names.now) }
    ensures faults { IfErr result (λ fault. (fault ≡ Fault.Memory)
        ⊎ ((file : ℕ) × (file < length names.now) × (fault ≡ Fault.CannotOpen file))) }
{
    let mut opened = Vec::new(rt.alloc());
    for (file, name) in names.iter().enumerate() {
        opened.push(open(rt, file, name)?)?;
    }
    Ok(opened)
}

/// The fault of words that mean no job.
fn fault_of(fault: WordsFault) -> Fault {
    match fault {
        WordsFault::Memory => Fault::Memory,
        WordsFault::Usage => Fault::Usage,
    }
}

/// Does the job, and flushes standard output. Only a replay has a verdict. After a replay the
/// program ends, so the system takes the database's memory back, which is faster than to drop it.
fn done<R: Threads + Wait + Sync + Files + Input + Print + AllocGlobal>(
    rt: &R,
    job: &Job,
) -> Result<Option<Verdict>, Fault> {
    let mut out = Watched::new(io::writer(rt));
    let verdict = match job {
        Job::Input => {
            let mut files = Vec::new(rt.alloc());
            files.push(Watched::new(rt.reader()))?;
            run_texts(rt, rt.alloc(), &mut files, &mut out)?;
            None
        }
        Job::Run(names) => {
            let mut files = open_all(rt, names)?;
            run_texts(rt, rt.alloc(), &mut files, &mut out)?;
            None
        }
        Job::Replay(name) => {
            let mut input = open(rt, 0, name)?;
            let (verdict, live) = replay_text(rt.alloc(), &mut input, &mut out)?;
            mem::forget(live);
            Some(verdict)
        }
    };
    match out.flush() {
        Ok(()) => Ok(verdict),
        Err(_) => Err(Fault::Write),
    }
}

fn main(rt: HostRuntime) -> ExitCode {
    let mut err = Watched::new(rt.stderr());
    let asked = match given_words(&rt) {
        Ok(words) => job(rt.alloc(), &words).map_err(fault_of),
        Err(fault) => Err(fault),
    };
    let status = match asked {
        Ok(job) => finish(&done(&rt, &job), job.files(), &mut err),
        Err(fault) => finish(&Err(fault), &[], &mut err),
    };
    ExitCode::from(status)
}
