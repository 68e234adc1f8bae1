//! The program `redodb-live`: a conversation with one database, and its log; or a backup of a log.
#![tactic(auto)]

ghost use Rattle.std.specs.Prelude.{◌≡◌, [], IfOk};

mod backing_up;
mod copying;
mod devices;
mod fault;
mod log_file;
mod opening;
mod reading;
mod replacing;
mod writing;

use backing_up::copy_log;
use devices::FileDevices;
use fault::{CopyFault, Fault};
use log_file::LogFile;
use opening::{hold_closed, open_log};
use redodb_arguments::{self as words, Backup, LiveJob, WordsFault, live_job};
use redodb_conversation::{Compacting, Keeping, serve};
use redodb_io::Watched;
use redodb_keeping::ServeFault;
use std::fs::File;
use std::process::ExitCode;
use std::rt::Env;
use std::{env, io};

const VERSION: &str = "0.3.0";

/// The words after the program's name.
fn given_words<R: Env + AllocGlobal>(rt: &R) -> Result<Vec<String>, Fault> {
    match env::args(rt) {
        Ok(all) => Ok(all.skip(1).collect(rt.alloc())?),
        Err(error) if error.kind() == io::ErrorKind::OutOfMemory => Err(Fault::Memory),
        Err(_) => Err(Fault::Usage),
    }
}

/// clap takes `--` for the end of the flags; this program refuses it.
fn asked<R: Env + AllocGlobal>(rt: &R) -> Result<LiveJob, Fault> {
    let words = given_words(rt)?;
    if words.iter().any(|word| word.as_str() == "--") {
        return Err(Fault::Usage);
    }
    match live_job(rt.alloc(), &words) {
        Ok(job) => Ok(job),
        Err(WordsFault::Memory) => Err(Fault::Memory),
        Err(WordsFault::Usage) => Err(Fault::Usage),
    }
}

/// When a dump takes the place of the log.
fn compacting(log: &words::LogFile) -> Compacting {
    if log.compact {
        Compacting::Always
    } else if log.whole {
        Compacting::Never
    } else {
        Compacting::InTime
    }
}

/// How the log that the arguments name is kept.
fn keeping(log: Option<&words::LogFile>) -> Keeping {
    match log {
        Some(log) => Keeping {
            sync: log.sync,
            salvage: log.salvage,
            compacting: compacting(log),
        },
        None => Keeping {
            sync: false,
            salvage: false,
            compacting: Compacting::Never,
        },
    }
}

/// The log and the output of a conversation.
fn devices_of<'a>(
    rt: &'a HostRuntime,
    log: Option<&'a words::LogFile>,
) -> Result<FileDevices<'a>, Fault>
    ensures { IfOk result (λ done. done ≡ []) }
{
    let log = match log {
        Some(asked) => open_log(rt, asked)?,
        None => LogFile::new("", String::new(rt.alloc()), String::new(rt.alloc()), None),
    };
    Ok(FileDevices::new(rt, log))
}

/// The descriptors that are held in a conversation with a log.
fn held(rt: &HostRuntime, log: Option<&words::LogFile>) -> Result<Vec<File>, Fault> {
    match log {
        Some(_) => hold_closed(rt),
        None => Ok(Vec::new(rt.alloc())),
    }
}

/// The conversation that the arguments ask for.
fn converse(rt: &HostRuntime, log: Option<&words::LogFile>) -> Result<(), Fault> {
    let _held = held(rt, log)?;
    let mut devices = devices_of(rt, log)?;
    let mut input = Watched::new(rt.stdin());
    serve(rt.alloc(), VERSION, keeping(log), &mut input, &mut devices)?;
    Ok(())
}

/// Serves nobody over a copy of a log, so that a dump takes the place of its lines.
fn serve_nobody(rt: &HostRuntime, copy: &mut FileDevices<'_>) -> Result<(), Fault>
    requires { copy.old ≡ [] }
{
    let keeping = Keeping {
        sync: true,
        salvage: false,
        compacting: Compacting::Always,
    };
    let mut nothing = Watched::new(io::empty());
    match serve(rt.alloc(), VERSION, keeping, &mut nothing, copy) {
        Ok(()) => Ok(()),
        Err(ServeFault::Log(_)) => Err(Fault::Copy(CopyFault::Write)),
        Err(fault) => Err(Fault::from(fault)),
    }
}

/// Makes a backup. If that fails, there is no copy.
fn back_up(rt: &HostRuntime, asked: &Backup) -> Result<(), Fault> {
    let _held = hold_closed(rt)?;
    let mut copy = FileDevices::new(rt, copy_log(rt, asked)?);
    let done = serve_nobody(rt, &mut copy);
    if done.is_err() {
        copy.remove();
    }
    done
}

fn main(rt: HostRuntime) -> ExitCode {
    let job = asked(&rt);
    let done = match &job {
        Ok(LiveJob::Talk(log)) => converse(&rt, log.as_ref()),
        Ok(LiveJob::BackUp(backup)) => back_up(&rt, backup),
        Err(fault) => Err(*fault),
    };
    match done {
        Ok(()) => ExitCode::SUCCESS,
        Err(fault) => {
            fault::tell(&rt, job.as_ref().ok(), fault);
            ExitCode::from(2)
        }
    }
}
