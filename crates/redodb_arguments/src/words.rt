ghost use Rattle.std.specs.Prelude.{◌≡◌, ◌≢◌, ◌↔◌, ◌⊎◌, [], false, map, string_bytes, IfOk, IfErr, IfSome, IsSome, OnOk, IsOkAnd};
ghost use Rattle.clap.specs.Words.{app_of, kind_of, rule_of, subcommand_rows_of};
ghost use Rattle.redodb_arguments.specs.Words.{redodb, file_rule, files_rule, Asks, AreFaultless, AskFor};

use crate::fault::WordsFault;
use crate::task::Job;
use clap::error::ErrorKind;
use clap::{Arg, ArgAction, ArgMatches, Command, Error};
use std::alloc::{AllocError, Global};

/// `FILE...`.
fn files<'a>(alloc: Global) -> Arg<'a>
    ensures rule { rule_of result ≡ files_rule }
    ensures own { result.global ≡ false }
{
    Arg::new(alloc, "FILE")
        .required(true)
        .num_args(1..)
        .action(ArgAction::Append)
}

/// `FILE`.
fn file<'a>(alloc: Global) -> Arg<'a>
    ensures rule { rule_of result ≡ file_rule }
    ensures own { result.global ≡ false }
{
    Arg::new(alloc, "FILE")
        .required(true)
        .action(ArgAction::Set)
}

/// `run FILE...` and `replay FILE`.
fn command<'a>(alloc: Global) -> Result<Command<'a>, AllocError>
    ensures { IfOk result (λ command. app_of command ≡ redodb) }
{
    let run = Command::new(alloc, "run").arg(files(alloc))?;
    let replay = Command::new(alloc, "replay").arg(file(alloc))?;
    Command::new(alloc, "redodb")
        .no_binary_name(true)
        .subcommand_required(true)
        .subcommand(run)?
        .subcommand(replay)
}

fn copies(alloc: Global, texts: &[&str]) -> Result<Vec<String>, AllocError>
    ensures { IfOk result (λ copies. map string_bytes copies.items
        ≡ map (λ text. text.now) texts.now) }
{
    let mut copies = Vec::new(alloc);
    for text in texts {
        copies.push(text.to_string(alloc)?)?;
    }
    Ok(copies)
}

/// `None` if the matches are those of another command.
fn job_of(alloc: Global, matches: &ArgMatches<'_>) -> Result<Option<Job>, AllocError>
    ensures asked { IfOk result (λ found. IfSome found (Asks (subcommand_rows_of matches.now))) }
    ensures only { (job : Job) → Asks (subcommand_rows_of matches.now) job
        → IfOk result (λ found. IsSome found) }
{
    match matches.subcommand() {
        Some(("run", run)) => match run.get_strs("FILE") {
            Some(files) => Ok(Some(Job::Run(copies(alloc, files)?))),
            None => Ok(None),
        },
        Some(("replay", replay)) => match replay.get_str("FILE") {
            Some(file) => Ok(Some(Job::Replay(file.to_string(alloc)?))),
            None => Ok(None),
        },
        _ => Ok(None),
    }
}

/// Every refusal for another cause than memory is the fault `usage`, a call for help included.
pub(crate) fn refusal(error: &Error) -> WordsFault
    ensures memory { (result ≡ WordsFault.Memory) ↔ (kind_of error.now ≡ ErrorKind.OutOfMemory) }
    ensures usage { (result ≡ WordsFault.Usage) ↔ (kind_of error.now ≢ ErrorKind.OutOfMemory) }
{
    match error.kind() {
        ErrorKind::OutOfMemory => WordsFault::Memory,
        _ => WordsFault::Usage,
    }
}

/// The job that the words after the program's name mean. Without words it allocates nothing.
pub fn job(alloc: Global, words: &[String]) -> Result<Job, WordsFault>
    ensures input { IsOkAnd result (λ job. job ≡ Job.Input) ↔ (words.now ≡ []) }
    ensures others { IfErr result (λ fault. (fault ≡ WordsFault.Memory)
        ⊎ (fault ≡ WordsFault.Usage)) }

    // A job is that of its words, in which clap finds no fault.
    ensures asked { IfOk result (λ job. words.now ≢ [] → AskFor words.now job) }
    ensures sound { OnOk result (words.now ≢ [] → AreFaultless words.now) }

    // Words that mean a job, and in which clap finds no fault, are refused only if memory runs out.
    ensures only { (job : Job) → AskFor words.now job → AreFaultless words.now
        → IfErr result (λ fault. fault ≡ WordsFault.Memory) }
{
    if words.is_empty() {
        return Ok(Job::Input);
    }
    let Ok(command) = command(alloc) else {
        return Err(WordsFault::Memory);
    };
    let matches = match command.try_get_matches_from(words) {
        Ok(matches) => matches,
        Err(error) => return Err(refusal(&error)),
    };
    match job_of(alloc, &matches) {
        Ok(Some(job)) => Ok(job),
        Ok(None) => Err(WordsFault::Usage),
        Err(_) => Err(WordsFault::Memory),
    }
}
