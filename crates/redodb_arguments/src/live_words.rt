ghost use Rattle.std.specs.Prelude.{◌≡◌, ◌↔◌, ◌⊎◌, true, false, codes, Some, None, IfOk, IfErr, IfSome, IsSome, OnOk};
ghost use Rattle.clap.specs.Words.{app_of, first_of, found_of, kind_of, rows_of, rule_of};
ghost use Rattle.redodb_arguments.specs.LiveWords.{redodb_live, log_app, flag_rule, value_rule, Asks, AskFor, AreFaultless, HasNoFlag, IsGiven};

use crate::fault::WordsFault;
use crate::task::{Backup, LiveJob, LogFile};
use crate::words::refusal;
use clap::{Arg, ArgAction, ArgMatches, Command};
use std::alloc::{AllocError, Global};

/// `--NAME FILE`.
fn value<'a>(alloc: Global, name: &'a str) -> Arg<'a>
    ensures rule { rule_of result ≡ value_rule name.now }
    ensures own { result.global ≡ false }
{
    Arg::new(alloc, name).long(name).action(ArgAction::Set)
}

/// `--NAME`.
fn flag<'a>(alloc: Global, name: &'a str) -> Arg<'a>
    ensures rule { rule_of result ≡ flag_rule name.now }
    ensures own { result.global ≡ false }
{
    Arg::new(alloc, name).long(name).action(ArgAction::SetTrue)
}

/// A log, `--sync` and `--salvage`.
fn with_log<'a>(alloc: Global) -> Result<Command<'a>, AllocError>
    ensures { IfOk result (λ command. app_of command ≡ log_app) }
{
    Command::new(alloc, "redodb-live")
        .no_binary_name(true)
        .arg(value(alloc, "log"))?
        .arg(flag(alloc, "sync"))?
        .arg(flag(alloc, "salvage"))
}

/// A log, its four flags, and a backup of it.
fn command<'a>(alloc: Global) -> Result<Command<'a>, AllocError>
    ensures { IfOk result (λ command. app_of command ≡ redodb_live) }
{
    with_log(alloc)?
        .arg(flag(alloc, "compact"))?
        .arg(flag(alloc, "whole"))?
        .arg(value(alloc, "backup"))
}

/// Whether the flag is among the words.
#[tactic(auto, using(crate::proofs::LogAsked::value_of))]
fn is_given(matches: &ArgMatches<'_>, flag: &str) -> bool
    ensures { (result ≡ true) ↔ IsGiven flag.now (rows_of (found_of matches.now)) }
{
    match matches.get_str(flag) {
        Some(value) => value == "true",
        None => false,
    }
}

/// Whether any of the four flags is among the words.
fn has_flag(matches: &ArgMatches<'_>) -> bool
    ensures { (result ≡ false) ↔ HasNoFlag (rows_of (found_of matches.now)) }
{
    is_given(matches, "sync")
        || is_given(matches, "salvage")
        || is_given(matches, "compact")
        || is_given(matches, "whole")
}

/// The conversation of words that ask for no backup: `None` if flags of a log are given without one, or two flags that
/// exclude each other.
fn talk_of(alloc: Global, matches: &ArgMatches<'_>) -> Result<Option<LiveJob>, AllocError>
    requires { first_of (codes "backup") (rows_of (found_of matches.now)) ≡ None }
    ensures asked { IfOk result (λ found. IfSome found (Asks (rows_of (found_of matches.now)))) }
    ensures only { (job : LiveJob) → Asks (rows_of (found_of matches.now)) job
        → IfOk result (λ found. IsSome found) }
{
    let compact = is_given(matches, "compact");
    let whole = is_given(matches, "whole");
    if compact && whole {
        return Ok(None);
    }
    match matches.get_str("log") {
        Some(name) => {
            let name = name.to_string(alloc)?;
            Ok(Some(LiveJob::Talk(Some(LogFile {
                name,
                sync: is_given(matches, "sync"),
                salvage: is_given(matches, "salvage"),
                compact,
                whole,
            }))))
        }
        None if has_flag(matches) => Ok(None),
        None => Ok(Some(LiveJob::Talk(None))),
    }
}

/// `None` if the words ask for nothing: a backup needs a log, and no flag goes with it.
fn job_of(alloc: Global, matches: &ArgMatches<'_>) -> Result<Option<LiveJob>, AllocError>
    ensures asked { IfOk result (λ found. IfSome found (Asks (rows_of (found_of matches.now)))) }
    ensures only { (job : LiveJob) → Asks (rows_of (found_of matches.now)) job
        → IfOk result (λ found. IsSome found) }
{
    let Some(copy) = matches.get_str("backup") else {
        return talk_of(alloc, matches);
    };
    if has_flag(matches) {
        return Ok(None);
    }
    match matches.get_str("log") {
        Some(log) => {
            let log = log.to_string(alloc)?;
            let copy = copy.to_string(alloc)?;
            Ok(Some(LiveJob::BackUp(Backup { log, copy })))
        }
        None => Ok(None),
    }
}

/// What the words after the name of `redodb-live` mean.
pub fn live_job(alloc: Global, words: &[String]) -> Result<LiveJob, WordsFault>
    ensures others { IfErr result (λ fault. (fault ≡ WordsFault.Memory)
        ⊎ (fault ≡ WordsFault.Usage)) }

    // A job is that of its words, in which clap finds no fault.
    ensures asked { IfOk result (AskFor words.now) }
    ensures sound { OnOk result (AreFaultless words.now) }

    // Words that mean a job, and in which clap finds no fault, are refused only if memory runs out.
    ensures only { (job : LiveJob) → AskFor words.now job → AreFaultless words.now
        → IfErr result (λ fault. fault ≡ WordsFault.Memory) }
{
    let Ok(command) = command(alloc) else {
        return Err(WordsFault::Memory);
    };
    let matches = match command.try_get_matches_from(words) {
        Ok(matches) => matches,
        Err(error) => return Err(refusal(&error)),
    };
    match job_of(alloc, &matches) {
        Ok(Some(job)) => Ok(job),
        Ok(None) => Err(WordsFault::Usage),
        Err(_) => Err(WordsFault::Memory),
    }
}
