ghost use Rattle.std.specs.Prelude.{◌≡◌, ◌↔◌, ◌<◌, ◌≤◌, ◌+◌, List, ◌++◌, ◌∷◌, [], length, IfOk, IfErr, OnOk};
ghost use Rattle.redodb_model.specs.Names.{Text, texts};
ghost use Rattle.redodb_model.specs.State.{empty};
ghost use Rattle.redodb_model.specs.History.{Line as LineOf, Legal};
ghost use Rattle.redodb_model.specs.Renaming.{IsLineBelow};
ghost use Rattle.redodb_commands.specs.Meaning.{line_of, line_at};
ghost use Rattle.redodb_history.specs.Histories.{header_of};
ghost use Rattle.redodb_history.specs.HistoryTexts.{IsHistory};
ghost use Rattle.redodb_history.specs.HistoryFaults.{IsHistoryFault};
ghost use Rattle.redodb_live.specs.Support.LiveState.{state_in, calls_in};
ghost use Rattle.redodb_replay.specs.Verdicts.{IsSame, IsVerdict, verdict_at};
ghost use Rattle.redodb_replay.specs.Support.Verdicts.{IsVerdictBelow, IsJudged};

use redodb_commands::Line;
use redodb_history::{HistoryFault, Verdict, cut_at, read_header};
use redodb_live::Live;
use std::alloc::{AllocError, Global};

/// Turns the verdict on lines into that on these and one more, which has this number. After a wrong
/// reply no command is done.
fn judge(
    alloc: Global,
    live: &mut Live,
    verdict: &mut Verdict,
    number: usize,
    line: &Line,
) -> Result<(), AllocError>
    requires below { IsLineBelow (length live.old.names) (line_of line.now) }
    requires few { length live.old.names ≤ 65536 }
    requires calls { calls_in live.old < 1048576 }
    ensures names { live.new.names ≡ live.old.names }
    ensures calls { OnOk result (calls_in live.new ≤ calls_in live.old + 1) }
    ensures judged { OnOk result ((lines : List (LineOf Text)) → IsJudged live.old lines verdict.old
        → number ≡ length lines + 1
        → IsJudged live.new (lines ++ line_at live.old.names line.now ∷ []) verdict.new) }
{
    let Verdict::Same(_) = verdict else {
        return Ok(());
    };
    live.names().are_names();
    let reply = live.call(alloc, line.session, &line.command, &line.reply)?;
    if reply.is_same(&line.reply) {
        *verdict = Verdict::Same(number);
    } else {
        *verdict = Verdict::Differs {
            line: number,
            reply,
        };
    }
    Ok(())
}

/// The verdict on the lines of a history, of which its header counts so many. The database, in
/// which nothing is known yet, does their commands.
fn verdict_on(
    alloc: Global,
    count: usize,
    rest: &[u8],
    live: &mut Live,
) -> Result<Verdict, HistoryFault>
    requires few { count ≤ 1048576 }
    requires names { live.old.names ≡ [] }
    requires state { state_in live.old ≡ empty }
    requires calls { calls_in live.old ≡ 0 }
    ensures verdict { IfOk result (λ verdict. (lines : List (LineOf Text))
        × IsHistory (header_of count ++ rest.now) live.new.names lines
        × IsVerdict lines (verdict_at live.new.names verdict)) }
    ensures below { IfOk result (IsVerdictBelow (length live.new.names)) }
    ensures fault { IfErr result (IsHistoryFault (header_of count ++ rest.now)) }
{
    let mut verdict = Verdict::Same(0);
    let mut left = rest;
    'lines: for number in 1..count + 1 {
        let Some((text, after)) = cut_at(left, b'\n') else {
            return Err(HistoryFault::Cut);
        };
        let line = live.read_line(alloc, number, text)?;
        judge(alloc, live, &mut verdict, number, &line)?;
        left = after;
    }
    Ok(verdict)
}

/// Reads a history, and does the command of each line again once the line is read. Gives the
/// verdict, and the database, which knows the history's names. After a wrong reply it only reads
/// on, since the fault of a later line comes first. Ignores what follows the lines.
#[tactic(auto, using(crate::proofs::Inputs::memory_alone))]
pub fn replay(alloc: Global, input: &[u8]) -> Result<(Verdict, Live), HistoryFault>
    // The input is a history of these names, and the verdict on its lines is the right one: all of
    // them are legal, or this is the first wrong line and its right reply.
    ensures verdict { IfOk result (λ judged. (lines : List (LineOf Text))
        × IsHistory input.now judged.1.names lines
        × IsVerdict lines (verdict_at judged.1.names judged.0)) }
    ensures same { (names : List Text) (lines : List (LineOf Text))
        → IsHistory input.now names lines
        → IfOk result (λ judged. IsSame judged.0 ↔ Legal texts lines) }
    // Its numbers are those of the names.
    ensures below { IfOk result (λ judged. IsVerdictBelow (length judged.1.names) judged.0) }
    // A history is refused only if memory runs out.
    ensures only { (names : List Text) (lines : List (LineOf Text))
        → IsHistory input.now names lines → IfErr result (λ fault. fault ≡ HistoryFault.Memory) }
    // A fault is that of the header or of the first faulty line, and a bad header comes before
    // `Memory`.
    ensures fault { IfErr result (IsHistoryFault input.now) }
    ensures bad_header { IsHistoryFault input.now HistoryFault.BadHeader
        → result ≡ Err HistoryFault.BadHeader }
{
    let (count, rest) = read_header(input)?;
    let mut live = Live::new(alloc)?;
    let verdict = verdict_on(alloc, count, rest, &mut live)?;
    Ok((verdict, live))
}
