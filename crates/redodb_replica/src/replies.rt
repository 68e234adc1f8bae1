//! The reply to a step, from cells, rows and a memo of what is out of date, which is settled where a reply reads it.

ghost use Rattle.std.specs.Prelude.{◌≡◌, ◌<◌, ℕ, List, None, Some, IfOk, IsOk, false, length, slice_get};
ghost use Rattle.redodb_model.specs.Command as commands;
ghost use Rattle.redodb_model.specs.Command.{asked_lock};
ghost use Rattle.redodb_model.specs.Renaming.{IsReplyBelow};
ghost use Rattle.redodb_model.specs.Step.{Tells, stale_reply};
ghost use Rattle.redodb_commands.specs.Meaning.{reply_of};
ghost use Rattle.redodb_graph.specs.Steps.{AreListed, Means};
ghost use Rattle.redodb_replica.specs.Replicas.{IsStepBelow, records_in};
ghost use Rattle.redodb_replica.specs.Replies.{lists_names, naming_in};
ghost use Rattle.redodb_replica.specs.Support.Changes.{IsListReady};
ghost use Rattle.redodb_replica.specs.Support.Fits.{IsFit};
ghost use Rattle.redodb_replica.specs.Support.Memos.{IsMemoOf};

use crate::cells::CompactCells;
use crate::lists::{ood, sources, stale, targets};
use crate::memo::Memo;
use crate::rows::PairRows;
use redodb_commands::{Digest, Reply};
use redodb_graph::{Graph, Listed, Step};
use std::alloc::{AllocError, Global};

fn reply_to_ifchange(stale: Vec<u32>) -> Reply
    ensures { reply_of result ≡ stale_reply stale.items }
{
    if stale.is_empty() {
        Reply::Okay
    } else {
        Reply::Stale(stale)
    }
}

/// Which of the listed names are stale, if any.
fn stale_among(
    alloc: Global,
    graph: &Graph,
    cells: &CompactCells,
    rows: &PairRows,
    memo: &mut Memo,
    list: &Listed,
) -> Result<Reply, AllocError>
    requires fit { IsFit graph.now cells.now rows.now }
    requires memo { IsMemoOf graph.now.tables cells.now rows.now memo.old }
    requires list { IsListReady graph.now.tables (length cells.now) list.now }
    ensures tells { (t : ℕ) (names : List ℕ) → AreListed graph.now.tables t names list.now
        → IfOk result (λ reply. Tells (naming_in graph.now)
        (records_in graph.now.tables cells.now rows.now) (commands.IfChange t names)
        (reply_of reply)) }
    ensures below { IfOk result (λ reply. IsReplyBelow (length cells.now) (reply_of reply)) }
    ensures memo { IsMemoOf graph.now.tables cells.now rows.now memo.new }
{
    memo.settle(graph, cells, rows);
    let places = graph.listed(list);
    let names = stale(alloc, graph, cells, memo.marks(), places)?;
    Ok(reply_to_ifchange(names))
}

/// The targets that have a file and are out of date.
fn ood_reply(
    alloc: Global,
    graph: &Graph,
    cells: &CompactCells,
    rows: &PairRows,
    memo: &mut Memo,
) -> Result<Reply, AllocError>
    requires fit { IsFit graph.now cells.now rows.now }
    requires memo { IsMemoOf graph.now.tables cells.now rows.now memo.old }
    ensures tells { IfOk result (λ reply. Tells (naming_in graph.now)
        (records_in graph.now.tables cells.now rows.now) commands.Ood (reply_of reply)) }
    ensures below { IfOk result (λ reply. IsReplyBelow (length cells.now) (reply_of reply)) }
    ensures memo { IsMemoOf graph.now.tables cells.now rows.now memo.new }
{
    memo.settle(graph, cells, rows);
    Ok(Reply::Ood(ood(alloc, graph, cells, memo.marks())?))
}

fn digest_at(graph: &Graph, number: u32) -> [u8; 20]
    requires { number < length graph.now.tables.digests }
    ensures { slice_get graph.now.tables.digests number ≡ Some result }
{
    graph.digests()[number as usize]
}

/// The reply to an accepted step. Only the lists of names allocate.
pub(crate) fn answer(
    alloc: Global,
    graph: &Graph,
    cells: &CompactCells,
    rows: &PairRows,
    memo: &mut Memo,
    step: &Step,
) -> Result<Reply, AllocError>
    requires fit { IsFit graph.now cells.now rows.now }
    requires memo { IsMemoOf graph.now.tables cells.now rows.now memo.old }
    requires numbers { IsStepBelow graph.now.tables (length cells.now) step.now }
    requires no_lock { (x : commands.Command ℕ) → Means graph.now.tables step.now x
        → asked_lock x ≡ None }
    ensures tells { (x : commands.Command ℕ) → Means graph.now.tables step.now x
        → IfOk result (λ reply. Tells (naming_in graph.now)
        (records_in graph.now.tables cells.now rows.now) x (reply_of reply)) }
    ensures below { IfOk result (λ reply. IsReplyBelow (length cells.now) (reply_of reply)) }
    ensures ok { (x : commands.Command ℕ) → Means graph.now.tables step.now x
        → lists_names x ≡ false → IsOk result }
    ensures memo { IsMemoOf graph.now.tables cells.now rows.now memo.new }
{
    match step {
        Step::Lock(_) => unreachable!(),
        Step::IfChange(_, list) => stale_among(alloc, graph, cells, rows, memo, list),
        Step::Stamp(_, digest) => Ok(Reply::Stamped(Digest::new(digest_at(graph, *digest)))),
        Step::Ood => ood_reply(alloc, graph, cells, rows, memo),
        Step::Targets => Ok(Reply::Targets(targets(alloc, graph, cells)?)),
        Step::Sources => Ok(Reply::Sources(sources(alloc, graph, cells, rows)?)),
        _ => Ok(Reply::Okay),
    }
}
