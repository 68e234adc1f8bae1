//! The invariant of the board while sessions work on it.

ghost use Rattle.atomic_table.specs.Table.{State};
ghost use Rattle.std.specs.Prelude.{◌≡◌, ℕ, ◌<◌, List, Some, length};
ghost use Rattle.redodb_model.specs.Placed.{part_of, rows_in};
ghost use Rattle.redodb_model.specs.Journals.{Numbered};
ghost use Rattle.redodb_history_laws.specs.ByRows.{records_left};
ghost use Rattle.redodb_journal.specs.Plans.{PlanOf, IsPlan};
ghost use Rattle.redodb_board.specs.Core.{Line, row};
ghost use Rattle.redodb_board.specs.Histories.{IsHistoryOf, Runs, words_of};
ghost use Rattle.redodb_board.specs.Plays.{next, own_way};
ghost use Rattle.redodb_board.specs.Rows.{naming_of, rows_of};
ghost use Rattle.redodb_board.specs.Rule.{Orderly};
ghost use Rattle.redodb_board.specs.Views.{ViewOf};

/// What each step keeps implies the running rule: between any two steps there is one legal placed
/// history whose words are the board's.
#[tactic(auto, using(crate::proofs::Running::runs))]
pub fn the_rule_runs()
    ensures { (p : PlanOf) (s : State (Unit {0}) ViewOf) → Orderly p s → Runs p s }
{}

/// The row words determine the records: two histories of a plan with the same row words leave the
/// same records.
#[tactic(auto, using(crate::proofs::Ended::words_fix))]
pub fn words_fix_the_records()
    ensures { (p : PlanOf) (one other : List Line) →
        IsPlan p → IsHistoryOf p one → IsHistoryOf p other →
        words_of p one ≡ words_of p other →
        records_left (naming_of p) one ≡ records_left (naming_of p) other }
{}

/// The rows suffice: if what a session does next is on a row, a history of the plan has filled
/// fewer rows than the board has.
#[tactic(auto, using(crate::proofs::RowsLeft::row_left))]
pub fn no_row_is_wanting()
    ensures { (p : PlanOf) (lines : List Line) (s : ℕ) (n : Numbered ℕ) →
        IsPlan p → IsHistoryOf p lines → s < length p.scripts →
        next p s (part_of s lines) ≡ Some n → own_way (part_of s lines) n.command ≡ row →
        rows_in lines < rows_of p }
{}
