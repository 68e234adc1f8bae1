//! What numbers of entries and places of pairs mean.

ghost use Rattle.std.specs.Prelude.{◌≡◌, ◌≢◌, ◌<◌, ◌≤◌, ℕ, Bool, true, false, List, Some, AllPairs, length, slice_get};
ghost use Rattle.redodb_model.specs.Names.{Text, put};
ghost use Rattle.redodb_records.specs.Rows.{by_number, with_change, with_created, without_rows};
ghost use Rattle.redodb_replica.specs.CompactCells.{HasEntry, mark_for};
ghost use Rattle.redodb_graph.specs.Graphs.{IsOnce};
ghost use Rattle.redodb_graph.specs.Pairs.{AreAscending};
ghost use Rattle.redodb_replica.specs.PairRows.{IsBlock, IsChanged, IsCleared, IsMade, IsPut, rows_of};
ghost use Rattle.redodb_replica.specs.declared.mark.Mark.{Mark};
ghost use Rattle.redodb_replica.specs.declared.rows.Row.{Row};

use redodb_graph::Graph;

/// Two marks that stand for the same one are equal, if no stamp and no digest has two numbers.
pub fn same_mark()
    ensures { (stamps digests : List Text) (one other : Mark) → IsOnce stamps → IsOnce digests
        → HasEntry stamps digests one → HasEntry stamps digests other
        → mark_for stamps digests one ≡ mark_for stamps digests other → one ≡ other }
{}

/// A law of the graph: the pairs ascend by their places, so no pair has two.
pub(crate) fn pairs_are_once(graph: &Graph)
    ensures { AreAscending graph.now.tables.pairs.items }
{
    let _ = graph.pairs();
}

/// If no pair has two places, a row that is put at the place of a pair is one of its target on its name, and no other
/// row changes.
pub fn row_put()
    ensures change { (stamps digests : List Text) (pairs : List (ℕ × ℕ)) (old new : List Row)
        (always : ℕ → Bool) (place t n : ℕ) (mark : Mark) → AllPairs ◌≢◌ pairs
        → slice_get pairs place ≡ Some (t, n) → place < length old
        → IsPut place (IsChanged mark) old new → rows_of stamps digests pairs new always
        ≡ with_change (rows_of stamps digests pairs old always) t n
        (mark_for stamps digests mark) }
    ensures created { (stamps digests : List Text) (pairs : List (ℕ × ℕ)) (old new : List Row)
        (always : ℕ → Bool) (place t n : ℕ) → AllPairs ◌≢◌ pairs
        → slice_get pairs place ≡ Some (t, n) → place < length old → IsPut place IsMade old new
        → rows_of stamps digests pairs new always
        ≡ with_created (rows_of stamps digests pairs old always) t n }
{}

/// If the places of a target's pairs are cleared, its rows are gone, and all other rows stay.
pub fn block_cleared()
    ensures { (stamps digests : List Text) (pairs : List (ℕ × ℕ)) (old new : List Row)
        (always : ℕ → Bool) (t from to : ℕ) → length old ≡ length pairs
        → IsBlock pairs t from to → to ≤ length pairs → IsCleared from to old new
        → rows_of stamps digests pairs new (put by_number t false always)
        ≡ without_rows (rows_of stamps digests pairs old always) t }
{}
