//! Laws of logs.

ghost use Rattle.std.specs.Prelude.{◌≡◌, ◌⊎◌, ◌<◌, ◌^◌, ◌++◌, List, Some, [], length};
ghost use Rattle.redodb_model.specs.Names.{Text, texts};
ghost use Rattle.redodb_model.specs.State.{empty};
ghost use Rattle.redodb_model.specs.History.{Line, left_by};
ghost use Rattle.redodb_live.specs.Lines.{names_after};
ghost use Rattle.redodb_log.specs.Logs.{Past, past_lines, HasPast, IsLogOf, IsTornHead};

/// Any beginning of a log is a log of a prefix of its lines, or ends in what comes before them.
pub fn cut_log()
    ensures { (past : Past) (whole cut rest : Text) (lines : List (Line Text))
        → IsLogOf past whole lines [] → length (past_lines past ++ lines) < 2 ^ 32
        → whole ≡ cut ++ rest → IsTornHead past cut
        ⊎ ((prefix : List (Line Text)) × (back : List (Line Text)) × (torn : Text)
        × (lines ≡ prefix ++ back) × IsLogOf past cut prefix torn) }
{}

/// Bytes are a log of at most one list of lines after a past.
pub fn one_log()
    ensures { (past : Past) (bytes : Text) (a b : List (Line Text)) (r s : Text)
        → IsLogOf past bytes a r → IsLogOf past bytes b s
        → length (past_lines past ++ a) < 2 ^ 32 → length (past_lines past ++ b) < 2 ^ 32
        → (a ≡ b) × (r ≡ s) }
{}

/// Bytes begin with the dump of at most one state: all past lines that they can have left the same.
pub fn one_past()
    ensures { (bytes : Text) (a b : List (Line Text)) → HasPast (Some a) bytes
        → HasPast (Some b) bytes → (names_after a ≡ names_after b)
        × (left_by texts empty a ≡ left_by texts empty b) }
{}
