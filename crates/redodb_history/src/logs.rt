//! Laws of logs: the texts of lines, one after another, of which a beginning may be left.

ghost use Rattle.std.specs.Prelude.{◌≡◌, ℕ, ◌≤◌, ◌++◌, List, Contains};
ghost use Rattle.std.specs.List.{AllByRecursion, flat_map};
ghost use Rattle.redodb_model.specs.Names.{Text};
ghost use Rattle.redodb_model.specs.History.{Line};
ghost use Rattle.redodb_history.specs.Histories.{line_text_of};
ghost use Rattle.redodb_history.specs.Support.HistoryTexts.{HasLineForm};

/// Any beginning of a log is the texts of a prefix of its lines, and then a rest without an LF.
pub fn cut_lines()
    ensures { (most : ℕ) (lines : List (Line Text)) (cut rest : Text) → most ≤ 65535
        → AllByRecursion (HasLineForm most) lines
        → flat_map line_text_of lines ≡ cut ++ rest
        → (prefix : List (Line Text)) × (back : List (Line Text)) × (torn : Text)
        × (lines ≡ prefix ++ back) × (cut ≡ flat_map line_text_of prefix ++ torn)
        × ¬ (Contains torn 10) }
{}

/// Bytes are the texts of lines, and then a rest without an LF, in at most one way.
pub fn one_cut()
    ensures { (most : ℕ) (a b : List (Line Text)) (r s : Text) → most ≤ 65535
        → AllByRecursion (HasLineForm most) a → AllByRecursion (HasLineForm most) b
        → ¬ (Contains r 10) → ¬ (Contains s 10)
        → flat_map line_text_of a ++ r ≡ flat_map line_text_of b ++ s → (a ≡ b) × (r ≡ s) }
{}
