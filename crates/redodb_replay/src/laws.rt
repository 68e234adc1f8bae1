//! Laws of verdicts.

ghost use Rattle.std.specs.Prelude.{◌≡◌, ◌↔◌, List, length};
ghost use Rattle.redodb_model.specs.Names.{Text, texts};
ghost use Rattle.redodb_model.specs.History.{Legal, Line};
ghost use Rattle.redodb_replay.specs.Verdicts.{IsVerdict, Verdict, Same};

/// Lines have at most one verdict.
pub fn one_verdict()
    ensures { (lines : List (Line Text)) (a b : Verdict) →
        IsVerdict lines a → IsVerdict lines b → a ≡ b }
{}

/// The verdict on lines is `Same` exactly if they are legal.
pub fn same_where_legal()
    ensures { (lines : List (Line Text)) (verdict : Verdict) → IsVerdict lines verdict →
        (verdict ≡ Same (length lines)) ↔ Legal texts lines }
{}
