//! Journals of two sessions that lock one target: their joint orders.

ghost use Rattle.std.specs.Prelude.{◌≡◌, List, map};
ghost use Rattle.redodb_model.specs.History.{Legal};
ghost use Rattle.redodb_model.specs.Journals.{IsJointOrder};
ghost use Rattle.redodb_model.specs.Support.Merging.{merging, two_journals};
ghost use Rattle.redodb_model.specs.Names.{Text, texts};
ghost use Rattle.redodb_model.specs.Placed.{PlacedLine, line_of};

/// If the second finds the first grant in force, there is one joint order, and it is legal.
pub fn merging_has_one_order()
    ensures joint { IsJointOrder texts (two_journals 1) merging }
    ensures legal { Legal texts (map line_of merging) }
    ensures only { (lines : List (PlacedLine Text)) → IsJointOrder texts (two_journals 1) lines →
        lines ≡ merging }
{}

/// If it finds a third grant in force, which never was, there is no joint order.
pub fn busy_of_no_grant_has_no_order()
    ensures { (lines : List (PlacedLine Text)) → IsJointOrder texts (two_journals 3) lines → ⊥ }
{}
