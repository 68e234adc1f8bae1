//! Laws of placed histories: which are legal, and the joint orders of journals.

ghost use Rattle.std.specs.Prelude.{◌≡◌, ◌↔◌, ◌∷◌, ◌++◌, ◌≤◌, [], List, length, map, ℕ};
ghost use Rattle.redodb_history_laws.specs.ByRows.{AllStand};
ghost use Rattle.redodb_model.specs.Command.{Item};
ghost use Rattle.redodb_model.specs.History.{Legal};
ghost use Rattle.redodb_model.specs.Journals.{IsJointOrder, IsJournal};
ghost use Rattle.redodb_model.specs.Support.Journals.{IsOfPlan};
ghost use Rattle.redodb_model.specs.Names.{Text, texts};
ghost use Rattle.redodb_model.specs.Placed.{Fits, Follows, IsPlaced, Place, PlacedLine, line_of, part_of};
ghost use Rattle.redodb_model.specs.Seen.{HasSeen, StandsIn};

/// Lines with one more are placed exactly if they are without it, and its place fits it and may
/// come after them.
pub fn placed_by_one_more()
    ensures { (lines : List (PlacedLine Text)) (line : PlacedLine Text) →
        IsPlaced texts (lines ++ line ∷ []) ↔
        (IsPlaced texts lines × Fits line.place line.command line.reply
        × Follows texts lines line.place) }
{}

/// A prefix of a placed history is placed.
pub fn placed_prefix()
    ensures { (prefix rest : List (PlacedLine Text)) →
        IsPlaced texts (prefix ++ rest) → IsPlaced texts prefix }
{}

/// A placed history is legal exactly if each row has the database's reply after the rows before it,
/// and each session that releases a target holds it by its own lines and doesn't build it.
pub fn legal_by_rows()
    ensures { (lines : List (PlacedLine Text)) → IsPlaced texts lines →
        Legal texts (map line_of lines) ↔ AllStand texts lines }
{}

/// If one joint order of journals is legal, each is.
pub fn legal_in_every_order()
    ensures { (journals : ℕ → List (PlacedLine Text)) (one other : List (PlacedLine Text)) →
        IsJointOrder texts journals one → IsJointOrder texts journals other →
        Legal texts (map line_of one) → Legal texts (map line_of other) }
{}

/// A joint order of journals of a plan is of that plan.
pub fn joint_order_is_of_plan()
    ensures { (plan : ℕ → List (Item Text)) (journals : ℕ → List (PlacedLine Text))
        (lines : List (PlacedLine Text)) →
        ((s : ℕ) → IsJournal texts s (plan s) (journals s)) →
        ((s : ℕ) → length (plan s) ≤ 4096) →
        IsJointOrder texts journals lines → IsOfPlan texts plan lines }
{}

/// What a session had seen at a line comes before that line.
pub fn seen_stands_before()
    ensures { (before later : List (PlacedLine Text)) (line : PlacedLine Text)
        (place : Place Text) →
        IsPlaced texts (before ++ line ∷ later) →
        HasSeen (part_of line.session before) place → StandsIn before place }
{}
