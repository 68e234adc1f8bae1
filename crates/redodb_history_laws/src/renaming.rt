//! Facts about joint orders over numbers are facts about those over the names that they stand for.

ghost use Rattle.std.specs.Prelude.{◌≡◌, List, map, ℕ};
ghost use Rattle.redodb_history_laws.specs.Named.{AreToldBelow, IsPlacedBelow, named_journals, named_placed_line};
ghost use Rattle.redodb_model.specs.Command.{Item};
ghost use Rattle.redodb_model.specs.Journals.{IsFirstJointOrder, IsJointOrder, IsJournal, IsWholeJournal};
ghost use Rattle.redodb_model.specs.Names.{Text, numbers, texts};
ghost use Rattle.redodb_model.specs.Placed.{PlacedLine};
ghost use Rattle.redodb_model.specs.Support.Renaming.{IsRenaming, OrdersAlike, Renaming};
ghost use Rattle.redodb_model.specs.Renaming.{IsBelow, named_item};
ghost use Rattle.std.specs.List.{AllByRecursion};
ghost use Rattle.std.specs.declared.cmp.Ordering.{Ordering};

/// A joint order over numbers, under their names, is one over the names.
pub fn joint_order_by_name()
    ensures { (to : Renaming Text) (order : ℕ → ℕ → Ordering) (journals : ℕ → List (PlacedLine ℕ))
        (lines : List (PlacedLine ℕ)) →
        IsRenaming to → AllByRecursion (IsPlacedBelow to.count) lines →
        IsJointOrder (numbers order) journals lines →
        IsJointOrder texts (named_journals to.name journals)
        (map (named_placed_line to.name) lines) }
{}

/// Each joint order over the names, of journals over numbers, is that of a joint order over the
/// numbers.
pub fn joint_order_from_names()
    ensures { (to : Renaming Text) (order : ℕ → ℕ → Ordering) (journals : ℕ → List (PlacedLine ℕ))
        (lines : List (PlacedLine Text)) →
        IsRenaming to → AreToldBelow to.count journals →
        IsJointOrder texts (named_journals to.name journals) lines →
        (over : List (PlacedLine ℕ)) × IsJointOrder (numbers order) journals over
        × (map (named_placed_line to.name) over ≡ lines) }
{}

/// The first joint order over numbers, under their names, is the first over the names; and if there
/// is none over the numbers, there is none over the names.
pub fn first_joint_order_by_name()
    ensures first { (to : Renaming Text) (order : ℕ → ℕ → Ordering)
        (journals : ℕ → List (PlacedLine ℕ)) (lines : List (PlacedLine ℕ)) →
        IsRenaming to → AreToldBelow to.count journals →
        IsFirstJointOrder (numbers order) journals lines →
        IsFirstJointOrder texts (named_journals to.name journals)
        (map (named_placed_line to.name) lines) }
    ensures none { (to : Renaming Text) (order : ℕ → ℕ → Ordering)
        (journals : ℕ → List (PlacedLine ℕ)) →
        IsRenaming to → AreToldBelow to.count journals →
        ((lines : List (PlacedLine ℕ)) → IsJointOrder (numbers order) journals lines → ⊥) →
        (lines : List (PlacedLine Text)) →
        IsJointOrder texts (named_journals to.name journals) lines → ⊥ }
{}

/// A journal over numbers, under their names, is one over the names; and a whole one a whole one.
pub fn journal_by_name()
    ensures journal { (to : Renaming Text) (order : ℕ → ℕ → Ordering) (s : ℕ)
        (script : List (Item ℕ)) (lines : List (PlacedLine ℕ)) →
        IsRenaming to → OrdersAlike to texts order →
        AllByRecursion (λ line. IsBelow to.count line.command) lines →
        IsJournal (numbers order) s script lines →
        IsJournal texts s (map (named_item to.name) script)
        (map (named_placed_line to.name) lines) }
    ensures whole { (to : Renaming Text) (order : ℕ → ℕ → Ordering) (s : ℕ)
        (script : List (Item ℕ)) (lines : List (PlacedLine ℕ)) →
        IsRenaming to → OrdersAlike to texts order →
        AllByRecursion (λ line. IsBelow to.count line.command) lines →
        IsWholeJournal (numbers order) s script lines →
        IsWholeJournal texts s (map (named_item to.name) script)
        (map (named_placed_line to.name) lines) }
{}
