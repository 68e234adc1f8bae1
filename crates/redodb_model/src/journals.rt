//! What a session does of its script, with and without guarded lines.

ghost use Rattle.std.specs.Prelude.{◌≡◌, ℕ, false, List, ◌++◌, map};
ghost use Rattle.std.specs.List.{AllByRecursion};
ghost use Rattle.redodb_model.specs.Closing.{ClosesAfter};
ghost use Rattle.redodb_model.specs.Command.{Item, commands_in};
ghost use Rattle.redodb_model.specs.History.{Line};
ghost use Rattle.redodb_model.specs.Support.Guarded.{guarded_script, needs_all_the_same, with_lock, without_lock};
ghost use Rattle.redodb_model.specs.Journals.{IsJournal, IsWholeJournal};
ghost use Rattle.redodb_model.specs.Names.{Text, texts};
ghost use Rattle.redodb_model.specs.Placed.{PlacedLine, line_of};

/// If no line is guarded, all are done, and then the session closes what it holds.
pub fn unguarded_are_all_done()
    ensures { (session : ℕ) (script : List (Item Text)) (lines : List (PlacedLine Text))
        → AllByRecursion (λ item. item.guarded ≡ false) script
        → IsWholeJournal texts session script lines
        → (own : List (Line Text)) × (closing : List (Line Text))
        × (map line_of lines ≡ own ++ closing)
        × (map (λ line. line.command) own ≡ commands_in script)
        × ClosesAfter texts own closing }
{}

/// Guarded lines are done after the replies `granted`, `ok` and `stale`.
pub fn guarded_are_done_with_the_lock()
    ensures { IsWholeJournal texts 0 guarded_script with_lock }
{}

/// After the reply `busy` none of them is done, until an unguarded line is.
pub fn guarded_are_passed_over_without_it()
    ensures journal { IsWholeJournal texts 1 guarded_script without_lock }
    ensures none { IsJournal texts 1 guarded_script needs_all_the_same → ⊥ }
{}
