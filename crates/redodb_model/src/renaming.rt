//! Facts about numbers are facts about the names that they stand for: targets that are out of date, steps, replies and
//! whole histories.

ghost use Rattle.redodb_model.specs.Command.{Command};
ghost use Rattle.redodb_model.specs.History.{Legal, Line, left_by};
ghost use Rattle.redodb_model.specs.Names.{Text, numbers, texts};
ghost use Rattle.redodb_model.specs.OutOfDate.{OutOfDate};
ghost use Rattle.redodb_model.specs.Renaming.{IsBelow, IsLineBelow, IsReplyBelow, named_command, named_line, named_reply};
ghost use Rattle.redodb_model.specs.Support.Renaming.{IsRenaming, IsWithin, OrdersAlike, Renaming, named_records, named_state, numbering};
ghost use Rattle.redodb_model.specs.Reply.{Reply};
ghost use Rattle.redodb_model.specs.State.{Records, State, empty};
ghost use Rattle.redodb_model.specs.Step.{Answers, after};
ghost use Rattle.std.specs.List.{AllByRecursion, IsDistinct};
ghost use Rattle.std.specs.Prelude.{ℕ, ◌<◌, ◌≡◌, ◌↔◌, List, bytes_eq, map};
ghost use Rattle.std.specs.declared.cmp.Ordering.{Ordering};

/// A number is out of date exactly if its name is.
pub fn out_of_date_by_name()
    ensures { (to : Renaming Text) (records : Records ℕ) (k : ℕ) → IsRenaming to
        → IsWithin to.count records → k < to.count
        → OutOfDate records k ↔ OutOfDate (named_records to records) (to.name k) }
{}

/// A step over numbers, under their names, is the step over the names.
pub fn steps_by_name()
    ensures { (to : Renaming Text) (order : ℕ → ℕ → Ordering) (state : State ℕ) (session : ℕ)
        (command : Command ℕ) → IsRenaming to → IsBelow to.count command
        → named_state to (after (numbers order) state session command)
        ≡ after texts (named_state to state) session (named_command to.name command) }
{}

/// A reply over numbers is right exactly if, under their names, it is right over the names.
pub fn answers_by_name()
    ensures { (to : Renaming Text) (order : ℕ → ℕ → Ordering) (state : State ℕ) (session : ℕ)
        (command : Command ℕ) (reply : Reply ℕ) → IsRenaming to → OrdersAlike to texts order
        → IsWithin to.count state.records → IsBelow to.count command → IsReplyBelow to.count reply
        → Answers (numbers order) state session command reply
        ↔ Answers texts (named_state to state) session (named_command to.name command)
        (named_reply to.name reply) }
{}

/// A history over numbers is legal exactly if, under their names, it is legal over the names.
pub fn legal_by_name()
    ensures { (to : Renaming Text) (order : ℕ → ℕ → Ordering) (lines : List (Line ℕ))
        → IsRenaming to → OrdersAlike to texts order → AllByRecursion (IsLineBelow to.count) lines
        → Legal (numbers order) lines ↔ Legal texts (map (named_line to.name) lines) }
{}

/// The state after a history over numbers is, under their names, the state after it over the names.
pub fn states_by_name()
    ensures { (to : Renaming Text) (order : ℕ → ℕ → Ordering) (lines : List (Line ℕ))
        → IsRenaming to → AllByRecursion (λ line. IsBelow to.count line.command) lines
        → named_state to (left_by (numbers order) empty lines)
        ≡ left_by texts empty (map (named_line to.name) lines) }
{}

/// Distinct texts, numbered by their places, are a renaming.
pub fn numbering_is_renaming()
    ensures { (names : List Text) → IsDistinct bytes_eq names → IsRenaming (numbering names) }
{}
