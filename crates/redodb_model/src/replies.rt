//! The reply is unique.

ghost use Rattle.std.specs.Prelude.{◌≡◌, ◌↔◌, Contains, List, ℕ};
ghost use Rattle.redodb_model.specs.Command.{Command};
ghost use Rattle.redodb_model.specs.Names.{Ascending, Text, texts};
ghost use Rattle.redodb_model.specs.Reply.{Reply};
ghost use Rattle.redodb_model.specs.State.{State};
ghost use Rattle.redodb_model.specs.Step.{Answers};

/// A state gives one reply to a command.
pub fn replies_are_unique()
    ensures { (state : State Text) (session : ℕ) (command : Command Text) (a b : Reply Text)
        → Answers texts state session command a → Answers texts state session command b → a ≡ b }
{}

/// Two sorted lists of the same names are equal.
pub fn lists_are_unique()
    ensures { (xs ys : List Text) → Ascending texts xs → Ascending texts ys
        → ((n : Text) → Contains xs n ↔ Contains ys n) → xs ≡ ys }
{}
