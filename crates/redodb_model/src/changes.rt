//! Lines that change nothing can be left out of a history.

ghost use Rattle.std.specs.Prelude.{◌≡◌, false, List, ℕ};
ghost use Rattle.redodb_model.specs.Changes.{changes, changing_from};
ghost use Rattle.redodb_model.specs.Command.{Command};
ghost use Rattle.redodb_model.specs.History.{Legal, Line, left_by};
ghost use Rattle.redodb_model.specs.Names.{Text, texts};
ghost use Rattle.redodb_model.specs.Reply.{Reply};
ghost use Rattle.redodb_model.specs.State.{State, empty};
ghost use Rattle.redodb_model.specs.Step.{Answers, after};

/// A command that changes nothing leaves the state as it was.
pub fn unchanging_leaves_all()
    ensures { (state : State Text) (session : ℕ) (command : Command Text) (reply : Reply Text)
        → Answers texts state session command reply → changes state.records command reply ≡ false
        → after texts state session command ≡ state }
{}

/// The lines of a legal history that change something are a legal history, and leave the same state.
pub fn changing_lines_are_legal()
    ensures { (lines : List (Line Text)) → Legal texts lines
        → Legal texts (changing_from texts empty lines)
        × (left_by texts empty (changing_from texts empty lines) ≡ left_by texts empty lines) }
{}
