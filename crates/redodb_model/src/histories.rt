//! Histories are extended line by line, and refused commands change nothing.

ghost use Rattle.std.specs.Prelude.{◌≡◌, ◌≢◌, ◌↔◌, ◌∷◌, ◌++◌, List, [], None, Some, false, ℕ};
ghost use Rattle.redodb_model.specs.Closing.{ClosesAfter, closing_of, holds, letting_go};
ghost use Rattle.redodb_model.specs.Command.{Command};
ghost use Rattle.redodb_model.specs.History.{Legal, Line, left_by, part_of};
ghost use Rattle.redodb_model.specs.Support.Ending.{AreHeld, IsLeastHeld, closing_lines_of, state_without};
ghost use Rattle.redodb_model.specs.Names.{Text, texts};
ghost use Rattle.redodb_model.specs.Reply.{Okay, Refusal, Refused};
ghost use Rattle.redodb_model.specs.State.{Building, State, empty, is_building, target_state};
ghost use Rattle.redodb_model.specs.Step.{Answers, after};

/// The history without lines is legal.
pub fn nothing_is_legal()
    ensures { Legal texts [] }
{}

/// A history with one more line is legal if the lines before it are, and the line has the reply at its point.
pub fn legal_by_one_more()
    ensures { (lines : List (Line Text)) (line : Line Text)
        → Legal texts (lines ++ line ∷ []) ↔ (Legal texts lines
        × Answers texts (left_by texts empty lines) line.session line.command line.reply) }
{}

/// In each state that a legal history leaves, the builder of a building target holds it.
pub fn builder_holds()
    ensures { (lines : List (Line Text)) (t : Text) (session : ℕ) → Legal texts lines
        → target_state (left_by texts empty lines).records t ≡ Building session
        → (left_by texts empty lines).locks.holder t ≡ Some session }
{}

/// A command that is refused leaves the state as it was.
pub fn refused_changes_nothing()
    ensures { (state : State Text) (session : ℕ) (command : Command Text) (refusal : Refusal Text)
        → Answers texts state session command (Refused refusal)
        → after texts state session command ≡ state }
{}

/// The closing command after a session's lines is about the least target that the session holds, by bytes. There is
/// none exactly if the session holds nothing.
pub fn closing_is_of_the_least()
    ensures some { (own : List (Line Text)) (t : Text)
        → (closing_of texts own ≡ Some (letting_go texts own t)) ↔ IsLeastHeld texts own t }
    ensures none { (own : List (Line Text))
        → (closing_of texts own ≡ None) ↔ ((t : Text) → holds texts own t ≡ false) }
{}

/// The closing command after a session's lines is answered `ok`.
pub fn closing_is_accepted()
    ensures { (lines : List (Line Text)) (session : ℕ) (command : Command Text) → Legal texts lines
        → closing_of texts (part_of session lines) ≡ Some command
        → Answers texts (left_by texts empty lines) session command Okay }
{}

/// If no session has a closing command left, nothing is held and nothing is building.
pub fn nothing_is_held()
    ensures { (lines : List (Line Text)) → Legal texts lines
        → ((session : ℕ) → closing_of texts (part_of session lines) ≡ None)
        → (t : Text) → ((left_by texts empty lines).locks.holder t ≡ None)
        × (is_building (target_state (left_by texts empty lines).records t) ≡ false) }
{}

/// The state determines a session's closing commands, and a legal history can go on with them.
pub fn closing_by_state()
    ensures { (before : List (Line Text)) (session : ℕ) (targets : List Text) → Legal texts before
        → AreHeld texts session (left_by texts empty before) targets
        → ClosesAfter texts (part_of session before)
        (closing_lines_of session (left_by texts empty before) targets)
        × Legal texts (before ++ closing_lines_of session (left_by texts empty before) targets) }
{}

/// They leave the state without the session: it holds nothing, its builds have failed, and all else is as before.
pub fn closing_leaves_the_rest()
    ensures left { (before : List (Line Text)) (session : ℕ) (targets : List Text)
        → AreHeld texts session (left_by texts empty before) targets
        → left_by texts empty
        (before ++ closing_lines_of session (left_by texts empty before) targets)
        ≡ state_without session (left_by texts empty before) }
    ensures nothing_held { (state : State Text) (session : ℕ) (t : Text)
        → (state_without session state).locks.holder t ≢ Some session }
{}
