//! This crate's definitions in terms of the model's.

ghost use Rattle.std.specs.Prelude.{◌≡◌, ℕ, Bool, Some, None};
ghost use Rattle.std.specs.Option.{option_or};
ghost use Rattle.redodb_model.specs.Command.{Command, target_of};
ghost use Rattle.redodb_model.specs.Names.{Naming};
ghost use Rattle.redodb_model.specs.State.{Records, TargetState, target_state};
ghost use Rattle.redodb_model.specs.Step.{verdict_of};
ghost use Rattle.redodb_records.specs.Refusals.{refusal_by_target, refusal_of_names, kind_for};

/// The verdict on a command is that of its kind, by the state of its target; if that refuses nothing, it is that of the
/// names after the target. If a command has no target, any state gives the verdict of its kind.
pub fn verdict_by_kind()
    ensures with_target { (naming : Naming ℕ) (records : Records ℕ) (s : ℕ) (holds : Bool)
        (command : Command ℕ) (t : ℕ) → target_of command ≡ Some t
        → option_or (refusal_by_target (target_state records t) s holds (kind_for command))
        (refusal_of_names naming records command) ≡ verdict_of naming records s holds command }
    ensures without_target { (naming : Naming ℕ) (records : Records ℕ) (s : ℕ) (holds : Bool)
        (command : Command ℕ) (state : TargetState) → target_of command ≡ None
        → refusal_by_target state s holds (kind_for command)
        ≡ verdict_of naming records s holds command }
{}
