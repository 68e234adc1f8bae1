//! Laws of runs.

ghost use Rattle.std.specs.Prelude.{◌≡◌, List, [], ◌∷◌, Some, map};
ghost use Rattle.redodb_model.specs.Names.{Text, texts};
ghost use Rattle.redodb_model.specs.Command.{Item};
ghost use Rattle.redodb_model.specs.History.{Line, Legal};
ghost use Rattle.redodb_history.specs.HistoryTexts.{IsHistory};
ghost use Rattle.redodb_run.specs.Runs.{IsRun, LeavesNothingHeld, RunsAs};

/// One file whose bytes are known has at most one run text: the output for a file is a function of
/// its bytes.
pub fn one_run()
    ensures { (file a b : Text) → RunsAs (Some file ∷ []) a → RunsAs (Some file ∷ []) b → a ≡ b }
{}

/// When a run of scripts is done, no target is held, and none is building.
pub fn run_lets_go()
    ensures { (scripts : List (List (Item Text))) (lines : List (Line Text))
        → IsRun scripts lines → LeavesNothingHeld lines }
{}

/// The run text of files whose bytes are known is a history, whose lines are legal: its replay
/// answers `same`.
pub fn run_replays()
    ensures { (files : List Text) (text : Text) → RunsAs (map Some files) text
        → (names : List Text) × (lines : List (Line Text)) × IsHistory text names lines
        × Legal texts lines }
{}
