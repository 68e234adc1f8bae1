//! Laws of the texts of histories.

ghost use Rattle.std.specs.Prelude.{◌≡◌, ◌≢◌, ◌⊎◌, ℕ, ◌<◌, ◌≤◌, ◌^◌, ◌++◌, List, [], length, map};
ghost use Rattle.std.specs.List.{AllByRecursion, flat_map};
ghost use Rattle.redodb_model.specs.Names.{Text, texts};
ghost use Rattle.redodb_model.specs.Command.{names_in};
ghost use Rattle.redodb_model.specs.History.{Legal, Line};
ghost use Rattle.redodb_text.specs.Grammar.{with_names, AddsNames};
ghost use Rattle.redodb_history.specs.Histories.{history_text_of};
ghost use Rattle.redodb_history.specs.HistoryTexts.{IsHistory, AreNamesOf, names_in_line};
ghost use Rattle.redodb_history.specs.Support.HistoryTexts.{HasLineForm, IsLineSaid};
ghost use Rattle.redodb_history.specs.HistoryFaults.{IsHistoryFault};
ghost use Rattle.redodb_history.specs.declared.fault.HistoryFault.{HistoryFault};

/// The text of lines is a history of these lines, whatever follows, if their commands, replies and
/// names fit.
pub fn history_reads_back()
    ensures { (lines : List (Line Text)) (names : List Text) (rest : Text) →
        AllByRecursion (HasLineForm 64) lines → length lines ≤ 1048576 → AreNamesOf lines names →
        IsHistory (history_text_of lines ++ rest) names lines }
{}

/// If sessions say the commands of legal lines, each line has the form of a history's, and the
/// replies add no names to those of the commands.
pub fn legal_lines_fit()
    ensures form { (most : ℕ) (lines : List (Line Text)) → Legal texts lines
        → AllByRecursion (IsLineSaid most) lines → length lines < 2 ^ 32
        → AllByRecursion (HasLineForm most) lines }
    ensures names { (most : ℕ) (lines : List (Line Text)) → Legal texts lines
        → AllByRecursion (IsLineSaid most) lines → length lines < 2 ^ 32
        → with_names [] (flat_map names_in_line lines)
        ≡ with_names [] (flat_map names_in (map (λ line. line.command) lines)) }
{}

/// The text of legal lines is a history of these lines, whatever follows, if sessions say their
/// commands, and neither lines nor the commands' names are too many.
pub fn legal_history_reads_back()
    ensures { (lines : List (Line Text)) (names : List Text) (rest : Text) → Legal texts lines
        → AllByRecursion (IsLineSaid 64) lines → length lines ≤ 1048576
        → AddsNames 65536 [] (map (λ line. line.command) lines) names
        → IsHistory (history_text_of lines ++ rest) names lines }
{}

/// A text is the history of at most one list of names and lines.
pub fn one_history()
    ensures { (input : Text) (n m : List Text) (a b : List (Line Text)) →
        IsHistory input n a → IsHistory input m b → (n ≡ m) × (a ≡ b) }
{}

/// A history has no fault but `Memory`.
pub fn no_fault()
    ensures { (input : Text) (names : List Text) (lines : List (Line Text)) (fault : HistoryFault) →
        IsHistory input names lines → IsHistoryFault input fault → fault ≡ HistoryFault.Memory }
{}

/// A text begins with a history, or it has a fault other than `Memory`, and it has no two.
pub fn fault_or_history()
    ensures either { (input : Text)
        → ((names : List Text) × (lines : List (Line Text)) × IsHistory input names lines)
        ⊎ ((fault : HistoryFault) × (fault ≢ HistoryFault.Memory) × IsHistoryFault input fault) }
    ensures one { (input : Text) (a b : HistoryFault) → a ≢ HistoryFault.Memory
        → b ≢ HistoryFault.Memory → IsHistoryFault input a → IsHistoryFault input b → a ≡ b }
{}
