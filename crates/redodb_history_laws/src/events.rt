//! How a legal placed history can be extended: the events of the board.

ghost use Rattle.std.specs.Prelude.{◌%◌, ◌+◌, ◌-◌, ◌/◌, ◌≡◌, List, Some, false, map, true, ℕ};
ghost use Rattle.redodb_history_laws.specs.ByRows.{records_left};
ghost use Rattle.redodb_history_laws.specs.Events.{GoesOnBy};
ghost use Rattle.redodb_model.specs.Command.{Command, Lock, Unlock, target_of};
ghost use Rattle.redodb_model.specs.History.{Legal, left_by};
ghost use Rattle.redodb_model.specs.Support.Merging.{placed_at};
ghost use Rattle.redodb_model.specs.Names.{Text, texts};
ghost use Rattle.redodb_model.specs.Placed.{Busy, Granted, IsPlaced, PlacedLine, Released, Row, grants_in, is_claim, line_of, part_of, rows_in};
ghost use Rattle.redodb_model.specs.Support.Placed.{holds_by};
ghost use Rattle.redodb_model.specs.Reply as replies;
ghost use Rattle.redodb_model.specs.Reply.{Okay, Reply};
ghost use Rattle.redodb_model.specs.State.{empty, target_state};
ghost use Rattle.redodb_model.specs.Step.{Replies, is_built_by, is_held_by};
ghost use Rattle.redodb_history_laws.specs.Words.{claim_word_of};

/// A session's own lines determine what it holds, and all lines the number of grants.
pub fn locks_by_lines()
    ensures grants { (lines : List (PlacedLine Text)) (t : Text) →
        IsPlaced texts lines → Legal texts (map line_of lines) →
        (left_by texts empty (map line_of lines)).locks.grants t ≡ grants_in texts lines t }
    ensures holders { (lines : List (PlacedLine Text)) (t : Text) (s : ℕ) →
        IsPlaced texts lines → Legal texts (map line_of lines) →
        is_held_by s ((left_by texts empty (map line_of lines)).locks.holder t)
        ≡ holds_by texts (part_of s lines) (Some t) }
{}

/// Any command that is no claim may win the next row, with the reply of the records.
pub fn row_goes_on()
    ensures { (lines : List (PlacedLine Text)) (s number : ℕ) (command : Command Text)
        (reply : Reply Text) →
        IsPlaced texts lines → Legal texts (map line_of lines) → is_claim command reply ≡ false →
        let held = holds_by texts (part_of s lines) (target_of command) in
        Replies texts (records_left texts lines) s held command reply →
        GoesOnBy texts lines (placed_at s number command reply (Row (rows_in lines))) }
{}

/// If the claim word is even, a lock is granted.
pub fn grant_goes_on()
    ensures { (lines : List (PlacedLine Text)) (s number : ℕ) (t : Text) →
        IsPlaced texts lines → Legal texts (map line_of lines) →
        claim_word_of texts lines t % 2 ≡ 0 →
        let g = claim_word_of texts lines t / 2 + 1 in
        GoesOnBy texts lines (placed_at s number (Lock t) (replies.Granted g) (Granted t g)) }
{}

/// If it is odd, a lock is busy.
pub fn busy_goes_on()
    ensures { (lines : List (PlacedLine Text)) (s number : ℕ) (t : Text) →
        IsPlaced texts lines → Legal texts (map line_of lines) →
        claim_word_of texts lines t % 2 ≡ 1 →
        let g = (claim_word_of texts lines t - 1) / 2 + 1 in
        GoesOnBy texts lines (placed_at s number (Lock t) (replies.Busy g) (Busy t g)) }
{}

/// A session that holds a target by its own lines, and doesn't build it, may release it.
pub fn release_goes_on()
    ensures { (lines : List (PlacedLine Text)) (s number : ℕ) (t : Text) →
        IsPlaced texts lines → Legal texts (map line_of lines) →
        holds_by texts (part_of s lines) (Some t) ≡ true →
        is_built_by s (target_state (records_left texts lines) t) ≡ false →
        let g = (claim_word_of texts lines t - 1) / 2 + 1 in
        GoesOnBy texts lines (placed_at s number (Unlock t) Okay (Released t g)) }
{}

/// No other line extends a legal placed history.
pub fn goes_on_only_so()
    ensures row { (lines : List (PlacedLine Text)) (s number r : ℕ) (command : Command Text)
        (reply : Reply Text) →
        GoesOnBy texts lines (placed_at s number command reply (Row r)) →
        let held = holds_by texts (part_of s lines) (target_of command) in
        (r ≡ rows_in lines) × (is_claim command reply ≡ false)
        × Replies texts (records_left texts lines) s held command reply }
    ensures grant { (lines : List (PlacedLine Text)) (s number g : ℕ) (t : Text)
        (command : Command Text) (reply : Reply Text) →
        GoesOnBy texts lines (placed_at s number command reply (Granted t g)) →
        (command ≡ Lock t) × (reply ≡ replies.Granted g)
        × (claim_word_of texts lines t % 2 ≡ 0) × (g ≡ claim_word_of texts lines t / 2 + 1) }
    ensures busy { (lines : List (PlacedLine Text)) (s number g : ℕ) (t : Text)
        (command : Command Text) (reply : Reply Text) →
        GoesOnBy texts lines (placed_at s number command reply (Busy t g)) →
        (command ≡ Lock t) × (reply ≡ replies.Busy g) × (claim_word_of texts lines t % 2 ≡ 1)
        × (g ≡ (claim_word_of texts lines t - 1) / 2 + 1) }
    ensures release { (lines : List (PlacedLine Text)) (s number g : ℕ) (t : Text)
        (command : Command Text) (reply : Reply Text) →
        GoesOnBy texts lines (placed_at s number command reply (Released t g)) →
        (command ≡ Unlock t) × (reply ≡ Okay)
        × (g ≡ (claim_word_of texts lines t - 1) / 2 + 1)
        × (holds_by texts (part_of s lines) (Some t) ≡ true)
        × (is_built_by s (target_state (records_left texts lines) t) ≡ false) }
{}
