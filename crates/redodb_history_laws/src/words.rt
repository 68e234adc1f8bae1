//! What the words of a board say of a placed history.

ghost use Rattle.std.specs.Prelude.{◌+◌, ◌++◌, ◌∷◌, ◌≡◌, List, [], ℕ};
ghost use Rattle.std.specs.declared.cmp.Ordering.{Ordering};
ghost use Rattle.redodb_history_laws.specs.ByRows.{records_left};
ghost use Rattle.redodb_history_laws.specs.Events.{moved_by};
ghost use Rattle.redodb_history_laws.specs.Replayed.{IsLegalOfPlan, no_records, replayed};
ghost use Rattle.redodb_model.specs.Command.{Item};
ghost use Rattle.redodb_model.specs.Names.{Text, numbers, texts};
ghost use Rattle.redodb_model.specs.Placed.{IsPlaced, PlacedLine, part_of};
ghost use Rattle.redodb_model.specs.Support.Names.{IsNaming};
ghost use Rattle.redodb_history_laws.specs.RowWord.{Fits, decoded, encoded};
ghost use Rattle.redodb_history_laws.specs.declared.row_word.RowWord.{RowWord};
ghost use Rattle.redodb_history_laws.specs.Words.{claim_word_of, row_word_of, row_words_of, word_before};

/// The words after one line more, over numbers, and the claim words over texts too.
pub fn words_by_one_more()
    ensures rows { (order : ℕ → ℕ → Ordering) (plan : ℕ → List (Item ℕ))
        (lines : List (PlacedLine ℕ)) (line : PlacedLine ℕ) →
        let word = row_word_of (numbers order) plan (part_of line.session lines) line in
        row_words_of (numbers order) plan (lines ++ line ∷ [])
        ≡ row_words_of (numbers order) plan lines ++ word_before line.place word [] }
    ensures claims { (order : ℕ → ℕ → Ordering) (lines : List (PlacedLine ℕ))
        (line : PlacedLine ℕ) (t : ℕ) →
        IsNaming (numbers order) → IsPlaced (numbers order) (lines ++ line ∷ []) →
        claim_word_of (numbers order) (lines ++ line ∷ []) t
        ≡ claim_word_of (numbers order) lines t + moved_by (numbers order) line.place t }
    ensures claims_on_texts { (lines : List (PlacedLine Text)) (line : PlacedLine Text)
        (t : Text) →
        IsPlaced texts (lines ++ line ∷ []) →
        claim_word_of texts (lines ++ line ∷ []) t
        ≡ claim_word_of texts lines t + moved_by texts line.place t }
{}

/// Decoding a row word undoes encoding it.
#[tactic(auto, using(crate::proofs::Decoding::undone))]
pub fn decoding_undoes_encoding()
    ensures { (row : RowWord) → Fits row → decoded (encoded row) ≡ row }
{}

/// A legal placed history leaves the records that the commands of its row words leave.
pub fn records_by_words()
    ensures { (order : ℕ → ℕ → Ordering) (plan : ℕ → List (Item ℕ))
        (lines : List (PlacedLine ℕ)) →
        IsNaming (numbers order) → IsLegalOfPlan (numbers order) plan lines →
        records_left (numbers order) lines
        ≡ replayed (numbers order) plan no_records (row_words_of (numbers order) plan lines) }
{}

/// Two legal placed histories of one plan with the same row words leave the same records.
pub fn words_fix_the_records()
    ensures { (order : ℕ → ℕ → Ordering) (plan : ℕ → List (Item ℕ))
        (one other : List (PlacedLine ℕ)) → IsNaming (numbers order) →
        IsLegalOfPlan (numbers order) plan one → IsLegalOfPlan (numbers order) plan other →
        row_words_of (numbers order) plan one ≡ row_words_of (numbers order) plan other →
        records_left (numbers order) one ≡ records_left (numbers order) other }
{}
