//! Placed histories that were worked out by hand: their words, what a session had seen, journals,
//! and which order comes first.

ghost use Rattle.std.specs.Prelude.{◌≡◌, ◌∷◌, [], map, take};
ghost use Rattle.redodb_history_laws.specs.Worked.{broken_off, by_number, closing_row, let_go, one_hold, one_hold_and_more, one_hold_turned, three_rows, two_locks, two_locks_turned, two_scripts};
ghost use Rattle.redodb_model.specs.History.{Legal};
ghost use Rattle.redodb_model.specs.Support.Merging.{first_journal, merging, second_journal, shared};
ghost use Rattle.redodb_history_laws.specs.Words.{claim_word_of, row_word_of, row_words_of};
ghost use Rattle.redodb_model.specs.Journals.{IsJournal, IsWholeJournal, NoLater};
ghost use Rattle.redodb_model.specs.Names.{texts};
ghost use Rattle.redodb_model.specs.Placed.{Granted, IsPlaced, Released, Row, line_of, part_of};
ghost use Rattle.redodb_model.specs.Seen.{HasSeen};

/// The words of two placed histories.
pub fn words_by_hand()
    ensures placed { IsPlaced by_number three_rows }
    ensures legal { Legal by_number (map line_of three_rows) }
    ensures rows { row_words_of by_number two_scripts three_rows ≡ 1 ∷ 8193 ∷ 6 ∷ [] }
    ensures held { claim_word_of by_number three_rows 1 ≡ 1 }
    ensures released { claim_word_of texts merging shared ≡ 3 }
{}

/// Two scripts end while their session holds the target, the first during a build. The sessions
/// close it: the words of their rows, and of rows of other closing lines.
pub fn closing_words_by_hand()
    ensures placed { IsPlaced by_number let_go }
    ensures legal { Legal by_number (map line_of let_go) }
    ensures first { IsWholeJournal by_number 0 (broken_off 0) (part_of 0 let_go) }
    ensures second { IsWholeJournal by_number 1 (broken_off 1) (part_of 1 let_go) }
    ensures goes_on { IsWholeJournal by_number 0 (broken_off 0) (take 3 (part_of 0 let_go)) → ⊥ }
    ensures rows { row_words_of by_number broken_off let_go ≡ 4 ∷ 4294967296 ∷ [] }
    ensures other { row_word_of by_number broken_off [] (closing_row 1 1 1) ≡ 4295032833 }
    ensures greatest { row_word_of by_number broken_off [] (closing_row 63 0 65535) ≡ 4299161599 }
{}

/// A session had seen all rows up to its latest one, and of a target all grants up to the one in a
/// reply to it, and the releases before that one; and no more.
pub fn seen_by_hand()
    ensures row { HasSeen (part_of 0 three_rows) (Row 2) }
    ensures earlier_row { HasSeen (part_of 0 three_rows) (Row 1) }
    ensures no_later_row { HasSeen (part_of 1 three_rows) (Row 2) → ⊥ }
    ensures grant { HasSeen (second_journal 1) (Granted shared 2) }
    ensures earlier_grant { HasSeen (second_journal 1) (Granted shared 1) }
    ensures release { HasSeen (second_journal 1) (Released shared 1) }
    ensures no_later_release { HasSeen (second_journal 1) (Released shared 2) → ⊥ }
{}

/// A journal has the commands of its script in their order, and is whole if the script has ended
/// and nothing is held.
pub fn journals_by_hand()
    ensures whole { IsWholeJournal texts 0 one_hold first_journal }
    ensures goes_on { IsWholeJournal texts 0 one_hold_and_more first_journal → ⊥ }
    ensures other_order { IsJournal texts 0 one_hold_turned first_journal → ⊥ }
    ensures other_session { IsJournal texts 1 one_hold first_journal → ⊥ }
{}

/// Of two placed orders, the one in which the first session goes first comes first.
pub fn first_session_goes_first()
    ensures placed { IsPlaced texts two_locks }
    ensures turned { IsPlaced texts two_locks_turned }
    ensures no_later { NoLater two_locks two_locks_turned }
    ensures later { NoLater two_locks_turned two_locks → ⊥ }
{}
