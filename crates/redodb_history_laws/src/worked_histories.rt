//! Histories that were worked out by hand are legal, and with one wrong reply they aren't.
ghost use Rattle.std.specs.Prelude.{[], ◌∷◌, codes};
ghost use Rattle.redodb_model.specs.History.{Legal};
ghost use Rattle.redodb_model.specs.Names.{texts};
ghost use Rattle.redodb_model.specs.Reply.{Granted, Okay};
ghost use Rattle.redodb_model.specs.Reply as replies;
ghost use Rattle.redodb_history_laws.specs.WorkedHistories.{appearance, chain_without_a_file, change_rows, common_path, contents_and_builds, created_rows, cycle, failed_mark, names_without_a_file, order_of_refusals, own_reasons, refusals_and_locks, rows_of_both_kinds, with_reply};

/// One session builds a target from a source, and asks for all lists.
pub fn common_path_is_legal()
    ensures { Legal texts common_path }
{}

/// The first grant isn't numbered as the second.
pub fn first_grant_as_second_is_not_legal()
    ensures { Legal texts (with_reply 1 (Granted 2) common_path) → ⊥ }
{}

/// A target is out of date while a name has a file that was missing at its build.
pub fn appearance_is_legal()
    ensures { Legal texts appearance }
{}

/// A file that appeared isn't overlooked.
pub fn unseen_appearance_is_not_legal()
    ensures { Legal texts (with_reply 6 (replies.Ood []) appearance) → ⊥ }
{}

/// The reply is the first of the refusals that apply.
pub fn order_of_refusals_is_legal()
    ensures { Legal texts order_of_refusals }
{}

/// A building target isn't unlocked.
pub fn unlock_in_building_is_not_legal()
    ensures { Legal texts (with_reply 5 Okay order_of_refusals) → ⊥ }
{}

/// Two targets that depend on each other are up to date if neither has a reason of its own.
pub fn cycle_is_legal()
    ensures { Legal texts cycle }
{}

/// A cycle without a reason isn't out of date.
pub fn cycle_out_of_date_is_not_legal()
    ensures { Legal texts (with_reply 13 (replies.Ood (codes "a" ∷ codes "b" ∷ [])) cycle) → ⊥ }
{}

/// A target that was built from a failed one is out of date once that is built, with the same content.
pub fn failed_mark_is_legal()
    ensures { Legal texts failed_mark }
{}

/// A failed target isn't known by its content.
pub fn failed_mark_by_content_is_not_legal()
    ensures { Legal texts (with_reply 11 (replies.Ood []) failed_mark) → ⊥ }
{}

/// A target is out of date by its always row, while it is built, and while its file is another one.
pub fn own_reasons_are_legal()
    ensures { Legal texts own_reasons }
{}

/// A building target isn't up to date.
pub fn building_up_to_date_is_not_legal()
    ensures { Legal texts (with_reply 6 (replies.Ood []) own_reasons) → ⊥ }
{}

/// A change row has the mark of its name, and goes with the next build.
pub fn change_rows_are_legal()
    ensures { Legal texts change_rows }
{}

/// A row on another name isn't lost.
pub fn lost_change_row_is_not_legal()
    ensures { Legal texts (with_reply 11 (replies.Ood []) change_rows) → ⊥ }
{}

/// Idle names without a file are stale, sorted, each once.
pub fn names_without_a_file_is_legal()
    ensures { Legal texts names_without_a_file }
{}

/// A name without a file makes nothing out of date.
pub fn name_without_a_file_as_reason_is_not_legal()
    ensures { Legal texts (with_reply 4 (replies.Ood (codes "T" ∷ [])) names_without_a_file) → ⊥ }
{}

/// Created rows add to each other, and make sources.
pub fn created_rows_are_legal()
    ensures { Legal texts created_rows }
{}

/// A name with a created row alone isn't left out of the sources.
pub fn source_of_a_created_row_is_not_left_out()
    ensures { Legal texts (with_reply 8 (replies.Sources []) created_rows) → ⊥ }
{}

/// A target that was built without a stamp has the number of its builds as its mark.
pub fn contents_and_builds_are_legal()
    ensures { Legal texts contents_and_builds }
{}

/// One more build isn't overlooked if the file is the same.
pub fn unseen_build_is_not_legal()
    ensures { Legal texts (with_reply 17 (replies.Ood []) contents_and_builds) → ⊥ }
{}

/// A created row is no dependence, and leaves the change row on its name.
pub fn rows_of_both_kinds_are_legal()
    ensures { Legal texts rows_of_both_kinds }
{}

/// Nothing is out of date by a created row on a failed target.
pub fn dependence_by_a_created_row_is_not_legal()
    ensures { Legal texts (with_reply 7 (replies.Ood (codes "T" ∷ [])) rows_of_both_kinds) → ⊥ }
{}

/// A target is out of date through a target without a file.
pub fn chain_is_legal()
    ensures { Legal texts chain_without_a_file }
{}

/// A chain isn't cut at a target without a file.
pub fn cut_chain_is_not_legal()
    ensures { Legal texts
        (with_reply 12 (replies.Ood (codes "lib" ∷ [])) chain_without_a_file) → ⊥ }
{}

/// Each refusal to a session that doesn't build, and locks of two names.
pub fn refusals_and_locks_are_legal()
    ensures { Legal texts refusals_and_locks }
{}

/// An unlock frees no other name.
pub fn unlock_of_all_names_is_not_legal()
    ensures { Legal texts (with_reply 21 (Granted 2) refusals_and_locks) → ⊥ }
{}
