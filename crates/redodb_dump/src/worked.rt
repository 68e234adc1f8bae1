//! Dumps that were worked out by hand, each of a state over its names.

ghost use Rattle.std.specs.Prelude.{◌≡◌, [], ◌∷◌, codes};
ghost use Rattle.redodb_model.specs.State.{empty};
ghost use Rattle.redodb_dump.specs.Dumps.{IsStateOver, dump_of};
ghost use Rattle.redodb_dump.specs.Worked.{building, building_dumped, names_with_rows, nothing_dumped, source, source_dumped, with_rows, with_rows_dumped};

/// Nothing is known.
pub fn nothing_is_dumped()
    ensures text { dump_of [] empty ≡ nothing_dumped }
    ensures over { IsStateOver [] empty }
{}

/// Of a source its file is known.
pub fn source_is_dumped()
    ensures text { dump_of (codes "a.c" ∷ []) source ≡ source_dumped }
    ensures over { IsStateOver (codes "a.c" ∷ []) source }
{}

/// A building target has its builder as its holder.
pub fn building_is_dumped()
    ensures text { dump_of (codes "T" ∷ []) building ≡ building_dumped }
    ensures over { IsStateOver (codes "T" ∷ []) building }
{}

/// A target has rows of each mark, with and without a created row beside it.
pub fn rows_are_dumped()
    ensures text { dump_of names_with_rows with_rows ≡ with_rows_dumped }
    ensures over { IsStateOver names_with_rows with_rows }
{}
