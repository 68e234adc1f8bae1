//! Laws of dumps.

ghost use Rattle.std.specs.Prelude.{◌≡◌, ◌++◌, List};
ghost use Rattle.redodb_model.specs.Names.{Text};
ghost use Rattle.redodb_model.specs.State.{State};
ghost use Rattle.redodb_dump.specs.Dumps.{IsStateOver, dump_of};

/// A text begins with the dump of at most one state over at most one list of names.
pub fn one_dump()
    ensures { (names others : List Text) (st su : State Text) (rest more : Text)
        → IsStateOver names st → IsStateOver others su
        → dump_of names st ++ rest ≡ dump_of others su ++ more
        → (names ≡ others) × (st ≡ su) × (rest ≡ more) }
{}
