//! How a change of some names affects what is out of date: outside of the region of these names not at all, and inside
//! of it what is out of date outside determines all.

ghost use Rattle.redodb_model.specs.Names.{Text};
ghost use Rattle.redodb_model.specs.OutOfDate.{Depends, HasReason, OutOfDate};
ghost use Rattle.redodb_model.specs.Support.OutOfDate.{DifferAt, InRegion};
ghost use Rattle.redodb_model.specs.State.{Records};
ghost use Rattle.std.specs.Prelude.{◌↔◌, Bool, IsTrue, List};

/// The out-of-date targets are the least set that has each target with a reason of its own and each
/// target that depends on one of the set.
pub fn out_of_date_is_least()
    ensures reasons { (records : Records Text) (t : Text) →
        HasReason records t → OutOfDate records t }
    ensures dependents { (records : Records Text) (t n : Text) →
        Depends records t n → OutOfDate records n → OutOfDate records t }
    ensures least { (records : Records Text) (marked : Text → Bool) →
        ((t : Text) → HasReason records t → IsTrue (marked t)) →
        ((t n : Text) → Depends records t n → IsTrue (marked n) → IsTrue (marked t)) →
        (t : Text) → OutOfDate records t → IsTrue (marked t) }
{}

/// If records differ only at the seeds, the same targets are out of date outside of their region.
pub fn outside_region_as_before()
    ensures { (seeds : List Text) (old new : Records Text) (t : Text) →
        DifferAt seeds old new → (InRegion new seeds t → ⊥) →
        OutOfDate old t ↔ OutOfDate new t }
{}

/// A set is all that is out of date if it has what was out of date outside of the region, and inside of it each target
/// with a reason of its own and each target that depends on one of the set.
pub fn region_derived_again()
    ensures { (seeds : List Text) (old new : Records Text) (marked : Text → Bool) →
        DifferAt seeds old new →
        ((t : Text) → (InRegion new seeds t → ⊥) → OutOfDate old t → IsTrue (marked t)) →
        ((t : Text) → InRegion new seeds t → HasReason new t → IsTrue (marked t)) →
        ((t n : Text) → InRegion new seeds t → Depends new t n → IsTrue (marked n) →
        IsTrue (marked t)) →
        (t : Text) → OutOfDate new t → IsTrue (marked t) }
{}
