//! Whether a name is a target, and the marks of those that stand at some places.

ghost use Rattle.std.specs.Prelude.{◌≡◌, ◌≢◌, ◌<◌, ◌↔◌, IsTrue, length, Contains};
ghost use Rattle.redodb_model.specs.Renaming.{AllBelow};
ghost use Rattle.redodb_model.specs.State.{Idle};
ghost use Rattle.redodb_records.specs.Cells.{cell_at};
ghost use Rattle.redodb_records.specs.Numbers.{numbers_there};
ghost use Rattle.redodb_memo.specs.NameSet.{Enters, size_of};

use redodb_memo::NameSet;
use redodb_records::{Place, Records, State};

pub(crate) fn is_target(records: &Records, t: u32) -> bool
    requires { t < length records.now }
    ensures { IsTrue result ↔ ((cell_at records.now t).state ≢ Idle) }
{
    !matches!(records.state(t), State::Idle)
}

// Marks the number of the place, if it is there and a target.
fn enter_place(records: &Records, place: &Place, marks: &mut NameSet)
    requires below { IsTrue place.now.is_there → place.now.number < size_of marks.old }
    requires sized { size_of marks.old ≡ length records.now }
    ensures { Enters (λ t. ((cell_at records.now t).state ≢ Idle)
        × IsTrue place.now.is_there × (t ≡ place.now.number)) marks.old marks.new }
{
    if let Some(t) = place.number() {
        let is_due = is_target(records, t);
        marks.enter_if(t, is_due);
    }
}

/// Marks those of the numbers that are there and targets.
pub(crate) fn enter_targets(records: &Records, places: &[Place], marks: &mut NameSet)
    requires below { AllBelow (size_of marks.old) (numbers_there places.now) }
    requires sized { size_of marks.old ≡ length records.now }
    ensures { Enters (λ t. ((cell_at records.now t).state ≢ Idle)
        × Contains (numbers_there places.now) t) marks.old marks.new }
{
    for place in places {
        enter_place(records, place, marks);
    }
}
