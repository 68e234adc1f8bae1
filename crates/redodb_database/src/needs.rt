//! Whether a target depends on a marked name.

ghost use Rattle.std.specs.Prelude.{◌≡◌, ◌<◌, ◌↔◌, ℕ, IsTrue, IsSome, length};
ghost use Rattle.redodb_model.specs.OutOfDate.{Depends};
ghost use Rattle.redodb_records.specs.Rows.{with_rows, rows_of, rows_count};
ghost use Rattle.redodb_memo.specs.NameSet.{IsMarked, size_of};

use crate::targets::is_target;
use redodb_memo::NameSet;
use redodb_records::{DepRows, Records, Slot};

/// Whether the slot has a change row, and its name is marked.
pub(crate) fn needs_marked(slot: &Slot, marks: &NameSet) -> bool
    requires { slot.now.name < size_of marks.now }
    ensures { IsTrue result ↔ (IsSome slot.now.change × IsMarked marks.now slot.now.name) }
{
    marks.contains(slot.name()) && slot.has_change()
}

// Whether the target has a change row on a marked name.
fn needs_any_marked(rows: &DepRows, marks: &NameSet, t: u32) -> bool
    requires target { t < rows_count rows.now }
    requires sized { size_of marks.now ≡ rows_count rows.now }
    ensures { IsTrue result
        ↔ ((n : ℕ) × IsSome ((rows_of rows.now).change t n) × IsMarked marks.now n) }
{
    for slot in rows.slots_of(t) {
        if needs_marked(slot, marks) {
            return true;
        }
    }
    false
}

/// Whether it is a target that depends on a marked name.
pub(crate) fn depends_on_marked(records: &Records, rows: &DepRows, marks: &NameSet, t: u32) -> bool
    requires target { t < rows_count rows.now }
    requires records { length records.now ≡ rows_count rows.now }
    requires sized { size_of marks.now ≡ rows_count rows.now }
    ensures { IsTrue result
        ↔ ((n : ℕ) × Depends (with_rows records.now rows.now) t n × IsMarked marks.now n) }
{
    is_target(records, t) && needs_any_marked(rows, marks, t)
}
