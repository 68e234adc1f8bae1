//! The memo of what is out of date, over cells and rows.

ghost use Rattle.std.specs.Prelude.{◌≡◌, length};
ghost use Rattle.redodb_model.specs.Renaming.{AllBelow};
ghost use Rattle.redodb_memo.specs.Memo.{IsRight, WasRight, memo_count};
ghost use Rattle.redodb_records.specs.Rows.{with_rows, rows_count};

use crate::hints::Hints;
use crate::needs::depends_on_marked;
use crate::reason::has_reason;
use crate::targets::enter_targets;
use redodb_memo::{Dependencies, Memo, NameSet};
use redodb_records::{DepRows, Records};

/// The cells and rows of the same names.
#[derive(Drop)]
struct Database<'a> {
    records: &'a Records,
    rows: &'a DepRows,
    ghost sized: { length records.now ≡ rows_count rows.now },
}

impl<'a> Dependencies for Database<'a> {
    type Hints = Hints;

    ghost records = { λ it. with_rows it.records.now it.rows.now };

    ghost names = { λ it. rows_count it.rows.now };

    #[inline]
    fn enter_dependents(&self, n: u32, marks: &mut NameSet) {
        enter_targets(self.records, self.rows.needed_by(n), marks);
    }

    #[inline]
    fn enter_holders(&self, n: u32, marks: &mut NameSet) {
        self.enter_dependents(n, marks);
        enter_targets(self.records, self.rows.awaited_by(n), marks);
    }

    #[inline]
    fn is_due(&self, t: u32, marks: &NameSet, hints: &mut Hints) -> bool {
        has_reason(self.records, self.rows, t, hints)
            || depends_on_marked(self.records, self.rows, marks, t)
    }
}

/// Makes the memo right for the records and rows; it was right before they changed at the seeds. Allocates nothing, and
/// looks only at the region of the seeds and its rows.
pub(crate) fn correct(
    memo: &mut Memo,
    hints: &mut Hints,
    records: &Records,
    rows: &DepRows,
    seeds: &[u32],
)
    requires records { length records.now ≡ memo_count memo.old }
    requires rows { rows_count rows.now ≡ memo_count memo.old }
    requires seeds { AllBelow (memo_count memo.old) seeds.now }
    requires right { WasRight seeds.now memo.old (with_rows records.now rows.now) }
    ensures right { IsRight memo.new (with_rows records.now rows.now) }
    ensures count { memo_count memo.new ≡ memo_count memo.old }
{
    let database = Database { records, rows };
    memo.refresh(&database, seeds, hints);
}
