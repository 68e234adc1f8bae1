//! The walk over what depends on what, in any database: the region of some names, and the out-of-date targets of that,
//! derived from those outside of it. The region is these names, the targets with a row on one of them, and all targets
//! from which a chain of change rows leads there.

ghost use Rattle.std.specs.Prelude.{◌≡◌, ◌↔◌, ◌<◌, ◌≤◌, ◌∷◌, [], ℕ, IsTrue, length, take, Contains};
ghost use Rattle.redodb_model.specs.State.{Records};
ghost use Rattle.redodb_model.specs.OutOfDate.{IsTarget, Depends, HasRow};
ghost use Rattle.redodb_model.specs.Support.OutOfDate.{TouchesSeed, InRegion};
ghost use Rattle.redodb_model.specs.Renaming.{AllBelow};
ghost use Rattle.redodb_memo.specs.NameSet.{IsMarked, IsQueued, Enters, size_of};
ghost use Rattle.redodb_memo.specs.Support.NameSet.{MarksOnly};
ghost use Rattle.redodb_memo.specs.Support.Regions.{IsDue, Spreads, IsClosed, EntersDue};

use crate::name_set::NameSet;

/// The cells and rows of a database: what a walk asks of them.
pub trait Dependencies {
    /// Where a reason of a target is looked for first; nothing rests on it.
    type Hints;

    ghost records: { Self → Records ℕ };

    /// How many names there are.
    ghost names: { Self → ℕ };

    /// Marks the targets that depend on the name.
    fn enter_dependents(&self, n: u32, marks: &mut NameSet)
        requires name { n < names self.now }
        requires sized { size_of marks.old ≡ names self.now }
        ensures { Enters (λ t. Depends (records self.now) t n) marks.old marks.new };

    /// Marks the targets with a row on the name.
    fn enter_holders(&self, n: u32, marks: &mut NameSet)
        requires name { n < names self.now }
        requires sized { size_of marks.old ≡ names self.now }
        ensures { Enters (λ t. IsTarget (records self.now) t × HasRow (records self.now) t n)
            marks.old marks.new };

    /// Whether it is a target that has a reason of its own, or depends on a marked name.
    fn is_due(&self, t: u32, marks: &NameSet, hints: &mut Self::Hints) -> bool
        requires target { t < names self.now }
        requires sized { size_of marks.now ≡ names self.now }
        ensures { IsTrue result ↔ IsDue (records self.now) marks.now t };
}

fn enter_each(names: &[u32], marks: &mut NameSet)
    requires { AllBelow (size_of marks.old) names.now }
    ensures { Enters (Contains names.now) marks.old marks.new }
{
    for &n in names {
        marks.enter(n);
    }
}

/// Marks the seeds and the targets with a row on one of them.
fn enter_touched<D: Dependencies>(database: &D, seeds: &[u32], marks: &mut NameSet)
    requires seeds { AllBelow (size_of marks.old) seeds.now }
    requires sized { size_of marks.old ≡ D.names database.now }
    ensures { Enters (TouchesSeed (D.records database.now) seeds.now) marks.old marks.new }
{
    enter_each(seeds, marks);
    for &n in seeds {
        database.enter_holders(n, marks);
    }
}

/// Marks the targets from which a chain of change rows leads to a name that is queued from this place on. All that
/// depend on the names before it are marked already.
fn spread<D: Dependencies>(database: &D, from: usize, marks: &mut NameSet)
    requires sized { size_of marks.old ≡ D.names database.now }
    requires from { from ≤ length marks.old.queue }
    requires closed { IsClosed (D.records database.now) (take from marks.old.queue) marks.old }
    ensures { Spreads (D.records database.now) marks.new.queue marks.old marks.new }
{
    let mut next = from;
    'names: while next < marks.queue_len() {
        let n = marks.queued(next);
        database.enter_dependents(n, marks);
        next += 1;
    }
}

/// Marks the region of the seeds; nothing is marked before. Returns how many names at the beginning of the queue touch
/// a seed.
pub(crate) fn find_region<D: Dependencies>(
    database: &D,
    seeds: &[u32],
    marks: &mut NameSet,
) -> usize
    requires seeds { AllBelow (size_of marks.old) seeds.now }
    requires sized { size_of marks.old ≡ D.names database.now }
    requires unmarked { (t : ℕ) → IsMarked marks.old t → ⊥ }
    requires empty { (t : ℕ) → IsQueued marks.old t → ⊥ }
    ensures region { MarksOnly (InRegion (D.records database.now) seeds.now) marks.new }
    ensures few { result ≤ length marks.new.queue }
    ensures touched { (t : ℕ) → TouchesSeed (D.records database.now) seeds.now t
        → Contains (take result marks.new.queue) t }
    ensures sized { size_of marks.new ≡ size_of marks.old }
{
    enter_touched(database, seeds, marks);
    let touched = marks.queue_len();
    spread(database, 0, marks);
    touched
}

/// Marks those of the names that are marked elsewhere.
pub(crate) fn enter_marked(elsewhere: &NameSet, names: &[u32], marks: &mut NameSet)
    requires below { AllBelow (size_of marks.old) names.now }
    requires sized { size_of marks.old ≡ size_of elsewhere.now }
    ensures { Enters (λ t. IsMarked elsewhere.now t × Contains names.now t) marks.old marks.new }
{
    for &t in names {
        let is_marked = elsewhere.contains(t);
        marks.enter_if(t, is_marked);
    }
}

/// Marks the target if it is due, and all that depend on it.
fn enter_due<D: Dependencies>(database: &D, t: u32, marks: &mut NameSet, hints: &mut D::Hints)
    requires target { t < D.names database.now }
    requires sized { size_of marks.old ≡ D.names database.now }
    requires closed { IsClosed (D.records database.now) marks.old.queue marks.old }
    ensures { EntersDue (D.records database.now) (t ∷ []) marks.old marks.new }
{
    if !marks.contains(t) && database.is_due(t, marks, hints) {
        let next = marks.queue_len();
        marks.enter(t);
        spread(database, next, marks);
    }
}

/// Marks those of the names that are due, and all that depend on them.
pub(crate) fn derive<D: Dependencies>(
    database: &D,
    names: &[u32],
    marks: &mut NameSet,
    hints: &mut D::Hints,
)
    requires names { AllBelow (size_of marks.old) names.now }
    requires sized { size_of marks.old ≡ D.names database.now }
    requires closed { IsClosed (D.records database.now) marks.old.queue marks.old }
    ensures { EntersDue (D.records database.now) names.now marks.old marks.new }
{
    for &t in names {
        enter_due(database, t, marks, hints);
    }
}
