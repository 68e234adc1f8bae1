//! Which targets are out of date: a memo that is corrected after each change, in the region of the names that changed.

ghost use Rattle.std.specs.Prelude.{◌≡◌, ◌<◌, ◌≤◌, ℕ, IsTrue, IfOk};
ghost use Rattle.redodb_model.specs.Names.{IsListed, by_number};
ghost use Rattle.redodb_model.specs.Renaming.{AllBelow};
ghost use Rattle.redodb_model.specs.State.{empty};
ghost use Rattle.redodb_memo.specs.Memo.{memo_count, is_out, IsRight, WasRight};

use crate::name_set::NameSet;
use crate::walk::{Dependencies, derive, enter_marked, find_region};
use std::alloc::{AllocError, Global};
use std::marker::Model;

/// Which targets are out of date: those from which a chain of change rows leads to a target with a reason of its own.
/// Names are numbers below the number of names it was made for.
#[derive(Drop)]
pub struct Memo {
    /// The out-of-date targets.
    pub out: NameSet,
    /// Room for a walk or a search: nothing is marked in it between two calls.
    pub region: NameSet,
    // nor in this one
    outdated: NameSet,
}

impl Model for Memo {
    ghost use Rattle.std.specs.Prelude.{List, Bool};

    ghost Value = { List Bool };

    ghost use Rattle.redodb_memo.specs.Support.KeptMemo.{memo_of, KeepsMemo};

    ghost view = { memo_of };

    ghost invariant = { KeepsMemo };
}

impl Memo {
    /// Nothing is out of date. This allocates all that a refresh needs.
    pub fn new(alloc: Global, names: u32) -> Result<Memo, AllocError>
        ensures count { IfOk result (λ memo. memo_count memo ≡ names) }
        ensures right { IfOk result (λ memo. IsRight memo empty.records) }
    {
        let out = NameSet::new(alloc, names)?;
        let region = NameSet::new(alloc, names)?;
        let outdated = NameSet::new(alloc, names)?;
        Ok(Memo {
            out,
            region,
            outdated,
        })
    }

    /// The same memo with more names, none of which is out of date.
    pub fn grown(&self, alloc: Global, names: u32) -> Result<Memo, AllocError>
        requires { memo_count self.now ≤ names }
        ensures count { IfOk result (λ memo. memo_count memo ≡ names) }
        ensures same { IfOk result (λ memo. (t : ℕ) → is_out memo t ≡ is_out self.now t) }
    {
        let out = self.out.grown(alloc, names)?;
        let region = NameSet::new(alloc, names)?;
        let outdated = NameSet::new(alloc, names)?;
        Ok(Memo {
            out,
            region,
            outdated,
        })
    }

    /// Makes the memo right for the database; it was right before that changed at the seeds. Allocates nothing, and
    /// looks only at the region of the seeds and its rows.
    pub fn refresh<D: Dependencies>(&mut self, database: &D, seeds: &[u32], hints: &mut D::Hints)
        requires names { D.names database.now ≡ memo_count self.old }
        requires seeds { AllBelow (memo_count self.old) seeds.now }
        requires right { WasRight seeds.now self.old (D.records database.now) }
        ensures right { IsRight self.new (D.records database.now) }
        ensures count { memo_count self.new ≡ memo_count self.old }
    {
        let touching = find_region(database, seeds, &mut self.region);
        let region = self.region.queue();
        let (touched, others) = region.split_at(touching);
        enter_marked(&self.out, others, &mut self.outdated);
        self.out.unmark(region);
        // the others can be out of date by their own rows only if they were before
        derive(database, touched, &mut self.out, hints);
        derive(database, self.outdated.queue(), &mut self.out, hints);
        self.outdated.unmark_queue();
        self.region.unmark_queue();
    }

    /// Whether it is an out-of-date target.
    pub fn is(&self, t: u32) -> bool
        requires { t < memo_count self.now }
        ensures { result ≡ is_out self.now t }
    {
        self.out.contains(t)
    }

    /// The marks of the out-of-date targets.
    pub fn marks(&self) -> &NameSet
        ensures { result.now.marks ≡ self.now }
    {
        &self.out
    }

    /// The out-of-date targets, by ascending number.
    pub fn list(&self, alloc: Global) -> Result<Vec<u32>, AllocError>
        ensures listed { IfOk result (λ targets.
            IsListed by_number (λ t. IsTrue (is_out self.now t)) targets.items) }
        ensures below { IfOk result (λ targets. AllBelow (memo_count self.now) targets.items) }
    {
        self.out.list(alloc)
    }
}
