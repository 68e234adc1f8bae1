ghost use Rattle.std.specs.Prelude.{◌<◌, ◌↔◌, ℕ, IsTrue, IfOk, Contains};
ghost use Rattle.redodb_model.specs.Names.{IsListed, by_number};
ghost use Rattle.redodb_model.specs.OutOfDate.{IsStale};
ghost use Rattle.redodb_model.specs.Renaming.{AllBelow};
ghost use Rattle.redodb_database.specs.Tables.{tables_count, tables_records};

use crate::redo::Redo;
use crate::redo::lists::push_if;
use redodb_names::in_order;
use std::alloc::{AllocError, Global};

impl Redo {
    /// The stale ones of the names, each once, by ascending number.
    pub(super) fn stale(&self, alloc: Global, names: &[u32]) -> Result<Vec<u32>, AllocError>
        requires { AllBelow (tables_count self.now) names.now }
        ensures listed { IfOk result (λ stale. IsListed by_number
            (λ n. Contains names.now n × IsStale (tables_records self.now) n) stale.items) }
        ensures below { IfOk result (λ stale. AllBelow (tables_count self.now) stale.items) }
    {
        let stale = self.stale_among(alloc, names)?;
        Ok(in_order(stale))
    }

    /// The stale ones of the names, as often as they are named.
    fn stale_among(&self, alloc: Global, names: &[u32]) -> Result<Vec<u32>, AllocError>
        requires { AllBelow (tables_count self.now) names.now }
        ensures { IfOk result (λ stale. (n : ℕ) → Contains stale.items n
            ↔ (Contains names.now n × IsStale (tables_records self.now) n)) }
    {
        let mut stale = Vec::new(alloc);
        for &n in names {
            let is_due = self.is_stale(n);
            push_if(&mut stale, n, is_due)?;
        }
        Ok(stale)
    }

    /// Whether it is an out-of-date target, or an idle name without a file.
    fn is_stale(&self, n: u32) -> bool
        requires { n < tables_count self.now }
        ensures { IsTrue result ↔ IsStale (tables_records self.now) n }
    {
        self.is_out(n) || self.is_missing(n)
    }
}
