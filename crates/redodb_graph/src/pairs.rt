ghost use Rattle.std.specs.Prelude.{◌≡◌, ◌↔◌, ◌<◌, ◌≤◌, ◌+◌, ◌^◌, ℕ, Some, Contains, length, slice_get, IfOk, IfSome, IsSome};
ghost use Rattle.redodb_graph.specs.Pairs.{AreAscending, AreThose, IsStart};

use crate::count::small;
use crate::once::{each_once, starts_of};
use std::alloc::{AllocError, Global};
use std::marker::Model;

/// Pairs of numbers in ascending order, each once, and where those of each first number begin.
#[derive(Drop)]
pub struct Pairs {
    pairs: Vec<(u32, u32)>,
    starts: Vec<u32>,
}

impl Model for Pairs {
    ghost use Rattle.std.specs.Prelude.{◌-◌, length};
    ghost use Rattle.redodb_graph.specs.Pairs.{PairsOf};

    ghost Value = { PairsOf };

    ghost use Rattle.redodb_graph.specs.Support.Pairs.{pairs_of, KeepsPairs};

    ghost view = { pairs_of };

    ghost invariant = { KeepsPairs };
}

impl Pairs {
    /// These pairs, whose first numbers are below `count`. 2^32 or more give `AllocError`.
    pub fn new(alloc: Global, count: u32, listed: Vec<(u32, u32)>) -> Result<Pairs, AllocError>
        requires { (p : ℕ × ℕ) → Contains listed.items p → p.0 < count }
        ensures count { IfOk result (λ made. made.count ≡ count) }
        ensures pairs { IfOk result (λ made. AreThose listed.items made.items) }
    {
        let pairs = each_once(alloc, count, &listed)?;
        small(pairs.len())?;
        let starts = starts_of(alloc, count, &pairs)?;
        Ok(Pairs { pairs, starts })
    }

    pub fn as_slice(&self) -> &[(u32, u32)]
        ensures pairs { result.now ≡ self.now.items }
        ensures ascending { AreAscending self.now.items }
        ensures few { length self.now.items < 2 ^ 32 }
    {
        &self.pairs
    }

    /// The place where the pairs begin whose first number isn't below this one.
    pub fn start(&self, first: u32) -> usize
        requires { first ≤ self.now.count }
        ensures start { IsStart self.now.items first result }
        ensures small { self.now.count < 2 ^ 32 }
    {
        self.starts[first as usize] as usize
    }

    /// The pairs with this first number.
    pub fn block(&self, first: u32) -> &[(u32, u32)]
        requires { first < self.now.count }
        ensures ascending { AreAscending result.now }
        ensures those { (p : ℕ × ℕ)
            → Contains result.now p ↔ (Contains self.now.items p × (p.0 ≡ first)) }
    {
        let (from, to) = (self.start(first), self.start(first + 1));
        &self.pairs[from..to]
    }

    /// The place of a pair, if it is one of them.
    pub fn find(&self, first: u32, second: u32) -> Option<u32>
        ensures found { IfSome result
            (λ place. slice_get self.now.items place ≡ Some (first, second)) }
        ensures there { IsSome result ↔ Contains self.now.items (first, second) }
    {
        if first as usize + 1 >= self.starts.len() {
            return None;
        }
        let (from, to) = (self.start(first), self.start(first + 1));
        match self.pairs[from..to].binary_search(&(first, second)) {
            Ok(place) => Some((from + place) as u32),
            Err(_) => None,
        }
    }

    /// The place of a pair, if it is one of them. Callers pass `guess`: a place that it may have. It
    /// is sooner found if that is right.
    pub fn find_guessed(&self, guess: u32, first: u32, second: u32) -> Option<u32>
        ensures found { IfSome result
            (λ place. slice_get self.now.items place ≡ Some (first, second)) }
        ensures there { IsSome result ↔ Contains self.now.items (first, second) }
    {
        match self.pairs.get(guess as usize) {
            Some(pair) if *pair == (first, second) => Some(guess),
            _ => self.find(first, second),
        }
    }
}
