//! Lists in order, by places in the list of all names.

ghost use Rattle.std.specs.Prelude.{◌≡◌, ◌<◌, ◌↔◌, ℕ, IfOk, All, AllPairs, Contains, length, map, slice_index};

use std::alloc::{AllocError, Global};

/// The same numbers, each once, in order.
pub fn in_order(mut ranks: Vec<u32>) -> Vec<u32>
    ensures rising { AllPairs (λ j k. j < k) result.items }
    ensures same { (k : ℕ) → Contains result.items k ↔ Contains ranks.items k }
{
    ranks.sort_unstable();
    ranks.dedup();
    ranks
}

/// The names at these places of the order.
pub fn names_at(alloc: Global, sorted: &[u32], places: &[u32]) -> Result<Vec<u32>, AllocError>
    requires { All (λ k. k < length sorted.now) places.now }
    ensures { IfOk result (λ names.
        names.items ≡ map (λ k. slice_index sorted.now k) places.now) }
{
    let mut names = Vec::with_capacity(alloc, places.len())?;
    for &k in places {
        names.push(sorted[k as usize])?;
    }
    Ok(names)
}
