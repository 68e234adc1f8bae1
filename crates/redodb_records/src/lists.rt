//! Copies of lists with more places.

ghost use Rattle.std.specs.Prelude.{◌≡◌, ◌≤◌, ℕ, length, slice_index_or, IfOk};

use std::alloc::{AllocError, Global};

/// A copy of the list with that many places; each new one has `rest`.
pub fn extended<T: Copy + Drop>(
    alloc: Global,
    items: &[T],
    count: usize,
    rest: T,
) -> Result<Vec<T>, AllocError>
    requires { length items.now ≤ count }
    ensures count { IfOk result (λ all. length all.items ≡ count) }
    ensures same { IfOk result (λ all. (k : ℕ)
        → slice_index_or all.items k rest ≡ slice_index_or items.now k rest) }
{
    let mut all = Vec::with_capacity(alloc, count)?;
    all.extend_from_slice(items)?;
    all.resize(count, rest)?;
    Ok(all)
}
