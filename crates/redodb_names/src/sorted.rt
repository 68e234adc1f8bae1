//! The numbers of all names, in order, and the place of each.

ghost use Rattle.std.specs.Prelude.{◌≡◌, ◌<◌, ◌^◌, length, map, IfOk};
ghost use Rattle.redodb_model.specs.Renaming.{AllBelow};
ghost use Rattle.redodb_names.specs.Orders.{AreSorted, AreRanks};
ghost use Rattle.redodb_names.specs.Support.Names.{AreNames};
ghost use Rattle.redodb_names.specs.Support.Numbered.{AreNumbered};

use crate::Names;
use std::alloc::{AllocError, Global};

/// Each number with its name.
fn numbered(alloc: Global, names: &Names) -> Result<Vec<(&[u8], u32)>, AllocError>
    ensures names { AreNames names.now }
    ensures pairs { IfOk result (λ pairs. AreNumbered names.now (length names.now) pairs.items) }
{
    let mut pairs = Vec::new(alloc);
    for n in 0..names.len() {
        pairs.push((names.text(n), n))?;
    }
    Ok(pairs)
}

fn numbers_of(alloc: Global, pairs: &[(&[u8], u32)]) -> Result<Vec<u32>, AllocError>
    ensures { IfOk result (λ numbers. numbers.items ≡ map (λ pair. pair.1) pairs.now) }
{
    pairs.iter().map(|pair| pair.1).collect(alloc)
}

/// The numbers of all names, in the order of the bytes of their names.
pub fn sorted_numbers(alloc: Global, names: &Names) -> Result<Vec<u32>, AllocError>
    ensures { IfOk result (λ sorted. AreSorted names.now sorted.items) }
{
    let mut pairs = numbered(alloc, names)?;
    pairs.sort()?;
    numbers_of(alloc, &pairs)
}

/// The place of each number in the list.
pub fn ranks_of(alloc: Global, sorted: &[u32]) -> Result<Vec<u32>, AllocError>
    requires below { AllBelow (length sorted.now) sorted.now }
    requires few { length sorted.now < 2 ^ 32 }
    ensures { IfOk result (λ ranks. AreRanks sorted.now ranks.items) }
{
    let mut ranks = vec![in alloc; 0; sorted.len()]?;
    for k in 0..sorted.len() {
        ranks[sorted[k] as usize] = k as u32;
    }
    Ok(ranks)
}
