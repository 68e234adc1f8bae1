ghost use Rattle.std.specs.Prelude.{◌≡◌, ◌+◌, ◌≤◌, ℕ, length, replicate, slice_index_or, vec_capacity, IfOk, OnOk};
ghost use Rattle.redodb_records.specs.Rows.{bare};
ghost use Rattle.redodb_records.specs.Support.Kept.{AreEmpty};

use crate::lists::extended;
use crate::numbers::Numbers;
use crate::target::Target;
use std::alloc::{AllocError, Global};

/// What more names take that have no rows and no slots.
#[derive(Drop)]
pub(crate) struct More {
    pub(crate) targets: Vec<Target>,
    pub(crate) needed: Vec<Numbers>,
    pub(crate) awaited: Vec<Numbers>,
    /// For each name, the earlier ones too, how many targets have a slot for it.
    pub(crate) slotted: Vec<usize>,
}

/// What that many more names take, if there are `names` in all then.
pub(crate) fn more_names(
    alloc: Global,
    more: usize,
    slotted: &[usize],
    names: usize,
) -> Result<More, AllocError>
    requires { length slotted.now ≤ names }
    ensures targets { IfOk result (λ made. made.targets.items ≡ replicate more bare) }
    ensures needed { IfOk result (λ made. length made.needed.items ≡ more) }
    ensures awaited { IfOk result (λ made. length made.awaited.items ≡ more) }
    ensures no_needed { IfOk result (λ made. AreEmpty made.needed.items) }
    ensures no_awaited { IfOk result (λ made. AreEmpty made.awaited.items) }
    ensures count { IfOk result (λ made. length made.slotted.items ≡ names) }
    ensures same { IfOk result (λ made. (n : ℕ)
        → slice_index_or made.slotted.items n 0 ≡ slice_index_or slotted.now n 0) }
{
    let slotted = extended(alloc, slotted, names, 0)?;
    let awaited = empty_lists(alloc, more)?;
    let needed = empty_lists(alloc, more)?;
    let targets = bare_targets(alloc, more)?;
    Ok(More {
        targets,
        needed,
        awaited,
        slotted,
    })
}

fn bare_targets(alloc: Global, count: usize) -> Result<Vec<Target>, AllocError>
    ensures { IfOk result (λ targets. targets.items ≡ replicate count bare) }
{
    let mut targets = Vec::with_capacity(alloc, count)?;
    'fill: for _ in 0..count {
        targets.push(Target::new(alloc))?;
    }
    Ok(targets)
}

fn empty_lists(alloc: Global, count: usize) -> Result<Vec<Numbers>, AllocError>
    ensures count { IfOk result (λ lists. length lists.items ≡ count) }
    ensures empty { IfOk result (λ lists. AreEmpty lists.items) }
{
    let mut lists = Vec::with_capacity(alloc, count)?;
    'fill: for _ in 0..count {
        lists.push(Numbers::new(alloc))?;
    }
    Ok(lists)
}

/// Reserves memory for exactly that many more of each.
pub(crate) fn reserve_each(
    targets: &mut Vec<Target>,
    needed: &mut Vec<Numbers>,
    awaited: &mut Vec<Numbers>,
    more: usize,
) -> Result<(), AllocError>
    ensures targets { targets.new.items ≡ targets.old.items }
    ensures needed { needed.new.items ≡ needed.old.items }
    ensures awaited { awaited.new.items ≡ awaited.old.items }

    ensures room { OnOk result (length targets.new.items + more ≤ vec_capacity targets.new) }
    ensures needed_room { OnOk result
        (length needed.new.items + more ≤ vec_capacity needed.new) }
    ensures awaited_room { OnOk result
        (length awaited.new.items + more ≤ vec_capacity awaited.new) }
{
    targets.reserve_exact(more)?;
    needed.reserve_exact(more)?;
    awaited.reserve_exact(more)
}
