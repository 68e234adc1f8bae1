ghost use Rattle.std.specs.Prelude.{◌≡◌, ◌<◌, ◌↔◌, ℕ, true, false, IsTrue, IsFalse, length, Contains};
ghost use Rattle.redodb_records.specs.Rows.{room_of};
ghost use Rattle.redodb_records.specs.Support.Kept.{IsInverse, has_change, has_created, cleared_at, numbers_at, FollowsOn};

use crate::numbers::Numbers;
use crate::target::Target;

/// Puts `t` into the list of `n`, unless it was there. Allocates nothing.
pub(crate) fn put_in(lists: &mut Vec<Numbers>, n: u32, t: u32, was: bool)
    requires name { n < length lists.old.items }
    requires was { Contains (numbers_at lists.old.items n).items t ↔ IsTrue was }
    requires room { IsFalse was
        → length (numbers_at lists.old.items n).items < (numbers_at lists.old.items n).room }
    ensures { FollowsOn n t was true lists.old.items lists.new.items }
{
    if !was {
        lists[n as usize].insert(t);
    }
}

/// Takes `t` out of the list of `n`, if it was there.
pub(crate) fn take_out(lists: &mut Vec<Numbers>, n: u32, t: u32, was: bool)
    requires name { n < length lists.old.items }
    requires was { Contains (numbers_at lists.old.items n).items t ↔ IsTrue was }
    ensures { FollowsOn n t was false lists.old.items lists.new.items }
{
    if was {
        lists[n as usize].remove(t);
    }
}

/// Takes the rows of `t` out of the inverses.
pub(crate) fn forget(
    targets: &Vec<Target>,
    t: u32,
    needed: &mut Vec<Numbers>,
    awaited: &mut Vec<Numbers>,
)
    requires target { t < length targets.now.items }
    requires names { (n : ℕ)
        → IsTrue (room_of targets.now.items t n) → n < length targets.now.items }
    requires needs { IsInverse has_change targets.now.items needed.old.items }
    requires awaits { IsInverse has_created targets.now.items awaited.old.items }
    ensures needs { IsInverse has_change (cleared_at targets.now.items t) needed.new.items }
    ensures awaits { IsInverse has_created (cleared_at targets.now.items t) awaited.new.items }
{
    for slot in targets[t as usize].slots() {
        let n = slot.name();
        take_out(needed, n, t, slot.has_change());
        take_out(awaited, n, t, slot.created());
    }
}
