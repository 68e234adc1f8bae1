//! A set of names by marks, and a queue of the names that were marked. A name enters the queue once, so a queue with
//! capacity for all names allocates nothing.

ghost use Rattle.std.specs.Prelude.{◌≡◌, ◌↔◌, ◌<◌, ◌≤◌, ◌^◌, ℕ, IsTrue, [], IfOk, length, false, replicate, slice_index, slice_index_or, Contains};
ghost use Rattle.redodb_model.specs.Names.{IsListed, by_number};
ghost use Rattle.redodb_model.specs.Renaming.{AllBelow};
ghost use Rattle.redodb_memo.specs.Bits.{IsSet};
ghost use Rattle.redodb_memo.specs.NameSet.{Marked, IsMarked, IsQueued, IsQueue, Enters, Unmarks, size_of, with_name};

use crate::bits::Bits;
use std::alloc::{AllocError, Global};
use std::marker::Model;

/// Which names are marked, and a queue of those that were marked since it was emptied. Names are numbers below the
/// number of names it was made for.
#[derive(Drop)]
pub struct NameSet {
    marks: Bits,
    queue: Vec<u32>,
}

impl Model for NameSet {
    ghost use Rattle.redodb_memo.specs.NameSet.{Marked};

    ghost Value = { Marked };

    ghost use Rattle.redodb_memo.specs.Support.KeptNames.{marked_of, KeepsMarked};

    ghost view = { marked_of };

    ghost invariant = { KeepsMarked };
}

fn unmark_each(marks: &mut Bits, names: &[u32])
    requires { AllBelow (length marks.old) names.now }
    ensures sized { length marks.new ≡ length marks.old }
    ensures each { (t : ℕ) → IsSet marks.new t
        ↔ (IsSet marks.old t × (Contains names.now t → ⊥)) }
{
    for &t in names {
        marks.remove(t);
    }
}

impl NameSet {
    /// No name is marked. But for `grown` and `list`, no other call allocates.
    pub fn new(alloc: Global, names: u32) -> Result<NameSet, AllocError>
        ensures { IfOk result (λ marks.
            marks ≡ record { marks = replicate names false; queue = [] }) }
    {
        let marks = Bits::new(alloc, names)?;
        let queue = Vec::with_capacity(alloc, names as usize)?;
        Ok(NameSet { marks, queue })
    }

    /// The same marks with more names, none of which is marked, and an empty queue.
    pub fn grown(&self, alloc: Global, names: u32) -> Result<NameSet, AllocError>
        requires { size_of self.now ≤ names }
        ensures sized { IfOk result (λ marks. size_of marks ≡ names) }
        ensures same { IfOk result (λ marks. (t : ℕ)
            → slice_index_or marks.marks t false ≡ slice_index_or self.now.marks t false) }
    {
        let marks = self.marks.grown(alloc, names)?;
        let queue = Vec::with_capacity(alloc, names as usize)?;
        Ok(NameSet { marks, queue })
    }

    pub fn contains(&self, t: u32) -> bool
        requires { t < size_of self.now }
        ensures { result ≡ slice_index_or self.now.marks t false }
    {
        self.marks.contains(t)
    }

    /// The marked names, ascending.
    pub fn list(&self, alloc: Global) -> Result<Vec<u32>, AllocError>
        ensures listed { IfOk result (λ names. IsListed by_number (IsMarked self.now) names.items) }
        ensures below { IfOk result (λ names. AllBelow (size_of self.now) names.items) }
    {
        self.marks.list(alloc)
    }

    /// The names that were marked since the queue was emptied.
    pub fn queue(&self) -> &[u32]
        ensures queue { result.now ≡ self.now.queue }
        ensures kept { IsQueue self.now }
        ensures below { AllBelow (size_of self.now) result.now }
    {
        &self.queue
    }

    /// How many names were marked since.
    pub fn queue_len(&self) -> usize
        ensures len { result ≡ length self.now.queue }
        ensures few { result ≤ size_of self.now }
        ensures short { result < 2 ^ 32 }
    {
        self.queue.len()
    }

    /// The name at this place of the queue.
    pub fn queued(&self, k: usize) -> u32
        requires { k < length self.now.queue }
        ensures name { result ≡ slice_index self.now.queue k }
        ensures below { result < size_of self.now }
    {
        self.queue[k]
    }

    /// Marks a name that isn't marked, and puts it at the queue's end.
    pub fn enter_new(&mut self, t: u32)
        requires below { t < size_of self.old }
        requires unmarked { slice_index_or self.old.marks t false ≡ false }
        ensures { self.new ≡ with_name self.old t }
    {
        self.marks.insert(t);
        self.queue.push_reserved(t);
    }

    /// Marks the name, and puts it into the queue if it wasn't marked.
    pub fn enter(&mut self, t: u32)
        requires { t < size_of self.old }
        ensures { Enters (λ u. u ≡ t) self.old self.new }
    {
        if !self.marks.contains(t) {
            self.enter_new(t);
        }
    }

    pub fn enter_if(&mut self, t: u32, is_due: bool)
        requires { t < size_of self.old }
        ensures { Enters (λ u. IsTrue is_due × (u ≡ t)) self.old self.new }
    {
        if is_due {
            self.enter(t);
        }
    }

    /// Empties the queue, and removes the marks of these names.
    pub fn unmark(&mut self, names: &[u32])
        requires { AllBelow (size_of self.old) names.now }
        ensures { Unmarks (Contains names.now) self.old self.new }
    {
        self.queue.clear();
        unmark_each(&mut self.marks, names);
    }

    /// Empties the queue, and removes the marks of its names.
    pub fn unmark_queue(&mut self)
        ensures { Unmarks (IsQueued self.old) self.old self.new }
    {
        unmark_each(&mut self.marks, &self.queue);
        self.queue.clear();
    }
}
