//! A set of numbers as bits of words: a list of its members passes 64 numbers at once where none is in it.

ghost use Rattle.std.specs.Prelude.{◌≡◌, ◌+◌, ◌*◌, ◌<◌, ◌≤◌, ℕ, IfOk, OnOk, length, false, true, replicate, slice_index_or, slice_set};
ghost use Rattle.redodb_model.specs.Names.{IsListed, by_number};
ghost use Rattle.redodb_model.specs.Renaming.{AllBelow};
ghost use Rattle.redodb_memo.specs.Bits.{IsSet};
ghost use Rattle.redodb_memo.specs.Support.Bits.{IsListedBelow};

use std::alloc::{AllocError, Global};
use std::marker::Model;

/// Which of the numbers below a count are in the set.
#[derive(Drop)]
pub struct Bits {
    words: Vec<u64>,
    count: u32,
}

impl Model for Bits {
    ghost use Rattle.std.specs.Prelude.{List, Bool};

    ghost Value = { List Bool };

    ghost use Rattle.redodb_memo.specs.Support.KeptBits.{flags_of, KeepsBits};

    ghost view = { flags_of };

    ghost invariant = { KeepsBits };
}

impl Bits {
    /// No number is in the set. But for `grown` and `list`, no other call allocates.
    pub fn new(alloc: Global, count: u32) -> Result<Bits, AllocError>
        ensures { IfOk result (λ bits. bits ≡ replicate count false) }
    {
        let words = vec![in alloc; 0; (count as usize + 63) / 64]?;
        Ok(Bits { words, count })
    }

    /// The same set among more numbers.
    pub fn grown(&self, alloc: Global, count: u32) -> Result<Bits, AllocError>
        requires { length self.now ≤ count }
        ensures count { IfOk result (λ bits. length bits ≡ count) }
        ensures same { IfOk result (λ bits. (t : ℕ)
            → slice_index_or bits t false ≡ slice_index_or self.now t false) }
    {
        let mut words = self.words.to_vec(alloc)?;
        words.resize((count as usize + 63) / 64, 0)?;
        Ok(Bits { words, count })
    }

    pub fn contains(&self, t: u32) -> bool
        requires { t < length self.now }
        ensures { result ≡ slice_index_or self.now t false }
    {
        self.words[t as usize / 64] >> (t % 64) & 1 == 1
    }

    pub fn insert(&mut self, t: u32)
        requires { t < length self.old }
        ensures { self.new ≡ slice_set self.old t true }
    {
        self.words[t as usize / 64] |= 1 << (t % 64);
    }

    pub fn remove(&mut self, t: u32)
        requires { t < length self.old }
        ensures { self.new ≡ slice_set self.old t false }
    {
        self.words[t as usize / 64] &= !(1 << (t % 64));
    }

    /// The numbers of the set, ascending.
    pub fn list(&self, alloc: Global) -> Result<Vec<u32>, AllocError>
        ensures listed { IfOk result (λ list. IsListed by_number (IsSet self.now) list.items) }
        ensures below { IfOk result (λ list. AllBelow (length self.now) list.items) }
    {
        let mut list = Vec::new(alloc);
        for k in 0..self.words.len() {
            self.push_members(&mut list, k)?;
        }
        Ok(list)
    }

    /// Puts the numbers of the set that the word has at the list's end.
    fn push_members(&self, list: &mut Vec<u32>, k: usize) -> Result<(), AllocError>
        requires word { k * 64 < length self.now }
        requires before { IsListedBelow self.now (k * 64) list.old.items }
        ensures { OnOk result (IsListedBelow self.now (k * 64 + 64) list.new.items) }
    {
        // the lowest bit that is left stands for `next`
        let mut left = self.words[k];
        let mut next = k as u32 * 64;
        'members: while left != 0 {
            let zeros = left.trailing_zeros();
            list.push(next + zeros)?;
            left = left >> zeros >> 1;
            next += zeros + 1;
        }
        Ok(())
    }
}
