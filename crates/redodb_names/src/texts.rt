//! Texts that lie one behind the other in memory.

ghost use Rattle.std.specs.Prelude.{◌≡◌, ◌<◌, ◌≤◌, ◌-◌, ◌++◌, ◌∷◌, [], List, ℕ, length, take, drop, OnOk, OnErr, slice_index_or};
ghost use Rattle.redodb_names.specs.Support.Texts.{pieces, start_at, AreEnds};

use std::alloc::{AllocError, Global};
use std::marker::Model;

/// A list of texts.
#[derive(Drop)]
pub(crate) struct Texts {
    bytes: Vec<u8>,
    // where each text ends; the next one begins there
    ends: Vec<usize>,
}

impl Model for Texts {
    ghost Value = { List (List ℕ) };

    ghost view = { λ texts. pieces 0 texts.ends.items texts.bytes.items };

    ghost invariant = { λ texts. AreEnds 0 texts.ends.items (length texts.bytes.items) };
}

/// Where the text of this number begins.
fn start_of(ends: &[usize], number: usize) -> usize
    requires { number ≤ length ends.now }
    ensures { result ≡ start_at 0 ends.now number }
{
    if number == 0 {
        return 0;
    }
    ends[number - 1]
}

/// The bytes from one place up to another.
fn part(bytes: &[u8], start: usize, end: usize) -> &[u8]
    requires order { start ≤ end }
    requires within { end ≤ length bytes.now }
    ensures { result.now ≡ take (end - start) (drop start bytes.now) }
{
    &bytes[start..end]
}

impl Texts {
    /// No texts.
    pub(crate) fn new(alloc: Global) -> Texts
        ensures { result ≡ [] }
    {
        Texts {
            bytes: Vec::new(alloc),
            ends: Vec::new(alloc),
        }
    }

    /// The text of this number.
    pub(crate) fn get(&self, number: usize) -> &[u8]
        requires { number < length self.now }
        ensures { result.now ≡ slice_index_or self.now number [] }
    {
        let start = start_of(&self.ends, number);
        part(&self.bytes, start, self.ends[number])
    }

    /// Puts a text behind the first `count` texts, in the place of all others. The first stay, also
    /// if memory runs out.
    pub(crate) fn put(&mut self, count: usize, text: &[u8]) -> Result<(), AllocError>
        requires { count ≤ length self.old }
        ensures put { OnOk result (self.new ≡ take count self.old ++ text.now ∷ []) }
        ensures err { OnErr result (take count self.new ≡ take count self.old) }
    {
        let start = start_of(&self.ends, count);
        self.ends.truncate(count);
        self.bytes.truncate(start);
        self.bytes.extend_from_slice(text)?;
        Ok(self.ends.push(self.bytes.len())?)
    }
}
