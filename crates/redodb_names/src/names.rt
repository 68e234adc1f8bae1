ghost use Rattle.std.specs.Prelude.{◌≡◌, ◌<◌, ◌≤◌, ◌↔◌, List, ℕ, [], length, take, is_some, IsSome, IfSome, IfOk, OnOk, OnErr, IsOk, IsErrOf, slice_get, true, false};
ghost use Rattle.std.specs.Cmp.Lexicographic.{slice_cmp};
ghost use Rattle.std.specs.Ordering.{nat_cmp};
ghost use Rattle.redodb_model.specs.Names.{text_at};
ghost use Rattle.redodb_names.specs.declared.names.NamesFault.TheVariants.{Memory};
ghost use Rattle.redodb_names.specs.Names.{is_name, has, with_name};
ghost use Rattle.redodb_names.specs.Support.Names.{Extends, AreNames, AreNumbered};

use crate::name::ascii_text;
use crate::texts::Texts;
use std::alloc::{AllocError, AllocFailed, Global};
use std::cmp::Ordering;
use std::collections::HashMap;
use std::marker::Model;
use thiserror::Error;

/// How many names a run or a history has at most.
pub const MOST_NAMES: u32 = 65_536;

/// Why a name was not added.
#[derive(Debug, Drop, Error)]
pub enum NamesFault {
    /// Fault 1: there is no memory for another name.
    #[error("out of memory")]
    Memory,
    /// Fault 2: there are as many names as the caller allows, and this would be a new one.
    #[error("too many names")]
    Full,
}

impl From<AllocError> for NamesFault {
    ghost from_gives = { λ _ fault. fault ≡ Memory };

    fn from(_: AllocError) -> NamesFault {
        NamesFault::Memory
    }
}

impl<T: Drop> From<AllocFailed<T>> for NamesFault {
    ghost from_gives = { λ _ fault. fault ≡ Memory };

    fn from(_: AllocFailed<T>) -> NamesFault {
        NamesFault::Memory
    }
}

/// Where a name comes after another.
#[derive(Clone, Copy, Debug)]
pub enum Turn {
    /// It is the first of the names that a line lists after its target.
    First,
    /// It is the next in a list of names.
    Next,
}

/// The numbers that came after a name the last time: in the lines that followed, as the first of a list, and as the
/// next in a list. Each may be wrong.
#[derive(Clone, Copy)]
struct Followers {
    in_lines: u32,
    first: u32,
    next: u32,
}

// no name has this number
const NO_FOLLOWERS: Followers = Followers {
    in_lines: u32::MAX,
    first: u32::MAX,
    next: u32::MAX,
};

/// Distinct names, each with a number: its place in the order in which they were added.
#[derive(Drop)]
pub struct Names {
    // the number of each name
    numbers: HashMap<String, u32>,
    // the names, side by side, in which they are read; there may be other texts behind them
    texts: Texts,
    // how many names there are
    count: u32,
    // the number that was added or remembered last: the next name is often the same
    latest: u32,
    // what came after each name
    followers: Vec<Followers>,
}

impl Model for Names {
    ghost Value = { List (List ℕ) };

    ghost view = { λ names. take names.count names.texts };

    ghost invariant = { λ names. AreNumbered names.numbers names.count names.texts };
}

/// Takes the numbers of the names from `first` on out of the map.
fn forget(numbers: &mut HashMap<String, u32>, texts: &Texts, first: u32, count: u32)
    requires order { first ≤ count }
    requires numbered { AreNumbered numbers.old count texts.now }
    ensures { AreNumbered numbers.new first texts.now }
{
    for number in (first..count).rev() {
        numbers.remove(ascii_text(texts.get(number as usize)));
    }
}

impl Names {
    /// No names.
    pub fn new(alloc: Global) -> Self
        ensures { result ≡ [] }
    {
        Names {
            numbers: HashMap::new(alloc),
            texts: Texts::new(alloc),
            count: 0,
            latest: 0,
            followers: Vec::new(alloc),
        }
    }

    /// How many names there are.
    pub fn len(&self) -> u32
        ensures count { result ≡ length self.now }
        ensures names { AreNames self.now }
    {
        self.count
    }

    /// A law of names: they are distinct, each is a name, and there are fewer than 2^32.
    pub fn are_names(&self)
        ensures { AreNames self.now }
    {
        let _ = self.len();
    }

    /// The number of a text, if it is among the names.
    pub fn number_of(&self, text: &[u8]) -> Option<u32>
        ensures found { IfSome result (λ number. slice_get self.now number ≡ Some text.now) }
        ensures there { is_some result ≡ has self.now text.now }
    {
        if let Some(number) = self.if_at(self.latest, text) {
            return Some(number);
        }
        let next = self.followers_of(self.latest).in_lines;
        match self.if_at(next, text) {
            Some(number) => Some(number),
            None => self.search(text),
        }
    }

    /// The number that was added or remembered last, which may be that of no name.
    pub fn latest(&self) -> u32 {
        self.latest
    }

    /// The name that came after this one the last time, if that was noted: its number.
    pub fn follower(&self, before: u32, turn: Turn) -> Option<u32>
        ensures { IfSome result (λ number. number < length self.now) }
    {
        let followers = self.followers_of(before);
        let number = match turn {
            Turn::First => followers.first,
            Turn::Next => followers.next,
        };
        if number < self.len() {
            Some(number)
        } else {
            None
        }
    }

    /// Notes that a name came after another. Callers pass the numbers of both.
    pub fn note_follower(&mut self, before: u32, turn: Turn, number: u32)
        ensures { self.new ≡ self.old }
    {
        let Some(followers) = self.followers.get_mut(before as usize) else {
            return;
        };
        match turn {
            Turn::First => followers.first = number,
            Turn::Next => followers.next = number,
        }
    }

    /// What came after the name with this number.
    fn followers_of(&self, number: u32) -> Followers {
        match self.followers.get(number as usize) {
            Some(followers) => *followers,
            None => NO_FOLLOWERS,
        }
    }

    /// The number, if it is that of the text.
    fn if_at(&self, number: u32, text: &[u8]) -> Option<u32>
        ensures found { IfSome result (λ found. slice_get self.now found ≡ Some text.now) }
        ensures there { slice_get self.now number ≡ Some text.now → IsSome result }
    {
        if number < self.len() && self.text(number) == text {
            Some(number)
        } else {
            None
        }
    }

    /// The number of a text, if it is among the names, found by its hash.
    fn search(&self, text: &[u8]) -> Option<u32>
        ensures found { IfSome result (λ number. slice_get self.now number ≡ Some text.now) }
        ensures there { is_some result ≡ has self.now text.now }
    {
        self.are_names();
        if !text.is_ascii() {
            return None;
        }
        self.numbers.get(ascii_text(text)).copied()
    }

    /// Remembers a number: a text that is looked up next is compared with its name first, and then with the name that
    /// was remembered after it the last time.
    pub fn remember(&mut self, number: u32)
        ensures { self.new ≡ self.old }
    {
        if number == self.latest {
            return;
        }
        if let Some(followers) = self.followers.get_mut(self.latest as usize) {
            followers.in_lines = number;
        }
        self.latest = number;
    }

    /// The name with this number.
    pub fn text(&self, number: u32) -> &[u8]
        requires { number < length self.now }
        ensures { result.now ≡ text_at self.now number }
    {
        self.texts.get(number as usize)
    }

    /// How two names compare, by their bytes.
    pub fn order(&self, a: u32, b: u32) -> Ordering
        requires first { a < length self.now }
        requires second { b < length self.now }
        ensures { result ≡ slice_cmp nat_cmp (text_at self.now a) (text_at self.now b) }
    {
        self.text(a).cmp(self.text(b))
    }

    /// The number of a name, which is added at the end if it is new and there are fewer than `most` names.
    ///
    /// A name that is known keeps its number, and adding it again never fails.
    pub fn add(&mut self, text: &[u8], most: u32) -> Result<u32, NamesFault>
        requires { is_name text.now ≡ true }
        ensures added { OnOk result (self.new ≡ with_name self.old text.now) }
        ensures number { IfOk result (λ number. slice_get self.new number ≡ Some text.now) }
        ensures within { IfOk result (λ number. number < length self.new) }

        ensures full { IsErrOf result NamesFault.Full
            ↔ ((most ≤ length self.old) × (has self.old text.now ≡ false)) }
        ensures there { has self.old text.now ≡ true → IsOk result }
        ensures err { OnErr result (self.new ≡ self.old) }

        ensures kept { Extends self.old self.new }
        ensures few { length self.old ≤ most → OnOk result (length self.new ≤ most) }
        ensures names { AreNames self.new }
    {
        if let Some(number) = self.number_of(text) {
            self.remember(number);
            return Ok(number);
        }
        let number = self.count;
        if number >= most {
            return Err(NamesFault::Full);
        }
        let alloc = *self.followers.allocator();
        let name = String::from_str(alloc, ascii_text(text))?;
        self.followers.resize(number as usize + 1, NO_FOLLOWERS)?;
        self.texts.put(number as usize, text)?;
        self.numbers.insert(name, number)?;
        self.count = number + 1;
        self.remember(number);
        Ok(number)
    }

    /// Forgets all names but the first `count`. Allocates nothing.
    pub fn keep_first(&mut self, count: u32)
        requires { count ≤ length self.old }
        ensures { self.new ≡ take count self.old }
    {
        forget(&mut self.numbers, &self.texts, count, self.count);
        self.count = count;
    }
}
